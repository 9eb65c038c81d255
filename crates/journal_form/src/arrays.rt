//! The fields of records that stand side by side, as arrays that are written in one piece.
ghost use Rattle.std.specs.Prelude.{◌≡◌, ◌++◌, ◌∷◌, [], codes};
ghost use Rattle.std.specs.Int.{w32, w64, to_be_bytes};
ghost use Rattle.fixed_num.specs.Milli.{milli_bytes};
ghost use Rattle.journal_form.specs.Form.{ask_bytes, end_byte, fault_bytes};

use carbon_history::PutEnd;
use fixed_num::{Milli, milli_bytes};

/// What stands before the files of a head.
pub(crate) fn head_array(limit: u64, order: u8) -> [u8; 17]
    ensures { result ≡ codes "carbonj1" ++ (to_be_bytes w64 limit ++ order ∷ []) }
{
    let [a, b, c, d, e, f, g, h] = limit.to_be_bytes();
    [
        b'c', b'a', b'r', b'b', b'o', b'n', b'j', b'1', a, b, c, d, e, f, g, h, order,
    ]
}

/// What stands behind the path of a put.
pub(crate) fn put_end_array(time: u32, value: Milli, end: PutEnd) -> [u8; 21]
    ensures { result ≡ to_be_bytes w32 time ++ (milli_bytes value ++ end_byte end ∷ []) }
{
    let [a, b, c, d] = time.to_be_bytes();
    let [e, f, g, h, i, j, k, l, m, n, o, p, q, r, s, t] = milli_bytes(value);
    [
        a,
        b,
        c,
        d,
        e,
        f,
        g,
        h,
        i,
        j,
        k,
        l,
        m,
        n,
        o,
        p,
        q,
        r,
        s,
        t,
        byte_of(end),
    ]
}

fn byte_of(end: PutEnd) -> u8
    ensures { result ≡ end_byte end }
{
    match end {
        PutEnd::Stored => 0,
        PutEnd::Replaced => 1,
        PutEnd::Full => 2,
    }
}

#[tactic(auto, unfolding(crate::specs::Form::ask_bytes))]
pub(crate) fn ask_array(pass: u32, number: u64, attempt: u32, now: u64) -> [u8; 25]
    ensures { result ≡ ask_bytes pass number attempt now }
{
    let [a, b, c, d] = pass.to_be_bytes();
    let [e, f, g, h, i, j, k, l] = number.to_be_bytes();
    let [m, n, o, p] = attempt.to_be_bytes();
    let [q, r, s, t, u, v, w, x] = now.to_be_bytes();
    [
        3, a, b, c, d, e, f, g, h, i, j, k, l, m, n, o, p, q, r, s, t, u, v, w, x,
    ]
}

#[tactic(auto, unfolding(crate::specs::Form::fault_bytes))]
pub(crate) fn fault_array(pass: u32, class: u32) -> [u8; 9]
    ensures { result ≡ fault_bytes pass class }
{
    let [a, b, c, d] = pass.to_be_bytes();
    let [e, f, g, h] = class.to_be_bytes();
    [4, a, b, c, d, e, f, g, h]
}

/// What stands before the texts of a reply.
pub(crate) fn reply_array(pass: u32, number: u64) -> [u8; 13]
    ensures { result ≡ 5 ∷ (to_be_bytes w32 pass ++ to_be_bytes w64 number) }
{
    let [a, b, c, d] = pass.to_be_bytes();
    let [e, f, g, h, i, j, k, l] = number.to_be_bytes();
    [5, a, b, c, d, e, f, g, h, i, j, k, l]
}
