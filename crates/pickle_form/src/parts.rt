//! The parts of pickles.
ghost use Rattle.std.specs.Prelude.{◌≡◌, ◌∷◌, [], ◌++◌, ◌^◌, ◌<◌, OnOk, pos};
ghost use Rattle.pickle_form.specs.Pickle.{boolean_code, double_code, text_code, whole_code};
ghost use Rattle.pickle_form.specs.Value.{IsShort};

use std::alloc::AllocError;

/// Appends what a pickle begins with.
pub fn push_head(out: &mut Vec<u8>) -> Result<(), AllocError>
    ensures { OnOk result (out.new.items ≡ out.old.items ++ 128 ∷ (2 ∷ [])) }
{
    out.extend_from_slice(&[0x80, 2])
}

/// Appends a text. One whose length 32 bits do not hold is want of memory.
#[tactic(auto, unfolding(crate::specs::Pickle::text_code))]
pub fn push_text(out: &mut Vec<u8>, text: &[u8]) -> Result<(), AllocError>
    ensures code { OnOk result (out.new.items ≡ out.old.items ++ text_code text.now) }
    ensures short { OnOk result (IsShort text.now) }
{
    let Ok(length) = u32::try_from(text.len()) else {
        return Err(AllocError);
    };
    let [a, b, c, d] = length.to_le_bytes();
    out.extend_from_slice(&[b'X', a, b, c, d])?;
    out.extend_from_slice(text)
}

/// Appends a whole number. One that 64 bits with a sign do not hold is want of memory.
#[tactic(auto, unfolding(crate::specs::Pickle::whole_code))]
pub fn push_whole(out: &mut Vec<u8>, number: u64) -> Result<(), AllocError>
    ensures code { OnOk result (out.new.items ≡ out.old.items ++ whole_code (pos number)) }
    ensures fits { OnOk result (number < 2 ^ 63) }
{
    if number < 1 << 31 {
        let [a, b, c, d] = (number as u32).to_le_bytes();
        return out.extend_from_slice(&[b'J', a, b, c, d]);
    }
    if number >= 1 << 63 {
        return Err(AllocError);
    }
    let [a, b, c, d, e, f, g, h] = number.to_le_bytes();
    out.extend_from_slice(&[0x8a, 8, a, b, c, d, e, f, g, h])
}

/// Appends a double.
#[inline(always)]
#[tactic(auto, unfolding(crate::specs::Pickle::double_code))]
pub fn push_double(out: &mut Vec<u8>, bits: u64) -> Result<(), AllocError>
    ensures { OnOk result (out.new.items ≡ out.old.items ++ double_code bits) }
{
    let [a, b, c, d, e, f, g, h] = bits.to_be_bytes();
    out.extend_from_slice(&[b'G', a, b, c, d, e, f, g, h])
}

/// Appends a boolean.
pub fn push_boolean(out: &mut Vec<u8>, is_true: bool) -> Result<(), AllocError>
    ensures { OnOk result (out.new.items ≡ out.old.items ++ boolean_code is_true) }
{
    if is_true {
        out.push(0x88)?;
        return Ok(());
    }
    out.push(0x89)?;
    Ok(())
}

/// Appends a key and a whole number as its value.
pub fn push_count(out: &mut Vec<u8>, key: &[u8], number: u64) -> Result<(), AllocError>
    ensures code { OnOk result
        (out.new.items ≡ out.old.items ++ (text_code key.now ++ whole_code (pos number))) }
    ensures short { OnOk result (IsShort key.now) }
    ensures fits { OnOk result (number < 2 ^ 63) }
{
    push_text(out, key)?;
    push_whole(out, number)
}
