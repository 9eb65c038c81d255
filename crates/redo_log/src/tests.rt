//! A small body and its way, worked out by hand.
ghost use Rattle.std.specs.Prelude.{IfOk, IfSome};
ghost use Rattle.outside_io.specs.Image.{Image};
ghost use Rattle.redo_log.specs.Steps.{IsClosed, IsReady, gate_name};

use crate::arming::arm;
use crate::body::PIECE_BYTES;
use crate::laws::a_patch_that_was_put_is_ready;
use crate::piece::put_first_piece;
use crate::reading::{BodyFault, read_body};
use crate::redo::Redo;
use crate::redo_step::RedoStep;
use outside_io::{Disk, MemDisk};
use ring_format::Patch;
use ring_writer::every_drain_may_begin;
use std::alloc::Global;
use std::process::Abort;
use std::test::Fail;

// A fresh patch with two cells of one archive.
#[rattlefmt::skip]
const BODY: [u8; 103] = [
    // the bytes of the path, fresh, and how many cells
    0, 0, 0, 3, 0, 0, 0, 1, 0, 0, 0, 0, 0, 0, 0, 2,
    // the path, a.b
    97, 46, 98,
    // the head: average in version 2, 180 seconds, half, one archive
    0, 0, 2, 1, 0, 0, 0, 180, 0, 7, 161, 32, 0, 0, 0, 1,
    // behind 28 bytes, 60 seconds, three points
    0, 0, 0, 28, 0, 0, 0, 60, 0, 0, 0, 3,
    // archive 0, slot 0, 1700000040, 1.5
    0, 0, 0, 0, 0, 0, 0, 0, 101, 83, 241, 40, 0, 0, 0, 0, 0, 0, 0, 0, 0, 0, 0, 0, 0, 0, 5, 220,
    // archive 0, slot 2, 1700000160, -10^30 thousandths
    0, 0, 0, 0, 0, 0, 0, 2, 101, 83, 241, 160, 255, 255, 255, 243, 96, 211, 99, 47, 185, 139, 18,
    21, 192, 0, 0, 0,
];

// The body of nothing, and one byte more.
const ZEROS: [u8; 17] = [0; 17];

// A place, and the byte that makes of the body none.
const OUT_OF_FORM: [(&str, usize, u8); 15] = [
    ("a path of four bytes", 3, 4),
    ("a path that ends behind the bytes", 0, 1),
    ("fresh is neither 0 nor 1", 7, 2),
    ("one cell fewer than there are", 15, 1),
    ("one cell more than there are", 15, 3),
    ("a byte that no path has", 16, b'/'),
    ("a head of version 1", 21, 0),
    ("another time of the last archive", 26, 181),
    ("no archives", 34, 0),
    ("an archive at another place", 38, 29),
    ("a step of 0", 42, 0),
    ("an archive that the layout has not", 50, 1),
    ("a slot that the archive has not", 82, 3),
    ("a cell behind itself", 82, 0),
    ("a value that does not fit", 87, 127),
];

fn is_damaged(alloc: Global, bytes: &[u8]) -> bool {
    matches!(read_body(alloc, bytes), Err(BodyFault::Damaged))
}

// The patch is written as the body, in one piece.
fn assert_written(rt: &impl Abort, patch: &Patch) {
    let mut out = [0; PIECE_BYTES];
    let piece = put_first_piece(patch, &mut out);
    assert!(rt; piece.cells == 2 && &out[..piece.len] == BODY.as_slice());
    assert!(rt; patch.fresh() && patch.path().text() == b"a.b".as_slice());
}

#[test]
fn a_body_by_hand_is_read_and_written(rt: HostRuntime) -> Result<(), Fail> {
    match read_body(rt.alloc(), &BODY) {
        Ok(Some(patch)) => assert_written(&rt, &patch),
        Ok(None) | Err(_) => assert!(rt; false, "no patch"),
    }
    Ok(())
}

#[test]
fn a_body_that_is_cut_is_damaged(rt: HostRuntime) -> Result<(), Fail> {
    for len in 0..BODY.len() {
        assert!(rt; is_damaged(rt.alloc(), &BODY[..len]), "{len}");
    }
    Ok(())
}

#[test]
fn a_body_with_a_byte_more_is_damaged(rt: HostRuntime) -> Result<(), Fail> {
    let mut bytes = [0; 104];
    bytes[..103].copy_from_slice(&BODY);
    assert!(rt; is_damaged(rt.alloc(), &bytes));
    Ok(())
}

#[test]
fn a_field_out_of_form_is_damaged(rt: HostRuntime) -> Result<(), Fail> {
    for (title, place, byte) in OUT_OF_FORM {
        let mut bytes = BODY;
        if let Some(old) = bytes.get_mut(place) {
            *old = byte;
        }
        assert!(rt; is_damaged(rt.alloc(), &bytes), "{title}");
    }
    Ok(())
}

#[test]
fn sixteen_zeros_are_the_body_of_nothing(rt: HostRuntime) -> Result<(), Fail> {
    assert!(rt; matches!(read_body(rt.alloc(), &ZEROS[..16]), Ok(None)));
    assert!(rt; is_damaged(rt.alloc(), &ZEROS[..15]) && is_damaged(rt.alloc(), &ZEROS));
    Ok(())
}

// What a step does, and then the calls so far: creates, writes and syncs.
const STEPS: [(RedoStep, [u64; 3]); 13] = [
    // the log, the body, both on the device; the gate, on the device
    (RedoStep::Run, [3, 0, 2]),
    (RedoStep::Run, [3, 1, 2]),
    (RedoStep::Run, [3, 1, 3]),
    (RedoStep::Run, [3, 2, 3]),
    (RedoStep::Run, [3, 2, 4]),
    // the file, its cells, which are no neighbours, and its head
    (RedoStep::Run, [4, 2, 4]),
    (RedoStep::Run, [4, 3, 4]),
    (RedoStep::Run, [4, 4, 4]),
    (RedoStep::Run, [4, 5, 4]),
    (RedoStep::Run, [4, 5, 5]),
    // the gate
    (RedoStep::Run, [4, 6, 5]),
    (RedoStep::Finished, [4, 6, 6]),
    (RedoStep::Nothing, [4, 6, 6]),
];

// The redo of the body's patch, if it is read.
fn redo_by_hand(alloc: Global) -> Result<Redo, BodyFault>
    ensures { IfOk result (λ redo. (image : Image) → IsClosed (image gate_name)
        → IfSome redo (λ held. IsReady held image)) }
{
    let mut redo = Redo::empty();
    let Some(patch) = read_body(alloc, &BODY)? else {
        return Ok(redo);
    };
    if !patch.fresh() {
        return Ok(redo);
    }
    let name = patch.path().file_name()?;
    redo.put(patch, name);
    a_patch_that_was_put_is_ready();
    every_drain_may_begin();
    Ok(redo)
}

// Takes the steps one after the other.
fn assert_steps(rt: &impl Abort, mut redo: Redo, disk: &mut MemDisk)
    requires { IfSome redo (λ held. IfSome (⟦<MemDisk as Disk>⟧.image disk.old) (IsReady held)) }
{
    for (end, [creates, writes, syncs]) in STEPS {
        let done = redo.step(disk);
        let calls = disk.calls();
        assert!(rt;
            done == end
                && calls.creates == creates
                && calls.writes == writes
                && calls.syncs == syncs
        );
    }
}

#[test]
fn a_patch_takes_one_call_a_step(rt: HostRuntime) -> Result<(), Fail> {
    let mut disk = MemDisk::new(rt.alloc(), 1000);
    let Ok(redo) = redo_by_hand(rt.alloc()) else {
        return Ok(());
    };
    match arm(&mut disk) {
        Ok(()) => assert_steps(&rt, redo, &mut disk),
        Err(_) => assert!(rt; false, "it is not armed"),
    }
    Ok(())
}
