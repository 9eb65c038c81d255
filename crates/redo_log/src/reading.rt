//! What bytes tell.
ghost use Rattle.std.specs.Prelude.{◌≡◌, ◌+◌, ◌≤◌, IfOk, IfSome, None, Some, IsErrOf, Option, length};
ghost use Rattle.std.specs.List.{list_all};
ghost use Rattle.ring_format.specs.Head.{is_zero, number_at};
ghost use Rattle.ring_format.specs.Patch.{PatchValue};
ghost use Rattle.redo_log.specs.Body.{IsBody};
ghost use Rattle.redo_log.specs.Told.{body_told, count_at, fresh_told, is_nothing, numbers_told, parts_told, patch_told};
ghost use Rattle.redo_log.specs.declared.reading.BodyFault.TheVariants.{Damaged};

use crate::body::head_len;
use crate::entries::tell_entries;
use crate::layout_reading::tell_layout;
use crate::numbers::{NUMBERS_BYTES, Numbers};
use metric_path::{MetricPath, fault_of};
use ring_format::Patch;
use std::alloc::{AllocError, Global};
use thiserror::Error;

/// Why a body could not be read.
#[derive(Clone, Copy, Debug, PartialEq, Eq, Error)]
pub enum BodyFault {
    /// The bytes are no body.
    #[error("the bytes are no body")]
    Damaged,
    /// Memory ran out.
    #[error("out of memory")]
    NoMemory,
}

impl From<AllocError> for BodyFault {
    ghost use Rattle.redo_log.specs.declared.reading.BodyFault.TheVariants.{NoMemory};

    ghost from_gives = { λ _ fault. fault ≡ NoMemory };

    fn from(_: AllocError) -> BodyFault {
        BodyFault::NoMemory
    }
}

/// The patch whose body these bytes are, or `None` where they are the body of nothing.
pub fn read_body(alloc: Global, bytes: &[u8]) -> Result<Option<Patch>, BodyFault>
    ensures body { IfOk result (IsBody bytes.now) }
    ensures damaged { IsErrOf result Damaged
        → (patch : Option PatchValue) → IsBody bytes.now patch → ⊥ }
{
    tell_body(alloc, bytes)
}

// The patch, by what the bytes tell.
#[tactic(auto, unfolding(crate::specs::Told::body_told))]
fn tell_body(alloc: Global, bytes: &[u8]) -> Result<Option<Patch>, BodyFault>
    ensures value { IfOk result (λ patch. body_told bytes.now ≡ Some patch) }
    ensures damaged { IsErrOf result Damaged → body_told bytes.now ≡ None }
{
    if is_nothing(bytes) {
        return Ok(None);
    }
    match tell_patch(alloc, bytes) {
        Ok(patch) => Ok(Some(patch)),
        Err(fault) => Err(fault),
    }
}

// Whether the bytes are the body of nothing.
fn is_nothing(bytes: &[u8]) -> bool
    ensures { result ≡ is_nothing bytes.now }
{
    bytes.len() == NUMBERS_BYTES && are_zero(bytes)
}

fn are_zero(bytes: &[u8]) -> bool
    ensures { result ≡ list_all is_zero bytes.now }
{
    bytes.iter().all(|b| *b == 0)
}

// The patch of a body that is not the one of nothing.
#[tactic(auto, unfolding(crate::specs::Told::patch_told))]
fn tell_patch(alloc: Global, bytes: &[u8]) -> Result<Patch, BodyFault>
    ensures value { IfOk result (λ patch. patch_told bytes.now ≡ Some patch) }
    ensures damaged { IsErrOf result Damaged → patch_told bytes.now ≡ None }
{
    let Some(numbers) = tell_numbers(bytes) else {
        return Err(BodyFault::Damaged);
    };
    tell_parts(alloc, numbers, &bytes[NUMBERS_BYTES..])
}

// The numbers at the front.
#[tactic(auto, unfolding(crate::specs::Told::numbers_told))]
fn tell_numbers(bytes: &[u8]) -> Option<Numbers>
    ensures value { result ≡ numbers_told bytes.now }
    ensures within { IfSome result (λ numbers. 16 + numbers.path_len ≤ length bytes.now) }
{
    if bytes.len() < NUMBERS_BYTES {
        return None;
    }
    let path_len = number_at(bytes, 0) as usize;
    if bytes.len() < NUMBERS_BYTES + path_len {
        return None;
    }
    let is_fresh = tell_fresh(number_at(bytes, 4))?;
    let cell_count = count_at(bytes, 8);
    Some(Numbers {
        path_len,
        is_fresh,
        cell_count,
    })
}

// Whether a number tells of a fresh patch.
#[tactic(auto, unfolding(crate::specs::Told::fresh_told))]
fn tell_fresh(number: u32) -> Option<bool>
    ensures { result ≡ fresh_told number }
{
    match number {
        0 => Some(false),
        1 => Some(true),
        _ => None,
    }
}

// The number in the four bytes at a place.
#[tactic(auto, unfolding(ring_format::specs::Head::number_at))]
pub(crate) fn number_at(bytes: &[u8], at: usize) -> u32
    requires { at + 4 ≤ length bytes.now }
    ensures { result ≡ number_at at bytes.now }
{
    u32::from_be_bytes([bytes[at], bytes[at + 1], bytes[at + 2], bytes[at + 3]])
}

// The number in the eight bytes at a place.
#[tactic(auto, unfolding(crate::specs::Told::count_at))]
fn count_at(bytes: &[u8], at: usize) -> u64
    requires { at + 8 ≤ length bytes.now }
    ensures { result ≡ count_at at bytes.now }
{
    let mut eight = [0; 8];
    eight.copy_from_slice(&bytes[at..at + 8]);
    u64::from_be_bytes(eight)
}

// The patch of what comes behind the numbers.
#[tactic(auto, unfolding(crate::specs::Told::parts_told))]
fn tell_parts(alloc: Global, numbers: Numbers, bytes: &[u8]) -> Result<Patch, BodyFault>
    requires { numbers.path_len ≤ length bytes.now }
    ensures value { IfOk result (λ patch. parts_told numbers bytes.now ≡ Some patch) }
    ensures damaged { IsErrOf result Damaged → parts_told numbers bytes.now ≡ None }
{
    let rest = &bytes[numbers.path_len..];
    let Some(layout) = tell_layout(rest) else {
        return Err(BodyFault::Damaged);
    };
    let text = &bytes[..numbers.path_len];
    if fault_of(text).is_some() {
        return Err(BodyFault::Damaged);
    }
    let path = MetricPath::from_legal(alloc, text)?;
    let mut patch = Patch::new(alloc, path, layout, numbers.is_fresh);
    tell_entries(&mut patch, numbers.cell_count, &rest[head_len(&layout)..])?;
    Ok(patch)
}
