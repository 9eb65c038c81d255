//! Words and numbers.
ghost use Rattle.std.specs.Prelude.{◌≡◌, ◌++◌, OnOk};
ghost use Rattle.carbon_script.specs.Texts.{count_text};

use itoa::Buffer;
use std::alloc::AllocError;

/// Appends a word and a number.
pub fn push_count(out: &mut Vec<u8>, word: &[u8], count: u64) -> Result<(), AllocError>
    ensures { OnOk result (out.new.items ≡ out.old.items ++ count_text word.now count) }
{
    let mut buffer = Buffer::new();
    out.extend_from_slice(word)?;
    out.extend_from_slice(buffer.format(count).as_bytes())
}
