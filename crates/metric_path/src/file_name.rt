//! The bytes of file names.
ghost use Rattle.std.specs.Prelude.{◌≡◌, ◌≢◌, ◌++◌, List, ℕ, IfOk, MatchOption, codes, map};
ghost use Rattle.metric_path.specs.FileName.{dot_for_slash, file_name_of};
ghost use Rattle.std.specs.List.{list_any};
ghost use Rattle.metric_path.specs.Path.{is_dot};

use std::alloc::{AllocError, Global};

// The end of each file name.
const SUFFIX: &[u8; 5] = b".ring";

/// The file name of the path with this text.
pub(crate) fn file_name_of(alloc: Global, text: &[u8]) -> Result<Vec<u8>, AllocError>
    ensures { IfOk result (λ name. name.items ≡ file_name_of text.now) }
{
    let mut name = Vec::with_capacity(alloc, text.len() + SUFFIX.len())?;
    name.extend(text.iter().map(|b| if *b == b'.' { b'/' } else { *b }))?;
    name.extend_from_slice(SUFFIX)?;
    Ok(name)
}

/// What stands before the suffix of a file name.
pub(crate) fn stem_of(name: &[u8]) -> Option<&[u8]>
    ensures { MatchOption result ((stem : List ℕ) → name.now ≢ stem ++ codes ".ring")
        (λ stem. name.now ≡ stem.now ++ codes ".ring") }
{
    name.strip_suffix(SUFFIX)
}

/// The text of the path whose file name has this stem.
pub(crate) fn text_of_stem(alloc: Global, stem: &[u8]) -> Result<Vec<u8>, AllocError>
    ensures { IfOk result (λ text. text.items ≡ map dot_for_slash stem.now) }
{
    stem.iter()
        .map(|b| if *b == b'/' { b'.' } else { *b })
        .collect(alloc)
}

/// Whether a dot stands in the stem: no path's file name has one there.
pub(crate) fn has_dot(stem: &[u8]) -> bool
    ensures { result ≡ list_any is_dot stem.now }
{
    stem.contains(&b'.')
}
