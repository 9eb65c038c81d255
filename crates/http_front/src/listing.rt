//! What is told of names.
ghost use Rattle.std.specs.Prelude.{◌<◌, IfOk, length};
ghost use Rattle.std.specs.Cmp.Lexicographic.{slice_cmp};
ghost use Rattle.std.specs.List.Sorted.{IsStrictlySortedBy};
ghost use Rattle.std.specs.Ordering.{nat_cmp};
ghost use Rattle.http_front.specs.Browses.{lists};

use find_api::{expand_text, find_text};
use metric_path::MetricPath;
use path_glob::Glob;
use std::alloc::{AllocError, Global};

/// What a request with queries is told of the names that they find.
#[derive(Clone, Copy)]
pub(crate) enum Listing {
    /// The nodes that the last query finds, as `/metrics/find` tells them.
    Nodes,
    /// The paths of the nodes that some query finds, as `/metrics/expand` tells them.
    Paths,
}

/// The text that names come to for some globs.
pub(crate) fn list_names(
    alloc: Global,
    listing: Listing,
    globs: &[Glob],
    names: &[MetricPath],
) -> Result<Vec<u8>, AllocError>
    requires some { 0 < length globs.now }
    requires rising { IsStrictlySortedBy (slice_cmp nat_cmp) names.now }
    ensures { IfOk result (λ text. lists listing globs.now names.now text.items) }
{
    match listing {
        Listing::Nodes => find_text(alloc, globs, names),
        Listing::Paths => expand_text(alloc, globs, names),
    }
}
