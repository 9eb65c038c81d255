//! What is known of a metric.
use ring_format::{Layout, OLD_VERSION, VERSION};

/// What is known of a metric.
#[derive(Clone, Copy, Debug)]
pub struct Known {
    /// The layout of its ring file, of the one that it has or of the one that it is to get.
    pub layout: Layout,

    /// Whether something is kept of it: it was drained, or has a ring file.
    pub is_kept: bool,

    /// Whether its ring file has version 1: it was not drained since.
    pub is_old: bool,

    /// How often it was drained since it came to be known.
    pub drains: u64,
}

impl Known {
    ghost use Rattle.std.specs.Prelude.{◌≡◌};
    ghost use Rattle.metric_table.specs.Table.{kept_version};

    /// The version of what is kept of it, `None` where nothing is.
    pub fn kept_version(&self) -> Option<u32>
        ensures { result ≡ kept_version self.now }
    {
        if !self.is_kept {
            return None;
        }
        Some(if self.is_old { OLD_VERSION } else { VERSION })
    }
}
