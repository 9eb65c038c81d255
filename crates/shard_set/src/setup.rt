//! What is fixed for a run.
ghost use Rattle.std.specs.Prelude.{◌<◌};

use drain_order::Strategy;
use schema_rules::Rules;

/// What is fixed for a run.
#[derive(Drop)]
pub struct Setup {
    /// The rules, which give each path its layout.
    pub rules: Rules,
    /// How many points of a class may be pending: at least one.
    pub limit: u64,
    /// In which order metrics are drained.
    pub strategy: Strategy,
    /// Whether drains go through the log.
    pub redo: bool,
    pub ghost some: { 0 < limit },
}
