//! What a query needs.
use path_glob::Glob;

/// The series of the metrics that a glob finds, from one moment until another, in seconds since the Unix epoch.
#[derive(Debug, Drop)]
pub struct Need {
    pub glob: Glob,
    pub from: u64,
    pub until: u64,
}
