//! A target that was checked.
use crate::operation::Operation;
use path_glob::Glob;

/// What a target asks to be done.
#[derive(Drop)]
pub(crate) enum Target {
    /// The series of the metrics that a glob finds.
    Path(Glob),
    /// What is made of the series of targets.
    Call(Operation, Vec<Target>),
}
