//! What a command line says.
use crate::hosts::Hosts;
use drain_order::Strategy;

/// What every command may say.
#[derive(Clone, Copy, Debug, PartialEq, Eq)]
pub struct Options {
    /// How many points of a class may be pending.
    pub limit: u64,
    /// In which order metrics are drained.
    pub order: Strategy,
    /// Whether drains go through the redo log.
    pub redo: bool,
}

/// What `serve` may say besides.
#[derive(Clone, Copy, Debug, PartialEq, Eq)]
pub struct ServeOptions {
    /// The port for metric lines.
    pub line_port: u16,
    /// The port for HTTP.
    pub http_port: u16,
    /// How many threads receive metric lines.
    pub receivers: u32,
    /// How many threads answer HTTP requests.
    pub renderers: u32,
    /// After how many seconds without a byte a link of metric lines is closed; 0: it never is.
    pub line_patience: u32,
    /// How many links each port gives before it closes; 0: it never does.
    pub links: u64,
    /// How many bytes the series, names and text of a question may take.
    pub answer_bytes: u64,
    /// How what is pending goes to the disk.
    pub drains: DrainOptions,
    /// At which addresses the ports are open.
    pub hosts: PortHosts,
}

/// At which addresses the ports are open.
#[derive(Clone, Copy, Debug, PartialEq, Eq)]
pub struct PortHosts {
    /// Those of the port for metric lines.
    pub lines: Hosts,
    /// Those of the port for HTTP.
    pub http: Hosts,
}

/// How what is pending goes to the disk.
#[derive(Clone, Copy, Debug, PartialEq, Eq)]
pub struct DrainOptions {
    /// How many threads drain.
    pub drainers: u32,
    /// How many drains each of them begins in a second at most; 0: as many as it can.
    pub pace: u32,
    /// How many ring files each of them makes in a second at most; 0: as many as it can.
    pub creates: u32,
}

/// What `sample` says besides.
#[derive(Clone, Copy, Debug, PartialEq, Eq)]
pub struct SampleOptions {
    /// Where the generator of the sample starts.
    pub start: u64,
    /// How many metric lines the sample has.
    pub count: u32,
}

/// A command.
#[derive(Clone, Copy, Debug, PartialEq, Eq)]
pub enum Command {
    /// The script of the standard input runs.
    Script(Options),
    /// The ports are served.
    Serve(Options, ServeOptions),
    /// The script of a sample runs.
    Sample(Options, SampleOptions),
}
