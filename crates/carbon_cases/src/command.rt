//! The words that a line of the cases may begin with.

/// What a line of the cases does.
#[derive(Clone, Copy, Debug, PartialEq, Eq)]
pub enum Command {
    /// Begins a case, with its heading.
    Title,
    /// Gives the case the settings of the one before.
    Same,
    /// Gives the case the files that the last run left.
    Keep,
    /// Sets what the run is given.
    Set(Setting),
    /// Sets a disk that the run is given.
    SetDisk(DiskSetting),
    /// Runs the case.
    Run,
    /// Tells of the last run.
    Tell(Question),
}

/// What a run is given beside its disks.
#[derive(Clone, Copy, Debug, PartialEq, Eq)]
pub enum Setting {
    /// The words behind the program's name.
    Words,
    /// One more line of the input.
    Line,
    /// More bytes of the input.
    Input,
    /// Takes all input away.
    NoInput,
    /// The file of the schemas.
    Schemas,
    /// The file of the aggregations.
    Aggregations,
    /// Where no read of the input goes across.
    Cut,
    /// The most bytes of a read.
    MostRead,
    /// The reads that fail.
    FailRead,
    /// The most bytes of a write.
    MostWritten,
    /// The writes that fail.
    FailWrite,
    /// One more connection of metric lines.
    Link,
}

/// What a disk is given.
#[derive(Clone, Copy, Debug, PartialEq, Eq)]
pub enum DiskSetting {
    /// A file of a text.
    File,
    /// A file of zeros, but for numbers of four bytes at its front.
    Zeros,
    /// An empty ring file.
    Ring,
    /// Room for so many bytes.
    Room,
    /// The creates and writes that fail.
    Fail,
    /// The calls for names, lengths and bytes that fail.
    FailRead,
    /// A write that fails leaves its range in ruins.
    Tear,
}

/// What is told of a run.
#[derive(Clone, Copy, Debug, PartialEq, Eq)]
pub enum Question {
    /// How many entries the history has.
    History,
    /// How many bytes of the input were not taken.
    Left,
    /// The layout of a ring file, and its cells that are not empty.
    Show,
    /// The first bytes of a file.
    Bytes,
    /// The names of a disk's files.
    Names,
    /// How many calls of a disk failed.
    Faults,
    /// How many calls a disk had.
    Calls,
}

// A word and its command.
struct Row(&'static str, Command);

static ROWS: [Row; 30] = [
    Row("#", Command::Title),
    Row("same", Command::Same),
    Row("keep", Command::Keep),
    Row("run", Command::Run),
    Row("words", Command::Set(Setting::Words)),
    Row(">", Command::Set(Setting::Line)),
    Row("input", Command::Set(Setting::Input)),
    Row("no-input", Command::Set(Setting::NoInput)),
    Row("schemas", Command::Set(Setting::Schemas)),
    Row("aggregations", Command::Set(Setting::Aggregations)),
    Row("cut", Command::Set(Setting::Cut)),
    Row("most-read", Command::Set(Setting::MostRead)),
    Row("fail-read", Command::Set(Setting::FailRead)),
    Row("most-written", Command::Set(Setting::MostWritten)),
    Row("fail-write", Command::Set(Setting::FailWrite)),
    Row("link", Command::Set(Setting::Link)),
    Row("file", Command::SetDisk(DiskSetting::File)),
    Row("zeros", Command::SetDisk(DiskSetting::Zeros)),
    Row("ring", Command::SetDisk(DiskSetting::Ring)),
    Row("room", Command::SetDisk(DiskSetting::Room)),
    Row("fail-disk", Command::SetDisk(DiskSetting::Fail)),
    Row("fail-disk-read", Command::SetDisk(DiskSetting::FailRead)),
    Row("tear-disk", Command::SetDisk(DiskSetting::Tear)),
    Row("history", Command::Tell(Question::History)),
    Row("left", Command::Tell(Question::Left)),
    Row("show", Command::Tell(Question::Show)),
    Row("bytes", Command::Tell(Question::Bytes)),
    Row("names", Command::Tell(Question::Names)),
    Row("faults", Command::Tell(Question::Faults)),
    Row("calls", Command::Tell(Question::Calls)),
];

/// The command of a word.
pub fn command_of(word: &str) -> Option<Command> {
    for row in &ROWS {
        if row.0 == word {
            return Some(row.1);
        }
    }
    None
}
