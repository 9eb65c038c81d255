// A disk over a real folder, in which others link, rename, cut and remove files too.
use folder_disk::FolderDisk;
use outside_io::Disk;
use std::alloc::{AllocError, Global};
use std::os::unix::fs::symlink;
use std::process::Abort;
use std::test::Fail;
use std::time::Duration;
use std::{fs, io, thread};

// What happens to a folder.
#[derive(Clone, Copy)]
enum Step {
    // the calls behind it are those of a new disk, over the folder or over a name in it
    Over(Kind, &'static str),
    // calls of the disk
    Names,
    Length(&'static str),
    Create(&'static str, u64),
    Read(&'static str, u64),
    Write(&'static str, u64, &'static str),
    Sync,
    // a write of so many sevens, and whether a file has so many zero bytes and no others
    WriteSevens(&'static str, usize),
    IsZeros(&'static str, usize),
    // a write of the bytes that a long file has from one place up to another, and whether they are read there
    WriteLong(&'static str, usize, usize),
    IsLong(&'static str, usize, usize),
    // what others do: a link to a file, a file with a text, a rename, a file removed, a folder made
    Link(&'static str, &'static str),
    Put(&'static str, &'static str),
    Rename(&'static str, &'static str),
    Remove(&'static str),
    Folder(&'static str),
    // so many milliseconds go by
    Wait(u64),
}

// What a disk is for.
#[derive(Clone, Copy)]
enum Kind {
    Data,
    Settings,
    // data, and it is tried at the first list of names whether the folder takes files
    ToBeWritten,
}

// A folder's story, and what each call of the disk in it tells.
struct Story {
    title: &'static str,
    steps: &'static [Step],
    told: &'static str,
}

// A table costs a proof by the square of its steps, so these stand in six.
// The calls of a disk.
static CALLS: [Story; 5] = [
    Story {
        title: "no folder has no names",
        steps: &[Step::Names, Step::Length("c")],
        told: "[] none ",
    },
    Story {
        title: "a file has zeros, keeps what is written, and has its length",
        steps: &[
            Step::Create("a/b.ring", 1_600),
            Step::Create("c", 4),
            Step::Read("c", 0),
            Step::Write("c", 1, "xy"),
            Step::Read("c", 1),
            Step::Length("a/b.ring"),
            Step::Length("a"),
            Step::Names,
        ],
        told: "ok ok \\0\\0 ok xy 1600 none [a/b.ring,c] ",
    },
    Story {
        title: "a range behind the end is a fault, and the next call goes on",
        steps: &[
            Step::Create("c", 2),
            Step::Read("c", 1),
            Step::Write("c", 1, "xy"),
            Step::Length("c"),
            Step::Write("c", 0, "xy"),
            Step::Read("c", 0),
        ],
        told: "ok failed failed 2 ok xy ",
    },
    Story {
        title: "two files by turns keep what is theirs",
        steps: &[
            Step::Create("c", 4),
            Step::Write("c", 1, "ab"),
            Step::Create("e", 3),
            Step::Write("e", 1, "yz"),
            Step::Write("c", 2, "cd"),
            Step::Read("e", 1),
            Step::Read("c", 1),
            Step::Read("c", 2),
        ],
        told: "ok ok ok ok ok yz ac cd ",
    },
    Story {
        title: "a file that is not there is no file",
        steps: &[
            Step::Folder(""),
            Step::Read("d", 0),
            Step::Write("d", 0, "x"),
            Step::Names,
        ],
        told: "failed failed [] ",
    },
];

// Links among its files and folders.
static LINKS: [Story; 3] = [
    Story {
        title: "a link to a file is a fault of each call, and the file is left alone",
        steps: &[
            Step::Folder(""),
            Step::Put("../link_target", "text"),
            Step::Link("../link_target", "c"),
            Step::Names,
            Step::Length("c"),
            Step::Read("c", 0),
            Step::Write("c", 0, "xy"),
            Step::Create("c", 9),
            Step::Remove("c"),
            Step::Rename("../link_target", "d"),
            Step::Read("d", 0),
            Step::Length("d"),
        ],
        told: "failed failed failed failed failed te 4 ",
    },
    Story {
        title: "a link to a folder is a fault of the list",
        steps: &[Step::Folder("a"), Step::Link("a", "b"), Step::Names],
        told: "failed ",
    },
    Story {
        title: "a folder that became a link is a fault of each call, and the file behind it is left alone",
        steps: &[
            Step::Create("a/b/c", 4),
            Step::Create("d", 4),
            Step::Rename("a/b", "e"),
            Step::Link("../e", "a/b"),
            Step::Length("a/b/c"),
            Step::Read("a/b/c", 0),
            Step::Write("a/b/c", 0, "xy"),
            Step::Create("a/b/f", 9),
            Step::Wait(60),
            Step::Create("a/b/c", 9),
            Step::Wait(120),
            Step::Names,
            Step::Remove("a/b"),
            Step::Names,
            Step::Read("e/c", 0),
            Step::Create("a/b/c", 9),
        ],
        told: "ok ok failed failed failed failed failed failed [d,e/c] \\0\\0 ok ",
    },
];

// Which files of a name are made anew.
static WHOLE: [Story; 5] = [
    Story {
        title: "a ring file that is whole is not made anew",
        steps: &[
            Step::Folder(""),
            Step::Put("c.ring", "text"),
            Step::Create("c.ring", 9),
            Step::Length("c.ring"),
            Step::Read("c.ring", 0),
        ],
        told: "failed 4 te ",
    },
    Story {
        title: "a file that begins with zeros is made anew, and so is an empty one",
        steps: &[
            Step::Create("c.ring", 20),
            Step::Write("c.ring", 17, "xy"),
            Step::Create("c.ring", 18),
            Step::Length("c.ring"),
            Step::Read("c.ring", 16),
            Step::Put("d.ring", ""),
            Step::Create("d.ring", 3),
            Step::Length("d.ring"),
        ],
        told: "ok ok ok 18 \\0\\0 ok 3 ",
    },
    Story {
        title: "a file that is no ring file is made anew, as the log is by each drain",
        steps: &[
            Step::Create("redo.log", 9),
            Step::Write("redo.log", 0, "text"),
            Step::Create("redo.gate", 1),
            Step::Write("redo.gate", 0, "\u{1}"),
            Step::Over(Kind::Data, ""),
            Step::Create("redo.log", 5),
            Step::Length("redo.log"),
            Step::Read("redo.log", 0),
            Step::Create("redo.gate", 2),
            Step::Read("redo.gate", 0),
            Step::Names,
        ],
        told: "ok ok ok ok ok 5 \\0\\0 ok \\0\\0 [redo.gate,redo.log] ",
    },
    Story {
        title: "a link under the name of the log is a fault",
        steps: &[
            Step::Folder(""),
            Step::Put("../log_target", "text"),
            Step::Link("../log_target", "redo.log"),
            Step::Create("redo.log", 9),
            Step::Rename("../log_target", "d"),
            Step::Read("d", 0),
            Step::Length("d"),
        ],
        told: "failed te 4 ",
    },
    Story {
        title: "a number in the first 16 bytes makes a file whole",
        steps: &[
            Step::Create("c.ring", 20),
            Step::Write("c.ring", 15, "x"),
            Step::Create("c.ring", 18),
            Step::Length("c.ring"),
        ],
        told: "ok ok failed 20 ",
    },
];

// A log that is made anew is written over where it stands, in pieces of 4,096 bytes.
static ANEW: [Story; 4] = [
    Story {
        title: "a log that is as long as the one before has zeros alone",
        steps: &[
            Step::Create("redo.log", 9_000),
            Step::WriteSevens("redo.log", 9_000),
            Step::Create("redo.log", 9_000),
            Step::IsZeros("redo.log", 9_000),
            Step::WriteSevens("redo.log", 4_096),
            Step::Over(Kind::Data, ""),
            Step::Create("redo.log", 9_000),
            Step::IsZeros("redo.log", 9_000),
        ],
        told: "ok ok ok ok ok ok ok ",
    },
    Story {
        title: "so has one that is longer, and one that is longer than that",
        steps: &[
            Step::Create("redo.log", 75),
            Step::WriteSevens("redo.log", 75),
            Step::Create("redo.log", 4_097),
            Step::IsZeros("redo.log", 4_097),
            Step::WriteSevens("redo.log", 4_097),
            Step::Create("redo.log", 9_000),
            Step::IsZeros("redo.log", 9_000),
        ],
        told: "ok ok ok ok ok ok ok ",
    },
    Story {
        title: "and one that is shorter, also where it grows again, or has no byte",
        steps: &[
            Step::Create("redo.log", 9_000),
            Step::WriteSevens("redo.log", 9_000),
            Step::Create("redo.log", 75),
            Step::IsZeros("redo.log", 75),
            Step::WriteSevens("redo.log", 75),
            Step::Create("redo.log", 0),
            Step::Length("redo.log"),
            Step::Create("redo.log", 9_000),
            Step::IsZeros("redo.log", 9_000),
        ],
        told: "ok ok ok ok ok ok 0 ok ok ",
    },
    Story {
        title: "what another put under its name is written over too, and is synced",
        steps: &[
            Step::Create("redo.log", 4),
            Step::Sync,
            Step::Put("d", "other text"),
            Step::Rename("d", "redo.log"),
            Step::Create("redo.log", 6),
            Step::IsZeros("redo.log", 6),
            Step::Write("redo.log", 1, "xy"),
            Step::Sync,
            Step::Read("redo.log", 1),
            Step::Length("redo.log"),
        ],
        told: "ok ok ok ok ok ok xy 6 ",
    },
];

// Files of version 1.
static OLD: [Story; 3] = [
    Story {
        title: "a file of version 1 that was listed is made anew, also by its second disk",
        steps: &[
            Step::Folder(""),
            Step::Put("c.ring", "\0\0\0\u{1}twenty bytes and more"),
            Step::Put("d.ring", "\0\0\0\u{8}twenty bytes and more"),
            Step::Wait(30),
            Step::Names,
            Step::Create("c.ring", 18),
            Step::Length("c.ring"),
            Step::Read("c.ring", 2),
            Step::Over(Kind::ToBeWritten, ""),
            Step::Names,
            Step::Read("d.ring", 4),
            Step::Create("d.ring", 18),
            Step::Read("d.ring", 2),
        ],
        told: "[c.ring,d.ring] ok 18 \\0\\0 [c.ring,d.ring] tw ok \\0\\0 ",
    },
    Story {
        title: "a file of version 1 that came since the list is not made anew, nor one that came since the disk was made",
        steps: &[
            Step::Folder(""),
            Step::Wait(30),
            Step::Put("d.ring", "\0\0\0\u{1}twenty bytes and more"),
            Step::Create("d.ring", 18),
            Step::Names,
            Step::Wait(120),
            Step::Put("c.ring", "\0\0\0\u{1}twenty bytes and more"),
            Step::Create("c.ring", 18),
            Step::Read("c.ring", 4),
            Step::Wait(240),
            Step::Put("d.ring", "\0\0\0\u{1}others"),
            Step::Create("d.ring", 18),
            Step::Read("d.ring", 4),
        ],
        told: "failed [d.ring] failed tw failed ot ",
    },
    Story {
        title: "before the list a file of version 1 is made anew that was there when the disk was made, for the log that is laid",
        steps: &[
            Step::Folder("a"),
            Step::Put("a/c.ring", "\0\0\0\u{1}twenty bytes and more"),
            Step::Put("d.ring", "\0\0\0\u{8}twenty bytes and more"),
            Step::Wait(30),
            Step::Over(Kind::ToBeWritten, ""),
            Step::Length("redo.gate"),
            Step::Create("a/c.ring", 18),
            Step::Length("a/c.ring"),
            Step::Read("a/c.ring", 2),
            Step::Wait(30),
            Step::Put("d.ring", "\0\0\0\u{1}others"),
            Step::Create("d.ring", 18),
            Step::Wait(60),
            Step::Names,
            Step::Read("d.ring", 4),
        ],
        told: "none ok 18 \\0\\0 failed [a/c.ring,d.ring] ot ",
    },
];

// Files that the log has brought to their length, and the bounds of that.
static LOGGED: [Story; 4] = [
    Story {
        title: "so is a ring file that the log has brought to its length, but none of another length, and none behind the list",
        steps: &[
            Step::Folder(""),
            Step::Put("redo.log", "text"),
            Step::Wait(30),
            Step::Put("c.ring", "\0\0\u{2}\u{1}fourteen bytes"),
            Step::Put("d.ring", "\0\0\u{2}\u{1}fourteen bytes"),
            Step::Wait(30),
            Step::Over(Kind::Data, ""),
            Step::Read("redo.log", 0),
            Step::Create("c.ring", 18),
            Step::Read("c.ring", 2),
            Step::Write("c.ring", 2, "xy"),
            Step::Read("redo.log", 0),
            Step::Create("d.ring", 19),
            Step::Wait(60),
            Step::Names,
            Step::Read("redo.log", 0),
            Step::Create("d.ring", 18),
            Step::Read("d.ring", 4),
            Step::Wait(120),
            Step::Over(Kind::Data, ""),
            Step::Read("redo.log", 0),
            Step::Create("c.ring", 18),
            Step::Read("c.ring", 2),
        ],
        told: "te ok \\0\\0 ok te failed [c.ring,d.ring,redo.log] te failed fo te ok \\0\\0 ",
    },
    Story {
        title: "a ring file that is older than the log is not made anew before the list, nor is one where no log was read",
        steps: &[
            Step::Folder(""),
            Step::Put("c.ring", "\0\0\u{2}\u{1}fourteen bytes"),
            Step::Wait(30),
            Step::Put("redo.log", "text"),
            Step::Wait(30),
            Step::Over(Kind::Data, ""),
            Step::Read("redo.log", 0),
            Step::Create("c.ring", 18),
            Step::Over(Kind::Data, ""),
            Step::Create("c.ring", 18),
            Step::Read("c.ring", 4),
        ],
        told: "te failed failed fo ",
    },
    Story {
        title: "a file of version 1 that got its name since the list is not made anew, however old its bytes are",
        steps: &[
            Step::Folder(""),
            Step::Put("c", "\0\0\0\u{1}twenty bytes and more"),
            Step::Wait(30),
            Step::Names,
            Step::Wait(30),
            Step::Rename("c", "c.ring"),
            Step::Create("c.ring", 18),
            Step::Read("c.ring", 4),
        ],
        told: "[c] failed tw ",
    },
    Story {
        title: "a file of version 2 is not made anew, nor one of no version",
        steps: &[
            Step::Folder(""),
            Step::Put("c.ring", "\0\0\u{2}\u{1}twenty bytes and more"),
            Step::Put("d.ring", "\0\0\0\u{9}twenty bytes and more"),
            Step::Wait(30),
            Step::Names,
            Step::Create("c.ring", 18),
            Step::Wait(60),
            Step::Create("d.ring", 18),
            Step::Read("c.ring", 4),
        ],
        told: "[c.ring,d.ring] failed failed tw ",
    },
];

// What others do to files that are in use, and what is in the way.
static CHANGED: [Story; 9] = [
    Story {
        title: "a file that is removed while it is open takes no more, until it is there again",
        steps: &[
            Step::Create("c", 4),
            Step::Remove("c"),
            Step::Write("c", 0, "xy"),
            Step::Write("c", 0, "xy"),
            Step::Put("c", "text"),
            Step::Write("c", 0, "xy"),
            Step::Read("c", 1),
        ],
        told: "ok failed failed ok yx ",
    },
    Story {
        title: "a file that is replaced while it is open fails once, and is then the other",
        steps: &[
            Step::Create("c", 4),
            Step::Put("d", "text"),
            Step::Rename("d", "c"),
            Step::Wait(120),
            Step::Read("c", 0),
            Step::Read("c", 0),
            Step::Put("d", "more"),
            Step::Rename("d", "c"),
            Step::Write("c", 0, "xy"),
            Step::Read("c", 0),
        ],
        told: "ok failed te failed mo ",
    },
    Story {
        title: "a file that is moved away while it is open is read no more a moment later",
        steps: &[
            Step::Create("c", 4),
            Step::Rename("c", "d"),
            Step::Wait(120),
            Step::Read("c", 0),
            Step::Read("c", 0),
            Step::Read("d", 0),
        ],
        told: "ok failed failed \\0\\0 ",
    },
    Story {
        title: "a file that is moved away while it is open takes no more",
        steps: &[
            Step::Create("c", 4),
            Step::Rename("c", "d"),
            Step::Write("c", 0, "xy"),
            Step::Read("d", 0),
        ],
        told: "ok failed \\0\\0 ",
    },
    Story {
        title: "a file that is cut while it is open does not grow again",
        steps: &[
            Step::Create("c", 40),
            Step::Put("c", "text"),
            Step::Write("c", 20, "xy"),
            Step::Length("c"),
            Step::Read("c", 20),
            Step::Read("c", 2),
        ],
        told: "ok failed 4 failed xt ",
    },
    Story {
        title: "after a create that failed the next one waits",
        steps: &[
            Step::Folder(""),
            Step::Put("c.ring", "text"),
            Step::Create("c.ring", 9),
            Step::Create("d.ring", 9),
            Step::Wait(60),
            Step::Create("d.ring", 9),
            Step::Create("e.ring", 9),
        ],
        told: "failed failed ok ok ",
    },
    Story {
        title: "each further create that fails has a pause twice as long behind it",
        steps: &[
            Step::Folder(""),
            Step::Put("c.ring", "text"),
            Step::Create("c.ring", 9),
            Step::Wait(60),
            Step::Create("c.ring", 9),
            Step::Wait(120),
            Step::Create("c.ring", 9),
            Step::Wait(240),
            Step::Create("c.ring", 9),
            Step::Wait(60),
            Step::Create("d.ring", 9),
            Step::Wait(400),
            Step::Create("d.ring", 9),
        ],
        told: "failed failed failed failed failed ok ",
    },
    Story {
        title: "a file in the way of a folder is a fault",
        steps: &[
            Step::Create("a", 4),
            Step::Create("a/b", 4),
            Step::Length("a/b"),
        ],
        told: "ok failed none ",
    },
    Story {
        title: "a file under the name of a folder is a fault",
        steps: &[
            Step::Create("a/b", 4),
            Step::Create("a", 4),
            Step::Read("a", 0),
        ],
        told: "ok failed failed ",
    },
];

// A disk whose folder takes no files is told at once.
static TRIED: [Story; 2] = [
    Story {
        title: "a folder that is tried is made, and has no names",
        steps: &[
            Step::Over(Kind::ToBeWritten, ""),
            Step::Names,
            Step::Put("d", "text"),
            Step::Remove("d"),
            Step::Over(Kind::Data, ""),
            Step::Names,
        ],
        told: "[] [] ",
    },
    Story {
        title: "a file in the place of a folder is a fault",
        steps: &[
            Step::Folder(""),
            Step::Put("file", "x"),
            Step::Over(Kind::ToBeWritten, "file"),
            Step::Names,
            Step::Over(Kind::Data, "file"),
            Step::Names,
        ],
        told: "failed failed ",
    },
];

static LINKED: [Story; 1] = [Story {
    title: "settings are read behind a link, and data is not",
    steps: &[
        Step::Folder("inner"),
        Step::Put("inner/d", "text"),
        Step::Link("inner/d", "c"),
        Step::Over(Kind::Settings, ""),
        Step::Length("c"),
        Step::Read("c", 1),
        Step::Link("inner", "e"),
        Step::Read("e/d", 1),
        Step::Over(Kind::Data, ""),
        Step::Length("c"),
        Step::Length("e/d"),
    ],
    told: "4 ex ex failed failed ",
}];

// What a sync that fails tells, and one that succeeds; that a device then has the bytes, no test sees.
static SYNCED: [Story; 12] = [
    Story {
        title: "where there is no folder and nothing was written, nothing awaits a sync",
        steps: &[Step::Sync, Step::Names, Step::Sync],
        told: "ok [] ok ",
    },
    Story {
        title: "the first sync goes over the folder, for what an earlier process left, and a later one does not",
        steps: &[
            Step::Create("a/c", 4),
            Step::Over(Kind::Data, ""),
            Step::Link("c", "a/h"),
            Step::Sync,
            Step::Sync,
            Step::Remove("a/h"),
            Step::Sync,
            Step::Link("c", "a/h"),
            Step::Sync,
        ],
        told: "ok failed failed ok ok ",
    },
    Story {
        title: "the first sync brings what was written before it too",
        steps: &[
            Step::Folder(""),
            Step::Put("d", "text"),
            Step::Create("c", 4),
            Step::Remove("c"),
            Step::Sync,
            Step::Put("c", "text"),
            Step::Sync,
        ],
        told: "ok failed ok ",
    },
    Story {
        title: "two files that were written are synced, and a second sync has nothing to do",
        steps: &[
            Step::Create("c", 4),
            Step::Create("d", 4),
            Step::Write("c", 0, "ab"),
            Step::Write("d", 1, "cd"),
            Step::Sync,
            Step::Read("c", 0),
            Step::Read("d", 1),
            Step::Remove("c"),
            Step::Remove("d"),
            Step::Sync,
        ],
        told: "ok ok ok ok ok ab cd ok ",
    },
    Story {
        title: "a file in new inner folders is synced with them",
        steps: &[
            Step::Create("a/b/c", 4),
            Step::Sync,
            Step::Write("a/b/c", 2, "xy"),
            Step::Sync,
            Step::Read("a/b/c", 2),
        ],
        told: "ok ok ok ok xy ",
    },
    Story {
        title: "a file that was removed before its sync is a fault, until it is there again",
        steps: &[
            Step::Create("c", 4),
            Step::Remove("c"),
            Step::Sync,
            Step::Sync,
            Step::Put("c", "text"),
            Step::Sync,
            Step::Sync,
        ],
        told: "ok failed failed ok ok ",
    },
    Story {
        title: "a file that was replaced is a fault, also where the other one was opened since",
        steps: &[
            Step::Create("c", 4),
            Step::Create("d", 4),
            Step::Sync,
            Step::Write("c", 0, "ab"),
            Step::Write("d", 0, "cd"),
            Step::Put("e", "text"),
            Step::Rename("e", "c"),
            Step::Read("c", 0),
            Step::Sync,
            Step::Sync,
        ],
        told: "ok ok ok ok ok te failed ok ",
    },
    Story {
        title: "a file that another call closed is synced, and is a fault where it was removed",
        steps: &[
            Step::Folder(""),
            Step::Put("c", "text"),
            Step::Put("d", "text"),
            Step::Write("c", 0, "xy"),
            Step::Read("d", 0),
            Step::Remove("c"),
            Step::Sync,
        ],
        told: "ok te failed ",
    },
    Story {
        title: "a file that was replaced before its sync fails once, and is then the other",
        steps: &[
            Step::Create("c", 4),
            Step::Write("c", 0, "xy"),
            Step::Put("d", "text"),
            Step::Rename("d", "c"),
            Step::Sync,
            Step::Sync,
            Step::Read("c", 0),
        ],
        told: "ok ok failed ok te ",
    },
    Story {
        title: "one that another call closed and that was replaced then fails once too",
        steps: &[
            Step::Folder(""),
            Step::Put("c", "text"),
            Step::Put("d", "text"),
            Step::Put("e", "other"),
            Step::Write("c", 0, "xy"),
            Step::Read("d", 0),
            Step::Rename("e", "c"),
            Step::Sync,
            Step::Sync,
            Step::Read("c", 0),
        ],
        told: "ok te failed ok ot ",
    },
    Story {
        title: "a file that was only read awaits no sync",
        steps: &[
            Step::Folder(""),
            Step::Put("c", "text"),
            Step::Read("c", 0),
            Step::Remove("c"),
            Step::Sync,
        ],
        told: "te ok ",
    },
    Story {
        title: "where more than four files await a sync it goes over the folder, in which a link is a fault",
        steps: &[
            Step::Create("a/b/c", 4),
            Step::Create("a/d", 4),
            Step::Create("e", 4),
            Step::Create("f", 4),
            Step::Create("g", 4),
            Step::Write("g", 0, "xy"),
            Step::Link("g", "h"),
            Step::Sync,
            Step::Remove("h"),
            Step::Sync,
            Step::Link("g", "h"),
            Step::Sync,
            Step::Read("g", 0),
        ],
        told: "ok ok ok ok ok ok failed ok ok xy ",
    },
];

// The name of a file that lies two folders deep.
const DEEP: &str = "a/b/c.ring";

// It has 5,000 bytes that differ, from place 100 on, and 7 around them.
static LONG: [Story; 1] = [Story {
    title: "the next disk finds a long and deep file",
    steps: &[
        Step::Create(DEEP, 8_000),
        Step::WriteSevens(DEEP, 8_000),
        Step::WriteLong(DEEP, 100, 5_100),
        Step::Over(Kind::Data, ""),
        Step::IsLong(DEEP, 0, 8_000),
        Step::IsLong(DEEP, 95, 105),
        Step::IsLong(DEEP, 4_190, 4_210),
        Step::IsLong(DEEP, 5_095, 5_105),
    ],
    told: "ok ok ok ok ok ok ok ",
}];

// ---- a story's run

// The place of a name in a folder, or the folder where the name is empty.
fn place_of(alloc: Global, folder: &str, name: &str) -> Result<String, AllocError> {
    let mut place = String::from_str(alloc, folder)?;
    if !name.is_empty() {
        place.push('/')?;
        place.push_str(name)?;
    }
    Ok(place)
}

fn disk_of(rt: HostRuntime, kind: Kind, folder: String) -> FolderDisk<HostRuntime> {
    match kind {
        Kind::Data => FolderDisk::new(rt, folder),
        Kind::Settings => FolderDisk::of_settings(rt, folder),
        Kind::ToBeWritten => FolderDisk::to_be_written(rt, folder),
    }
}

fn new_disk(
    rt: &HostRuntime,
    folder: &str,
    kind: Kind,
    name: &str,
) -> Result<FolderDisk<HostRuntime>, AllocError> {
    Ok(disk_of(*rt, kind, place_of(rt.alloc(), folder, name)?))
}

// What the calls of a story's disks tell, each with a blank behind it.
fn told(rt: &HostRuntime, folder: &str, steps: &[Step]) -> Result<String, AllocError> {
    let mut disk = new_disk(rt, folder, Kind::Data, "")?;
    let mut told = String::new(rt.alloc());
    for step in steps {
        disk = disk_behind(rt, folder, &mut told, disk, step)?;
    }
    Ok(told)
}

// The disk that the next step is of.
fn disk_behind(
    rt: &HostRuntime,
    folder: &str,
    told: &mut String,
    disk: FolderDisk<HostRuntime>,
    step: &Step,
) -> Result<FolderDisk<HostRuntime>, AllocError> {
    if let Step::Over(kind, name) = step {
        return new_disk(rt, folder, *kind, name);
    }
    let mut disk = disk;
    tell(rt, folder, told, &mut disk, step)?;
    Ok(disk)
}

fn tell(
    rt: &HostRuntime,
    folder: &str,
    told: &mut String,
    disk: &mut FolderDisk<HostRuntime>,
    step: &Step,
) -> Result<(), AllocError> {
    match step {
        Step::Names => tell_names(told, disk),
        Step::Length(name) => tell_length(told, disk, name),
        Step::Create(name, len) => tell_end(told, disk.create(name, *len).is_ok()),
        Step::Read(name, at) => tell_bytes(told, disk, name, *at),
        Step::Write(name, at, piece) => {
            tell_end(told, disk.write_at(name, *at, piece.as_bytes()).is_ok())
        }
        Step::WriteSevens(name, len) => tell_done(told, write_sevens(rt.alloc(), disk, name, *len)),
        Step::IsZeros(name, len) => tell_done(told, is_zeros(rt.alloc(), disk, name, *len)),
        Step::WriteLong(name, first, end) => {
            tell_done(told, write_long(rt.alloc(), disk, name, *first, *end))
        }
        Step::IsLong(name, first, end) => {
            tell_done(told, is_long(rt.alloc(), disk, name, *first, *end))
        }
        Step::Sync => tell_end(told, disk.sync().is_ok()),
        step => tell_deed(told, act(rt, folder, step).is_ok()),
    }
}

fn tell_end(told: &mut String, is_ok: bool) -> Result<(), AllocError> {
    told.push_str(if is_ok { "ok " } else { "failed " })
}

fn tell_done(told: &mut String, done: Result<bool, AllocError>) -> Result<(), AllocError> {
    tell_end(told, done?)
}

// What others do is not told, unless it cannot be done.
fn tell_deed(told: &mut String, is_done: bool) -> Result<(), AllocError> {
    told.push_str(if is_done { "" } else { "impossible " })
}

fn tell_names(told: &mut String, disk: &mut FolderDisk<HostRuntime>) -> Result<(), AllocError> {
    let Ok(mut names) = disk.names() else {
        return told.push_str("failed ");
    };
    names.sort()?;
    push_names(told, &names)
}

fn push_names(told: &mut String, names: &[String]) -> Result<(), AllocError> {
    told.push('[')?;
    for (at, name) in names.iter().enumerate() {
        told.push_str(if at == 0 { "" } else { "," })?;
        told.push_str(name.as_str())?;
    }
    told.push_str("] ")
}

fn tell_length(
    told: &mut String,
    disk: &mut FolderDisk<HostRuntime>,
    name: &str,
) -> Result<(), AllocError> {
    match disk.length(name) {
        Ok(Some(length)) => write!(told, "{length} "),
        Ok(None) => told.push_str("none "),
        Err(_) => told.push_str("failed "),
    }
}

fn tell_bytes(
    told: &mut String,
    disk: &mut FolderDisk<HostRuntime>,
    name: &str,
    at: u64,
) -> Result<(), AllocError> {
    let mut bytes = [b'?'; 2];
    if disk.read_at(name, at, &mut bytes).is_err() {
        return told.push_str("failed ");
    }
    push_byte(told, bytes[0])?;
    push_byte(told, bytes[1])?;
    told.push(' ')
}

fn push_byte(told: &mut String, byte: u8) -> Result<(), AllocError> {
    match byte {
        0 => told.push_str("\\0"),
        byte => told.push(char::from(byte)),
    }
}

// The byte of a long file at a place.
fn long_byte(place: usize) -> u8 {
    if 100 <= place && place < 5_100 {
        return (place % 251) as u8;
    }
    7
}

fn long_bytes(alloc: Global, first: usize, end: usize) -> Result<Vec<u8>, AllocError> {
    let mut bytes = Vec::new(alloc);
    for place in first..end {
        bytes.push(long_byte(place))?;
    }
    Ok(bytes)
}

fn write_sevens(
    alloc: Global,
    disk: &mut FolderDisk<HostRuntime>,
    name: &str,
    len: usize,
) -> Result<bool, AllocError> {
    let bytes = vec![in alloc; 7; len]?;
    Ok(disk.write_at(name, 0, &bytes).is_ok())
}

fn is_zeros(
    alloc: Global,
    disk: &mut FolderDisk<HostRuntime>,
    name: &str,
    len: usize,
) -> Result<bool, AllocError> {
    let mut held = vec![in alloc; b'?'; len]?;
    let is_read = disk.read_at(name, 0, &mut held).is_ok();
    let is_long = matches!(disk.length(name), Ok(Some(long)) if long == len as u64);
    Ok(is_read && is_long && held.iter().all(|byte| *byte == 0))
}

fn write_long(
    alloc: Global,
    disk: &mut FolderDisk<HostRuntime>,
    name: &str,
    first: usize,
    end: usize,
) -> Result<bool, AllocError> {
    let bytes = long_bytes(alloc, first, end)?;
    Ok(disk.write_at(name, first as u64, &bytes).is_ok())
}

fn is_long(
    alloc: Global,
    disk: &mut FolderDisk<HostRuntime>,
    name: &str,
    first: usize,
    end: usize,
) -> Result<bool, AllocError> {
    let wanted = long_bytes(alloc, first, end)?;
    let mut held = vec![in alloc; b'?'; wanted.len()]?;
    let is_read = disk.read_at(name, first as u64, &mut held).is_ok();
    Ok(is_read && held == wanted)
}

// What another process does.
fn act(rt: &HostRuntime, folder: &str, step: &Step) -> io::Result<()> {
    match step {
        Step::Wait(millis) => {
            thread::sleep(rt, Duration::from_millis(*millis));
            Ok(())
        }
        Step::Rename(from, to) => rename(rt, folder, from, to),
        step => act_at(
            rt,
            place_of(rt.alloc(), folder, name_of(step))?.as_str(),
            step,
        ),
    }
}

fn rename(rt: &HostRuntime, folder: &str, from: &str, to: &str) -> io::Result<()> {
    let from = place_of(rt.alloc(), folder, from)?;
    fs::rename(
        rt,
        from.as_str(),
        place_of(rt.alloc(), folder, to)?.as_str(),
    )
}

// The name that another process makes or removes.
fn name_of(step: &Step) -> &'static str {
    match step {
        Step::Link(_, name) | Step::Put(name, _) | Step::Remove(name) | Step::Folder(name) => name,
        _ => "",
    }
}

fn act_at(rt: &HostRuntime, place: &str, step: &Step) -> io::Result<()> {
    match step {
        Step::Link(to, _) => symlink(rt, *to, place),
        Step::Put(_, text) => fs::write(rt, place, text.as_bytes()),
        Step::Remove(_) => fs::remove_file(rt, place),
        Step::Folder(_) => fs::create_dir_all(rt, place),
        _ => Ok(()),
    }
}

// ---- the tests

fn assert_story(
    rt: &impl Abort,
    host: &HostRuntime,
    folder: &str,
    story: &Story,
) -> Result<(), Fail> {
    let told = told(host, folder, story.steps)?;
    assert!(rt; told.as_str() == story.told, "{}: {told}", story.title);
    Ok(())
}

// Each story of a folder that is not there, in an outer one that is empty.
fn assert_stories(
    rt: &impl Abort,
    host: &HostRuntime,
    outer: &str,
    folder: &str,
    stories: &[Story],
) -> Result<(), Fail> {
    for story in stories {
        let _ = fs::remove_dir_all(host, outer);
        let _ = fs::create_dir(host, outer);
        assert_story(rt, host, folder, story)?;
    }
    Ok(())
}

fn assert_told(rt: &impl Abort, host: &HostRuntime, stories: &[Story]) -> Result<(), Fail> {
    assert_stories(
        rt,
        host,
        "folder_disk_story",
        "folder_disk_story/disk",
        stories,
    )
}

fn assert_calls(rt: &impl Abort, host: &HostRuntime) -> Result<(), Fail> {
    assert_told(rt, host, &CALLS)
}

fn assert_links(rt: &impl Abort, host: &HostRuntime) -> Result<(), Fail> {
    assert_told(rt, host, &LINKS)
}

fn assert_whole(rt: &impl Abort, host: &HostRuntime) -> Result<(), Fail> {
    assert_told(rt, host, &WHOLE)
}

fn assert_old(rt: &impl Abort, host: &HostRuntime) -> Result<(), Fail> {
    assert_told(rt, host, &OLD)
}

fn assert_logged(rt: &impl Abort, host: &HostRuntime) -> Result<(), Fail> {
    assert_told(rt, host, &LOGGED)
}

#[test]
fn a_folder_is_a_disk_while_others_use_it(rt: HostRuntime) -> Result<(), Fail> {
    assert_calls(&rt, &rt)?;
    assert_links(&rt, &rt)?;
    assert_whole(&rt, &rt)?;
    assert_old(&rt, &rt)?;
    assert_logged(&rt, &rt)
}

#[test]
fn a_log_is_made_anew_with_zeros_alone(rt: HostRuntime) -> Result<(), Fail> {
    assert_stories(&rt, &rt, "folder_disk_anew", "folder_disk_anew/disk", &ANEW)
}

#[test]
fn a_file_that_others_change_is_a_fault(rt: HostRuntime) -> Result<(), Fail> {
    assert_stories(
        &rt,
        &rt,
        "folder_disk_changed",
        "folder_disk_changed/disk",
        &CHANGED,
    )
}

#[test]
fn a_folder_that_takes_no_files_is_told_at_once(rt: HostRuntime) -> Result<(), Fail> {
    assert_stories(
        &rt,
        &rt,
        "folder_disk_tried",
        "folder_disk_tried/disk",
        &TRIED,
    )
}

#[test]
fn a_sync_fails_where_a_file_that_awaits_it_is_gone(rt: HostRuntime) -> Result<(), Fail> {
    assert_stories(
        &rt,
        &rt,
        "folder_disk_synced",
        "folder_disk_synced/disk",
        &SYNCED,
    )
}

#[test]
fn settings_may_be_links(rt: HostRuntime) -> Result<(), Fail> {
    assert_stories(
        &rt,
        &rt,
        "folder_disk_settings",
        "folder_disk_settings/disk",
        &LINKED,
    )
}

#[test]
fn the_next_disk_of_a_folder_finds_long_and_deep_files(rt: HostRuntime) -> Result<(), Fail> {
    assert_stories(&rt, &rt, "folder_disk_deep", "folder_disk_deep/disk", &LONG)
}
