//! What no case of `carbon_cases` can say: a run over real folders.
ghost use Rattle.std.specs.Prelude.{◌≡◌, IfOk, vec_len};

use carbon_run::run;
use folder_disk::FolderDisk;
use outside_io::{ClosedNet, FixedClock, MemSink, MemSource};
use std::alloc::{AllocError, Global};
use std::process::Abort;
use std::sync::Wait;
use std::test::Fail;
use std::thread::Threads;
use std::time::Duration;
use std::{fs, thread};

// Disks over the folders of all classes, in this one.
fn folders(host: &HostRuntime, place: &str) -> Result<Vec<FolderDisk<HostRuntime>>, AllocError>
    ensures { IfOk result (λ disks. vec_len disks ≡ 16) }
{
    let alloc = host.alloc();
    let mut disks = Vec::with_capacity(alloc, 16)?;
    for class in 0..16u32 {
        let folder = format!(in alloc; "{place}/{class:02}")?;
        disks.push(FolderDisk::new(host.clone()?, folder))?;
    }
    Ok(disks)
}

fn words_of(alloc: Global, text: &str) -> Result<Vec<String>, AllocError> {
    let mut words = Vec::new(alloc);
    for word in text.split(' ') {
        words.push(String::from_str(alloc, word)?)?;
    }
    Ok(words)
}

// A run of a script over the folders, and its status.
fn run_folders<R: Threads + Wait + Sync>(
    rt: &R,
    host: &HostRuntime,
    place: &str,
    words: &[String],
    input: &mut MemSource,
    out: &mut MemSink,
    conf: &mut FolderDisk<HostRuntime>,
) -> Result<u8, AllocError> {
    let disks = folders(host, place)?;
    let clock = FixedClock::new(1_700_000_000);
    let report = run(
        rt,
        host.alloc(),
        words,
        input,
        out,
        conf,
        disks,
        &clock,
        &mut ClosedNet,
    );
    Ok(report.status)
}

fn assert_run<R: Threads + Wait + Abort + Sync>(
    rt: &R,
    host: &HostRuntime,
    place: &str,
    words: &str,
    script: &[u8],
    text: &[u8],
) -> Result<(), Fail> {
    let alloc = host.alloc();
    let words = words_of(alloc, words)?;
    let mut input = MemSource::new(alloc, Vec::from_slice(alloc, script)?);
    let mut out = MemSink::new(alloc);
    let mut conf = FolderDisk::new(host.clone()?, String::from_str(alloc, "conf")?);
    let status = run_folders(rt, host, place, &words, &mut input, &mut out, &mut conf)?;
    assert!(rt; status == 0);
    assert!(rt; out.bytes() == text);
    Ok(())
}

#[test]
fn a_second_run_over_real_folders_shows_what_the_first_drained(
    rt: HostRuntime,
) -> Result<(), Fail> {
    let table: [(&[u8], &[u8]); 2] = [
        (
            b"a.b 1.5 1700000000\nservers.web01.load 2 1700000100\n",
            b"stored 2 replaced 0 full 0 fields 0 path 0 value 0 time 0 long 0 drains 2\n",
        ),
        (
            b"!clock 1700000130\n!ask target=a.b&from=1699999930&until=1700000030\n\
              !ask target=servers.web01.load&from=1700000030&until=1700000130\n",
            b"[{\"target\": \"a.b\", \"datapoints\": [[1.5, 1699999980]]}]\n\
              [{\"target\": \"servers.web01.load\", \"datapoints\": [[null, 1700000040], [2.0, 1700000100]]}]\n\
              stored 0 replaced 0 full 0 fields 0 path 0 value 0 time 0 long 0 drains 0\n",
        ),
    ];
    for (script, text) in table {
        assert_run(&rt, &rt, "run", "script", script, text)?;
    }
    Ok(())
}

const LOGGED: [(&[u8], &[u8]); 2] = [
    (
        b"a.b 1.5 1700000000\n",
        b"stored 1 replaced 0 full 0 fields 0 path 0 value 0 time 0 long 0 drains 1\n",
    ),
    (
        b"!clock 1700000130\n!ask target=a.b&from=1699999930&until=1700000030\n\
          a.b 2.5 1700000040\n!drain\n!ask target=a.b&from=1699999930&until=1700000090\n",
        b"[{\"target\": \"a.b\", \"datapoints\": [[1.5, 1699999980]]}]\ndrained 1\n\
          [{\"target\": \"a.b\", \"datapoints\": [[1.5, 1699999980], [2.5, 1700000040]]}]\n\
          stored 1 replaced 0 full 0 fields 0 path 0 value 0 time 0 long 0 drains 1\n",
    ),
];

#[test]
fn a_start_lays_the_log_over_the_file_that_it_had_made(rt: HostRuntime) -> Result<(), Fail> {
    for (script, text) in LOGGED {
        assert_run(&rt, &rt, "logged", "script --redo", script, text)?;
        // as a crash leaves the gate that comes before it is closed
        fs::write(&rt, "logged/12/redo.gate", b"\x01")?;
        thread::sleep(&rt, Duration::from_millis(30));
    }
    Ok(())
}
