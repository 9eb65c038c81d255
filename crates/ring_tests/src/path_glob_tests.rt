// Searches with little work, and searches with long globs.
use metric_path::MetricPath;
use path_glob::*;
use std::alloc::Global;
use std::process::Abort;
use std::test::Fail;

// A node of 37 bytes with a wildcard.
const LONG: &[u8] = b"{aaaaaaaaaa,bbbbbbbbbb,cccccccccc,*d}";

// A node with long braces, whose six values are made ready as states of one word.
const LONGER: &[u8] = b"{*aaaaaaaaaa,bbbbbbbbbb*,ccccc*ccccc,ddddd?ddddd,eeeeeeeeee[0-9],*d}";

// A glob, the work of a search, a path, whether the glob fits it, and how many of three questions for it are answered so
// before the work is spent.
type Row = (&'static [u8], u64, &'static [u8], bool, u32);

const ROWS: [Row; 16] = [
    (b"servers.*.cpu", 23, b"servers.web.cpu", true, 0),
    (b"servers.*.cpu", 24, b"servers.web.cpu", true, 1),
    (b"servers.*.cpu", 72, b"servers.web.cpu", true, 3),
    (b"servers.*.cpu", 0, b"hosts.web.cpu", false, 3),
    (b"servers.*.cpu", 51, b"servers.web", false, 3),
    (b"web[0-9]", 22, b"web1", true, 0),
    (b"web[0-9]", 23, b"web1", true, 1),
    (LONG, 111, b"xd", true, 0),
    (LONG, 112, b"xd", true, 1),
    (LONG, 148, b"xd", true, 2),
    (LONG, 184, b"xd", true, 3),
    (LONG, 184, b"xe", false, 3),
    (LONGER, 9957, b"xd", true, 0),
    (LONGER, 9958, b"xd", true, 1),
    (LONGER, 10_030, b"xd", true, 3),
    (LONGER, 10_030, b"xe", false, 3),
];

fn count_answered(search: &mut GlobSearch<'_>, work: u64, path: &MetricPath, fits: bool) -> u32 {
    let mut work = Work::new(work);
    let mut answered = 0u32;
    for _ in 0..3 {
        if search.matches(&mut work, path).ok() == Some(fits) {
            answered = answered.saturating_add(1);
        }
    }
    answered
}

fn answered(alloc: Global, row: &Row) -> Result<u32, Fail> {
    let glob = Glob::new(alloc, row.0)?;
    let path = MetricPath::new(alloc, row.2)?;
    let mut search = GlobSearch::new(alloc, &glob)?;
    Ok(count_answered(&mut search, row.1, &path, row.3))
}

#[test]
fn a_search_answers_while_its_work_lasts(rt: HostRuntime) -> Result<(), Fail> {
    for (at, row) in ROWS.iter().enumerate() {
        assert!(rt; answered(rt.alloc(), row)? == row.4, "row {at}");
    }
    Ok(())
}

// Whether a search is refused with 111 of work, of which nothing is left then, and answers with 112.
fn goes_on(search: &mut GlobSearch<'_>, path: &MetricPath) -> [bool; 3] {
    let mut work = Work::new(111);
    let is_refused = search.matches(&mut work, path).is_err();
    let is_spent = work.left() == 0;
    work = Work::new(112);
    let fits = search.matches(&mut work, path).ok() == Some(true);
    [is_refused, is_spent, fits]
}

#[test]
fn a_search_goes_on_with_more_work(rt: HostRuntime) -> Result<(), Fail> {
    let glob = Glob::new(rt.alloc(), LONG)?;
    let path = MetricPath::new(rt.alloc(), b"xd")?;
    let found = goes_on(&mut GlobSearch::new(rt.alloc(), &glob)?, &path);
    assert!(rt; found == [true; 3], "{found:?}");
    Ok(())
}

// Globs whose braces or rows are long: values beside others, empty ones, stars in a row, lists and any bytes.
const LONG_GLOBS: [&[u8]; 5] = [
    b"a{*aaaaaaaaaa,bbbbbbbbbb*,ccccc*ccccc,ddddd?ddddd,eeeeeeeeee[0-9],*d,}{,x}z",
    b"{aaaaaaaaaaaaaaaaaaaaaaaaaaaaaaaaa,bbbbbbbbbbbbbbbbbbbbbbbbbbbbbbbbbb,a}{,a**b,aaaaaaaaaaaaaaaaaaaaaaaaaaaaaaaaaaaaaaaaaaaaaaaaaaaaaaaaa,??,[a-c]}",
    b"**a*[a-cx]?*b***c*d*e*f*g*h*i*j*k*l*m*n*o*p*q*r*s*t*u*v*w*x*y*z*a*b*c*d*",
    b"[a-zaaaaaaaaaaaaaaaaaaaaaaaaaaaaaaaaaaaaaaaaaaaaaaaaaaaaaaaaaaaaaaaaaaaaaaaaa-]{x,y}",
    b"a.{*,aaaaaaaaaaaaaaaaaaaaaaaaaaaaaaaaaaaaaaaaaaaaaaaaaaaaaaaaaaaaaaaaaaaaaaaaa}.b",
];

const NODES: [&[u8]; 12] = [
    b"a",
    b"az",
    b"aadz",
    b"axz",
    b"aeeeeeeeeee7xz",
    b"adddddxdddddz",
    b"aa",
    b"aaxb",
    b"bc",
    b"axqbcdefghijklmnopqrstuvwxyzabcd",
    b"-x",
    b"a.q.b",
];

// Whether a search answers as the glob does that is held against one path.
fn agrees(alloc: Global, glob: &[u8], path: &[u8]) -> Result<bool, Fail> {
    let glob = Glob::new(alloc, glob)?;
    let path = MetricPath::new(alloc, path)?;
    let mut search = GlobSearch::new(alloc, &glob)?;
    let mut work = Work::of_question();
    Ok(search.matches(&mut work, &path).ok() == Some(glob.matches(&path)))
}

// How many of these paths are answered otherwise.
fn count_others(alloc: Global, glob: &[u8], paths: &[&[u8]]) -> Result<u32, Fail> {
    let mut others = 0u32;
    for path in paths {
        if !agrees(alloc, glob, path)? {
            others = others.saturating_add(1);
        }
    }
    Ok(others)
}

#[test]
fn a_search_answers_as_its_glob_does(rt: HostRuntime) -> Result<(), Fail> {
    for (at, glob) in LONG_GLOBS.iter().enumerate() {
        assert!(rt; count_others(rt.alloc(), glob, &NODES)? == 0, "glob {at}");
    }
    Ok(())
}

// Braces of 4,096 bytes, whose values differ in their ends.
fn longest_glob(alloc: Global) -> Result<Vec<u8>, Fail> {
    let mut glob = Vec::from_slice(alloc, b"{")?;
    for _ in 0..1364 {
        glob.extend_from_slice(b"*w,")?;
    }
    glob.extend_from_slice(b"ab}")?;
    Ok(glob)
}

#[test]
fn the_longest_glob_is_held_against_the_longest_node(rt: HostRuntime) -> Result<(), Fail> {
    let glob = longest_glob(rt.alloc())?;
    let node = [b'a'; 240];
    assert!(rt; count_others(rt.alloc(), &glob, &[&node, b"aw"])? == 0);
    Ok(())
}
