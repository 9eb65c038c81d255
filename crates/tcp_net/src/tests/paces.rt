// What requests and replies are allowed, at the times of links for HTTP.
use super::kit::{exchange_times, seconds};
use crate::pace::Pace;
use std::process::Abort;
use std::test::Fail;

// Times are in seconds.
#[derive(Clone, Copy)]
enum Event<'a> {
    // at this moment these bytes come
    Read(u64, &'a [u8]),
    // a write waits so long
    Wait(u64),
    // a write takes so many bytes
    Write(usize),
}

use Event::{Read, Wait, Write};

const LONG: [u8; 1_021] = [b'x'; 1_021];

fn note(pace: &mut Pace, event: Event<'_>) {
    match event {
        Read(moment, piece) => pace.note_read(piece, seconds(moment)),
        Wait(time) => pace.note_wait(seconds(time)),
        Write(count) => pace.note_write(count),
    }
}

// Until when bytes may come, and how much longer writes may wait, after these events.
fn allowed_after(events: &[Event<'_>]) -> Result<(Option<u64>, u64), Fail> {
    let mut pace = Pace::new(exchange_times()?);
    for event in events {
        note(&mut pace, *event);
    }
    let deadline = pace.deadline().map(|moment| moment.as_secs());
    Ok((deadline, pace.wait_left().as_secs()))
}

fn assert_allowed(
    rt: &impl Abort,
    events: &[Event<'_>],
    deadline: Option<u64>,
    wait_left: u64,
) -> Result<(), Fail> {
    let allowed = allowed_after(events)?;
    assert!(rt;
        allowed == (deadline, wait_left),
        "{allowed:?}, not {deadline:?}, {wait_left}"
    );
    Ok(())
}

#[test]
fn a_head_has_twenty_seconds(rt: HostRuntime) -> Result<(), Fail> {
    assert_allowed(&rt, &[], None, 20)?;
    let heads: [&[Event<'_>]; 5] = [
        &[Read(5, b"G")],
        &[Read(5, b"G"), Read(24, b"ET / HTTP/1.1\r\nHost: x\r\n")],
        &[Read(5, b"\r\n\n"), Read(24, b"G\r\n\r")],
        &[Read(5, b"G\r\r\n"), Read(24, b" \n\r\r")],
        &[Read(1, b"G\n\n"), Write(9), Read(5, b"G"), Read(24, b"\n")],
    ];
    for head in heads {
        assert_allowed(&rt, head, Some(25), 20)?;
    }
    Ok(())
}

#[test]
fn a_body_has_a_minute_and_a_second_for_each_kilobyte(rt: HostRuntime) -> Result<(), Fail> {
    let bodies: [(&[Event<'_>], u64); 6] = [
        (&[Read(7, b"G\n\n")], 67),
        (&[Read(5, b"G\r"), Read(6, b"\n\r"), Read(7, b"\n")], 67),
        (&[Read(7, b"G\n\r\nG\n\n"), Read(8, b"G\n\n")], 67),
        (&[Read(7, b"G\n\nab"), Read(9, &LONG)], 67),
        (&[Read(7, b"G\n\nabc"), Read(9, &LONG)], 68),
        (
            &[Read(7, b"G\n\nabcdef"), Read(9, &LONG), Read(9, &LONG)],
            69,
        ),
    ];
    for (body, deadline) in bodies {
        assert_allowed(&rt, body, Some(deadline), 20)?;
    }
    Ok(())
}

#[test]
fn a_reply_has_twenty_seconds_and_one_for_each_kilobyte(rt: HostRuntime) -> Result<(), Fail> {
    let replies: [(&[Event<'_>], u64); 6] = [
        (&[Write(1_023)], 20),
        (&[Write(1_000), Write(24)], 21),
        (&[Read(1, b"G\n\n"), Wait(5), Write(2_048), Wait(6)], 11),
        (&[Wait(20)], 0),
        (&[Wait(25), Write(5 * 1_024)], 5),
        (
            &[Write(9_999), Wait(9), Read(7, b"G"), Write(1), Wait(1)],
            19,
        ),
    ];
    for (reply, wait_left) in replies {
        assert_allowed(&rt, reply, None, wait_left)?;
    }
    Ok(())
}

#[test]
fn a_reply_is_never_ahead_by_more_than_75_seconds(rt: HostRuntime) -> Result<(), Fail> {
    let replies: [(&[Event<'_>], u64); 4] = [
        (&[Write(55 * 1_024)], 75),
        (&[Write(1 << 40)], 75),
        (&[Write(4 << 20), Wait(70)], 5),
        (&[Write(4 << 20), Wait(70), Write(2_048), Wait(6)], 1),
    ];
    for (reply, wait_left) in replies {
        assert_allowed(&rt, reply, None, wait_left)?;
    }
    Ok(())
}
