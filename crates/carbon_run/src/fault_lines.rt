ghost use Rattle.std.specs.Prelude.{◌≡◌, ◌≢◌, IsErr, OnErr, OnOk};
ghost use Rattle.std.specs.Io.KnownBytes.{Appends};
ghost use Rattle.outside_io.specs.Frames.{CountsWrites};
ghost use Rattle.outside_io.specs.Sink.{AppendsFront};
ghost use Rattle.carbon_run.specs.Runs.{TellsAlone};
ghost use Rattle.carbon_run.specs.Texts.{usage_line, read_fault_line, no_memory_line, limit_line, agg_fault_line, damaged_line, damaged_word, disk_fault_line, disk_fault_word, conf_fault_line, no_port_line, rule_fault_line, tally_line};

use crate::line::Line;
use aggregate_rules::AggCause;
use itoa::Buffer;
use outside_io::{Sink, WriteFault, write_all};
use schema_rules::{RuleCause, RuleFile};
use shared_store::Tally;

/// Writes the fault line of a status. The answer is that status, or 7 where the line could not be written.
fn tell<K: Sink>(out: &mut K, status: u8, line: &[u8]) -> u8
    requires { status ≢ 7 }
    ensures told { TellsAlone status line.now result (K.written out.old) (K.written out.new) }
    ensures writes { CountsWrites K.Sink out.old out.new (result ≡ 7) }
{
    match write_all(out, line) {
        Ok(()) => status,
        Err(_) => 7,
    }
}

/// Tells that the words are no command: status 2, or 7 where that could not be written.
#[tactic(auto, unfolding(crate::specs::Texts::usage_line))]
pub(crate) fn tell_usage<K: Sink>(out: &mut K) -> u8
    ensures told { TellsAlone 2 usage_line result (K.written out.old) (K.written out.new) }
    ensures writes { CountsWrites K.Sink out.old out.new (result ≡ 7) }
{
    tell(out, 2, b"carbon: usage\n")
}

/// Tells that a read failed: status 6, or 7 where that could not be written.
#[tactic(auto, unfolding(crate::specs::Texts::read_fault_line))]
pub(crate) fn tell_read_fault<K: Sink>(out: &mut K) -> u8
    ensures told { TellsAlone 6 read_fault_line result (K.written out.old) (K.written out.new) }
    ensures writes { CountsWrites K.Sink out.old out.new (result ≡ 7) }
{
    tell(out, 6, b"carbon: read fault\n")
}

/// Tells that memory ran out: status 8, or 7 where that could not be written.
#[tactic(auto, unfolding(crate::specs::Texts::no_memory_line))]
pub(crate) fn tell_no_memory<K: Sink>(out: &mut K) -> u8
    ensures told { TellsAlone 8 no_memory_line result (K.written out.old) (K.written out.new) }
    ensures writes { CountsWrites K.Sink out.old out.new (result ≡ 7) }
{
    tell(out, 8, b"carbon: no memory\n")
}

/// Tells that a stated limit was met: status 10, or 7 where that could not be written.
#[tactic(auto, unfolding(crate::specs::Texts::limit_line))]
pub(crate) fn tell_limit<K: Sink>(out: &mut K) -> u8
    ensures told { TellsAlone 10 limit_line result (K.written out.old) (K.written out.new) }
    ensures writes { CountsWrites K.Sink out.old out.new (result ≡ 7) }
{
    tell(out, 10, b"carbon: limit\n")
}

/// Tells that the ports could not be had: status 9, or 7 where that could not be written.
#[tactic(auto, unfolding(crate::specs::Texts::no_port_line))]
pub(crate) fn tell_no_port<K: Sink>(out: &mut K) -> u8
    ensures told { TellsAlone 9 no_port_line result (K.written out.old) (K.written out.new) }
    ensures writes { CountsWrites K.Sink out.old out.new (result ≡ 7) }
{
    tell(out, 9, b"carbon: no port\n")
}

/// Tells the counts of a server that drained all: status 0, or 7 where they could not be written.
pub(crate) fn tell_tally<K: Sink>(out: &mut K, tally: &Tally) -> u8
    ensures told { TellsAlone 0 (tally_line tally.now) result (K.written out.old) (K.written out.new) }
    ensures writes { CountsWrites K.Sink out.old out.new (result ≡ 7) }
{
    let line = Line::of_tally(tally);
    tell(out, 0, line.text())
}

/// Tells the first damaged file, by its name: status 4, or 7 where that could not be written.
pub(crate) fn tell_damaged<K: Sink>(out: &mut K, name: &str) -> u8
    ensures told { TellsAlone 4 (damaged_line name.now) result (K.written out.old)
        (K.written out.new) }
    ensures writes { CountsWrites K.Sink out.old out.new (result ≡ 7) }
{
    match write_damaged(out, name) {
        Ok(()) => 4,
        Err(_) => 7,
    }
}

/// Writes the line of a damaged file.
fn write_damaged<K: Sink>(out: &mut K, name: &str) -> Result<(), WriteFault>
    ensures line { OnOk result
        (Appends (K.written out.old) (K.written out.new) (damaged_line name.now)) }
    ensures prefix { OnErr result
        (AppendsFront (K.written out.old) (K.written out.new) (damaged_line name.now)) }
    ensures writes { CountsWrites K.Sink out.old out.new (IsErr result) }
{
    write_damaged_word(out)?;
    write_all(out, name.as_bytes())?;
    write_all(out, b"\n")
}

#[tactic(auto, unfolding(crate::specs::Texts::damaged_word))]
fn write_damaged_word<K: Sink>(out: &mut K) -> Result<(), WriteFault>
    ensures word { OnOk result (Appends (K.written out.old) (K.written out.new) damaged_word) }
    ensures prefix { OnErr result
        (AppendsFront (K.written out.old) (K.written out.new) damaged_word) }
    ensures writes { CountsWrites K.Sink out.old out.new (IsErr result) }
{
    write_all(out, b"carbon: damaged file ")
}

/// Tells that the disk of a class failed: status 5, or 7 where that could not be written.
pub(crate) fn tell_disk_fault<K: Sink>(out: &mut K, class: u32) -> u8
    ensures told { TellsAlone 5 (disk_fault_line class) result (K.written out.old)
        (K.written out.new) }
    ensures writes { CountsWrites K.Sink out.old out.new (result ≡ 7) }
{
    match write_disk_fault(out, class) {
        Ok(()) => 5,
        Err(_) => 7,
    }
}

/// Writes the line of a failed disk.
fn write_disk_fault<K: Sink>(out: &mut K, class: u32) -> Result<(), WriteFault>
    ensures line { OnOk result
        (Appends (K.written out.old) (K.written out.new) (disk_fault_line class)) }
    ensures prefix { OnErr result
        (AppendsFront (K.written out.old) (K.written out.new) (disk_fault_line class)) }
    ensures writes { CountsWrites K.Sink out.old out.new (IsErr result) }
{
    let mut buffer = Buffer::new();
    write_disk_fault_word(out)?;
    write_all(out, buffer.format(class).as_bytes())?;
    write_all(out, b"\n")
}

#[tactic(auto, unfolding(crate::specs::Texts::disk_fault_word))]
fn write_disk_fault_word<K: Sink>(out: &mut K) -> Result<(), WriteFault>
    ensures word { OnOk result (Appends (K.written out.old) (K.written out.new) disk_fault_word) }
    ensures prefix { OnErr result
        (AppendsFront (K.written out.old) (K.written out.new) disk_fault_word) }
    ensures writes { CountsWrites K.Sink out.old out.new (IsErr result) }
{
    write_all(out, b"carbon: disk fault class ")
}

/// Tells that the disk of the configuration failed: status 5, or 7 where that could not be written.
#[tactic(auto, unfolding(crate::specs::Texts::conf_fault_line))]
pub(crate) fn tell_conf_fault<K: Sink>(out: &mut K) -> u8
    ensures told { TellsAlone 5 conf_fault_line result (K.written out.old) (K.written out.new) }
    ensures writes { CountsWrites K.Sink out.old out.new (result ≡ 7) }
{
    tell(out, 5, b"carbon: disk fault conf\n")
}

/// Tells why a rule file is refused: status 3, or 7 where that could not be written.
pub(crate) fn tell_rule_fault<K: Sink>(out: &mut K, file: RuleFile, cause: RuleCause) -> u8
    ensures told { TellsAlone 3 (rule_fault_line file cause) result (K.written out.old)
        (K.written out.new) }
    ensures writes { CountsWrites K.Sink out.old out.new (result ≡ 7) }
{
    tell_refused(out, &Line::of_fault(file, cause))
}

/// Tells why the aggregation rules are refused: status 3, or 7 where that could not be written.
pub(crate) fn tell_agg_fault<K: Sink>(out: &mut K, cause: AggCause) -> u8
    ensures told { TellsAlone 3 (agg_fault_line cause) result (K.written out.old)
        (K.written out.new) }
    ensures writes { CountsWrites K.Sink out.old out.new (result ≡ 7) }
{
    tell_refused(out, &Line::of_agg_fault(cause))
}

// Tells that a file is refused, by this line.
fn tell_refused<K: Sink>(out: &mut K, line: &Line) -> u8
    ensures told { TellsAlone 3 line.now result (K.written out.old) (K.written out.new) }
    ensures writes { CountsWrites K.Sink out.old out.new (result ≡ 7) }
{
    tell(out, 3, line.text())
}
