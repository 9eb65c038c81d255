//! The line of a file with which something is wrong.
ghost use Rattle.std.specs.Prelude.{◌≡◌, ◌++◌, OnOk};
ghost use Rattle.ring_look.specs.FindingText.{archive_text, archive_word, data_word, elsewhere_text, elsewhere_word, faulty_text, file_text, finding_text, folder_text, found_text, is_faulty, is_wrong, unless_word, wrong_text};

use crate::finding::Finding;
use crate::found::FileFound;
use crate::pushing::push_number;
use crate::words::{advice_words, archive_of_fault, fault_words};
use ring_format::HeadFault;
use std::alloc::AllocError;

/// Whether something is wrong with a file of a class.
pub fn is_wrong(finding: &Finding) -> bool
    ensures { result ≡ is_wrong finding.now }
{
    match finding {
        Finding::Foreign => false,
        Finding::Elsewhere(_) => true,
        Finding::Here(found) => is_faulty(found),
    }
}

fn is_faulty(found: &FileFound) -> bool
    ensures { result ≡ is_faulty found.now }
{
    match found {
        FileFound::Absent => false,
        FileFound::Ring(_, _) => false,
        FileFound::Faulty(_) => true,
    }
}

/// Puts the line of a file of a class behind a text, with what is wrong and what is to be done; nothing where nothing is.
pub fn push_finding(
    out: &mut Vec<u8>,
    class: u32,
    name: &str,
    finding: Finding,
) -> Result<(), AllocError>
    ensures { OnOk result
        (out.new.items ≡ out.old.items ++ finding_text class name.now finding) }
{
    match finding {
        Finding::Foreign => Ok(()),
        Finding::Elsewhere(own) => push_elsewhere(out, class, name, own),
        Finding::Here(found) => push_found(out, class, name, found),
    }
}

fn push_found(out: &mut Vec<u8>, class: u32, name: &str, found: FileFound) -> Result<(), AllocError>
    ensures { OnOk result
        (out.new.items ≡ out.old.items ++ found_text class name.now found) }
{
    match found {
        FileFound::Absent => Ok(()),
        FileFound::Ring(_, _) => Ok(()),
        FileFound::Faulty(fault) => push_faulty(out, class, name, fault),
    }
}

fn push_elsewhere(out: &mut Vec<u8>, class: u32, name: &str, own: u32) -> Result<(), AllocError>
    ensures { OnOk result
        (out.new.items ≡ out.old.items ++ elsewhere_text class name.now own) }
{
    push_file(out, class, name)?;
    push_elsewhere_word(out)?;
    push_folder(out, own)?;
    push_unless_word(out)
}

fn push_faulty(
    out: &mut Vec<u8>,
    class: u32,
    name: &str,
    fault: HeadFault,
) -> Result<(), AllocError>
    ensures { OnOk result
        (out.new.items ≡ out.old.items ++ faulty_text class name.now fault) }
{
    push_file(out, class, name)?;
    push_wrong(out, fault)?;
    out.extend_from_slice(b"; ")?;
    out.extend_from_slice(advice_words(fault).as_bytes())?;
    Ok(out.push(b'\n')?)
}

fn push_wrong(out: &mut Vec<u8>, fault: HeadFault) -> Result<(), AllocError>
    ensures { OnOk result (out.new.items ≡ out.old.items ++ wrong_text fault) }
{
    out.extend_from_slice(fault_words(fault).as_bytes())?;
    push_archive(out, archive_of_fault(fault))
}

fn push_archive(out: &mut Vec<u8>, archive: Option<u32>) -> Result<(), AllocError>
    ensures { OnOk result (out.new.items ≡ out.old.items ++ archive_text archive) }
{
    let Some(archive) = archive else {
        return Ok(());
    };
    push_archive_word(out)?;
    push_number(out, u64::from(archive))?;
    Ok(out.push(b')')?)
}

// The path of a file below the working folder, and what stands behind it.
fn push_file(out: &mut Vec<u8>, class: u32, name: &str) -> Result<(), AllocError>
    ensures { OnOk result (out.new.items ≡ out.old.items ++ file_text class name.now) }
{
    push_folder(out, class)?;
    out.extend_from_slice(name.as_bytes())?;
    out.extend_from_slice(b": ")
}

// The folder of a class, with two digits.
fn push_folder(out: &mut Vec<u8>, class: u32) -> Result<(), AllocError>
    ensures { OnOk result (out.new.items ≡ out.old.items ++ folder_text class) }
{
    let tens = b'0' + (class / 10 % 10) as u8;
    let ones = b'0' + (class % 10) as u8;
    push_data_word(out)?;
    out.extend_from_slice(&[tens, ones, b'/'])
}

#[tactic(auto, unfolding(crate::specs::FindingText::data_word))]
fn push_data_word(out: &mut Vec<u8>) -> Result<(), AllocError>
    ensures { OnOk result (out.new.items ≡ out.old.items ++ data_word) }
{
    out.extend_from_slice(b"data/")
}

#[tactic(auto, unfolding(crate::specs::FindingText::archive_word))]
fn push_archive_word(out: &mut Vec<u8>) -> Result<(), AllocError>
    ensures { OnOk result (out.new.items ≡ out.old.items ++ archive_word) }
{
    out.extend_from_slice(b" (archive ")
}

#[tactic(auto, unfolding(crate::specs::FindingText::elsewhere_word))]
fn push_elsewhere_word(out: &mut Vec<u8>) -> Result<(), AllocError>
    ensures { OnOk result (out.new.items ≡ out.old.items ++ elsewhere_word) }
{
    out.extend_from_slice(b"its metric is of another class; move it to ")
}

#[tactic(auto, unfolding(crate::specs::FindingText::unless_word))]
fn push_unless_word(out: &mut Vec<u8>) -> Result<(), AllocError>
    ensures { OnOk result (out.new.items ≡ out.old.items ++ unless_word) }
{
    out.extend_from_slice(b" while carbon is stopped, unless its file is there\n")
}
