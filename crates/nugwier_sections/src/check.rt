//! Whether a file is sound, and its faults. It is read whole.
#![tactic(auto, using(nugwier_report::proofs::Saying::saying_both))]

ghost use Rattle.std.specs.Prelude.{◌≡◌, ◌<◌, ◌^◌, List, Result, IfOk, IfSome, OnOk, false, length};
ghost use Rattle.elf.specs.ElfBytes.{view};
ghost use Rattle.elf.specs.Loaded.{streamed_file};
ghost use Rattle.elf.specs.ObjectFile.{object_file};
ghost use Rattle.elf_records.specs.Number.{ok_map};
ghost use Rattle.elf_records.specs.declared.parse.ParseError.{ParseError};
ghost use Rattle.elf_reading.specs.Opening.{opened_file};
ghost use Rattle.elf_check.specs.AllFaults.{AreAllFaults};
ghost use Rattle.elf_check.specs.declared.faults.FileFault.{FileFault};
ghost use Rattle.nugwier_sections.specs.Check.{AreContentFaults, AreFaultsOf, AreFoundSaid, AreOpenedFaults};
ghost use Rattle.nugwier_sections.specs.Check.{IsCheckSaid};
ghost use Rattle.nugwier_report.specs.Whole.{stream_range, file_of};
ghost use Rattle.nugwier_report.specs.Said.{IsToldAs, Said, saying};

use crate::verdicts::tell_verdict;
use elf::endian::EndianParse;
use elf::{ElfBytes, ElfStream, ParseError, StreamSource};
use elf_check::all_faults_in;
use elf_check::faults::FileFault;
use nugwier_report::listed::ListedFile;
use nugwier_report::problem::{Part, Stop};
use nugwier_report::reading;
use nugwier_report::tell::Tell;
use std::alloc::{AllocError, Global};

// All faults of a file, or why it cannot be read whole.
type Checked = Result<Vec<FileFault>, ParseError>;

/// Tells that the file of this path is sound, or its faults.
pub fn tell_check<E: EndianParse, R: ListedFile<E>, T: Tell>(
    alloc: Global,
    path: &str,
    file: &R,
    tell: &mut T,
) -> Result<(), Stop>
    ensures { OnOk result (IsToldAs T.silent T.one
        (IsCheckSaid E.little E.of_byte path.now (file_of (R.file file.now) (R.bytes file.now))) tell.old tell.new) }
{
    let bytes = reading::whole_bytes(file)?;
    if tell.is_silent() {
        return Ok(());
    }
    match bytes {
        Ok(bytes) => tell_checked(alloc, path, checked::<E>(alloc, bytes)?, tell),
        Err(error) => tell.problem(Part::File.whole(), &error),
    }
}

/// States that the faults of a stream over known content are all faults of the file that the content holds, if it was
/// opened with its section headers.
pub fn content_is_checked<E: EndianParse, S: StreamSource>(stream: &ElfStream<E, S, Global>)
    ensures { stream.now.by_segments ≡ false → IfSome stream.now.content (λ bytes.
        (found : Result (List FileFault) ParseError) →
        AreFaultsOf E.little E.of_byte (file_of (streamed_file E.little stream.now) (stream_range stream.now)) found →
        AreContentFaults E.little E.of_byte bytes found) }
{
    stream.is_of_file();
    stream.is_part_of_file();
    content_has_a_length(stream);
}

// States that the length of a known content is a number of 64 bits.
fn content_has_a_length<E: EndianParse, S: StreamSource>(stream: &ElfStream<E, S, Global>)
    ensures { IfSome stream.now.content (λ bytes. length bytes < 2 ^ 64) }
{
    let _ = stream.source_len();
}

// Checks a file that is opened over these bytes.
fn checked<E: EndianParse>(alloc: Global, bytes: &[u8]) -> Result<Checked, AllocError>
    ensures { IfOk result (λ checked. AreOpenedFaults E.little E.of_byte (opened_file E.little E.of_byte bytes.now)
        (ok_map (λ faults. faults.items) checked)) }
{
    match ElfBytes::<E>::minimal_parse(bytes) {
        Ok(file) => Ok(Ok(faults_of(alloc, &file)?)),
        Err(error) => Ok(Err(error)),
    }
}

fn faults_of<E: EndianParse>(
    alloc: Global,
    file: &ElfBytes<'_, E>,
) -> Result<Vec<FileFault>, AllocError>
    ensures { IfOk result (λ faults. AreAllFaults (object_file E.little (view file.now)) faults.items) }
{
    let count = match file.symbol_version_table() {
        Ok(Some(versions)) => versions.place_count(),
        _ => 0,
    };
    let mut needed = empty_places(alloc, count);
    let mut defined = empty_places(alloc, count);
    all_faults_in(alloc, file, &mut needed, &mut defined)
}

// Empty places, or none if there is no memory for them. Without a place a version is looked up by a walk.
fn empty_places<T: Copy>(alloc: Global, count: usize) -> Vec<Option<T>> {
    match vec![in alloc; None; count] {
        Ok(places) => places,
        Err(_) => Vec::new(alloc),
    }
}

// Tells that the file of this path is sound, or its faults, or that it cannot be read.
fn tell_checked<T: Tell>(
    alloc: Global,
    path: &str,
    checked: Checked,
    tell: &mut T,
) -> Result<(), Stop>
    ensures { OnOk result ((said : List Said) × AreFoundSaid path.now (ok_map (λ faults. faults.items) checked) said
        × (tell.new ≡ saying T.one tell.old said)) }
{
    match checked {
        Ok(faults) => tell_verdict(alloc, path, faults.as_slice(), tell),
        Err(error) => tell.problem(Part::File.whole(), &error),
    }
}
