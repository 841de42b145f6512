//! The questions to a library that is read from a source: no more of it is read than they ask of.
ghost use Rattle.std.specs.Prelude.{◌≡◌, ◌<◌, ◌≤◌, IfOk, IfSome, List, Ok, OnOk, length, map, ℕ};
ghost use Rattle.std.specs.List.{All};
ghost use Rattle.elf_reading.specs.Cache.{IsOf};
ghost use Rattle.elf_reading.specs.Refusals.{HasReason};
ghost use Rattle.elf.specs.LoadedRanges.{part_of};
ghost use Rattle.elf_loader.specs.Glibc.{verdict};
ghost use Rattle.elf_loader.specs.GlibcLaws.{whole_file};
ghost use Rattle.elf_loader.specs.inner.GlibcReading.{IsAnswerOf, fetched_piece};

use crate::glibc::laws::part_is_answered_as_whole;
use crate::glibc::{Candidate, Kind, verdict};
use elf::{LoadedParts, LoadedRange, ParseError, StreamSource};
use elf_reading::reads::fetch;
use std::alloc::{AllocError, Global};

// A range of a file that was read, with its bytes.
#[derive(Drop)]
struct FetchedRange {
    start: u64,
    bytes: Vec<u8>,
}

// The ranges that were read, to look at.
fn lent(alloc: Global, fetched: &[FetchedRange]) -> Result<Vec<LoadedRange<'_>>, AllocError>
    ensures { IfOk result (λ ranges. map part_of ranges.items ≡ map fetched_piece fetched.now) }
{
    let mut ranges = Vec::new(alloc);
    for range in fetched {
        ranges.push(LoadedRange {
            start: range.start,
            bytes: range.bytes.as_slice(),
        })?;
    }
    Ok(ranges)
}

// What is answered of a file of this size of which these ranges were read.
fn answer(
    alloc: Global,
    wanted: &Kind,
    size: u64,
    fetched: &[FetchedRange],
) -> Result<Result<Candidate, (u64, u64)>, AllocError>
    ensures { IfOk result (λ answer. (bytes : List ℕ) → size ≡ length bytes
        → All (IsOf bytes) (map fetched_piece fetched.now) → IsAnswerOf wanted.now bytes answer) }
{
    part_is_answered_as_whole();
    let ranges = lent(alloc, fetched)?;
    let file = LoadedParts {
        size,
        front: &[],
        ranges: ranges.as_slice(),
    };
    Ok(verdict(wanted, &file))
}

// Reads one more range, by its start and its end.
fn read_more<S: StreamSource>(
    alloc: Global,
    source: &mut S,
    range: (u64, u64),
    fetched: &mut Vec<FetchedRange>,
) -> Result<(), ParseError>
    ensures content { S.content source.new ≡ S.content source.old }
    ensures nature { S.can_fail source.new ≡ S.can_fail source.old }
    ensures reason { IfSome (S.content source.old)
        (λ bytes. HasReason (S.failures source.old) (S.failures source.new) (S.can_fail source.old)
        (length bytes < range.1) result) }
    ensures sound { OnOk result (IfSome (S.content source.old) (λ bytes. (range.0 < range.1) × (range.1 ≤ length bytes)
        → All (IsOf bytes) (map fetched_piece fetched.old.items)
        → All (IsOf bytes) (map fetched_piece fetched.new.items))) }
{
    let start = range.0;
    let bytes = fetch(alloc, source, start, range.1)?;
    if let Err(_) = fetched.push(FetchedRange { start, bytes }) {
        return Err(ParseError::OutOfMemory);
    }
    Ok(())
}

/// Returns what `verdict` returns of the whole file that the source has. Each range that has to be loaded is read, and no
/// other.
///
/// Errors: `IOError` exactly if the source failed, or `OutOfMemory` if an allocation failed. That the file is damaged is no
/// error.
pub fn verdict_of<S: StreamSource>(
    alloc: Global,
    wanted: &Kind,
    source: &mut S,
) -> Result<Candidate, ParseError>
    ensures content { S.content source.new ≡ S.content source.old }
    ensures nature { S.can_fail source.new ≡ S.can_fail source.old }
    ensures reason { IfSome (S.content source.old)
        (λ _. HasReason (S.failures source.old) (S.failures source.new) (S.can_fail source.old) ⊥ result) }
    ensures verdict { IfOk result (λ found. IfSome (S.content source.old)
        (λ bytes. verdict wanted.now (whole_file bytes) ≡ Ok found)) }
{
    let size = source.seek_end()?;
    let mut fetched = Vec::new(alloc);
    // Each round reads a range that was missing, and no source has that many.
    'rounds: for _ in 0..u64::MAX {
        match answer(alloc, wanted, size, &fetched)? {
            Ok(found) => return Ok(found),
            Err(range) => read_more(alloc, source, range, &mut fetched)?,
        }
    }
    Err(ParseError::OutOfMemory)
}
