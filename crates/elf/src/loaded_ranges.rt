//! A file that the caller has loaded in part.
ghost use Rattle.std.specs.Prelude.{◌≡◌, ◌≤◌, ◌∷◌, [], All, IfErr, IfOk, IfSome, List, Ok, ℕ, length, map};
ghost use Rattle.std.specs.Option.{option_map};
ghost use Rattle.elf_reading.specs.Cache.{IsOf, part_at};
ghost use Rattle.elf_records.specs.Number.{ok_map};
ghost use Rattle.elf.specs.ElfBytes.{view};
ghost use Rattle.elf.specs.LoadedRanges.{is_missing, part_of, parts_in, parts_of, ranges_file, ranges_in, ranges_of};
ghost use Rattle.elf.specs.LoadedRanges.{whole_file};
ghost use Rattle.elf.specs.Parts.{ArePartOf, IsPlain};

use crate::elf_bytes::ElfBytes;
use crate::headers::{FileHeaders, Headers};
use crate::read_error::ReadError;
use crate::reader::Reader;
use elf_parts::endian::EndianParse;
use elf_parts::parse::ParseError;

/// A range of a file with its bytes. The first of them is at `start` in the file.
#[repr(C)]
#[derive(Debug, Clone, Copy)]
pub struct LoadedRange<'data> {
    pub start: u64,
    pub bytes: &'data [u8],
}

impl<'data> LoadedRange<'data> {
    /// Returns the bytes from `start` to `end`, if they lie within this range.
    #[inline(always)]
    pub fn get(&self, start: u64, end: u64) -> Option<&'data [u8]>
        ensures { option_map (λ part. part.now) result ≡ part_at (part_of self.now ∷ []) start end }
    {
        if self.start > start || start > end || end - self.start > self.bytes.len() as u64 {
            return None;
        }
        let from = (start - self.start) as usize;
        let size = (end - start) as usize;
        Some(&self.bytes[from..from + size])
    }
}

/// Returns the bytes from `start` to `end`, of the last of the ranges within which they lie.
pub fn loaded_part<'data>(
    ranges: &[LoadedRange<'data>],
    start: u64,
    end: u64,
) -> Option<&'data [u8]>
    ensures { option_map (λ part. part.now) result ≡ part_at (map part_of ranges.now) start end }
{
    let mut found = None;
    for range in ranges {
        if let Some(part) = range.get(start, end) {
            found = Some(part);
        }
    }
    found
}

/// What a caller has loaded of a file: its size, the bytes at its front, and ranges. The ranges may be in any order and
/// may overlap.
#[derive(Debug, Clone, Copy)]
pub struct LoadedParts<'data> {
    pub size: u64,
    pub front: &'data [u8],
    pub ranges: &'data [LoadedRange<'data>],
}

impl<'data> LoadedParts<'data> {
    // The bytes from `start` to `end`: of the last of the ranges within which they lie, or else of the front.
    #[inline(always)]
    fn part(&self, start: u64, end: u64) -> Option<&'data [u8]>
        ensures { option_map (λ part. part.now) result
            ≡ part_at (parts_in self.now.front.now self.now.ranges.now) start end }
    {
        let front = LoadedRange {
            start: 0,
            bytes: self.front,
        };
        if let Some(part) = loaded_part(self.ranges, start, end) {
            return Some(part);
        }
        front.get(start, end)
    }

    /// Returns the bytes of a range: of the last of the ranges within which they lie, or else of the front. A range of no
    /// bytes that starts within the size of the file is always there.
    ///
    /// Errors, in order: `Parse(IntegerOverflow)` if the end of the range does not fit 64 bits;
    /// `Parse(SliceReadError((start, end)))` if it does not lie in the file; `NotLoaded((start, end))`.
    pub fn range(&self, start: u64, count: u64) -> Result<&'data [u8], ReadError>
        ensures value { ok_map (λ part. part.now) result
            ≡ ranges_in self.now.size (parts_in self.now.front.now self.now.ranges.now) start count }
        ensures size { IfOk result (λ part. length part.now ≤ count) }
        ensures plain { IfErr result IsPlain }
    {
        let Some(end) = start.checked_add(count) else {
            return Err(ReadError::Parse(ParseError::IntegerOverflow));
        };
        if count == 0 && start <= self.size {
            return Ok(&[]);
        }
        match self.part(start, end) {
            Some(part) => Ok(part),
            None if self.size < end => Err(ReadError::Parse(ParseError::SliceReadError((
                start as usize,
                end as usize,
            )))),
            None => Err(ReadError::NotLoaded((start, end))),
        }
    }

    /// Returns the bytes of a range that has bytes and is loaded. Where it returns `None` `range` has the answer, which
    /// can be an error and takes more room.
    #[inline(always)]
    pub fn range_quickly(&self, start: u64, count: u64) -> Option<&'data [u8]>
        ensures { IfSome result (λ part.
            ranges_in self.now.size (parts_in self.now.front.now self.now.ranges.now) start count ≡ Ok part.now) }
    {
        if count == 0 {
            return None;
        }
        self.part(start, start.checked_add(count)?)
    }
}

/// A file that the caller has loaded in part. What lies within a loaded range, or else within the bytes of the headers'
/// file, which are those at the front, is read from it; nothing needs to be loaded for a range of no bytes. For any other
/// range that lies in the file a function of `reader` returns `ReadError::NotLoaded`: the caller loads that range and
/// calls again. So a file is read by parts from any source, without a trait of this library.
#[derive(Debug, Drop)]
pub struct LoadedRanges<'data, E: EndianParse> {
    headers: ElfBytes<'data, E>,
    size: u64,
    ranges: &'data [LoadedRange<'data>],
}

impl<'data, E: EndianParse> LoadedRanges<'data, E> {
    /// A file with the headers of `headers`, as `ElfBytes::from_parts` makes it of no bytes or of those at the front of
    /// the file, with this many bytes and these ranges loaded.
    pub fn new(headers: ElfBytes<'data, E>, size: u64, ranges: &'data [LoadedRange<'data>]) -> Self
        ensures headers { result.headers ≡ headers.entry }
        ensures size { result.size ≡ size }
        ensures ranges { result.ranges.now ≡ ranges.now }
    {
        LoadedRanges {
            headers,
            size,
            ranges,
        }
    }

    /// Returns what is loaded.
    #[inline(always)]
    pub fn parts(&self) -> LoadedParts<'data>
        ensures size { result.size ≡ self.now.size }
        ensures front { result.front.now ≡ (view self.now.headers).bytes }
        ensures ranges { result.ranges.now ≡ self.now.ranges.now }
    {
        LoadedParts {
            size: self.size,
            front: self.headers.data(),
            ranges: self.ranges,
        }
    }

    /// States that these are ranges of a file, if the front and each range have the bytes that the file has there: a range
    /// is read as the file has it, or it is missing. Such a range lies in the file, has bytes, and lies within none of
    /// the loaded ones. By `part_answers_as_whole` the same is true of all that is read of it.
    pub fn are_part_of(&self)
        ensures { (bytes : List ℕ) → self.now.size ≡ length bytes → All (IsOf bytes) (parts_of self.now)
            → ArePartOf (whole_file E.little self.now bytes) (is_missing self.now.size (parts_of self.now))
            (ranges_of self.now) }
    {
        let _ = &self.size;
    }
}

impl<'data, E: EndianParse> Headers<E> for LoadedRanges<'data, E> {
    ghost file = { ranges_file E.little };

    #[inline(always)]
    fn headers(&self) -> FileHeaders<'_, E> {
        FileHeaders {
            size: self.size,
            ..self.headers.headers()
        }
    }
}

impl<'data, E: EndianParse> Reader<E> for LoadedRanges<'data, E> {
    ghost ranges = { ranges_of };

    fn range(&self, start: u64, size: u64) -> Result<&[u8], ReadError> {
        self.parts().range(start, size)
    }
}
