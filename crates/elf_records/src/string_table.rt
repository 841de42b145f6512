//! Tables of strings (gABI, chapter "String Table").
ghost use Rattle.std.specs.Prelude.{◌≡◌, ◌≢◌, ◌==◌, ◌+◌, ◌-◌, ◌<◌, ◌≤◌, Err, List, None, Ok, Some, ℕ};
ghost use Rattle.std.specs.Prelude.{IfNone, IfSome, IsErr};
ghost use Rattle.std.specs.Prelude.{drop, is_ok, length, not, position, slice_get, take};
ghost use Rattle.std.specs.Bool.{Decides};
ghost use Rattle.std.specs.List.{prefix_len};
ghost use Rattle.std.specs.Str.{bytes_eq};
ghost use Rattle.elf_records.specs.Number.{ok_map};
ghost use Rattle.elf_records.specs.StringTable.{string_at, strings_view, GivesText};
ghost use Rattle.elf_records.specs.inner.Terminated.{IsTerminated, NoneFrom};

use crate::parse::ParseError;
use std::marker::Model;
use std::simd::prelude::*;
use std::str::from_utf8;

// How many bytes are compared with 0 at once, if fewer than `WIDE` are left.
const LANES: usize = 16;

// How many of the `LANES` bytes starting at start come before the first 0 byte.
#[inline(always)]
fn count_before_nul(bytes: &[u8], start: usize) -> usize
    requires { start + LANES ≤ length bytes.now }
    ensures { result ≡ prefix_len (λ byte. not (byte == 0)) (take LANES (drop start bytes.now)) }
{
    let nuls = u8x16::from_slice(&bytes[start..]).simd_eq(u8x16::splat(0));
    let mask = nuls.to_bitmask();
    if mask == 0 {
        LANES
    } else {
        mask.trailing_zeros() as usize
    }
}

// The place of the first 0 byte in fewer than `LANES` bytes, which are compared one by one.
fn first_nul_of_few(bytes: &[u8]) -> Option<usize>
    ensures { result ≡ position (λ byte. byte == 0) bytes.now }
{
    bytes.iter().position(|byte| *byte == 0)
}

// The place of the first 0 byte in fewer than `WIDE` bytes, which are compared in groups of `LANES`.
fn first_nul_of_some(bytes: &[u8]) -> Option<usize>
    ensures { result ≡ position (λ byte. byte == 0) bytes.now }
{
    let mut start = 0;
    while LANES <= bytes.len() - start {
        let count = count_before_nul(bytes, start);
        if count < LANES {
            return Some(start + count);
        }
        start += LANES;
    }
    let count = first_nul_of_few(&bytes[start..])?;
    Some(start + count)
}

// How many bytes are compared with 0 at once, if that many are left: most longer names end in the first group.
const WIDE: usize = 64;

// How many of the `WIDE` bytes starting at start come before the first 0 byte.
#[inline(always)]
fn count_wide_before_nul(bytes: &[u8], start: usize) -> usize
    requires { start + WIDE ≤ length bytes.now }
    ensures { result ≡ prefix_len (λ byte. not (byte == 0)) (take WIDE (drop start bytes.now)) }
{
    let nuls = u8x64::from_slice(&bytes[start..]).simd_eq(u8x64::splat(0));
    let mask = nuls.to_bitmask();
    if mask == 0 {
        WIDE
    } else {
        mask.trailing_zeros() as usize
    }
}

/// Returns the place of the first 0 byte.
// Bytes are compared in groups of `WIDE`, then of `LANES`, then one by one. A short name ends in the first `LANES`
// bytes: then no byte after them is read, which may lie in memory that is not cached.
pub fn first_nul(bytes: &[u8]) -> Option<usize>
    ensures { result ≡ position (λ byte. byte == 0) bytes.now }
{
    let mut start = 0;
    if LANES <= bytes.len() {
        let count = count_before_nul(bytes, 0);
        if count < LANES {
            return Some(count);
        }
        start = LANES;
    }
    while WIDE <= bytes.len() - start {
        let count = count_wide_before_nul(bytes, start);
        if count < WIDE {
            return Some(start + count);
        }
        start += WIDE;
    }
    let count = first_nul_of_some(&bytes[start..])?;
    Some(start + count)
}

/// A table of strings. Each ends in a 0 byte and is named by the offset of its first byte. The default table has no
/// bytes.
#[derive(Clone, Copy, Debug, Default)]
pub struct StringTable<'data> {
    data: &'data [u8],
}

impl<'data> StringTable<'data> {
    /// Returns the table whose strings lie in the data.
    pub fn new(data: &'data [u8]) -> Self
        ensures { strings_view result ≡ «data».now }
    {
        StringTable { data }
    }

    /// Returns the bytes in which the strings lie.
    pub fn bytes(&self) -> &'data [u8]
        ensures { result.now ≡ strings_view self.now }
    {
        self.data
    }

    /// Returns the bytes of the string at `offset`, in bytes, without the 0 byte that ends it.
    ///
    /// Errors, in order: `BadOffset(offset)` if the table has no bytes or the offset lies past its end;
    /// `StringTableMissingNul(offset)` if no 0 byte follows.
    #[tactic(auto, unfolding(crate::specs::StringTable::string_at))]
    #[inline(always)]
    pub fn get_raw(&self, offset: usize) -> Result<&'data [u8], ParseError>
        ensures { ok_map (λ bytes. bytes.now) result ≡ string_at (strings_view self.now) offset }
    {
        if self.data.is_empty() {
            return Err(ParseError::BadOffset(offset as u64));
        }
        let start = self
            .data
            .get(offset..)
            .ok_or(ParseError::BadOffset(offset as u64))?;
        let end = first_nul(start).ok_or(ParseError::StringTableMissingNul(offset as u64))?;
        Ok(start.split_at(end).0)
    }

    /// Returns the string at `offset`, in bytes, as text. A field such as `sh_name` or `st_name` has the offset.
    ///
    /// Errors, in order: those of `get_raw`; `Utf8Error`, with the first fault, if the bytes of the string are not
    /// UTF-8.
    ///
    /// ```rust
    /// let names = StringTable::new(b"\0main\0exit\0");
    /// println!(rt; "{}", names.get(6)?)?; // exit
    /// ```
    #[inline(always)]
    pub fn get(&self, offset: usize) -> Result<&'data str, ParseError>
        ensures { GivesText (string_at (strings_view self.now) offset) result }
    {
        let raw = self.get_raw(offset)?;
        Ok(from_utf8(raw)?)
    }

    // The error of an offset after which no byte is 0.
    #[tactic(auto, unfolding(crate::specs::StringTable::string_at))]
    fn refused(&self, offset: usize) -> ParseError
        requires { position (λ byte. byte == 0) (drop offset (strings_view self.now)) ≡ None }
        ensures { string_at (strings_view self.now) offset ≡ Err result }
    {
        if self.data.is_empty() || offset > self.data.len() {
            ParseError::BadOffset(offset as u64)
        } else {
            ParseError::StringTableMissingNul(offset as u64)
        }
    }
}

// Whether the bytes up to the first 0 byte are `name`. The search for that 0 byte takes groups of up to `WIDE`
// bytes, and ends with the group that has the byte at `name.len()`.
#[inline(always)]
fn first_string_is(bytes: &[u8], name: &[u8]) -> bool
    ensures { Decides result ((position (λ byte. byte == 0) bytes.now ≡ Some (length name.now))
        × (take (length name.now) bytes.now ≡ name.now)) }
{
    let end = name.len();
    if bytes.get(end) != Some(&0) {
        return false;
    }
    first_nul(bytes) == Some(end) && bytes.split_at(end).0 == name
}

// How many bytes are left where the groups of `LANES` bytes at the end that have no 0 byte are dropped.
fn without_last_groups(bytes: &[u8]) -> usize
    ensures within { result ≤ length bytes.now }
    ensures none { NoneFrom bytes.now result }
    ensures all { LANES ≤ result
        → prefix_len (λ byte. not (byte == 0)) (take LANES (drop (result - LANES) bytes.now)) < LANES }
{
    let mut end = bytes.len();
    while LANES <= end && count_before_nul(bytes, end - LANES) == LANES {
        end -= LANES;
    }
    end
}

// How many bytes there are up to and with the last 0 byte, if that is not the last byte.
fn count_terminated(bytes: &[u8]) -> usize
    requires { slice_get bytes.now (length bytes.now - 1) ≢ Some 0 }
    ensures { IsTerminated bytes.now result }
{
    let mut end = without_last_groups(bytes);
    while end > 0 && bytes[end - 1] != 0 {
        end -= 1;
    }
    end
}

/// A table of strings whose last 0 byte is known. So a string is compared without a search for its end, which may be
/// far away: in an untrusted file many symbols may share one long string.
#[derive(Debug, Drop)]
pub struct TerminatedStrings<'data> {
    table: StringTable<'data>,
    terminated: usize,
}

impl<'data> Model for TerminatedStrings<'data> {
    ghost Value = { List ℕ };

    ghost view = { λ strings. strings_view strings.table };

    ghost invariant = { λ strings. IsTerminated (strings_view strings.table) strings.terminated };
}

impl<'data> TerminatedStrings<'data> {
    /// Returns the strings of a table. If its last byte is not 0, the last 0 byte is looked for from the end.
    #[inline(always)]
    pub fn new(table: &StringTable<'data>) -> Self
        ensures { result ≡ strings_view table.now }
    {
        let terminated = match table.data.last() {
            Some(0) => table.data.len(),
            _ => count_terminated(table.data),
        };
        TerminatedStrings {
            table: *table,
            terminated,
        }
    }

    /// Returns what `StringTable::get_raw` returns. Where no 0 byte follows, the error takes no search for one.
    #[inline(always)]
    pub fn get_raw(&self, offset: usize) -> Result<&'data [u8], ParseError>
        ensures { ok_map (λ bytes. bytes.now) result ≡ string_at self.now offset }
    {
        if offset >= self.terminated {
            return Err(self.table.refused(offset));
        }
        self.table.get_raw(offset)
    }

    /// Returns whether there is a string at `offset`, in bytes. No byte is read.
    #[inline(always)]
    pub fn has_string_at(&self, offset: usize) -> bool
        ensures { result ≡ is_ok (string_at self.now offset) }
    {
        offset < self.terminated
    }

    /// Returns whether the string at `offset`, in bytes, is this name, or `None` if it cannot be read. `is` has the
    /// error.
    #[tactic(auto, unfolding(crate::specs::StringTable::string_at))]
    #[inline(always)]
    pub fn is_quickly(&self, offset: usize, name: &[u8]) -> Option<bool>
        ensures value { IfSome result (λ same.
            ok_map (λ bytes. bytes_eq bytes name.now) (string_at self.now offset) ≡ Ok same) }
        ensures refused { IfNone result (IsErr (string_at self.now offset)) }
    {
        if offset >= self.terminated {
            return None;
        }
        Some(first_string_is(&self.table.data[offset..], name))
    }

    /// Returns whether the string at `offset`, in bytes, is this name. The error is that of `StringTable::get_raw`. The
    /// time grows with the length of the name alone.
    #[tactic(auto, unfolding(crate::specs::StringTable::string_at))]
    #[inline(always)]
    pub fn is(&self, offset: usize, name: &[u8]) -> Result<bool, ParseError>
        ensures { result ≡ ok_map (λ bytes. bytes_eq bytes name.now) (string_at self.now offset) }
    {
        if offset >= self.terminated {
            return Err(self.table.refused(offset));
        }
        Ok(first_string_is(&self.table.data[offset..], name))
    }
}
