//! Tables of records, and iterators over them (gABI, chapters "Sections" and "Program Header").
ghost use Rattle.std.specs.Prelude.{◌≡◌, ◌==◌, ◌<◌, ◌≤◌, ◌+◌, ◌^◌, length, IfNone, IfSome, IsErr, Ok, OnOk, true, ⊤};
ghost use Rattle.std.specs.Iterator.{YieldsFirst, item_count};
ghost use Rattle.elf_records.specs.Table.{items_left, table_in, table_get, table_items, table_len, table_view};

use crate::endian::{BigEndian, EndianParse, LittleEndian};
use crate::file::Class;
use crate::parse::{ParseAt, ParseError};
use std::alloc::AllocError;
use std::marker::PhantomData;

// Reads a record field by field, in the little order or in the big one.
#[inline(always)]
fn read_fields<P: ParseAt>(
    little: bool,
    class: Class,
    offset: &mut usize,
    data: &[u8],
) -> Result<P, ParseError>
    ensures value { result ≡ P.reads.record_at little class «data».now offset.old }
    ensures moved { offset.new ≡ P.reads.offset_after little class «data».now offset.old }
{
    if little {
        P::parse_at(LittleEndian, class, offset, data)
    } else {
        P::parse_at(BigEndian, class, offset, data)
    }
}

// Reads a record field by field. Not inlined, since it is called only if the record cannot be read.
#[inline(never)]
fn read_slowly<P: ParseAt>(
    little: bool,
    class: Class,
    offset: &mut usize,
    data: &[u8],
) -> Result<P, ParseError>
    ensures value { result ≡ P.reads.record_at little class «data».now offset.old }
    ensures moved { offset.new ≡ P.reads.offset_after little class «data».now offset.old }
{
    read_fields(little, class, offset, data)
}

// Reads a record field by field, or returns `None` if it cannot be read.
#[inline(always)]
fn read_or_none<P: ParseAt>(little: bool, class: Class, offset: usize, data: &[u8]) -> Option<P>
    ensures value { IfSome result (λ x. P.reads.record_at little class «data».now offset ≡ Ok x) }
    ensures refused { IfNone result (IsErr (P.reads.record_at little class «data».now offset)) }
{
    let mut start = offset;
    match read_fields(little, class, &mut start, data) {
        Ok(record) => Some(record),
        Err(_) => None,
    }
}

// Reads a local record from its own bytes: one check of the bounds serves all its fields. Returns `None` if the record
// cannot be read; the error is that of `read_slowly`.
#[tactic(auto, using(crate::proofs::Items::local_reads))]
#[inline(always)]
fn read_part<P: ParseAt>(little: bool, class: Class, offset: usize, data: &[u8]) -> Option<P>
    requires { P.reads.local ≡ true }
    ensures value { IfSome result (λ x. P.reads.record_at little class «data».now offset ≡ Ok x) }
    ensures within { IfSome result (λ x. offset + P.reads.size class ≤ length «data».now) }
    ensures refused { IfNone result (IsErr (P.reads.record_at little class «data».now offset)) }
{
    let end = offset.checked_add(P::size_for(class))?;
    read_or_none(little, class, 0, data.get(offset..end)?)
}

/// Reads a record, or returns `None` if it cannot be read: a loop that needs no error carries no room for one.
// In each arm of a local record the class, and so the size, is known to the compiler.
#[inline(always)]
pub fn read_quickly<P: ParseAt>(little: bool, class: Class, offset: usize, data: &[u8]) -> Option<P>
    ensures value { IfSome result (λ x. P.reads.record_at little class «data».now offset ≡ Ok x) }
    ensures within { IfSome result (λ x. offset + P.reads.size class ≤ length «data».now) }
    ensures refused { IfNone result (IsErr (P.reads.record_at little class «data».now offset)) }
{
    if !P::SHAPE.2 {
        return read_or_none(little, class, offset, data);
    }
    match class {
        Class::ELF32 => read_part(little, Class::ELF32, offset, data),
        Class::ELF64 => read_part(little, Class::ELF64, offset, data),
    }
}

/// Reads a record in the little order or in the big one. The error, and the offset after it, are those of the
/// record's own read.
// Inlined, so no room for an error is filled at each read.
#[inline(always)]
pub fn read_record<P: ParseAt>(
    little: bool,
    class: Class,
    offset: &mut usize,
    data: &[u8],
) -> Result<P, ParseError>
    ensures value { result ≡ P.reads.record_at little class «data».now offset.old }
    ensures moved { offset.new ≡ P.reads.offset_after little class «data».now offset.old }
    ensures after { OnOk result (offset.new ≡ offset.old + P.reads.size class) }
{
    match read_quickly(little, class, *offset, data) {
        Some(record) => {
            *offset += P::size_for(class);
            Ok(record)
        }
        None => read_slowly(little, class, offset, data),
    }
}

/// A table of records of one type, each directly after the one before it. It borrows the bytes, copies none of
/// them, and reads a record when it is requested.
// The order is stored as a bool, which is all that the reading of a record depends on.
#[derive(Debug)]
#[derive_where(Copy)]
pub struct ParsingTable<'data, E: EndianParse, P: ParseAt> {
    little: bool,
    class: Class,
    data: &'data [u8],
    order: PhantomData<E>,
    records: PhantomData<P>,
}

/// The records of a table in order, up to the first that cannot be read. After its first `None` it keeps returning
/// `None`.
#[derive(Debug, Drop)]
pub struct ParsingIterator<'data, E: EndianParse, P: ParseAt> {
    little: bool,
    class: Class,
    data: &'data [u8],
    offset: usize,
    order: PhantomData<E>,
    records: PhantomData<P>,
}

impl<'data, E: EndianParse, P: ParseAt> ParsingIterator<'data, E, P> {
    /// Returns the records in `data`, in order from its start: at most as many as `data` has bytes.
    pub fn new(endian: E, class: Class, data: &'data [u8]) -> Self
        ensures items { items_left P.reads result
            ≡ table_items P.reads (table_in (E.little endian) class «data».now) }
        ensures few { length (items_left P.reads result) ≤ length «data».now }
        ensures bound { length (items_left P.reads result) < 2 ^ 64 }
    {
        Self::starting(endian.is_little(), class, data)
    }

    // How many bytes the data has.
    pub(crate) fn data_len(&self) -> usize
        ensures count { result ≡ length self.now.«data».now }
        ensures short { length self.now.«data».now < 2 ^ 64 }
    {
        self.data.len()
    }

    // The same, where the order is given as whether it is little.
    #[tactic(auto, using(crate::proofs::Items::items_bounded), unfolding(crate::specs::Table::items_left))]
    fn starting(little: bool, class: Class, data: &'data [u8]) -> Self
        ensures items { items_left P.reads result ≡ table_items P.reads (table_in little class «data».now) }
        ensures few { length (items_left P.reads result) ≤ length «data».now }
        ensures bound { length (items_left P.reads result) < 2 ^ 64 }
    {
        ParsingIterator {
            little,
            class,
            data,
            offset: 0,
            order: PhantomData,
            records: PhantomData,
        }
    }
}

impl<'data, E: EndianParse, P: ParseAt> Iterator for ParsingIterator<'data, E, P> {
    type Item = P;

    ghost next_gives = { YieldsFirst (items_left P.reads) };

    ghost remaining = { item_count (items_left P.reads) };

    #[inline(always)]
    fn next(&mut self) -> Option<P> {
        match read_quickly(self.little, self.class, self.offset, self.data) {
            Some(record) => {
                self.offset += P::size_for(self.class);
                Some(record)
            }
            None => {
                self.data = &[];
                None
            }
        }
    }
}

// A derived `Clone` would clone field by field, and be slower to prove.
impl<'data, E: EndianParse, P: ParseAt> Clone for ParsingTable<'data, E, P> {
    ghost is_clone = { λ x y. y ≡ x };

    ghost is_infallible = { λ _. ⊤ };

    fn clone(&self) -> Result<Self, AllocError> {
        Ok(*self)
    }
}

impl<'data, E: EndianParse, P: ParseAt> ParsingTable<'data, E, P> {
    /// Returns the table whose records begin at the start of `data`.
    pub fn new(endian: E, class: Class, data: &'data [u8]) -> Self
        ensures { table_view result ≡ table_in (E.little endian) class «data».now }
    {
        ParsingTable {
            little: endian.is_little(),
            class,
            data,
            order: PhantomData,
            records: PhantomData,
        }
    }

    /// Returns an iterator over the records in order, up to the first that cannot be read: at most as many as the table
    /// has bytes.
    ///
    /// ```rust
    /// if let Some(sections) = file.section_headers() {
    ///     let empty = sections.iter().filter(|section| section.sh_size == 0);
    ///     println!(rt; "{} empty sections", empty.count())?;
    /// }
    /// ```
    pub fn iter(&self) -> ParsingIterator<'data, E, P>
        ensures items { items_left P.reads result ≡ table_items P.reads (table_view self.now) }
        ensures few { length (items_left P.reads result) ≤ length (table_view self.now).bytes }
        ensures bound { length (items_left P.reads result) < 2 ^ 64 }
    {
        ParsingIterator::starting(self.little, self.class, self.data)
    }

    /// Returns the bytes in which the records lie.
    pub fn bytes(&self) -> &'data [u8]
        ensures { result.now ≡ (table_view self.now).bytes }
    {
        self.data
    }

    /// Returns the class of the records.
    pub fn class(&self) -> Class
        ensures { result ≡ (table_view self.now).class }
    {
        self.class
    }

    /// Returns whether the byte order is the little one.
    pub fn is_little(&self) -> bool
        ensures { result ≡ (table_view self.now).little }
    {
        self.little
    }

    /// Returns how many records fit: the table's bytes divided by the size of a record, rounded down.
    ///
    /// ```rust
    /// if let Some((symbols, _)) = file.dynamic_symbol_table()? {
    ///     println!(rt; "{} symbols", symbols.len())?;
    /// }
    /// ```
    pub fn len(&self) -> usize
        ensures count { result ≡ table_len P.reads (table_view self.now) }
        ensures short { length (table_view self.now).bytes < 2 ^ 64 }
    {
        self.data.len() / P::size_for(self.class)
    }

    /// Returns whether `len` is 0.
    pub fn is_empty(&self) -> bool
        ensures { result ≡ (table_len P.reads (table_view self.now) == 0) }
    {
        self.len() == 0
    }

    /// Returns the record at `index`, counted from 0, or `None` if it cannot be read; `get` has the error.
    #[inline(always)]
    pub fn get_quickly(&self, index: usize) -> Option<P>
        ensures value { IfSome result (λ x. table_get P.reads (table_view self.now) index ≡ Ok x) }
        ensures refused { IfNone result (IsErr (table_get P.reads (table_view self.now) index)) }
    {
        let start = index.checked_mul(P::size_for(self.class))?;
        read_quickly(self.little, self.class, start, self.data)
    }

    /// Returns the record at `index`, counted from 0.
    ///
    /// Errors, in order: `BadOffset(index)` if the table has no bytes; `IntegerOverflow` if the offset of the
    /// record does not fit 64 bits; `BadOffset(index)` if the offset lies past the end of the table; then the error
    /// of the record's own read, as `SliceReadError((start, end))` of a field that does not lie in the table.
    ///
    /// ```rust
    /// if let Some(sections) = file.section_headers() {
    ///     println!(rt; "section 1 has {} bytes", sections.get(1)?.sh_size)?;
    /// }
    /// ```
    #[inline(always)]
    pub fn get(&self, index: usize) -> Result<P, ParseError>
        ensures { result ≡ table_get P.reads (table_view self.now) index }
    {
        if self.data.is_empty() {
            return Err(ParseError::BadOffset(index as u64));
        }
        let entsize = P::size_for(self.class);
        let mut start = index
            .checked_mul(entsize)
            .ok_or(ParseError::IntegerOverflow)?;
        if start > self.data.len() {
            return Err(ParseError::BadOffset(index as u64));
        }
        read_record(self.little, self.class, &mut start, self.data)
    }
}

impl<'data, E: EndianParse, P: ParseAt> IntoIterator for ParsingTable<'data, E, P> {
    type Item = P;

    type IntoIter = ParsingIterator<'data, E, P>;

    // Code over any `IntoIterator` learns by this what the clauses of `into_iter` say.
    ghost into_iter_gives = { λ s r.
        (items_left P.reads r ≡ table_items P.reads (table_view s))
        × (length (items_left P.reads r) < 2 ^ 64) };

    fn into_iter(self) -> ParsingIterator<'data, E, P>
        ensures items { items_left P.reads result ≡ table_items P.reads (table_view self.entry) }
        ensures few { length (items_left P.reads result) ≤ length (table_view self.entry).bytes }
        ensures bound { length (items_left P.reads result) < 2 ^ 64 }
    {
        self.iter()
    }
}
