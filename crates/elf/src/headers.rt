//! The headers of a file, and how every reader chooses among them.
//!
//! `FileHeaders` is what a file's header and its two tables of headers say, in the tables or in lists. A reader gives it
//! by the one method of the trait `Headers`. A stream has its headers in lists, so none of these calls reads its source.
ghost use Rattle.std.specs.Prelude.{◌≡◌, ◌&&◌, ◌<◌, ◌^◌, ℕ, IfErr, Some, is_some, length, ok_or, option_copied};
ghost use Rattle.std.specs.Prelude.{position, slice_get};
ghost use Rattle.std.specs.Option.{option_map};
ghost use Rattle.elf.specs.Answers.{first_named, symbol_sections, with_linked};
ghost use Rattle.elf_reading.specs.Refusals.{Kind, kind};
ghost use Rattle.elf.specs.FileHeaders.{header_at, header_list};
ghost use Rattle.elf.specs.Headers.{first_section_of, first_segment_of, section_at};
ghost use Rattle.elf.specs.Names.{has_name, name_index, name_section};
ghost use Rattle.elf.specs.ObjectFile.{ObjectFile};
ghost use Rattle.elf.specs.StreamFile.{listed_at};
ghost use Rattle.elf.specs.Walk.{headers_left};
ghost use Rattle.elf_reading.specs.Opening.{section_list, segment_list};
ghost use Rattle.elf_reading.specs.Versions.{version_sections};
ghost use Rattle.elf_records.specs.Section.{section_header_reads};
ghost use Rattle.elf_records.specs.Segment.{program_header_reads};
ghost use Rattle.elf_records.specs.Table.{table_get, table_in, table_items, table_view};

use crate::walk::HeaderIterator;
use elf_abi::abi;
use elf_parts::endian::{BigEndian, EndianParse, LittleEndian};
use elf_parts::file::Class;
use elf_parts::parse::{ParseAt, ParseError, ParsingTable};
use elf_parts::section::{SectionHeader, SectionHeaderTable};
use elf_parts::segment::{ProgramHeader, SegmentTable};
use elf_parts::string_table::TerminatedStrings;
use elf_parts::symbol::Symbol;
pub use elf_reading::versions::{VersionSections, clones_of_version_sections};
use elf_reading::versions::{version_sections_of_list, version_sections_of_table};
use elf_records::laws::tables::{PlainRecord, iter_gives_whatever_get_gives};

/// A section, and the section that its `sh_link` names.
pub type LinkedSections = (SectionHeader, SectionHeader);

/// The headers of one kind, in a table of the file or in a list.
#[derive(Debug)]
#[derive_where(Clone, Copy)]
pub enum HeaderList<'f, E: EndianParse, P: ParseAt> {
    Table(ParsingTable<'f, E, P>),
    List(&'f [P]),
}

/// What the headers of a file say, as they are now.
#[derive(Debug)]
#[derive_where(Clone, Copy)]
pub struct FileHeaders<'f, E: EndianParse> {
    /// The byte order of the file header.
    pub endianness: E,
    /// The class of the file header.
    pub class: Class,
    /// The index of the section of names, as the file header has it.
    pub e_shstrndx: u16,
    /// The size of the file in bytes.
    pub size: u64,
    /// Whether the file declares a table of section headers.
    pub declares_sections: bool,
    /// The section headers.
    pub sections: HeaderList<'f, E, SectionHeader>,
    /// The program headers.
    pub segments: HeaderList<'f, E, ProgramHeader>,
}

impl<'f, E: EndianParse, P: ParseAt + Copy> HeaderList<'f, E, P> {
    /// Returns the headers in order.
    #[inline(always)]
    pub fn iter(&self, endian: E) -> HeaderIterator<'f, E, P>
        ensures value { headers_left P.reads result ≡ header_list P.reads self.now }
        ensures bound { length (headers_left P.reads result) < 2 ^ 64 }
    {
        match self {
            HeaderList::Table(table) => HeaderIterator::of_table(table.iter()),
            HeaderList::List(list) => HeaderIterator::of_list(endian, list),
        }
    }
}

impl<'f, E: EndianParse, P: PlainRecord + Copy> HeaderList<'f, E, P> {
    /// Returns the header of an index, if there is one.
    pub fn get(&self, index: u64) -> Option<P>
        ensures { result ≡ slice_get (header_list P.reads self.now) index }
    {
        match self {
            HeaderList::Table(table) => {
                iter_gives_whatever_get_gives(table, index as usize);
                table.get(index as usize).ok()
            }
            HeaderList::List(list) => list.get(index as usize).copied(),
        }
    }
}

/// Returns the section headers of a table, or none where none is declared.
#[inline(always)]
pub fn sections_of<E: EndianParse>(
    table: Option<SectionHeaderTable<'_, E>>,
) -> HeaderList<'_, E, SectionHeader>
    ensures list { header_list section_header_reads result ≡ section_list (option_map table_view table.entry) }
    ensures at { (index : ℕ) → header_at section_header_reads result index ≡ section_at (option_map table_view table.entry) index }
{
    match table {
        Some(table) => HeaderList::Table(table),
        None => HeaderList::List(&[]),
    }
}

/// Returns the program headers of a table, or none where none is declared.
#[inline(always)]
pub fn segments_of<E: EndianParse>(
    table: Option<SegmentTable<'_, E>>,
) -> HeaderList<'_, E, ProgramHeader>
    ensures { header_list program_header_reads result ≡ segment_list (option_map table_view table.entry) }
{
    match table {
        Some(table) => HeaderList::Table(table),
        None => HeaderList::List(&[]),
    }
}

// The section header of an index in a table.
#[inline(always)]
fn section_in_table<E: EndianParse>(
    table: &SectionHeaderTable<'_, E>,
    index: usize,
) -> Result<SectionHeader, ParseError>
    ensures value { result ≡ table_get section_header_reads (table_view table.now) index }
    ensures plain { IfErr result (λ e. kind e ≡ Kind.Refusal) }
{
    table.get(index)
}

// The section header of an index in a list.
#[inline(always)]
fn section_in_list(list: &[SectionHeader], index: usize) -> Result<SectionHeader, ParseError>
    ensures value { result ≡ listed_at list.now index }
    ensures plain { IfErr result (λ e. kind e ≡ Kind.Refusal) }
{
    list.get(index)
        .copied()
        .ok_or(ParseError::BadOffset(index as u64))
}

impl<'f, E: EndianParse> FileHeaders<'f, E> {
    /// Returns the section header of an index. If it cannot be read, the error is that of `ParsingTable::get` in a
    /// table, and `BadOffset(index)` in a list.
    #[inline(always)]
    pub fn section_at(&self, index: usize) -> Result<SectionHeader, ParseError>
        ensures value { result ≡ header_at section_header_reads self.now.sections index }
        ensures plain { IfErr result (λ e. kind e ≡ Kind.Refusal) }
    {
        match &self.sections {
            HeaderList::Table(table) => section_in_table(table, index),
            HeaderList::List(list) => section_in_list(list, index),
        }
    }

    /// Returns the last sections of the types of versions, as `Headers::version_sections` says.
    fn version_sections(&self) -> VersionSections
        ensures { result ≡ version_sections (header_list section_header_reads self.now.sections) }
    {
        match &self.sections {
            HeaderList::Table(table) => version_sections_of_table(*table),
            HeaderList::List(list) => version_sections_of_list(list),
        }
    }

    // The first section header with a name.
    pub(crate) fn first_named(
        &self,
        names: &TerminatedStrings<'_>,
        name: &[u8],
    ) -> Option<SectionHeader>
        ensures { result ≡ first_named (header_list section_header_reads self.now.sections) name.now (Some names.now) }
    {
        match &self.sections {
            HeaderList::Table(table) => first_named(table, names, name),
            HeaderList::List(list) => first_named_in(list, names, name).copied(),
        }
    }
}

/// The headers of a file, in a table or in a list. To choose among them reads no other byte of the file, so it needs
/// neither a source nor memory.
pub trait Headers<E: EndianParse> {
    // The object file that has these headers.
    ghost file: { Self → ObjectFile };

    /// Returns the headers, as they are now.
    fn headers(&self) -> FileHeaders<'_, E>
        ensures order { E.little result.endianness ≡ (file self.now).little }
        ensures class { result.class ≡ (file self.now).class }
        ensures names { result.e_shstrndx ≡ (file self.now).e_shstrndx }
        ensures size { result.size ≡ (file self.now).size }
        ensures declared { result.declares_sections ≡ (file self.now).declares_sections }
        ensures sections { header_list section_header_reads result.sections ≡ (file self.now).sections }
        ensures section_at { (index : ℕ)
            → header_at section_header_reads result.sections index ≡ (file self.now).section_at index }
        ensures segments { header_list program_header_reads result.segments ≡ (file self.now).segments };

    /// Returns the current class of the file header.
    #[inline(always)]
    fn class(&self) -> Class
        ensures { result ≡ (file self.now).class }
    {
        self.headers().class
    }

    /// Returns the current `e_shstrndx` of the file header.
    #[inline(always)]
    fn e_shstrndx(&self) -> u16
        ensures { result ≡ (file self.now).e_shstrndx }
    {
        self.headers().e_shstrndx
    }

    /// Returns whether the file declares a table of section headers.
    #[inline(always)]
    fn declares_sections(&self) -> bool
        ensures { result ≡ (file self.now).declares_sections }
    {
        self.headers().declares_sections
    }

    /// Returns the section header of an index. If it cannot be read, the error is that of `ParsingTable::get` for an
    /// `ElfBytes` with a table of section headers, and otherwise `BadOffset(index)`.
    #[inline(always)]
    fn section_at(&self, index: usize) -> Result<SectionHeader, ParseError>
        ensures value { result ≡ (file self.now).section_at index }
        ensures plain { IfErr result (λ e. kind e ≡ Kind.Refusal) }
    {
        self.headers().section_at(index)
    }

    /// Returns the first section of a type, if there is one.
    fn first_section_of(&self, sh_type: u32) -> Option<SectionHeader>
        ensures { result ≡ first_section_of sh_type (file self.now).sections }
    {
        let headers = self.headers();
        headers
            .sections
            .iter(headers.endianness)
            .find(|shdr| shdr.sh_type == sh_type)
    }

    /// Returns the first segment of a type, if there is one.
    fn first_segment_of(&self, p_type: u32) -> Option<ProgramHeader>
        ensures { result ≡ first_segment_of p_type (file self.now).segments }
    {
        let headers = self.headers();
        headers
            .segments
            .iter(headers.endianness)
            .find(|phdr| phdr.p_type == p_type)
    }

    /// Returns the last sections of the types `SHT_GNU_VERSYM`, `SHT_GNU_VERNEED` and `SHT_GNU_VERDEF`. If all three
    /// types exist, sections after the first one that completes the three do not count.
    fn version_sections(&self) -> VersionSections
        ensures { result ≡ version_sections (file self.now).sections }
    {
        self.headers().version_sections()
    }

    /// Returns the index of the section that holds the names of the sections: `e_shstrndx` or, if that is `SHN_XINDEX`,
    /// `sh_link` of section 0. The error is that of `section_at(0)`.
    fn name_index(&self) -> Result<usize, ParseError>
        ensures value { result ≡ name_index (file self.now) }
        ensures plain { IfErr result (λ e. kind e ≡ Kind.Refusal) }
    {
        if self.e_shstrndx() == abi::SHN_XINDEX {
            let first = self.section_at(0)?;
            Ok(first.sh_link as usize)
        } else {
            Ok(self.e_shstrndx() as usize)
        }
    }

    /// Returns the section that holds the names of the sections, or `None` if the file declares no section headers or
    /// if `e_shstrndx` is `SHN_UNDEF`.
    ///
    /// Errors, in order: that of `name_index`; that of `section_at` for the section.
    #[tactic(auto, unfolding(crate::specs::Names::name_section))]
    fn name_section(&self) -> Result<Option<SectionHeader>, ParseError>
        ensures value { result ≡ name_section (file self.now) }
        ensures plain { IfErr result (λ e. kind e ≡ Kind.Refusal) }
    {
        if !self.declares_sections() || self.e_shstrndx() == abi::SHN_UNDEF {
            return Ok(None);
        }
        let index = self.name_index()?;
        self.section_at(index).map(Some)
    }

    /// Returns a section of symbols, and the section of their strings, which its `sh_link` names.
    ///
    /// Errors, in order: that of `section_at` for the section of the strings; `BadEntsize((found, expected))`.
    fn with_linked(&self, shdr: &SectionHeader) -> Result<LinkedSections, ParseError>
        ensures value { result ≡ with_linked (file self.now) shdr.now }
        ensures plain { IfErr result (λ e. kind e ≡ Kind.Refusal) }
    {
        let linked = self.section_at(shdr.sh_link as usize)?;
        Symbol::validate_entsize(self.class(), shdr.sh_entsize as usize)?;
        Ok((*shdr, linked))
    }

    /// Returns the first section of a type of symbols, and the section of their strings, or `None` if no section has
    /// the type. The errors are those of `with_linked`.
    fn symbol_sections(&self, sh_type: u32) -> Result<Option<LinkedSections>, ParseError>
        ensures value { result ≡ symbol_sections sh_type (file self.now) }
        ensures plain { IfErr result (λ e. kind e ≡ Kind.Refusal) }
    {
        match self.first_section_of(sh_type) {
            Some(shdr) => self.with_linked(&shdr).map(Some),
            None => Ok(None),
        }
    }
}

/// Returns whether a section has this name, a string of `names`.
#[inline(always)]
pub fn has_name(names: &TerminatedStrings<'_>, name: &[u8], shdr: &SectionHeader) -> bool
    ensures { result ≡ has_name names.now name.now shdr.now }
{
    match names.is_quickly(shdr.sh_name as usize, name) {
        Some(is_named) => is_named,
        None => false,
    }
}

// The index of the first section header with this name. Inlined, so the compiler knows the byte order and the class. Of
// each header only the offset of its name is used, so it reads no other field.
#[inline(always)]
fn index_in<E: EndianParse>(
    endian: E,
    class: Class,
    bytes: &[u8],
    names: &TerminatedStrings<'_>,
    name: &[u8],
) -> Option<usize>
    ensures { result ≡ position (has_name names.now name.now)
        (table_items section_header_reads (table_in (E.little endian) class bytes.now)) }
{
    let shdrs = SectionHeaderTable::<'_, E>::new(endian, class, bytes);
    shdrs.iter().position(|shdr| has_name(names, name, &shdr))
}

// The index of the first section header with this name, in a table of either byte order and class.
fn index_of<E: EndianParse>(
    shdrs: &SectionHeaderTable<'_, E>,
    names: &TerminatedStrings<'_>,
    name: &[u8],
) -> Option<usize>
    ensures { result ≡ position (has_name names.now name.now)
        (table_items section_header_reads (table_view shdrs.now)) }
{
    let bytes = shdrs.bytes();
    match (shdrs.is_little(), shdrs.class()) {
        (true, Class::ELF64) => index_in(LittleEndian, Class::ELF64, bytes, names, name),
        (true, Class::ELF32) => index_in(LittleEndian, Class::ELF32, bytes, names, name),
        (false, Class::ELF64) => index_in(BigEndian, Class::ELF64, bytes, names, name),
        (false, Class::ELF32) => index_in(BigEndian, Class::ELF32, bytes, names, name),
    }
}

/// Returns the first section header of a list whose name, a string of `names`, has exactly these bytes. A section whose
/// name cannot be read is skipped.
pub fn first_named_in<'a>(
    shdrs: &'a [SectionHeader],
    names: &TerminatedStrings<'_>,
    name: &[u8],
) -> Option<&'a SectionHeader>
    ensures { option_copied result ≡ first_named shdrs.now name.now (Some names.now) }
{
    shdrs.iter().find(|shdr| has_name(names, name, *shdr))
}

/// Returns the first section header of a table whose name, a string of `names`, has exactly these bytes. A section whose
/// name cannot be read is skipped.
#[tactic(auto, using(crate::proofs::Positions::found_at, crate::proofs::Positions::found_nowhere))]
pub fn first_named<E: EndianParse>(
    shdrs: &SectionHeaderTable<'_, E>,
    names: &TerminatedStrings<'_>,
    name: &[u8],
) -> Option<SectionHeader>
    ensures { result ≡ first_named (section_list (Some (table_view shdrs.now))) name.now (Some names.now) }
{
    let index = index_of(shdrs, names, name)?;
    iter_gives_whatever_get_gives(shdrs, index);
    shdrs.get(index).ok()
}
