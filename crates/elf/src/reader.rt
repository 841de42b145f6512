//! What is read of a file whose bytes are given range by range.
ghost use Rattle.std.specs.Prelude.{◌≡◌, ◌≤◌, ◌<◌, ◌^◌, IfErr, IfOk, Some, length, slice_get};
ghost use Rattle.std.specs.Option.{option_map};
ghost use Rattle.elf_abi.specs.Values.{sht_dynamic};
ghost use Rattle.elf_parts.specs.Note.{notes_left};
ghost use Rattle.elf_parts.specs.gnu_symver.Lists.{entries_in, entries_left};
ghost use Rattle.elf_parts.specs.gnu_symver.Table.{entries_view, versions_view};
ghost use Rattle.elf_reading.specs.Leading.{data_view};
ghost use Rattle.elf_records.specs.Number.{ok_map};
ghost use Rattle.elf_records.specs.Section.{section_header_reads};
ghost use Rattle.elf_records.specs.Segment.{program_header_reads};
ghost use Rattle.elf_records.specs.StringTable.{strings_view};
ghost use Rattle.elf_records.specs.Table.{table_view};
ghost use Rattle.elf.specs.Answers.{dynamic, dynamic_symbol_table, first_symbols, relas_left, rels_left};
ghost use Rattle.elf.specs.Answers.{first_named, section_data_as_notes, section_data_as_rels, section_header_by_name};
ghost use Rattle.elf.specs.Answers.{section_data_as_relas, section_data_as_strtab, section_dynamic, segment_data};
ghost use Rattle.elf.specs.Answers.{segment_dynamic, symbol_table, symbol_version_table, symbols_in, symbols_of};
ghost use Rattle.elf.specs.Answers.{segment_data_as_notes, symbols_view};
ghost use Rattle.elf.specs.Names.{name_table};
ghost use Rattle.elf.specs.Data.{content_of_type, section_data};
ghost use Rattle.elf.specs.Headers.{if_found};
ghost use Rattle.elf.specs.Parts.{IsPlain, Ranges, loaded};
ghost use Rattle.elf.specs.ObjectFile.{section_part};
ghost use Rattle.elf.specs.Walk.{headers_left};
ghost use Rattle.elf.specs.Versions.{linked_strings, version_entries, version_indexes, versions_of};

use crate::headers::{Headers, LinkedSections, VersionSections};
use crate::read_error::ReadError;
use crate::walk::HeaderIterator;
use elf_abi::abi;
use elf_parts::compression::CompressionHeader;
use elf_parts::dynamic::{Dyn, DynamicTable};
use elf_parts::endian::EndianParse;
use elf_parts::gnu_symver::links::VersionEntry;
use elf_parts::gnu_symver::{
    EntriesWithStrings, EntryIterator, SymbolVersionTable, VerDef, VerNeed, VersionIndex,
    VersionIndexTable,
};
use elf_parts::note::NoteIterator;
use elf_parts::parse::{ParseAt, ParseError};
use elf_parts::relocation::{RelIterator, RelaIterator};
use elf_parts::section::SectionHeader;
use elf_parts::segment::ProgramHeader;
use elf_parts::string_table::{StringTable, TerminatedStrings};
use elf_parts::symbol::SymbolTable;
use elf_reading::leading::leading_record;

/// A file whose bytes are given range by range. What is read of it is defined over these ranges alone, so the methods
/// are written once for a file in memory and for the loaded parts of a stream.
pub trait Reader<E: EndianParse>: Headers<E> {
    // The ranges that this reader has.
    ghost ranges: { Self → Ranges };

    /// Returns the bytes of a range.
    fn range(&self, start: u64, size: u64) -> Result<&[u8], ReadError>
        ensures value { ok_map (λ part. part.now) result ≡ ranges self.now start size }
        ensures size { IfOk result (λ part. length part.now ≤ size) }
        ensures plain { IfErr result IsPlain };

    /// Returns the current byte order.
    #[inline(always)]
    fn endianness(&self) -> E
        ensures { E.little result ≡ (Self.Headers.file self.now).little }
    {
        self.headers().endianness
    }

    /// Returns the size of the file in bytes.
    #[inline(always)]
    fn size(&self) -> u64
        ensures { result ≡ (Self.Headers.file self.now).size }
    {
        self.headers().size
    }

    /// Returns the first section header whose name, a string of `names`, has exactly these bytes. A section whose name
    /// cannot be read is skipped.
    fn first_named(&self, names: &TerminatedStrings<'_>, name: &[u8]) -> Option<SectionHeader>
        ensures { result ≡ first_named (Self.Headers.file self.now).sections name.now (Some names.now) }
    {
        self.headers().first_named(names, name)
    }

    /// Returns the section header of an index, if there is one.
    fn section_header(&self, index: u64) -> Option<SectionHeader>
        ensures { result ≡ slice_get (Self.Headers.file self.now).sections index }
    {
        self.headers().sections.get(index)
    }

    /// Returns the program header of an index, if there is one.
    fn program_header(&self, index: u64) -> Option<ProgramHeader>
        ensures { result ≡ slice_get (Self.Headers.file self.now).segments index }
    {
        self.headers().segments.get(index)
    }

    /// Returns the section headers in order.
    #[inline(always)]
    fn each_section(&self) -> HeaderIterator<'_, E, SectionHeader>
        ensures value { headers_left section_header_reads result ≡ (Self.Headers.file self.now).sections }
        ensures bound { length (headers_left section_header_reads result) < 2 ^ 64 }
    {
        let headers = self.headers();
        headers.sections.iter(headers.endianness)
    }

    /// Returns the program headers in order.
    #[inline(always)]
    fn each_segment(&self) -> HeaderIterator<'_, E, ProgramHeader>
        ensures value { headers_left program_header_reads result ≡ (Self.Headers.file self.now).segments }
        ensures bound { length (headers_left program_header_reads result) < 2 ^ 64 }
    {
        let headers = self.headers();
        headers.segments.iter(headers.endianness)
    }
}

/// Returns the bytes in the range of a section.
pub fn section_part<'f, E: EndianParse, R: Reader<E>>(
    file: &'f R,
    shdr: &SectionHeader,
) -> Result<&'f [u8], ReadError>
    ensures value { ok_map (λ part. part.now) result ≡ section_part (loaded (R.file file.now) (R.ranges file.now)) shdr.now }
    ensures size { IfOk result (λ part. length part.now ≤ shdr.now.sh_size) }
    ensures plain { IfErr result IsPlain }
{
    file.range(shdr.sh_offset, shdr.sh_size)
}

/// Returns the names of the sections, or `None` if the file declares no section headers or if `e_shstrndx` is
/// `SHN_UNDEF`.
#[tactic(auto, using(crate::proofs::Partly::section_chosen), unfolding(crate::specs::Names::name_table))]
pub fn section_names<'f, E: EndianParse, R: Reader<E>>(
    file: &'f R,
) -> Result<Option<StringTable<'f>>, ReadError>
    ensures value { ok_map (option_map strings_view) result ≡ name_table (loaded (R.file file.now) (R.ranges file.now)) }
    ensures plain { IfErr result IsPlain }
{
    let Some(names) = file.name_section()? else {
        return Ok(None);
    };
    let bytes = section_part(file, &names)?;
    Ok(Some(StringTable::new(bytes)))
}

/// Returns the first section whose name has exactly the bytes of `name`, if there is one.
pub fn section_header_by_name<E: EndianParse, R: Reader<E>>(
    file: &R,
    name: &str,
) -> Result<Option<SectionHeader>, ReadError>
    ensures value { result ≡ section_header_by_name (loaded (R.file file.now) (R.ranges file.now)) name.now }
    ensures plain { IfErr result IsPlain }
{
    match section_names(file)? {
        Some(names) => {
            let names = TerminatedStrings::new(&names);
            Ok(file.first_named(&names, name.as_bytes()))
        }
        None => Ok(None),
    }
}

/// Returns the bytes of a section, and its compression header if its flags have `SHF_COMPRESSED`.
#[tactic(auto, unfolding(crate::specs::Data::section_data))]
pub fn section_data<'f, E: EndianParse, R: Reader<E>>(
    file: &'f R,
    shdr: &SectionHeader,
) -> Result<(&'f [u8], Option<CompressionHeader>), ReadError>
    ensures value { ok_map data_view result ≡ section_data (loaded (R.file file.now) (R.ranges file.now)) shdr.now }
    ensures size { IfOk result (λ found. length found.0.now ≤ shdr.now.sh_size) }
    ensures plain { IfErr result IsPlain }
{
    if shdr.sh_type == abi::SHT_NOBITS {
        return Ok((&[], None));
    }
    let part = section_part(file, shdr)?;
    if shdr.sh_flags & abi::SHF_COMPRESSED as u64 == 0 {
        return Ok((part, None));
    }
    let (rest, header) = leading_record::<E, CompressionHeader>(
        file.endianness(),
        file.class(),
        part,
    )?;
    Ok((rest, Some(header)))
}

/// Returns the bytes of a section that must have a given type, without its compression header.
pub fn content_of_type<'f, E: EndianParse, R: Reader<E>>(
    file: &'f R,
    shdr: &SectionHeader,
    sh_type: u32,
) -> Result<&'f [u8], ReadError>
    ensures value { ok_map (λ bytes. bytes.now) result ≡ content_of_type sh_type (loaded (R.file file.now) (R.ranges file.now)) shdr.now }
    ensures size { IfOk result (λ bytes. length bytes.now ≤ shdr.now.sh_size) }
    ensures plain { IfErr result IsPlain }
{
    if shdr.sh_type != sh_type {
        return Err(ReadError::Parse(ParseError::UnexpectedSectionType((shdr.sh_type, sh_type))));
    }
    let (bytes, _) = section_data(file, shdr)?;
    Ok(bytes)
}

/// Returns the strings of a section of type `SHT_STRTAB`.
pub fn section_data_as_strtab<'f, E: EndianParse, R: Reader<E>>(
    file: &'f R,
    shdr: &SectionHeader,
) -> Result<StringTable<'f>, ReadError>
    ensures value { ok_map strings_view result ≡ section_data_as_strtab (loaded (R.file file.now) (R.ranges file.now)) shdr.now }
    ensures plain { IfErr result IsPlain }
{
    let bytes = content_of_type(file, shdr, abi::SHT_STRTAB)?;
    Ok(StringTable::new(bytes))
}

/// Returns an iterator over the relocations of a section of type `SHT_REL`.
pub fn section_data_as_rels<'f, E: EndianParse, R: Reader<E>>(
    file: &'f R,
    shdr: &SectionHeader,
) -> Result<RelIterator<'f, E>, ReadError>
    ensures value { ok_map rels_left result
        ≡ section_data_as_rels (loaded (R.file file.now) (R.ranges file.now)) shdr.now }
    ensures size { IfOk result (λ rels. length (rels_left rels) ≤ shdr.now.sh_size) }
    ensures bound { IfOk result (λ rels. length (rels_left rels) < 2 ^ 64) }
    ensures plain { IfErr result IsPlain }
{
    let bytes = content_of_type(file, shdr, abi::SHT_REL)?;
    Ok(RelIterator::new(file.endianness(), file.class(), bytes))
}

/// Returns an iterator over the relocations of a section of type `SHT_RELA`.
pub fn section_data_as_relas<'f, E: EndianParse, R: Reader<E>>(
    file: &'f R,
    shdr: &SectionHeader,
) -> Result<RelaIterator<'f, E>, ReadError>
    ensures value { ok_map relas_left result ≡ section_data_as_relas (loaded (R.file file.now) (R.ranges file.now)) shdr.now }
    ensures size { IfOk result (λ relas. length (relas_left relas) ≤ shdr.now.sh_size) }
    ensures bound { IfOk result (λ relas. length (relas_left relas) < 2 ^ 64) }
    ensures plain { IfErr result IsPlain }
{
    let bytes = content_of_type(file, shdr, abi::SHT_RELA)?;
    Ok(RelaIterator::new(file.endianness(), file.class(), bytes))
}

/// Returns an iterator over the notes of a section of type `SHT_NOTE`.
pub fn section_data_as_notes<'f, E: EndianParse, R: Reader<E>>(
    file: &'f R,
    shdr: &SectionHeader,
) -> Result<NoteIterator<'f, E>, ReadError>
    ensures value { ok_map notes_left result ≡ section_data_as_notes (loaded (R.file file.now) (R.ranges file.now)) shdr.now }
    ensures size { IfOk result (λ notes. length (notes_left notes) ≤ shdr.now.sh_size) }
    ensures bound { IfOk result (λ notes. length (notes_left notes) < 2 ^ 64) }
    ensures plain { IfErr result IsPlain }
{
    let bytes = content_of_type(file, shdr, abi::SHT_NOTE)?;
    Ok(NoteIterator::new(
        file.endianness(),
        file.class(),
        shdr.sh_addralign as usize,
        bytes,
    ))
}

/// Returns the bytes of a segment in the file.
pub fn segment_data<'f, E: EndianParse, R: Reader<E>>(
    file: &'f R,
    phdr: &ProgramHeader,
) -> Result<&'f [u8], ReadError>
    ensures value { ok_map (λ bytes. bytes.now) result ≡ segment_data (loaded (R.file file.now) (R.ranges file.now)) phdr.now }
    ensures size { IfOk result (λ bytes. length bytes.now ≤ phdr.now.p_filesz) }
    ensures plain { IfErr result IsPlain }
{
    file.range(phdr.p_offset, phdr.p_filesz)
}

/// Returns an iterator over the notes of a segment of type `PT_NOTE`.
pub fn segment_data_as_notes<'f, E: EndianParse, R: Reader<E>>(
    file: &'f R,
    phdr: &ProgramHeader,
) -> Result<NoteIterator<'f, E>, ReadError>
    ensures value { ok_map notes_left result
        ≡ segment_data_as_notes (loaded (R.file file.now) (R.ranges file.now)) phdr.now }
    ensures size { IfOk result (λ notes. length (notes_left notes) ≤ phdr.now.p_filesz) }
    ensures bound { IfOk result (λ notes. length (notes_left notes) < 2 ^ 64) }
    ensures plain { IfErr result IsPlain }
{
    if phdr.p_type != abi::PT_NOTE {
        return Err(ReadError::Parse(ParseError::UnexpectedSegmentType((
            phdr.p_type,
            abi::PT_NOTE,
        ))));
    }
    let bytes = segment_data(file, phdr)?;
    Ok(NoteIterator::new(
        file.endianness(),
        file.class(),
        phdr.p_align as usize,
        bytes,
    ))
}

/// Returns the symbols of the first section, and the strings of the second.
pub fn symbols_in<'f, E: EndianParse, R: Reader<E>>(
    file: &'f R,
    sections: &LinkedSections,
) -> Result<(SymbolTable<'f, E>, StringTable<'f>), ReadError>
    ensures value { ok_map symbols_view result ≡ symbols_in (loaded (R.file file.now) (R.ranges file.now)) sections.now }
    ensures plain { IfErr result IsPlain }
{
    let symbols = section_part(file, &sections.0)?;
    let strings = section_part(file, &sections.1)?;
    Ok((
        SymbolTable::new(file.endianness(), file.class(), symbols),
        StringTable::new(strings),
    ))
}

/// Returns the symbols of a section, with the strings of the section that its `sh_link` names.
#[tactic(auto, using(crate::proofs::Partly::linked_chosen))]
pub fn symbols_of<'f, E: EndianParse, R: Reader<E>>(
    file: &'f R,
    shdr: &SectionHeader,
) -> Result<(SymbolTable<'f, E>, StringTable<'f>), ReadError>
    ensures value { ok_map symbols_view result
        ≡ symbols_of (loaded (R.file file.now) (R.ranges file.now)) shdr.now }
    ensures plain { IfErr result IsPlain }
{
    let sections = file.with_linked(shdr)?;
    symbols_in(file, &sections)
}

/// Returns the symbols of the first section of a type, with their strings.
#[tactic(auto, using(crate::proofs::Partly::sections_chosen))]
pub fn first_symbols<'f, E: EndianParse, R: Reader<E>>(
    file: &'f R,
    sh_type: u32,
) -> Result<Option<(SymbolTable<'f, E>, StringTable<'f>)>, ReadError>
    ensures value { ok_map (option_map symbols_view) result ≡ first_symbols sh_type (loaded (R.file file.now) (R.ranges file.now)) }
    ensures plain { IfErr result IsPlain }
{
    match file.symbol_sections(sh_type)? {
        Some(sections) => symbols_in(file, &sections).map(Some),
        None => Ok(None),
    }
}

/// Returns the symbols of the first section of type `SHT_SYMTAB`, and their strings.
pub fn symbol_table<'f, E: EndianParse, R: Reader<E>>(
    file: &'f R,
) -> Result<Option<(SymbolTable<'f, E>, StringTable<'f>)>, ReadError>
    ensures value { ok_map (option_map symbols_view) result ≡ symbol_table (loaded (R.file file.now) (R.ranges file.now)) }
    ensures plain { IfErr result IsPlain }
{
    first_symbols(file, abi::SHT_SYMTAB)
}

/// Returns the dynamic symbols, and their strings.
pub fn dynamic_symbol_table<'f, E: EndianParse, R: Reader<E>>(
    file: &'f R,
) -> Result<Option<(SymbolTable<'f, E>, StringTable<'f>)>, ReadError>
    ensures value { ok_map (option_map symbols_view) result ≡ dynamic_symbol_table (loaded (R.file file.now) (R.ranges file.now)) }
    ensures plain { IfErr result IsPlain }
{
    first_symbols(file, abi::SHT_DYNSYM)
}

/// Returns the dynamic entries of a section.
pub fn section_dynamic<'f, E: EndianParse, R: Reader<E>>(
    file: &'f R,
    shdr: &SectionHeader,
) -> Result<DynamicTable<'f, E>, ReadError>
    ensures value { ok_map table_view result ≡ section_dynamic (loaded (R.file file.now) (R.ranges file.now)) shdr.now }
    ensures plain { IfErr result IsPlain }
{
    Dyn::validate_entsize(file.class(), shdr.sh_entsize as usize)?;
    let (bytes, _) = section_data(file, shdr)?;
    Ok(DynamicTable::new(file.endianness(), file.class(), bytes))
}

/// Returns the dynamic entries of a segment.
pub fn segment_dynamic<'f, E: EndianParse, R: Reader<E>>(
    file: &'f R,
    phdr: &ProgramHeader,
) -> Result<DynamicTable<'f, E>, ReadError>
    ensures value { ok_map table_view result ≡ segment_dynamic (loaded (R.file file.now) (R.ranges file.now)) phdr.now }
    ensures plain { IfErr result IsPlain }
{
    let bytes = segment_data(file, phdr)?;
    Ok(DynamicTable::new(file.endianness(), file.class(), bytes))
}

/// Returns the dynamic entries.
pub fn dynamic<'f, E: EndianParse, R: Reader<E>>(
    file: &'f R,
) -> Result<Option<DynamicTable<'f, E>>, ReadError>
    ensures value { ok_map (option_map table_view) result ≡ dynamic (loaded (R.file file.now) (R.ranges file.now)) }
    ensures plain { IfErr result IsPlain }
{
    if file.declares_sections() {
        match file.first_section_of(abi::SHT_DYNAMIC) {
            Some(shdr) => section_dynamic(file, &shdr).map(Some),
            None => Ok(None),
        }
    } else {
        match file.first_segment_of(abi::PT_DYNAMIC) {
            Some(phdr) => segment_dynamic(file, &phdr).map(Some),
            None => Ok(None),
        }
    }
}

/// Returns the version indexes of a section.
pub fn version_indexes<'f, E: EndianParse, R: Reader<E>>(
    file: &'f R,
    shdr: &SectionHeader,
) -> Result<VersionIndexTable<'f, E>, ReadError>
    ensures value { ok_map table_view result ≡ version_indexes (loaded (R.file file.now) (R.ranges file.now)) shdr.now }
    ensures plain { IfErr result IsPlain }
{
    VersionIndex::validate_entsize(file.class(), shdr.sh_entsize as usize)?;
    let bytes = section_part(file, shdr)?;
    Ok(VersionIndexTable::new(file.endianness(), file.class(), bytes))
}

/// Returns the bytes of the section that `sh_link` names.
pub fn linked_strings<'f, E: EndianParse, R: Reader<E>>(
    file: &'f R,
    shdr: &SectionHeader,
) -> Result<&'f [u8], ReadError>
    ensures value { ok_map (λ bytes. bytes.now) result ≡ linked_strings (loaded (R.file file.now) (R.ranges file.now)) shdr.now }
    ensures plain { IfErr result IsPlain }
{
    let linked = file.section_at(shdr.sh_link as usize)?;
    section_part(file, &linked)
}

/// Returns the entries of a section of versions, with their strings.
pub fn version_entries<'f, E: EndianParse, R: Reader<E>, V: VersionEntry>(
    file: &'f R,
    shdr: &SectionHeader,
) -> Result<EntriesWithStrings<'f, E, V>, ReadError>
    ensures value { ok_map (entries_view (entries_left V.reads.record_at V.next_distance V.with_aux)) result
        ≡ version_entries (entries_in V.reads.record_at V.next_distance V.with_aux) (loaded (R.file file.now) (R.ranges file.now)) shdr.now }
    ensures plain { IfErr result IsPlain }
{
    let bytes = section_part(file, shdr)?;
    let strings = linked_strings(file, shdr)?;
    let entries = EntryIterator::new(
        file.endianness(),
        file.class(),
        shdr.sh_info as u64,
        0,
        bytes,
    );
    Ok((entries, StringTable::new(strings)))
}

/// Returns the entries of a section with their strings, or `None` if there is no section.
pub fn version_entries_if<'f, E: EndianParse, R: Reader<E>, V: VersionEntry>(
    file: &'f R,
    shdr: Option<SectionHeader>,
) -> Result<Option<EntriesWithStrings<'f, E, V>>, ReadError>
    ensures value { ok_map (option_map (entries_view (entries_left V.reads.record_at V.next_distance V.with_aux)))
        result ≡ if_found (version_entries (entries_in V.reads.record_at V.next_distance V.with_aux)
        (loaded (R.file file.now) (R.ranges file.now))) shdr }
    ensures plain { IfErr result IsPlain }
{
    match shdr {
        Some(shdr) => version_entries::<E, R, V>(file, &shdr).map(Some),
        None => Ok(None),
    }
}

/// Returns the version table with the indexes of a section, and with the needs and the definitions if there are any.
pub fn versions_of<'f, E: EndianParse, R: Reader<E>>(
    file: &'f R,
    chosen: VersionSections,
    shdr: &SectionHeader,
) -> Result<SymbolVersionTable<'f, E>, ReadError>
    ensures value { ok_map versions_view result ≡ versions_of (loaded (R.file file.now) (R.ranges file.now)) chosen shdr.now }
    ensures plain { IfErr result IsPlain }
{
    let indexes = version_indexes(file, shdr)?;
    let needs = version_entries_if::<E, R, VerNeed>(file, chosen.needs)?;
    let definitions = version_entries_if::<E, R, VerDef>(file, chosen.definitions)?;
    Ok(SymbolVersionTable::new(indexes, needs, definitions))
}

/// Returns the versions of the symbols.
pub fn symbol_version_table<'f, E: EndianParse, R: Reader<E>>(
    file: &'f R,
) -> Result<Option<SymbolVersionTable<'f, E>>, ReadError>
    ensures value { ok_map (option_map versions_view) result ≡ symbol_version_table (loaded (R.file file.now) (R.ranges file.now)) }
    ensures plain { IfErr result IsPlain }
{
    let chosen = file.version_sections();
    match chosen.indexes {
        Some(shdr) => versions_of(file, chosen, &shdr).map(Some),
        None => Ok(None),
    }
}
