//! What is read of the loaded ranges of a file: what the whole file answers, a value or an error, unless bytes are
//! missing.
ghost use Rattle.std.specs.Prelude.{◌≡◌, true, IfOk, IfSome, None};
ghost use Rattle.std.specs.Option.{option_map};
ghost use Rattle.elf.specs.Answers.{dynamic, relas_left, rels_left, section_data_as_relas};
ghost use Rattle.elf.specs.Answers.{section_data_as_rels, segment_data};
ghost use Rattle.elf.specs.Answers.{symbol_table, symbols_of, symbols_view};
ghost use Rattle.elf.specs.Data.{content, section_data};
ghost use Rattle.elf.specs.Loaded.{streamed_file};
ghost use Rattle.elf.specs.Names.{name_table};
ghost use Rattle.elf.specs.ObjectFile.{err_map};
ghost use Rattle.elf.specs.Parts.{ArePartOf, Follows, loaded};
ghost use Rattle.elf.specs.Readers.{Method, answer};
ghost use Rattle.elf.specs.StreamFile.{stream_file};
ghost use Rattle.elf.specs.declared.read_error.ReadError.TheVariants.{Parse as IsParse};
ghost use Rattle.elf_dynamic.specs.Relr.{section_data_as_relr};
ghost use Rattle.elf_reading.specs.Leading.{data_view};
ghost use Rattle.elf_records.specs.Number.{ok_map};
ghost use Rattle.elf_records.specs.StringTable.{strings_view};
ghost use Rattle.elf_records.specs.Table.{table_view};
ghost use Rattle.elf_tools.specs.BuildId.{build_id};
ghost use Rattle.elf_linking.specs.Needed.{missing_of, strings_by};
ghost use Rattle.nugwier_report.specs.declared.problem.Fault.TheVariants.{Read as IsRead};
ghost use Rattle.nugwier_report.specs.Headings.{name_bytes};
ghost use Rattle.nugwier_report.specs.Whole.{stream_range, file_of};

use crate::listed::ListedFile;
use crate::problem::{Fault, Stop};
use elf::compression::CompressionHeader;
use elf::dynamic::{Dyn, DynamicTable};
use elf::endian::EndianParse;
use elf::gnu_symver::SymbolVersionTable;
use elf::reader::Reader;
use elf::readers::part_answers_as_whole;
use elf::relocation::{RelIterator, RelaIterator};
use elf::section::SectionHeader;
use elf::segment::ProgramHeader;
use elf::string_table::{StringTable, TerminatedStrings};
use elf::symbol::SymbolTable;
use elf::{ElfStream, ParseError, ReadError, StreamSource, reader};
use elf_dynamic::relr::{RelrTable, section_data_as_relr};
use elf_linking::needed::NamesError;
use elf_tools::laws::part_build_id_as_whole;
use std::alloc::Global;

/// A table of symbols, with the strings of their names.
pub type Symbols<'f, E> = (SymbolTable<'f, E>, StringTable<'f>);

/// The symbols of a file, if it has any.
pub type FoundSymbols<'f, E> = Result<Option<Symbols<'f, E>>, Fault>;

/// States that the file of a stream over known content is the one that the content holds.
#[tactic(auto, using(crate::proofs::Follows::whole_same))]
pub fn whole_is_content<E: EndianParse, S: StreamSource>(stream: &ElfStream<E, S, Global>)
    ensures { IfSome stream.now.content (λ bytes. file_of (streamed_file E.little stream.now) (stream_range stream.now)
        ≡ stream_file E.little stream.now bytes) }
{
    stream.is_part_of_file();
}

// States that what is loaded of a file is of the whole, and so are the answers about it.
fn is_part<E: EndianParse, R: ListedFile<E>>(file: &R)
    ensures part { ArePartOf (file_of (R.file file.now) (R.bytes file.now)) (λ _. true) (R.ranges file.now) }
    ensures answers { (m : Method) →
        Follows (λ _. true) (answer m (file_of (R.file file.now) (R.bytes file.now)))
        (answer m (loaded (file_of (R.file file.now) (R.bytes file.now)) (R.ranges file.now))) }
{
    file.is_part_of_whole();
    part_answers_as_whole::<E>();
}

// What was read, unless bytes are missing.
fn unless_missing<T>(read: Result<T, ReadError>) -> Result<Result<T, ParseError>, Stop>
    ensures { IfOk result (λ found. read ≡ err_map IsParse found) }
{
    match read {
        Ok(value) => Ok(Ok(value)),
        Err(ReadError::Parse(error)) => Ok(Err(error)),
        Err(ReadError::NotLoaded(range)) => Err(Stop::Missing(range)),
    }
}

/// Returns the symbols of the first section of type `SHT_SYMTAB`, and their strings.
pub fn symbols<'f, E: EndianParse, R: ListedFile<E>>(
    file: &'f R,
) -> Result<FoundSymbols<'f, E>, Stop>
    ensures { IfOk result (λ found. ok_map (option_map symbols_view) found
        ≡ err_map IsRead (symbol_table (file_of (R.file file.now) (R.bytes file.now)))) }
{
    match plain_symbols(file)? {
        Ok(symbols) => Ok(Ok(symbols)),
        Err(error) => Ok(Err(Fault::Read(error))),
    }
}

fn plain_symbols<'f, E: EndianParse, R: ListedFile<E>>(
    file: &'f R,
) -> Result<Result<Option<Symbols<'f, E>>, ParseError>, Stop>
    ensures { IfOk result (λ found. ok_map (option_map symbols_view) found
        ≡ symbol_table (file_of (R.file file.now) (R.bytes file.now))) }
{
    is_part(file);
    unless_missing(reader::symbol_table(file))
}

/// Returns the names of the sections, if the file has any.
pub fn names<'f, E: EndianParse, R: ListedFile<E>>(
    file: &'f R,
) -> Result<Result<Option<TerminatedStrings<'f>>, ParseError>, Stop>
    ensures { IfOk result (λ found. found ≡ name_table (file_of (R.file file.now) (R.bytes file.now))) }
{
    match name_strings(file)? {
        Ok(Some(names)) => Ok(Ok(Some(TerminatedStrings::new(&names)))),
        Ok(None) => Ok(Ok(None)),
        Err(error) => Ok(Err(error)),
    }
}

/// Returns the strings that have the names of the sections, or none if they cannot be read.
pub fn name_bytes<'f, E: EndianParse, R: ListedFile<E>>(file: &'f R) -> Result<&'f [u8], Stop>
    ensures { IfOk result (λ names. names.now ≡ name_bytes (file_of (R.file file.now) (R.bytes file.now))) }
{
    match name_strings(file)? {
        Ok(Some(names)) => Ok(names.bytes()),
        Ok(None) | Err(_) => Ok(&[]),
    }
}

// The strings of the names of the sections.
fn name_strings<'f, E: EndianParse, R: ListedFile<E>>(
    file: &'f R,
) -> Result<Result<Option<StringTable<'f>>, ParseError>, Stop>
    ensures { IfOk result (λ found. ok_map (option_map strings_view) found
        ≡ name_table (file_of (R.file file.now) (R.bytes file.now))) }
{
    is_part(file);
    unless_missing(reader::section_names(file))
}

/// Returns the bytes of a section, and its compression header if it has one.
pub fn section_data<'f, E: EndianParse, R: ListedFile<E>>(
    file: &'f R,
    shdr: &SectionHeader,
) -> Result<Result<(&'f [u8], Option<CompressionHeader>), ParseError>, Stop>
    ensures { IfOk result (λ found. ok_map data_view found
        ≡ section_data (file_of (R.file file.now) (R.bytes file.now)) shdr.now) }
{
    is_part(file);
    unless_missing(reader::section_data(file, shdr))
}

/// Returns the bytes of a section, without its compression header.
pub fn content<'f, E: EndianParse, R: ListedFile<E>>(
    file: &'f R,
    shdr: &SectionHeader,
) -> Result<Result<&'f [u8], ParseError>, Stop>
    ensures { IfOk result (λ found. ok_map (λ bytes. bytes.now) found
        ≡ content (file_of (R.file file.now) (R.bytes file.now)) shdr.now) }
{
    match section_data(file, shdr)? {
        Ok((bytes, _)) => Ok(Ok(bytes)),
        Err(error) => Ok(Err(error)),
    }
}

/// Returns the relocations of a section of type `SHT_REL`.
pub fn rels<'f, E: EndianParse, R: ListedFile<E>>(
    file: &'f R,
    shdr: &SectionHeader,
) -> Result<Result<RelIterator<'f, E>, ParseError>, Stop>
    ensures { IfOk result (λ found. ok_map rels_left found
        ≡ section_data_as_rels (file_of (R.file file.now) (R.bytes file.now)) shdr.now) }
{
    is_part(file);
    unless_missing(reader::section_data_as_rels(file, shdr))
}

/// Returns the relocations of a section of type `SHT_RELA`.
pub fn relas<'f, E: EndianParse, R: ListedFile<E>>(
    file: &'f R,
    shdr: &SectionHeader,
) -> Result<Result<RelaIterator<'f, E>, ParseError>, Stop>
    ensures { IfOk result (λ found. ok_map relas_left found
        ≡ section_data_as_relas (file_of (R.file file.now) (R.bytes file.now)) shdr.now) }
{
    is_part(file);
    unless_missing(reader::section_data_as_relas(file, shdr))
}

/// Returns the packed relative relocations of a section of type `SHT_RELR`.
pub fn relr<'f, E: EndianParse, R: ListedFile<E>>(
    file: &'f R,
    shdr: &SectionHeader,
) -> Result<Result<RelrTable<'f, E>, ParseError>, Stop>
    ensures { IfOk result (λ found. ok_map table_view found
        ≡ section_data_as_relr (file_of (R.file file.now) (R.bytes file.now)) shdr.now) }
{
    is_part(file);
    unless_missing(section_data_as_relr(file, shdr))
}

/// Returns the bytes of a segment in the file.
pub fn segment_data<'f, E: EndianParse, R: ListedFile<E>>(
    file: &'f R,
    phdr: &ProgramHeader,
) -> Result<Result<&'f [u8], ParseError>, Stop>
    ensures { IfOk result (λ found. ok_map (λ bytes. bytes.now) found
        ≡ segment_data (file_of (R.file file.now) (R.bytes file.now)) phdr.now) }
{
    is_part(file);
    unless_missing(reader::segment_data(file, phdr))
}

/// Returns the dynamic entries.
pub fn dynamic<'f, E: EndianParse, R: ListedFile<E>>(
    file: &'f R,
) -> Result<Result<Option<DynamicTable<'f, E>>, ParseError>, Stop>
    ensures { IfOk result (λ found. ok_map (option_map table_view) found
        ≡ dynamic (file_of (R.file file.now) (R.bytes file.now))) }
{
    is_part(file);
    unless_missing(reader::dynamic(file))
}

/// Returns the symbols of a section, with the strings of the section that its `sh_link` names.
pub fn symbols_of<'f, E: EndianParse, R: ListedFile<E>>(
    file: &'f R,
    shdr: &SectionHeader,
) -> Result<Result<Symbols<'f, E>, ParseError>, Stop>
    ensures { IfOk result (λ found. ok_map symbols_view found
        ≡ symbols_of (file_of (R.file file.now) (R.bytes file.now)) shdr.now) }
{
    is_part(file);
    unless_missing(reader::symbols_of(file, shdr))
}

/// Returns the bytes of a range by its start and its size.
pub fn range<'f, E: EndianParse, R: ListedFile<E>>(
    file: &'f R,
    start: u64,
    size: u64,
) -> Result<Result<&'f [u8], ParseError>, Stop>
    ensures { IfOk result (λ found. ok_map (λ bytes. bytes.now) found
        ≡ (file_of (R.file file.now) (R.bytes file.now)).range start size) }
{
    is_part(file);
    unless_missing(file.range(start, size))
}

/// Returns all bytes of the file.
pub fn whole_bytes<'f, E: EndianParse, R: ListedFile<E>>(
    file: &'f R,
) -> Result<Result<&'f [u8], ParseError>, Stop>
    ensures { let whole = file_of (R.file file.now) (R.bytes file.now) in
        IfOk result (λ found. ok_map (λ bytes. bytes.now) found ≡ whole.range 0 whole.size) }
{
    range(file, 0, file.size())
}

/// Returns the build id, if the file has one.
pub fn build_id<'f, E: EndianParse, R: ListedFile<E>>(
    file: &'f R,
) -> Result<Result<Option<&'f [u8]>, ParseError>, Stop>
    ensures { IfOk result (λ found. ok_map (option_map (λ id. id.now)) found
        ≡ build_id (file_of (R.file file.now) (R.bytes file.now))) }
{
    is_part(file);
    part_build_id_as_whole();
    unless_missing(elf_tools::build_id::build_id(file))
}

/// Returns the string table of dynamic entries. An error is that of the whole file, so never `NamesError::Missing`.
pub fn strings_of<'f, E: EndianParse, R: ListedFile<E>>(
    file: &'f R,
    entries: &[Dyn],
) -> Result<Result<&'f [u8], NamesError>, Stop>
    ensures strings { IfOk result (λ found. ok_map (λ bytes. bytes.now) found
        ≡ strings_by (file_of (R.file file.now) (R.bytes file.now)) entries.now) }
    ensures no_missing { IfOk result (λ found. missing_of found ≡ None) }
{
    is_part(file);
    match elf_linking::needed::strings_of(file, entries) {
        Err(NamesError::Missing(range)) => Err(Stop::Missing(range)),
        found => Ok(found),
    }
}
