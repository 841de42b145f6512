//! The check of sections.
ghost use Rattle.std.specs.Prelude.{◌≡◌, ◌⊎◌, ◌↔◌, IsTrue, MatchOption, Ok, is_ok, length};
ghost use Rattle.std.specs.Option.{option_map};
ghost use Rattle.std.specs.Result.{result_ok};
ghost use Rattle.elf.specs.Answers.{symbols_in, symbols_view};
ghost use Rattle.elf.specs.Data.{content};
ghost use Rattle.elf.specs.ElfBytes.{view};
ghost use Rattle.elf.specs.Names.{name_table};
ghost use Rattle.elf.specs.ObjectFile.{object_file};
ghost use Rattle.elf_check.specs.AllFaults.{IsTrueByItself, SectionAt, SectionNames, SoundByItself};
ghost use Rattle.elf_check.specs.Sections.{IsTrueOfContent, IsTrueOfSection, SoundContent, SoundSection};
ghost use Rattle.elf_check.specs.Symbols.{HoldsSymbols, IsTrueOfSymbols, SoundSymbols};
ghost use Rattle.elf_check.specs.Sections.{IsPlain, is_structural, name_in};
ghost use Rattle.elf_check.specs.Sections.{IsTrueOfUnnamed, SoundUnnamed};
ghost use Rattle.elf_check.specs.inner.Walk.{IsFaultIfAny};

use crate::dynamic::dynamic_fault;
use crate::faults::{FileFault, SectionFault, SymbolsFault};
use crate::hashes::hash_fault;
use crate::notes::notes_fault;
use crate::relocations::relocations_fault;
use crate::strings::ends_in_nul;
use crate::symbols::first_bad_symbol;
use elf::endian::EndianParse;
use elf::headers::{Headers, LinkedSections};
use elf::laws::tables::iter_gives_len_records;
use elf::parse::ParseAt;
use elf::relocation::{Rel, Rela};
use elf::section::SectionHeader;
use elf::string_table::{StringTable, TerminatedStrings};
use elf::symbol::{Symbol, SymbolTable};
use elf::{ElfBytes, abi};
use elf_hash_check::hashcheck::HashKind;

/// The names of the sections: `None` if they cannot be read.
pub(crate) type Names<'data> = Option<Option<TerminatedStrings<'data>>>;

// How many sections a file has.
pub(crate) fn section_count<E: EndianParse>(file: &ElfBytes<'_, E>) -> usize
    ensures { result ≡ length (object_file E.little (view file.now)).sections }
{
    match file.section_headers() {
        Some(shdrs) => {
            iter_gives_len_records(&shdrs);
            shdrs.len()
        }
        None => 0,
    }
}

// The symbols of the first section, and the strings of the second, if both ranges lie in the file.
pub(crate) fn symbols_in<'data, E: EndianParse>(
    file: &ElfBytes<'data, E>,
    sections: &LinkedSections,
) -> Option<(SymbolTable<'data, E>, StringTable<'data>)>
    ensures { option_map symbols_view result
        ≡ result_ok (symbols_in (object_file E.little (view file.now)) sections.now) }
{
    file.symbols_in(sections).ok()
}

// What a section of symbols lacks.
fn symbols_fault<E: EndianParse>(
    file: &ElfBytes<'_, E>,
    shdr: &SectionHeader,
    sections: usize,
) -> Option<SymbolsFault>
    requires count { sections ≡ length (object_file E.little (view file.now)).sections }
    ensures { let whole = object_file E.little (view file.now) in
        MatchOption result (SoundSymbols whole shdr.now) (IsTrueOfSymbols whole shdr.now) }
{
    let Ok(pair) = file.with_linked(shdr) else {
        return Some(SymbolsFault::BadLink);
    };
    if pair.1.sh_type != abi::SHT_STRTAB {
        return Some(SymbolsFault::LinkedToNoStrings);
    }
    if shdr.sh_size % Symbol::size_for(file.ehdr.class) as u64 != 0 {
        return Some(SymbolsFault::PartOfSymbol);
    }
    let Some((symbols, strings)) = symbols_in(file, &pair) else {
        return Some(SymbolsFault::NoSymbols);
    };
    match first_bad_symbol(&symbols, &TerminatedStrings::new(&strings), sections) {
        Some((index, fault)) => Some(SymbolsFault::At { index, fault }),
        None => None,
    }
}

// Whether the name of a section can be read.
fn has_readable_name(names: &Option<TerminatedStrings<'_>>, shdr: &SectionHeader) -> bool
    ensures { result ≡ is_ok (name_in shdr.now names.now) }
{
    match names {
        Some(names) => names.has_string_at(shdr.sh_name as usize),
        None => true,
    }
}

// Whether the records, strings or tables of a section are read as they lie in the file, by its type.
fn is_structural(shdr: &SectionHeader) -> bool
    ensures { result ≡ is_structural shdr.now }
{
    shdr.sh_type == abi::SHT_SYMTAB
        || shdr.sh_type == abi::SHT_DYNSYM
        || shdr.sh_type == abi::SHT_STRTAB
        || shdr.sh_type == abi::SHT_REL
        || shdr.sh_type == abi::SHT_RELA
        || shdr.sh_type == abi::SHT_DYNAMIC
        || shdr.sh_type == abi::SHT_HASH
        || shdr.sh_type == abi::SHT_GNU_HASH
        || shdr.sh_type == abi::SHT_GNU_VERSYM
        || shdr.sh_type == abi::SHT_GNU_VERNEED
        || shdr.sh_type == abi::SHT_GNU_VERDEF
}

// Whether a section is not compressed, if its type forbids that.
fn is_plain(shdr: &SectionHeader) -> bool
    ensures { IsTrue result ↔ IsPlain shdr.now }
{
    !is_structural(shdr) || shdr.sh_flags & abi::SHF_COMPRESSED as u64 == 0
}

// What the content of a section lacks, by its type.
fn content_fault<E: EndianParse>(
    file: &ElfBytes<'_, E>,
    shdr: &SectionHeader,
    sections: usize,
    bytes: &[u8],
) -> Option<SectionFault>
    requires count { sections ≡ length (object_file E.little (view file.now)).sections }
    requires bytes { content (object_file E.little (view file.now)) shdr.now ≡ Ok bytes.now }
    ensures { let whole = object_file E.little (view file.now) in
        MatchOption result (SoundContent whole shdr.now) (IsTrueOfContent whole shdr.now) }
{
    match shdr.sh_type {
        abi::SHT_STRTAB => {
            if ends_in_nul(bytes) {
                None
            } else {
                Some(SectionFault::NoLastNul)
            }
        }
        abi::SHT_SYMTAB | abi::SHT_DYNSYM => symbols_fault(file, shdr, sections).map(
            SectionFault::Symbols,
        ),
        abi::SHT_HASH => hash_fault(file, shdr, bytes, HashKind::Sysv).map(SectionFault::Hash),
        abi::SHT_GNU_HASH => hash_fault(file, shdr, bytes, HashKind::Gnu).map(SectionFault::Hash),
        abi::SHT_DYNAMIC => dynamic_fault(file, shdr, bytes).map(SectionFault::Dynamic),
        abi::SHT_NOTE => match notes_fault(file, shdr, bytes) {
            Some(offset) => Some(SectionFault::NoNote { offset }),
            None => None,
        },
        abi::SHT_REL => relocations_fault::<E, Rel>(file, shdr, bytes).map(
            SectionFault::Relocations,
        ),
        abi::SHT_RELA => relocations_fault::<E, Rela>(file, shdr, bytes).map(
            SectionFault::Relocations,
        ),
        _ => None,
    }
}

// What a section lacks, apart from its name.
fn unnamed_fault<E: EndianParse>(
    file: &ElfBytes<'_, E>,
    shdr: &SectionHeader,
    sections: usize,
) -> Option<SectionFault>
    requires { sections ≡ length (object_file E.little (view file.now)).sections }
    ensures { let whole = object_file E.little (view file.now) in
        MatchOption result (SoundUnnamed whole shdr.now) (IsTrueOfUnnamed whole shdr.now) }
{
    let Ok((bytes, _)) = file.section_data(shdr) else {
        return Some(SectionFault::NoBytes);
    };
    if !is_plain(shdr) {
        return Some(SectionFault::Compressed);
    }
    content_fault(file, shdr, sections, bytes)
}

// What a section lacks.
fn section_fault<E: EndianParse>(
    file: &ElfBytes<'_, E>,
    names: &Option<TerminatedStrings<'_>>,
    shdr: &SectionHeader,
    sections: usize,
) -> Option<SectionFault>
    requires named { name_table (object_file E.little (view file.now)) ≡ Ok names.now }
    requires count { sections ≡ length (object_file E.little (view file.now)).sections }
    ensures { let whole = object_file E.little (view file.now) in
        MatchOption result (SoundSection whole shdr.now) (IsTrueOfSection whole shdr.now) }
{
    if !has_readable_name(names, shdr) {
        return Some(SectionFault::NoName);
    }
    unnamed_fault(file, shdr, sections)
}

// The names of the sections.
pub(crate) fn names_in<'data, E: EndianParse>(file: &ElfBytes<'data, E>) -> Names<'data>
    ensures { result_ok (name_table (object_file E.little (view file.now))) ≡ result }
{
    match file.section_headers_with_strtab() {
        Ok((_, names)) => Some(names.map(|names| TerminatedStrings::new(&names))),
        Err(_) => None,
    }
}

// The fault of the names of the sections.
pub(crate) fn names_fault<E: EndianParse>(file: &ElfBytes<'_, E>) -> Option<FileFault>
    ensures { IsFaultIfAny (object_file E.little (view file.now)) SectionNames result }
{
    match file.section_headers_with_strtab() {
        Ok(_) => None,
        Err(_) => Some(FileFault::NoNames),
    }
}

// What a section lacks, by itself.
fn own_fault<E: EndianParse>(
    file: &ElfBytes<'_, E>,
    names: &Names<'_>,
    shdr: &SectionHeader,
    sections: usize,
) -> Option<SectionFault>
    requires named { result_ok (name_table (object_file E.little (view file.now))) ≡ names.now }
    requires count { sections ≡ length (object_file E.little (view file.now)).sections }
    ensures { let whole = object_file E.little (view file.now) in
        MatchOption result (SoundByItself whole shdr.now) (IsTrueByItself whole shdr.now) }
{
    match names {
        Some(names) => section_fault(file, names, shdr, sections),
        None => unnamed_fault(file, shdr, sections),
    }
}

// The fault of the section of an index.
pub(crate) fn section_fault_at<E: EndianParse>(
    file: &ElfBytes<'_, E>,
    names: &Names<'_>,
    index: usize,
    sections: usize,
) -> Option<FileFault>
    requires named { result_ok (name_table (object_file E.little (view file.now))) ≡ names.now }
    requires count { sections ≡ length (object_file E.little (view file.now)).sections }
    ensures { IsFaultIfAny (object_file E.little (view file.now)) (SectionAt index) result }
{
    let Ok(shdr) = file.section_at(index) else {
        return None;
    };
    let fault = own_fault(file, names, &shdr, sections)?;
    Some(FileFault::Section { index, fault })
}
