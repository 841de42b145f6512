//! The check of hash sections.
ghost use Rattle.std.specs.Prelude.{◌≡◌, MatchOption, Ok};
ghost use Rattle.std.specs.Option.{option_map};
ghost use Rattle.std.specs.Result.{result_ok};
ghost use Rattle.elf.specs.Answers.{symbols_of, symbols_view};
ghost use Rattle.elf.specs.Data.{content};
ghost use Rattle.elf.specs.ElfBytes.{view};
ghost use Rattle.elf.specs.ObjectFile.{object_file};
ghost use Rattle.elf_check.specs.Hashes.{IsTrueOfHash, SoundHash};
ghost use Rattle.elf_check.specs.Symbols.{holds_symbols};

use crate::faults::HashSectionFault;
use elf::endian::EndianParse;
use elf::headers::Headers;
use elf::section::SectionHeader;
use elf::string_table::StringTable;
use elf::symbol::SymbolTable;
use elf::{ElfBytes, abi};
use elf_hash_check::hashcheck::{Checked, HashKind, check_any};

// Whether a section holds symbols.
pub(crate) fn holds_symbols(shdr: &SectionHeader) -> bool
    ensures { result ≡ holds_symbols shdr.now }
{
    shdr.sh_type == abi::SHT_SYMTAB || shdr.sh_type == abi::SHT_DYNSYM
}

// The symbols of a section, with the strings of the section that it links to.
pub(crate) fn symbols_of<'data, E: EndianParse>(
    file: &ElfBytes<'data, E>,
    shdr: &SectionHeader,
) -> Option<(SymbolTable<'data, E>, StringTable<'data>)>
    ensures { option_map symbols_view result ≡ result_ok (symbols_of (object_file E.little (view file.now)) shdr.now) }
{
    file.symbols_of(shdr).ok()
}

// What a hash section lacks.
pub(crate) fn hash_fault<E: EndianParse>(
    file: &ElfBytes<'_, E>,
    shdr: &SectionHeader,
    bytes: &[u8],
    kind: HashKind,
) -> Option<HashSectionFault>
    requires { content (object_file E.little (view file.now)) shdr.now ≡ Ok bytes.now }
    ensures { let whole = object_file E.little (view file.now) in
        MatchOption result (SoundHash kind whole shdr.now) (IsTrueOfHash kind whole shdr.now) }
{
    let Ok(linked) = file.section_at(shdr.sh_link as usize) else {
        return Some(HashSectionFault::NotLinked);
    };
    if !holds_symbols(&linked) {
        return Some(HashSectionFault::NotLinked);
    }
    let Some((symbols, strings)) = symbols_of(file, &linked) else {
        return Some(HashSectionFault::NoTable);
    };
    match check_any(
        kind,
        file.ehdr.endianness,
        file.ehdr.class,
        bytes,
        symbols,
        strings,
    ) {
        Err(_) => Some(HashSectionFault::NoTable),
        Ok(Checked::Faulty(fault)) => Some(HashSectionFault::Unsound(fault)),
        Ok(Checked::Sound(_)) => None,
    }
}
