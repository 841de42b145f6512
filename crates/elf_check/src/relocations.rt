//! The check of relocations.
ghost use Rattle.std.specs.Prelude.{◌≡◌, ◌<◌, ◌≤◌, MatchOption, Ok};
ghost use Rattle.elf.specs.Data.{content};
ghost use Rattle.elf.specs.ElfBytes.{view};
ghost use Rattle.elf.specs.ObjectFile.{object_file};
ghost use Rattle.elf_records.specs.Table.{table_get, table_in, table_len, table_view};
ghost use Rattle.elf_check.specs.Members.{AllSound, IsFirstFault};
ghost use Rattle.elf_check.specs.Relocations.{IsTrueOfRelocations, IsTrueOfTable, NamesNone, SoundRelocationTable};
ghost use Rattle.elf_check.specs.Relocations.{SoundRelocations};
ghost use Rattle.elf_check.specs.Relocations.{has_other_info, machine, symbols_counted, symbols_linked};
ghost use Rattle.elf_check.specs.Relocations.{symbols_to_name};

use crate::faults::RelocationsFault;
use crate::hashes::holds_symbols;
use elf::endian::EndianParse;
use elf::file::Class;
use elf::headers::Headers;
use elf::laws::tables::{PlainRecord, get_succeeds_below_len};
use elf::parse::{ParseAt, ParsingTable};
use elf::relocation::Relocation;
use elf::section::SectionHeader;
use elf::symbol::Symbol;
use elf::{ElfBytes, abi};

// A record below the number of records.
pub(crate) fn record_below<E: EndianParse, P: PlainRecord>(
    table: &ParsingTable<'_, E, P>,
    index: usize,
) -> P
    requires { index < table_len P.reads (table_view table.now) }
    ensures { table_get P.reads (table_view table.now) index ≡ Ok result }
{
    get_succeeds_below_len(table, index);
    table.get_quickly(index).unwrap()
}

// The first relocation that names no symbol below this number, and the symbol that it names.
fn first_without_symbol<E: EndianParse, P: Relocation>(
    table: &ParsingTable<'_, E, P>,
    symbols: usize,
) -> Option<(usize, u32)>
    ensures { let at = table_get P.reads (table_view table.now) in
        MatchOption result (AllSound at (λ r. P.symbol_of r < symbols))
        (λ bad. IsFirstFault at (λ r. P.symbol_of r < symbols) (NamesNone P.reads P.symbol_of symbols) bad.0 bad.1) }
{
    for index in 0..table.len() {
        let relocation = record_below(table, index);
        let symbol = relocation.symbol();
        if symbol as usize >= symbols {
            return Some((index, symbol));
        }
    }
    None
}

// What these relocations lack, if there are this many symbols to name.
fn table_fault<E: EndianParse, P: Relocation>(
    endian: E,
    class: Class,
    bytes: &[u8],
    symbols: usize,
) -> Option<RelocationsFault>
    ensures { let table = table_in (E.little endian) class bytes.now in
        MatchOption result (SoundRelocationTable P.reads P.symbol_of symbols table)
        (IsTrueOfTable P.reads P.symbol_of symbols table) }
{
    if bytes.len() % P::size_for(class) != 0 {
        return Some(RelocationsFault::PartOfRelocation);
    }
    let table = ParsingTable::<E, P>::new(endian, class, bytes);
    let (index, symbol) = first_without_symbol(&table, symbols)?;
    Some(RelocationsFault::NoSymbol { index, symbol })
}

// How many symbols a section holds, if it holds symbols.
fn symbols_counted<E: EndianParse>(file: &ElfBytes<'_, E>, linked: &SectionHeader) -> Option<usize>
    ensures { result ≡ symbols_counted (object_file E.little (view file.now)) linked.now }
{
    if holds_symbols(linked) {
        Some(linked.sh_size as usize / Symbol::size_for(file.ehdr.class))
    } else {
        None
    }
}

// Where the file header has the machine, in bytes.
const MACHINE: usize = 18;

// The machine, as the bytes of the file header have it.
#[tactic(auto, unfolding(elf_records::specs::Number::number_at))]
fn machine<E: EndianParse>(file: &ElfBytes<'_, E>) -> Option<u16>
    ensures { result ≡ machine (object_file E.little (view file.now)) }
{
    let mut offset = MACHINE;
    let read = file.ehdr.endianness.parse_u16_at(&mut offset, file.data());
    read.ok()
}

// Whether relocations have another r_info than the gABI's.
pub(crate) fn has_other_info<E: EndianParse>(file: &ElfBytes<'_, E>) -> bool
    ensures { result ≡ has_other_info (object_file E.little (view file.now)) }
{
    if !file.ehdr.endianness.is_little() {
        return false;
    }
    match file.ehdr.class {
        Class::ELF32 => false,
        Class::ELF64 => match machine(file) {
            Some(e_machine) => e_machine == abi::EM_MIPS,
            None => false,
        },
    }
}

// How many symbols the relocations of a section can name, if they have the gABI's r_info.
fn symbols_linked<E: EndianParse>(file: &ElfBytes<'_, E>, shdr: &SectionHeader) -> Option<usize>
    ensures { result ≡ symbols_linked (object_file E.little (view file.now)) shdr.now }
{
    if shdr.sh_link == 0 {
        return Some(1);
    }
    let linked = file.section_at(shdr.sh_link as usize).ok()?;
    symbols_counted(file, &linked)
}

// How many symbols the relocations of a section can name.
fn symbols_to_name<E: EndianParse>(file: &ElfBytes<'_, E>, shdr: &SectionHeader) -> Option<usize>
    ensures { result ≡ symbols_to_name (object_file E.little (view file.now)) shdr.now }
{
    if has_other_info(file) {
        Some(1 << 32)
    } else {
        symbols_linked(file, shdr)
    }
}

// What a section of relocations lacks.
pub(crate) fn relocations_fault<E: EndianParse, P: Relocation>(
    file: &ElfBytes<'_, E>,
    shdr: &SectionHeader,
    bytes: &[u8],
) -> Option<RelocationsFault>
    requires { content (object_file E.little (view file.now)) shdr.now ≡ Ok bytes.now }
    ensures { let whole = object_file E.little (view file.now) in
        MatchOption result (SoundRelocations P.reads P.symbol_of whole shdr.now)
        (IsTrueOfRelocations P.reads P.symbol_of whole shdr.now) }
{
    if shdr.sh_entsize != P::size_for(file.ehdr.class) as u64 {
        return Some(RelocationsFault::EntrySize);
    }
    let Some(symbols) = symbols_to_name(file, shdr) else {
        return Some(RelocationsFault::NoLink);
    };
    table_fault::<E, P>(file.ehdr.endianness, file.ehdr.class, bytes, symbols)
}
