//! Records: the structs in which C sees them, and the reads of one or many records of a table.
ghost use Rattle.std.specs.Prelude.{◌≡◌};
ghost use Rattle.elf_records.specs.Dynamic.{dyn_reads};
ghost use Rattle.elf_records.specs.Relocation.{rel_reads, rela_reads};
ghost use Rattle.elf_records.specs.Section.{section_header_reads};
ghost use Rattle.elf_records.specs.Segment.{program_header_reads};
ghost use Rattle.elf_records.specs.Symbol.{symbol_reads};
ghost use Rattle.elf_records.specs.Table.{table_get, table_len};
ghost use Rattle.elf_c.specs.Filled.{AreFilled, IsShown};
ghost use Rattle.elf_c.specs.Records.{dynamic_shown, rel_shown, rela_shown, section_in, section_shown, segment_in};
ghost use Rattle.elf_c.specs.Records.{segment_shown, symbol_shown};
ghost use Rattle.elf_c.specs.Status.{status_of, written};
ghost use Rattle.elf_c.specs.Tables.{table_of_c};

use crate::status::NugwierStatus;
use crate::table::{ForC, NugwierTable, count, fill, get};
use elf_parts::dynamic::Dyn;
use elf_parts::relocation::{Rel, Rela};
use elf_parts::section::SectionHeader;
use elf_parts::segment::ProgramHeader;
use elf_parts::symbol::Symbol;

/// A symbol.
#[repr(C)]
#[derive(Clone, Copy, Default)]
pub struct NugwierSymbol {
    pub name: u32,
    pub info: u8,
    pub other: u8,
    pub shndx: u16,
    pub value: u64,
    pub size: u64,
}

impl ForC for Symbol {
    ghost use Rattle.elf_c.specs.Records.{symbol_shown};

    type Seen = NugwierSymbol;

    ghost shown = { symbol_shown };

    fn show(&self) -> NugwierSymbol {
        NugwierSymbol {
            name: self.st_name,
            info: self.st_info,
            other: self.st_other,
            shndx: self.st_shndx,
            value: self.st_value,
            size: self.st_size,
        }
    }
}

/// A section header.
#[repr(C)]
#[derive(Clone, Copy)]
pub struct NugwierSection {
    pub name: u32,
    pub kind: u32,
    pub flags: u64,
    pub addr: u64,
    pub offset: u64,
    pub size: u64,
    pub link: u32,
    pub info: u32,
    pub addralign: u64,
    pub entsize: u64,
}

impl ForC for SectionHeader {
    ghost use Rattle.elf_c.specs.Records.{section_shown};

    type Seen = NugwierSection;

    ghost shown = { section_shown };

    fn show(&self) -> NugwierSection {
        NugwierSection {
            name: self.sh_name,
            kind: self.sh_type,
            flags: self.sh_flags,
            addr: self.sh_addr,
            offset: self.sh_offset,
            size: self.sh_size,
            link: self.sh_link,
            info: self.sh_info,
            addralign: self.sh_addralign,
            entsize: self.sh_entsize,
        }
    }
}

/// A program header.
#[repr(C)]
#[derive(Clone, Copy)]
pub struct NugwierSegment {
    pub kind: u32,
    pub flags: u32,
    pub offset: u64,
    pub vaddr: u64,
    pub paddr: u64,
    pub filesz: u64,
    pub memsz: u64,
    pub align: u64,
}

impl ForC for ProgramHeader {
    ghost use Rattle.elf_c.specs.Records.{segment_shown};

    type Seen = NugwierSegment;

    ghost shown = { segment_shown };

    fn show(&self) -> NugwierSegment {
        NugwierSegment {
            kind: self.p_type,
            flags: self.p_flags,
            offset: self.p_offset,
            vaddr: self.p_vaddr,
            paddr: self.p_paddr,
            filesz: self.p_filesz,
            memsz: self.p_memsz,
            align: self.p_align,
        }
    }
}

/// A relocation: `symbol` is the index of the symbol, `kind` the type.
#[repr(C)]
#[derive(Clone, Copy)]
pub struct NugwierRel {
    pub offset: u64,
    pub symbol: u32,
    pub kind: u32,
}

impl ForC for Rel {
    ghost use Rattle.elf_c.specs.Records.{rel_shown};

    type Seen = NugwierRel;

    ghost shown = { rel_shown };

    fn show(&self) -> NugwierRel {
        NugwierRel {
            offset: self.r_offset,
            symbol: self.r_sym,
            kind: self.r_type,
        }
    }
}

/// A relocation with an addend: `symbol` is the index of the symbol, `kind` the type.
#[repr(C)]
#[derive(Clone, Copy)]
pub struct NugwierRela {
    pub offset: u64,
    pub addend: i64,
    pub symbol: u32,
    pub kind: u32,
}

impl ForC for Rela {
    ghost use Rattle.elf_c.specs.Records.{rela_shown};

    type Seen = NugwierRela;

    ghost shown = { rela_shown };

    fn show(&self) -> NugwierRela {
        NugwierRela {
            offset: self.r_offset,
            addend: self.r_addend,
            symbol: self.r_sym,
            kind: self.r_type,
        }
    }
}

/// A dynamic entry: its tag, and its value or address.
#[repr(C)]
#[derive(Clone, Copy)]
pub struct NugwierDynamic {
    pub tag: i64,
    pub value: u64,
}

impl ForC for Dyn {
    ghost use Rattle.elf_c.specs.Records.{dynamic_shown};

    type Seen = NugwierDynamic;

    ghost shown = { dynamic_shown };

    fn show(&self) -> NugwierDynamic {
        NugwierDynamic {
            tag: self.d_tag,
            value: self.d_val(),
        }
    }
}

// The section header that C gives.
pub(crate) fn section_in(section: &NugwierSection) -> SectionHeader
    ensures { result ≡ section_in section.now }
{
    SectionHeader {
        sh_name: section.name,
        sh_type: section.kind,
        sh_flags: section.flags,
        sh_addr: section.addr,
        sh_offset: section.offset,
        sh_size: section.size,
        sh_link: section.link,
        sh_info: section.info,
        sh_addralign: section.addralign,
        sh_entsize: section.entsize,
    }
}

// The program header that C gives.
pub(crate) fn segment_in(segment: &NugwierSegment) -> ProgramHeader
    ensures { result ≡ segment_in segment.now }
{
    ProgramHeader {
        p_type: segment.kind,
        p_offset: segment.offset,
        p_vaddr: segment.vaddr,
        p_paddr: segment.paddr,
        p_filesz: segment.filesz,
        p_memsz: segment.memsz,
        p_flags: segment.flags,
        p_align: segment.align,
    }
}

/// Reads the symbol `index` of a table, counted from 0. An error leaves `symbol` as it is; the errors are those of
/// `ParsingTable::get`.
#[unsafe(no_mangle)]
pub extern "C" fn nugwier_symbol(
    table: &NugwierTable<'_>,
    index: usize,
    symbol: &mut NugwierSymbol,
) -> NugwierStatus
    ensures status { result ≡ status_of (table_get symbol_reads (table_of_c table.now) index) }
    ensures symbol { symbol.new
        ≡ written symbol_shown symbol.old (table_get symbol_reads (table_of_c table.now) index) }
{
    get::<Symbol>(table, index, symbol)
}

/// Fills `symbols` with the symbols of a table, the first of them number `first`. Returns how many were
/// written: up to the first that cannot be read, and no more than there are places.
#[unsafe(no_mangle)]
pub extern "C" fn nugwier_symbols(
    table: &NugwierTable<'_>,
    first: usize,
    symbols: &mut [NugwierSymbol],
) -> usize
    ensures { AreFilled (IsShown symbol_shown) (table_get symbol_reads (table_of_c table.now)) first result
        symbols.old symbols.new }
{
    fill::<Symbol>(table, first, symbols)
}

/// Reads the relocation `index` of a table, counted from 0. An error leaves `rel` as it is; the errors are those of
/// `ParsingTable::get`.
#[unsafe(no_mangle)]
pub extern "C" fn nugwier_rel(
    table: &NugwierTable<'_>,
    index: usize,
    rel: &mut NugwierRel,
) -> NugwierStatus
    ensures status { result ≡ status_of (table_get rel_reads (table_of_c table.now) index) }
    ensures rel { rel.new
        ≡ written rel_shown rel.old (table_get rel_reads (table_of_c table.now) index) }
{
    get::<Rel>(table, index, rel)
}

/// Fills `rels` with the relocations of a table, the first of them number `first`. Returns how many were
/// written: up to the first that cannot be read, and no more than there are places.
#[unsafe(no_mangle)]
pub extern "C" fn nugwier_rels(
    table: &NugwierTable<'_>,
    first: usize,
    rels: &mut [NugwierRel],
) -> usize
    ensures { AreFilled (IsShown rel_shown) (table_get rel_reads (table_of_c table.now)) first result
        rels.old rels.new }
{
    fill::<Rel>(table, first, rels)
}

/// Reads the relocation with an addend `index` of a table, counted from 0. An error leaves `rela` as it is; the errors
/// are those of `ParsingTable::get`.
#[unsafe(no_mangle)]
pub extern "C" fn nugwier_rela(
    table: &NugwierTable<'_>,
    index: usize,
    rela: &mut NugwierRela,
) -> NugwierStatus
    ensures status { result ≡ status_of (table_get rela_reads (table_of_c table.now) index) }
    ensures rela { rela.new
        ≡ written rela_shown rela.old (table_get rela_reads (table_of_c table.now) index) }
{
    get::<Rela>(table, index, rela)
}

/// Fills `relas` with the relocations with an addend of a table, the first of them number `first`. Returns how many
/// were written: up to the first that cannot be read, and no more than there are places.
#[unsafe(no_mangle)]
pub extern "C" fn nugwier_relas(
    table: &NugwierTable<'_>,
    first: usize,
    relas: &mut [NugwierRela],
) -> usize
    ensures { AreFilled (IsShown rela_shown) (table_get rela_reads (table_of_c table.now)) first result
        relas.old relas.new }
{
    fill::<Rela>(table, first, relas)
}

/// Reads the dynamic entry `index` of a table, counted from 0. An error leaves `dynamic` as it is; the errors are those
/// of `ParsingTable::get`.
#[unsafe(no_mangle)]
pub extern "C" fn nugwier_dynamic(
    table: &NugwierTable<'_>,
    index: usize,
    dynamic: &mut NugwierDynamic,
) -> NugwierStatus
    ensures status { result ≡ status_of (table_get dyn_reads (table_of_c table.now) index) }
    ensures dynamic { dynamic.new
        ≡ written dynamic_shown dynamic.old (table_get dyn_reads (table_of_c table.now) index) }
{
    get::<Dyn>(table, index, dynamic)
}

/// Fills `dynamics` with the dynamic entries of a table, the first of them number `first`. Returns how many were
/// written: up to the first that cannot be read, and no more than there are places.
#[unsafe(no_mangle)]
pub extern "C" fn nugwier_dynamics(
    table: &NugwierTable<'_>,
    first: usize,
    dynamics: &mut [NugwierDynamic],
) -> usize
    ensures { AreFilled (IsShown dynamic_shown) (table_get dyn_reads (table_of_c table.now)) first result
        dynamics.old dynamics.new }
{
    fill::<Dyn>(table, first, dynamics)
}

/// Fills `sections` with the section headers of a table, the first of them number `first`. Returns how many were
/// written: up to the first that cannot be read, and no more than there are places.
#[unsafe(no_mangle)]
pub extern "C" fn nugwier_sections(
    table: &NugwierTable<'_>,
    first: usize,
    sections: &mut [NugwierSection],
) -> usize
    ensures { AreFilled (IsShown section_shown) (table_get section_header_reads (table_of_c table.now)) first result
        sections.old sections.new }
{
    fill::<SectionHeader>(table, first, sections)
}

/// Fills `segments` with the program headers of a table, the first of them number `first`. Returns how many were
/// written: up to the first that cannot be read, and no more than there are places.
#[unsafe(no_mangle)]
pub extern "C" fn nugwier_segments(
    table: &NugwierTable<'_>,
    first: usize,
    segments: &mut [NugwierSegment],
) -> usize
    ensures { AreFilled (IsShown segment_shown) (table_get program_header_reads (table_of_c table.now)) first result
        segments.old segments.new }
{
    fill::<ProgramHeader>(table, first, segments)
}

/// Returns how many symbols fit into a table.
#[unsafe(no_mangle)]
pub extern "C" fn nugwier_symbol_count(table: &NugwierTable<'_>) -> usize
    ensures { result ≡ table_len symbol_reads (table_of_c table.now) }
{
    count::<Symbol>(table)
}

/// Returns how many section headers fit into a table.
#[unsafe(no_mangle)]
pub extern "C" fn nugwier_section_count(table: &NugwierTable<'_>) -> usize
    ensures { result ≡ table_len section_header_reads (table_of_c table.now) }
{
    count::<SectionHeader>(table)
}

/// Returns how many program headers fit into a table.
#[unsafe(no_mangle)]
pub extern "C" fn nugwier_segment_count(table: &NugwierTable<'_>) -> usize
    ensures { result ≡ table_len program_header_reads (table_of_c table.now) }
{
    count::<ProgramHeader>(table)
}

/// Returns how many relocations fit into a table.
#[unsafe(no_mangle)]
pub extern "C" fn nugwier_rel_count(table: &NugwierTable<'_>) -> usize
    ensures { result ≡ table_len rel_reads (table_of_c table.now) }
{
    count::<Rel>(table)
}

/// Returns how many relocations with an addend fit into a table.
#[unsafe(no_mangle)]
pub extern "C" fn nugwier_rela_count(table: &NugwierTable<'_>) -> usize
    ensures { result ≡ table_len rela_reads (table_of_c table.now) }
{
    count::<Rela>(table)
}

/// Returns how many dynamic entries fit into a table.
#[unsafe(no_mangle)]
pub extern "C" fn nugwier_dynamic_count(table: &NugwierTable<'_>) -> usize
    ensures { result ≡ table_len dyn_reads (table_of_c table.now) }
{
    count::<Dyn>(table)
}
