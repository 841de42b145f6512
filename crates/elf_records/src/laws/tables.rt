//! Laws of tables: at which indexes `get` succeeds, and which records `iter` yields.
ghost use Rattle.std.specs.Prelude.{◌≡◌, ◌↔◌, ◌<◌, ◌≤◌, ◌^◌, length, slice_get, IsOk, refl};
ghost use Rattle.std.specs.Result.{result_ok};
ghost use Rattle.elf_records.specs.Record.{ReadsWherever};
ghost use Rattle.elf_records.specs.Table.{items_left, table_get, table_items, table_len, table_view};

use crate::compression::CompressionHeader;
use crate::dynamic::Dyn;
use crate::endian::EndianParse;
use crate::parse::{ParseAt, ParsingIterator, ParsingTable};
use crate::relocation::{Rel, Rela};
use crate::section::SectionHeader;
use crate::segment::ProgramHeader;
use crate::symbol::Symbol;

/// A record that can be read wherever its bytes lie in the data, because no field must have a certain value.
pub trait PlainRecord: ParseAt {
    ghost wherever: { ReadsWherever Self.reads.size Self.reads.record_at };
}

impl PlainRecord for u32 {
    ghost use Rattle.elf_records.specs.Word.{u32_layout};
    ghost use Rattle.elf_records.specs.inner.RecordLaws.{wherever_by};

    ghost wherever = { wherever_by u32_layout refl };
}

impl PlainRecord for u64 {
    ghost use Rattle.elf_records.specs.Word.{u64_layout};
    ghost use Rattle.elf_records.specs.inner.RecordLaws.{wherever_by};

    ghost wherever = { wherever_by u64_layout refl };
}

impl PlainRecord for SectionHeader {
    ghost use Rattle.elf_records.specs.inner.RecordLaws.{wherever_by};
    ghost use Rattle.elf_records.specs.Section.{section_header_layout};

    ghost wherever = { wherever_by section_header_layout refl };
}

impl PlainRecord for ProgramHeader {
    ghost use Rattle.elf_records.specs.inner.RecordLaws.{wherever_by};
    ghost use Rattle.elf_records.specs.Segment.{program_header_layout};

    ghost wherever = { wherever_by program_header_layout refl };
}

impl PlainRecord for Symbol {
    ghost use Rattle.elf_records.specs.Symbol.{symbol_layout};
    ghost use Rattle.elf_records.specs.inner.RecordLaws.{wherever_by};

    ghost wherever = { wherever_by symbol_layout refl };
}

impl PlainRecord for Rel {
    ghost use Rattle.elf_records.specs.Relocation.{rel_layout};
    ghost use Rattle.elf_records.specs.inner.RecordLaws.{wherever_by};

    ghost wherever = { wherever_by rel_layout refl };
}

impl PlainRecord for Rela {
    ghost use Rattle.elf_records.specs.Relocation.{rela_layout};
    ghost use Rattle.elf_records.specs.inner.RecordLaws.{wherever_by};

    ghost wherever = { wherever_by rela_layout refl };
}

impl PlainRecord for Dyn {
    ghost use Rattle.elf_records.specs.Dynamic.{dyn_layout};
    ghost use Rattle.elf_records.specs.inner.RecordLaws.{wherever_by};

    ghost wherever = { wherever_by dyn_layout refl };
}

impl PlainRecord for CompressionHeader {
    ghost use Rattle.elf_records.specs.Compression.{compression_header_layout};
    ghost use Rattle.elf_records.specs.inner.RecordLaws.{wherever_by};

    ghost wherever = { wherever_by compression_header_layout refl };
}

/// For a plain record, `get(index)` succeeds exactly if `index` is below `len`.
pub fn get_succeeds_below_len<E: EndianParse, P: PlainRecord>(
    table: &ParsingTable<'_, E, P>,
    index: usize,
)
    ensures { IsOk (table_get P.reads (table_view table.now) index)
        ↔ (index < table_len P.reads (table_view table.now)) }
{
    let _ = table.len();
}

/// Item `index` of `iter` is what `get(index)` returns. At the number of items `get` returns an error.
pub fn iter_gives_what_get_gives<E: EndianParse, P: ParseAt>(
    table: &ParsingTable<'_, E, P>,
    index: usize,
)
    ensures { index ≤ length (table_items P.reads (table_view table.now)) →
        slice_get (table_items P.reads (table_view table.now)) index
        ≡ result_ok (table_get P.reads (table_view table.now) index) }
{
    let _ = table.len();
}

/// For a plain record, `iter` yields `len` records.
pub fn iter_gives_len_records<E: EndianParse, P: PlainRecord>(table: &ParsingTable<'_, E, P>)
    ensures { length (table_items P.reads (table_view table.now)) ≡ table_len P.reads (table_view table.now) }
{
    let _ = table.len();
}

/// For a plain record and every index, item `index` of `iter` is what `get(index)` returns, and there is no such
/// item exactly if `get(index)` returns an error.
pub fn iter_gives_whatever_get_gives<E: EndianParse, P: PlainRecord>(
    table: &ParsingTable<'_, E, P>,
    index: usize,
)
    ensures { slice_get (table_items P.reads (table_view table.now)) index
        ≡ result_ok (table_get P.reads (table_view table.now) index) }
{
    let _ = table.len();
}

/// An iterator over records has fewer than 2^64 of them left to yield.
pub fn few_records_are_left<E: EndianParse, P: ParseAt>(records: &ParsingIterator<'_, E, P>)
    ensures { length (items_left P.reads records.now) < 2 ^ 64 }
{
    let _ = records.data_len();
}
