//! What a user's functions can promise of a table, whatever its order and its records are.
ghost use Rattle.std.specs.Prelude.{◌≡◌, ◌<◌, length, IsOk, IfOk};
ghost use Rattle.elf_records.specs.Table.{table_get, table_items, table_len, table_view};

use elf::endian::EndianParse;
use elf::laws::tables::{PlainRecord, get_succeeds_below_len};
use elf::parse::{ParseAt, ParseError, ParsingTable};
use std::alloc::{AllocError, Global};

/// How many records an iteration gives.
pub fn count_items<E: EndianParse, P: ParseAt + Drop>(table: &ParsingTable<'_, E, P>) -> usize
    ensures { result ≡ length (table_items P.reads (table_view table.now)) }
{
    table.iter().count()
}

/// The records that an iteration gives.
pub fn all_items<E: EndianParse, P: ParseAt + Drop>(
    alloc: Global,
    table: &ParsingTable<'_, E, P>,
) -> Result<Vec<P>, AllocError>
    ensures { IfOk result (λ all. all.items ≡ table_items P.reads (table_view table.now)) }
{
    table.iter().collect(alloc)
}

/// The record at an index below the table's length, of a type whose fields may have any value.
pub fn item_below<E: EndianParse, P: PlainRecord>(
    table: &ParsingTable<'_, E, P>,
    index: usize,
) -> Result<P, ParseError>
    requires { index < table_len P.reads (table_view table.now) }
    ensures { IsOk result }
{
    get_succeeds_below_len(table, index);
    table.get(index)
}
