//! Laws of the list of records in a table.
ghost use Rattle.std.specs.Prelude.{◌≡◌, ◌<◌, ◌^◌, ℕ, length, slice_get};
ghost use Rattle.std.specs.Result.{result_ok};
ghost use Rattle.elf_records.specs.Table.{Table, table_get, table_items};

use crate::laws::tables::PlainRecord;

/// For a record type without a version field, item i of a table's list is what `get(i)` returns, and `get(i)`
/// returns an error exactly if the list has no item i. The table has fewer than 2^64 bytes.
pub fn list_is_what_get_gives<P: PlainRecord>()
    ensures { (t : Table) (i : ℕ) → length t.bytes < 2 ^ 64 →
        slice_get (table_items P.reads t) i ≡ result_ok (table_get P.reads t i) }
{}
