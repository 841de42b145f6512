//! Laws of defaults.
ghost use Rattle.std.specs.Prelude.{◌≡◌, []};
ghost use Rattle.elf_records.specs.StringTable.{strings_view};
ghost use Rattle.elf_records.specs.declared.endian.AnyEndian.{AnyEndian};
ghost use Rattle.elf_records.specs.declared.string_table.StringTable.{StringTable};

use crate::endian::{AnyEndian, BigEndian, LittleEndian};
use crate::string_table::StringTable;

/// The default string table has no bytes, and the default of `AnyEndian` is `Little`.
pub fn defaults()
    ensures strings { (s : StringTable) → ⟦<StringTable<'static> as Default>⟧.is_default s → strings_view s ≡ [] }
    ensures order { (e : AnyEndian) → ⟦<AnyEndian as Default>⟧.is_default e → e ≡ AnyEndian.Little }
{}
