//! Laws of hash sections and of look-ups in them.
ghost use Rattle.std.specs.Prelude.{◌≡◌, Bool, List, ℕ, Ok, Some, refl};
ghost use Rattle.elf_parts.specs.GnuFind.{GnuTable, ReadsBloom, gnu_find, gnu_section};
ghost use Rattle.elf_parts.specs.Hash.{IsNamed, ReadsBelowCount};
ghost use Rattle.elf_parts.specs.SysvFind.{SysvTable, sysv_find, sysv_section};
ghost use Rattle.elf_records.specs.Table.{Table, table_view};
ghost use Rattle.elf_records.specs.declared.file.Class.{Class};
ghost use Rattle.elf_records.specs.declared.symbol.Symbol.{Symbol};

use crate::endian::EndianParse;
use crate::hash::{GnuHashHeader, SysVHashHeader};
use crate::laws::tables::PlainRecord;
use crate::parse::ParsingTable;

impl PlainRecord for SysVHashHeader {
    ghost use Rattle.elf_parts.specs.Hash.{sysv_header_layout};
    ghost use Rattle.elf_records.specs.inner.RecordLaws.{wherever_by};

    ghost wherever = { wherever_by sysv_header_layout refl };
}

impl PlainRecord for GnuHashHeader {
    ghost use Rattle.elf_parts.specs.Hash.{gnu_header_layout};
    ghost use Rattle.elf_records.specs.inner.RecordLaws.{wherever_by};

    ghost wherever = { wherever_by gnu_header_layout refl };
}

/// If a look-up in a SysV or in a GNU section returns a symbol, this is the symbol at the returned index, and it has the
/// requested name.
pub fn find_gives_named()
    ensures sysv { (t : SysvTable) (symbols : Table) (strings name : List ℕ) (found : ℕ × Symbol) →
        sysv_find t symbols strings name ≡ Ok (Some found) → IsNamed symbols strings name found }
    ensures gnu { (t : GnuTable) (symbols : Table) (strings name : List ℕ) (found : ℕ × Symbol) →
        gnu_find t symbols strings name ≡ Ok (Some found) → IsNamed symbols strings name found }
{}

/// `get` of a table of words succeeds exactly for the indexes below the number of words.
pub fn words_read_below_count<E: EndianParse>(words: &ParsingTable<'_, E, u32>)
    ensures { ReadsBelowCount (table_view words.now) }
{
    let _ = words.len();
}

/// In a table that `SysVHashTable::new` or `GnuHashTable::new` made, the buckets and the chain words can be read exactly
/// below their counts, and in one of the latter each bloom word that the header counts can be read.
pub fn words_can_be_read(section: &[u8])
    ensures sysv { (little : Bool) (class : Class) (t : SysvTable) → sysv_section little class section.now ≡ Ok t →
        ReadsBelowCount t.buckets × ReadsBelowCount t.chains }
    ensures gnu { (little : Bool) (class : Class) (t : GnuTable) → gnu_section little class section.now ≡ Ok t →
        ReadsBelowCount t.buckets × ReadsBelowCount t.chains × ReadsBloom t }
{
    let _ = section.len();
}
