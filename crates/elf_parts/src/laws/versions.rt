//! Laws of linked records and of the versions of symbols.
ghost use Rattle.std.specs.Prelude.{◌≡◌, ◌↔◌, ◌≤◌, ◌+◌, if◌then◌else◌, length, IsTrue, refl};
ghost use Rattle.elf_abi.specs.Values.{ver_ndx_hidden};
ghost use Rattle.elf_parts.specs.Link.{AreLongest};
ghost use Rattle.elf_parts.specs.gnu_symver.Links.{links_in, next_start};
ghost use Rattle.elf_parts.specs.gnu_symver.Lists.{ver_def_aux_records, ver_need_aux_records};
ghost use Rattle.elf_parts.specs.gnu_symver.Records.{version_index, version_is_hidden};
ghost use Rattle.elf_records.specs.Table.{table_in};

use crate::endian::EndianParse;
use crate::file::Class;
use crate::gnu_symver::links::Linked;
use crate::gnu_symver::{SymbolRequirement, VerDef, VerDefAux, VerNeed, VerNeedAux, VersionIndex};
use crate::laws::tables::PlainRecord;

/// The records that a version iterator yields are the longest list of linked records, and there are at most as many
/// as the data have bytes.
pub fn linked_records_are_the_longest_list<E: EndianParse, R: Linked>(
    endian: E,
    class: Class,
    count: u64,
    start: usize,
    data: &[u8],
)
    ensures longest { AreLongest (R.reads.record_at (E.little endian) class «data».now)
        (λ o x. next_start o (R.next_distance x)) count start
        (links_in R.reads.record_at R.next_distance (table_in (E.little endian) class «data».now) count start) }
    ensures few { let t = table_in (E.little endian) class «data».now in
        length (links_in R.reads.record_at R.next_distance t count start) ≤ length «data».now }
{}

/// There are at most `count` versions of a need, and at most `count` names of a definition.
#[tactic(auto, using(crate::proofs::LinkedRecords::map_bounds, crate::proofs::LinkedRecords::count_bounds))]
pub fn aux_records_are_few<E: EndianParse>(
    endian: E,
    class: Class,
    count: u16,
    start: usize,
    data: &[u8],
)
    ensures needs { let t = table_in (E.little endian) class «data».now in
        length (ver_need_aux_records t count start) ≤ count }
    ensures definitions { let t = table_in (E.little endian) class «data».now in
        length (ver_def_aux_records t count start) ≤ count }
{}

/// The number in a `VersionIndex` is its index, plus 0x8000 if it is hidden.
pub fn index_and_hidden_bit(version: VersionIndex)
    ensures { version.0 ≡ version_index version + (if version_is_hidden version then ver_ndx_hidden else 0) }
{}

impl PlainRecord for VerNeedAux {
    ghost use Rattle.elf_records.specs.inner.RecordLaws.{wherever_by};
    ghost use Rattle.elf_parts.specs.gnu_symver.Records.{ver_need_aux_layout};

    ghost wherever = { wherever_by ver_need_aux_layout refl };
}

impl PlainRecord for VerDefAux {
    ghost use Rattle.elf_records.specs.inner.RecordLaws.{wherever_by};
    ghost use Rattle.elf_parts.specs.gnu_symver.Records.{ver_def_aux_layout};

    ghost wherever = { wherever_by ver_def_aux_layout refl };
}

impl PlainRecord for VersionIndex {
    ghost use Rattle.elf_records.specs.inner.RecordLaws.{wherever_by};
    ghost use Rattle.elf_parts.specs.gnu_symver.Records.{version_index_layout};

    ghost wherever = { wherever_by version_index_layout refl };
}

/// Two needs, needed versions, definitions, names of definitions or version indexes are equal exactly if all their
/// fields are. Two requirements are equal exactly if their names have the same bytes and all their other fields are
/// equal.
pub fn equal_versions()
    ensures needs { (a b : VerNeed) → IsTrue (⟦<VerNeed as PartialEq>⟧.eq a b) ↔ (a ≡ b) }
    ensures need_auxs { (a b : VerNeedAux) → IsTrue (⟦<VerNeedAux as PartialEq>⟧.eq a b) ↔ (a ≡ b) }
    ensures definitions { (a b : VerDef) → IsTrue (⟦<VerDef as PartialEq>⟧.eq a b) ↔ (a ≡ b) }
    ensures def_auxs { (a b : VerDefAux) → IsTrue (⟦<VerDefAux as PartialEq>⟧.eq a b) ↔ (a ≡ b) }
    ensures indexes { (a b : VersionIndex) → IsTrue (⟦<VersionIndex as PartialEq>⟧.eq a b) ↔ (a ≡ b) }
    ensures requirements { (a b : SymbolRequirement) → IsTrue (⟦<SymbolRequirement<'static> as PartialEq>⟧.eq a b)
        ↔ ((a.file.now ≡ b.file.now) × (a.name.now ≡ b.name.now) × (a.hash ≡ b.hash)
        × (a.flags ≡ b.flags) × (a.hidden ≡ b.hidden)) }
{}
