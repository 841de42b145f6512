//! What linkers write is sound: so `check_sysv` and `check_gnu` accept it, and `find` finds every name that was put
//! in. A function without a body is a law: its contract is the statement.
ghost use Rattle.std.specs.Prelude.{◌≡◌, ◌+◌, ◌<◌, ◌≤◌, ◌^◌, ◌↔◌, [], Bool, IsSome, List, length, Ok, Option, true, ℕ};
ghost use Rattle.std.specs.List.{Contains};
ghost use Rattle.std.specs.Result.{IsOkAnd};
ghost use Rattle.elf_parts.specs.GnuFind.{GnuTable, gnu_section};
ghost use Rattle.elf_parts.specs.Structs.{gnu_header_struct};
ghost use Rattle.elf_parts.specs.SysvFind.{SysvTable, sysv_section};
ghost use Rattle.elf_records.specs.StringTable.{strings_view};
ghost use Rattle.elf_records.specs.Table.{Table, table_view};
ghost use Rattle.elf_parts.specs.Written.{Fits};
ghost use Rattle.elf_records.specs.declared.file.Class.{Class as AnyClass};
ghost use Rattle.elf_records.specs.declared.file.Class.TheVariants.{ELF32};
ghost use Rattle.elf_parts.specs.declared.hash.gnu.GnuHashHeader.{GnuHashHeader};
ghost use Rattle.elf_records.specs.declared.symbol.Symbol.{Symbol as AnySymbol};
ghost use Rattle.elf_hash_check.specs.Indexed.{IndexedSysv, IsFirstNamed, IsLeastNamed};
ghost use Rattle.elf_hash_check.specs.SoundGnu.{SoundGnu};
ghost use Rattle.elf_hash_check.specs.SoundSysv.{SoundSysv};
ghost use Rattle.elf_hash_check.specs.WithSymbols.{WithSymbols, with_symbols};
ghost use Rattle.elf_laws.specs.Built.{CanPutIn, CanWrite, IsBuiltGnu, IsBuiltSysv, gnu_hashes, name_in};
ghost use Rattle.elf_laws.specs.BuiltBytes.{gnu_section_bytes, sysv_section_bytes};
ghost use Rattle.elf_laws.specs.BuiltSections.{gnu_built_names, sysv_built_names, sysv_built_order};
ghost use Rattle.elf_laws.specs.Files.{in_four};
ghost use Rattle.elf_laws.specs.SoundSections.{gnu_bytes, gnu_with, sysv_bytes, sysv_with};

use elf::endian::EndianParse;
use elf::file::Class;
use elf::string_table::StringTable;
use elf::symbol::{Symbol, SymbolTable};
use elf_hash_check::hashcheck::{Checked, check_gnu, check_sysv};

/// A SysV section that was built for any symbols is sound, it indexes exactly those that were put in, and `find`,
/// whose contract is `IsFirstNamed`, finds the name of each.
pub fn built_sysv_section_is_sound()
    ensures sound { (names : List (List ℕ)) (put : List ℕ) (s : WithSymbols SysvTable) → IsBuiltSysv names put s →
        SoundSysv s }
    ensures indexed { (names : List (List ℕ)) (put : List ℕ) (s : WithSymbols SysvTable) → IsBuiltSysv names put s →
        (index : ℕ) → IndexedSysv s.table index ↔ Contains put index }
    ensures found { (names : List (List ℕ)) (put : List ℕ) (s : WithSymbols SysvTable) → IsBuiltSysv names put s →
        (index : ℕ) → Contains put index → (found : Option (ℕ × AnySymbol)) →
        IsFirstNamed s (name_in names index) found → IsSome found }
{}

/// The bytes that a linker writes for any symbols are a section that was built for them. Its numbers have to fit
/// into words.
pub fn built_sysv_bytes_are_sound()
    ensures { (little : Bool) (class : AnyClass) (nbucket : ℕ) (names : List (List ℕ)) (put : List ℕ) (symbols : Table)
        (strings : List ℕ) → nbucket < 2 ^ 32 → length names < 2 ^ 32 → CanPutIn nbucket names put symbols strings →
        let cut = sysv_section little class (sysv_section_bytes little nbucket names put) in
        IsOkAnd (with_symbols symbols strings cut) (λ s. IsBuiltSysv names put s × SoundSysv s) }
{}

/// A GNU section that was built for any symbols is sound, and `find`, whose contract is `IsLeastNamed`, finds each of
/// their names.
#[tactic(auto, using(crate::proofs::BuiltSound::gnu_sound, crate::proofs::BuiltSound::gnu_found))]
pub fn built_gnu_section_is_sound()
    ensures sound { (names : List (List ℕ)) (s : WithSymbols GnuTable) → IsBuiltGnu names s → SoundGnu s }
    ensures found { (names : List (List ℕ)) (s : WithSymbols GnuTable) → IsBuiltGnu names s →
        (k : ℕ) → k < length names → (found : Option (ℕ × AnySymbol)) →
        IsLeastNamed s (name_in names k) found → IsSome found }
{}

/// The bytes that a linker writes for any symbols are a section that was built for them. The numbers of its header and
/// the indexes of its symbols have to fit into words.
pub fn built_gnu_bytes_are_sound()
    ensures { (little : Bool) (class : AnyClass) (h : GnuHashHeader) (names : List (List ℕ)) (symbols : Table)
        (strings : List ℕ) → Fits (gnu_header_struct h) → h.table_start_idx + length names ≤ 2 ^ 32 →
        CanWrite h h.nbucket names symbols strings →
        let cut = gnu_section little class (gnu_section_bytes little class h (gnu_hashes names)) in
        IsOkAnd (with_symbols symbols strings cut) (λ s. IsBuiltGnu names s × SoundGnu s) }
{}

/// The small sound sections were built so, and their bytes are those that a linker writes.
#[tactic(auto, using(crate::proofs::BuiltKnown::small_built), unfolding(crate::proofs::KnownBytes::known_bytes))]
pub fn small_sections_are_built()
    ensures sysv { IsBuiltSysv sysv_built_names sysv_built_order (sysv_with 8 (in_four 0)) }
    ensures sysv_bytes { sysv_section_bytes true 2 sysv_built_names sysv_built_order ≡ sysv_bytes 4 (in_four 0) }
    ensures gnu { IsBuiltGnu gnu_built_names (gnu_with 3 5 0xc0 0x06 0x09) }
    ensures gnu_bytes { let header = (gnu_with 3 5 0xc0 0x06 0x09).table.hdr in
        gnu_section_bytes true ELF32 header (gnu_hashes gnu_built_names) ≡ gnu_bytes 5 0xc0 0x06 0x09 }
{}

/// The small sections with a fault were built for no symbols whatever.
pub fn faulty_sections_are_not_built()
    ensures endless { (names : List (List ℕ)) (put : List ℕ) → ¬ IsBuiltSysv names put (sysv_with 8 (in_four 1)) }
    ensures past_chains { (names : List (List ℕ)) (put : List ℕ) → ¬ IsBuiltSysv names put (sysv_with 8 []) }
    ensures sysv_unreadable { (names : List (List ℕ)) (put : List ℕ) →
        ¬ IsBuiltSysv names put (sysv_with 11 (in_four 0)) }
    ensures wrong_bucket { (names : List (List ℕ)) (put : List ℕ) →
        ¬ IsBuiltSysv names put (sysv_with 8 (in_four 2)) }
    ensures shift { (names : List (List ℕ)) → ¬ IsBuiltGnu names (gnu_with 3 32 0xc0 0x06 0x09) }
    ensures gnu_unreadable { (names : List (List ℕ)) → ¬ IsBuiltGnu names (gnu_with 8 5 0xc0 0x06 0x09) }
    ensures wrong_hash { (names : List (List ℕ)) → ¬ IsBuiltGnu names (gnu_with 3 5 0xc0 0x06 0x0b) }
    ensures no_bloom_bit { (names : List (List ℕ)) → ¬ IsBuiltGnu names (gnu_with 3 5 0x40 0x06 0x09) }
    ensures not_in_run { (names : List (List ℕ)) → ¬ IsBuiltGnu names (gnu_with 3 5 0xc0 0x07 0x09) }
{}

/// A look-up in a SysV section that a linker built: the checker accepts the section, and the name is found.
pub fn found_in_built_sysv<'data, E: EndianParse>(
    endian: E,
    class: Class,
    section: &'data [u8],
    symtab: SymbolTable<'data, E>,
    strtab: StringTable<'data>,
    name: &[u8],
) -> Option<(usize, Symbol)>
    ensures { (names : List (List ℕ)) (put : List ℕ) (s : WithSymbols SysvTable) (index : ℕ) →
        with_symbols (table_view symtab.entry) (strings_view strtab.entry)
        (sysv_section (E.little endian) class section.now) ≡ Ok s →
        IsBuiltSysv names put s → Contains put index → name_in names index ≡ name.now →
        IsSome result × IsFirstNamed s name.now result }
{
    match check_sysv(endian, class, section, symtab, strtab) {
        Ok(Checked::Sound(checked)) => checked.find(name),
        Ok(Checked::Faulty(_)) => None,
        Err(_) => None,
    }
}

/// A look-up in a GNU section that a linker built: the checker accepts the section, and the name is found.
pub fn found_in_built_gnu<'data, E: EndianParse>(
    endian: E,
    class: Class,
    section: &'data [u8],
    symtab: SymbolTable<'data, E>,
    strtab: StringTable<'data>,
    name: &[u8],
) -> Option<(usize, Symbol)>
    ensures { (names : List (List ℕ)) (s : WithSymbols GnuTable) (k : ℕ) →
        with_symbols (table_view symtab.entry) (strings_view strtab.entry)
        (gnu_section (E.little endian) class section.now) ≡ Ok s →
        IsBuiltGnu names s → k < length names → name_in names k ≡ name.now →
        IsSome result × IsLeastNamed s name.now result }
{
    match check_gnu(endian, class, section, symtab, strtab) {
        Ok(Checked::Sound(checked)) => checked.find(name),
        Ok(Checked::Faulty(_)) => None,
        Err(_) => None,
    }
}
