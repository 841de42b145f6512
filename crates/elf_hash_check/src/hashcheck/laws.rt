//! Laws of sound sections, and of the equality, clones and defaults of the types of this module: theorems for the
//! proofs of callers. Each is the contract of a function that computes nothing; a caller uses the law by calling it.
ghost use Rattle.std.specs.Option.{IsSomeAnd};
ghost use Rattle.std.specs.Prelude.{◌≡◌, ◌↔◌, ◌<◌, ◌≤◌, Bool, IsTrue, List, ℕ, Ok, Some};
ghost use Rattle.std.specs.Result.{IsOkAnd};
ghost use Rattle.elf_records.specs.Clones.{ClonesExactly};
ghost use Rattle.elf_parts.specs.GnuFind.{GnuTable, gnu_find, gnu_section};
ghost use Rattle.elf_parts.specs.Hash.{word_count};
ghost use Rattle.elf_parts.specs.SysvFind.{SysvTable, sysv_find, sysv_section};
ghost use Rattle.elf_records.specs.declared.file.Class.{Class};
ghost use Rattle.elf_hash_check.specs.Faults.{IsTrueOfSysv};
ghost use Rattle.elf_hash_check.specs.Indexed.{IsFirstNamed, IsLeastNamed};
ghost use Rattle.elf_hash_check.specs.Object.{IsFirstOfObject, Object};
ghost use Rattle.elf_hash_check.specs.Reads.{IsCountAt, read_count};
ghost use Rattle.elf_hash_check.specs.SoundGnu.{SoundGnu};
ghost use Rattle.elf_hash_check.specs.SoundSysv.{Belongs, SoundSysv, value};
ghost use Rattle.elf_hash_check.specs.WithSymbols.{WithSymbols};
ghost use Rattle.elf_hash_check.specs.declared.hashcheck.HashFault.{HashFault};
ghost use Rattle.elf_hash_check.specs.declared.hashcheck.reads.Reads.{Reads};

use crate::hashcheck::{HashFault, HashKind, Reads};
use elf_parts::laws::find::words_can_be_read;

/// On a sound GNU section `GnuHashTable::find`, with `hdr` as `new` left it, returns no error. It returns the least
/// index with the name, or `None` exactly if no indexed symbol has it.
pub fn gnu_find_on_sound(section: &[u8])
    ensures { (little : Bool) (class : Class) (s : WithSymbols GnuTable) (name : List ℕ) →
        gnu_section little class section.now ≡ Ok s.table → SoundGnu s →
        IsOkAnd (gnu_find s.table s.symbols s.strings name) (IsLeastNamed s name) }
{
    words_can_be_read(section);
}

/// On a sound SysV section `SysVHashTable::find` returns no error. It returns the first index with the name along
/// its chain, or `None` exactly if no indexed symbol has it.
pub fn sysv_find_on_sound(section: &[u8])
    ensures { (little : Bool) (class : Class) (s : WithSymbols SysvTable) (name : List ℕ) →
        sysv_section little class section.now ≡ Ok s.table → SoundSysv s →
        IsOkAnd (sysv_find s.table s.symbols s.strings name) (IsFirstNamed s name) }
{
    words_can_be_read(section);
}

/// A SysV section is sound exactly if the chain of each bucket has a 0, after at most as many indexes as there are
/// chain words, and each index before that 0 belongs to the bucket.
pub fn sound_sysv_needs_some_end()
    ensures { (s : WithSymbols SysvTable) → SoundSysv s ↔ ((bucket : ℕ) → bucket < word_count s.table.buckets →
        (j : ℕ) × (j ≤ word_count s.table.chains) × (value s.table bucket j ≡ Some 0)
        × ((i : ℕ) → i < j → IsSomeAnd (value s.table bucket i) (Belongs s bucket))) }
{}

/// At a fault that is true of a SysV section the count of symbols read is determined by the section, the fault and the
/// count before the check.
pub fn one_count_at_a_sysv_fault()
    ensures { (s : WithSymbols SysvTable) (fault : HashFault) (old one other : ℕ) → IsTrueOfSysv s fault →
        IsCountAt s fault old one → IsCountAt s fault old other → one ≡ other }
{}

/// A section has at most one first fault: two that come first are equal.
pub fn one_first_fault()
    ensures { (object : Object) (one other : HashFault) → IsFirstOfObject object one → IsFirstOfObject object other →
        one ≡ other }
{}

/// Two faults are equal exactly if they are the same fault with the same bucket and index, two kinds of hash sections if
/// they are the same kind, and two counts of reads if their numbers are.
pub fn equal_values()
    ensures fault { (a b : HashFault) → IsTrue (⟦<HashFault as PartialEq>⟧.eq a b) ↔ (a ≡ b) }
    ensures kind { (a b : HashKind) → IsTrue (⟦<HashKind as PartialEq>⟧.eq a b) ↔ (a ≡ b) }
    ensures reads { (a b : Reads) → IsTrue (⟦<Reads as PartialEq>⟧.eq a b) ↔ (read_count a ≡ read_count b) }
{}

/// The default count of reads is 0.
pub fn default_reads()
    ensures { (r : Reads) → ⟦<Reads as Default>⟧.is_default r → read_count r ≡ 0 }
{}

/// The clone of a fault, of a kind of hash section or of a count of reads is the same value, and cloning it cannot
/// fail.
pub fn clones()
    ensures fault { ClonesExactly ⟦<HashFault as Clone>⟧.is_clone ⟦<HashFault as Clone>⟧.is_infallible }
    ensures kind { ClonesExactly ⟦<HashKind as Clone>⟧.is_clone ⟦<HashKind as Clone>⟧.is_infallible }
    ensures reads { ClonesExactly ⟦<Reads as Clone>⟧.is_clone ⟦<Reads as Clone>⟧.is_infallible }
{}
