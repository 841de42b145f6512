//! Laws of the equality and the clones of the types of this crate, and of the names that a file needs: theorems for the
//! proofs of callers. Each is the contract of a function that computes nothing; a caller uses the law by calling it.
ghost use Rattle.std.specs.Prelude.{◌≡◌, ◌↔◌, IsTrue, ℕ, Bool, List};
ghost use Rattle.elf_records.specs.Clones.{ClonesExactly};
ghost use Rattle.elf.specs.ObjectFile.{ObjectFile};
ghost use Rattle.elf.specs.Parts.{ArePartOf, Ranges, all_ranges, loaded};
ghost use Rattle.elf_records.specs.declared.dynamic.Dyn.{Dyn};
ghost use Rattle.elf_linking.specs.Following.{LinksFollow};
ghost use Rattle.elf_linking.specs.Needed.{NamesFollow, names, strings_by};

use crate::bindings::Bound;
use crate::bindings::uses::SymbolUses;
use crate::needed::Name;
use crate::{BindingFault, ReferenceKind, Unreadable, Version, Wanted};

/// Two versions that cannot be read are equal exactly if their symbols are, and two faults of a look-up exactly if their
/// objects and their symbols are.
pub fn equal_faults()
    ensures unreadable { (a b : Unreadable) → IsTrue (⟦<Unreadable as PartialEq>⟧.eq a b) ↔ (a ≡ b) }
    ensures binding { (a b : BindingFault) → IsTrue (⟦<BindingFault as PartialEq>⟧.eq a b) ↔ (a ≡ b) }
{}

/// The clone of a result, or of what a reference requests, is the same value, and cloning it cannot fail.
pub fn clones()
    ensures version { ClonesExactly ⟦<Version<'static> as Clone>⟧.is_clone ⟦<Version<'static> as Clone>⟧.is_infallible }
    ensures wanted { ClonesExactly ⟦<Wanted<'static> as Clone>⟧.is_clone ⟦<Wanted<'static> as Clone>⟧.is_infallible }
    ensures kind { ClonesExactly ⟦<ReferenceKind as Clone>⟧.is_clone ⟦<ReferenceKind as Clone>⟧.is_infallible }
    ensures unreadable { ClonesExactly ⟦<Unreadable as Clone>⟧.is_clone ⟦<Unreadable as Clone>⟧.is_infallible }
    ensures fault { ClonesExactly ⟦<BindingFault as Clone>⟧.is_clone ⟦<BindingFault as Clone>⟧.is_infallible }
    ensures name { ClonesExactly ⟦<Name as Clone>⟧.is_clone ⟦<Name as Clone>⟧.is_infallible }
    ensures bound { ClonesExactly ⟦<Bound as Clone>⟧.is_clone ⟦<Bound as Clone>⟧.is_infallible }
    ensures uses { ClonesExactly ⟦<SymbolUses as Clone>⟧.is_clone ⟦<SymbolUses as Clone>⟧.is_infallible }
{}

/// States that what look-ups use of a partly loaded file is what they use of the whole file, or that a range is missing.
pub fn part_links_as_whole()
    ensures { (whole : ObjectFile) (range : Ranges) (is_missing : ℕ × ℕ → Bool) → ArePartOf whole is_missing range
        → LinksFollow is_missing whole (loaded whole range) }
{}

/// States that the names of a partly loaded file are those of the whole file, or that a range is
/// missing; and that if all ranges are loaded, as they are of an `ElfBytes`, its names and its strings are those of the
/// file, with the same errors.
pub fn part_names_as_whole()
    ensures part { (whole : ObjectFile) (range : Ranges) (is_missing : ℕ × ℕ → Bool) → ArePartOf whole is_missing range
        → NamesFollow is_missing (names whole) (names (loaded whole range)) }
    ensures names { (whole : ObjectFile) → names (loaded whole (all_ranges whole)) ≡ names whole }
    ensures strings { (whole : ObjectFile) (entries : List Dyn)
        → strings_by (loaded whole (all_ranges whole)) entries ≡ strings_by whole entries }
{}
