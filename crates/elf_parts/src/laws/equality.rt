//! Laws of equality: `==` of two records holds exactly if all their fields are equal.
ghost use Rattle.std.specs.Prelude.{◌≡◌, ◌↔◌, IsTrue};

use crate::hash::{GnuHashHeader, SysVHashHeader};
pub use elf_records::laws::equality::equal_records;

/// Two headers of hash sections of one kind are equal exactly if all their fields are.
pub fn equal_hash_headers()
    ensures sysv { (a b : SysVHashHeader) → IsTrue (⟦<SysVHashHeader as PartialEq>⟧.eq a b) ↔ (a ≡ b) }
    ensures gnu { (a b : GnuHashHeader) → IsTrue (⟦<GnuHashHeader as PartialEq>⟧.eq a b) ↔ (a ≡ b) }
{}
