//! Laws of equality: `==` of two records holds exactly if all their fields are equal.
ghost use Rattle.std.specs.Prelude.{◌≡◌, ◌↔◌, IsTrue};
ghost use Rattle.elf_records.specs.Equality.{EqualExactly};

use crate::compression::CompressionHeader;
use crate::dynamic::Dyn;
use crate::endian::{AnyEndian, BigEndian, EndianParse, LittleEndian};
use crate::file::{Class, FileHeader};
use crate::relocation::{Rel, Rela};
use crate::section::SectionHeader;
use crate::segment::ProgramHeader;
use crate::symbol::Symbol;

/// Two values of one of these types are equal exactly if all their fields are, and two file headers if the type of byte
/// orders says that their orders are equal and all their other fields are. All values of `LittleEndian` are equal, and so
/// are those of `BigEndian`.
pub fn equal_records<E: EndianParse>(a: &FileHeader<E>, b: &FileHeader<E>)
    ensures file { IsTrue (⟦<FileHeader<E> as PartialEq>⟧.eq a.now b.now)
        ↔ (IsTrue (E.eq a.now.endianness b.now.endianness) × (record a.now { endianness = b.now.endianness } ≡ b.now)) }
    ensures section { EqualExactly ⟦<SectionHeader as PartialEq>⟧.eq }
    ensures program { EqualExactly ⟦<ProgramHeader as PartialEq>⟧.eq }
    ensures compression { EqualExactly ⟦<CompressionHeader as PartialEq>⟧.eq }
    ensures symbol { EqualExactly ⟦<Symbol as PartialEq>⟧.eq }
    ensures rel { EqualExactly ⟦<Rel as PartialEq>⟧.eq }
    ensures rela { EqualExactly ⟦<Rela as PartialEq>⟧.eq }
    ensures entry { EqualExactly ⟦<Dyn as PartialEq>⟧.eq }
    ensures class { EqualExactly ⟦<Class as PartialEq>⟧.eq }
    ensures either { EqualExactly ⟦<AnyEndian as PartialEq>⟧.eq }
    ensures little { (x y : LittleEndian) → IsTrue (⟦<LittleEndian as PartialEq>⟧.eq x y) }
    ensures big { (x y : BigEndian) → IsTrue (⟦<BigEndian as PartialEq>⟧.eq x y) }
{}
