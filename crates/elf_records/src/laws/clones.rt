//! Laws of clones: the clone of a value is the same value, and cloning it cannot fail.
ghost use Rattle.elf_records.specs.Clones.{ClonesExactly};

use crate::compression::CompressionHeader;
use crate::dynamic::Dyn;
use crate::endian::{AnyEndian, BigEndian, EndianParse, LittleEndian};
use crate::file::{Class, FileHeader};
use crate::parse::{ParseAt, ParsingTable};
use crate::relocation::{Rel, Rela};
use crate::section::SectionHeader;
use crate::segment::ProgramHeader;
use crate::string_table::StringTable;
use crate::symbol::Symbol;

/// The clone of a value of each of these types is the same value, and cloning it cannot fail.
pub fn clones_of_records<E: EndianParse, P: ParseAt>()
    ensures class { ClonesExactly ⟦<Class as Clone>⟧.is_clone ⟦<Class as Clone>⟧.is_infallible }
    ensures either { ClonesExactly ⟦<AnyEndian as Clone>⟧.is_clone ⟦<AnyEndian as Clone>⟧.is_infallible }
    ensures little { ClonesExactly ⟦<LittleEndian as Clone>⟧.is_clone ⟦<LittleEndian as Clone>⟧.is_infallible }
    ensures big { ClonesExactly ⟦<BigEndian as Clone>⟧.is_clone ⟦<BigEndian as Clone>⟧.is_infallible }
    ensures file { ClonesExactly ⟦<FileHeader<E> as Clone>⟧.is_clone ⟦<FileHeader<E> as Clone>⟧.is_infallible }
    ensures section { ClonesExactly ⟦<SectionHeader as Clone>⟧.is_clone ⟦<SectionHeader as Clone>⟧.is_infallible }
    ensures program { ClonesExactly ⟦<ProgramHeader as Clone>⟧.is_clone ⟦<ProgramHeader as Clone>⟧.is_infallible }
    ensures compression { ClonesExactly
        ⟦<CompressionHeader as Clone>⟧.is_clone ⟦<CompressionHeader as Clone>⟧.is_infallible }
    ensures symbol { ClonesExactly ⟦<Symbol as Clone>⟧.is_clone ⟦<Symbol as Clone>⟧.is_infallible }
    ensures rel { ClonesExactly ⟦<Rel as Clone>⟧.is_clone ⟦<Rel as Clone>⟧.is_infallible }
    ensures rela { ClonesExactly ⟦<Rela as Clone>⟧.is_clone ⟦<Rela as Clone>⟧.is_infallible }
    ensures entry { ClonesExactly ⟦<Dyn as Clone>⟧.is_clone ⟦<Dyn as Clone>⟧.is_infallible }
    ensures strings { ClonesExactly
        ⟦<StringTable<'static> as Clone>⟧.is_clone ⟦<StringTable<'static> as Clone>⟧.is_infallible }
    ensures tables { ClonesExactly
        ⟦<ParsingTable<'static, E, P> as Clone>⟧.is_clone ⟦<ParsingTable<'static, E, P> as Clone>⟧.is_infallible }
{}
