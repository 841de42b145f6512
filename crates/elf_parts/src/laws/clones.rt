//! Laws of clones: the clone of a value is the same value, and cloning it cannot fail.
ghost use Rattle.elf_records.specs.Clones.{ClonesExactly};

use crate::endian::EndianParse;
use crate::gnu_symver::{Needed, VerDefIterator, VerNeedIterator};
use crate::hash::{GnuHashHeader, SysVHashHeader};
use crate::note::{NoteGnuAbiTag, NoteGnuBuildId};
pub use elf_records::laws::clones::clones_of_records;

/// The clone of the header of a hash section, a needed version, an ABI tag, a build id or a version iterator that can be
/// cloned is the same value, so an iterator continues at the same place, and cloning it cannot fail.
pub fn clones_of_parts<E: EndianParse>()
    ensures sysv { ClonesExactly ⟦<SysVHashHeader as Clone>⟧.is_clone ⟦<SysVHashHeader as Clone>⟧.is_infallible }
    ensures gnu { ClonesExactly ⟦<GnuHashHeader as Clone>⟧.is_clone ⟦<GnuHashHeader as Clone>⟧.is_infallible }
    ensures needed { ClonesExactly ⟦<Needed as Clone>⟧.is_clone ⟦<Needed as Clone>⟧.is_infallible }
    ensures abi_tag { ClonesExactly ⟦<NoteGnuAbiTag as Clone>⟧.is_clone ⟦<NoteGnuAbiTag as Clone>⟧.is_infallible }
    ensures build_id { ClonesExactly
        ⟦<NoteGnuBuildId<'static> as Clone>⟧.is_clone ⟦<NoteGnuBuildId<'static> as Clone>⟧.is_infallible }
    ensures needs { ClonesExactly
        ⟦<VerNeedIterator<'static, E> as Clone>⟧.is_clone ⟦<VerNeedIterator<'static, E> as Clone>⟧.is_infallible }
    ensures definitions { ClonesExactly
        ⟦<VerDefIterator<'static, E> as Clone>⟧.is_clone ⟦<VerDefIterator<'static, E> as Clone>⟧.is_infallible }
{}
