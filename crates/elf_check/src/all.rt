//! All faults of a file.
ghost use Rattle.std.specs.Prelude.{IfOk};
ghost use Rattle.elf.specs.ElfBytes.{view};
ghost use Rattle.elf.specs.ObjectFile.{object_file};
ghost use Rattle.elf_check.specs.AllFaults.{AreAllFaults};

use crate::checking::fault_walk;
use crate::faults::FileFault;
use elf::ElfBytes;
use elf::endian::EndianParse;
use elf::gnu_symver::{Needed, VerDefIterator};
use std::alloc::{AllocError, Global};

/// Returns all faults of a file, in the order in which `check_file` looks for them: none exactly if the file is sound.
/// The only error is a failed allocation.
///
/// The faults are the first ones of each of these that is not sound: the names of the sections; each type that one
/// section may have; each section; the needs, the definitions and the indexes of versions; each type that one segment
/// may have; `PT_PHDR`, which has to come before the loaded segments; each segment; the order of the loaded segments.
/// If the names of the sections cannot be read, they are not checked, but the rest of each section is. The version
/// indexes are looked up only if the needs and the definitions are sound, since otherwise the versions are not known.
///
/// The version of each symbol is looked up by a walk over the needs and the definitions. `all_faults_in` takes no such
/// walks.
pub fn all_faults<E: EndianParse>(
    alloc: Global,
    file: &ElfBytes<'_, E>,
) -> Result<Vec<FileFault>, AllocError>
    ensures { IfOk result (λ faults. AreAllFaults (object_file E.little (view file.now)) faults.items) }
{
    all_faults_in(alloc, file, &mut [], &mut [])
}

/// Returns what `all_faults` does. Two slices that the caller provides hold places for versions, as in `check_file_in`,
/// and the time grows with the same as there.
pub fn all_faults_in<'data, E: EndianParse>(
    alloc: Global,
    file: &ElfBytes<'data, E>,
    needed: &mut [Option<Needed>],
    defined: &mut [Option<VerDefIterator<'data, E>>],
) -> Result<Vec<FileFault>, AllocError>
    ensures { IfOk result (λ faults. AreAllFaults (object_file E.little (view file.now)) faults.items) }
{
    let mut walk = fault_walk(file);
    let mut faults = Vec::new(alloc);
    while let Some(fault) = walk.next_fault(needed, defined) {
        faults.push(fault)?;
    }
    Ok(faults)
}
