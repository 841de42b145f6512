//! The check of a file.
ghost use Rattle.elf.specs.ElfBytes.{view};
ghost use Rattle.elf.specs.ObjectFile.{object_file};
ghost use Rattle.elf_check.specs.Verdict.{IsVerdict};
ghost use Rattle.elf_check.specs.Whole.{whole_view};

use super::WholeFile;
use crate::checking::fault_walk;
use crate::faults::{FileFault, FileVerdict};
use crate::sections::section_count;
use elf::ElfBytes;
use elf::endian::EndianParse;
use elf::gnu_symver::{Needed, VerDefIterator};
use elf::readers::sections_are_listed;

/// Checks whether a file is sound: whether what its headers declare can be read. Allocates nothing.
///
/// A fault is the first one in this order: the names of the sections; a type that one section may have, and two have;
/// the sections in order, of each its name, its bytes, compression, and its content; the needs, the definitions and the
/// indexes of versions; the segments, in the order of `segments_fault`.
///
/// The version of each symbol is looked up by a walk over the needs and the definitions. `check_file_in` takes no such
/// walks.
pub fn check_file<'a, 'data, E: EndianParse>(
    file: &'a ElfBytes<'data, E>,
) -> FileVerdict<WholeFile<'a, 'data, E>>
    ensures { IsVerdict (whole_view E.little) (object_file E.little (view file.now)) result }
{
    check_file_in(file, &mut [], &mut [])
}

/// Checks what `check_file` does. Two slices that the caller provides hold what `PlacedVersions` puts there, so that
/// the version of a symbol is looked up without a walk if its version index has a place; with 32,768 places in each
/// slice every one has. The time then grows with the size of the file and with the names that are read to their ends:
/// those of the symbols of hash sections, and those of needs, definitions and their versions. The earlier content of
/// the places is ignored.
pub fn check_file_in<'a, 'data, E: EndianParse>(
    file: &'a ElfBytes<'data, E>,
    needed: &mut [Option<Needed>],
    defined: &mut [Option<VerDefIterator<'data, E>>],
) -> FileVerdict<WholeFile<'a, 'data, E>>
    ensures { IsVerdict (whole_view E.little) (object_file E.little (view file.now)) result }
{
    let Ok((_, names)) = file.section_headers_with_strtab() else {
        return FileVerdict::Faulty(FileFault::NoNames);
    };
    sections_are_listed(file);
    match fault_walk(file).next_fault(needed, defined) {
        Some(fault) => FileVerdict::Faulty(fault),
        None => FileVerdict::Sound(WholeFile {
            file,
            names,
            sections: section_count(file),
        }),
    }
}
