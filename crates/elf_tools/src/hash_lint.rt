//! Whether a hash section of a file is sound for the dynamic symbols, or its first fault.
ghost use Rattle.elf.specs.ObjectFile.{object_file};
ghost use Rattle.elf.specs.ElfBytes.{view};
ghost use Rattle.elf_linking.specs.ObjectTable.{section_object};
ghost use Rattle.elf_tools.specs.HashLint.{GivesLint, IsLint, hash_object};

use elf::endian::EndianParse;
use elf::section::SectionHeader;
use elf::{ElfBytes, abi};
use elf_hash_check::hashcheck::HashKind;
use elf_linking::resolve::{ObjectFault, section_table};

fn kind_lint<E: EndianParse>(
    file: &ElfBytes<'_, E>,
    kind: HashKind,
    section: &SectionHeader,
) -> Result<usize, ObjectFault>
    ensures { IsLint (section_object kind (object_file E.little (view file.now)) section.now) result }
{
    let table = section_table(file, kind, section)?;
    Ok(table.indexed())
}

/// Checks a hash section over the dynamic symbols of its file. Returns the number of symbols that it indexes, or `None`
/// if the section is neither of type `SHT_GNU_HASH` nor of type `SHT_HASH`.
///
/// Errors, in order: `Read` if the bytes of the section cannot be read; `Read` if the dynamic symbols cannot be read;
/// `NoSymbols` if there are none; `Read` if `new` of the table returns an error; `Faulty` with the first fault of the
/// section.
///
/// ```rust
/// if let Some(section) = file.section_header_by_name(".gnu.hash")?
///     && let Some(verdict) = lint(&file, &section)
/// {
///     println!(rt; "sound, {} indexed symbols", verdict?)?;
/// }
/// ```
pub fn lint<E: EndianParse>(
    file: &ElfBytes<'_, E>,
    section: &SectionHeader,
) -> Option<Result<usize, ObjectFault>>
    ensures { GivesLint (hash_object (object_file E.little (view file.now)) section.now) result }
{
    match section.sh_type {
        abi::SHT_GNU_HASH => Some(kind_lint(file, HashKind::Gnu, section)),
        abi::SHT_HASH => Some(kind_lint(file, HashKind::Sysv, section)),
        _ => None,
    }
}
