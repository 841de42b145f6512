//! The sections of some types, each with its bytes.
ghost use Rattle.std.specs.Prelude.{◌≡◌, IfOk, map};
ghost use Rattle.elf_records.specs.Number.{ok_map};
ghost use Rattle.nugwier_report.specs.TypedSections.{left_after, sections_of, within};
ghost use Rattle.nugwier_report.specs.Whole.{file_of};
ghost use Rattle.nugwier_report.specs.inner.TypedSections.{section_view};

use crate::listed::ListedFile;
use crate::problem::{Fault, Stop};
use crate::reading;
use elf::endian::EndianParse;
use elf::section::SectionHeader;
use elf::{ParseError, abi};
use elf_dynamic::relr::SHT_RELR;
use std::alloc::Global;

/// The types of sections that have notes.
pub const NOTE_TYPES: [u32; 1] = [abi::SHT_NOTE];

/// The types of sections that are groups.
pub const GROUP_TYPES: [u32; 1] = [abi::SHT_GROUP];

/// The types of sections that have relocations.
pub const RELOCATION_TYPES: [u32; 3] = [abi::SHT_REL, abi::SHT_RELA, SHT_RELR];

/// The types of sections that define versions or need some.
pub const VERSION_TYPES: [u32; 2] = [abi::SHT_GNU_VERDEF, abi::SHT_GNU_VERNEED];

/// The types of hash sections.
pub const HASH_TYPES: [u32; 2] = [abi::SHT_HASH, abi::SHT_GNU_HASH];

/// The types of sections that have build attributes in files of any machine.
pub const ATTRIBUTE_TYPES: [u32; 1] = [abi::SHT_GNU_ATTRIBUTES];

/// The same in files of Arm, AArch64 and RISC-V, whose type has one number.
pub const MACHINE_ATTRIBUTE_TYPES: [u32; 2] = [abi::SHT_GNU_ATTRIBUTES, abi::SHT_ARM_ATTRIBUTES];

/// A section with its number, and its bytes or why they are not listed.
#[derive(Drop)]
pub struct TypedSection<'f> {
    pub number: u64,
    pub header: SectionHeader,
    pub bytes: Result<&'f [u8], Fault>,
}

/// Returns the sections of these types. Sections may share their bytes: no more bytes are listed than the file has.
pub fn sections_of<'f, E: EndianParse, R: ListedFile<E>>(
    alloc: Global,
    file: &'f R,
    types: &[u32],
) -> Result<Vec<TypedSection<'f>>, Stop>
    ensures { IfOk result (λ sections. map section_view sections.items
        ≡ sections_of (file_of (R.file file.now) (R.bytes file.now)) types.now) }
{
    let mut sections = Vec::new(alloc);
    let mut left = file.size();
    let mut number = 0;
    for header in file.section_list() {
        if types.contains(&header.sh_type) {
            let bytes = reading::content(file, header)?;
            let after = left_after(left, &bytes);
            sections.push(TypedSection {
                number,
                header: *header,
                bytes: within(left, bytes),
            })?;
            left = after;
        }
        number += 1;
    }
    Ok(sections)
}

/// Returns bytes, if no more than this number are left to list.
pub fn within<'f>(left: u64, bytes: Result<&'f [u8], ParseError>) -> Result<&'f [u8], Fault>
    ensures { ok_map (λ bytes. bytes.now) result ≡ within left (ok_map (λ bytes. bytes.now) bytes.entry) }
{
    match bytes {
        Ok(bytes) if left < bytes.len() as u64 => Err(Fault::Repeated),
        Ok(bytes) => Ok(bytes),
        Err(error) => Err(Fault::Read(error)),
    }
}

/// Returns how many may be listed after them.
pub fn left_after(left: u64, bytes: &Result<&[u8], ParseError>) -> u64
    ensures { result ≡ left_after left (ok_map (λ bytes. bytes.now) bytes.now) }
{
    match bytes {
        Ok(bytes) => left.saturating_sub(bytes.len() as u64),
        Err(_) => left,
    }
}
