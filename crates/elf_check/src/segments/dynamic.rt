//! The check of dynamic entries.
ghost use Rattle.std.specs.Prelude.{◌≡◌, ◌↔◌, IfSome, IsTrue, MatchOption, Ok, true};
ghost use Rattle.elf_abi.specs.Values.{sht_dynamic};
ghost use Rattle.elf.specs.ElfBytes.{view};
ghost use Rattle.elf.specs.Headers.{first_section_of};
ghost use Rattle.elf.specs.ObjectFile.{object_file};
ghost use Rattle.elf_check.specs.Segments.{IsRangeOf, SoundDynamicSegment, is_emptied, segment_bytes};
ghost use Rattle.elf_check.specs.SegmentsFaults.{IsTrueOfDynamic};

use super::faults::SegmentFault;
use crate::dynamic::has_null;
use elf::ElfBytes;
use elf::dynamic::{Dyn, DynamicTable};
use elf::endian::EndianParse;
use elf::parse::ParseAt;
use elf::section::SectionHeader;
use elf::segment::ProgramHeader;

// Whether a segment is one of memory alone.
pub(super) fn is_emptied(phdr: &ProgramHeader) -> bool
    ensures { result ≡ is_emptied phdr.now }
{
    phdr.p_filesz == 0 && phdr.p_memsz > 0
}

// Whether the section, if there is one, has the bytes of a segment.
fn is_range_of(section: &Option<SectionHeader>, phdr: &ProgramHeader) -> bool
    ensures { IsTrue result ↔ IfSome section.now (λ s. IsRangeOf s phdr.now) }
{
    match section {
        Some(shdr) => shdr.sh_offset == phdr.p_offset && shdr.sh_size == phdr.p_filesz,
        None => true,
    }
}

// What a segment of dynamic entries lacks.
pub(super) fn dynamic_fault<E: EndianParse>(
    file: &ElfBytes<'_, E>,
    section: &Option<SectionHeader>,
    phdr: &ProgramHeader,
    bytes: &[u8],
) -> Option<SegmentFault>
    requires bytes { segment_bytes (object_file E.little (view file.now)) phdr.now ≡ Ok bytes.now }
    requires section { first_section_of sht_dynamic (object_file E.little (view file.now)).sections ≡ section.now }
    ensures { let whole = object_file E.little (view file.now) in
        MatchOption result (SoundDynamicSegment whole phdr.now) (IsTrueOfDynamic whole phdr.now) }
{
    if phdr.p_filesz % Dyn::size_for(file.ehdr.class) as u64 != 0 {
        return Some(SegmentFault::PartOfEntry);
    }
    if is_emptied(phdr) {
        return None;
    }
    let table = DynamicTable::<E>::new(file.ehdr.endianness, file.ehdr.class, bytes);
    if !has_null(&table) {
        return Some(SegmentFault::EntriesWithoutEnd);
    }
    if !is_range_of(section, phdr) {
        return Some(SegmentFault::OtherSection);
    }
    None
}
