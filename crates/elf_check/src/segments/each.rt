//! The check of each segment.
ghost use Rattle.std.specs.Prelude.{◌≡◌, ◌↔◌, ◌≤◌, IsTrue, MatchOption, Ok};
ghost use Rattle.std.specs.Option.{option_map};
ghost use Rattle.std.specs.Result.{IsOkAnd, result_ok};
ghost use Rattle.elf_abi.specs.Values.{sht_dynamic};
ghost use Rattle.elf.specs.ElfBytes.{view};
ghost use Rattle.elf.specs.Headers.{first_section_of};
ghost use Rattle.elf.specs.ObjectFile.{object_file};
ghost use Rattle.elf_check.specs.Notes.{IsNoNote};
ghost use Rattle.elf_check.specs.Segments.{EachSound, EndsWithNul, FitsMemory, HasAddresses, SoundPath};
ghost use Rattle.elf_check.specs.Segments.{SoundSegment, SoundSegmentNotes, has_no_bytes};
ghost use Rattle.elf_check.specs.Segments.{is_emptied, segment_bytes};
ghost use Rattle.elf_check.specs.SegmentsFaults.{IsTrueOfEach, IsTrueOfSegment};

use super::dynamic::{dynamic_fault, is_emptied};
use super::faults::{SegmentFault, SegmentsFault};
use crate::notes::first_no_note;
use elf::endian::EndianParse;
use elf::file::Class;
use elf::headers::Headers;
use elf::section::SectionHeader;
use elf::segment::{ProgramHeader, SegmentTable};
use elf::{ElfBytes, abi};

// Whether a segment has no bytes, wherever it begins.
fn has_no_bytes(phdr: &ProgramHeader) -> bool
    ensures { result ≡ has_no_bytes phdr.now }
{
    phdr.p_type == abi::PT_NULL || phdr.p_filesz == 0
}

// The bytes of a segment in the file.
#[tactic(auto, unfolding(crate::specs::Segments::segment_bytes))]
pub(super) fn segment_bytes<'data, E: EndianParse>(
    file: &ElfBytes<'data, E>,
    phdr: &ProgramHeader,
) -> Option<&'data [u8]>
    ensures { option_map (λ bytes. bytes.now) result
        ≡ result_ok (segment_bytes (object_file E.little (view file.now)) phdr.now) }
{
    if has_no_bytes(phdr) {
        return Some(&[]);
    }
    file.segment_data(phdr).ok()
}

// Whether there is memory for the bytes of the file.
fn fits_memory(phdr: &ProgramHeader) -> bool
    ensures { IsTrue result ↔ FitsMemory phdr.now }
{
    phdr.p_filesz <= phdr.p_memsz
}

// Whether each address of a segment is one of the class.
fn has_addresses(class: Class, phdr: &ProgramHeader) -> bool
    ensures { IsTrue result ↔ HasAddresses class phdr.now }
{
    let end = phdr.p_vaddr as u128 + phdr.p_memsz as u128;
    match class {
        Class::ELF32 => end <= 1 << 32,
        Class::ELF64 => end <= 1 << 64,
    }
}

// Whether there is a last byte, and it is 0.
fn ends_in_nul(bytes: &[u8]) -> bool
    ensures { IsTrue result ↔ EndsWithNul bytes.now }
{
    match bytes.last() {
        Some(last) => *last == 0,
        None => false,
    }
}

// Where the notes of a segment end, if they do not fill it.
fn notes_fault<E: EndianParse>(
    file: &ElfBytes<'_, E>,
    phdr: &ProgramHeader,
    bytes: &[u8],
) -> Option<usize>
    requires { segment_bytes (object_file E.little (view file.now)) phdr.now ≡ Ok bytes.now }
    ensures { let whole = object_file E.little (view file.now) in
        MatchOption result (SoundSegmentNotes whole phdr.now) (λ offset. (2 ≤ phdr.now.p_align)
        × IsOkAnd (segment_bytes whole phdr.now) (λ bytes. IsNoNote whole.little phdr.now.p_align bytes offset)) }
{
    if phdr.p_align < 2 {
        return None;
    }
    first_no_note(
        file.ehdr.endianness.is_little(),
        phdr.p_align as usize,
        bytes,
    )
}

// What a segment lacks, where the first section of type `SHT_DYNAMIC` is known.
pub(super) fn segment_fault<E: EndianParse>(
    file: &ElfBytes<'_, E>,
    section: &Option<SectionHeader>,
    phdr: &ProgramHeader,
) -> Option<SegmentFault>
    requires { first_section_of sht_dynamic (object_file E.little (view file.now)).sections ≡ section.now }
    ensures { let whole = object_file E.little (view file.now) in
        MatchOption result (SoundSegment whole phdr.now) (IsTrueOfSegment whole phdr.now) }
{
    let Some(bytes) = segment_bytes(file, phdr) else {
        return Some(SegmentFault::NoBytes);
    };
    match phdr.p_type {
        abi::PT_LOAD => {
            if !fits_memory(phdr) {
                Some(SegmentFault::FileSize)
            } else if !has_addresses(file.ehdr.class, phdr) {
                Some(SegmentFault::PastAddresses)
            } else {
                None
            }
        }
        abi::PT_TLS => {
            if fits_memory(phdr) {
                None
            } else {
                Some(SegmentFault::FileSize)
            }
        }
        abi::PT_INTERP => {
            if is_emptied(phdr) || ends_in_nul(bytes) {
                None
            } else {
                Some(SegmentFault::NoLastNul)
            }
        }
        abi::PT_NOTE => match notes_fault(file, phdr, bytes) {
            Some(offset) => Some(SegmentFault::NoNote { offset }),
            None => None,
        },
        abi::PT_DYNAMIC => dynamic_fault(file, section, phdr, bytes),
        _ => None,
    }
}
