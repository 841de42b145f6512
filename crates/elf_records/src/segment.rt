//! Program headers (gABI, chapter "Program Header").
ghost use Rattle.std.specs.Prelude.{◌≡◌, ◌+◌, OnOk, refl, true};
ghost use Rattle.elf_records.specs.Number.{ok_map};
ghost use Rattle.elf_records.specs.inner.Part.{five, part_at, part_end};
ghost use Rattle.elf_records.specs.inner.Extent.{extent_fields};
ghost use Rattle.elf_records.specs.inner.Running.{width_of};

use crate::endian::EndianParse;
use crate::file::Class;
use crate::parse::{ParseAt, ParseError, ParsingTable, parse_by_class};

/// A table of program headers.
pub type SegmentTable<'data, E> = ParsingTable<'data, E, ProgramHeader>;

/// The C structure of a program header in a 32-bit file.
#[derive(Debug, Drop)]
#[repr(C)]
pub struct Elf32_Phdr {
    pub p_type: u32,
    pub p_offset: u32,
    pub p_vaddr: u32,
    pub p_paddr: u32,
    pub p_filesz: u32,
    pub p_memsz: u32,
    pub p_flags: u32,
    pub p_align: u32,
}

/// The C structure of a program header in a 64-bit file.
#[derive(Debug, Drop)]
#[repr(C)]
pub struct Elf64_Phdr {
    pub p_type: u32,
    pub p_flags: u32,
    pub p_offset: u64,
    pub p_vaddr: u64,
    pub p_paddr: u64,
    pub p_filesz: u64,
    pub p_memsz: u64,
    pub p_align: u64,
}

/// A program header of either class. Offsets and sizes are in bytes.
#[derive(Copy, Clone, Debug, PartialEq, Eq)]
pub struct ProgramHeader {
    pub p_type: u32,
    pub p_offset: u64,
    pub p_vaddr: u64,
    pub p_paddr: u64,
    pub p_filesz: u64,
    pub p_memsz: u64,
    pub p_flags: u32,
    pub p_align: u64,
}

impl ParseAt for ProgramHeader {
    ghost use Rattle.elf_records.specs.Segment.{program_header_reads};

    const SHAPE: (usize, usize, bool) = (32, 56, true);

    ghost SHAPE = { (32, 56, true) };

    ghost reads = { program_header_reads };

    ghost shape_law = { refl };

    #[tactic(auto, unfolding(crate::specs::Record::numbers_at, crate::specs::Record::numbers_end))]
    fn parse_at<E: EndianParse>(
        endian: E,
        class: Class,
        offset: &mut usize,
        data: &[u8],
    ) -> Result<Self, ParseError> {
        match class {
            Class::ELF32 => {
                let p_type = endian.parse_u32_at(offset, data)?;
                let (p_offset, p_vaddr, p_paddr, p_filesz, p_memsz) = parse_extent(
                    endian,
                    Class::ELF32,
                    offset,
                    data,
                )?;
                let p_flags = endian.parse_u32_at(offset, data)?;
                let p_align = endian.parse_u32_at(offset, data)? as u64;
                Ok(ProgramHeader {
                    p_type,
                    p_offset,
                    p_vaddr,
                    p_paddr,
                    p_filesz,
                    p_memsz,
                    p_flags,
                    p_align,
                })
            }
            Class::ELF64 => {
                let p_type = endian.parse_u32_at(offset, data)?;
                let p_flags = endian.parse_u32_at(offset, data)?;
                let (p_offset, p_vaddr, p_paddr, p_filesz, p_memsz) = parse_extent(
                    endian,
                    Class::ELF64,
                    offset,
                    data,
                )?;
                let p_align = endian.parse_u64_at(offset, data)?;
                Ok(ProgramHeader {
                    p_type,
                    p_offset,
                    p_vaddr,
                    p_paddr,
                    p_filesz,
                    p_memsz,
                    p_flags,
                    p_align,
                })
            }
        }
    }
}

// p_offset, p_vaddr, p_paddr, p_filesz and p_memsz.
#[tactic(auto, unfolding(crate::specs::inner::Part::part_at, crate::specs::inner::Part::part_end))]
fn parse_extent<E: EndianParse>(
    endian: E,
    class: Class,
    offset: &mut usize,
    data: &[u8],
) -> Result<(u64, u64, u64, u64, u64), ParseError>
    ensures value { ok_map five result ≡ part_at (E.little endian) (extent_fields class) «data».now offset.old }
    ensures moved { offset.new ≡ part_end (E.little endian) (extent_fields class) «data».now offset.old }
    ensures after { OnOk result (offset.new ≡ offset.old + width_of (extent_fields class)) }
{
    let p_offset = parse_by_class(endian, class, offset, data)?;
    let p_vaddr = parse_by_class(endian, class, offset, data)?;
    let p_paddr = parse_by_class(endian, class, offset, data)?;
    let p_filesz = parse_by_class(endian, class, offset, data)?;
    let p_memsz = parse_by_class(endian, class, offset, data)?;
    Ok((p_offset, p_vaddr, p_paddr, p_filesz, p_memsz))
}
