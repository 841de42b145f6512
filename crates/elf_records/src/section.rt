//! Section headers and tables of them (gABI, chapter "Sections").
ghost use Rattle.std.specs.Prelude.{◌≡◌, ◌+◌, OnOk, refl, true};
ghost use Rattle.elf_records.specs.Number.{ok_map};
ghost use Rattle.elf_records.specs.inner.Part.{back_fields, five, front_fields, part_at, part_end};
ghost use Rattle.elf_records.specs.inner.Running.{width_of};

use crate::endian::EndianParse;
use crate::file::Class;
use crate::parse::{ParseAt, ParseError, ParsingTable, parse_by_class};

/// A table of section headers.
pub type SectionHeaderTable<'data, E> = ParsingTable<'data, E, SectionHeader>;

/// The C structure of a section header in a 32-bit file.
#[derive(Debug, Drop)]
#[repr(C)]
pub struct Elf32_Shdr {
    pub sh_name: u32,
    pub sh_type: u32,
    pub sh_flags: u32,
    pub sh_addr: u32,
    pub sh_offset: u32,
    pub sh_size: u32,
    pub sh_link: u32,
    pub sh_info: u32,
    pub sh_addralign: u32,
    pub sh_entsize: u32,
}

/// The C structure of a section header in a 64-bit file.
#[derive(Debug, Drop)]
#[repr(C)]
pub struct Elf64_Shdr {
    pub sh_name: u32,
    pub sh_type: u32,
    pub sh_flags: u64,
    pub sh_addr: u64,
    pub sh_offset: u64,
    pub sh_size: u64,
    pub sh_link: u32,
    pub sh_info: u32,
    pub sh_addralign: u64,
    pub sh_entsize: u64,
}

/// A section header of either class. Offsets and sizes are in bytes. `sh_name` is an offset into the table of
/// section names.
#[derive(Copy, Clone, Debug, PartialEq, Eq)]
pub struct SectionHeader {
    pub sh_name: u32,
    pub sh_type: u32,
    pub sh_flags: u64,
    pub sh_addr: u64,
    pub sh_offset: u64,
    pub sh_size: u64,
    pub sh_link: u32,
    pub sh_info: u32,
    pub sh_addralign: u64,
    pub sh_entsize: u64,
}

impl ParseAt for SectionHeader {
    ghost use Rattle.elf_records.specs.Section.{section_header_reads};

    const SHAPE: (usize, usize, bool) = (40, 64, true);

    ghost SHAPE = { (40, 64, true) };

    ghost reads = { section_header_reads };

    ghost shape_law = { refl };

    #[inline(always)]
    fn parse_at<E: EndianParse>(
        endian: E,
        class: Class,
        offset: &mut usize,
        data: &[u8],
    ) -> Result<Self, ParseError> {
        let (sh_name, sh_type, sh_flags, sh_addr, sh_offset) = parse_front(
            endian, class, offset, data,
        )?;
        let (sh_size, sh_link, sh_info, sh_addralign, sh_entsize) = parse_back(
            endian, class, offset, data,
        )?;
        Ok(SectionHeader {
            sh_name,
            sh_type,
            sh_flags,
            sh_addr,
            sh_offset,
            sh_size,
            sh_link,
            sh_info,
            sh_addralign,
            sh_entsize,
        })
    }
}

// sh_name, sh_type, sh_flags, sh_addr and sh_offset.
#[tactic(auto, unfolding(crate::specs::inner::Part::part_at, crate::specs::inner::Part::part_end))]
#[inline(always)]
fn parse_front<E: EndianParse>(
    endian: E,
    class: Class,
    offset: &mut usize,
    data: &[u8],
) -> Result<(u32, u32, u64, u64, u64), ParseError>
    ensures value { ok_map five result ≡ part_at (E.little endian) (front_fields class) «data».now offset.old }
    ensures moved { offset.new ≡ part_end (E.little endian) (front_fields class) «data».now offset.old }
    ensures after { OnOk result (offset.new ≡ offset.old + width_of (front_fields class)) }
{
    let sh_name = endian.parse_u32_at(offset, data)?;
    let sh_type = endian.parse_u32_at(offset, data)?;
    let sh_flags = parse_by_class(endian, class, offset, data)?;
    let sh_addr = parse_by_class(endian, class, offset, data)?;
    let sh_offset = parse_by_class(endian, class, offset, data)?;
    Ok((sh_name, sh_type, sh_flags, sh_addr, sh_offset))
}

// sh_size, sh_link, sh_info, sh_addralign and sh_entsize.
#[tactic(auto, unfolding(crate::specs::inner::Part::part_at, crate::specs::inner::Part::part_end))]
#[inline(always)]
fn parse_back<E: EndianParse>(
    endian: E,
    class: Class,
    offset: &mut usize,
    data: &[u8],
) -> Result<(u64, u32, u32, u64, u64), ParseError>
    ensures value { ok_map five result ≡ part_at (E.little endian) (back_fields class) «data».now offset.old }
    ensures moved { offset.new ≡ part_end (E.little endian) (back_fields class) «data».now offset.old }
{
    let sh_size = parse_by_class(endian, class, offset, data)?;
    let sh_link = endian.parse_u32_at(offset, data)?;
    let sh_info = endian.parse_u32_at(offset, data)?;
    let sh_addralign = parse_by_class(endian, class, offset, data)?;
    let sh_entsize = parse_by_class(endian, class, offset, data)?;
    Ok((sh_size, sh_link, sh_info, sh_addralign, sh_entsize))
}
