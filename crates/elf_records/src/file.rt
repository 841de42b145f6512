//! The file header (gABI, chapter "ELF Header").
ghost use Rattle.std.specs.Prelude.{◌≡◌, ◌+◌, OnOk, ⊤};
ghost use Rattle.elf_records.specs.Number.{ok_map};
ghost use Rattle.elf_records.specs.inner.Part.{count_fields, kind_fields, part_at, place_fields, seven, three};
ghost use Rattle.elf_records.specs.inner.Running.{width_of};
ghost use Rattle.elf_records.specs.File.{byte_in, class_of, header_with_tail, ident_of, magic_in, version_in};

use crate::endian::EndianParse;
use crate::parse::{ParseError, parse_by_class};
use elf_abi::abi;
use std::alloc::AllocError;

/// Whether the addresses and offsets of a file have 32 or 64 bits.
#[derive(Debug, Copy, Clone, PartialEq, Eq)]
pub enum Class {
    ELF32,
    ELF64,
}

/// The C structure of a file header in a 32-bit file.
#[derive(Debug, Drop)]
#[repr(C)]
pub struct Elf32_Ehdr {
    pub e_ident: [u8; abi::EI_NIDENT],
    pub e_type: u16,
    pub e_machine: u16,
    pub e_version: u32,
    pub e_entry: u32,
    pub e_phoff: u32,
    pub e_shoff: u32,
    pub e_flags: u32,
    pub e_ehsize: u16,
    pub e_phentsize: u16,
    pub e_phnum: u16,
    pub e_shentsize: u16,
    pub e_shnum: u16,
    pub e_shstrndx: u16,
}

/// The C structure of a file header in a 64-bit file.
#[derive(Debug, Drop)]
#[repr(C)]
pub struct Elf64_Ehdr {
    pub e_ident: [u8; abi::EI_NIDENT],
    pub e_type: u16,
    pub e_machine: u16,
    pub e_version: u32,
    pub e_entry: u64,
    pub e_phoff: u64,
    pub e_shoff: u64,
    pub e_flags: u32,
    pub e_ehsize: u16,
    pub e_phentsize: u16,
    pub e_phnum: u16,
    pub e_shentsize: u16,
    pub e_shnum: u16,
    pub e_shstrndx: u16,
}

/// A file header of either class. Offsets and sizes are in bytes, counts are in entries.
#[derive(Copy, Debug, PartialEq, Eq)]
pub struct FileHeader<E: EndianParse> {
    pub class: Class,
    /// The byte order of the file's numbers.
    pub endianness: E,
    pub version: u32,
    pub osabi: u8,
    pub abiversion: u8,
    pub e_type: u16,
    pub e_machine: u16,
    pub e_entry: u64,
    pub e_phoff: u64,
    pub e_shoff: u64,
    pub e_flags: u32,
    pub e_ehsize: u16,
    pub e_phentsize: u16,
    pub e_phnum: u16,
    pub e_shentsize: u16,
    pub e_shnum: u16,
    pub e_shstrndx: u16,
}

/// The size of the tail of a 32-bit file header in bytes: all but the identification.
pub const ELF32_EHDR_TAILSIZE: usize = 36;

/// The size of the tail of a 64-bit file header in bytes: all but the identification.
pub const ELF64_EHDR_TAILSIZE: usize = 48;

// A byte of the identification.
fn ident_byte(data: &[u8], place: usize) -> Result<u8, ParseError>
    ensures { result ≡ byte_in «data».now place }
{
    data.get(place)
        .copied()
        .ok_or(ParseError::SliceReadError((0, abi::EI_NIDENT)))
}

fn verify_magic(data: &[u8]) -> Result<(), ParseError>
    ensures { result ≡ magic_in «data».now }
{
    let magic = [
        ident_byte(data, abi::EI_MAG0)?,
        ident_byte(data, abi::EI_MAG1)?,
        ident_byte(data, abi::EI_MAG2)?,
        ident_byte(data, abi::EI_MAG3)?,
    ];
    if magic == abi::ELFMAGIC {
        Ok(())
    } else {
        Err(ParseError::BadMagic(magic))
    }
}

fn verify_version(data: &[u8]) -> Result<(), ParseError>
    ensures { result ≡ version_in «data».now }
{
    let version = ident_byte(data, abi::EI_VERSION)?;
    if version == abi::EV_CURRENT {
        Ok(())
    } else {
        Err(ParseError::UnsupportedVersion((version as u64, abi::EV_CURRENT as u64)))
    }
}

fn parse_class(class_byte: u8) -> Result<Class, ParseError>
    ensures { result ≡ class_of class_byte }
{
    match class_byte {
        abi::ELFCLASS32 => Ok(Class::ELF32),
        abi::ELFCLASS64 => Ok(Class::ELF64),
        _ => Err(ParseError::UnsupportedElfClass(class_byte)),
    }
}

/// Reads the identification at the front of the data. Returns the byte order, the class, the ABI and the version of
/// the ABI. Nine bytes are enough.
///
/// Errors, in order: `BadMagic`, `UnsupportedVersion((found, 1))`, `UnsupportedElfClass`,
/// `UnsupportedElfEndianness`. If the data end before a byte that is checked, the error is `SliceReadError((0,
/// 16))`.
#[tactic(auto, unfolding(crate::specs::File::ident_of))]
pub fn parse_ident<E: EndianParse>(data: &[u8]) -> Result<(E, Class, u8, u8), ParseError>
    ensures { result ≡ ident_of E.of_byte «data».now }
{
    verify_magic(data)?;
    verify_version(data)?;
    let class = parse_class(ident_byte(data, abi::EI_CLASS)?)?;
    let endianness = E::from_ei_data(ident_byte(data, abi::EI_DATA)?)?;
    let osabi = ident_byte(data, abi::EI_OSABI)?;
    let abiversion = ident_byte(data, abi::EI_ABIVERSION)?;
    Ok((endianness, class, osabi, abiversion))
}

// A derived `Clone` would clone the order by its own, and be slower to prove.
impl<E: EndianParse> Clone for FileHeader<E> {
    ghost is_clone = { λ x y. y ≡ x };

    ghost is_infallible = { λ _. ⊤ };

    fn clone(&self) -> Result<Self, AllocError> {
        Ok(*self)
    }
}

impl<E: EndianParse> FileHeader<E> {
    /// Reads the tail of the header, the bytes after the identification, at the front of the data: 36 bytes
    /// (ELF32) or 48 (ELF64). If the data are shorter, the error is `SliceReadError((start, end))` of the first
    /// field that does not fit. Further bytes are ignored.
    pub fn parse_tail(ident: (E, Class, u8, u8), data: &[u8]) -> Result<FileHeader<E>, ParseError>
        ensures { result ≡ header_with_tail E.little ident «data».now }
    {
        let (endianness, class, osabi, abiversion) = ident;
        let mut offset = 0;
        let (e_type, e_machine, version) = parse_kind(endianness, &mut offset, data)?;
        let (e_entry, e_phoff, e_shoff) = parse_places(endianness, class, &mut offset, data)?;
        let (e_flags, e_ehsize, e_phentsize, e_phnum, e_shentsize, e_shnum, e_shstrndx) =
            parse_counts(endianness, class, &mut offset, data)?;
        Ok(FileHeader {
            class,
            endianness,
            version,
            osabi,
            abiversion,
            e_type,
            e_machine,
            e_entry,
            e_phoff,
            e_shoff,
            e_flags,
            e_ehsize,
            e_phentsize,
            e_phnum,
            e_shentsize,
            e_shnum,
            e_shstrndx,
        })
    }
}

// The first part of the tail: e_type, e_machine and the version.
#[tactic(auto, unfolding(crate::specs::inner::Part::part_at))]
fn parse_kind<E: EndianParse>(
    endian: E,
    offset: &mut usize,
    data: &[u8],
) -> Result<(u16, u16, u32), ParseError>
    ensures value { ok_map three result ≡ part_at (E.little endian) kind_fields «data».now offset.old }
    ensures moved { OnOk result (offset.new ≡ offset.old + width_of kind_fields) }
{
    let e_type = endian.parse_u16_at(offset, data)?;
    let e_machine = endian.parse_u16_at(offset, data)?;
    let version = endian.parse_u32_at(offset, data)?;
    Ok((e_type, e_machine, version))
}

// The second part: e_entry, e_phoff and e_shoff.
#[tactic(auto, unfolding(crate::specs::inner::Part::part_at))]
fn parse_places<E: EndianParse>(
    endian: E,
    class: Class,
    offset: &mut usize,
    data: &[u8],
) -> Result<(u64, u64, u64), ParseError>
    ensures value { ok_map three result ≡ part_at (E.little endian) (place_fields class) «data».now offset.old }
    ensures moved { OnOk result (offset.new ≡ offset.old + width_of (place_fields class)) }
{
    let e_entry = parse_by_class(endian, class, offset, data)?;
    let e_phoff = parse_by_class(endian, class, offset, data)?;
    let e_shoff = parse_by_class(endian, class, offset, data)?;
    Ok((e_entry, e_phoff, e_shoff))
}

// The last part: e_flags, e_ehsize, e_phentsize, e_phnum, e_shentsize, e_shnum and e_shstrndx.
#[tactic(auto, unfolding(crate::specs::inner::Part::part_at))]
fn parse_counts<E: EndianParse>(
    endian: E,
    class: Class,
    offset: &mut usize,
    data: &[u8],
) -> Result<(u32, u16, u16, u16, u16, u16, u16), ParseError>
    ensures { ok_map seven result ≡ part_at (E.little endian) (count_fields class) «data».now offset.old }
{
    let e_flags = endian.parse_u32_at(offset, data)?;
    let e_ehsize = endian.parse_u16_at(offset, data)?;
    let e_phentsize = endian.parse_u16_at(offset, data)?;
    let e_phnum = endian.parse_u16_at(offset, data)?;
    let e_shentsize = endian.parse_u16_at(offset, data)?;
    let e_shnum = endian.parse_u16_at(offset, data)?;
    let e_shstrndx = endian.parse_u16_at(offset, data)?;
    Ok((
        e_flags,
        e_ehsize,
        e_phentsize,
        e_phnum,
        e_shentsize,
        e_shnum,
        e_shstrndx,
    ))
}
