//! The file header, as the kernel reads it.
ghost use Rattle.std.specs.Prelude.{◌≡◌, min};
ghost use Rattle.std.specs.Option.{option_map};
ghost use Rattle.elf_records.specs.Class.{address_size};
ghost use Rattle.elf_loader.specs.kernel.Header.{class_byte, entry_size, field, header_in, header_size, is_class};
ghost use Rattle.elf_loader.specs.kernel.Header.{interpreter_fault, is_machine, is_program_type, program_fault};
ghost use Rattle.elf_loader.specs.kernel.Header.{table_fault, table_size, zero_filled};

use super::platform::Platform;
use elf_abi::abi;
use elf_records::endian::EndianParse;
use elf_records::file::Class;
use elf_records::parse::{ParseAt, parse_by_class};
use elf_records::segment::ProgramHeader;
use std::fmt;
use thiserror::Error;

/// The members of a file header that the kernel reads, in the layout of its machine.
#[derive(Debug, Clone, Copy)]
pub struct Header {
    /// Whether the file begins with the four bytes of ELF.
    pub has_magic: bool,
    /// Whether it declares the class of the machine.
    pub has_class: bool,
    pub e_type: u16,
    pub e_machine: u16,
    pub e_entry: u64,
    pub e_phoff: u64,
    pub e_phentsize: u16,
    pub e_phnum: u16,
}

/// Why the kernel does not load a file with this header.
#[derive(Debug, Clone, Copy, PartialEq, Eq, Error)]
pub enum HeaderFault {
    /// It does not begin with the four bytes of ELF.
    Magic,
    /// `e_type` is neither `ET_EXEC` nor `ET_DYN`.
    WrongType(u16),
    /// It is a file of another machine.
    WrongMachine(u16),
    /// `e_phentsize` is not the size of a program header.
    EntrySize(u16),
    /// There are no program headers.
    NoSegments,
    /// The program headers have more than 64 KiB.
    TooManySegments(u16),
    /// The program headers do not lie in the file.
    TableOutsideFile,
}

impl fmt::Display for HeaderFault {
    ghost use Rattle.elf_loader.specs.kernel.Texts.{header_text};

    ghost output = { header_text };

    fn fmt<W: fmt::Write>(&self, f: &mut fmt::Formatter<W>) -> fmt::Result {
        match self {
            HeaderFault::Magic => f.write_str("no ELF file"),
            HeaderFault::WrongType(e_type) => {
                write!(f, "e_type {e_type} is neither ET_EXEC nor ET_DYN")
            }
            HeaderFault::WrongMachine(e_machine) => {
                write!(f, "e_machine {e_machine} is another machine or class")
            }
            HeaderFault::EntrySize(size) => {
                write!(f, "e_phentsize {size} is not the size of a program header")
            }
            HeaderFault::NoSegments => f.write_str("no program headers"),
            HeaderFault::TooManySegments(count) => {
                write!(f, "{count} program headers are more than 64 KiB")
            }
            HeaderFault::TableOutsideFile => {
                f.write_str("the program headers do not lie in the file")
            }
        }
    }
}

// How many bytes a file header has.
pub(super) fn header_size(class: Class) -> u64
    ensures { result ≡ header_size class }
{
    match class {
        Class::ELF32 => 52,
        Class::ELF64 => 64,
    }
}

// A number, but 64 if it is more.
fn up_to_64(count: usize) -> usize
    ensures { result ≡ min 64 count }
{
    if count < 64 { count } else { 64 }
}

// The first 64 bytes of a file, and 0 for each that it does not have.
pub(super) fn zero_filled(front: &[u8]) -> [u8; 64]
    ensures { result ≡ zero_filled front.now }
{
    let mut bytes = [0; 64];
    let count = up_to_64(front.len());
    bytes[..count].copy_from_slice(&front[..count]);
    bytes
}

// A number of two bytes.
fn half(platform: &Platform, place: usize, bytes: &[u8]) -> u16
    ensures { result ≡ field platform.now 2 place bytes.now }
{
    let mut offset = place;
    match platform.endian.parse_u16_at(&mut offset, bytes) {
        Ok(number) => number,
        Err(_) => 0,
    }
}

// An address or an offset.
fn address(platform: &Platform, place: usize, bytes: &[u8]) -> u64
    ensures { result ≡ field platform.now (address_size platform.now.class) place bytes.now }
{
    let mut offset = place;
    match parse_by_class(platform.endian, platform.class, &mut offset, bytes) {
        Ok(number) => number,
        Err(_) => 0,
    }
}

// The byte that names a class.
fn class_byte(class: Class) -> u8
    ensures { result ≡ class_byte class }
{
    match class {
        Class::ELF32 => abi::ELFCLASS32,
        Class::ELF64 => abi::ELFCLASS64,
    }
}

// Whether a byte, if there is one, names a class.
fn is_class(class: Class, byte: Option<&u8>) -> bool
    ensures { result ≡ is_class class (option_map (λ at. at.now) byte.entry) }
{
    match byte {
        Some(byte) => *byte == class_byte(class),
        None => false,
    }
}

// The header in these bytes.
pub(super) fn header_in(platform: &Platform, bytes: &[u8]) -> Header
    ensures { result ≡ header_in platform.now bytes.now }
{
    let (phoff, phentsize) = match platform.class {
        Class::ELF32 => (28, 42),
        Class::ELF64 => (32, 54),
    };
    Header {
        has_magic: bytes.starts_with(&abi::ELFMAGIC),
        has_class: is_class(platform.class, bytes.get(abi::EI_CLASS)),
        e_type: half(platform, 16, bytes),
        e_machine: half(platform, 18, bytes),
        e_entry: address(platform, 24, bytes),
        e_phoff: address(platform, phoff, bytes),
        e_phentsize: half(platform, phentsize, bytes),
        e_phnum: half(platform, phentsize + 2, bytes),
    }
}

// Whether it is a program or a library.
pub(super) fn is_program_type(header: &Header) -> bool
    ensures { result ≡ is_program_type header.now }
{
    header.e_type == abi::ET_EXEC || header.e_type == abi::ET_DYN
}

// Whether it is a file of this machine.
fn is_machine(platform: &Platform, header: &Header) -> bool
    ensures { result ≡ is_machine platform.now header.now }
{
    header.e_machine == platform.machine && (header.has_class || !platform.reads_class)
}

// How many bytes a program header has.
fn entry_size(class: Class) -> u64
    ensures { result ≡ entry_size class }
{
    ProgramHeader::size_for(class) as u64
}

// How many bytes the program headers have.
pub(super) fn table_size(platform: &Platform, header: &Header) -> u64
    ensures { result ≡ table_size platform.now header.now }
{
    header.e_phnum as u64 * entry_size(platform.class)
}

// What is wrong with the number and the size of the program headers.
fn table_fault(platform: &Platform, header: &Header) -> Option<HeaderFault>
    ensures { result ≡ table_fault platform.now header.now }
{
    if header.e_phentsize as u64 != entry_size(platform.class) {
        Some(HeaderFault::EntrySize(header.e_phentsize))
    } else if header.e_phnum == 0 {
        Some(HeaderFault::NoSegments)
    } else if table_size(platform, header) > 0x10000 {
        Some(HeaderFault::TooManySegments(header.e_phnum))
    } else {
        None
    }
}

// Why the kernel does not take this as the header of a program.
pub(super) fn program_fault(platform: &Platform, header: &Header) -> Option<HeaderFault>
    ensures { result ≡ program_fault platform.now header.now }
{
    if !header.has_magic {
        Some(HeaderFault::Magic)
    } else if !is_program_type(header) {
        Some(HeaderFault::WrongType(header.e_type))
    } else if !is_machine(platform, header) {
        Some(HeaderFault::WrongMachine(header.e_machine))
    } else {
        table_fault(platform, header)
    }
}

// The same of an interpreter, whose type is checked later.
pub(super) fn interpreter_fault(platform: &Platform, header: &Header) -> Option<HeaderFault>
    ensures { result ≡ interpreter_fault platform.now header.now }
{
    if !header.has_magic {
        Some(HeaderFault::Magic)
    } else if !is_machine(platform, header) {
        Some(HeaderFault::WrongMachine(header.e_machine))
    } else {
        table_fault(platform, header)
    }
}
