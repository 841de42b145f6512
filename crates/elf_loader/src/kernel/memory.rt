//! The segments of a program and of its interpreter in memory. What is refused here is refused too late for an error:
//! the kernel ends the process by a signal.
ghost use Rattle.std.specs.Prelude.{◌≡◌, ◌<◌, ◌^◌};
ghost use Rattle.elf_loader.specs.kernel.Memory.{apart, bytes_fault, entry_fault, file_end, first_load, first_page};
ghost use Rattle.elf_loader.specs.kernel.Memory.{image_view, interpreter_memory, is_aligned, is_filled, is_load};
ghost use Rattle.elf_loader.specs.kernel.Memory.{is_no_address, is_past, is_past_offsets, lacks_page, origin};
ghost use Rattle.elf_loader.specs.kernel.Memory.{place_fault, program_memory, segment_fault, segments_fault};

use super::header::{Header, is_program_type};
use super::platform::Platform;
use elf_abi::abi;
use elf_records::endian::AnyEndian;
use elf_records::segment::{ProgramHeader, SegmentTable};
use std::fmt;
use thiserror::Error;

/// What the kernel knows of a file that it loads.
#[derive(Debug, Clone, Copy)]
pub struct Image<'data> {
    pub header: Header,
    pub segments: SegmentTable<'data, AnyEndian>,
    /// The size of the file in bytes.
    pub size: u64,
}

/// Why a segment of type `PT_LOAD` cannot be loaded.
#[derive(Debug, Clone, Copy, PartialEq, Eq, Error)]
pub enum SegmentFault {
    /// Its offset and its address differ in their places within a page.
    Misaligned,
    /// Its last page in the file lies past the largest offset of a file.
    PastOffsets,
    /// Its last page in the file is to be filled with zeros, and lies past the end of the file.
    NoPageToFill,
    /// It begins at no address of a program.
    NoAddress,
    /// It ends past the last address of a program.
    PastAddresses,
    /// It has more bytes in the file than in memory.
    FileSize,
}

impl fmt::Display for SegmentFault {
    ghost use Rattle.elf_loader.specs.kernel.Texts.{segment_text};

    ghost output = { segment_text };

    fn fmt<W: fmt::Write>(&self, f: &mut fmt::Formatter<W>) -> fmt::Result {
        match self {
            SegmentFault::Misaligned => f.write_str("p_offset and p_vaddr differ within a page"),
            SegmentFault::PastOffsets => f.write_str("its offset is too large"),
            SegmentFault::NoPageToFill => {
                f.write_str("zeros are to follow bytes past the end of the file")
            }
            SegmentFault::NoAddress => f.write_str("begins past the last address"),
            SegmentFault::PastAddresses => f.write_str("ends past the last address"),
            SegmentFault::FileSize => f.write_str("has more bytes in the file than in memory"),
        }
    }
}

/// Why a file cannot be loaded into memory.
#[derive(Debug, Clone, Copy, PartialEq, Eq, Error)]
pub enum MemoryFault {
    /// `e_type` of the interpreter is neither `ET_EXEC` nor `ET_DYN`.
    WrongType(u16),
    /// The interpreter has no segment of type `PT_LOAD`.
    NothingToLoad,
    /// The segment at this address cannot be loaded.
    Segment { address: u64, fault: SegmentFault },
    /// The entry is no address of a program.
    Entry(u64),
}

impl fmt::Display for MemoryFault {
    ghost use Rattle.elf_loader.specs.kernel.Texts.{memory_text};

    ghost output = { memory_text };

    fn fmt<W: fmt::Write>(&self, f: &mut fmt::Formatter<W>) -> fmt::Result {
        match self {
            MemoryFault::WrongType(e_type) => {
                write!(f, "e_type {e_type} is neither ET_EXEC nor ET_DYN")
            }
            MemoryFault::NothingToLoad => f.write_str("no segment PT_LOAD"),
            MemoryFault::Segment { address, fault } => {
                write!(f, "segment at 0x{address:x}: {fault}")
            }
            MemoryFault::Entry(entry) => {
                write!(f, "e_entry 0x{entry:x} is no address of a program")
            },
        }
    }
}

// Whether a segment is loaded.
fn is_load(segment: &ProgramHeader) -> bool
    ensures { result ≡ is_load segment.now }
{
    segment.p_type == abi::PT_LOAD
}

// The first segment that is loaded.
fn first_load(image: &Image<'_>) -> Option<ProgramHeader>
    ensures { result ≡ first_load (image_view image.now) }
{
    image.segments.iter().find(|segment| is_load(segment))
}

// The address of the page that has an address.
fn first_page(platform: &Platform, address: u64) -> u64
    ensures { result ≡ first_page platform.now address }
{
    address - address % platform.page.bytes()
}

// From where the kernel counts the addresses of a file that it loads anywhere.
fn origin(platform: &Platform, image: &Image<'_>) -> Option<u64>
    ensures { result ≡ origin platform.now (image_view image.now) }
{
    if image.header.e_type != abi::ET_DYN {
        return None;
    }
    let first = first_load(image)?;
    Some(first_page(platform, first.p_vaddr))
}

// How far two addresses are apart.
fn apart(a: u64, b: u64) -> u64
    ensures { result ≡ apart a b }
{
    if a <= b { b - a } else { a - b }
}

// Whether a place is no address of a program, wherever the file is loaded.
fn is_no_address(platform: &Platform, origin: Option<u64>, address: u64) -> bool
    ensures { result ≡ is_no_address platform.now origin address }
{
    match origin {
        Some(start) => {
            let distance = apart(start, address);
            distance >= platform.addresses
                && distance as u128 + platform.addresses as u128 <= 1 << 64
        }
        None => address >= platform.addresses,
    }
}

// Whether a segment ends past the last address, wherever the file is loaded.
fn is_past(platform: &Platform, origin: Option<u64>, segment: &ProgramHeader) -> bool
    ensures { result ≡ is_past platform.now origin segment.now }
{
    let start = match origin {
        Some(_) => 0,
        None => segment.p_vaddr,
    };
    start as u128 + segment.p_memsz as u128 > platform.addresses as u128
}

// Whether the places of a segment within a page are the same in the file and in memory.
fn is_aligned(platform: &Platform, segment: &ProgramHeader) -> bool
    ensures { result ≡ is_aligned platform.now segment.now }
{
    let page = platform.page.bytes();
    segment.p_offset % page == segment.p_vaddr % page
}

// Where a segment ends in the file.
fn file_end(segment: &ProgramHeader) -> u128
    ensures value { result ≡ file_end segment.now }
    ensures bound { result < 2 ^ 65 }
{
    segment.p_offset as u128 + segment.p_filesz as u128
}

// Whether the last page of a segment ends past the largest offset of a file.
fn is_past_offsets(platform: &Platform, segment: &ProgramHeader) -> bool
    ensures { result ≡ is_past_offsets platform.now segment.now }
{
    file_end(segment) + platform.page.bytes() as u128 > 1 << 63
}

// Whether the kernel has to write zeros after the bytes of a segment, in its last page.
fn is_filled(platform: &Platform, segment: &ProgramHeader) -> bool
    ensures { result ≡ is_filled platform.now segment.now }
{
    segment.p_filesz < segment.p_memsz
        && segment.p_flags & abi::PF_W != 0
        && file_end(segment) % platform.page.bytes() as u128 != 0
}

// Whether the last page of a segment has no byte of a file of this size.
fn lacks_page(platform: &Platform, size: u64, segment: &ProgramHeader) -> bool
    ensures { result ≡ lacks_page platform.now size segment.now }
{
    let end = file_end(segment);
    end - end % platform.page.bytes() as u128 >= size as u128
}

// Why the bytes of a segment cannot be loaded.
fn bytes_fault(platform: &Platform, size: u64, segment: &ProgramHeader) -> Option<SegmentFault>
    ensures { result ≡ bytes_fault platform.now size segment.now }
{
    if segment.p_filesz == 0 {
        None
    } else if !is_aligned(platform, segment) {
        Some(SegmentFault::Misaligned)
    } else if is_past_offsets(platform, segment) {
        Some(SegmentFault::PastOffsets)
    } else if is_filled(platform, segment) && lacks_page(platform, size, segment) {
        Some(SegmentFault::NoPageToFill)
    } else {
        None
    }
}

// Why a segment has no memory.
fn place_fault(
    platform: &Platform,
    origin: Option<u64>,
    segment: &ProgramHeader,
) -> Option<SegmentFault>
    ensures { result ≡ place_fault platform.now origin segment.now }
{
    if is_no_address(platform, origin, segment.p_vaddr) {
        Some(SegmentFault::NoAddress)
    } else if segment.p_filesz > segment.p_memsz {
        Some(SegmentFault::FileSize)
    } else if is_past(platform, origin, segment) {
        Some(SegmentFault::PastAddresses)
    } else {
        None
    }
}

// Why a segment cannot be loaded.
fn segment_fault(
    platform: &Platform,
    size: u64,
    origin: Option<u64>,
    segment: &ProgramHeader,
) -> Option<SegmentFault>
    ensures { result ≡ segment_fault platform.now size origin segment.now }
{
    if !is_load(segment) {
        return None;
    }
    match bytes_fault(platform, size, segment) {
        Some(fault) => Some(fault),
        None => place_fault(platform, origin, segment),
    }
}

// The first segment that cannot be loaded.
fn segments_fault(
    platform: &Platform,
    image: &Image<'_>,
    origin: Option<u64>,
) -> Option<MemoryFault>
    ensures { result ≡ segments_fault platform.now image.now.size origin (image_view image.now).segments }
{
    for segment in image.segments.iter() {
        if let Some(fault) = segment_fault(platform, image.size, origin, &segment) {
            return Some(MemoryFault::Segment {
                address: segment.p_vaddr,
                fault,
            });
        }
    }
    None
}

// Whether the entry is no address.
fn entry_fault(platform: &Platform, image: &Image<'_>) -> Option<MemoryFault>
    ensures { result ≡ entry_fault platform.now (image_view image.now) }
{
    let entry = image.header.e_entry;
    if is_no_address(platform, origin(platform, image), entry) {
        Some(MemoryFault::Entry(entry))
    } else {
        None
    }
}

// Why a program cannot be loaded. Its own entry counts if it has no interpreter.
pub(super) fn program_memory(
    platform: &Platform,
    image: &Image<'_>,
    is_entered: bool,
) -> Option<MemoryFault>
    ensures { result ≡ program_memory platform.now (image_view image.now) is_entered }
{
    match segments_fault(platform, image, None) {
        Some(fault) => Some(fault),
        None if is_entered => entry_fault(platform, image),
        None => None,
    }
}

// Why an interpreter cannot be loaded.
pub(super) fn interpreter_memory(platform: &Platform, image: &Image<'_>) -> Option<MemoryFault>
    ensures { result ≡ interpreter_memory platform.now (image_view image.now) }
{
    if !is_program_type(&image.header) {
        return Some(MemoryFault::WrongType(image.header.e_type));
    }
    if first_load(image).is_none() {
        return Some(MemoryFault::NothingToLoad);
    }
    match segments_fault(platform, image, origin(platform, image)) {
        Some(fault) => Some(fault),
        None => entry_fault(platform, image),
    }
}
