//! The questions to the file header and to the table of program headers.
ghost use Rattle.std.specs.Prelude.{◌≡◌, ◌+◌, slice_index};
ghost use Rattle.elf_loader.specs.Glibc.{abi_verdict, class_byte, class_reason, encoding_refusal, fields_verdict};
ghost use Rattle.elf_loader.specs.Glibc.{has_magic, header_bytes, header_fields, header_size, ident_verdict, is_padded};
ghost use Rattle.elf_loader.specs.Glibc.{knows_abi, loaded_file, order_byte, program_headers, read};
ghost use Rattle.elf_records.specs.Number.{ok_map};
ghost use Rattle.elf_records.specs.Table.{table_view};

use crate::glibc::{Kind, Refusal, SkipReason, Stop};
use elf::endian::AnyEndian;
use elf::file::{Class, ELF32_EHDR_TAILSIZE, ELF64_EHDR_TAILSIZE, FileHeader};
use elf::parse::ParseAt;
use elf::segment::{ProgramHeader, SegmentTable};
use elf::{LoadedParts, ReadError, abi};
use elf_records::parse::get_bytes;

// The bytes of a range. If they do not lie in the file, this is why it is refused.
pub(super) fn read<'f>(
    file: &LoadedParts<'f>,
    start: u64,
    count: u64,
    refusal: Refusal,
) -> Result<&'f [u8], Stop>
    ensures { ok_map (λ bytes. bytes.now) result ≡ read refusal ((loaded_file file.now).range start count) }
{
    match file.range(start, count) {
        Ok(bytes) => Ok(bytes),
        Err(ReadError::NotLoaded(range)) => Err(Stop::Missing(range)),
        Err(ReadError::Parse(_)) => Err(Stop::Refused(refusal)),
    }
}

// How many bytes the fields after the identification have.
fn tail_size(class: Class) -> usize
    ensures { result + 16 ≡ header_size class }
{
    match class {
        Class::ELF32 => ELF32_EHDR_TAILSIZE,
        Class::ELF64 => ELF64_EHDR_TAILSIZE,
    }
}

// The bytes of the file header.
pub(super) fn header_bytes<'f>(kind: &Kind, file: &LoadedParts<'f>) -> Result<&'f [u8], Stop>
    ensures { ok_map (λ bytes. bytes.now) result ≡ header_bytes kind.now (loaded_file file.now) }
{
    let size = (abi::EI_NIDENT + tail_size(kind.class)) as u64;
    read(file, 0, size, Refusal::FileTooShort)
}

// A byte of the header.
fn byte(header: &[u8], place: usize) -> u8
    ensures { result ≡ slice_index header.now place }
{
    header.get(place).copied().unwrap_or(0)
}

// Whether the file begins as an ELF file.
fn has_magic(header: &[u8]) -> bool
    ensures { result ≡ has_magic header.now }
{
    byte(header, abi::EI_MAG0) == abi::ELFMAG0
        && byte(header, abi::EI_MAG1) == abi::ELFMAG1
        && byte(header, abi::EI_MAG2) == abi::ELFMAG2
        && byte(header, abi::EI_MAG3) == abi::ELFMAG3
}

// The byte by which a file names its class, and why another one is skipped.
fn class_byte(class: Class) -> (u8, SkipReason)
    ensures { result ≡ (class_byte class, class_reason class) }
{
    match class {
        Class::ELF32 => (abi::ELFCLASS32, SkipReason::NotElf32),
        Class::ELF64 => (abi::ELFCLASS64, SkipReason::NotElf64),
    }
}

// The byte by which a file names its byte order, and why another one is refused.
fn order_byte(order: AnyEndian) -> (u8, Refusal)
    ensures { result ≡ (order_byte order, encoding_refusal order) }
{
    match order {
        AnyEndian::Little => (abi::ELFDATA2LSB, Refusal::NotLittleEndian),
        AnyEndian::Big => (abi::ELFDATA2MSB, Refusal::NotBigEndian),
    }
}

// The first version of the ABI of GNU that the linker does not know.
const ABI_END: u8 = 4;

// Whether the linker knows the version of an ABI.
fn knows_abi(osabi: u8, version: u8) -> bool
    ensures { result ≡ knows_abi osabi version }
{
    version == 0 || (osabi == abi::ELFOSABI_GNU && version < ABI_END)
}

// Whether the bytes of the identification that have no meaning are 0.
fn is_padded(header: &[u8]) -> bool
    ensures { result ≡ is_padded header.now }
{
    byte(header, abi::EI_PAD) == 0
        && byte(header, 10) == 0
        && byte(header, 11) == 0
        && byte(header, 12) == 0
        && byte(header, 13) == 0
        && byte(header, 14) == 0
        && byte(header, 15) == 0
}

// The questions to the identification.
pub(super) fn check_ident(kind: &Kind, header: &[u8]) -> Result<(), Stop>
    ensures { result ≡ ident_verdict kind.now header.now }
{
    if !has_magic(header) {
        return Err(Stop::Refused(Refusal::InvalidHeader));
    }
    let (class, reason) = class_byte(kind.class);
    if byte(header, abi::EI_CLASS) != class {
        return Err(Stop::Skipped(reason));
    }
    let (data, refusal) = order_byte(kind.order);
    if byte(header, abi::EI_DATA) != data {
        return Err(Stop::Refused(refusal));
    }
    if byte(header, abi::EI_VERSION) != abi::EV_CURRENT {
        return Err(Stop::Refused(Refusal::IdentVersion));
    }
    check_abi(header)
}

// The questions to the ABI that the identification names, and to the bytes after it.
fn check_abi(header: &[u8]) -> Result<(), Stop>
    ensures { result ≡ abi_verdict header.now }
{
    let osabi = byte(header, abi::EI_OSABI);
    if osabi != abi::ELFOSABI_NONE && osabi != abi::ELFOSABI_GNU {
        return Err(Stop::Refused(Refusal::OsAbi));
    }
    if !knows_abi(osabi, byte(header, abi::EI_ABIVERSION)) {
        return Err(Stop::Refused(Refusal::AbiVersion));
    }
    if !is_padded(header) {
        return Err(Stop::Refused(Refusal::Padding));
    }
    Ok(())
}

// The fields after the identification.
pub(super) fn header_fields(kind: &Kind, header: &[u8]) -> Result<FileHeader<AnyEndian>, Stop>
    ensures { result ≡ header_fields kind.now header.now }
{
    let ident = (
        kind.order,
        kind.class,
        byte(header, abi::EI_OSABI),
        byte(header, abi::EI_ABIVERSION),
    );
    let Ok(tail) = get_bytes(header, abi::EI_NIDENT, tail_size(kind.class)) else {
        return Err(Stop::Refused(Refusal::FileTooShort));
    };
    match FileHeader::parse_tail(ident, tail) {
        Ok(fields) => Ok(fields),
        Err(_) => Err(Stop::Refused(Refusal::FileTooShort)),
    }
}

// The questions to the fields after the identification.
pub(super) fn check_fields(kind: &Kind, header: &FileHeader<AnyEndian>) -> Result<(), Stop>
    ensures { result ≡ fields_verdict kind.now header.now }
{
    if header.version != abi::EV_CURRENT as u32 {
        return Err(Stop::Refused(Refusal::Version));
    }
    if header.e_machine != kind.machine {
        return Err(Stop::Skipped(SkipReason::OtherMachine));
    }
    if header.e_type != abi::ET_DYN && header.e_type != abi::ET_EXEC {
        return Err(Stop::Refused(Refusal::Type));
    }
    if header.e_phentsize as usize != ProgramHeader::size_for(kind.class) {
        return Err(Stop::Refused(Refusal::HeaderSize));
    }
    Ok(())
}

// The program headers.
pub(super) fn program_headers<'f>(
    kind: &Kind,
    file: &LoadedParts<'f>,
    header: &FileHeader<AnyEndian>,
) -> Result<SegmentTable<'f, AnyEndian>, Stop>
    ensures { ok_map table_view result ≡ program_headers kind.now (loaded_file file.now) header.now }
{
    let count = header.e_phnum as u64;
    if count == 0 {
        return Ok(SegmentTable::new(kind.order, kind.class, &[]));
    }
    let size = ProgramHeader::size_for(kind.class) as u64 * count;
    let bytes = read(file, header.e_phoff, size, Refusal::HeadersOutside)?;
    Ok(SegmentTable::new(kind.order, kind.class, bytes))
}
