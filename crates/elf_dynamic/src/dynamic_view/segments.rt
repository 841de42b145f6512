//! Where the bytes of an address are in the file.
ghost use Rattle.std.specs.Prelude.{◌≡◌, ◌≤◌, ◌*◌, IfErr, IfOk, IfSome, IsTrue, length};
ghost use Rattle.std.specs.List.{find};
ghost use Rattle.elf.specs.Parts.{loaded};
ghost use Rattle.elf_dynamic.specs.dynamic_view.Entries.{IsPlainError};
ghost use Rattle.elf_dynamic.specs.dynamic_view.Segments.{bytes_from, bytes_of, holds, offset_in, part_of, range_of};
ghost use Rattle.elf_dynamic.specs.dynamic_view.Segments.{records_part, rest_of, segment_of, size_from};
ghost use Rattle.elf_records.specs.Number.{ok_map};

use crate::dynamic_view::error::DynamicError;
use elf::abi;
use elf::endian::EndianParse;
use elf::reader::Reader;
use elf::segment::ProgramHeader;

// Whether the segment is loaded and has the bytes of these addresses in the file.
fn holds(segment: &ProgramHeader, address: u64, size: u64) -> bool
    ensures { result ≡ holds address size segment.now }
{
    if segment.p_type != abi::PT_LOAD || address < segment.p_vaddr {
        return false;
    }
    let before = address - segment.p_vaddr;
    before <= segment.p_filesz
        && size <= segment.p_filesz - before
        && before <= u64::MAX - segment.p_offset
}

// Where in the file the byte of an address is.
fn offset_in(segment: &ProgramHeader, address: u64, size: u64) -> u64
    requires { IsTrue (holds address size segment.now) }
    ensures { result ≡ offset_in address segment.now }
{
    segment.p_offset + (address - segment.p_vaddr)
}

// How many bytes the segment has in the file from an address on.
fn size_from(segment: &ProgramHeader, address: u64, size: u64) -> u64
    requires { IsTrue (holds address size segment.now) }
    ensures { result ≡ size_from address segment.now }
{
    segment.p_filesz - (address - segment.p_vaddr)
}

// The first segment that holds this many bytes from an address on.
fn first_holding<E: EndianParse, R: Reader<E>>(
    file: &R,
    address: u64,
    size: u64,
) -> Option<ProgramHeader>
    ensures { result ≡ find (holds address size) (R.file file.now).segments }
{
    file.each_segment()
        .find(|segment| holds(segment, address, size))
}

// The same, or that no segment does.
fn segment_of<E: EndianParse, R: Reader<E>>(
    file: &R,
    address: u64,
    size: u64,
) -> Result<ProgramHeader, DynamicError>
    ensures value { result ≡ segment_of (R.file file.now).segments address size }
    ensures holds { IfOk result (λ segment. IsTrue (holds address size segment)) }
    ensures plain { IfErr result IsPlainError }
{
    first_holding(file, address, size).ok_or(DynamicError::NotLoaded(address))
}

/// Returns the range of these addresses in the file, by its start and its size.
///
/// The error is `NotLoaded(address)`, if no segment of type `PT_LOAD` has all of them in the file.
pub fn part_of<E: EndianParse, R: Reader<E>>(
    file: &R,
    address: u64,
    size: u64,
) -> Result<(u64, u64), DynamicError>
    ensures value { result ≡ part_of (R.file file.now).segments address size }
    ensures plain { IfErr result IsPlainError }
{
    let segment = segment_of(file, address, size)?;
    Ok((offset_in(&segment, address, size), size))
}

// The range from an address to the last byte that its segment has in the file.
fn rest_of<E: EndianParse, R: Reader<E>>(file: &R, address: u64) -> Result<(u64, u64), DynamicError>
    ensures value { result ≡ rest_of (R.file file.now).segments address }
    ensures plain { IfErr result IsPlainError }
{
    let segment = segment_of(file, address, 1)?;
    Ok((
        offset_in(&segment, address, 1),
        size_from(&segment, address, 1),
    ))
}

// The range of a number of records of a size.
pub(crate) fn records_part<E: EndianParse, R: Reader<E>>(
    file: &R,
    address: u64,
    count: u64,
    size: u64,
) -> Result<(u64, u64), DynamicError>
    ensures value { result ≡ records_part (R.file file.now).segments address count size }
    ensures plain { IfErr result IsPlainError }
{
    match count.checked_mul(size) {
        Some(bytes) => part_of(file, address, bytes),
        None => Err(DynamicError::NotLoaded(address)),
    }
}

// The bytes of a range of the file.
pub(crate) fn range_of<'f, E: EndianParse, R: Reader<E>>(
    file: &'f R,
    part: (u64, u64),
) -> Result<&'f [u8], DynamicError>
    ensures value { ok_map (λ bytes. bytes.now) result ≡ range_of (loaded (R.file file.now) (R.ranges file.now)) part }
    ensures plain { IfErr result IsPlainError }
{
    match file.range(part.0, part.1) {
        Ok(bytes) => Ok(bytes),
        Err(error) => Err(DynamicError::from(error)),
    }
}

/// Returns the bytes in the file that are loaded at these addresses.
///
/// Errors, in order: `NotLoaded(address)` if no segment of type `PT_LOAD` has all of them in the file; `Read` if they
/// cannot be read, `Missing` if they lie in the file and are not loaded.
pub fn bytes_of<'f, E: EndianParse, R: Reader<E>>(
    file: &'f R,
    address: u64,
    size: u64,
) -> Result<&'f [u8], DynamicError>
    ensures value { ok_map (λ bytes. bytes.now) result
        ≡ bytes_of (loaded (R.file file.now) (R.ranges file.now)) address size }
    ensures plain { IfErr result IsPlainError }
{
    let part = part_of(file, address, size)?;
    range_of(file, part)
}

/// Returns the bytes in the file from an address to the last one of the segment that has the first of them. The errors
/// are those of `bytes_of`.
pub fn bytes_from<'f, E: EndianParse, R: Reader<E>>(
    file: &'f R,
    address: u64,
) -> Result<&'f [u8], DynamicError>
    ensures value { ok_map (λ bytes. bytes.now) result
        ≡ bytes_from (loaded (R.file file.now) (R.ranges file.now)) address }
    ensures plain { IfErr result IsPlainError }
{
    let part = rest_of(file, address)?;
    range_of(file, part)
}
