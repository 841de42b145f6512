//! Streams over large files, with many cached ranges, and over sources that end early.
use crate::sizes::bytes_at;
use crate::small_files::TWO_SECTIONS;
use crate::sources::{EMPTY, InMemory, Plan, Planned, PlannedSource, open};
use elf::endian::AnyEndian;
use elf::section::SectionHeader;
use elf::{ElfBytes, MemSource, ParseError, StreamSource};
use std::alloc::{AllocError, Global};
use std::test::Fail;

/// More than the 1 MiB that a stream reads in one step.
const LARGE: usize = (1 << 20) + 5;

/// The first number of section headers that e_shnum cannot have: SHN_LORESERVE.
const COUNT: u32 = 0xff00;

const BYTES: SectionHeader = SectionHeader {
    sh_offset: 52,
    sh_size: LARGE as u64,
    ..EMPTY
};

/// The begin of a 32-bit file in little order.
const IDENT: &[u8] = &[0x7f, 0x45, 0x4c, 0x46, 1, 1, 1];

/// A 32-bit header that declares no tables, and `len` bytes after it.
fn large_file(alloc: Global, len: usize) -> Result<Vec<u8>, AllocError> {
    let mut file = bytes_at(alloc, 52, &[(0, IDENT)])?;
    for i in 0..len {
        file.push((i % 251) as u8)?;
    }
    Ok(file)
}

#[test]
fn a_range_of_more_than_a_mebibyte_is_read(rt: HostRuntime) -> Result<(), Fail> {
    let file = large_file(rt.alloc(), LARGE)?;
    let mut stream = InMemory::open_stream(rt.alloc(), MemSource::new(&file))?;
    let (bytes, header) = stream.section_data(&BYTES)?;
    assert!(rt; file.get(52..) == Some(bytes) && header.is_none());
    Ok(())
}

// One seek and two reads: memory is touched a mebibyte at a time.
#[test]
fn a_range_of_more_than_a_mebibyte_takes_two_reads(rt: HostRuntime) -> Result<(), Fail> {
    let file = large_file(rt.alloc(), LARGE)?;
    let plan = Plan::new(usize::MAX, None);
    let mut stream = open(rt.alloc(), &file, &plan)?;
    plan.taken();
    let is_read = stream.section_data(&BYTES).is_ok();
    assert!(rt; is_read && plan.taken() == (3, LARGE as u64));
    Ok(())
}

/// Whether each byte after the header is given, as a range of its own.
fn has_each_byte(stream: &mut Planned<'_>, file: &[u8]) -> bool {
    for start in 52..file.len() {
        let shdr = SectionHeader {
            sh_offset: start as u64,
            sh_size: 1,
            ..EMPTY
        };
        match stream.section_data(&shdr) {
            Ok((bytes, _)) if file.get(start..start + 1) == Some(bytes) => {}
            _ => return false,
        }
    }
    true
}

#[test]
fn many_ranges_are_cached(rt: HostRuntime) -> Result<(), Fail> {
    let file = large_file(rt.alloc(), 1000)?;
    let plan = Plan::new(usize::MAX, None);
    let mut stream = open(rt.alloc(), &file, &plan)?;
    let is_read = has_each_byte(&mut stream, &file);
    plan.taken();
    let is_cached = has_each_byte(&mut stream, &file) && plan.taken() == (0, 0);
    assert!(rt; is_read && is_cached, "{is_read} {is_cached}");
    Ok(())
}

/// A 32-bit file of `COUNT` section headers, a number that is sh_size of the first one. sh_name of each is its index.
fn many_headers(alloc: Global) -> Result<Vec<u8>, AllocError> {
    // e_shoff, e_shentsize
    let mut file = bytes_at(alloc, 52, &[(0, IDENT), (32, &[52]), (46, &[40])])?;
    for i in 0..COUNT {
        let size = if i == 0 { COUNT } else { 0 };
        file.extend_from_slice(&i.to_le_bytes())?;
        file.extend_from_slice(&[0; 16])?;
        file.extend_from_slice(&size.to_le_bytes())?;
        file.extend_from_slice(&[0; 16])?;
    }
    Ok(file)
}

#[test]
fn more_headers_are_read_than_e_shnum_can_count(rt: HostRuntime) -> Result<(), Fail> {
    let file = many_headers(rt.alloc())?;
    let stream = InMemory::open_stream(rt.alloc(), MemSource::new(&file))?;
    let headers = stream.section_headers().as_slice();
    let is_read = headers.iter().map(|shdr| shdr.sh_name).eq(0..COUNT);
    let table = ElfBytes::<AnyEndian>::minimal_parse(&file)?.section_headers();
    let is_same = table.is_some_and(|table| table.iter().eq(headers.iter().copied()));
    assert!(rt; headers.len() == COUNT as usize && is_read && is_same);
    Ok(())
}

#[test]
fn a_source_in_memory_reads_all_that_fits(rt: HostRuntime) -> Result<(), Fail> {
    let file = large_file(rt.alloc(), LARGE)?;
    let mut source = MemSource::new(&file);
    let mut buf = vec![in rt.alloc(); 0; file.len() + 1]?;
    let n = source.read(&mut buf)?;
    let is_read = buf.get(..n) == Some(file.as_slice());
    assert!(rt; is_read && source.read(&mut buf)? == 0);
    Ok(())
}

// The identification has 16 bytes, and the rest of a 32-bit header ends at 52.
#[test]
fn a_source_that_ends_in_the_header_is_refused_with_its_end(rt: HostRuntime) {
    for (there, end) in [(10, 16), (51, 52)] {
        let plan = Plan::new(usize::MAX, None);
        let source = PlannedSource::longer(&TWO_SECTIONS[..there], 136, &plan);
        let error = Planned::open_stream(rt.alloc(), source).err();
        assert!(rt;
            matches!(error, Some(ParseError::BadOffset(at)) if at == end),
            "{there}"
        );
    }
}
