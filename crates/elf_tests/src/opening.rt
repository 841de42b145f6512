//! Files that a user's own order opens, sources whose section headers are lost, and the caller that README shows.
use crate::sizes::{IDENT, bytes_at};
use crate::small_files::{HEADER_ALONE, TWO_SECTIONS, TWO_SECTIONS_BIG};
use crate::sources::{InMemory, Plan, Planned, PlannedSource, is_of_source};
use crate::user_types::example::count_named;
use crate::user_types::order::FileOrder;
use elf::endian::{AnyEndian, NativeEndian};
use elf::{ElfBytes, MemSource, ParseError};
use std::alloc::{AllocError, Global};
use std::test::Fail;

#[test]
fn a_users_order_opens_its_files(rt: HostRuntime) -> Result<(), Fail> {
    let file = ElfBytes::<FileOrder>::minimal_parse(&TWO_SECTIONS_BIG)?;
    let sections = file.section_headers().ok_or("no sections")?;
    let is_opened = sections.len() == 2 && sections.get(1)?.sh_offset == 52;
    let other = ElfBytes::<FileOrder>::minimal_parse(&TWO_SECTIONS).err();
    assert!(rt; is_opened && matches!(other, Some(ParseError::UnsupportedElfEndianness(1))));
    Ok(())
}

#[test]
fn the_machines_order_is_a_type(rt: HostRuntime) -> Result<(), Fail> {
    let file = ElfBytes::<NativeEndian>::minimal_parse(&HEADER_ALONE)?;
    assert!(rt; file.section_headers().is_none() && file.segments().is_none());
    Ok(())
}

#[test]
fn named_sections_are_counted(rt: HostRuntime) -> Result<(), Fail> {
    assert!(rt; count_named(&TWO_SECTIONS)? == 2 && count_named(&HEADER_ALONE)? == 0);
    Ok(())
}

/// A 64-bit file with one segment of type PT_LOAD, cut off after this number of bytes. Its section headers are past its end.
fn lost_sections(alloc: Global, len: usize) -> Result<Vec<u8>, AllocError> {
    // e_phoff, e_shoff, e_phentsize, e_phnum, e_shentsize, e_shnum; p_type, p_filesz
    let mut file = bytes_at(
        alloc,
        64 + 56,
        &[
            (0, IDENT),
            (32, &[64]),
            (40, &[0xff, 0xff, 0xff, 0x7f]),
            (54, &[56]),
            (56, &[1]),
            (58, &[64]),
            (60, &[1]),
            (64, &[1]),
            (96, &[8]),
        ],
    )?;
    file.truncate(len);
    Ok(file)
}

#[test]
fn a_source_is_opened_by_its_segments(rt: HostRuntime) -> Result<(), Fail> {
    let file = lost_sections(rt.alloc(), 64 + 56)?;
    let refused = InMemory::open_stream(rt.alloc(), MemSource::new(&file)).err();
    let is_refused = matches!(refused, Some(ParseError::BadOffset(2147483711)));
    let stream = InMemory::open_stream_by_segments(rt.alloc(), MemSource::new(&file))?;
    let is_lost = stream.ehdr.e_shoff == 0x7fff_ffff && stream.section_headers().is_empty();
    let [segment] = stream.segments().as_slice() else {
        return Err(Fail::from("not one segment"));
    };
    assert!(rt; is_refused && is_lost && segment.p_type == 1 && segment.p_filesz == 8);
    Ok(())
}

#[test]
fn a_source_without_its_segments_is_refused(rt: HostRuntime) -> Result<(), Fail> {
    let file = lost_sections(rt.alloc(), 64 + 55)?;
    let stream = InMemory::open_stream_by_segments(rt.alloc(), MemSource::new(&file)).err();
    let is_refused = matches!(stream, Some(ParseError::BadOffset(120)));
    let bytes = ElfBytes::<AnyEndian>::parse_by_segments(&file).err();
    assert!(rt; is_refused && matches!(bytes, Some(ParseError::SliceReadError((64, 120)))));
    Ok(())
}

#[test]
fn a_source_that_fails_is_not_opened_by_its_segments(rt: HostRuntime) -> Result<(), Fail> {
    let file = lost_sections(rt.alloc(), 64 + 56)?;
    let plan = Plan::new(64, Some(2));
    let source = PlannedSource::new(&file, &plan);
    let error = Planned::open_stream_by_segments(rt.alloc(), source).err();
    assert!(rt; error.is_some_and(|error| is_of_source(&error)));
    Ok(())
}
