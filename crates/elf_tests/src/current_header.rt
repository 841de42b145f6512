//! A stream whose header is changed by its owner.
use crate::small_files::HASHED;
use crate::sources::{EMPTY, InMemory};
use elf::MemSource;
use elf::endian::AnyEndian;
use elf::file::Class;
use elf::relocation::Rel;
use elf::section::SectionHeader;
use std::test::Fail;

/// Four words of the file, 1, 0x10, 4 and 0x10012, as relocations.
const WORDS: SectionHeader = SectionHeader {
    sh_type: 9,
    sh_offset: 72,
    sh_size: 16,
    ..EMPTY
};

/// Whether the first relocation in a class and an order is this one.
fn is_first(
    stream: &mut InMemory<'_>,
    class: Class,
    endianness: AnyEndian,
    (r_offset, r_sym, r_type): (u64, u32, u32),
) -> bool {
    stream.ehdr.class = class;
    stream.ehdr.endianness = endianness;
    let want = Rel {
        r_offset,
        r_sym,
        r_type,
    };
    match stream.section_data_as_rels(&WORDS) {
        Ok(mut rels) => rels.next() == Some(want),
        Err(_) => false,
    }
}

/// The string at 1 of the table of the names of sections, if there is one.
fn name<'a>(stream: &'a mut InMemory<'_>) -> Option<&'a [u8]> {
    let (_, names) = stream.section_headers_with_strtab().ok()?;
    names?.get_raw(1).ok()
}

#[test]
fn calls_follow_the_current_header(rt: HostRuntime) -> Result<(), Fail> {
    let mut stream = InMemory::open_stream(rt.alloc(), MemSource::new(&HASHED))?;
    let in_little = (0x10_0000_0001, 0x0001_0012, 4);
    let in_big = (0x0100_0000, 0x0010_0000, 0);
    let unchanged = (1, 0, 0x10);
    let is_read = is_first(&mut stream, Class::ELF64, AnyEndian::Little, in_little)
        && is_first(&mut stream, Class::ELF32, AnyEndian::Big, in_big)
        && is_first(&mut stream, Class::ELF32, AnyEndian::Little, unchanged);
    let is_unnamed = name(&mut stream).is_none();
    stream.ehdr.e_shstrndx = 1;
    assert!(rt; is_read && is_unnamed && name(&mut stream) == Some(b"a".as_slice()));
    Ok(())
}
