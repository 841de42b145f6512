//! Values that are shown for a debugger.
use crate::small_files::{HEADER_ALONE, TWO_SECTIONS};
use crate::user_types::order::FileOrder;
use crate::user_types::triple::Triple;
use elf::endian::{AnyEndian, BigEndian, LittleEndian};
use elf::file::Class;
use elf::parse::{ParsingIterator, ParsingTable};
use elf::string_table::StringTable;
use elf::{ElfBytes, ParseError};
use elfshow::runs::{Call, RunError};
use elfshow::show::RequestError;
use std::fmt::Debug;
use std::process::Abort;
use std::test::Fail;

/// Asserts the debug text of a value.
pub(crate) fn assert_shown<D: Debug + Drop>(rt: &(impl Abort + AllocGlobal), value: D, want: &str) {
    match format!(in rt.alloc(); "{value:?}") {
        Ok(text) => assert!(rt; text.as_str() == want, "{text}"),
        Err(_) => assert!(rt; false, "no memory"),
    }
}

#[test]
fn parts_are_shown(rt: HostRuntime) {
    assert_shown(&rt, AnyEndian::Big, "Big");
    assert_shown(&rt, LittleEndian, "LittleEndian");
    assert_shown(&rt, BigEndian, "BigEndian");
    assert_shown(&rt, Class::ELF32, "ELF32");
    assert_shown(&rt, StringTable::new(b"\0"), "StringTable { data: [0] }");
    assert_shown(&rt, ParseError::BadOffset(7), "BadOffset(7)");
    assert_shown(&rt, Call::Sections, "Sections");
    let refused = RunError::Open(ParseError::IntegerOverflow);
    assert_shown(&rt, refused, "Open(IntegerOverflow)");
    assert_shown(&rt, RequestError::Usage, "Usage");
}

// The fields of tables are private. A table stores its byte order as a bool.
#[test]
fn tables_are_shown(rt: HostRuntime) {
    let table = ParsingTable::<'_, _, Triple>::new(LittleEndian, Class::ELF32, b"abc");
    assert_shown(
        &rt,
        table,
        "ParsingTable { little: true, class: ELF32, data: [97, 98, 99], order: PhantomData<_>, \
        records: PhantomData<_> }",
    );
    let items = ParsingIterator::<'_, _, Triple>::new(FileOrder::HighFirst, Class::ELF64, b"abc");
    assert_shown(
        &rt,
        items,
        "ParsingIterator { little: false, class: ELF64, data: [97, 98, 99], offset: 0, order: PhantomData<_>, \
        records: PhantomData<_> }",
    );
}

#[test]
fn headers_are_shown(rt: HostRuntime) -> Result<(), Fail> {
    let file = ElfBytes::<AnyEndian>::minimal_parse(&TWO_SECTIONS)?;
    assert_shown(
        &rt,
        file.ehdr,
        "FileHeader { class: ELF32, endianness: Little, version: 0, osabi: 0, abiversion: 0, e_type: 0, e_machine: 0, \
        e_entry: 0, e_phoff: 0, e_shoff: 56, e_flags: 0, e_ehsize: 0, e_phentsize: 0, e_phnum: 0, e_shentsize: 40, \
        e_shnum: 2, e_shstrndx: 1 }",
    );
    let sections = file.section_headers().ok_or("no sections")?;
    assert_shown(
        &rt,
        sections.get(1)?,
        "SectionHeader { sh_name: 1, sh_type: 3, sh_flags: 0, sh_addr: 0, sh_offset: 52, sh_size: 4, sh_link: 0, \
        sh_info: 0, sh_addralign: 1, sh_entsize: 0 }",
    );
    Ok(())
}

#[test]
fn a_file_is_shown_with_its_parts(rt: HostRuntime) -> Result<(), Fail> {
    let file = ElfBytes::<AnyEndian>::minimal_parse(&HEADER_ALONE)?;
    let header = file.ehdr;
    let want = format!(in rt.alloc();
        "ElfBytes {{ ehdr: {header:?}, data: {HEADER_ALONE:?}, shdrs: None, phdrs: None }}"
    )?;
    assert_shown(&rt, file, want.as_str());
    Ok(())
}
