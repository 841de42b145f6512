//! Inputs for which a call takes much memory: none returns an error while there is memory.
use elf::endian::LittleEndian;
use elf::file::Class;
use elf::gnu_symver::{
    IndexedVersions, SymbolRequirement, SymbolVersionTable, SymbolVersions, VerNeedIterator,
    VersionIndexTable,
};
use elf::string_table::StringTable;
use elf::{ElfBytes, ElfStream, MemSource};
use elf_linking::needed::read_dynamic_names;
use elf_tools::load_plan::load_plan;
use std::alloc::{AllocError, Global};
use std::test::Fail;

/// Zeros, except for these bytes at these places.
pub(crate) fn bytes_at(
    alloc: Global,
    size: usize,
    parts: &[(usize, &[u8])],
) -> Result<Vec<u8>, AllocError> {
    let mut all = vec![in alloc; 0; size]?;
    write_parts(&mut all, parts);
    Ok(all)
}

/// Writes these bytes at these places.
pub(crate) fn write_parts(all: &mut [u8], parts: &[(usize, &[u8])]) {
    for (place, bytes) in parts {
        for (found, byte) in all.iter_mut().skip(*place).zip(*bytes) {
            *found = *byte;
        }
    }
}

/// The begin of a 64-bit file in little order.
pub(crate) const IDENT: &[u8] = &[0x7f, 0x45, 0x4c, 0x46, 2, 1, 1];

// The greatest version index, 32,767, needs the most places.
#[test]
fn the_greatest_version_index_is_found(rt: HostRuntime) -> Result<(), Fail> {
    // vn_version, vn_cnt, vn_file, vn_aux, vn_next; vna_hash, vna_flags, vna_other, vna_name, vna_next
    let need = [
        1, 0, 1, 0, 1, 0, 0, 0, 16, 0, 0, 0, 0, 0, 0, 0, 0x78, 0x56, 0x34, 0x12, 2, 0, 0xff, 0x7f,
        5, 0, 0, 0, 0, 0, 0, 0,
    ];
    let indexes = VersionIndexTable::new(LittleEndian, Class::ELF64, &[0xff, 0x7f]);
    let needs = VerNeedIterator::new(LittleEndian, Class::ELF64, 1, 0, &need);
    let strings = StringTable::new(b"\0lib\0V1\0");
    let versions = SymbolVersionTable::new(indexes, Some((needs, strings)), None);
    let indexed = IndexedVersions::new(rt.alloc(), &versions)?;
    let want = SymbolRequirement {
        file: "lib",
        name: "V1",
        hash: 0x1234_5678,
        flags: 2,
        hidden: false,
    };
    assert!(rt; indexed.get_requirement(0)? == Some(want));
    Ok(())
}

/// How many mappings there are, more than files have.
const MAPPINGS: u16 = 1000;

/// A file whose segments of type `PT_LOAD` have one byte of memory, at every other address.
fn many_mappings(alloc: Global) -> Result<Vec<u8>, AllocError> {
    let [low, high] = MAPPINGS.to_le_bytes();
    // e_phoff, e_phentsize, e_phnum
    let mut file = bytes_at(
        alloc,
        64,
        &[(0, IDENT), (32, &[64]), (54, &[56]), (56, &[low, high])],
    )?;
    for place in 0..MAPPINGS {
        let [low, high] = (2 * place).to_le_bytes();
        // p_type, p_vaddr, p_memsz
        let segment = bytes_at(alloc, 56, &[(0, &[1]), (16, &[low, high]), (40, &[1])])?;
        file.extend_from_slice(&segment)?;
    }
    Ok(file)
}

#[test]
fn many_mappings_have_a_plan(rt: HostRuntime) -> Result<(), Fail> {
    let data = many_mappings(rt.alloc())?;
    let file = ElfBytes::<LittleEndian>::minimal_parse(&data)?;
    let plan = load_plan(rt.alloc(), &file)?;
    let addresses = plan.iter().map(|mapping| mapping.address);
    assert!(rt; addresses.eq((0..MAPPINGS).map(|place| 2 * place as u64)));
    Ok(())
}

/// How many libraries are needed, more than files need.
const LIBRARIES: usize = 1000;

/// Where the dynamic entries end and the string table begins, and where this ends with the file.
const STRINGS: u32 = 176 + 16 * (LIBRARIES as u32 + 2);

const STRINGS_SIZE: u32 = 1 << 21;

/// A file that needs `lib` again and again, in a string table of two mebibytes.
fn many_needed(alloc: Global) -> Result<Vec<u8>, AllocError> {
    let start = STRINGS.to_le_bytes();
    let size = STRINGS_SIZE.to_le_bytes();
    let end = (STRINGS + STRINGS_SIZE).to_le_bytes();
    let entries = (STRINGS - 176).to_le_bytes();
    let mut file = bytes_at(
        alloc,
        (STRINGS + STRINGS_SIZE) as usize,
        &[
            (0, IDENT),
            // e_phoff, e_phentsize, e_phnum
            (32, &[64]),
            (54, &[56]),
            (56, &[2]),
            // a segment of type PT_LOAD: p_filesz
            (64, &[1]),
            (96, &end),
            // a segment of type PT_DYNAMIC: p_offset, p_filesz
            (120, &[2]),
            (128, &[176]),
            (152, &entries),
            // DT_STRTAB, DT_STRSZ
            (176, &[5]),
            (184, &start),
            (192, &[10]),
            (200, &size),
            (STRINGS as usize, b"\0lib\0"),
        ],
    )?;
    // DT_NEEDED, and the offset of the name: both have the value 1
    for byte in file.iter_mut().skip(208).step_by(8).take(2 * LIBRARIES) {
        *byte = 1;
    }
    Ok(file)
}

#[test]
fn many_needed_libraries_are_named(rt: HostRuntime) -> Result<(), Fail> {
    let data = many_needed(rt.alloc())?;
    let source = MemSource::new(&data);
    let mut stream = ElfStream::<LittleEndian, _, _>::open_stream(rt.alloc(), source)?;
    let names = read_dynamic_names(rt.alloc(), &mut stream)?.ok_or("no entries")?;
    let named = names
        .libraries
        .iter()
        .filter(|library| names.bytes(&library.name) == b"lib".as_slice());
    assert!(rt; named.count() == LIBRARIES);
    Ok(())
}

/// How many symbols have a version index, which together take more than a mebibyte.
const SYMBOLS: u32 = 600_000;

/// A file of two sections: an empty one, and the version indexes, which are 0 except for the last one.
fn many_indexes(alloc: Global) -> Result<Vec<u8>, AllocError> {
    let size = (2 * SYMBOLS).to_le_bytes();
    bytes_at(
        alloc,
        (192 + 2 * SYMBOLS) as usize,
        &[
            (0, IDENT),
            // e_shoff, e_shentsize, e_shnum
            (40, &[64]),
            (58, &[64]),
            (60, &[2]),
            // sh_type, sh_offset, sh_size, sh_entsize
            (132, &[0xff, 0xff, 0xff, 0x6f]),
            (152, &[192]),
            (160, &size),
            (184, &[2]),
            ((190 + 2 * SYMBOLS) as usize, &[7]),
        ],
    )
}

#[test]
fn many_version_indexes_are_read(rt: HostRuntime) -> Result<(), Fail> {
    let data = many_indexes(rt.alloc())?;
    let source = MemSource::new(&data);
    let mut stream = ElfStream::<LittleEndian, _, _>::open_stream(rt.alloc(), source)?;
    let versions = stream.symbol_version_table()?.ok_or("no versions")?;
    let index = versions.get_index(SYMBOLS as usize - 1)?;
    assert!(rt; index.index() == 7);
    Ok(())
}
