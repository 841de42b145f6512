//! How much of a source is loaded for look-ups.
use crate::sizes::{IDENT, bytes_at};
use crate::small_files::HASHED;
use crate::sources::{Plan, open};
use elf_linking::links::load_links;
use std::alloc::{AllocError, Global};
use std::test::Fail;

/// How many bytes a source gives for a file with its headers, and then for its links.
fn loaded_of(rt: &HostRuntime, file: &[u8]) -> Result<(u64, u64), Fail> {
    let plan = Plan::new(usize::MAX, None);
    let mut stream = open(rt.alloc(), file, &plan)?;
    let (_, headers) = plan.taken();
    load_links(&mut stream)?;
    let (_, links) = plan.taken();
    Ok((headers, links))
}

/// How many zeros follow a file, more than it has bytes.
const UNUSED: usize = 1 << 16;

#[test]
fn what_look_ups_do_not_use_is_not_loaded(rt: HostRuntime) -> Result<(), Fail> {
    let file = bytes_at(rt.alloc(), HASHED.len() + UNUSED, &[(0, &HASHED)])?;
    let (headers, links) = loaded_of(&rt, &file)?;
    // The strings, the symbols and the GNU hash section.
    let used = 3 + 32 + 28;
    assert!(rt;
        headers <= HASHED.len() as u64 && links == used,
        "{headers} {links}"
    );
    Ok(())
}

/// How many sections of relocations a file has, and how many bytes each of them has.
const SECTIONS: u8 = 32;

const RELOCATIONS: u64 = 24 << 10;

/// A 64-bit file whose sections of relocations lie over one another, each a little after the last. They are of symbols
/// for dynamic linking, which are none.
fn overlapping(alloc: Global) -> Result<Vec<u8>, AllocError> {
    let first = 64 + 64 * (SECTIONS as u64 + 2);
    // e_shoff, e_shentsize, e_shnum
    let header: [(usize, &[u8]); 4] = [(0, IDENT), (40, &[64]), (58, &[64]), (60, &[SECTIONS + 2])];
    let mut file = bytes_at(alloc, 64, &header)?;
    // a section of type SHT_NULL, and one of type SHT_DYNSYM: sh_link, sh_entsize
    file.extend_from_slice(&bytes_at(alloc, 64, &[])?)?;
    file.extend_from_slice(&bytes_at(alloc, 64, &[(4, &[11]), (56, &[24])])?)?;
    for place in 0..SECTIONS {
        let start = (first + 24 * place as u64).to_le_bytes();
        let size = RELOCATIONS.to_le_bytes();
        // one of type SHT_RELA: sh_offset, sh_size, sh_link, sh_entsize
        let section: [(usize, &[u8]); 5] = [
            (4, &[4]),
            (24, &start),
            (32, &size),
            (40, &[1]),
            (56, &[24]),
        ];
        file.extend_from_slice(&bytes_at(alloc, 64, &section)?)?;
    }
    let rest = RELOCATIONS + 24 * SECTIONS as u64;
    file.extend_from_slice(&bytes_at(alloc, rest as usize, &[])?)?;
    Ok(file)
}

#[test]
fn sections_that_overlap_are_not_loaded_one_by_one(rt: HostRuntime) -> Result<(), Fail> {
    let file = overlapping(rt.alloc())?;
    let (_, links) = loaded_of(&rt, &file)?;
    assert!(rt;
        links >= RELOCATIONS && links <= 2 * file.len() as u64,
        "{links}"
    );
    Ok(())
}
