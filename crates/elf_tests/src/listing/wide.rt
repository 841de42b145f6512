//! A file of many sections.
use crate::listing::writers::{PlannedWriter, WILLING};
use crate::sizes::{IDENT, bytes_at};
use elf::endian::LittleEndian;
use elfshow::runs::{Call, run_bytes};
use std::alloc::{AllocError, Global};
use std::io::BufWriter;
use std::test::Fail;

/// How many sections there are, more than a header can hold.
const COUNT: u32 = 65000;

/// Where the names lie: after the section headers, which begin at 64.
const NAMES: u32 = 64 + 64 * COUNT;

/// The line of a section, without its number and with each of its numbers 0.
const LINE: &str =
    "section  name=.data nameoff=0 type=0 flags=0x0 addr=0x0 offset=0 size=0 link=0 info=0 align=0 entsize=0\n";

/// The digits of the numbers from 0 to 64,999: one digit each for ten of them, two for 90, and so on.
const DIGITS: u64 = 10 + 2 * 90 + 3 * 900 + 4 * 9_000 + 5 * 55_000;

/// The digits by which the first two lines are longer: those of the number of sections, and of the offset of the names.
const MORE_DIGITS: u64 = 4 + 6;

/// How many bytes the listing has, with the last line.
const TEXT: u64 = COUNT as u64 * LINE.len() as u64 + DIGITS + MORE_DIGITS + END.len() as u64;

/// The last line.
const END: &[u8; 10] = b"end 65000\n";

/// How many bytes are held back until they are written at once.
const BUFFER: usize = 65536;

/// How many writes that takes at least, since none has more bytes than the buffer.
const FEWEST_WRITES: usize = 108;

/// How many writes that takes at most. Each of them but the last is of a buffer that has no room for the lines that
/// come next, which have at most 1,024 bytes. So it has at least 64,512 bytes, which go 109 times into the text.
const MOST_WRITES: usize = 110;

/// The first section has the number of sections, and the second the names.
fn many_sections(alloc: Global) -> Result<Vec<u8>, AllocError> {
    let [count, more, ..] = COUNT.to_le_bytes();
    let offset = NAMES.to_le_bytes();
    bytes_at(
        alloc,
        NAMES as usize + 6,
        &[
            (0, IDENT),
            // e_shoff, e_shentsize, e_shstrndx
            (40, &[64]),
            (58, &[64]),
            (62, &[1]),
            // sh_size of the first section
            (96, &[count, more]),
            // sh_offset and sh_size of the second
            (152, &offset),
            (160, &[6]),
            (NAMES as usize, b".data\0"),
        ],
    )
}

#[test]
fn a_long_listing_is_written_a_buffer_at_a_time(rt: HostRuntime) -> Result<(), Fail> {
    let data = many_sections(rt.alloc())?;
    let mut inner = PlannedWriter::new(rt.alloc(), WILLING);
    {
        let mut out = BufWriter::with_capacity(rt.alloc(), BUFFER, &mut inner)?;
        run_bytes::<LittleEndian, _>(data.as_slice(), &[Call::Sections], &mut out)?;
    }
    let is_whole = inner.written.len() as u64 == TEXT && inner.written.ends_with(END);
    assert!(rt; is_whole && (FEWEST_WRITES..=MOST_WRITES).contains(&inner.writes));
    Ok(())
}
