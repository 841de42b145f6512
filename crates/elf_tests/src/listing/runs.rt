//! Runs of a user's own order and of many calls.
use crate::listing::texts::{HEADER_LINE, TWO_SECTION_LINES};
use crate::small_files::{HEADER_ALONE, TWO_SECTIONS_BIG};
use crate::user_types::order::FileOrder;
use elfshow::file_system::MemFile;
use elfshow::runs::{Call, run_bytes};
use elfshow::show::show;
use std::alloc::AllocError;
use std::io::BufWriter;
use std::test::Fail;

#[test]
fn a_users_order_lists_sections(rt: HostRuntime) -> Result<(), Fail> {
    let mut out = Vec::new(rt.alloc());
    run_bytes::<FileOrder, Vec<u8>>(&TWO_SECTIONS_BIG, &[Call::Sections], &mut out)?;
    assert!(rt; out.as_slice() == TWO_SECTION_LINES.as_bytes());
    Ok(())
}

/// How many pairs of calls the long run has.
const PAIRS: usize = 300;

/// Asserts that a text is the lines of `PAIRS` pairs of calls for the header and the sections of a header alone.
fn is_pairs(text: &[u8]) -> bool {
    let mut rest = text;
    for _ in 0..PAIRS {
        for line in [HEADER_LINE, "end 0\n"] {
            match rest.strip_prefix(line.as_bytes()) {
                Some(others) => rest = others,
                None => return false,
            }
        }
    }
    rest.is_empty()
}

/// `PAIRS` pairs of two items after the first ones.
fn with_pairs<T: Copy>(mut items: Vec<T>, pair: [T; 2]) -> Result<Vec<T>, AllocError> {
    for _ in 0..PAIRS {
        items.extend_from_slice(&pair)?;
    }
    Ok(items)
}

#[test]
fn many_words_are_shown(rt: HostRuntime) -> Result<(), Fail> {
    let first = vec![in rt.alloc(); "bytes", "F"]?;
    let words = with_pairs(first, ["header", "sections"])?;
    let files = MemFile {
        alloc: rt.alloc(),
        bytes: &HEADER_ALONE,
    };
    let mut out = BufWriter::new(rt.alloc(), Vec::new(rt.alloc()))?;
    let mut err = Vec::new(rt.alloc());
    let status = show(rt.alloc(), words.as_slice(), &files, &mut out, &mut err);
    let text = out.get_ref().as_slice();
    assert!(rt; status == 0 && err.is_empty() && is_pairs(text));
    Ok(())
}
