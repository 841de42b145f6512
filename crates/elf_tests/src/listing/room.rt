//! Runs in little memory. `rt try --test` has an allocator of its own, which does not run out: there these tests fail.
use crate::listing::writers::{PlannedWriter, WILLING};
use crate::memory::all_memory_but;
use crate::sizes::bytes_at;
use crate::small_files::HASHED;
use elf::{MemSource, ParseError};
use elfshow::file_system::MemFile;
use elfshow::runs::{Call, RunError};
use elfshow::show::{run_both, run_source, show};
use std::alloc::{AllocError, Global};
use std::io;
use std::io::BufWriter;
use std::test::Fail;

const MEBIBYTE: usize = 1 << 20;

/// The size of the large section. The C library maps a block of more than 32 MiB on its own, and unmaps it when it is
/// freed.
const SECTION: usize = 40 * MEBIBYTE;

/// A writer that has room for a line, so that it takes no memory when it is used.
fn line_writer(alloc: Global) -> Result<PlannedWriter, AllocError> {
    Ok(PlannedWriter::with_room(Vec::with_capacity(alloc, 128)?, WILLING))
}

/// What the check of the section writes: its one bucket has the one symbol that it indexes.
const SOUND: &str = "sound indexed=1\n";

/// The file of two hash sections, in which the SysV section, at 116, has zeros after its chains up to this size.
fn with_large_section(alloc: Global) -> Result<Vec<u8>, AllocError> {
    let size = (SECTION as u32).to_le_bytes();
    // sh_size of section 4
    bytes_at(alloc, 116 + SECTION, &[(0, &HASHED), (316, &size)])
}

// The stream caches the section, and the check reads it there.
#[test]
fn a_checked_section_is_not_copied(rt: HostRuntime) -> Result<(), Fail> {
    let alloc = rt.alloc();
    let data = with_large_section(alloc)?;
    let mut out = line_writer(alloc)?;
    let source = MemSource::new(data.as_slice());
    let blocks = all_memory_but(alloc, SECTION + 20 * MEBIBYTE)?;
    let stopped = run_source(alloc, source, &[Call::Sysv(4)], &mut out);
    drop(blocks);
    assert!(rt; stopped.is_ok() && out.written.as_slice() == SOUND.as_bytes());
    Ok(())
}

// There is no memory for the section, after the first call of the second run.
#[test]
fn the_second_run_of_both_counts_its_calls(rt: HostRuntime) -> Result<(), Fail> {
    let alloc = rt.alloc();
    let data = with_large_section(alloc)?;
    let mut out = line_writer(alloc)?;
    let calls = [Call::Header, Call::Sysv(4)];
    let blocks = all_memory_but(alloc, 20 * MEBIBYTE)?;
    let stopped = run_both(alloc, data.as_slice(), &calls, &mut out);
    drop(blocks);
    let is_counted = match &stopped {
        Err(RunError::Fault { done, error }) => *done == 1
            && matches!(error, ParseError::OutOfMemory),
        _ => false,
    };
    assert!(rt; is_counted && out.written.is_empty());
    Ok(())
}

// There is memory for one copy of the file, and for few calls.
#[test]
fn a_file_in_memory_is_copied_once(rt: HostRuntime) -> io::Result<()> {
    let alloc = rt.alloc();
    let data = with_large_section(alloc)?;
    let mut out = BufWriter::with_capacity(alloc, 0, line_writer(alloc)?)?;
    let mut err = line_writer(alloc)?;
    let files = MemFile {
        alloc,
        bytes: data.as_slice(),
    };
    let words = ["bytes", "F", "sysv=4"];
    let blocks = all_memory_but(alloc, SECTION + 8 * MEBIBYTE)?;
    let status = show(alloc, &words, &files, &mut out, &mut err);
    drop(blocks);
    let text = out.get_ref().written.as_slice();
    assert!(rt; status == 0 && err.written.is_empty() && text == SOUND.as_bytes());
    Ok(())
}
