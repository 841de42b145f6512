//! How often the writer of a run is flushed, and that nothing is written after a failed write.
use crate::listing::writers::{Plan, PlannedWriter, WILLING};
use crate::sizes::bytes_at;
use crate::small_files::VERSIONED;
use elf::MemSource;
use elf::endian::AnyEndian;
use elfshow::runs::{Call, RunError, run_bytes};
use elfshow::show::run_source;
use std::alloc::{AllocError, Global};

/// Each kind of call.
const CALLS: [Call; 17] = [
    Call::Header,
    Call::Sections,
    Call::Segments,
    Call::Name(""),
    Call::Data(2),
    Call::Strings(2),
    Call::Rels(2),
    Call::Relas(2),
    Call::Notes(2),
    Call::Seg(0),
    Call::SegNotes(0),
    Call::Symbols,
    Call::DynSyms,
    Call::Dynamic,
    Call::Versions,
    Call::Sysv(4),
    Call::Gnu(3),
];

/// The types of section 2: symbols, strings, relocations, notes, dynamic entries and so on.
const TYPES: [u8; 10] = [2, 3, 4, 5, 6, 7, 8, 9, 10, 11];

/// The file of five sections with another type of section 2, with 1,600 bytes in that section, and with a segment of
/// notes after it. So most lists of the section do not fit into the buffer of a line.
fn with_type(alloc: Global, kind: u8) -> Result<Vec<u8>, AllocError> {
    bytes_at(
        alloc,
        2000,
        &[
            (0, &VERSIONED),
            // sh_type, sh_size and sh_addralign of section 2
            (220, &[kind]),
            (236, &[0x40, 0x06]),
            (248, &[4]),
            // e_phoff, e_phentsize, e_phnum
            (28, &[0xa4, 0x06]),
            (42, &[32]),
            (44, &[1]),
            // p_type, p_offset, p_filesz, p_align
            (1700, &[4]),
            (1704, &[0x08, 0x07]),
            (1716, &[120]),
            (1728, &[4]),
        ],
    )
}

/// Runs all calls by one of the readers.
fn run(
    alloc: Global,
    is_stream: bool,
    data: &[u8],
    out: &mut PlannedWriter,
) -> Result<(), RunError> {
    if is_stream {
        run_source(alloc, MemSource::new(data), &CALLS, out)
    } else {
        run_bytes::<AnyEndian, PlannedWriter>(data, &CALLS, out)
    }
}

/// Whether a run flushes its writer once for each call.
fn is_flushed(alloc: Global, is_stream: bool, data: &[u8]) -> bool {
    let mut out = PlannedWriter::new(alloc, WILLING);
    run(alloc, is_stream, data, &mut out).is_ok() && out.flushes == CALLS.len()
}

/// Whether a run does not use its writer after a failed write, whichever of the first writes it is.
fn is_silent(alloc: Global, is_stream: bool, data: &[u8]) -> bool {
    for writes_before in 0..20 {
        let plan = Plan {
            writes_before,
            ..WILLING
        };
        let mut out = PlannedWriter::new(alloc, plan);
        let stopped = run(alloc, is_stream, data, &mut out);
        if !matches!(&stopped, Err(RunError::Write { .. })) || out.is_used_after_failure {
            return false;
        }
    }
    true
}

#[test]
fn each_call_is_flushed_once(rt: HostRuntime) -> Result<(), AllocError> {
    for kind in TYPES {
        let data = with_type(rt.alloc(), kind)?;
        for is_stream in [false, true] {
            let is_flushed = is_flushed(rt.alloc(), is_stream, &data);
            assert!(rt;
                is_flushed && is_silent(rt.alloc(), is_stream, &data),
                "{kind}"
            );
        }
    }
    Ok(())
}
