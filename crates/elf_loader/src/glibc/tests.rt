//! What the dynamic linker of the GNU C library 2.36 on x86-64 did with a small library, and with changes of it.
use crate::glibc::reading::verdict_of;
use crate::glibc::{Candidate, Kind, Loadable, Refusal, SkipReason, verdict};
use elf::endian::AnyEndian;
use elf::file::Class;
use elf::{LoadedParts, MemSource, abi};
use std::alloc::Global;

const KIND: Kind = Kind {
    class: Class::ELF64,
    order: AnyEndian::Little,
    machine: abi::EM_X86_64,
    page_size: 0x1000,
    address_space: 0x7fff_ffff_f000,
};

// A library with no symbols: the file header, a segment PT_LOAD, a segment PT_DYNAMIC and one that is not used, the
// dynamic entries from 0xf0 on, a hash table at 0x170, the first symbol, and an empty string. The entries at 0x140 and
// 0x150 have a tag that nobody knows.
const FILE: [u8; 0x1b0] = [
    0x7f, 0x45, 0x4c, 0x46, 0x02, 0x01, 0x01, 0x00, 0x00, 0x00, 0x00, 0x00, 0x00, 0x00, 0x00, 0x00,
    0x03, 0x00, 0x3e, 0x00, 0x01, 0x00, 0x00, 0x00, 0x00, 0x00, 0x00, 0x00, 0x00, 0x00, 0x00, 0x00,
    0x40, 0x00, 0x00, 0x00, 0x00, 0x00, 0x00, 0x00, 0x00, 0x00, 0x00, 0x00, 0x00, 0x00, 0x00, 0x00,
    0x00, 0x00, 0x00, 0x00, 0x40, 0x00, 0x38, 0x00, 0x03, 0x00, 0x40, 0x00, 0x00, 0x00, 0x00, 0x00,
    0x01, 0x00, 0x00, 0x00, 0x06, 0x00, 0x00, 0x00, 0x00, 0x00, 0x00, 0x00, 0x00, 0x00, 0x00, 0x00,
    0x00, 0x00, 0x00, 0x00, 0x00, 0x00, 0x00, 0x00, 0x00, 0x00, 0x00, 0x00, 0x00, 0x00, 0x00, 0x00,
    0xb0, 0x01, 0x00, 0x00, 0x00, 0x00, 0x00, 0x00, 0xb0, 0x01, 0x00, 0x00, 0x00, 0x00, 0x00, 0x00,
    0x00, 0x10, 0x00, 0x00, 0x00, 0x00, 0x00, 0x00, 0x02, 0x00, 0x00, 0x00, 0x06, 0x00, 0x00, 0x00,
    0xf0, 0x00, 0x00, 0x00, 0x00, 0x00, 0x00, 0x00, 0xf0, 0x00, 0x00, 0x00, 0x00, 0x00, 0x00, 0x00,
    0xf0, 0x00, 0x00, 0x00, 0x00, 0x00, 0x00, 0x00, 0x80, 0x00, 0x00, 0x00, 0x00, 0x00, 0x00, 0x00,
    0x80, 0x00, 0x00, 0x00, 0x00, 0x00, 0x00, 0x00, 0x08, 0x00, 0x00, 0x00, 0x00, 0x00, 0x00, 0x00,
    0x00, 0x00, 0x00, 0x00, 0x00, 0x00, 0x00, 0x00, 0x00, 0x00, 0x00, 0x00, 0x00, 0x00, 0x00, 0x00,
    0x00, 0x00, 0x00, 0x00, 0x00, 0x00, 0x00, 0x00, 0x00, 0x00, 0x00, 0x00, 0x00, 0x00, 0x00, 0x00,
    0x00, 0x00, 0x00, 0x00, 0x00, 0x00, 0x00, 0x00, 0x00, 0x00, 0x00, 0x00, 0x00, 0x00, 0x00, 0x00,
    0x00, 0x00, 0x00, 0x00, 0x00, 0x00, 0x00, 0x00, 0x00, 0x00, 0x00, 0x00, 0x00, 0x00, 0x00, 0x00,
    0xf5, 0xfe, 0xff, 0x6f, 0x00, 0x00, 0x00, 0x00, 0x70, 0x01, 0x00, 0x00, 0x00, 0x00, 0x00, 0x00,
    0x05, 0x00, 0x00, 0x00, 0x00, 0x00, 0x00, 0x00, 0xa8, 0x01, 0x00, 0x00, 0x00, 0x00, 0x00, 0x00,
    0x06, 0x00, 0x00, 0x00, 0x00, 0x00, 0x00, 0x00, 0x90, 0x01, 0x00, 0x00, 0x00, 0x00, 0x00, 0x00,
    0x0a, 0x00, 0x00, 0x00, 0x00, 0x00, 0x00, 0x00, 0x01, 0x00, 0x00, 0x00, 0x00, 0x00, 0x00, 0x00,
    0x0b, 0x00, 0x00, 0x00, 0x00, 0x00, 0x00, 0x00, 0x18, 0x00, 0x00, 0x00, 0x00, 0x00, 0x00, 0x00,
    0x00, 0xfd, 0xff, 0x6f, 0x00, 0x00, 0x00, 0x00, 0x00, 0x00, 0x00, 0x00, 0x00, 0x00, 0x00, 0x00,
    0x00, 0xfd, 0xff, 0x6f, 0x00, 0x00, 0x00, 0x00, 0x00, 0x00, 0x00, 0x00, 0x00, 0x00, 0x00, 0x00,
    0x00, 0x00, 0x00, 0x00, 0x00, 0x00, 0x00, 0x00, 0x00, 0x00, 0x00, 0x00, 0x00, 0x00, 0x00, 0x00,
    0x01, 0x00, 0x00, 0x00, 0x01, 0x00, 0x00, 0x00, 0x01, 0x00, 0x00, 0x00, 0x00, 0x00, 0x00, 0x00,
    0x00, 0x00, 0x00, 0x00, 0x00, 0x00, 0x00, 0x00, 0x00, 0x00, 0x00, 0x00, 0x00, 0x00, 0x00, 0x00,
    0x00, 0x00, 0x00, 0x00, 0x00, 0x00, 0x00, 0x00, 0x00, 0x00, 0x00, 0x00, 0x00, 0x00, 0x00, 0x00,
    0x00, 0x00, 0x00, 0x00, 0x00, 0x00, 0x00, 0x00, 0x00, 0x00, 0x00, 0x00, 0x00, 0x00, 0x00, 0x00,
];

const LOADED: Candidate = Candidate::Loadable(Loadable {
    start: 0xf0,
    size: 0xc0,
});

// A change of some bytes, by their places, and what the linker did.
type Case = (&'static [(usize, u8)], Candidate);

fn changed(changes: &[(usize, u8)]) -> [u8; 0x1b0] {
    let mut file = FILE;
    for (place, value) in changes {
        if let Some(byte) = file.get_mut(*place) {
            *byte = *value;
        }
    }
    file
}

fn loaded(file: &[u8]) -> LoadedParts<'_> {
    LoadedParts {
        size: file.len() as u64,
        front: file,
        ranges: &[],
    }
}

// The place of the first case with another answer.
fn first_wrong(cases: &[Case]) -> Option<usize> {
    for (place, (changes, expected)) in cases.iter().enumerate() {
        let file = changed(changes);
        if verdict(&KIND, &loaded(&file)) != Ok(*expected) {
            return Some(place);
        }
    }
    None
}

// The same of the files read from sources.
fn first_misread(alloc: Global, cases: &[Case]) -> Option<usize> {
    for (place, (changes, expected)) in cases.iter().enumerate() {
        let file = changed(changes);
        match verdict_of(alloc, &KIND, &mut MemSource::new(&file)) {
            Ok(found) if found == *expected => {}
            _ => return Some(place),
        }
    }
    None
}

#[test]
fn the_header_is_asked(rt: HostRuntime) {
    let wrong = first_wrong(HEADERS);
    assert!(rt; wrong == None, "{wrong:?}");
}

#[test]
fn the_segments_are_asked(rt: HostRuntime) {
    let wrong = first_wrong(SEGMENTS);
    assert!(rt; wrong == None, "{wrong:?}");
}

#[test]
fn the_dynamic_entries_are_asked(rt: HostRuntime) {
    let wrong = first_wrong(ENTRIES);
    assert!(rt; wrong == None, "{wrong:?}");
}

#[test]
fn a_short_file_is_refused(rt: HostRuntime) {
    let short = FILE.get(..63).unwrap_or(&[]);
    assert!(rt; verdict(&KIND, &loaded(short)) == Ok(Candidate::Refused(Refusal::FileTooShort)));
}

#[test]
fn a_file_is_read_by_parts(rt: HostRuntime) {
    let header = LoadedParts {
        size: 0x1b0,
        front: FILE.get(..64).unwrap_or(&[]),
        ranges: &[],
    };
    assert!(rt; verdict(&KIND, &header) == Err((0x40, 0xe8)));
}

#[test]
fn sources_are_asked(rt: HostRuntime) {
    for cases in [HEADERS, SEGMENTS, ENTRIES] {
        let wrong = first_misread(rt.alloc(), cases);
        assert!(rt; wrong == None, "{wrong:?}");
    }
}

static HEADERS: &[Case] = &[
    (&[], LOADED),
    (&[(1, 70)], Candidate::Refused(Refusal::InvalidHeader)),
    (&[(4, 1)], Candidate::Skipped(SkipReason::NotElf64)),
    (&[(5, 2)], Candidate::Refused(Refusal::NotLittleEndian)),
    (
        &[(5, 2), (6, 9), (7, 9)],
        Candidate::Refused(Refusal::NotLittleEndian),
    ),
    (&[(6, 0)], Candidate::Refused(Refusal::IdentVersion)),
    (&[(6, 9), (7, 9)], Candidate::Refused(Refusal::IdentVersion)),
    (&[(7, 9)], Candidate::Refused(Refusal::OsAbi)),
    (&[(7, 9), (8, 9)], Candidate::Refused(Refusal::OsAbi)),
    (&[(7, 3), (8, 3)], LOADED),
    (&[(7, 3), (8, 4)], Candidate::Refused(Refusal::AbiVersion)),
    (&[(8, 1)], Candidate::Refused(Refusal::AbiVersion)),
    (&[(8, 9), (9, 1)], Candidate::Refused(Refusal::AbiVersion)),
    (&[(9, 1), (20, 0)], Candidate::Refused(Refusal::Padding)),
    (&[(15, 1)], Candidate::Refused(Refusal::Padding)),
    (&[(20, 2)], Candidate::Refused(Refusal::Version)),
    (&[(18, 3), (20, 0)], Candidate::Refused(Refusal::Version)),
    (
        &[(18, 3), (16, 1)],
        Candidate::Skipped(SkipReason::OtherMachine),
    ),
    (&[(16, 1), (54, 1)], Candidate::Refused(Refusal::Type)),
    (&[(16, 4)], Candidate::Refused(Refusal::Type)),
    (&[(54, 32)], Candidate::Refused(Refusal::HeaderSize)),
    (&[(33, 1)], Candidate::Refused(Refusal::HeadersOutside)),
    (&[(33, 1), (56, 0)], Candidate::Refused(Refusal::NoLoad)),
];

static SEGMENTS: &[Case] = &[
    (&[(72, 8)], Candidate::Refused(Refusal::Misaligned)),
    (
        &[(64, 4), (72, 8), (16, 2)],
        Candidate::Refused(Refusal::NoLoad),
    ),
    (&[(64, 4)], Candidate::Refused(Refusal::NoLoad)),
    (&[(16, 2)], Candidate::Refused(Refusal::Executable)),
    (
        &[(16, 2), (120, 4)],
        Candidate::Refused(Refusal::Executable),
    ),
    (&[(120, 4)], Candidate::Refused(Refusal::NoDynamic)),
    (&[(152, 0)], Candidate::Refused(Refusal::NoDynamic)),
    (&[(152, 1)], LOADED),
    (&[(136, 0)], Candidate::Refused(Refusal::NoDynamic)),
    (&[(139, 64)], Candidate::Refused(Refusal::DynamicOutside)),
    (
        &[(104, 0), (105, 0), (109, 128)],
        Candidate::Refused(Refusal::NoRoom),
    ),
    (&[(113, 0), (119, 64)], Candidate::Refused(Refusal::NoRoom)),
    (&[(119, 64)], LOADED),
    (&[(113, 0), (117, 32)], LOADED),
    (
        &[
            (176, 1),
            (180, 6),
            (194, 1),
            (202, 1),
            (208, 176),
            (209, 1),
            (216, 176),
            (217, 1),
            (225, 16),
        ],
        LOADED,
    ),
    (
        &[
            (176, 1),
            (180, 6),
            (184, 8),
            (194, 1),
            (202, 1),
            (208, 176),
            (209, 1),
            (216, 176),
            (217, 1),
            (225, 16),
        ],
        Candidate::Refused(Refusal::Misaligned),
    ),
    (
        &[
            (176, 1),
            (180, 6),
            (194, 1),
            (202, 1),
            (208, 176),
            (209, 1),
            (216, 176),
            (217, 1),
            (231, 64),
        ],
        Candidate::Refused(Refusal::NoRoom),
    ),
    (
        &[
            (176, 1),
            (180, 6),
            (208, 176),
            (209, 1),
            (216, 176),
            (217, 1),
            (225, 16),
        ],
        Candidate::Refused(Refusal::Overlapping),
    ),
    (
        &[
            (82, 1),
            (176, 1),
            (180, 6),
            (208, 176),
            (209, 1),
            (216, 176),
            (217, 1),
            (225, 16),
        ],
        Candidate::Refused(Refusal::NoRoom),
    ),
    (
        &[(176, 2), (180, 6), (224, 8)],
        Candidate::Refused(Refusal::NoDynamic),
    ),
    (
        &[
            (176, 2),
            (180, 6),
            (184, 240),
            (208, 128),
            (216, 128),
            (224, 8),
        ],
        Candidate::Refused(Refusal::NoDynamic),
    ),
    (
        &[
            (176, 2),
            (180, 6),
            (184, 240),
            (195, 64),
            (203, 64),
            (208, 128),
            (216, 128),
            (224, 8),
        ],
        Candidate::Refused(Refusal::DynamicOutside),
    ),
    (
        &[
            (136, 0),
            (176, 2),
            (180, 6),
            (184, 240),
            (192, 240),
            (200, 240),
            (208, 128),
            (216, 128),
            (224, 8),
        ],
        LOADED,
    ),
];

static ENTRIES: &[Case] = &[
    (
        &[(320, 20), (321, 0), (322, 0), (323, 0), (328, 17)],
        Candidate::Refused(Refusal::PltKind),
    ),
    (
        &[(320, 7), (321, 0), (322, 0), (323, 0)],
        Candidate::Refused(Refusal::NoRelaSize),
    ),
    (
        &[
            (320, 7),
            (321, 0),
            (322, 0),
            (323, 0),
            (336, 9),
            (337, 0),
            (338, 0),
            (339, 0),
            (344, 16),
        ],
        Candidate::Refused(Refusal::RelaSize),
    ),
    (
        &[
            (320, 7),
            (321, 0),
            (322, 0),
            (323, 0),
            (336, 9),
            (337, 0),
            (338, 0),
            (339, 0),
            (344, 24),
        ],
        LOADED,
    ),
    (
        &[(320, 36), (321, 0), (322, 0), (323, 0)],
        Candidate::Refused(Refusal::NoRelrSize),
    ),
    (
        &[
            (320, 36),
            (321, 0),
            (322, 0),
            (323, 0),
            (336, 37),
            (337, 0),
            (338, 0),
            (339, 0),
            (344, 4),
        ],
        Candidate::Refused(Refusal::RelrSize),
    ),
    (&[(320, 17), (321, 0), (322, 0), (323, 0)], LOADED),
    (
        &[(320, 251), (321, 255), (331, 8)],
        Candidate::Refused(Refusal::PositionIndependent),
    ),
    (
        &[
            (320, 251),
            (321, 255),
            (331, 8),
            (336, 251),
            (337, 255),
            (344, 1),
        ],
        LOADED,
    ),
    (
        &[(320, 245), (321, 254), (331, 64)],
        Candidate::Refused(Refusal::HashOutside),
    ),
    (
        &[
            (320, 245),
            (321, 254),
            (331, 64),
            (336, 245),
            (337, 254),
            (344, 112),
            (345, 1),
        ],
        LOADED,
    ),
    (
        &[
            (320, 251),
            (321, 255),
            (331, 8),
            (336, 20),
            (337, 0),
            (338, 0),
            (339, 0),
            (344, 17),
        ],
        Candidate::Refused(Refusal::PltKind),
    ),
    (&[(376, 3)], Candidate::Refused(Refusal::HashWords)),
    (&[(376, 2)], LOADED),
    (
        &[(320, 251), (321, 255), (331, 8), (376, 3)],
        Candidate::Refused(Refusal::PositionIndependent),
    ),
    (
        &[
            (321, 0),
            (322, 0),
            (323, 0),
            (336, 20),
            (337, 0),
            (338, 0),
            (339, 0),
            (344, 17),
        ],
        LOADED,
    ),
];
