//! Files of 256 bytes, each the answer of which is that of Linux 6.18 to a run of these bytes.
use super::{
    Answer, ExecError, HeaderFault, Image, MemoryFault, Part, PathFault, Platform, Refusal,
    SegmentFault, load, read_interpreter, read_program,
};
use elf::LoadedParts;
use elf_records::slices::first_of;

/// A byte and its place.
type Edit = (usize, u8);

/// A position-independent program that ends at once, and serves as its own interpreter, `./x`.
const FILE: [Edit; 28] = [
    // the magic, ELFCLASS64, ET_DYN, EM_X86_64, e_entry, e_phoff, e_phentsize, e_phnum
    (0, 0x7f),
    (1, b'E'),
    (2, b'L'),
    (3, b'F'),
    (4, 2),
    (16, 3),
    (18, 62),
    (24, 200),
    (32, 64),
    (54, 56),
    (56, 2),
    // PT_LOAD, PF_R and PF_X, p_filesz, p_memsz
    (64, 1),
    (68, 5),
    (97, 1),
    (105, 1),
    // PT_INTERP, p_offset, p_filesz
    (120, 3),
    (128, 240),
    (152, 4),
    // xor edi, edi; mov eax, 60; syscall
    (200, 0x31),
    (201, 0xff),
    (202, 0xb8),
    (203, 60),
    (207, 0x0f),
    (208, 5),
    // the path
    (240, b'.'),
    (241, b'/'),
    (242, b'x'),
    (243, 0),
];

/// The file with these bytes in place of its own.
fn edited(edits: &[Edit]) -> [u8; 256] {
    let mut bytes = [0; 256];
    for (place, byte) in FILE.iter().chain(edits.iter()) {
        if let Some(at) = bytes.get_mut(*place) {
            *at = *byte;
        }
    }
    bytes
}

/// All bytes of a file.
fn whole(bytes: &[u8]) -> LoadedParts<'_> {
    LoadedParts {
        size: bytes.len() as u64,
        front: bytes,
        ranges: &[],
    }
}

fn x86_64() -> Option<Platform> {
    Platform::named(&edited(&[]))
}

/// Why the edited file is no program.
fn program_error(edits: &[Edit]) -> Option<ExecError> {
    read_program(&x86_64()?, &whole(&edited(edits))).err()
}

/// Why the first bytes of the edited file are no interpreter.
fn interpreter_error(edits: &[Edit], count: usize) -> Option<ExecError> {
    read_interpreter(&x86_64()?, &whole(edited(edits).get(..count)?)).err()
}

/// Why the edited file cannot be loaded with the file as its interpreter, if it names one.
fn program_fault(edits: &[Edit]) -> Option<Refusal> {
    let bytes = edited(edits);
    let file = edited(&[]);
    let platform = x86_64()?;
    let program = read_program(&platform, &whole(&bytes)).ok()?;
    let interpreter = match program.interpreter {
        Some(_) => Some(read_interpreter(&platform, &whole(&file)).ok()?),
        None => None,
    };
    load(&platform, &program.image, interpreter.as_ref()).err()
}

/// Why the edited file cannot be loaded as the interpreter of the file.
fn interpreter_fault(edits: &[Edit]) -> Option<Refusal> {
    let bytes = edited(edits);
    let file = edited(&[]);
    let platform = x86_64()?;
    let program = read_program(&platform, &whole(&file)).ok()?;
    let interpreter = read_interpreter(&platform, &whole(&bytes)).ok()?;
    load(&platform, &program.image, Some(&interpreter)).err()
}

fn header(part: Part, fault: HeaderFault) -> Option<ExecError> {
    Some(ExecError::Refused(Refusal::Header { part, fault }))
}

fn path(fault: PathFault) -> Option<ExecError> {
    Some(ExecError::Refused(Refusal::Path(fault)))
}

fn memory(part: Part, fault: MemoryFault) -> Option<Refusal> {
    Some(Refusal::Memory { part, fault })
}

fn segment(address: u64, fault: SegmentFault) -> MemoryFault {
    MemoryFault::Segment { address, fault }
}

/// Headers that neither of the two may have, and what is refused.
const HEADERS: [(&[Edit], HeaderFault); 6] = [
    (&[(1, b'F')], HeaderFault::Magic),
    (&[(18, 3)], HeaderFault::WrongMachine(3)),
    (&[(54, 32)], HeaderFault::EntrySize(32)),
    (&[(56, 0)], HeaderFault::NoSegments),
    (&[(56, 0x93), (57, 4)], HeaderFault::TooManySegments(1171)),
    (&[(32, 145)], HeaderFault::TableOutsideFile),
];

#[test]
fn headers_of_programs(rt: HostRuntime) {
    for (edits, fault) in HEADERS {
        assert!(rt;
            program_error(edits) == header(Part::Program, fault),
            "{fault}"
        );
    }
}

#[test]
fn headers_of_interpreters(rt: HostRuntime) {
    for (edits, fault) in HEADERS {
        assert!(rt;
            interpreter_error(edits, 256) == header(Part::Interpreter, fault),
            "{fault}"
        );
    }
}

#[test]
fn relocatable_file(rt: HostRuntime) {
    let refused = header(Part::Program, HeaderFault::WrongType(1));
    assert!(rt; program_error(&[(16, 1)]) == refused);
}

#[test]
fn relocatable_interpreter(rt: HostRuntime) {
    let refused = memory(Part::Interpreter, MemoryFault::WrongType(1));
    assert!(rt; interpreter_fault(&[(16, 1)]) == refused);
}

#[test]
fn script(rt: HostRuntime) {
    let refused = Some(ExecError::Refused(Refusal::Script));
    assert!(rt; program_error(&[(0, b'#'), (1, b'!')]) == refused);
}

#[test]
fn paths(rt: HostRuntime) {
    let rows: [(&[Edit], PathFault); 5] = [
        (&[(152, 1)], PathFault::Size(1)),
        (&[(152, 1), (153, 16)], PathFault::Size(4097)),
        (&[(135, 0x80)], PathFault::PastOffsets),
        (&[(128, 253)], PathFault::OutsideFile),
        (&[(243, b'y')], PathFault::Unterminated),
    ];
    for (edits, fault) in rows {
        assert!(rt; program_error(edits) == path(fault), "{fault}");
    }
}

#[test]
fn short_interpreter(rt: HostRuntime) {
    let refused = Some(ExecError::Refused(Refusal::ShortInterpreter));
    assert!(rt; interpreter_error(&[], 63) == refused);
}

#[test]
fn segments(rt: HostRuntime) {
    let rows: [(&[Edit], u64, SegmentFault); 6] = [
        (&[(72, 8)], 0, SegmentFault::Misaligned),
        (&[(79, 0x80)], 0, SegmentFault::PastOffsets),
        (
            &[(68, 7), (73, 16), (81, 16), (105, 2)],
            0x1000,
            SegmentFault::NoPageToFill,
        ),
        (&[(87, 0x80)], 1 << 63, SegmentFault::NoAddress),
        (&[(110, 1)], 0, SegmentFault::PastAddresses),
        (&[(105, 0)], 0, SegmentFault::FileSize),
    ];
    for (edits, address, fault) in rows {
        let refused = memory(Part::Program, segment(address, fault));
        assert!(rt; program_fault(edits) == refused, "{fault}");
    }
}

#[test]
fn misaligned_segment_of_an_interpreter(rt: HostRuntime) {
    let refused = memory(Part::Interpreter, segment(0, SegmentFault::Misaligned));
    assert!(rt; interpreter_fault(&[(72, 8)]) == refused);
}

#[test]
fn interpreter_without_segments(rt: HostRuntime) {
    let refused = memory(Part::Interpreter, MemoryFault::NothingToLoad);
    assert!(rt; interpreter_fault(&[(64, 0)]) == refused);
}

#[test]
fn entry_of_an_interpreter(rt: HostRuntime) {
    let refused = memory(Part::Interpreter, MemoryFault::Entry((1 << 48) + 200));
    assert!(rt; interpreter_fault(&[(30, 1)]) == refused);
}

#[test]
fn entry_of_a_program(rt: HostRuntime) {
    let refused = memory(Part::Program, MemoryFault::Entry((1 << 48) + 200));
    assert!(rt; program_fault(&[(120, 0), (30, 1)]) == refused);
}

/// What starts: the file; with other bytes that the kernel does not look at; with an entry that is not used; with
/// nothing to load; with zeros to write where nothing may be written; without an interpreter.
const STARTED: [&[Edit]; 6] = [
    &[],
    &[(4, 1), (5, 2), (6, 7)],
    &[(30, 1)],
    &[(64, 0)],
    &[(73, 16), (81, 16), (105, 2)],
    &[(120, 0)],
];

#[test]
fn what_starts(rt: HostRuntime) {
    for edits in STARTED {
        let starts = program_error(edits).is_none() && program_fault(edits).is_none();
        assert!(rt; starts, "{edits:?}");
    }
}

#[test]
fn path_of_the_interpreter(rt: HostRuntime) {
    let bytes = edited(&[]);
    let found = match x86_64() {
        Some(platform) => read_program(&platform, &whole(&bytes)).ok(),
        None => None,
    };
    let is_path = match found {
        Some(program) => program.interpreter == Some(b"./x".as_slice()),
        None => false,
    };
    assert!(rt; is_path);
}

#[test]
fn table_that_is_not_loaded(rt: HostRuntime) {
    let bytes = edited(&[]);
    let part = LoadedParts {
        size: 256,
        front: first_of(64, &bytes),
        ranges: &[],
    };
    let error = match x86_64() {
        Some(platform) => read_program(&platform, &part).err(),
        None => None,
    };
    assert!(rt; error == Some(ExecError::Missing((64, 176))));
}

/// A 32-bit program that ends at once, at address 0x10000.
const FILE_32: [Edit; 23] = [
    (0, 0x7f),
    (1, b'E'),
    (2, b'L'),
    (3, b'F'),
    (4, 1),
    (16, 2),
    (18, 3),
    (24, 200),
    (26, 1),
    (28, 52),
    (42, 32),
    (44, 1),
    (52, 1),
    (62, 1),
    (66, 1),
    (69, 1),
    (73, 1),
    (76, 5),
    (200, 0x31),
    (202, 0x31),
    (204, 0x40),
    (205, 0xcd),
    (206, 0x80),
];

fn fault_32(edits: &[Edit]) -> Option<Refusal> {
    let mut bytes = [0; 256];
    for (place, byte) in FILE_32.iter().chain(edits.iter()) {
        if let Some(at) = bytes.get_mut(*place) {
            *at = *byte;
        }
    }
    let platform = Platform::named(&bytes)?;
    match read_program(&platform, &whole(&bytes)) {
        Ok(program) => load(&platform, &program.image, None).err(),
        Err(ExecError::Refused(refusal)) => Some(refusal),
        Err(ExecError::Missing(_)) => None,
    }
}

#[test]
fn machine_that_is_not_known(rt: HostRuntime) {
    assert!(rt; Platform::named(&edited(&[(18, 2)])).is_none());
}

#[test]
fn program_of_32_bits(rt: HostRuntime) {
    assert!(rt; fault_32(&[]).is_none());
}

#[test]
fn memory_of_32_bits(rt: HostRuntime) {
    let refused = memory(Part::Program, segment(0x10000, SegmentFault::PastAddresses));
    assert!(rt; fault_32(&[(75, 0xff), (74, 0xff)]) == refused);
}
