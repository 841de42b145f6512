//! A stream over sources that give little, that fail, and that are shorter than they say.
use crate::memory::all_memory;
use crate::small_files::{
    COMPRESSED, COMPRESSED_WIDE, HASHED, HASHED_OTHERWISE, ONE_DYNAMIC_ENTRY, ONE_SEGMENT,
    TWO_SECTIONS, VERSIONED, VERSIONS_BY_NAME,
};
use crate::sources::{EMPTY, InMemory, Plan, Planned, PlannedSource, is_of_source, open};
use elf::dynamic::{Dyn, DynamicTable};
use elf::endian::AnyEndian;
use elf::gnu_symver::{SymbolRequirement, SymbolVersionTable};
use elf::note::{Note, NoteIterator};
use elf::parse::{ParseAt, ParsingIterator, ParsingTable};
use elf::section::SectionHeader;
use elf::segment::ProgramHeader;
use elf::string_table::StringTable;
use elf::symbol::{Symbol, SymbolTable};
use elf::{ElfBytes, MemSource, ParseError};
use std::alloc::{AllocError, Global};
use std::process::Abort;
use std::test::Fail;

/// The small files, and how many calls over each of them read their first range, where nothing is cached.
fn files() -> [(&'static [u8], usize); 9] {
    [
        (&TWO_SECTIONS, 18),
        (&ONE_SEGMENT, 15),
        (&COMPRESSED, 15),
        (&COMPRESSED_WIDE, 15),
        (&HASHED, 17),
        (&HASHED_OTHERWISE, 17),
        (&ONE_DYNAMIC_ENTRY, 17),
        (&VERSIONED, 18),
        (&VERSIONS_BY_NAME, 17),
    ]
}

const RELS: SectionHeader = SectionHeader {
    sh_type: 9,
    sh_offset: 72,
    sh_size: 8,
    ..EMPTY
};

const RELAS: SectionHeader = SectionHeader {
    sh_type: 4,
    sh_offset: 72,
    sh_size: 12,
    ..EMPTY
};

const NOTES: SectionHeader = SectionHeader {
    sh_type: 7,
    sh_offset: 56,
    sh_size: 12,
    sh_addralign: 4,
    ..EMPTY
};

const COMPRESSED_STRINGS: SectionHeader = SectionHeader {
    sh_type: 3,
    sh_flags: 0x800,
    sh_offset: 52,
    sh_size: 15,
    ..EMPTY
};

const WIDE_COMPRESSED_STRINGS: SectionHeader = SectionHeader {
    sh_offset: 64,
    sh_size: 27,
    ..COMPRESSED_STRINGS
};

/// Headers that no file has: strings, records and notes, no bytes, bytes that only the longer files have, and a range
/// that no file has.
const SECTIONS: [SectionHeader; 9] = [
    SectionHeader {
        sh_type: 3,
        sh_offset: 52,
        sh_size: 3,
        ..EMPTY
    },
    COMPRESSED_STRINGS,
    WIDE_COMPRESSED_STRINGS,
    RELS,
    RELAS,
    NOTES,
    SectionHeader {
        sh_type: 8,
        sh_offset: 1000,
        sh_size: 5,
        ..EMPTY
    },
    SectionHeader {
        sh_offset: 100,
        sh_size: 30,
        ..EMPTY
    },
    SectionHeader {
        sh_offset: u64::MAX,
        sh_size: 1,
        ..EMPTY
    },
];

const NOTE_SEGMENT: ProgramHeader = ProgramHeader {
    p_type: 4,
    p_offset: 56,
    p_vaddr: 0,
    p_paddr: 0,
    p_filesz: 12,
    p_memsz: 0,
    p_flags: 0,
    p_align: 4,
};

const SEGMENTS: [ProgramHeader; 3] = [
    NOTE_SEGMENT,
    ProgramHeader {
        p_type: 1,
        p_offset: 0,
        p_filesz: 4,
        ..NOTE_SEGMENT
    },
    ProgramHeader {
        p_filesz: 1000,
        ..NOTE_SEGMENT
    },
];

/// How a stream's answer compares to that of `ElfBytes`.
#[derive(Clone, Copy, Debug, Drop, PartialEq, Eq)]
enum Answer {
    Same,
    Failed,
    Starved,
    Other,
}

/// What a failed call is that ended with this error, beside one of `ElfBytes` that failed or did not.
fn failed_with(error: &ParseError, is_refused: bool) -> Answer {
    match error {
        ParseError::OutOfMemory => Answer::Starved,
        ParseError::IOError(_) => if is_of_source(error) {
            Answer::Failed
        } else {
            Answer::Other
        },
        _ => if is_refused {
            Answer::Same
        } else {
            Answer::Other
        },
    }
}

fn compared<T: PartialEq + Drop>(
    stream: Result<T, ParseError>,
    bytes: Result<T, ParseError>,
) -> Answer {
    match (stream, bytes) {
        (Ok(one), Ok(other)) => if one == other {
            Answer::Same
        } else {
            Answer::Other
        },
        (Err(error), bytes) => failed_with(&error, bytes.is_err()),
        (Ok(_), Err(_)) => Answer::Other,
    }
}

fn first_record<P: ParseAt>(mut records: ParsingIterator<'_, AnyEndian, P>) -> Option<P> {
    records.next()
}

fn first_note<'a>(mut notes: NoteIterator<'a, AnyEndian>) -> Option<Note<'a>> {
    notes.next()
}

fn second_string<'a>(strings: StringTable<'a>) -> Option<&'a [u8]> {
    strings.get_raw(1).ok()
}

fn second_name<'a, T: Drop>(found: (T, Option<StringTable<'a>>)) -> Option<Option<&'a [u8]>> {
    found.1.map(second_string)
}

/// The second symbol, and the second string.
fn second_symbol<'a>(
    found: Option<(SymbolTable<'a, AnyEndian>, StringTable<'a>)>,
) -> Option<(Option<Symbol>, Option<&'a [u8]>)> {
    let (symbols, strings) = found?;
    Some((symbols.get(1).ok(), second_string(strings)))
}

fn first_entry(found: Option<DynamicTable<'_, AnyEndian>>) -> Option<Option<Dyn>> {
    Some(found?.get(0).ok())
}

fn copied(found: Option<&SectionHeader>) -> Option<SectionHeader> {
    found.copied()
}

type Versions<'a> = SymbolVersionTable<'a, AnyEndian>;

/// The hash, the flags and the first name of a definition, and whether it is hidden.
type Defined<'a> = (u32, u16, Option<Option<&'a str>>, bool);

/// The version that the first symbol needs, and the one that the second is defined with.
fn first_versions<'a>(
    versions: &'a Versions<'_>,
) -> (
    Option<Option<SymbolRequirement<'a>>>,
    Option<Option<Defined<'a>>>,
) {
    let defined = match versions.get_definition(1) {
        Ok(Some(mut found)) => {
            let name = found.names.next().map(|name| name.ok());
            Some(Some((found.hash, found.flags, name, found.hidden)))
        }
        Ok(None) => Some(None),
        Err(_) => None,
    };
    (versions.get_requirement(0).ok(), defined)
}

fn versions_answer(
    stream: Result<Option<Versions<'_>>, ParseError>,
    bytes: Result<Option<Versions<'_>>, ParseError>,
) -> Answer {
    match (stream, bytes) {
        (Ok(Some(one)), Ok(Some(other))) => {
            compared(Ok(first_versions(&one)), Ok(first_versions(&other)))
        }
        (stream, bytes) => compared(
            stream.map(|found| found.is_some()),
            bytes.map(|found| found.is_some()),
        ),
    }
}

/// A call of a reader.
#[derive(Clone, Copy)]
enum Request {
    Names,
    Named,
    Symbols,
    BoundSymbols,
    Dynamic,
    Versions,
    Data(SectionHeader),
    Strtab(SectionHeader),
    Rels(SectionHeader),
    Relas(SectionHeader),
    Notes(SectionHeader),
    Segment(ProgramHeader),
    SegmentNotes(ProgramHeader),
}

/// The calls that are made with no header.
const CHOICES: [Request; 6] = [
    Request::Names,
    Request::Named,
    Request::Symbols,
    Request::BoundSymbols,
    Request::Dynamic,
    Request::Versions,
];

/// How many calls are made with a section header.
const VIEWS: usize = 5;

const CALLS: usize = CHOICES.len() + SECTIONS.len() * VIEWS + SEGMENTS.len() * 2;

/// The calls by number: those with no header, each view of each section, and each segment as notes and as bytes.
fn call(number: usize) -> Option<Request> {
    if let Some(choice) = CHOICES.get(number) {
        return Some(*choice);
    }
    let view = number.saturating_sub(CHOICES.len());
    if let Some(shdr) = SECTIONS.get(view / VIEWS).copied() {
        return Some(match view % VIEWS {
            0 => Request::Data(shdr),
            1 => Request::Strtab(shdr),
            2 => Request::Rels(shdr),
            3 => Request::Relas(shdr),
            _ => Request::Notes(shdr),
        });
    }
    let half = view.saturating_sub(SECTIONS.len() * VIEWS);
    let phdr = SEGMENTS.get(half / 2).copied()?;
    Some(match half % 2 {
        0 => Request::SegmentNotes(phdr),
        _ => Request::Segment(phdr),
    })
}

type Bytes<'a> = ElfBytes<'a, AnyEndian>;

/// What both readers answer to the same call, of which a part is compared.
macro_rules! both {
    ($stream:ident, $file:ident, $call:ident($($header:expr)?)) => {
        compared($stream.$call($($header)?), $file.$call($($header)?))
    };
    ($stream:ident, $file:ident, $call:ident($($header:expr)?), $part:expr) => {
        compared($stream.$call($($header)?).map($part), $file.$call($($header)?).map($part))
    };
}

fn answer_of(stream: &mut Planned<'_>, file: &Bytes<'_>, request: Request) -> Answer {
    match request {
        Request::Names => both!(stream, file, section_headers_with_strtab(), second_name),
        Request::Named => compared(
            stream.section_header_by_name(".s").map(copied),
            file.section_header_by_name(".s"),
        ),
        Request::Symbols => both!(stream, file, symbol_table(), second_symbol),
        Request::BoundSymbols => both!(stream, file, dynamic_symbol_table(), second_symbol),
        Request::Dynamic => both!(stream, file, dynamic(), first_entry),
        Request::Versions => {
            versions_answer(stream.symbol_version_table(), file.symbol_version_table())
        }
        Request::Data(shdr) => both!(stream, file, section_data(&shdr)),
        Request::Strtab(shdr) => both!(stream, file, section_data_as_strtab(&shdr), second_string),
        Request::Rels(shdr) => both!(stream, file, section_data_as_rels(&shdr), first_record),
        Request::Relas(shdr) => both!(stream, file, section_data_as_relas(&shdr), first_record),
        Request::Notes(shdr) => both!(stream, file, section_data_as_notes(&shdr), first_note),
        Request::Segment(phdr) => both!(stream, file, segment_data(&phdr)),
        Request::SegmentNotes(phdr) => both!(
            stream,
            file,
            segment_data_as_notes(&phdr),
            first_note
        ),
    }
}

/// Whether a call returned this error. Called again, the call answers as `ElfBytes` does.
fn call_is_refused(
    rt: &(impl Abort + AllocGlobal),
    stream: &mut Planned<'_>,
    file: &Bytes<'_>,
    request: Request,
    refusal: Answer,
) -> bool {
    let first = answer_of(&mut *stream, file, request);
    let is_refused = first == refusal;
    let settled = if is_refused {
        answer_of(stream, file, request)
    } else {
        first
    };
    assert!(rt; settled == Answer::Same, "{first:?} {settled:?}");
    is_refused
}

/// How many of all calls returned this error.
fn refused_calls(
    rt: &(impl Abort + AllocGlobal),
    stream: &mut Planned<'_>,
    file: &Bytes<'_>,
    refusal: Answer,
) -> usize {
    let mut refused = 0usize;
    for number in 0..CALLS {
        if let Some(request) = call(number)
            && call_is_refused(rt, &mut *stream, file, request, refusal)
        {
            refused = refused.saturating_add(1);
        }
    }
    refused
}

/// Whether these are the records of a table, or none if there is no table.
fn are_records_of<P: ParseAt + PartialEq + Copy + Drop>(
    records: &[P],
    table: Option<ParsingTable<'_, AnyEndian, P>>,
) -> bool {
    match table {
        Some(table) => records.iter().copied().eq(table.iter()),
        None => records.is_empty(),
    }
}

/// Whether the headers are those of `ElfBytes`.
fn has_headers(stream: &Planned<'_>, file: &Bytes<'_>) -> bool {
    stream.ehdr == file.ehdr
        && are_records_of(stream.section_headers(), file.section_headers())
        && are_records_of(stream.segments(), file.segments())
}

/// Whether a source that fails after a number of calls fails in the opening or in the calls that follow.
fn run_fails(
    rt: &(impl Abort + AllocGlobal),
    bytes: &[u8],
    width: usize,
    calls_before: u64,
) -> Result<bool, Fail> {
    let file = ElfBytes::minimal_parse(bytes)?;
    let plan = Plan::new(width, Some(calls_before));
    let mut stream = match open(rt.alloc(), bytes, &plan) {
        Ok(stream) => stream,
        Err(error) if is_of_source(&error) => return Ok(true),
        Err(error) => return Err(Fail::from(error)),
    };
    let failed = refused_calls(rt, &mut stream, &file, Answer::Failed);
    assert!(rt; has_headers(&stream, &file));
    Ok(failed > 0)
}

/// How many calls of the source are made.
fn calls_of_source(
    rt: &(impl Abort + AllocGlobal),
    bytes: &[u8],
    width: usize,
) -> Result<u64, Fail> {
    for calls_before in 0..1000 {
        if !run_fails(rt, bytes, width, calls_before)? {
            return Ok(calls_before);
        }
    }
    Ok(1000)
}

#[test]
fn a_source_may_fail_at_each_call(rt: HostRuntime) -> Result<(), Fail> {
    for (bytes, _) in files() {
        for width in 1..=3 {
            let calls = calls_of_source(&rt, bytes, width)?;
            assert!(rt; calls > 20 && calls < 1000, "{calls} calls");
        }
    }
    Ok(())
}

/// The names of the two sections.
const NAMES: SectionHeader = SectionHeader {
    sh_type: 3,
    sh_offset: 52,
    sh_size: 4,
    ..EMPTY
};

const WITHIN_NAMES: SectionHeader = SectionHeader {
    sh_offset: 53,
    sh_size: 2,
    ..EMPTY
};

const BEYOND_NAMES: SectionHeader = SectionHeader {
    sh_offset: 54,
    sh_size: 4,
    ..EMPTY
};

/// Asserts the bytes of a section, and returns how many calls of the source there were for them and how many bytes it
/// gave.
fn taken_for(
    rt: &(impl Abort + AllocGlobal),
    stream: &mut Planned<'_>,
    plan: &Plan,
    shdr: &SectionHeader,
    want: &[u8],
) -> (u64, u64) {
    let answer = stream.section_data(shdr);
    assert!(rt; matches!(answer, Ok((bytes, None)) if bytes == want));
    plan.taken()
}

#[test]
fn what_is_cached_is_not_read_again(rt: HostRuntime) -> Result<(), Fail> {
    let plan = Plan::new(usize::MAX, None);
    let mut stream = open(rt.alloc(), &TWO_SECTIONS, &plan)?;
    let opened = plan.taken();
    let names = taken_for(&rt, &mut stream, &plan, &NAMES, b"\0.s\0");
    let again = taken_for(&rt, &mut stream, &plan, &NAMES, b"\0.s\0");
    let within = taken_for(&rt, &mut stream, &plan, &WITHIN_NAMES, b".s");
    let beyond = taken_for(&rt, &mut stream, &plan, &BEYOND_NAMES, b"s\0\0\0");
    let is_cached = again == (0, 0) && within == (0, 0);
    assert!(rt; opened.1 <= 132 && names.1 == 4 && is_cached && beyond.0 > 0);
    Ok(())
}

#[test]
fn a_source_that_ends_early_is_refused(rt: HostRuntime) {
    let plan = Plan::new(usize::MAX, None);
    let source = PlannedSource::longer(&HASHED[..300], 336, &plan);
    let error = Planned::open_stream(rt.alloc(), source).err();
    assert!(rt; matches!(error, Some(ParseError::BadOffset(336))));
}

// No contract says which error a stream returns.
#[test]
fn a_stream_names_the_type_that_it_expected(rt: HostRuntime) -> Result<(), Fail> {
    let mut stream = InMemory::open_stream(rt.alloc(), MemSource::new(&TWO_SECTIONS))?;
    let rels = stream.section_data_as_rels(&NAMES).err();
    let names = stream.section_data_as_strtab(&RELS).err();
    let phdr = ProgramHeader {
        p_type: 1,
        ..NOTE_SEGMENT
    };
    let notes = stream.segment_data_as_notes(&phdr).err();
    assert!(rt;
        matches!(rels, Some(ParseError::UnexpectedSectionType((3, 9))))
            && matches!(names, Some(ParseError::UnexpectedSectionType((9, 3))))
            && matches!(notes, Some(ParseError::UnexpectedSegmentType((1, 4))))
    );
    Ok(())
}

/// The error for a range of a section, if there is one.
fn range_error(stream: &mut InMemory<'_>, sh_offset: u64, sh_size: u64) -> Option<ParseError> {
    let shdr = SectionHeader {
        sh_offset,
        sh_size,
        ..EMPTY
    };
    stream.section_data(&shdr).err()
}

// No contract says which error a stream returns.
#[test]
fn a_stream_says_which_range_does_not_lie_in_the_file(rt: HostRuntime) -> Result<(), Fail> {
    let mut stream = InMemory::open_stream(rt.alloc(), MemSource::new(&TWO_SECTIONS))?;
    let past_end = range_error(&mut stream, 136, 1);
    let behind_end = range_error(&mut stream, 137, 0);
    let endless = range_error(&mut stream, 1, u64::MAX);
    assert!(rt;
        matches!(past_end, Some(ParseError::BadOffset(137)))
            && matches!(behind_end, Some(ParseError::BadOffset(137)))
            && matches!(endless, Some(ParseError::IntegerOverflow))
    );
    Ok(())
}

/// Whether the first call of a stream returns an error if its source fails after a number of calls.
fn first_call_fails(
    rt: &(impl Abort + AllocGlobal),
    bytes: &[u8],
    request: Request,
    calls_before: u64,
) -> Result<bool, ParseError> {
    let file = ElfBytes::minimal_parse(bytes)?;
    let plan = Plan::new(1, None);
    let mut stream = open(rt.alloc(), bytes, &plan)?;
    plan.calls_before.set(Some(calls_before));
    let is_refused = call_is_refused(rt, &mut stream, &file, request, Answer::Failed);
    assert!(rt; has_headers(&stream, &file));
    Ok(is_refused)
}

/// At how many calls of its source the first call of a stream fails.
fn faults_of_first_call(
    rt: &(impl Abort + AllocGlobal),
    bytes: &[u8],
    request: Request,
) -> Result<u64, ParseError> {
    for calls_before in 0..1000 {
        if !first_call_fails(rt, bytes, request, calls_before)? {
            return Ok(calls_before);
        }
    }
    Ok(1000)
}

/// How many of the calls need the source, each as the first one of a stream.
fn calls_that_read(rt: &(impl Abort + AllocGlobal), bytes: &[u8]) -> Result<usize, ParseError> {
    let mut reading = 0usize;
    for number in 0..CALLS {
        if let Some(request) = call(number)
            && faults_of_first_call(rt, bytes, request)? > 0
        {
            reading = reading.saturating_add(1);
        }
    }
    Ok(reading)
}

#[test]
fn the_first_call_may_fail(rt: HostRuntime) -> Result<(), ParseError> {
    let faults = faults_of_first_call(&rt, &TWO_SECTIONS, Request::Named)?;
    assert!(rt; faults > 4, "{faults} faults");
    for (bytes, reading) in files() {
        assert!(rt; calls_that_read(&rt, bytes)? >= reading);
    }
    Ok(())
}

/// The stream that was opened, or that of a second try if an allocation failed; and whether there was a second try.
fn opened<'a>(
    alloc: Global,
    bytes: &'a [u8],
    plan: &'a Plan,
    first: Result<Planned<'a>, ParseError>,
) -> Result<(Planned<'a>, bool), ParseError> {
    match first {
        Ok(stream) => Ok((stream, false)),
        Err(ParseError::OutOfMemory) => Ok((open(alloc, bytes, plan)?, true)),
        Err(error) => Err(error),
    }
}

/// All calls over a file. One may fail for an allocation: `tests/refused-memory` runs this once for each allocation,
/// which then fails.
fn assert_answered(rt: &(impl Abort + AllocGlobal), bytes: &[u8]) -> Result<usize, ParseError> {
    let file = ElfBytes::minimal_parse(bytes)?;
    let plan = Plan::new(1, None);
    let first = open(rt.alloc(), bytes, &plan);
    let (mut stream, is_again) = opened(rt.alloc(), bytes, &plan, first)?;
    let refused = refused_calls(rt, &mut stream, &file, Answer::Starved);
    assert!(rt; has_headers(&stream, &file));
    Ok(refused.saturating_add(usize::from(is_again)))
}

#[test]
fn one_allocation_may_be_refused(rt: HostRuntime) -> Result<(), Fail> {
    let mut refused = 0usize;
    for (bytes, _) in files() {
        refused = refused.saturating_add(assert_answered(&rt, bytes)?);
    }
    assert!(rt; refused <= 1, "{refused} calls were refused");
    Ok(())
}

/// What a call answers while no memory is left, and the source fails if it is said to.
fn starved_answer(
    alloc: Global,
    stream: &mut Planned<'_>,
    file: &Bytes<'_>,
    request: Request,
) -> Result<Answer, AllocError> {
    let blocks = all_memory(alloc)?;
    let found = answer_of(stream, file, request);
    drop(blocks);
    Ok(found)
}

/// Whether a call fails while no memory is left. Called again while there is some, it answers, and it still does when
/// none is left again and the source would fail.
fn is_starved(
    rt: &(impl Abort + AllocGlobal),
    stream: &mut Planned<'_>,
    plan: &Plan,
    file: &Bytes<'_>,
    request: Request,
) -> Result<bool, AllocError> {
    let first = starved_answer(rt.alloc(), &mut *stream, file, request)?;
    let again = answer_of(&mut *stream, file, request);
    plan.calls_before.set(Some(0));
    let cached = starved_answer(rt.alloc(), stream, file, request)?;
    plan.calls_before.set(None);
    let is_answered = (first, again, cached) == (Answer::Same, Answer::Same, Answer::Same);
    let is_starved = (first, again, cached) == (Answer::Starved, Answer::Same, Answer::Same);
    assert!(rt; is_answered || is_starved, "{first:?} {again:?} {cached:?}");
    Ok(is_starved)
}

/// How many of the opening and the calls with no header fail while no memory is left. To take all memory and give it
/// back costs a tenth of a second and more, so not all calls are tried.
fn starved_calls(rt: &(impl Abort + AllocGlobal), bytes: &[u8]) -> Result<usize, Fail> {
    let file = ElfBytes::minimal_parse(bytes)?;
    let plan = Plan::new(1, None);
    let blocks = all_memory(rt.alloc())?;
    let first = open(rt.alloc(), bytes, &plan);
    drop(blocks);
    let (mut stream, is_again) = opened(rt.alloc(), bytes, &plan, first)?;
    let mut starved = usize::from(is_again);
    for request in CHOICES {
        if is_starved(rt, &mut stream, &plan, &file, request)? {
            starved = starved.saturating_add(1);
        }
    }
    Ok(starved)
}

#[test]
fn what_is_cached_needs_no_memory(rt: HostRuntime) -> Result<(), Fail> {
    for (bytes, starved) in [
        (&TWO_SECTIONS[..], 2),
        (&HASHED, 2),
        (&ONE_DYNAMIC_ENTRY, 2),
        (&VERSIONED, 3),
    ] {
        assert!(rt; starved_calls(&rt, bytes)? == starved);
    }
    Ok(())
}
