//! The notes of the owner `CORE`, which describe a process that Linux wrote into a core file.
#![tactic(auto, using(nugwier_report::proofs::Saying::saying_both))]

ghost use Rattle.std.specs.Prelude.{◌≡◌, ◌==◌, OnOk};
ghost use Rattle.elf_names.specs.Table.{rows_of};
ghost use Rattle.nugwier_notes.specs.CoreNotes.{auxiliary_said, auxiliary_types, core_said, core_sizes, entries_said};
ghost use Rattle.nugwier_notes.specs.CoreNotes.{entry_in, entry_members, entry_said, files_in, files_members, files_said};
ghost use Rattle.nugwier_notes.specs.CoreNotes.{is_auxiliary, is_core_note, is_n32_status, is_process, is_status};
ghost use Rattle.nugwier_notes.specs.CoreNotes.{mapped_in, mapped_members, mapped_said, mappings_in, mappings_said};
ghost use Rattle.nugwier_notes.specs.CoreNotes.{names_at, nul_count, process_members, process_said, short_in, signal_in};
ghost use Rattle.nugwier_notes.specs.CoreNotes.{signal_members, signal_offsets, signal_said, signed_in, status_in};
ghost use Rattle.nugwier_notes.specs.CoreNotes.{status_members, status_said};
ghost use Rattle.nugwier_layouts.specs.Members.{members_said};
ghost use Rattle.nugwier_report.specs.Said.{said_if, saying};

use crate::note_parts::{address_in, address_size, after_string, text_in};
use crate::properties::{NoteFile, number_in};
use elf_abi::abi;
use elf_names::table::{Names, name_in};
use elf_parts::endian::EndianParse;
use elf_parts::file::Class;
use elf_records::slices::{first_of, rest_of};
use nugwier_layouts::json::{Member, Value};
use nugwier_layouts::layouts;
use nugwier_report::problem::{Part, Stop, part_member};
use nugwier_report::tell::Tell;

/// Whether a note describes a process.
pub(crate) fn is_core_note(name: &[u8]) -> bool
    ensures { result ≡ is_core_note name.now }
{
    name == b"CORE\0".as_slice()
}

/// Says what the descriptor of such a note holds, by the number of the note.
pub(crate) fn tell_core_note<T: Tell>(
    file: NoteFile,
    part: Part,
    number: u64,
    n_type: u64,
    bytes: &[u8],
    tell: &mut T,
) -> Result<(), Stop>
    ensures { OnOk result (tell.new ≡ saying T.one tell.old (core_said file part number n_type bytes.now)) }
{
    match n_type {
        abi::NT_PRSTATUS => tell_status(part, number, status_in(file, bytes), tell),
        abi::NT_PRPSINFO => tell_process(file, part, number, bytes, tell),
        abi::NT_AUXV => tell_auxiliary(file, part, number, bytes, tell),
        abi::NT_SIGINFO => tell_signal(part, number, signal_in(file, bytes), tell),
        abi::NT_FILE => tell_files(file, part, number, bytes, files_in(file, bytes), tell),
        _ => Ok(()),
    }
}

// ---- sizes by the machine

// The sizes of `elf_prstatus` and of `elf_prpsinfo`.
fn core_sizes(class: Class, machine: u16) -> Option<(usize, usize)>
    ensures { result ≡ core_sizes class machine }
{
    match (class, machine) {
        (Class::ELF32, abi::EM_386) => Some((144, 124)),
        (Class::ELF32, abi::EM_MIPS) => Some((256, 128)),
        (Class::ELF32, abi::EM_PPC) => Some((268, 128)),
        (Class::ELF32, abi::EM_S390) => Some((224, 124)),
        (Class::ELF32, abi::EM_ARM) => Some((148, 124)),
        (Class::ELF32, abi::EM_X86_64) => Some((296, 124)),
        (Class::ELF32, abi::EM_RISCV) => Some((204, 128)),
        (Class::ELF64, abi::EM_MIPS) => Some((480, 136)),
        (Class::ELF64, abi::EM_PPC64) => Some((504, 136)),
        (Class::ELF64, abi::EM_S390) => Some((336, 136)),
        (Class::ELF64, abi::EM_X86_64) => Some((336, 136)),
        (Class::ELF64, abi::EM_AARCH64) => Some((392, 136)),
        (Class::ELF64, abi::EM_RISCV) => Some((376, 136)),
        (Class::ELF64, abi::EM_LOONGARCH) => Some((480, 136)),
        _ => None,
    }
}

// ---- the status of a thread

/// The signal that a thread had (`pr_cursig`), and its number (`pr_pid`).
#[derive(Clone, Copy)]
pub struct ProcessStatus {
    pub signal: u16,
    pub pid: u32,
}

fn short_in(file: NoteFile, bytes: &[u8], offset: usize) -> Option<u16>
    ensures { result ≡ short_in file bytes.now offset }
{
    let mut offset = offset;
    file.order().parse_u16_at(&mut offset, bytes).ok()
}

fn status_in(file: NoteFile, bytes: &[u8]) -> Option<ProcessStatus>
    ensures { result ≡ status_in file bytes.now }
{
    if !is_status(file, bytes) {
        return None;
    }
    let signal = short_in(file, bytes, 12)?;
    let pid = number_in(file.order(), bytes, 16 + 2 * address_size(file.class))?;
    Some(ProcessStatus { signal, pid })
}

fn is_status(file: NoteFile, bytes: &[u8]) -> bool
    ensures { result ≡ is_status file bytes.now }
{
    match core_sizes(file.class, file.machine) {
        Some((size, _)) => bytes.len() == size || is_n32_status(file, bytes),
        None => false,
    }
}

// Whether it is one of the ABI n32 of MIPS, whose registers have 64 bits.
fn is_n32_status(file: NoteFile, bytes: &[u8]) -> bool
    ensures { result ≡ is_n32_status file bytes.now }
{
    matches!(file.class, Class::ELF32) && file.machine == abi::EM_MIPS && bytes.len() == 440
}

fn tell_status<T: Tell>(
    part: Part,
    number: u64,
    status: Option<ProcessStatus>,
    tell: &mut T,
) -> Result<(), Stop>
    ensures { OnOk result (tell.new ≡ saying T.one tell.old (said_if (status_said part number) status)) }
{
    match status {
        Some(status) => {
            tell.state(
                &layouts::PROCESS_STATUS,
                &status_members(part, number, status),
            )
        }
        None => Ok(()),
    }
}

fn status_members(part: Part, number: u64, status: ProcessStatus) -> [Member<'static>; 4]
    ensures { members_said result ≡ status_members part number status }
{
    [
        part_member(part),
        ("note", Value::Number(number)),
        ("pr_cursig", Value::Number(status.signal as u64)),
        ("pr_pid", Value::Number(status.pid as u64)),
    ]
}

// ---- the process

fn is_process(file: NoteFile, bytes: &[u8]) -> bool
    ensures { result ≡ is_process file bytes.now }
{
    match core_sizes(file.class, file.machine) {
        Some((_, size)) => bytes.len() == size,
        None => false,
    }
}

fn process_members(part: Part, number: u64, bytes: &[u8]) -> [Member<'_>; 4]
    ensures { members_said result ≡ process_members part number bytes.now }
{
    // the name of the program has 16 bytes before the arguments, which are in the last 80 bytes
    let name = text_in(first_of(16, rest_of(bytes.len().saturating_sub(96), bytes)));
    let arguments = text_in(rest_of(bytes.len().saturating_sub(80), bytes));
    [
        part_member(part),
        ("note", Value::Number(number)),
        ("pr_fname", Value::Text(Some(name))),
        ("pr_psargs", Value::Text(Some(arguments))),
    ]
}

fn tell_process<T: Tell>(
    file: NoteFile,
    part: Part,
    number: u64,
    bytes: &[u8],
    tell: &mut T,
) -> Result<(), Stop>
    ensures { OnOk result (tell.new ≡ saying T.one tell.old (process_said file part number bytes.now)) }
{
    if is_process(file, bytes) {
        tell.state(
            &layouts::PROCESS_INFO,
            &process_members(part, number, bytes),
        )
    } else {
        Ok(())
    }
}

// ---- the signal

/// What is known of a signal: `si_signo`, `si_code` and `si_errno`.
#[derive(Clone, Copy)]
pub struct SignalInfo {
    pub signal: i32,
    pub code: i32,
    pub error: i32,
}

fn signed_in(file: NoteFile, bytes: &[u8], offset: usize) -> Option<i32>
    ensures { result ≡ signed_in file bytes.now offset }
{
    let mut offset = offset;
    file.order().parse_i32_at(&mut offset, bytes).ok()
}

// Where the code and the error are.
fn signal_offsets(machine: u16) -> (usize, usize)
    ensures { result ≡ signal_offsets machine }
{
    if machine == abi::EM_MIPS {
        (4, 8)
    } else {
        (8, 4)
    }
}

fn signal_in(file: NoteFile, bytes: &[u8]) -> Option<SignalInfo>
    ensures { result ≡ signal_in file bytes.now }
{
    if bytes.len() != 128 {
        return None;
    }
    let (code_at, error_at) = signal_offsets(file.machine);
    let signal = signed_in(file, bytes, 0)?;
    let code = signed_in(file, bytes, code_at)?;
    let error = signed_in(file, bytes, error_at)?;
    Some(SignalInfo {
        signal,
        code,
        error,
    })
}

fn tell_signal<T: Tell>(
    part: Part,
    number: u64,
    info: Option<SignalInfo>,
    tell: &mut T,
) -> Result<(), Stop>
    ensures { OnOk result (tell.new ≡ saying T.one tell.old (said_if (signal_said part number) info)) }
{
    match info {
        Some(info) => tell.state(&layouts::SIGNAL_INFO, &signal_members(part, number, info)),
        None => Ok(()),
    }
}

fn signal_members(part: Part, number: u64, info: SignalInfo) -> [Member<'static>; 5]
    ensures { members_said result ≡ signal_members part number info }
{
    [
        part_member(part),
        ("note", Value::Number(number)),
        ("si_signo", Value::Signed(info.signal as i64)),
        ("si_code", Value::Signed(info.code as i64)),
        ("si_errno", Value::Signed(info.error as i64)),
    ]
}

// ---- the auxiliary vector

/// An entry of the auxiliary vector: its type (`a_type`) and its value (`a_val`).
#[derive(Clone, Copy)]
pub struct AuxiliaryEntry {
    pub kind: u64,
    pub value: u64,
}

/// Types of the auxiliary vector.
pub const AUXILIARY: Names<u64> = &[
    (0, "AT_NULL"),
    (1, "AT_IGNORE"),
    (2, "AT_EXECFD"),
    (3, "AT_PHDR"),
    (4, "AT_PHENT"),
    (5, "AT_PHNUM"),
    (6, "AT_PAGESZ"),
    (7, "AT_BASE"),
    (8, "AT_FLAGS"),
    (9, "AT_ENTRY"),
    (10, "AT_NOTELF"),
    (11, "AT_UID"),
    (12, "AT_EUID"),
    (13, "AT_GID"),
    (14, "AT_EGID"),
    (15, "AT_PLATFORM"),
    (16, "AT_HWCAP"),
    (17, "AT_CLKTCK"),
    (18, "AT_FPUCW"),
    (19, "AT_DCACHEBSIZE"),
    (20, "AT_ICACHEBSIZE"),
    (21, "AT_UCACHEBSIZE"),
    (22, "AT_IGNOREPPC"),
    (23, "AT_SECURE"),
    (24, "AT_BASE_PLATFORM"),
    (25, "AT_RANDOM"),
    (26, "AT_HWCAP2"),
    (27, "AT_RSEQ_FEATURE_SIZE"),
    (28, "AT_RSEQ_ALIGN"),
    (29, "AT_HWCAP3"),
    (30, "AT_HWCAP4"),
    (31, "AT_EXECFN"),
    (32, "AT_SYSINFO"),
    (33, "AT_SYSINFO_EHDR"),
    (34, "AT_L1I_CACHESHAPE"),
    (35, "AT_L1D_CACHESHAPE"),
    (36, "AT_L2_CACHESHAPE"),
    (37, "AT_L3_CACHESHAPE"),
    (40, "AT_L1I_CACHESIZE"),
    (41, "AT_L1I_CACHEGEOMETRY"),
    (42, "AT_L1D_CACHESIZE"),
    (43, "AT_L1D_CACHEGEOMETRY"),
    (44, "AT_L2_CACHESIZE"),
    (45, "AT_L2_CACHEGEOMETRY"),
    (46, "AT_L3_CACHESIZE"),
    (47, "AT_L3_CACHEGEOMETRY"),
    (48, "AT_ADI_BLKSZ"),
    (49, "AT_ADI_NBITS"),
    (50, "AT_ADI_UEONADI"),
    (51, "AT_MINSIGSTKSZ"),
];

#[tactic(auto, unfolding(crate::specs::CoreNotes::auxiliary_types))]
fn auxiliary_types() -> Names<u64>
    ensures { rows_of result.now ≡ auxiliary_types }
{
    AUXILIARY
}

fn is_auxiliary(class: Class, bytes: &[u8]) -> bool
    ensures { result ≡ is_auxiliary class bytes.now }
{
    match class {
        Class::ELF32 => bytes.len() % 8 == 0,
        Class::ELF64 => bytes.len() % 16 == 0,
    }
}

fn entry_in(file: NoteFile, bytes: &[u8]) -> Option<AuxiliaryEntry>
    ensures { result ≡ entry_in file bytes.now }
{
    let kind = address_in(file, bytes, 0)?;
    let value = address_in(file, bytes, address_size(file.class))?;
    Some(AuxiliaryEntry { kind, value })
}

fn entry_members(part: Part, number: u64, entry: AuxiliaryEntry) -> [Member<'static>; 5]
    ensures { members_said result ≡ entry_members part number entry }
{
    [
        part_member(part),
        ("note", Value::Number(number)),
        ("a_type", Value::Number(entry.kind)),
        (
            "a_type_name",
            Value::Word(name_in(auxiliary_types(), entry.kind)),
        ),
        ("a_val", Value::Number(entry.value)),
    ]
}

fn tell_entry<T: Tell>(
    part: Part,
    number: u64,
    entry: AuxiliaryEntry,
    tell: &mut T,
) -> Result<(), Stop>
    ensures { OnOk result (tell.new ≡ saying T.one tell.old (entry_said part number entry)) }
{
    tell.state(
        &layouts::AUXILIARY_ENTRY,
        &entry_members(part, number, entry),
    )
}

fn tell_entries<T: Tell>(
    file: NoteFile,
    part: Part,
    number: u64,
    bytes: &[u8],
    tell: &mut T,
) -> Result<(), Stop>
    ensures { OnOk result (tell.new ≡ saying T.one tell.old (entries_said file part number bytes.now bytes.now)) }
{
    let mut rest = bytes;
    let mut left = bytes;
    while let Some((_first, others)) = left.split_first() {
        let Some(entry) = entry_in(file, rest) else {
            return Ok(());
        };
        tell_entry(part, number, entry, tell)?;
        rest = rest_of(2 * address_size(file.class), rest);
        left = others;
    }
    Ok(())
}

fn tell_auxiliary<T: Tell>(
    file: NoteFile,
    part: Part,
    number: u64,
    bytes: &[u8],
    tell: &mut T,
) -> Result<(), Stop>
    ensures { OnOk result (tell.new ≡ saying T.one tell.old (auxiliary_said file part number bytes.now)) }
{
    if is_auxiliary(file.class, bytes) {
        tell_entries(file, part, number, bytes, tell)
    } else {
        Ok(())
    }
}

// ---- the files that are mapped

/// The number of mappings, the size of a page, and where the names of their files begin after the numbers of the
/// mappings.
#[derive(Clone, Copy)]
pub struct MappedFiles {
    pub count: u64,
    pub page_size: u64,
    pub names_at: usize,
}

/// A mapping: its addresses, and the page of the file at its start.
#[derive(Clone, Copy)]
pub struct MappedFile {
    pub start: u64,
    pub end: u64,
    pub offset: u64,
}

// Where the names begin after three numbers for each mapping.
fn names_at(class: Class, count: u64, bytes: &[u8]) -> Option<usize>
    ensures { result ≡ names_at class count bytes.now }
{
    match class {
        Class::ELF32 if count <= bytes.len() as u64 / 12 => Some(count as usize * 12),
        Class::ELF64 if count <= bytes.len() as u64 / 24 => Some(count as usize * 24),
        _ => None,
    }
}

fn nul_count(bytes: &[u8]) -> usize
    ensures { result ≡ nul_count bytes.now }
{
    bytes.iter().filter(|byte| **byte == 0).count()
}

fn mappings_in(file: NoteFile, bytes: &[u8]) -> &[u8]
    ensures { result.now ≡ mappings_in file bytes.now }
{
    rest_of(2 * address_size(file.class), bytes)
}

fn files_in(file: NoteFile, bytes: &[u8]) -> Option<MappedFiles>
    ensures { result ≡ files_in file bytes.now }
{
    let count = address_in(file, bytes, 0)?;
    let page_size = address_in(file, bytes, address_size(file.class))?;
    let mappings = mappings_in(file, bytes);
    let names_at = names_at(file.class, count, mappings)?;
    // if there is a name for each
    if count <= nul_count(rest_of(names_at, mappings)) as u64 {
        Some(MappedFiles {
            count,
            page_size,
            names_at,
        })
    } else {
        None
    }
}

fn mapped_in(file: NoteFile, bytes: &[u8]) -> Option<MappedFile>
    ensures { result ≡ mapped_in file bytes.now }
{
    let size = address_size(file.class);
    let start = address_in(file, bytes, 0)?;
    let end = address_in(file, bytes, size)?;
    let offset = address_in(file, bytes, 2 * size)?;
    Some(MappedFile { start, end, offset })
}

fn files_members(part: Part, number: u64, files: MappedFiles) -> [Member<'static>; 4]
    ensures { members_said result ≡ files_members part number files }
{
    [
        part_member(part),
        ("note", Value::Number(number)),
        ("count", Value::Number(files.count)),
        ("page_size", Value::Number(files.page_size)),
    ]
}

fn mapped_members<'a>(
    part: Part,
    number: u64,
    mapped: MappedFile,
    path: &'a [u8],
) -> [Member<'a>; 6]
    ensures { members_said result ≡ mapped_members part number mapped path.now }
{
    [
        part_member(part),
        ("note", Value::Number(number)),
        ("start", Value::Number(mapped.start)),
        ("end", Value::Number(mapped.end)),
        ("file_ofs", Value::Number(mapped.offset)),
        ("path", Value::Text(Some(path))),
    ]
}

fn tell_mapped<T: Tell>(
    part: Part,
    number: u64,
    mapped: MappedFile,
    path: &[u8],
    tell: &mut T,
) -> Result<(), Stop>
    ensures { OnOk result (tell.new ≡ saying T.one tell.old (mapped_said part number mapped path.now)) }
{
    tell.state(
        &layouts::MAPPED_FILE,
        &mapped_members(part, number, mapped, path),
    )
}

// Says each mapping, by its numbers and its name.
fn tell_mappings<T: Tell>(
    file: NoteFile,
    part: Part,
    number: u64,
    table: &[u8],
    texts: &[u8],
    tell: &mut T,
) -> Result<(), Stop>
    ensures { OnOk result (tell.new ≡ saying T.one tell.old
        (mappings_said file part number table.now table.now texts.now)) }
{
    let mut rest = table;
    let mut left = table;
    let mut names = texts;
    while let Some((_first, others)) = left.split_first() {
        let Some(mapped) = mapped_in(file, rest) else {
            return Ok(());
        };
        let path = text_in(names);
        tell_mapped(part, number, mapped, path, tell)?;
        rest = rest_of(3 * address_size(file.class), rest);
        names = after_string(path, names);
        left = others;
    }
    Ok(())
}

fn tell_files<T: Tell>(
    file: NoteFile,
    part: Part,
    number: u64,
    bytes: &[u8],
    files: Option<MappedFiles>,
    tell: &mut T,
) -> Result<(), Stop>
    ensures { OnOk result (tell.new ≡ saying T.one tell.old
        (said_if (files_said file part number bytes.now) files)) }
{
    let Some(files) = files else {
        return Ok(());
    };
    let mappings = mappings_in(file, bytes);
    let table = first_of(files.names_at, mappings);
    let texts = rest_of(files.names_at, mappings);
    tell.state(&layouts::MAPPED_FILES, &files_members(part, number, files))?;
    tell_mappings(file, part, number, table, texts, tell)
}
