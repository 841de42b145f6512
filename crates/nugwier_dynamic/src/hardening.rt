//! How a file is hardened against attacks.
#![tactic(auto, using(nugwier_report::proofs::Saying::saying_both))]

ghost use Rattle.std.specs.Prelude.{◌≡◌, ◌==◌, ◌++◌, IfOk, OnOk, Some, filter, length, map};
ghost use Rattle.std.specs.List.{flat_map, list_any, slice_split};
ghost use Rattle.std.specs.Option.{option_copied, option_map};
ghost use Rattle.std.specs.Result.{result_ok};
ghost use Rattle.elf.specs.Answers.{symbols_view};
ghost use Rattle.elf.specs.Names.{is_string};
ghost use Rattle.elf_abi.specs.Values.{dt_rpath, dt_runpath};
ghost use Rattle.elf_linking.specs.Needed.{strings_by};
ghost use Rattle.elf_parts.specs.Note.{notes_left};
ghost use Rattle.elf_records.specs.Dynamic.{has_tag};
ghost use Rattle.elf_records.specs.Number.{ok_map};
ghost use Rattle.elf_records.specs.StringTable.{string_at};
ghost use Rattle.elf_records.specs.Symbol.{symbol_reads};
ghost use Rattle.elf_records.specs.Table.{table_items, table_view};
ghost use Rattle.nugwier_dynamic.specs.Entries.{strings_missed};
ghost use Rattle.nugwier_dynamic.specs.Hardening.{any_symbol, binds_now, count_symbols, dynamic_kind, feature_in};
ghost use Rattle.nugwier_dynamic.specs.Hardening.{features_by, features_of, file_kind, first_properties};
ghost use Rattle.nugwier_dynamic.specs.Hardening.{hardened, hardening_by, has_flag, has_symbol_table, has_unsafe_path};
ghost use Rattle.nugwier_dynamic.specs.Hardening.{headers_of, is_canary, is_fortifiable, is_fortified, is_named, is_segment};
ghost use Rattle.nugwier_dynamic.specs.Hardening.{is_unsafe_folder, is_unsafe_path, kind_of, lack_said, last_tagged};
ghost use Rattle.nugwier_dynamic.specs.Hardening.{path_at, path_missed, path_unread, paths_of, properties_of};
ghost use Rattle.nugwier_dynamic.specs.Hardening.{properties_unread, property_section, property_segment, relro_of};
ghost use Rattle.nugwier_dynamic.specs.Hardening.{said_of_hardening, stack_of, symbols_of};
ghost use Rattle.nugwier_dynamic.specs.inner.Hardening.{known_said};
ghost use Rattle.nugwier_notes.specs.Properties.{feature_type};
ghost use Rattle.nugwier_dynamic.specs.HardeningRows.{paths_view};
ghost use Rattle.nugwier_report.specs.Said.{saying, whole};
ghost use Rattle.nugwier_report.specs.Reading.{fault_said, if_read};
ghost use Rattle.nugwier_report.specs.Whole.{file_of};

use crate::entries::found_strings;
use crate::hardening_rows::{Hardening, Relro, Requirement, SearchPaths};
use elf::dynamic::Dyn;
use elf::endian::EndianParse;
use elf::file::Class;
use elf::headers::Headers;
use elf::note::{Note, NoteIterator};
use elf::reader::Reader;
use elf::section::SectionHeader;
use elf::segment::ProgramHeader;
use elf::string_table::TerminatedStrings;
use elf::symbol::{Symbol, SymbolTable};
use elf::{ParseError, abi};
use elf_check::notes::note_align;
use elf_dynamic::dynamic_view::{has_tag, value_in};
use elf_linking::needed;
use elf_records::slices::rest_of;
use nugwier_notes::properties::{feature_type, is_property_note, number_in, padded, property_at};
use nugwier_report::headings::known_names;
use nugwier_report::linked::linked_symbols;
use nugwier_report::listed::ListedFile;
use nugwier_report::named_sections::first_named;
use nugwier_report::problem::{Item, Part, Stop};
use nugwier_report::reading;
use nugwier_report::reading::Symbols;
use nugwier_report::tell::{Tell, readable};
use nugwier_sections::header::FileKind;
use std::alloc::Global;

/// Tells what cannot be read of the file of this path, how it is hardened, and what it lacks of what is required.
pub fn tell_hardening<E: EndianParse, R: ListedFile<E>, T: Tell>(
    alloc: Global,
    path: &str,
    requirements: &[Requirement],
    file: &R,
    tell: &mut T,
) -> Result<(), Stop>
    ensures { let header = R.header file.now in OnOk result (tell.new ≡ saying T.one tell.old
        (said_of_hardening path.now requirements.now header.e_type header.e_machine
        (file_of (R.file file.now) (R.bytes file.now)))) }
{
    match reading::dynamic(file)? {
        Ok(Some(table)) => {
            let entries = needed::entries_in(alloc, &table)?;
            tell_linked(path, requirements, file, entries.as_slice(), tell)
        }
        Ok(None) => tell_known(path, requirements, file, Some(&[]), NO_PATHS, tell),
        Err(error) => {
            tell.problem(Part::Dynamic.whole(), &error)?;
            tell_known(path, requirements, file, None, NO_PATHS, tell)
        }
    }
}

/// Returns what a file is, if that is known.
pub fn file_kind<E: EndianParse, R: ListedFile<E>>(
    alloc: Global,
    file: &R,
) -> Result<Option<FileKind>, Stop>
    ensures { let header = R.header file.now in IfOk result (λ kind. kind
        ≡ kind_of header.e_type header.e_machine (file_of (R.file file.now) (R.bytes file.now))) }
{
    let e_type = file.file_header().e_type;
    let segments = file.segment_list();
    // without the strings that the entries name
    match reading::dynamic(file)? {
        Ok(Some(table)) => {
            let entries = needed::entries_in(alloc, &table)?;
            Ok(kind_by(e_type, segments, Some(entries.as_slice())))
        }
        Ok(None) => Ok(kind_by(e_type, segments, Some(&[]))),
        Err(_) => Ok(kind_by(e_type, segments, None)),
    }
}

// Tells how a file with these dynamic entries is hardened, and what it lacks.
fn tell_linked<E: EndianParse, R: ListedFile<E>, T: Tell>(
    path: &str,
    requirements: &[Requirement],
    file: &R,
    entries: &[Dyn],
    tell: &mut T,
) -> Result<(), Stop>
    ensures { let header = R.header file.now in let file = file_of (R.file file.now) (R.bytes file.now) in
        let strings = strings_by file entries.now in let known = Some (entries.now, result_ok strings) in
        OnOk result (tell.new ≡ saying T.one tell.old (strings_missed strings
        ++ path_missed dt_rpath known ++ path_missed dt_runpath known
        ++ known_said path.now requirements.now (hardened header.e_type header.e_machine file) (Some entries.now)
        (paths_of known))) }
{
    let paths = search_paths(file, entries, tell)?;
    tell_known(path, requirements, file, Some(entries), paths, tell)
}

// The same with these dynamic entries, if they can be read, and these search paths.
fn tell_known<E: EndianParse, R: ListedFile<E>, T: Tell>(
    path: &str,
    requirements: &[Requirement],
    file: &R,
    entries: Option<&[Dyn]>,
    paths: SearchPaths<'_>,
    tell: &mut T,
) -> Result<(), Stop>
    ensures { let header = R.header file.now in OnOk result (tell.new ≡ saying T.one tell.old
        (known_said path.now requirements.now
        (hardened header.e_type header.e_machine (file_of (R.file file.now) (R.bytes file.now)))
        (option_copied entries.entry) (paths_view paths.entry))) }
{
    let symbols = known_symbols(file, tell)?;
    let features = known_features(file, tell)?;
    if tell.is_silent() {
        return Ok(());
    }
    let hardening = hardening_by(file, entries, paths, &symbols, features);
    crate::hardening_rows::tell_hardening(path, &hardening, paths, tell)?;
    tell_lacks(requirements, &hardening, tell)
}

// How a file is hardened, with these dynamic entries and search paths, these symbols and these features.
fn hardening_by<E: EndianParse, R: ListedFile<E>>(
    file: &R,
    entries: Option<&[Dyn]>,
    paths: SearchPaths<'_>,
    symbols: &Option<Symbols<'_, E>>,
    features: Option<u64>,
) -> Hardening
    ensures { let header = R.header file.now in result ≡ hardening_by
        (headers_of header.e_type header.e_machine (file_of (R.file file.now) (R.bytes file.now)))
        (option_copied entries.entry) (paths_view paths.entry) (option_map symbols_view symbols.now) features }
{
    let header = file.file_header();
    let segments = file.segment_list();
    let binds_now = binds_now(entries);
    Hardening {
        machine: header.e_machine,
        kind: kind_by(header.e_type, segments, entries),
        relro: relro_of(segments, binds_now),
        binds_now,
        has_nx: stack_of(header.e_type, segments),
        writable_code: count_segments(abi::PT_LOAD, abi::PF_W | abi::PF_X, segments),
        has_canary: has_canary(symbols),
        fortified: count_fortified(symbols),
        fortifiable: count_fortifiable(symbols),
        is_path_unsafe: unsafe_path(entries, paths),
        features,
        is_stripped: !has_symbol_table(file.section_list()),
    }
}

// Tells what of this is required and not met.
fn tell_lacks<T: Tell>(
    requirements: &[Requirement],
    hardening: &Hardening,
    tell: &mut T,
) -> Result<(), Stop>
    ensures { OnOk result (tell.new ≡ saying T.one tell.old (flat_map (lack_said hardening.now) requirements.now)) }
{
    for requirement in requirements {
        if !requirement.is_met(hardening) {
            tell.problem(Part::File.whole(), requirement)?;
        }
    }
    Ok(())
}

// ---- segments

// Whether a segment has a type, and all of some flags.
fn is_segment(p_type: u32, flags: u32, segment: &ProgramHeader) -> bool
    ensures { result ≡ is_segment p_type flags segment.now }
{
    segment.p_type == p_type && segment.p_flags & flags == flags
}

fn has_segment(p_type: u32, flags: u32, segments: &[ProgramHeader]) -> bool
    ensures { result ≡ list_any (is_segment p_type flags) segments.now }
{
    segments
        .iter()
        .any(|segment| is_segment(p_type, flags, segment))
}

fn count_segments(p_type: u32, flags: u32, segments: &[ProgramHeader]) -> u64
    ensures { result ≡ length (filter (is_segment p_type flags) segments.now) }
{
    segments
        .iter()
        .filter(|segment| is_segment(p_type, flags, *segment))
        .count() as u64
}

// Whether the stack is not executable, of a program or a shared object.
fn stack_of(e_type: u16, segments: &[ProgramHeader]) -> Option<bool>
    ensures { result ≡ stack_of e_type segments.now }
{
    if e_type == abi::ET_EXEC || e_type == abi::ET_DYN {
        let is_asked_for = has_segment(abi::PT_GNU_STACK, 0, segments);
        Some(is_asked_for && !has_segment(abi::PT_GNU_STACK, abi::PF_X, segments))
    } else {
        None
    }
}

fn has_symbol_table(sections: &[SectionHeader]) -> bool
    ensures { result ≡ has_symbol_table sections.now }
{
    sections
        .iter()
        .any(|section| section.sh_type == abi::SHT_SYMTAB)
}

// ---- dynamic entries

// Whether the last entry with this tag has in its number a bit of the mask.
fn has_flag(tag: i64, mask: u64, entries: &[Dyn]) -> bool
    ensures { result ≡ has_flag tag mask entries.now }
{
    value_in(entries, tag).unwrap_or(0) & mask != 0
}

fn has_any(tag: i64, entries: &[Dyn]) -> bool
    ensures { result ≡ list_any (has_tag tag) entries.now }
{
    entries.iter().any(|entry| has_tag(entry, tag))
}

fn binds_now(entries: Option<&[Dyn]>) -> Option<bool>
    ensures { result ≡ option_map binds_now (option_copied entries.entry) }
{
    let entries = entries?;
    let is_bound = has_any(abi::DT_BIND_NOW, entries)
        || has_flag(abi::DT_FLAGS, abi::DF_BIND_NOW as u64, entries)
        || has_flag(abi::DT_FLAGS_1, abi::DF_1_NOW as u64, entries);
    Some(is_bound)
}

// A program at any address has a flag or, of linkers before that flag, an entry that no library has.
fn dynamic_kind(has_interpreter: bool, entries: &[Dyn]) -> FileKind
    ensures { result ≡ dynamic_kind has_interpreter entries.now }
{
    let is_program = has_interpreter && has_any(abi::DT_DEBUG, entries);
    let is_pie = has_flag(abi::DT_FLAGS_1, abi::DF_1_PIE as u64, entries) || is_program;
    match (is_pie, has_interpreter) {
        (true, true) => FileKind::Pie,
        (true, false) => FileKind::StaticPie,
        (false, _) => FileKind::SharedObject,
    }
}

// What a file of this type is.
fn kind_by(e_type: u16, segments: &[ProgramHeader], entries: Option<&[Dyn]>) -> Option<FileKind>
    ensures { result ≡ file_kind e_type segments.now (option_copied entries.entry) }
{
    match e_type {
        abi::ET_EXEC => Some(FileKind::Executable),
        abi::ET_REL => Some(FileKind::Relocatable),
        abi::ET_CORE => Some(FileKind::Core),
        abi::ET_DYN => {
            let has_interpreter = has_segment(abi::PT_INTERP, 0, segments);
            Some(dynamic_kind(has_interpreter, entries?))
        }
        _ => None,
    }
}

// What is only read after relocations: all of it, if all symbols are bound before.
fn relro_of(segments: &[ProgramHeader], binds_now: Option<bool>) -> Option<Relro>
    ensures { result ≡ relro_of segments.now binds_now }
{
    if !has_segment(abi::PT_GNU_RELRO, 0, segments) {
        return Some(Relro::Nothing);
    }
    match binds_now {
        Some(true) => Some(Relro::Full),
        Some(false) => Some(Relro::Partial),
        None => None,
    }
}

// ---- search paths

const NO_PATHS: SearchPaths<'static> = SearchPaths {
    rpath: None,
    runpath: None,
};

// The search paths that these entries name, if their strings can be found and these can be read.
fn search_paths<'f, E: EndianParse, R: ListedFile<E>, T: Tell>(
    file: &'f R,
    entries: &[Dyn],
    tell: &mut T,
) -> Result<SearchPaths<'f>, Stop>
    ensures paths { let strings = strings_by (file_of (R.file file.now) (R.bytes file.now)) entries.now in
        IfOk result (λ paths. paths_view paths ≡ paths_of (Some (entries.now, result_ok strings))) }
    ensures wrong { let strings = strings_by (file_of (R.file file.now) (R.bytes file.now)) entries.now in
        let known = Some (entries.now, result_ok strings) in
        OnOk result (tell.new ≡ saying T.one tell.old
        (strings_missed strings ++ path_missed dt_rpath known ++ path_missed dt_runpath known)) }
{
    let Some(strings) = found_strings(file, entries, tell)? else {
        return Ok(NO_PATHS);
    };
    let rpath = path_of(abi::DT_RPATH, entries, &strings, tell)?;
    let runpath = path_of(abi::DT_RUNPATH, entries, &strings, tell)?;
    Ok(SearchPaths { rpath, runpath })
}

// The string of the last entry with a tag, if there is one and it can be read.
fn path_of<'f, T: Tell>(
    tag: i64,
    entries: &[Dyn],
    strings: &TerminatedStrings<'f>,
    tell: &mut T,
) -> Result<Option<&'f [u8]>, Stop>
    ensures path { IfOk result (λ path. option_copied path ≡ path_at strings.now (last_tagged tag entries.now)) }
    ensures wrong { OnOk result (tell.new ≡ saying T.one tell.old
        (path_unread strings.now (last_tagged tag entries.now))) }
{
    let Some((number, offset)) = last_tagged(tag, entries) else {
        return Ok(None);
    };
    let place = Part::Dynamic.item(Item::EntryName(number as u64));
    readable(place, strings.get_raw(offset as usize), tell)
}

// The number of the last entry with a tag, and its value.
fn last_tagged(tag: i64, entries: &[Dyn]) -> Option<(usize, u64)>
    ensures { result ≡ last_tagged tag entries.now }
{
    let mut last = None;
    for (number, entry) in entries.iter().enumerate() {
        if has_tag(entry, tag) {
            last = Some((number, entry.d_val()));
        }
    }
    last
}

// Whether a folder is neither absolute nor beside the file.
fn is_unsafe_folder(folder: &[u8]) -> bool
    ensures { result ≡ is_unsafe_folder folder.now }
{
    !(folder.starts_with(b"/")
        || folder.starts_with(b"$ORIGIN")
        || folder.starts_with(b"${ORIGIN}"))
}

// Whether one of the folders of a path, which have colons between them, is unsafe.
fn has_unsafe_folder(path: &[u8]) -> bool
    ensures { result ≡ list_any is_unsafe_folder (slice_split (λ b. b == 58) path.now) }
{
    path.split(|byte| *byte == b':')
        .any(|folder| is_unsafe_folder(folder))
}

// An empty path has no folders.
fn is_unsafe_path(path: Option<&[u8]>) -> bool
    ensures { result ≡ is_unsafe_path (option_copied path.entry) }
{
    match path {
        Some(path) if !path.is_empty() => has_unsafe_folder(path),
        _ => false,
    }
}

fn unsafe_path(entries: Option<&[Dyn]>, paths: SearchPaths<'_>) -> Option<bool>
    ensures { result
        ≡ option_map (λ _. has_unsafe_path (paths_view paths.entry)) (option_copied entries.entry) }
{
    match entries {
        Some(_) => Some(is_unsafe_path(paths.rpath) || is_unsafe_path(paths.runpath)),
        None => None,
    }
}

// ---- symbols

// The dynamic symbols, or if there are none all symbols, if they can be read.
fn known_symbols<'f, E: EndianParse, R: ListedFile<E>, T: Tell>(
    file: &'f R,
    tell: &mut T,
) -> Result<Option<Symbols<'f, E>>, Stop>
    ensures symbols { IfOk result (λ known. option_map symbols_view known
        ≡ if_read (symbols_of (file_of (R.file file.now) (R.bytes file.now))).1) }
    ensures wrong { let found = symbols_of (file_of (R.file file.now) (R.bytes file.now)) in
        OnOk result (tell.new ≡ saying T.one tell.old (fault_said (whole found.0) found.1)) }
{
    let (part, fault) = match linked_symbols(file)? {
        Ok(Some(symbols)) => return Ok(Some(symbols)),
        Ok(None) => match reading::symbols(file)? {
            Ok(symbols) => return Ok(symbols),
            Err(fault) => (Part::Symbols, fault),
        },
        Err(fault) => (Part::DynamicSymbols, fault),
    };
    tell.problem(part.whole(), &fault)?;
    Ok(None)
}

/// Names of symbols that functions with a canary use: the function that is called if it was changed, the canary itself,
/// and that of Intel's compiler.
pub const CANARIES: &[&str] = &[
    "__stack_chk_fail",
    "__stack_chk_guard",
    "__intel_security_cookie",
];

/// Functions of the GNU C library, each with the one that also checks the size of its buffer.
pub const FORTIFIED: &[(&str, &str)] = &[
    ("asprintf", "__asprintf_chk"),
    ("confstr", "__confstr_chk"),
    ("dprintf", "__dprintf_chk"),
    ("explicit_bzero", "__explicit_bzero_chk"),
    ("fdelt", "__fdelt_chk"),
    ("fgets", "__fgets_chk"),
    ("fgets_unlocked", "__fgets_unlocked_chk"),
    ("fgetws", "__fgetws_chk"),
    ("fgetws_unlocked", "__fgetws_unlocked_chk"),
    ("fprintf", "__fprintf_chk"),
    ("fread", "__fread_chk"),
    ("fread_unlocked", "__fread_unlocked_chk"),
    ("fwprintf", "__fwprintf_chk"),
    ("getcwd", "__getcwd_chk"),
    ("getdomainname", "__getdomainname_chk"),
    ("getgroups", "__getgroups_chk"),
    ("gethostname", "__gethostname_chk"),
    ("getlogin_r", "__getlogin_r_chk"),
    ("gets", "__gets_chk"),
    ("getwd", "__getwd_chk"),
    ("longjmp", "__longjmp_chk"),
    ("longjmp", "____longjmp_chk"),
    ("mbsnrtowcs", "__mbsnrtowcs_chk"),
    ("mbsrtowcs", "__mbsrtowcs_chk"),
    ("mbstowcs", "__mbstowcs_chk"),
    ("memcpy", "__memcpy_chk"),
    ("memmove", "__memmove_chk"),
    ("mempcpy", "__mempcpy_chk"),
    ("memset", "__memset_chk"),
    ("obstack_printf", "__obstack_printf_chk"),
    ("obstack_vprintf", "__obstack_vprintf_chk"),
    ("poll", "__poll_chk"),
    ("ppoll", "__ppoll_chk"),
    ("pread", "__pread_chk"),
    ("pread64", "__pread64_chk"),
    ("printf", "__printf_chk"),
    ("ptsname_r", "__ptsname_r_chk"),
    ("read", "__read_chk"),
    ("readlink", "__readlink_chk"),
    ("readlinkat", "__readlinkat_chk"),
    ("realpath", "__realpath_chk"),
    ("recv", "__recv_chk"),
    ("recvfrom", "__recvfrom_chk"),
    ("snprintf", "__snprintf_chk"),
    ("sprintf", "__sprintf_chk"),
    ("stpcpy", "__stpcpy_chk"),
    ("stpncpy", "__stpncpy_chk"),
    ("strcat", "__strcat_chk"),
    ("strcpy", "__strcpy_chk"),
    ("strlcat", "__strlcat_chk"),
    ("strlcpy", "__strlcpy_chk"),
    ("strncat", "__strncat_chk"),
    ("strncpy", "__strncpy_chk"),
    ("swprintf", "__swprintf_chk"),
    ("syslog", "__syslog_chk"),
    ("ttyname_r", "__ttyname_r_chk"),
    ("vasprintf", "__vasprintf_chk"),
    ("vdprintf", "__vdprintf_chk"),
    ("vfprintf", "__vfprintf_chk"),
    ("vfwprintf", "__vfwprintf_chk"),
    ("vprintf", "__vprintf_chk"),
    ("vsnprintf", "__vsnprintf_chk"),
    ("vsprintf", "__vsprintf_chk"),
    ("vswprintf", "__vswprintf_chk"),
    ("vsyslog", "__vsyslog_chk"),
    ("vwprintf", "__vwprintf_chk"),
    ("wcpcpy", "__wcpcpy_chk"),
    ("wcpncpy", "__wcpncpy_chk"),
    ("wcrtomb", "__wcrtomb_chk"),
    ("wcscat", "__wcscat_chk"),
    ("wcscpy", "__wcscpy_chk"),
    ("wcslcat", "__wcslcat_chk"),
    ("wcslcpy", "__wcslcpy_chk"),
    ("wcsncat", "__wcsncat_chk"),
    ("wcsncpy", "__wcsncpy_chk"),
    ("wcsnrtombs", "__wcsnrtombs_chk"),
    ("wcsrtombs", "__wcsrtombs_chk"),
    ("wcstombs", "__wcstombs_chk"),
    ("wctomb", "__wctomb_chk"),
    ("wmemcpy", "__wmemcpy_chk"),
    ("wmemmove", "__wmemmove_chk"),
    ("wmempcpy", "__wmempcpy_chk"),
    ("wmemset", "__wmemset_chk"),
    ("wprintf", "__wprintf_chk"),
];

// Whether the name of a symbol, if it can be read, is this.
fn has_name(strings: &TerminatedStrings<'_>, symbol: &Symbol, name: &str) -> bool
    ensures { result ≡ is_string name.now (string_at strings.now symbol.now.st_name) }
{
    match strings.is(symbol.st_name as usize, name.as_bytes()) {
        Ok(is_same) => is_same,
        Err(_) => false,
    }
}

fn is_canary(strings: &TerminatedStrings<'_>, symbol: &Symbol) -> bool
    ensures { result ≡ is_canary strings.now symbol.now }
{
    CANARIES.iter().any(|name| has_name(strings, symbol, *name))
}

// Whether the name of a symbol is the second one of a pair.
fn is_second(pairs: &[(&str, &str)], strings: &TerminatedStrings<'_>, symbol: &Symbol) -> bool
    ensures { result ≡ is_named strings.now symbol.now (map (λ pair. pair.1.now) pairs.now) }
{
    for pair in pairs {
        if has_name(strings, symbol, pair.1) {
            return true;
        }
    }
    false
}

// Whether the name of a symbol is the first one of a pair.
fn is_first(pairs: &[(&str, &str)], strings: &TerminatedStrings<'_>, symbol: &Symbol) -> bool
    ensures { result ≡ is_named strings.now symbol.now (map (λ pair. pair.0.now) pairs.now) }
{
    for pair in pairs {
        if has_name(strings, symbol, pair.0) {
            return true;
        }
    }
    false
}

fn is_fortified(strings: &TerminatedStrings<'_>, symbol: &Symbol) -> bool
    ensures { result ≡ is_fortified strings.now symbol.now }
{
    symbol.is_undefined() && is_second(FORTIFIED, strings, symbol)
}

fn is_fortifiable(strings: &TerminatedStrings<'_>, symbol: &Symbol) -> bool
    ensures { result ≡ is_fortifiable strings.now symbol.now }
{
    symbol.is_undefined() && is_first(FORTIFIED, strings, symbol)
}

fn any_canary<E: EndianParse>(table: &SymbolTable<'_, E>, strings: &TerminatedStrings<'_>) -> bool
    ensures { result ≡ list_any (is_canary strings.now) (table_items symbol_reads (table_view table.now)) }
{
    table.iter().any(|symbol| is_canary(strings, &symbol))
}

fn fortified_in<E: EndianParse>(
    table: &SymbolTable<'_, E>,
    strings: &TerminatedStrings<'_>,
) -> usize
    ensures { result ≡ length (filter (is_fortified strings.now)
        (table_items symbol_reads (table_view table.now))) }
{
    table
        .iter()
        .filter(|symbol| is_fortified(strings, symbol))
        .count()
}

fn fortifiable_in<E: EndianParse>(
    table: &SymbolTable<'_, E>,
    strings: &TerminatedStrings<'_>,
) -> usize
    ensures { result ≡ length (filter (is_fortifiable strings.now)
        (table_items symbol_reads (table_view table.now))) }
{
    table
        .iter()
        .filter(|symbol| is_fortifiable(strings, symbol))
        .count()
}

fn has_canary<E: EndianParse>(symbols: &Option<Symbols<'_, E>>) -> Option<bool>
    ensures { result ≡ any_symbol is_canary (option_map symbols_view symbols.now) }
{
    match symbols {
        Some((table, strings)) => Some(any_canary(table, &TerminatedStrings::new(strings))),
        None => None,
    }
}

fn count_fortified<E: EndianParse>(symbols: &Option<Symbols<'_, E>>) -> Option<u64>
    ensures { result ≡ count_symbols is_fortified (option_map symbols_view symbols.now) }
{
    match symbols {
        Some((table, strings)) => {
            Some(fortified_in(table, &TerminatedStrings::new(strings)) as u64)
        }
        None => None,
    }
}

fn count_fortifiable<E: EndianParse>(symbols: &Option<Symbols<'_, E>>) -> Option<u64>
    ensures { result ≡ count_symbols is_fortifiable (option_map symbols_view symbols.now) }
{
    match symbols {
        Some((table, strings)) => {
            Some(fortifiable_in(table, &TerminatedStrings::new(strings)) as u64)
        }
        None => None,
    }
}

// ---- the properties of code

// The features, if they can be read. It is a problem if notes with properties cannot be read.
fn known_features<E: EndianParse, R: ListedFile<E>, T: Tell>(
    file: &R,
    tell: &mut T,
) -> Result<Option<u64>, Stop>
    ensures features { let whole = file_of (R.file file.now) (R.bytes file.now) in IfOk result (λ features. features
        ≡ features_by whole.little whole.class (feature_type (R.header file.now).e_machine) (properties_of whole)) }
    ensures wrong { let whole = file_of (R.file file.now) (R.bytes file.now) in
        OnOk result (tell.new ≡ saying T.one tell.old (properties_unread (properties_of whole))) }
{
    if let Some((number, segment)) = property_segment(file.segment_list()) {
        let bytes = reading::segment_data(file, &segment)?;
        let part = Part::Segment(number as u64);
        return noted_features(file, part, segment.p_align, bytes, tell);
    }
    match property_section(file)? {
        Some((number, section)) => {
            let bytes = reading::content(file, &section)?;
            let part = Part::Section(number as u64);
            noted_features(file, part, section.sh_addralign, bytes, tell)
        }
        None => Ok(feature_type(file.file_header().e_machine).map(|_| 0)),
    }
}

fn property_segment(segments: &[ProgramHeader]) -> Option<(usize, ProgramHeader)>
    ensures { result ≡ property_segment segments.now }
{
    segments
        .iter()
        .copied()
        .enumerate()
        .find(|one| one.1.p_type == abi::PT_GNU_PROPERTY)
}

fn property_section<E: EndianParse, R: ListedFile<E>>(
    file: &R,
) -> Result<Option<(usize, SectionHeader)>, Stop>
    ensures { IfOk result (λ found. found ≡ property_section (file_of (R.file file.now) (R.bytes file.now))) }
{
    let names = known_names(file)?;
    Ok(first_named(file.section_list(), &names, ".note.gnu.property"))
}

// The features in these bytes of notes of a part, which declare this alignment, if they can be read.
fn noted_features<E: EndianParse, R: ListedFile<E>, T: Tell>(
    file: &R,
    part: Part,
    align: u64,
    bytes: Result<&[u8], ParseError>,
    tell: &mut T,
) -> Result<Option<u64>, Stop>
    ensures features { let whole = file_of (R.file file.now) (R.bytes file.now) in IfOk result (λ features. features
        ≡ features_by whole.little whole.class (feature_type (R.header file.now).e_machine)
        (Some (part, align, ok_map (λ bytes. bytes.now) bytes.entry))) }
    ensures wrong { OnOk result (tell.new ≡ saying T.one tell.old
        (properties_unread (Some (part, align, ok_map (λ bytes. bytes.now) bytes.entry)))) }
{
    let Some(bytes) = readable(part.whole(), bytes, tell)? else {
        return Ok(None);
    };
    let Some(wanted) = feature_type(file.file_header().e_machine) else {
        return Ok(None);
    };
    let (order, class) = (file.endianness(), file.class());
    Ok(Some(features_of(order, class, wanted, align, bytes)))
}

// The features in bytes of notes; without such a property the code has none.
fn features_of<E: EndianParse>(order: E, class: Class, wanted: u32, align: u64, bytes: &[u8]) -> u64
    ensures { result ≡ features_of (E.little order) class wanted align bytes.now }
{
    let notes = NoteIterator::new(order, Class::ELF64, note_align(align as usize), bytes);
    match feature_in(order, class, wanted, first_properties(notes)) {
        Some(features) => features as u64,
        None => 0,
    }
}

// The descriptor of the first note with properties.
fn first_properties<'f, E: EndianParse>(notes: NoteIterator<'f, E>) -> &'f [u8]
    ensures { result.now ≡ first_properties (notes_left notes.entry) }
{
    for note in notes {
        if let Note::Unknown(note) = note
            && is_property_note(note.n_type, note.name)
        {
            return note.desc;
        }
    }
    &[]
}

// The number of the first property of a type.
fn feature_in<E: EndianParse>(order: E, class: Class, wanted: u32, bytes: &[u8]) -> Option<u32>
    ensures { result ≡ feature_in (E.little order) class wanted bytes.now bytes.now }
{
    let mut rest = bytes;
    let mut left = bytes;
    while let Some((_first, others)) = left.split_first() {
        let Some((kind, size)) = property_at(order, rest) else {
            return None;
        };
        if kind == wanted {
            return number_in(order, rest, 8);
        }
        rest = rest_of(8 + padded(class, size), rest);
        left = others;
    }
    None
}
