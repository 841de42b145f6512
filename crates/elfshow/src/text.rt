//! The text of a call, from the results of a reader.
ghost use Rattle.std.specs.Prelude.{◌≡◌, ◌<◌, ◌^◌, OnOk, length};
ghost use Rattle.std.specs.Option.{option_map};
ghost use Rattle.std.specs.Io.KnownBytes.{Appends};
ghost use Rattle.elf_records.specs.Number.{ok_map};
ghost use Rattle.elf.specs.Answers.{dynamic_symbol_table, symbols_view};
ghost use Rattle.elf.specs.Parts.{loaded};
ghost use Rattle.elf.specs.Walk.{headers_left};
ghost use Rattle.elfshow_lines.specs.Counted.{counted_lines};
ghost use Rattle.elfshow.specs.Question.{Question, question};
ghost use Rattle.elfshow.specs.Text.{call_text, checked_as, or_refused, read_answer, symbol_count, symbols_text};
ghost use Rattle.elfshow.specs.Text.{unless_none};

use crate::calls::Call;
use crate::hashes::{Verdict, hash_verdict, write_verdict};
use elf::ReadError;
use elf::endian::EndianParse;
use elf::file::FileHeader;
use elf::laws::tables::iter_gives_len_records;
use elf::parse::ParseAt;
use elf::reader::{
    Reader, dynamic, dynamic_symbol_table, section_data, section_data_as_notes,
    section_data_as_relas, section_data_as_rels, section_data_as_strtab, section_header_by_name,
    section_names, segment_data, segment_data_as_notes, symbol_table, symbol_version_table,
};
use elf::section::SectionHeader;
use elf::string_table::{StringTable, TerminatedStrings};
use elf::symbol::SymbolTable;
use elf::walk::HeaderIterator;
use elf_hash_check::hashcheck::HashKind;
use elfshow_lines::counted::{Line, write_list, write_records};
use elfshow_lines::data::{write_section_data, write_segment_data};
use elfshow_lines::dynamic::DynLine;
use elfshow_lines::header::write_header;
use elfshow_lines::no_answer::{write_absent, write_none, write_refused};
use elfshow_lines::notes::write_notes;
use elfshow_lines::relocations::{RelLine, RelaLine};
use elfshow_lines::sections::{SectionLine, write_found};
use elfshow_lines::segments::SegmentLine;
use elfshow_lines::strings::write_strings;
use elfshow_lines::symbols::SymbolLine;
use elfshow_lines::versions::Room;
use std::io;
use std::io::Write;

/// Writes the text of a call over a file, whose header is given apart. A call for which the reader returns an error
/// writes the line `refused`.
pub(crate) fn write_call<E: EndianParse, F: Reader<E>, R: Room, W: Write>(
    file: &F,
    ehdr: &FileHeader<E>,
    call: Call<'_>,
    room: &R,
    out: &mut W,
) -> io::Result<()>
    requires order { E.little ehdr.now.endianness ≡ (F.file file.now).little }
    ensures { OnOk result (Appends (W.contents out.old) (W.contents out.new)
        (call_text ehdr.now (loaded (F.file file.now) (F.ranges file.now)) (question call.entry))) }
{
    match call {
        Call::Header => write_header(ehdr, out),
        Call::Sections => write_sections(file, out),
        Call::Segments => write_headers(file.each_segment(), &SegmentLine, out),
        Call::Name(name) => write_named(file, name, out),
        Call::Data(index) => write_data(file, index, out),
        Call::Strings(index) => write_section_strings(file, index, out),
        Call::Rels(index) => write_rels(file, index, out),
        Call::Relas(index) => write_relas(file, index, out),
        Call::Notes(index) => write_section_notes(file, index, out),
        Call::Seg(index) => write_seg(file, index, out),
        Call::SegNotes(index) => write_segment_notes(file, index, out),
        Call::Symbols => write_symbols(symbol_table(file), out),
        Call::DynSyms => write_symbols(dynamic_symbol_table(file), out),
        Call::Dynamic => write_dynamic(file, out),
        Call::Versions => write_symbol_versions(file, room, out),
        Call::Sysv(index) => write_hash(file, HashKind::Sysv, index, out),
        Call::Gnu(index) => write_hash(file, HashKind::Gnu, index, out),
    }
}

// Writes the lines of headers, and their number.
fn write_headers<E: EndianParse, L: Line, W: Write>(
    headers: HeaderIterator<'_, E, L::Item>,
    line: &L,
    out: &mut W,
) -> io::Result<()>
where
    L::Item: ParseAt + Copy + Drop,
    requires few { length (headers_left L.Item.reads headers) < 2 ^ 64 }
    ensures { OnOk result (Appends (W.contents out.old) (W.contents out.new)
        (counted_lines (L.line line.now) (headers_left L.Item.reads headers.entry))) }
{
    write_list(headers, line, out)
}

fn write_sections<E: EndianParse, F: Reader<E>, W: Write>(file: &F, out: &mut W) -> io::Result<()>
    ensures { OnOk result (Appends (W.contents out.old) (W.contents out.new)
        (or_refused (read_answer (loaded (F.file file.now) (F.ranges file.now)) Question.Sections))) }
{
    match section_names(file) {
        Ok(names) => {
            let names = names.map(|names| TerminatedStrings::new(&names));
            write_headers(file.each_section(), &SectionLine { names }, out)
        }
        Err(_) => write_refused(out),
    }
}

fn write_named<E: EndianParse, F: Reader<E>, W: Write>(
    file: &F,
    name: &str,
    out: &mut W,
) -> io::Result<()>
    ensures { OnOk result (Appends (W.contents out.old) (W.contents out.new)
        (or_refused (read_answer (loaded (F.file file.now) (F.ranges file.now)) (Question.Name name.now)))) }
{
    match section_header_by_name(file, name) {
        Ok(Some(section)) => write_found(&section, out),
        Ok(None) => write_none(out),
        Err(_) => write_refused(out),
    }
}

fn write_data<E: EndianParse, F: Reader<E>, W: Write>(
    file: &F,
    index: u64,
    out: &mut W,
) -> io::Result<()>
    ensures { OnOk result (Appends (W.contents out.old) (W.contents out.new)
        (or_refused (read_answer (loaded (F.file file.now) (F.ranges file.now)) (Question.Data index)))) }
{
    let Some(section) = file.section_header(index) else {
        return write_absent(out);
    };
    match section_data(file, &section) {
        Ok((bytes, header)) => write_section_data(bytes, header.as_ref(), out),
        Err(_) => write_refused(out),
    }
}

fn write_section_strings<E: EndianParse, F: Reader<E>, W: Write>(
    file: &F,
    index: u64,
    out: &mut W,
) -> io::Result<()>
    ensures { OnOk result (Appends (W.contents out.old) (W.contents out.new)
        (or_refused (read_answer (loaded (F.file file.now) (F.ranges file.now)) (Question.Strings index)))) }
{
    let Some(section) = file.section_header(index) else {
        return write_absent(out);
    };
    match section_data_as_strtab(file, &section) {
        Ok(strings) => write_strings(strings, out),
        Err(_) => write_refused(out),
    }
}

fn write_rels<E: EndianParse, F: Reader<E>, W: Write>(
    file: &F,
    index: u64,
    out: &mut W,
) -> io::Result<()>
    ensures { OnOk result (Appends (W.contents out.old) (W.contents out.new)
        (or_refused (read_answer (loaded (F.file file.now) (F.ranges file.now)) (Question.Rels index)))) }
{
    let Some(section) = file.section_header(index) else {
        return write_absent(out);
    };
    match section_data_as_rels(file, &section) {
        Ok(rels) => write_records(rels, &RelLine, out),
        Err(_) => write_refused(out),
    }
}

fn write_relas<E: EndianParse, F: Reader<E>, W: Write>(
    file: &F,
    index: u64,
    out: &mut W,
) -> io::Result<()>
    ensures { OnOk result (Appends (W.contents out.old) (W.contents out.new)
        (or_refused (read_answer (loaded (F.file file.now) (F.ranges file.now)) (Question.Relas index)))) }
{
    let Some(section) = file.section_header(index) else {
        return write_absent(out);
    };
    match section_data_as_relas(file, &section) {
        Ok(relas) => write_records(relas, &RelaLine, out),
        Err(_) => write_refused(out),
    }
}

fn write_section_notes<E: EndianParse, F: Reader<E>, W: Write>(
    file: &F,
    index: u64,
    out: &mut W,
) -> io::Result<()>
    ensures { OnOk result (Appends (W.contents out.old) (W.contents out.new)
        (or_refused (read_answer (loaded (F.file file.now) (F.ranges file.now)) (Question.Notes index)))) }
{
    let Some(section) = file.section_header(index) else {
        return write_absent(out);
    };
    match section_data_as_notes(file, &section) {
        Ok(notes) => write_notes(notes, out),
        Err(_) => write_refused(out),
    }
}

fn write_seg<E: EndianParse, F: Reader<E>, W: Write>(
    file: &F,
    index: u64,
    out: &mut W,
) -> io::Result<()>
    ensures { OnOk result (Appends (W.contents out.old) (W.contents out.new)
        (or_refused (read_answer (loaded (F.file file.now) (F.ranges file.now)) (Question.Seg index)))) }
{
    let Some(segment) = file.program_header(index) else {
        return write_absent(out);
    };
    match segment_data(file, &segment) {
        Ok(bytes) => write_segment_data(bytes, out),
        Err(_) => write_refused(out),
    }
}

fn write_segment_notes<E: EndianParse, F: Reader<E>, W: Write>(
    file: &F,
    index: u64,
    out: &mut W,
) -> io::Result<()>
    ensures { OnOk result (Appends (W.contents out.old) (W.contents out.new)
        (or_refused (read_answer (loaded (F.file file.now) (F.ranges file.now)) (Question.SegNotes index)))) }
{
    let Some(phdr) = file.program_header(index) else {
        return write_absent(out);
    };
    match segment_data_as_notes(file, &phdr) {
        Ok(notes) => write_notes(notes, out),
        Err(_) => write_refused(out),
    }
}

// The symbols that a reader returned.
fn write_symbols<E: EndianParse, W: Write>(
    found: Result<Option<(SymbolTable<'_, E>, StringTable<'_>)>, ReadError>,
    out: &mut W,
) -> io::Result<()>
    ensures { OnOk result (Appends (W.contents out.old) (W.contents out.new)
        (or_refused (ok_map (unless_none symbols_text) (ok_map (option_map symbols_view) found.entry)))) }
{
    match found {
        Ok(Some((symbols, strings))) => {
            let strings = TerminatedStrings::new(&strings);
            write_records(symbols.iter(), &SymbolLine { strings }, out)
        }
        Ok(None) => write_none(out),
        Err(_) => write_refused(out),
    }
}

fn write_dynamic<E: EndianParse, F: Reader<E>, W: Write>(file: &F, out: &mut W) -> io::Result<()>
    ensures { OnOk result (Appends (W.contents out.old) (W.contents out.new)
        (or_refused (read_answer (loaded (F.file file.now) (F.ranges file.now)) Question.Dynamic))) }
{
    match dynamic(file) {
        Ok(Some(entries)) => write_records(entries.iter(), &DynLine, out),
        Ok(None) => write_none(out),
        Err(_) => write_refused(out),
    }
}

// The number of dynamic symbols; 0 if there is no table of them.
fn dynamic_symbol_count<E: EndianParse, F: Reader<E>>(file: &F) -> Result<usize, ReadError>
    ensures { result ≡ ok_map symbol_count
        (dynamic_symbol_table (loaded (F.file file.now) (F.ranges file.now))) }
{
    match dynamic_symbol_table(file)? {
        Some((symbols, _)) => {
            iter_gives_len_records(&symbols);
            Ok(symbols.len())
        }
        None => Ok(0),
    }
}

fn write_symbol_versions<E: EndianParse, F: Reader<E>, R: Room, W: Write>(
    file: &F,
    room: &R,
    out: &mut W,
) -> io::Result<()>
    ensures { OnOk result (Appends (W.contents out.old) (W.contents out.new)
        (or_refused (read_answer (loaded (F.file file.now) (F.ranges file.now)) Question.Versions))) }
{
    let Ok(symbols) = dynamic_symbol_count(file) else {
        return write_refused(out);
    };
    match symbol_version_table(file) {
        Ok(Some(versions)) => room.write_versions(symbols, &versions, out),
        Ok(None) => write_none(out),
        Err(_) => write_refused(out),
    }
}

// The result of checking a section as a hash section of the dynamic symbols, if there are any.
fn section_verdict<E: EndianParse, F: Reader<E>>(
    file: &F,
    kind: HashKind,
    section: &SectionHeader,
) -> Result<Option<Verdict>, ReadError>
    ensures { result ≡ checked_as kind (loaded (F.file file.now) (F.ranges file.now)) section.now }
{
    let (bytes, _) = section_data(file, section)?;
    let Some((symbols, strings)) = dynamic_symbol_table(file)? else {
        return Ok(None);
    };
    let verdict = hash_verdict(
        kind,
        file.endianness(),
        file.class(),
        bytes,
        symbols,
        strings,
    )?;
    Ok(Some(verdict))
}

fn write_hash<E: EndianParse, F: Reader<E>, W: Write>(
    file: &F,
    kind: HashKind,
    index: u64,
    out: &mut W,
) -> io::Result<()>
    ensures { OnOk result (Appends (W.contents out.old) (W.contents out.new)
        (or_refused (read_answer (loaded (F.file file.now) (F.ranges file.now)) (Question.Hash kind index)))) }
{
    let Some(section) = file.section_header(index) else {
        return write_absent(out);
    };
    match section_verdict(file, kind, &section) {
        Ok(Some(verdict)) => write_verdict(verdict, out),
        Ok(None) => write_none(out),
        Err(_) => write_refused(out),
    }
}
