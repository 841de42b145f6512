//! The bytes of sections and segments, and what lies in them: strings, relocations, notes.
ghost use Rattle.std.specs.Prelude.{◌≡◌};
ghost use Rattle.elf_abi.specs.Values.{sht_rel, sht_rela};
ghost use Rattle.elf_records.specs.Number.{ok_map};
ghost use Rattle.elf.specs.Answers.{section_data_as_strtab, segment_data};
ghost use Rattle.elf.specs.Data.{section_data};
ghost use Rattle.elf.specs.ObjectFile.{table_of};
ghost use Rattle.elf_c.specs.Data.{compression_shown, data_shown, data_view_of_c, notes_view};
ghost use Rattle.elf_c.specs.Data.{section_notes, section_records, segment_notes};
ghost use Rattle.elf_c.specs.Loaded.{headers_of_c, loaded_of_c};
ghost use Rattle.elf_c.specs.Records.{section_in, segment_in};
ghost use Rattle.elf_c.specs.Status.{IsWritten, read_status};
ghost use Rattle.elf_c.specs.Tables.{bytes_view, table_of_c};

use crate::file::NugwierFile;
use crate::notes::NugwierNotes;
use crate::records::{NugwierSection, NugwierSegment, section_in, segment_in};
use crate::status::{NugwierStatus, done, refused, unread};
use crate::strings::NugwierBytes;
use crate::table::NugwierTable;
use elf::{ParseError, abi, reader};
use elf_parts::compression::CompressionHeader;
use elf_parts::endian::AnyEndian;

/// What the compression header of a section says. If it has none, all numbers are 0.
#[repr(C)]
#[derive(Clone, Copy, Default)]
pub struct NugwierCompression {
    pub compressed: bool,
    pub kind: u32,
    pub size: u64,
    pub addralign: u64,
}

/// The bytes of a section, after its compression header if it has one, and what that says.
#[repr(C)]
#[derive(Drop)]
pub struct NugwierData<'data> {
    pub bytes: &'data [u8],
    pub compression: NugwierCompression,
}

// A compression header as C sees it.
fn compression_shown(header: &Option<CompressionHeader>) -> NugwierCompression
    ensures { result ≡ compression_shown header.now }
{
    match header {
        Some(header) => NugwierCompression {
            compressed: true,
            kind: header.ch_type,
            size: header.ch_size,
            addralign: header.ch_addralign,
        },
        None => NugwierCompression::default(),
    }
}

/// Finds the bytes of a section, and reads its compression header if it has one; nothing is decompressed. A section of
/// type `SHT_NOBITS` has no bytes. An error leaves `part` as it is; the errors are those of `ElfBytes::section_data`.
#[unsafe(no_mangle)]
pub extern "C" fn nugwier_section_data<'data>(
    file: &'data NugwierFile<'data>,
    section: &NugwierSection,
    part: &mut NugwierData<'data>,
) -> NugwierStatus
    ensures status { result ≡ read_status (section_data (loaded_of_c file.now) (section_in section.now)) }
    ensures part { IsWritten data_view_of_c part.new part.old
        (ok_map data_shown (section_data (loaded_of_c file.now) (section_in section.now))) }
{
    match reader::section_data::<AnyEndian, _>(file, &section_in(section)) {
        Ok((bytes, header)) => {
            *part = NugwierData {
                bytes,
                compression: compression_shown(&header),
            };
            done()
        }
        Err(error) => unread(&error),
    }
}

/// Finds the bytes of a segment in the file. An error leaves `part` as it is; the errors are those of
/// `ElfBytes::segment_data`.
#[unsafe(no_mangle)]
pub extern "C" fn nugwier_segment_data<'data>(
    file: &'data NugwierFile<'data>,
    segment: &NugwierSegment,
    part: &mut NugwierBytes<'data>,
) -> NugwierStatus
    ensures status { result ≡ read_status (segment_data (loaded_of_c file.now) (segment_in segment.now)) }
    ensures part { IsWritten bytes_view part.new part.old
        (segment_data (loaded_of_c file.now) (segment_in segment.now)) }
{
    match reader::segment_data::<AnyEndian, _>(file, &segment_in(segment)) {
        Ok(bytes) => {
            *part = NugwierBytes { bytes };
            done()
        }
        Err(error) => unread(&error),
    }
}

// The records that lie in these bytes of a file.
#[tactic(auto, using(crate::proofs::Files::is_little_in))]
pub(crate) fn table_in<'data>(file: &NugwierFile<'_>, bytes: &'data [u8]) -> NugwierTable<'data>
    ensures { table_of_c result ≡ table_of (headers_of_c file.now) bytes.now }
{
    NugwierTable {
        little: file.header.little,
        is_64: file.header.is_64,
        bytes,
    }
}

/// Finds the strings of a section of type `SHT_STRTAB`. An error leaves `strings` as it is; the errors are those of
/// `ElfBytes::section_data_as_strtab`.
#[unsafe(no_mangle)]
pub extern "C" fn nugwier_section_strings<'data>(
    file: &'data NugwierFile<'data>,
    section: &NugwierSection,
    strings: &mut NugwierBytes<'data>,
) -> NugwierStatus
    ensures status { result ≡ read_status (section_data_as_strtab (loaded_of_c file.now) (section_in section.now)) }
    ensures strings { IsWritten bytes_view strings.new strings.old
        (section_data_as_strtab (loaded_of_c file.now) (section_in section.now)) }
{
    match reader::section_data_as_strtab::<AnyEndian, _>(file, &section_in(section)) {
        Ok(found) => {
            *strings = NugwierBytes {
                bytes: found.bytes(),
            };
            done()
        }
        Err(error) => unread(&error),
    }
}

// The records of a section that must have a given type.
fn section_records<'data>(
    file: &'data NugwierFile<'data>,
    section: &NugwierSection,
    kind: u32,
    table: &mut NugwierTable<'data>,
) -> NugwierStatus
    ensures status { result ≡ read_status (section_records kind (loaded_of_c file.now) (section_in section.now)) }
    ensures table { IsWritten table_of_c table.new table.old
        (section_records kind (loaded_of_c file.now) (section_in section.now)) }
{
    match reader::content_of_type::<AnyEndian, _>(file, &section_in(section), kind) {
        Ok(bytes) => {
            *table = table_in(file, bytes);
            done()
        }
        Err(error) => unread(&error),
    }
}

/// Finds the relocations of a section of type `SHT_REL`. An error leaves `table` as it is; the errors are those of
/// `ElfBytes::section_data_as_rels`.
#[unsafe(no_mangle)]
pub extern "C" fn nugwier_section_rels<'data>(
    file: &'data NugwierFile<'data>,
    section: &NugwierSection,
    table: &mut NugwierTable<'data>,
) -> NugwierStatus
    ensures status { result ≡ read_status (section_records sht_rel (loaded_of_c file.now) (section_in section.now)) }
    ensures table { IsWritten table_of_c table.new table.old
        (section_records sht_rel (loaded_of_c file.now) (section_in section.now)) }
{
    section_records(file, section, abi::SHT_REL, table)
}

/// Finds the relocations of a section of type `SHT_RELA`. An error leaves `table` as it is; the errors are those of
/// `ElfBytes::section_data_as_relas`.
#[unsafe(no_mangle)]
pub extern "C" fn nugwier_section_relas<'data>(
    file: &'data NugwierFile<'data>,
    section: &NugwierSection,
    table: &mut NugwierTable<'data>,
) -> NugwierStatus
    ensures status { result ≡ read_status (section_records sht_rela (loaded_of_c file.now) (section_in section.now)) }
    ensures table { IsWritten table_of_c table.new table.old
        (section_records sht_rela (loaded_of_c file.now) (section_in section.now)) }
{
    section_records(file, section, abi::SHT_RELA, table)
}

// The notes that lie in these bytes of a file, with this alignment.
#[tactic(auto, using(crate::proofs::Files::is_little_in))]
fn notes_in<'data>(file: &NugwierFile<'_>, align: u64, bytes: &'data [u8]) -> NugwierNotes<'data>
    ensures { notes_view result ≡ ((headers_of_c file.now).little, align, bytes.now) }
{
    NugwierNotes {
        little: file.header.little,
        align: align as usize,
        bytes,
    }
}

/// Finds the notes of a section of type `SHT_NOTE`. An error leaves `notes` as it is; the errors are those of
/// `ElfBytes::section_data_as_notes`.
#[unsafe(no_mangle)]
pub extern "C" fn nugwier_section_notes<'data>(
    file: &'data NugwierFile<'data>,
    section: &NugwierSection,
    notes: &mut NugwierNotes<'data>,
) -> NugwierStatus
    ensures status { result ≡ read_status (section_notes (loaded_of_c file.now) (section_in section.now)) }
    ensures notes { IsWritten notes_view notes.new notes.old
        (section_notes (loaded_of_c file.now) (section_in section.now)) }
{
    match reader::content_of_type::<AnyEndian, _>(file, &section_in(section), abi::SHT_NOTE) {
        Ok(bytes) => {
            *notes = notes_in(file, section.addralign, bytes);
            done()
        }
        Err(error) => unread(&error),
    }
}

/// Finds the notes of a segment of type `PT_NOTE`. An error leaves `notes` as it is; the errors are those of
/// `ElfBytes::segment_data_as_notes`.
#[unsafe(no_mangle)]
pub extern "C" fn nugwier_segment_notes<'data>(
    file: &'data NugwierFile<'data>,
    segment: &NugwierSegment,
    notes: &mut NugwierNotes<'data>,
) -> NugwierStatus
    ensures status { result ≡ read_status (segment_notes (loaded_of_c file.now) (segment_in segment.now)) }
    ensures notes { IsWritten notes_view notes.new notes.old
        (segment_notes (loaded_of_c file.now) (segment_in segment.now)) }
{
    if segment.kind != abi::PT_NOTE {
        return refused(&ParseError::UnexpectedSegmentType((segment.kind, abi::PT_NOTE)));
    }
    match reader::segment_data::<AnyEndian, _>(file, &segment_in(segment)) {
        Ok(bytes) => {
            *notes = notes_in(file, segment.align, bytes);
            done()
        }
        Err(error) => unread(&error),
    }
}
