//! The segments of a file that was checked.
ghost use Rattle.std.specs.Prelude.{◌≡◌, ◌<◌, ◌↔◌, IfSome, IsSome, MatchOption, None, Ok, false, length, slice_get};
ghost use Rattle.std.specs.Option.{IsSomeAnd, option_and_then, option_map};
ghost use Rattle.elf_abi.specs.Values.{pt_dynamic, pt_interp};
ghost use Rattle.elf_records.specs.Number.{ok_map};
ghost use Rattle.elf_parts.specs.Note.{notes_left};
ghost use Rattle.elf_records.specs.Table.{table_view};
ghost use Rattle.elf.specs.ElfBytes.{view};
ghost use Rattle.elf.specs.Headers.{first_segment_of};
ghost use Rattle.elf.specs.ObjectFile.{object_file, table_of};
ghost use Rattle.elf_check.specs.Segments.{SoundSegment, SoundSegments, is_emptied, segment_bytes};
ghost use Rattle.elf_check.specs.SegmentsBytes.{notes_of, with_bytes};
ghost use Rattle.elf_check.specs.inner.SegmentsProps.{SoundView, SoundView-prop};

use super::dynamic::is_emptied;
use super::each::segment_bytes;
use super::table::{segment_at, segment_count};
use elf::dynamic::DynamicTable;
use elf::endian::EndianParse;
use elf::headers::Headers;
use elf::note::NoteIterator;
use elf::segment::ProgramHeader;
use elf::string_table::StringTable;
use elf::{ElfBytes, abi};

// The notes of a segment of type `PT_NOTE` with these bytes, or `None` if it has another type.
pub(crate) fn notes_of<'data, E: EndianParse>(
    file: &ElfBytes<'data, E>,
    phdr: &ProgramHeader,
    bytes: &'data [u8],
) -> Option<NoteIterator<'data, E>>
    ensures { option_map notes_left result
        ≡ notes_of (object_file E.little (view file.now)).little (phdr.now, bytes.now) }
{
    if phdr.p_type != abi::PT_NOTE {
        return None;
    }
    Some(NoteIterator::new(
        file.ehdr.endianness,
        file.ehdr.class,
        phdr.p_align as usize,
        bytes,
    ))
}

/// The segments of a file that was checked: what the program headers declare can be read.
#[derive(Debug, Drop)]
pub struct WholeSegments<'a, 'data, E: EndianParse> {
    pub(super) file: &'a ElfBytes<'data, E>,
    ghost sound: { SoundView E.little (view file.now) } by { SoundView-prop E.little (view file.now) },
}

impl<'a, 'data, E: EndianParse> WholeSegments<'a, 'data, E> {
    ghost use Rattle.elf_check.specs.SegmentsWhole.{interpreter, path_in, segments_file};

    pub(crate) fn new(file: &'a ElfBytes<'data, E>) -> Self
        requires { SoundSegments (object_file E.little (view file.now)) }
        ensures { segments_file E.little result ≡ object_file E.little (view file.now) }
    {
        WholeSegments { file }
    }

    /// How many segments there are.
    pub fn len(&self) -> usize
        ensures { result ≡ length (segments_file E.little self.now).segments }
    {
        segment_count(self.file)
    }

    /// Returns the program header of an index and the bytes of its segment in the file, or `None` exactly if there is
    /// no such segment.
    pub fn get(&self, index: usize) -> Option<(ProgramHeader, &'data [u8])>
        ensures header { option_map (λ found. found.0) result
            ≡ slice_get (segments_file E.little self.now).segments index }
        ensures bytes { IfSome result (λ found.
            segment_bytes (segments_file E.little self.now) found.0 ≡ Ok found.1.now) }
        ensures below { IsSome result ↔ (index < length (segments_file E.little self.now).segments) }
    {
        let phdr = segment_at(self.file, index)?;
        let bytes = segment_bytes(self.file, &phdr).unwrap();
        Some((phdr, bytes))
    }

    /// Returns the notes of the segment of an index, which has the type `PT_NOTE`, or `None` exactly if there is no
    /// such segment or it has another type. Notes aligned to 2 or more bytes fill their segment.
    pub fn notes(&self, index: usize) -> Option<NoteIterator<'data, E>>
        ensures { let file = segments_file E.little self.now in option_map notes_left result
            ≡ option_and_then (notes_of file.little) (slice_get (with_bytes file file.segments) index) }
    {
        match self.get(index) {
            Some((phdr, bytes)) => notes_of(self.file, &phdr, bytes),
            None => None,
        }
    }

    /// Returns the dynamic entries of the first segment of type `PT_DYNAMIC`, or `None` exactly if no segment has the
    /// type. One of the entries has the tag `DT_NULL`, unless the segment is one of memory alone. Their strings are not
    /// here, since only the entries say where these are, by an address.
    pub fn dynamic(&self) -> Option<DynamicTable<'data, E>>
        ensures { let file = segments_file E.little self.now in
            MatchOption result (first_segment_of pt_dynamic file.segments ≡ None) (λ table.
            IsSomeAnd (first_segment_of pt_dynamic file.segments) (λ p.
            ok_map (table_of file) (segment_bytes file p) ≡ Ok (table_view table))) }
    {
        match self.file.first_segment_of(abi::PT_DYNAMIC) {
            Some(phdr) => {
                let bytes = segment_bytes(self.file, &phdr).unwrap();
                Some(DynamicTable::new(self.file.ehdr.endianness, self.file.ehdr.class, bytes))
            }
            None => None,
        }
    }

    // The path of a segment of type `PT_INTERP`.
    fn path(&self, phdr: &ProgramHeader) -> &'data [u8]
        requires segment { SoundSegment (segments_file E.little self.now) phdr.now }
        requires path { phdr.now.p_type ≡ pt_interp }
        requires kept { is_emptied phdr.now ≡ false }
        ensures { path_in (segments_file E.little self.now) phdr.now ≡ Ok result.now }
    {
        let bytes = segment_bytes(self.file, phdr).unwrap();
        StringTable::new(bytes).get_raw(0).unwrap()
    }

    /// Returns the path of the interpreter, without the 0 byte that ends it, or `None` exactly if no segment has the
    /// type `PT_INTERP`, or if the one that has it is one of memory alone.
    pub fn interpreter(&self) -> Option<&'data [u8]>
        ensures { interpreter (segments_file E.little self.now) ≡ Ok (option_map (λ path. path.now) result) }
    {
        match self.file.first_segment_of(abi::PT_INTERP) {
            Some(phdr) => {
                if is_emptied(&phdr) {
                    None
                } else {
                    Some(self.path(&phdr))
                }
            }
            None => None,
        }
    }
}
