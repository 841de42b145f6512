//! Numbers and texts in the descriptors of notes.
ghost use Rattle.std.specs.Prelude.{◌≡◌};
ghost use Rattle.elf_records.specs.Class.{address_size};
ghost use Rattle.nugwier_notes.specs.NoteParts.{address_in, after_string, text_in};

use crate::properties::NoteFile;
use elf_parts::file::Class;
use elf_records::parse::parse_by_class;
use elf_records::slices::rest_of;
use elf_records::string_table::first_nul;

/// Returns the size of an address.
pub(crate) fn address_size(class: Class) -> usize
    ensures { result ≡ address_size class }
{
    match class {
        Class::ELF32 => 4,
        Class::ELF64 => 8,
    }
}

/// Returns the number of the size of an address at an offset.
pub(crate) fn address_in(file: NoteFile, bytes: &[u8], offset: usize) -> Option<u64>
    ensures { result ≡ address_in file bytes.now offset }
{
    let mut offset = offset;
    parse_by_class(file.order(), file.class, &mut offset, bytes).ok()
}

/// Returns the bytes before the first 0 byte, or all.
pub(crate) fn text_in(bytes: &[u8]) -> &[u8]
    ensures { result.now ≡ text_in bytes.now }
{
    match first_nul(bytes) {
        Some(end) => &bytes[..end],
        None => bytes,
    }
}

/// Returns the bytes after a string and the 0 byte at its end.
pub(crate) fn after_string<'a>(string: &[u8], bytes: &'a [u8]) -> &'a [u8]
    ensures { result.now ≡ after_string string.now bytes.now }
{
    rest_of(string.len() + 1, bytes)
}
