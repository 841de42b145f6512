//! Strings of a table.
ghost use Rattle.std.specs.Prelude.{◌≡◌};
ghost use Rattle.elf_records.specs.StringTable.{string_at};
ghost use Rattle.elf_c.specs.Status.{IsWritten, status_of};
ghost use Rattle.elf_c.specs.Tables.{bytes_view};

use crate::status::{NugwierStatus, done, refused};
use elf_parts::string_table::StringTable;

/// Some bytes.
#[repr(C)]
#[derive(Drop)]
pub struct NugwierBytes<'data> {
    pub bytes: &'data [u8],
}

/// Some bytes, if there are any to be found.
#[repr(C)]
#[derive(Drop)]
pub struct NugwierFoundBytes<'data> {
    pub found: bool,
    pub bytes: &'data [u8],
}

/// Finds the string at an offset of a table, without the 0 byte that ends it. An error leaves `string` as it is; the
/// errors are those of `StringTable::get_raw`.
#[unsafe(no_mangle)]
pub extern "C" fn nugwier_string<'data>(
    strings: &'data [u8],
    offset: usize,
    string: &mut NugwierBytes<'data>,
) -> NugwierStatus
    ensures status { result ≡ status_of (string_at strings.now offset) }
    ensures string { IsWritten bytes_view string.new string.old (string_at strings.now offset) }
{
    match StringTable::new(strings).get_raw(offset) {
        Ok(found) => {
            *string = NugwierBytes { bytes: found };
            done()
        }
        Err(error) => refused(&error),
    }
}
