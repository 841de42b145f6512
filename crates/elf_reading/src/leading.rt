//! A record at the front of a slice.
ghost use Rattle.std.specs.Prelude.{◌≡◌, ◌≤◌, IfOk, length};
ghost use Rattle.elf_records.specs.Number.{ok_map};
ghost use Rattle.elf_reading.specs.Leading.{at_front, data_view};

use elf_records::endian::EndianParse;
use elf_records::file::Class;
use elf_records::parse::{ParseAt, ParseError};

/// Returns the record at the front of the data, and the bytes after it. The only error is that of `parse_at` at
/// offset 0.
pub fn leading_record<'data, E: EndianParse, P: ParseAt + Drop>(
    endian: E,
    class: Class,
    data: &'data [u8],
) -> Result<(&'data [u8], P), ParseError>
    ensures value { ok_map data_view result
        ≡ at_front (P.reads.size class) (P.reads.record_at (E.little endian) class) «data».now }
    ensures within { IfOk result (λ found. length found.0.now ≤ length «data».now) }
{
    let mut offset = 0;
    let record = P::parse_at(endian, class, &mut offset, data)?;
    Ok((&data[offset..], record))
}
