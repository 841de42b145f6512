//! A user's own record that has no field table.
ghost use Rattle.std.specs.Prelude.{false, refl};

use elf::endian::EndianParse;
use elf::file::Class;
use elf::parse::{ParseAt, ParseError};

/// A byte that lies at an even offset; at an odd offset the read returns an error.
#[derive(Clone, Copy, Debug, PartialEq, Eq)]
pub struct EvenByte {
    pub value: u8,
}

impl ParseAt for EvenByte {
    ghost use Rattle.elf_tests.specs.EvenBytes.{even_bytes};

    const SHAPE: (usize, usize, bool) = (1, 1, false);

    ghost SHAPE = { (1, 1, false) };

    ghost reads = { even_bytes };

    ghost shape_law = { refl };

    fn parse_at<E: EndianParse>(
        endian: E,
        _class: Class,
        offset: &mut usize,
        data: &[u8],
    ) -> Result<Self, ParseError> {
        let start = *offset;
        if start % 2 != 0 {
            return Err(ParseError::BadOffset(start as u64));
        }
        let value = endian.parse_u8_at(offset, data)?;
        Ok(EvenByte { value })
    }
}
