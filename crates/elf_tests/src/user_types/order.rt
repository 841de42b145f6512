//! A user's own order of bytes.
use elf::endian::EndianParse;
use elf::parse::ParseError;

/// An order that numbers may have in a program, while a file may have the big order alone.
#[derive(Clone, Copy, Debug, Default, Eq, PartialEq)]
pub enum FileOrder {
    #[default]
    HighFirst,
    LowFirst,
}

impl EndianParse for FileOrder {
    ghost use Rattle.elf_tests.specs.FileOrders.{is_low_first, of_byte_two, byte_of_order};

    ghost little = { is_low_first };

    ghost of_byte = { of_byte_two };

    ghost byte_of = { byte_of_order };

    fn from_ei_data(ei_data: u8) -> Result<Self, ParseError> {
        match ei_data {
            2 => Ok(FileOrder::HighFirst),
            _ => Err(ParseError::UnsupportedElfEndianness(ei_data)),
        }
    }

    fn is_little(self) -> bool {
        match self {
            FileOrder::HighFirst => false,
            FileOrder::LowFirst => true,
        }
    }
}
