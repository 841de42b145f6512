//! A user's own record, given by a field table.
ghost use Rattle.std.specs.Prelude.{refl, true};

use elf::endian::EndianParse;
use elf::file::Class;
use elf::laws::tables::PlainRecord;
use elf::parse::{ParseAt, ParseError};

/// A kind and a value, in three bytes.
#[derive(Clone, Copy, Debug, PartialEq, Eq)]
pub struct Triple {
    pub kind: u8,
    pub value: u16,
}

impl ParseAt for Triple {
    ghost use Rattle.elf_tests.specs.Triples.{triple_reads};

    const SHAPE: (usize, usize, bool) = (3, 3, true);

    ghost SHAPE = { (3, 3, true) };

    ghost reads = { triple_reads };

    ghost shape_law = { refl };

    #[tactic(auto, unfolding(elf_records::specs::Record::numbers_at, elf_records::specs::Record::numbers_end))]
    fn parse_at<E: EndianParse>(
        endian: E,
        _class: Class,
        offset: &mut usize,
        data: &[u8],
    ) -> Result<Self, ParseError> {
        Ok(Triple {
            kind: endian.parse_u8_at(offset, data)?,
            value: endian.parse_u16_at(offset, data)?,
        })
    }
}

impl PlainRecord for Triple {
    ghost use Rattle.elf_records.specs.inner.RecordLaws.{wherever_by};
    ghost use Rattle.elf_tests.specs.Triples.{triple_layout};

    ghost wherever = { wherever_by triple_layout refl };
}
