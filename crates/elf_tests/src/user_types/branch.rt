//! A user's own record with a signed field, given by a field table.
ghost use Rattle.std.specs.Prelude.{refl, true};

use elf::endian::EndianParse;
use elf::file::Class;
use elf::laws::tables::PlainRecord;
use elf::parse::{ParseAt, ParseError};

/// A branch of a program: its line, and its distance in bytes, which is negative for a branch back.
#[derive(Clone, Copy, Debug, PartialEq, Eq)]
pub struct Branch {
    pub line: u16,
    pub distance: i32,
}

impl ParseAt for Branch {
    ghost use Rattle.elf_tests.specs.Branches.{branch_reads};

    const SHAPE: (usize, usize, bool) = (6, 6, true);

    ghost SHAPE = { (6, 6, true) };

    ghost reads = { branch_reads };

    ghost shape_law = { refl };

    #[tactic(auto, unfolding(elf_records::specs::Record::numbers_at, elf_records::specs::Record::numbers_end, elf_records::specs::Number::signed_number_at))]
    fn parse_at<E: EndianParse>(
        endian: E,
        _class: Class,
        offset: &mut usize,
        data: &[u8],
    ) -> Result<Self, ParseError> {
        Ok(Branch {
            line: endian.parse_u16_at(offset, data)?,
            distance: endian.parse_i32_at(offset, data)?,
        })
    }
}

impl PlainRecord for Branch {
    ghost use Rattle.elf_records.specs.inner.RecordLaws.{wherever_by};
    ghost use Rattle.elf_tests.specs.Branches.{branch_layout};

    ghost wherever = { wherever_by branch_layout refl };
}
