//! A walk over the headers of a file, which are in a table or in a list.
ghost use Rattle.std.specs.Prelude.{◌≡◌, ◌<◌, ◌^◌, ◌++◌, [], length};
ghost use Rattle.std.specs.Iterator.{YieldsFirst, item_count};
ghost use Rattle.elf_records.specs.Table.{items_left};

use elf_parts::endian::EndianParse;
use elf_parts::file::Class;
use elf_parts::laws::tables::few_records_are_left;
use elf_parts::parse::{ParseAt, ParsingIterator};

/// An iterator over headers: those of a list, then those of a table.
#[derive(Drop)]
pub struct HeaderIterator<'data, E: EndianParse, P: ParseAt> {
    list: &'data [P],
    table: ParsingIterator<'data, E, P>,
}

impl<'data, E: EndianParse, P: ParseAt> HeaderIterator<'data, E, P> {
    ghost use Rattle.elf.specs.Walk.{headers_left};

    /// The headers of a table.
    pub fn of_table(table: ParsingIterator<'data, E, P>) -> Self
        ensures value { headers_left P.reads result ≡ items_left P.reads table.entry }
        ensures bound { length (headers_left P.reads result) < 2 ^ 64 }
    {
        few_records_are_left(&table);
        HeaderIterator { list: &[], table }
    }

    /// The headers of a list.
    pub fn of_list(endian: E, list: &'data [P]) -> Self
        ensures value { headers_left P.reads result ≡ list.now }
    {
        HeaderIterator {
            list,
            table: ParsingIterator::new(endian, Class::ELF64, &[]),
        }
    }
}

impl<'data, E: EndianParse, P: ParseAt + Copy> Iterator for HeaderIterator<'data, E, P> {
    type Item = P;

    ghost use Rattle.elf.specs.Walk.{headers_left};

    ghost next_gives = { YieldsFirst (headers_left P.reads) };

    ghost remaining = { item_count (headers_left P.reads) };

    fn next(&mut self) -> Option<P> {
        match self.list {
            [first, rest @ ..] => {
                self.list = rest;
                Some(*first)
            }
            [] => self.table.next(),
        }
    }
}
