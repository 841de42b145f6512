//! Tables: a record for each item.
#![tactic(auto, using(crate::proofs::Saying::saying_both))]

ghost use Rattle.std.specs.Prelude.{◌≡◌, ◌-◌, ◌^◌, ℕ, List, OnOk};
ghost use Rattle.std.specs.Iterator.{Drains, UpTo};
ghost use Rattle.elf_records.specs.Table.{items_left};
ghost use Rattle.nugwier_report.specs.Said.{Said, numbered, saying};

use crate::problem::Stop;
use crate::tell::Tell;
use elf_parts::endian::EndianParse;
use elf_parts::laws::tables::few_records_are_left;
use elf_parts::parse::{ParseAt, ParsingIterator};

/// What is said of the items of a table, each with its number.
pub trait Row {
    type Item;

    ghost said: { Self → ℕ → Self.Item → List Said };

    /// Says it of an item.
    fn tell<T: Tell>(&self, number: u64, item: &Self::Item, tell: &mut T) -> Result<(), Stop>
        ensures { OnOk result (tell.new ≡ saying T.one tell.old (said self.now number item.now)) };
}

/// What is said of items that come with the numbers that they have in a table.
#[derive(Drop)]
pub struct Renumbered<'r, R: Row>(pub &'r R);

impl<R: Row> Row for Renumbered<'_, R> {
    type Item = (usize, R::Item);

    ghost said = { λ row number one. R.said row.0.now one.0 one.1 };

    fn tell<T: Tell>(
        &self,
        _number: u64,
        one: &(usize, R::Item),
        tell: &mut T,
    ) -> Result<(), Stop> {
        self.0.tell(one.0 as u64, &one.1, tell)
    }
}

// Says it of the items of an iterator.
pub fn tell_items<R: Row, I: Iterator<Item = R::Item> + Drop, T: Tell>(
    items: I,
    row: &R,
    tell: &mut T,
) -> Result<(), Stop>
where
    R::Item: Drop,
    requires can { I.can_next items }
    requires few { UpTo (I.remaining items) (2 ^ 64 - 1) }
    ensures { OnOk result ((shown : List R.Item) × Drains I.next_gives items shown
        × (tell.new ≡ saying T.one tell.old (numbered (R.said row.now) 0 shown))) }
{
    let mut number = 0;
    for item in items {
        row.tell(number, &item, tell)?;
        number += 1;
    }
    Ok(())
}

/// Says it of the items of a slice. A silent teller needs none of it.
pub fn tell_slice<R: Row, T: Tell>(items: &[R::Item], row: &R, tell: &mut T) -> Result<(), Stop>
    ensures { OnOk result (tell.new ≡ saying T.one tell.old (numbered (R.said row.now) 0 items.now)) }
{
    if tell.is_silent() {
        return Ok(());
    }
    let mut number = 0;
    for item in items {
        row.tell(number, item, tell)?;
        number += 1;
    }
    Ok(())
}

/// Says it of the records of a table. A silent teller needs none of it.
pub fn tell_records<E: EndianParse, R: Row, T: Tell>(
    records: ParsingIterator<'_, E, R::Item>,
    row: &R,
    tell: &mut T,
) -> Result<(), Stop>
where
    R::Item: ParseAt + Drop,
    ensures { OnOk result (tell.new ≡ saying T.one tell.old
        (numbered (R.said row.now) 0 (items_left R.Item.reads records.entry))) }
{
    if tell.is_silent() {
        return Ok(());
    }
    few_records_are_left(&records);
    tell_items(records, row, tell)
}
