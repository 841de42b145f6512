//! Tables of records: their bytes, with their byte order and class.
ghost use Rattle.std.specs.Prelude.{◌≡◌, ◌*◌, ◌<◌, ◌≤◌, ◌^◌, IfSome, drop, length, true};
ghost use Rattle.elf_records.specs.Table.{table_get, table_in, table_len, table_view};
ghost use Rattle.elf_c.specs.Filled.{AreFilled, AreHeld, AreRead, IsShown};
ghost use Rattle.elf_c.specs.Status.{status_of, written};
ghost use Rattle.elf_c.specs.Tables.{class_in, is_64, order_in, table_of_c};

use crate::status::{NugwierStatus, done, refused};
use elf_parts::endian::{AnyEndian, BigEndian, EndianParse, LittleEndian};
use elf_parts::file::Class;
use elf_parts::parse::{ParseAt, ParsingTable};

/// The bytes of a table, and the byte order and the class of its records.
#[repr(C)]
#[derive(Default, Drop)]
pub struct NugwierTable<'data> {
    pub little: bool,
    pub is_64: bool,
    pub bytes: &'data [u8],
}

// The order that is little or not.
pub(crate) fn order_in(little: bool) -> AnyEndian
    ensures { result ≡ order_in little }
{
    if little {
        AnyEndian::Little
    } else {
        AnyEndian::Big
    }
}

// The class that has 64 bits or not.
pub(crate) fn class_in(is_64: bool) -> Class
    ensures { result ≡ class_in is_64 }
{
    if is_64 { Class::ELF64 } else { Class::ELF32 }
}

// Whether a class has 64 bits.
pub(crate) fn is_64(class: Class) -> bool
    ensures { result ≡ is_64 class }
{
    match class {
        Class::ELF32 => false,
        Class::ELF64 => true,
    }
}

// The records of a table.
pub(crate) fn records_in<'data, R: ParseAt>(
    table: &NugwierTable<'data>,
) -> ParsingTable<'data, AnyEndian, R>
    ensures { table_view result ≡ table_of_c table.now }
{
    ParsingTable::new(order_in(table.little), class_in(table.is_64), table.bytes)
}

// A table as C sees it.
#[tactic(auto, using(crate::proofs::Files::class_in_is_64))]
pub(crate) fn table_shown<'data, R: ParseAt>(
    table: &ParsingTable<'data, AnyEndian, R>,
) -> NugwierTable<'data>
    ensures { table_of_c result ≡ table_view table.now }
{
    NugwierTable {
        little: table.is_little(),
        is_64: is_64(table.class()),
        bytes: table.bytes(),
    }
}

/// A record that C sees as a struct.
pub(crate) trait ForC: ParseAt + Drop {
    type Seen: Copy;

    // The record as C sees it.
    ghost shown: { Self → Self.Seen };

    fn show(&self) -> Self::Seen
        ensures { result ≡ shown self.now };
}

// How many records fit into a table.
pub(crate) fn count<R: ForC>(table: &NugwierTable<'_>) -> usize
    ensures { result ≡ table_len R.reads (table_of_c table.now) }
{
    records_in::<R>(table).len()
}

// Reads a record of a table.
pub(crate) fn get<R: ForC>(
    table: &NugwierTable<'_>,
    index: usize,
    place: &mut R::Seen,
) -> NugwierStatus
    ensures status { result ≡ status_of (table_get R.reads (table_of_c table.now) index) }
    ensures place { place.new ≡ written R.shown place.old (table_get R.reads (table_of_c table.now) index) }
{
    match records_in::<R>(table).get(index) {
        Ok(record) => {
            *place = record.show();
            done()
        }
        Err(error) => refused(&error),
    }
}

// The bytes of a table from record `first` on, of records with this size.
pub(crate) fn bytes_from(bytes: &[u8], first: usize, size: usize) -> Option<&[u8]>
    ensures within { IfSome result (λ left. first * size ≤ length bytes.now) }
    ensures left { IfSome result (λ left. left.now ≡ drop (first * size) bytes.now) }
    ensures short { length bytes.now < 2 ^ 64 }
{
    let len = bytes.len();
    let start = first.checked_mul(size)?;
    if start > len {
        return None;
    }
    Some(&bytes[start..])
}

// Fills places with the records of a table starting at `first`, as far as each can be read from its own bytes. It may
// stop early. Inlined, so the compiler knows the byte order and the size of a record: the bounds are checked once a
// record.
#[tactic(auto, using(crate::proofs::Filling::none_read))]
#[inline(always)]
fn fill_quickly<R: ForC, E: EndianParse>(
    endian: E,
    class: Class,
    bytes: &[u8],
    first: usize,
    places: &mut [R::Seen],
) -> usize
    requires { R.reads.local ≡ true }
    ensures { AreRead (IsShown R.shown) (table_get R.reads (table_in (E.little endian) class bytes.now)) first result
        places.old places.new }
{
    let size = R::size_for(class);
    let Some(mut left) = bytes_from(bytes, first, size) else {
        return 0;
    };
    let mut count = 0;
    while count < places.len() {
        let Some((own, after)) = left.split_at_checked(size) else {
            return count;
        };
        let mut start = 0;
        let Ok(record) = R::parse_at(endian, class, &mut start, own) else {
            return count;
        };
        places[count] = record.show();
        left = after;
        count += 1;
    }
    count
}

// The same for a table in either byte order. In each arm the class, and so the size of a record, is known to the
// compiler.
#[inline(always)]
fn fill_in_order<R: ForC, E: EndianParse>(
    endian: E,
    table: &NugwierTable<'_>,
    first: usize,
    places: &mut [R::Seen],
) -> usize
    requires order { E.little endian ≡ table.now.little }
    requires local { R.reads.local ≡ true }
    ensures { AreRead (IsShown R.shown) (table_get R.reads (table_of_c table.now)) first result
        places.old places.new }
{
    if table.is_64 {
        fill_quickly::<R, E>(endian, Class::ELF64, table.bytes, first, places)
    } else {
        fill_quickly::<R, E>(endian, Class::ELF32, table.bytes, first, places)
    }
}

// Fills the front of the places; `fill_rest` fills what is left.
#[tactic(auto, using(crate::proofs::Filling::none_read))]
#[inline(always)]
fn fill_front<R: ForC>(table: &NugwierTable<'_>, first: usize, places: &mut [R::Seen]) -> usize
    ensures { AreRead (IsShown R.shown) (table_get R.reads (table_of_c table.now)) first result
        places.old places.new }
{
    if !R::SHAPE.2 {
        return 0;
    }
    if table.little {
        fill_in_order::<R, LittleEndian>(LittleEndian, table, first, places)
    } else {
        fill_in_order::<R, BigEndian>(BigEndian, table, first, places)
    }
}

// Fills the places from number `start` on, and returns how many are filled then: up to the first record that cannot be
// read, and no more than there are places.
fn fill_rest<R: ForC>(
    table: &NugwierTable<'_>,
    first: usize,
    start: usize,
    places: &mut [R::Seen],
) -> usize
    requires within { start ≤ length places.old }
    requires front { AreHeld (IsShown R.shown) (table_get R.reads (table_of_c table.now)) first start places.old }
    ensures from { start ≤ result }
    ensures filled { AreFilled (IsShown R.shown) (table_get R.reads (table_of_c table.now)) first result
        places.old places.new }
{
    let records = records_in::<R>(table);
    let mut count = start;
    while count < places.len() {
        let Some(index) = first.checked_add(count) else {
            return count;
        };
        let Ok(record) = records.get(index) else {
            return count;
        };
        places[count] = record.show();
        count += 1;
    }
    count
}

// Fills places with the records of a table starting at `first`, and returns how many these are: up to the first that
// cannot be read, and no more than there are places.
#[tactic(auto, using(crate::proofs::Filling::all_filled))]
#[inline(always)]
pub(crate) fn fill<R: ForC>(table: &NugwierTable<'_>, first: usize, places: &mut [R::Seen]) -> usize
    ensures { AreFilled (IsShown R.shown) (table_get R.reads (table_of_c table.now)) first result
        places.old places.new }
{
    let front = fill_front::<R>(table, first, places);
    if front == places.len() {
        return front;
    }
    fill_rest::<R>(table, first, front, places)
}
