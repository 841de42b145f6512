//! Relative relocations that are packed into words (gABI, chapters "Sections" and "Relocation", `SHT_RELR`).
//!
//! A relative relocation adds the address at which a file is loaded to one word of its memory. An even word of the
//! table is the address of such a word. An odd word is a bitmap: each of its bits except bit 0 stands for a word of
//! memory, and a bit that is 1 marks a relocation. The words of a bitmap follow, in order, the word at the address
//! before it, or the words of the bitmap before it.
ghost use Rattle.std.specs.Prelude.{◌≡◌, ◌*◌, ◌≤◌, ◌<◌, ◌∷◌, ◌++◌, [], length, IfErr, IfNone, IfOk, List, refl, true};
ghost use Rattle.std.specs.Iterator.{YieldsFirst, item_count};
ghost use Rattle.std.specs.List.{cons_option};
ghost use Rattle.elf_records.specs.Number.{ok_map};
ghost use Rattle.elf_records.specs.Table.{table_items, table_view};
ghost use Rattle.elf.specs.Parts.{IsPlain, loaded};
ghost use Rattle.elf_dynamic.specs.Relr.{addresses_from, addresses_left, if_marked, marked_left, relative_addresses};
ghost use Rattle.elf_dynamic.specs.Relr.{relr_reads, relr_word, section_data_as_relr, words_after, words_of_bitmap};
ghost use Rattle.elf_dynamic.specs.declared.relr.Relr.{Relr};

use elf::ReadError;
use elf::endian::EndianParse;
use elf::file::Class;
use elf::laws::tables::{PlainRecord, iter_gives_len_records};
use elf::parse::{ParseAt, ParseError, ParsingIterator, ParsingTable};
use elf::reader::{Reader, content_of_type};
use elf::section::SectionHeader;
use elf_records::parse::parse_by_class;

/// The type of a section of packed relative relocations (gABI, chapter "Sections").
pub const SHT_RELR: u32 = 19;

/// The size of the table of packed relative relocations, in bytes (gABI, chapter "Dynamic Section").
pub const DT_RELRSZ: i64 = 35;

/// The address of the table of packed relative relocations (gABI, chapter "Dynamic Section").
pub const DT_RELR: i64 = 36;

/// The size of a word of the table of packed relative relocations, in bytes (gABI, chapter "Dynamic Section").
pub const DT_RELRENT: i64 = 37;

/// A word of packed relative relocations, of either class: an address if it is even, a bitmap if it is odd. It has the
/// size of an address.
#[derive(Clone, Copy, Debug, PartialEq, Eq)]
pub struct Relr(pub u64);

/// A table of packed relative relocations. Its records are the words; `RelrIterator` yields the addresses.
pub type RelrTable<'data, E> = ParsingTable<'data, E, Relr>;

impl ParseAt for Relr {
    const SHAPE: (usize, usize, bool) = (4, 8, true);

    ghost SHAPE = { (4, 8, true) };

    ghost reads = { relr_reads };

    ghost shape_law = { refl };

    #[tactic(auto, unfolding(elf_records::specs::Record::numbers_at, elf_records::specs::Record::numbers_end))]
    #[inline(always)]
    fn parse_at<E: EndianParse>(
        endian: E,
        class: Class,
        offset: &mut usize,
        data: &[u8],
    ) -> Result<Self, ParseError> {
        Ok(Relr(parse_by_class(endian, class, offset, data)?))
    }
}

impl PlainRecord for Relr {
    ghost use Rattle.elf_records.specs.inner.RecordLaws.{wherever_by};
    ghost use Rattle.elf_dynamic.specs.Relr.{relr_layout};

    ghost wherever = { wherever_by relr_layout refl };
}

// The number of words that a bitmap stands for: one for each of its bits but bit 0.
fn words_of_bitmap(class: Class) -> u32
    ensures value { result ≡ words_of_bitmap class }
    ensures few { result ≤ 63 }
{
    match class {
        Class::ELF32 => 31,
        Class::ELF64 => 63,
    }
}

// The address of the word that follows an address and `count` words from there on. Addresses wrap.
fn words_after(class: Class, address: u64, count: u32) -> u64
    ensures { result ≡ words_after class address count }
{
    match class {
        Class::ELF32 => address.wrapping_add(count as u64 * 4) % (1 << 32),
        Class::ELF64 => address.wrapping_add(count as u64 * 8),
    }
}

// The address of a word of a bitmap that starts at an address, if the bitmap marks it.
fn if_marked(class: Class, start: u64, bitmap: u64, index: u32) -> Option<u64>
    requires { index < 63 }
    ensures { result ≡ if_marked class start bitmap index }
{
    if (bitmap >> (index + 1)) & 1 == 1 {
        Some(words_after(class, start, index))
    } else {
        None
    }
}

// The addresses of the words that a bitmap marks, from the word `index` on.
#[derive(Debug, Drop)]
struct MarkedWords {
    class: Class,
    start: u64,
    bitmap: u64,
    index: u32,
}

impl Iterator for MarkedWords {
    type Item = u64;

    ghost next_gives = { YieldsFirst marked_left };

    ghost remaining = { item_count marked_left };

    fn next(&mut self) -> Option<u64> {
        while self.index < words_of_bitmap(self.class) {
            let marked = if_marked(self.class, self.start, self.bitmap, self.index);
            self.index += 1;
            if let Some(address) = marked {
                return Some(address);
            }
        }
        None
    }
}

/// An iterator over the addresses of packed relative relocations, in the order of the table. After its first `None` it
/// keeps returning `None`. Nothing is allocated.
#[derive(Debug, Drop)]
pub struct RelrIterator<'data, E: EndianParse> {
    class: Class,
    words: ParsingIterator<'data, E, Relr>,
    // What is left of the last bitmap, and the address of the first word of the next one.
    marked: MarkedWords,
    start: u64,
}

impl<'data, E: EndianParse> RelrIterator<'data, E> {
    /// Returns the addresses of the table's relocations. Addresses wrap at 2^32 in a 32-bit file and at 2^64 in a
    /// 64-bit one. A bitmap before the first address starts at address 0.
    ///
    /// Bytes after the last whole word are ignored. There are at most eight addresses for each byte of the table.
    pub fn new(table: &RelrTable<'data, E>) -> Self
        ensures items { addresses_left result
            ≡ relative_addresses (table_view table.now).class (table_items relr_reads (table_view table.now)) }
        ensures few { length (addresses_left result) ≤ 8 * length (table_view table.now).bytes }
    {
        iter_gives_len_records(table);
        let class = table.class();
        RelrIterator {
            class,
            words: table.iter(),
            marked: MarkedWords {
                class,
                start: 0,
                bitmap: 0,
                index: words_of_bitmap(class),
            },
            start: 0,
        }
    }

    // The first address that a word stands for, if there is one. The others of a bitmap are left in `marked`.
    fn first_of(&mut self, word: u64) -> Option<u64>
        requires { marked_left self.old.marked ≡ [] }
        ensures value { (words : List Relr) →
            addresses_from self.old.class self.old.start (relr_word word ∷ words)
            ≡ cons_option result (marked_left self.new.marked ++ addresses_from self.new.class self.new.start words) }
        ensures none { IfNone result (marked_left self.new.marked ≡ []) }
        ensures words { self.new.words ≡ self.old.words }
    {
        if word % 2 == 0 {
            self.start = words_after(self.class, word, 1);
            return Some(word);
        }
        self.marked = MarkedWords {
            class: self.class,
            start: self.start,
            bitmap: word,
            index: 0,
        };
        self.start = words_after(self.class, self.start, words_of_bitmap(self.class));
        self.marked.next()
    }
}

impl<'data, E: EndianParse> Iterator for RelrIterator<'data, E> {
    type Item = u64;

    ghost next_gives = { YieldsFirst addresses_left };

    ghost remaining = { item_count addresses_left };

    fn next(&mut self) -> Option<u64> {
        if let Some(address) = self.marked.next() {
            return Some(address);
        }
        while let Some(word) = self.words.next() {
            if let Some(address) = self.first_of(word.0) {
                return Some(address);
            }
        }
        None
    }
}

/// Returns the packed relative relocations of a section of type `SHT_RELR`.
///
/// Errors, in order: `UnexpectedSectionType((found, SHT_RELR))`; those of `section_data`.
pub fn section_data_as_relr<'f, E: EndianParse, R: Reader<E>>(
    file: &'f R,
    shdr: &SectionHeader,
) -> Result<RelrTable<'f, E>, ReadError>
    ensures value { ok_map table_view result
        ≡ section_data_as_relr (loaded (R.file file.now) (R.ranges file.now)) shdr.now }
    ensures size { IfOk result (λ table. length (table_view table).bytes ≤ shdr.now.sh_size) }
    ensures plain { IfErr result IsPlain }
{
    let bytes = content_of_type(file, shdr, SHT_RELR)?;
    Ok(RelrTable::new(file.endianness(), file.class(), bytes))
}
