//! GNU hash sections.
ghost use Rattle.std.specs.Prelude.{◌≡◌, ◌-◌, ◌%◌, ◌<◌, ◌≤◌, ℕ, IfNone, IfSome, IsErr, List, None, Ok, true, refl};
ghost use Rattle.elf_records.specs.Class.{address_bits};
ghost use Rattle.elf_parts.specs.GnuFind.{bloom_word, find_by_hash, find_in_run, gnu_find, gnu_of_parts, gnu_section};
ghost use Rattle.elf_parts.specs.GnuFind.{excludes, gnu_view, passes, word_decides};
ghost use Rattle.elf_parts.specs.inner.Answers.{IsAnswered};
ghost use Rattle.elf_parts.specs.Hash.{gnu_hash_of, word_count};
ghost use Rattle.elf_records.specs.Number.{ok_map};
ghost use Rattle.std.specs.Str.{bytes_eq};
ghost use Rattle.elf_records.specs.StringTable.{string_at, strings_view};
ghost use Rattle.elf_records.specs.Table.{Table, table_in, table_view};

mod eight;

use crate::endian::{BigEndian, EndianParse, LittleEndian};
use crate::file::Class;
use crate::hash::{Answer, Found, Refusal, U32Table, refused, word, word_count};
use crate::parse::{ParseAt, ParseError, ParsingTable, get_bytes};
use crate::string_table::{StringTable, TerminatedStrings};
use crate::symbol::{Symbol, SymbolTable};
pub use eight::gnu_hash;

type U64Table<'data, E> = ParsingTable<'data, E, u64>;

/// The header of a GNU hash section.
#[derive(Clone, Debug, Drop, PartialEq, Eq)]
pub struct GnuHashHeader {
    /// The number of buckets.
    pub nbucket: u32,
    /// The index of the first symbol that the section can find.
    pub table_start_idx: u32,
    /// The number of bloom words.
    pub nbloom: u32,
    /// The number of bits by which a hash is shifted right for its second bloom bit.
    pub nshift: u32,
}

impl ParseAt for GnuHashHeader {
    ghost use Rattle.elf_parts.specs.Hash.{gnu_header_reads};

    const SHAPE: (usize, usize, bool) = (16, 16, true);

    ghost SHAPE = { (16, 16, true) };

    ghost reads = { gnu_header_reads };

    ghost shape_law = { refl };

    #[tactic(auto, unfolding(elf_records::specs::Record::numbers_at, elf_records::specs::Record::numbers_end))]
    fn parse_at<E: EndianParse>(
        endian: E,
        class: Class,
        offset: &mut usize,
        data: &[u8],
    ) -> Result<Self, ParseError> {
        Ok(GnuHashHeader {
            nbucket: endian.parse_u32_at(offset, data)?,
            table_start_idx: endian.parse_u32_at(offset, data)?,
            nbloom: endian.parse_u32_at(offset, data)?,
            nshift: endian.parse_u32_at(offset, data)?,
        })
    }
}

/// A GNU hash section: bloom words, which exclude most names that are not in the section, and for each bucket a run of
/// chain words, which are the hashes of symbols in order, apart from bit 0.
///
/// `hdr` may be changed: `find` uses its current number of bloom words, first index and shift. The bloom words, buckets
/// and chain words remain those that the table was made with.
#[derive(Debug, Drop)]
pub struct GnuHashTable<'data, E: EndianParse> {
    pub hdr: GnuHashHeader,
    little: bool,
    class: Class,
    bloom: &'data [u8],
    buckets: U32Table<'data, E>,
    chains: U32Table<'data, E>,
}

// The number of bits of a bloom word.
fn bloom_bits(class: Class) -> u32
    ensures bits { result ≡ address_bits class }
    ensures some { 0 < result }
    ensures most { result ≤ 64 }
{
    match class {
        Class::ELF32 => 32,
        Class::ELF64 => 64,
    }
}

// The remainder of a division. Nearly all sections have a power of two of bloom words, which takes no division.
#[tactic(auto, using(crate::proofs::Powers::masks))]
#[inline(always)]
fn remainder(number: u32, divisor: u32) -> u32
    requires { 0 < divisor }
    ensures { result ≡ number % divisor }
{
    if divisor & (divisor - 1) == 0 {
        number & (divisor - 1)
    } else {
        number % divisor
    }
}

// A bloom word: four bytes in a 32-bit file, eight in a 64-bit one.
#[tactic(auto, unfolding(crate::specs::GnuFind::bloom_word, crate::specs::Hash::word_at, crate::specs::Hash::long_word_at))]
#[inline(always)]
fn bloom_word<E: EndianParse>(
    endian: E,
    class: Class,
    bloom: &[u8],
    index: usize,
) -> Result<u64, ParseError>
    ensures { result ≡ bloom_word (table_in (E.little endian) class bloom.now) index }
{
    match class {
        Class::ELF32 => Ok(U32Table::new(endian, class, bloom).get(index)? as u64),
        Class::ELF64 => U64Table::new(endian, class, bloom).get(index),
    }
}

// The same, or `None` if it cannot be read.
#[tactic(auto, unfolding(crate::specs::GnuFind::bloom_word, crate::specs::Hash::word_at, crate::specs::Hash::long_word_at))]
#[inline(always)]
fn bloom_word_quickly<E: EndianParse>(
    endian: E,
    class: Class,
    bloom: &[u8],
    index: usize,
) -> Option<u64>
    ensures value { IfSome result (λ word. bloom_word (table_in (E.little endian) class bloom.now) index ≡ Ok word) }
    ensures refused { IfNone result (IsErr (bloom_word (table_in (E.little endian) class bloom.now) index)) }
{
    match class {
        Class::ELF32 => {
            let word = U32Table::new(endian, class, bloom).get_quickly(index)?;
            Some(word as u64)
        }
        Class::ELF64 => U64Table::new(endian, class, bloom).get_quickly(index),
    }
}

// Whether the string at an offset is this name, or `None` if it cannot be read. Not inlined: the walk along a run is
// then small enough to be.
#[inline(never)]
fn is_named(strings: &TerminatedStrings<'_>, offset: usize, name: &[u8]) -> Option<bool>
    ensures value { IfSome result (λ same.
        ok_map (λ bytes. bytes_eq bytes name.now) (string_at strings.now offset) ≡ Ok same) }
    ensures refused { IfNone result (IsErr (string_at strings.now offset)) }
{
    strings.is_quickly(offset, name)
}

impl<'data, E: EndianParse> GnuHashTable<'data, E> {
    /// Reads the header at the front of the section, and finds the bloom words and the buckets after it. The rest of
    /// the data are the chain words.
    ///
    /// Errors, in order: `SliceReadError((start, end))` of the first number of the header that does not lie in the
    /// data; the same of the bloom words; the same of the buckets.
    #[tactic(auto, unfolding(crate::specs::GnuFind::gnu_section))]
    pub fn new(endian: E, class: Class, data: &'data [u8]) -> Result<Self, ParseError>
        ensures { ok_map gnu_view result ≡ gnu_section (E.little endian) class «data».now }
    {
        let mut offset = 0;
        let hdr = GnuHashHeader::parse_at(endian, class, &mut offset, data)?;
        let bloom_word_size = match class {
            Class::ELF32 => 4,
            Class::ELF64 => 8,
        };
        let bloom_size = bloom_word_size * hdr.nbloom as usize;
        let bloom = get_bytes(data, 16, bloom_size)?;
        let buckets_size = 4 * hdr.nbucket as usize;
        let buckets = get_bytes(data, 16 + bloom_size, buckets_size)?;
        let (_, chains) = data.split_at(16 + bloom_size + buckets_size);
        Ok(Self::from_parts(endian, class, hdr, bloom, buckets, chains))
    }

    /// Returns the table with these parts: the header, and the bytes of the bloom words, of the buckets and of the chain
    /// words. So a section that was opened elsewhere is not opened again. Nothing is checked: with the header that `new`
    /// reads and the parts that it finds this is the table of `new`, and with any others each method answers by what
    /// they say.
    #[inline(always)]
    pub fn from_parts(
        endian: E,
        class: Class,
        hdr: GnuHashHeader,
        bloom: &'data [u8],
        buckets: &'data [u8],
        chains: &'data [u8],
    ) -> Self
        ensures { gnu_view result ≡ gnu_of_parts (E.little endian) class hdr bloom.now buckets.now chains.now }
    {
        GnuHashTable {
            hdr,
            little: endian.is_little(),
            class,
            bloom,
            buckets: U32Table::new(endian, class, buckets),
            chains: U32Table::new(endian, class, chains),
        }
    }

    /// Returns the class of the section. A bloom word has 32 bits in `ELF32`, 64 bits in `ELF64`.
    pub fn class(&self) -> Class
        ensures { result ≡ (gnu_view self.now).bloom.class }
    {
        self.class
    }

    /// Returns the bytes of the bloom words.
    #[inline(always)]
    pub fn bloom(&self) -> &'data [u8]
        ensures { result.now ≡ (gnu_view self.now).bloom.bytes }
    {
        self.bloom
    }

    /// Returns a bloom word, counted from 0, or the error of `ParsingTable::get`. The numbers in `hdr` do not matter.
    #[inline(always)]
    pub fn bloom_word(&self, index: usize) -> Result<u64, ParseError>
        ensures { result ≡ bloom_word (gnu_view self.now).bloom index }
    {
        if self.little {
            bloom_word(LittleEndian, self.class, self.bloom, index)
        } else {
            bloom_word(BigEndian, self.class, self.bloom, index)
        }
    }

    /// Returns the words of the buckets. Each is the index of the first symbol of the bucket's run.
    pub fn buckets(&self) -> ParsingTable<'data, E, u32>
        ensures { table_view result ≡ (gnu_view self.now).buckets }
    {
        self.buckets
    }

    /// Returns the chain words. They are the hashes of the symbols from the first index on, but bit 0 is set in the
    /// last one of a run and clear in the others.
    pub fn chains(&self) -> ParsingTable<'data, E, u32>
        ensures { table_view result ≡ (gnu_view self.now).chains }
    {
        self.chains
    }

    // Whether both bloom bits of a hash are set.
    #[tactic(auto, using(std::proofs::lemmas::Nat::Bits::shr_and_one), unfolding(crate::specs::GnuFind::passes))]
    fn passes(&self, hash: u32) -> Result<bool, ParseError>
        requires { 0 < self.now.hdr.nbloom }
        ensures { result ≡ passes (gnu_view self.now) hash }
    {
        let bits = bloom_bits(self.class);
        let word = self.bloom_word((hash / bits % self.hdr.nbloom) as usize)?;
        let first = (word >> (hash % bits)) & 1;
        if first == 0 {
            return Ok(false);
        }
        let second = hash
            .checked_shr(self.hdr.nshift)
            .ok_or(ParseError::IntegerOverflow)?;
        Ok((word >> (second % bits)) & 1 == 1)
    }

    // The same, or `None` if that is an error.
    #[tactic(auto, using(std::proofs::lemmas::Nat::Bits::shr_and_one), unfolding(crate::specs::GnuFind::passes))]
    #[inline(always)]
    fn passes_quickly(&self, hash: u32) -> Option<bool>
        requires { 0 < self.now.hdr.nbloom }
        ensures value { IfSome result (λ passed. passes (gnu_view self.now) hash ≡ Ok passed) }
        ensures refused { IfNone result (IsErr (passes (gnu_view self.now) hash)) }
    {
        let bits = bloom_bits(self.class);
        let index = remainder(hash / bits, self.hdr.nbloom) as usize;
        let word = if self.little {
            bloom_word_quickly(LittleEndian, self.class, self.bloom, index)?
        } else {
            bloom_word_quickly(BigEndian, self.class, self.bloom, index)?
        };
        if (word >> (hash % bits)) & 1 == 0 {
            return Some(false);
        }
        let second = hash.checked_shr(self.hdr.nshift)?;
        Some((word >> (second % bits)) & 1 == 1)
    }

    /// Returns whether the bloom words show that the section has no name with this hash (`gnu_hash`): `find` of such a
    /// name returns `None`. Most names that are not in a section are excluded so, and none that is in a sound one. Where
    /// the bloom bits cannot be read, no name is excluded.
    ///
    /// ```rust
    /// // One hash serves for all files.
    /// let hash = gnu_hash(b"malloc");
    /// if let Some(table) = file.find_common_data()?.gnu_hash
    ///     && !table.excludes(hash)
    /// {
    ///     println!(rt; "perhaps malloc is there")?;
    /// }
    /// ```
    #[inline(always)]
    pub fn excludes(&self, hash: u32) -> bool
        ensures value { result ≡ excludes (gnu_view self.now) hash }
        ensures none { result ≡ true → (symbols : Table) → (strings name : List ℕ) → gnu_hash_of name ≡ hash
            → gnu_find (gnu_view self.now) symbols strings name ≡ Ok None }
    {
        if self.hdr.nbloom == 0 {
            return true;
        }
        match self.passes_quickly(hash) {
            Some(passes) => !passes,
            None => false,
        }
    }

    // What a chain word decides for a name with this hash, or `None` if its symbol cannot be read. `index` is that of
    // the symbol.
    #[tactic(auto, unfolding(crate::specs::Hash::named_symbol))]
    #[inline(always)]
    fn decide(
        &self,
        hash: usize,
        name: &[u8],
        index: usize,
        word: usize,
        symtab: &SymbolTable<'data, E>,
        strings: &TerminatedStrings<'data>,
    ) -> Option<Option<(usize, Symbol)>>
        requires { hash ≡ gnu_hash_of name.now }
        ensures value { IfSome result (λ found.
            word_decides (gnu_view self.now) (table_view symtab.now) strings.now name.now index word ≡ Ok found) }
        ensures refused { IfNone result
            (IsErr (word_decides (gnu_view self.now) (table_view symtab.now) strings.now name.now index word)) }
    {
        if word / 2 != hash / 2 {
            return Some(None);
        }
        let symbol = symtab.get_quickly(index)?;
        if is_named(strings, symbol.st_name as usize, name)? {
            Some(Some((index, symbol)))
        } else {
            Some(None)
        }
    }

    // The index and the symbol of a name with this hash, in the run from place `start` on.
    #[inline(always)]
    fn find_in_run(
        &self,
        hash: usize,
        name: &[u8],
        start: usize,
        symtab: &SymbolTable<'data, E>,
        strings: &TerminatedStrings<'data>,
    ) -> Answer
        requires { hash ≡ gnu_hash_of name.now }
        ensures { let t = gnu_view self.now in let limit = word_count t.chains - start in
            IsAnswered t.buckets t.chains (table_view symtab.now) strings.now result
            (find_in_run t (table_view symtab.now) strings.now name.now limit start) }
    {
        let first = self.hdr.table_start_idx as usize;
        for place in start..word_count(&self.chains) {
            let Some(word) = word(&self.chains, place) else {
                return Err(Refusal::ChainAt(place));
            };
            match self.decide(hash, name, first + place, word, symtab, strings) {
                Some(Some(found)) => return Ok(Some(found)),
                Some(None) => {}
                None => return Err(Refusal::SymbolAt(first + place)),
            }
            if word % 2 == 1 {
                return Ok(None);
            }
        }
        Ok(None)
    }

    // The index and the symbol of a name with this hash, in the bucket of the hash.
    #[inline(always)]
    fn find_in_bucket(
        &self,
        hash: usize,
        name: &[u8],
        symtab: &SymbolTable<'data, E>,
        strings: &TerminatedStrings<'data>,
    ) -> Answer
        requires hash { hash ≡ gnu_hash_of name.now }
        requires some { 0 < word_count (gnu_view self.now).buckets }
        ensures { let t = gnu_view self.now in IsAnswered t.buckets t.chains (table_view symtab.now) strings.now result
            (find_by_hash t (table_view symtab.now) strings.now name.now) }
    {
        let first = self.hdr.table_start_idx as usize;
        let bucket = hash % word_count(&self.buckets);
        let Some(start) = word(&self.buckets, bucket) else {
            return Err(Refusal::BucketAt(bucket));
        };
        if start < first {
            return Ok(None);
        }
        self.find_in_run(hash, name, start - first, symtab, strings)
    }

    // The error of bloom bits that cannot be read.
    #[inline(never)]
    fn refused_by_bloom(&self, hash: u32) -> Found
        requires { 0 < self.now.hdr.nbloom }
        ensures { result ≡ ok_map (λ _. None) (passes (gnu_view self.now) hash) }
    {
        self.passes(hash)?;
        Ok(None)
    }

    /// Returns the index and the symbol of a name, the first in the run of its bucket. Returns `None` if there are no
    /// buckets or bloom words, or if the bloom word or the run has no such name. `symtab` has the symbols of the
    /// section that `sh_link` of the hash section names, and `strtab` their strings: usually both come from
    /// `dynamic_symbol_table`.
    ///
    /// The error is that of the first read on the way that fails: `ParsingTable::get` for the bloom word, only if the
    /// caller raised `hdr.nbloom`; `ParsingTable::get` for a symbol whose chain word fits the hash;
    /// `StringTable::get_raw` for its name. It is `IntegerOverflow` if the second bloom bit is needed and the shift is
    /// 32 or more.
    ///
    /// ```rust
    /// if let Some(table) = file.find_common_data()?.gnu_hash
    ///     && let Some((symbols, names)) = file.dynamic_symbol_table()?
    ///     && let Some((index, symbol)) = table.find(b"malloc", &symbols, &names)?
    /// {
    ///     println!(rt; "symbol {index}, value {:#x}", symbol.st_value)?;
    /// }
    /// ```
    // Inlined with its parts. A result has some hundred bytes, since `ParseError` can hold an `io::Error`: a call would
    // fill and copy that room for each look-up.
    #[tactic(auto, unfolding(crate::specs::GnuFind::gnu_find))]
    #[inline(always)]
    pub fn find(
        &self,
        name: &[u8],
        symtab: &SymbolTable<'data, E>,
        strtab: &StringTable<'data>,
    ) -> Result<Option<(usize, Symbol)>, ParseError>
        ensures { result ≡ gnu_find (gnu_view self.now) (table_view symtab.now) (strings_view strtab.now) name.now }
    {
        if self.buckets.is_empty() || self.hdr.nbloom == 0 {
            return Ok(None);
        }
        let hash = gnu_hash(name);
        match self.passes_quickly(hash) {
            Some(true) => {
                let strings = TerminatedStrings::new(strtab);
                match self.find_in_bucket(hash as usize, name, symtab, &strings) {
                    Ok(found) => Ok(found),
                    Err(refusal) => refused(&self.buckets, &self.chains, symtab, &strings, refusal),
                }
            }
            Some(false) => Ok(None),
            None => self.refused_by_bloom(hash),
        }
    }

    /// Returns what `find` does, or `None` where that is an error, without room for one. A caller that looks up many
    /// names can ask `find` for the error of those that are refused.
    #[tactic(auto, unfolding(crate::specs::GnuFind::gnu_find))]
    #[inline(always)]
    pub fn find_quickly(
        &self,
        name: &[u8],
        symtab: &SymbolTable<'data, E>,
        strtab: &StringTable<'data>,
    ) -> Option<Option<(usize, Symbol)>>
        ensures value { IfSome result (λ found.
            gnu_find (gnu_view self.now) (table_view symtab.now) (strings_view strtab.now) name.now ≡ Ok found) }
        ensures refused { IfNone result
            (IsErr (gnu_find (gnu_view self.now) (table_view symtab.now) (strings_view strtab.now) name.now)) }
    {
        if self.buckets.is_empty() || self.hdr.nbloom == 0 {
            return Some(None);
        }
        let hash = gnu_hash(name);
        if !self.passes_quickly(hash)? {
            return Some(None);
        }
        let strings = TerminatedStrings::new(strtab);
        match self.find_in_bucket(hash as usize, name, symtab, &strings) {
            Ok(found) => Some(found),
            Err(_) => None,
        }
    }
}
