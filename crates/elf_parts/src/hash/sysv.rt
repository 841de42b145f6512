//! SysV hash sections (gABI, chapter "Hash Table").
ghost use Rattle.std.specs.Prelude.{◌≡◌, ◌%◌, ◌^◌, IfNone, IfSome, IsErr, Ok, refl, true};
ghost use Rattle.elf_parts.specs.Hash.{hash_fold, sysv_hash_of, word_count};
ghost use Rattle.elf_records.specs.Number.{ok_map};
ghost use Rattle.elf_records.specs.StringTable.{strings_view};
ghost use Rattle.elf_parts.specs.SysvFind.{find_along, sysv_find, sysv_of_parts, sysv_section, sysv_view};
ghost use Rattle.elf_records.specs.Table.{table_view};
ghost use Rattle.elf_parts.specs.inner.Answers.{IsAnswered};

use crate::endian::EndianParse;
use crate::file::Class;
use crate::hash::{Answer, Refusal, U32Table, if_named, refused, word, word_count};
use crate::parse::{ParseAt, ParseError, ParsingTable, get_bytes};
use crate::string_table::{StringTable, TerminatedStrings};
use crate::symbol::{Symbol, SymbolTable};

/// The header of a SysV hash section: the number of buckets and the number of chain words.
#[derive(Clone, Debug, Drop, PartialEq, Eq)]
pub struct SysVHashHeader {
    pub nbucket: u32,
    pub nchain: u32,
}

impl ParseAt for SysVHashHeader {
    ghost use Rattle.elf_parts.specs.Hash.{sysv_header_reads};

    const SHAPE: (usize, usize, bool) = (8, 8, true);

    ghost SHAPE = { (8, 8, true) };

    ghost reads = { sysv_header_reads };

    ghost shape_law = { refl };

    #[tactic(auto, unfolding(elf_records::specs::Record::numbers_at, elf_records::specs::Record::numbers_end))]
    fn parse_at<E: EndianParse>(
        endian: E,
        class: Class,
        offset: &mut usize,
        data: &[u8],
    ) -> Result<Self, ParseError> {
        Ok(SysVHashHeader {
            nbucket: endian.parse_u32_at(offset, data)?,
            nchain: endian.parse_u32_at(offset, data)?,
        })
    }
}

// XORs the top four bits in at bit 4. They stay at the top as well: the next step shifts them out.
#[tactic(auto, using(crate::proofs::Hashing::fold_steps))]
fn fold_top(hash: u32) -> u32
    ensures { result % 2 ^ 28 ≡ hash_fold hash }
{
    hash ^ ((hash >> 24) & 0xf0)
}

/// Returns the hash of a name, given without its 0 byte, in a SysV hash section (gABI, chapter "Hash Table"): 32 bits
/// with the upper four 0.
///
/// ```rust
/// println!(rt; "{:#x}", sysv_hash(b"printf"))?; // 0x77905a6
/// ```
#[tactic(auto, using(crate::proofs::Hashing::hash_steps), unfolding(crate::specs::Hash::sysv_hash_of))]
pub fn sysv_hash(name: &[u8]) -> u32
    ensures { result ≡ sysv_hash_of name.now }
{
    let mut hash = 0u32;
    for byte in name {
        hash = fold_top(hash.wrapping_mul(16).wrapping_add(u32::from(*byte)));
    }
    hash & 0x0fff_ffff
}

/// A SysV hash section: for each bucket a chain of symbol indexes.
#[derive(Debug, Drop)]
pub struct SysVHashTable<'data, E: EndianParse> {
    buckets: U32Table<'data, E>,
    chains: U32Table<'data, E>,
}

impl<'data, E: EndianParse> SysVHashTable<'data, E> {
    /// Reads the header at the front of the section, and finds the buckets and the chain words after it.
    ///
    /// Errors, in order: `SliceReadError((start, end))` of the first number of the header that does not lie in the
    /// data; the same of the buckets; the same of the chain words.
    #[tactic(auto, unfolding(crate::specs::SysvFind::sysv_section))]
    pub fn new(endian: E, class: Class, data: &'data [u8]) -> Result<Self, ParseError>
        ensures { ok_map sysv_view result ≡ sysv_section (E.little endian) class «data».now }
    {
        let mut offset = 0;
        let hdr = SysVHashHeader::parse_at(endian, class, &mut offset, data)?;
        let buckets_size = 4 * hdr.nbucket as usize;
        let buckets = get_bytes(data, 8, buckets_size)?;
        let chains = get_bytes(data, 8 + buckets_size, 4 * hdr.nchain as usize)?;
        Ok(Self::from_parts(endian, class, buckets, chains))
    }

    /// Returns the table with these parts: the bytes of the buckets and of the chain words. So a section that was opened
    /// elsewhere is not opened again. Nothing is checked: with the parts that `new` finds this is the table of `new`,
    /// and with any others each method answers by what they say.
    #[inline(always)]
    pub fn from_parts(endian: E, class: Class, buckets: &'data [u8], chains: &'data [u8]) -> Self
        ensures { sysv_view result ≡ sysv_of_parts (E.little endian) class buckets.now chains.now }
    {
        SysVHashTable {
            buckets: U32Table::new(endian, class, buckets),
            chains: U32Table::new(endian, class, chains),
        }
    }

    /// Returns the words of the buckets. Each is the first symbol index of the bucket's chain, or 0 if the chain is
    /// empty.
    pub fn buckets(&self) -> ParsingTable<'data, E, u32>
        ensures { table_view result ≡ (sysv_view self.now).buckets }
    {
        self.buckets
    }

    /// Returns the chain words. The one at a symbol index is the next index of its chain, or 0 if there is none.
    pub fn chains(&self) -> ParsingTable<'data, E, u32>
        ensures { table_view result ≡ (sysv_view self.now).chains }
    {
        self.chains
    }

    // The index and the symbol of a name, along the chain that starts at an index.
    #[inline(always)]
    fn find_along(
        &self,
        start: usize,
        name: &[u8],
        symtab: &SymbolTable<'data, E>,
        strings: &TerminatedStrings<'data>,
    ) -> Answer
        ensures { let t = sysv_view self.now in let limit = word_count t.chains in
            IsAnswered t.buckets t.chains (table_view symtab.now) strings.now result
            (find_along t (table_view symtab.now) strings.now name.now limit start) }
    {
        let mut index = start;
        for _ in 0..word_count(&self.chains) {
            if index == 0 {
                return Ok(None);
            }
            match if_named(symtab, strings, name, index) {
                Some(Some(found)) => return Ok(Some(found)),
                Some(None) => {}
                None => return Err(Refusal::SymbolAt(index)),
            }
            let Some(next) = word(&self.chains, index) else {
                return Err(Refusal::ChainAt(index));
            };
            index = next;
        }
        Ok(None)
    }

    // The index and the symbol of a name, along the chain of its bucket.
    #[tactic(auto, using(crate::proofs::Walks::along_ended), unfolding(crate::specs::SysvFind::sysv_find))]
    #[inline(always)]
    fn find_in_bucket(
        &self,
        name: &[u8],
        symtab: &SymbolTable<'data, E>,
        strings: &TerminatedStrings<'data>,
    ) -> Answer
        ensures { let t = sysv_view self.now in IsAnswered t.buckets t.chains (table_view symtab.now) strings.now result
            (sysv_find t (table_view symtab.now) strings.now name.now) }
    {
        let nbucket = word_count(&self.buckets);
        if nbucket == 0 {
            return Ok(None);
        }
        let bucket = sysv_hash(name) as usize % nbucket;
        match word(&self.buckets, bucket) {
            Some(0) => Ok(None),
            Some(index) => self.find_along(index, name, symtab, strings),
            None => Err(Refusal::BucketAt(bucket)),
        }
    }

    /// Returns the index and the symbol of a name: the first one along the chain of its bucket. Returns `None` if
    /// there are no buckets, or if the chain ends, or is followed for as many symbols as there are chain words, without
    /// one of this name. `symtab` has the symbols of the section that `sh_link` of the hash section names, and `strtab`
    /// their strings: usually both come from `dynamic_symbol_table`.
    ///
    /// The error is that of the first read on the way that fails: `ParsingTable::get` for the symbol,
    /// `StringTable::get_raw` for its name, or `ParsingTable::get` for the chain word.
    ///
    /// ```rust
    /// if let Some(table) = file.find_common_data()?.sysv_hash
    ///     && let Some((symbols, names)) = file.dynamic_symbol_table()?
    ///     && let Some((index, symbol)) = table.find(b"malloc", &symbols, &names)?
    /// {
    ///     println!(rt; "symbol {index}, value {:#x}", symbol.st_value)?;
    /// }
    /// ```
    // Inlined with its parts. A result has some hundred bytes, since `ParseError` can hold an `io::Error`: a call would
    // fill and copy that room for each look-up.
    #[inline(always)]
    pub fn find(
        &self,
        name: &[u8],
        symtab: &SymbolTable<'data, E>,
        strtab: &StringTable<'data>,
    ) -> Result<Option<(usize, Symbol)>, ParseError>
        ensures { result ≡ sysv_find (sysv_view self.now) (table_view symtab.now) (strings_view strtab.now) name.now }
    {
        let strings = TerminatedStrings::new(strtab);
        match self.find_in_bucket(name, symtab, &strings) {
            Ok(found) => Ok(found),
            Err(refusal) => refused(&self.buckets, &self.chains, symtab, &strings, refusal),
        }
    }

    /// Returns what `find` does, or `None` where that is an error, without room for one. A caller that looks up many
    /// names can ask `find` for the error of those that are refused.
    #[inline(always)]
    pub fn find_quickly(
        &self,
        name: &[u8],
        symtab: &SymbolTable<'data, E>,
        strtab: &StringTable<'data>,
    ) -> Option<Option<(usize, Symbol)>>
        ensures value { IfSome result (λ found.
            sysv_find (sysv_view self.now) (table_view symtab.now) (strings_view strtab.now) name.now ≡ Ok found) }
        ensures refused { IfNone result
            (IsErr (sysv_find (sysv_view self.now) (table_view symtab.now) (strings_view strtab.now) name.now)) }
    {
        match self.find_in_bucket(name, symtab, &TerminatedStrings::new(strtab)) {
            Ok(found) => Some(found),
            Err(_) => None,
        }
    }
}
