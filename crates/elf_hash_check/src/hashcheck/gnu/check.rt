//! The check of a GNU section, in one pass over its chain words.
ghost use Rattle.std.specs.Prelude.{◌≡◌, ◌↔◌, ◌+◌, ◌<◌, ◌≤◌, ◌^◌, Some, IsTrue, MatchOption, IfNone, IfOk, IfSome};
ghost use Rattle.elf_parts.specs.GnuFind.{gnu_section, gnu_view};
ghost use Rattle.elf_parts.specs.Hash.{word_count};
ghost use Rattle.elf_records.specs.StringTable.{strings_view};
ghost use Rattle.elf_records.specs.Table.{table_view};
ghost use Rattle.elf_hash_check.specs.CheckedTable.{checked_gnu_view, gnu_indexed};
ghost use Rattle.elf_hash_check.specs.Faults.{IsTrueOfGnu};
ghost use Rattle.elf_hash_check.specs.First.{IsFirstOfGnu};
ghost use Rattle.elf_hash_check.specs.Reads.{count_after, gnu_reads, read_count, symbols_of};
ghost use Rattle.elf_hash_check.specs.SoundGnu.{HasBothBits, InRun, SoundGnu, SoundWord};
ghost use Rattle.elf_hash_check.specs.Verdict.{GivesVerdict, OnFaulty, OnSound, gnu_chain_count};
ghost use Rattle.elf_hash_check.specs.WithSymbols.{bloom, gnu_with, with_symbols, word};
ghost use Rattle.elf_hash_check.specs.inner.GnuRun.{RunBegins};

use crate::hashcheck::gnu::CheckedGnuHash;
use crate::hashcheck::table_words::{word_below, word_count};
use crate::hashcheck::{Checked, HashFault, Reads};
use elf_parts::endian::EndianParse;
use elf_parts::file::Class;
use elf_parts::hash::{GnuHashTable, gnu_hash};
use elf_parts::laws::find::{words_can_be_read, words_read_below_count};
use elf_parts::parse::ParseError;
use elf_parts::string_table::StringTable;
use elf_parts::symbol::SymbolTable;

// A bloom word.
#[tactic(auto, unfolding(crate::specs::WithSymbols::bloom))]
fn bloom_word<E: EndianParse>(table: &GnuHashTable<'_, E>, index: usize) -> Option<u64>
    ensures { result ≡ bloom (gnu_view table.now).bloom index }
{
    table.bloom_word(index).ok()
}

// Whether both bits of a hash are set in its bloom word.
#[tactic(auto, using(std::proofs::lemmas::Nat::Bits::shr_and_one))]
fn has_both_bits<E: EndianParse>(table: &GnuHashTable<'_, E>, hash: u32) -> bool
    requires { table.now.hdr.nshift < 32 }
    ensures { IsTrue result ↔ HasBothBits (gnu_view table.now) hash }
{
    if table.hdr.nbloom == 0 {
        return false;
    }
    let bits = match table.class() {
        Class::ELF32 => 32,
        Class::ELF64 => 64,
    };
    let Some(word) = bloom_word(table, (hash / bits % table.hdr.nbloom) as usize) else {
        return false;
    };
    let second = hash >> table.hdr.nshift;
    (word >> (hash % bits)) & 1 == 1 && (word >> (second % bits)) & 1 == 1
}

// Whether a chain word lies in the run of the bucket of a hash, its own run beginning at start.
fn is_in_run<E: EndianParse>(
    table: &GnuHashTable<'_, E>,
    hash: u32,
    place: usize,
    start: usize,
) -> bool
    requires { RunBegins (gnu_view table.now) start place }
    ensures { IsTrue result ↔ InRun (gnu_view table.now) place hash }
{
    let buckets = table.buckets();
    let nbucket = word_count(&buckets);
    if nbucket == 0 {
        return false;
    }
    let word = word_below(&buckets, hash as usize % nbucket);
    let first = table.hdr.table_start_idx as usize;
    if word < first || word - first < start || place < word - first {
        return false;
    }
    true
}

// What a chain word lacks, its run beginning at start.
fn fault_at<'data, E: EndianParse>(
    table: &GnuHashTable<'data, E>,
    place: usize,
    chain_word: usize,
    start: usize,
    symtab: &SymbolTable<'data, E>,
    strtab: &StringTable<'data>,
    reads: &mut Reads,
) -> Option<HashFault>
    requires shift { table.now.hdr.nshift < 32 }
    requires chain { word (gnu_view table.now).chains place ≡ Some chain_word }
    requires within { place < 2 ^ 62 }
    requires begins { RunBegins (gnu_view table.now) start place }
    ensures verdict { let s = gnu_with table.now symtab.now strtab.now in
        MatchOption result (SoundWord s place chain_word) (IsTrueOfGnu s) }
    ensures count { read_count reads.new ≡ count_after (read_count reads.old) 1 }
    ensures names { IfSome result (λ fault. gnu_reads (gnu_view table.now) fault ≡ place + 1) }
{
    let index = table.hdr.table_start_idx as usize + place;
    let Some(name) = reads.name_at(symtab, strtab, index) else {
        return Some(HashFault::Unreadable { index });
    };
    let hash = gnu_hash(name);
    if chain_word / 2 != hash as usize / 2 {
        return Some(HashFault::WrongHash { index });
    }
    if !has_both_bits(table, hash) {
        return Some(HashFault::NoBloomBit { index });
    }
    if !is_in_run(table, hash, place, start) {
        return Some(HashFault::NotInRun { index });
    }
    None
}

// What the section lacks: one pass over the chain words, with the place where the run begins.
fn first_fault<'data, E: EndianParse>(
    table: &GnuHashTable<'data, E>,
    symtab: &SymbolTable<'data, E>,
    strtab: &StringTable<'data>,
    reads: &mut Reads,
) -> Option<HashFault>
    ensures verdict { let s = gnu_with table.now symtab.now strtab.now in
        MatchOption result (SoundGnu s) (λ fault. (¬ SoundGnu s) × IsFirstOfGnu s fault) }
    ensures at_most { read_count reads.new ≤ read_count reads.old + word_count (gnu_view table.now).chains }
    ensures at_least { IfNone result
        (count_after (read_count reads.old) (word_count (gnu_view table.now).chains) ≤ read_count reads.new) }
    ensures never_less { read_count reads.old ≤ read_count reads.new }
    ensures at_fault { IfSome result (λ fault.
        count_after (read_count reads.old) (symbols_of fault) ≤ read_count reads.new) }
    ensures exact { IfNone result
        (read_count reads.new ≡ count_after (read_count reads.old) (word_count (gnu_view table.now).chains)) }
    ensures exact_at_fault { IfSome result (λ fault.
        read_count reads.new ≡ count_after (read_count reads.old) (gnu_reads (gnu_view table.now) fault)) }
{
    if table.hdr.nshift >= 32 {
        return Some(HashFault::ShiftTooLarge);
    }
    let chains = table.chains();
    words_read_below_count(&chains);
    let mut start = 0;
    for place in 0..word_count(&chains) {
        let word = word_below(&chains, place);
        if let Some(fault) = fault_at(table, place, word, start, symtab, strtab, reads) {
            return Some(fault);
        }
        if word % 2 == 1 {
            start = place + 1;
        }
    }
    None
}

/// Checks as `check_gnu` does, and adds the number of symbols that it reads to `reads`.
///
/// It adds at most one for each chain word. For a sound section it adds exactly the number of indexed symbols. At a
/// fault that names an index it adds exactly one for each chain word up to that of the index.
pub fn check_gnu_counted<'data, E: EndianParse>(
    endian: E,
    class: Class,
    section: &'data [u8],
    symtab: SymbolTable<'data, E>,
    strtab: StringTable<'data>,
    reads: &mut Reads,
) -> Result<Checked<CheckedGnuHash<'data, E>>, ParseError>
    ensures verdict { let cut = gnu_section (E.little endian) class section.now in
        let checked = with_symbols (table_view symtab.entry) (strings_view strtab.entry) cut in
        GivesVerdict checked_gnu_view SoundGnu IsFirstOfGnu checked result }
    ensures at_most { let cut = gnu_section (E.little endian) class section.now in
        read_count reads.new ≤ read_count reads.old + gnu_chain_count cut }
    ensures at_least { OnSound result (λ checked.
        count_after (read_count reads.old) (gnu_indexed checked) ≤ read_count reads.new) }
    ensures never_less { read_count reads.old ≤ read_count reads.new }
    ensures at_fault { OnFaulty result (λ fault.
        count_after (read_count reads.old) (symbols_of fault) ≤ read_count reads.new) }
    ensures exact { OnSound result (λ checked.
        read_count reads.new ≡ count_after (read_count reads.old) (gnu_indexed checked)) }
    ensures exact_at_fault { let cut = gnu_section (E.little endian) class section.now in
        IfOk cut (λ table. OnFaulty result (λ fault.
        read_count reads.new ≡ count_after (read_count reads.old) (gnu_reads table fault))) }
{
    let table = GnuHashTable::new(endian, class, section)?;
    words_can_be_read(section);
    match first_fault(&table, &symtab, &strtab, reads) {
        Some(fault) => Ok(Checked::Faulty(fault)),
        None => {
            let indexed = word_count(&table.chains());
            Ok(Checked::Sound(CheckedGnuHash {
                table,
                symtab,
                strtab,
                indexed,
            }))
        }
    }
}

/// Checks whether a GNU hash section is sound for its symbols. Returns its table, or its first fault.
/// Returns an error exactly if `GnuHashTable::new` does, and that error.
pub fn check_gnu<'data, E: EndianParse>(
    endian: E,
    class: Class,
    section: &'data [u8],
    symtab: SymbolTable<'data, E>,
    strtab: StringTable<'data>,
) -> Result<Checked<CheckedGnuHash<'data, E>>, ParseError>
    ensures { let cut = gnu_section (E.little endian) class section.now in
        let checked = with_symbols (table_view symtab.entry) (strings_view strtab.entry) cut in
        GivesVerdict checked_gnu_view SoundGnu IsFirstOfGnu checked result }
{
    check_gnu_counted(endian, class, section, symtab, strtab, &mut Reads::new())
}
