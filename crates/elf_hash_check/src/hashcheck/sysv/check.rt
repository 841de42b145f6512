//! The check of a SysV section.
//!
//! A chain whose names all belong to its own bucket shares no index with an earlier one. So all chains that end
//! have together at most as many indexes as there are chain words. A chain that does not end is left after that
//! many.
ghost use Rattle.std.specs.Prelude.{◌≡◌, ◌+◌, ◌*◌, ◌<◌, ◌≤◌, ◌^◌, ℕ, IfErr, IfOk, MatchResult};
ghost use Rattle.elf_parts.specs.Hash.{word_count};
ghost use Rattle.elf_records.specs.StringTable.{strings_view};
ghost use Rattle.elf_parts.specs.SysvFind.{sysv_section, sysv_view};
ghost use Rattle.elf_records.specs.Table.{table_view};
ghost use Rattle.elf_hash_check.specs.CheckedTable.{checked_sysv_view, sysv_indexed};
ghost use Rattle.elf_hash_check.specs.Faults.{IsTrueOfSysv};
ghost use Rattle.elf_hash_check.specs.First.{BelongBefore, IsFaultAt, IsFirstOfSysv};
ghost use Rattle.elf_hash_check.specs.Indexed.{chain_lengths};
ghost use Rattle.elf_hash_check.specs.Reads.{IsCountAt, count_after, read_count, symbols_of};
ghost use Rattle.elf_hash_check.specs.SoundSysv.{EndsAt, SoundSysv};
ghost use Rattle.elf_hash_check.specs.Verdict.{GivesVerdict, OnFaulty, OnSound, sysv_chain_count};
ghost use Rattle.elf_hash_check.specs.WithSymbols.{sysv_with, with_symbols};

use crate::hashcheck::sysv::CheckedSysvHash;
use crate::hashcheck::table_words::{word_below, word_count};
use crate::hashcheck::{Checked, HashFault, Reads};
use elf_parts::endian::EndianParse;
use elf_parts::file::Class;
use elf_parts::hash::{SysVHashTable, sysv_hash};
use elf_parts::laws::find::words_can_be_read;
use elf_parts::parse::ParseError;
use elf_parts::string_table::StringTable;
use elf_parts::symbol::SymbolTable;

// How many indexes the chain of a bucket has before its 0, or what it lacks.
fn chain_length<'data, E: EndianParse>(
    table: &SysVHashTable<'data, E>,
    bucket: usize,
    symtab: &SymbolTable<'data, E>,
    strtab: &StringTable<'data>,
    reads: &mut Reads,
) -> Result<usize, HashFault>
    requires { bucket < word_count (sysv_view table.now).buckets }
    ensures verdict { let s = sysv_with table.now symtab.now strtab.now in
        MatchResult result (EndsAt s bucket) (IsTrueOfSysv s) }
    ensures at_most { read_count reads.new ≤ read_count reads.old + word_count (sysv_view table.now).chains }
    ensures exact { IfOk result (λ length. read_count reads.new ≡ count_after (read_count reads.old) length) }
    ensures never_less { read_count reads.old ≤ read_count reads.new }
    ensures at_fault { IfErr result (λ fault.
        count_after (read_count reads.old) (symbols_of fault) ≤ read_count reads.new) }
    ensures stops { let s = sysv_with table.now symtab.now strtab.now in
        IfErr result (λ fault. (j : ℕ) × BelongBefore s bucket j × IsFaultAt s bucket j fault
        × (read_count reads.new ≡ count_after (read_count reads.old) (j + symbols_of fault))) }
    ensures short { word_count (sysv_view table.now).chains < 2 ^ 62 }
{
    let buckets = table.buckets();
    let chains = table.chains();
    let nbucket = word_count(&buckets);
    let nchain = word_count(&chains);
    let mut index = word_below(&buckets, bucket);
    for place in 0..nchain {
        if index == 0 {
            return Ok(place);
        }
        if index >= nchain {
            return Err(HashFault::PastChains { bucket, index });
        }
        let Some(name) = reads.name_at(symtab, strtab, index) else {
            return Err(HashFault::Unreadable { index });
        };
        if sysv_hash(name) as usize % nbucket != bucket {
            return Err(HashFault::WrongBucket { bucket, index });
        }
        index = word_below(&chains, index);
    }
    if index == 0 {
        Ok(nchain)
    } else {
        Err(HashFault::Endless { bucket })
    }
}

// How many indexes all chains have before their 0, or what the section lacks.
fn first_fault<'data, E: EndianParse>(
    table: &SysVHashTable<'data, E>,
    symtab: &SymbolTable<'data, E>,
    strtab: &StringTable<'data>,
    reads: &mut Reads,
) -> Result<usize, HashFault>
    ensures verdict { let s = sysv_with table.now symtab.now strtab.now in
        MatchResult result
        (λ indexed. SoundSysv s × (indexed ≡ chain_lengths s.table (word_count s.table.buckets)))
        (λ fault. (¬ SoundSysv s) × IsFirstOfSysv s fault) }
    ensures at_most { read_count reads.new ≤ read_count reads.old + 2 * word_count (sysv_view table.now).chains }
    ensures at_least { IfOk result (λ indexed. count_after (read_count reads.old) indexed ≤ read_count reads.new) }
    ensures never_less { read_count reads.old ≤ read_count reads.new }
    ensures at_fault { IfErr result (λ fault.
        count_after (read_count reads.old) (symbols_of fault) ≤ read_count reads.new) }
    ensures exact { IfOk result (λ indexed. read_count reads.new ≡ count_after (read_count reads.old) indexed) }
    ensures exact_at_fault { let s = sysv_with table.now symtab.now strtab.now in
        IfErr result (λ fault. IsCountAt s fault (read_count reads.old) (read_count reads.new)) }
{
    let mut indexed = 0;
    for bucket in 0..word_count(&table.buckets()) {
        match chain_length(table, bucket, symtab, strtab, reads) {
            Ok(length) => indexed += length,
            Err(fault) => return Err(fault),
        }
    }
    Ok(indexed)
}

/// Checks as `check_sysv` does, and adds the number of symbols that it reads to `reads`.
///
/// It adds at most two for each chain word. For a sound section it adds exactly the number of indexed symbols. At a
/// fault it adds exactly the lengths of the chains of the buckets before, the number of indexes before the faulty one
/// in its chain, and one if the fault names a symbol which was read.
pub fn check_sysv_counted<'data, E: EndianParse>(
    endian: E,
    class: Class,
    section: &'data [u8],
    symtab: SymbolTable<'data, E>,
    strtab: StringTable<'data>,
    reads: &mut Reads,
) -> Result<Checked<CheckedSysvHash<'data, E>>, ParseError>
    ensures verdict { let cut = sysv_section (E.little endian) class section.now in
        let checked = with_symbols (table_view symtab.entry) (strings_view strtab.entry) cut in
        GivesVerdict checked_sysv_view SoundSysv IsFirstOfSysv checked result }
    ensures at_most { let cut = sysv_section (E.little endian) class section.now in
        read_count reads.new ≤ read_count reads.old + 2 * sysv_chain_count cut }
    ensures at_least { OnSound result (λ checked.
        count_after (read_count reads.old) (sysv_indexed checked) ≤ read_count reads.new) }
    ensures never_less { read_count reads.old ≤ read_count reads.new }
    ensures at_fault { OnFaulty result (λ fault.
        count_after (read_count reads.old) (symbols_of fault) ≤ read_count reads.new) }
    ensures exact { OnSound result (λ checked.
        read_count reads.new ≡ count_after (read_count reads.old) (sysv_indexed checked)) }
    ensures exact_at_fault { let cut = sysv_section (E.little endian) class section.now in
        IfOk (with_symbols (table_view symtab.entry) (strings_view strtab.entry) cut) (λ s.
        OnFaulty result (λ fault. IsCountAt s fault (read_count reads.old) (read_count reads.new))) }
{
    let table = SysVHashTable::new(endian, class, section)?;
    words_can_be_read(section);
    match first_fault(&table, &symtab, &strtab, reads) {
        Err(fault) => Ok(Checked::Faulty(fault)),
        Ok(indexed) => Ok(Checked::Sound(CheckedSysvHash {
            table,
            symtab,
            strtab,
            indexed,
        })),
    }
}

/// Checks whether a SysV hash section is sound for its symbols. Returns its table, or its first fault.
/// Returns an error exactly if `SysVHashTable::new` does, and that error.
pub fn check_sysv<'data, E: EndianParse>(
    endian: E,
    class: Class,
    section: &'data [u8],
    symtab: SymbolTable<'data, E>,
    strtab: StringTable<'data>,
) -> Result<Checked<CheckedSysvHash<'data, E>>, ParseError>
    ensures { let cut = sysv_section (E.little endian) class section.now in
        let checked = with_symbols (table_view symtab.entry) (strings_view strtab.entry) cut in
        GivesVerdict checked_sysv_view SoundSysv IsFirstOfSysv checked result }
{
    check_sysv_counted(endian, class, section, symtab, strtab, &mut Reads::new())
}
