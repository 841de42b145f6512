//! The chains of hash sections: by the section headers; if a file declares none by its dynamic entries.
#![tactic(auto, using(nugwier_report::proofs::Saying::saying_both))]

ghost use Rattle.std.specs.Prelude.{◌≡◌, ◌<◌, ◌≤◌, ◌^◌, ◌∷◌, [], codes, sum, IfOk, OnOk};
ghost use Rattle.std.specs.List.{flat_map};
ghost use Rattle.elf_abi.specs.Values.{sht_gnu_hash, sht_hash};
ghost use Rattle.elf_dynamic.specs.dynamic_view.Entries.{entries_in};
ghost use Rattle.elf_parts.specs.Hash.{word_at};
ghost use Rattle.elf_records.specs.Number.{ok_map};
ghost use Rattle.elf_records.specs.Table.{table_view};
ghost use Rattle.nugwier_dynamic.specs.Chains.{all_lengths, buckets_of, chain_length, chain_words_of, chains_by};
ghost use Rattle.nugwier_dynamic.specs.Chains.{chains_in, chains_of, chains_within, counted_after, counts_from};
ghost use Rattle.nugwier_dynamic.specs.Chains.{entry_said, found_entry_said, gnu_entry, gnu_length, hash_table};
ghost use Rattle.nugwier_dynamic.specs.Chains.{hash_view, one_more, said_of_chains, section_chains_said, sysv_entry};
ghost use Rattle.nugwier_dynamic.specs.Chains.{sysv_length, word_read};
ghost use Rattle.nugwier_dynamic.specs.inner.Chains.{symbols_in};
ghost use Rattle.nugwier_dynamic.specs.ChainRows.{chains_view};
ghost use Rattle.nugwier_report.specs.Labels.{label_name};
ghost use Rattle.nugwier_report.specs.Said.{saying};
ghost use Rattle.nugwier_report.specs.TypedSections.{sections_of};
ghost use Rattle.nugwier_report.specs.Whole.{file_of};

use crate::chain_rows::{ChainCount, Chains, tell_entry_chains};
use elf::dynamic::DynamicTable;
use elf::endian::EndianParse;
use elf::hash::{GnuHashTable, SysVHashTable};
use elf::headers::Headers;
use elf::parse::ParsingTable;
use elf::reader::Reader;
use elf::section::SectionHeader;
use elf::string_table::TerminatedStrings;
use elf::{ParseError, abi};
use elf_dynamic::linked::LinkedBy;
use nugwier_report::headings::known_names;
use nugwier_report::linked;
use nugwier_report::listed::ListedFile;
use nugwier_report::names::label_name;
use nugwier_report::problem::{Fault, Part, Stop};
use nugwier_report::tell::Tell;
use nugwier_report::typed_sections::{HASH_TYPES, TypedSection, sections_of};
use std::alloc::{AllocError, Global};

/// Tells the chains of each hash section; if the file declares no sections those that dynamic entries give. They are
/// walked and counted only if something comes of what is told.
pub fn tell_chains<E: EndianParse, R: ListedFile<E>, T: Tell>(
    alloc: Global,
    file: &R,
    tell: &mut T,
) -> Result<(), Stop>
    ensures { OnOk result (tell.new ≡ saying T.one tell.old
        (said_of_chains (file_of (R.file file.now) (R.bytes file.now)))) }
{
    match linked::linked_by(file)? {
        Ok(LinkedBy::Sections) => tell_sections(alloc, file, tell),
        Ok(LinkedBy::Entries(entries)) => {
            tell_sysv_entry(alloc, file, &entries, tell)?;
            tell_gnu_entry(alloc, file, &entries, tell)
        }
        Ok(LinkedBy::Nothing) => Ok(()),
        Err(error) => tell.problem(Part::Dynamic.whole(), &error),
    }
}

// ---- of dynamic entries

// Tells the chains of the hash table whose address the entry `DT_HASH` gives, if there is one.
fn tell_sysv_entry<E: EndianParse, R: ListedFile<E>, T: Tell>(
    alloc: Global,
    file: &R,
    entries: &DynamicTable<'_, E>,
    tell: &mut T,
) -> Result<(), Stop>
    ensures { OnOk result (tell.new ≡ saying T.one tell.old (found_entry_said (codes "DT_HASH")
        (sysv_entry (file_of (R.file file.now) (R.bytes file.now)) (entries_in (table_view entries.now))))) }
{
    match linked::sysv_hash(file, entries)? {
        Ok(Some(table)) => tell_entry(alloc, "DT_HASH", &HashTable::SysV(table), tell),
        Ok(None) => Ok(()),
        Err(error) => tell.problem(Part::Dynamic.whole(), &error),
    }
}

// The same of the entry `DT_GNU_HASH`.
fn tell_gnu_entry<E: EndianParse, R: ListedFile<E>, T: Tell>(
    alloc: Global,
    file: &R,
    entries: &DynamicTable<'_, E>,
    tell: &mut T,
) -> Result<(), Stop>
    ensures { OnOk result (tell.new ≡ saying T.one tell.old (found_entry_said (codes "DT_GNU_HASH")
        (gnu_entry (file_of (R.file file.now) (R.bytes file.now)) (entries_in (table_view entries.now))))) }
{
    match linked::gnu_hash(file, entries)? {
        Ok(Some(table)) => tell_entry(alloc, "DT_GNU_HASH", &HashTable::Gnu(table), tell),
        Ok(None) => Ok(()),
        Err(error) => tell.problem(Part::Dynamic.whole(), &error),
    }
}

// Tells the chains of the hash table that the entry with this tag gives.
fn tell_entry<E: EndianParse, T: Tell>(
    alloc: Global,
    tag: &'static str,
    table: &HashTable<'_, E>,
    tell: &mut T,
) -> Result<(), Stop>
    ensures { OnOk result (tell.new ≡ saying T.one tell.old (entry_said tag.now (chains_in (hash_view table.now)))) }
{
    if tell.is_silent() {
        return Ok(());
    }
    match table.counted(alloc)? {
        Ok(chains) => tell_entry_chains(tag, &chains, tell),
        Err(fault) => tell.problem(Part::Dynamic.whole(), &fault),
    }
}

// ---- of sections

fn tell_sections<E: EndianParse, R: ListedFile<E>, T: Tell>(
    alloc: Global,
    file: &R,
    tell: &mut T,
) -> Result<(), Stop>
    ensures { let whole = file_of (R.file file.now) (R.bytes file.now) in
        OnOk result (tell.new ≡ saying T.one tell.old
        (flat_map (chains_of whole) (sections_of whole (sht_hash ∷ sht_gnu_hash ∷ [])))) }
{
    let names = known_names(file)?;
    for section in sections_of(alloc, file, &HASH_TYPES)? {
        tell_section(alloc, file, &names, section, tell)?;
    }
    Ok(())
}

// Tells the chains of a section, with its name by these names, or why they are not listed.
fn tell_section<E: EndianParse, R: ListedFile<E>, T: Tell>(
    alloc: Global,
    file: &R,
    names: &Option<TerminatedStrings<'_>>,
    section: TypedSection<'_>,
    tell: &mut T,
) -> Result<(), Stop>
    ensures { OnOk result (tell.new ≡ saying T.one tell.old (section_chains_said section.entry.number
        (label_name names.now section.entry.header)
        (chains_within (file_of (R.file file.now) (R.bytes file.now)) section.entry.header
        (ok_map (λ bytes. bytes.now) section.entry.bytes)))) }
{
    let TypedSection {
        number,
        header,
        bytes,
    } = section;
    if tell.is_silent() {
        return Ok(());
    }
    match chains_within(alloc, file, &header, bytes)? {
        Ok(chains) => {
            let name = label_name(names, &header);
            crate::chain_rows::tell_chains(number, name, &chains, tell)
        }
        Err(fault) => tell.problem(Part::Section(number).whole(), &fault),
    }
}

// The chains of a section with these bytes, if they are listed.
fn chains_within<E: EndianParse, R: ListedFile<E>>(
    alloc: Global,
    file: &R,
    section: &SectionHeader,
    bytes: Result<&[u8], Fault>,
) -> Result<Result<Chains, Fault>, AllocError>
    ensures { IfOk result (λ found. ok_map chains_view found
        ≡ chains_within (file_of (R.file file.now) (R.bytes file.now)) section.now
        (ok_map (λ bytes. bytes.now) bytes.entry)) }
{
    let bytes = match bytes {
        Ok(bytes) => bytes,
        Err(fault) => return Ok(Err(fault)),
    };
    match hash_table(file, section, bytes) {
        Ok(table) => table.counted(alloc),
        Err(error) => Ok(Err(Fault::Read(error))),
    }
}

// ---- hash tables

// A hash table of either kind.
#[derive(Drop)]
enum HashTable<'f, E: EndianParse> {
    SysV(SysVHashTable<'f, E>),
    Gnu(GnuHashTable<'f, E>),
}

// The words of buckets or of chains.
type Words<'f, E> = ParsingTable<'f, E, u32>;

// The hash section with these bytes.
fn hash_table<'f, E: EndianParse, R: ListedFile<E>>(
    file: &R,
    section: &SectionHeader,
    bytes: &'f [u8],
) -> Result<HashTable<'f, E>, ParseError>
    ensures { ok_map hash_view result
        ≡ hash_table (file_of (R.file file.now) (R.bytes file.now)) section.now bytes.now }
{
    let order = file.endianness();
    let class = file.class();
    if section.sh_type == abi::SHT_HASH {
        Ok(HashTable::SysV(SysVHashTable::new(order, class, bytes)?))
    } else {
        Ok(HashTable::Gnu(GnuHashTable::new(order, class, bytes)?))
    }
}

impl<'f, E: EndianParse> HashTable<'f, E> {
    // The words of the buckets, and those of the chains.
    fn words(&self) -> (Words<'f, E>, Words<'f, E>)
        ensures buckets { table_view result.0 ≡ buckets_of (hash_view self.now) }
        ensures chains { table_view result.1 ≡ chain_words_of (hash_view self.now) }
    {
        match self {
            HashTable::SysV(table) => (table.buckets(), table.chains()),
            HashTable::Gnu(table) => (table.buckets(), table.chains()),
        }
    }

    // How many chains have each length.
    fn counted(&self, alloc: Global) -> Result<Result<Chains, Fault>, AllocError>
        ensures { IfOk result (λ found. ok_map chains_view found ≡ chains_in (hash_view self.now)) }
    {
        match self.lengths(alloc)? {
            Ok(lengths) => Ok(Ok(chains_by(alloc, lengths.as_slice())?)),
            Err(fault) => Ok(Err(fault)),
        }
    }

    // The lengths of all chains.
    #[tactic(auto, using(crate::proofs::ChainWalks::lengths_next, crate::proofs::ChainWalks::lengths_fault, std::proofs::lemmas::List::Sums::sum_by_push))]
    fn lengths(&self, alloc: Global) -> Result<Result<Vec<usize>, Fault>, AllocError>
        ensures lengths { IfOk result (λ found.
            ok_map (λ lengths. lengths.items) found ≡ all_lengths (hash_view self.now)) }
        ensures few { IfOk result (λ found. IfOk found (λ lengths. sum lengths.items < 2 ^ 63)) }
    {
        let (buckets, words) = self.words();
        let mut lengths = Vec::new(alloc);
        let mut left = words.len();
        for first in buckets.iter() {
            match self.chain_length(left, first) {
                Ok(length) => {
                    lengths.push(length)?;
                    left -= length;
                }
                Err(fault) => return Ok(Err(fault)),
            }
        }
        Ok(Ok(lengths))
    }

    // The length of the chain of a bucket by its word.
    fn chain_length(&self, limit: usize, first: u32) -> Result<usize, Fault>
        requires { limit < 2 ^ 63 }
        ensures length { result ≡ chain_length (hash_view self.now) limit first }
        ensures within { IfOk result (λ n. n ≤ limit) }
    {
        match self {
            HashTable::SysV(table) => sysv_length(&table.chains(), limit, first as usize),
            HashTable::Gnu(table) if first < table.hdr.table_start_idx => Ok(0),
            HashTable::Gnu(table) => {
                let place = first - table.hdr.table_start_idx;
                gnu_length(&table.chains(), limit, place)
            }
        }
    }
}

// A word of a table.
#[tactic(auto, unfolding(elf_parts::specs::Hash::word_at))]
fn word<E: EndianParse>(words: &Words<'_, E>, index: usize) -> Result<usize, Fault>
    ensures { result ≡ word_read (word_at (table_view words.now) index) }
{
    match words.get(index) {
        Ok(word) => Ok(word as usize),
        Err(error) => Err(Fault::Read(error)),
    }
}

// The length of a SysV chain from a symbol on, if it has not more symbols than the limit.
fn sysv_length<E: EndianParse>(
    chains: &Words<'_, E>,
    limit: usize,
    first: usize,
) -> Result<usize, Fault>
    ensures length { result ≡ sysv_length (table_view chains.now) limit first }
    ensures within { IfOk result (λ n. n ≤ limit) }
{
    let mut index = first;
    let mut length = 0;
    while index != 0 {
        if length == limit {
            return Err(Fault::LongChains);
        }
        index = word(chains, index)?;
        length += 1;
    }
    Ok(length)
}

// The length of a GNU chain from a word on, if it has not more words than the limit.
fn gnu_length<E: EndianParse>(
    chains: &Words<'_, E>,
    limit: usize,
    first: u32,
) -> Result<usize, Fault>
    requires { limit < 2 ^ 63 }
    ensures length { result ≡ gnu_length (table_view chains.now) limit first }
    ensures within { IfOk result (λ n. n ≤ limit) }
{
    for length in 0..limit {
        let word = word(chains, first as usize + length)?;
        if word % 2 == 1 {
            return Ok(length + 1);
        }
    }
    Err(Fault::LongChains)
}

// How many of these chains have each length.
#[tactic(auto, using(crate::proofs::Counting::symbols_counted))]
fn chains_by(alloc: Global, lengths: &[usize]) -> Result<Chains, AllocError>
    requires { sum lengths.now < 2 ^ 63 }
    ensures { IfOk result (λ chains. chains_view chains ≡ chains_by lengths.now) }
{
    let counts = counted(alloc, lengths)?;
    let all = ChainCount {
        buckets: lengths.len() as u64,
        symbols: symbol_count(lengths),
    };
    let lengths = counts_in(alloc, counts.as_slice())?;
    Ok(Chains { lengths, all })
}

// How many symbols chains of these lengths have.
fn symbol_count(lengths: &[usize]) -> u64
    requires { sum lengths.now < 2 ^ 63 }
    ensures { result ≡ sum lengths.now }
{
    let mut count = 0;
    for length in lengths {
        count += *length as u64;
    }
    count
}

// The number of chains of each length.
fn counted(alloc: Global, lengths: &[usize]) -> Result<Vec<u64>, AllocError>
    ensures { IfOk result (λ counts. counts.items ≡ counted_after [] lengths.now) }
{
    let mut counts = Vec::new(alloc);
    for length in lengths {
        count_chain(*length, &mut counts)?;
    }
    Ok(counts)
}

// Counts a chain of this length.
#[tactic(auto, using(crate::proofs::Counting::counts_longer, crate::proofs::Counting::counts_set, std::proofs::lemmas::List::Sums::sum_by_push, crate::proofs::Counting::count_within))]
fn count_chain(length: usize, counts: &mut Vec<u64>) -> Result<(), AllocError>
    requires { sum counts.old.items < 2 ^ 63 }
    ensures { OnOk result (counts.new.items ≡ one_more counts.old.items length) }
{
    while counts.len() <= length {
        counts.push(0)?;
    }
    counts[length] += 1;
    Ok(())
}

// The counts for each length, from 0 on.
fn counts_in(alloc: Global, counts: &[u64]) -> Result<Vec<ChainCount>, AllocError>
    requires { symbols_in 0 counts.now < 2 ^ 63 }
    ensures { IfOk result (λ rows. rows.items ≡ counts_from 0 0 counts.now) }
{
    let mut rows = Vec::new(alloc);
    let mut length = 0;
    let mut symbols = 0;
    for buckets in counts {
        let buckets = *buckets;
        symbols += length * buckets;
        rows.push(ChainCount { buckets, symbols })?;
        length += 1;
    }
    Ok(rows)
}
