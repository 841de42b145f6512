//! What is said of the chains of hash sections.
#![tactic(auto, using(nugwier_report::proofs::Saying::saying_both, nugwier_report::proofs::Parts::said_parts))]

ghost use Rattle.std.specs.Prelude.{◌≡◌, OnOk};
ghost use Rattle.std.specs.Option.{option_copied};
ghost use Rattle.nugwier_dynamic.specs.ChainRows.{chains_members, chains_said, chains_view, entry_chains_members};
ghost use Rattle.nugwier_dynamic.specs.ChainRows.{entry_chains_said, length_members, length_said, lengths_said};
ghost use Rattle.nugwier_layouts.specs.Members.{members_said};
ghost use Rattle.nugwier_report.specs.Said.{saying};

use nugwier_layouts::json::{Member, Value};
use nugwier_layouts::layouts;
use nugwier_report::problem::{Part, Stop, part_member};
use nugwier_report::rows::{Row, tell_slice};
use nugwier_report::tell::Tell;

/// How many buckets have a chain of a length, and how many symbols lie in chains that are not longer.
#[derive(Debug, Clone, Copy)]
pub struct ChainCount {
    pub buckets: u64,
    pub symbols: u64,
}

/// The chains of a hash section: the counts for each length from 0 up to that of the longest, and the number of all
/// buckets and of all symbols.
#[derive(Debug, Drop)]
pub struct Chains {
    pub lengths: Vec<ChainCount>,
    pub all: ChainCount,
}

/// Says how long the chains of a hash section are, by its number and its name.
pub fn tell_chains<T: Tell>(
    section: u64,
    name: &[u8],
    chains: &Chains,
    tell: &mut T,
) -> Result<(), Stop>
    ensures { OnOk result (tell.new ≡ saying T.one tell.old (chains_said section name.now (chains_view chains.now))) }
{
    tell.state(
        &layouts::CHAINS_HEADING,
        &chains_members(section, name, chains.all),
    )?;
    tell_lengths(Part::Section(section), None, chains, tell)
}

/// The same of a hash table, by the tag of the dynamic entry that gives its address.
pub fn tell_entry_chains<T: Tell>(
    tag: &'static str,
    chains: &Chains,
    tell: &mut T,
) -> Result<(), Stop>
    ensures { OnOk result (tell.new ≡ saying T.one tell.old (entry_chains_said tag.now (chains_view chains.now))) }
{
    tell.state(
        &layouts::CHAINS_TABLE_HEADING,
        &entry_chains_members(tag, chains.all),
    )?;
    tell_lengths(Part::Dynamic, Some(tag), chains, tell)
}

// Says how many chains of a part, or of the table of an entry with this tag, have each length.
fn tell_lengths<T: Tell>(
    part: Part,
    tag: Option<&'static str>,
    chains: &Chains,
    tell: &mut T,
) -> Result<(), Stop>
    ensures { OnOk result (tell.new
        ≡ saying T.one tell.old (lengths_said part (option_copied tag.entry) (chains_view chains.now))) }
{
    let row = LengthRow {
        part,
        tag,
        all: chains.all,
    };
    tell_slice(chains.lengths.as_slice(), &row, tell)
}

fn chains_members<'a>(section: u64, name: &'a [u8], all: ChainCount) -> [Member<'a>; 3]
    ensures { members_said result ≡ chains_members section name.now all }
{
    [
        ("section", Value::Number(section)),
        ("name", Value::Text(Some(name))),
        ("buckets", Value::Number(all.buckets)),
    ]
}

fn entry_chains_members(tag: &str, all: ChainCount) -> [Member<'_>; 2]
    ensures { members_said result ≡ entry_chains_members tag.now all }
{
    [
        ("table", Value::Text(Some(tag.as_bytes()))),
        ("buckets", Value::Number(all.buckets)),
    ]
}

// The chains of a length, which is the number of the row.
#[derive(Drop)]
struct LengthRow {
    part: Part,
    tag: Option<&'static str>,
    all: ChainCount,
}

impl Row for LengthRow {
    type Item = ChainCount;

    ghost said = { λ row number count. length_said row.part (option_copied row.tag) row.all number count };

    fn tell<T: Tell>(&self, number: u64, count: &ChainCount, tell: &mut T) -> Result<(), Stop> {
        let members = length_members(self.part, self.tag, self.all, number, *count);
        tell.state(&layouts::CHAIN_LENGTH, &members)
    }
}

fn length_members(
    part: Part,
    tag: Option<&'static str>,
    all: ChainCount,
    length: u64,
    count: ChainCount,
) -> [Member<'static>; 7]
    ensures { members_said result ≡ length_members part (option_copied tag.entry) all length count }
{
    [
        part_member(part),
        ("length", Value::Number(length)),
        ("buckets", Value::Number(count.buckets)),
        ("all_buckets", Value::Number(all.buckets)),
        ("symbols", Value::Number(count.symbols)),
        ("all_symbols", Value::Number(all.symbols)),
        ("table", Value::Word(tag)),
    ]
}
