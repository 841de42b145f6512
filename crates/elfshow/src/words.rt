//! What the words of a command line spell.
ghost use Rattle.std.specs.Prelude.{◌≡◌, ◌==◌};
ghost use Rattle.std.specs.Option.{option_map};
ghost use Rattle.elfshow.specs.Question.{question};
ghost use Rattle.elfshow.specs.Words.{call_of, index_of, indexed_call, is_digit, keyed_call, number_of};
ghost use Rattle.elfshow.specs.Words.{plain_call, with_digit};

use crate::runs::Call;

// The most digits that a number may have.
const MOST_DIGITS: usize = 20;

/// Returns the call that a word spells, if it spells one.
pub(crate) fn parse_call(word: &str) -> Option<Call<'_>>
    ensures { option_map question result ≡ call_of word.now }
{
    match word.split_once('=') {
        Some((key, value)) => parse_keyed_call(key, value),
        None => parse_plain_call(word),
    }
}

fn parse_plain_call(word: &str) -> Option<Call<'static>>
    ensures { option_map question result ≡ plain_call word.now }
{
    match word {
        "header" => Some(Call::Header),
        "sections" => Some(Call::Sections),
        "segments" => Some(Call::Segments),
        "symbols" => Some(Call::Symbols),
        "dynsyms" => Some(Call::DynSyms),
        "dynamic" => Some(Call::Dynamic),
        "versions" => Some(Call::Versions),
        _ => None,
    }
}

fn parse_keyed_call<'a>(key: &str, value: &'a str) -> Option<Call<'a>>
    ensures { option_map question result ≡ keyed_call key.now value.now }
{
    match key {
        "name" => Some(Call::Name(value)),
        _ => parse_indexed_call(key, parse_index(value)?),
    }
}

fn parse_indexed_call(key: &str, index: u64) -> Option<Call<'static>>
    ensures { option_map question result ≡ indexed_call key.now index }
{
    match key {
        "data" => Some(Call::Data(index)),
        "strings" => Some(Call::Strings(index)),
        "rels" => Some(Call::Rels(index)),
        "relas" => Some(Call::Relas(index)),
        "notes" => Some(Call::Notes(index)),
        "seg" => Some(Call::Seg(index)),
        "segnotes" => Some(Call::SegNotes(index)),
        "sysv" => Some(Call::Sysv(index)),
        "gnu" => Some(Call::Gnu(index)),
        _ => None,
    }
}

// The number that one to twenty decimal digits spell, if it is below 2^64.
fn parse_index(text: &str) -> Option<u64>
    ensures { result ≡ index_of text.now }
{
    let digits = text.as_bytes();
    if digits.is_empty() || digits.len() > MOST_DIGITS {
        return None;
    }
    parse_number(digits)
}

fn parse_number(digits: &[u8]) -> Option<u64>
    ensures { result ≡ number_of digits.now }
{
    let mut number = Some(0);
    for digit in digits {
        number = with_digit(number, *digit);
    }
    number
}

// A number with one more digit after it.
fn with_digit(number: Option<u64>, digit: u8) -> Option<u64>
    ensures { result ≡ with_digit number digit }
{
    let number = number?;
    if !is_digit(digit) {
        return None;
    }
    let place = number.checked_mul(10)?;
    place.checked_add((digit - b'0') as u64)
}

fn is_digit(byte: u8) -> bool
    ensures { result ≡ is_digit byte }
{
    (b'0'..=b'9').contains(&byte)
}
