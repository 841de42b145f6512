//! Addresses among the words.
ghost use Rattle.nugwier_commands.specs.Words.{AreAddresses, address_of, addresses_after, divided, number_of};
ghost use Rattle.nugwier_symbols.specs.Addresses.{sought};
ghost use Rattle.nugwier_commands.specs.Words.{without_0x};
ghost use Rattle.nugwier_symbols.specs.Addresses.{text_of};
ghost use Rattle.std.specs.Option.{option_map};
ghost use Rattle.std.specs.Prelude.{◌≡◌, []};

use crate::words::WordError;
use nugwier_symbols::addresses::AskedAddress;
use std::alloc::Global;

/// The addresses that words are. `Address` for the first word that is none.
pub(crate) fn parse_addresses<'a>(
    alloc: Global,
    words: &[&'a str],
) -> Result<Vec<AskedAddress<'a>>, WordError<'a>>
    ensures { AreAddresses (addresses_after [] words.now) result }
{
    let mut addresses = Vec::new(alloc);
    for word in words {
        match parse_address(*word) {
            Some(address) => addresses.push(address)?,
            None => return Err(WordError::Address(*word)),
        }
    }
    Ok(addresses)
}

// A number in hexadecimal, with or without `0x`, after a section and a colon or alone.
fn parse_address<'a>(word: &'a str) -> Option<AskedAddress<'a>>
    ensures { option_map sought result ≡ address_of word.now }
{
    let (section, address) = divided(word);
    let address = parse_number(without_0x(address))?;
    Some(AskedAddress { section, address })
}

// The section before the last colon, if there is a colon, and the address.
fn divided<'a>(word: &'a str) -> (Option<&'a str>, &'a str)
    ensures { (text_of result.0, result.1.now) ≡ divided word.now }
{
    match word.rsplit_once(':') {
        Some((section, address)) => (Some(section), address),
        None => (None, word),
    }
}

// A number in hexadecimal. A plus sign, which std allows, is no digit.
fn parse_number(digits: &str) -> Option<u64>
    ensures { result ≡ number_of digits.now }
{
    if digits.as_bytes().starts_with(b"+") {
        return None;
    }
    u64::from_str_radix(digits, 16).ok()
}

fn without_0x(word: &str) -> &str
    ensures { result.now ≡ without_0x word.now }
{
    word.strip_prefix("0x").unwrap_or(word)
}
