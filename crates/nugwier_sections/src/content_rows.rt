//! What is said of the content of sections.
#![tactic(auto, using(nugwier_report::proofs::Saying::saying_both, nugwier_report::proofs::Parts::said_parts))]

ghost use Rattle.std.specs.Prelude.{◌≡◌, OnOk};
ghost use Rattle.nugwier_sections.specs.ContentRows.{compression_members, compression_said, data_said, string_members};
ghost use Rattle.nugwier_sections.specs.ContentRows.{string_said, strings_said};
ghost use Rattle.nugwier_layouts.specs.Members.{members_said};
ghost use Rattle.nugwier_report.specs.Said.{saying};

use elf_abi::to_str::ch_type_to_str;
use elf_parts::compression::CompressionHeader;
use nugwier_layouts::json::{Member, Value};
use nugwier_layouts::layouts;
use nugwier_report::problem::Stop;
use nugwier_report::tell::Tell;

/// Says how a section is compressed, by its number.
pub fn tell_compression<T: Tell>(
    section: u64,
    header: &CompressionHeader,
    tell: &mut T,
) -> Result<(), Stop>
    ensures { OnOk result (tell.new ≡ saying T.one tell.old (compression_said section header.now)) }
{
    tell.state(&layouts::COMPRESSION, &compression_members(section, header))
}

fn compression_members(section: u64, header: &CompressionHeader) -> [Member<'static>; 5]
    ensures { members_said result ≡ compression_members section header.now }
{
    [
        ("section", Value::Number(section)),
        ("ch_type", Value::Number(header.ch_type as u64)),
        ("ch_type_name", Value::Word(ch_type_to_str(header.ch_type))),
        ("ch_size", Value::Number(header.ch_size)),
        ("ch_addralign", Value::Number(header.ch_addralign)),
    ]
}

/// Says the bytes of a section, by its number. The first byte has this address.
pub fn tell_data<T: Tell>(
    section: u64,
    address: u64,
    bytes: &[u8],
    tell: &mut T,
) -> Result<(), Stop>
    ensures { OnOk result (tell.new ≡ saying T.one tell.old (data_said section address bytes.now)) }
{
    tell.state(
        &layouts::SECTION_DATA,
        &[
            ("section", Value::Number(section)),
            ("address", Value::Number(address)),
            ("data", Value::Bytes(bytes)),
        ],
    )
}

/// Says the strings of a section, each with its offset, without empty ones. Bytes after the last 0 byte are no string.
pub fn tell_strings<T: Tell>(section: u64, bytes: &[u8], tell: &mut T) -> Result<(), Stop>
    ensures { OnOk result (tell.new ≡ saying T.one tell.old (strings_said section bytes.now)) }
{
    let mut start = 0;
    let mut place = 0;
    for byte in bytes {
        if *byte == 0 {
            tell_string(section, start as u64, &bytes[start..place], tell)?;
            start = place + 1;
        }
        place += 1;
    }
    Ok(())
}

fn tell_string<T: Tell>(section: u64, start: u64, string: &[u8], tell: &mut T) -> Result<(), Stop>
    ensures { OnOk result (tell.new ≡ saying T.one tell.old (string_said section start string.now)) }
{
    match string {
        [] => Ok(()),
        _ => tell.state(
            &layouts::SECTION_STRING,
            &string_members(section, start, string),
        ),
    }
}

fn string_members<'a>(section: u64, start: u64, string: &'a [u8]) -> [Member<'a>; 3]
    ensures { members_said result ≡ string_members section start string.now }
{
    [
        ("section", Value::Number(section)),
        ("offset", Value::Number(start)),
        ("string", Value::Text(Some(string))),
    ]
}
