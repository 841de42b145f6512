//! What the checkers say of hash sections.
use crate::row_words::Words;
use crate::shown::Shown;
use elf::ParseError;
use elf::endian::AnyEndian;
use elf::file::Class;
use elf::string_table::StringTable;
use elf::symbol::SymbolTable;
use elfshow::hashcheck::{
    AnyChecked, Checked, HashKind, Reads, check_any, check_gnu_counted, check_sysv_counted,
};

/// The words `KIND ORDER CLASS SECTION SYMBOLS STRINGS`: a hash section, and what it is checked with.
#[derive(Drop)]
struct Section {
    kind: HashKind,
    order: AnyEndian,
    class: Class,
    bytes: Vec<u8>,
    symbols: Vec<u8>,
    strings: Vec<u8>,
}

fn section_of(rt: &HostRuntime, words: &mut Words<'_>) -> Section {
    Section {
        kind: match words.word() {
            "sysv" => HashKind::Sysv,
            _ => HashKind::Gnu,
        },
        order: words.order(),
        class: words.class(),
        bytes: words.bytes(rt),
        symbols: words.bytes(rt),
        strings: words.bytes(rt),
    }
}

type Answer<'a> = Result<Checked<AnyChecked<'a, AnyEndian>>, ParseError>;

/// What the check of the section answers, whose reads of symbols are counted.
fn counted<'a>(section: &'a Section, reads: &mut Reads) -> Answer<'a> {
    let (order, class) = (section.order, section.class);
    let bytes = section.bytes.as_slice();
    let symbols = SymbolTable::new(order, class, section.symbols.as_slice());
    let strings = StringTable::new(section.strings.as_slice());
    Ok(match section.kind {
        HashKind::Sysv => match check_sysv_counted(order, class, bytes, symbols, strings, reads)? {
            Checked::Sound(table) => Checked::Sound(AnyChecked::Sysv(table)),
            Checked::Faulty(fault) => Checked::Faulty(fault),
        },
        HashKind::Gnu => match check_gnu_counted(order, class, bytes, symbols, strings, reads)? {
            Checked::Sound(table) => Checked::Sound(AnyChecked::Gnu(table)),
            Checked::Faulty(fault) => Checked::Faulty(fault),
        },
    })
}

/// `check KIND ORDER CLASS SECTION SYMBOLS STRINGS LEAST MOST NAME..`: how many symbols the section indexes and what it
/// finds for each name if it is sound, its fault if it is not, or the error; and whether from LEAST to MOST symbols
/// were read for it.
/// `verdict ..`: the same without the fault, for a section that has several.
pub(crate) fn show_check(rt: &HostRuntime, is_fault_named: bool, words: &mut Words<'_>) -> Shown {
    let section = section_of(rt, words);
    let (least, most): (u64, u64) = (words.number(), words.number());
    let names = words.rest();
    let mut reads = Reads::new();
    match counted(&section, &mut reads) {
        Ok(Checked::Sound(table)) => {
            print!(rt; "sound indexed {}", table.indexed())?;
            for name in names {
                print!(rt; "; {name} {:?}", table.find(name.as_bytes()))?;
            }
        }
        Ok(Checked::Faulty(fault)) if is_fault_named => print!(rt; "faulty {fault:?}")?,
        Ok(Checked::Faulty(_)) => print!(rt; "faulty")?,
        Err(error) => print!(rt; "{error:?}, {error}")?,
    }
    let count = reads.count();
    if least <= count && count <= most {
        print!(rt; "; reads from {least} to {most}")?;
    } else {
        print!(rt; "; reads {count}, not from {least} to {most}")?;
    }
    Ok(())
}

/// `all KIND ORDER CLASS SECTION SYMBOLS STRINGS NAME..`: the index and the value of each indexed symbol of each name,
/// in the order in which they are found, where the section is sound.
pub(crate) fn show_all(rt: &HostRuntime, words: &mut Words<'_>) -> Shown {
    let section = section_of(rt, words);
    let names = words.rest();
    let (order, class) = (section.order, section.class);
    let bytes = section.bytes.as_slice();
    let symbols = SymbolTable::new(order, class, section.symbols.as_slice());
    let strings = StringTable::new(section.strings.as_slice());
    match check_any(section.kind, order, class, bytes, symbols, strings)? {
        Checked::Sound(table) => {
            for name in names {
                print!(rt; "{name}")?;
                for (index, symbol) in table.find_all(name.as_bytes()) {
                    print!(rt; " {index}={}", symbol.st_value)?;
                }
                print!(rt; ";")?;
            }
        }
        Checked::Faulty(fault) => print!(rt; "faulty {fault:?}")?,
    }
    Ok(())
}
