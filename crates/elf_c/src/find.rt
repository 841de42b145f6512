//! Look-ups by name in hash sections, and the check of hash sections.
ghost use Rattle.std.specs.Prelude.{◌≡◌, IfOk};
ghost use Rattle.elf_c.specs.Find.{found_shown, gnu_found, sysv_found};
ghost use Rattle.elf_c.specs.Sound.{FindsFirst, FindsLeast, IsVerdict, gnu_object, hash_object, sysv_object};
ghost use Rattle.elf_c.specs.Status.{done, status_of, written};

use crate::hash_tables::{gnu_opened, nugwier_gnu_look_up, nugwier_sysv_look_up, sysv_opened};
use crate::records::NugwierSymbol;
use crate::status::{NugwierStatus, done, refused};
use crate::table::{ForC, NugwierTable, class_in, order_in, records_in};
use elf_hash_check::hashcheck::laws::{gnu_find_on_sound, sysv_find_on_sound};
use elf_hash_check::hashcheck::{Checked, HashKind, check_any};
use elf_parts::parse::ParseError;
use elf_parts::string_table::StringTable;
use elf_parts::symbol::Symbol;

/// A symbol that was looked up, and its index. If there is none, all numbers are 0.
#[repr(C)]
#[derive(Clone, Copy, Default)]
pub struct NugwierFound {
    pub found: bool,
    pub index: usize,
    pub symbol: NugwierSymbol,
}

// What was found, as C sees it.
pub(crate) fn found_shown(found: &Option<(usize, Symbol)>) -> NugwierFound
    ensures { result ≡ found_shown found.now }
{
    match found {
        Some((index, symbol)) => NugwierFound {
            found: true,
            index: *index,
            symbol: symbol.show(),
        },
        None => NugwierFound::default(),
    }
}

// Writes what was found. Where nothing is, the compiler writes zeros at once; an answer it writes field by field.
#[inline(always)]
pub(crate) fn write_answer(
    answer: Option<(usize, Symbol)>,
    place: &mut NugwierFound,
) -> NugwierStatus
    ensures status { result ≡ done }
    ensures place { place.new ≡ found_shown answer }
{
    match answer {
        Some(found) => *place = found_shown(&Some(found)),
        None => *place = found_shown(&None),
    }
    done()
}

// Writes what was found, if that is no error, and returns the status.
#[inline(always)]
pub(crate) fn write_found(
    answer: &Result<Option<(usize, Symbol)>, ParseError>,
    place: &mut NugwierFound,
) -> NugwierStatus
    ensures status { result ≡ status_of answer.now }
    ensures place { place.new ≡ written found_shown place.old answer.now }
{
    match answer {
        Ok(found) => {
            *place = found_shown(found);
            done()
        }
        Err(error) => refused(error),
    }
}

/// Looks a name up in a GNU hash section, for these symbols and their strings. An error leaves `found` as it is; the
/// errors are those of `GnuHashTable::new`, then those of its `find`. On a section that `nugwier_hash_check` calls
/// sound there is no error, and the symbol is the one with the least index of all that the section indexes and that
/// have the name.
#[unsafe(no_mangle)]
pub extern "C" fn nugwier_gnu_find(
    section: &[u8],
    symbols: &NugwierTable<'_>,
    strings: &[u8],
    name: &[u8],
    found: &mut NugwierFound,
) -> NugwierStatus
    ensures status { result ≡ status_of (gnu_found section.now symbols.now strings.now name.now) }
    ensures found { found.new ≡ written found_shown found.old
        (gnu_found section.now symbols.now strings.now name.now) }
    ensures least { IfOk (gnu_object section.now symbols.now strings.now)
        (λ s. FindsLeast s name.now result found.new) }
{
    gnu_find_on_sound(section);
    match gnu_opened(symbols.little, symbols.is_64, section) {
        Ok(gnu) => nugwier_gnu_look_up(&gnu, symbols, strings, name, found),
        Err(error) => refused(&error),
    }
}

/// Looks a name up in a SysV hash section, for these symbols and their strings. An error leaves `found` as it is; the
/// errors are those of `SysVHashTable::new`, then those of its `find`. On a section that `nugwier_hash_check` calls
/// sound there is no error, and the symbol is the first one with the name along its chain.
#[unsafe(no_mangle)]
pub extern "C" fn nugwier_sysv_find(
    section: &[u8],
    symbols: &NugwierTable<'_>,
    strings: &[u8],
    name: &[u8],
    found: &mut NugwierFound,
) -> NugwierStatus
    ensures status { result ≡ status_of (sysv_found section.now symbols.now strings.now name.now) }
    ensures found { found.new ≡ written found_shown found.old
        (sysv_found section.now symbols.now strings.now name.now) }
    ensures first { IfOk (sysv_object section.now symbols.now strings.now)
        (λ s. FindsFirst s name.now result found.new) }
{
    sysv_find_on_sound(section);
    match sysv_opened(symbols.little, symbols.is_64, section) {
        Ok(sysv) => nugwier_sysv_look_up(&sysv, symbols, strings, name, found),
        Err(error) => refused(&error),
    }
}

/// What a check says of a hash section: whether it is sound, and then how many symbols it indexes, otherwise 0.
#[repr(C)]
#[derive(Clone, Copy)]
pub struct NugwierVerdict {
    pub sound: bool,
    pub indexed: usize,
}

/// Checks a hash section, of GNU or of SysV, for these symbols and their strings. An error leaves `verdict` as it is;
/// the errors are those of `GnuHashTable::new` and `SysVHashTable::new`.
#[unsafe(no_mangle)]
pub extern "C" fn nugwier_hash_check(
    gnu: bool,
    section: &[u8],
    symbols: &NugwierTable<'_>,
    strings: &[u8],
    verdict: &mut NugwierVerdict,
) -> NugwierStatus
    ensures status { result ≡ status_of (hash_object gnu section.now symbols.now strings.now) }
    ensures verdict { IsVerdict verdict.new verdict.old (hash_object gnu section.now symbols.now strings.now) }
{
    let kind = if gnu { HashKind::Gnu } else { HashKind::Sysv };
    match check_any(
        kind,
        order_in(symbols.little),
        class_in(symbols.is_64),
        section,
        records_in(symbols),
        StringTable::new(strings),
    ) {
        Ok(Checked::Sound(table)) => {
            *verdict = NugwierVerdict {
                sound: true,
                indexed: table.indexed(),
            };
            done()
        }
        Ok(Checked::Faulty(_)) => {
            *verdict = NugwierVerdict {
                sound: false,
                indexed: 0,
            };
            done()
        }
        Err(error) => refused(&error),
    }
}
