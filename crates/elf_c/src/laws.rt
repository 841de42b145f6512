//! Laws of files that are loaded in part, of files that lie in memory, and of those that `nugwier_check` calls sound.
//! They are theorems: each is the contract of a function that does nothing for its caller.
ghost use Rattle.std.specs.Prelude.{◌≡◌, ℕ, All, List, Ok, false, length};
ghost use Rattle.std.specs.Option.{option_map};
ghost use Rattle.elf_records.specs.Endian.{any_is_little};
ghost use Rattle.elf_reading.specs.Cache.{IsOf};
ghost use Rattle.elf.specs.Answers.{first_symbols};
ghost use Rattle.elf.specs.LoadedRanges.{is_missing};
ghost use Rattle.elf_check.specs.Sound.{SoundFile};
ghost use Rattle.elf_check.specs.Whole.{whole_symbols, whole_view};
ghost use Rattle.elf_c.specs.Check.{AreSectionsRead, AreSymbolsRead};
ghost use Rattle.elf_c.specs.File.{IsWhole, file_of_c, file_over};
ghost use Rattle.elf_c.specs.Follows.{AreFollowed};
ghost use Rattle.elf_c.specs.Loaded.{loaded_of_c, parts_of_c, ranges_of_c};
ghost use Rattle.elf_c.specs.Symbols.{symbols_type};

use crate::file::{NugwierFile, file_in};
use elf::readers::sections_are_listed;
use elf_check::faults::FileVerdict;
use elf_check::{WholeFile, WholeSymbols, check_file};
use elf_parts::endian::AnyEndian;

/// States that a call about a file returns what it returns about the whole file, or names a range that is missing, if what
/// is loaded are the bytes that the file has there. Such a range lies in the file, has bytes, and lies within none of the
/// loaded ranges.
pub fn parts_answer_as_whole(file: &NugwierFile<'_>)
    ensures { (bytes : List ℕ) → file.now.size ≡ length bytes → All (IsOf bytes) (parts_of_c file.now)
        → AreFollowed (is_missing file.now.size (parts_of_c file.now)) (file_over file.now bytes)
        (loaded_of_c file.now) }
{
    let _ = &file.size;
}

/// States that a call about a file that lies in memory, as one that `nugwier_open` has opened, returns what it returns
/// about these bytes, with the same status: none is missing. So `nugwier_check` checks these bytes.
pub fn whole_file_is_loaded(file: &NugwierFile<'_>)
    ensures calls { IsWhole file.now → AreFollowed (λ _. false) (file_of_c file.now) (loaded_of_c file.now) }
    ensures check { IsWhole file.now → ranges_of_c file.now 0 file.now.size ≡ Ok file.now.bytes.now }
{
    let _ = &file.size;
}

/// Of a file in memory that `nugwier_check` calls sound these calls return `NUGWIER_OK`: `nugwier_section_names`;
/// `nugwier_section_by_name`, whatever the name; `nugwier_section` for each index below the number of sections; and for
/// each section `nugwier_section_data`, and `nugwier_string` at the offset of its name, if there are names.
pub fn sections_are_read(file: &NugwierFile<'_>)
    ensures { let whole = file_of_c file.now in SoundFile whole → AreSectionsRead whole }
{
    sections_are_listed(&file_in(file));
}

// The symbols of a file that was checked.
fn whole_symbols<'data>(
    whole: &WholeFile<'_, 'data, AnyEndian>,
    dynamic: bool,
) -> Option<WholeSymbols<'data, AnyEndian>>
    ensures { first_symbols (symbols_type dynamic) (whole_view any_is_little whole.now)
        ≡ Ok (option_map whole_symbols result) }
{
    if dynamic {
        whole.dynamic_symbols()
    } else {
        whole.symbols()
    }
}

/// Of a file in memory that `nugwier_check` calls sound these calls return `NUGWIER_OK`: `nugwier_version_table`;
/// `nugwier_symbol_table`; and, if there are symbols, `nugwier_symbol` for each index below their number, and
/// `nugwier_string` at the offset of the name of each.
pub fn symbols_are_read(file: &NugwierFile<'_>, dynamic: bool, index: usize)
    ensures { let whole = file_of_c file.now in SoundFile whole → AreSymbolsRead whole dynamic index }
{
    if let FileVerdict::Sound(whole) = check_file(&file_in(file)) {
        let _ = whole.versions();
        if let Some(symbols) = whole_symbols(&whole, dynamic) {
            let _ = symbols.get(index);
        }
    }
}
