//! Laws of files that were checked: of their faults, of their listing, and of look-ups over them; that files as the
//! standard lays them out are read back (`written`), that hash sections as linkers fill them are sound (`built`), and
//! which of two objects a reference binds to (`binding`); and the promises of the library on one page (`headline`). They
//! are theorems for the proofs of callers. Each is the contract of a function that computes nothing; a caller uses the
//! law by calling it. `checked_object` makes the objects of a look-up, and `asked` the calls of which the laws of both
//! readers speak. `found` checks the hash section of a file, or of each of a list of files, and looks a name up. `listed`
//! runs the calls of a listing by both readers. `steps` makes lists of calls of a
//! stream, with those that load ranges, and closes it.
#![tactic(auto)]

pub mod asked;
pub mod binding;
pub mod built;
pub mod found;
pub mod headline;
pub mod listed;
pub mod steps;
pub mod written;

ghost use Rattle.std.specs.Prelude.{◌≡◌, List, Ok};
ghost use Rattle.std.specs.List.{AllByRecursion};
ghost use Rattle.elf.specs.ObjectFile.{ObjectFile};
ghost use Rattle.elfshow.specs.Question.{DynSyms, Question, Symbols, Versions};
ghost use Rattle.elfshow.specs.Text.{text};
ghost use Rattle.elf_records.specs.declared.file.FileHeader.{FileHeader as IsFileHeader};
ghost use Rattle.elf_check.specs.AllFaults.{AreAllFaults};
ghost use Rattle.elf_check.specs.Faults.{IsTrueOfFile};
ghost use Rattle.elf_check.specs.declared.faults.FileFault.{FileFault};
ghost use Rattle.elf_check.specs.Whole.{whole_view};
ghost use Rattle.elf_parts.specs.gnu_symver.Table.{versions_view};
ghost use Rattle.elf_linking.specs.BindingObjects.{GivesVersioned};
ghost use Rattle.elf_linking.specs.VersionedView.{versioned_view};
ghost use Rattle.elf_laws.specs.Bindings.{AreOfSound, BindsAll, GivesSound, LooksUpDynamic};
ghost use Rattle.elf_laws.specs.Answers.{IsAnswered, IsFitting, sure_texts};

use elf::endian::EndianParse;
use elf::gnu_symver::SymbolVersions;
use elf::readers::sections_are_listed;
use elf_check::WholeFile;
use elf_hash_check::hashcheck::laws::one_first_fault;
use elf_linking::resolve::ObjectFault;
use elf_linking::{VersionedObject, versioned_object};

// The call `symbols`.
fn symbols_are_answered<E: EndianParse>(file: &WholeFile<'_, '_, E>)
    ensures { (header : IsFileHeader E) → IsAnswered header (whole_view E.little file.now) Symbols }
{
    match file.symbols() {
        Some(symbols) => {
            let _ = symbols.iter();
        }
        None => {}
    }
}

// The call `dynsyms`.
fn dynamic_symbols_are_answered<E: EndianParse>(file: &WholeFile<'_, '_, E>)
    ensures { (header : IsFileHeader E) → IsAnswered header (whole_view E.little file.now) DynSyms }
{
    match file.dynamic_symbols() {
        Some(symbols) => {
            let _ = symbols.iter();
        }
        None => {}
    }
}

// The call `versions`.
fn versions_are_answered<E: EndianParse>(file: &WholeFile<'_, '_, E>)
    ensures { (header : IsFileHeader E) → IsAnswered header (whole_view E.little file.now) Versions }
{
    let _ = file.file();
    match file.versions() {
        Some(versions) => match file.dynamic_symbols() {
            Some(symbols) => {
                let _ = versions.len();
                let _ = symbols.iter();
            }
            None => {}
        },
        None => {
            let _ = file.dynamic_symbols();
        }
    }
}

/// Of a file that was checked every call of the listing has an answer, if the section or segment that it names is of
/// the type that the call reads, or there is none: no such call writes `refused`. The answer is `sure_answer`: the lines
/// of `sections`, `symbols` and `dynsyms` have their names and none says `badname`, those of `versions` have their names
/// and none says `badneed`, `baddef` or `badname`, and of a hash section the line is `sound indexed=` with the number of
/// its symbols.
///
/// `IsFitting` says what a call is to name. A segment is to have bytes in the file; a hash section is to be linked to
/// dynamic symbols, since the calls `sysv` and `gnu` check it for these.
pub fn calls_are_answered<E: EndianParse>(file: &WholeFile<'_, '_, E>)
    ensures { let whole = whole_view E.little file.now in
        (header : IsFileHeader E) (call : Question) → IsFitting whole call → IsAnswered header whole call }
{
    sections_are_listed(file.file());
    symbols_are_answered(file);
    dynamic_symbols_are_answered(file);
    versions_are_answered(file);
}

/// Of a file that was checked the text of a list of such calls is the joined text of their answers, in order.
pub fn texts_are_answered<E: EndianParse>(file: &WholeFile<'_, '_, E>)
    ensures { let whole = whole_view E.little file.now in
        (header : IsFileHeader E) (calls : List Question) → AllByRecursion (IsFitting whole) calls →
        sure_texts header whole calls ≡ Ok (text header whole calls) }
{
    calls_are_answered(file);
}

/// A file has at most one first fault: two faults that are true of it, by `IsTrueOfFile`, are equal. So `check_file`
/// cannot return another one.
pub fn one_fault_of_a_file()
    ensures { (file : ObjectFile) (one other : FileFault) →
        IsTrueOfFile file one → IsTrueOfFile file other → one ≡ other }
{
    one_first_fault();
}

/// A file has one list of all faults: two lists for which `AreAllFaults` holds are equal. So `all_faults` cannot return
/// another one.
pub fn one_list_of_faults()
    ensures { (file : ObjectFile) (one other : List FileFault) →
        AreAllFaults file one → AreAllFaults file other → one ≡ other }
{
    one_first_fault();
}

/// What a reference binds to is known, if each object of a list is the hash table of a file that is sound with the
/// versions of its symbols: `bind` and `bind_for` over these objects return no error, whatever the kind, the name and
/// the version.
pub fn references_bind<E: EndianParse, V: SymbolVersions<E>>(objects: &[VersionedObject<'_, E, V>])
    ensures { AreOfSound (versioned_view V.versions) objects.now → BindsAll (versioned_view V.versions) objects.now }
{}

/// Returns the object that a file that was checked is in a look-up, as `versioned_object` does, or `None` exactly if the
/// file has no hash section. There is no error if that hash section is linked to dynamic symbols
/// (`LooksUpDynamic`), and `references_bind` is true of the object.
pub fn checked_object<'data, E: EndianParse>(
    file: &WholeFile<'_, 'data, E>,
) -> Result<Option<VersionedObject<'data, E>>, ObjectFault>
    ensures given { GivesVersioned (versioned_view versions_view) (whole_view E.little file.now) result }
    ensures sound { LooksUpDynamic (whole_view E.little file.now) → GivesSound (versioned_view versions_view) result }
{
    sections_are_listed(file.file());
    versioned_object(file.file())
}
