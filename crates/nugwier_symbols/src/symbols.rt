//! The symbols of a file.
#![tactic(auto, using(nugwier_report::proofs::Saying::saying_both))]

ghost use Rattle.std.specs.Prelude.{◌≡◌, ℕ, true, List, Ok, Some, IfOk, OnOk};
ghost use Rattle.std.specs.Option.{option_map};
ghost use Rattle.elf.specs.Answers.{symbols_view};
ghost use Rattle.elf_parts.specs.gnu_symver.Table.{versions_view};
ghost use Rattle.elf_records.specs.Number.{ok_map};
ghost use Rattle.elf_records.specs.Table.{table_view};
ghost use Rattle.elf_records.specs.declared.symbol.Symbol.{Symbol as SymbolView};
ghost use Rattle.nugwier_report.specs.Reading.{fault_said, if_read};
ghost use Rattle.nugwier_symbols.specs.Symbols.{AreAllSaid, AreExportsSaid, AreLinkedSaid, AreSymbolsSaid};
ghost use Rattle.nugwier_symbols.specs.Symbols.{AreTableSaid, IsByKey, IsOrdered, heading_said, none_said, order_key};
ghost use Rattle.nugwier_symbols.specs.Symbols.{rows_of, rows_said, said_of_dynamic_symbols, said_of_symbols};
ghost use Rattle.nugwier_report.specs.Whole.{file_of};
ghost use Rattle.nugwier_report.specs.Said.{IsToldAs, Said, saying, whole};
ghost use Rattle.nugwier_symbols.specs.SymbolRows.{form_view, order_of};
ghost use Rattle.nugwier_report.specs.declared.problem.Part.TheVariants.{Versions as VersionPart};

use crate::symbol_options::{SymbolOptions, SymbolOrder};
use crate::symbol_rows::{Form, Names, SymbolRow};
use elf::endian::EndianParse;
use elf::gnu_symver::{SymbolVersionTable, SymbolVersions};
use elf::laws::tables::iter_gives_len_records;
use elf::string_table::TerminatedStrings;
use elf::symbol::{Symbol, SymbolTable};
use elf_linking::indexed;
use nugwier_layouts::layouts;
use nugwier_report::headings::count_members;
use nugwier_report::linked::{FoundVersions, linked_symbols, linked_versions};
use nugwier_report::listed::ListedFile;
use nugwier_report::problem::{Fault, Part, Stop};
use nugwier_report::reading;
use nugwier_report::reading::{FoundSymbols, Symbols};
use nugwier_report::rows::{Renumbered, tell_records, tell_slice};
use nugwier_report::tell::Tell;
use std::alloc::{AllocError, Global};
use std::marker::PhantomData;

/// Tells the symbols of the section of type `SHT_SYMTAB`, with all their fields.
pub fn tell_symbols<E: EndianParse, R: ListedFile<E>, T: Tell>(
    alloc: Global,
    file: &R,
    tell: &mut T,
) -> Result<(), Stop>
    ensures { OnOk result (tell.new ≡ saying T.one tell.old
        (said_of_symbols (file_of (R.file file.now) (R.bytes file.now)))) }
{
    let found = reading::symbols(file)?;
    tell_table(alloc, Part::Symbols, Form::Fields, found, Ok(None), tell)
}

/// Tells the dynamic symbols, with all their fields.
pub fn tell_dynamic_symbols<E: EndianParse, R: ListedFile<E>, T: Tell>(
    alloc: Global,
    file: &R,
    tell: &mut T,
) -> Result<(), Stop>
    ensures { OnOk result (tell.new ≡ saying T.one tell.old
        (said_of_dynamic_symbols (file_of (R.file file.now) (R.bytes file.now)))) }
{
    tell_linked(alloc, Form::Fields, file, tell)
}

/// Tells the symbols that the options ask for, with their values and letters.
pub fn tell_letters<E: EndianParse, R: ListedFile<E>, T: Tell>(
    alloc: Global,
    options: SymbolOptions,
    file: &R,
    tell: &mut T,
) -> Result<(), Stop>
    ensures { OnOk result (IsToldAs T.silent T.one
        (AreSymbolsSaid options (file_of (R.file file.now) (R.bytes file.now))) tell.old tell.new) }
{
    let form = Form::Letter {
        sections: file.section_list(),
        names: reading::name_bytes(file)?,
        options,
    };
    if options.is_dynamic {
        return tell_linked(alloc, form, file, tell);
    }
    let found = reading::symbols(file)?;
    tell_found(alloc, form, found, file, tell)
}

/// Tells what the file defines for others, or if the options ask for that only the functions.
pub fn tell_exports<E: EndianParse, R: ListedFile<E>, T: Tell>(
    alloc: Global,
    options: SymbolOptions,
    file: &R,
    tell: &mut T,
) -> Result<(), Stop>
    ensures { OnOk result (IsToldAs T.silent T.one
        (AreExportsSaid options (file_of (R.file file.now) (R.bytes file.now))) tell.old tell.new) }
{
    let functions_only = options.functions_only;
    tell_linked(alloc, Form::Export { functions_only }, file, tell)
}

// Tells the symbols that were found, or if there are none the dynamic ones.
fn tell_found<'f, E: EndianParse, R: ListedFile<E>, T: Tell>(
    alloc: Global,
    form: Form<'f>,
    found: FoundSymbols<'f, E>,
    file: &'f R,
    tell: &mut T,
) -> Result<(), Stop>
    ensures { OnOk result (IsToldAs T.silent T.one (AreAllSaid (form_view form.entry)
        (file_of (R.file file.now) (R.bytes file.now)) (ok_map (option_map symbols_view) found.entry))
        tell.old tell.new) }
{
    match found {
        Ok(None) => tell_linked(alloc, form, file, tell),
        found => tell_table(alloc, Part::Symbols, form, found, Ok(None), tell),
    }
}

// Tells the dynamic symbols, with their versions. One of whom nothing comes is as after anything.
fn tell_linked<'f, E: EndianParse, R: ListedFile<E>, T: Tell>(
    alloc: Global,
    form: Form<'f>,
    file: &'f R,
    tell: &mut T,
) -> Result<(), Stop>
    ensures told { OnOk result (IsToldAs T.silent T.one (AreLinkedSaid (form_view form.entry)
        (file_of (R.file file.now) (R.bytes file.now))) tell.old tell.new) }
    ensures silent { OnOk result (T.silent tell.old ≡ true → (said : List Said)
        → tell.new ≡ saying T.one tell.old said) }
{
    let found = linked_symbols(file)?;
    let versions = linked_versions(file)?;
    tell_table(alloc, Part::DynamicSymbols, form, found, versions, tell)
}

// Tells the symbols of a part that were found. One of whom nothing comes is as after anything.
#[tactic(auto, using(crate::proofs::Told::told_as, crate::proofs::Told::told_only, crate::proofs::Told::told_wrong, crate::proofs::Told::not_silent))]
fn tell_table<'f, E: EndianParse, T: Tell>(
    alloc: Global,
    part: Part,
    form: Form<'f>,
    found: FoundSymbols<'f, E>,
    versions: FoundVersions<'f, E>,
    tell: &mut T,
) -> Result<(), Stop>
    ensures told { OnOk result (IsToldAs T.silent T.one (AreTableSaid (form_view form.entry) part
        (ok_map (option_map versions_view) versions.entry) (ok_map (option_map symbols_view) found.entry))
        tell.old tell.new) }
    ensures silent { OnOk result (T.silent tell.old ≡ true → (said : List Said)
        → tell.new ≡ saying T.one tell.old said) }
{
    if tell.is_silent() {
        return Ok(());
    }
    match found {
        Ok(Some(symbols)) => tell_versioned(alloc, part, form, symbols, versions, tell),
        Ok(None) => tell_none(part, form, tell),
        Err(fault) => tell.problem(part.whole(), &fault),
    }
}

// It is wrong if there are no symbols, unless all fields are told.
fn tell_none<T: Tell>(part: Part, form: Form<'_>, tell: &mut T) -> Result<(), Stop>
    ensures { OnOk result (tell.new ≡ saying T.one tell.old (none_said (form_view form.entry) part)) }
{
    match form {
        Form::Fields => Ok(()),
        Form::Letter { .. } | Form::Export { .. } => tell.problem(part.whole(), &Fault::Missing),
    }
}

// Tells symbols by their versions, if these can be read.
fn tell_versioned<'f, E: EndianParse, T: Tell>(
    alloc: Global,
    part: Part,
    form: Form<'f>,
    symbols: Symbols<'f, E>,
    versions: FoundVersions<'f, E>,
    tell: &mut T,
) -> Result<(), Stop>
    ensures { OnOk result ((said : List Said) × AreTableSaid (form_view form.entry) part
        (ok_map (option_map versions_view) versions.entry) (Ok (Some (symbols_view symbols.entry))) said
        × (tell.new ≡ saying T.one tell.old said)) }
{
    let (table, strings) = symbols;
    let versions = known_versions(versions, tell)?;
    iter_gives_len_records(&table);
    tell_heading(part, form, table.len(), tell)?;
    let versions = indexed(alloc, versions.as_ref())?;
    let names = Names {
        part,
        strings: TerminatedStrings::new(&strings),
        versions,
        order: PhantomData,
    };
    tell_rows(alloc, &table, &SymbolRow { names, form }, tell)
}

/// Returns the versions if they can be read, or tells that they cannot.
pub fn known_versions<'f, E: EndianParse, T: Tell>(
    versions: FoundVersions<'f, E>,
    tell: &mut T,
) -> Result<Option<SymbolVersionTable<'f, E>>, Stop>
    ensures versions { IfOk result (λ known. option_map versions_view known
        ≡ if_read (ok_map (option_map versions_view) versions.entry)) }
    ensures wrong { OnOk result (tell.new ≡ saying T.one tell.old
        (fault_said (whole VersionPart) (ok_map (option_map versions_view) versions.entry))) }
{
    match versions {
        Ok(versions) => Ok(versions),
        Err(fault) => {
            tell.problem(Part::Versions.whole(), &fault)?;
            Ok(None)
        }
    }
}

// Tells the heading above all fields of symbols.
fn tell_heading<T: Tell>(part: Part, form: Form<'_>, count: usize, tell: &mut T) -> Result<(), Stop>
    ensures { OnOk result (tell.new ≡ saying T.one tell.old (heading_said (form_view form.entry) part count)) }
{
    match (form, part) {
        (Form::Fields, Part::Symbols) => {
            tell.state(&layouts::SYMBOLS_HEADING, &count_members(count))
        }
        (Form::Fields, _) => tell.state(&layouts::DYNAMIC_SYMBOLS_HEADING, &count_members(count)),
        (Form::Letter { .. } | Form::Export { .. }, _) => Ok(()),
    }
}

// Tells each symbol of a table, in the order of the form.
fn tell_rows<'f, E: EndianParse, V: SymbolVersions<E> + Drop, T: Tell>(
    alloc: Global,
    table: &SymbolTable<'f, E>,
    row: &SymbolRow<'f, E, V>,
    tell: &mut T,
) -> Result<(), Stop>
    ensures { let manner = form_view row.now.form in OnOk result ((rows : List (ℕ × SymbolView))
        × IsOrdered (order_of manner) (rows_of (table_view table.now)) rows
        × (tell.new ≡ saying T.one tell.old (rows_said manner row.now.names.part
        (option_map V.versions row.now.names.versions) rows row.now.names.strings))) }
{
    let order = row.form.order();
    match order {
        SymbolOrder::Table => tell_records(table.iter(), row, tell),
        SymbolOrder::Value | SymbolOrder::Size => {
            let rows = ordered(alloc, order, table)?;
            tell_slice(rows.as_slice(), &Renumbered(row), tell)
        }
    }
}

fn ordered<E: EndianParse>(
    alloc: Global,
    order: SymbolOrder,
    table: &SymbolTable<'_, E>,
) -> Result<Vec<(usize, Symbol)>, AllocError>
    ensures { IfOk result (λ rows. IsByKey (order_key order) (rows_of (table_view table.now)) rows.items) }
{
    let mut rows = numbered(alloc, table)?;
    rows.sort_by_key(|one| order_key(order, &one.1))?;
    Ok(rows)
}

fn numbered<E: EndianParse>(
    alloc: Global,
    table: &SymbolTable<'_, E>,
) -> Result<Vec<(usize, Symbol)>, AllocError>
    ensures { IfOk result (λ rows. rows.items ≡ rows_of (table_view table.now)) }
{
    table.iter().enumerate().collect(alloc)
}

// What symbols are ordered by.
fn order_key(order: SymbolOrder, symbol: &Symbol) -> u128
    ensures { result ≡ order_key order symbol.now }
{
    match order {
        SymbolOrder::Table => 0,
        SymbolOrder::Value if symbol.is_undefined() => 0,
        SymbolOrder::Value => symbol.st_value as u128 + 1,
        SymbolOrder::Size => symbol.st_size as u128,
    }
}
