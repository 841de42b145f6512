//! What is said of what the symbols of a file bind to.
ghost use Rattle.std.specs.Prelude.{◌≡◌, ◌++◌, IfOk, List, OnOk, map, slice_get};
ghost use Rattle.std.specs.List.{flat_map, zip};
ghost use Rattle.std.specs.Option.{option_copied, option_map};
ghost use Rattle.elf_records.specs.Number.{ok_map};
ghost use Rattle.elf_records.specs.Table.{table_view};
ghost use Rattle.elf_linking.specs.SymbolBindings.{AreAllBound};
ghost use Rattle.elf_linking.specs.declared.bindings.kinds.SymbolBinding.{SymbolBinding as IsBinding};
ghost use Rattle.elf_linking.specs.DynamicFile.{dynamic_uses};
ghost use Rattle.nugwier_programs.specs.Bindings.{AreSymbolsSaid, AreUses, file_heading, file_uses, looked_up};
ghost use Rattle.nugwier_programs.specs.Bindings.{uses_problem};
ghost use Rattle.nugwier_programs.specs.Symbols.{calls_word, one_problems, one_said, outcome_problem, quoted};
ghost use Rattle.nugwier_programs.specs.Symbols.{reference_problem, reference_said, symbol_problems, symbol_said};
ghost use Rattle.nugwier_programs.specs.inner.Scope.{file_view, indexed_view, open_at, scope_paths, versions_of};
ghost use Rattle.nugwier_programs.specs.BindingRows.{bound_view};
ghost use Rattle.nugwier_report.specs.Said.{Said, saying};

use crate::binding_rows::{BoundSymbol, Place, tell_binding};
use crate::bindings::objects::BoundFile;
use crate::bindings::targets::{Outcome, Scope, Versions, address_place, bound_symbol};
use crate::faults::{Fault, QuotedSymbol, UnknownBinding};
use crate::tree::FILE;
use elf::symbol::Symbol;
use elf_linking::bindings::Bound;
use elf_linking::bindings::kinds::{SymbolBinding, SymbolFault, bind_symbols, bound_symbols};
use elf_linking::bindings::uses::{NO_USES, SymbolUses, UsesError, uses_at};
use elf_linking::dynamic::add_dynamic_uses;
use nugwier_layouts::json::Value;
use nugwier_layouts::layouts;
use nugwier_report::problem::Stop;
use nugwier_report::quoted::Quoted;
use nugwier_report::tell::Tell;
use std::alloc::{AllocError, Global};

// A symbol that is bound, with its index, and what it binds to.
type BoundOne = ((usize, Symbol), SymbolBinding);

/// Says what each symbol of a file, whose object is at this place, binds to, and then what is missing or not known, for
/// people under a heading.
pub(crate) fn tell_file<T: Tell>(
    alloc: Global,
    scope: Scope<'_, '_, '_, '_>,
    place: usize,
    file: &BoundFile<'_>,
    tell: &mut T,
) -> Result<(), Stop>
    ensures { let opened = file_view file.now in
        let objects = scope.entry.objects.now in
        let versions = versions_of (option_map indexed_view (slice_get objects place)) in
        OnOk result ((said : List Said)
        × AreSymbolsSaid indexed_view objects (scope_paths scope.entry.files.now) (map indexed_view objects) opened.opened.path
        opened.symbols versions (file_uses opened.opened opened.symbols.0) said
        × (tell.new ≡ saying T.one tell.old (file_heading place opened.opened.path ++ said))) }
{
    let versions = scope.versions(place);
    tell_heading(place, file, tell)?;
    let found = uses_of(alloc, file, tell)?;
    let uses = found.as_slice();
    let bound = bind_all(alloc, scope, file, uses, versions)?;
    let bound = bound.as_slice();
    tell_bindings(scope, file, bound, uses, versions, tell)?;
    tell_problems(scope, file, bound, versions, tell)?;
    Ok(())
}

// The path of a file, for people, after an empty line unless the file is the first one.
fn tell_heading<T: Tell>(place: usize, file: &BoundFile<'_>, tell: &mut T) -> Result<(), Stop>
    ensures { OnOk result (tell.new ≡ saying T.one tell.old (file_heading place file.now.path.now)) }
{
    let layout = if place == 0 {
        &layouts::FILE_HEADING
    } else {
        &layouts::NEXT_FILE_HEADING
    };
    tell.state(layout, &[("path", Value::Text(Some(file.path)))])
}

// What the relocations of a file refer to. Says if they cannot be read.
fn uses_of<T: Tell>(
    alloc: Global,
    file: &BoundFile<'_>,
    tell: &mut T,
) -> Result<Vec<SymbolUses>, Stop>
    ensures uses { IfOk result (λ uses.
        AreUses (file_uses (open_at file.now.path.now file.now.file.now) (table_view file.now.symbols)) uses.items) }
    ensures said { OnOk result (tell.new ≡ saying T.one tell.old
        (uses_problem file.now.path.now (file_uses (open_at file.now.path.now file.now.file.now) (table_view file.now.symbols)))) }
{
    let mut uses = vec![in alloc; NO_USES; file.symbols.len()]?;
    read_uses(file, &mut uses, tell)?;
    Ok(uses)
}

// Adds what the relocations of a file refer to.
fn loaded_uses(file: &BoundFile<'_>, uses: &mut [SymbolUses]) -> Result<(), UsesError>
    ensures { let opened = open_at file.now.path.now file.now.file.now in
        ok_map (λ _. uses.new) result ≡ dynamic_uses opened.machine opened.file uses.old }
{
    let linked = file.file;
    add_dynamic_uses(linked.ehdr.e_machine, linked, uses)
}

// Adds what the relocations of a file refer to, or says that they cannot be read.
fn read_uses<T: Tell>(
    file: &BoundFile<'_>,
    uses: &mut [SymbolUses],
    tell: &mut T,
) -> Result<(), Stop>
    ensures uses { let opened = open_at file.now.path.now file.now.file.now in
        let read = dynamic_uses opened.machine opened.file uses.old in
        OnOk result (AreUses read uses.new) }
    ensures said { let opened = open_at file.now.path.now file.now.file.now in
        let read = dynamic_uses opened.machine opened.file uses.old in
        OnOk result (tell.new ≡ saying T.one tell.old (uses_problem file.now.path.now read)) }
{
    match loaded_uses(file, uses) {
        Ok(()) => Ok(()),
        Err(error) => {
            let path = Quoted::new(file.path);
            tell.problem(FILE, &Fault::Relocations(path, error))
        }
    }
}

fn bind_all(
    alloc: Global,
    scope: Scope<'_, '_, '_, '_>,
    file: &BoundFile<'_>,
    uses: &[SymbolUses],
    versions: Option<&Versions<'_, '_>>,
) -> Result<Vec<BoundOne>, AllocError>
    ensures { let symbols = looked_up (table_view file.now.symbols) uses.now in
        IfOk result (λ bound. (bindings : List IsBinding) × (bound.items ≡ zip symbols bindings)
        × AreAllBound indexed_view scope.entry.objects.now file.now.strings
        (option_map (λ index. index.now) versions.entry) uses.now symbols bindings) }
{
    let symbols = bound_symbols(alloc, &file.symbols, uses)?;
    let bindings = bind_symbols(
        alloc,
        scope.objects,
        symbols.as_slice(),
        uses,
        &file.strings,
        versions,
    )?;
    paired(alloc, symbols, bindings)
}

// The symbols, each with what it binds to.
fn paired(
    alloc: Global,
    symbols: Vec<(usize, Symbol)>,
    bindings: Vec<SymbolBinding>,
) -> Result<Vec<BoundOne>, AllocError>
    ensures { IfOk result (λ bound. bound.items ≡ zip symbols.items bindings.items) }
{
    symbols.into_iter().zip(bindings).collect(alloc)
}

// Says what the symbols bind to.
fn tell_bindings<'n, T: Tell>(
    scope: Scope<'_, '_, '_, '_>,
    file: &BoundFile<'n>,
    bound: &[BoundOne],
    uses: &[SymbolUses],
    versions: Option<&'n Versions<'_, '_>>,
    tell: &mut T,
) -> Result<(), Stop>
    ensures { let said = one_said (scope_paths scope.entry.files.now) (map indexed_view scope.entry.objects.now)
        file.now.path.now file.now.strings (option_map (λ index. index.now) versions.entry) uses.now in
        OnOk result (tell.new ≡ saying T.one tell.old (flat_map said bound.now)) }
{
    for one in bound {
        let symbol = bound_symbol(file, versions, &one.0);
        tell_symbol(scope, &symbol, uses_at(uses, one.0.0), &one.1, tell)?;
    }
    Ok(())
}

// Says what is missing or not known.
fn tell_problems<'n, T: Tell>(
    scope: Scope<'_, '_, '_, '_>,
    file: &BoundFile<'n>,
    bound: &[BoundOne],
    versions: Option<&'n Versions<'_, '_>>,
    tell: &mut T,
) -> Result<(), Stop>
    ensures { let said = one_problems (scope_paths scope.entry.files.now) file.now.path.now file.now.strings
        (option_map (λ index. index.now) versions.entry) in
        OnOk result (tell.new ≡ saying T.one tell.old (flat_map said bound.now)) }
{
    for one in bound {
        tell_symbol_problems(scope, &bound_symbol(file, versions, &one.0), &one.1, tell)?;
    }
    Ok(())
}

// Says what a symbol binds to, by each kind of references. A function whose address is found elsewhere than its calls go
// has a line for each.
fn tell_symbol<T: Tell>(
    scope: Scope<'_, '_, '_, '_>,
    symbol: &BoundSymbol<'_>,
    uses: SymbolUses,
    binding: &SymbolBinding,
    tell: &mut T,
) -> Result<(), Stop>
    ensures { OnOk result (tell.new ≡ saying T.one tell.old (symbol_said (scope_paths scope.entry.files.now)
        (map indexed_view scope.entry.objects.now) (bound_view symbol.now) uses binding.now)) }
{
    let calls = &binding.jump_slot;
    let address = &binding.address;
    let place = address_place(calls, address);
    let copied = &binding.copied;
    tell_reference(scope, symbol, Place::First, calls_word(uses), calls, tell)?;
    tell_reference(scope, symbol, place, Some("address"), address, tell)?;
    tell_reference(scope, symbol, Place::First, Some("copy"), copied, tell)
}

// The kind of references that look-ups for calls are made for, if a relocation names the symbol.
fn calls_word(uses: SymbolUses) -> Option<&'static str>
    ensures { option_copied result ≡ calls_word uses }
{
    uses.jump_slot.then_some("jump_slot")
}

fn tell_reference<T: Tell>(
    scope: Scope<'_, '_, '_, '_>,
    symbol: &BoundSymbol<'_>,
    place: Place,
    reference: Option<&'static str>,
    outcome: &Option<Outcome>,
    tell: &mut T,
) -> Result<(), Stop>
    ensures { OnOk result (tell.new ≡ saying T.one tell.old (reference_said (scope_paths scope.entry.files.now)
        (map indexed_view scope.entry.objects.now) (bound_view symbol.now) place (option_copied reference.entry) outcome.now)) }
{
    match outcome {
        Some(outcome) => tell_binding(symbol, place, reference, &scope.target(outcome), tell),
        None => Ok(()),
    }
}

// Says what is missing or not known of a symbol.
fn tell_symbol_problems<T: Tell>(
    scope: Scope<'_, '_, '_, '_>,
    symbol: &BoundSymbol<'_>,
    binding: &SymbolBinding,
    tell: &mut T,
) -> Result<(), Stop>
    ensures { OnOk result (tell.new ≡ saying T.one tell.old
        (symbol_problems (scope_paths scope.entry.files.now) (bound_view symbol.now) binding.now)) }
{
    let calls = &binding.jump_slot;
    let address = &binding.address;
    tell_reference_problem(scope, symbol, Place::First, calls, tell)?;
    tell_reference_problem(scope, symbol, address_place(calls, address), address, tell)?;
    tell_reference_problem(scope, symbol, Place::First, &binding.copied, tell)
}

// What is the same for the calls is told with these.
fn tell_reference_problem<T: Tell>(
    scope: Scope<'_, '_, '_, '_>,
    symbol: &BoundSymbol<'_>,
    place: Place,
    outcome: &Option<Outcome>,
    tell: &mut T,
) -> Result<(), Stop>
    ensures { OnOk result (tell.new ≡ saying T.one tell.old
        (reference_problem (scope_paths scope.entry.files.now) (bound_view symbol.now) place outcome.now)) }
{
    let Some(outcome) = outcome else {
        return Ok(());
    };
    match place {
        Place::Same => Ok(()),
        Place::First | Place::Elsewhere => tell_outcome(scope, symbol, outcome, tell),
    }
}

fn tell_outcome<T: Tell>(
    scope: Scope<'_, '_, '_, '_>,
    symbol: &BoundSymbol<'_>,
    outcome: &Outcome,
    tell: &mut T,
) -> Result<(), Stop>
    ensures { OnOk result (tell.new ≡ saying T.one tell.old
        (outcome_problem (scope_paths scope.entry.files.now) (bound_view symbol.now) outcome.now)) }
{
    let path = Quoted::new(symbol.path);
    match outcome {
        Ok(Bound::Missing) => tell.problem(FILE, &Fault::MissingSymbol(path, quoted(symbol))),
        Ok(_) => Ok(()),
        Err(SymbolFault::Object(version)) => {
            let other = Quoted::new(scope.path(version.object));
            let told = Fault::UnknownVersion(path, quoted(symbol), other, version.symbol);
            tell.problem(FILE, &told)
        }
        Err(fault) => {
            let unknown = UnknownBinding::new(fault);
            tell.problem(FILE, &Fault::UnknownSymbol(path, quoted(symbol), unknown))
        }
    }
}

fn quoted<'a>(symbol: &BoundSymbol<'a>) -> QuotedSymbol<'a>
    ensures { result ≡ quoted (bound_view symbol.now) }
{
    QuotedSymbol {
        name: quoted_if(symbol.name),
        version: quoted_if(symbol.version),
    }
}

fn quoted_if(text: Option<&[u8]>) -> Option<Quoted<'_>>
    ensures { result ≡ option_copied text.entry }
{
    match text {
        Some(text) => Some(Quoted::new(text)),
        None => None,
    }
}
