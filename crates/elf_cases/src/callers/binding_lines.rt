//! What the references of a list of libraries bind to, as lines.
use elf::endian::AnyEndian;
use elf::string_table::StringTable;
use elf::symbol::Symbol;
use elf::{ElfBytes, ParseError};
use elf_linking::bindings::{Bound, IndexedObject, bind_reference, references, with_index};
use elf_linking::{Unreadable, VersionedObject, Wanted, indexed, reference, versioned_object};
use std::alloc::Global;
use std::io;
use std::io::Write;

/// A library, or why its file could not be opened.
pub(super) type Opened<'data> = Result<ElfBytes<'data, AnyEndian>, ParseError>;

/// The objects in which references are bound, and for each object the place of its library in the list of libraries.
#[derive(Drop)]
struct Scope<'a, 'data> {
    objects: &'a [IndexedObject<'a, 'data, AnyEndian>],
    places: &'a [usize],
}

/// Prints which libraries are no objects, and what each reference of each library binds to.
pub(super) fn print_bindings<W: Write>(
    alloc: Global,
    out: &mut W,
    libraries: &[Opened<'_>],
) -> io::Result<()> {
    let mut tables = Vec::new(alloc);
    let mut versions = Vec::new(alloc);
    let mut places = Vec::new(alloc);
    for (place, library) in libraries.iter().enumerate() {
        if let Some(object) = print_object(out, place, library)? {
            tables.push(object.table)?;
            versions.push(object.versions)?;
            places.push(place)?;
        }
    }
    let mut objects = Vec::new(alloc);
    for (table, versions) in tables.into_iter().zip(&versions) {
        objects.push(with_index(alloc, table, versions.as_ref())?)?;
    }
    let scope = Scope {
        objects: objects.as_slice(),
        places: places.as_slice(),
    };
    for (place, library) in libraries.iter().enumerate() {
        if let Ok(library) = library {
            print_bindings_of(alloc, out, &scope, place, library)?;
        }
    }
    Ok(())
}

/// Returns the object of a library, or prints why there is none.
fn print_object<'a, W: Write>(
    out: &mut W,
    place: usize,
    library: &Opened<'a>,
) -> io::Result<Option<VersionedObject<'a, AnyEndian>>> {
    let library = match library {
        Ok(library) => library,
        Err(error) => {
            writeln!(out, "object {place}: {error}")?;
            return Ok(None);
        }
    };
    match versioned_object(library) {
        Ok(Some(object)) => Ok(Some(object)),
        Ok(None) => {
            writeln!(out, "object {place}: no hash section")?;
            Ok(None)
        }
        Err(fault) => {
            writeln!(out, "object {place}: {fault}")?;
            Ok(None)
        }
    }
}

fn print_bindings_of<W: Write>(
    alloc: Global,
    out: &mut W,
    scope: &Scope<'_, '_>,
    place: usize,
    library: &ElfBytes<'_, AnyEndian>,
) -> io::Result<()> {
    let Ok(Some((symbols, strings))) = library.dynamic_symbol_table() else {
        return Ok(());
    };
    let Ok(versions) = library.symbol_version_table() else {
        return Ok(());
    };
    let versions = indexed(alloc, versions.as_ref())?;
    for (index, symbol) in &references(alloc, &symbols)? {
        write!(out, "object {place}: symbol {index} ")?;
        let wanted = reference(versions.as_ref(), *index);
        print_bound(out, scope, symbol, &strings, wanted)?;
    }
    Ok(())
}

fn print_bound<W: Write>(
    out: &mut W,
    scope: &Scope<'_, '_>,
    symbol: &Symbol,
    strings: &StringTable<'_>,
    wanted: Result<Wanted<'_>, Unreadable>,
) -> io::Result<()> {
    let name = match strings.get_raw(symbol.st_name as usize) {
        Ok(name) => name,
        Err(error) => return writeln!(out, "({error})"),
    };
    out.write_all(name)?;
    let wanted = match wanted {
        Ok(wanted) => wanted,
        Err(error) => return writeln!(out, ": {error}"),
    };
    if let Wanted::Compatible(version) | Wanted::Only(version) = &wanted {
        write!(out, "@{}", version.name)?;
    }
    match bind_reference(scope.objects, symbol, name, &wanted) {
        Ok(bound) => print_bound_to(out, scope.places, &bound),
        Err(fault) => {
            let place = place_of(scope.places, fault.object);
            let symbol = fault.symbol;
            writeln!(
                out,
                ": object {place}: version of symbol {symbol} cannot be read"
            )
        }
    }
}

fn print_bound_to<W: Write>(out: &mut W, places: &[usize], bound: &Bound) -> io::Result<()> {
    match bound {
        Bound::To { object, symbol } => {
            let place = place_of(places, *object);
            writeln!(out, ": object {place}, symbol {symbol}")
        }
        Bound::Weak => writeln!(out, ": weak and unbound"),
        Bound::Missing => writeln!(out, ": missing"),
    }
}

/// The place of an object's library in the list of libraries.
fn place_of(places: &[usize], object: usize) -> usize {
    places.get(object).copied().unwrap_or(object)
}
