//! The symbols that a reference can bind to.
ghost use Rattle.std.specs.Prelude.{◌≡◌};
ghost use Rattle.elf_linking.specs.Binding.{has_definition_type, has_linkage_entry, has_place, is_definition};
ghost use Rattle.elf_linking.specs.Binding.{is_definition_for, is_global, is_linkage_entry};

use crate::ReferenceKind;
use elf::symbol::Symbol;
use elf_abi::abi;

// Data, a function or of no type, also common, thread-local or chosen when the file is loaded.
fn has_definition_type(symbol: &Symbol) -> bool
    ensures { result ≡ has_definition_type symbol.now }
{
    let symtype = symbol.st_symtype();
    symtype == abi::STT_NOTYPE
        || symtype == abi::STT_OBJECT
        || symtype == abi::STT_FUNC
        || symtype == abi::STT_COMMON
        || symtype == abi::STT_TLS
        || symtype == abi::STT_GNU_IFUNC
}

// Whether other files can bind to it.
fn is_global(symbol: &Symbol) -> bool
    ensures { result ≡ is_global symbol.now }
{
    let binding = symbol.st_bind();
    let visibility = symbol.st_vis();
    (binding == abi::STB_GLOBAL || binding == abi::STB_WEAK || binding == abi::STB_GNU_UNIQUE)
        && visibility != abi::STV_INTERNAL
        && visibility != abi::STV_HIDDEN
}

// Whether the file defines it. The value 0 is no address.
fn has_place(symbol: &Symbol) -> bool
    ensures { result ≡ has_place symbol.now }
{
    !symbol.is_undefined()
        && (symbol.st_value != 0
            || symbol.st_shndx == abi::SHN_ABS
            || symbol.st_symtype() == abi::STT_TLS)
}

/// Returns whether references of other files can bind to the symbol. It must be defined; its value must not be 0,
/// unless it is absolute or thread-local; its type must be NOTYPE, OBJECT, FUNC, COMMON, TLS or GNU_IFUNC; its binding
/// must be global, weak or unique; and its visibility must not be internal or hidden.
pub fn is_definition(symbol: &Symbol) -> bool
    ensures { result ≡ is_definition symbol.now }
{
    has_place(symbol) && has_definition_type(symbol) && is_global(symbol)
}

// Whether the file only refers to it, but has an entry for it in the procedure linkage table.
fn has_linkage_entry(symbol: &Symbol) -> bool
    ensures { result ≡ has_linkage_entry symbol.now }
{
    symbol.is_undefined() && symbol.st_value != 0 && symbol.st_symtype() != abi::STT_TLS
}

// Whether its entry in the procedure linkage table stands for it in all files.
fn is_linkage_entry(symbol: &Symbol) -> bool
    ensures { result ≡ is_linkage_entry symbol.now }
{
    has_linkage_entry(symbol) && has_definition_type(symbol) && is_global(symbol)
}

/// Whether references of a kind can bind to the symbol. `JumpSlot` takes what `is_definition` takes. The other kinds
/// also take an undefined symbol with a value that has the same type, binding and visibility and is not thread-local:
/// the value is the address at which a program without position-independent code has the function.
pub fn is_definition_for(kind: ReferenceKind, symbol: &Symbol) -> bool
    ensures { result ≡ is_definition_for kind symbol.now }
{
    match kind {
        ReferenceKind::JumpSlot => is_definition(symbol),
        ReferenceKind::Address => is_definition(symbol) || is_linkage_entry(symbol),
        ReferenceKind::Copied => is_definition(symbol) || is_linkage_entry(symbol),
    }
}
