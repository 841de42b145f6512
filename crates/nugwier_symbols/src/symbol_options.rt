//! The options of `symbols`, which are those of GNU `nm`: which symbols are listed, and how.
ghost use Rattle.std.specs.Prelude.{◌≡◌};
ghost use Rattle.nugwier_symbols.specs.SymbolOptions.{is_external, is_for_debuggers, is_of_extent, is_selected, is_sized};
ghost use Rattle.nugwier_symbols.specs.SymbolOptions.{letter_layout, no_options, portable_layout, row_layout};
ghost use Rattle.nugwier_layouts.specs.Layouts.{layout_of};

use elf_abi::abi;
use elf_parts::symbol::Symbol;
use nugwier_layouts::layouts;
use nugwier_layouts::layouts::Layout;

/// Which symbols are listed, by whether they are defined.
#[derive(Debug, Clone, Copy)]
pub enum Extent {
    All,
    Undefined,
    Defined,
}

/// The order of symbols. Equal ones stay in the order of the table.
#[derive(Debug, Clone, Copy)]
pub enum SymbolOrder {
    Table,
    /// By value; undefined ones come first.
    Value,
    /// By size. Those without a size, and those that no section defines, are left out.
    Size,
}

/// What the options ask for.
#[derive(Debug, Clone, Copy)]
pub struct SymbolOptions {
    /// Only the dynamic symbols.
    pub is_dynamic: bool,
    /// Only those that other files can see.
    pub is_external: bool,
    pub extent: Extent,
    pub order: SymbolOrder,
    /// The size stands after the value.
    pub has_sizes: bool,
    /// The form of POSIX: the name, the letter, the value and the size.
    pub is_portable: bool,
    /// Of exports the functions alone.
    pub functions_only: bool,
}

impl SymbolOptions {
    /// What is asked for without options.
    pub fn none() -> SymbolOptions
        ensures { result ≡ no_options }
    {
        SymbolOptions {
            is_dynamic: false,
            is_external: false,
            extent: Extent::All,
            order: SymbolOrder::Table,
            has_sizes: false,
            is_portable: false,
            functions_only: false,
        }
    }

    // Whether a symbol is listed. The first one is none.
    pub fn selects(self, number: u64, symbol: &Symbol) -> bool
        ensures { result ≡ is_selected self number symbol.now }
    {
        let is_seen = !self.is_external || is_external(symbol);
        number != 0
            && !is_for_debuggers(symbol)
            && is_seen
            && self.extent.has(symbol)
            && self.order.has(symbol)
    }

    // The kind of a symbol's record.
    pub fn layout(self, symbol: &Symbol) -> &'static Layout
        ensures { layout_of result.now ≡ row_layout self symbol.now }
    {
        if self.is_portable {
            portable_layout(symbol)
        } else {
            self.letter_layout(symbol)
        }
    }

    fn letter_layout(self, symbol: &Symbol) -> &'static Layout
        ensures { layout_of result.now ≡ letter_layout self symbol.now }
    {
        if symbol.is_undefined() {
            return &layouts::UNDEFINED_SYMBOL;
        }
        if symbol.st_size == 0 {
            return &layouts::VALUED_SYMBOL;
        }
        match (self.has_sizes, self.order) {
            (true, _) => &layouts::VALUED_AND_SIZED_SYMBOL,
            (false, SymbolOrder::Size) => &layouts::SIZED_SYMBOL,
            (false, _) => &layouts::VALUED_SYMBOL,
        }
    }
}

impl Extent {
    fn has(self, symbol: &Symbol) -> bool
        ensures { result ≡ is_of_extent self symbol.now }
    {
        match self {
            Extent::All => true,
            Extent::Undefined => symbol.is_undefined(),
            Extent::Defined => !symbol.is_undefined(),
        }
    }
}

impl SymbolOrder {
    fn has(self, symbol: &Symbol) -> bool
        ensures { result ≡ is_sized self symbol.now }
    {
        match self {
            SymbolOrder::Table | SymbolOrder::Value => true,
            SymbolOrder::Size => {
                symbol.st_size != 0 && !symbol.is_undefined() && symbol.st_shndx != abi::SHN_ABS
            }
        }
    }
}

// Whether it stands for a section or a file, which `nm` takes as for debuggers.
fn is_for_debuggers(symbol: &Symbol) -> bool
    ensures { result ≡ is_for_debuggers symbol.now }
{
    symbol.st_symtype() == abi::STT_SECTION || symbol.st_symtype() == abi::STT_FILE
}

fn is_external(symbol: &Symbol) -> bool
    ensures { result ≡ is_external symbol.now }
{
    symbol.st_bind() != abi::STB_LOCAL
}

// A size of 0 is left out.
fn portable_layout(symbol: &Symbol) -> &'static Layout
    ensures { layout_of result.now ≡ portable_layout symbol.now }
{
    if symbol.is_undefined() {
        &layouts::PORTABLE_UNDEFINED
    } else if symbol.st_size == 0 {
        &layouts::PORTABLE
    } else {
        &layouts::PORTABLE_SIZED
    }
}
