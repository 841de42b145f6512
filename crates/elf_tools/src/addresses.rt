//! The symbols of a file by address: which one lies at an address, or before it.
ghost use Rattle.std.specs.Prelude.{◌≡◌, ◌≤◌, ◌<◌, ℕ, IfOk, length, slice_index_or, take};
ghost use Rattle.elf_records.specs.Symbol.{symbol_reads};
ghost use Rattle.elf_records.specs.Table.{table_items, table_view};
ghost use Rattle.elf_tools.specs.Addresses.{IsByAddress, code_address, has_address, is_code, is_in};
ghost use Rattle.elf_tools.specs.Addresses.{last_in, location, located_symbols, nearest, nearest_in, nearest_of};
ghost use Rattle.elf_tools.specs.Addresses.{starts_before};
ghost use Rattle.elf_tools.specs.declared.addresses.Located.{Located};

use elf::abi;
use elf::endian::EndianParse;
use elf::symbol::{Symbol, SymbolTable};
use std::alloc::{AllocError, Global};
use std::marker::Model;

/// A symbol that has an address.
#[derive(Debug, Clone, Copy)]
pub struct Located {
    /// Its index in its table, counted from 0.
    pub symbol: usize,
    /// The index of its section (`st_shndx`).
    pub section: u16,
    /// Its value (`st_value`).
    pub value: u64,
    /// The address of its first byte (`code_address`).
    pub address: u64,
    /// Its size in bytes.
    pub size: u64,
}

/// The last symbol that starts at an address or before it.
#[derive(Debug, Clone, Copy)]
pub struct Nearest {
    /// Its index in its table, counted from 0.
    pub symbol: usize,
    /// Its value (`st_value`).
    pub value: u64,
    /// The number of bytes from its start to the address.
    pub distance: u64,
    /// Whether its size reaches past the address, so that the address is one of its bytes.
    pub is_inside: bool,
}

/// The symbols of a table that have an address, in ascending order of their addresses. Symbols with one address are in
/// the order of the table.
#[derive(Debug, Drop)]
pub struct Addresses {
    symbols: Vec<Located>,
}

impl Model for Addresses {
    ghost use Rattle.std.specs.Prelude.{List};
    ghost use Rattle.std.specs.List.Sorted.{IsNonDecreasingBy};
    ghost use Rattle.elf_tools.specs.declared.addresses.Located.{Located};

    ghost Value = { List Located };

    ghost view = { λ s. s.symbols.items };

    ghost invariant = { λ s. IsNonDecreasingBy (λ (one : Located). one.address) s.symbols.items };
}

/// Returns whether the symbol has an address: it is an object (`STT_OBJECT`), a function (`STT_FUNC`) or a function
/// that is chosen when the file is loaded (`STT_GNU_IFUNC`), and a section of the file defines it. An absolute symbol
/// (`SHN_ABS`) has a value that is no address, and that of a common one (`SHN_COMMON`) is an alignment.
pub fn has_address(symbol: &Symbol) -> bool
    ensures { result ≡ has_address symbol.now }
{
    let section = symbol.st_shndx;
    let is_placed = symbol.st_symtype() == abi::STT_OBJECT || is_code(symbol);
    is_placed && section != abi::SHN_UNDEF && section != abi::SHN_ABS && section != abi::SHN_COMMON
}

// Whether the symbol is a function (`STT_FUNC`), or one that is chosen when the file is loaded (`STT_GNU_IFUNC`).
pub(crate) fn is_code(symbol: &Symbol) -> bool
    ensures { result ≡ is_code symbol.now }
{
    let symtype = symbol.st_symtype();
    symtype == abi::STT_FUNC || symtype == abi::STT_GNU_IFUNC
}

/// Returns the address of the first byte of a symbol, in a file for this machine (`e_machine`). It is the value of the
/// symbol. Of functions of ARM and MIPS, bit 0 of the value is no part of the address: it is set for Thumb, MIPS16 and
/// microMIPS code.
pub fn code_address(machine: u16, symbol: &Symbol) -> u64
    ensures { result ≡ code_address machine symbol.now }
{
    let value = symbol.st_value;
    let has_code_bit = (machine == abi::EM_ARM || machine == abi::EM_MIPS) && is_code(symbol);
    if has_code_bit {
        value - value % 2
    } else {
        value
    }
}

impl Located {
    fn new(machine: u16, symbol: usize, found: &Symbol) -> Self
        ensures { result ≡ location machine (symbol, found.now) }
    {
        Located {
            symbol,
            section: found.st_shndx,
            value: found.st_value,
            address: code_address(machine, found),
            size: found.st_size,
        }
    }

    fn is_in(&self, section: u64) -> bool
        ensures { result ≡ is_in section self.now }
    {
        section < u64::from(abi::SHN_LORESERVE) && u64::from(self.section) == section
    }

    // What is known of an address at which the symbol starts, or before which it starts.
    fn nearest(&self, address: u64) -> Nearest
        ensures { result ≡ nearest_of address self.now }
    {
        let distance = address.saturating_sub(self.address);
        Nearest {
            symbol: self.symbol,
            value: self.value,
            distance,
            is_inside: distance < self.size,
        }
    }
}

// The symbols of a table that have an address, in its order.
fn located_symbols<E: EndianParse>(
    alloc: Global,
    machine: u16,
    symbols: &SymbolTable<'_, E>,
) -> Result<Vec<Located>, AllocError>
    ensures { IfOk result (λ found.
        found.items ≡ located_symbols machine (table_items symbol_reads (table_view symbols.now))) }
{
    symbols
        .iter()
        .enumerate()
        .filter(|one| has_address(&one.1))
        .map(|one| Located::new(machine, one.0, &one.1))
        .collect(alloc)
}

// The last of the symbols of a section.
fn last_in(section: u64, symbols: &[Located]) -> Option<Located>
    ensures { result ≡ last_in section symbols.now }
{
    let mut last = None;
    for symbol in symbols {
        if symbol.is_in(section) {
            last = Some(*symbol);
        }
    }
    last
}

impl Addresses {
    /// Returns the symbols of a table that have an address, in a file for this machine (`e_machine`), sorted by it. The
    /// only error is a failed allocation. The time is the number of symbols times its logarithm.
    ///
    /// In a relocatable file (`ET_REL`) the values of symbols are offsets in their sections: see `find_in`.
    pub fn new<E: EndianParse>(
        alloc: Global,
        machine: u16,
        symbols: &SymbolTable<'_, E>,
    ) -> Result<Self, AllocError>
        ensures { IfOk result (λ map.
            IsByAddress (located_symbols machine (table_items symbol_reads (table_view symbols.now))) map) }
    {
        let mut symbols = located_symbols(alloc, machine, symbols)?;
        symbols.sort_by_key(|one| one.address)?;
        Ok(Addresses { symbols })
    }

    /// Returns the symbols, sorted by address.
    pub fn symbols(&self) -> &[Located]
        ensures { result.now ≡ self.now }
    {
        &self.symbols
    }

    // The number of symbols that start at an address or before it: they are the first ones.
    fn count_before(&self, address: u64) -> usize
        ensures first { starts_before address self.now ≡ take result self.now }
        ensures bound { result ≤ length self.now }
        ensures before { (k : ℕ) (d : Located) → k < result → (slice_index_or self.now k d).address ≤ address }
    {
        self.symbols.partition_point(|one| one.address <= address)
    }

    /// Returns the last symbol, in the order by address, that starts at this address or before it, with its distance
    /// and whether its size reaches past the address. Of several symbols with one address this is the one that comes
    /// last in the table; a table has its local symbols first, so a global one is preferred. Returns `None` if each
    /// symbol starts after the address. The time grows with the logarithm of the number of symbols.
    ///
    /// ```rust
    /// if let Some((symbols, _)) = file.dynamic_symbol_table()? {
    ///     let addresses = Addresses::new(rt.alloc(), file.ehdr.e_machine, &symbols)?;
    ///     if let Some(nearest) = addresses.find(file.ehdr.e_entry) {
    ///         println!(rt; "symbol {} and {} bytes", nearest.symbol, nearest.distance)?;
    ///     }
    /// }
    /// ```
    pub fn find(&self, address: u64) -> Option<Nearest>
        ensures { result ≡ nearest address self.now }
    {
        let count = self.count_before(address);
        if count == 0 {
            return None;
        }
        Some(self.symbols[count - 1].nearest(address))
    }

    /// Returns the same among the symbols of one section, by its number: those whose section index (`st_shndx`) it is. In
    /// a relocatable file the address is an offset in the section. No symbol has a number from `SHN_LORESERVE` on as its
    /// section index. The time grows with the number of symbols.
    pub fn find_in(&self, section: u64, address: u64) -> Option<Nearest>
        ensures { result ≡ nearest_in section address self.now }
    {
        let count = self.count_before(address);
        let last = last_in(section, &self.symbols[..count])?;
        Some(last.nearest(address))
    }
}
