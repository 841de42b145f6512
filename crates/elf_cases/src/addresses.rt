//! Symbols by address.
use crate::row_words::Words;
use crate::shown::{Shown, show_lines};
use elf::endian::AnyEndian;
use elf::file::Class;
use elf::symbol::SymbolTable;
use elf_tools::addresses::Addresses;

/// `addresses MACHINE SYMBOLS PLACE..`: the symbols of a 64-bit table in little order that have an address, by address,
/// and the nearest of them for each PLACE, as `32`, or `2:32` in section 2.
pub(crate) fn show_addresses(rt: &HostRuntime, words: &mut Words<'_>) -> Shown {
    let machine = words.number();
    let symbols = words.bytes(rt);
    let table = SymbolTable::new(AnyEndian::Little, Class::ELF64, symbols.as_slice());
    let addresses = Addresses::new(rt.alloc(), machine, &table)?;
    show_lines(rt, addresses.symbols().iter())?;
    for place in words.rest() {
        let nearest = match place.split_once(':') {
            Some((section, address)) => {
                addresses.find_in(words.number_of(section), words.number_of(address))
            }
            None => addresses.find(words.number_of(place)),
        };
        print!(rt; "\n    {place}: {nearest:?}")?;
    }
    Ok(())
}
