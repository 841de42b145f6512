//! Laws of symbols.
ghost use Rattle.std.specs.Prelude.{◌≡◌, ◌+◌, ◌*◌};
ghost use Rattle.elf_records.specs.Symbol.{symbol_binding, symbol_type};

use crate::symbol::Symbol;

/// `st_info` is 16 times `st_bind`, plus `st_symtype`.
pub fn st_info_from_its_parts(symbol: &Symbol)
    ensures { symbol.now.st_info ≡ 16 * symbol_binding symbol.now + symbol_type symbol.now }
{}
