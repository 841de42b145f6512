//! Options that ask for what is listed: letters, which may stand together in a word, and long words.
ghost use Rattle.nugwier_commands.specs.Words.{long_word, with_export_word, with_letter, with_letters, with_part};
ghost use Rattle.nugwier_commands.specs.Words.{cut_form, cut_letters, cut_section, is_p, is_x};
ghost use Rattle.nugwier_commands.specs.Words.{with_list_letter, with_long_word, with_symbol_word, with_wide};
ghost use Rattle.std.specs.List.{after_first, before_first};
ghost use Rattle.std.specs.Prelude.{◌≡◌};

use crate::words::{Command, Parts};
use nugwier_sections::contents::Form;
use nugwier_symbols::symbol_options::{Extent, SymbolOptions, SymbolOrder};

/// What options ask for.
#[derive(Clone, Copy)]
pub(crate) struct Letters {
    pub parts: Parts,
    pub symbols: SymbolOptions,
    pub is_wide: bool,
}

/// Adds the letters of a word. Returns `None` if one is no option of the command.
pub(crate) fn add_letters(command: Command, mut letters: Letters, word: &[u8]) -> Option<Letters>
    ensures { result ≡ with_letters command letters word.now }
{
    for letter in word {
        letters = add_letter(command, letters, *letter)?;
    }
    Some(letters)
}

fn add_letter(command: Command, letters: Letters, letter: u8) -> Option<Letters>
    ensures { result ≡ with_letter command letters letter }
{
    match command {
        Command::List => add_list_letter(letters, letter),
        _ => add_long_word(command, letters, long_word(letter)),
    }
}

fn add_list_letter(mut letters: Letters, letter: u8) -> Option<Letters>
    ensures { result ≡ with_list_letter letters letter }
{
    if letter == b'W' {
        letters.is_wide = true;
    } else {
        letters.parts = add_part(letters.parts, letter)?;
    }
    Some(letters)
}

fn add_part(mut parts: Parts, letter: u8) -> Option<Parts>
    ensures { result ≡ with_part parts letter }
{
    match letter {
        b'h' => parts.header = true,
        b'S' => parts.sections = true,
        b'g' => parts.groups = true,
        b'l' => parts.segments = true,
        b's' => parts.symbols = true,
        b'D' => parts.dynamic_symbols = true,
        b'd' => parts.dynamic = true,
        b'r' => parts.relocations = true,
        b'n' => parts.notes = true,
        b'V' => parts.versions = true,
        b'I' => parts.chains = true,
        b'A' => parts.attributes = true,
        b'k' => parts.debug_links = true,
        b'a' => parts = Parts::each(true),
        _ => return None,
    }
    Some(parts)
}

/// Cuts a word of `list` at its first `x` or `p`, which needs a section. Returns the letters before it, the form that it
/// asks for, and what follows it; a word without such a letter as a whole.
pub(crate) fn cut(word: &str) -> (&str, Option<Form>, &str)
    ensures letters { result.0.now ≡ cut_letters word.now }
    ensures form { result.1 ≡ cut_form word.now }
    ensures section { result.2.now ≡ cut_section word.now }
{
    let (before_x, after_x) = around_x(word);
    let (before_p, after_p) = around_p(word);
    if before_x.len() < before_p.len() {
        (before_x, Some(Form::Bytes), after_x)
    } else if before_p.len() < before_x.len() {
        (before_p, Some(Form::Strings), after_p)
    } else {
        (before_p, None, after_p)
    }
}

// The text before the first `x` and the text after it; the whole word if it has none.
fn around_x(word: &str) -> (&str, &str)
    ensures before { result.0.now ≡ before_first is_x word.now }
    ensures after { result.1.now ≡ after_first is_x word.now }
{
    match word.split_once('x') {
        Some(parts) => parts,
        None => (word, ""),
    }
}

// The text before the first `p` and the text after it; the whole word if it has none.
fn around_p(word: &str) -> (&str, &str)
    ensures before { result.0.now ≡ before_first is_p word.now }
    ensures after { result.1.now ≡ after_first is_p word.now }
{
    match word.split_once('p') {
        Some(parts) => parts,
        None => (word, ""),
    }
}

// The long word that a letter of `symbols` stands for; an empty one if it is none.
#[tactic(auto, unfolding(crate::specs::Words::long_word))]
fn long_word(letter: u8) -> &'static str
    ensures { result.now ≡ long_word letter }
{
    match letter {
        b'D' => "dynamic",
        b'g' => "extern-only",
        b'n' => "numeric-sort",
        b'p' => "no-sort",
        b'P' => "format=posix",
        b'S' => "print-size",
        b'u' => "undefined-only",
        _ => "",
    }
}

/// Adds a long word, from which the two hyphens are taken. Returns `None` if it is no option of the command.
pub(crate) fn add_long_word(command: Command, letters: Letters, word: &str) -> Option<Letters>
    ensures { result ≡ with_long_word command letters word.now }
{
    let symbols = match command {
        Command::Symbols => add_symbol_word(letters.symbols, word)?,
        Command::Exports => add_export_word(letters.symbols, word)?,
        Command::List => return add_list_word(letters, word),
        _ => return None,
    };
    Some(Letters { symbols, ..letters })
}

fn add_list_word(mut letters: Letters, word: &str) -> Option<Letters>
    ensures { result ≡ with_wide letters word.now }
{
    match word {
        "wide" => letters.is_wide = true,
        _ => return None,
    }
    Some(letters)
}

// Of the options that exclude each other the last one counts.
#[tactic(auto, unfolding(crate::specs::Words::with_symbol_word))]
fn add_symbol_word(mut symbols: SymbolOptions, word: &str) -> Option<SymbolOptions>
    ensures { result ≡ with_symbol_word symbols word.now }
{
    match word {
        "dynamic" => symbols.is_dynamic = true,
        "extern-only" => symbols.is_external = true,
        "undefined-only" => symbols.extent = Extent::Undefined,
        "defined-only" => symbols.extent = Extent::Defined,
        "no-sort" => symbols.order = SymbolOrder::Table,
        "numeric-sort" => symbols.order = SymbolOrder::Value,
        "size-sort" => symbols.order = SymbolOrder::Size,
        "print-size" => symbols.has_sizes = true,
        "format=posix" => symbols.is_portable = true,
        "format=bsd" => symbols.is_portable = false,
        _ => return None,
    }
    Some(symbols)
}

fn add_export_word(mut symbols: SymbolOptions, word: &str) -> Option<SymbolOptions>
    ensures { result ≡ with_export_word symbols word.now }
{
    match word {
        "functions" => symbols.functions_only = true,
        _ => return None,
    }
    Some(symbols)
}
