//! What the words of a command line ask for.
ghost use Rattle.nugwier_commands.specs.Words.{IsParsed, after, command_of, helped, is_like, is_near, is_swapped, nearest};
ghost use Rattle.nugwier_commands.specs.Words.{parsed, parsed_from, parts_all, so_far, word_of};
ghost use Rattle.nugwier_commands.specs.declared.words.WordError.TheVariants.{Memory as IsMemory};
ghost use Rattle.std.specs.Prelude.{◌≡◌};

use crate::asked::{Asked, general_of};
use nugwier_dynamic::hardening_rows::Requirement;
use nugwier_layouts::escape::Escaped;
use nugwier_report::report::Format;
use nugwier_sections::contents::Wanted;
use nugwier_symbols::addresses::AskedAddress;
use nugwier_symbols::symbol_options::SymbolOptions;
use std::alloc::{AllocError, AllocFailed, Global};
use std::error::Error;
use std::fmt;

/// What is listed of each file.
#[derive(Debug, Clone, Copy, PartialEq, Eq)]
pub enum Command {
    List,
    Symbols,
    Needed,
    Exports,
    BuildId,
    Plan,
    Check,
    Harden,
    Address,
    Tree,
    Bindings,
    Starts,
}

static COMMANDS: [Command; 12] = [
    Command::List,
    Command::Symbols,
    Command::Needed,
    Command::Exports,
    Command::BuildId,
    Command::Plan,
    Command::Check,
    Command::Harden,
    Command::Address,
    Command::Tree,
    Command::Bindings,
    Command::Starts,
];

impl Command {
    /// The word that asks for the command.
    pub fn word(self) -> &'static str
        ensures { result.now ≡ word_of self }
    {
        match self {
            Command::List => "list",
            Command::Symbols => "symbols",
            Command::Needed => "needed",
            Command::Exports => "exports",
            Command::BuildId => "build-id",
            Command::Plan => "plan",
            Command::Check => "check",
            Command::Harden => "harden",
            Command::Address => "address",
            Command::Tree => "tree",
            Command::Bindings => "bindings",
            Command::Starts => "starts",
        }
    }
}

impl fmt::Display for Command {
    ghost use Rattle.std.specs.Prelude.{Some};
    ghost use Rattle.nugwier_commands.specs.Words.{word_of};

    ghost output = { λ command. Some (word_of command) };

    fn fmt<W: fmt::Write>(&self, f: &mut fmt::Formatter<W>) -> fmt::Result {
        f.write_str(self.word())
    }
}

/// The parts of a file that `list` lists.
#[derive(Debug, Clone, Copy)]
pub struct Parts {
    pub header: bool,
    pub sections: bool,
    pub groups: bool,
    pub segments: bool,
    pub symbols: bool,
    pub dynamic_symbols: bool,
    pub dynamic: bool,
    pub relocations: bool,
    pub notes: bool,
    pub versions: bool,
    pub chains: bool,
    pub attributes: bool,
    pub debug_links: bool,
}

impl Parts {
    /// No part, or all.
    pub fn each(is_listed: bool) -> Parts
        ensures { result ≡ parts_all is_listed }
    {
        Parts {
            header: is_listed,
            sections: is_listed,
            groups: is_listed,
            segments: is_listed,
            symbols: is_listed,
            dynamic_symbols: is_listed,
            dynamic: is_listed,
            relocations: is_listed,
            notes: is_listed,
            versions: is_listed,
            chains: is_listed,
            attributes: is_listed,
            debug_links: is_listed,
        }
    }
}

/// What a command line asks for of files.
#[derive(Debug, Drop)]
pub struct Job<'a> {
    pub command: Command,
    /// The parts for `list`.
    pub parts: Parts,
    /// The sections whose content `list` lists.
    pub contents: Vec<Wanted<'a>>,
    pub files: Vec<&'a str>,
    /// The addresses for `address`.
    pub addresses: Vec<AskedAddress<'a>>,
    /// The options of `symbols` and `exports`.
    pub symbols: SymbolOptions,
    /// What `harden` requires of each file.
    pub requirements: Vec<Requirement>,
    /// How records are listed.
    pub format: Format,
    /// Whether the ELF files below a folder are listed.
    pub is_recursive: bool,
    /// The folders in which `tree`, `bindings` and `starts` search for libraries, before the usual ones.
    pub searches: Vec<&'a str>,
    /// Whether they take libraries that the linker's cache lists.
    pub has_cache: bool,
    /// The folder of the image of a system, below which they take all paths.
    pub root: Option<&'a str>,
}

/// What a command line asks for.
#[derive(Debug, Drop)]
pub enum Request<'a> {
    /// How the program is called, or one of its commands.
    Help(Option<Command>),
    Version,
    Run(Job<'a>),
}

/// Why words are no request.
#[derive(Debug, Clone, Copy)]
pub enum WordError<'a> {
    NoCommand,
    /// The word is no command, but it may mean this one.
    Command(&'a str, Option<Command>),
    /// The command has no such option.
    Option(Command, &'a str),
    /// The option of `list` needs a section.
    NoSection(&'a str),
    /// The option needs a folder.
    NoFolder(Command, &'a str),
    NoFile(Command),
    /// The option needs a list of requirements.
    NoList(Command, &'a str),
    /// The list has a word that is no requirement.
    Requirement(&'a str),
    /// The option of `symbols` needs a format.
    NoFormat(&'a str),
    /// The word is no format of `symbols`.
    Format(&'a str),
    /// The word is no address in hexadecimal.
    Address(&'a str),
    NoAddress,
    Memory,
}

impl fmt::Display for WordError<'_> {
    ghost use Rattle.nugwier_commands.specs.WordTexts.{word_text};

    ghost output = { word_text };

    fn fmt<W: fmt::Write>(&self, f: &mut fmt::Formatter<W>) -> fmt::Result {
        match self {
            WordError::NoCommand => f.write_str("nugwier: no command; see nugwier --help"),
            WordError::Command(word, None) => {
                let word = Escaped(word.as_bytes());
                write!(f, "nugwier: unknown command '{word}'; see nugwier --help")
            }
            WordError::Command(word, Some(command)) => {
                let word = Escaped(word.as_bytes());
                write!(
                    f,
                    "nugwier: unknown command '{word}', did you mean '{command}'? see nugwier --help"
                )
            }
            WordError::Option(command, word) => {
                let word = Escaped(word.as_bytes());
                write!(
                    f,
                    "nugwier {command}: unknown option '{word}'; see nugwier {command} --help"
                )
            }
            WordError::NoSection(word) => {
                let word = Escaped(word.as_bytes());
                write!(
                    f,
                    "nugwier list: no section after '{word}'; see nugwier list --help"
                )
            }
            WordError::NoFolder(command, word) => {
                let word = Escaped(word.as_bytes());
                write!(
                    f,
                    "nugwier {command}: no folder after '{word}'; see nugwier {command} --help"
                )
            }
            WordError::NoFile(command) => {
                write!(
                    f,
                    "nugwier {command}: no file; see nugwier {command} --help"
                )
            }
            WordError::NoList(command, word) => {
                let word = Escaped(word.as_bytes());
                write!(
                    f,
                    "nugwier {command}: no list after '{word}'; see nugwier {command} --help"
                )
            }
            WordError::Requirement(word) => {
                let word = Escaped(word.as_bytes());
                write!(
                    f,
                    "nugwier harden: no such requirement: '{word}'; see nugwier harden --help"
                )
            }
            WordError::NoFormat(word) => {
                let word = Escaped(word.as_bytes());
                write!(
                    f,
                    "nugwier symbols: no format after '{word}'; see nugwier symbols --help"
                )
            }
            WordError::Format(word) => {
                let word = Escaped(word.as_bytes());
                write!(
                    f,
                    "nugwier symbols: no such format: '{word}'; see nugwier symbols --help"
                )
            }
            WordError::Address(word) => {
                let word = Escaped(word.as_bytes());
                write!(
                    f,
                    "nugwier address: '{word}' is no address; see nugwier address --help"
                )
            }
            WordError::NoAddress => {
                f.write_str("nugwier address: no address; see nugwier address --help")
            }
            WordError::Memory => f.write_str("nugwier: out of memory"),
        }
    }
}

impl Error for WordError<'_> {}

impl<'a> From<AllocError> for WordError<'a> {
    ghost from_gives = { λ _ error. error ≡ IsMemory };

    fn from(_error: AllocError) -> WordError<'a> {
        WordError::Memory
    }
}

impl<'a, T: Drop> From<AllocFailed<T>> for WordError<'a> {
    ghost from_gives = { λ _ error. error ≡ IsMemory };

    fn from(_error: AllocFailed<T>) -> WordError<'a> {
        WordError::Memory
    }
}

/// Returns what the words, the arguments after the program's name, ask for. Headings are bold and names cyan if this is
/// said here, unless the words say something else.
///
/// Errors, in order: `NoCommand` if no word but options of every command is there; `Command` if the first other word, or
/// the one after `help`, is no command;
/// then, of the first word that is wrong, `Option`, `Requirement`, `Format`, `NoSection`, `NoFolder`, `NoList` or
/// `NoFormat`; `NoFile` if no word is a file; of `address`, `Address` for the first word after the file that is no
/// address, and `NoAddress` if there is no such word.
/// `Memory` if an allocation failed.
pub fn parse_words<'a>(
    alloc: Global,
    is_colored: bool,
    words: &[&'a str],
) -> Result<Request<'a>, WordError<'a>>
    ensures { IsParsed (parsed is_colored words.now) result }
{
    let mut asked = Asked::new(alloc, is_colored);
    for (place, word) in words.iter().enumerate() {
        match general_of(word) {
            Some(option) => asked.set(option),
            None => return parse_from(alloc, asked, *word, &words[place + 1..]),
        }
    }
    Err(WordError::NoCommand)
}

// What the words from the first on ask for that is no option of every command.
fn parse_from<'a>(
    alloc: Global,
    asked: Asked<'a>,
    first: &'a str,
    words: &[&'a str],
) -> Result<Request<'a>, WordError<'a>>
    ensures { IsParsed (parsed_from (so_far asked.entry) first.entry words.now) result }
{
    match first {
        "--help" | "-h" => Ok(Request::Help(None)),
        "--version" | "-V" => Ok(Request::Version),
        "help" => parse_help(words),
        word => match parse_command(word) {
            Some(command) => parse_rest(alloc, asked, command, words),
            None => Err(WordError::Command(word, nearest(word))),
        },
    }
}

// Of `help` with a command, that command's help.
fn parse_help<'a>(words: &[&'a str]) -> Result<Request<'a>, WordError<'a>>
    ensures { IsParsed (helped words.now) result }
{
    let [word, ..] = words else {
        return Ok(Request::Help(None));
    };
    match parse_command(*word) {
        Some(command) => Ok(Request::Help(Some(command))),
        None => Err(WordError::Command(*word, nearest(*word))),
    }
}

#[tactic(auto, unfolding(crate::specs::Words::command_of))]
fn parse_command(word: &str) -> Option<Command>
    ensures { result ≡ command_of word.now }
{
    COMMANDS
        .iter()
        .copied()
        .find(|command| command.word() == word)
}

// The first command that a word with an error may mean.
#[tactic(auto, unfolding(crate::specs::Words::nearest))]
fn nearest(word: &str) -> Option<Command>
    ensures { result ≡ nearest word.now }
{
    let word = word.as_bytes();
    COMMANDS
        .iter()
        .copied()
        .find(|command| is_like(word, command.word().as_bytes()))
}

// Whether a word begins another one, or differs from it by one letter or by the order of two.
fn is_like(word: &[u8], other: &[u8]) -> bool
    ensures { result ≡ is_like word.now other.now }
{
    is_near(word, other) || !word.is_empty() && other.starts_with(word)
}

// Whether one letter at the most is left out, added or changed, or two that stand together are the other way round.
fn is_near(word: &[u8], other: &[u8]) -> bool
    ensures { result ≡ is_near word.now other.now }
{
    match (word, other) {
        ([], _) => other.len() < 2,
        ([_, rest @ ..], []) => rest.is_empty(),
        ([first, rest @ ..], [letter, others @ ..]) => {
            if *first == *letter {
                is_near(rest, others)
            } else {
                rest == others || rest == other || word == others || is_swapped(word, other)
            }
        }
    }
}

// Whether the first two letters of a word are those of another one the other way round, and all else is the same.
fn is_swapped(word: &[u8], other: &[u8]) -> bool
    ensures { result ≡ is_swapped word.now other.now }
{
    match (word, other) {
        ([a, b, rest @ ..], [c, d, others @ ..]) => *a == *d && *b == *c && rest == others,
        _ => false,
    }
}

fn parse_rest<'a>(
    alloc: Global,
    asked: Asked<'a>,
    command: Command,
    words: &[&'a str],
) -> Result<Request<'a>, WordError<'a>>
    ensures { IsParsed (after command (so_far asked.entry) words.now) result }
{
    let mut asked = asked;
    for word in words {
        if asked.add(command, *word)? {
            return Ok(Request::Help(Some(command)));
        }
    }
    asked.finish(alloc, command)
}
