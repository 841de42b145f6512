//! What the words after a command ask for, from left to right.
ghost use Rattle.nugwier_commands.specs.Words.{IsParsed, IsStep, answer_of, finished, format_of, general_of, has_part, is_help, kind_of};
ghost use Rattle.nugwier_commands.specs.Words.{letters_of, with_format, with_symbols_word};
ghost use Rattle.nugwier_commands.specs.Words.{listed_parts, next, nothing, run_on, so_far, step};
ghost use Rattle.nugwier_symbols.specs.Addresses.{sought};
ghost use Rattle.nugwier_sections.specs.Contents.{wanted_view};
ghost use Rattle.nugwier_commands.specs.Words.{with_addresses, with_files, with_folder, with_form, with_general, with_given};
ghost use Rattle.nugwier_commands.specs.Words.{with_list_word, with_listed, with_options, with_requirements, with_root};
ghost use Rattle.nugwier_commands.specs.Words.{with_search, with_section, with_word, with_word_of};
ghost use Rattle.std.specs.Prelude.{◌≡◌, Ok, drop, map, take};

use crate::address::parse_addresses;
use crate::letters::{Letters, add_letters, add_long_word, cut};
use crate::requirements::add_requirements;
use crate::words::{Command, Job, Parts, Request, WordError};
use nugwier_dynamic::hardening_rows::Requirement;
use nugwier_layouts::text::Style;
use nugwier_report::report::Format;
use nugwier_sections::contents::{Form, Wanted};
use nugwier_symbols::addresses::AskedAddress;
use nugwier_symbols::symbol_options::SymbolOptions;
use std::alloc::Global;

// An option of every command, which may also stand before the command.
#[derive(Clone, Copy)]
pub(crate) enum General {
    Json,
    Recursive,
    Colored,
    Plain,
}

// What a word after the command is.
enum Word {
    File,
    Help,
    General(General),
    // After this word all are files.
    End,
    Options,
}

// What the next word is for, and the option that needs it, which an error names.
#[derive(Clone, Copy)]
pub(crate) enum Awaited<'a> {
    Nothing,
    Section(Form, &'a str),
    Folder(&'a str),
    Root(&'a str),
    Requirements(&'a str),
    Format(&'a str),
}

/// What the words so far ask for.
#[derive(Drop)]
pub(crate) struct Asked<'a> {
    alloc: Global,
    parts: Parts,
    symbols: SymbolOptions,
    contents: Vec<Wanted<'a>>,
    files: Vec<&'a str>,
    requirements: Vec<Requirement>,
    is_json: bool,
    is_wide: bool,
    is_colored: bool,
    is_recursive: bool,
    searches: Vec<&'a str>,
    has_cache: bool,
    root: Option<&'a str>,
    awaited: Awaited<'a>,
    has_ended: bool,
}

impl<'a> Asked<'a> {
    /// What no word asks for.
    pub fn new(alloc: Global, is_colored: bool) -> Self
        ensures { so_far result ≡ nothing is_colored }
    {
        Asked {
            alloc,
            parts: Parts::each(false),
            symbols: SymbolOptions::none(),
            contents: Vec::new(alloc),
            files: Vec::new(alloc),
            requirements: Vec::new(alloc),
            is_json: false,
            is_wide: false,
            is_colored,
            is_recursive: false,
            searches: Vec::new(alloc),
            has_cache: true,
            root: None,
            awaited: Awaited::Nothing,
            has_ended: false,
        }
    }

    /// Adds an option of every command.
    pub fn set(&mut self, option: General)
        ensures { so_far self.new ≡ with_general option (so_far self.old) }
    {
        match option {
            General::Json => self.is_json = true,
            General::Recursive => self.is_recursive = true,
            General::Colored => self.is_colored = true,
            General::Plain => self.is_colored = false,
        }
    }

    /// Adds a word. Returns whether it asks for the command's help.
    pub fn add(&mut self, command: Command, word: &'a str) -> Result<bool, WordError<'a>>
        ensures { IsStep (step command (so_far self.old) word.entry) (so_far self.new) result }
    {
        match self.awaited {
            Awaited::Nothing => self.add_word(command, word),
            Awaited::Section(form, _) => self.add_section(form, word),
            Awaited::Folder(_) => self.add_folder(word),
            Awaited::Root(_) => Ok(self.set_root(word)),
            Awaited::Requirements(_) => self.add_requirements(word, word),
            Awaited::Format(_) => self.set_format(word),
        }
    }

    fn add_section(&mut self, form: Form, section: &'a str) -> Result<bool, WordError<'a>>
        ensures { IsStep (with_section form (so_far self.old) section.entry) (so_far self.new) result }
    {
        self.contents.push(Wanted { form, section })?;
        self.awaited = Awaited::Nothing;
        Ok(false)
    }

    fn add_folder(&mut self, folder: &'a str) -> Result<bool, WordError<'a>>
        ensures { IsStep (with_folder (so_far self.old) folder.now) (so_far self.new) result }
    {
        self.searches.push(folder)?;
        self.awaited = Awaited::Nothing;
        Ok(false)
    }

    fn set_root(&mut self, folder: &'a str) -> bool
        ensures { IsStep (with_root (so_far self.old) folder.now) (so_far self.new) (Ok result) }
    {
        self.root = Some(folder);
        self.awaited = Awaited::Nothing;
        false
    }

    fn set_format(&mut self, word: &'a str) -> Result<bool, WordError<'a>>
        ensures { IsStep (with_format (so_far self.old) word.entry) (so_far self.new) result }
    {
        match word {
            "posix" => self.symbols.is_portable = true,
            "bsd" => self.symbols.is_portable = false,
            _ => return Err(WordError::Format(word)),
        }
        self.awaited = Awaited::Nothing;
        Ok(false)
    }

    // Adds those of a list. An error names the word, which is the list or has it.
    fn add_requirements(&mut self, word: &'a str, list: &str) -> Result<bool, WordError<'a>>
        ensures { IsStep (with_requirements (so_far self.old) word.entry list.now) (so_far self.new) result }
    {
        if !add_requirements(self.alloc, list, &mut self.requirements)? {
            return Err(WordError::Requirement(word));
        }
        self.awaited = Awaited::Nothing;
        Ok(false)
    }

    // A word that no option takes.
    fn add_word(&mut self, command: Command, word: &'a str) -> Result<bool, WordError<'a>>
        ensures { let kind = kind_of command word.now self.old.has_ended in
            IsStep (with_word kind command (so_far self.old) word.entry) (so_far self.new) result }
    {
        match kind_of(command, word, self.has_ended) {
            Word::File => self.files.push(word)?,
            Word::Help => return Ok(true),
            Word::General(option) => self.set(option),
            Word::End => self.has_ended = true,
            Word::Options => return self.add_options(command, word),
        }
        Ok(false)
    }

    fn add_options(&mut self, command: Command, word: &'a str) -> Result<bool, WordError<'a>>
        ensures { IsStep (with_options command (so_far self.old) word.entry) (so_far self.new) result }
    {
        match command {
            Command::List => self.add_list_word(word),
            Command::Symbols => self.add_symbols_word(word),
            Command::Exports => self.add_letters(command, word),
            Command::Tree | Command::Bindings | Command::Starts => {
                self.add_search(command, word)
            }
            Command::Harden => self.add_require(word),
            _ => Err(WordError::Option(command, word)),
        }
    }

    // A word of `symbols`, which may need a format.
    fn add_symbols_word(&mut self, word: &'a str) -> Result<bool, WordError<'a>>
        ensures { IsStep (with_symbols_word (so_far self.old) word.entry) (so_far self.new) result }
    {
        match word {
            "--format" | "-f" => self.awaited = Awaited::Format(word),
            _ => return self.add_letters(Command::Symbols, word),
        }
        Ok(false)
    }

    fn add_letters(&mut self, command: Command, word: &'a str) -> Result<bool, WordError<'a>>
        ensures { IsStep (with_listed command (so_far self.old) word.entry) (so_far self.new) result }
    {
        let Some(letters) = options_in(command, self.letters(), word) else {
            return Err(WordError::Option(command, word));
        };
        self.parts = letters.parts;
        self.symbols = letters.symbols;
        self.is_wide = letters.is_wide;
        Ok(false)
    }

    // What the options so far ask for.
    fn letters(&self) -> Letters
        ensures { result ≡ letters_of (so_far self.now) }
    {
        Letters {
            parts: self.parts,
            symbols: self.symbols,
            is_wide: self.is_wide,
        }
    }

    // A word of letters. The last one may need a section.
    fn add_list_word(&mut self, word: &'a str) -> Result<bool, WordError<'a>>
        ensures { IsStep (with_list_word (so_far self.old) word.entry) (so_far self.new) result }
    {
        let (letters, form, section) = cut(word);
        let Some(letters) = options_in(Command::List, self.letters(), letters) else {
            return Err(WordError::Option(Command::List, word));
        };
        self.parts = letters.parts;
        self.symbols = letters.symbols;
        self.is_wide = letters.is_wide;
        self.add_form(word, form, section)
    }

    // The content of the section after a letter or, if nothing follows it in the word, of the one that the next word
    // names.
    fn add_form(
        &mut self,
        word: &'a str,
        form: Option<Form>,
        section: &'a str,
    ) -> Result<bool, WordError<'a>>
        ensures { IsStep (next (with_form (so_far self.old) word.entry form section.now)) (so_far self.new) result }
    {
        let Some(form) = form else {
            return Ok(false);
        };
        if section.is_empty() {
            self.awaited = Awaited::Section(form, word);
        } else {
            self.contents.push(Wanted { form, section })?;
        }
        Ok(false)
    }

    fn add_search(&mut self, command: Command, word: &'a str) -> Result<bool, WordError<'a>>
        ensures { IsStep (with_search command (so_far self.old) word.entry) (so_far self.new) result }
    {
        match word {
            "--search" => self.awaited = Awaited::Folder(word),
            "--root" => self.awaited = Awaited::Root(word),
            "--no-cache" => self.has_cache = false,
            _ => return self.add_given(command, word),
        }
        Ok(false)
    }

    // An option with its folder in one word.
    fn add_given(&mut self, command: Command, word: &'a str) -> Result<bool, WordError<'a>>
        ensures { IsStep (with_given command (so_far self.old) word.entry) (so_far self.new) result }
    {
        if let Some(folder) = word.strip_prefix("--search=") {
            return self.add_folder(folder);
        }
        match word.strip_prefix("--root=") {
            Some(folder) => Ok(self.set_root(folder)),
            None => Err(WordError::Option(command, word)),
        }
    }

    fn add_require(&mut self, word: &'a str) -> Result<bool, WordError<'a>>
        ensures { IsStep (with_options Command.Harden (so_far self.old) word.entry) (so_far self.new) result }
    {
        if word == "--require" {
            self.awaited = Awaited::Requirements(word);
            return Ok(false);
        }
        match word.strip_prefix("--require=") {
            Some(list) => self.add_requirements(word, list),
            None => Err(WordError::Option(Command::Harden, word)),
        }
    }

    /// What the words ask for, if no word follows.
    pub fn finish(self, alloc: Global, command: Command) -> Result<Request<'a>, WordError<'a>>
        ensures { IsParsed (finished command (so_far self.entry)) result }
    {
        match self.awaited {
            Awaited::Nothing => self.with_files(alloc, command),
            Awaited::Section(_, word) => Err(WordError::NoSection(word)),
            Awaited::Folder(word) | Awaited::Root(word) => {
                Err(WordError::NoFolder(command, word))
            }
            Awaited::Requirements(word) => Err(WordError::NoList(command, word)),
            Awaited::Format(word) => Err(WordError::NoFormat(word)),
        }
    }

    // One file or more, and for `address` the addresses after the first one.
    fn with_files(self, alloc: Global, command: Command) -> Result<Request<'a>, WordError<'a>>
        ensures { IsParsed (with_files command (so_far self.entry) self.entry.files.items) result }
    {
        let [_, others @ ..] = self.files.as_slice() else {
            return Err(WordError::NoFile(command));
        };
        match command {
            Command::Address => {
                let addresses = parse_addresses(alloc, others)?;
                self.at_addresses(addresses)
            }
            _ => Ok(self.run(command, Vec::new(alloc))),
        }
    }

    // Runs `address` on the first file. The other words have been read as addresses.
    fn at_addresses(
        mut self,
        addresses: Vec<AskedAddress<'a>>,
    ) -> Result<Request<'a>, WordError<'a>>
        ensures { IsParsed (with_addresses (so_far self.entry) (take 1 self.entry.files.items)
            (map sought addresses.entry.items)) result }
    {
        if addresses.is_empty() {
            return Err(WordError::NoAddress);
        }
        self.files.truncate(1);
        Ok(self.run(Command::Address, addresses))
    }

    // How records are listed.
    fn format(&self) -> Format
        ensures { result ≡ format_of (so_far self.now) }
    {
        if self.is_json {
            Format::Json
        } else {
            Format::Text(Style {
                is_wide: self.is_wide,
                is_colored: self.is_colored,
            })
        }
    }

    fn run(self, command: Command, addresses: Vec<AskedAddress<'a>>) -> Request<'a>
        ensures { Ok (answer_of result)
            ≡ run_on command (so_far self.entry) self.entry.files.items (map sought addresses.entry.items) }
    {
        let format = self.format();
        Request::Run(Job {
            command,
            parts: listed_parts(self.parts, &self.contents),
            symbols: self.symbols,
            contents: self.contents,
            files: self.files,
            addresses,
            requirements: self.requirements,
            format,
            is_recursive: self.is_recursive,
            searches: self.searches,
            has_cache: self.has_cache,
            root: self.root,
        })
    }
}

/// Returns the option of every command that a word is.
pub(crate) fn general_of(word: &str) -> Option<General>
    ensures { result ≡ general_of word.now }
{
    match word {
        "--json" => Some(General::Json),
        "-R" | "--recursive" => Some(General::Recursive),
        "--color=always" => Some(General::Colored),
        "--color=never" => Some(General::Plain),
        _ => None,
    }
}

// Whether a word asks for the help of a command: for `list`, `-h` is the file header.
fn is_help(command: Command, word: &str) -> bool
    ensures { result ≡ is_help command word.now }
{
    word == "--help" || word == "-h" && !matches!(command, Command::List)
}

// What a word is, if no option takes it. All words after `--` are files.
fn kind_of(command: Command, word: &str, has_ended: bool) -> Word
    ensures { result ≡ kind_of command word.now has_ended }
{
    if has_ended || word == "-" || !word.as_bytes().starts_with(b"-") {
        return Word::File;
    }
    if is_help(command, word) {
        return Word::Help;
    }
    if word == "--" {
        return Word::End;
    }
    match general_of(word) {
        Some(option) => Word::General(option),
        None => Word::Options,
    }
}

// What a word of letters or a long word adds to these.
fn options_in(command: Command, letters: Letters, word: &str) -> Option<Letters>
    ensures { result ≡ with_word_of command letters word.now }
{
    match word.strip_prefix("--") {
        Some(long) => add_long_word(command, letters, long),
        None => add_letters(command, letters, after_first(word.as_bytes())),
    }
}

// The bytes after the first one, which is `-`.
fn after_first(word: &[u8]) -> &[u8]
    ensures { result.now ≡ drop 1 word.now }
{
    match word {
        [_, letters @ ..] => letters,
        [] => word,
    }
}

// The parts that `list` lists: without options all.
fn listed_parts(parts: Parts, contents: &[Wanted]) -> Parts
    ensures { result ≡ listed_parts parts (map wanted_view contents.now) }
{
    if contents.is_empty() && !has_part(parts) {
        Parts::each(true)
    } else {
        parts
    }
}

fn has_part(parts: Parts) -> bool
    ensures { result ≡ has_part parts }
{
    let headers = parts.header || parts.sections || parts.groups || parts.segments;
    let symbols = parts.symbols || parts.dynamic_symbols || parts.dynamic;
    let lists = parts.relocations || parts.notes || parts.versions;
    let others = parts.chains || parts.attributes || parts.debug_links;
    headers || symbols || lists || others
}
