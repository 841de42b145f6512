//! What is said of symbols.
#![tactic(auto, using(nugwier_report::proofs::Saying::saying_both, nugwier_report::proofs::Parts::said_parts))]

ghost use Rattle.std.specs.Prelude.{◌≡◌, ◌∷◌, [], IfOk, OnOk};
ghost use Rattle.std.specs.Option.{option_copied, option_map};
ghost use Rattle.std.specs.Result.{result_ok};
ghost use Rattle.elf_records.specs.StringTable.{string_at};
ghost use Rattle.nugwier_layouts.specs.Members.{content_of, members_said};
ghost use Rattle.nugwier_report.specs.Said.{saying, states, unread};
ghost use Rattle.nugwier_symbols.specs.SymbolRows.{form_view, is_data, is_export, is_function, is_listed, letter_in, letter_of};
ghost use Rattle.nugwier_symbols.specs.SymbolRows.{order_of};
ghost use Rattle.nugwier_symbols.specs.SymbolRows.{section_letter, shown_letter, st_shndx_name, symbol_layout, symbol_members};
ghost use Rattle.nugwier_symbols.specs.SymbolRows.{symbol_said, table_name, undefined_letter, version_known, version_read};
ghost use Rattle.nugwier_symbols.specs.SymbolRows.{data_letter, has_flag, is_for_debugging, weak_letter};
ghost use Rattle.nugwier_report.specs.SymbolVersion.{version_default, version_name};
ghost use Rattle.nugwier_symbols.specs.SymbolVersions.{version_view};
ghost use Rattle.nugwier_report.specs.declared.problem.Item.TheVariants.{SymbolName, SymbolVersion};
ghost use Rattle.nugwier_layouts.specs.Layouts.{layout_of};

use crate::symbol_options::{SymbolOptions, SymbolOrder};
use crate::symbol_versions::{ShownVersion, shown_version};
use elf_abi::{abi, to_str};
use elf_parts::endian::EndianParse;
use elf_parts::gnu_symver::SymbolVersions;
use elf_parts::section::SectionHeader;
use elf_parts::string_table::TerminatedStrings;
use elf_parts::symbol::Symbol;
use elf_records::slices::rest_of;
use nugwier_layouts::json::{Member, Value};
use nugwier_layouts::layouts;
use nugwier_layouts::layouts::Layout;
use nugwier_report::problem::{Item, Part, Stop};
use nugwier_report::rows::Row;
use nugwier_report::tell::{Tell, readable};
use std::marker::PhantomData;

/// What the names and the versions of symbols are read from.
#[derive(Drop)]
pub struct Names<'a, E: EndianParse, V: SymbolVersions<E> + Drop> {
    /// The part of the file that has the symbols.
    pub part: Part,
    pub strings: TerminatedStrings<'a>,
    /// The versions, if the file has any.
    pub versions: Option<V>,
    pub order: PhantomData<E>,
}

impl<'a, E: EndianParse, V: SymbolVersions<E> + Drop> Names<'a, E, V> {
    // The name of a symbol. It is a problem if it cannot be read.
    fn name<T: Tell>(
        &self,
        number: u64,
        symbol: &Symbol,
        tell: &mut T,
    ) -> Result<Option<&'a [u8]>, Stop>
        ensures name { IfOk result (λ name. option_copied name
            ≡ result_ok (string_at self.now.strings symbol.now.st_name)) }
        ensures wrong { OnOk result (tell.new ≡ saying T.one tell.old
            (unread (record { part = self.now.part; item = SymbolName number })
            (string_at self.now.strings symbol.now.st_name))) }
    {
        let place = self.part.item(Item::SymbolName(number));
        readable(place, self.strings.get_raw(symbol.st_name as usize), tell)
    }

    // The version of a symbol. It is a problem if it cannot be read.
    fn version<T: Tell>(
        &self,
        number: u64,
        symbol: &Symbol,
        tell: &mut T,
    ) -> Result<Option<ShownVersion<'_>>, Stop>
        ensures version { IfOk result (λ version. option_map version_view version
            ≡ version_known (version_read (option_map V.versions self.now.versions) number symbol.now)) }
        ensures wrong { OnOk result (tell.new ≡ saying T.one tell.old
            (unread (record { part = self.now.part; item = SymbolVersion number })
            (version_read (option_map V.versions self.now.versions) number symbol.now))) }
    {
        let Some(versions) = &self.versions else {
            return Ok(None);
        };
        match shown_version::<E, V>(versions, number as usize, symbol) {
            Ok(version) => Ok(version),
            Err(error) => {
                let place = self.part.item(Item::SymbolVersion(number));
                tell.problem(place, &error)?;
                Ok(None)
            }
        }
    }
}

/// What a row of a symbol shows.
#[derive(Clone, Copy)]
pub enum Form<'a> {
    /// All its fields.
    Fields,
    /// Its value and a letter, in the manner of `nm`.
    Letter {
        /// The sections that define symbols.
        sections: &'a [SectionHeader],
        /// The strings that have the names of the sections.
        names: &'a [u8],
        options: SymbolOptions,
    },
    /// Its name with its version alone, if the file defines it for others.
    Export {
        functions_only: bool,
    },
}

impl Form<'_> {
    /// The order of the rows.
    pub fn order(self) -> SymbolOrder
        ensures { result ≡ order_of (form_view self.entry) }
    {
        match self {
            Form::Letter { options, .. } => options.order,
            Form::Fields | Form::Export { .. } => SymbolOrder::Table,
        }
    }

    // Whether a symbol has a row.
    fn lists(self, number: u64, symbol: &Symbol) -> bool
        ensures { result ≡ is_listed (form_view self.entry) number symbol.now }
    {
        match self {
            Form::Fields => true,
            Form::Letter { options, .. } => options.selects(number, symbol),
            Form::Export { functions_only } => is_export(functions_only, symbol),
        }
    }

    // The kind of its record.
    fn layout(self, symbol: &Symbol) -> &'static Layout
        ensures { layout_of result.now ≡ symbol_layout (form_view self.entry) symbol.now }
    {
        match self {
            Form::Fields => &layouts::SYMBOL,
            Form::Letter { options, .. } => options.layout(symbol),
            Form::Export { .. } => &layouts::EXPORT,
        }
    }

    // Its letter, if rows show one.
    fn letter(self, symbol: &Symbol) -> Option<char>
        ensures { result ≡ shown_letter (form_view self.entry) symbol.now }
    {
        match self {
            Form::Letter {
                sections,
                names,
                ..
            } => Some(letter_of(sections, names, symbol)),
            Form::Fields | Form::Export { .. } => None,
        }
    }
}

/// What is said of a symbol.
#[derive(Drop)]
pub struct SymbolRow<'a, E: EndianParse, V: SymbolVersions<E> + Drop> {
    pub names: Names<'a, E, V>,
    pub form: Form<'a>,
}

impl<'a, E: EndianParse, V: SymbolVersions<E> + Drop> Row for SymbolRow<'a, E, V> {
    type Item = Symbol;

    ghost said = { λ row number symbol. symbol_said (form_view row.form) row.names.part row.names.strings
        (option_map V.versions row.names.versions) number symbol };

    fn tell<T: Tell>(&self, number: u64, symbol: &Symbol, tell: &mut T) -> Result<(), Stop> {
        if !self.form.lists(number, symbol) {
            return Ok(());
        }
        let name = self.names.name(number, symbol, tell)?;
        let version = self.names.version(number, symbol, tell)?;
        tell_symbol(
            self.form,
            self.names.part,
            number,
            symbol,
            name,
            version,
            tell,
        )
    }
}

// Tells a symbol, by its name and its version.
fn tell_symbol<'a, T: Tell>(
    form: Form<'_>,
    part: Part,
    number: u64,
    symbol: &Symbol,
    name: Option<&'a [u8]>,
    version: Option<ShownVersion<'a>>,
    tell: &mut T,
) -> Result<(), Stop>
    ensures { let form = form_view form.entry in OnOk result (tell.new ≡ saying T.one tell.old
        (states (symbol_layout form symbol.now) (symbol_members part number symbol.now (option_copied name.entry)
        (option_map version_view version.entry) (shown_letter form symbol.now)) ∷ [])) }
{
    let layout = form.layout(symbol);
    let letter = form.letter(symbol);
    let members = symbol_members(part, number, symbol, name, version, letter);
    tell.state(layout, &members)
}

fn symbol_members<'a>(
    part: Part,
    number: u64,
    symbol: &Symbol,
    name: Option<&'a [u8]>,
    version: Option<ShownVersion<'a>>,
    letter: Option<char>,
) -> [Member<'a>; 19]
    ensures { members_said result ≡ symbol_members part number symbol.now (option_copied name.entry)
        (option_map version_view version.entry) letter }
{
    let (version, is_default) = version_parts(version);
    let (binding, kind, visibility) = (symbol.st_bind(), symbol.st_symtype(), symbol.st_vis());
    [
        ("table", Value::Word(table_name(part))),
        ("index", Value::Number(number)),
        ("st_name", Value::Number(symbol.st_name as u64)),
        ("name", Value::Text(name)),
        ("st_info", Value::Number(symbol.st_info as u64)),
        ("st_bind", Value::Number(binding as u64)),
        ("st_bind_name", Value::Word(to_str::st_bind_to_str(binding))),
        ("st_type", Value::Number(kind as u64)),
        ("st_type_name", Value::Word(to_str::st_symtype_to_str(kind))),
        ("st_other", Value::Number(symbol.st_other as u64)),
        ("st_visibility", Value::Number(visibility as u64)),
        (
            "st_visibility_name",
            Value::Word(to_str::st_vis_to_str(visibility)),
        ),
        ("st_shndx", Value::Number(symbol.st_shndx as u64)),
        (
            "st_shndx_name",
            Value::Word(special_section(symbol.st_shndx)),
        ),
        ("st_value", Value::Number(symbol.st_value)),
        ("st_size", Value::Number(symbol.st_size)),
        ("version", Value::Text(version)),
        ("version_is_default", is_default),
        ("letter", Value::Character(letter)),
    ]
}

// The name of a version and whether it is the default one, if there is a version.
pub(crate) fn version_parts<'a>(
    version: Option<ShownVersion<'a>>,
) -> (Option<&'a [u8]>, Value<'static>)
    ensures name { option_copied result.0 ≡ version_name (option_map version_view version.entry) }
    ensures is_default { content_of result.1 ≡ version_default (option_map version_view version.entry) }
{
    match version {
        Some(version) => (
            Some(version.name.as_bytes()),
            Value::Flag(version.is_default),
        ),
        None => (None, Value::Null),
    }
}

// The type of the section that has a table of symbols.
fn table_name(part: Part) -> Option<&'static str>
    ensures { option_copied result ≡ table_name part }
{
    match part {
        Part::Symbols => Some("SHT_SYMTAB"),
        Part::DynamicSymbols => Some("SHT_DYNSYM"),
        _ => None,
    }
}

// The name of a section number that is no section.
fn special_section(st_shndx: u16) -> Option<&'static str>
    ensures { option_copied result ≡ st_shndx_name st_shndx }
{
    match st_shndx {
        abi::SHN_UNDEF => Some("SHN_UNDEF"),
        abi::SHN_ABS => Some("SHN_ABS"),
        abi::SHN_COMMON => Some("SHN_COMMON"),
        abi::SHN_XINDEX => Some("SHN_XINDEX"),
        _ => None,
    }
}

// The letter of a symbol, as `nm` has it: in lower case if the symbol is local.
fn letter_of(sections: &[SectionHeader], names: &[u8], symbol: &Symbol) -> char
    ensures { result ≡ letter_of sections.now names.now symbol.now }
{
    if symbol.st_shndx == abi::SHN_COMMON {
        return 'C';
    }
    if symbol.is_undefined() {
        return undefined_letter(symbol);
    }
    if symbol.st_symtype() == abi::STT_GNU_IFUNC {
        return 'i';
    }
    if symbol.st_bind() == abi::STB_WEAK {
        return weak_letter(symbol);
    }
    if symbol.st_bind() == abi::STB_GNU_UNIQUE {
        return 'u';
    }
    let letter = section_letter(sections, names, symbol.st_shndx);
    if symbol.st_bind() == abi::STB_LOCAL {
        letter
    } else {
        letter.to_ascii_uppercase()
    }
}

fn undefined_letter(symbol: &Symbol) -> char
    ensures { result ≡ undefined_letter symbol.now }
{
    if symbol.st_bind() != abi::STB_WEAK {
        'U'
    } else if symbol.st_symtype() == abi::STT_OBJECT {
        'v'
    } else {
        'w'
    }
}

fn weak_letter(symbol: &Symbol) -> char
    ensures { result ≡ weak_letter symbol.now }
{
    if symbol.st_symtype() == abi::STT_OBJECT {
        'V'
    } else {
        'W'
    }
}

// The letter of what is in a section, or of an absolute value.
fn section_letter(sections: &[SectionHeader], names: &[u8], st_shndx: u16) -> char
    ensures { result ≡ section_letter sections.now names.now st_shndx }
{
    if st_shndx == abi::SHN_ABS {
        return 'a';
    }
    match sections.get(st_shndx as usize) {
        Some(section) => letter_in(names, section),
        None => '?',
    }
}

// The letter of a section: of code, what has no bytes in the file, data that can be written, and data that cannot; of
// what is not loaded, what a debugger reads, what can be written, and the rest.
fn letter_in(names: &[u8], section: &SectionHeader) -> char
    ensures { result ≡ letter_in names.now section.now }
{
    if has_flag(abi::SHF_EXECINSTR, section) {
        't'
    } else if section.sh_type == abi::SHT_NOBITS {
        'b'
    } else if has_flag(abi::SHF_ALLOC, section) {
        data_letter(section)
    } else if is_for_debugging(rest_of(section.sh_name as usize, names)) {
        'N'
    } else if has_flag(abi::SHF_WRITE, section) {
        '?'
    } else {
        'n'
    }
}

fn has_flag(flag: u32, section: &SectionHeader) -> bool
    ensures { result ≡ has_flag flag section.now }
{
    section.sh_flags & flag as u64 != 0
}

fn data_letter(section: &SectionHeader) -> char
    ensures { result ≡ data_letter section.now }
{
    if has_flag(abi::SHF_WRITE, section) {
        'd'
    } else {
        'r'
    }
}

// Whether a name, with the strings after it, is that of a section for debuggers.
fn is_for_debugging(name: &[u8]) -> bool
    ensures { result ≡ is_for_debugging name.now }
{
    name.starts_with(b".debug")
        || name.starts_with(b".zdebug")
        || name.starts_with(b".gnu.debuglto_.debug_")
        || name.starts_with(b".gnu.linkonce.wi.")
        || name.starts_with(b".line")
        || name.starts_with(b".stab")
        || name.starts_with(b".gdb_index\0")
}

// Whether the symbol is a function, or unless only functions are asked for data, that this file defines for others.
fn is_export(functions_only: bool, symbol: &Symbol) -> bool
    ensures { result ≡ is_export functions_only symbol.now }
{
    let is_wanted = is_function(symbol) || !functions_only && is_data(symbol);
    !symbol.is_undefined() && symbol.st_bind() != abi::STB_LOCAL && is_wanted
}

// A function may be chosen when the file is loaded (`STT_GNU_IFUNC`).
fn is_function(symbol: &Symbol) -> bool
    ensures { result ≡ is_function symbol.now }
{
    let kind = symbol.st_symtype();
    kind == abi::STT_FUNC || kind == abi::STT_GNU_IFUNC
}

// An absolute symbol, as of a version, is no data.
fn is_data(symbol: &Symbol) -> bool
    ensures { result ≡ is_data symbol.now }
{
    let kind = symbol.st_symtype();
    let is_object = kind == abi::STT_OBJECT || kind == abi::STT_TLS || kind == abi::STT_COMMON;
    is_object && symbol.st_shndx != abi::SHN_ABS
}
