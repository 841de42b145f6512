//! What is said of how a file is hardened against attacks, and what may be required of it.
#![tactic(auto, using(nugwier_report::proofs::Saying::saying_both))]

ghost use Rattle.std.specs.Prelude.{◌≡◌, OnOk};
ghost use Rattle.std.specs.Option.{option_copied, option_map};
ghost use Rattle.nugwier_dynamic.specs.HardeningRows.{is_yes, features_content, flag_content, has_feature};
ghost use Rattle.nugwier_dynamic.specs.HardeningRows.{hardening_members, hardening_said, is_fortified, is_pie};
ghost use Rattle.nugwier_dynamic.specs.HardeningRows.{meets, path_content};
ghost use Rattle.nugwier_dynamic.specs.HardeningRows.{paths_view, relro_name, requirement_word, row_members, shown_path};
ghost use Rattle.nugwier_dynamic.specs.HardeningRows.{word_if};
ghost use Rattle.nugwier_layouts.specs.Members.{content_of, members_said};
ghost use Rattle.nugwier_report.specs.Said.{saying};

use nugwier_layouts::json::{Member, Value, number_value};
use nugwier_layouts::layouts;
use nugwier_notes::features::{feature_flags, is_aarch64, is_x86};
use nugwier_report::problem::Stop;
use nugwier_report::tell::Tell;
use nugwier_sections::header::{FileKind, kind_name};
use std::fmt;

/// What is only read after the file is relocated: nothing, a part, or all that relocations change.
#[derive(Clone, Copy)]
pub enum Relro {
    Nothing,
    Partial,
    Full,
}

impl Relro {
    fn name(self) -> &'static str
        ensures { result.now ≡ relro_name self }
    {
        match self {
            Relro::Nothing => "none",
            Relro::Partial => "partial",
            Relro::Full => "full",
        }
    }
}

/// How a file is hardened, apart from its search paths. What is not known has no value.
#[derive(Clone, Copy)]
pub struct Hardening {
    /// The machine (`e_machine`).
    pub machine: u16,
    pub kind: Option<FileKind>,
    pub relro: Option<Relro>,
    /// Whether all symbols are bound when it is loaded.
    pub binds_now: Option<bool>,
    /// Whether its stack is not executable.
    pub has_nx: Option<bool>,
    /// The number of segments that are loaded to be written and executed.
    pub writable_code: u64,
    /// Whether functions check their stack before they return.
    pub has_canary: Option<bool>,
    /// The number of functions that it calls which check the size of their buffers, and of those that could.
    pub fortified: Option<u64>,
    pub fortifiable: Option<u64>,
    /// Whether a search path has a folder that depends on where the program is started.
    pub is_path_unsafe: Option<bool>,
    /// The features that all of its code has, by the machine.
    pub features: Option<u64>,
    pub is_stripped: bool,
}

/// The search paths of a file, if it has any.
#[derive(Clone, Copy)]
pub struct SearchPaths<'a> {
    pub rpath: Option<&'a [u8]>,
    pub runpath: Option<&'a [u8]>,
}

/// What may be required of a file.
#[derive(Debug, Clone, Copy)]
pub enum Requirement {
    Pie,
    Relro,
    BindNow,
    Nx,
    Wx,
    Canary,
    Fortify,
    Runpath,
    Ibt,
    Shstk,
    Bti,
    Pac,
    Stripped,
}

impl Requirement {
    /// The word that asks for it.
    pub fn word(self) -> &'static str
        ensures { result.now ≡ requirement_word self }
    {
        match self {
            Requirement::Pie => "pie",
            Requirement::Relro => "relro",
            Requirement::BindNow => "bindnow",
            Requirement::Nx => "nx",
            Requirement::Wx => "wx",
            Requirement::Canary => "canary",
            Requirement::Fortify => "fortify",
            Requirement::Runpath => "runpath",
            Requirement::Ibt => "ibt",
            Requirement::Shstk => "shstk",
            Requirement::Bti => "bti",
            Requirement::Pac => "pac",
            Requirement::Stripped => "stripped",
        }
    }

    /// Whether a file meets it. What is not known is not met.
    pub fn is_met(self, hardening: &Hardening) -> bool
        ensures { result ≡ meets self hardening.now }
    {
        match self {
            Requirement::Pie => is_pie(hardening.kind),
            Requirement::Relro => matches!(hardening.relro, Some(Relro::Full)),
            Requirement::BindNow => is_yes(hardening.binds_now),
            Requirement::Nx => is_yes(hardening.has_nx),
            Requirement::Wx => hardening.writable_code == 0,
            Requirement::Canary => is_yes(hardening.has_canary),
            Requirement::Fortify => is_fortified(hardening.fortified, hardening.fortifiable),
            Requirement::Runpath => hardening.is_path_unsafe == Some(false),
            Requirement::Ibt => is_x86(hardening.machine) && has_feature(hardening.features, 1),
            Requirement::Shstk => is_x86(hardening.machine) && has_feature(hardening.features, 2),
            Requirement::Bti => is_aarch64(hardening.machine) && has_feature(hardening.features, 1),
            Requirement::Pac => is_aarch64(hardening.machine) && has_feature(hardening.features, 2),
            Requirement::Stripped => hardening.is_stripped,
        }
    }
}

// What is told of a file that does not meet it.
impl fmt::Display for Requirement {
    ghost use Rattle.std.specs.Prelude.{Some};
    ghost use Rattle.nugwier_dynamic.specs.HardeningRows.{lack_text};

    ghost output = { λ requirement. Some (lack_text requirement) };

    fn fmt<W: fmt::Write>(&self, f: &mut fmt::Formatter<W>) -> fmt::Result {
        f.write_str(match self {
            Requirement::Pie => "not position-independent",
            Requirement::Relro => "not full RELRO",
            Requirement::BindNow => "symbols are not bound at the start",
            Requirement::Nx => "the stack may be executable",
            Requirement::Wx => "a segment is writable and executable",
            Requirement::Canary => "no stack canary",
            Requirement::Fortify => "no fortified functions",
            Requirement::Runpath => "a search path is unsafe",
            Requirement::Ibt => "no IBT",
            Requirement::Shstk => "no SHSTK",
            Requirement::Bti => "no BTI",
            Requirement::Pac => "no PAC",
            Requirement::Stripped => "not stripped",
        })
    }
}

fn is_pie(kind: Option<FileKind>) -> bool
    ensures { result ≡ is_pie kind }
{
    matches!(
        kind,
        Some(FileKind::Pie | FileKind::StaticPie | FileKind::SharedObject)
    )
}

// Some of the functions that could check the size of their buffers do, or there is none.
fn is_fortified(fortified: Option<u64>, fortifiable: Option<u64>) -> bool
    ensures { result ≡ is_fortified fortified fortifiable }
{
    match (fortified, fortifiable) {
        (Some(fortified), Some(fortifiable)) => fortified > 0 || fortifiable == 0,
        _ => false,
    }
}

fn has_feature(features: Option<u64>, feature: u64) -> bool
    ensures { result ≡ has_feature features feature }
{
    match features {
        Some(features) => features & feature != 0,
        None => false,
    }
}

/// Says how the file of this path is hardened: a row for people, and an object of JSON.
pub fn tell_hardening<T: Tell>(
    path: &str,
    hardening: &Hardening,
    paths: SearchPaths<'_>,
    tell: &mut T,
) -> Result<(), Stop>
    ensures { OnOk result (tell.new
        ≡ saying T.one tell.old (hardening_said path.now hardening.now (paths_view paths.entry))) }
{
    tell.state(
        &layouts::HARDENED_FILE,
        &row_members(path, hardening, paths),
    )?;
    tell.state(&layouts::HARDENING, &hardening_members(hardening, paths))
}

// What is known to hold.
fn is_yes(flag: Option<bool>) -> bool
    ensures { result ≡ is_yes flag }
{
    match flag {
        Some(holds) => holds,
        None => false,
    }
}

fn row_members<'a>(path: &'a str, hardening: &Hardening, paths: SearchPaths<'a>) -> [Member<'a>; 14]
    ensures { members_said result ≡ row_members path.now hardening.now (paths_view paths.entry) }
{
    let is_unsafe = Some(is_yes(hardening.is_path_unsafe));
    [
        ("path", Value::Text(Some(path.as_bytes()))),
        ("pie", Value::Word(kind_name(hardening.kind))),
        ("relro", Value::Word(relro_name(hardening.relro))),
        (
            "binding",
            Value::Word(word_if(hardening.binds_now, "now", "lazy")),
        ),
        (
            "stack",
            Value::Word(word_if(hardening.has_nx, "nx", "executable")),
        ),
        (
            "writable_and_executable",
            Value::Number(hardening.writable_code),
        ),
        (
            "canary",
            Value::Word(word_if(hardening.has_canary, "canary", "no canary")),
        ),
        ("fortified", number_value(hardening.fortified)),
        ("fortifiable", number_value(hardening.fortifiable)),
        ("rpath", shown_path(paths.rpath)),
        ("runpath", shown_path(paths.runpath)),
        (
            "unsafe_path",
            Value::Word(word_if(is_unsafe, "  unsafe path", "")),
        ),
        (
            "branch_protection",
            features_value(hardening.machine, hardening.features),
        ),
        (
            "stripped",
            Value::Word(word_if(Some(hardening.is_stripped), "  stripped", "")),
        ),
    ]
}

fn hardening_members<'a>(hardening: &Hardening, paths: SearchPaths<'a>) -> [Member<'a>; 14]
    ensures { members_said result ≡ hardening_members hardening.now (paths_view paths.entry) }
{
    [
        ("pie", Value::Word(kind_name(hardening.kind))),
        ("relro", Value::Word(relro_name(hardening.relro))),
        ("bind_now", flag_value(hardening.binds_now)),
        (
            "stack",
            Value::Word(word_if(hardening.has_nx, "nx", "executable")),
        ),
        (
            "writable_and_executable",
            Value::Number(hardening.writable_code),
        ),
        ("canary", flag_value(hardening.has_canary)),
        ("fortified", number_value(hardening.fortified)),
        ("fortifiable", number_value(hardening.fortifiable)),
        ("rpath", path_value(paths.rpath)),
        ("runpath", path_value(paths.runpath)),
        ("unsafe_path", flag_value(hardening.is_path_unsafe)),
        ("branch_protection", number_value(hardening.features)),
        (
            "branch_protection_names",
            features_value(hardening.machine, hardening.features),
        ),
        ("stripped", Value::Flag(hardening.is_stripped)),
    ]
}

fn relro_name(relro: Option<Relro>) -> Option<&'static str>
    ensures { option_copied result ≡ option_map relro_name relro }
{
    match relro {
        Some(relro) => Some(relro.name()),
        None => None,
    }
}

// One word if a flag is set, and another one if it is not.
fn word_if(flag: Option<bool>, yes: &'static str, no: &'static str) -> Option<&'static str>
    ensures { option_copied result ≡ word_if flag yes.now no.now }
{
    match flag {
        Some(true) => Some(yes),
        Some(false) => Some(no),
        None => None,
    }
}

fn flag_value(flag: Option<bool>) -> Value<'static>
    ensures { content_of result ≡ flag_content flag }
{
    match flag {
        Some(flag) => Value::Flag(flag),
        None => Value::Null,
    }
}

fn features_value(machine: u16, features: Option<u64>) -> Value<'static>
    ensures { content_of result ≡ features_content machine features }
{
    match features {
        Some(features) => Value::Flags(feature_flags(machine), features),
        None => Value::Null,
    }
}

fn path_value(path: Option<&[u8]>) -> Value<'_>
    ensures { content_of result ≡ path_content (option_copied path.entry) }
{
    match path {
        Some(path) => Value::Text(Some(path)),
        None => Value::Null,
    }
}

// People see a dash if there is no path.
fn shown_path(path: Option<&[u8]>) -> Value<'_>
    ensures { content_of result ≡ shown_path (option_copied path.entry) }
{
    match path {
        Some(path) => Value::Text(Some(path)),
        None => Value::Text(Some(b"-")),
    }
}
