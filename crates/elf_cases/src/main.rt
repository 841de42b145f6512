//! Without words, runs the test cases: makes the library's calls of the file `calls`, a line each, and prints what each
//! returns; then does the same with the command lines of the file `cases`, and with the example callers of the file
//! `callers`.
//!
//! `elf_cases CALLER FILE..` prints the results of an example caller for each file. `resolver=NAME` looks a definition
//! of a name up in all of them, `resolve=NAME` any symbol of it, and `bindings` binds the undefined symbols of all of
//! them, a program and its libraries in search order.
//!
//! In test cases bytes are hexadecimal digits, `-` for none, or `@NAME` for the small file NAME. A result is shown as
//! `{:?}` shows it, an error with its text after it. It is written straight to standard output, since a text that is
//! built first costs much of the time of a check.
#![tactic(auto)]

mod addresses;
mod archives;
mod attributes;
mod bindings;
mod caches;
mod callers;
mod cases;
mod checks;
mod common;
mod configuration;
mod debug_links;
mod ends;
mod files;
mod hashes;
mod loaded;
mod methods;
mod names;
mod notes;
mod numbers;
mod records;
mod relr;
mod row_words;
mod rows;
mod searches;
mod shown;
mod sources;
mod strings;
mod version_words;
mod versions;

use row_words::Words;
use rows::RowError;
use shown::{Shown, show_end};
use std::{env, fs};

fn main(rt: HostRuntime) -> Result<(), RowError> {
    let words: Vec<String> = env::args(&rt)?.skip(1).collect(rt.alloc())?;
    match words.as_slice().split_first() {
        Some((caller, names)) => callers::show_files(&rt, caller.as_str(), names),
        None => show_all(&rt),
    }
}

/// Runs all test cases.
fn show_all(rt: &HostRuntime) -> Result<(), RowError> {
    let calls = fs::read_to_string(rt, "calls")?;
    for call in calls.lines() {
        show_row(rt, call)?;
    }
    cases::show_cases(rt)?;
    callers::show_rows(rt)
}

fn show_row(rt: &HostRuntime, row: &str) -> Result<(), RowError> {
    let mut words = Words::new(row);
    print!(rt; "{row}: ")?;
    show_end(rt, show_call(rt, &mut words))?;
    println!(rt)?;
    words.end()
}

/// What a call answers.
fn show_call(rt: &HostRuntime, words: &mut Words<'_>) -> Shown {
    match words.word() {
        "number" => numbers::show_number(rt, words),
        "order" => numbers::show_order(rt, words),
        "ident" => files::show_ident(rt, words),
        "tail" => files::show_tail(rt, words),
        "record" => records::show_record(rt, words),
        "parts" => records::show_parts(rt, words),
        "notes" => notes::show_notes(rt, words),
        "hash" => hashes::show_hashes(rt, words),
        "find" => hashes::show_find(rt, words),
        "check" => checks::show_check(rt, true, words),
        "all" => checks::show_all(rt, words),
        "verdict" => checks::show_check(rt, false, words),
        "linked" => versions::show_linked(rt, words),
        "version" => versions::show_version(rt, words),
        "source" => sources::show_source(rt, words),
        "string" => strings::show_string(rt, words),
        "ends" => ends::show_ends(rt, words),
        "values" => names::show_names(rt, words),
        "text" => names::show_value(rt, words),
        kind => show_tool(rt, kind, words),
    }
}

/// What a call of the crates above `elf` answers, or one of an opened file.
fn show_tool(rt: &HostRuntime, kind: &str, words: &mut Words<'_>) -> Shown {
    match kind {
        "addresses" => addresses::show_addresses(rt, words),
        "archive" => archives::show_archive(rt, words),
        "attributes" => attributes::show_attributes(rt, words),
        "cache" => caches::show_cache(rt, words),
        "candidates" => searches::show_candidates(rt, words),
        "conf" => configuration::show_conf(rt, words),
        "debug_alt_link" => debug_links::show_alt_link(rt, words),
        "debug_link" => debug_links::show_link(rt, words),
        "definition" => bindings::show_definition(rt, words),
        "expand" => searches::show_expansion(rt, words),
        "loaded" => loaded::show_loaded(rt, words),
        "reference_kind" => bindings::show_kind(rt, words),
        "relr" => relr::show_relr(rt, words),
        "taken" => bindings::show_taken(rt, words),
        "version_of" => bindings::show_version_of(rt, words),
        kind => files::show_file(rt, kind, words),
    }
}
