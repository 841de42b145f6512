//! What is required of files, in a list with commas.
ghost use Rattle.nugwier_commands.specs.Words.{AreAdded, requirement_of, requirements_in, words_in};
ghost use Rattle.std.specs.Prelude.{◌≡◌, IfOk, map};

use nugwier_dynamic::hardening_rows::Requirement;
use std::alloc::{AllocError, Global};

static REQUIREMENTS: [Requirement; 13] = [
    Requirement::Pie,
    Requirement::Relro,
    Requirement::BindNow,
    Requirement::Nx,
    Requirement::Wx,
    Requirement::Canary,
    Requirement::Fortify,
    Requirement::Runpath,
    Requirement::Ibt,
    Requirement::Shstk,
    Requirement::Bti,
    Requirement::Pac,
    Requirement::Stripped,
];

/// Adds the requirements that a list names. Returns whether each word of it is one; after one that is none, no more are
/// added.
pub(crate) fn add_requirements(
    alloc: Global,
    list: &str,
    requirements: &mut Vec<Requirement>,
) -> Result<bool, AllocError>
    ensures { IfOk result (AreAdded (requirements_in list.now requirements.old.items) requirements.new.items) }
{
    let words = words_in(alloc, list.as_bytes())?;
    for word in words.as_slice() {
        match requirement_of(*word) {
            Some(requirement) => requirements.push(requirement)?,
            None => return Ok(false),
        }
    }
    Ok(true)
}

// The words of a list.
fn words_in<'a>(alloc: Global, list: &'a [u8]) -> Result<Vec<&'a [u8]>, AllocError>
    ensures { IfOk result (λ words. map (λ word. word.now) words.items ≡ words_in list.now) }
{
    list.split(|byte| *byte == b',').collect(alloc)
}

#[tactic(auto, unfolding(crate::specs::Words::requirement_of))]
fn requirement_of(word: &[u8]) -> Option<Requirement>
    ensures { result ≡ requirement_of word.now }
{
    REQUIREMENTS
        .iter()
        .copied()
        .find(|requirement| requirement.word().as_bytes() == word)
}
