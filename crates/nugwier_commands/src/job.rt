//! What is told of a file for a command.
#![tactic(auto, using(nugwier_report::proofs::Saying::saying_both))]

ghost use Rattle.std.specs.Prelude.{OnOk};
ghost use Rattle.nugwier_commands.specs.Job.{IsSaidOf};
ghost use Rattle.nugwier_report.specs.Said.{IsToldAs};
ghost use Rattle.nugwier_report.specs.Whole.{file_of};
ghost use Rattle.nugwier_commands.specs.Words.{task_of};

use crate::list::tell_list;
use crate::words::{Command, Job};
use elf::endian::EndianParse;
use nugwier_dynamic::entries::tell_needed;
use nugwier_dynamic::hardening::tell_hardening;
use nugwier_report::listed::ListedFile;
use nugwier_report::problem::Stop;
use nugwier_report::tell::Tell;
use nugwier_sections::build_id::tell_build_id;
use nugwier_sections::check::tell_check;
use nugwier_sections::plan::tell_plan;
use nugwier_symbols::addresses::tell_addresses;
use nugwier_symbols::symbols::{tell_exports, tell_letters};
use std::alloc::Global;

/// Tells what a job asks for of a file of this path. Of `tree`, `bindings` and `starts` nothing is told of one file.
#[tactic(auto, unfolding(crate::specs::Job::IsSaidOf))]
pub fn tell_job<E: EndianParse, R: ListedFile<E>, T: Tell>(
    alloc: Global,
    job: &Job<'_>,
    path: &str,
    file: &R,
    tell: &mut T,
) -> Result<(), Stop>
    ensures { OnOk result (IsToldAs T.silent T.one (IsSaidOf E.little E.of_byte (task_of job.now) path.now
        (R.header file.now) (file_of (R.file file.now) (R.bytes file.now))) tell.old tell.new) }
{
    match job.command {
        Command::List => tell_list(alloc, job, file, tell),
        Command::Symbols => tell_letters(alloc, job.symbols, file, tell),
        Command::Exports => tell_exports(alloc, job.symbols, file, tell),
        Command::Needed => tell_needed(alloc, file, tell),
        Command::BuildId => tell_build_id(file, tell),
        Command::Plan => tell_plan(alloc, file, tell),
        Command::Check => tell_check(alloc, path, file, tell),
        Command::Harden => tell_hardening(alloc, path, job.requirements.as_slice(), file, tell),
        Command::Address => tell_addresses(alloc, job.addresses.as_slice(), file, tell),
        Command::Tree | Command::Bindings | Command::Starts => Ok(()),
    }
}
