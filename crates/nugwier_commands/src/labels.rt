//! The names of the sections, for what is told of them.
ghost use Rattle.std.specs.Prelude.{◌≡◌, IfOk};
ghost use Rattle.nugwier_commands.specs.Labels.{has_sections, names_told, tells_sections};
ghost use Rattle.nugwier_report.specs.Whole.{file_of};
ghost use Rattle.nugwier_commands.specs.Words.{task_of};

use crate::words::{Command, Job, Parts};
use elf::endian::EndianParse;
use nugwier_report::headings::known_names;
use nugwier_report::listed::ListedFile;
use nugwier_report::names::Labels;
use nugwier_report::problem::Stop;

/// Returns the sections of a file, with their names if problems of this job are told with them, and if they can be
/// read.
pub fn labels_of<'f, E: EndianParse, R: ListedFile<E>>(
    job: &Job<'_>,
    file: &'f R,
) -> Result<Labels<'f>, Stop>
    ensures class { IfOk result (λ labels. labels.class ≡ (R.file file.now).class) }
    ensures sections { IfOk result (λ labels. labels.sections.now ≡ (R.file file.now).sections) }
    ensures names { IfOk result (λ labels. labels.names
        ≡ names_told (task_of job.now) (file_of (R.file file.now) (R.bytes file.now))) }
{
    let names = if tells_sections(job) {
        known_names(file)?
    } else {
        None
    };
    Ok(Labels {
        class: file.class(),
        sections: file.section_list(),
        names,
    })
}

// Whether something of a section can be wrong. Headers alone need no names, which may be far away in a large file.
fn tells_sections(job: &Job<'_>) -> bool
    ensures { result ≡ tells_sections job.now.command (task_of job.now) }
{
    match job.command {
        Command::Plan | Command::BuildId => false,
        Command::Tree | Command::Bindings | Command::Starts => false,
        Command::List => has_sections(&job.parts) || !job.contents.is_empty(),
        _ => true,
    }
}

fn has_sections(parts: &Parts) -> bool
    ensures { result ≡ has_sections parts.now }
{
    let listed = parts.sections || parts.groups || parts.symbols || parts.dynamic_symbols;
    let others = parts.notes || parts.versions || parts.chains;
    let last = parts.attributes || parts.debug_links;
    listed || parts.dynamic || parts.relocations || others || last
}
