//! What is said of whether a file is sound.
#![tactic(auto, using(nugwier_report::proofs::Saying::saying_both, nugwier_report::proofs::Parts::said_parts))]

ghost use Rattle.std.specs.Prelude.{◌≡◌, List, OnOk, Some, IfOk, string_bytes};
ghost use Rattle.std.specs.List.{flat_map};
ghost use Rattle.nugwier_layouts.specs.Members.{members_said};
ghost use Rattle.nugwier_report.specs.Said.{Said, saying};
ghost use Rattle.nugwier_sections.specs.Verdicts.{IsVerdictSaid, fault_members, fault_part, fault_said, fault_told};
ghost use Rattle.nugwier_sections.specs.Verdicts.{sound_file_members, sound_members, sound_said};

use elf_check::faults::FileFault;
use nugwier_layouts::json::{Member, Value};
use nugwier_layouts::layouts;
use nugwier_report::problem::{Part, Stop, part_member};
use nugwier_report::tell::Tell;
use std::alloc::Global;
use std::fmt;

/// Says that the file of this path is sound, or all its faults, if it has any.
pub fn tell_verdict<T: Tell>(
    alloc: Global,
    path: &str,
    faults: &[FileFault],
    tell: &mut T,
) -> Result<(), Stop>
    ensures { OnOk result ((said : List Said) × IsVerdictSaid path.now faults.now said
        × (tell.new ≡ saying T.one tell.old said)) }
{
    if faults.is_empty() {
        return tell_sound(path, tell);
    }
    tell_faults(alloc, faults, tell)
}

fn tell_sound<T: Tell>(path: &str, tell: &mut T) -> Result<(), Stop>
    ensures { OnOk result (tell.new ≡ saying T.one tell.old (sound_said path.now)) }
{
    tell.state(&layouts::SOUND_FILE, &sound_file_members(path))?;
    tell.state(&layouts::VERDICT, &sound_members())
}

fn sound_file_members<'a>(path: &'a str) -> [Member<'a>; 1]
    ensures { members_said result ≡ sound_file_members path.now }
{
    [("path", Value::Text(Some(path.as_bytes())))]
}

fn sound_members() -> [Member<'static>; 3]
    ensures { members_said result ≡ sound_members }
{
    [
        ("is_sound", Value::Flag(true)),
        ("section", Value::Null),
        ("fault", Value::Null),
    ]
}

fn tell_faults<T: Tell>(alloc: Global, faults: &[FileFault], tell: &mut T) -> Result<(), Stop>
    ensures { OnOk result (tell.new ≡ saying T.one tell.old (flat_map fault_said faults.now)) }
{
    for fault in faults {
        tell_fault(alloc, *fault, tell)?;
    }
    Ok(())
}

// Says a fault: a record with its text, then the problem.
fn tell_fault<T: Tell>(alloc: Global, fault: FileFault, tell: &mut T) -> Result<(), Stop>
    ensures { OnOk result (tell.new ≡ saying T.one tell.old (fault_said fault)) }
{
    let text = text_of(alloc, fault)?;
    tell.state(&layouts::VERDICT, &fault_members(fault, text.as_str()))?;
    tell.problem(part_of(fault).whole(), &ToldFault(fault))
}

fn fault_members<'a>(fault: FileFault, text: &'a str) -> [Member<'a>; 3]
    ensures { fault_told fault ≡ Some text.now → members_said result ≡ fault_members fault }
{
    [
        ("is_sound", Value::Flag(false)),
        part_member(part_of(fault)),
        ("fault", Value::Text(Some(text.as_bytes()))),
    ]
}

// Where a fault is: in a section, or in the file as a whole.
fn part_of(fault: FileFault) -> Part
    ensures { result ≡ fault_part fault }
{
    match fault {
        FileFault::Section { index, .. } => Part::Section(index as u64),
        _ => Part::File,
    }
}

// A fault, as it is told of its place.
#[derive(Drop)]
struct ToldFault(FileFault);

impl fmt::Display for ToldFault {
    ghost use Rattle.nugwier_sections.specs.Verdicts.{fault_told};

    ghost output = { λ told. fault_told told.0 };

    fn fmt<W: fmt::Write>(&self, f: &mut fmt::Formatter<W>) -> fmt::Result {
        match self.0 {
            FileFault::Section { fault, .. } => write!(f, "{fault}"),
            fault => write!(f, "{fault}"),
        }
    }
}

// What is told of a fault.
fn text_of(alloc: Global, fault: FileFault) -> Result<String, Stop>
    ensures { IfOk result (λ text. fault_told fault ≡ Some (string_bytes text)) }
{
    let told = ToldFault(fault);
    Ok(format!(in alloc; "{told}")?)
}
