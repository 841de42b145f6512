//! What is said of segments.
#![tactic(auto, using(nugwier_report::proofs::Saying::saying_both, nugwier_report::proofs::Parts::said_parts))]

ghost use Rattle.std.specs.Prelude.{◌≡◌, OnOk};
ghost use Rattle.nugwier_layouts.specs.Members.{members_said};
ghost use Rattle.nugwier_report.specs.Said.{saying};
ghost use Rattle.nugwier_sections.specs.SegmentRows.{interpreter_said, segment_members, segment_said};

use elf_names::flags::segment_flags;
use elf_names::segments::segment_type_name;
use elf_parts::segment::ProgramHeader;
use nugwier_layouts::json::{Member, Value};
use nugwier_layouts::layouts;
use nugwier_report::problem::Stop;
use nugwier_report::rows::Row;
use nugwier_report::tell::Tell;

/// A segment of a file for this machine (`e_machine`).
#[derive(Clone, Copy)]
pub struct SegmentRow {
    pub machine: u16,
}

impl Row for SegmentRow {
    type Item = ProgramHeader;

    ghost said = { λ row number segment. segment_said row.machine number segment };

    fn tell<T: Tell>(
        &self,
        number: u64,
        segment: &ProgramHeader,
        tell: &mut T,
    ) -> Result<(), Stop> {
        tell.state(
            &layouts::SEGMENT,
            &segment_members(self.machine, number, segment),
        )
    }
}

#[tactic(auto, unfolding(crate::specs::SegmentRows::segment_members))]
fn segment_members(machine: u16, number: u64, segment: &ProgramHeader) -> [Member<'static>; 11]
    ensures { members_said result ≡ segment_members machine number segment.now }
{
    [
        ("index", Value::Number(number)),
        ("p_type", Value::Number(segment.p_type as u64)),
        (
            "p_type_name",
            Value::Word(segment_type_name(machine, segment.p_type)),
        ),
        ("p_flags", Value::Number(segment.p_flags as u64)),
        (
            "p_flags_names",
            Value::Flags(segment_flags(), segment.p_flags as u64),
        ),
        ("p_offset", Value::Number(segment.p_offset)),
        ("p_vaddr", Value::Number(segment.p_vaddr)),
        ("p_paddr", Value::Number(segment.p_paddr)),
        ("p_filesz", Value::Number(segment.p_filesz)),
        ("p_memsz", Value::Number(segment.p_memsz)),
        ("p_align", Value::Number(segment.p_align)),
    ]
}

/// Says the path of the program that loads the file, which the segment of this number has.
pub fn tell_interpreter<T: Tell>(number: u64, path: &[u8], tell: &mut T) -> Result<(), Stop>
    ensures { OnOk result (tell.new ≡ saying T.one tell.old (interpreter_said number path.now)) }
{
    tell.state(
        &layouts::INTERPRETER,
        &[
            ("segment", Value::Number(number)),
            ("path", Value::Text(Some(path))),
        ],
    )
}
