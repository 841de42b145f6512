//! What is said of the memory that a loader maps.
#![tactic(auto, using(nugwier_report::proofs::Saying::saying_both, nugwier_report::proofs::Parts::said_parts))]

ghost use Rattle.std.specs.Prelude.{◌≡◌};
ghost use Rattle.nugwier_sections.specs.MappingRows.{mapping_members, mapping_said};
ghost use Rattle.nugwier_layouts.specs.Members.{members_said};

use elf_names::flags::segment_flags;
use elf_tools::load_plan::Mapping;
use nugwier_layouts::json::{Member, Value};
use nugwier_layouts::layouts;
use nugwier_report::problem::Stop;
use nugwier_report::rows::Row;
use nugwier_report::tell::Tell;

/// A mapping.
#[derive(Clone, Copy)]
pub struct MappingRow;

impl Row for MappingRow {
    type Item = Mapping;

    ghost said = { λ row number mapping. mapping_said number mapping };

    fn tell<T: Tell>(&self, _number: u64, mapping: &Mapping, tell: &mut T) -> Result<(), Stop> {
        tell.state(&layouts::MAPPING, &mapping_members(mapping))
    }
}

#[tactic(auto, unfolding(crate::specs::MappingRows::mapping_members))]
fn mapping_members(mapping: &Mapping) -> [Member<'static>; 6]
    ensures { members_said result ≡ mapping_members mapping.now }
{
    [
        ("p_vaddr", Value::Number(mapping.address)),
        ("p_memsz", Value::Number(mapping.memory_size)),
        ("p_offset", Value::Number(mapping.offset)),
        ("p_filesz", Value::Number(mapping.file_size)),
        ("p_flags", Value::Number(mapping.flags as u64)),
        (
            "p_flags_names",
            Value::Flags(segment_flags(), mapping.flags as u64),
        ),
    ]
}
