//! What is said of the versions that a file defines, and of those that it needs of other files.
#![tactic(auto, using(nugwier_report::proofs::Saying::saying_both, nugwier_report::proofs::Parts::said_parts))]

ghost use Rattle.std.specs.Prelude.{◌≡◌, IfOk, OnOk};
ghost use Rattle.std.specs.Option.{option_copied};
ghost use Rattle.elf_parts.specs.gnu_symver.Lists.{ver_def_aux_left, ver_defs_left, ver_need_aux_left, ver_needs_left};
ghost use Rattle.nugwier_layouts.specs.Members.{members_said};
ghost use Rattle.nugwier_report.specs.Said.{saying};
ghost use Rattle.nugwier_dynamic.specs.VersionRows.{definition_members, definition_said, definitions_said};
ghost use Rattle.nugwier_dynamic.specs.VersionRows.{name_members, name_said, names_said, need_members, need_said};
ghost use Rattle.nugwier_dynamic.specs.VersionRows.{needs_said, version_members, version_name, version_name_unread};
ghost use Rattle.nugwier_dynamic.specs.VersionRows.{version_said, versions_said};

use elf_names::flags::version_flags;
use elf_parts::endian::EndianParse;
use elf_parts::gnu_symver::{
    VerDef, VerDefAux, VerDefAuxIterator, VerDefIterator, VerNeed, VerNeedAux, VerNeedAuxIterator,
    VerNeedIterator,
};
use elf_parts::string_table::TerminatedStrings;
use nugwier_layouts::json::{Member, Value};
use nugwier_layouts::layouts;
use nugwier_report::problem::{Item, Part, Stop, part_member};
use nugwier_report::tell::{Tell, readable};

/// The section of definitions or of needed versions, and the strings that have their names.
#[derive(Drop)]
pub struct VersionNames<'a> {
    pub part: Part,
    pub strings: TerminatedStrings<'a>,
}

impl<'a> VersionNames<'a> {
    // The name at this offset, for a version of this index. Says a problem if it cannot be read.
    fn name<T: Tell>(&self, index: u16, offset: u32, tell: &mut T) -> Result<Option<&'a [u8]>, Stop>
        ensures name { IfOk result (λ name. option_copied name ≡ version_name self.now.strings offset) }
        ensures wrong { OnOk result (tell.new ≡ saying T.one tell.old
            (version_name_unread self.now.part self.now.strings index offset)) }
    {
        let place = self.part.item(Item::VersionName(index as u64));
        readable(place, self.strings.get_raw(offset as usize), tell)
    }
}

/// Says the versions that a file defines, each with its names.
pub fn tell_definitions<E: EndianParse, T: Tell>(
    definitions: VerDefIterator<'_, E>,
    names: &VersionNames<'_>,
    tell: &mut T,
) -> Result<(), Stop>
    ensures { OnOk result (tell.new ≡ saying T.one tell.old
        (definitions_said names.now.part names.now.strings (ver_defs_left definitions.entry))) }
{
    for (definition, records) in definitions {
        tell_definition(&definition, records, names, tell)?;
    }
    Ok(())
}

fn tell_definition<E: EndianParse, T: Tell>(
    definition: &VerDef,
    records: VerDefAuxIterator<'_, E>,
    names: &VersionNames<'_>,
    tell: &mut T,
) -> Result<(), Stop>
    ensures { OnOk result (tell.new ≡ saying T.one tell.old
        (definition_said names.now.part names.now.strings (definition.now, ver_def_aux_left records.entry))) }
{
    tell.state(
        &layouts::VERDEF,
        &definition_members(names.part, definition),
    )?;
    tell_names(definition.vd_ndx, records, names, tell)?;
    tell.state(&layouts::VERDEF_END, &[])
}

fn definition_members(part: Part, definition: &VerDef) -> [Member<'static>; 6]
    ensures { members_said result ≡ definition_members part definition.now }
{
    [
        part_member(part),
        ("vd_flags", Value::Number(definition.vd_flags as u64)),
        (
            "vd_flags_names",
            Value::Flags(version_flags(), definition.vd_flags as u64),
        ),
        ("vd_ndx", Value::Number(definition.vd_ndx as u64)),
        ("vd_cnt", Value::Number(definition.vd_cnt as u64)),
        ("vd_hash", Value::Number(definition.vd_hash as u64)),
    ]
}

// Says the names of the definition of this index.
fn tell_names<E: EndianParse, T: Tell>(
    index: u16,
    records: VerDefAuxIterator<'_, E>,
    names: &VersionNames<'_>,
    tell: &mut T,
) -> Result<(), Stop>
    ensures { OnOk result (tell.new ≡ saying T.one tell.old
        (names_said names.now.part names.now.strings index (ver_def_aux_left records.entry))) }
{
    for aux in records {
        tell_name(index, &aux, names, tell)?;
    }
    Ok(())
}

fn tell_name<T: Tell>(
    index: u16,
    aux: &VerDefAux,
    names: &VersionNames<'_>,
    tell: &mut T,
) -> Result<(), Stop>
    ensures { OnOk result (tell.new ≡ saying T.one tell.old
        (name_said names.now.part names.now.strings index aux.now)) }
{
    let name = names.name(index, aux.vda_name, tell)?;
    tell.state(
        &layouts::VERDAUX,
        &name_members(names.part, index, aux, name),
    )
}

fn name_members<'a>(
    part: Part,
    index: u16,
    aux: &VerDefAux,
    name: Option<&'a [u8]>,
) -> [Member<'a>; 4]
    ensures { members_said result ≡ name_members part index aux.now (option_copied name.entry) }
{
    [
        part_member(part),
        ("vd_ndx", Value::Number(index as u64)),
        ("vda_name", Value::Number(aux.vda_name as u64)),
        ("name", Value::Text(name)),
    ]
}

/// Says the files from which versions are needed, each with these versions.
pub fn tell_needs<E: EndianParse, T: Tell>(
    needs: VerNeedIterator<'_, E>,
    names: &VersionNames<'_>,
    tell: &mut T,
) -> Result<(), Stop>
    ensures { OnOk result (tell.new ≡ saying T.one tell.old
        (needs_said names.now.part names.now.strings (ver_needs_left needs.entry))) }
{
    for (need, records) in needs {
        tell_need(&need, records, names, tell)?;
    }
    Ok(())
}

fn tell_need<E: EndianParse, T: Tell>(
    need: &VerNeed,
    records: VerNeedAuxIterator<'_, E>,
    names: &VersionNames<'_>,
    tell: &mut T,
) -> Result<(), Stop>
    ensures { OnOk result (tell.new ≡ saying T.one tell.old
        (need_said names.now.part names.now.strings (need.now, ver_need_aux_left records.entry))) }
{
    let file = names.name(0, need.vn_file, tell)?;
    tell.state(&layouts::VERNEED, &need_members(names.part, need, file))?;
    tell_versions(need.vn_file, records, names, tell)
}

fn need_members<'a>(part: Part, need: &VerNeed, name: Option<&'a [u8]>) -> [Member<'a>; 4]
    ensures { members_said result ≡ need_members part need.now (option_copied name.entry) }
{
    [
        part_member(part),
        ("vn_cnt", Value::Number(need.vn_cnt as u64)),
        ("vn_file", Value::Number(need.vn_file as u64)),
        ("name", Value::Text(name)),
    ]
}

// Says the versions that are needed from the file whose name is at this offset.
fn tell_versions<E: EndianParse, T: Tell>(
    file: u32,
    records: VerNeedAuxIterator<'_, E>,
    names: &VersionNames<'_>,
    tell: &mut T,
) -> Result<(), Stop>
    ensures { OnOk result (tell.new ≡ saying T.one tell.old
        (versions_said names.now.part names.now.strings file (ver_need_aux_left records.entry))) }
{
    for aux in records {
        tell_version(file, &aux, names, tell)?;
    }
    Ok(())
}

fn tell_version<T: Tell>(
    file: u32,
    version: &VerNeedAux,
    names: &VersionNames<'_>,
    tell: &mut T,
) -> Result<(), Stop>
    ensures { OnOk result (tell.new ≡ saying T.one tell.old
        (version_said names.now.part names.now.strings file version.now)) }
{
    let name = names.name(version.vna_other, version.vna_name, tell)?;
    tell.state(
        &layouts::VERNAUX,
        &version_members(names.part, file, version, name),
    )
}

fn version_members<'a>(
    part: Part,
    file: u32,
    version: &VerNeedAux,
    name: Option<&'a [u8]>,
) -> [Member<'a>; 8]
    ensures { members_said result ≡ version_members part file version.now (option_copied name.entry) }
{
    [
        part_member(part),
        ("vn_file", Value::Number(file as u64)),
        ("vna_hash", Value::Number(version.vna_hash as u64)),
        ("vna_flags", Value::Number(version.vna_flags as u64)),
        (
            "vna_flags_names",
            Value::Flags(version_flags(), version.vna_flags as u64),
        ),
        ("vna_other", Value::Number(version.vna_other as u64)),
        ("vna_name", Value::Number(version.vna_name as u64)),
        ("name", Value::Text(name)),
    ]
}
