//! What is said of build attributes.
#![tactic(auto, using(nugwier_report::proofs::Saying::saying_both))]

ghost use Rattle.std.specs.Prelude.{◌≡◌, OnOk};
ghost use Rattle.std.specs.Option.{option_copied};
ghost use Rattle.elf_attributes.specs.Attributes.{attribute_view, subsection_view};
ghost use Rattle.elf_records.specs.Number.{ok_map};
ghost use Rattle.nugwier_notes.specs.Attributes.{attribute_layout, attribute_members, attribute_said, attributes_said};
ghost use Rattle.nugwier_notes.specs.Attributes.{attributes_wrong, build_attributes_said, listed_said, number_name};
ghost use Rattle.nugwier_notes.specs.Attributes.{place_view, scope_members, scope_said, scopes_said, subsection_said};
ghost use Rattle.nugwier_notes.specs.Attributes.{subsections_said, target_members, targets_said, text_content};
ghost use Rattle.nugwier_layouts.specs.Members.{content_of, members_said};
ghost use Rattle.nugwier_report.specs.Said.{saying};
ghost use Rattle.nugwier_layouts.specs.Layouts.{layout_of};

use crate::properties::NoteFile;
use elf_attributes::attributes::{
    Attribute, AttributeError, Scope, Subsection, Vendor, first_attribute, first_scope,
    first_subsection, subsections_of, vendor_of,
};
use elf_attributes::leb128::{after_list, first_number};
use elf_names::attributes::{attribute_tag_name, attribute_value_name, scope_name};
use nugwier_layouts::json::{Member, Value, number_value};
use nugwier_layouts::layouts;
use nugwier_layouts::layouts::Layout;
use nugwier_report::problem::{Part, Stop};
use nugwier_report::tell::Tell;

/// Where attributes are: the machine of the file, the number of their section, the name of their vendor, and the tag that
/// says what they are of.
#[derive(Clone, Copy)]
pub struct AttributePlace<'a> {
    pub machine: u16,
    pub section: u64,
    pub vendor: &'a [u8],
    pub scope: u64,
}

/// Says the build attributes of a section, by its number.
pub fn tell_build_attributes<T: Tell>(
    file: NoteFile,
    section: u64,
    bytes: &[u8],
    tell: &mut T,
) -> Result<(), Stop>
    ensures { OnOk result (tell.new ≡ saying T.one tell.old (build_attributes_said section (file, bytes.now))) }
{
    match subsections_of(bytes) {
        Ok(subsections) => tell_subsections(file, section, subsections, tell),
        Err(error) => tell_error(section, error, tell),
    }
}

fn tell_error<T: Tell>(section: u64, error: AttributeError, tell: &mut T) -> Result<(), Stop>
    ensures { OnOk result (tell.new ≡ saying T.one tell.old (attributes_wrong section error)) }
{
    tell.problem(Part::Section(section).whole(), &error)
}

// ---- subsections

fn tell_subsections<T: Tell>(
    file: NoteFile,
    section: u64,
    bytes: &[u8],
    tell: &mut T,
) -> Result<(), Stop>
    ensures { OnOk result (tell.new ≡ saying T.one tell.old (subsections_said file section bytes.now bytes.now)) }
{
    let mut rest = bytes;
    let mut left = bytes;
    while let Some((_first, others)) = left.split_first() {
        if rest.is_empty() {
            return Ok(());
        }
        let (subsection, after) = match first_subsection(file.order(), rest) {
            Ok(found) => found,
            Err(error) => return tell_error(section, error, tell),
        };
        tell_subsection(file, section, subsection, tell)?;
        rest = after;
        left = others;
    }
    Ok(())
}

fn tell_subsection<T: Tell>(
    file: NoteFile,
    section: u64,
    subsection: Subsection<'_>,
    tell: &mut T,
) -> Result<(), Stop>
    ensures { OnOk result (tell.new ≡ saying T.one tell.old
        (subsection_said file section (subsection_view subsection.entry))) }
{
    let Subsection { vendor, content } = subsection;
    if let Some(known) = vendor_of(vendor) {
        return tell_scopes(file, section, vendor, known, content, tell);
    }
    let members = [
        ("section", Value::Number(section)),
        ("vendor", Value::Text(Some(subsection.vendor))),
        ("content", Value::Bytes(subsection.content)),
    ];
    tell.state(&layouts::VENDOR_ATTRIBUTES, &members)
}

// ---- what attributes are of

fn tell_scopes<T: Tell>(
    file: NoteFile,
    section: u64,
    vendor: &[u8],
    known: Vendor,
    bytes: &[u8],
    tell: &mut T,
) -> Result<(), Stop>
    ensures { OnOk result (tell.new ≡ saying T.one tell.old
        (scopes_said file section vendor.now known bytes.now bytes.now)) }
{
    let mut rest = bytes;
    let mut left = bytes;
    while let Some((_first, others)) = left.split_first() {
        if rest.is_empty() {
            return Ok(());
        }
        let (scope, after) = match first_scope(file.order(), rest) {
            Ok(found) => found,
            Err(error) => return tell_error(section, error, tell),
        };
        let place = AttributePlace {
            machine: file.machine,
            section,
            vendor,
            scope: scope.tag,
        };
        tell_scope(place, known, scope.content, tell)?;
        rest = after;
        left = others;
    }
    Ok(())
}

fn scope_members(place: AttributePlace<'_>) -> [Member<'_>; 4]
    ensures { members_said result ≡ scope_members (place_view place.entry) }
{
    [
        ("section", Value::Number(place.section)),
        ("vendor", Value::Text(Some(place.vendor))),
        ("scope", Value::Number(place.scope)),
        ("scope_name", Value::Word(scope_name(place.scope))),
    ]
}

fn tell_scope<T: Tell>(
    place: AttributePlace<'_>,
    known: Vendor,
    bytes: &[u8],
    tell: &mut T,
) -> Result<(), Stop>
    ensures { OnOk result (tell.new ≡ saying T.one tell.old (scope_said (place_view place.entry) known bytes.now)) }
{
    tell.state(&layouts::ATTRIBUTE_SCOPE, &scope_members(place))?;
    // the numbers of sections or of symbols come before the attributes
    if place.scope == 2 || place.scope == 3 {
        tell_targets(place, bytes, tell)?;
        tell_listed(place, known, after_list(bytes), tell)
    } else if place.scope == 1 {
        tell_attributes(place, known, bytes, tell)
    } else {
        Ok(())
    }
}

fn target_members(place: AttributePlace<'_>, number: u64) -> [Member<'_>; 5]
    ensures { members_said result ≡ target_members (place_view place.entry) number }
{
    [
        ("section", Value::Number(place.section)),
        ("vendor", Value::Text(Some(place.vendor))),
        ("scope", Value::Number(place.scope)),
        ("scope_name", Value::Word(scope_name(place.scope))),
        ("number", Value::Number(number)),
    ]
}

// Says the numbers before a number 0.
fn tell_targets<T: Tell>(place: AttributePlace<'_>, bytes: &[u8], tell: &mut T) -> Result<(), Stop>
    ensures { OnOk result (tell.new ≡ saying T.one tell.old
        (targets_said (place_view place.entry) bytes.now bytes.now)) }
{
    let mut rest = bytes;
    let mut left = bytes;
    while let Some((_first, others)) = left.split_first() {
        let Ok((number, after)) = first_number(rest) else {
            return Ok(());
        };
        if number == 0 {
            return Ok(());
        }
        tell.state(&layouts::ATTRIBUTE_TARGET, &target_members(place, number))?;
        rest = after;
        left = others;
    }
    Ok(())
}

// Says the attributes after numbers, if these end.
fn tell_listed<T: Tell>(
    place: AttributePlace<'_>,
    known: Vendor,
    listed: Result<&[u8], AttributeError>,
    tell: &mut T,
) -> Result<(), Stop>
    ensures { OnOk result (tell.new ≡ saying T.one tell.old
        (listed_said (place_view place.entry) known (ok_map (λ bytes. bytes.now) listed.entry))) }
{
    match listed {
        Ok(bytes) => tell_attributes(place, known, bytes, tell),
        Err(error) => tell_error(place.section, error, tell),
    }
}

// ---- attributes

fn tell_attributes<T: Tell>(
    place: AttributePlace<'_>,
    known: Vendor,
    bytes: &[u8],
    tell: &mut T,
) -> Result<(), Stop>
    ensures { OnOk result (tell.new ≡ saying T.one tell.old
        (attributes_said (place_view place.entry) known bytes.now bytes.now)) }
{
    let mut rest = bytes;
    let mut left = bytes;
    while let Some((_first, others)) = left.split_first() {
        if rest.is_empty() {
            return Ok(());
        }
        let (attribute, after) = match first_attribute(known, rest) {
            Ok(found) => found,
            Err(error) => return tell_error(place.section, error, tell),
        };
        tell_attribute(place, attribute, tell)?;
        rest = after;
        left = others;
    }
    Ok(())
}

fn text_value(text: Option<&[u8]>) -> Value<'_>
    ensures { content_of result ≡ text_content (option_copied text.entry) }
{
    match text {
        Some(text) => Value::Text(Some(text)),
        None => Value::Null,
    }
}

// The name of a value, if it is a number that has one.
fn number_name(vendor: &[u8], tag: u64, number: Option<u64>) -> Option<&'static str>
    ensures { option_copied result ≡ number_name vendor.now tag number }
{
    attribute_value_name(vendor, tag, number?)
}

fn attribute_members<'a>(place: AttributePlace<'a>, attribute: Attribute<'a>) -> [Member<'a>; 9]
    ensures { members_said result ≡ attribute_members (place_view place.entry) (attribute_view attribute.entry) }
{
    let Attribute { tag, number, text } = attribute;
    let vendor = place.vendor;
    [
        ("section", Value::Number(place.section)),
        ("vendor", Value::Text(Some(vendor))),
        ("scope", Value::Number(place.scope)),
        ("scope_name", Value::Word(scope_name(place.scope))),
        ("tag", Value::Number(tag)),
        (
            "tag_name",
            Value::Word(attribute_tag_name(vendor, place.machine, tag)),
        ),
        ("number", number_value(number)),
        ("number_name", Value::Word(number_name(vendor, tag, number))),
        ("text", text_value(text)),
    ]
}

// The kind of an attribute with or without a number, a name of this number, and a text.
fn attribute_layout(has_number: bool, has_name: bool, has_text: bool) -> &'static Layout
    ensures { layout_of result.now ≡ attribute_layout has_number has_name has_text }
{
    match (has_number, has_name, has_text) {
        (true, _, true) => &layouts::PAIR_ATTRIBUTE,
        (false, _, _) => &layouts::TEXT_ATTRIBUTE,
        (true, true, false) => &layouts::NAMED_ATTRIBUTE,
        (true, false, false) => &layouts::NUMBER_ATTRIBUTE,
    }
}

fn tell_attribute<T: Tell>(
    place: AttributePlace<'_>,
    attribute: Attribute<'_>,
    tell: &mut T,
) -> Result<(), Stop>
    ensures { OnOk result (tell.new ≡ saying T.one tell.old
        (attribute_said (place_view place.entry) (attribute_view attribute.entry))) }
{
    let Attribute { tag, number, text } = attribute;
    let name = number_name(place.vendor, tag, number);
    let layout = attribute_layout(number.is_some(), name.is_some(), text.is_some());
    tell.state(layout, &attribute_members(place, attribute))
}
