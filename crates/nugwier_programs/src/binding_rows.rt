//! What is said of the symbols of a program that are bound.
#![tactic(auto, using(nugwier_report::proofs::Saying::saying_both, nugwier_report::proofs::Parts::said_parts))]

ghost use Rattle.std.specs.Prelude.{◌≡◌, OnOk};
ghost use Rattle.std.specs.Option.{option_copied};
ghost use Rattle.nugwier_programs.specs.BindingRows.{binding_layout, binding_members, binding_said, bound_view, target_index};
ghost use Rattle.nugwier_programs.specs.BindingRows.{target_path, target_version, target_view, target_word};
ghost use Rattle.nugwier_layouts.specs.Members.{content_of, members_said};
ghost use Rattle.nugwier_report.specs.Said.{saying};
ghost use Rattle.nugwier_report.specs.SymbolVersion.{version_default, version_name};
ghost use Rattle.nugwier_layouts.specs.Layouts.{layout_of};

use nugwier_layouts::json::{Member, Value};
use nugwier_layouts::layouts;
use nugwier_layouts::layouts::Layout;
use nugwier_report::problem::Stop;
use nugwier_report::tell::Tell;

/// A symbol that is bound.
#[derive(Clone, Copy)]
pub struct BoundSymbol<'a> {
    /// The path of its file.
    pub path: &'a [u8],
    pub index: usize,
    /// Its name, if it can be read.
    pub name: Option<&'a [u8]>,
    /// The version that it requests, if it requests one.
    pub version: Option<&'a [u8]>,
}

/// The version of a symbol to which another one binds.
#[derive(Clone, Copy)]
pub struct OwnVersion<'a> {
    pub name: &'a [u8],
    pub is_default: bool,
}

/// What a symbol binds to.
#[derive(Clone, Copy)]
pub enum Target<'a> {
    /// A symbol of the same name, of the file at this path.
    Symbol {
        path: &'a [u8],
        index: usize,
        version: Option<OwnVersion<'a>>,
    },
    /// Nothing, and the reference is weak.
    Weak,
    /// Nothing, although the reference is not weak.
    Missing,
    /// It cannot be known.
    Unknown,
}

/// How people are told what references of a kind bind to.
#[derive(Clone, Copy)]
pub enum Place {
    /// As the first, or as a copy.
    First,
    /// As the address of a function whose calls go elsewhere.
    Elsewhere,
    /// Not at all: the address of a function whose calls go to the same place.
    Same,
}

// What is said of a target: a word, and of a symbol the path of its file, its index, the name of its version, if it has
// one, and whether this is the default one.
type TargetParts<'a> = (
    &'static str,
    Option<&'a [u8]>,
    Value<'static>,
    Option<&'a [u8]>,
    Value<'static>,
);

impl<'a> Target<'a> {
    fn parts(&self) -> TargetParts<'a>
        ensures word { result.0.now ≡ target_word (target_view self.now) }
        ensures path { option_copied result.1 ≡ target_path (target_view self.now) }
        ensures index { content_of result.2 ≡ target_index (target_view self.now) }
        ensures version { option_copied result.3 ≡ version_name (target_version (target_view self.now)) }
        ensures is_default { content_of result.4 ≡ version_default (target_version (target_view self.now)) }
    {
        match *self {
            Target::Symbol {
                path,
                index,
                version: Some(version),
            } => (
                "bound",
                Some(path),
                Value::Number(index as u64),
                Some(version.name),
                Value::Flag(version.is_default),
            ),
            Target::Symbol {
                path,
                index,
                version: None,
            } => (
                "bound",
                Some(path),
                Value::Number(index as u64),
                None,
                Value::Null,
            ),
            Target::Weak => ("weak", None, Value::Null, None, Value::Null),
            Target::Missing => ("missing", None, Value::Null, None, Value::Null),
            Target::Unknown => ("unknown", None, Value::Null, None, Value::Null),
        }
    }

    fn layout(&self, place: Place) -> &'static Layout
        ensures { layout_of result.now ≡ binding_layout place (target_view self.now) }
    {
        match (place, self) {
            (Place::First, Target::Symbol { .. }) => &layouts::BOUND,
            (Place::First, _) => &layouts::UNBOUND,
            (Place::Elsewhere, Target::Symbol { .. }) => &layouts::BOUND_ADDRESS,
            (Place::Elsewhere, _) => &layouts::UNBOUND_ADDRESS,
            (Place::Same, _) => &layouts::SAME_ADDRESS,
        }
    }
}

/// Says what references of a kind to a symbol bind to; of no kind if no relocation names it. The only error is that of
/// the writer.
pub fn tell_binding<T: Tell>(
    symbol: &BoundSymbol<'_>,
    place: Place,
    reference: Option<&'static str>,
    target: &Target<'_>,
    tell: &mut T,
) -> Result<(), Stop>
    ensures { OnOk result (tell.new
        ≡ saying T.one tell.old (binding_said (bound_view symbol.now) place (option_copied reference.entry) (target_view target.now))) }
{
    let members = binding_members(symbol, reference, target);
    tell.state(target.layout(place), &members)
}

fn binding_members<'a>(
    symbol: &BoundSymbol<'a>,
    reference: Option<&'static str>,
    target: &Target<'a>,
) -> [Member<'a>; 10]
    ensures { members_said result ≡ binding_members (bound_view symbol.now) (option_copied reference.entry) (target_view target.now) }
{
    let (word, path, index, version, is_default) = target.parts();
    [
        ("object", Value::Text(Some(symbol.path))),
        ("index", Value::Number(symbol.index as u64)),
        ("name", Value::Text(symbol.name)),
        ("version", Value::Text(symbol.version)),
        ("reference", Value::Word(reference)),
        ("result", Value::Word(Some(word))),
        ("path", Value::Text(path)),
        ("symbol", index),
        ("symbol_version", Value::Text(version)),
        ("symbol_version_is_default", is_default),
    ]
}
