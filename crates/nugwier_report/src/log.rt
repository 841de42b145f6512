//! What was said so far. It exists only in proofs, takes no memory, and its methods do nothing at run time.
ghost use Rattle.std.specs.Prelude.{◌≡◌, List, [], ◌∷◌, ◌++◌};
ghost use Rattle.nugwier_layouts.specs.Layouts.{layout_of};
ghost use Rattle.std.specs.Borrow.{ftrue};
ghost use Rattle.nugwier_layouts.specs.Members.{members_said};
ghost use Rattle.nugwier_report.specs.Noted.{page_view};
ghost use Rattle.nugwier_report.specs.Said.{Line, states, warns};

use crate::names::NO_LABELS;
use crate::problem::{Part, Place};
use crate::run::Page;
use nugwier_layouts::json::Member;
use nugwier_layouts::layouts::Layout;
use std::fmt;
use std::marker::{Model, PhantomData};

/// The writer as it was, and what was said since.
#[derive(Drop)]
pub(crate) struct Log<W> {
    of: PhantomData<W>,
    ghost start: { W },
    ghost said: { List Line },
}

impl<W> Model for Log<W> {
    ghost also_owns = { λ _. ftrue };
}

// What is said on a page: a record, or a problem at a place.
#[derive(Clone, Copy, Drop)]
enum Note<'a> {
    States(&'a Page<'a>, &'static Layout, &'a [Member<'a>]),
    Warns(&'a Page<'a>, Place),
}

impl<W> Log<W> {
    // A log of this content, which the proof of the caller picks from what is passed.
    #[inline(always)]
    fn picked<A, D>(_from: &A, _fault: &D, _note: &Note<'_>) -> Log<W>
        ghost log: { record { start : W; said : List Line } }
        ensures { (result.start ≡ log.start) × (result.said ≡ log.said) }
    {
        Log { of: PhantomData }
    }

    /// Nothing was said yet.
    #[inline(always)]
    pub(crate) fn new(start: &W) -> Log<W>
        ensures { (result.start ≡ start.now) × (result.said ≡ []) }
    {
        let page = Page {
            path: "",
            labels: NO_LABELS,
        };
        Log::picked(start, start, &Note::Warns(&page, Part::File.whole()))
    }

    /// A record more.
    #[inline(always)]
    pub(crate) fn states(
        &self,
        page: &Page<'_>,
        layout: &'static Layout,
        members: &[Member<'_>],
    ) -> Log<W>
        ensures { (result.start ≡ self.now.start)
            × (result.said ≡ self.now.said ++ (page_view page.now, states (layout_of layout.now) (members_said members.now)) ∷ []) }
    {
        Log::picked(self, self, &Note::States(page, layout, members))
    }

    /// A problem more.
    #[inline(always)]
    pub(crate) fn wrong<D: fmt::Display>(&self, page: &Page<'_>, place: Place, fault: &D) -> Log<W>
        ensures { (result.start ≡ self.now.start)
            × (result.said ≡ self.now.said ++ (page_view page.now, warns place (D.output fault.now)) ∷ []) }
    {
        Log::picked(self, fault, &Note::Warns(page, place))
    }
}
