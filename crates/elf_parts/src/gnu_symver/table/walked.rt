//! Walks over the versions that are needed of files. Many needs may share their auxiliary entries, so walks keep which
//! stretches of entries they went over, and a later walk skips these.
ghost use Rattle.std.specs.Prelude.{◌≡◌, ◌==◌, ◌<◌, ◌≤◌, ◌-◌, ◌%◌, ℕ, length, if◌then◌else◌, IfSome, None, Some, suc};
ghost use Rattle.std.specs.Option.{option_map, option_or};
ghost use Rattle.elf_parts.specs.inner.Placed.{slot};
ghost use Rattle.elf_parts.specs.inner.Walked.{AreWalked, Passes, StayFilled, held_or_left, stretch_length};
ghost use Rattle.elf_parts.specs.gnu_symver.Links.{links_view};
ghost use Rattle.elf_parts.specs.gnu_symver.Lists.{ver_needs_left};
ghost use Rattle.elf_parts.specs.gnu_symver.Table.{held_at, kept_at, needed_entry, needed_of, needed_version};
ghost use Rattle.elf_records.specs.Clones.{ClonesExactly};

use super::placed::put;
use super::{Needed, needed_entry};
use crate::endian::EndianParse;
use crate::gnu_symver::VerNeedIterator;
use crate::gnu_symver::links::Links;
use crate::gnu_symver::records::VerNeedAux;

/// A place of a version index, for the first needed version with this index.
pub trait NeedPlace: Sized {
    ghost use Rattle.std.specs.Prelude.{◌≡◌, Option, Some};
    ghost use Rattle.std.specs.Option.{option_or};
    ghost use Rattle.elf_parts.specs.gnu_symver.Table.{needed_entry};
    ghost use Rattle.elf_parts.specs.declared.gnu_symver.table.Needed.{Needed};

    // The needed version that the place holds, if it holds one.
    ghost held: { Self → Option Needed };

    // What else the place has.
    ghost Kept: { Type 0 };

    ghost kept: { Self → Self.Kept };

    /// Puts a needed version into the place, if it holds none. `file` is the offset of the name of its file, in bytes.
    fn hold(&mut self, file: u32, version: &VerNeedAux)
        ensures held { Self.held self.new ≡ option_or (Self.held self.old) (Some (needed_entry file version.now)) }
        ensures kept { Self.kept self.new ≡ Self.kept self.old };
}

impl NeedPlace for Option<Needed> {
    ghost held = { λ place. place };

    ghost Kept = { Unit {0} };

    ghost kept = { λ _. tt };

    fn hold(&mut self, file: u32, version: &VerNeedAux) {
        if self.is_none() {
            *self = Some(needed_entry(file, version));
        }
    }
}

// The number of entries of a stretch. A need counts at most 65,535 entries, so its walk skips at most 63 stretches, and
// goes over at most 1,023 entries before the first one and 1,023 after the last one.
const STRETCH_LENGTH: u64 = 1_024;

// How many stretches can be stored: so few that the table, 24 bytes for each, fits on a small stack. The number is
// prime, so stretches of entries of one size get places of their own.
const STRETCHES: usize = 1_021;

// In a section of up to this number of bytes, walks cost little even if all needs share all auxiliary entries.
const FEW_BYTES: usize = 16_384;

/// A stretch of `STRETCH_LENGTH` entries that was walked. It begins at the offset `from`, and the entry after it at the
/// offset `to`, in bytes.
#[derive(Clone, Copy, Debug)]
pub struct Stretch {
    from: usize,
    to: usize,
}

// The clone of a stretch is the same stretch.
fn clones_of_stretches()
    ensures { ClonesExactly ⟦<Stretch as Clone>⟧.is_clone ⟦<Stretch as Clone>⟧.is_infallible }
{}

// A walk since the last stretch that it stored or skipped: its first entry, and its number of entries.
#[derive(Drop)]
struct Walk {
    from: usize,
    steps: u64,
}

// The stretch that begins at an offset, if it is stored.
fn stretch_from(stretches: &[Option<Stretch>], from: usize) -> Option<Stretch>
    ensures { IfSome result (λ s. (s.from ≡ from) × (slot stretches.now (from % STRETCHES) ≡ Some s)) }
{
    match stretches.get(from % STRETCHES) {
        Some(Some(found)) if found.from == from => Some(*found),
        _ => None,
    }
}

// Stores a stretch, if its place is free.
fn store(stretches: &mut [Option<Stretch>], from: usize, to: usize)
    ensures { (i : ℕ) → i < length stretches.new → slot stretches.new i
        ≡ option_or (slot stretches.old i)
        (if (from % STRETCHES) == i then Some (record { from = from; to = to }) else None) }
{
    put(stretches, (from % STRETCHES) as u16, Stretch { from, to });
}

// Puts a needed version into the place of its index, if there is one and it holds none.
fn put_need<P: NeedPlace>(places: &mut [P], file: u32, version: &VerNeedAux)
    ensures needs { (k : ℕ) → k < length places.new → held_at P.held places.new k
        ≡ option_or (held_at P.held places.old k)
        (if version.now.vna_other == k then Some (needed_entry file version.now) else None) }
    ensures kept { (k : ℕ) → kept_at P.kept places.new k ≡ kept_at P.kept places.old k }
    ensures places { length places.new ≡ length places.old }
{
    let index = version.vna_other as usize;
    if index < places.len() {
        places[index].hold(file, version);
    }
}

// Puts the next version in, and goes on to the one after it.
fn put_next<E: EndianParse, P: NeedPlace>(
    places: &mut [P],
    file: u32,
    left: &mut Links<'_, E, VerNeedAux>,
)
    ensures places { length places.new ≡ length places.old }
    ensures kept { (k : ℕ) → kept_at P.kept places.new k ≡ kept_at P.kept places.old k }
    ensures filled { StayFilled P.held places.old places.new }
    ensures view { links_view left.new ≡ links_view left.old }
    ensures count { left.new.count ≡ left.old.count - 1 }
    ensures passes { Passes P.held places.new (links_view left.old) 1 left.old.offset left.new.offset }
    ensures values { (n k : ℕ) → k < length places.new →
        held_or_left P.held places.new file (links_view left.old) k n left.new.offset
        ≡ held_or_left P.held places.old file (links_view left.old) k (suc n) left.old.offset }
{
    if let Some(version) = left.step() {
        put_need(places, file, &version);
    }
}

// Puts the next version in, and stores the stretch that ends with it, if one does.
fn step_over<E: EndianParse, P: NeedPlace>(
    places: &mut [P],
    stretches: &mut [Option<Stretch>],
    file: u32,
    left: &mut Links<'_, E, VerNeedAux>,
    walk: &mut Walk,
)
    requires walked { AreWalked P.held places.old (links_view left.old) stretches.old }
    requires passes { Passes P.held places.old (links_view left.old) walk.old.steps walk.old.from left.old.offset }
    requires short { walk.old.steps < stretch_length }
    requires some { 1 ≤ left.old.count }
    ensures places { length places.new ≡ length places.old }
    ensures kept { (k : ℕ) → kept_at P.kept places.new k ≡ kept_at P.kept places.old k }
    ensures view { links_view left.new ≡ links_view left.old }
    ensures fewer { left.new.count < left.old.count }
    ensures short { walk.new.steps < stretch_length }
    ensures values { (k : ℕ) → k < length places.new →
        held_or_left P.held places.new file (links_view left.new) k left.new.count left.new.offset
        ≡ held_or_left P.held places.old file (links_view left.old) k left.old.count left.old.offset }
    ensures walked { AreWalked P.held places.new (links_view left.new) stretches.new }
    ensures passes { Passes P.held places.new (links_view left.new) walk.new.steps walk.new.from left.new.offset }
{
    put_next(places, file, left);
    walk.steps += 1;
    if walk.steps == STRETCH_LENGTH {
        store(stretches, walk.from, left.offset());
        walk.from = left.offset();
        walk.steps = 0;
    }
}

// Skips the stretch that begins here, if it is stored, or else goes over the next version.
fn go_on<E: EndianParse, P: NeedPlace>(
    places: &mut [P],
    stretches: &mut [Option<Stretch>],
    file: u32,
    left: &mut Links<'_, E, VerNeedAux>,
    walk: &mut Walk,
)
    requires walked { AreWalked P.held places.old (links_view left.old) stretches.old }
    requires passes { Passes P.held places.old (links_view left.old) walk.old.steps walk.old.from left.old.offset }
    requires short { walk.old.steps < stretch_length }
    requires some { 1 ≤ left.old.count }
    ensures places { length places.new ≡ length places.old }
    ensures kept { (k : ℕ) → kept_at P.kept places.new k ≡ kept_at P.kept places.old k }
    ensures view { links_view left.new ≡ links_view left.old }
    ensures fewer { left.new.count < left.old.count }
    ensures short { walk.new.steps < stretch_length }
    ensures values { (k : ℕ) → k < length places.new →
        held_or_left P.held places.new file (links_view left.new) k left.new.count left.new.offset
        ≡ held_or_left P.held places.old file (links_view left.old) k left.old.count left.old.offset }
    ensures walked { AreWalked P.held places.new (links_view left.new) stretches.new }
    ensures passes { Passes P.held places.new (links_view left.new) walk.new.steps walk.new.from left.new.offset }
{
    match stretch_from(stretches, left.offset()) {
        Some(found) => {
            left.skip_to(found.to, STRETCH_LENGTH);
            walk.from = found.to;
            walk.steps = 0;
        }
        None => step_over(places, stretches, file, left, walk),
    }
}

// Puts the versions of one file in. `file` is the offset of the name of the file.
fn put_versions<E: EndianParse, P: NeedPlace>(
    places: &mut [P],
    stretches: &mut [Option<Stretch>],
    file: u32,
    versions: Links<'_, E, VerNeedAux>,
)
    requires { AreWalked P.held places.old (links_view versions) stretches.old }
    ensures places { length places.new ≡ length places.old }
    ensures kept { (k : ℕ) → kept_at P.kept places.new k ≡ kept_at P.kept places.old k }
    ensures walked { AreWalked P.held places.new (links_view versions.entry) stretches.new }
    ensures values { (k : ℕ) → k < length places.new → held_at P.held places.new k
        ≡ held_or_left P.held places.old file (links_view versions.entry) k versions.entry.count versions.entry.offset }
{
    let mut left = versions;
    let mut walk = Walk {
        from: left.offset(),
        steps: 0,
    };
    while left.limit() > 0 {
        go_on(places, stretches, file, &mut left, &mut walk);
    }
}

// Puts the needed versions in, in order. The earlier content of `stretches` is ignored.
fn put_needs<E: EndianParse, P: NeedPlace>(
    places: &mut [P],
    stretches: &mut [Option<Stretch>],
    needs: VerNeedIterator<'_, E>,
)
    ensures needs { (k : ℕ) → k < length places.new → held_at P.held places.new k
        ≡ option_or (held_at P.held places.old k)
        (option_map needed_of (needed_version k (ver_needs_left needs.entry))) }
    ensures kept { (k : ℕ) → kept_at P.kept places.new k ≡ kept_at P.kept places.old k }
    ensures places { length places.new ≡ length places.old }
{
    stretches.fill(None);
    let mut left = needs;
    while let Some((need, versions)) = left.next_links() {
        put_versions(places, stretches, need.vn_file, versions);
    }
}

// Not inlined, so that only its callers take the stack for the stretches.
#[inline(never)]
fn put_needs_in_stretches<E: EndianParse, P: NeedPlace>(
    places: &mut [P],
    needs: VerNeedIterator<'_, E>,
)
    ensures needs { (k : ℕ) → k < length places.new → held_at P.held places.new k
        ≡ option_or (held_at P.held places.old k)
        (option_map needed_of (needed_version k (ver_needs_left needs.entry))) }
    ensures kept { (k : ℕ) → kept_at P.kept places.new k ≡ kept_at P.kept places.old k }
    ensures places { length places.new ≡ length places.old }
{
    put_needs(places, &mut [None; STRETCHES], needs);
}

/// Puts the first needed version of each index into its place, if it has one that holds none. The place with number
/// `k` is that of the index `k`. Costs the number of needs and of their auxiliary entries. An entry that several needs
/// share counts once, and each need takes some two thousand steps at most. Only in a section of some ten mebibytes may
/// a need cost more. For a section of more than 16 KiB the call takes 24 KiB of the stack.
pub fn hold_needs<E: EndianParse, P: NeedPlace>(places: &mut [P], needs: VerNeedIterator<'_, E>)
    ensures needs { (k : ℕ) → k < length places.new → held_at P.held places.new k
        ≡ option_or (held_at P.held places.old k)
        (option_map needed_of (needed_version k (ver_needs_left needs.entry))) }
    ensures kept { (k : ℕ) → kept_at P.kept places.new k ≡ kept_at P.kept places.old k }
    ensures places { length places.new ≡ length places.old }
{
    if needs.data_len() <= FEW_BYTES {
        put_needs(places, &mut [], needs);
    } else {
        put_needs_in_stretches(places, needs);
    }
}
