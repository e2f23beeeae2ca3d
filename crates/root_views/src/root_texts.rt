// Keeping roots with their lines, and reading them again.
ghost use Rattle.std.specs.Prelude.{◌≡◌, ◌+◌, ◌-◌, ◌<◌, ◌&&◌, ◌^◌, nat_le, nat_lt, [], ◌∷◌, ◌++◌, length, slice_get, Some, OnOk, if◌then◌else◌};
ghost use Rattle.root_views.specs.Kinds.{roots_in};
ghost use Rattle.root_views.specs.Seen.{root};
ghost use Rattle.root_views.specs.Shown.{some_of};
ghost use Rattle.root_views.specs.Inner.Keeping.{all_counted_from, kept_all, AreKept, HasLine, Keeps};
ghost use Rattle.root_views.specs.Placed.{placed_roots};

use crate::kept_roots::{KeptRoot, KeptRoots};
use crate::{Root, RootKind};
use std::alloc::AllocError;

// Whether the root at a place is one of those from `skip` on, at most so many.
fn is_shown(place: u64, skip: u64, most: u64) -> bool
    ensures { result ≡ (nat_le skip place && nat_lt (place - skip) most) }
{
    skip <= place && place - skip < most
}

// Keeps a root if it is shown.
fn keep_if(kept: &mut KeptRoots, shown: bool, root: KeptRoot) -> Result<(), AllocError>
    ensures kind { OnOk result (kept.new.kind ≡ kept.old.kind) }
    ensures lines { OnOk result (kept.new.lines ≡ kept.old.lines) }
    ensures roots { OnOk result (kept.new.roots.items
        ≡ kept.old.roots.items ++ (if shown then root ∷ [] else [])) }
{
    if shown {
        kept.roots.push(root)?;
    }
    Ok(())
}

// Keeps the roots of a line from the place `skip` on, at most so many. The line has
// the offset `at`, and stands among the kept lines from `start` up to `end`.
fn keep_roots(
    kept: &mut KeptRoots,
    at: u64,
    raw: &[u8],
    start: usize,
    end: usize,
    skip: u64,
    most: u64,
) -> Result<(), AllocError>
    requires kept { AreKept kept.old }
    requires line { HasLine kept.old.lines.items start end raw.now }
    requires fits { at + length raw.now < 2 ^ 64 }
    ensures kept { OnOk result (AreKept kept.new) }
    ensures keeps { OnOk result (Keeps kept.old kept.new
        (some_of skip most (placed_roots kept.old.kind at raw.now))) }
{
    let mut place = 0;
    for found in kept.kind.roots(raw) {
        let one = KeptRoot {
            at: at + found.at as u64,
            start,
            end,
            place,
        };
        keep_if(kept, is_shown(place as u64, skip, most), one)?;
        place += 1;
    }
    Ok(())
}

/// Keeps a line that begins at the offset `at`, and its roots from the place `skip` on, at most so many.
pub(crate) fn keep_line(
    kept: &mut KeptRoots,
    at: u64,
    raw: &[u8],
    skip: u64,
    most: u64,
) -> Result<(), AllocError>
    requires kept { AreKept kept.old }
    requires fits { at + length raw.now < 2 ^ 64 }
    ensures kept { OnOk result (AreKept kept.new) }
    ensures keeps { OnOk result (Keeps kept.old kept.new
        (some_of skip most (placed_roots kept.old.kind at raw.now))) }
{
    let start = kept.lines.len();
    kept.lines.extend_from_slice(raw)?;
    let end = kept.lines.len();
    keep_roots(kept, at, raw, start, end, skip, most)
}

// The root at a place among those of a line.
fn root_of_line(kind: RootKind, raw: &[u8], place: usize) -> Root<'_>
    requires { place < length (roots_in kind raw.now) }
    ensures { slice_get (roots_in kind raw.now) place ≡ Some (root result) }
{
    let mut before = place;
    for found in kind.roots(raw) {
        if before == 0 {
            return found;
        }
        before -= 1;
    }
    unreachable!()
}

/// The root at a place among those that are kept. Its offset is counted from the offset `from` of the file.
pub(crate) fn kept_root(kept: &KeptRoots, from: u64, i: usize) -> Root<'_>
    requires kept { AreKept kept.now }
    requires place { i < length (kept_all kept.now) }
    ensures { slice_get (all_counted_from from (kept_all kept.now)) i ≡ Some (root result) }
{
    let one = kept.roots[i];
    let lines = kept.lines.as_slice();
    let found = root_of_line(kept.kind, &lines[one.start..one.end], one.place);
    Root {
        at: one.at.saturating_sub(from) as usize,
        label: found.label,
        what: found.what,
    }
}
