//! The check that the records of all seats grant each event once.
//!
//! The place of an event is its number in the list of events, from 1. A record grants an event if a reply in it names
//! the event's place.
ghost use Rattle.std.specs.Prelude.{◌≡◌, ◌+◌, ℕ, IfOk, length, suc};
ghost use Rattle.mml_class.specs.Granting.{IsFound};
ghost use Rattle.mml_class.specs.inside.Marking.{IsMarked, IsUnmarked, marked};

use mml_ids::Memory;
use std::alloc::Global;

/// What is wrong with the places that records grant.
#[derive(Clone, Copy, PartialEq, Eq, Drop)]
pub enum Misgranted {
    /// No event of the record has this place: it happened before the record began, or never.
    Early(u64),
    /// The event at this place is granted twice.
    Twice(u64),
    /// The event at this place is granted in no record.
    Nowhere(u64),
}

/// Returns a list of flags, one for each place from 0 to `count`, none of which is set. The flag at 0 is never used.
/// Returns `Memory` if memory runs out.
fn no_marks(alloc: Global, count: u64) -> Result<Vec<bool>, Memory>
    ensures length { IfOk result (λ marks. length marks.items ≡ count + 1) }
    ensures unset { IfOk result (λ marks. (p : ℕ) → marked marks.items p ≡ 0) }
{
    let mut marks = Vec::new(alloc);
    marks.push(false)?;
    'places: for _ in 0..count {
        marks.push(false)?;
    }
    Ok(marks)
}

/// Sets the flag in `marks` of a place that a record grants, and returns `None`. If the place isn't above `begun`, has
/// no flag, or its flag is set already, sets nothing, and returns what is wrong with the place. `begun` is how many
/// events came before the record.
fn mark(marks: &mut Vec<bool>, begun: u64, place: u64) -> Option<Misgranted>
    ensures { IsMarked begun place marks.old.items marks.new.items result }
{
    let at = place as usize;
    if place <= begun || at >= marks.len() {
        return Some(Misgranted::Early(place));
    }
    if marks[at] {
        return Some(Misgranted::Twice(place));
    }
    marks[at] = true;
    None
}

/// Returns `Nowhere` with the first place above `begun` whose flag in `marks` isn't set. Returns `None` if all are set.
fn first_unmarked(marks: &[bool], begun: u64) -> Option<Misgranted>
    ensures { IsUnmarked begun marks.now result }
{
    'places: for at in 0..marks.len() {
        let place = at as u64;
        if place > begun && !marks[at] {
            return Some(Misgranted::Nowhere(place));
        }
    }
    None
}

/// Checks the list `places` of the places that records grant, and returns the first fault, or `None` if there is
/// none. `begun` is how many events came before the record, `count` how many there are in all, and `whole` is whether
/// nothing is left out of the records. Each place must be from `begun` + 1 to `count`, and none may be there twice.
/// If this holds and `whole` is set, all these numbers must be there, and the lowest missing one is the fault.
/// Returns `Memory` if memory runs out.
pub fn find_misgranted(
    alloc: Global,
    places: &[u64],
    begun: u64,
    count: u64,
    whole: bool,
) -> Result<Option<Misgranted>, Memory>
    ensures { IfOk result (IsFound begun count whole places.now) }
{
    let mut marks = no_marks(alloc, count)?;
    'places: for place in places {
        if let Some(amiss) = mark(&mut marks, begun, *place) {
            return Ok(Some(amiss));
        }
    }
    if whole {
        return Ok(first_unmarked(&marks, begun));
    }
    Ok(None)
}
