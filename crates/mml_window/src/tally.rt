//! The check that the windows were granted all places (event numbers) above a given one, each once; and what their
//! shares of the house's ledgers are together.
//!
//! A house is one run of a lab that threads share. A window is one session's view of the published events and board.
//! There are at most as many windows as a lab may have sessions. The place of an event is its number in the list of
//! events, from 1. A window keeps the places of the events that its session was granted. A place is counted off when
//! it is found as the next one of a window. A ledger is a count that only contracts can read: a total, and shares
//! whose amounts add up to it. It takes no bytes.
//!
//! The loops run over indices, since their invariants speak of the windows before an index.
ghost use Rattle.std.specs.Prelude.{◌≡◌, ℕ, ◌+◌, ◌<◌, ◌≤◌, [], ◌∷◌, length, All, MatchBool, MatchOption};
ghost use Rattle.mml_lab.specs.declared.TheConstants.{MAX_SESSIONS};
ghost use Rattle.mml_window.specs.Tallies.{times, told_of, IsEachOnceFrom};
ghost use Rattle.mml_window.specs.Windows.{IsWindow};
ghost use Rattle.mml_window.specs.inside.Cursors.{left_of, IsStuck};
ghost use Rattle.mml_window.specs.inside.Shares.{AreJoined};

use crate::house::{House, Shares};
use crate::window::Window;
use mml_lab::MAX_SESSIONS;

/// For each window, the index of the first of its places that isn't counted off yet. There are at most as many windows
/// as a lab may have sessions.
type Cursors = [usize; MAX_SESSIONS as usize];

/// Returns how many places (event numbers) all windows together were granted.
pub(crate) fn count_places<H: House>(windows: &[Window<H>]) -> u64
    requires few { length windows.now ≤ MAX_SESSIONS }
    ensures { result ≡ length (told_of windows.now) }
{
    let mut count = 0;
    'windows: for index in 0..windows.len() {
        count += windows[index].place_count();
    }
    count
}

/// Returns whether the places (event numbers) that the windows were granted are those above `first` and up to `most`,
/// each once. Returns `false` if `first` is above `most`. The places of each window are in rising order, so one pass
/// with a cursor for each window is enough.
pub(crate) fn is_each_once<H: House>(windows: &[Window<H>], first: u64, most: u64) -> bool
    requires few { length windows.now ≤ MAX_SESSIONS }
    ensures { MatchBool result (IsEachOnceFrom first most (told_of windows.now))
        (first ≤ most → ¬ (IsEachOnceFrom first most (told_of windows.now))) }
{
    if first > most {
        return false;
    }
    let mut cursors = [0; MAX_SESSIONS as usize];
    'places: for counted in first..most {
        if !count_off(windows, &mut cursors, counted + 1) {
            return false;
        }
    }
    are_counted_off(windows, &cursors)
}

/// Drops the windows. Merges their shares of each ledger of the house into one share, and returns these three. Returns
/// `None` if there is no window.
pub(crate) fn join_shares<H: House>(windows: Vec<Window<H>>) -> Option<Shares<H>>
    ensures windows { All (IsWindow H.lab) windows.items }
    ensures shares { MatchOption result (windows.items ≡ []) (λ s. AreJoined windows.items
        s.halts.amount s.halts.parts s.spares.amount s.spares.parts s.grants.amount) }
{
    let mut windows = windows;
    let last = windows.pop()?;
    let mut all = last.into_shares();
    while let Some(window) = windows.pop() {
        let Shares {
            halts,
            spares,
            grants,
        } = window.into_shares();
        all.halts.merge(halts);
        all.spares.merge(spares);
        all.grants.merge(grants);
    }
    Some(all)
}

/// Counts off one place (event number): advances the cursor of the first window whose next place is `place`, and
/// returns `true`. Returns `false`, and changes nothing, if `place` is the next place of no window.
fn count_off<H: House>(windows: &[Window<H>], cursors: &mut Cursors, place: u64) -> bool
    requires few { length windows.now ≤ MAX_SESSIONS }
    ensures { MatchBool result ((p : ℕ) → times p (left_of windows.now cursors.old)
        ≡ times p (place ∷ []) + times p (left_of windows.now cursors.new))
        (IsStuck place (left_of windows.now cursors.old)) }
{
    'windows: for index in 0..windows.len() {
        if windows[index].is_next(cursors[index], place) {
            cursors[index] += 1;
            return true;
        }
    }
    false
}

/// Returns whether all places (event numbers) of all windows are counted off, that is, whether each cursor is past its
/// window's last place.
fn are_counted_off<H: House>(windows: &[Window<H>], cursors: &Cursors) -> bool
    requires few { length windows.now ≤ MAX_SESSIONS }
    ensures { MatchBool result (left_of windows.now cursors.now ≡ [])
        ((p : ℕ) × (0 < times p (left_of windows.now cursors.now))) }
{
    'windows: for index in 0..windows.len() {
        if !windows[index].is_counted_off(cursors[index]) {
            return false;
        }
    }
    true
}
