//! Opening a house, using it through two windows, and ending it.
//!
//! A house is one run of a lab that threads share. A window is one session's view of the published events. At the desk
//! of a house sessions ask for events. The type `H` is the name of a house, and only contracts use it. The path of
//! three is the lab of nodes 1, 2 and 3 in a row (`labs::PATH_OF_THREE`). A sink is the destination of the journal's
//! bytes, and is fresh if it has none yet. A put is a write to the sink. The result of a visit is `None` if there were
//! fewer than two windows, or memory ran out before both were put back.
ghost use Rattle.std.specs.Prelude.{◌≡◌, ◌-◌, ◌^◌, ◌<◌, ◌≤◌, length};
ghost use Rattle.mml_journal.specs.Taken.{IsFresh};
ghost use Rattle.mml_window.specs.Houses.{house_of};

use crate::labs::PATH_OF_THREE;
use crate::window_at_desk::Pair;
use crate::windows::{give_back, take_two};
use mml_journal::{MemorySink, Sink};
use mml_lab_file::read_lab;
use mml_window::{Astray, Blank, Brand, Desk, House, Log, Window, open_house};
use std::alloc::Global;
use std::sync::Wait;
use std::test::Fail;

/// Opens a house over the path of three, and returns it before it is started. The house has a sink in memory, which
/// fails from its put number `fail_at` on, counted from 1, or never if that is `None`. Returns an error if memory runs
/// out.
pub fn open_path<R: Wait>(
    rt: &R,
    alloc: Global,
    fail_at: Option<u64>,
) -> Result<Blank<MemorySink>, Fail> {
    let lab = read_lab(alloc, PATH_OF_THREE.as_bytes())?;
    let sink = MemorySink::new(alloc, fail_at);
    Ok(open_house(rt, alloc, lab, sink)?)
}

/// A visit: what a test does through two windows of a house.
pub trait Visit<S: Sink> {
    /// The result of the visit.
    type Outcome: Drop;

    /// Does the test's work through these two windows, and returns its result.
    fn visit<H: House, R: Wait>(self, pair: &mut Pair<'_, S, H, R>) -> Self::Outcome;
}

/// Makes a visit through the last two of these `windows`, and returns its result. The last window is the visit's first
/// window, and the one before it is the second. Afterwards puts the first window back, and then the second, so that
/// they have swapped their positions in the list. Returns `None` if memory runs out before both are put back. Also
/// returns `None`, without a visit, if there are fewer than two windows; then none is left.
pub fn visit_windows<V: Visit<S> + Drop, S: Sink + Drop, H: House, R: Wait>(
    rt: &R,
    alloc: Global,
    desk: &Desk<S, H>,
    windows: &mut Vec<Window<H>>,
    visit: V,
) -> Option<V::Outcome>
    ensures { length windows.new.items ≤ length windows.old.items }
{
    let mut pair = Pair::new(rt, alloc, desk, take_two(windows)?);
    let outcome = visit.visit(&mut pair);
    let (one, two) = pair.into_windows();
    let is_back = give_back(windows, one);
    (give_back(windows, two) && is_back).then_some(outcome)
}

/// The result of a visit, and how the house has ended. The result is `None` if there were fewer than two windows, or
/// memory ran out before both were put back. The house has ended with its log, or with `Astray` if a window with
/// granted events was missing.
pub type Visited<T, S> = (Option<T>, Result<Log<S>, Astray>);

/// Starts the opened house `blank`, whose name is `H`, makes a visit through two of its windows, and ends the house.
/// Returns the result of the visit, and how the house has ended. Returns an error if memory runs out before the visit.
pub fn visit_house<V: Visit<S> + Drop, S: Sink + Drop, H: House, R: Wait>(
    rt: &R,
    alloc: Global,
    blank: Blank<S>,
    visit: V,
) -> Result<Visited<V::Outcome, S>, Fail>
    requires { blank ≡ house_of H.name H.lab }
{
    let (desk, mut windows) = blank.start::<H>(alloc)?;
    let outcome = visit_windows(rt, alloc, &desk, &mut windows, visit);
    Ok((outcome, desk.finish(rt, windows)))
}

/// Opens a house over the lab whose file has the text `file`, makes a visit, and ends the house. The house's journal
/// goes to `sink`, which must be fresh. Returns the result of the visit, and how the house has ended. Returns an error
/// if the file doesn't describe a lab, or memory runs out before the visit.
pub fn visit_lab<V: Visit<S> + Drop, S: Sink + Drop, R: Wait>(
    rt: &R,
    alloc: Global,
    file: &str,
    sink: S,
    visit: V,
) -> Result<Visited<V::Outcome, S>, Fail>
    requires fresh { IsFresh (S.contents sink) }
    requires countable { S.failures sink < 2 ^ 64 - 1 }
{
    let lab = read_lab(alloc, file.as_bytes())?;
    let blank = open_house(rt, alloc, lab, sink)?;
    visit_house::<_, _, Brand, _>(rt, alloc, blank, visit)
}

/// Opens a house over the path of three, makes a visit, and ends the house. The house's journal goes to `sink`, which
/// must be fresh. Returns the result of the visit, and how the house has ended. Returns an error if memory runs out
/// before the visit.
pub fn visit_path<V: Visit<S> + Drop, S: Sink + Drop, R: Wait>(
    rt: &R,
    alloc: Global,
    sink: S,
    visit: V,
) -> Result<Visited<V::Outcome, S>, Fail>
    requires fresh { IsFresh (S.contents sink) }
    requires countable { S.failures sink < 2 ^ 64 - 1 }
{
    visit_lab(rt, alloc, PATH_OF_THREE, sink, visit)
}
