//! Taking windows from a list, and putting them back. A house is ended with the list of its windows.
//!
//! A house is one run of a lab that threads share. A window is one session's view of the published events. The type `H`
//! is the name of a house, and only contracts use it.
ghost use Rattle.std.specs.Prelude.{◌+◌, ◌≤◌, length, IfSome};

use mml_window::{House, Window};

/// Removes the last two windows from the list, and returns the last one and then the one before it. Returns `None` if
/// there are fewer than two windows; a single one is dropped then.
pub fn take_two<H: House>(windows: &mut Vec<Window<H>>) -> Option<(Window<H>, Window<H>)>
    ensures fewer { length windows.new.items ≤ length windows.old.items }
    ensures taken { IfSome result (λ _.
        length windows.new.items + 2 ≤ length windows.old.items) }
{
    let one = windows.pop()?;
    let two = windows.pop()?;
    Some((one, two))
}

/// Puts a window back into the list, so that the house can be ended with it. Returns `false`, and drops the window, if
/// memory runs out.
pub fn give_back<H: House>(windows: &mut Vec<Window<H>>, window: Window<H>) -> bool
    ensures { length windows.new.items ≤ length windows.old.items + 1 }
{
    windows.push(window).is_ok()
}
