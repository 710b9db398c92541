//! A house that begins with earlier events, and with what was recorded then.
//!
//! A house is one run of a lab that threads share: its list of granted events, the board after them, and their journal.
//! A seat serves one connection after another, each through the seat's window.
use mml_window::{Brand, House};

/// Names one house (one run of a lab) for contracts. Such a house may go on from an earlier one: it has the events that
/// came before it was opened, and what the observers of its seats had kept by then.
pub trait Begun: House {
    ghost use Rattle.std.specs.Prelude.{ℕ, List, Option};
    ghost use Rattle.mml_session.specs.Records.{Kept};
    ghost use Rattle.mml_board.specs.declared.event.Event.{Event};

    // The events that came before, in their order.
    ghost begun: { List Event };

    // What the observer of each seat had kept by then, by the seat's number; `None` if contracts can't name it.
    ghost given: { ℕ → Option Kept };
}

impl Begun for Brand {
    ghost use Rattle.std.specs.Prelude.{[], None};

    ghost begun = { [] };

    ghost given = { λ _. None };
}
