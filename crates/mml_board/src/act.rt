//! Requests for events, and who may ask for them.
//!
//! A grant chooses a move for a node, a release drops it, and a close applies all chosen moves at once. A fault sets a
//! node's registers, a link joins two nodes, and a cut removes a link. A clause is a condition under which a request is
//! granted.
ghost use Rattle.std.specs.Prelude.{◌≡◌, ℕ, Bool, Option, Some, true};
ghost use Rattle.mml_lab.specs.declared.who.Who.{Who};
ghost use Rattle.mml_lab.specs.Rosters.{owns};
ghost use Rattle.mml_board.specs.Clauses.{asker, anybodys};

use crate::Event;
use mml_ids::Rank;
use mml_lab::{Roster, Who};
use mml_rules::Rule;

/// A request for an event, with its nodes looked up: a node is `None` if no node has the identifier that was named. The
/// act is granted if all its clauses, the conditions for it, hold.
#[derive(Clone, Copy, PartialEq, Eq)]
pub enum Act {
    /// Choose a move for a node in the configuration with the number `at`. `rule` is `None` if no node has the
    /// identifier of a marriage's partner.
    Move {
        node: Option<Rank>,
        rule: Option<Rule>,
        at: u64,
    },
    /// Apply all chosen moves at once.
    Close,
    /// Set the registers of a node. `p` is `None` for null, and `Some(None)` if no node has the identifier that was
    /// named.
    Fault {
        node: Option<Rank>,
        p: Option<Option<Rank>>,
        m: bool,
    },
    /// Link two nodes.
    Link {
        a: Option<Rank>,
        b: Option<Rank>,
    },
    /// Remove the link between two nodes.
    Cut {
        a: Option<Rank>,
        b: Option<Rank>,
    },
    /// Drop the chosen move of a node.
    Release {
        node: Option<Rank>,
    },
}

/// The owners of the nodes: for each participant and each node, whether the participant owns it.
pub trait Owners {
    ghost owned: { Self → Who → ℕ → Bool };

    /// Returns whether `who` owns the node.
    fn is_owned(&self, who: Who, node: Rank) -> bool
        ensures { result ≡ owned self.now who node };
}

impl Owners for Roster {
    ghost owned = { owns };

    // Returns whether `who` owns the node by the roster.
    fn is_owned(&self, who: Who, node: Rank) -> bool {
        self.owns(who, node)
    }
}

/// Owners for whom everybody owns every node. With them, the clause about the owner of a node always holds.
#[derive(Clone, Copy)]
pub struct Anybody;

impl Owners for Anybody {
    ghost owned = { λ _. anybodys };

    // Returns true: everybody owns every node.
    fn is_owned(&self, _who: Who, _node: Rank) -> bool {
        true
    }
}

/// Returns who asks for an event: the student whose move it is if the event is a grant, and otherwise the teacher.
pub fn asker(event: &Event) -> Who
    ensures { result ≡ asker event.now }
{
    match *event {
        Event::Grant { who, .. } => Who::Student(who),
        Event::Release { .. }
        | Event::Close
        | Event::Fault { .. }
        | Event::Link { .. }
        | Event::Cut { .. } => Who::Teacher,
    }
}
