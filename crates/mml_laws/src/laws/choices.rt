//! Which moves are chosen. Each law is the contract of a function that does nothing.
//!
//! A grant chooses a move for a node, a release drops it, and a close applies all chosen moves at once. A fault sets a
//! node's registers, a link joins two nodes, and a cut removes a link. A world is a network with its registers, its
//! chosen moves, the number of its configuration, and the number of events so far. A list of events is legal if each
//! event is allowed in the world after the earlier ones.
ghost use Rattle.std.specs.Prelude.{◌≡◌, ◌↔◌, ℕ, true, Some, List};
ghost use Rattle.mml_rules.specs.declared.rule.Rule.{Rule};
ghost use Rattle.mml_lab.specs.Labs.{LabValue, IsLab};
ghost use Rattle.mml_board.specs.declared.event.Event.{Event};
ghost use Rattle.mml_board.specs.World.{opening_of, chosen_at};
ghost use Rattle.mml_board.specs.Runs.{is_legal_list, world_of};
ghost use Rattle.mml_laws.specs.Choices.{IsGrantedLast};

/// After a legal list of a lab's events, a rule is chosen at a node exactly if some event granted it there, and no
/// later event ended the choice. A release of the node ends it, and so does each close, fault, link or cut, at whatever
/// nodes.
pub fn chosen_moves_were_granted_last()
    ensures { (lab : LabValue) (es : List Event) (i : ℕ) (q : Rule) → IsLab lab →
        is_legal_list lab.roster (opening_of lab.network) es ≡ true →
        (chosen_at (world_of (opening_of lab.network) es).chosen i ≡ Some q) ↔
        IsGrantedLast es i q }
{}
