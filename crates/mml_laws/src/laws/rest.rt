//! How soon a run comes to rest. Each law is the contract of a function that does nothing.
//!
//! A run is at rest if no node is privileged, that is, if no rule is enabled at any node. A grant chooses a move for a
//! node, a release drops it, and a close applies all chosen moves at once. A fault sets a node's registers, a link
//! joins two nodes, and a cut removes a link. A list of events is legal if each event is allowed in the world after the
//! earlier ones.
ghost use Rattle.std.specs.Prelude.{◌≡◌, ℕ, ◌+◌, ◌<◌, ◌≤◌, true, List, length, Ok};
ghost use Rattle.std.specs.List.{list_all};
ghost use Rattle.mml_rules.specs.Matching.{IsStable};
ghost use Rattle.mml_lab.specs.Labs.{LabValue, link_count};
ghost use Rattle.mml_lab_file.specs.Reading.{lab_of};
ghost use Rattle.mml_lab.specs.Rosters.{RosterValue};
ghost use Rattle.mml_board.specs.declared.event.Event.{Event};
ghost use Rattle.mml_board.specs.World.{World, IsWorld, size, configuration, opening_of};
ghost use Rattle.mml_board.specs.Events.{chosen_count};
ghost use Rattle.mml_board.specs.Runs.{is_legal_list, world_of};
ghost use Rattle.mml_convergence.specs.Rest.{EachHasOwner, is_grant_or_close};
ghost use Rattle.mml_convergence.specs.Most.{events_to_rest};

/// On n nodes with L links, a legal list of only grants and closes has at most k = 6n + 4 min(L, n²/4) events, with
/// n²/4 rounded down. If moves are chosen at its beginning, the bound is smaller by their number. So if each node has
/// an owner and k events are allowed, such a run comes to rest before it reaches the limit. As long as a node is
/// privileged, there is room for one more event. For at most 256 nodes, k is at most 67072, and a lab may allow 100000
/// events.
#[tactic(auto, using(crate::proofs::RestWithinLemmas::places, crate::proofs::RestWithinLemmas::events_few, crate::proofs::RestWithinLemmas::fewer, crate::proofs::RestWithinLemmas::events_most, mml_audit::proofs::AuditMeaningLemmas::reached_first, mml_lab_file::proofs::LabMeaningLemmas::lawful, mml_lab_file::proofs::OwnersLemmas::one_or_two))]
pub fn rest_comes_within_a_limit()
    ensures few { (r : RosterValue) (w : World) (es : List Event) → IsWorld w →
        is_legal_list r w es ≡ true → list_all is_grant_or_close es ≡ true →
        length es + chosen_count w ≤ events_to_rest (size w) (link_count w.network) }
    ensures room { (r : RosterValue) (w : World) (es : List Event) (limit : ℕ) → IsWorld w →
        EachHasOwner r (size w) → is_legal_list r w es ≡ true →
        list_all is_grant_or_close es ≡ true →
        w.place + events_to_rest (size w) (link_count w.network) ≤ limit →
        ¬ IsStable (configuration (world_of w es)) → (world_of w es).place < limit }
    ensures lab { (bytes : List ℕ) (lab : LabValue) (es : List Event) → lab_of bytes ≡ Ok lab →
        is_legal_list lab.roster (opening_of lab.network) es ≡ true →
        list_all is_grant_or_close es ≡ true →
        events_to_rest (length lab.ids) (link_count lab.network) ≤ lab.events →
        ¬ IsStable (configuration (world_of (opening_of lab.network) es)) → length es < lab.events }
    ensures most { (nodes links : ℕ) → nodes ≤ 256 → events_to_rest nodes links ≤ 67072 }
{}
