//! How runs can be finished. Each law is the contract of a function that does nothing.
//!
//! A run is finished if no node is privileged, that is, if no rule is enabled at any node. A grant chooses a move for a
//! node, a release drops it, and a close applies all chosen moves at once. A fault sets a node's registers, a link
//! joins two nodes, and a cut removes a link. A script has request lines, which a hall answers in one thread. A journal
//! is halted if a line couldn't be written to it.
ghost use Rattle.std.specs.Prelude.{◌≡◌, ◌+◌, ◌≤◌, ℕ, false, List, length, Ok};
ghost use Rattle.mml_lab.specs.Labs.{LabValue, link_count};
ghost use Rattle.mml_lab_file.specs.Reading.{lab_of};
ghost use Rattle.mml_board.specs.declared.event.Event.{Event};
ghost use Rattle.mml_convergence.specs.Rest.{EachHasOwner};
ghost use Rattle.mml_convergence.specs.Most.{events_to_rest};
ghost use Rattle.mml_codec.specs.declared.reply.Reply.{Reply};
ghost use Rattle.mml_hall.specs.Halls.{IsHall};
ghost use Rattle.mml_hall.specs.Turns.{State, opening};
ghost use Rattle.mml_laws.specs.Finishes.{FinishesByAsking};

/// A run with n nodes and L links can always be finished by requests if three things hold. The journal isn't halted,
/// each node has an owner, and the lab allows k = 6n + 4 min(L, n²/4) more events, with n²/4 rounded down. Then some
/// script with at most k moves and closes is granted all of them, and no node is privileged after it. Before each of
/// these moves and closes, the script has a bye and the hello of the participant who asks. The same holds from the
/// beginning of each lab that is read from a file, and allows k events.
#[tactic(auto, using(crate::proofs::FinishesLemmas::can_finish, crate::proofs::FinishesLemmas::lab_can_finish))]
pub fn a_run_can_always_be_finished_by_asking()
    ensures run { (lab : LabValue) (st : State) → IsHall lab st → st.halted ≡ false →
        EachHasOwner lab.roster (length lab.ids) →
        st.world.place + events_to_rest (length lab.ids) (link_count st.world.network) ≤ lab.events →
        (es : List Event) × (rs : List Reply) × (end : State) × FinishesByAsking lab st
        (events_to_rest (length lab.ids) (link_count st.world.network)) es rs end }
    ensures lab { (bytes : List ℕ) (lab : LabValue) → lab_of bytes ≡ Ok lab →
        events_to_rest (length lab.ids) (link_count lab.network) ≤ lab.events →
        (es : List Event) × (rs : List Reply) × (end : State) × FinishesByAsking lab (opening lab)
        (events_to_rest (length lab.ids) (link_count lab.network)) es rs end }
{}
