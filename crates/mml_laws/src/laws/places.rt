//! The places (numbers of events) in replies. Each law is the contract of a function that does nothing.
//!
//! The place of an event is its number in the list of events, from 1. A hall is the engine that answers the lines of
//! numbered connections. A session is one connection from its first line to its end. A window is a session's view of
//! the list of events. A participant is known on a connection from a granted hello to the bye.
ghost use Rattle.std.specs.Prelude.{◌≡◌, ◌+◌, ◌≤◌, ℕ, true, List, length, flat_map};
ghost use Rattle.std.specs.List.{range_with_len};
ghost use mathlib.Core.List.{IsPrefix};
ghost use Rattle.mml_lab.specs.Labs.{LabValue, IsLab};
ghost use Rattle.mml_board.specs.declared.event.Event.{Event};
ghost use Rattle.mml_codec.specs.declared.reply.Reply.{Reply};
ghost use Rattle.mml_hall.specs.Halls.{IsHall};
ghost use Rattle.mml_hall.specs.Turns as hall;
ghost use Rattle.mml_session.specs.Talks.{Talk, LineTurn};
ghost use Rattle.mml_session.specs.Turns as session;
ghost use Rattle.mml_session.specs.Turns.{places_in};
ghost use Rattle.mml_board.specs.Lists.{is_legal_in};
ghost use Rattle.mml_window.specs.Tallies.{told_of, IsEachOnceFrom};
ghost use Rattle.mml_window.specs.Windows.{WindowValue};
ghost use Rattle.mml_laws.specs.Served.{AreServed, named_by};
ghost use Rattle.mml_laws.specs.Told.{EachNamesItsEvent, NamesItsEventIn, EachNamesItsEventIn};

/// In a run of a hall, a reply that names place p replies to a command of the participant who was known on its
/// connection. The command was granted after events 1 to p - 1 of the final list, and event p is what was granted. Line
/// p of the journal is the event's line. The final list begins with the events before the run. Each later event has
/// exactly one reply that names it, and these replies come in the order of the events.
#[tactic(auto, using(crate::proofs::HallPlacesLemmas::hall_names, crate::proofs::HallPlacesLemmas::hall_once, crate::proofs::HallPlacesLemmas::hall_kept))]
pub fn replies_of_a_hall_name_their_events()
    ensures told { (lab : LabValue) (st end : hall.State) (lines : List hall.RequestLine)
        (rs : List Reply) (run : hall.Run lab st lines rs end) → IsHall lab st →
        EachNamesItsEvent lab end.events st lines rs end run }
    ensures once { (lab : LabValue) (st end : hall.State) (lines : List hall.RequestLine)
        (rs : List Reply) (more : ℕ) → IsHall lab st → hall.Run lab st lines rs end →
        length end.events ≡ length st.events + more →
        flat_map places_in rs ≡ range_with_len (length st.events + 1) more }
    ensures kept { (lab : LabValue) (st end : hall.State) (lines : List hall.RequestLine)
        (rs : List Reply) → IsHall lab st → hall.Run lab st lines rs end →
        IsPrefix st.events end.events }
{}

/// Take any legal list of events of the lab, within the lab's limit of events, that begins with the events that the
/// window has seen when the session ends. The list of the house is such a list. In the session, a reply that names
/// place p replies to a command of the participant who was known. The command was granted after events 1 to p - 1 of
/// this list, and event p is what was granted.
#[tactic(auto, using(crate::proofs::SessionPlacesLemmas::talk_names, crate::proofs::SessionPlacesLemmas::line_names))]
pub fn replies_of_a_session_name_their_events()
    ensures talk { (lab : LabValue) (st : session.Standing) (t : Talk lab st) (l : List Event) →
        IsLab lab → is_legal_in lab l ≡ true → length l ≤ lab.events →
        IsPrefix t.end.window.seen l →
        EachNamesItsEventIn lab l st t.lines t.replies t.end t.run }
    ensures turn { (lab : LabValue) (st after : session.Standing) (t : LineTurn lab st after)
        (l : List Event) → IsLab lab → is_legal_in lab l ≡ true → length l ≤ lab.events →
        IsPrefix after.window.seen l → NamesItsEventIn lab l st t.line t.reply }
{}

/// Suppose that each window of a house (one run of a lab) served one session after another. Suppose also that together
/// the windows were granted each place once, from the first place after the events before the house to some last one.
/// Then each of these places is named by exactly one reply, over all sessions of all windows. Every house that leaves a
/// log meets this condition. If a write failed, the reply may not have been sent.
pub fn each_event_of_a_house_has_one_reply()
    ensures { (lab : LabValue) (begun : List Event) (most : ℕ)
        (sessions : List (List (List Reply))) (windows : List WindowValue) →
        AreServed lab begun sessions windows →
        IsEachOnceFrom (length begun) most (told_of windows) →
        IsEachOnceFrom (length begun) most (named_by sessions) }
{}
