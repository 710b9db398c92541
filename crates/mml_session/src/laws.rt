//! Laws of turns and sessions. Each is the contract of a function that does nothing.
//!
//! A session is one connection from its first line to its end. A window is one session's view of the published events
//! and board. An account is known on a connection from its granted hello to its bye. A standing is who is known on a
//! connection, and the state of the session's window. A turn is the reply to one line of a session, and the standing
//! after it. A talk is the answered lines of one session, with their replies. The place of an event is its number in
//! the list of events, from 1. A flush writes all replies that were buffered. The journal is halted if a line
//! couldn't be written to it.
ghost use Rattle.std.specs.Prelude.{◌≡◌, ◌++◌, ◌+◌, ◌-◌, ℕ, List, Option, Some, flat_map, length};
ghost use mathlib.Core.List.{IsPrefix};
ghost use Rattle.mml_lab.specs.Labs.{LabValue};
ghost use Rattle.mml_ids.specs.Lines.{IsUnbroken};
ghost use Rattle.mml_lines.specs.LinesOf.{lines_of};
ghost use Rattle.mml_session.specs.Turns.{Standing, places_in, halts_in, halts_of, spare_in};
ghost use Rattle.mml_session.specs.Talks.{Talk, LineTurn, bytes_read};
ghost use Rattle.mml_session.specs.Ends.{Ended};
ghost use Rattle.mml_session.specs.Holding.{LacksLastFlush};
ghost use Rattle.mml_session.specs.declared.session.SessionEnd.TheVariants as end;
ghost use Rattle.mml_session.specs.declared.held.TheConstants.{HELD_BYTES};
ghost use Rattle.mml_window.specs.Windows.{WindowValue};

/// The list of places (numbers of granted events) that a window keeps grows by those that the replies name, in order,
/// and by no others.
#[tactic(auto, using(crate::proofs::TalkLemmas::turn_places, crate::proofs::TalkLemmas::run_places))]
pub fn places_are_those_told()
    ensures turn { (lab : LabValue) (st after : Standing) (t : LineTurn lab st after) →
        after.window.places ≡ st.window.places ++ places_in t.reply }
    ensures talk { (lab : LabValue) (st : Standing) (t : Talk lab st) →
        t.end.window.places ≡ st.window.places ++ flat_map places_in t.replies }
{}

/// A window counts the replies that refuse an act because the journal is halted (`journal`), and no other replies. For
/// each of them, `spare` grows by how many more events the lab allows after those that the window has then seen.
#[tactic(auto, using(crate::proofs::TalkLemmas::turn_halts, crate::proofs::TalkLemmas::run_halts, crate::proofs::TalkLemmas::turn_spares))]
pub fn refusals_for_the_journal_are_counted()
    ensures turn { (lab : LabValue) (st after : Standing) (t : LineTurn lab st after) →
        after.window.halts ≡ st.window.halts + halts_in t.reply }
    ensures talk { (lab : LabValue) (st : Standing) (t : Talk lab st) →
        t.end.window.halts ≡ st.window.halts + halts_of t.replies }
    ensures spare { (lab : LabValue) (st after : Standing) (t : LineTurn lab st after) →
        after.window.spare
        ≡ st.window.spare + spare_in (lab.events - length after.window.seen) t.reply }
{}

/// What a session's window has seen only grows. The events that it had seen before one or several turns are the first
/// of those that it has seen afterwards.
#[tactic(auto, using(crate::proofs::TalkLemmas::talk_seen))]
pub fn seen_goes_on()
    ensures turn { (lab : LabValue) (st after : Standing) (t : LineTurn lab st after) →
        IsPrefix st.window.seen after.window.seen }
    ensures talk { (lab : LabValue) (st : Standing) (t : Talk lab st) →
        IsPrefix st.window.seen t.end.window.seen }
{}

/// In a talk (the answered lines of one session, with their replies) there are as many replies as lines.
#[tactic(auto, using(mml_lines::proofs::RunsLemmas::as_many))]
pub fn one_reply_each()
    ensures { (lab : LabValue) (st : Standing) (t : Talk lab st) →
        length t.replies ≡ length t.lines }
{}

/// If the lines of a talk were answered, and other bytes (`rest`) follow them, the lines of the whole input begin with
/// the answered ones. If no newline is among the other bytes, there are no further lines.
#[tactic(auto, using(mml_lines::proofs::LinesOfLemmas::lines_first, mml_lines::proofs::LinesOfLemmas::all_lines, crate::proofs::TalkLemmas::each_unbroken))]
pub fn lines_of_a_talk()
    ensures first { (lab : LabValue) (st : Standing) (t : Talk lab st) (rest : List ℕ) →
        lines_of (bytes_read t ++ rest) ≡ t.lines ++ lines_of rest }
    ensures all { (lab : LabValue) (st : Standing) (t : Talk lab st) (rest : List ℕ) →
        IsUnbroken rest → lines_of (bytes_read t ++ rest) ≡ t.lines }
{}

/// If a session ended because a write failed, the writer took all lines that earlier flushes wrote, and a beginning of
/// the last flush. The rest of the last flush is missing, and it isn't empty. Without its last line, the last flush has
/// at most 8192 bytes (`HELD_BYTES`), in at most 512 lines.
pub fn a_broken_session_lacks_its_last_flush()
    ensures lacks { (lab : LabValue) (old new : WindowValue) (input left : Option (List ℕ)) (wrote wrote' : List ℕ)
        (e : Ended end.WriteFault lab old new input left (Some wrote) (Some wrote')) →
        LacksLastFlush lab e.2.talk.replies e.2.last.reply wrote wrote' }
    ensures limit { HELD_BYTES ≡ 8192 }
{}
