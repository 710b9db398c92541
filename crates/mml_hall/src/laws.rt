//! Laws of turns and scripts. Each is the contract of a function that does nothing.
//!
//! A hall is the server of one thread: a lab, its world, its events and journal, and who is known on each connection. A
//! turn is the reply to one line and the state after it. A script is one list with the lines of all connections, and a
//! transcript has its lines with their replies. A world is a network with its registers, its chosen moves, the number
//! of its configuration, and the number of events so far. An account is known on a connection from its granted hello to
//! its bye. A sink is the destination of the journal's bytes. The place of an event is its number in the list of
//! events, from 1. A mishap is what goes wrong in a turn: memory runs out, or a write to the sink fails.

ghost use Rattle.std.specs.Prelude.{◌≡◌, ◌≢◌, ◌<◌, ◌≤◌, ◌⊎◌, ◌++◌, ℕ, List, true, length, map};
ghost use Rattle.mml_lab.specs.declared.TheConstants.{MAX_SESSIONS};
ghost use Rattle.mml_lab.specs.Labs.{LabValue};
ghost use Rattle.mml_ids.specs.Lines.{IsUnbroken};
ghost use Rattle.mml_lines.specs.LinesOf.{lines_of};
ghost use Rattle.mml_codec.specs.declared.reply.Reply.TheVariants.{Refuse};
ghost use Rattle.mml_codec.specs.declared.reply.Refused.TheVariants as refused;
ghost use Rattle.mml_hall.specs.Turns.{State, Outcome, Turn, Mishap, turn, sink_failed, plain_turn, is_grant, halting, IsRefusal, IsKept, GrowsByGrant};
ghost use Rattle.mml_hall.specs.Turns.{known_on};
ghost use Rattle.mml_hall.specs.ScriptLines.{script_line};
ghost use Rattle.mml_hall.specs.Transcripts.{Transcript, bytes_read};

use crate::MAX_SCRIPT_LINE;

pub mod audit;

/// Take the bytes that were read for a transcript, and any bytes `rest` after them. Their lines are the script lines of
/// the transcript, and then the lines of `rest`. If `rest` has no newline, there are only the script lines.
pub fn lines_of_a_transcript()
    ensures first { (lab : LabValue) (t : Transcript lab) (rest : List ℕ)
        → lab.sessions ≤ MAX_SESSIONS
        → lines_of (bytes_read t ++ rest) ≡ map script_line t.lines ++ lines_of rest }
    ensures all { (lab : LabValue) (t : Transcript lab) (rest : List ℕ)
        → lab.sessions ≤ MAX_SESSIONS → IsUnbroken rest
        → lines_of (bytes_read t ++ rest) ≡ map script_line t.lines }
{}

/// A transcript has exactly one reply to each of its lines.
#[tactic(auto, using(mml_lines::proofs::RunsLemmas::as_many))]
pub fn one_reply_each()
    ensures { (lab : LabValue) (t : Transcript lab) → length t.replies ≡ length t.lines }
{}

/// A request that is denied or refused doesn't change the world, the events, or who is known on each connection. The
/// only change that it may make is to halt the journal.
#[tactic(auto, using(std::proofs::lemmas::Bool::Decides::nat_tests, crate::proofs::TurnsLemmas::plain_does, crate::proofs::TurnsLemmas::granted_not_refused))]
pub fn refusals_change_nothing()
    ensures { (lab : LabValue) (st : State) (connection : ℕ) (line : List ℕ) (out : Outcome)
        → Turn lab st connection line out → IsRefusal out.reply → IsKept st out.state }
{}

/// Answering a line makes at most one event. If it makes one, the reply grants the event and names its place. With any
/// other reply, the world and the events stay as they were.
pub fn events_grow_by_grants()
    ensures { (lab : LabValue) (st : State) (connection : ℕ) (line : List ℕ) (out : Outcome)
        → Turn lab st connection line out → GrowsByGrant st out }
{}

/// The journal is halted exactly if the line of a granted event can't be written to its sink. The event then doesn't
/// happen. Once halted, the journal stays halted. If the reply is the refusal `journal`, the journal is halted
/// afterwards.
#[tactic(auto, using(std::proofs::lemmas::Bool::Decides::nat_tests, crate::proofs::TurnsLemmas::plain_halted, crate::proofs::TurnsLemmas::plain_journal))]
pub fn failed_puts_halt_for_good()
    ensures failed { (lab : LabValue) (st : State) (connection : ℕ) (line : List ℕ)
        → is_grant (plain_turn lab st connection line).reply ≡ true
        → turn sink_failed lab st connection line ≡ halting st }
    ensures only { (lab : LabValue) (st : State) (connection : ℕ) (line : List ℕ) (mishap : Mishap)
        → (turn mishap lab st connection line).state.halted ≡ true
        → (st.halted ≡ true) ⊎ ((mishap ≡ sink_failed)
        × (is_grant (plain_turn lab st connection line).reply ≡ true)) }
    ensures stays { (lab : LabValue) (st : State) (connection : ℕ) (line : List ℕ) (out : Outcome)
        → Turn lab st connection line out → st.halted ≡ true → out.state.halted ≡ true }
    ensures cause { (lab : LabValue) (st : State) (connection : ℕ) (line : List ℕ) (out : Outcome)
        → Turn lab st connection line out → out.reply ≡ Refuse refused.Journal
        → out.state.halted ≡ true }
{}

/// Answering a line on one connection doesn't change who is known on the others.
pub fn others_stay_known()
    ensures { (lab : LabValue) (st : State) (connection other : ℕ) (line : List ℕ) (out : Outcome)
        → Turn lab st connection line out → 0 < connection → 0 < other → other ≢ connection
        → known_on out.state other ≡ known_on st other }
{}

/// A script line may have at most 4099 bytes (`MAX_SCRIPT_LINE`), without its newline.
pub fn limit_of_script_lines()
    ensures { MAX_SCRIPT_LINE ≡ 4099 }
{}
