//! What the lines of a record asked, which clauses denied them, and why they were refused.
//!
//! A record has entries: a line with its reply, a session's end, or a note that something is left out. An entry says
//! how many events its session had seen. A seat is a part of the server that serves one connection after another. A
//! participant is known on a connection from a granted hello to the bye. `known` is always a participant of the lab,
//! or `None` if nobody is known. A clause is a condition for a request; a denial names the first that doesn't hold. A
//! refusal has another reason, for example that memory ran out. A tally counts the lines of each student by these.
ghost use Rattle.std.specs.Prelude.{◌≡◌, ◌++◌, List, ℕ, true, bytes_eq, IfOk, IfSome, OnOk};
ghost use Rattle.mml_ids.specs.Lines.{ended};
ghost use Rattle.mml_lab.specs.Rosters.{IsPrincipal};
ghost use Rattle.mml_codec.specs.Lines.{request_in};
ghost use Rattle.mml_board.specs.Lists.{is_legal_in};
ghost use Rattle.mml_record.specs.declared.kept_entry.Entry.{Entry};
ghost use Rattle.mml_record.specs.Certified.{IsRecordOf};
ghost use Rattle.mml_record.specs.Entries.{record_text};
ghost use Rattle.mml_journal.specs.Words.{seen};
ghost use Rattle.mml_record.specs.inside.RawEntries.{entry_view};
ghost use Rattle.mml_record.specs.Asks.{kind_asked, line_of_command, line_of_request, line_of, digit_first, clause_told, memory_text, known_by, known_asked, known_after, student_in, student_of, ask_of, asks_at, known_behind, asks_in};

use crate::denial_members::denial_members;
use crate::denial_names::denial_told;
use crate::reading::{RawEntry, entry_in};
use crate::refusals::reason_told;
use mml_board::Event;
use mml_codec::{Greeting, LineFault, Request, greet, read_request};
use mml_ids::Memory;
use mml_journal::split_at_byte;
use mml_lab::{Lab, Roster, Student, Who};
use mml_policy::{Asked, Command};
use mml_rules::Kind;
use mml_tally::{Ask, Line, push_ask};
use std::alloc::Global;

/// Returns the kind of the rule that a `move` asks for, without the node that a marriage names.
fn kind_asked(rule: Asked) -> Kind
    ensures { result ≡ kind_asked rule }
{
    match rule {
        Asked::Update => Kind::Update,
        Asked::Marriage(_) => Kind::Marriage,
        Asked::Seduction => Kind::Seduction,
        Asked::Abandonment => Kind::Abandonment,
    }
}

/// Returns how the tally classes a line with this command: as `Move`, with its node and the kind of its rule, or as
/// `Other` for any other command.
fn line_of_command(command: &Command) -> Line
    ensures { result ≡ line_of_command command.now }
{
    match *command {
        Command::Move { node, rule, .. } => Line::Move {
            node,
            kind: kind_asked(rule),
        },
        _ => Line::Other,
    }
}

/// Returns how the tally classes a line with this request: by its command, or as `Other` for a hello or a bye, which
/// ask for no move.
fn line_of_request(request: &Request) -> Line
    ensures { result ≡ line_of_request request.now }
{
    match request {
        Request::Hello { .. } | Request::Bye => Line::Other,
        Request::Do(command) => line_of_command(command),
    }
}

/// Reads a digit from the front of `rest`, and returns its value. For a byte that is no digit, which no reply has
/// there, returns the byte minus the byte `0`, but at least 0. Returns `None` if there is no `rest`, or it is empty.
fn digit_first(rest: Option<&[u8]>) -> Option<u8>
    ensures { result ≡ digit_first (seen rest.entry) }
{
    let bytes = rest?;
    let digit = bytes.first()?;
    Some(digit.saturating_sub(b'0'))
}

/// Returns the number of the clause in a reply's text, or `None` if the reply is no denial. Only the first byte of the
/// number is read, since clauses have one digit.
fn clause_told(text: &[u8]) -> Option<u8>
    ensures { result ≡ clause_told text.now }
{
    let members = denial_members(text)?;
    let (_, rest) = split_at_byte(members, b':');
    digit_first(rest)
}

/// Returns whether the reply `text`, without its newline, is the refusal for memory.
fn is_memory(text: &[u8]) -> bool
    ensures { result ≡ bytes_eq text.now memory_text }
{
    text == b"{\"refuse\":\"memory\"}".as_slice()
}

/// Returns who is known after a line, if `known` was known before it. `greeting` is what the rules of greeting say of
/// the line. These rules may give a reply at once, and then say who is known. Or they leave a command to the policy,
/// which doesn't change who is known.
fn known_by(known: Option<Who>, greeting: Greeting) -> Option<Who>
    ensures { result ≡ known_by known greeting }
{
    match greeting {
        Greeting::Answered {
            reply: _reply,
            known: then,
        } => then,
        Greeting::LeftToJudge {
            who: _who,
            command: _command,
        } => known,
    }
}

/// Reads a line. Returns how the tally classes it (a move, another request, or no request), and who is known after it,
/// if `known` was known before it. Returns `Memory` if memory runs out.
fn line_and_known(
    alloc: Global,
    roster: &Roster,
    known: Option<Who>,
    line: &[u8],
) -> Result<(Line, Option<Who>), Memory>
    requires { IfSome known (IsPrincipal roster.now) }
    ensures line { IfOk result (λ x. x.0 ≡ line_of (request_in line.now)) }
    ensures known { IfOk result (λ x. x.1 ≡ known_asked roster.now known (request_in line.now)) }
    ensures part { IfOk result (λ x. IfSome x.1 (IsPrincipal roster.now)) }
{
    // A reference is used because the toolchain doesn't copy a value that contains a student.
    let known = &known;
    match read_request(alloc, line) {
        Ok(request) => {
            let line = line_of_request(&request);
            Ok((line, known_by(*known, greet(roster, *known, request))))
        }
        Err(LineFault::Memory) => Err(Memory),
        Err(LineFault::Malformed) => Ok((Line::Malformed, *known)),
    }
}

/// Returns the student whom `who` names, or `None` for the teacher.
fn student_in(who: Who) -> Option<Student>
    ensures { result ≡ student_in who }
{
    match who {
        Who::Teacher => None,
        Who::Student(student) => Some(student),
    }
}

/// Returns the student who is known, or `None` if nobody or the teacher is known.
fn student_of(known: Option<Who>) -> Option<Student>
    ensures { result ≡ student_of known }
{
    match known {
        Some(who) => student_in(who),
        None => None,
    }
}

/// Reads a line and its reply `text`, both without newlines. Returns what the tally counts of them: the student who was
/// known before the line, what the line asks, and how the reply denies or refuses it. Also returns who is known after
/// the line: `known` as before if the reply is the refusal for memory. Returns `Memory` if memory runs out while the
/// line is read.
#[tactic(auto, unfolding(crate::specs::Asks::known_after))]
fn ask_and_known(
    alloc: Global,
    roster: &Roster,
    known: Option<Who>,
    line: &[u8],
    text: &[u8],
) -> Result<(Ask, Option<Who>), Memory>
    requires { IfSome known (IsPrincipal roster.now) }
    ensures ask { IfOk result (λ x. x.0 ≡ ask_of known line.now (ended text.now)) }
    ensures known { IfOk result (λ x. x.1 ≡ known_after roster.now known line.now text.now) }
    ensures part { IfOk result (λ x. IfSome x.1 (IsPrincipal roster.now)) }
{
    // A reference is used because the toolchain doesn't copy a value that contains a student.
    let known = &known;
    let denied = clause_told(text);
    let named = denial_told(text);
    let refused = reason_told(text);
    let (line, then) = line_and_known(alloc, roster, *known, line)?;
    let ask = Ask {
        who: student_of(*known),
        line,
        denied,
        named,
        refused,
    };
    if is_memory(text) {
        Ok((ask, *known))
    } else {
        Ok((ask, then))
    }
}

/// Appends to `asks` what the tally counts of an entry: one item for the entry of a line, and nothing for any other
/// entry. Returns who is known after the entry, if `known` was known before it. Nobody is known after a session's end,
/// nor after an entry which says that anything may be missing. Returns `Memory` if memory runs out while the entry is
/// read.
fn read_ask(
    alloc: Global,
    lab: &Lab,
    known: Option<Who>,
    entry: &RawEntry<'_>,
    asks: &mut Vec<Ask>,
) -> Result<Option<Who>, Memory>
    requires { IfSome known (IsPrincipal lab.now.roster) }
    ensures asks { IfOk result (λ k.
        asks.new.items ≡ asks.old.items ++ asks_at known (entry_view entry.now)) }
    ensures known { IfOk result (λ k.
        k ≡ known_behind lab.now.roster known (entry_view entry.now)) }
    ensures part { IfOk result (λ k. IfSome k (IsPrincipal lab.now.roster)) }
{
    match entry {
        RawEntry::Said { line, text, .. } => {
            let (ask, then) = ask_and_known(alloc, lab.roster(), known, line, text)?;
            push_ask(asks, &ask)?;
            Ok(then)
        }
        RawEntry::Left { .. } | RawEntry::Unrecorded { .. } => Ok(None),
        RawEntry::Paused { .. } | RawEntry::Resumed { .. } => Ok(known),
    }
}

/// Reads the record `text` of the seat with this number. For each line in it, appends to `asks` the student who was
/// known, what the line asked, and how its reply denied or refused it, if it did. The text must be a record that fits
/// the events of a journal of the lab; any other is read up to the first bytes that are no entry. Only the contract
/// uses `events`. Returns `Memory` if memory runs out.
#[tactic(auto, using(crate::proofs::AskReadingLemmas::shorter))]
pub fn read_asks(
    alloc: Global,
    lab: &Lab,
    events: &[Event],
    number: u8,
    text: &[u8],
    asks: &mut Vec<Ask>,
) -> Result<(), Memory>
    requires { is_legal_in lab.now events.now ≡ true }
    ensures { OnOk result ((es : List Entry) (ps : List ℕ) → IsRecordOf lab.now events.now es ps →
        text.now ≡ record_text number es →
        asks.new.items ≡ asks.old.items ++ asks_in lab.now.roster es) }
{
    // Called only for the proof: by their contracts the lab is valid, and the number of events fits into 64 bits.
    let _nodes = lab.node_count();
    let _count = events.len();
    let mut known = None;
    let mut left = text;
    'entries: while !left.is_empty() {
        let Some((entry, rest)) = entry_in(number, left) else {
            return Ok(());
        };
        known = read_ask(alloc, lab, known, &entry, asks)?;
        left = rest;
    }
    Ok(())
}
