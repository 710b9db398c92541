//! Laws of requests and replies. Each is the contract of a function that does nothing.
//!
//! A `Greeting` is the result of a request before the policy judges it: the reply to a hello or a bye, or to any
//! request while nobody is known. A ruling is what the policy decides about a command. An account is known on a
//! connection from its granted hello to its bye. The place of an event is its number in the list of events, from 1.
ghost use Rattle.std.specs.Prelude.{◌≡◌, ◌≢◌, ◌↔◌, List, ℕ, All, Ok, Option, Some, None, true};
ghost use Rattle.mml_codec.specs.declared.request.Request.{Request};
ghost use Rattle.mml_lab.specs.Rosters.{RosterValue, IsRoster};
ghost use Rattle.mml_lab.specs.RosterMeaning.{IsKnownAs};
ghost use Rattle.mml_lab.specs.declared.who.Who.{Who};
ghost use Rattle.mml_board.specs.declared.denial.Denial.{Denial};
ghost use Rattle.mml_codec.specs.declared.request.Request.TheVariants as requests;
ghost use Rattle.mml_codec.specs.declared.greeting.Greeting.TheVariants.{Answered};
ghost use Rattle.mml_codec.specs.Greetings.{greeting};
ghost use Rattle.serde_json.specs.Data.{Data};
ghost use Rattle.mml_codec.specs.Fields.{HasEach};
ghost use Rattle.mml_codec.specs.Requests.{fields_of, request};
ghost use Rattle.mml_codec.specs.Canonical.{canonical, IsWritable};
ghost use Rattle.mml_codec.specs.Lines.{request_in};
ghost use Rattle.mml_codec.specs.Replies.{text, reply_line, IsAbout};
ghost use Rattle.mml_codec.specs.ReplyValues.{reply_value, AreWritableCounts, has_rising_keys};
ghost use Rattle.mml_ids.specs.Ids.{IsTable};
ghost use Rattle.serde_json.specs.Read.{read};
ghost use Rattle.serde_json.specs.Written.{compact_text};
ghost use Rattle.mml_codec.specs.declared.reply.Reply.{Reply};
ghost use Rattle.mml_codec.specs.declared.reply.Refused.TheVariants as refused;
ghost use Rattle.mml_codec.specs.declared.reply.Reply.TheVariants as replies;
ghost use Rattle.mml_codec.specs.declared.reply.Reply.TheVariants.{Refuse};
ghost use Rattle.mml_codec.specs.declared.TheConstants.{MAX_REQUEST};
ghost use Rattle.mml_codec.specs.declared.reply.TheConstants.{REPLY_ROOM};
ghost use Rattle.mml_codec.specs.Rulings.{reply_of_done};
ghost use Rattle.mml_board.specs.declared.event.Event.TheVariants as event;
ghost use Rattle.mml_board.specs.World.{World};
ghost use Rattle.mml_board.specs.Events.{done_by, chosen_count, chosen_nodes};
ghost use Rattle.mml_rules.specs.declared.regs.Regs.{Regs};
ghost use Rattle.mml_rules.specs.declared.rule.Rule.{Rule};
ghost use Rattle.mml_rules.specs.Rules.{kind_of};

use crate::reply::{FULL_LINE, JOURNAL_LINE, MALFORMED_LINE, MEMORY_LINE};

/// A JSON value is read as a request exactly if it has all fields with which that request is written. Its other keys
/// don't matter.
pub fn a_request_is_asked_by_its_fields()
    ensures { (d : Data) (r : Request) → (request d ≡ Some r) ↔ HasEach d (fields_of r) }
{}

/// The text of a request is read as that request, if its numbers fit 64 bits and its texts are UTF-8.
pub fn a_text_asks_its_request()
    ensures { (r : Request) → IsWritable r → request_in (canonical r) ≡ Ok r }
{}

/// The text of a request has no newline, so with a newline at its end it is one line.
pub fn a_text_is_one_line()
    ensures { (r : Request) → IsWritable r → All (λ byte. byte ≢ 10) (canonical r) }
{}

/// The text of a reply has no newline, so with a newline at its end it is one line.
pub fn a_reply_is_one_line()
    ensures { (ids : List ℕ) (roster : RosterValue) (r : Reply) → IsTable ids → IsRoster roster →
        IsAbout ids roster r → AreWritableCounts roster r → All (λ byte. byte ≢ 10) (text ids roster r) }
{}

/// The text of a reply is a JSON object without spaces between its parts, and is read as that object. The keys of the
/// object are in rising byte order.
pub fn a_reply_reads_back()
    ensures text { (ids : List ℕ) (roster : RosterValue) (r : Reply) → IsRoster roster →
        IsAbout ids roster r → text ids roster r ≡ compact_text (reply_value ids roster r) }
    ensures value { (ids : List ℕ) (roster : RosterValue) (r : Reply) → IsTable ids →
        IsRoster roster → IsAbout ids roster r → AreWritableCounts roster r →
        read (text ids roster r) ≡ Some (reply_value ids roster r) }
    ensures order { (ids : List ℕ) (roster : RosterValue) (r : Reply) →
        has_rising_keys (reply_value ids roster r) ≡ true }
{}

/// If nobody is known on a connection, a hello is granted exactly if some participant has its name and key. This
/// participant is then known there. After a bye nobody is known. A denial doesn't change who is known.
pub fn a_greeting_tells_who_is_known()
    ensures hello { (r : RosterValue) (name key : List ℕ) (who : Who) (known : Option Who) →
        IsRoster r →
        (greeting r None (requests.Hello name key) ≡ Answered (replies.Hello who) known) ↔
        (IsKnownAs r who name key × (known ≡ Some who)) }
    ensures bye { (r : RosterValue) (known : Option Who) →
        greeting r known requests.Bye ≡ Answered replies.Bye None }
    ensures denied { (r : RosterValue) (before : Option Who) (q : Request) (d : Denial)
        (known : Option Who) →
        greeting r before q ≡ Answered (replies.Deny d) known → known ≡ before }
{}

/// The line of each refusal is the same in every lab: the constant with its name.
#[tactic(auto, unfolding(crate::specs::Facts::object_text))]
pub fn refusals_have_fixed_lines()
    ensures malformed { (ids : List ℕ) (roster : RosterValue) →
        reply_line ids roster (Refuse refused.Malformed) ≡ MALFORMED_LINE.now }
    ensures full { (ids : List ℕ) (roster : RosterValue) →
        reply_line ids roster (Refuse refused.Full) ≡ FULL_LINE.now }
    ensures journal { (ids : List ℕ) (roster : RosterValue) →
        reply_line ids roster (Refuse refused.Journal) ≡ JOURNAL_LINE.now }
    ensures memory { (ids : List ℕ) (roster : RosterValue) →
        reply_line ids roster (Refuse refused.Memory) ≡ MEMORY_LINE.now }
{}

/// The limits of requests and replies, as numbers. `MAX_REQUEST` is the most bytes of a request line. `REPLY_ROOM` is
/// the room, in bytes, in which any reply but a look and a report is written without allocating.
pub fn limits()
    ensures request { MAX_REQUEST ≡ 4096 }
    ensures room { REPLY_ROOM ≡ 2048 }
{}

/// The reply to a granted event has the two numbers that `reply_of_done` gets: `at` of the configuration, and `place`
/// of the event. It also names the event's nodes; for a close these are the nodes that had a chosen move. For a move it
/// has the kind of rule, and for a fault, a link or a cut the number of chosen moves that were dropped.
pub fn a_grant_is_told()
    ensures chosen { (at place : ℕ) (w : World) (s i : ℕ) (rule : Rule) →
        reply_of_done at place (done_by w (event.Grant s i rule))
        ≡ replies.Move at place i (kind_of rule) }
    ensures fault { (at place : ℕ) (w : World) (i : ℕ) (registers : Regs) →
        reply_of_done at place (done_by w (event.Fault i registers))
        ≡ replies.Fault at place i (chosen_count w) }
    ensures link { (at place : ℕ) (w : World) (a b : ℕ) →
        reply_of_done at place (done_by w (event.Link a b))
        ≡ replies.Link at place a b (chosen_count w) }
    ensures cut { (at place : ℕ) (w : World) (a b : ℕ) →
        reply_of_done at place (done_by w (event.Cut a b))
        ≡ replies.Cut at place a b (chosen_count w) }
    ensures release { (at place : ℕ) (w : World) (i : ℕ) →
        reply_of_done at place (done_by w (event.Release i)) ≡ replies.Release at place i }
    ensures close { (at place : ℕ) (w : World) →
        reply_of_done at place (done_by w event.Close)
        ≡ replies.Close at place (chosen_nodes w) }
{}
