//! Laws of turns over any engine. Each is the contract of a function that does nothing.
//!
//! A turn is the reply to one line and the state after it. In these laws, the lab stands for the engine, and `old` and
//! `new` are the events that the session has seen before and after the line. An account is known on a connection from
//! its granted hello to its bye. The place of an event is its number in the list of events, from 1.
ghost use Rattle.std.specs.Prelude.{◌≡◌, ℕ, List, Option, Some};
ghost use mathlib.Core.List.{IsPrefix};
ghost use Rattle.mml_lab.specs.declared.who.Who.{Who};
ghost use Rattle.mml_lab.specs.Labs.{LabValue};
ghost use Rattle.mml_board.specs.declared.event.Event.{Event};
ghost use Rattle.mml_codec.specs.declared.reply.Reply.{Reply};
ghost use Rattle.mml_codec.specs.Replies.{place_in};
ghost use Rattle.mml_engine.specs.Named.{NamesLast};
ghost use Rattle.mml_engine.specs.Told.{told_by};
ghost use Rattle.mml_engine.specs.Turns.{Turn};

/// The events that a session has seen after it answered a line begin with those that it had seen before.
pub fn seen_goes_on()
    ensures { (lab : LabValue) (known known' : Option Who) (old new : List Event) (line : List ℕ) (r : Reply) →
        Turn (told_by (λ (e : LabValue). e) (λ e (v : List Event). v)) lab.roster known lab old line r known' lab new →
        IsPrefix old new }
{}

/// A reply that names a place answers a command of a known participant. The place is that of the last event that the
/// session has seen afterwards. The policy grants this event if it judges the command in the state before the event.
pub fn replies_name_their_events()
    ensures { (lab : LabValue) (known known' : Option Who) (old new : List Event) (line : List ℕ) (r : Reply) (place : ℕ) →
        Turn (told_by (λ (e : LabValue). e) (λ e (v : List Event). v)) lab.roster known lab old line r known' lab new →
        place_in r ≡ Some place → NamesLast lab known line r place new }
{}
