//! What readers have seen, for contracts.
//!
//! A house is one run of a lab that threads share: its list of granted events, the board after them, and their journal.
//! Its writer publishes the events and the board, and readers enter what is published. A protocol says what holds of
//! the published data and of what each reader has seen. An outcome says how a publication or an entry changes what the
//! writer or the reader has seen.
use crate::house::House;
use crate::published::Published;
use crossbeam_utils::rule::{Outcome, Protocol};
use mml_board::Event;
use std::collections::LinkedList;
use std::marker::PhantomData;

/// The events that the writer or a reader has seen, for contracts. No value of it is made.
pub struct View {
    pub seen: LinkedList<Event>,
}

/// The protocol by which a house publishes: the published events are legal in the lab of `H`, and what each reader has
/// seen is a beginning of them.
pub struct Publishing<H: House> {
    of: PhantomData<H>,
}

impl<H: House> Protocol<Published, View> for Publishing<H> {
    ghost use Rattle.mml_window.specs.Rule.{IsPublishedTo, nothing_seen};

    ghost holds = { IsPublishedTo H.lab };

    ghost first = { nothing_seen };
}

/// What the writer has seen after a publication, or a reader after an entry: a list that begins with all events that it
/// had seen before.
pub struct Seeing<H: House> {
    of: PhantomData<H>,
}

impl<H: House> Outcome<Published, View> for Seeing<H> {
    ghost use Rattle.mml_window.specs.Rule.{Saw};

    ghost then = { λ v x y w. Saw H.lab v y w };
}
