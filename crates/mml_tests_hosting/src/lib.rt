//! Tests of houses that serve one connection after another, of classes that are resumed from a journal, and of calls
//! whose requests for memory are refused. The tests use only public items.
#![tactic(auto)]

#[cfg(test)]
mod hosting;
#[cfg(test)]
mod refusals;
#[cfg(test)]
mod resuming;
#[cfg(test)]
mod texts;
