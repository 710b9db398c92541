//! Tests of lines, requests, replies, scripts and audits, with readers, writers and sinks that count and fail. The
//! tests use only public items.
#![tactic(auto)]

#[cfg(test)]
mod codec;
#[cfg(test)]
mod hall;
#[cfg(test)]
mod lines;
