//! Tests of windows, sessions, servers and the program's library. The tests use only public items. They cover what
//! needs special readers, writers, sinks, gates or windows, and that calls succeed if there is enough memory.
#![tactic(auto)]

#[cfg(test)]
mod drips;
#[cfg(test)]
mod program;
#[cfg(test)]
mod races;
#[cfg(test)]
mod serving;
#[cfg(test)]
mod sessions;
#[cfg(test)]
mod windows;
