//! What tests share: readers, writers and sinks that fail on demand, threads that wait for each other, pseudo-random
//! numbers, and labs, lines and scripts. For tests of a house (one run of a lab) it has windows, visits through them,
//! the ways in which a house ends, and the acts of a stored run. Nothing of the program depends on it.
#![tactic(auto)]

mod acts;
pub mod cycles;
mod drip;
mod ending;
mod fake_reader;
mod fake_writer;
pub mod labs;
mod lines;
pub mod meeting;
mod numbers;
pub mod scripts;
pub mod ten_acts;
mod visiting;
mod window_at_desk;
mod windows;

pub use acts::{is_first_close, seduction, student};
pub use drip::Drip;
pub use ending::{Ending, ending_of, has_journal};
pub use fake_reader::{FakeReader, Parts};
pub use fake_writer::{FakeWriter, Refusal};
pub use numbers::Numbers;
pub use visiting::{Visit, Visited, open_path, visit_lab, visit_path, visit_windows};
pub use window_at_desk::{Pair, WindowAtDesk};
