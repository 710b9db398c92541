//! Tests of the program's library. The tests cover calls that succeed if there is memory, and what no use of the
//! program shows.
mod answering;
mod faults;
mod files;
mod words;
