//! The verdict of the check of a record.
//!
//! A record has entries: a line with its reply, a session's end, or a note that something is left out. An entry says
//! how many events its session had seen. After a line couldn't be written to the journal, a server refuses with
//! `journal` whatever it would grant.
use mml_tally::Findings;

/// The verdict on a text that should be a record.
#[derive(Clone, Copy, Drop)]
pub enum Verdict {
    /// The text is a record, with this summary.
    Passed(Findings),
    /// The text is a record, but more events of the journal follow a reply that refuses with `journal`, before the
    /// class was resumed. The value is how many events had been seen at the first such refusal. No server grants events
    /// after it, in any seat.
    Outlived(u64),
    /// The text isn't a record, because of this entry.
    Refused(BadEntry),
}

/// The first bad entry of a text.
#[derive(Clone, Copy, PartialEq, Eq, Drop)]
pub struct BadEntry {
    /// How many bytes come before the entry. These bytes are the longest beginning of the text that is a record.
    pub front: u64,
    /// The number of the entry's first line in the text, from 1.
    pub line: u64,
    /// How many events had been seen, as the entry says, or 0 if it can't be read.
    pub place: u64,
    /// Why the entry is bad.
    pub why: Why,
}

/// Why an entry is bad.
#[derive(Clone, Copy, PartialEq, Eq, Drop)]
pub enum Why {
    /// The text breaks off within the entry.
    Torn,
    /// The entry isn't spelled like one, or is of another seat.
    NoEntry,
    /// The entry says that fewer events had been seen than the entries before it lead to.
    GoesBack,
    /// The entry says that more events had been seen than the journal has.
    PastEnd,
    /// The entry says that more events had been seen than the entries before it lead to, though nothing was asked or
    /// shown.
    GoesAhead,
    /// A line comes after a bye, or after an entry which says that lines aren't recorded.
    NoEnd,
    /// Recording resumes at a line that is no granted hello.
    NoHello,
    /// Recording resumes though it hasn't paused.
    NoPause,
    /// The reply grants an event as the rules do there, but the journal's next event is another one.
    OtherEvent,
    /// The reply grants the journal's next event, but an earlier entry of the seat is the refusal `journal`, and no
    /// entry since then says that anything may be missing. A server grants nothing after such a refusal.
    Halted,
    /// The rules have another reply there, or one that shows a view, or the line is longer than a request may be.
    OtherReply,
}
