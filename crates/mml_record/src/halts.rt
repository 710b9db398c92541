//! The refusals `journal` of a seat, and whether events follow them.
//!
//! After a write to its journal failed, a server refuses with `journal` what it would grant, and grants no event any
//! more, in any of its seats. A class that is resumed has a new server, and each seat's record an entry which says that
//! anything may be missing. So a record is wrong if more events happened from such a refusal to the next such entry, or
//! to the journal's end.
ghost use Rattle.std.specs.Prelude.{◌≡◌};
ghost use Rattle.mml_record.specs.Halts.{or_else, first_halt, outlived_at};
ghost use Rattle.mml_record.specs.inside.RawEntries.{entry_view};
ghost use Rattle.mml_record.specs.inside.Halting.{no_halts, with_halt, outlived_in};

use crate::reading::RawEntry;

/// What is kept of the refusals `journal` among the entries that were read.
#[derive(Clone, Copy, PartialEq, Eq, Drop)]
pub(crate) struct Halts {
    // How many events had been seen at the first refusal since the last entry which says that anything may be missing.
    first: Option<u64>,
    // How many events had been seen at the first refusal of which such an entry showed that more events followed.
    outlived: Option<u64>,
}

impl Halts {
    /// Returns what is kept of no entries.
    pub(crate) fn none() -> Halts
        ensures { result ≡ no_halts }
    {
        Halts {
            first: None,
            outlived: None,
        }
    }

    /// Returns what is kept after this entry. `is_halted` is whether the session is halted after it: a refusal
    /// `journal` came, and no entry since then says that anything may be missing.
    pub(crate) fn with_entry(self, is_halted: bool, entry: &RawEntry<'_>) -> Halts
        ensures { result ≡ with_halt self is_halted (entry_view entry.now) }
    {
        match entry {
            RawEntry::Said { judged, .. } => Halts {
                first: first_halt(self.first, *judged, is_halted),
                outlived: self.outlived,
            },
            RawEntry::Unrecorded { seen } => Halts {
                first: None,
                outlived: self.outlived_by(*seen),
            },
            RawEntry::Left { .. } | RawEntry::Paused { .. } | RawEntry::Resumed { .. } => self,
        }
    }

    /// Returns how many events had been seen at the first refusal that more events followed, if the server's life ended
    /// after `count` events. Returns `None` if no refusal is followed by any.
    pub(crate) fn outlived_by(self, count: u64) -> Option<u64>
        ensures { result ≡ outlived_in self count }
    {
        or_else(self.outlived, outlived_at(self.first, count))
    }
}

/// Returns the first number, if there is one, and otherwise the second.
fn or_else(first: Option<u64>, second: Option<u64>) -> Option<u64>
    ensures { result ≡ or_else first second }
{
    match first {
        Some(number) => Some(number),
        None => second,
    }
}

/// Returns how many events had been seen at the first refusal, after one more line. `first` is this number before the
/// line, or `None` if there was no refusal. `judged` is how many events had been seen before the line, and `halts` is
/// whether the session is halted after it.
fn first_halt(first: Option<u64>, judged: u64, halts: bool) -> Option<u64>
    ensures { result ≡ first_halt first judged halts }
{
    match first {
        Some(earlier) => Some(earlier),
        None => { if halts { Some(judged) } else { None } }
    }
}

/// Returns `first` if more events followed a refusal, and `None` otherwise. `first` is how many events had been seen at
/// the refusal, or `None` if there was none. `count` is how many events there were when that life of the server ended.
fn outlived_at(first: Option<u64>, count: u64) -> Option<u64>
    ensures { result ≡ outlived_at first count }
{
    match first {
        Some(number) if number < count => Some(number),
        _ => None,
    }
}
