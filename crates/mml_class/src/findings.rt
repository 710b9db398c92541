//! The summary of several records together.
//!
//! The record of a seat has the lines of its sessions with their replies. A record is whole if nothing is left out. It is
//! cut if it says that lines of anybody may be missing, and it lacks lines of a participant if it says so of that one.
ghost use Rattle.std.specs.Prelude.{◌≡◌, ◌+◌, ◌&&◌, ◌||◌, ℕ};
ghost use Rattle.std.specs.FinSet as set;
ghost use Rattle.mml_lab.specs.declared.who.Who.{Who};
ghost use Rattle.mml_tally.specs.Lacking.{lacks};
ghost use Rattle.mml_class.specs.Classes.{counted};
ghost use Rattle.mml_class.specs.inside.Seats.{no_findings};

use mml_ids::NodeSet;
use mml_tally::Findings;

/// Returns the findings (the summary) of a record without entries: no session, no line, and nothing left out.
pub(crate) fn no_findings() -> Findings
    ensures { result ≡ no_findings }
{
    Findings {
        sessions: 0,
        lines: 0,
        whole: true,
        is_cut: false,
        lacks_teacher: false,
        lacking: NodeSet::empty(),
    }
}

/// Returns the findings of two records together. The sums of sessions and lines stop at the greatest number of 64 bits.
/// The result is whole if both are, and is cut if one of them is. If one of them lacks lines of a participant, so does
/// the result.
pub(crate) fn together(a: &Findings, b: &Findings) -> Findings
    ensures sessions { result.sessions ≡ counted (a.now.sessions + b.now.sessions) }
    ensures lines { result.lines ≡ counted (a.now.lines + b.now.lines) }
    ensures whole { result.whole ≡ (a.now.whole && b.now.whole) }
    ensures cut { result.is_cut ≡ (a.now.is_cut || b.now.is_cut) }
    ensures lacks { (who : Who) → lacks result who ≡ (lacks a.now who || lacks b.now who) }
{
    Findings {
        sessions: a.sessions.saturating_add(b.sessions),
        lines: a.lines.saturating_add(b.lines),
        whole: a.whole && b.whole,
        is_cut: a.is_cut || b.is_cut,
        lacks_teacher: a.lacks_teacher || b.lacks_teacher,
        lacking: union(a.lacking, b.lacking),
    }
}

/// Returns the union of two sets of students. In such a set, a student is represented by a rank: the student's index
/// in the roster.
fn union(a: NodeSet, b: NodeSet) -> NodeSet
    ensures { (q : ℕ) → set.contains result q ≡ (set.contains a q || set.contains b q) }
{
    let mut all = a;
    let mut left = b;
    'ranks: while let Some(rank) = left.take_least() {
        all = all.with(rank);
    }
    all
}
