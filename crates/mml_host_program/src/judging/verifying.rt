//! The lines that `verify` prints about the record of a class.
//!
//! The record of a class has the lines that were answered, and their replies. The findings of a record are its summary.
ghost use Rattle.std.specs.Prelude.{◌≡◌, ◌++◌, OnOk};
ghost use Rattle.mml_host_program.specs.Verifying.{begun_line, end_of, verified_text};

use mml_ids::{Memory, Piece, put};
use mml_lab::Lab;
use mml_tally::{Findings, put_recorded};

/// Appends the line with the number of events before the record. Returns `Memory` if memory runs out.
fn put_begun(text: &mut Vec<u8>, begun: u64) -> Result<(), Memory>
    ensures { OnOk result (text.new.items ≡ text.old.items ++ begun_line begun) }
{
    let pieces = [
        Piece::Text("begun after "),
        Piece::Number(begun),
        Piece::Text(" events\n"),
    ];
    put(text, &pieces)
}

/// Appends the lines about a correct record. They have the numbers of its sessions and lines, and of the journal's
/// events (`events`). Then come the participants whose lines are all recorded, and the number of events before the
/// record (`begun`). Returns `Memory` if memory runs out.
pub(crate) fn put_verified(
    text: &mut Vec<u8>,
    lab: &Lab,
    found: &Findings,
    events: u64,
    begun: u64,
) -> Result<(), Memory>
    ensures { OnOk result
        (text.new.items ≡ text.old.items ++ verified_text lab.now found.now events begun) }
{
    let end = end_of(found.whole);
    let pieces = [
        Piece::Text("ok: "),
        Piece::Number(found.sessions),
        Piece::Text(" sessions, "),
        Piece::Number(found.lines),
        Piece::Text(" lines, "),
        Piece::Number(events),
        Piece::Text(end),
    ];
    put(text, &pieces)?;
    put_recorded(text, lab, found)?;
    put_begun(text, begun)
}

/// Returns the end of the first line that `put_verified` appends, after the number of events. The end says `not whole`
/// if something is left out of the record (`is_whole` is `false`).
fn end_of(is_whole: bool) -> &'static str
    ensures { result.now ≡ end_of is_whole }
{
    if is_whole {
        " events\n"
    } else {
        " events, not whole\n"
    }
}
