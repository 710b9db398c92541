//! Tables of fields: the keys of a reply in byte order, each with its value. The functions append the text of a table
//! to a line, which is passed by value, so that its length can stay in a processor's register.
ghost use Rattle.std.specs.Prelude.{codes, ◌≡◌, ◌≤◌, ◌+◌, ◌++◌, ℕ, List, [], length, vec_capacity};
ghost use Rattle.mml_ids.specs.Pieces.{Puts};
ghost use Rattle.mml_codec.specs.Facts.{fact_then};

use crate::reply_value::ReplyValue;
use mml_ids::{IdTable, Memory, make_room, take_text, with_text};

/// Enough bytes for the text of each reply but a look and a report.
pub(crate) const TEXT_ROOM: usize = 2000;

/// The fields of a reply, up to the end of its object. A table is a nest of types: a `Row` has the first field and the
/// table of the others, and `End` has none.
pub(crate) trait Table {
    // The fields name only nodes that have identifiers.
    ghost names: { List ℕ → Self → Type 0 };

    // The text of the fields in a lab with these identifiers, and of what follows them. The second list is the text
    // before the first field, and the last list is the text after the fields.
    ghost text: { List ℕ → List ℕ → Self → List ℕ → List ℕ };

    // The greatest length of the text of the fields.
    ghost most: { Self → ℕ };

    /// Returns the line with the text of the fields appended. Before the first field comes `first`, which is an opening
    /// brace, a comma, or the end of a list with a comma. If there is no field, `first` is left out. The line must have
    /// room for `first` and the longest text of the fields.
    fn with_fields(&self, line: Vec<u8>, ids: &IdTable, first: &str) -> Vec<u8>
        requires names { names ids.now self.now }
        requires room { length line.items + (length first.now + most self.now) ≤ vec_capacity line }
        ensures text { (rest : List ℕ) →
            result.items ++ rest ≡ line.items ++ text ids.now first.now self.now rest }
        ensures capacity { vec_capacity result ≡ vec_capacity line }
        ensures grows { length result.items ≤
            length line.items + (length first.now + most self.now) };
}

/// A key with its value, and the fields after it.
#[derive(Clone, Copy)]
pub(crate) struct Row<V, T> {
    pub(crate) key: &'static str,
    pub(crate) value: V,
    pub(crate) rest: T,
}

impl<V: ReplyValue, T: Table> Table for Row<V, T> {
    ghost names = { λ ids r. V.names ids r.value × T.names ids r.rest };

    ghost text = { λ ids first r rest. first ++ (codes "\"" ++ (r.key.now ++ (codes "\":"
        ++ fact_then ids (V.fact r.value) (T.text ids (codes ",") r.rest rest)))) };

    ghost most = { λ r. 4 + (length r.key.now + (V.most r.value + T.most r.rest)) };

    // Returns the line with `first`, the quoted key, a colon, the value, and the fields after it appended. If there are
    // such fields, a comma comes before them.
    #[inline(always)]
    fn with_fields(&self, line: Vec<u8>, ids: &IdTable, first: &str) -> Vec<u8> {
        let line = with_text(line, first);
        let line = with_text(line, "\"");
        let line = with_text(line, self.key);
        let line = with_text(line, "\":");
        let line = self.value.with_value(line, ids);
        self.rest.with_fields(line, ids, ",")
    }
}

/// The table without fields, whose text is the end of an object.
#[derive(Clone, Copy)]
pub(crate) struct End;

impl Table for End {
    ghost names = { λ _ _. Unit {0} };

    ghost text = { λ _ _ _ rest. codes "}" ++ rest };

    ghost most = { λ _. 1 };

    // Returns the line with the closing brace appended. There is no field that `_first` could come before.
    #[inline(always)]
    fn with_fields(&self, line: Vec<u8>, _ids: &IdTable, _first: &str) -> Vec<u8> {
        with_text(line, "}")
    }
}

/// Appends the text of an object with these fields to `out`. The text may have at most `TEXT_ROOM` bytes. Allocates
/// only if `out` has less room than that. Returns `Memory` if memory runs out.
#[inline(always)]
pub(crate) fn put_object<T: Table>(
    ids: &IdTable,
    fields: &T,
    out: &mut Vec<u8>,
) -> Result<(), Memory>
    requires names { T.names ids.now fields.now }
    requires most { 1 + T.most fields.now ≤ TEXT_ROOM }
    ensures { Puts (T.text ids.now (codes "{") fields.now []) TEXT_ROOM out.old out.new result }
{
    make_room(out, TEXT_ROOM)?;
    *out = fields.with_fields(take_text(out), ids, "{");
    Ok(())
}
