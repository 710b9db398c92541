//! Fields of replies, some of which are lists of nodes or links. The error `Memory` means that memory ran out.
ghost use Rattle.std.specs.Prelude.{codes, ◌≡◌, ◌≤◌, ◌+◌, ◌++◌, ℕ, List, [], All, length, map, OnOk, vec_capacity};
ghost use Rattle.mml_codec.specs.Facts.{separated};
ghost use Rattle.mml_codec.specs.declared.list_writing.TheConstants.{FRONT_ROOM};

use crate::listed::{Listed, put_list};
use crate::table::Table;
use mml_ids::{IdTable, Items, Memory, make_room, take_text, with_text};

// Enough bytes for the fields before a list, or after the last one.
const FRONT_ROOM: usize = 128;

/// Fields of a reply, some of which are lists, up to the end of its object. A listing is a nest of types: a `ListRow`
/// has the first list and the listing after it, and `Rest` has no list.
pub(crate) trait Listing {
    // The fields name only nodes that have identifiers.
    ghost names: { List ℕ → Self → Type 0 };

    // The text of the fields, in a lab with these identifiers, and of the end of the object. The second list is the
    // text before the first field.
    ghost text: { List ℕ → List ℕ → Self → List ℕ };

    /// Appends `first`, which is a brace or ends a list and has at most two bytes, and then the text of the fields to
    /// `out`. `ids` must have an identifier for each node in the fields. If memory runs out, returns `Memory`, and only
    /// the beginning of the text is appended.
    fn put_fields(&self, ids: &IdTable, first: &str, out: &mut Vec<u8>) -> Result<(), Memory>
        requires names { names ids.now self.now }
        requires first { length first.now ≤ 2 }
        ensures text { OnOk result
            (out.new.items ≡ out.old.items ++ text ids.now first.now self.now) }
        ensures capacity { vec_capacity out.old ≤ vec_capacity out.new };
}

/// The key of a list, and the bracket with which the list begins.
#[derive(Clone, Copy)]
pub(crate) struct Opening {
    pub(crate) key: &'static str,
}

impl Table for Opening {
    ghost names = { λ _ _. Unit {0} };

    ghost text = { λ _ first o rest. first ++ (codes "\"" ++ (o.key.now ++ (codes "\":[" ++ rest))) };

    ghost most = { λ o. 4 + length o.key.now };

    // Returns the line with `first`, the quoted key, a colon and an opening bracket appended.
    #[inline(always)]
    fn with_fields(&self, line: Vec<u8>, _ids: &IdTable, first: &str) -> Vec<u8> {
        let line = with_text(line, first);
        let line = with_text(line, "\"");
        let line = with_text(line, self.key);
        with_text(line, "\":[")
    }
}

/// Fields up to the key of a list, the list, and the fields after it.
#[derive(Clone, Copy)]
pub(crate) struct ListRow<'a, B, L, R> {
    pub(crate) before: B,
    pub(crate) items: &'a Items<L>,
    pub(crate) rest: R,
}

impl<'a, B: Table, L: Listed, R: Listing> Listing for ListRow<'a, B, L, R> {
    ghost names = { λ ids r. (B.names ids r.before × (2 + B.most r.before ≤ FRONT_ROOM))
        × (All (L.names ids) r.items.now × R.names ids r.rest) };

    ghost text = { λ ids first r. B.text ids first r.before
        (separated (map (L.text ids) r.items.now) ++ R.text ids (codes "],") r.rest) };

    // Appends `first`, the fields before the list, the list in brackets, and the fields after it. The bracket that ends
    // the list is the `first` of the fields after it. Returns `Memory` if memory runs out.
    #[inline(always)]
    fn put_fields(&self, ids: &IdTable, first: &str, out: &mut Vec<u8>) -> Result<(), Memory> {
        make_room(out, FRONT_ROOM)?;
        *out = self.before.with_fields(take_text(out), ids, first);
        put_list(ids, self.items.as_slice(), out)?;
        self.rest.put_fields(ids, "],", out)
    }
}

/// The fields after the last list.
#[derive(Clone, Copy)]
pub(crate) struct Rest<T> {
    pub(crate) fields: T,
}

impl<T: Table> Listing for Rest<T> {
    ghost names = { λ ids r. T.names ids r.fields × (2 + T.most r.fields ≤ FRONT_ROOM) };

    ghost text = { λ ids first r. T.text ids first r.fields [] };

    // Appends `first`, the fields after the last list, and the end of the object. Returns `Memory` if memory runs out.
    #[inline(always)]
    fn put_fields(&self, ids: &IdTable, first: &str, out: &mut Vec<u8>) -> Result<(), Memory> {
        make_room(out, FRONT_ROOM)?;
        *out = self.fields.with_fields(take_text(out), ids, first);
        Ok(())
    }
}
