//! The values of keys in replies, and their text.
//!
//! A clause is a condition under which a request is granted.
ghost use Rattle.std.specs.Prelude.{decimal, ◌≡◌, ◌≤◌, ◌<◌, ◌+◌, ◌++◌, ℕ, List, length, map, refl, IfSome, vec_capacity};
ghost use Rattle.mml_ids.specs.Pieces.{truth_text};
ghost use Rattle.mml_codec.specs.Facts as fact;
ghost use Rattle.mml_codec.specs.Facts.{Fact, fact_then, node_text, pointer_text, kind_text, kind_or_null, members, separated};
ghost use Rattle.mml_codec.specs.inside.Tables.{quoted, bracketed, quoted_tells, bracketed_tells};

use crate::listed::with_comma;
use mml_ids::{IdTable, NodeSet, Rank, with_number, with_short_number, with_text};
use mml_rules::Kind;

/// The value of a key in a reply, whose text has a limited length.
pub(crate) trait ReplyValue {
    // The value as the definitions represent it.
    ghost fact: { Self → Fact };

    // The value names only nodes that have identifiers.
    ghost names: { List ℕ → Self → Type 0 };

    // The value's text, in a lab with these identifiers.
    ghost text: { List ℕ → Self → List ℕ };

    // The most bytes of the value's text.
    ghost most: { Self → ℕ };

    /// Returns the line with the value's text appended. The line must have room for the longest text of the value. If
    /// the value is a node, `ids` must have its identifier.
    fn with_value(&self, line: Vec<u8>, ids: &IdTable) -> Vec<u8>
        requires names { names ids.now self.now }
        requires room { length line.items + most self.now ≤ vec_capacity line }
        ensures text { result.items ≡ line.items ++ text ids.now self.now }
        ensures capacity { vec_capacity result ≡ vec_capacity line }
        ensures grows { length result.items ≤ length line.items + most self.now };

    // The text is the same as the one in the definitions.
    ghost tells: { (ids : List ℕ) (value : Self) (rest : List ℕ) →
        fact_then ids (fact value) rest ≡ text ids value ++ rest };
}

// A count, or the number of a configuration or of an event.
impl ReplyValue for u64 {
    ghost fact = { fact.count };

    ghost names = { λ _ _. Unit {0} };

    ghost text = { λ _ n. decimal n };

    ghost most = { λ _. 20 };

    // Returns the line with the number appended in decimal.
    #[inline(always)]
    fn with_value(&self, line: Vec<u8>, _ids: &IdTable) -> Vec<u8> {
        with_number(line, *self)
    }

    ghost tells = { λ _ _ _. refl };
}

// A count of nodes.
impl ReplyValue for u16 {
    ghost fact = { fact.count };

    ghost names = { λ _ _. Unit {0} };

    ghost text = { λ _ n. decimal n };

    ghost most = { λ _. 5 };

    // Returns the line with the number of nodes appended in decimal.
    #[inline(always)]
    fn with_value(&self, line: Vec<u8>, _ids: &IdTable) -> Vec<u8> {
        with_short_number(line, u64::from(*self))
    }

    ghost tells = { λ _ _ _. refl };
}

// The number of a clause. It has at most 3 digits, but `with_short_number` needs room for 5 bytes.
impl ReplyValue for u8 {
    ghost fact = { fact.clause };

    ghost names = { λ _ _. Unit {0} };

    ghost text = { λ _ n. decimal n };

    ghost most = { λ _. 5 };

    // Returns the line with the number of a clause appended in decimal.
    #[inline(always)]
    fn with_value(&self, line: Vec<u8>, _ids: &IdTable) -> Vec<u8> {
        with_short_number(line, u64::from(*self))
    }

    ghost tells = { λ _ _ _. refl };
}

/// A text that is written in quotation marks, and none of whose bytes is escaped.
#[derive(Clone, Copy)]
pub(crate) struct Word<'a>(pub(crate) &'a str);

impl<'a> ReplyValue for Word<'a> {
    ghost fact = { λ w. fact.word w.0.now };

    ghost names = { λ _ _. Unit {0} };

    ghost text = { λ _ w. quoted w.0.now };

    ghost most = { λ w. 2 + length w.0.now };

    // Returns the line with the word appended in quotation marks.
    #[inline(always)]
    fn with_value(&self, line: Vec<u8>, _ids: &IdTable) -> Vec<u8> {
        let line = with_text(line, "\"");
        let line = with_text(line, self.0);
        with_text(line, "\"")
    }

    ghost tells = { λ _ w rest. quoted_tells w.0.now rest };
}

// A truth value.
impl ReplyValue for bool {
    ghost fact = { fact.truth };

    ghost names = { λ _ _. Unit {0} };

    ghost text = { λ _ m. truth_text m };

    ghost most = { λ _. 5 };

    // Returns the line with `true` or `false` appended.
    #[inline(always)]
    fn with_value(&self, line: Vec<u8>, _ids: &IdTable) -> Vec<u8> {
        if *self {
            with_text(line, "true")
        } else {
            with_text(line, "false")
        }
    }

    ghost tells = { λ _ _ _. refl };
}

// A node, by its identifier.
impl ReplyValue for Rank {
    ghost fact = { fact.node };

    ghost names = { λ ids i. i < length ids };

    ghost text = { node_text };

    ghost most = { λ _. 5 };

    // Returns the line with the node's identifier appended.
    #[inline(always)]
    fn with_value(&self, line: Vec<u8>, ids: &IdTable) -> Vec<u8> {
        with_node(line, ids, *self)
    }

    ghost tells = { λ _ _ _. refl };
}

// The node that a register points at, by its identifier, or null.
impl ReplyValue for Option<Rank> {
    ghost fact = { fact.pointer };

    ghost names = { λ ids p. IfSome p (λ j. j < length ids) };

    ghost text = { pointer_text };

    ghost most = { λ _. 5 };

    // Returns the line with the identifier of the node appended. If there is no node, appends `null` instead.
    #[inline(always)]
    fn with_value(&self, line: Vec<u8>, ids: &IdTable) -> Vec<u8> {
        match *self {
            Some(node) => with_node(line, ids, node),
            None => with_text(line, "null"),
        }
    }

    ghost tells = { λ _ _ _. refl };
}

// A kind of rule, by its word.
impl ReplyValue for Kind {
    ghost fact = { fact.rule };

    ghost names = { λ _ _. Unit {0} };

    ghost text = { λ _ k. kind_text k };

    ghost most = { λ _. 13 };

    // Returns the line with the word for the kind of rule appended, in quotation marks.
    #[inline(always)]
    fn with_value(&self, line: Vec<u8>, _ids: &IdTable) -> Vec<u8> {
        with_kind(line, *self)
    }

    ghost tells = { λ _ _ _. refl };
}

// A kind of rule, by its word, or null.
impl ReplyValue for Option<Kind> {
    ghost fact = { fact.rule_or_null };

    ghost names = { λ _ _. Unit {0} };

    ghost text = { λ _ k. kind_or_null k };

    ghost most = { λ _. 13 };

    // Returns the line with the word for the kind of rule appended, in quotation marks. If there is no kind, appends
    // `null` instead.
    #[inline(always)]
    fn with_value(&self, line: Vec<u8>, _ids: &IdTable) -> Vec<u8> {
        match *self {
            Some(kind) => with_kind(line, kind),
            None => with_text(line, "null"),
        }
    }

    ghost tells = { λ _ _ _. refl };
}

// The nodes that moved, as an array of at most 256 identifiers of 6 bytes.
impl ReplyValue for NodeSet {
    ghost fact = { fact.moved };

    ghost names = { λ _ _. Unit {0} };

    ghost text = { λ ids s. bracketed (map (node_text ids) (members (length ids) s)) };

    ghost most = { λ _. 1538 };

    // Returns the line with the identifiers of the set's nodes appended, as an array in rising order.
    #[inline(always)]
    fn with_value(&self, line: Vec<u8>, ids: &IdTable) -> Vec<u8> {
        let line = with_text(line, "[");
        let line = with_members(line, ids, *self);
        with_text(line, "]")
    }

    ghost tells = { λ ids s rest. bracketed_tells (map (node_text ids) (members (length ids) s)) rest };
}

/// Returns the text with the identifiers of the lab's nodes in `moved` appended, in rising order, with commas between
/// them. The text must have room for 1536 more bytes: 6 for each of at most 256 identifiers with its comma.
#[inline(always)]
fn with_members(text: Vec<u8>, ids: &IdTable, moved: NodeSet) -> Vec<u8>
    requires room { length text.items + 1536 ≤ vec_capacity text }
    ensures text { result.items ≡ text.items
        ++ separated (map (node_text ids.now) (members (length ids.now) moved)) }
    ensures capacity { vec_capacity result ≡ vec_capacity text }
    ensures grows { length result.items ≤ length text.items + 1536 }
{
    let mut line = text;
    let mut later = false;
    for index in 0..ids.len() {
        let node = Rank::at(index);
        if moved.has(node) {
            line = with_node(with_comma(line, later), ids, node);
            later = true;
        }
    }
    line
}

/// Returns the text with the identifier of a node, which must exist, appended. The text must have room for 5 more
/// bytes.
#[inline(always)]
pub(crate) fn with_node(text: Vec<u8>, ids: &IdTable, node: Rank) -> Vec<u8>
    requires node { node < length ids.now }
    requires room { length text.items + 5 ≤ vec_capacity text }
    ensures text { result.items ≡ text.items ++ node_text ids.now node }
    ensures capacity { vec_capacity result ≡ vec_capacity text }
    ensures grows { length result.items ≤ length text.items + 5 }
{
    with_short_number(text, ids.id_of(node))
}

/// Returns the text with the word for a kind of rule appended, in quotation marks. The text must have room for 13 more
/// bytes.
#[inline(always)]
pub(crate) fn with_kind(text: Vec<u8>, kind: Kind) -> Vec<u8>
    requires room { length text.items + 13 ≤ vec_capacity text }
    ensures text { result.items ≡ text.items ++ kind_text kind }
    ensures capacity { vec_capacity result ≡ vec_capacity text }
    ensures grows { length result.items ≤ length text.items + 13 }
{
    match kind {
        Kind::Update => with_text(text, "\"update\""),
        Kind::Marriage => with_text(text, "\"marriage\""),
        Kind::Seduction => with_text(text, "\"seduction\""),
        Kind::Abandonment => with_text(text, "\"abandonment\""),
    }
}
