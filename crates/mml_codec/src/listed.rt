//! Lists of nodes and links in replies. Each item is written as a value of JSON. `ids` must have an identifier for each
//! node that is written.
//!
//! A node is privileged if some rule is enabled there.
ghost use Rattle.std.specs.Prelude.{codes, ◌+◌, ◌≡◌, ◌≤◌, ◌<◌, ◌++◌, ℕ, List, All, length, map, OnOk, IfOk, IfSome, MatchResult, vec_capacity};
ghost use Rattle.mml_policy.specs.About.{IsNear};
ghost use Rattle.mml_stable.specs.Reports.{IsPairOf, IsOpenLinkOf};
ghost use Rattle.mml_ids.specs.Pieces.{truth_text};
ghost use Rattle.serde_json.specs.Written.{comma_if};
ghost use Rattle.mml_codec.specs.Facts.{node_text, pointer_text, near_text, pair_text, privileged_text, open_link_text, separated};

use crate::reply_value::{with_kind, with_node};
use mml_ids::{IdTable, Memory, Rank, make_room, take_text, with_text};
use mml_rules::{Kind, Regs};
use mml_stable::OpenLink;

// Enough bytes for each item of a list, with the comma before it.
const ITEM_ROOM: usize = 64;

/// One item of a list in a reply.
pub(crate) trait Listed {
    // The item names only nodes that have identifiers.
    ghost names: { List ℕ → Self → Type 0 };

    // The item's text, in a lab with these identifiers.
    ghost text: { List ℕ → Self → List ℕ };

    /// Returns the line with the text of this item appended. The line must have room for 63 more bytes, since no item
    /// is longer.
    fn with_item(&self, line: Vec<u8>, ids: &IdTable) -> Vec<u8>
        requires names { names ids.now self.now }
        requires room { length line.items + 63 ≤ vec_capacity line }
        ensures text { result.items ≡ line.items ++ text ids.now self.now }
        ensures capacity { vec_capacity result ≡ vec_capacity line };
}

/// Appends the texts of the items to `out`, with commas between them and without brackets. If memory runs out, returns
/// `Memory`, and only the items before the first one without room are appended, each whole. The text is moved out of
/// `out` meanwhile, so that its length can stay in a processor's register.
pub(crate) fn put_list<T: Listed>(
    ids: &IdTable,
    items: &[T],
    out: &mut Vec<u8>,
) -> Result<(), Memory>
    requires { All (T.names ids.now) items.now }
    ensures text { OnOk result
        (out.new.items ≡ out.old.items ++ separated (map (T.text ids.now) items.now)) }
    ensures capacity { vec_capacity out.old ≤ vec_capacity out.new }
{
    let mut line = take_text(out);
    let mut later = false;
    for item in items {
        match with_room(line) {
            Ok(roomy) => line = item.with_item(with_comma(roomy, later), ids),
            Err(full) => {
                *out = full;
                return Err(Memory);
            }
        }
        later = true;
    }
    *out = line;
    Ok(())
}

/// Returns the line with room for one more item. Returns the unchanged line as `Err` if memory runs out. The line comes
/// by value, so that its length can stay in a processor's register.
#[inline(always)]
fn with_room(line: Vec<u8>) -> Result<Vec<u8>, Vec<u8>>
    ensures same { MatchResult result (λ l. l.items ≡ line.items) (λ l. l.items ≡ line.items) }
    ensures room { IfOk result (λ l. length l.items + ITEM_ROOM ≤ vec_capacity l) }
    ensures capacity { MatchResult result (λ l. vec_capacity line ≤ vec_capacity l)
        (λ l. vec_capacity line ≤ vec_capacity l) }
{
    if line.capacity() - line.len() < ITEM_ROOM {
        return grown(line);
    }
    Ok(line)
}

/// Reallocates the line, to have room for one more item. Returns the unchanged line as `Err` if memory runs out. This
/// rare case of `with_room` is a function of its own, so that `with_room` is short.
#[inline(never)]
fn grown(mut line: Vec<u8>) -> Result<Vec<u8>, Vec<u8>>
    ensures same { MatchResult result (λ l. l.items ≡ line.items) (λ l. l.items ≡ line.items) }
    ensures room { IfOk result (λ l. length l.items + ITEM_ROOM ≤ vec_capacity l) }
    ensures capacity { MatchResult result (λ l. vec_capacity line ≤ vec_capacity l)
        (λ l. vec_capacity line ≤ vec_capacity l) }
{
    match make_room(&mut line, ITEM_ROOM) {
        Ok(()) => Ok(line),
        Err(_) => Err(line),
    }
}

/// Returns the line with a comma appended if `later` is true, that is, if the next item isn't the first of its list.
/// Otherwise returns the line unchanged. The line must have room for one more byte.
#[inline(always)]
pub(crate) fn with_comma(line: Vec<u8>, later: bool) -> Vec<u8>
    requires { length line.items + 1 ≤ vec_capacity line }
    ensures text { result.items ≡ line.items ++ comma_if later }
    ensures capacity { vec_capacity result ≡ vec_capacity line }
    ensures grows { length result.items ≤ length line.items + 1 }
{
    if later { with_text(line, ",") } else { line }
}

// A node, written as its identifier.
impl Listed for Rank {
    ghost names = { λ ids i. i < length ids };

    ghost text = { node_text };

    // Returns the line with the node's identifier appended.
    #[inline(always)]
    fn with_item(&self, line: Vec<u8>, ids: &IdTable) -> Vec<u8> {
        with_node(line, ids, *self)
    }
}

// A neighbour of the node that is looked at, written as an object with its registers.
impl Listed for (Rank, Regs) {
    ghost names = { IsNear };

    ghost text = { near_text };

    // Returns the line with the object of a neighbour appended: its m, its identifier and its p.
    #[inline(always)]
    #[tactic(auto, unfolding(crate::specs::Facts::near_text))]
    fn with_item(&self, line: Vec<u8>, ids: &IdTable) -> Vec<u8> {
        let (node, regs) = self;
        let line = with_first_m_then_node(line, regs.m);
        let line = with_node(line, ids, *node);
        let line = with_text(line, ",\"p\":");
        with_pointer_at_end(line, ids, regs.p)
    }
}

/// Returns the line with the beginning of a neighbour's object appended: the value `m` of its register m, and the key
/// `node`. For each value of `m` this is one literal, since appending one is faster than appending three parts. The
/// line must have room for 18 more bytes.
#[inline(always)]
fn with_first_m_then_node(line: Vec<u8>, m: bool) -> Vec<u8>
    requires { length line.items + 18 ≤ vec_capacity line }
    ensures text { result.items ≡ line.items
        ++ (codes "{\"m\":" ++ (truth_text m ++ codes ",\"node\":")) }
    ensures capacity { vec_capacity result ≡ vec_capacity line }
    ensures grows { length result.items ≤ length line.items + 18 }
{
    if m {
        with_text(line, "{\"m\":true,\"node\":")
    } else {
        with_text(line, "{\"m\":false,\"node\":")
    }
}

/// Returns the text with a pointer and a closing brace appended. The pointer is the identifier of the node `p`, or
/// `null`; it is the value of the last key of an object. The text must have room for 6 more bytes.
#[inline(always)]
fn with_pointer_at_end(text: Vec<u8>, ids: &IdTable, p: Option<Rank>) -> Vec<u8>
    requires node { IfSome p (λ j. j < length ids.now) }
    requires room { length text.items + 6 ≤ vec_capacity text }
    ensures text { result.items ≡ text.items ++ (pointer_text ids.now p ++ codes "}") }
    ensures capacity { vec_capacity result ≡ vec_capacity text }
    ensures grows { length result.items ≤ length text.items + 6 }
{
    match p {
        Some(node) => with_text(with_node(text, ids, node), "}"),
        None => with_text(text, "null}"),
    }
}

// Two nodes that point at each other, written as an array of their identifiers.
impl Listed for (Rank, Rank) {
    ghost names = { λ ids p. IsPairOf (length ids) p };

    ghost text = { pair_text };

    // Returns the line with the array of a pair appended: the identifiers of its two nodes.
    #[inline(always)]
    #[tactic(auto, unfolding(crate::specs::Facts::pair_text))]
    fn with_item(&self, line: Vec<u8>, ids: &IdTable) -> Vec<u8> {
        let (lower, greater) = self;
        let line = with_text(line, "[");
        let line = with_node(line, ids, *lower);
        let line = with_text(line, ",");
        let line = with_node(line, ids, *greater);
        with_text(line, "]")
    }
}

// A privileged node and the rule that is enabled there, written as an array.
impl Listed for (Rank, Kind) {
    ghost names = { λ ids n. n.0 < length ids };

    ghost text = { privileged_text };

    // Returns the line with the array of a privileged node appended: its identifier and its rule.
    #[inline(always)]
    #[tactic(auto, unfolding(crate::specs::Facts::privileged_text))]
    fn with_item(&self, line: Vec<u8>, ids: &IdTable) -> Vec<u8> {
        let (node, kind) = self;
        let line = with_text(line, "[");
        let line = with_node(line, ids, *node);
        let line = with_text(line, ",");
        let line = with_kind(line, *kind);
        with_text(line, "]")
    }
}

// A link between two nodes each of which is in no pair, written as an array of its ends, its witness and the rule that
// is enabled at the witness. The witness is a privileged node, which shows that the run isn't over.
impl Listed for OpenLink {
    ghost names = { λ ids l. IsOpenLinkOf (length ids) l };

    ghost text = { open_link_text };

    // Returns the line with the array of an open link appended: its two ends, its witness, and the rule that is enabled
    // at the witness.
    #[inline(always)]
    #[tactic(auto, unfolding(crate::specs::Facts::open_link_text))]
    fn with_item(&self, line: Vec<u8>, ids: &IdTable) -> Vec<u8> {
        let line = with_text(line, "[");
        let line = with_node(line, ids, self.a);
        let line = with_text(line, ",");
        let line = with_node(line, ids, self.b);
        let line = with_text(line, ",");
        let line = with_node(line, ids, self.node);
        let line = with_text(line, ",");
        let line = with_kind(line, self.kind);
        with_text(line, "]")
    }
}
