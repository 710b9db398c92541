//! The fields of each reply except a look and a report. The error `Memory` means that memory ran out.
//!
//! The fields of a reply are in byte order of their keys. A `Row` has a key, its value and the fields after it, and
//! `End` is the end of the object. A `Word` is a text that is written in quotation marks. The place of an event is
//! its number in the list of events, from 1. A clause is a condition under which a request is granted. `ids` must
//! have an identifier for each node that a reply names. `numbers` has the place of the event that a reply grants, and
//! the number of the configuration after it.
ghost use Rattle.std.specs.Prelude.{◌≡◌, ◌≤◌, ◌<◌, ◌^◌, ◌∷◌, length};
ghost use Rattle.mml_ids.specs.Pieces.{Puts};
ghost use Rattle.mml_lab.specs.Rosters.{name_of, IsPrincipal};
ghost use Rattle.mml_policy.specs.About.{IsSeen};
ghost use Rattle.mml_board.specs.declared.done.Done.TheVariants as done;
ghost use Rattle.mml_codec.specs.Facts.{object_text, HaveFittingCounts};
ghost use Rattle.mml_codec.specs.Replies.{at_key, done_fields, ends_fields, hello_fields, bye_fields, see_fields, told_fields, deny_fields, refuse_fields, refusal_name};

use crate::reply::Refused;
use crate::reply_value::Word;
use crate::table::{End, Row, TEXT_ROOM, put_object};
use mml_ids::{IdTable, Memory, NodeSet, Rank};
use mml_lab::{Roster, Who};
use mml_policy::{Denial, See};
use mml_rules::Kind;

/// The two numbers in the reply to an event: that of the configuration after it, and its place.
#[derive(Clone, Copy)]
pub(crate) struct EventNumbers {
    at: u64,
    place: u64,
}

/// Returns the `EventNumbers` of an event: `at` is the number of the configuration after it, and `place` is its place.
/// The contract also says that both fit 64 bits, which the proofs of the callers need.
pub(crate) fn numbers_of(at: &u64, place: &u64) -> EventNumbers
    ensures numbers { result ≡ record { at = at.now; place = place.now } }
    ensures at { at.now < 2 ^ 64 }
    ensures place { place.now < 2 ^ 64 }
{
    EventNumbers {
        at: *at,
        place: *place,
    }
}

/// Appends the text of the reply to a granted hello to `out`. The reply names `who`, who must be in the roster, and is
/// known from now on. Returns `Memory` if memory runs out.
#[tactic(auto, unfolding(crate::specs::Facts::object_text))]
pub(crate) fn put_hello(
    ids: &IdTable,
    roster: &Roster,
    who: Who,
    out: &mut Vec<u8>,
) -> Result<(), Memory>
    requires { IsPrincipal roster.now who }
    ensures { Puts (object_text ids.now (hello_fields (name_of roster.now who)))
        TEXT_ROOM out.old out.new result }
{
    let fields = Row {
        key: "ok",
        value: Word("hello"),
        rest: Row {
            key: "who",
            value: Word(roster.name_of(who)),
            rest: End,
        },
    };
    put_object(ids, &fields, out)
}

/// Appends the text of the reply to a bye to `out`. Returns `Memory` if memory runs out.
#[tactic(auto, unfolding(crate::specs::Facts::object_text))]
pub(crate) fn put_bye(ids: &IdTable, out: &mut Vec<u8>) -> Result<(), Memory>
    ensures { Puts (object_text ids.now bye_fields) TEXT_ROOM out.old out.new result }
{
    let fields = Row {
        key: "ok",
        value: Word("bye"),
        rest: End,
    };
    put_object(ids, &fields, out)
}

/// Appends the text of the reply to a granted see to `out`. Returns `Memory` if memory runs out.
#[tactic(auto, unfolding(crate::specs::Facts::object_text))]
pub(crate) fn put_see(ids: &IdTable, see: &See, out: &mut Vec<u8>) -> Result<(), Memory>
    requires { IsSeen ids.now see.now }
    ensures puts { Puts (object_text ids.now (see_fields see.now)) TEXT_ROOM out.old out.new result }
    ensures count { see.now.at < 2 ^ 64 }
{
    // The number `at` is read only for the proof of `count`, which needs that its type has 64 bits.
    let _at = see.at;
    let fields = Row {
        key: "at",
        value: see.at,
        rest: Row {
            key: "m",
            value: see.regs.m,
            rest: Row {
                key: "node",
                value: see.node,
                rest: Row {
                    key: "ok",
                    value: Word("see"),
                    rest: Row {
                        key: "p",
                        value: see.regs.p,
                        rest: End,
                    },
                },
            },
        },
    };
    put_object(ids, &fields, out)
}

/// Appends the text of the reply to a granted move to `out`. `node` is the node, and `kind` is the kind of the rule
/// that was chosen for it. Returns `Memory` if memory runs out.
#[tactic(auto, unfolding(crate::specs::Facts::object_text))]
pub(crate) fn put_move(
    ids: &IdTable,
    numbers: EventNumbers,
    node: Rank,
    kind: Kind,
    out: &mut Vec<u8>,
) -> Result<(), Memory>
    requires { node < length ids.now }
    ensures { Puts (object_text ids.now
        (done_fields numbers.at numbers.place (done.Move node kind))) TEXT_ROOM out.old out.new result }
{
    let fields = Row {
        key: "at",
        value: numbers.at,
        rest: Row {
            key: "node",
            value: node,
            rest: Row {
                key: "ok",
                value: Word("move"),
                rest: Row {
                    key: "place",
                    value: numbers.place,
                    rest: Row {
                        key: "rule",
                        value: kind,
                        rest: End,
                    },
                },
            },
        },
    };
    put_object(ids, &fields, out)
}

/// Appends the text of the reply to a granted close to `out`. `moved` has the nodes whose moves were applied. Returns
/// `Memory` if memory runs out.
#[tactic(auto, unfolding(crate::specs::Facts::object_text))]
pub(crate) fn put_close(
    ids: &IdTable,
    numbers: EventNumbers,
    moved: NodeSet,
    out: &mut Vec<u8>,
) -> Result<(), Memory>
    ensures { Puts (object_text ids.now
        (done_fields numbers.at numbers.place (done.Close moved)))
        TEXT_ROOM out.old out.new result }
{
    let fields = Row {
        key: "at",
        value: numbers.at,
        rest: Row {
            key: "moved",
            value: moved,
            rest: Row {
                key: "ok",
                value: Word("close"),
                rest: Row {
                    key: "place",
                    value: numbers.place,
                    rest: End,
                },
            },
        },
    };
    put_object(ids, &fields, out)
}

/// Appends the text of the reply to a granted fault to `out`. `node` is the node whose registers were set, and
/// `dropped` is how many chosen moves were dropped. Returns `Memory` if memory runs out.
#[tactic(auto, unfolding(crate::specs::Facts::object_text))]
pub(crate) fn put_fault(
    ids: &IdTable,
    numbers: EventNumbers,
    node: Rank,
    dropped: u16,
    out: &mut Vec<u8>,
) -> Result<(), Memory>
    requires { node < length ids.now }
    ensures { Puts (object_text ids.now
        (done_fields numbers.at numbers.place (done.Fault node dropped))) TEXT_ROOM out.old out.new result }
{
    let fields = Row {
        key: "at",
        value: numbers.at,
        rest: Row {
            key: "dropped",
            value: dropped,
            rest: Row {
                key: "node",
                value: node,
                rest: Row {
                    key: "ok",
                    value: Word("fault"),
                    rest: Row {
                        key: "place",
                        value: numbers.place,
                        rest: End,
                    },
                },
            },
        },
    };
    put_object(ids, &fields, out)
}

/// Appends the text of the reply to a granted link or cut to `out`. `word` is `link` or `cut`, `ends` are the two
/// nodes, and `dropped` is how many chosen moves were dropped. Returns `Memory` if memory runs out.
#[tactic(auto, unfolding(crate::specs::Facts::object_text))]
pub(crate) fn put_ends(
    ids: &IdTable,
    word: &'static str,
    numbers: EventNumbers,
    ends: (Rank, Rank),
    dropped: u16,
    out: &mut Vec<u8>,
) -> Result<(), Memory>
    requires first { ends.0 < length ids.now }
    requires second { ends.1 < length ids.now }
    requires word { length word.now ≤ 40 }
    ensures { Puts (object_text ids.now
        (ends_fields word.now numbers.at numbers.place ends.0 ends.1 dropped)) TEXT_ROOM out.old out.new result }
{
    let fields = Row {
        key: "a",
        value: ends.0,
        rest: Row {
            key: "at",
            value: numbers.at,
            rest: Row {
                key: "b",
                value: ends.1,
                rest: Row {
                    key: "dropped",
                    value: dropped,
                    rest: Row {
                        key: "ok",
                        value: Word(word),
                        rest: Row {
                            key: "place",
                            value: numbers.place,
                            rest: End,
                        },
                    },
                },
            },
        },
    };
    put_object(ids, &fields, out)
}

/// Appends the text of the reply to a granted release to `out`. `node` is the node whose chosen move was dropped.
/// Returns `Memory` if memory runs out.
#[tactic(auto, unfolding(crate::specs::Facts::object_text))]
pub(crate) fn put_release(
    ids: &IdTable,
    numbers: EventNumbers,
    node: Rank,
    out: &mut Vec<u8>,
) -> Result<(), Memory>
    requires { node < length ids.now }
    ensures { Puts (object_text ids.now
        (done_fields numbers.at numbers.place (done.Release node))) TEXT_ROOM out.old out.new result }
{
    let fields = Row {
        key: "at",
        value: numbers.at,
        rest: Row {
            key: "node",
            value: node,
            rest: Row {
                key: "ok",
                value: Word("release"),
                rest: Row {
                    key: "place",
                    value: numbers.place,
                    rest: End,
                },
            },
        },
    };
    put_object(ids, &fields, out)
}

/// Appends the text of the reply for a denial to `out`. Only the reply for `Stale` has the number of the current
/// configuration, as its first field. Returns `Memory` if memory runs out.
pub(crate) fn put_denial(ids: &IdTable, denial: Denial, out: &mut Vec<u8>) -> Result<(), Memory>
    ensures puts { Puts (object_text ids.now (deny_fields denial)) TEXT_ROOM out.old out.new result }
    ensures count { HaveFittingCounts (deny_fields denial) }
{
    let clause = denial.clause();
    let name = denial.name();
    let text = denial.text();
    match denial {
        Denial::Stale(at) => put_stale(ids, at, clause, name, text, out),
        _ => put_told(ids, clause, name, text, out),
    }
}

/// Appends the text of the reply for any denial but `Stale` to `out`: its clause, its name and its sentence. The last
/// two may have at most 400 bytes each. Returns `Memory` if memory runs out.
#[tactic(auto, unfolding(crate::specs::Facts::object_text))]
fn put_told(
    ids: &IdTable,
    clause: u8,
    name: &'static str,
    text: &'static str,
    out: &mut Vec<u8>,
) -> Result<(), Memory>
    requires name { length name.now ≤ 400 }
    requires text { length text.now ≤ 400 }
    ensures { Puts (object_text ids.now (told_fields clause name.now text.now))
        TEXT_ROOM out.old out.new result }
{
    let fields = Row {
        key: "clause",
        value: clause,
        rest: Row {
            key: "deny",
            value: Word(name),
            rest: Row {
                key: "text",
                value: Word(text),
                rest: End,
            },
        },
    };
    put_object(ids, &fields, out)
}

/// Appends the text of the reply for the denial `Stale` to `out`: the number `at` of the current configuration, and the
/// denial's clause, name and sentence. The last two may have at most 400 bytes each. Returns `Memory` if memory runs
/// out.
#[tactic(auto, unfolding(crate::specs::Facts::object_text))]
fn put_stale(
    ids: &IdTable,
    at: u64,
    clause: u8,
    name: &'static str,
    text: &'static str,
    out: &mut Vec<u8>,
) -> Result<(), Memory>
    requires name { length name.now ≤ 400 }
    requires text { length text.now ≤ 400 }
    ensures { Puts (object_text ids.now (at_key at ∷ told_fields clause name.now text.now))
        TEXT_ROOM out.old out.new result }
{
    let fields = Row {
        key: "at",
        value: at,
        rest: Row {
            key: "clause",
            value: clause,
            rest: Row {
                key: "deny",
                value: Word(name),
                rest: Row {
                    key: "text",
                    value: Word(text),
                    rest: End,
                },
            },
        },
    };
    put_object(ids, &fields, out)
}

/// Appends the text of the reply for a refusal to `out`. Returns `Memory` if memory runs out.
#[tactic(auto, unfolding(crate::specs::Facts::object_text))]
pub(crate) fn put_refusal(ids: &IdTable, refused: Refused, out: &mut Vec<u8>) -> Result<(), Memory>
    ensures { Puts (object_text ids.now (refuse_fields refused)) TEXT_ROOM out.old out.new result }
{
    let fields = Row {
        key: "refuse",
        value: Word(refusal_name(refused)),
        rest: End,
    };
    put_object(ids, &fields, out)
}

/// Returns the word for a refusal in its reply.
fn refusal_name(refused: Refused) -> &'static str
    ensures text { result.now ≡ refusal_name refused }
    ensures short { length result.now ≤ 40 }
{
    match refused {
        Refused::Malformed => "malformed",
        Refused::Full => "full",
        Refused::Journal => "journal",
        Refused::Memory => "memory",
    }
}
