//! The text of replies. The error `Memory` means that memory ran out. A reply must name only nodes that have
//! identifiers in `ids`, and participants in the roster.
ghost use Rattle.std.specs.Prelude.{◌≡◌, ◌≤◌, ◌<◌, ◌+◌, ◌++◌, ◌∷◌, [], true, length, OnOk, OnErr, IsOk, vec_capacity, if◌then◌else◌};
ghost use Rattle.mml_ids.specs.Pieces.{Puts};
ghost use Rattle.mml_codec.specs.Replies.{text, reply_line, is_short, IsAbout, TellsFor};
ghost use Rattle.mml_codec.specs.ReplyValues.{AreWritableCounts};

use crate::list_rows::{put_look, put_report};
use crate::reply::{REPLY_ROOM, Refused, Reply};
use crate::reply_rows::{
    numbers_of, put_bye, put_close, put_denial, put_ends, put_fault, put_hello, put_move,
    put_refusal, put_release, put_see,
};
use crate::table::TEXT_ROOM;
use mml_ids::{IdTable, Memory, make_room};
use mml_lab::Roster;
use std::alloc::Global;

/// Replaces the bytes of `out` by the line of a reply, with its newline. If `out` has a capacity of at least
/// `REPLY_ROOM`, allocates only for a look or a report. Returns `Memory`, and leaves `out` empty, if memory runs out.
/// `_alloc` isn't used: `out` grows without it.
pub fn write_reply(
    _alloc: Global,
    ids: &IdTable,
    roster: &Roster,
    reply: &Reply,
    out: &mut Vec<u8>,
) -> Result<(), Memory>
    requires { IsAbout ids.now roster.now reply.now }
    ensures line { OnOk result (out.new.items ≡ reply_line ids.now roster.now reply.now) }
    ensures memory { OnErr result (out.new.items ≡ []) }
    ensures capacity { vec_capacity out.old ≤ vec_capacity out.new }
    ensures room { REPLY_ROOM ≤ vec_capacity out.old → is_short reply.now ≡ true → IsOk result }
    ensures kept { REPLY_ROOM ≤ vec_capacity out.old → is_short reply.now ≡ true →
        vec_capacity out.new ≡ vec_capacity out.old }
    ensures counts { AreWritableCounts roster.now reply.now }
{
    out.clear();
    let written = put_line(ids, roster, reply, out);
    if written.is_err() {
        out.clear();
    }
    written
}

/// Replaces the bytes of `out` by the line of a reply, with its newline, and returns the reply. If memory runs out,
/// replaces them by the line of the refusal `memory`, and returns this refusal. `out` must have a capacity of at least
/// `REPLY_ROOM`.
pub fn tell_reply(
    alloc: Global,
    ids: &IdTable,
    roster: &Roster,
    reply: Reply,
    out: &mut Vec<u8>,
) -> Reply
    requires room { REPLY_ROOM ≤ vec_capacity out.old }
    requires about { IsAbout ids.now roster.now reply }
    ensures told { TellsFor reply result }
    ensures room { REPLY_ROOM ≤ vec_capacity out.new }
    ensures line { out.new.items ≡ reply_line ids.now roster.now result }
{
    match write_reply(alloc, ids, roster, &reply, out) {
        Ok(()) => reply,
        Err(_) => write_memory_refusal(alloc, ids, roster, out),
    }
}

/// Appends the line of a reply to `out`, and returns true. If the reply is a look or a report, or `out` has less than
/// `REPLY_ROOM` bytes free, appends nothing and returns false. Allocates nothing, so `unwrap` succeeds.
pub fn append_reply(ids: &IdTable, roster: &Roster, reply: &Reply, out: &mut Vec<u8>) -> bool
    requires { IsAbout ids.now roster.now reply.now }
    ensures told { length out.old.items + REPLY_ROOM ≤ vec_capacity out.old →
        result ≡ is_short reply.now }
    ensures line { out.new.items ≡ (if result
        then out.old.items ++ reply_line ids.now roster.now reply.now else out.old.items) }
    ensures grows { length out.new.items ≤ length out.old.items + REPLY_ROOM }
    ensures capacity { vec_capacity out.new ≡ vec_capacity out.old }
{
    if !is_short(reply) || out.capacity() - out.len() < REPLY_ROOM {
        return false;
    }
    put_line(ids, roster, reply, out).unwrap();
    true
}

/// Returns whether the line of a reply fits `REPLY_ROOM` bytes in every lab. The lines of a look and of a report list
/// nodes, and may be longer.
fn is_short(reply: &Reply) -> bool
    ensures { result ≡ is_short reply.now }
{
    !matches!(reply, Reply::Look(_) | Reply::Report(_))
}

/// Replaces the bytes of `out` by the line of the refusal `memory`, which says that memory ran out. Returns that
/// refusal. The line fits the capacity that `out` must have, `REPLY_ROOM`, so it is written without allocating, and
/// `unwrap` succeeds.
fn write_memory_refusal(alloc: Global, ids: &IdTable, roster: &Roster, out: &mut Vec<u8>) -> Reply
    requires room { REPLY_ROOM ≤ vec_capacity out.old }
    ensures told { result ≡ Reply.Refuse Refused.Memory }
    ensures room { REPLY_ROOM ≤ vec_capacity out.new }
    ensures line { out.new.items ≡ reply_line ids.now roster.now result }
{
    let refusal = Reply::Refuse(Refused::Memory);
    write_reply(alloc, ids, roster, &refusal, out).unwrap();
    refusal
}

/// Appends the line of a reply, with its newline, to `out`. Returns `Memory` if memory runs out; then `out` may have
/// only the beginning of the line.
fn put_line(ids: &IdTable, roster: &Roster, reply: &Reply, out: &mut Vec<u8>) -> Result<(), Memory>
    requires { IsAbout ids.now roster.now reply.now }
    ensures line { OnOk result
        (out.new.items ≡ out.old.items ++ reply_line ids.now roster.now reply.now) }
    ensures capacity { vec_capacity out.old ≤ vec_capacity out.new }
    ensures grows { is_short reply.now ≡ true →
        OnOk result (length out.new.items ≤ length out.old.items + REPLY_ROOM) }
    ensures room { is_short reply.now ≡ true →
        OnErr result (vec_capacity out.old < length out.old.items + REPLY_ROOM) }
    ensures kept { is_short reply.now ≡ true →
        length out.old.items + REPLY_ROOM ≤ vec_capacity out.old →
        vec_capacity out.new ≡ vec_capacity out.old }
    ensures counts { AreWritableCounts roster.now reply.now }
{
    put_text(ids, roster, reply, out)?;
    put_end(out)
}

/// Appends a newline to `out`. Returns `Memory` if memory runs out.
fn put_end(out: &mut Vec<u8>) -> Result<(), Memory>
    ensures { Puts (10 ∷ []) 1 out.old out.new result }
{
    make_room(out, 1)?;
    out.push_reserved(b'\n');
    Ok(())
}

/// Appends the text of a reply, without a newline, to `out`. Returns `Memory` if memory runs out; then `out` may have
/// only the beginning of the text.
fn put_text(ids: &IdTable, roster: &Roster, reply: &Reply, out: &mut Vec<u8>) -> Result<(), Memory>
    requires { IsAbout ids.now roster.now reply.now }
    ensures text { OnOk result
        (out.new.items ≡ out.old.items ++ text ids.now roster.now reply.now) }
    ensures capacity { vec_capacity out.old ≤ vec_capacity out.new }
    ensures grows { is_short reply.now ≡ true →
        OnOk result (length out.new.items ≤ length out.old.items + TEXT_ROOM) }
    ensures room { is_short reply.now ≡ true →
        OnErr result (vec_capacity out.old < length out.old.items + TEXT_ROOM) }
    ensures kept { is_short reply.now ≡ true →
        length out.old.items + TEXT_ROOM ≤ vec_capacity out.old →
        vec_capacity out.new ≡ vec_capacity out.old }
    ensures counts { AreWritableCounts roster.now reply.now }
{
    match reply {
        Reply::Hello(who) => put_hello(ids, roster, *who, out),
        Reply::Bye => put_bye(ids, out),
        Reply::See(see) => put_see(ids, see, out),
        Reply::Look(look) => put_look(ids, look, out),
        Reply::Move {
            at,
            place,
            node,
            kind,
        } => put_move(ids, numbers_of(at, place), *node, *kind, out),
        Reply::Close { at, place, moved } => put_close(ids, numbers_of(at, place), *moved, out),
        Reply::Fault {
            at,
            place,
            node,
            dropped,
        } => put_fault(ids, numbers_of(at, place), *node, *dropped, out),
        Reply::Link {
            at,
            place,
            a,
            b,
            dropped,
        } => put_ends(ids, "link", numbers_of(at, place), (*a, *b), *dropped, out),
        Reply::Cut {
            at,
            place,
            a,
            b,
            dropped,
        } => put_ends(ids, "cut", numbers_of(at, place), (*a, *b), *dropped, out),
        Reply::Release { at, place, node } => put_release(ids, numbers_of(at, place), *node, out),
        Reply::Report(report) => put_report(ids, report, out),
        Reply::Deny(denial) => put_denial(ids, *denial, out),
        Reply::Refuse(refused) => put_refusal(ids, *refused, out),
    }
}
