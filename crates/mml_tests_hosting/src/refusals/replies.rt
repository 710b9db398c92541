//! Tests that replies are written into memory that was reserved before, while each request for memory is refused. The
//! lab has 256 nodes in a row.
//!
//! A hall is the server of one thread, which answers scripts. Each function that returns a `Fail` or an `AllocError`
//! does so if memory runs out. An assertion inside a loop would need a loop invariant, so loops are in functions whose
//! result a test asserts.
use super::library::{is_there, refuse, refuse_all};
use mml_codec::{REPLY_ROOM, write_reply};
use mml_fakes::line;
use mml_hall::Hall;
use mml_ids::Memory;
use mml_journal::NullSink;
use mml_lab_file::read_lab;
use std::alloc::{AllocError, Global};
use std::test::Fail;

/// The first lines of the lab file of `row_of_256`: its limits, the teacher and the one student.
const LIMITS_AND_PEOPLE: &str = r#"events = 261
sessions = 2
teacher = { name = "tess", key = "chalk" }
student = [{ name = "ana", key = "a-key" }]
"#;

/// Returns the lab file of nodes 65280 to 65535 in a row, all owned by ana.
fn row_of_256(alloc: Global) -> Result<String, AllocError> {
    let mut text = format!(in alloc; "{LIMITS_AND_PEOPLE}links = [")?;
    for id in 65280..65535u64 {
        write!(text, "[{id}, {}], ", id.saturating_add(1))?;
    }
    text.push_str("]\n")?;
    for id in 65280..65536u64 {
        write!(text, "[[node]]\nid = {id}\nowner = \"ana\"\n")?;
    }
    Ok(text)
}

// Requests before the moves: the connection, the request and its reply.
const BEFORE: &[(u8, &str, &str)] = &[
    (1, line!(see(65280)), line!(not_greeted)),
    (1, line!(hello("ana", "a-key")), line!(welcome("ana"))),
    (2, line!(hello("tess", "chalk")), line!(welcome("tess"))),
    (1, line!(see(65535)), line!(seen(0, false, 65535, "null"))),
    (
        1,
        r#"{"at":7,"do":"move","node":65280,"rule":"seduction"}"#,
        line!(stale(0)),
    ),
    (1, "{", r#"{"refuse":"malformed"}"#),
];

// Requests after the close: the connection, the request and its reply.
const AFTER: &[(u8, &str, &str)] = &[
    (
        2,
        r#"{"do":"fault","m":true,"node":65280,"p":null}"#,
        r#"{"at":2,"dropped":0,"node":65280,"ok":"fault","place":257}"#,
    ),
    (
        2,
        r#"{"a":65280,"b":65535,"do":"link"}"#,
        r#"{"a":65280,"at":3,"b":65535,"dropped":0,"ok":"link","place":258}"#,
    ),
    (
        2,
        r#"{"a":65280,"b":65535,"do":"cut"}"#,
        r#"{"a":65280,"at":4,"b":65535,"dropped":0,"ok":"cut","place":259}"#,
    ),
    (
        1,
        r#"{"at":4,"do":"move","node":65280,"rule":"update"}"#,
        r#"{"at":4,"node":65280,"ok":"move","place":260,"rule":"update"}"#,
    ),
    (
        2,
        r#"{"do":"release","node":65280}"#,
        r#"{"at":4,"node":65280,"ok":"release","place":261}"#,
    ),
    (
        2,
        r#"{"a":65280,"b":65535,"do":"link"}"#,
        r#"{"refuse":"full"}"#,
    ),
    (1, line!(bye), line!(left)),
];

/// Answers a connection's request. Then writes the reply line into `out`, in place of its former contents, while the
/// library refuses each request for memory, if it is loaded. Returns `Memory` if a request was refused because the line
/// needs more memory than `out` has, or if the lab has no such connection.
fn answer_without_memory(
    alloc: Global,
    hall: &mut Hall<NullSink>,
    out: &mut Vec<u8>,
    connection: u8,
    request: &str,
) -> Result<(), Memory> {
    if connection == 0 || connection > hall.lab().sessions() {
        return Err(Memory);
    }
    let reply = hall.answer(alloc, connection, request.as_bytes());
    refuse_all(alloc);
    let told = write_reply(alloc, hall.lab().ids(), hall.lab().roster(), &reply, out);
    refuse(alloc, 0);
    told
}

/// Returns whether the reply to a connection's request is `wanted`, and is written without more memory than `out` has.
fn is_written(
    alloc: Global,
    hall: &mut Hall<NullSink>,
    out: &mut Vec<u8>,
    connection: u8,
    request: &str,
    wanted: &str,
) -> bool {
    let answered = answer_without_memory(alloc, hall, out, connection, request);
    answered.is_ok() && out.strip_suffix(b"\n") == Some(wanted.as_bytes())
}

/// Returns whether each row's request gets the row's reply, written without more memory than `out` has. Stops at the
/// first row that is wrong.
fn are_written(
    alloc: Global,
    hall: &mut Hall<NullSink>,
    out: &mut Vec<u8>,
    rows: &[(u8, &str, &str)],
) -> bool {
    for (connection, request, wanted) in rows {
        if !is_written(alloc, hall, out, *connection, request, wanted) {
            return false;
        }
    }
    true
}

/// Asks for a move of each node but the last. Returns whether each is granted, and its reply is written without more
/// memory than `out` has.
fn are_moves_written(
    alloc: Global,
    hall: &mut Hall<NullSink>,
    out: &mut Vec<u8>,
) -> Result<bool, AllocError> {
    for id in 65280..65535u64 {
        let place = id.saturating_sub(65279);
        let request = format!(in alloc;
            "{{\"at\":0,\"do\":\"move\",\"node\":{id},\"rule\":\"seduction\"}}"
        )?;
        let wanted = format!(in alloc;
            "{{\"at\":0,\"node\":{id},\"ok\":\"move\",\"place\":{place},\"rule\":\"seduction\"}}"
        )?;
        if !is_written(alloc, hall, out, 1, request.as_str(), wanted.as_str()) {
            return Ok(false);
        }
    }
    Ok(true)
}

/// Returns the reply line to the close that applies the moves of all nodes but the last, without its newline.
fn closed(alloc: Global) -> Result<String, AllocError> {
    let mut text = String::from_str(alloc, "{\"at\":1,\"moved\":[65280")?;
    for id in 65281..65535u64 {
        write!(text, ",{id}")?;
    }
    text.push_str("],\"ok\":\"close\",\"place\":256}")?;
    Ok(text)
}

/// Returns a hall over the row of 256 nodes, in a box: a function that holds the box has one value to drop at each
/// return, which keeps its proof short.
fn hall_of_256(alloc: Global) -> Result<Box<Hall<NullSink>>, Fail> {
    let file = row_of_256(alloc)?;
    let lab = read_lab(alloc, file.as_bytes())?;
    let hall = Hall::new(alloc, lab, NullSink::new())?;
    Ok(Box::new(alloc, hall)?)
}

/// Sends the requests of `BEFORE`, the moves, the close and the requests of `AFTER` to a hall over the row of 256
/// nodes. Returns whether each reply is right, and is written without more memory. Also returns whether a report of all
/// nodes is written without more memory, though its line is longer than `REPLY_ROOM`.
fn results_of_replies(alloc: Global) -> Result<(bool, bool), Fail> {
    let closed = closed(alloc)?;
    let out = &mut Vec::with_capacity(alloc, REPLY_ROOM)?;
    let hall = &mut *hall_of_256(alloc)?;
    let is_before = are_written(alloc, hall, out, BEFORE);
    let is_moved = are_moves_written(alloc, hall, out)?;
    let is_closed = is_written(alloc, hall, out, 2, line!(close), closed.as_str());
    let is_after = are_written(alloc, hall, out, AFTER);
    let is_reported = answer_without_memory(alloc, hall, out, 2, r#"{"do":"report"}"#).is_ok();
    Ok((is_before && is_moved && is_closed && is_after, is_reported))
}

/// Checks that each reply that fits into its reserved memory is right, and needs no more memory. A report of all nodes,
/// which doesn't fit, must fail if the library that refuses requests is loaded, and be written otherwise.
#[test]
fn refusals_do_not_keep_a_reply_from_its_room(rt: HostRuntime) -> Result<(), Fail> {
    let is_there = is_there(rt.alloc());
    assert_eq!(rt; results_of_replies(rt.alloc())?, (true, !is_there));
    Ok(())
}
