//! Tests of requests to a hall, and of its first board. An error means that memory ran out, or is that of a lab file.
//!
//! A hall is the server of one thread, which answers scripts. A world is a network with its registers, its chosen
//! moves, the number of its configuration, and the number of events so far. The first board of a lab or of a hall is
//! the one at the beginning of a run. `PAIR` is the lab file of nodes 3, 5 and 9 in a row, with tess as the teacher. A
//! function that owns few large values, such as labs and halls, has a short proof, so some functions only make one and
//! pass it on.
use mml_board::Board;
use mml_codec::{REPLY_ROOM, tell_reply};
use mml_fakes::labs::{PAIR, boxed_board, boxed_lab, greatest};
use mml_hall::Hall;
use mml_journal::NullSink;
use mml_lab::Lab;
use mml_lab_file::read_lab;
use std::alloc::Global;
use std::test::Fail;

/// The teacher's hello.
const HELLO: &str = r#"{"do":"hello","name":"tess","key":"chalk"}"#;

// The reply to `HELLO`.
const WELCOME: &str = "{\"ok\":\"hello\",\"who\":\"tess\"}\n";

// The reply to the teacher's look at node 9 at the beginning of a run over `PAIR`, worked out by hand.
const LOOK: &str =
    "{\"at\":0,\"chosen\":null,\"m\":false,\"near\":[{\"m\":false,\"node\":5,\"p\":3}],\"node\":9,\"ok\":\"look\",\"p\":null,\"rule\":null}\n";

/// Returns the line of the reply to a request on the first connection, with its newline. Returns an error if there is
/// no memory for the buffer of the line. If memory runs out later, the line is that of the refusal `memory`. Returns an
/// empty list if the hall's lab allows no session. The function checks this, since the contract of `Hall::answer`
/// requires that the connection exists.
fn answer(alloc: Global, hall: &mut Hall<NullSink>, line: &str) -> Result<Vec<u8>, Fail> {
    let mut out = Vec::with_capacity(alloc, REPLY_ROOM)?;
    if hall.lab().sessions() < 1 {
        return Ok(out);
    }
    let reply = hall.answer(alloc, 1, line.as_bytes());
    let lab = hall.lab();
    let _told = tell_reply(alloc, lab.ids(), lab.roster(), reply, &mut out);
    Ok(out)
}

/// Returns whether a hall answers the teacher's hello by `WELCOME` and a look by `LOOK`, and its board is still in
/// configuration 0, with no event.
fn is_answered(alloc: Global, hall: &mut Hall<NullSink>) -> Result<bool, Fail> {
    let hello = answer(alloc, hall, HELLO)?;
    let look = answer(alloc, hall, r#"{"do":"look","node":9}"#)?;
    let are_so = hello.as_slice() == WELCOME.as_bytes() && look.as_slice() == LOOK.as_bytes();
    Ok(are_so && hall.board().number() == 0 && hall.board().place() == 0)
}

/// Returns a new hall over the lab of this lab file.
fn hall_of(alloc: Global, document: &str) -> Result<Box<Hall<NullSink>>, Fail> {
    let lab = read_lab(alloc, document.as_bytes())?;
    let hall = Hall::new(alloc, lab, NullSink::new())?;
    Ok(Box::new(alloc, hall)?)
}

/// Returns whether a new hall over `PAIR` answers the teacher's hello and look rightly, and its board is still in
/// configuration 0, with no event.
fn is_look_answered(alloc: Global) -> Result<bool, Fail> {
    let mut hall = hall_of(alloc, PAIR)?;
    is_answered(alloc, &mut hall)
}

/// Returns whether a hall over the lab of this lab file begins with the world of `board`, and with no event.
fn begins_as(alloc: Global, document: &str, board: &Board) -> Result<bool, Fail> {
    let hall = hall_of(alloc, document)?;
    Ok(board.is_same(hall.board()) && hall.events().is_empty())
}

/// Returns whether a board has the same world as its copy.
fn is_copied(alloc: Global, board: &Board) -> Result<bool, Fail> {
    let copy = board.try_copy(alloc)?;
    Ok(board.is_same(&copy))
}

/// Returns whether the first board of a lab, its copy, and the first board of a hall over the lab's file have the same
/// world.
fn are_one(alloc: Global, document: &str, lab: &Lab) -> Result<bool, Fail> {
    let board = &*boxed_board(alloc, lab)?;
    Ok(is_copied(alloc, board)? && begins_as(alloc, document, board)?)
}

/// Returns whether the first board of the largest lab, its copy, and the first board of a hall over the lab's file have
/// the same world.
fn is_one_beginning(alloc: Global) -> Result<bool, Fail> {
    let document = greatest(alloc)?;
    let lab = boxed_lab(alloc, document.as_str())?;
    are_one(alloc, document.as_str(), &lab)
}

/// Returns the results of `is_look_answered` and of `is_one_beginning`.
fn are_looks_and_beginnings_right(alloc: Global) -> Result<(bool, bool), Fail> {
    Ok((is_look_answered(alloc)?, is_one_beginning(alloc)?))
}

/// Checks that a hello and a look are answered rightly and don't change the board. Also checks that the first board of
/// the largest lab, its copy, and the first board of a hall have the same world.
#[test]
fn requests_are_answered(rt: HostRuntime) -> Result<(), Fail> {
    assert_eq!(rt; are_looks_and_beginnings_right(rt.alloc())?, (true, true));
    Ok(())
}
