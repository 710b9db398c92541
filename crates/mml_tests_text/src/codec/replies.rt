//! Tests of the lines of replies, over a lab of two nodes far apart. An error means that memory ran out.
//!
//! A board is the state of a run after some events. The first board of a lab is the one at the beginning of a run. A
//! function that owns few large values, such as labs and boards, has a short proof, so some functions only make one
//! and pass it on.
ghost use Rattle.mml_codec.specs.Replies.{IsAbout};

use mml_board::Board;
use mml_codec::{REPLY_ROOM, Reply, reply_of, write_reply};
use mml_fakes::labs::{FAR_APART, boxed_board, boxed_lab};
use mml_fakes::lines;
use mml_lab::Lab;
use mml_policy::{Denial, Ruling, See};
use mml_rules::{Regs, Scene};
use mml_stable::{Report, report};
use std::alloc::Global;
use std::test::Fail;

/// Returns the line that `write_reply` writes for a reply. The buffer has another text before, which the line should
/// replace. The lab must have the reply's nodes and participants.
fn line_of(alloc: Global, lab: &Lab, reply: &Reply) -> Result<String, Fail>
    requires { IsAbout lab.now.ids lab.now.roster reply.now }
{
    let mut out = b"older text".to_vec(alloc)?;
    write_reply(alloc, lab.ids(), lab.roster(), reply, &mut out)?;
    Ok(String::from_utf8(out)?)
}

/// Returns the line of the reply to a see that shows node 65535 in the configuration with the greatest number. The
/// node's m is true, and its p points at node 7, or is null if the lab lacks that. Returns an empty text if the lab
/// lacks node 65535.
fn line_of_see(alloc: Global, lab: &Lab) -> Result<String, Fail> {
    let p = lab.ids().rank_of(7);
    let Some(node) = lab.ids().rank_of(65535) else {
        return Ok(String::new(alloc));
    };
    let regs = Regs { p, m: true };
    let at = u64::MAX;
    line_of(alloc, lab, &Reply::See(See { at, node, regs }))
}

/// Makes the reply to a granted report on a board with `reply_of`. Returns whether this reply is a report with the same
/// configuration number and the same stability as the given report.
fn is_reported(alloc: Global, board: &Board, told: &Report) -> Result<bool, Fail> {
    match reply_of(alloc, board, Ruling::Reported)? {
        Reply::Report(other) => Ok(other.at == told.at && other.stable == told.stable),
        _ => Ok(false),
    }
}

/// Returns the line of the report on the first board of a lab. Returns an empty text if the board and the lab differ in
/// size, or `is_reported` is `false` for the report. The sizes are compared, since the contract of `line_of` requires
/// that the lab has the report's nodes.
fn report_line(alloc: Global, lab: &Lab) -> Result<String, Fail> {
    let board = &*boxed_board(alloc, lab)?;
    if lab.ids().len() != board.size() {
        return Ok(String::new(alloc));
    }
    let told = report(alloc, board)?;
    if !is_reported(alloc, board, &told)? {
        return Ok(String::new(alloc));
    }
    line_of(alloc, lab, &Reply::Report(told))
}

/// Writes a denial into a vector, in place of its former contents, and returns the vector's capacity.
fn room_after(alloc: Global, lab: &Lab, denial: Denial, out: &mut Vec<u8>) -> Result<usize, Fail> {
    write_reply(alloc, lab.ids(), lab.roster(), &Reply::Deny(denial), out)?;
    Ok(out.capacity())
}

/// Returns three capacities of a vector with memory for a reply: when it is new, and after each of two denials was
/// written into it. The three should be equal.
fn rooms(alloc: Global, lab: &Lab) -> Result<[usize; 3], Fail> {
    let mut out = Vec::with_capacity(alloc, REPLY_ROOM)?;
    let first = out.capacity();
    let second = room_after(alloc, lab, Denial::Greeted, &mut out)?;
    let third = room_after(alloc, lab, Denial::Hidden, &mut out)?;
    Ok([first, second, third])
}

/// Returns the lines of `line_of_see` and of `report_line` for a lab. Also returns whether a vector with memory for a
/// reply keeps its capacity when replies are written into it.
fn replies_of_lab(alloc: Global, lab: &Lab) -> Result<(String, String, bool), Fail> {
    let rooms = rooms(alloc, lab)?;
    let stays = rooms[1] == rooms[0] && rooms[2] == rooms[0];
    Ok((line_of_see(alloc, lab)?, report_line(alloc, lab)?, stays))
}

/// Returns the three results of `replies_of_lab` for the lab `FAR_APART`: the line of a see, the line of a report, and
/// whether the vector keeps its capacity. The lab has two nodes, with the identifiers 7 and 65535.
fn replies_far_apart(alloc: Global) -> Result<(String, String, bool), Fail> {
    let lab = boxed_lab(alloc, FAR_APART)?;
    replies_of_lab(alloc, &lab)
}

/// Checks the lines of a see and of a report, and that a vector with memory for a reply keeps its capacity.
#[test]
fn replies_are_written(rt: HostRuntime) -> Result<(), Fail> {
    let (see, report, stays) = replies_far_apart(rt.alloc())?;
    let wanted = (
        lines!(seen(18446744073709551615, true, 65535, 7)),
        "{\"at\":0,\"free\":[7,65535],\"ok\":\"report\",\"open\":[],\"pairs\":[],\"privileged\":[],\"stable\":true}\n",
        true,
    );
    assert_eq!(rt; (see.as_str(), report.as_str(), stays), wanted);
    Ok(())
}
