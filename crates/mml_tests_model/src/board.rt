//! Tests of a board and its copy at the beginning of a run and after each event, even an illegal one. The tests also
//! cover a look, and a line of the journal. An error means that memory ran out.
//!
//! A board is the state of a run after some events. The first board of a lab is the one at the beginning of a run. A
//! node is privileged if some rule is enabled there. The path of three is the lab of nodes 1, 2 and 3 in a row. The
//! rank of a node is its index in the rising order of identifiers. A function that owns few large values, such as
//! labs and boards, has a short proof, so many functions only make one and pass it on.
ghost use Rattle.std.specs.Prelude.{◌<◌, length};

use mml_board::{Board, Event};
use mml_fakes::lab;
use mml_fakes::labs::{PATH_OF_THREE, boxed_board, boxed_lab};
use mml_ids::Rank;
use mml_journal::next_line;
use mml_lab::{Lab, Student};
use mml_policy::{Look, look_of};
use mml_rules::{Regs, Rule, Scene};
use std::alloc::{AllocError, Global};
use std::test::Fail;

// The lab file of two linked nodes, of which the higher points at the lower.
const HIGHER_POINTS: &str = lab!(
    "links = [[3, 5]]\n",
    [("ana", "a-key")],
    [(5, "ana", "p = 3\n"), (3, "ana", "")]
);

/// Returns the event in which the first student is granted a move by this rule at the node with the rank `index`.
/// Returns `None` if there is no such rank.
fn grant(index: u64, rule: Rule) -> Option<Event> {
    let node = Rank::new(index)?;
    Some(Event::Grant {
        who: Student::new(0),
        node,
        rule,
    })
}

/// Appends a node of the board to a text: its registers p (as a rank) and m, and the kind of the rule that is enabled
/// there.
fn push_node(text: &mut String, board: &Board, node: Rank) -> Result<(), AllocError>
    requires { node < length board.now.network.registers }
{
    let regs = board.regs(node);
    let p = regs.p.map(Rank::index);
    let kind = board.enabled(node);
    write!(text, "; {p:?} {} {kind:?}", regs.m)
}

/// Appends to a text `true` if no move is chosen at `node`, a node of the board, and otherwise `false`. Then appends
/// one character for each node of the board: `-` if it is linked to `node`, and `.` if not.
fn push_links(text: &mut String, board: &Board, node: Rank) -> Result<(), AllocError>
    requires { node < length board.now.network.registers }
{
    let is_free = board.chosen(node).is_none();
    write!(text, " {is_free} ")?;
    for index in 0..board.size() {
        let mark = if board.linked(node, Rank::at(index)) {
            "-"
        } else {
            "."
        };
        text.push_str(mark)?;
    }
    Ok(())
}

/// Returns a board as text. The text begins with the configuration's number, and with how many events, privileged nodes
/// and chosen moves there are. Then it has each node as `push_node` shows it. If `with_links` is set, each node is
/// followed by its links, as `push_links` shows them.
fn board_text(alloc: Global, board: &Board, with_links: bool) -> Result<String, AllocError> {
    let (number, place) = (board.number(), board.place());
    let (privileged, chosen) = (board.privileged_count(), board.chosen_set().len());
    let mut text = format!(in alloc; "{number} {place} {privileged} {chosen}")?;
    for index in 0..board.size() {
        push_node(&mut text, board, Rank::at(index))?;
        if with_links {
            push_links(&mut text, board, Rank::at(index))?;
        }
    }
    Ok(text)
}

// The board at the beginning of a run over `HIGHER_POINTS` as text, worked out by hand. Marriage is enabled at node 3,
// and Abandonment at node 5, which points at a lower node that doesn't point back.
const OPENING: &str =
    "0 0 2 0; None false Some(Marriage) true .-; Some(0) false Some(Abandonment) true -.";

/// Returns whether a board's text, with links, is `OPENING`.
fn is_opening(alloc: Global, board: &Board) -> Result<bool, Fail> {
    let told = board_text(alloc, board, true)?;
    Ok(told.as_str() == OPENING)
}

/// Returns whether the text of a board's copy, with links, is `OPENING`.
fn is_copy_opening(alloc: Global, board: &Board) -> Result<bool, Fail> {
    let copy = board.try_copy(alloc)?;
    is_opening(alloc, &copy)
}

/// Returns whether the texts of a board and of its copy, with links, are `OPENING`.
fn are_both_opening(alloc: Global, board: &Board) -> Result<bool, Fail> {
    Ok(is_opening(alloc, board)? && is_copy_opening(alloc, board)?)
}

/// Returns a look at the first node of a board as text, or `no node` if the board has no nodes. That is tested, since
/// the contract of `look_of` requires the node.
fn look_at_the_first(alloc: Global, board: &Board) -> Result<String, Fail> {
    let node = Rank::at(0);
    if node.index() >= board.size() {
        return Ok(String::from_str(alloc, "no node")?);
    }
    let look = look_of(alloc, board, node)?;
    Ok(shown(alloc, &look)?)
}

/// Returns a look as text: the number of the configuration, the node's p, the kind of its chosen rule and of its
/// enabled rule, and its neighbours.
fn shown(alloc: Global, look: &Look) -> Result<String, AllocError> {
    let (p, chosen, enabled) = (look.regs.p, look.chosen, look.enabled);
    let mut text = format!(in alloc; "{} {p:?} {chosen:?} {enabled:?}", look.at)?;
    push_near(&mut text, look.near.as_slice())?;
    Ok(text)
}

/// Appends a node's neighbours to a text: for each its rank, its p (as a rank) and its m.
fn push_near(text: &mut String, near: &[(Rank, Regs)]) -> Result<(), AllocError> {
    for (other, regs) in near {
        let (index, p) = (other.index(), regs.p.map(Rank::index));
        write!(text, " {index} {p:?} {}", regs.m)?;
    }
    Ok(())
}

/// Returns the journal's line of an abandonment by the second node, as the first event. The buffer for the line has the
/// text `what stood there` before. Returns this text if the event isn't legal, isn't the first, or lab and board differ
/// in size. These cases are tested, since the contract of `next_line` excludes them.
fn first_event_line(alloc: Global, lab: &Lab, board: &Board) -> Result<Vec<u8>, Fail> {
    let mut line = Vec::from_slice(alloc, b"what stood there")?;
    if let Some(event) = &grant(1, Rule::Abandonment) {
        if lab.node_count() == board.size()
            && board.is_legal(lab.roster(), event)
            && board.place() == 0
        {
            next_line(lab, board, event, &mut line)?;
        }
    }
    Ok(line)
}

/// Returns two answers. The first is whether the texts of a lab's first board and of its copy are `OPENING`. The second
/// is whether a look at the first node and the line of the first event are right.
fn are_told_at_first(alloc: Global, lab: &Lab) -> Result<(bool, bool), Fail> {
    let board = boxed_board(alloc, lab)?;
    let are_opening = are_both_opening(alloc, &board)?;
    let look = look_at_the_first(alloc, &board)?;
    let line = first_event_line(alloc, lab, &board)?;
    let is_shown = look.as_str() == "0 None None Some(Marriage) 1 Some(0) false";
    let is_line = line.as_slice() == b"1 0 grant ana 5 abandonment\n".as_slice();
    Ok((are_opening, is_shown && is_line))
}

/// Returns the two answers of `are_told_at_first` about the lab of `HIGHER_POINTS`.
fn are_told_where_higher_points(alloc: Global) -> Result<(bool, bool), Fail> {
    let lab = boxed_lab(alloc, HIGHER_POINTS)?;
    are_told_at_first(alloc, &lab)
}

/// Checks the first board of `HIGHER_POINTS`, its copy, a look at its first node, and the first line of a journal.
#[test]
fn opening_board(rt: HostRuntime) -> Result<(), Fail> {
    assert_eq!(rt; are_told_where_higher_points(rt.alloc())?, (true, true));
    Ok(())
}

/// A part of a story (a list of events): an event, and the board that is right after it, as `board_text` shows it
/// without links. The event is `None` only for a rank that doesn't exist; then nothing is applied.
type Part = (Option<Event>, &'static str);

/// Returns a story (events, each with the board's text after it) in which one close applies two chosen moves. Two of
/// its events are illegal, and must change nothing.
fn story_of_moves() -> [Part; 5] {
    [
        (
            grant(0, Rule::Seduction),
            "0 1 2 1; None false Some(Seduction); None false Some(Seduction); None false None",
        ),
        // Illegal, since a move is chosen there already.
        (
            grant(0, Rule::Seduction),
            "0 1 2 1; None false Some(Seduction); None false Some(Seduction); None false None",
        ),
        (
            grant(1, Rule::Seduction),
            "0 2 2 2; None false Some(Seduction); None false Some(Seduction); None false None",
        ),
        // Both moves have the effects that they have in the configuration before the close.
        (
            Some(Event::Close),
            "1 3 1 0; Some(1) false None; Some(2) false None; None false Some(Marriage)",
        ),
        // Illegal, since nothing is chosen.
        (
            Some(Event::Close),
            "1 3 1 0; Some(1) false None; Some(2) false None; None false Some(Marriage)",
        ),
    ]
}

/// Returns the story that follows `story_of_moves` on the same board: events, each with the text of the board that must
/// be there right after it. The events are a chosen move, a fault that drops it, a cut, a link, and an illegal cut,
/// which must change nothing.
fn story_of_changes() -> [Part; 5] {
    let [a, b, c] = [Rank::at(0), Rank::at(1), Rank::at(2)];
    let fault = Event::Fault {
        node: c,
        regs: Regs {
            p: Some(b),
            m: true,
        },
    };
    [
        (
            grant(2, Rule::Marriage(b)),
            "1 4 1 1; Some(1) false None; Some(2) false None; None false Some(Marriage)",
        ),
        (
            Some(fault),
            "2 5 1 0; Some(1) false None; Some(2) false Some(Update); Some(1) true None",
        ),
        (
            Some(Event::Cut { a: b, b: c }),
            "3 6 2 0; Some(1) false None; None false Some(Marriage); None true Some(Update)",
        ),
        (
            Some(Event::Link { a, b: c }),
            "4 7 2 0; Some(1) false None; None false Some(Marriage); None true Some(Update)",
        ),
        // Illegal, since there is no such link.
        (
            Some(Event::Cut { a: b, b: c }),
            "4 7 2 0; Some(1) false None; None false Some(Marriage); None true Some(Update)",
        ),
    ]
}

/// Applies the events of a story to a board, one after another. Returns whether after each event the text of the board
/// was the one that the story expects. Continues after a wrong text, since another story may follow on the same board.
fn play_story(alloc: Global, board: &mut Board, story: &[Part]) -> Result<bool, AllocError> {
    let mut is_right = true;
    for (event, expected) in story {
        if let Some(event) = event {
            board.absorb_event(event);
        }
        let text = board_text(alloc, board, false)?;
        if text.as_str() != *expected {
            is_right = false;
        }
    }
    Ok(is_right)
}

/// Plays `story_of_moves` on a board, and then `story_of_changes`. Returns for each of the two stories whether all
/// texts of the board were the expected ones.
fn play_both_stories(alloc: Global, board: &mut Board) -> Result<(bool, bool), Fail> {
    let moves_are_right = play_story(alloc, board, &story_of_moves())?;
    let changes_are_right = play_story(alloc, board, &story_of_changes())?;
    Ok((moves_are_right, changes_are_right))
}

/// Plays both stories on a new board of a lab, and returns what `play_both_stories` returns.
fn play_both_stories_in(alloc: Global, lab: &Lab) -> Result<(bool, bool), Fail> {
    let mut board = boxed_board(alloc, lab)?;
    play_both_stories(alloc, &mut board)
}

/// Plays both stories on a new board of the lab `PATH_OF_THREE`, and returns what `play_both_stories` returns.
fn play_both_stories_on_the_path(alloc: Global) -> Result<(bool, bool), Fail> {
    let lab = boxed_lab(alloc, PATH_OF_THREE)?;
    play_both_stories_in(alloc, &lab)
}

/// Checks that a board is right after each event of `story_of_moves` and `story_of_changes`, whose texts were worked
/// out by hand, and that illegal events don't change it.
#[test]
fn events_in_a_row_of_three(rt: HostRuntime) -> Result<(), Fail> {
    assert_eq!(rt; play_both_stories_on_the_path(rt.alloc())?, (true, true));
    Ok(())
}
