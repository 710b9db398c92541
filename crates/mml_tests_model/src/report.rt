//! A test of the report. An error means that memory ran out, or is that of a lab file.
//!
//! The rank of a node is its index in the rising order of identifiers. A board is the state of a run after some
//! events. A node is privileged if some rule is enabled there. The witness of an open link is a privileged node that
//! the report names for it. A function that owns few large values, such as labs and boards, has a short proof, so
//! some functions only make one and pass it on.
use mml_board::Board;
use mml_fakes::labs::{boxed_board, boxed_lab};
use mml_ids::Rank;
use mml_rules::Kind;
use mml_stable::{OpenLink, Report, report};
use std::alloc::{AllocError, Global};
use std::test::Fail;

/// Returns a report as text: the number of the configuration, whether it is stable, and the four lists, with nodes as
/// ranks.
fn report_text(alloc: Global, report: &Report) -> Result<String, Fail> {
    let mut text = format!(in alloc; "{} {};", report.at, report.stable)?;
    push_lists(&mut text, report)?;
    Ok(text)
}

/// Appends the four lists of a report to a text: its pairs, free nodes, privileged nodes and open links.
fn push_lists(text: &mut String, report: &Report) -> Result<(), AllocError> {
    push_pairs(text, report.pairs.as_slice())?;
    push_free(text, report.free.as_slice())?;
    push_privileged(text, report.privileged.as_slice())?;
    for link in report.open_links.as_slice() {
        push_link(text, link)?;
    }
    Ok(())
}

/// Appends a report's pairs to a text, each as two ranks with `=` between them, and then `;`.
fn push_pairs(text: &mut String, pairs: &[(Rank, Rank)]) -> Result<(), AllocError> {
    for (lower, greater) in pairs {
        write!(text, " {}={}", lower.index(), greater.index())?;
    }
    text.push_str(";")
}

/// Appends the ranks of a report's free nodes (nodes in no pair) to a text, and then `;`.
fn push_free(text: &mut String, nodes: &[Rank]) -> Result<(), AllocError> {
    for node in nodes {
        write!(text, " {}", node.index())?;
    }
    text.push_str(";")
}

/// Appends the ranks of a report's privileged nodes to a text, each with its enabled rule, and then `;`.
fn push_privileged(text: &mut String, nodes: &[(Rank, Kind)]) -> Result<(), AllocError> {
    for (node, kind) in nodes {
        write!(text, " {} {kind:?}", node.index())?;
    }
    text.push_str(";")
}

/// Appends an open link, one between two free nodes, to a text: its two nodes, its witness (a privileged node), and the
/// rule that is enabled at the witness.
fn push_link(text: &mut String, link: &OpenLink) -> Result<(), AllocError> {
    let [a, b, node] = [link.a.index(), link.b.index(), link.node.index()];
    write!(text, " {a}-{b} {node} {:?}", link.kind)
}

// A lab file with two pairs, in one of which a node's m is still false, and a link between two free nodes.
const DOCUMENT: &str = r#"
events = 100
sessions = 1
links = [[1, 2], [2, 3], [3, 4], [4, 5], [5, 6]]
teacher = { name = "t", key = "t" }
student = [{ name = "s", key = "s" }]
node = [
  { id = 1, owner = "s", p = 2, m = true },
  { id = 2, owner = "s", p = 1, m = true },
  { id = 3, owner = "s", p = 4, m = true },
  { id = 4, owner = "s", p = 3 },
  { id = 5, owner = "s", p = 6 },
  { id = 6, owner = "s" },
]
"#;

// The report at the beginning of a run over `DOCUMENT` as text, worked out by hand.
const TOLD: &str = "0 false; 0=1 2=3; 4 5; 3 Update 5 Marriage; 4-5 5 Marriage";

/// Returns the report of a board, as text.
fn board_report_text(alloc: Global, board: &Board) -> Result<String, Fail> {
    let report = report(alloc, board)?;
    report_text(alloc, &report)
}

/// Returns the report at the beginning of a run over the lab of the lab file `document`, as text.
fn lab_report_text(alloc: Global, document: &str) -> Result<String, Fail> {
    let lab = boxed_lab(alloc, document)?;
    let board = boxed_board(alloc, &lab)?;
    board_report_text(alloc, &board)
}

/// Checks the report at the beginning of a run over `DOCUMENT`: its number, its stability, and its four lists.
#[test]
fn report_of_two_pairs_and_an_open_link(rt: HostRuntime) -> Result<(), Fail> {
    assert_eq!(rt; lab_report_text(rt.alloc(), DOCUMENT)?.as_str(), TOLD);
    Ok(())
}
