//! Lab files whose network is a cycle, of any size.
use std::alloc::{AllocError, Global};
use std::fmt::Write;

/// The lines of a lab file about the teacher and the two students.
const PEOPLE: &str = r#"teacher = { name = "tess", key = "chalk" }
student = [{ name = "ana", key = "a-key" }, { name = "ben", key = "b-key" }]
"#;

/// Returns the lab file of a cycle of `nodes` nodes (three or more), numbered from 1, with at most `events` events and
/// `sessions` sessions. The student ana owns the first half of the nodes, rounded down, and ben the others; the teacher
/// is tess. Returns an error if memory runs out.
pub fn cycle(alloc: Global, nodes: u64, events: u64, sessions: u64) -> Result<String, AllocError> {
    let mut text = String::from_str(alloc, PEOPLE)?;
    write!(text, "events = {events}\nsessions = {sessions}\n")?;
    write!(text, "links = [[1, {nodes}]")?;
    for node in 1..nodes {
        write!(text, ", [{node}, {}]", node.saturating_add(1))?;
    }
    text.push_str("]\n")?;
    for node in 1..=nodes {
        let owner = if node <= nodes / 2 { "ana" } else { "ben" };
        write!(text, "[[node]]\nid = {node}\nowner = \"{owner}\"\n")?;
    }
    Ok(text)
}
