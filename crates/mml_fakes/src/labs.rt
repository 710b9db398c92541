//! Lab files that several tests share, and labs and boards that are read from them.
//!
//! A lab file describes a class: its network, its participants and its limits. A board is the state of a run after some
//! events.
use mml_board::Board;
use mml_lab::{Lab, MAX_EVENTS, MAX_SESSIONS};
use mml_lab_file::read_lab;
use std::alloc::{AllocError, Global};
use std::test::Fail;

/// Returns the lab that a lab file describes, in a box. A function that holds the box has one value to drop at each
/// return, which keeps a test's proof short. Returns an error if the file doesn't describe a lab, or memory runs out.
pub fn boxed_lab(alloc: Global, document: &str) -> Result<Box<Lab>, Fail> {
    Ok(Box::new(alloc, read_lab(alloc, document.as_bytes())?)?)
}

/// Returns the board of a lab at the beginning of a run. The board is in a box, which keeps a test's proof short, as
/// `boxed_lab` says. Returns an error if memory runs out.
pub fn boxed_board(alloc: Global, lab: &Lab) -> Result<Box<Board>, Fail> {
    Ok(Box::new(alloc, Board::new(alloc, lab)?)?)
}

/// Makes a lab file with at most 100 events and four sessions, whose teacher is tess. The arguments are the line with
/// the links, the students by name and key, and the nodes by identifier, owner and further lines. The line with the
/// links and the further lines may be empty.
#[macro_export]
macro_rules! lab {
    ($links:literal, [$(($name:literal, $key:literal)),*], [$(($id:literal, $owner:literal, $more:literal)),*]) => {
        concat!(
            "\nevents = 100\nsessions = 4\n",
            $links,
            "\n[teacher]\nname = \"tess\"\nkey = \"chalk\"\n",
            $("\n[[student]]\nname = \"", $name, "\"\nkey = \"", $key, "\"\n",)*
            $("\n[[node]]\nid = ", $id, "\nowner = \"", $owner, "\"\n", $more,)*
        )
    };
}

/// Nodes 1, 2 and 3 in a row, owned by ana, ben and cyd. The teacher is tess, and there are four connections.
pub const PATH_OF_THREE: &str = lab!(
    "links = [[1, 2], [2, 3]]\n",
    [("ana", "a-key"), ("ben", "b-key"), ("cyd", "c-key")],
    [(1, "ana", ""), (2, "ben", ""), (3, "cyd", "")]
);

/// Nodes 3, 5 and 9 in a row: ana owns 3, and ben owns 5 and 9. Nodes 3 and 5 point at each other, and m is set only at
/// 3.
pub const PAIR: &str = lab!(
    "links = [[3, 5], [5, 9]]\n",
    [("ana", "a-key"), ("ben", "b-key")],
    [
        (9, "ben", ""),
        (3, "ana", "p = 5\nm = true\n"),
        (5, "ben", "p = 3\n")
    ]
);

/// Nodes 7 and 65535 without a link, and a student with a name of 32 bytes.
pub const FAR_APART: &str = lab!(
    "",
    [
        ("ana", "a-key"),
        ("b-0123456789-0123456789-01234567", "b-key")
    ],
    [(7, "ana", ""), (65535, "ana", "")]
);

/// Returns the file of the largest lab. The file has the greatest limits, 256 students with the longest names and keys,
/// and 256 nodes with the greatest identifiers. Each node is linked to all others and owned by two students. Returns an
/// error if memory runs out.
pub fn greatest(alloc: Global) -> Result<String, AllocError> {
    let mut text = String::new(alloc);
    write!(
        text,
        "events = {MAX_EVENTS}\nsessions = {MAX_SESSIONS}\nlinks = [\n"
    )?;
    for a in 65280..65536u64 {
        for b in 65280..a {
            write!(text, "[{a},{b}],")?;
        }
    }
    text.push_str("]\nteacher = { name = \"tess\", key = \"chalk\" }\n")?;
    for number in 0..256u64 {
        write!(
            text,
            "[[student]]\nname = \"s{number:031}\"\nkey = \"{number:064}\"\n"
        )?;
    }
    for id in 65280..65536u64 {
        let (number, next) = (id % 256, (id + 1) % 256);
        write!(
            text,
            "[[node]]\nid = {id}\nowners = [\"s{number:031}\", \"s{next:031}\"]\n"
        )?;
    }
    Ok(text)
}
