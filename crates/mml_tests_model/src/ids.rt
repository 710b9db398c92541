//! Tests of identifiers, ranks, and pieces of text. An error means that memory ran out, or says why a table can't be
//! made. The rank of a node is its index in the rising order of identifiers.
use mml_ids::{
    IdFault, IdTable, Items, MAX_NODES, Memory, NodeId, Piece, Rank, Word, make_room, put,
};
use std::alloc::{AllocError, Global};
use std::test::Fail;

/// Returns the rank of an identifier as a number, or `None` if the table doesn't have the identifier.
fn index_of(table: &IdTable, id: u64) -> Option<u64> {
    Some(table.rank_of(id)?.index())
}

/// Returns whether the table has the identifier `id`, and leads from its rank back to `id`.
fn comes_back(table: &IdTable, id: u64) -> bool {
    match table.rank_of(id) {
        Some(node) => table.id_of(node) == id,
        None => false,
    }
}

// Identifiers, each with its rank in the table of 9, 1, 7 and 4, or `None` if the table doesn't have it.
const RANKS: [(u64, Option<u64>); 6] = [
    (1, Some(0)),
    (4, Some(1)),
    (7, Some(2)),
    (9, Some(3)),
    (8, None),
    (0, None),
];

/// Returns the first identifier of `RANKS` that has a wrong rank in the table, or whose rank doesn't lead back to it.
/// Returns `None` if all are right.
fn first_other_rank(table: &IdTable) -> Option<u64> {
    for (id, index) in RANKS {
        if (index_of(table, id), comes_back(table, id)) != (index, index.is_some()) {
            return Some(id);
        }
    }
    None
}

/// Makes the table of 9, 1, 7 and 4. Returns how many identifiers it has, and the result of `first_other_rank` for it.
fn results_of_ranks(alloc: Global) -> Result<(u64, Option<u64>), IdFault> {
    let table = IdTable::new(alloc, &[9, 1, 7, 4])?;
    Ok((table.len(), first_other_rank(&table)))
}

/// Returns `id` if `NodeId` accepts it as an identifier, and otherwise `None`.
fn identifier(id: u64) -> Option<u64> {
    Some(NodeId::new(id)?.get())
}

/// Returns `index` if `Rank` accepts it as a rank, and otherwise `None`.
fn rank(index: u64) -> Option<u64> {
    Some(Rank::new(index)?.index())
}

// Numbers, whether each is an identifier, and whether it is a rank.
const RANGES: [(u64, bool, bool); 7] = [
    (0, false, true),
    (1, true, true),
    (64, true, true),
    (255, true, true),
    (256, true, false),
    (65535, true, false),
    (65536, false, false),
];

/// Returns the first number of `RANGES` that is wrongly accepted or rejected as an identifier or a rank, or `None` if
/// all are right.
fn first_other_range() -> Option<u64> {
    for (number, is_identifier, is_rank) in RANGES {
        let wanted = (is_identifier.then_some(number), is_rank.then_some(number));
        if (identifier(number), rank(number)) != wanted {
            return Some(number);
        }
    }
    None
}

/// Checks the ranks of identifiers in a table of four, which numbers are accepted as identifiers and as ranks, and that
/// `MAX_NODES` is 256.
#[test]
fn identifiers_have_ranks(rt: HostRuntime) {
    assert_eq!(rt;
        (results_of_ranks(rt.alloc()), first_other_range(), MAX_NODES),
        (Ok((4, None)), None, 256)
    );
}

/// Returns whether `Items` keeps a list as it was given.
fn keeps_a_list(alloc: Global) -> Result<bool, AllocError> {
    let items = Items::of(vec![in alloc; 3u8, 1, 2]?);
    Ok(items.as_slice() == [3u8, 1, 2].as_slice() && items.into_vec().len() == 3)
}

/// Returns whether `Word` keeps a text as it was given.
fn keeps_a_word(alloc: Global) -> Result<bool, AllocError> {
    let word = Word::of(String::from_str(alloc, "ana")?);
    Ok(word.as_str() == "ana")
}

/// Puts pieces of text into a vector, the last of them the identifier `id`, which should be 65535, and then makes room
/// for 100 more bytes. Returns whether the text, of 29 bytes, is right, and the vector has that room.
fn are_put(alloc: Global, id: NodeId) -> Result<bool, Memory> {
    let mut out = Vec::new(alloc);
    let text = [
        Piece::Text("at "),
        Piece::Number(u64::MAX),
        Piece::Text(","),
        Piece::Id(id),
    ];
    put(&mut out, &text)?;
    make_room(&mut out, 100)?;
    Ok(out.capacity() >= 129 && out.as_slice() == b"at 18446744073709551615,65535".as_slice())
}

/// Returns two answers: whether a list and a word are kept as they were given, and the result of `are_put` with the
/// greatest identifier.
fn results_of_texts(alloc: Global) -> Result<(bool, bool), Fail> {
    let id = NodeId::new(65535).ok_or("the greatest identifier")?;
    let are_kept = keeps_a_list(alloc)? && keeps_a_word(alloc)?;
    Ok((are_kept, are_put(alloc, id)?))
}

/// Checks that a list, a word and the text of pieces are what was put in, and that there is room after that text.
#[test]
fn lists_words_and_pieces(rt: HostRuntime) -> Result<(), Fail> {
    assert_eq!(rt; results_of_texts(rt.alloc())?, (true, true));
    Ok(())
}
