//! Tests that compare sets of ranks with plain lists.
//!
//! Sums saturate or wrap, since a plain sum needs a proof that it doesn't overflow.
use mml_ids::{MAX_NODES, NodeSet, Rank};

/// Takes all ranks out of a copy of a set, each time the least one. Returns whether their indexes are exactly `ranks`,
/// in this order.
fn gives_in_order(set: NodeSet, ranks: &[u64]) -> bool {
    let mut left = set;
    for index in ranks {
        if least_taken(&mut left) != Some(*index) {
            return false;
        }
    }
    least_taken(&mut left).is_none()
}

/// Takes the least rank out of the set `left`, and returns the rank's index. Returns `None` if the set is empty.
fn least_taken(left: &mut NodeSet) -> Option<u64> {
    Some(left.take_least()?.index())
}

/// Returns whether a set has exactly the ranks with the indexes `ranks`, which are in rising order. Compares
/// membership, length, the least and the greatest rank, and the order in which ranks are taken out.
fn has_only(set: NodeSet, ranks: &[u64]) -> bool {
    ranks.iter().all(|index| has(set, *index))
        && set.len() == ranks.len() as u64
        && least_of(set) == ranks.first().copied()
        && greatest_of(set) == ranks.last().copied()
        && gives_in_order(set, ranks)
}

/// Compares seven sets with the lists of ranks that they should have. Returns the index of the first set that differs,
/// or `None` if none does. Also returns how many ranks `NodeSet::above` has for the rank 63.
fn results_of_sets() -> (Option<usize>, u64) {
    let none = NodeSet::empty();
    let some = none
        .with(Rank::at(0))
        .with(Rank::at(63))
        .with(Rank::at(64))
        .with(Rank::at(255));
    let above = NodeSet::above(Rank::at(63));
    let high = NodeSet::above(Rank::at(252));
    let sets: [(NodeSet, &[u64]); 7] = [
        (none, &[]),
        (some, &[0, 63, 64, 255]),
        (some.with(Rank::at(64)), &[0, 63, 64, 255]),
        (high, &[253, 254, 255]),
        (some.both(above), &[64, 255]),
        (some.without(above), &[0, 63]),
        (NodeSet::above(Rank::at(255)), &[]),
    ];
    let other = sets.iter().position(|(set, ranks)| !has_only(*set, ranks));
    (other, above.len())
}

/// Returns whether the rank with this index is in the pseudo-random set of this seed. In some words (of 64 ranks) such
/// a set has many ranks, and in others few. The numbers in the formula are arbitrary.
fn is_drawn(seed: u64, index: u64) -> bool {
    let spread = seed.wrapping_add(index.wrapping_mul(37));
    spread % 16 < 1 + (index / 64).wrapping_mul(seed) % 16
}

/// Returns the pseudo-random set of this seed.
fn drawn_set(seed: u64) -> NodeSet {
    let mut set = NodeSet::empty();
    for index in 0..MAX_NODES {
        if is_drawn(seed, index) {
            set = set.with(Rank::at(index));
        }
    }
    set
}

/// Returns whether a set has the rank with this index. Returns `false` too if there is no such rank.
fn has(set: NodeSet, index: u64) -> bool {
    match Rank::new(index) {
        Some(rank) => set.has(rank),
        None => false,
    }
}

/// Returns the index of the least rank of a set, or `None` if the set is empty.
fn least_of(set: NodeSet) -> Option<u64> {
    let mut left = set;
    least_taken(&mut left)
}

/// Returns the index of the greatest rank of a set, or `None` if the set is empty.
fn greatest_of(set: NodeSet) -> Option<u64> {
    Some(set.greatest()?.index())
}

/// Returns whether a set has exactly the ranks at whose index the list is `true`. Compares membership, length, and the
/// least and the greatest rank.
fn is_list(set: NodeSet, list: &[bool]) -> bool {
    let (mut count, mut least, mut greatest) = (0u64, None, None);
    for (index, there) in list.iter().enumerate() {
        if has(set, index as u64) != *there {
            return false;
        }
        if *there {
            count = count.saturating_add(1);
            least = least.or(Some(index as u64));
            greatest = Some(index as u64);
        }
    }
    (set.len(), least_of(set), greatest_of(set)) == (count, least, greatest)
}

/// Compares four sets with plain lists, and returns whether all are equal. The first is the set of the seed `a`. The
/// second has those of its ranks that are also in the set of the seed `b`, and the third its other ranks. The fourth
/// has all ranks above `rank`.
fn sets_are_lists(a: u64, b: u64, rank: Rank) -> bool {
    let mut first = [false; 256];
    let mut both = [false; 256];
    let mut without = [false; 256];
    let mut above = [false; 256];
    for index in 0..256usize {
        let (in_a, in_b) = (is_drawn(a, index as u64), is_drawn(b, index as u64));
        first[index] = in_a;
        both[index] = in_a && in_b;
        without[index] = in_a && !in_b;
        above[index] = rank.index() < index as u64;
    }
    let (set_a, set_b) = (drawn_set(a), drawn_set(b));
    is_list(set_a, &first)
        && is_list(set_a.both(set_b), &both)
        && is_list(set_a.without(set_b), &without)
        && is_list(NodeSet::above(rank), &above)
}

// Two seeds of sets, and a rank.
const SEEDS: [(u64, u64, u64); 8] = [
    (0, 3, 0),
    (5, 9, 62),
    (6, 1, 63),
    (11, 14, 64),
    (12, 7, 127),
    (13, 2, 191),
    (14, 8, 254),
    (15, 4, 255),
];

/// Returns the first row of `SEEDS` for which `sets_are_lists` is `false`, or `None` if there is no such row.
fn first_unlike_lists() -> Option<(u64, u64, u64)> {
    for (a, b, index) in SEEDS {
        let agree = match Rank::new(index) {
            Some(rank) => sets_are_lists(a, b, rank),
            None => false,
        };
        if !agree {
            return Some((a, b, index));
        }
    }
    None
}

/// Checks that the seven sets in `results_of_sets` have the ranks in their lists, and that 192 ranks are above 63. For
/// each row of `SEEDS`, also checks a pseudo-random set, its intersection with another one, its ranks that the other
/// one doesn't have, and the set of all ranks above a rank.
#[test]
fn sets_of_ranks(rt: HostRuntime) {
    assert_eq!(rt;
        (results_of_sets(), first_unlike_lists()),
        ((None, 192), None)
    );
}
