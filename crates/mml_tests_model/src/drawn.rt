//! Tests with pseudo-random events, legal or not, over a cycle of 64 nodes and one of 256. On the board, the same
//! events must be legal as in the plain model, which has the same rules in Python (`model/`). An error means that
//! memory ran out.
//!
//! The first board of a lab is the one at the beginning of a run. The first student, ana, owns the first half of a
//! cycle's nodes, and the second student the others. `numbers` is the source of the pseudo-random numbers. Sums
//! saturate or wrap, since a plain sum needs a proof that it doesn't overflow. A function that owns few large values,
//! such as labs and boards, has a short proof, so some functions only make one and pass it on.
use mml_board::{Board, Event};
use mml_fakes::Numbers;
use mml_fakes::cycles::cycle;
use mml_fakes::labs::{boxed_board, boxed_lab};
use mml_ids::Rank;
use mml_lab::{Lab, Student};
use mml_rules::{Kind, Regs, Rule, Scene};
use std::alloc::{AllocError, Global};
use std::test::Fail;

// How many events are drawn (pseudo-randomly).
const DRAWS: u64 = 5000;

// How many of the drawn events are illegal before each legal one, over the cycle of 64 nodes. There is one letter for
// each legal event, from `a` for none to `z` for 25 or more. The plain model computes them (`tests/random/tables.py`).
const OF_64: &str = concat!(
    "aabgdaaabdcaaaabcbacbbbccdcdaabacbebbbaafcofdecababaddabcbbdadbacegdjafkaaecaada",
    "baddaaaacabcaaecadbdaababcabccbaabebababehaababacabaaagbabaaafaaccabeccebaaabecb",
    "aaccaaaabaabaabaabciadaakbjddacbabbddhggiqbbadacabbaaaebieafaabaaaaaabaaababaaaa",
    "agaaacabdekdaaaaeecbafabegeadbfbcdadbijbbaffdfaaaaeacaadababaabhbebfandecadabbac",
    "ajbaabgadmmiicealabmcehchgjcaedbaaaaabbadabaccaffefedbsafacabiaafafbbbdbfaagcbbi",
    "afkaaabaaeabbbakebedfccabbabemiddaaabaaiaadbcfbjdbkaadhedfbaackgcdbdacalabcgpeca",
    "adddgbbbabbcerahcaaacbakackebkngcabdbcqdbafacafagkegeabggbbcabbabaefaaaabfahbdbc",
    "abfbbaabebbaelmjgfdkhcbbbceacaabbcagaebadbcaacajcdecdadadmdccgadcacvcafbcaaaadac",
    "cfaafbaebabfadedaaccbbeaaaaabeeeaaacifiadaabjacababcbdabbacbbbbcecbbbjzbdaejgkfb",
    "wikcbacafddpdaehcmdaaabbababaebcadacmbbjkbbjcaaaaccbbbbaaadfaaaaaobcaaaaaabcafaa",
    "befdaaabcggcabbehkbafabcibaacbcaabiqdadchacaebabcabbhdbaaeaaaaaaaobiaxabbddcjpic",
    "hccbcdabebanbqbebcaiaicdaahaelicdamcpbbfaaaebdgfacawcbadcaeefccbkbcebfaggfaciaba",
    "beccbdadaaabbcacdababfbgabzccejdbhcbgghgbaageaaafabbbdjaaxllcgbaileeeabdababaech",
    "qbcmbaaabbcacfaceacacabfbacdedaighaaaaacabacibibabbbvevdhfddbbaagbbdccaaceaddflq",
    "abccacaaaeaaccbyceaubcdbclbjkbamcaaccbfabcdcbfababeddaefagaaaeichadbcebaabbaaaab",
    "dbbdachdjaijlfamhebeffaeakfkecnaaicabdaadcgrcdabbjadhleeddbaabbcecaaeccaddbacdga",
    "abcafdafaebcbegaheccfafbeeabbadcdadbdeiahafbbbdbaddabfacadaciaacmdkebiaueacgcaab",
    "dddacbabaaehca",
);

// The same letters for the cycle of 256 nodes.
const OF_256: &str = concat!(
    "aaaacaaabbjadafbhaabeaabifebgefhcbabjbdcaacbabefdaabbiclcodcaabhcacbabcdcbbgbace",
    "bbaedgbdabcbboiaadaadfaabebaagaaclfgdjacabeeaiaaaaaaaacaaadbbaafabddbaaabeccgcdf",
    "edadadobdaoaacacdbkdeibbalbbabbcaaebabbbjdgedadaaaacjhbbdddebccabagdccicaacbeaed",
    "acdabdcaaacbacaabgbbchdgecbdiabdceceacjccaadabaabbbcbfbaiiadaagibacbabbdacahcbeg",
    "decbabbdbaafmbbcbcchabefbbkfcaaabaaaabbaaaababcdacabdcdfaagmebjjbabaahbbdcjbaacd",
    "cabacaccddabbcedbfcabdcoedehbadabgbbbebabhjbbbagacgaaaaaebabbfabacbadaedafbfcbaa",
    "baacbgadacbabbaeacacadcbaccabbfadacdachalacbaaeidciaccaaacfdabcccbfadfbdhdbbbbaa",
    "aaababaeacgcdaddbccecaaahbfdgccaaiccccaaadfaeagdddaacichamccfaaaabcaabflgedbfiac",
    "baadaadabdbcaeabaacegfebdbabacaabdeqlaaabghhcbbdfnhdaladcdbbabdaabacakdkbbbgcicb",
    "bhadbhcafcaaaabaadcacdcdbfaaaaafbaadffecbcccbfeacabakbebcaaccbdcnabcabadaabcfjaa",
    "ibasjbccfmhaaadaacidaacdbbabccjosrhiebbcacbkgbaaaaeakdeakjaedhjajfbkccbbbcaafkge",
    "mkuecbjbkwaabaagfbbbeghbhaafagiaadaceadbbaebeabdabbaebedfcbmpsoedcdhbgbbceaaaabg",
    "bhdababddafefbacabdoacjbcefaadcjcadabcccbdddigmbdbababaiaaacddaabaccaakaaabaaaca",
    "bbaddcfbhidcdcbababaaibgdcbblaebcaaeckxbaaadejadbdaabbaeabaccbaafbfbaeagfbebadoa",
    "aabgaabdcbcaabaaabacfbhdaaeraiafecadcbbecddagafcabafaacbfddeebeadfaegdhdcefggabe",
    "dcbabihofacdeaahcaaaabbbdbjajicanhdafcbiaacmjqgabandfanbmbbbdbbdcbdheaadhcaeibja",
    "adabaffcaecfbaaacacoacazbficiabdjdheaibaurebqljafbbabbbbdfabgcacahdcdadbcaaajzmb",
    "aaaejb",
);

/// Returns the node at an index of a cycle of `nodes` nodes, at most 256. An index after the last node begins again at
/// the first. The bounds 1 and 255 change nothing; with them, the calls need no proof about `nodes`.
fn node_at(nodes: u64, index: u64) -> Rank {
    Rank::at((index % nodes.max(1)).min(255))
}

/// Returns the rule that is enabled at a node; for a marriage, the rule with `partner`. Returns Update if no rule is
/// enabled, or the board has no such node. The node is tested, since the contract of `enabled` requires that the board
/// has it.
fn enabled_rule(board: &Board, node: Rank, partner: Rank) -> Rule {
    if node.index() >= board.size() {
        return Rule::Update;
    }
    match board.enabled(node) {
        Some(Kind::Marriage) => Rule::Marriage(partner),
        Some(Kind::Seduction) => Rule::Seduction,
        Some(Kind::Abandonment) => Rule::Abandonment,
        Some(Kind::Update) | None => Rule::Update,
    }
}

/// Returns the event of a move at a node by the rule that `enabled_rule` returns; `partner` is the partner if this is
/// a marriage. The event's student, ana or the second one, owns the node, except in one of eight cases on average.
/// The event may be illegal.
fn grant(board: &Board, numbers: &mut Numbers, node: Rank, partner: Rank) -> Event {
    let is_ana = (node.index() < board.size() / 2) != (numbers.below(8) == 0);
    Event::Grant {
        who: Student::new(u16::from(!is_ana)),
        node,
        rule: enabled_rule(board, node, partner),
    }
}

/// Returns the event of a fault at a node, with drawn registers. p points at `other`, or in one of four cases on
/// average nowhere, and m is true or false.
fn fault(numbers: &mut Numbers, node: Rank, other: Rank) -> Event {
    let p = if numbers.below(4) == 0 {
        None
    } else {
        Some(other)
    };
    let m = numbers.below(2) == 1;
    Event::Fault {
        node,
        regs: Regs { p, m },
    }
}

/// Returns the event that is drawn at this index; most are moves. The event may be illegal. Its nodes are close to each
/// other in the cycle: the second is at most two before the first, and at most three after it. The first is one of
/// eight neighbouring nodes, and these move on by one node every eight events.
fn drawn(board: &Board, numbers: &mut Numbers, index: u64) -> Event {
    let place = (index / 8).wrapping_add(numbers.below(8));
    let other = place
        .wrapping_add(board.size())
        .wrapping_add(numbers.below(6))
        .wrapping_sub(2);
    let (a, b) = (node_at(board.size(), place), node_at(board.size(), other));
    match numbers.below(32) {
        0..=21 => grant(board, numbers, a, b),
        22 | 23 => Event::Close,
        24 | 25 => Event::Release { node: a },
        26 | 27 => fault(numbers, a, b),
        28 | 29 => Event::Link { a, b },
        _ => Event::Cut { a, b },
    }
}

/// Draws `DRAWS` events over a board, and applies each legal one to it. The pseudo-random numbers begin with the
/// board's size as their state. Returns one letter for each legal event. The letter says how many illegal events came
/// between the legal event before and this one, from `a` for none to `z` for 25 or more.
fn letters_on(alloc: Global, lab: &Lab, board: &mut Board) -> Result<Vec<u8>, AllocError> {
    let mut numbers = Numbers {
        state: board.size(),
    };
    let mut letters = Vec::new(alloc);
    let mut refused = 0u8;
    for index in 0..DRAWS {
        let event = &drawn(board, &mut numbers, index);
        if board.is_legal(lab.roster(), event) {
            board.absorb_event(event);
            letters.push(b'a'.saturating_add(refused))?;
            refused = 0;
        } else {
            refused = refused.saturating_add(1).min(25);
        }
    }
    Ok(letters)
}

/// Calls `letters_on` for the first board of a lab, and returns its letters: one for each legal event that is drawn.
/// The letter counts the illegal events just before.
fn letters_over(alloc: Global, lab: &Lab) -> Result<Vec<u8>, Fail> {
    let mut board = boxed_board(alloc, lab)?;
    Ok(letters_on(alloc, lab, &mut board)?)
}

/// Returns the lab of a cycle of `nodes` nodes, with at most 100 events and one session.
fn cycle_lab(alloc: Global, nodes: u64) -> Result<Box<Lab>, Fail> {
    let file = cycle(alloc, nodes, 100, 1)?;
    boxed_lab(alloc, file.as_str())
}

/// Returns whether the letters of `letters_over` for a cycle of `nodes` nodes are `wanted`.
fn are_letters(alloc: Global, nodes: u64, wanted: &str) -> Result<bool, Fail> {
    let lab = cycle_lab(alloc, nodes)?;
    Ok(letters_over(alloc, &lab)?.as_slice() == wanted.as_bytes())
}

/// Returns two answers: whether the letters for the cycle of 64 nodes, and for that of 256, are those of the plain
/// model.
fn are_both_letters(alloc: Global) -> Result<(bool, bool), Fail> {
    let of_64 = are_letters(alloc, 64, OF_64)?;
    Ok((of_64, are_letters(alloc, 256, OF_256)?))
}

/// Checks that each drawn event is legal on the board exactly if it is legal in the plain model.
#[test]
fn drawn_events_are_legal_as_in_the_plain_model(rt: HostRuntime) -> Result<(), Fail> {
    assert_eq!(rt; are_both_letters(rt.alloc())?, (true, true));
    Ok(())
}
