//! Tests of sessions in threads of their own, which wait for each other at lines and replies. The sessions read byte by
//! byte, so that each reply is written before the next line is read. An error (`Fail`) means that memory ran out, or
//! that a race has more connections than the lab has sessions.
//!
//! A house is one run of a lab that threads share. A gate is a point at which tests can stop a session. A close is an
//! event that applies all chosen moves. A sink is the destination of the journal's bytes, and is fresh if it has none
//! yet. An assertion inside a loop would need a loop invariant, so loops are in functions whose result a test asserts.
mod bytewise;
mod locked;
mod steps;

ghost use Rattle.std.specs.Prelude.{◌<◌, ◌-◌, ◌^◌};
ghost use Rattle.mml_journal.specs.Taken.{IsFresh};

use bytewise::Bytewise;
use mml_fakes::labs::PATH_OF_THREE;
use mml_fakes::lines;
use mml_fakes::scripts::{
    ANA_JOURNAL, BEN_MOVES, CLOSED_JOURNAL, NOTHING_CLOSED, ONE_CLOSED, TESS_CLOSES,
};
use mml_journal::{MemorySink, Sink};
use mml_lab::Lab;
use mml_lab_file::read_lab;
use mml_serving::{ServeFault, ServedHouse, ServerOf, serve_arrivals};
use mml_session::{Gate, NoGate};
use std::alloc::{AllocError, Global};
use std::sync::Wait;
use std::test::Fail;
use std::thread::Threads;
use std::vec::IntoIter;
use steps::{Holds, Steps};

/// The two ends of a connection: a reader of what it sends, and a writer that stores what it gets.
type Ends<'a> = (Bytewise<'a>, Vec<u8>);

/// A house whose sessions have ended, or the fault because of which there is none.
type Ended<'a, S> = Result<ServedHouse<S, Bytewise<'a>, Vec<u8>>, ServeFault>;

/// Returns connections that send these scripts, in their order. Returns an error if memory runs out.
fn arrivals_of<'a>(alloc: Global, scripts: &[&'a str]) -> Result<IntoIter<Ends<'a>>, AllocError> {
    let mut coming = Vec::new(alloc);
    for script in scripts {
        let reader = Bytewise {
            rest: script.as_bytes(),
        };
        coming.push((reader, Vec::new(alloc)))?;
    }
    Ok(coming.into_iter())
}

/// Returns the lab file of the path of three with sixteen sessions, in which ben and ana own node 2. Returns an error
/// if memory runs out.
fn document_of_sixteen(alloc: Global) -> Result<String, AllocError> {
    let file = PATH_OF_THREE.replacen(alloc, "sessions = 4", "sessions = 16", 1)?;
    file.replacen(alloc, "owner = \"ben\"", "owners = [\"ben\", \"ana\"]", 1)
}

/// Returns the lab of the file `document_of_sixteen`: the path of three with sixteen sessions. Returns an error if
/// memory runs out.
fn lab_of_sixteen(alloc: Global) -> Result<Lab, Fail> {
    let file = document_of_sixteen(alloc)?;
    Ok(read_lab(alloc, file.as_bytes())?)
}

/// Serves the first `connections` of these scripts over `lab_of_sixteen`, with this gate. The journal goes to `sink`,
/// which must be fresh, and the server's last line to `out`. Returns the result of the house, or the fault because of
/// which there is none. Returns an error (`Fail`) if memory runs out, or the lab has fewer sessions than `connections`.
fn serve<'a, S: Sink + Send + Drop, R: Threads + Wait + Sync, G: Gate + Sync>(
    rt: &R,
    alloc: Global,
    sink: S,
    scripts: &[&'a str],
    connections: u8,
    gate: &G,
    out: &mut Vec<u8>,
) -> Result<Ended<'a, S>, Fail>
    requires fresh { IsFresh (S.contents sink) }
    requires countable { S.failures sink < 2 ^ 64 - 1 }
{
    let arrivals = arrivals_of(alloc, scripts)?;
    let lab = lab_of_sixteen(alloc)?;
    if connections > lab.sessions() {
        return Err(Fail::from("more connections than sessions"));
    }
    Ok(serve_arrivals::<ServerOf<'_, R, S, Bytewise<'a>, Vec<u8>, G>, _, _>(
        rt,
        alloc,
        lab,
        arrivals,
        connections,
        sink,
        gate,
        out,
    ))
}

/// Returns whether the connections are as many as `replies`, are numbered from 1 in their order, and each got exactly
/// its replies.
fn are_answered<S: Drop>(house: &ServedHouse<S, Bytewise<'_>, Vec<u8>>, replies: &[&str]) -> bool {
    let mut number = 0u8;
    for session in house.sessions.iter() {
        let wanted = replies.get(usize::from(number));
        number = number.saturating_add(1);
        let connection = &session.connection;
        let found = connection.writer.as_slice();
        if connection.number != number || wanted.map(|text| text.as_bytes()) != Some(found) {
            return false;
        }
    }
    usize::from(number) == replies.len()
}

/// An outcome of sessions: the replies to each, the journal, and the server's last line.
type Outcome = (&'static [&'static str], &'static str, &'static str);

/// The scripts of a race, the steps at which their sessions wait for each other, how many steps each session takes, and
/// the outcomes that are allowed.
type Race = (
    &'static [&'static str],
    Holds<'static>,
    u64,
    &'static [Outcome],
);

/// Returns whether the outcome of a house is `wanted`. `house` has its journal and the replies to each session. `out`
/// is the last line that the server wrote.
fn is_outcome(
    house: &ServedHouse<MemorySink, Bytewise<'_>, Vec<u8>>,
    out: &[u8],
    wanted: &Outcome,
) -> bool {
    let (replies, journal, last) = wanted;
    house.log.sink.bytes() == journal.as_bytes()
        && out == last.as_bytes()
        && are_answered(house, replies)
}

/// Returns whether the outcome of a house is one of `outcomes`. `house` and `out` are as in `is_outcome`.
fn is_some_outcome(
    house: &ServedHouse<MemorySink, Bytewise<'_>, Vec<u8>>,
    out: &[u8],
    outcomes: &[Outcome],
) -> bool {
    for wanted in outcomes.iter() {
        if is_outcome(house, out, wanted) {
            return true;
        }
    }
    false
}

/// Serves the sessions of a race. Returns whether the outcome is allowed, and each session waited and took steps as the
/// race says. Returns `false` if the sessions couldn't be served to their end.
fn is_run<R: Threads + Wait + Sync>(rt: &R, alloc: Global, race: &Race) -> Result<bool, Fail> {
    let (scripts, holds, steps, outcomes) = race;
    let connections = u8::try_from(scripts.len()).map_err(|_| "too many scripts")?;
    let gate = Steps::new(alloc, connections, *holds)?;
    let mut out = Vec::new(alloc);
    let sink = MemorySink::new(alloc, None);
    let Ok(house) = serve(rt, alloc, sink, scripts, connections, &gate, &mut out)? else {
        return Ok(false);
    };
    Ok(is_some_outcome(&house, &out, outcomes) && gate.were_kept(*steps))
}

// The lines of `scripts::ANA_MOVES`, and a bye.
const ANA_MOVES: &str = lines!(hello("ana", "a-key"), seduction(1), bye);

// The replies to `ANA_MOVES` if the move is the first event.
const ANA_GRANTED: &str = lines!(welcome("ana"), granted(1, 1), left);

// The replies to ana's hello, to a move of a node for which one is chosen already, and to a bye.
const ANA_DENIED: &str = lines!(welcome("ana"), chosen, left);

/// The last line of a house with one chosen move and no close.
const ONE_MOVED: &str = "done: 1 events, configuration 0\n";

/// Ana's hello, a move of node 2, and a bye.
const ANA_MOVES_THE_SECOND: &str = lines!(hello("ana", "a-key"), seduction(2), bye);

/// The replies to `ANA_MOVES_THE_SECOND` if the move is the first event.
const ANA_MOVED_THE_SECOND: &str = lines!(welcome("ana"), granted(2, 1), left);

/// The replies to `BEN_MOVES` if the move is the first event.
const BEN_MOVED: &str = lines!(welcome("ben"), granted(2, 1), left);

/// The replies to `BEN_MOVES` if a move of node 2 is chosen already.
const BEN_DENIED: &str = lines!(welcome("ben"), chosen, left);

/// The replies to `TESS_CLOSES` if the close is the second event, and applies a move of node 1.
const TESS_CLOSED: &str = lines!(welcome("tess"), closed, left);

/// Ana's hello, and sees of nodes 2, 3 and 99.
const LOOKS: &str = lines!(hello("ana", "a-key"), see(2), see(3), see(99));

/// The replies to `LOOKS`: ana owns node 2 here, so its neighbour 3 is shown to her. There is no node 99.
const LOOKED: &str = lines!(
    welcome("ana"),
    seen(0, false, 2, "null"),
    seen(0, false, 3, "null"),
    hidden
);

/// The teacher's hello.
const HELLO: &str = lines!(hello("tess", "chalk"));

/// The reply to `HELLO`.
const WELCOME: &str = lines!(welcome("tess"));

/// The last line of a house without an event.
const NOTHING_DONE: &str = "done: 0 events, configuration 0\n";

/// The second and the third connection wait for each other at each step. At their second line they also wait until the
/// first one has come to its second reply.
const AFTER_A_MOVE: &[(u8, u64, u8, u64)] = &[
    (2, 0, 3, 1),
    (3, 0, 2, 1),
    (2, 1, 3, 2),
    (3, 1, 2, 2),
    (2, 2, 1, 4),
    (3, 2, 1, 4),
    (2, 2, 3, 3),
    (3, 2, 2, 3),
    (2, 3, 3, 4),
    (3, 3, 2, 4),
];

/// The first connection waits at its first reply until the second has come to its second line. The second waits there
/// until the first has come to its second reply.
const IN_ORDER: &[(u8, u64, u8, u64)] = &[(1, 1, 2, 3), (2, 2, 1, 4)];

/// Races, each with its allowed outcomes.
const RACES: &[Race] = &[
    // Two sessions see the same configuration.
    (
        &[LOOKS, LOOKS],
        Holds::Together,
        8,
        &[(&[LOOKED, LOOKED], "", NOTHING_DONE)],
    ),
    // Two sessions ask for a move of the same node: one gets it.
    (
        &[ANA_MOVES, ANA_MOVES],
        Holds::Together,
        6,
        &[
            (&[ANA_GRANTED, ANA_DENIED], ANA_JOURNAL, ONE_MOVED),
            (&[ANA_DENIED, ANA_GRANTED], ANA_JOURNAL, ONE_MOVED),
        ],
    ),
    // Two owners ask for a move of their node: one gets it, and the journal names that owner.
    (
        &[ANA_MOVES_THE_SECOND, BEN_MOVES],
        Holds::Together,
        6,
        &[
            (
                &[ANA_MOVED_THE_SECOND, BEN_DENIED],
                "1 0 grant ana 2 seduction\n",
                ONE_MOVED,
            ),
            (
                &[ANA_DENIED, BEN_MOVED],
                "1 0 grant ben 2 seduction\n",
                ONE_MOVED,
            ),
        ],
    ),
    // Two sessions ask for a close: one applies the move that was chosen before.
    (
        &[ANA_MOVES, TESS_CLOSES, TESS_CLOSES],
        Holds::Each(AFTER_A_MOVE),
        6,
        &[
            (
                &[ANA_GRANTED, TESS_CLOSED, NOTHING_CLOSED],
                CLOSED_JOURNAL,
                ONE_CLOSED,
            ),
            (
                &[ANA_GRANTED, NOTHING_CLOSED, TESS_CLOSED],
                CLOSED_JOURNAL,
                ONE_CLOSED,
            ),
        ],
    ),
    // A close waits until a move was answered, though the close's line came first. The close applies the move.
    (
        &[ANA_MOVES, TESS_CLOSES],
        Holds::Each(IN_ORDER),
        6,
        &[(&[ANA_GRANTED, TESS_CLOSED], CLOSED_JOURNAL, ONE_CLOSED)],
    ),
    // Sixteen sessions of the same participant.
    (
        &[HELLO; 16],
        Holds::Together,
        2,
        &[(&[WELCOME; 16], "", NOTHING_DONE)],
    ),
];

/// Returns the index of the first of `RACES` that doesn't run as it says (`is_run`), or `None` if there is no such
/// race.
fn first_other<R: Threads + Wait + Sync>(rt: &R, alloc: Global) -> Result<Option<usize>, Fail> {
    for (number, race) in RACES.iter().enumerate() {
        if !is_run(rt, alloc, race)? {
            return Ok(Some(number));
        }
    }
    Ok(None)
}

/// Checks that each race has one of its allowed outcomes, and its sessions wait and take steps as the race says.
#[test]
fn held_sessions_are_answered_one_by_one(rt: HostRuntime) -> Result<(), Fail> {
    assert_eq!(rt; first_other(&rt, rt.alloc())?, None);
    Ok(())
}

/// Serves two connections, although three come. Returns whether exactly the first two are served and answered rightly,
/// and the result has their sessions in the order in which they came.
fn are_two_left<R: Threads + Wait + Sync>(rt: &R, alloc: Global) -> Result<bool, Fail> {
    let mut out = Vec::new(alloc);
    let sink = MemorySink::new(alloc, None);
    let scripts = [ANA_MOVES, lines!(bye), lines!(bye)];
    let wanted: Outcome = (&[ANA_GRANTED, lines!(left)], ANA_JOURNAL, ONE_MOVED);
    match serve(rt, alloc, sink, &scripts, 2, &NoGate, &mut out)? {
        Ok(house) => Ok(is_outcome(&house, &out, &wanted)),
        Err(_) => Ok(false),
    }
}

/// Returns whether a server that should serve two connections, of which only one comes, ends with the fault `Accept`,
/// and writes no last line.
fn is_lack_told<R: Threads + Wait + Sync>(rt: &R, alloc: Global) -> Result<bool, Fail> {
    let mut out = Vec::new(alloc);
    let sink = MemorySink::new(alloc, None);
    let one = serve(rt, alloc, sink, &[ANA_MOVES], 2, &NoGate, &mut out)?;
    Ok(matches!(one, Err(ServeFault::Accept)) && out.is_empty())
}

/// Returns two answers about a server for two connections: that of `are_two_left`, for three connections that come, and
/// that of `is_lack_told`, for only one.
fn results_of_arrivals<R: Threads + Wait + Sync>(
    rt: &R,
    alloc: Global,
) -> Result<(bool, bool), Fail> {
    Ok((are_two_left(rt, alloc)?, is_lack_told(rt, alloc)?))
}

/// Checks that a server for two connections serves the first two of the three that come, and returns their sessions in
/// the order in which they came. Also checks that it ends with an error if only one comes.
#[test]
fn connections_are_left_in_the_order_in_which_they_came(rt: HostRuntime) -> Result<(), Fail> {
    assert_eq!(rt; results_of_arrivals(&rt, rt.alloc())?, (true, true));
    Ok(())
}
