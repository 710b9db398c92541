//! Connections in memory, which send given texts when given numbers of sessions have ended.
//!
//! A house is one run of a lab that threads share. It serves connections at two ports: the desk, which is the
//! teacher's, and the students' port. Its bell is rung when a session ends.
ghost use Rattle.std.specs.Prelude.{Some};
ghost use Rattle.std.specs.Vec.Iter.{into_iter_items};
ghost use Rattle.mml_hosting.specs.Bringing.{Brings};

use mml_fakes::cycles::cycle;
use mml_fakes::meeting::wait_for;
use mml_hosting::{
    Accept, Accepted, Bell, ClassTypes, CutOff, Hosted, NoReplies, Observed, ServedSession,
};
use mml_journal::MemorySink;
use mml_lab::Lab;
use mml_lab_file::read_lab;
use mml_serving::HangUp;
use mml_session::{NoObserver, SessionTypes};
use std::alloc::{AllocError, Global};
use std::collections::VecDeque;
use std::io;
use std::io::Write;
use std::marker::PhantomData;
use std::sync::Wait;
use std::sync::atomic::{AtomicU64, Ordering};
use std::test::Fail;
use std::thread::Threads;
use std::vec::IntoIter;

/// A bell that counts how often it was rung. The bell is rung for each session that has ended, and for a port that
/// can't be served.
#[derive(Drop)]
pub struct Count(AtomicU64);

impl Count {
    /// Returns a bell that wasn't rung yet.
    pub fn new() -> Count {
        Count(AtomicU64::new(0))
    }
}

impl Bell for Count {
    // Counts one more ring. The parameter, which says whether the class is over, isn't needed here.
    fn ring(&self, _is_dismissed: bool) {
        self.0.fetch_add(1, Ordering::SeqCst);
    }
}

/// A writer in memory, with the number of its connection.
#[derive(Drop)]
pub struct NumberedWriter {
    pub number: u64,
    pub bytes: Vec<u8>,
}

impl Write for NumberedWriter {
    ghost contents = { λ k. Some k.bytes.items };

    // Appends the bytes, and returns how many they are. Returns an error if memory runs out.
    fn write(&mut self, bytes: &[u8]) -> io::Result<usize> {
        self.bytes.write(bytes)
    }

    // Succeeds: all that was written is in memory already.
    fn flush(&mut self) -> io::Result<()> {
        self.bytes.flush()
    }
}

impl HangUp for NumberedWriter {
    // Does nothing: a connection in memory has no other side, and no handle.
    fn hang_up(&mut self) {}
}

impl Observed for NumberedWriter {
    type Replies = NoReplies;

    // Returns an observer that does nothing, since these tests don't observe replies.
    fn reply_observer(&mut self) -> NoReplies {
        NoReplies
    }
}

/// A cut-off that does nothing.
#[derive(Drop)]
pub struct Nothing;

impl CutOff for Nothing {
    // Does nothing: a connection in memory ends by itself.
    fn cut_off(&self) {}
}

/// The two ends of a connection in memory: the bytes that it sends, and the writer that stores what it gets.
pub type TextEnds = (VecDeque<u8>, NumberedWriter);

/// A connection of a test: its number, the text that it sends, and how many sessions must have ended before it comes.
#[derive(Drop)]
pub struct Timed<'a> {
    pub after: u64,
    pub number: u64,
    pub text: &'a str,
}

/// Connections in memory. The connections come in their order, each when its number of sessions has ended.
#[derive(Drop)]
pub struct Texts<'a> {
    coming: IntoIter<TextEnds>,
    times: IntoIter<u64>,
    count: &'a Count,
}

impl<'a> Texts<'a> {
    /// Returns connections that send these texts, in their order. Each comes when `count` has counted as many ended
    /// sessions as its `after` says. Returns an error if memory runs out.
    pub fn of(
        alloc: Global,
        timed: &[Timed<'_>],
        count: &'a Count,
    ) -> Result<Texts<'a>, AllocError> {
        let mut coming = Vec::new(alloc);
        let mut times = Vec::new(alloc);
        for one in timed {
            coming.push(ends_of(alloc, one)?)?;
            times.push(one.after)?;
        }
        Ok(Texts {
            coming: coming.into_iter(),
            times: times.into_iter(),
            count,
        })
    }
}

/// Returns the two ends of the connection `timed`: the bytes to read, which are its text, and a writer with its
/// number, which stores what it gets. Returns an error if memory runs out.
fn ends_of(alloc: Global, timed: &Timed<'_>) -> Result<TextEnds, AllocError> {
    let mut bytes = VecDeque::new(alloc);
    for byte in timed.text.as_bytes() {
        bytes.push_back(*byte)?;
    }
    let kept = NumberedWriter {
        number: timed.number,
        bytes: Vec::new(alloc),
    };
    Ok((bytes, kept))
}

impl<'a> Accept<VecDeque<u8>, NumberedWriter, Nothing> for Texts<'a> {
    ghost to_come = { λ t. Some (into_iter_items t.coming) };

    // Returns the next connection, when as many sessions have ended as its `after` says, or when `wait_for` has given
    // up. Returns `Over` if no connection is left.
    fn accept_next(&mut self) -> Accepted<VecDeque<u8>, NumberedWriter, Nothing>
        ensures { Brings (Some (into_iter_items self.old.coming))
            (Some (into_iter_items self.new.coming)) result }
    {
        if let Some(after) = self.times.next() {
            wait_for(&self.count.0, after);
        }
        match self.coming.next() {
            Some(ends) => Accepted::Came(ends, Nothing),
            None => Accepted::Over,
        }
    }
}

/// Returns a lab of six nodes in a cycle, with at most `events` events and three sessions. Returns an error if memory
/// runs out.
pub fn cycle_of_six(alloc: Global, events: u64) -> Result<Lab, Fail> {
    let text = cycle(alloc, 6, events, 3)?;
    Ok(read_lab(alloc, text.as_bytes())?)
}

/// The types of a class over connections in memory, with a journal in memory and no record. No value of this type is
/// made.
pub struct TextClass<'a, R>(PhantomData<&'a R>);

impl<'a, R: Threads + Wait + Sync> SessionTypes for TextClass<'a, R> {
    type Runtime = R;

    type Sink = MemorySink;

    type Reader = VecDeque<u8>;

    type Writer = NumberedWriter;
}

impl<'a, R: Threads + Wait + Sync> ClassTypes for TextClass<'a, R> {
    type Kept = ServedSession<VecDeque<u8>, NumberedWriter>;

    type Observer = NoObserver;

    type CutOff = Nothing;

    type Desk = Texts<'a>;

    type Others = Texts<'a>;

    type Bell = Count;
}

/// The result of a house over connections in memory, with a journal in memory and no record.
pub type Left = Hosted<MemorySink, ServedSession<VecDeque<u8>, NumberedWriter>, NoObserver>;

/// Returns the bytes that the house sent to the connection with this number, or `None` if the connection wasn't served.
/// `left` is the result of the house.
pub fn sent_to(left: &Left, number: u64) -> Option<&[u8]> {
    for record in left.at_desk.iter().chain(left.others.iter()) {
        for session in record.sessions.iter() {
            if session.writer.number == number {
                return Some(session.writer.bytes.as_slice());
            }
        }
    }
    None
}
