//! A port: it accepts connections as they come, and serves each in a seat that is free.
//!
//! A seat serves one connection after another, each in a thread. A seat is busy while it serves one, and otherwise
//! free. The window of a seat is what its sessions have seen of the list of events. The mark of a seat is a flag: it is
//! set when the seat's thread has ended, or is about to end without waiting for anything. A cut-off is the means by
//! which another thread ends a connection. The bell is the signal by which these threads wake the house. A pledge is
//! the contract of a thread's result, which the thread that joins it can rely on. The desk is the port at which the
//! teacher's bye ends the house. `setting` has what all sessions share: the runtime, the allocator, and the lock
//! around the house's events and journal. The lock's field is also called `desk`. `scope` is the scope of the
//! threads: it ends only when all of them have ended.
//!
//! In contracts, `terms` bundles what they are about: the lab, the events from before the house was opened, and what
//! was sent, read, recorded and kept. Clauses with `g` and `h` count the seats and their connections: none is lost or
//! doubled when seats move between lists. The loops over busy seats run over indices, since their invariants speak of
//! the seats before an index. Clauses with lengths and capacities say that no list has to grow.
ghost use Rattle.std.specs.Prelude.{◌≡◌, ◌<◌, ◌≤◌, ◌+◌, ◌^◌, ℕ, true, false, All, IfOk, IfErr, IfSome, IfNone, [], vec_len, vec_capacity};
ghost use Rattle.mml_hosting.specs.Seats.{IsReady, IsSeat, ServesIn, came_to, terms};
ghost use Rattle.mml_hosting.specs.Ports.{ServesPort, TurnsOthersAway};
ghost use Rattle.mml_hosting.specs.Away.{IsTurnedAway, TurnsAway, busy_line};
ghost use Rattle.mml_hosting.specs.Marks.{IsFirstMarked, NoneMarked};
ghost use Rattle.mml_hosting.specs.Counting.{count_free, count_busy, count_in, KeepCounts, TakesIn};

use crate::accepting::{Accept, Accepted, Bell, CutOff};
use crate::begun::Begun;
use crate::class_types::{ClassTypes, EndsOf, SeatOf};
use crate::marks::{Mark, is_marked, set_mark};
use crate::seat::{Keep, Seat, serve_in};
use mml_ids::Memory;
use mml_lines::{WriteFault, put_all};
use mml_serving::HangUp;
use mml_session::{Observer, SessionTypes, Setting};
use mml_window::Desk;
use std::alloc::Global;
use std::io::{Read, Write};
use std::snapshot::Snapshot;
use std::sync::atomic::AtomicU64;
use std::thread;
use std::thread::{Promise, PromisedHandle, Scope};

/// The line that is sent to a connection for which no seat is free.
pub const BUSY: &[u8] = b"{\"refuse\":\"busy\"}\n";

// What a thread promises about its result: this connection was served in this seat.
#[derive(Drop)]
struct SeatPledge<H: Begun, K: Drop, C: Drop, R: Drop, W: Drop>(
    Snapshot<Seat<H, K, C>>,
    Snapshot<(R, W)>,
);

impl<H: Begun, K: Keep<R, W> + Drop, C: Observer + Drop, R: Read + Drop, W: Write + Drop> Promise<
    Seat<H, K, C>,
> for SeatPledge<H, K, C, R, W> {
    ghost use Rattle.mml_hosting.specs.Seats.{ServesIn, terms};

    ghost kept_by = { λ pledge s. ServesIn (terms H.lab H.begun H.given R.remaining W.contents C.kept K.shows) pledge.0.value pledge.1.value s };
}

// A seat in which a thread serves a connection.
#[derive(Drop)]
struct Busy<
    H: Begun,
    K: Keep<R, W> + Drop,
    C: Observer + Drop,
    R: Read + Drop,
    W: Write + Drop,
    U: Drop,
> {
    number: u8,
    // The means to end the connection from the port's thread.
    cut_off: U,
    handle: PromisedHandle<Seat<H, K, C>, SeatPledge<H, K, C, R, W>>,
}

// A busy seat of a class of these types.
type BusyOf<Y, H> = Busy<
    H,
    <Y as ClassTypes>::Kept,
    <Y as ClassTypes>::Observer,
    <Y as SessionTypes>::Reader,
    <Y as SessionTypes>::Writer,
    <Y as ClassTypes>::CutOff,
>;

// The handle of a thread that serves a connection in a seat of a class of these types.
type HandleOf<Y, H> = PromisedHandle<
    SeatOf<Y, H>,
    SeatPledge<
        H,
        <Y as ClassTypes>::Kept,
        <Y as ClassTypes>::Observer,
        <Y as SessionTypes>::Reader,
        <Y as SessionTypes>::Writer,
    >,
>;

/// Returns the index of the first busy seat whose thread has ended, as the marks say. Returns `None` if all threads are
/// still running.
fn first_done<Y: ClassTypes, H: Begun, M: Mark>(
    busy: &Vec<BusyOf<Y, H>>,
    marks: &[M],
) -> Option<usize>
    ensures within { IfSome result (λ index. index < vec_len busy.now) }
    ensures first { IfSome result (IsFirstMarked M.Answers marks.now busy.now.items) }
    ensures none { IfNone result (NoneMarked M.Answers marks.now busy.now.items) }
{
    for candidate in 0..busy.len() {
        if is_marked(marks, busy[candidate].number) {
            return Some(candidate);
        }
    }
    None
}

/// Removes from `busy` the seat at `index`, which must be below the list's length. Drops the seat's cut-off, and waits
/// until its thread has ended. Returns the seat, in which another connection can now be served.
fn join_one<Y: ClassTypes, H: Begun>(
    rt: &Y::Runtime,
    busy: &mut Vec<BusyOf<Y, H>>,
    index: usize,
) -> SeatOf<Y, H>
    requires { index < vec_len busy.old }
    ensures seat { IsSeat (terms H.lab H.begun H.given Y.Reader.remaining Y.Writer.contents Y.Observer.kept Y.Kept.shows) result }
    ensures count { (g : ℕ → ℕ) (h : Y.Reader × Y.Writer → ℕ) →
        count_busy Y.Kept.shows g h busy.new.items + count_in Y.Kept.shows g h result ≡ count_busy Y.Kept.shows g h busy.old.items }
    ensures len { vec_len busy.new + 1 ≡ vec_len busy.old }
    ensures capacity { vec_capacity busy.new ≡ vec_capacity busy.old }
{
    let Busy {
        number: _,
        cut_off,
        handle,
    } = busy.swap_remove(index);
    drop(cut_off);
    let seat = handle.join(rt);
    seat
}

/// Returns the index of the busy seat whose thread is to be joined next. With `marks`, this is the first seat whose
/// thread has ended, or `None` if all threads are still running. Without `marks`, it is the first seat of the list,
/// whose thread may still run, or `None` if the list is empty.
fn next_to_join<Y: ClassTypes, H: Begun, M: Mark>(
    busy: &Vec<BusyOf<Y, H>>,
    marks: Option<&[M]>,
) -> Option<usize>
    ensures some { IfSome result (λ index. index < vec_len busy.now) }
    ensures none { IfNone result (IfNone marks.entry (busy.now.items ≡ [])) }
    ensures first { IfSome marks.entry (λ marks. IfSome result (IsFirstMarked M.Answers marks.now busy.now.items)) }
    ensures unmarked { IfSome marks.entry (λ marks. IfNone result (NoneMarked M.Answers marks.now busy.now.items)) }
{
    match marks {
        Some(marks) => first_done::<Y, H, M>(busy, marks),
        None if busy.is_empty() => None,
        None => Some(0),
    }
}

/// Moves the seats whose threads have ended from `busy` to `free`, which must have room for them. Without `marks`,
/// waits for all threads, and moves all seats. In this case all connections must have been cut off before, so that
/// their threads end.
fn gather<Y: ClassTypes, H: Begun, M: Mark>(
    rt: &Y::Runtime,
    free: &mut Vec<SeatOf<Y, H>>,
    busy: &mut Vec<BusyOf<Y, H>>,
    marks: Option<&[M]>,
)
    requires seats { All (IsSeat (terms H.lab H.begun H.given Y.Reader.remaining Y.Writer.contents Y.Observer.kept Y.Kept.shows)) free.old.items }
    requires room { vec_len free.old + vec_len busy.old ≤ vec_capacity free.old }
    requires cut_off { IfNone marks (All (λ b. Y.CutOff.IsCutOff b.cut_off) busy.old.items) }
    ensures seats { All (IsSeat (terms H.lab H.begun H.given Y.Reader.remaining Y.Writer.contents Y.Observer.kept Y.Kept.shows)) free.new.items }
    ensures count { KeepCounts Y.Kept.shows free.old.items busy.old.items free.new.items busy.new.items }
    ensures len { vec_len free.new + vec_len busy.new ≡ vec_len free.old + vec_len busy.old }
    ensures capacity { vec_capacity free.new ≡ vec_capacity free.old }
    ensures busy_capacity { vec_capacity busy.new ≡ vec_capacity busy.old }
    ensures all { IfNone marks.entry (busy.new.items ≡ []) }
    ensures unmarked { IfSome marks.entry (λ marks. NoneMarked M.Answers marks.now busy.new.items) }
{
    while let Some(index) = next_to_join::<Y, H, M>(busy, marks) {
        free.push_reserved(join_one::<Y, H>(rt, busy, index));
    }
}

/// Takes the last of the free seats, makes it ready for one more session, and returns it. Returns `None` if no seat is
/// free. Also returns `None`, and leaves the seat in the list, if the teacher's bye has ended the seat's service, or
/// memory runs out.
fn next_free<Y: ClassTypes, H: Begun>(free: &mut Vec<SeatOf<Y, H>>) -> Option<SeatOf<Y, H>>
    requires seats { All (IsSeat (terms H.lab H.begun H.given Y.Reader.remaining Y.Writer.contents Y.Observer.kept Y.Kept.shows)) free.old.items }
    ensures ready { IfSome result (IsReady (terms H.lab H.begun H.given Y.Reader.remaining Y.Writer.contents Y.Observer.kept Y.Kept.shows)) }
    ensures seats { All (IsSeat (terms H.lab H.begun H.given Y.Reader.remaining Y.Writer.contents Y.Observer.kept Y.Kept.shows)) free.new.items }
    ensures some { IfSome result (λ seat. (vec_len free.new + 1 ≡ vec_len free.old)
        × ((g : ℕ → ℕ) (h : Y.Reader × Y.Writer → ℕ) → count_free Y.Kept.shows g h free.new.items + count_in Y.Kept.shows g h seat
        ≡ count_free Y.Kept.shows g h free.old.items)) }
    ensures none { IfNone result (vec_len free.new ≡ vec_len free.old) }
    ensures same { IfNone result ((g : ℕ → ℕ) (h : Y.Reader × Y.Writer → ℕ) →
        count_free Y.Kept.shows g h free.new.items ≡ count_free Y.Kept.shows g h free.old.items) }
    ensures capacity { vec_capacity free.new ≡ vec_capacity free.old }
{
    let mut seat = free.pop()?;
    if !make_ready::<Y, H>(&mut seat) {
        free.push_reserved(seat);
        return None;
    }
    Some(seat)
}

/// Makes a seat ready for one more session: reserves memory for that session's record. Returns whether the session may
/// be served there. Returns `false` if the teacher's bye has ended the seat's service, or memory runs out.
fn make_ready<Y: ClassTypes, H: Begun>(seat: &mut SeatOf<Y, H>) -> bool
    requires seat { IsSeat (terms H.lab H.begun H.given Y.Reader.remaining Y.Writer.contents Y.Observer.kept Y.Kept.shows) seat.old }
    ensures seat { IsSeat (terms H.lab H.begun H.given Y.Reader.remaining Y.Writer.contents Y.Observer.kept Y.Kept.shows) seat.new }
    ensures came { came_to Y.Kept.shows seat.new.record ≡ came_to Y.Kept.shows seat.old.record }
    ensures number { seat.new.record.number ≡ seat.old.record.number }
    ensures ready { result ≡ true → IsReady (terms H.lab H.begun H.given Y.Reader.remaining Y.Writer.contents Y.Observer.kept Y.Kept.shows) seat.new }
{
    !seat.is_dismissed && seat.record.sessions.reserve(1).is_ok()
}

/// Sends the line `BUSY` to the connection `ends`, for which no seat is free, and closes it. Returns `WriteFault` if
/// the line wasn't written whole.
#[tactic(auto, unfolding(crate::specs::Away::busy_line))]
fn turn_away<R: Drop, W: Write + HangUp + Drop>(ends: (R, W)) -> Result<(), WriteFault>
    ensures { TurnsAway W.contents W.IsHungUp busy_line ends result }
{
    let (_reader, mut writer) = ends;
    let told = put_all(&mut writer, BUSY);
    writer.hang_up();
    told
}

/// Cuts off the connections of all busy seats, so that their sessions end.
fn cut_off_all<Y: ClassTypes, H: Begun>(busy: &Vec<BusyOf<Y, H>>)
    ensures { All (λ b. Y.CutOff.IsCutOff b.cut_off) busy.now.items }
{
    for index in 0..busy.len() {
        busy[index].cut_off.cut_off();
    }
}

/// Returns 256 marks, one for each number that a seat can have. A mark says that the seat's thread has ended; none is
/// set yet. Returns `Memory` if memory runs out.
fn new_marks(alloc: Global) -> Result<Vec<AtomicU64>, Memory>
    ensures { IfOk result (λ marks. vec_len marks ≡ 2 ^ 8) }
{
    let mut marks = Vec::new(alloc);
    while marks.len() < 256 {
        if marks.push(AtomicU64::new(0)).is_err() {
            return Err(Memory);
        }
    }
    Ok(marks)
}

// What the threads of a port share.
#[derive(Drop)]
struct Shared<'s, Y: ClassTypes, H: Begun> {
    rt: &'s Y::Runtime,
    alloc: Global,
    desk: &'s Desk<Y::Sink, H>,
    bell: &'s Y::Bell,
    // One mark for each number of a seat: it is set once the seat's thread has ended.
    marks: &'s [AtomicU64],
}

impl<'s, Y: ClassTypes + 's, H: Begun + Send + Sync + 's> Shared<'s, Y, H> {
    /// Resets the mark of a seat that is ready for one more session, starts a thread that serves a connection in the
    /// seat, and returns the thread's handle. `ends` are the reader and the writer of the connection. The thread rings
    /// the bell when the session has ended. If no thread can be made, serves the connection in this thread, rings the
    /// bell, and returns the seat as the error. In this case a connection that isn't at the desk is cut off by
    /// `cut_off` before it is served, so that later connections needn't wait for it.
    fn serve_apart<E>(
        &self,
        scope: &Scope<'s, E>,
        seat: SeatOf<Y, H>,
        ends: EndsOf<Y>,
        cut_off: &Y::CutOff,
    ) -> Result<HandleOf<Y, H>, SeatOf<Y, H>>
        requires { IsReady (terms H.lab H.begun H.given Y.Reader.remaining Y.Writer.contents Y.Observer.kept Y.Kept.shows) seat }
        ensures pledged { IfOk result (λ handle. (handle.promise.0.value ≡ seat)
            × (handle.promise.1.value ≡ ends)) }
        ensures served { IfErr result (ServesIn (terms H.lab H.begun H.given Y.Reader.remaining Y.Writer.contents Y.Observer.kept Y.Kept.shows) seat ends) }
        ensures rung { IfErr result (λ s. Y.Bell.IsRung self.now.bell.now s.is_dismissed) }
        ensures cut_off { IfErr result (λ _. seat.is_desk ≡ false → Y.CutOff.IsCutOff cut_off.now) }
    {
        // The thread's closure captures these, since they live as long as the scope; the borrow of `self` needn't.
        let rt = self.rt;
        let alloc = self.alloc;
        let desk = self.desk;
        let bell = self.bell;
        let marks = self.marks;
        let is_desk = seat.is_desk;
        set_mark(marks, seat.record.number, false);
        // For contracts: the seat and the ends as the thread gets them.
        let pledge = SeatPledge(Snapshot::of(&seat), Snapshot::of(&ends));
        match scope.spawn_with(
            pledge,
            move || -> SeatOf<Y, H>
                requires { IsReady (terms H.lab H.begun H.given Y.Reader.remaining Y.Writer.contents Y.Observer.kept Y.Kept.shows) seat }
                ensures served { ServesIn (terms H.lab H.begun H.given Y.Reader.remaining Y.Writer.contents Y.Observer.kept Y.Kept.shows) seat ends result }
                ensures rung { Y.Bell.IsRung bell.entry.now result.is_dismissed }
            {
                let setting = Setting { rt, alloc, desk };
                let seat = serve_in::<Y, H>(&setting, seat, ends, marks);
                bell.ring(seat.is_dismissed);
                seat
            },
        ) {
            Ok(handle) => Ok(handle),
            Err(refused) => {
                if !is_desk {
                    cut_off.cut_off();
                }
                // No thread can be made, so the thread's closure is called here.
                Err((refused.value)())
            }
        }
    }

    /// Takes back the seats whose threads have ended. Then serves a connection (`ends`) in the free seat that
    /// `next_free` returns, as `serve_apart` does. If no thread can be made, the session is over when this returns, and
    /// its seat is free again. If `next_free` returns `None`, turns the connection away. `cut_off` is the means to end
    /// the connection from the port's thread. Both lists must have room for all seats.
    #[tactic(auto, using(std::proofs::lemmas::Bool::Decides::nat_tests, std::proofs::lemmas::List::Sums::sum_by_push))]
    fn take_in<E>(
        &self,
        scope: &Scope<'s, E>,
        free: &mut Vec<SeatOf<Y, H>>,
        busy: &mut Vec<BusyOf<Y, H>>,
        ends: EndsOf<Y>,
        cut_off: Y::CutOff,
    )
        requires seats { All (IsSeat (terms H.lab H.begun H.given Y.Reader.remaining Y.Writer.contents Y.Observer.kept Y.Kept.shows)) free.old.items }
        requires room { vec_len free.old + vec_len busy.old ≤ vec_capacity free.old }
        requires busy_room { vec_len free.old + vec_len busy.old ≤ vec_capacity busy.old }
        ensures seats { All (IsSeat (terms H.lab H.begun H.given Y.Reader.remaining Y.Writer.contents Y.Observer.kept Y.Kept.shows)) free.new.items }
        ensures takes { TakesIn Y.Kept.shows (IsTurnedAway Y.Writer.contents Y.Writer.IsHungUp) ends free.old.items busy.old.items
            free.new.items busy.new.items }
        ensures len { vec_len free.new + vec_len busy.new ≡ vec_len free.old + vec_len busy.old }
        ensures capacity { vec_capacity free.new ≡ vec_capacity free.old }
        ensures busy_capacity { vec_capacity busy.new ≡ vec_capacity busy.old }
    {
        gather::<Y, H, AtomicU64>(self.rt, free, busy, Some(self.marks));
        let Some(seat) = next_free::<Y, H>(free) else {
            // The other side may be gone.
            let _ = turn_away(ends);
            return;
        };
        let number = seat.record.number;
        match self.serve_apart(scope, seat, ends, &cut_off) {
            Ok(handle) => busy.push_reserved(Busy {
                number,
                cut_off,
                handle,
            }),
            Err(seat) => free.push_reserved(seat),
        }
    }

    /// Accepts connections from `arrivals`, and serves them in `seats`, until no more are to be served. Then cuts off
    /// those that are still served, waits for their threads, and returns all seats. Returns `Memory`, and serves
    /// nobody, if memory runs out at the beginning.
    #[tactic(auto, using(crate::proofs::PortLemmas::nothing_yet, crate::proofs::PortLemmas::nobody_came))]
    fn serve_until_over<E, A: Accept<Y::Reader, Y::Writer, Y::CutOff> + Drop>(
        &self,
        scope: &Scope<'s, E>,
        seats: Vec<SeatOf<Y, H>>,
        arrivals: A,
    ) -> Result<Vec<SeatOf<Y, H>>, Memory>
        requires seats { All (IsSeat (terms H.lab H.begun H.given Y.Reader.remaining Y.Writer.contents Y.Observer.kept Y.Kept.shows)) seats.items }
        ensures serves { IfOk result (λ ps. ServesPort (terms H.lab H.begun H.given Y.Reader.remaining Y.Writer.contents Y.Observer.kept Y.Kept.shows)
            (A.to_come arrivals) seats.items ps.items) }
        ensures away { IfOk result (λ ps. TurnsOthersAway (terms H.lab H.begun H.given Y.Reader.remaining Y.Writer.contents Y.Observer.kept Y.Kept.shows)
            Y.Writer.IsHungUp (A.to_come arrivals) seats.items ps.items) }
    {
        let mut arrivals = arrivals;
        let mut free = seats;
        let mut busy = Vec::with_capacity(self.alloc, free.len())?;
        // Allocates nothing. By its contract the list has room for each seat that is put back.
        free.reserve(0)?;
        // For a loop over `forever()`, no end has to be proved. `break` leaves it.
        for _ in self.rt.forever() {
            match arrivals.accept_next() {
                Accepted::Came(ends, cut_off) => self.take_in(
                    scope, &mut free, &mut busy, ends, cut_off,
                ),
                Accepted::Nobody => gather::<Y, H, AtomicU64>(
                    self.rt,
                    &mut free,
                    &mut busy,
                    Some(self.marks),
                ),
                Accepted::Over => break,
            }
        }
        // The connections that still wait at the port are dropped before the threads are waited for.
        drop(arrivals);
        cut_off_all::<Y, H>(&busy);
        gather::<Y, H, AtomicU64>(self.rt, &mut free, &mut busy, None);
        Ok(free)
    }
}

/// Serves a port. Accepts connections from `arrivals` as they come. Serves each in a thread of its own in a free one of
/// `seats`, or turns it away if no seat is free. Rings `bell` at the end of each session. When no more connections are
/// to be served, cuts off those that are still served, waits for their threads, and returns the seats. If no thread can
/// be made for a connection at the desk, serves it in this thread; any other one is ended before anything is read.
/// Returns `Memory`, and serves nobody, if memory runs out at the beginning.
pub fn serve_port<
    Y: ClassTypes,
    H: Begun + Send + Sync,
    A: Accept<Y::Reader, Y::Writer, Y::CutOff> + Drop,
>(
    setting: &Setting<'_, Y::Runtime, Y::Sink, H>,
    seats: Vec<SeatOf<Y, H>>,
    arrivals: A,
    bell: &Y::Bell,
) -> Result<Vec<SeatOf<Y, H>>, Memory>
    requires seats { All (IsSeat (terms H.lab H.begun H.given Y.Reader.remaining Y.Writer.contents Y.Observer.kept Y.Kept.shows)) seats.items }
    ensures serves { IfOk result (λ ps. ServesPort (terms H.lab H.begun H.given Y.Reader.remaining Y.Writer.contents Y.Observer.kept Y.Kept.shows)
        (A.to_come arrivals) seats.items ps.items) }
    ensures away { IfOk result (λ ps. TurnsOthersAway (terms H.lab H.begun H.given Y.Reader.remaining Y.Writer.contents Y.Observer.kept Y.Kept.shows)
        Y.Writer.IsHungUp (A.to_come arrivals) seats.items ps.items) }
{
    let rt = setting.rt;
    let alloc = setting.alloc;
    let desk = setting.desk;
    let marks = new_marks(alloc)?;
    let marks = marks.as_slice();
    thread::scope(
        thread::scope_env(),
        rt,
        |scope| -> Result<Vec<SeatOf<Y, H>>, Memory>
            requires { All (IsSeat (terms H.lab H.begun H.given Y.Reader.remaining Y.Writer.contents Y.Observer.kept Y.Kept.shows)) seats.items }
            ensures serves { IfOk result (λ ps. ServesPort (terms H.lab H.begun H.given Y.Reader.remaining Y.Writer.contents Y.Observer.kept Y.Kept.shows)
                (A.to_come arrivals) seats.items ps.items) }
            ensures away { IfOk result (λ ps. TurnsOthersAway (terms H.lab H.begun H.given Y.Reader.remaining Y.Writer.contents Y.Observer.kept Y.Kept.shows)
                Y.Writer.IsHungUp (A.to_come arrivals) seats.items ps.items) }
        {
            let shared: Shared<'_, Y, H> = Shared {
                rt,
                alloc,
                desk,
                bell,
                marks,
            };
            shared.serve_until_over(scope, seats, arrivals)
        },
    )
}
