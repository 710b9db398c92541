//! Connections, each served in a thread of its own through a window of its own, as they come.
//!
//! A window is one session's view of the published events and board. A seat is a connection with its window. A window
//! is fresh if it has seen nothing and was granted nothing. A pledge is the contract of a thread's result, which the
//! thread that joins it can rely on. `setting` has what all sessions share: the runtime, the allocator, and the desk,
//! which decides acts, the requests for events. `scope` is the scope of the threads: it ends only when all of them
//! have ended.
//!
//! Values are dropped by calls of `drop` before a function returns, which keeps the proofs short.
ghost use Rattle.std.specs.Prelude.{◌≡◌, ◌≢◌, ◌<◌, ◌≤◌, ◌+◌, [], ◌∷◌, All, IfOk, OnOk, length, map};
ghost use Rattle.mml_window.specs.Windows.{window};
ghost use Rattle.mml_serving.specs.Arriving.{Takes};
ghost use Rattle.mml_serving.specs.Serving.{Each, IsServed, Numbered, ServesAll, ends_of};

use crate::arrivals::{Arrivals, HangUp, LetGo};
use crate::connection::{Connection, EndedSession};
use crate::server_types::{EndedOf, ServerTypes};
use mml_session::{SessionTypes, Setting, serve_one};
use mml_window::{Desk, House, Window};
use std::alloc::Global;
use std::io::{ErrorKind, Read, Write};
use std::snapshot::Snapshot;
use std::thread;
use std::thread::{Promise, PromisedHandle, Scope, Threads};

/// Why no more connections were served.
#[derive(Clone, Copy)]
pub(crate) enum SeatingFault {
    /// Memory ran out, or no thread could be made.
    Memory,
    /// A connection couldn't be accepted.
    Accept,
}

// A connection, and the window through which it is to be served.
#[derive(Drop)]
struct Seated<H: House, R: Drop, W: Drop> {
    window: Window<H>,
    connection: Connection<R, W>,
}

// A connection of a server of these types, and its window.
type SeatedOf<Y, H> = Seated<H, <Y as SessionTypes>::Reader, <Y as SessionTypes>::Writer>;

// The handle of a thread that serves a connection of a server of these types.
type HandleOf<Y, H> = PromisedHandle<
    (Window<H>, EndedOf<Y>),
    ConnectionPledge<<Y as SessionTypes>::Reader, <Y as SessionTypes>::Writer>,
>;

/// Serves the next `connections` connections of `arrivals`, each in a thread of its own and through one of `windows`.
/// The windows must be fresh, and enough for all connections. Returns the used windows, and how the sessions ended,
/// both in the order in which the connections came. Returns `Memory` if memory runs out or no thread can be started,
/// and `Accept` if accepting fails for another reason. All threads have ended when it returns, even after an error.
/// `gate` can pause the sessions, for tests.
pub(crate) fn serve_all<
    Y: ServerTypes,
    H: House + Send + Sync,
    A: Arrivals<Y::Reader, Y::Writer> + Drop,
>(
    setting: &Setting<'_, Y::Runtime, Y::Sink, H>,
    windows: Vec<Window<H>>,
    arrivals: A,
    connections: u8,
    gate: &Y::Gate,
) -> Result<(Vec<Window<H>>, Vec<EndedOf<Y>>), SeatingFault>
    requires fresh { All (λ w. w ≡ window [] []) windows.items }
    requires few { connections ≤ length windows.items }
    ensures { IfOk result (λ parts. ServesAll H.lab Y.Reader.remaining Y.Writer.contents
        (A.to_come arrivals) connections parts.1.items parts.0.items) }
{
    let rt = setting.rt;
    let alloc = setting.alloc;
    let desk = setting.desk;
    thread::scope(
        thread::scope_env(),
        rt,
        |scope| -> Result<(Vec<Window<H>>, Vec<EndedOf<Y>>), SeatingFault>
            requires { All (λ w. w ≡ window [] []) windows.items
                × (connections ≤ length windows.items) }
            ensures { IfOk result (λ parts. ServesAll H.lab Y.Reader.remaining Y.Writer.contents
                (A.to_come arrivals) connections parts.1.items parts.0.items) }
        {
            let shared: Shared<'_, Y, H> = Shared {
                rt,
                alloc,
                desk,
                gate,
            };
            shared.serve_each(scope, windows, arrivals, connections)
        },
    )
}

// What the threads of a server share.
#[derive(Drop)]
struct Shared<'s, Y: ServerTypes, H: House> {
    rt: &'s Y::Runtime,
    alloc: Global,
    desk: &'s Desk<Y::Sink, H>,
    gate: &'s Y::Gate,
}

impl<'s, Y: ServerTypes + 's, H: House + Send + Sync + 's> Shared<'s, Y, H> {
    /// Accepts the next `connections` connections of `arrivals`, and serves each in a thread of its own and through one
    /// of `windows`. The windows must be fresh, and enough for all connections. Waits until all threads have ended, and
    /// returns the used windows and the ended sessions, both in the order in which the connections came. Returns
    /// `Memory` if memory runs out or no thread can be started, and `Accept` if accepting fails for another reason.
    /// After an error it doesn't wait for the threads; the end of `scope` does.
    fn serve_each<E, A: Arrivals<Y::Reader, Y::Writer> + Drop>(
        &self,
        scope: &Scope<'s, E>,
        windows: Vec<Window<H>>,
        arrivals: A,
        connections: u8,
    ) -> Result<(Vec<Window<H>>, Vec<EndedOf<Y>>), SeatingFault>
        requires fresh { All (λ w. w ≡ window [] []) windows.items }
        requires few { connections ≤ length windows.items }
        ensures { IfOk result (λ parts. ServesAll H.lab Y.Reader.remaining Y.Writer.contents
            (A.to_come arrivals) connections parts.1.items parts.0.items) }
    {
        let mut arrivals = arrivals;
        let mut windows = windows;
        match self.start_each(scope, &mut windows, &mut arrivals, connections) {
            Ok(handles) => {
                // Connections after the last one are closed at once.
                drop(arrivals);
                let served = join_all(self.rt, self.alloc, handles);
                drop(windows);
                served
            }
            Err(fault) => {
                drop(windows);
                drop(arrivals);
                Err(fault)
            }
        }
    }

    /// Accepts the next `connections` connections of `arrivals`, and starts a thread for each, which serves it through
    /// a window taken from `windows`. The windows must be fresh, and enough for all connections. Returns the threads'
    /// handles in the order in which the connections came. Returns `Memory` if memory runs out or no thread can be
    /// started, and `Accept` if accepting fails for another reason.
    #[tactic(auto, using(crate::proofs::ServingLemmas::one_more))]
    fn start_each<E, A: Arrivals<Y::Reader, Y::Writer>>(
        &self,
        scope: &Scope<'s, E>,
        windows: &mut Vec<Window<H>>,
        arrivals: &mut A,
        connections: u8,
    ) -> Result<Vec<HandleOf<Y, H>>, SeatingFault>
        requires fresh { All (λ w. w ≡ window [] []) windows.old.items }
        requires few { connections ≤ length windows.old.items }
        ensures count { IfOk result (λ handles. length handles.items ≡ connections) }
        ensures numbered { IfOk result (λ handles. Numbered 1 (map (λ h. h.promise.0.value) handles.items)) }
        ensures came { IfOk result (λ handles. Takes (A.to_come arrivals.old) (A.to_come arrivals.new)
            (map ends_of (map (λ h. h.promise.0.value) handles.items))) }
    {
        let Ok(mut handles) = Vec::with_capacity(self.alloc, usize::from(connections)) else {
            return Err(SeatingFault::Memory);
        };
        for index in 0..connections {
            let seat = next_seat(arrivals, windows, index + 1)?;
            let handle = self.serve_apart(scope, seat)?;
            handles.push_reserved(handle);
        }
        Ok(handles)
    }

    /// Starts a thread in `scope` that serves the connection of a seat, whose window must be fresh. Returns the
    /// thread's handle. Returns `Memory`, and doesn't serve the connection, if no thread could be made.
    fn serve_apart<E>(
        &self,
        scope: &Scope<'s, E>,
        seat: SeatedOf<Y, H>,
    ) -> Result<HandleOf<Y, H>, SeatingFault>
        requires fresh { seat.window ≡ window [] [] }
        ensures { IfOk result (λ handle. handle.promise.0.value ≡ seat.connection) }
    {
        // The thread's closure captures these, since they live as long as the scope; the borrow of `self` needn't.
        let rt = self.rt;
        let alloc = self.alloc;
        let desk = self.desk;
        let gate = self.gate;
        // For contracts: the connection as the thread gets it.
        let pledge = ConnectionPledge(Snapshot::of(&seat.connection));
        match scope.spawn_with(
            pledge,
            move || -> (Window<H>, EndedOf<Y>)
                requires { seat.window ≡ window [] [] }
                ensures { IsServed H.lab Y.Reader.remaining Y.Writer.contents seat.connection
                    result.1 result.0 }
            { serve_seated::<Y, H>(rt, alloc, desk, seat, gate) },
        ) {
            Ok(handle) => Ok(handle),
            Err(refused) => {
                drop(refused.value);
                Err(SeatingFault::Memory)
            }
        }
    }
}

// The contract of a thread's result: the connection was served to its end, through a window that had seen nothing.
#[derive(Drop)]
struct ConnectionPledge<R: Drop, W: Drop>(Snapshot<Connection<R, W>>);

impl<H: House, R: Read + Drop, W: Write + Drop> Promise<(Window<H>, EndedSession<R, W>)>
    for ConnectionPledge<R, W> {
    ghost use Rattle.mml_serving.specs.Serving.{IsServed};

    ghost kept_by = { λ pledge t. IsServed H.lab R.remaining W.contents pledge.0.value t.1 t.0 };
}

/// Accepts the next connection of `arrivals`, and takes a window for it from `windows`, which must not be empty.
/// Returns both, with `number` as the connection's number. Returns an error if no connection could be accepted.
fn next_seat<H: House, R: Read + Drop, W: Write + Drop, A: Arrivals<R, W>>(
    arrivals: &mut A,
    windows: &mut Vec<Window<H>>,
    number: u8,
) -> Result<Seated<H, R, W>, SeatingFault>
    requires fresh { All (λ w. w ≡ window [] []) windows.old.items }
    requires some { 0 < length windows.old.items }
    ensures taken { IfOk result (λ seat. Takes (A.to_come arrivals.old) (A.to_come arrivals.new)
        (ends_of seat.connection ∷ [])) }
    ensures number { IfOk result (λ seat. seat.connection.number ≡ number) }
    ensures seated { IfOk result (λ seat. seat.window ≡ window [] []) }
    ensures fresh { OnOk result (All (λ w. w ≡ window [] []) windows.new.items) }
    ensures left { OnOk result (length windows.old.items ≤ length windows.new.items + 1) }
{
    let (reader, writer) = accept(arrivals)?;
    match windows.pop() {
        Some(window) => Ok(Seated {
            window,
            connection: Connection {
                number,
                reader,
                writer,
            },
        }),
        None => unreachable!(),
    }
}

/// Accepts the next connection of `arrivals`. Returns its reading and its writing end, or why none could be accepted.
fn accept<R: Read + Drop, W: Write + Drop, A: Arrivals<R, W>>(
    arrivals: &mut A,
) -> Result<(R, W), SeatingFault>
    ensures { IfOk result (λ taken.
        Takes (A.to_come arrivals.old) (A.to_come arrivals.new) (taken ∷ [])) }
{
    match arrivals.accept_next() {
        Ok(ends) => Ok(ends),
        Err(error) => Err(accept_fault(error.kind())),
    }
}

/// Returns the fault for an accept that failed with this kind of error: `Memory` if memory ran out, and else `Accept`.
fn accept_fault(kind: ErrorKind) -> SeatingFault
    ensures memory { kind ≡ ErrorKind.OutOfMemory → result ≡ SeatingFault.Memory }
    ensures other { kind ≢ ErrorKind.OutOfMemory → result ≡ SeatingFault.Accept }
{
    match kind {
        ErrorKind::OutOfMemory => SeatingFault::Memory,
        _ => SeatingFault::Accept,
    }
}

/// Serves the connection of a seat, whose window must be fresh, and closes both of its ends as soon as its session has
/// ended. So neither the other side nor the system has to wait for other sessions. Returns the seat's window, and how
/// the session ended, with the connection's two ends. `gate` can pause the session, for tests.
fn serve_seated<Y: ServerTypes, H: House>(
    rt: &Y::Runtime,
    alloc: Global,
    desk: &Desk<Y::Sink, H>,
    seat: SeatedOf<Y, H>,
    gate: &Y::Gate,
) -> (Window<H>, EndedOf<Y>)
    requires fresh { seat.window ≡ window [] [] }
    ensures served { IsServed H.lab Y.Reader.remaining Y.Writer.contents seat.connection
        result.1 result.0 }
    ensures hung_up { Y.Writer.IsHungUp result.1.connection.writer }
    ensures let_go { Y.Reader.IsLetGo result.1.connection.reader }
{
    let Seated {
        mut window,
        connection,
    } = seat;
    let Connection {
        number,
        mut reader,
        mut writer,
    } = connection;
    let end = serve_one(
        rt,
        alloc,
        desk,
        &mut window,
        &mut reader,
        &mut writer,
        gate,
        number,
    );
    writer.hang_up();
    reader.let_go();
    let connection = Connection {
        number,
        reader,
        writer,
    };
    (window, EndedSession { end, connection })
}

/// Waits until all threads have ended. Returns their windows and their sessions, both in the order of `handles`.
/// Returns `Memory`, without waiting, if memory for the two lists runs out.
fn join_all<Rt: Threads, H: House, R: Read + Drop, W: Write + Drop>(
    rt: &Rt,
    alloc: Global,
    handles: Vec<PromisedHandle<(Window<H>, EndedSession<R, W>), ConnectionPledge<R, W>>>,
) -> Result<(Vec<Window<H>>, Vec<EndedSession<R, W>>), SeatingFault>
    ensures { IfOk result (λ parts. Each (IsServed H.lab R.remaining W.contents)
        (map (λ h. h.promise.0.value) handles.items) parts.1.items parts.0.items) }
{
    let Ok(mut windows) = Vec::with_capacity(alloc, handles.len()) else {
        drop(handles);
        return Err(SeatingFault::Memory);
    };
    let Ok(mut sessions) = Vec::with_capacity(alloc, handles.len()) else {
        drop(windows);
        drop(handles);
        return Err(SeatingFault::Memory);
    };
    for handle in handles {
        let (window, session) = handle.join(rt);
        windows.push_reserved(window);
        sessions.push_reserved(session);
    }
    Ok((windows, sessions))
}
