//! The types of a server, bundled into one type parameter.
use crate::arrivals::{HangUp, LetGo};
use crate::connection::EndedSession;
use crate::serving::ServedHouse;
use mml_journal::Sink;
use mml_session::{Gate, SessionTypes};
use std::marker::PhantomData;
use std::sync::Wait;
use std::thread::Threads;

/// The types that a server needs to serve several sessions, each in a thread of its own. They are bundled so that a
/// function takes them as one type parameter. A caller has to name the bundle, since the compiler can't infer it.
pub trait ServerTypes: SessionTypes<
    Runtime: Threads + Sync,
    Sink: Send,
    Reader: LetGo + Send + Drop,
    Writer: HangUp + Send + Drop,
>
    + Send {
    /// The gate, at which tests can stop the sessions.
    type Gate: Gate + Sync;
}

/// A session of a server of these types that has ended.
pub type EndedOf<Y> = EndedSession<<Y as SessionTypes>::Reader, <Y as SessionTypes>::Writer>;

/// The result of a house of a server of these types.
pub type ServedHouseOf<Y> = ServedHouse<
    <Y as SessionTypes>::Sink,
    <Y as SessionTypes>::Reader,
    <Y as SessionTypes>::Writer,
>;

/// The types of a server with a runtime `Rt`, a journal's sink `S`, connections whose ends are `R` and `W`, and a gate
/// `G`. It has no values.
pub struct ServerOf<'a, Rt, S, R, W, G>(PhantomData<(&'a Rt, S, R, W, &'a G)>);

impl<
    'a,
    Rt: Threads + Wait + Sync,
    S: Sink + Drop + Send,
    R: LetGo + Send + Drop,
    W: HangUp + Send + Drop,
    G: Gate + Sync,
> SessionTypes for ServerOf<'a, Rt, S, R, W, G> {
    type Runtime = Rt;

    type Sink = S;

    type Reader = R;

    type Writer = W;
}

impl<
    'a,
    Rt: Threads + Wait + Sync,
    S: Sink + Drop + Send,
    R: LetGo + Send + Drop,
    W: HangUp + Send + Drop,
    G: Gate + Sync,
> ServerTypes for ServerOf<'a, Rt, S, R, W, G> {
    type Gate = G;
}
