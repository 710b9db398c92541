//! The types of a session, bundled into one type parameter.
use mml_journal::Sink;
use std::io::{Read, Write};
use std::marker::PhantomData;
use std::sync::Wait;

/// The types that serving a session needs, bundled so that a function takes them as one type parameter. A caller has to
/// name the bundle, since the compiler can't infer it. A server of several sessions extends this trait by its own types.
pub trait SessionTypes {
    /// The runtime, which lets a thread wait for a lock.
    type Runtime: Wait;
    /// The sink to which the journal is written.
    type Sink: Sink + Drop;
    /// The reading end of the connection.
    type Reader: Read;
    /// The writing end of the connection.
    type Writer: Write;
}

/// The types of a session with a runtime `Rt`, a journal's sink `S`, and a connection whose ends are `R` and `W`. It
/// has no values, since only its types are used.
pub(crate) struct SessionOf<Rt, S, R, W>(PhantomData<(Rt, S, R, W)>);

impl<Rt: Wait, S: Sink + Drop, R: Read, W: Write> SessionTypes for SessionOf<Rt, S, R, W> {
    type Runtime = Rt;

    type Sink = S;

    type Reader = R;

    type Writer = W;
}
