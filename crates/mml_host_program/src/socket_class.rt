//! The types of a class that is served over sockets, bundled as one type parameter.
use crate::system::System;
use mml_hosting::ClassTypes;
use mml_journal::Sink;
use mml_ports::{EndBell, Incoming, Port, ReplyWriter, SocketCutOff, SocketSession};
use mml_session::{Observer, SessionTypes};
use std::marker::PhantomData;

/// The types of a class that is served over sockets, with a runtime `R`, a journal's sink `S` and observers `C`. No
/// value of this type is made.
pub(crate) struct SocketClass<'a, R, S, C>(PhantomData<(&'a R, S, C)>);

impl<'a, R: System, S: Sink + Send + Drop, C: Observer + Send + Drop> SessionTypes
    for SocketClass<'a, R, S, C> {
    type Runtime = R;

    type Sink = S;

    type Reader = Incoming<'a, R>;

    type Writer = ReplyWriter<'a, R>;
}

impl<'a, R: System, S: Sink + Send + Drop, C: Observer + Send + Drop> ClassTypes
    for SocketClass<'a, R, S, C> {
    type Kept = SocketSession<'a, R>;

    type Observer = C;

    type CutOff = SocketCutOff<'a, R>;

    type Desk = Port<'a, R>;

    type Others = Port<'a, R>;

    type Bell = EndBell<'a, R>;
}
