//! The types of a class, bundled into one type parameter.
//!
//! A class is a house whose connections come and go. A house is one run of a lab that threads share: its list of
//! granted events, the board after them, and their journal. It has two ports. At the one port, the desk, the teacher
//! connects. A seat serves one connection after another.
use crate::accepting::{Accept, Bell, CutOff};
use crate::hosted::Hosted;
use crate::replies::Observed;
use crate::seat::{Keep, Seat};
use mml_serving::HangUp;
use mml_session::{Observer, SessionTypes};
use std::thread::Threads;

/// The types that serving a class needs: those of its sessions, which threads share, and further ones. They are bundled
/// so that a function takes them as one type parameter. A caller has to name the bundle, since the compiler can't infer
/// it.
pub trait ClassTypes: SessionTypes<
    Runtime: Threads + Sync,
    Sink: Send,
    Reader: Send + Drop,
    Writer: HangUp + Observed + Send + Drop,
>
    + Send {
    /// What a seat keeps of a session after its end.
    type Kept: Keep<Self::Reader, Self::Writer> + Send + Drop;
    /// The observer of a seat's sessions.
    type Observer: Observer + Send + Drop;
    /// The means by which another thread ends a connection.
    type CutOff: CutOff + Send + Drop;
    /// The desk's port: the source of the teacher's connections.
    type Desk: Accept<Self::Reader, Self::Writer, Self::CutOff> + Send + Drop;
    /// The other port: the source of all other connections.
    type Others: Accept<Self::Reader, Self::Writer, Self::CutOff> + Send + Drop;
    /// The signal by which threads wake the house.
    type Bell: Bell + Sync;
}

/// A seat of a class of these types.
pub type SeatOf<Y, H> = Seat<H, <Y as ClassTypes>::Kept, <Y as ClassTypes>::Observer>;

/// The two ends of a connection of a class of these types.
pub type EndsOf<Y> = (<Y as SessionTypes>::Reader, <Y as SessionTypes>::Writer);

/// The result of a house of a class of these types.
pub type HostedOf<Y> = Hosted<
    <Y as SessionTypes>::Sink,
    <Y as ClassTypes>::Kept,
    <Y as ClassTypes>::Observer,
>;
