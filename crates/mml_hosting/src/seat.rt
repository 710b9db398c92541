//! Seats: windows through which one connection after another is served.
//!
//! A house is one run of a lab that threads share. A window is one session's view of the published events and board.
//! The desk is the port at which the teacher's bye ends the class. The mark of a seat is a flag that is set when the
//! thread that serves in it is about to end. `setting` has what all sessions share: the runtime, the allocator, and
//! the lock around the house's events and journal. In contracts, `terms` bundles what they are about: the lab, the
//! events from before the house was opened, and what was sent, read, recorded and kept.
ghost use Rattle.std.specs.Prelude.{◌≡◌, ◌&&◌};
ghost use Rattle.mml_session.specs.Records.{EndedRecorded};
ghost use Rattle.mml_hosting.specs.Seats.{IsReady, ServesIn, is_teachers_bye, terms};

use crate::begun::Begun;
use crate::class_types::{ClassTypes, EndsOf, SeatOf};
use crate::marks::set_mark;
use crate::replies::{Both, Observed};
use mml_lab::Who;
use mml_serving::HangUp;
use mml_session::{Ending, SessionEnd, Setting, serve_observed};
use mml_window::Window;
use std::snapshot::Snapshot;
use std::sync::atomic::AtomicU64;

/// A session that has ended: its connection as it came, how it ended, and the connection's two ends.
#[derive(Drop)]
pub struct ServedSession<R: Drop, W: Drop> {
    pub came: Snapshot<(R, W)>,
    pub ending: Ending,
    pub reader: R,
    pub writer: W,
}

/// What a seat keeps of a session after its end.
pub trait Keep<R: Drop, W: Drop>: Sized {
    ghost use Rattle.mml_hosting.specs.declared.seat.ServedSession.{ServedSession};

    // The whole session of which this was kept.
    ghost shows: { Self → ServedSession R W };

    /// Returns what is to be kept of a session, and drops the rest.
    fn keep(session: ServedSession<R, W>) -> Self
        ensures { shows result ≡ session };
}

/// Keeps a whole session.
impl<R: Drop, W: Drop> Keep<R, W> for ServedSession<R, W> {
    ghost shows = { λ s. s };

    // Returns the session itself, since all of it is kept.
    fn keep(session: ServedSession<R, W>) -> ServedSession<R, W>
        ensures { result ≡ session }
    {
        session
    }
}

/// Keeps only a snapshot of a session, which contracts alone can read, so that any number of sessions can be kept.
impl<R: Drop, W: Drop> Keep<R, W> for Snapshot<ServedSession<R, W>> {
    ghost shows = { λ s. s.value };

    // Drops a session that has ended, with its connection's two ends, and returns a snapshot of it, for contracts only.
    fn keep(session: ServedSession<R, W>) -> Snapshot<ServedSession<R, W>>
        ensures { result.value ≡ session }
    {
        Snapshot::of(&session)
    }
}

/// What is known of a seat's service: its number, its sessions, and their observer.
#[derive(Drop)]
pub struct SeatRecord<K: Drop, C: Drop> {
    pub number: u8,
    /// What was kept of each session that was served in the seat, in order.
    pub sessions: Vec<K>,
    /// The observer of the sessions.
    pub observer: C,
}

/// A window through which one connection after another is served, and the record of its service. An observer knows the
/// seat by its number.
#[derive(Drop)]
pub struct Seat<H: Begun, K: Drop, C: Drop> {
    /// Whether this is the seat of the desk, at which the teacher's bye ends the service.
    pub is_desk: bool,
    pub window: Window<H>,
    pub record: SeatRecord<K, C>,
    /// Whether the last session at the desk was ended by the teacher's bye.
    pub is_dismissed: bool,
}

/// Serves a connection (`ends`) in a seat, and closes its writing end. Then sets the seat's mark in `marks`, since the
/// thread won't wait for anything any more. The seat must have memory for the record of one more session. Returns the
/// seat with what is kept of the session. The seat's `is_dismissed` says whether the teacher's bye ended the session at
/// the desk.
pub fn serve_in<Y: ClassTypes, H: Begun>(
    setting: &Setting<'_, Y::Runtime, Y::Sink, H>,
    seat: SeatOf<Y, H>,
    ends: EndsOf<Y>,
    marks: &[AtomicU64],
) -> SeatOf<Y, H>
    requires { IsReady (terms H.lab H.begun H.given Y.Reader.remaining Y.Writer.contents Y.Observer.kept Y.Kept.shows) seat }
    ensures { ServesIn (terms H.lab H.begun H.given Y.Reader.remaining Y.Writer.contents Y.Observer.kept Y.Kept.shows) seat ends result }
{
    let Seat {
        is_desk,
        mut window,
        record,
        is_dismissed: _,
    } = seat;
    let SeatRecord {
        number,
        mut sessions,
        observer,
    } = record;
    let (session, observer) = serve_session::<Y, H>(setting, &mut window, ends, number, observer);
    // From here on this thread waits for nobody, so the thread that joins it doesn't have to wait either.
    set_mark(marks, number, true);
    let is_dismissed = is_dismissed_by(&session.ending, is_desk);
    sessions.push_reserved(Y::Kept::keep(session));
    Seat {
        is_desk,
        window,
        record: SeatRecord {
            number,
            sessions,
            observer,
        },
        is_dismissed,
    }
}

/// Serves a connection through the window of the seat with this number, and closes its writing end. Returns the session
/// that has ended, and the seat's observer.
fn serve_session<Y: ClassTypes, H: Begun>(
    setting: &Setting<'_, Y::Runtime, Y::Sink, H>,
    window: &mut Window<H>,
    ends: EndsOf<Y>,
    number: u8,
    observer: Y::Observer,
) -> (ServedSession<Y::Reader, Y::Writer>, Y::Observer)
    ensures came { result.0.came.value ≡ ends }
    ensures ended { EndedRecorded result.0.ending.end result.0.ending.who number H.lab window.old
        window.new (Y.Reader.remaining ends.0) (Y.Reader.remaining result.0.reader)
        (Y.Writer.contents ends.1) (Y.Writer.contents result.0.writer) (Y.Observer.kept observer)
        (Y.Observer.kept result.1) }
{
    let came = Snapshot::of(&ends);
    let (mut reader, mut writer) = ends;
    let replies = writer.reply_observer();
    let mut both = Both { observer, replies };
    let ending = serve_observed::<Y, H, _>(
        setting,
        window,
        &mut reader,
        &mut writer,
        number,
        &mut both,
    );
    let Both {
        observer,
        replies: _,
    } = both;
    writer.hang_up();
    let session = ServedSession {
        came,
        ending,
        reader,
        writer,
    };
    (session, observer)
}

/// Returns whether a session that ended as `ending` says ends the house: it was at the desk (`is_desk`), and its last
/// line was the teacher's bye.
fn is_dismissed_by(ending: &Ending, is_desk: bool) -> bool
    ensures { result ≡ (is_desk && is_teachers_bye ending.now) }
{
    is_desk && matches!(ending.end, SessionEnd::Bye) && matches!(ending.who, Some(Who::Teacher))
}
