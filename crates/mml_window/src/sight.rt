//! Why a window shows nothing.
//!
//! A window is one session's view of the published events and board. A view is what a see, a look or a report shows. A
//! clause is a condition under which a request is granted. A house is one run of a lab that threads share: its list of
//! granted events, the board after them, and their journal.
use mml_policy::Denial;

/// The error of a window that can't read: its house has ended, or it has no reader's slot.
#[derive(Clone, Copy, PartialEq, Eq)]
pub struct Closed;

/// Why a view shows nothing.
#[derive(Clone, Copy, PartialEq, Eq)]
pub enum SightFault {
    /// A clause doesn't hold.
    Denied(Denial),
    /// Memory ran out. Otherwise the view would be shown.
    Memory,
    /// The house has ended, or the window has no reader's slot.
    Closed,
}
