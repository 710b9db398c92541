//! The limit on how much is recorded.
//!
//! A participant is known on a connection from a granted hello to the bye. A budget has an account for each
//! participant, in which it counts the bytes that are recorded while this participant is known. One more account is for
//! all who aren't known.
ghost use Rattle.std.specs.Prelude.{◌≡◌, ◌||◌, Bool, false};
ghost use Rattle.mml_session.specs.Turns.{is_hello};

use mml_codec::Reply;

/// Whether the text of an entry may be written.
#[derive(Clone, Copy, PartialEq, Eq, Drop)]
pub enum Taking {
    /// The text may be written.
    Taken,
    /// The text may be written, though the budget is used up, since it is the entry of a hello. Recording pauses after
    /// it.
    Last,
    /// The text may not be written.
    Refused,
}

/// A budget of a record. The budget limits how many bytes are recorded of each participant who is known in a seat. A
/// session goes on whether or not it is recorded.
pub trait Budget {
    // Whether somebody is known, after the replies that were noted.
    ghost known: { Self → Bool };

    // Whether the last of the noted replies grants a hello.
    ghost greeted: { Self → Bool };

    /// Notes the reply to a line. If the reply grants a hello, the participant of this hello is known from then on.
    fn note_answered(&mut self, reply: &Reply)
        ensures known { known self.new ≡ (is_hello reply.now || known self.old) }
        ensures greeted { greeted self.new ≡ is_hello reply.now };

    /// Returns whether somebody is known, after the replies that were noted.
    fn is_known(&self) -> bool
        ensures { result ≡ known self.now };

    /// Returns whether the text of an entry, of this many `bytes`, may be written. If it returns `Taken`, it charges the
    /// text to the account of whoever is known, or to the common account of those who aren't known. Otherwise it charges
    /// nothing. It returns `Last` only for a granted hello, and at most once for each account.
    fn takes_entry(&mut self, bytes: u64) -> Taking
        ensures known { known self.new ≡ known self.old }
        ensures greeted { greeted self.new ≡ greeted self.old };

    /// Returns whether the text of a session's end, of this many `bytes`, may be written. If so, charges it to the
    /// account of whoever is known, or to the common account of those who aren't known. A recorder calls `forget`
    /// afterwards.
    fn takes_end(&mut self, bytes: u64) -> bool;

    /// Forgets who was known. Called at the end of a session.
    fn forget(&mut self)
        ensures known { known self.new ≡ false }
        ensures greeted { greeted self.new ≡ false };
}
