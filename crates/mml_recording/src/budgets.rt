//! Limits on how many bytes are recorded of each participant.
//!
//! A record has entries: a line with its reply, a session's end, or a note that something is left out. An account is
//! known on a connection from its granted hello to its bye. Each account has a budget, the number of bytes that its
//! entries may have. All connections on which nobody is known share one budget. A seat is a part of the server that
//! serves one connection after another.
ghost use Rattle.std.specs.Prelude.{◌≡◌, is_some};

use mml_codec::Reply;
use mml_files::FileFault;
use mml_lab::{Lab, Who};
use mml_record::{Budget, Taking};
use std::alloc::Global;
use std::sync::Arc;
use std::sync::atomic::{AtomicBool, AtomicU64, Ordering};

/// How many bytes of entries may be recorded of each participant while a class runs, in the files of all seats
/// together. The same limit holds for all connections together on which nobody is known.
pub const BUDGET: u64 = 8 << 20;

/// How many bytes of entries may be recorded of one connection while nobody is known there.
pub const STRANGER: u64 = 64 << 10;

// How many bytes beyond `BUDGET` may be spent on the ends of sessions.
const ENDS: u64 = 64 << 10;

// How many bytes were recorded of one participant, and whether an entry of this participant was refused already. If one
// was, recording has paused, or is about to, in each session in which the participant is known.
#[derive(Drop)]
struct Spending {
    /// How many bytes were recorded of the participant.
    spent: AtomicU64,
    /// Whether an entry of the participant was refused already.
    is_refused: AtomicBool,
}

/// How many bytes were recorded of each participant, and of connections on which nobody is known.
#[derive(Drop)]
pub struct Budgets {
    // The teacher's account first, and then the students' in the roster's order.
    accounts: Vec<Spending>,
    unknown: AtomicU64,
}

impl Budgets {
    /// Returns the budgets of a class of the lab, before anything was recorded. Returns an error if memory runs out.
    pub fn new(alloc: Global, lab: &Lab) -> Result<Budgets, FileFault> {
        let mut accounts = Vec::new(alloc);
        accounts.push(Spending::new())?;
        for _ in 0..lab.roster().student_count() {
            accounts.push(Spending::new())?;
        }
        Ok(Budgets {
            accounts,
            unknown: AtomicU64::new(0),
        })
    }

    /// Returns the counter of the bytes that were recorded of the participant whose account has this index. For `None`,
    /// and for an index without an account, returns the counter of all connections on which nobody is known.
    fn spent_by(&self, account: Option<usize>) -> &AtomicU64 {
        match account {
            Some(index) => match self.accounts.get(index) {
                Some(account) => &account.spent,
                None => &self.unknown,
            },
            None => &self.unknown,
        }
    }
}

impl Spending {
    /// Returns the spending of a participant of whom nothing was recorded or refused yet.
    fn new() -> Spending {
        Spending {
            spent: AtomicU64::new(0),
            is_refused: AtomicBool::new(false),
        }
    }
}

/// Returns the index of a participant's account in `Budgets`: 0 for the teacher, and from 1 on for the students, in the
/// roster's order.
fn index_of(who: Who) -> usize {
    match who {
        Who::Teacher => 0,
        Who::Student(student) => usize::from(student.index()) + 1,
    }
}

/// The budgets as one seat uses them. The replies in the seat say who is known there, and this participant is charged.
#[derive(Drop)]
pub struct SeatBudget {
    budgets: Arc<Budgets, Global>,
    account: Option<usize>,
    // Whether the last reply that was noted grants a hello.
    is_greeted: bool,
    // How many bytes of entries were recorded in this session while nobody was known.
    unknown_here: u64,
}

impl SeatBudget {
    /// Returns the budget of a seat in which nobody is known yet. `budgets` are those of the class, which all seats
    /// share.
    pub fn new(budgets: Arc<Budgets, Global>) -> SeatBudget {
        SeatBudget {
            budgets,
            account: None,
            is_greeted: false,
            unknown_here: 0,
        }
    }

    /// Adds this many `bytes` to the counter of the participant who is known, or to the common counter if nobody is,
    /// and returns `true`. If the counter would then exceed `most`, adds nothing, and returns `false`.
    fn charge(&self, bytes: u64, most: u64) -> bool {
        let spent = self.budgets.spent_by(self.account);
        spent
            .fetch_update(Ordering::SeqCst, Ordering::SeqCst, |spent| {
                let after = spent.saturating_add(bytes);
                if after <= most { Some(after) } else { None }
            })
            .is_ok()
    }

    /// Returns whether an entry of this many `bytes` may be written while nobody is known. If so, charges the entry to
    /// the common counter. An entry may be written if such entries then have at most `STRANGER` bytes on this
    /// connection, and at most `BUDGET` on all connections together.
    fn takes_unknown(&mut self, bytes: u64) -> bool
        ensures known { self.new.account ≡ self.old.account }
        ensures greeted { self.new.is_greeted ≡ self.old.is_greeted }
    {
        let here = self.unknown_here.saturating_add(bytes);
        if here > STRANGER || !self.charge(bytes, BUDGET) {
            return false;
        }
        self.unknown_here = here;
        true
    }

    /// Decides on an entry that exceeds the budget of the account with this `index`, and notes that an entry of this
    /// account was refused. Returns `Last` if the entry is that of a granted hello, and the first of the account that
    /// is refused. Such an entry is still written, and recording pauses after it. Returns `Refused` for any other
    /// entry, and if there is no such account.
    fn refuse(&self, index: usize) -> Taking {
        match self.budgets.accounts.get(index) {
            Some(account) => {
                let was_refused = account.is_refused.swap(true, Ordering::SeqCst);
                if self.is_greeted && !was_refused {
                    Taking::Last
                } else {
                    Taking::Refused
                }
            }
            None => Taking::Refused,
        }
    }
}

impl Budget for SeatBudget {
    ghost known = { λ b. is_some b.account };

    ghost greeted = { λ b. b.is_greeted };

    // Notes whom to charge from now on, if the reply grants a hello. Any other reply doesn't change who is charged.
    fn note_answered(&mut self, reply: &Reply) {
        match reply {
            Reply::Hello(who) => {
                self.account = Some(index_of(*who));
                self.is_greeted = true;
            }
            _ => self.is_greeted = false,
        }
    }

    // Returns whether a hello was granted in the session, so that the participant's account is charged.
    fn is_known(&self) -> bool {
        self.account.is_some()
    }

    // Returns `Taken` if an entry of this many `bytes` may be written, and charges it. The participant who is known may
    // have at most `BUDGET` bytes; for an entry that exceeds this, returns what `refuse` decides. If nobody is known,
    // `takes_unknown` decides, and the answer is `Taken` or `Refused`.
    fn takes_entry(&mut self, bytes: u64) -> Taking {
        match self.account {
            Some(index) => {
                if self.charge(bytes, BUDGET) {
                    Taking::Taken
                } else {
                    self.refuse(index)
                }
            }
            None => {
                if self.takes_unknown(bytes) {
                    Taking::Taken
                } else {
                    Taking::Refused
                }
            }
        }
    }

    // Returns whether the entry of a session's end, which has this many `bytes`, may be written. If so, charges it to
    // the participant who is known, or to the common counter. The entries may then exceed `BUDGET` by up to `ENDS`
    // bytes, so that ends are still written when other entries no longer are.
    fn takes_end(&mut self, bytes: u64) -> bool {
        self.charge(bytes, BUDGET + ENDS)
    }

    // Forgets who is known, at the end of a session. What is recorded from now on is charged to the common counter,
    // until a hello is granted.
    fn forget(&mut self) {
        self.account = None;
        self.is_greeted = false;
        self.unknown_here = 0;
    }
}
