//! The record of a class: the texts of all seats, one each.
//!
//! A seat serves one connection after another, each through the seat's window. The text of a seat has its lines with
//! their replies. After a line couldn't be written to the journal, a server refuses with `journal` whatever it would
//! grant. `number` is always the number of a seat, from 1. `events` is the list of events of the class's journal,
//! which must be legal in the lab. The place of an event is its number in this list, from 1. A text grants an event
//! if a reply in it names the event's place. In contracts, `start` and `texts` are the texts that `seats` opens. They
//! say nothing of texts that can't be named there.
ghost use Rattle.std.specs.Prelude.{◌≡◌, ℕ, List, Option, None, Some, true, IfOk, IfErr, IfSome, OnOk};
ghost use Rattle.mml_board.specs.Lists.{is_legal_in};
ghost use Rattle.mml_class.specs.Begun.{begun_in};
ghost use Rattle.mml_class.specs.Granting.{IsFound};
ghost use Rattle.mml_record.specs.Verdicts.{IsVerdict};
ghost use Rattle.mml_class.specs.Classes.{Tell, IsClassRecord, IsClassRefused};
ghost use Rattle.mml_class.specs.inside.Seats.{IsSeatRead, AddsSeat, IsSeatRefused};
ghost use Rattle.mml_class.specs.inside.Unread.{of_pieces, of_whole};

use crate::begun::begun_in;
use crate::findings::{no_findings, together};
use crate::granting::{Misgranted, find_misgranted};
use crate::seats::{SeatFault, Seats};
use mml_board::Event;
use mml_lab::Lab;
use mml_lines::{WholeFault, read_whole};
use mml_record::{BadEntry, PieceFault, Verdict, read_asks, read_record, read_record_from};
use mml_tally::{Ask, Findings};
use std::alloc::Global;
use std::io::Read;

/// The most bytes of a seat's record.
pub const MAX_RECORD: u32 = 1_073_741_824;

// How many bytes the decimal number of the events before the record may have.
const MAX_BEGUN: u32 = 20;

/// The result of checking the record of a class, if it is correct.
#[derive(Drop)]
pub struct ClassRecord {
    /// How many events came before the record began.
    pub begun: u64,
    /// A summary of the texts of all seats together.
    pub findings: Findings,
    /// What each line asked, seat by seat. Empty if the caller didn't want this.
    pub asks: Vec<Ask>,
}

/// Why the texts aren't the record of a class, or couldn't be read.
#[derive(Clone, Copy)]
pub enum ClassFault {
    /// The text of this seat isn't a record, because of this entry, which is its first bad one.
    Entry { seat: u8, bad: BadEntry },
    /// The text of this seat is a record, but a reply in it refuses with `journal` after `seen` events, and more events
    /// of the same server follow. This is the first such reply.
    Outlived { seat: u8, seen: u64 },
    /// The texts don't grant each event of the record exactly once. The value is the first fault.
    Places(Misgranted),
    /// A text couldn't be read.
    Unread(SeatFault),
}

impl From<SeatFault> for ClassFault {
    ghost use Rattle.mml_class.specs.declared.class_record.ClassFault.TheVariants.{Unread};

    ghost from_gives = { λ why e. e ≡ Unread why };

    // Wraps the reason why a text couldn't be read.
    fn from(why: SeatFault) -> ClassFault {
        ClassFault::Unread(why)
    }
}

/// Checks that the texts of all seats are the record of a class with this list of events, which must be legal. First
/// reads how many events came before the record, and then the text of each seat. In each text checks that no events
/// follow a refusal `journal`, unless the class was resumed in between. At last checks that only events of the record
/// are granted, none of them twice, and each of them if the texts leave nothing out. Returns the first fault that is
/// found. If `with_asks` is set, also returns what each line asked; each text is then read into memory as a whole.
pub fn read_class<R: Read + Drop, S: Seats<R>>(
    alloc: Global,
    lab: &Lab,
    events: &[Event],
    with_asks: bool,
    seats: &S,
) -> Result<ClassRecord, ClassFault>
    requires { is_legal_in lab.now events.now ≡ true }
    ensures passes { (start : List ℕ) (texts : ℕ → List ℕ) →
        Tell (S.begun seats.now) (S.text seats.now) start texts →
        IfOk result (IsClassRecord lab.now events.now with_asks start texts) }
    ensures refused { (start : List ℕ) (texts : ℕ → List ℕ) →
        Tell (S.begun seats.now) (S.text seats.now) start texts →
        IfErr result (IsClassRefused lab.now events.now start texts) }
{
    let begun = read_begun(alloc, seats)?;
    let mut findings = no_findings();
    let mut granted = Vec::new(alloc);
    let mut asks = Vec::new(alloc);
    'seats: for seat in 0..lab.sessions() {
        let number = seat + 1;
        read_seat(
            alloc,
            lab,
            events,
            number,
            with_asks,
            seats,
            &mut granted,
            &mut asks,
            &mut findings,
        )?;
    }
    let count = events.len() as u64;
    match find_amiss(alloc, &granted, begun, count, findings.whole)? {
        Some(amiss) => Err(ClassFault::Places(amiss)),
        None => Ok(ClassRecord {
            begun,
            findings,
            asks,
        }),
    }
}

/// Returns the first fault in the list `places` of the places that the records grant. A place is a fault if it isn't
/// from `begun` + 1 to `count`, or if it came earlier in the list, too. If there is no such place and the records are
/// `whole`, the fault is the lowest place from `begun` + 1 to `count` that isn't in the list. `begun` is how many
/// events came before the record, `count` how many there are in all, and `whole` is whether nothing is left out of
/// the records. Returns `None` if there is no fault, and `Memory` if memory runs out.
fn find_amiss(
    alloc: Global,
    places: &[u64],
    begun: u64,
    count: u64,
    whole: bool,
) -> Result<Option<Misgranted>, SeatFault>
    ensures found { IfOk result (IsFound begun count whole places.now) }
    ensures memory { IfErr result (λ why. why ≡ SeatFault.Memory) }
{
    match find_misgranted(alloc, places, begun, count, whole) {
        Ok(amiss) => Ok(amiss),
        Err(_) => Err(SeatFault::Memory),
    }
}

/// Reads the number of events that came before the record, and returns it. Returns `Read` if the text can't be read, or
/// states no number, and `Memory` if memory runs out.
fn read_begun<R: Read + Drop, S: Seats<R>>(alloc: Global, seats: &S) -> Result<u64, SeatFault>
    ensures { (start : List ℕ) → S.begun seats.now ≡ Some start →
        IfOk result (λ begun. begun_in start ≡ Some begun) }
{
    let reader = seats.open_begun()?;
    let text = read_all(alloc, reader, MAX_BEGUN)?;
    stated_begun(&text)
}

/// Returns the number of events that came before the record, from the text that states it. Returns `Read` if the text
/// states no number.
fn stated_begun(text: &[u8]) -> Result<u64, SeatFault>
    ensures number { IfOk result (λ begun. begun_in text.now ≡ Some begun) }
    ensures unstated { IfErr result (λ why. (why ≡ SeatFault.Read) × (begun_in text.now ≡ None)) }
{
    match begun_in(text) {
        Some(begun) => Ok(begun),
        None => Err(SeatFault::Read),
    }
}

/// Checks the record of the seat with this number. Adds its summary to `findings`, appends the places that it grants to
/// `granted`, and, if `with_asks` is set, appends what its lines asked to `asks`. Returns `Entry` with the record's
/// first bad entry, `Outlived` if more events of the same server follow a refusal `journal` in it, or `Unread` with the
/// reason why it can't be read.
fn read_seat<R: Read + Drop, S: Seats<R>>(
    alloc: Global,
    lab: &Lab,
    events: &[Event],
    number: u8,
    with_asks: bool,
    seats: &S,
    granted: &mut Vec<u64>,
    asks: &mut Vec<Ask>,
    findings: &mut Findings,
) -> Result<(), ClassFault>
    requires { is_legal_in lab.now events.now ≡ true }
    ensures ok { (text : List ℕ) → S.text seats.now number ≡ Some text →
        OnOk result (AddsSeat lab.now events.now number with_asks text granted.old.items
        granted.new.items asks.old.items asks.new.items findings.old findings.new) }
    ensures refused { (text : List ℕ) → S.text seats.now number ≡ Some text →
        IfErr result (IsSeatRefused lab.now events.now number text) }
{
    let reader = seats.open_seat(number)?;
    match read_text(alloc, lab, events, number, with_asks, reader, granted, asks)? {
        Verdict::Passed(found) => {
            let sum = together(findings, &found);
            *findings = sum;
            Ok(())
        }
        Verdict::Outlived(seen) => Err(ClassFault::Outlived { seat: number, seen }),
        Verdict::Refused(bad) => Err(ClassFault::Entry { seat: number, bad }),
    }
}

/// Checks whether a seat's text is a record, and returns the verdict. Appends the places that it grants to `granted`.
/// If `with_asks` is set, reads the text as a whole, and if the verdict is `Passed`, appends what its lines asked to
/// `asks`. Otherwise reads the text piece by piece. Returns `Read` if a read fails, or the text or an entry is too
/// long, and `Memory` if memory runs out.
fn read_text<R: Read + Drop>(
    alloc: Global,
    lab: &Lab,
    events: &[Event],
    number: u8,
    with_asks: bool,
    reader: R,
    granted: &mut Vec<u64>,
    asks: &mut Vec<Ask>,
) -> Result<Verdict, SeatFault>
    requires { is_legal_in lab.now events.now ≡ true }
    ensures { IfOk result (λ verdict. IfSome (R.remaining reader) (λ text.
        IsSeatRead lab.now events.now number with_asks text granted.old.items granted.new.items
        asks.old.items asks.new.items verdict)) }
{
    if with_asks {
        let text = read_all(alloc, reader, MAX_RECORD)?;
        read_asked(alloc, lab, events, number, &text, granted, asks)
    } else {
        read_pieces(alloc, lab, events, number, reader, granted)
    }
}

/// Checks whether a seat's text, which is in memory, is a record, and returns the verdict. Appends the places that it
/// grants to `granted`, and, if the verdict is `Passed`, what its lines asked to `asks`. Returns `Memory` if memory
/// runs out.
fn read_asked(
    alloc: Global,
    lab: &Lab,
    events: &[Event],
    number: u8,
    text: &[u8],
    granted: &mut Vec<u64>,
    asks: &mut Vec<Ask>,
) -> Result<Verdict, SeatFault>
    requires { is_legal_in lab.now events.now ≡ true }
    ensures { IfOk result (IsSeatRead lab.now events.now number true text.now granted.old.items
        granted.new.items asks.old.items asks.new.items) }
{
    match read_record(alloc, lab, events, number, text, granted)? {
        Verdict::Passed(found) => {
            read_asks(alloc, lab, events, number, text, asks)?;
            Ok(Verdict::Passed(found))
        }
        Verdict::Outlived(seen) => Ok(Verdict::Outlived(seen)),
        Verdict::Refused(bad) => Ok(Verdict::Refused(bad)),
    }
}

/// Checks piece by piece whether the bytes of a reader are a seat's record, and returns the verdict. Appends the places
/// that it grants to `granted`. Returns `Read` if a read fails, or the text or an entry is too long, and `Memory` if
/// memory runs out.
fn read_pieces<R: Read + Drop>(
    alloc: Global,
    lab: &Lab,
    events: &[Event],
    number: u8,
    reader: R,
    granted: &mut Vec<u64>,
) -> Result<Verdict, SeatFault>
    requires { is_legal_in lab.now events.now ≡ true }
    ensures { IfOk result (λ verdict. IfSome (R.remaining reader) (λ text.
        IsVerdict lab.now events.now number text granted.old.items granted.new.items verdict)) }
{
    let mut reader = reader;
    match read_record_from(alloc, lab, events, number, MAX_RECORD, &mut reader, granted) {
        Ok(verdict) => Ok(verdict),
        Err(why) => Err(of_pieces(why)),
    }
}

/// Converts the error of reading a text piece by piece. A text or an entry that is too long becomes `Read`.
fn of_pieces(why: PieceFault) -> SeatFault
    ensures { result ≡ of_pieces why }
{
    match why {
        PieceFault::Read | PieceFault::TooLong => SeatFault::Read,
        PieceFault::Memory => SeatFault::Memory,
    }
}

/// Returns all bytes of a reader. Returns `Read` if a read fails, or there are more than `limit`, and `Memory` if
/// memory runs out.
fn read_all<R: Read + Drop>(alloc: Global, reader: R, limit: u32) -> Result<Vec<u8>, SeatFault>
    ensures { IfOk result (λ bytes. IfSome (R.remaining reader) (λ text. bytes.items ≡ text)) }
{
    match read_whole(alloc, reader, limit) {
        Ok(bytes) => Ok(bytes),
        Err(why) => Err(of_whole(why)),
    }
}

/// Converts the error of reading a text as a whole. A text that is too long becomes `Read`.
fn of_whole(why: WholeFault) -> SeatFault
    ensures { result ≡ of_whole why }
{
    match why {
        WholeFault::Read | WholeFault::TooLong => SeatFault::Read,
        WholeFault::Memory => SeatFault::Memory,
    }
}
