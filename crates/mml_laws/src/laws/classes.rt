//! What holds for a house (one run of a lab) holds for a class. Each law is the contract of a function that does
//! nothing.
//!
//! A class is a house whose connections come and go. A seat serves one connection after another. Each of them asks
//! through the seat's window, which is a view of the published events and board. A seat's recorder writes the record of
//! the seat: the lines of its sessions, with their replies. A record fits a list of events if the rules give its
//! replies after those events. The log of a house is its result, with all its events. After a line couldn't be
//! written to the journal, a server refuses with `journal` whatever it would grant.
ghost use Rattle.std.specs.Prelude.{◌≡◌, ◌<◌, ◌≤◌, ◌++◌, ℕ, List, length, Option, Some};
ghost use Rattle.std.specs.List.{AllByRecursion, AllZip};
ghost use Rattle.mml_lab.specs.Labs.{LabValue};
ghost use Rattle.mml_board.specs.declared.event.Event.{Event};
ghost use Rattle.mml_codec.specs.declared.reply.Reply.{Reply};
ghost use Rattle.mml_window.specs.Logs.{IsLogFrom};
ghost use Rattle.mml_window.specs.Tallies.{IsEachOnceFrom};
ghost use Rattle.mml_session.specs.Records.{Kept};
ghost use Rattle.mml_hosting.specs.declared.hosted.Hosted.{Hosted};
ghost use Rattle.mml_hosting.specs.declared.seat.ServedSession.{ServedSession};
ghost use Rattle.mml_hosting.specs.Hosting.{HostsFrom};
ghost use Rattle.mml_hosting.specs.Seats.{kept_from};
ghost use Rattle.mml_resuming.specs.Resuming.{Resumes};
ghost use Rattle.mml_record.specs.RecordedSeats.{IsResumedSeat, IsFinalText, fresh};
ghost use Rattle.mml_laws.specs.Classes.{seats_of};
ghost use Rattle.mml_laws.specs.Served.{AreServed, named_by};

/// A class is a house (one run of a lab): the contracts of `serve_host` and of `resume_class` imply what the laws about
/// houses assume. Each window has served one session after another, from the events before the class to the window's
/// final state, and the log has the list of all events. So each event of the class is named by exactly one reply.
#[tactic(auto, using(std::proofs::lemmas::Bool::Decides::nat_tests, crate::proofs::ClassesLemmas::class_house))]
pub fn a_class_is_a_house<S, K, C, R, W>()
    ensures hosted { (begun : List Event) (given : ℕ → Option Kept) (lab : LabValue)
        (sink : S → Option (List ℕ)) (remaining : R → Option (List ℕ)) (contents : W → Option (List ℕ))
        (recorded : C → Option Kept) (shows : K → ServedSession R W)
        (to_desk to_come : Option (List (R × W))) (house : Hosted S K C)
        (h : HostsFrom begun given lab sink remaining contents recorded shows to_desk to_come house) →
        (sessions : List (List (List Reply))) × AreServed lab begun sessions (h.desk_windows ++ h.windows)
        × IsLogFrom (length begun) lab sink (h.desk_windows ++ h.windows) house.log
        × IsEachOnceFrom (length begun) (length house.log.events) (named_by sessions) }
    ensures resumed { (lab : LabValue) (old first : List ℕ) (given : ℕ → Option Kept)
        (sink : S → Option (List ℕ)) (remaining : R → Option (List ℕ)) (contents : W → Option (List ℕ))
        (recorded : C → Option Kept) (shows : K → ServedSession R W)
        (to_desk to_come : Option (List (R × W))) (wrote now : Option (List ℕ)) (house : Hosted S K C)
        (r : Resumes lab old first given sink remaining contents recorded shows to_desk to_come wrote now house) →
        (sessions : List (List (List Reply)))
        × AreServed lab r.begun sessions (r.hosts.desk_windows ++ r.hosts.windows)
        × IsLogFrom (length r.begun) lab sink (r.hosts.desk_windows ++ r.hosts.windows) house.log
        × IsEachOnceFrom (length r.begun) (length house.log.events) (named_by sessions) }
{}

/// `given n` is what the recorder of seat n had kept when the class began. Suppose that each recorder had kept nothing.
/// Then each has recorded the sessions of its seat. These sessions led the seat's window from the events before the
/// class to its final state. So what each recorder has kept is the text of a record that fits the class's one list of
/// events, or a beginning of that text. In this record no event follows a refusal `journal`: at such a refusal, the seat
/// had seen all events of the list. The clause `kept` is for the contracts of `serve_host` and `resume_class`, in
/// which `given` is `kept_from` of a list of recorders. If each recorder in this list was empty, the assumption holds.
#[tactic(auto, using(crate::proofs::ClassesLemmas::kept_fresh))]
pub fn a_class_has_recorded_seats<S, K, C, R, W>()
    ensures seats { (begun : List Event) (given : ℕ → Option Kept) (lab : LabValue)
        (sink : S → Option (List ℕ)) (remaining : R → Option (List ℕ)) (contents : W → Option (List ℕ))
        (recorded : C → Option Kept) (shows : K → ServedSession R W)
        (to_desk to_come : Option (List (R × W))) (house : Hosted S K C)
        (h : HostsFrom begun given lab sink remaining contents recorded shows to_desk to_come house) →
        ((n : ℕ) → 0 < n → n ≤ lab.sessions → given n ≡ Some fresh) →
        AllZip (IsResumedSeat lab begun) (seats_of recorded shows house) (h.desk_windows ++ h.windows)
        × AllZip (λ p w. IsFinalText lab house.log.events p.number p.kept w.places)
        (seats_of recorded shows house) (h.desk_windows ++ h.windows) }
    ensures kept { (recorded : C → Option Kept) (shows : K → ServedSession R W) (cs : List C) (n : ℕ) →
        AllByRecursion (λ c. recorded c ≡ Some fresh) cs → 0 < n → n ≤ length cs →
        kept_from recorded 1 cs n ≡ Some fresh }
{}
