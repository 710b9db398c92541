//! A house answers as one script does. Each law is the contract of a function that does nothing.
//!
//! A house is one run of a lab that threads share. A seat of it serves one connection after another. A class is a house
//! with two ports, one of which is the teacher's. A server is a house with one port. A script has request lines of
//! several connections. A hall answers them in one thread, one after another. A journal is halted if a
//! line couldn't be written to it; whatever would be granted is then refused as `journal`.
ghost use Rattle.std.specs.Prelude.{◌≡◌, ◌++◌, ℕ, false, List, [], length, Option};
ghost use Rattle.std.specs.List.{AllByRecursion};
ghost use mathlib.Core.List.{IsPrefix};
ghost use Rattle.mml_lab.specs.Labs.{LabValue, IsLab};
ghost use Rattle.mml_board.specs.declared.event.Event.{Event};
ghost use Rattle.mml_window.specs.declared.log.Log.{Log};
ghost use Rattle.mml_window.specs.Logs.{IsLogFrom};
ghost use Rattle.mml_window.specs.Windows.{WindowValue};
ghost use Rattle.mml_session.specs.Records.{Kept};
ghost use Rattle.mml_serving.specs.declared.connection.EndedSession.{EndedSession};
ghost use Rattle.mml_serving.specs.Serving.{Each, ServesHouse};
ghost use Rattle.mml_hosting.specs.declared.hosted.Hosted.{Hosted};
ghost use Rattle.mml_hosting.specs.declared.seat.ServedSession.{ServedSession};
ghost use Rattle.mml_hosting.specs.Hosting.{HostsFrom};
ghost use Rattle.mml_hosting.specs.Seats.{terms};
ghost use Rattle.mml_resuming.specs.Resuming.{Resumes};
ghost use Rattle.mml_hall.specs.Transcripts.{Transcript};
ghost use Rattle.mml_laws.specs.Served.{Answered, AreHeard, AreWritten};
ghost use Rattle.mml_laws.specs.OneScript.{IsOneScript};
ghost use Rattle.mml_laws.specs.ClassAnswers.{HaveAnswers};
ghost use Rattle.mml_laws.specs.ServedAnswers.{answers_in_house};

/// A class is one script. Suppose that no reply of a class is the refusal `journal`. Then its lines can be put in such an
/// order that a script of these lines, which is answered in one thread, has the same events. Connection by connection,
/// the script has the same lines in the same order, with the same replies. No write to its journal fails. So what holds
/// for every script holds for the class.
///
/// A connection of the script has the lines of one seat. If a session of the seat had no bye, and another one followed,
/// the script has a bye between them. The refusal `memory` is a reply like any other: if memory ran out for a line of the
/// class, it also did for this line in the script. Nothing is said of a line without a reply, nor of the moment at which
/// a reply came.
///
/// The first three clauses say this for a house, for a class, and for a server. That for a class says it of lists of
/// lines and replies, one for each seat, which its sessions can have had. The script of a resumed class goes on after
/// the events from before the class. A script that begins without events is a transcript.
#[tactic(auto, using(crate::proofs::OneScriptLemmas::one_script, crate::proofs::OneScriptLemmas::as_transcript))]
pub fn a_class_is_one_script<S, K, C, R, W>()
    ensures house { (lab : LabValue) (begun : List Event) (contents : S → Option (List ℕ)) (log : Log S)
        (seats : List (List (List Answered))) (windows : List WindowValue) → IsLab lab →
        AreHeard lab begun seats windows → AllByRecursion AreWritten seats →
        length windows ≡ lab.sessions → IsPrefix begun log.events →
        IsLogFrom (length begun) lab contents windows log → IsOneScript lab begun log.events seats }
    ensures class { (begun : List Event) (given : ℕ → Option Kept) (lab : LabValue)
        (sink : S → Option (List ℕ)) (remaining : R → Option (List ℕ)) (contents : W → Option (List ℕ))
        (recorded : C → Option Kept) (shows : K → ServedSession R W)
        (to_desk to_come : Option (List (R × W))) (house : Hosted S K C)
        (h : HostsFrom begun given lab sink remaining contents recorded shows to_desk to_come house) → IsLab lab →
        (seats : List (List (List Answered)))
        × Each (HaveAnswers (terms lab begun given remaining contents recorded shows))
        (house.at_desk.items ++ house.others.items) seats (h.desk_windows ++ h.windows)
        × (AllByRecursion AreWritten seats → IsOneScript lab begun house.log.events seats) }
    ensures server { (lab : LabValue) (sink : S → Option (List ℕ)) (remaining : R → Option (List ℕ))
        (contents : W → Option (List ℕ)) (to_come : Option (List (R × W))) (count : ℕ)
        (sessions : List (EndedSession R W)) (log : Log S)
        (h : ServesHouse lab sink remaining contents to_come count sessions log) → IsLab lab →
        AllByRecursion AreWritten (answers_in_house lab sink remaining contents to_come count sessions log h) →
        IsOneScript lab [] log.events (answers_in_house lab sink remaining contents to_come count sessions log h) }
    ensures transcript { (lab : LabValue) (all : List Event) (seats : List (List (List Answered)))
        (s : IsOneScript lab [] all seats) →
        (t : Transcript lab) × (t.lines ≡ s.lines) × (t.replies ≡ s.replies) × (t.end ≡ s.end) }
{}

/// A class whose journal isn't halted at its end is one script: its lines can be put in such an order that one thread,
/// which answers them in this order, gives the same events and replies. `a_class_is_one_script` assumes that no reply
/// is the refusal `journal`. Here that isn't assumed, since it follows from the journal. `serve_host`, `resume_class`
/// and the functions that serve given connections return `Ok` only if the journal isn't halted. So each class that ends
/// without an error is one script.
///
/// The first clause says that no reply of a house is the refusal `journal` if its journal isn't halted at the end. The
/// house may have begun with earlier events. The other clauses say of a house, a class, a resumed class and a server
/// that it is one script, as `a_class_is_one_script` states. The lines of a resumed class are those since it was
/// resumed. Nothing is said of the replies from before: an earlier journal may have been halted.
#[tactic(auto, using(crate::proofs::ServedLemmas::house_written, crate::proofs::OneScriptLemmas::one_script))]
pub fn a_class_that_ends_unhalted_is_one_script<S, K, C, R, W>()
    ensures written { (lab : LabValue) (begun : List Event) (first : ℕ) (contents : S → Option (List ℕ)) (log : Log S)
        (seats : List (List (List Answered))) (windows : List WindowValue) →
        AreHeard lab begun seats windows → IsLogFrom first lab contents windows log → log.halted ≡ false →
        AllByRecursion AreWritten seats }
    ensures house { (lab : LabValue) (begun : List Event) (contents : S → Option (List ℕ)) (log : Log S)
        (seats : List (List (List Answered))) (windows : List WindowValue) → IsLab lab →
        AreHeard lab begun seats windows → length windows ≡ lab.sessions → IsPrefix begun log.events →
        IsLogFrom (length begun) lab contents windows log → log.halted ≡ false →
        IsOneScript lab begun log.events seats }
    ensures class { (begun : List Event) (given : ℕ → Option Kept) (lab : LabValue)
        (sink : S → Option (List ℕ)) (remaining : R → Option (List ℕ)) (contents : W → Option (List ℕ))
        (recorded : C → Option Kept) (shows : K → ServedSession R W)
        (to_desk to_come : Option (List (R × W))) (house : Hosted S K C)
        (h : HostsFrom begun given lab sink remaining contents recorded shows to_desk to_come house) → IsLab lab →
        house.log.halted ≡ false →
        (seats : List (List (List Answered)))
        × Each (HaveAnswers (terms lab begun given remaining contents recorded shows))
        (house.at_desk.items ++ house.others.items) seats (h.desk_windows ++ h.windows)
        × IsOneScript lab begun house.log.events seats }
    ensures resumed { (lab : LabValue) (old first : List ℕ) (given : ℕ → Option Kept)
        (sink : S → Option (List ℕ)) (remaining : R → Option (List ℕ)) (contents : W → Option (List ℕ))
        (recorded : C → Option Kept) (shows : K → ServedSession R W)
        (to_desk to_come : Option (List (R × W))) (wrote now : Option (List ℕ)) (house : Hosted S K C)
        (r : Resumes lab old first given sink remaining contents recorded shows to_desk to_come wrote now house) →
        IsLab lab → house.log.halted ≡ false →
        (seats : List (List (List Answered)))
        × Each (HaveAnswers (terms lab r.begun given remaining contents recorded shows))
        (house.at_desk.items ++ house.others.items) seats (r.hosts.desk_windows ++ r.hosts.windows)
        × IsOneScript lab r.begun house.log.events seats }
    ensures server { (lab : LabValue) (sink : S → Option (List ℕ)) (remaining : R → Option (List ℕ))
        (contents : W → Option (List ℕ)) (to_come : Option (List (R × W))) (count : ℕ)
        (sessions : List (EndedSession R W)) (log : Log S)
        (h : ServesHouse lab sink remaining contents to_come count sessions log) → IsLab lab → log.halted ≡ false →
        IsOneScript lab [] log.events (answers_in_house lab sink remaining contents to_come count sessions log h) }
{}
