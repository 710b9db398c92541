//! Laws about what a student can't learn. Each is the contract of a function that does nothing.
//!
//! A world is a network with its registers, its chosen moves, the number of its configuration, and the number of events
//! so far. Two labs are twins if they differ at most in the links and registers at the beginning. Two worlds are alike
//! for a student if they agree in all that the student may see, and in the numbers of events and configurations.
//!
//! A hall is the engine that answers the lines of numbered connections. A state of a hall has a world, who is known on
//! each connection, and whether the journal is halted, because a line couldn't be written to it. Two states are alike
//! if their worlds are, the same participants are known on their connections, and both journals are halted or neither.
//! A turn is the effect of one line. A mishap is that memory runs out, or that a write to the journal fails; in a plain
//! turn there is none. A transcript has the lines of a script with their replies, from a hall's first state.
//!
//! In the contracts, `s` is the student, `w` and `v` are worlds, `st` and `su` are states, and `k` is a connection.
ghost use Rattle.std.specs.Prelude.{◌≡◌, ◌↔◌, ◌<◌, ℕ, Bool, List, Option, true, false, length, map};
ghost use Rattle.mml_rules.specs.declared.regs.Regs.{Regs};
ghost use Rattle.mml_rules.specs.declared.rule.Rule.{Rule};
ghost use Rattle.mml_rules.specs.Network.{Network, IsNetwork, configuration_of, with_registers, with_link};
ghost use Rattle.std.specs.List.{concat};
ghost use Rattle.mml_lab.specs.declared.who.Who.TheVariants as who;
ghost use Rattle.mml_lab.specs.Labs.{LabValue, IsLab};
ghost use Rattle.mml_lab.specs.Rosters.{RosterValue, owns};
ghost use Rattle.mml_board.specs.World.{World, IsWorld, opening_of};
ghost use Rattle.mml_board.specs.declared.event.Event.{Event};
ghost use Rattle.mml_board.specs.declared.event.Event.TheVariants as event;
ghost use Rattle.mml_board.specs.Events.{after, choosing, is_possible};
ghost use Rattle.mml_board.specs.Meaning.{makes_configuration};
ghost use Rattle.mml_policy.specs.declared.command.Command.{Command};
ghost use Rattle.mml_policy.specs.Visible.{IsVisible};
ghost use Rattle.mml_policy.specs.Alike.{Alike, IsWorldOf};
ghost use Rattle.mml_codec.specs.Replies.{reply_line};
ghost use Rattle.mml_codec.specs.declared.reply.Reply.{Reply};
ghost use Rattle.mml_hall.specs.Turns.{State, Outcome, Mishap, RequestLine, Run, Turn, opening, turn, plain_turn, known_on, is_grant};
ghost use Rattle.mml_hall.specs.Transcripts.{Transcript, output_lines, bytes_written};
ghost use Rattle.mml_hidden.specs.Scripted.{replies_to, end_of, written_to, written_on, written_on_any, StayAlike, IsHersThroughout, OnlySheGreets, OnlySheIsKnown};
ghost use Rattle.mml_hidden.specs.Scripted.{AreUnhindered, RunAlike};
ghost use Rattle.mml_hidden.specs.CommandReplies.{world_left, reply_to, line_to};
ghost use Rattle.mml_hidden.specs.Mishaps.{BefallenLine, Befalls, lines_in, replies_with, end_with, StayAlikeWith, AreHersThroughout, RunAlikeWith};
ghost use Rattle.mml_session.specs.Turns.{Standing, Run as SessionRun};
ghost use Rattle.mml_hidden.specs.Sessions.{AreToldAlike};
ghost use Rattle.mml_hidden.specs.Sight.{ShowsTheSame, MoveAlike, IsUntouched, IsOutOfSight};
ghost use Rattle.mml_hidden.specs.Twins.{AreTwins, BeginAlike, StatesAlike, is_hers};
ghost use Rattle.mml_hidden.specs.Coalitions.{AlikeFor, StatesAlikeFor, StayAlikeFor, AreTheirsThroughout, BeginAlikeFor, RunAlikeFor, is_theirs};

/// Take two worlds that are alike for a student: they agree in all that she may see. Each command of hers has the same
/// reply in both, with the same bytes. The worlds after the command are alike again.
#[tactic(auto, using(crate::proofs::SightLemmas::same_reply_to, mml_policy::proofs::AlikeLemmas::alike_afterwards, std::proofs::lemmas::Bool::Decides::nat_tests))]
pub fn hidden_values_change_no_reply_line()
    ensures reply { (ids : List ℕ) (r : RosterValue) (limit : ℕ) (is_halted : Bool) (w v : World)
        (s : ℕ) (c : Command) → IsWorldOf ids w → IsWorldOf ids v → Alike r s w v →
        reply_to ids r limit is_halted w (who.Student s) c
        ≡ reply_to ids r limit is_halted v (who.Student s) c }
    ensures line { (ids : List ℕ) (r : RosterValue) (limit : ℕ) (is_halted : Bool) (w v : World)
        (s : ℕ) (c : Command) → IsWorldOf ids w → IsWorldOf ids v → Alike r s w v →
        line_to ids r limit is_halted w (who.Student s) c
        ≡ line_to ids r limit is_halted v (who.Student s) c }
    ensures afterwards { (ids : List ℕ) (r : RosterValue) (limit : ℕ) (is_halted : Bool)
        (w v : World) (s : ℕ) (c : Command) → IsWorldOf ids w → IsWorldOf ids v →
        Alike r s w v → Alike r s (world_left ids r limit is_halted w (who.Student s) c)
        (world_left ids r limit is_halted v (who.Student s) c) }
{}

/// Take states of two twin labs, which differ at most in the links and registers at the beginning. Suppose that the
/// states are alike for a student, and that she or nobody is known on a connection. A line on this connection is
/// answered in both, and the same mishap (memory that ran out or a failed write), or none, befalls both turns. Then the
/// line gets the same reply line in both, and the states afterwards are alike again.
#[tactic(auto, using(crate::proofs::TwinsLemmas::twin_turn, std::proofs::lemmas::Bool::Decides::nat_tests))]
pub fn hidden_values_change_no_turn()
    ensures line { (lab other : LabValue) (s : ℕ) (st su : State) (mishap : Mishap) (k : ℕ)
        (line : List ℕ) → AreTwins lab other → StatesAlike lab s st su →
        is_hers s (known_on st k) ≡ true →
        reply_line lab.ids lab.roster (turn mishap lab st k line).reply
        ≡ reply_line other.ids other.roster (turn mishap other su k line).reply }
    ensures afterwards { (lab other : LabValue) (s : ℕ) (st su : State) (mishap : Mishap) (k : ℕ)
        (line : List ℕ) → AreTwins lab other → StatesAlike lab s st su →
        is_hers s (known_on st k) ≡ true →
        StatesAlike lab s (turn mishap lab st k line).state (turn mishap other su k line).state }
{}

/// Take states of two twin labs, which differ at most in the links and registers at the beginning. If the states are
/// alike for a student, a line on any connection leaves them alike if it leaves their worlds alike. The law is about
/// plain turns, in which no mishap happens.
pub fn lines_of_others_keep_states_alike()
    ensures { (lab other : LabValue) (s : ℕ) (st su : State) (k : ℕ) (line : List ℕ) →
        AreTwins lab other → StatesAlike lab s st su →
        Alike lab.roster s (plain_turn lab st k line).state.world
        (plain_turn other su k line).state.world →
        StatesAlike lab s (plain_turn lab st k line).state (plain_turn other su k line).state }
{}

/// If two worlds are alike for a student, a line keeps them alike if it makes an event in neither of them. A line keeps
/// the worlds alike only if it makes an event in both or in neither.
pub fn turns_that_keep_worlds_alike_grant_alike()
    ensures neither { (lab other : LabValue) (s : ℕ) (st su : State) (k : ℕ) (line : List ℕ)
        (one two : Outcome) → Turn lab st k line one → Turn other su k line two →
        Alike lab.roster s st.world su.world → is_grant one.reply ≡ false →
        is_grant two.reply ≡ false → Alike lab.roster s one.state.world two.state.world }
    ensures only { (lab other : LabValue) (s : ℕ) (st su : State) (k : ℕ) (line : List ℕ)
        (one two : Outcome) → Turn lab st k line one → Turn other su k line two →
        Alike lab.roster s st.world su.world →
        Alike lab.roster s one.state.world two.state.world →
        is_grant one.reply ≡ is_grant two.reply }
{}

/// Suppose that one script (lines on numbered connections) is run in two twin labs, which differ at most in the links
/// and registers at the beginning. Suppose also that no mishap happens, that the states at first are alike for a
/// student, and that each line of somebody else keeps the worlds alike for her. Then the same is written to each
/// connection as long as she or nobody is known on it. If nobody else is ever known on a connection, all of its output
/// is the same. The states at the end are alike.
#[tactic(auto, using(crate::proofs::ScriptedLemmas::same_script, crate::proofs::ScriptedLemmas::same_on_connection, std::proofs::lemmas::Bool::Decides::nat_tests))]
pub fn hidden_values_change_no_script()
    ensures written { (lab other : LabValue) (s : ℕ) (st su : State) (lines : List RequestLine) →
        AreTwins lab other → StatesAlike lab s st su → StayAlike lab other s st su lines →
        written_to lab s st lines ≡ written_to other s su lines }
    ensures connection { (lab other : LabValue) (s : ℕ) (st su : State) (k : ℕ)
        (lines : List RequestLine) → AreTwins lab other → StatesAlike lab s st su →
        StayAlike lab other s st su lines → IsHersThroughout lab s k st lines →
        written_on lab k lines (replies_to lab st lines)
        ≡ written_on other k lines (replies_to other su lines) }
    ensures transcripts { (lab other : LabValue) (s k : ℕ) (t : Transcript lab)
        (u : Transcript other) → RunAlike lab other s k t u →
        written_on lab k t.lines t.replies ≡ written_on other k u.lines u.replies }
    ensures end { (lab other : LabValue) (s : ℕ) (st su : State) (lines : List RequestLine) →
        AreTwins lab other → StatesAlike lab s st su → StayAlike lab other s st su lines →
        StatesAlike lab s (end_of lab st lines) (end_of other su lines) }
{}

/// Like `hidden_values_change_no_script`, but with mishaps (memory runs out, or a write fails), which befall the same
/// lines in both runs. Each line of somebody else must keep the worlds alike for the student, and leave both journals
/// halted or neither. Take the connections for which `some` is true. If nobody else is ever known on them, all of their
/// output is the same. The states at the end are alike.
#[tactic(auto, using(crate::proofs::ScriptedLemmas::same_with, crate::proofs::ScriptedLemmas::same_transcripts_with, std::proofs::lemmas::Bool::Decides::nat_tests))]
pub fn hidden_values_change_no_script_with_mishaps()
    ensures connections { (lab other : LabValue) (s : ℕ) (st su : State) (some : ℕ → Bool)
        (bs : List BefallenLine) → AreTwins lab other → StatesAlike lab s st su →
        StayAlikeWith lab other s st su bs → AreHersThroughout lab s some st bs →
        written_on_any lab some (lines_in bs) (replies_with lab st bs)
        ≡ written_on_any other some (lines_in bs) (replies_with other su bs) }
    ensures transcripts { (lab other : LabValue) (s : ℕ) (some : ℕ → Bool) (t : Transcript lab)
        (u : Transcript other) (bs : List BefallenLine) → RunAlikeWith lab other s some t u bs →
        written_on_any lab some t.lines t.replies ≡ written_on_any other some u.lines u.replies }
    ensures end { (lab other : LabValue) (s : ℕ) (st su : State) (bs : List BefallenLine) →
        AreTwins lab other → StatesAlike lab s st su → StayAlikeWith lab other s st su bs →
        StatesAlike lab s (end_with lab st bs) (end_with other su bs) }
{}

/// Each run of a hall (the engine that answers the lines of numbered connections) consists of one turn for each line,
/// and each turn has a mishap. The mishap `nothing` means that all went well.
#[tactic(auto, using(crate::proofs::ScriptedLemmas::run_befalls, std::proofs::lemmas::Bool::Decides::nat_tests))]
pub fn something_befell_each_line()
    ensures { (lab : LabValue) (st : State) (lines : List RequestLine) (rs : List Reply)
        (end : State) → Run lab st lines rs end → Befalls lab st lines rs end }
{}

/// Suppose that one script (lines on numbered connections) is run in two twin labs, which differ at most in the links
/// and registers at the beginning. Suppose also that no mishap happens, and that the states at first are alike for a
/// student. If nobody else is known at first, and each valid hello in the script is hers, all replies are the same, and
/// so are all bytes. So a student who is alone can't distinguish the two labs.
#[tactic(auto, using(crate::proofs::ScriptedLemmas::same_replies, std::proofs::lemmas::Bool::Decides::nat_tests))]
pub fn one_who_is_alone_can_not_tell()
    ensures replies { (lab other : LabValue) (s : ℕ) (st su : State) (lines : List RequestLine) →
        AreTwins lab other → StatesAlike lab s st su → OnlySheIsKnown s st →
        OnlySheGreets lab s lines → replies_to lab st lines ≡ replies_to other su lines }
    ensures bytes { (lab other : LabValue) (s : ℕ) (st su : State) (lines : List RequestLine) →
        AreTwins lab other → StatesAlike lab s st su → OnlySheIsKnown s st →
        OnlySheGreets lab s lines → concat (output_lines lab lines (replies_to lab st lines))
        ≡ concat (output_lines other lines (replies_to other su lines)) }
    ensures transcripts { (lab other : LabValue) (s : ℕ) (t : Transcript lab)
        (u : Transcript other) → BeginAlike lab other s → u.lines ≡ t.lines → OnlySheGreets lab s t.lines → AreUnhindered t.replies →
        AreUnhindered u.replies → bytes_written t ≡ bytes_written u }
{}

/// Two labs begin alike for a student if they have the same participants, and their first worlds agree in all that she
/// may see. Then the first states of their runs are alike for her. In the first state of a run nobody is known on any
/// connection.
#[tactic(auto, using(crate::proofs::ScriptedLemmas::openings_alike, crate::proofs::ScriptedLemmas::opening_hers, std::proofs::lemmas::Bool::Decides::nat_tests))]
pub fn runs_begin_alike()
    ensures states { (lab other : LabValue) (s : ℕ) → BeginAlike lab other s →
        StatesAlike lab s (opening lab) (opening other) }
    ensures known { (lab : LabValue) (s : ℕ) → OnlySheIsKnown s (opening lab) }
{}

/// A run in which no reply is the refusal for memory or for the journal has the replies and the end of the run of plain
/// turns. No mishap happens in plain turns.
#[tactic(auto, using(crate::proofs::ScriptedLemmas::plain_run, std::proofs::lemmas::Bool::Decides::nat_tests))]
pub fn unhindered_runs_are_plain()
    ensures { (lab : LabValue) (st : State) (lines : List RequestLine) (rs : List Reply)
        (end : State) → Run lab st lines rs end → AreUnhindered rs →
        (rs ≡ replies_to lab st lines) × (end ≡ end_of lab st lines) }
{}

/// If an event happens in only one of two worlds that are alike for a student, the worlds aren't alike afterwards: the
/// numbers of their events differ. If an event happens in each, but only one of the two makes a configuration, the
/// numbers of their configurations differ.
#[tactic(auto, using(mml_board::proofs::EventsLemmas::numbers, std::proofs::lemmas::Bool::Decides::nat_tests))]
pub fn events_are_told_by_place_and_number()
    ensures first { (r : RosterValue) (s : ℕ) (w v : World) (e : Event) → Alike r s w v →
        ¬ Alike r s (after w e) v }
    ensures second { (r : RosterValue) (s : ℕ) (w v : World) (e : Event) → Alike r s w v →
        ¬ Alike r s w (after v e) }
    ensures kinds { (r : RosterValue) (s : ℕ) (w v : World) (e f : Event) → Alike r s w v →
        Alike r s (after w e) (after v f) → makes_configuration e ≡ makes_configuration f }
{}

/// If one event happens in two worlds that are alike for a student, they stay alike exactly if the event shows her the
/// same in both. Only a link to a node of hers and a close can show her different things. A close shows her the same if
/// the same moves are chosen for the neighbours of her nodes, and their rules read the same values.
#[tactic(auto, using(crate::proofs::SightLemmas::event_alike, mml_rules::proofs::AroundLemmas::same_effect, std::proofs::lemmas::Bool::Decides::nat_tests))]
pub fn one_event_keeps_worlds_alike()
    ensures event { (ids : List ℕ) (r : RosterValue) (s : ℕ) (w v : World) (e : Event) →
        IsWorldOf ids w → IsWorldOf ids v → Alike r s w v → is_possible w e ≡ true →
        (Alike r s (after w e) (after v e)) ↔ ShowsTheSame r s w v e }
    ensures close { (ids : List ℕ) (r : RosterValue) (s : ℕ) (w v : World) →
        IsWorldOf ids w → IsWorldOf ids v → Alike r s w v → MoveAlike r s w v →
        ShowsTheSame r s w v event.Close }
{}

/// If an event happens in each of two worlds that are alike for a student, they stay alike if two conditions hold. Both
/// events make a configuration, or neither does; and neither changes anything that the student may see. As an
/// exception, the numbers of events and configurations may change, and a new configuration may drop chosen moves. An
/// event out of the student's sight changes nothing that the student may see, with the same exception.
#[tactic(auto, using(mml_board::proofs::EventsLemmas::numbers, mml_board::proofs::EventsLemmas::dropped, crate::proofs::SightLemmas::out_of_sight, std::proofs::lemmas::Bool::Decides::nat_tests))]
pub fn events_out_of_sight_keep_worlds_alike()
    ensures untouched { (r : RosterValue) (s : ℕ) (w v : World) (e f : Event) → Alike r s w v →
        IsUntouched r s w e → IsUntouched r s v f →
        makes_configuration e ≡ makes_configuration f → Alike r s (after w e) (after v f) }
    ensures sight { (r : RosterValue) (s : ℕ) (w : World) (e : Event) → IsWorld w →
        is_possible w e ≡ true → IsOutOfSight r s w e → IsUntouched r s w e }
{}

/// Two networks are alike for a student at the beginning if they differ only in the registers of one node that isn't
/// visible to her. Two networks are also alike if they differ only in a link between two nodes, neither of which she
/// owns.
#[tactic(auto, using(crate::proofs::SightLemmas::of_others, std::proofs::lemmas::Bool::Decides::nat_tests))]
pub fn labs_may_differ_out_of_sight()
    ensures registers { (n : Network) (r : RosterValue) (s i : ℕ) (regs : Regs) → IsNetwork n →
        ¬ IsVisible r (configuration_of n) (who.Student s) i →
        Alike r s (opening_of n) (opening_of (with_registers n i regs)) }
    ensures link { (n : Network) (r : RosterValue) (s a b : ℕ) → IsNetwork n →
        a < length n.registers → b < length n.registers →
        owns r (who.Student s) a ≡ false → owns r (who.Student s) b ≡ false →
        Alike r s (opening_of n) (opening_of (with_link n a b)) }
{}

/// A student can't notice which move, if any, is chosen for a node of others, even if it is linked to a node of hers.
/// Two worlds that differ in this choice alone are alike for her, and each of her commands has the same reply line in
/// both.
#[tactic(auto, using(crate::proofs::SightLemmas::of_others, crate::proofs::SightLemmas::same_reply_to, std::proofs::lemmas::Bool::Decides::nat_tests))]
pub fn choices_of_others_are_hidden()
    ensures worlds { (r : RosterValue) (s i : ℕ) (w : World) (one other : Option Rule) →
        owns r (who.Student s) i ≡ false →
        Alike r s (choosing w i one) (choosing w i other) }
    ensures line { (ids : List ℕ) (r : RosterValue) (limit : ℕ) (is_halted : Bool) (w : World)
        (s i : ℕ) (one other : Option Rule) (c : Command) → owns r (who.Student s) i ≡ false →
        IsWorldOf ids (choosing w i one) → IsWorldOf ids (choosing w i other) →
        line_to ids r limit is_halted (choosing w i one) (who.Student s) c
        ≡ line_to ids r limit is_halted (choosing w i other) (who.Student s) c }
{}

/// A student has a session in each of two twin labs, which differ at most in the links and registers at the beginning.
/// The same lines get the same replies in both, with the same bytes, if two conditions hold. The events that a reply is
/// based on must leave worlds that are alike for her. And no reply may be the refusal for memory or for the journal.
#[tactic(auto, using(crate::proofs::SessionsLemmas::session_both, crate::proofs::SessionsLemmas::session_bytes, std::proofs::lemmas::Bool::Decides::nat_tests))]
pub fn hidden_values_change_no_session()
    ensures replies { (lab other : LabValue) (s : ℕ) (st su : Standing) (lines : List (List ℕ))
        (rs qs : List Reply) (end fin : Standing) (one : SessionRun lab st lines rs end)
        (two : SessionRun other su lines qs fin) → IsLab lab → IsLab other → AreTwins lab other →
        st.known ≡ su.known → AreToldAlike lab other s st su lines rs qs end fin one two →
        (rs ≡ qs) × (end.known ≡ fin.known) }
    ensures bytes { (lab other : LabValue) (s : ℕ) (st su : Standing) (lines : List (List ℕ))
        (rs qs : List Reply) (end fin : Standing) (one : SessionRun lab st lines rs end)
        (two : SessionRun other su lines qs fin) → IsLab lab → IsLab other → AreTwins lab other →
        st.known ≡ su.known → AreToldAlike lab other s st su lines rs qs end fin one two →
        map (reply_line lab.ids lab.roster) rs ≡ map (reply_line other.ids other.roster) qs }
{}

/// Students who put together what they are shown (a coalition) learn nothing that none of them may see. Suppose that
/// two worlds are alike for each member. Then a command of a member has the same reply in both, and the worlds
/// afterwards are alike for each member. The same holds for a turn in states of two twin labs that are alike for each
/// member, on a connection on which a member or nobody is known. The same mishap, or none, must befall both turns.
///
/// Suppose that one script is run from such states, with the same mishaps in the same lines. Each line of somebody else
/// must keep the worlds alike for each member, and leave both journals halted or neither. Take the connections for
/// which `some` is true. If nobody but members is ever known on them, all of their output is the same. The states at
/// the end are alike for each member. A coalition has at least one member.
#[tactic(auto, using(crate::proofs::SightLemmas::same_reply_to, std::proofs::lemmas::Bool::Decides::nat_tests))]
pub fn coalitions_learn_nothing_hidden()
    ensures reply { (ids : List ℕ) (r : RosterValue) (limit : ℕ) (is_halted : Bool) (w v : World)
        (members : ℕ → Bool) (s : ℕ) (c : Command) → IsWorldOf ids w → IsWorldOf ids v →
        AlikeFor r members w v → members s ≡ true →
        reply_to ids r limit is_halted w (who.Student s) c
        ≡ reply_to ids r limit is_halted v (who.Student s) c }
    ensures afterwards { (ids : List ℕ) (r : RosterValue) (limit : ℕ) (is_halted : Bool)
        (w v : World) (members : ℕ → Bool) (s : ℕ) (c : Command) → IsWorldOf ids w →
        IsWorldOf ids v → AlikeFor r members w v → members s ≡ true →
        AlikeFor r members (world_left ids r limit is_halted w (who.Student s) c)
        (world_left ids r limit is_halted v (who.Student s) c) }
    ensures turn { (lab other : LabValue) (members : ℕ → Bool) (one : ℕ) (st su : State)
        (mishap : Mishap) (k : ℕ) (line : List ℕ) → AreTwins lab other → members one ≡ true →
        StatesAlikeFor lab members st su → is_theirs members (known_on st k) ≡ true →
        (reply_line lab.ids lab.roster (turn mishap lab st k line).reply
        ≡ reply_line other.ids other.roster (turn mishap other su k line).reply)
        × StatesAlikeFor lab members (turn mishap lab st k line).state
        (turn mishap other su k line).state }
    ensures connections { (lab other : LabValue) (members some : ℕ → Bool) (one : ℕ)
        (st su : State) (bs : List BefallenLine) → AreTwins lab other → members one ≡ true →
        StatesAlikeFor lab members st su → StayAlikeFor lab other members st su bs →
        AreTheirsThroughout lab members some st bs →
        (written_on_any lab some (lines_in bs) (replies_with lab st bs)
        ≡ written_on_any other some (lines_in bs) (replies_with other su bs))
        × StatesAlikeFor lab members (end_with lab st bs) (end_with other su bs) }
    ensures transcripts { (lab other : LabValue) (members some : ℕ → Bool) (one : ℕ)
        (t : Transcript lab) (u : Transcript other) (bs : List BefallenLine) →
        members one ≡ true → RunAlikeFor lab other members some t u bs →
        written_on_any lab some t.lines t.replies ≡ written_on_any other some u.lines u.replies }
{}

/// Two networks are alike for each member of a coalition at the beginning if they differ only in the registers of one
/// node that is visible to none of them. Two networks are also alike if they differ only in a link between two nodes
/// that none of them owns.
#[tactic(auto, using(crate::proofs::SightLemmas::of_others, std::proofs::lemmas::Bool::Decides::nat_tests))]
pub fn labs_may_differ_out_of_a_coalitions_sight()
    ensures registers { (n : Network) (r : RosterValue) (members : ℕ → Bool) (i : ℕ)
        (regs : Regs) → IsNetwork n →
        ((s : ℕ) → members s ≡ true → ¬ IsVisible r (configuration_of n) (who.Student s) i) →
        AlikeFor r members (opening_of n) (opening_of (with_registers n i regs)) }
    ensures link { (n : Network) (r : RosterValue) (members : ℕ → Bool) (a b : ℕ) → IsNetwork n →
        a < length n.registers → b < length n.registers →
        ((s : ℕ) → members s ≡ true →
        (owns r (who.Student s) a ≡ false) × (owns r (who.Student s) b ≡ false)) →
        AlikeFor r members (opening_of n) (opening_of (with_link n a b)) }
{}
