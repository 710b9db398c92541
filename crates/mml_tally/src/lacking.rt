//! The participants whose lines are all recorded.
//!
//! A participant is known on a connection from a granted hello to the bye. Lines of a participant may be missing if
//! recording paused while the participant was known. Lines of every participant may be missing if an entry of the
//! record says so. A record has the lines of sessions with their replies. Recording pauses when a budget is used up.
//! The findings of a record are its summary.
ghost use Rattle.std.specs.Prelude.{◌≡◌, ◌++◌, length, OnOk};
ghost use Rattle.mml_lab.specs.Rosters.{IsPrincipal};
ghost use Rattle.mml_tally.specs.Lacking.{IsCounted, lacks, has_all_of, whole_name, whole_names, recorded_line};

use crate::record_text::Findings;
use mml_ids::{Memory, Piece, Rank, put};
use mml_lab::{Lab, Roster, Student, Who};

impl Findings {
    /// Returns whether lines of `who` may be missing in the record because recording paused while `who` was known. The
    /// set `lacking` has such students; a rank in it is a student's index. If `who` is a student, the index must be
    /// below 256.
    pub fn lacks(&self, who: Who) -> bool
        requires { IsCounted who }
        ensures { result ≡ lacks self.now who }
    {
        match who {
            Who::Teacher => self.lacks_teacher,
            Who::Student(student) => self.lacking.has(Rank::at(u64::from(student.index()))),
        }
    }

    /// Returns whether the record has all lines of `who`: no entry says that lines of anybody may be missing, or that
    /// recording paused while `who` was known. If `who` is a student, the student's index must be below 256.
    pub fn has_all_of(&self, who: Who) -> bool
        requires { IsCounted who }
        ensures { result ≡ has_all_of self.now who }
    {
        !self.is_cut && !self.lacks(who)
    }
}

/// Appends the tally's line about the participants whose lines are all in the record. The line has the word `whole`,
/// and then the names of these participants: first the teacher's, and then the students' in the lab's order. Returns
/// `Memory` if memory runs out.
pub fn put_recorded(out: &mut Vec<u8>, lab: &Lab, findings: &Findings) -> Result<(), Memory>
    ensures { OnOk result
        (out.new.items ≡ out.old.items ++ recorded_line lab.now findings.now) }
{
    put(out, &[Piece::Text("whole")])?;
    put_if_whole(out, lab.roster(), findings, Who::Teacher)?;
    put_students(out, lab, findings)?;
    put(out, &[Piece::Text("\n")])
}

/// Appends the names of the students whose lines are all in the record, in the lab's order, each after a space. Returns
/// `Memory` if memory runs out.
fn put_students(out: &mut Vec<u8>, lab: &Lab, findings: &Findings) -> Result<(), Memory>
    ensures { OnOk result (out.new.items ≡ out.old.items
        ++ whole_names lab.now.roster findings.now (length lab.now.roster.students)) }
{
    let roster = lab.roster();
    for index in 0..roster.student_count() {
        let student = Student::new(index as u16);
        put_if_whole(out, roster, findings, Who::Student(student))?;
    }
    Ok(())
}

/// Appends the name of `who`, after a space, if the record has all lines of `who`, who must be in the roster. Returns
/// `Memory` if memory runs out.
fn put_if_whole(
    out: &mut Vec<u8>,
    roster: &Roster,
    findings: &Findings,
    who: Who,
) -> Result<(), Memory>
    requires { IsPrincipal roster.now who }
    ensures { OnOk result
        (out.new.items ≡ out.old.items ++ whole_name roster.now findings.now who) }
{
    // Called only for its contract, which the proof needs: there are at most as many students as a set has ranks.
    let _count = roster.student_count();
    // A reference is used because the toolchain doesn't copy a value that contains a student, even if its type is
    // `Copy`.
    let who = &who;
    if findings.has_all_of(*who) {
        put(out, &[Piece::Text(" "), Piece::Text(roster.name_of(*who))])
    } else {
        Ok(())
    }
}
