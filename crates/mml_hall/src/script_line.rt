//! The lines of a script. Connections count from 1.
ghost use Rattle.std.specs.Prelude.{◌≡◌, ◌≢◌, ◌≤◌, ◌++◌, ◌∷◌, [], decimal, IfSome, IfNone, MatchOption};
ghost use Rattle.mml_lab.specs.declared.TheConstants.{MAX_SESSIONS};
ghost use Rattle.mml_lines.specs.LinesOf.{IsWithinLimit};
ghost use Rattle.mml_hall.specs.Turns.{RequestLine};
ghost use Rattle.mml_hall.specs.ScriptLines.{IsScriptLine, line_of, request_on, script_line};

use crate::MAX_SCRIPT_LINE;
use mml_codec::MAX_REQUEST;
use mml_journal::number_in;

/// A line of a script: a request line, and the number of the connection on which it comes.
#[derive(Clone, Copy)]
pub struct ScriptLine<'a> {
    pub connection: u8,
    /// The connection and the space after it, as in the line.
    pub front: &'a [u8],
    pub request: &'a [u8],
}

/// Reads a script line, without its newline: a connection in decimal, one space and a request. The line must have at
/// most `MAX_SCRIPT_LINE` bytes. Returns `None` if the line has another form, the lab doesn't have the connection
/// (`sessions` is how many it has), or the request is too long. The function is inlined together with `parts_of`, since
/// the results of both are large to return.
#[inline(always)]
pub fn read_script_line(line: &[u8], sessions: u8) -> Option<ScriptLine<'_>>
    requires few { sessions ≤ MAX_SESSIONS }
    requires line { IsWithinLimit MAX_SCRIPT_LINE line.now }
    ensures valid { IfSome result (λ s. IsScriptLine sessions (line_of s)) }
    ensures spelled { IfSome result (λ s. line.now ≡ script_line (line_of s)) }
    ensures front { IfSome result (λ s. s.front.now ≡ decimal s.connection ++ 32 ∷ []) }
    ensures none { IfNone result
        ((s : RequestLine) → IsScriptLine sessions s → line.now ≢ script_line s) }
{
    let (connection, request) = parts_of(line, sessions)?;
    let (front, _) = line.split_at(line.len() - request.len());
    Some(ScriptLine {
        connection,
        front,
        request,
    })
}

/// Returns the connection and the request of a script line. Returns `None` if `line` doesn't have the form of a script
/// line, the lab doesn't have the connection (`sessions` is how many it has), or the request is too long.
#[inline(always)]
#[tactic(auto, using(crate::proofs::ScriptLinesLemmas::script_line_begins))]
fn parts_of(line: &[u8], sessions: u8) -> Option<(u8, &[u8])>
    requires { IsWithinLimit MAX_SCRIPT_LINE line.now }
    ensures { MatchOption result
        ((s : RequestLine) → IsScriptLine sessions s → line.now ≢ script_line s)
        (λ x. IsScriptLine sessions (request_on x.0 x.1.now) × (line.now ≡ script_line (request_on x.0 x.1.now))) }
{
    let (connection, request) = number_in(line)?;
    if 0 < connection && connection <= u64::from(sessions) && request.len() <= MAX_REQUEST {
        Some((connection as u8, request))
    } else {
        None
    }
}
