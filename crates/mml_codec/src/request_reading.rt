//! Reading a line of JSON as a request.
//!
//! The fields of a line are the values of the keys that requests use. A field is missing if the line doesn't have its
//! key, or the value is of another kind.
ghost use Rattle.std.specs.Prelude.{◌≡◌, ◌<◌, ◌⊎◌, length, true, Err, ok_or};
ghost use Rattle.mml_ids.specs.Gives.{Gives};
ghost use Rattle.serde_json.specs.Data.{Data};
ghost use Rattle.mml_plain.specs.Holds.{Holds};
ghost use Rattle.mml_codec.specs.Requests.{node_of, ends_of, hello_of, move_of, fault_of, request};
ghost use Rattle.mml_policy.specs.declared.command.Command.TheVariants as command;
ghost use Rattle.mml_codec.specs.Lines.{is_line_memory, is_hello, request_in};
ghost use Rattle.mml_codec.specs.inside.Reading.{Reads};

use crate::request::{LineFault, Request};
use mml_ids::Word;
use mml_plain::{Fields, LineScratch, read_fields};
use mml_policy::{Asked, Command};
use std::alloc::Global;

/// Reads a line, without its newline, as a request. Returns `Malformed` if the line is no request, and `Memory` if
/// memory runs out.
pub fn read_request(alloc: Global, line: &[u8]) -> Result<Request, LineFault>
    ensures { Gives is_line_memory (λ r. r) result (request_in line.now) }
{
    let mut scratch = LineScratch::new(alloc, line.len())?;
    read_request_with(alloc, line, &mut scratch)
}

/// Reads a line, without its newline, as a request. Returns `Malformed` if the line is no request, and `Memory` if
/// memory runs out. `scratch` is working memory, which is used again for each line. Memory is allocated only for a
/// hello, or if `scratch` has no room for the line.
pub fn read_request_with(
    alloc: Global,
    line: &[u8],
    scratch: &mut LineScratch,
) -> Result<Request, LineFault>
    ensures request { Gives is_line_memory (λ r. r) result (request_in line.now) }
    ensures memory { result ≡ Err LineFault.Memory → (scratch.old < length line.now)
        ⊎ (is_hello (request_in line.now) ≡ true) }
{
    let mut fields = Fields::empty();
    if read_fields(line, scratch, &mut fields)? {
        request(alloc, &fields)
    } else {
        Err(LineFault::Malformed)
    }
}

/// Returns the request with these fields. The key `do` has the word of the request, and the other keys have its values.
/// Returns `Malformed` if these aren't the fields of a request, and `Memory` if memory runs out. Memory is allocated
/// only for a hello.
#[tactic(auto, unfolding(crate::specs::Requests::request, crate::specs::Requests::by_word))]
fn request(alloc: Global, fields: &Fields<'_>) -> Result<Request, LineFault>
    ensures { Reads request fields.now result }
{
    let request = match fields.word.ok_or(LineFault::Malformed)? {
        "hello" => return hello_of(alloc, fields),
        "bye" => Some(Request::Bye),
        "see" => see_of(fields),
        "look" => look_of(fields),
        "move" => move_of(fields),
        "close" => Some(Request::Do(Command::Close)),
        "fault" => fault_of(fields),
        "link" => link_of(fields),
        "cut" => cut_of(fields),
        "release" => release_of(fields),
        "report" => Some(Request::Do(Command::Report)),
        _ => None,
    };
    request.ok_or(LineFault::Malformed)
}

/// Returns the hello with copies of the name and the key in the fields. Returns `Malformed` if the name or the key is
/// missing, and `Memory` if memory runs out.
#[tactic(auto, unfolding(crate::specs::Requests::hello_of))]
fn hello_of(alloc: Global, fields: &Fields<'_>) -> Result<Request, LineFault>
    ensures { Reads hello_of fields.now result }
{
    let name = fields.name.ok_or(LineFault::Malformed)?;
    let key = fields.key.ok_or(LineFault::Malformed)?;
    Ok(Request::Hello {
        name: Word::of(String::from_str(alloc, name)?),
        key: Word::of(String::from_str(alloc, key)?),
    })
}

/// Returns the request to see the node in the fields, or `None` if the node is missing.
fn see_of(fields: &Fields<'_>) -> Option<Request>
    ensures { (d : Data) → Holds fields.now d → result ≡ node_of command.See d }
{
    let node = fields.node?;
    Some(Request::Do(Command::See { node }))
}

/// Returns the request to look at the node in the fields, or `None` if the node is missing.
fn look_of(fields: &Fields<'_>) -> Option<Request>
    ensures { (d : Data) → Holds fields.now d → result ≡ node_of command.Look d }
{
    let node = fields.node?;
    Some(Request::Do(Command::Look { node }))
}

/// Returns the request to link the nodes `a` and `b` in the fields, or `None` if one of them is missing.
fn link_of(fields: &Fields<'_>) -> Option<Request>
    ensures { (d : Data) → Holds fields.now d → result ≡ ends_of command.Link d }
{
    let a = fields.a?;
    let b = fields.b?;
    Some(Request::Do(Command::Link { a, b }))
}

/// Returns the request to cut the link of the nodes `a` and `b` in the fields, or `None` if one of them is missing.
fn cut_of(fields: &Fields<'_>) -> Option<Request>
    ensures { (d : Data) → Holds fields.now d → result ≡ ends_of command.Cut d }
{
    let a = fields.a?;
    let b = fields.b?;
    Some(Request::Do(Command::Cut { a, b }))
}

/// Returns the request to release the node in the fields, or `None` if the node is missing.
fn release_of(fields: &Fields<'_>) -> Option<Request>
    ensures { (d : Data) → Holds fields.now d → result ≡ node_of command.Release d }
{
    let node = fields.node?;
    Some(Request::Do(Command::Release { node }))
}

/// Returns the request for the move in the fields. Returns `None` if the node or the number of a configuration is
/// missing, if the rule isn't one of the four, or if a marriage has no partner. It is inlined into `request`, since a
/// move is frequent.
#[inline(always)]
#[tactic(auto, unfolding(crate::specs::Requests::move_of, crate::specs::Requests::asked_at))]
fn move_of(fields: &Fields<'_>) -> Option<Request>
    ensures { (d : Data) → Holds fields.now d → result ≡ move_of d }
{
    let node = fields.node?;
    let at = fields.at?;
    let rule = match fields.rule? {
        "update" => Asked::Update,
        "marriage" => Asked::Marriage(fields.with?),
        "seduction" => Asked::Seduction,
        "abandonment" => Asked::Abandonment,
        _ => return None,
    };
    Some(Request::Do(Command::Move { node, rule, at }))
}

/// Returns the request for the fault in the fields, or `None` if the node or one of the two registers is missing.
#[tactic(auto, unfolding(crate::specs::Requests::fault_of))]
fn fault_of(fields: &Fields<'_>) -> Option<Request>
    ensures { (d : Data) → Holds fields.now d → result ≡ fault_of d }
{
    let node = fields.node?;
    let p = fields.p?;
    let m = fields.m?;
    Some(Request::Do(Command::Fault { node, p, m }))
}
