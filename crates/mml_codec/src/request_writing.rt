//! The text of requests, with their keys in byte order. An error means that memory ran out.
ghost use Rattle.std.specs.Prelude.{◌≡◌, [], Ok, IfOk, OnOk, OnErr};
ghost use Rattle.serde_json.specs.Written.{compact_text};
ghost use Rattle.mml_policy.specs.declared.command.Command.TheVariants as command;
ghost use Rattle.mml_codec.specs.Canonical.{canonical, IsWritable};
ghost use Rattle.mml_codec.specs.Requests.{register, rule_word, command_fields};
ghost use Rattle.mml_codec.specs.Fields.{number, word, object_of, AreWritable};
ghost use Rattle.mml_codec.specs.inside.FieldViews.{field_view};
ghost use Rattle.mml_codec.specs.Lines.{request_in};

use crate::object::Field::{self, Null, Number, Text, Truth, Word};
use crate::object::object_text;
use crate::request::Request;
use mml_ids::Memory;
use mml_policy::{Asked, Command};
use std::alloc::{AllocError, Global};

/// Replaces the bytes of `out` by the text of a request, without a newline. Returns `Memory`, and leaves `out` empty,
/// if memory runs out.
pub fn write_request(alloc: Global, request: &Request, out: &mut Vec<u8>) -> Result<(), Memory>
    ensures text { OnOk result (out.new.items ≡ canonical request.now) }
    ensures again { OnOk result (request_in out.new.items ≡ Ok request.now) }
    ensures writable { IsWritable request.now }
    ensures memory { OnErr result (out.new.items ≡ []) }
{
    out.clear();
    let text = text_of(alloc, request)?;
    out.extend_from_slice(&text)?;
    Ok(())
}

/// Returns the text of a request, without a newline. Returns an error if memory runs out.
#[tactic(auto, unfolding(crate::specs::Canonical::canonical))]
fn text_of(alloc: Global, request: &Request) -> Result<Vec<u8>, AllocError>
    ensures writable { IsWritable request.now }
    ensures text { IfOk result (λ text. text.items ≡ canonical request.now) }
{
    match request {
        Request::Hello { name, key } => object_text(
            alloc,
            &[
                ("do", Word("hello")),
                ("key", Text(key.as_str())),
                ("name", Text(name.as_str())),
            ],
        ),
        Request::Bye => object_text(alloc, &[("do", Word("bye"))]),
        Request::Do(command) => command_text(alloc, *command),
    }
}

/// Returns the text of the request for a command, without a newline. Returns an error if memory runs out.
fn command_text(alloc: Global, command: Command) -> Result<Vec<u8>, AllocError>
    ensures writable { AreWritable (command_fields command) }
    ensures text { IfOk result (λ text. text.items ≡
        compact_text (object_of (command_fields command))) }
{
    match command {
        Command::See { node } => object_text(alloc, &[("do", Word("see")), ("node", Number(node))]),
        Command::Look { node } => {
            object_text(alloc, &[("do", Word("look")), ("node", Number(node))])
        }
        Command::Move { node, rule, at } => move_text(alloc, node, rule, at),
        Command::Close => object_text(alloc, &[("do", Word("close"))]),
        Command::Fault { node, p, m } => object_text(
            alloc,
            &[
                ("do", Word("fault")),
                ("m", Truth(m)),
                ("node", Number(node)),
                ("p", register(p)),
            ],
        ),
        Command::Link { a, b } => object_text(
            alloc,
            &[("a", Number(a)), ("b", Number(b)), ("do", Word("link"))],
        ),
        Command::Cut { a, b } => object_text(
            alloc,
            &[("a", Number(a)), ("b", Number(b)), ("do", Word("cut"))],
        ),
        Command::Release { node } => {
            object_text(alloc, &[("do", Word("release")), ("node", Number(node))])
        }
        Command::Report => object_text(alloc, &[("do", Word("report"))]),
    }
}

/// Returns the text of the request for a move by `rule` at the node with the identifier `node`, in configuration
/// `at`, without a newline. Only a marriage has the key `with`, for its partner, as the last key. Returns an error if
/// memory runs out.
fn move_text(alloc: Global, node: u64, rule: Asked, at: u64) -> Result<Vec<u8>, AllocError>
    ensures { IfOk result (λ text. text.items ≡ compact_text (object_of
        (command_fields (command.Move node rule at)))) }
{
    let asks = [
        ("at", Number(at)),
        ("do", Word("move")),
        ("node", Number(node)),
        ("rule", Word(rule_word(rule))),
    ];
    match rule {
        Asked::Marriage(with) => object_text(
            alloc,
            &[asks[0], asks[1], asks[2], asks[3], ("with", Number(with))],
        ),
        _ => object_text(alloc, &asks),
    }
}

/// Returns the value of the key `rule` in the request for a move.
fn rule_word(rule: Asked) -> &'static str
    ensures { result.now ≡ rule_word rule }
{
    match rule {
        Asked::Update => "update",
        Asked::Marriage(_) => "marriage",
        Asked::Seduction => "seduction",
        Asked::Abandonment => "abandonment",
    }
}

/// Returns the value of the key `p` in the request for a fault: the identifier of the node to point at, or null.
fn register(p: Option<u64>) -> Field<'static>
    ensures { field_view result ≡ register p }
{
    match p {
        Some(number) => Number(number),
        None => Null,
    }
}
