//! The text of JSON objects whose values are neither arrays nor objects. An error means that memory ran out.
ghost use Rattle.std.specs.Prelude.{◌≡◌, ◌++◌, map, IfOk, OnOk};
ghost use Rattle.json.specs.Tree.{json_tokens};
ghost use Rattle.serde_json.specs.Written.{compact_text, outline};
ghost use Rattle.mml_codec.specs.Fields.{value_of, object_of};
ghost use Rattle.mml_codec.specs.inside.FieldViews.{field_view, tokens_of};

use json::Writer;
use std::alloc::{AllocError, Global};

/// The value of a key in an object.
#[derive(Clone, Copy)]
pub(crate) enum Field<'a> {
    Number(u64),
    /// A word that the protocol fixes.
    Word(&'static str),
    /// A text that the protocol doesn't fix.
    Text(&'a str),
    Truth(bool),
    Null,
}

/// Returns the JSON text of an object that has these keys and values, in this order. Returns an error if memory runs
/// out.
pub(crate) fn object_text(
    alloc: Global,
    members: &[(&'static str, Field<'_>)],
) -> Result<Vec<u8>, AllocError>
    ensures { IfOk result (λ text. text.items ≡
        compact_text (object_of (map (λ m. (m.0.now, field_view m.1)) members.now))) }
{
    let mut writer = Writer::new(Vec::new(alloc));
    writer.begin_object()?;
    for member in members {
        put_member(&mut writer, member)?;
    }
    writer.end_object()?;
    Ok(writer.into_inner())
}

/// Writes a key and its value into the object that `writer` has begun. Returns an error if memory runs out.
fn put_member(writer: &mut Writer, member: &(&'static str, Field<'_>)) -> Result<(), AllocError>
    ensures before { writer.new.before ≡ writer.old.before }
    ensures tokens { OnOk result
        (writer.new.tokens ≡ writer.old.tokens ++ tokens_of (member.now.0.now, field_view member.now.1)) }
{
    writer.key(member.0)?;
    put_field(writer, member.1)
}

/// Writes the value of the key that `writer` has just written. Returns an error if memory runs out.
fn put_field(writer: &mut Writer, field: Field<'_>) -> Result<(), AllocError>
    ensures before { writer.new.before ≡ writer.old.before }
    ensures tokens { OnOk result (writer.new.tokens ≡
        writer.old.tokens ++ json_tokens (outline (value_of (field_view field.entry)))) }
{
    match field {
        Field::Number(number) => writer.u64(number),
        Field::Word(word) => writer.string(word),
        Field::Text(text) => writer.string(text),
        Field::Truth(truth) => writer.boolean(truth),
        Field::Null => writer.null(),
    }
}
