//! The fields of a request: the values of the keys that requests use.
//!
//! A member of an object is a key with its value.
ghost use Rattle.std.specs.Prelude.{◌≡◌};
ghost use Rattle.serde_json.specs.Data.{object, no_members};
ghost use Rattle.mml_plain.specs.Holds.{Holds};
ghost use Rattle.mml_plain.specs.Fields.{with};

use crate::member_value::MemberValue;

/// The values of the keys that requests use, for one object. Each field but `word` has the name of its key. A field is
/// `None` if the object doesn't have the key, or its value is of another kind. If a key occurs several times, its last
/// value counts.
#[derive(Clone, Copy, Drop)]
pub struct Fields<'a> {
    /// The request's word, under the key `do`.
    pub word: Option<&'a str>,
    pub name: Option<&'a str>,
    pub key: Option<&'a str>,
    pub node: Option<u64>,
    pub rule: Option<&'a str>,
    pub with: Option<u64>,
    pub at: Option<u64>,
    /// What the register p is to be set to: `Some(Some(id))` to point at the node with this identifier, `Some(None)`
    /// for null.
    pub p: Option<Option<u64>>,
    pub m: Option<bool>,
    pub a: Option<u64>,
    pub b: Option<u64>,
}

impl<'a> Fields<'a> {
    /// Returns the fields of an object with no members.
    pub fn empty() -> Fields<'a>
        ensures { Holds result (object no_members) }
    {
        Fields {
            word: None,
            name: None,
            key: None,
            node: None,
            rule: None,
            with: None,
            at: None,
            p: None,
            m: None,
            a: None,
            b: None,
        }
    }

    /// Adds one member of an object. If `key` is the key of a field, sets this field to the value, or to `None` if the
    /// value is of another kind. Ignores the member if its key is any other. Keys of one letter are compared
    /// separately, so that fewer comparisons are made.
    #[inline(always)]
    pub(crate) fn put(&mut self, key: &str, value: &MemberValue<'a>)
        ensures { self.new ≡ with key.now value.now self.old }
    {
        if key.len() == 1 {
            match key {
                "p" => self.p = value.register(),
                "m" => self.m = value.truth(),
                "a" => self.a = value.number(),
                "b" => self.b = value.number(),
                _ => {}
            }
        } else {
            match key {
                "do" => self.word = value.text(),
                "name" => self.name = value.text(),
                "key" => self.key = value.text(),
                "node" => self.node = value.number(),
                "rule" => self.rule = value.text(),
                "with" => self.with = value.number(),
                "at" => self.at = value.number(),
                _ => {}
            }
        }
    }
}
