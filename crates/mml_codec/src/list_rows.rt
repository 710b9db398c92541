//! The fields of the replies to a look and a report. The error `Memory` means that memory ran out.
//!
//! The fields of a reply are in byte order of their keys. A `ListRow` has the fields before a list, the list, and what
//! comes after it. A `Row` has a key, its value and what comes after it, and an `Opening` has the key of a list.
//! `Rest` has the fields after the last list, and `End` is the end of the object. A `Word` is a text that is written
//! in quotation marks.
ghost use Rattle.std.specs.Prelude.{◌≡◌, ◌≤◌, ◌<◌, ◌^◌, ◌++◌, length, OnOk, vec_capacity};
ghost use Rattle.mml_policy.specs.About.{IsLookedAt};
ghost use Rattle.mml_stable.specs.Reports.{NamesNodes};
ghost use Rattle.mml_codec.specs.Facts.{object_text};
ghost use Rattle.mml_codec.specs.Replies.{look_fields, report_fields};

use crate::list_writing::{ListRow, Listing, Opening, Rest};
use crate::reply_value::Word;
use crate::table::{End, Row};
use mml_ids::{IdTable, Memory};
use mml_policy::Look;
use mml_stable::Report;

/// Appends the text of the reply to a granted look, a JSON object, to `out`. `ids` must have an identifier for each
/// node of the look. Returns `Memory` if memory runs out; then `out` may have only the beginning of the text.
#[tactic(auto, unfolding(crate::specs::Facts::object_text))]
pub(crate) fn put_look(ids: &IdTable, look: &Look, out: &mut Vec<u8>) -> Result<(), Memory>
    requires { IsLookedAt ids.now look.now }
    ensures text { OnOk result
        (out.new.items ≡ out.old.items ++ object_text ids.now (look_fields look.now)) }
    ensures capacity { vec_capacity out.old ≤ vec_capacity out.new }
    ensures count { look.now.at < 2 ^ 64 }
{
    // The number `at` is read only for the proof of `count`, which needs that its type has 64 bits.
    let _at = look.at;
    let fields = ListRow {
        before: Row {
            key: "at",
            value: look.at,
            rest: Row {
                key: "chosen",
                value: look.chosen,
                rest: Row {
                    key: "m",
                    value: look.regs.m,
                    rest: Opening { key: "near" },
                },
            },
        },
        items: &look.near,
        rest: Rest {
            fields: Row {
                key: "node",
                value: look.node,
                rest: Row {
                    key: "ok",
                    value: Word("look"),
                    rest: Row {
                        key: "p",
                        value: look.regs.p,
                        rest: Row {
                            key: "rule",
                            value: look.enabled,
                            rest: End,
                        },
                    },
                },
            },
        },
    };
    fields.put_fields(ids, "{", out)
}

/// Appends the text of the reply to a granted report, a JSON object, to `out`. `ids` must have an identifier for each
/// node of the report. Returns `Memory` if memory runs out; then `out` may have only the beginning of the text.
#[tactic(auto, unfolding(crate::specs::Facts::object_text))]
pub(crate) fn put_report(ids: &IdTable, report: &Report, out: &mut Vec<u8>) -> Result<(), Memory>
    requires { NamesNodes (length ids.now) report.now }
    ensures text { OnOk result
        (out.new.items ≡ out.old.items ++ object_text ids.now (report_fields report.now)) }
    ensures capacity { vec_capacity out.old ≤ vec_capacity out.new }
    ensures count { report.now.at < 2 ^ 64 }
{
    // The number `at` is read only for the proof of `count`, which needs that its type has 64 bits.
    let _at = report.at;
    let fields = ListRow {
        before: Row {
            key: "at",
            value: report.at,
            rest: Opening { key: "free" },
        },
        items: &report.free,
        rest: ListRow {
            before: Row {
                key: "ok",
                value: Word("report"),
                rest: Opening { key: "open" },
            },
            items: &report.open_links,
            rest: ListRow {
                before: Opening { key: "pairs" },
                items: &report.pairs,
                rest: ListRow {
                    before: Opening { key: "privileged" },
                    items: &report.privileged,
                    rest: Rest {
                        fields: Row {
                            key: "stable",
                            value: report.stable,
                            rest: End,
                        },
                    },
                },
            },
        },
    };
    fields.put_fields(ids, "{", out)
}
