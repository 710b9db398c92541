//! Looking up the nodes that a command names.
//!
//! A clause is a condition under which a command is allowed.
ghost use Rattle.std.specs.Prelude.{◌≡◌, ◌<◌, length, IfSome, option_map};
ghost use Rattle.mml_ids.specs.Ids.{rank_in};
ghost use Rattle.mml_policy.specs.Clauses.{rule_of};

use crate::command::Asked;
use mml_ids::{IdTable, Rank};
use mml_lab::{Student, Who};
use mml_rules::Rule;

/// The node that is asked for, and who asks.
#[derive(Clone, Copy)]
pub(crate) struct AskedNode {
    /// The node with the identifier, if there is one.
    pub(crate) found: Option<Rank>,
    /// The asker, or a student who isn't in any roster if no node was found.
    pub(crate) who: Who,
    /// The node that was found, or another one.
    pub(crate) node: Rank,
}

/// Looks up the node with the identifier `id`, for which `who` asks. If there is none, returns another node and a
/// student who isn't in any roster. The caller then makes the same tests as for a node that `who` may not see, and
/// denies the command, since `found` is `None`.
pub(crate) fn asked_for(ids: &IdTable, who: Who, id: u64) -> AskedNode
    ensures found { result.found ≡ rank_in ids.now id }
    ensures asked { IfSome result.found (λ i. (result.who ≡ who) × (result.node ≡ i)) }
    ensures there { result.node < length ids.now }
{
    let found = ids.rank_of(id);
    let other = Rank::at(id % ids.len());
    match found {
        Some(node) => AskedNode { found, who, node },
        None => AskedNode {
            found,
            who: Who::Student(Student::new(u16::MAX)),
            node: other,
        },
    }
}

/// Returns the rule that is asked for, with the partner of a marriage looked up. Returns `None` for a marriage if no
/// node has the partner's identifier.
pub(crate) fn rule_of(ids: &IdTable, asked: Asked) -> Option<Rule>
    ensures { result ≡ rule_of ids.now asked }
{
    match asked {
        Asked::Update => Some(Rule::Update),
        Asked::Marriage(id) => Some(Rule::Marriage(ids.rank_of(id)?)),
        Asked::Seduction => Some(Rule::Seduction),
        Asked::Abandonment => Some(Rule::Abandonment),
    }
}

/// Looks up the node at which the register p is to point. Returns `None` if the identifier `p` is `None`, which stands
/// for null. Otherwise returns `Some` with the node that has the identifier, or with `None` if no node has it.
pub(crate) fn pointer(ids: &IdTable, p: Option<u64>) -> Option<Option<Rank>>
    ensures { result ≡ option_map (rank_in ids.now) p }
{
    match p {
        None => None,
        Some(id) => Some(ids.rank_of(id)),
    }
}
