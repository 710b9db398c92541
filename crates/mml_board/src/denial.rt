//! The denials of requests.
//!
//! A clause is a condition under which a request is granted; a denial names the first that doesn't hold.
ghost use Rattle.std.specs.Prelude.{◌≡◌};
ghost use Rattle.mml_board.specs.Denials.{clause_of, denial_name, text_of};

/// Why a request is denied: the first clause that doesn't hold.
#[derive(Clone, Copy, PartialEq, Eq)]
pub enum Denial {
    /// The connection has no name yet.
    NotGreeted,
    /// The connection has a name already.
    Greeted,
    /// Nobody has that name with that key.
    Unknown,
    /// There is no such node, or it isn't visible to the asker.
    Hidden,
    /// There is no such node, or the asker doesn't own it.
    NotOwner,
    /// The move was asked for in another configuration than the current one, whose number this is.
    Stale(u64),
    /// A move is already chosen for the node.
    Chosen,
    /// The rule may not be applied at the node.
    Guard,
    /// The asker isn't the teacher.
    NotTeacher,
    /// No node has a chosen move.
    Empty,
    /// No node has that identifier.
    NoNode,
    /// The register would point at a node that isn't linked.
    BadRegister,
    /// Both ends are the same node.
    Loop,
    /// There is such a link already.
    Linked,
    /// There is no such link.
    NotLinked,
    /// The node has no chosen move.
    NotChosen,
}

impl Denial {
    /// Returns the number of the clause that doesn't hold. The clauses of a request count from 1, in the order in which
    /// they are tried. `NotGreeted` has the number 0, because it is tried before them.
    pub fn clause(self) -> u8
        ensures { result ≡ clause_of self }
    {
        match self {
            Denial::NotGreeted => 0,
            Denial::Greeted => 1,
            Denial::Unknown => 2,
            Denial::Hidden => 1,
            Denial::NotOwner => 1,
            Denial::Stale(_) => 2,
            Denial::Chosen => 3,
            Denial::Guard => 4,
            Denial::NotTeacher => 1,
            Denial::Empty => 2,
            Denial::NoNode => 2,
            Denial::BadRegister => 3,
            Denial::Loop => 3,
            Denial::Linked => 4,
            Denial::NotLinked => 3,
            Denial::NotChosen => 3,
        }
    }

    /// Returns the word for the denial in a reply, which programs read.
    pub fn name(self) -> &'static str
        ensures { result.now ≡ denial_name self }
    {
        match self {
            Denial::NotGreeted => "not-greeted",
            Denial::Greeted => "greeted",
            Denial::Unknown => "unknown",
            Denial::Hidden => "hidden",
            Denial::NotOwner => "not-owner",
            Denial::Stale(_) => "stale",
            Denial::Chosen => "chosen",
            Denial::Guard => "guard",
            Denial::NotTeacher => "not-teacher",
            Denial::Empty => "empty",
            Denial::NoNode => "no-node",
            Denial::BadRegister => "bad-register",
            Denial::Loop => "loop",
            Denial::Linked => "linked",
            Denial::NotLinked => "not-linked",
            Denial::NotChosen => "not-chosen",
        }
    }

    /// Returns the sentence for the denial in a reply, which people read.
    pub fn text(self) -> &'static str
        ensures { result.now ≡ text_of self }
    {
        match self {
            Denial::NotGreeted => "say hello first",
            Denial::Greeted => "this connection has a name already",
            Denial::Unknown => "name and key do not match",
            Denial::Hidden => "this node is not shown to you",
            Denial::NotOwner => "you do not own this node",
            Denial::Stale(_) => "this is not the current configuration",
            Denial::Chosen => "this node is already chosen",
            Denial::Guard => "the guard of this rule does not hold",
            Denial::NotTeacher => "only the teacher may do this",
            Denial::Empty => "no node is chosen",
            Denial::NoNode => "there is no such node",
            Denial::BadRegister => "p must be null or a neighbour",
            Denial::Loop => "a node is not linked to itself",
            Denial::Linked => "these nodes are linked already",
            Denial::NotLinked => "these nodes are not linked",
            Denial::NotChosen => "this node is not chosen",
        }
    }
}
