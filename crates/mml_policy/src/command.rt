//! The commands: requests to be shown something, and requests for events.
//!
//! A grant chooses a move for a node, a release drops it, and a close applies all chosen moves at once. A fault sets a
//! node's registers, a link joins two nodes, and a cut removes a link.
ghost use Rattle.std.specs.Prelude.{◌≡◌};
ghost use Rattle.mml_policy.specs.Acts.{is_act};

/// A command: what a participant may ask for on a connection after the hello. Nodes are named by their identifiers.
#[derive(Clone, Copy, PartialEq, Eq)]
pub enum Command {
    /// Shows the registers of a node.
    See { node: u64 },
    /// Shows a node as its owners see it, and the nodes linked to it.
    Look { node: u64 },
    /// Chooses a move for a node, in the configuration with the number `at`.
    Move { node: u64, rule: Asked, at: u64 },
    /// Applies all chosen moves at once.
    Close,
    /// Sets the registers of a node. A `p` of `None` is null.
    Fault { node: u64, p: Option<u64>, m: bool },
    /// Makes a link.
    Link { a: u64, b: u64 },
    /// Removes a link.
    Cut { a: u64, b: u64 },
    /// Drops the chosen move of a node.
    Release { node: u64 },
    /// Shows all pairs, free and privileged nodes and open links.
    Report,
}

/// A rule as a command names it: the partner of a marriage by its identifier.
#[derive(Clone, Copy, PartialEq, Eq)]
pub enum Asked {
    Update,
    /// A marriage with the node that has this identifier.
    Marriage(u64),
    Seduction,
    Abandonment,
}

impl Command {
    /// Returns whether the command asks for an event. The others, see, look and report, only ask to be shown something.
    pub fn is_act(&self) -> bool
        ensures { result ≡ is_act self.now }
    {
        match self {
            Command::See { .. } | Command::Look { .. } | Command::Report => false,
            Command::Move { .. }
            | Command::Close
            | Command::Fault { .. }
            | Command::Link { .. }
            | Command::Cut { .. }
            | Command::Release { .. } => true,
        }
    }
}
