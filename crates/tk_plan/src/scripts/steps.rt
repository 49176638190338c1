//! The steps of a script.
ghost use Rattle.std.specs.Prelude.{◌≡◌};

use tk_events::Kind;

/// What a node does.
#[derive(Clone, Copy, Debug, PartialEq, Eq)]
pub enum Act {
    /// The node is registered below the node of that number.
    Register { parent: u32 },
    /// The node is skipped.
    Skip,
    /// The node starts.
    Start,
    /// The node publishes its entry of that number, from 0.
    Report(u32),
    /// The node publishes its file of that number, from 0.
    File(u32),
    /// The node finishes.
    Finish,
}

impl Act {
    ghost use Rattle.tk_plan.specs.StepEvents.{kind_of};

    /// The kind of the event that it emits.
    pub fn kind(self) -> Kind
        ensures { result ≡ kind_of self }
    {
        match self {
            Act::Register { parent: _ } => Kind::Dynamic,
            Act::Skip => Kind::Skipped,
            Act::Start => Kind::Started,
            Act::Report(_) => Kind::Reporting,
            Act::File(_) => Kind::File,
            Act::Finish => Kind::Finished,
        }
    }
}

/// A step of a script.
#[derive(Clone, Copy, Debug, PartialEq, Eq)]
pub struct Step {
    /// The number of the node that does it.
    pub node: u32,
    /// Its position in the root's script.
    pub stamp: u64,
    /// What the node does.
    pub act: Act,
}

/// What a node does, before its position is known.
#[derive(Clone, Copy)]
pub(crate) struct Move {
    pub node: u32,
    pub act: Act,
}
