//! What an audit answers.

ghost use Rattle.std.specs.Prelude.{◌≡◌};
ghost use Rattle.sysmem_participants.specs.Audit.{fault_text};

/// What was found of a collection whose handles are all spent.
#[derive(Clone, Copy, Debug, PartialEq, Eq)]
pub struct Audit {
    /// Its nodes, as many as stubs: 1 to 128.
    pub nodes: u32,
    /// The actions in its history, those of all handles together.
    pub actions: u32,
    /// The decisions in its history.
    pub decisions: u32,
}

/// Why an audit says no: the first that is true, in this order, of all stubs, once their cells were
/// read.
#[derive(Clone, Copy, Debug, PartialEq, Eq)]
pub enum AuditFault {
    /// The stub of a node is missing, doubled, or of no node; or stubs are for another platform.
    Stubs,
    /// The calls of a path differ.
    Calls,
    /// The verdict that a stub knows isn't the collection's.
    Verdicts,
    /// Memory was refused.
    NoMemory,
}

impl AuditFault {
    /// The fault's code; a want of memory has the name of that refusal.
    pub fn name(self) -> &'static str
        ensures { result.now ≡ fault_text self }
    {
        match self {
            AuditFault::Stubs => "A1",
            AuditFault::Calls => "A3",
            AuditFault::Verdicts => "A4",
            AuditFault::NoMemory => "E1 NoMemory",
        }
    }
}
