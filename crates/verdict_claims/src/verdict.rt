//! What a decision gives.

ghost use Rattle.std.specs.Prelude.{◌≡◌, ◌↔◌, IsTrue};

use std::marker::Model;
use sysmem_merge::Settings;
use sysmem_tree::Prefix;

/// The most selections that a decision goes through.
pub const MOST_SELECTIONS: u64 = 4096;

/// What was decided of a domain, or became of it without a decision.
#[derive(Debug, Drop)]
pub enum Verdict {
    /// The first selection that any settings meet, with the best settings for it.
    Chosen(Chosen),
    /// No settings meet any selection.
    IntersectionEmpty,
    /// There are more than 4,096 selections.
    TooMany,
    /// The domain has no decision: a node was closed before it was ready, or the collection to
    /// which its root was attached isn't given the settings of its own domain.
    Failed,
    /// Memory was refused to the decision.
    NoMemory,
}

impl Verdict {
    /// Whether the other is the same: equal in kind, and where it chose
    /// in its selection and its settings.
    pub fn is_same(&self, other: &Verdict) -> bool
        ensures { IsTrue result ↔ (self.now ≡ other.now) }
    {
        match self {
            Verdict::Chosen(chosen) => match other {
                Verdict::Chosen(other) => chosen.is_same(other),
                _ => false,
            },
            Verdict::IntersectionEmpty => matches!(other, Verdict::IntersectionEmpty),
            Verdict::TooMany => matches!(other, Verdict::TooMany),
            Verdict::Failed => matches!(other, Verdict::Failed),
            Verdict::NoMemory => matches!(other, Verdict::NoMemory),
        }
    }
}

/// A selection, and settings for its members.
#[derive(Debug, Drop)]
pub struct Chosen {
    selection: Prefix,
    settings: Settings,
}

impl Model for Chosen {
    ghost use Rattle.verdict_claims.specs.Chosen.{ChosenFacts};

    ghost Value = { ChosenFacts };

    ghost view = { λ c. record {
      selection = c.selection;
      settings = c.settings;
    } };
}

impl Chosen {
    /// These settings for the members of this selection.
    pub fn new(selection: Prefix, settings: Settings) -> Chosen
        ensures { result ≡ record { selection = selection; settings = settings } }
    {
        Chosen {
            selection,
            settings,
        }
    }

    /// For each group in effect the number of the chosen child, groups in pre-order.
    pub fn selection(&self) -> &Prefix
        ensures { result.now ≡ self.now.selection }
    {
        &self.selection
    }

    /// The settings that all members share.
    pub fn settings(&self) -> Settings
        ensures { result ≡ self.now.settings }
    {
        self.settings
    }
    /// Whether the other has the same selection, with the same settings.
    pub fn is_same(&self, other: &Chosen) -> bool
        ensures { IsTrue result ↔ (self.now ≡ other.now) }
    {
        is_same_choices(self.selection().choices(), other.selection().choices())
            && self.settings() == other.settings()
    }
}

/// Whether the choices are the same, one by one.
fn is_same_choices(a: &[u8], b: &[u8]) -> bool
    ensures { IsTrue result ↔ (a.now ≡ b.now) }
{
    a == b
}
