//! What an attached domain is decided on.

ghost use Rattle.std.specs.Prelude.{◌≡◌};

use std::marker::Model;
use sysmem_merge::Settings;
use sysmem_tree::NodeId;

/// The settings of the domain to which an attached domain belongs, and the participants of the
/// collection that were accepted when it became the first domain to be decided.
#[derive(Debug, Drop)]
pub struct Base {
    settings: Settings,
    accepted: Vec<NodeId>,
}

impl Model for Base {
    ghost use Rattle.verdict_claims.specs.Base.{BaseFacts};

    ghost Value = { BaseFacts };

    ghost view = { λ b. record {
      settings = b.settings;
      accepted = b.accepted.items;
    } };
}

impl Base {
    /// These settings and these nodes. Any are a base; what a decision asks of them it says itself.
    pub fn new(settings: Settings, accepted: Vec<NodeId>) -> Base
        ensures { result ≡ record { settings = settings; accepted = accepted.items } }
    {
        Base { settings, accepted }
    }

    /// The settings that the domain is given unchanged, if it is given any.
    pub fn settings(&self) -> Settings
        ensures { result ≡ self.now.settings }
    {
        self.settings
    }

    /// The nodes that were accepted before, in the order of their domains'
    /// decisions, within a domain in pre-order.
    pub fn accepted(&self) -> &[NodeId]
        ensures { result.now ≡ self.now.accepted }
    {
        &self.accepted
    }
}
