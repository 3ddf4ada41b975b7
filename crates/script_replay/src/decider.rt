//! Who decides the domains of a collection.

ghost use Rattle.std.specs.Prelude.{◌≡◌, ◌++◌, ℕ, List, [], ◌∷◌, Some, option_map, IfErr, IfOk};
ghost use Rattle.std.specs.Arc.{arc_value};
ghost use Rattle.serde_json.specs.Data.{Data};
ghost use Rattle.script_replay.specs.Report.{Certified};
ghost use Rattle.script_replay.specs.Stop.{IfObjects};
ghost use Rattle.sysmem_alloc.specs.Entry.{Decided};
ghost use Rattle.sysmem_alloc.specs.History.{Allows};
ghost use Rattle.sysmem_alloc.specs.Sound.{MayWait};
ghost use Rattle.sysmem_alloc.specs.State.{State, next_ready};
ghost use Rattle.negotiation_inputs.specs.Platform.{PlatformFacts};
ghost use Rattle.sysmem_tree.specs.Path.{path_of};
ghost use Rattle.script_replay.specs.declared.decider.Objection.{Objection};
ghost use Rattle.script_replay.specs.declared.decider.Stop.TheVariants.{NoMemory};

use std::alloc::{AllocError, Global};
use std::sync::Arc;
use sysmem_alloc::Book;
use sysmem_tree::{DomainId, Path};
use verdict_claims::{Claim, No};

/// What fails of the certificate of a decision.
#[derive(Drop)]
pub struct Objection {
    /// The first test that it fails.
    pub no: No,
    /// Where the root of the domain is.
    pub path: Path,
}

/// Why a decision is not taken.
#[derive(Drop)]
pub enum Stop {
    /// A growth was refused.
    NoMemory,
    /// Its certificate fails a test.
    Refused(Objection),
}

impl From<AllocError> for Stop {
    ghost from_gives = { λ _ stop. stop ≡ NoMemory };

    fn from(_e: AllocError) -> Stop {
        Stop::NoMemory
    }
}

/// Decides the first domain of a book that waits.
pub trait Decider {
    /// What holds of the decisions that it took so far, for a platform.
    ghost gave: { Self → PlatformFacts → List Certified → Type 0 };

    /// What holds where it objects at a domain of a collection.
    ghost objects: { Self → PlatformFacts → State → ℕ → Objection → Type 0 };

    /// The objects of a certificate that it decides by, if it does.
    ghost given: { Self → List Data };

    /// A decision that the book allows.
    fn decide(
        &mut self,
        alloc: Global,
        book: &Book,
        domain: DomainId,
    ) -> Result<Option<Arc<Claim>>, Stop>
        requires next { next_ready book.now.state ≡ Some domain }
        requires waits { MayWait book.now.state.tree domain }
        ensures allowed { IfOk result (λ claim. Allows book.now.platform book.now.state
            (Decided (record {
              domain = domain;
              claim = option_map (λ shared. arc_value shared) claim;
            }))) }
        ensures gave { IfOk result (λ claim. (cs : List Certified)
            → gave self.old book.now.platform cs
            → gave self.new book.now.platform (cs ++ (
              path_of book.now.state.tree.nodes domain,
              option_map (λ shared. arc_value shared) claim,
            ) ∷ [])) }
        ensures kept { IfErr result (λ stop. IfObjects stop (λ objection. (cs : List Certified)
            → gave self.old book.now.platform cs → gave self.new book.now.platform cs)) }
        ensures objects { IfErr result (λ stop. IfObjects stop
            (objects self.new book.now.platform book.now.state domain)) }
        ensures given { given self.new ≡ given self.old };
}
