//! What becomes of a domain, as a report tells it.

ghost use Rattle.std.specs.Prelude.{◌≡◌, [], option_map, IfOk};
ghost use Rattle.std.specs.Arc.{arc_value};
ghost use Rattle.std.specs.String.{string_bytes};
ghost use Rattle.script_replay.specs.Events.{fate_seen, fate_text, pending};
ghost use Rattle.script_story.specs.Became.{became_by, became_of, chosen_by, chosen_in};

use crate::story::Became;
use explanation_text::{Choice, Decided, Items, Label};
use negotiation_inputs::Platform;
use script_replay::{Decision, DomainFate, put_fate};
use std::alloc::{AllocError, Global};
use std::sync::Arc;
use verdict_claims::{Chosen, Claim, Verdict};

/// What becomes of a domain, and what a report says of it.
pub struct Outcome {
    pub fate: DomainFate,
    /// What stands after the domain's path: of a verdict the word, and what was chosen.
    pub said: String,
}

impl Drop for Outcome {
    fn drop(self) {
        let Outcome { fate: _, said: _ } = self;
    }
}

impl Outcome {
    /// Nothing is told of a domain yet.
    pub(crate) fn untold(alloc: Global) -> Outcome
        ensures fate { fate_seen result.fate ≡ pending }
        ensures said { string_bytes result.said ≡ [] }
    {
        Outcome {
            fate: DomainFate::Pending,
            said: String::new(alloc),
        }
    }

    /// Of a domain of which this becomes.
    pub(crate) fn of(
        alloc: Global,
        platform: &Platform,
        fate: &DomainFate,
    ) -> Result<Outcome, AllocError>
        ensures fate { IfOk result (λ made. fate_seen made.fate ≡ fate_seen fate.now) }
        ensures said { IfOk result (λ made.
            string_bytes made.said ≡ fate_text platform.now (fate_seen fate.now)) }
    {
        let mut said = String::new(alloc);
        put_fate(&mut said, platform, fate)?;
        let fate = same_fate(fate)?;
        Ok(Outcome { fate, said })
    }

    /// What became of the domain.
    pub fn became(&self) -> Became
        ensures { result ≡ became_of (fate_seen self.now.fate) }
    {
        match &self.fate {
            DomainFate::Pending => Became::Pending,
            DomainFate::Failed => Became::Failed,
            DomainFate::Decided(one) => became_by(one.verdict()),
        }
    }

    /// Whether settings were chosen.
    pub fn is_chosen(&self) -> bool {
        self.became() == Became::Chosen
    }

    /// The decision, if one was made.
    pub fn decision(&self) -> Option<&Decision> {
        match &self.fate {
            DomainFate::Decided(one) => Some(one),
            _ => None,
        }
    }

    /// What was chosen, if something was.
    pub fn chosen(&self) -> Option<&Chosen>
        ensures { option_map (λ chosen. chosen.now) result ≡ chosen_in (fate_seen self.now.fate) }
    {
        match &self.fate {
            DomainFate::Decided(one) => chosen_by(one.verdict()),
            _ => None,
        }
    }

    /// For each group in effect the number of the chosen child; none where nothing was chosen.
    pub fn selection(&self) -> &[u8] {
        match self.chosen() {
            Some(chosen) => chosen.selection().choices(),
            None => &[],
        }
    }

    /// Puts it after a list as what would come of what stands above it.
    pub fn promise(self, items: &mut Items, depth: usize) {
        let decided = self.decided(items.alloc());
        let Outcome { said, fate: _ } = self;
        match decided {
            Ok(decided) => items.decide(depth, Label::Promised, said, decided),
            Err(AllocError) => items.refuse(),
        }
    }

    /// Puts it after a list as what the report says.
    pub fn tell(&self, items: &mut Items, depth: usize) {
        match self.parts(items.alloc()) {
            Ok((said, decided)) => items.decide(depth, Label::Told, said, decided),
            Err(AllocError) => items.refuse(),
        }
    }

    /// A copy of what the report says, and what it decides.
    fn parts(&self, alloc: Global) -> Result<(String, Decided), AllocError> {
        Ok((self.said.clone()?, self.decided(alloc)?))
    }

    /// What it decides, as a list of items keeps it.
    fn decided(&self, alloc: Global) -> Result<Decided, AllocError> {
        let (Some(decision), Some(chosen)) = (self.decision(), self.chosen()) else {
            return Ok(Decided::Word(self.became().word()));
        };
        let settings = chosen.settings();
        Ok(Decided::Chosen(Choice {
            selection: Vec::from_slice(alloc, chosen.selection().choices())?,
            count: settings.count,
            size_bytes: settings.size_bytes,
            place: settings.place,
            offer: settings.offer,
            corner: decision.corner,
        }))
    }
}

/// What became of a domain by its verdict, or by none where memory was refused.
fn became_by(verdict: Option<&Verdict>) -> Became
    ensures { result ≡ became_by (option_map (λ verdict. verdict.now) verdict.entry) }
{
    match verdict {
        Some(Verdict::Chosen(_)) => Became::Chosen,
        Some(Verdict::IntersectionEmpty) => Became::Empty,
        Some(Verdict::TooMany) => Became::TooMany,
        Some(Verdict::Failed) => Became::Failed,
        Some(Verdict::NoMemory) | None => Became::NoMemory,
    }
}

/// What a verdict chooses.
fn chosen_by(verdict: Option<&Verdict>) -> Option<&Chosen>
    ensures { option_map (λ chosen. chosen.now) result
        ≡ chosen_by (option_map (λ verdict. verdict.now) verdict.entry) }
{
    match verdict {
        Some(Verdict::Chosen(chosen)) => Some(chosen),
        _ => None,
    }
}

/// The same fate: its claim is kept once for both.
fn same_fate(fate: &DomainFate) -> Result<DomainFate, AllocError>
    ensures { IfOk result (λ same. fate_seen same ≡ fate_seen fate.now) }
{
    match fate {
        DomainFate::Pending => Ok(DomainFate::Pending),
        DomainFate::Failed => Ok(DomainFate::Failed),
        DomainFate::Decided(one) => Ok(DomainFate::Decided(Decision {
            claim: same_claim(&one.claim)?,
            corner: one.corner,
        })),
    }
}

/// The same claim, if there is one.
fn same_claim(claim: &Option<Arc<Claim>>) -> Result<Option<Arc<Claim>>, AllocError>
    ensures { IfOk result (λ same. option_map (λ shared. arc_value shared) same
        ≡ option_map (λ shared. arc_value shared) claim.now) }
{
    match claim {
        Some(shared) => Ok(Some(Arc::try_clone(shared)?)),
        None => Ok(None),
    }
}
