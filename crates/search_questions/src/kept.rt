//! What a search keeps of participants, so that each is read once and not again at each prefix that
//! settles it.

ghost use Rattle.std.specs.Prelude.{◌++◌, List, [], ◌∷◌, length, IfOk, IfErr, IsTrue};
ghost use Rattle.verdict_claims.specs.Matter.{Matter};
ghost use Rattle.verdict_claims.specs.Members.{participants};
ghost use Rattle.negotiation_inputs.specs.Participant.{Participant};
ghost use Rattle.search_questions.specs.Asking.{IsAnswer, IsOpenOf, JoinsPairs, LooksAt};
ghost use Rattle.search_questions.specs.Kept.{IsKeptFor, IsPartFor, HasPairs, HasRoom, HaveRoom};
ghost use Rattle.search_questions.specs.declared.kept.PrefixSum.TheVariants as kept_as;
ghost use Rattle.sysmem_tree.specs.Shape.{Member};

use crate::on_base::OnBase;
use conflict_finding::Subject;
use negotiation_inputs::Constraints;
use std::alloc::AllocError;
use sysmem_merge::{Asked, Settings, Share, Sum};

/// What is kept of the participants that one choice settles, made once for a search.
#[derive(Drop)]
pub(crate) enum ChoiceShare {
    /// Of an initial domain: what they ask for together.
    Share(Share),
    /// Of an attached domain: how they take its base.
    OnBase(OnBase),
}

/// What is kept of the participants that a prefix settles.
#[derive(Drop)]
pub(crate) enum PrefixSum {
    /// Of an initial domain: what they ask for together.
    Sum(Sum),
    /// Of an attached domain: how they take its base.
    OnBase(OnBase),
}

impl ChoiceShare {
    /// Of no participant at all.
    pub(crate) fn new(subject: &Subject<'_>) -> Result<ChoiceShare, AllocError>
        ensures { IfOk result (λ made. IsPartFor subject.now made []) }
    {
        match subject.base() {
            None => Ok(ChoiceShare::Share(Share::new(subject.alloc(), subject.platform())?)),
            Some(_) => Ok(ChoiceShare::OnBase(OnBase::new())),
        }
    }

    /// Adds one more participant.
    pub(crate) fn add(&mut self, subject: &Subject<'_>, asked: &Constraints)
        requires { HasRoom self.old }
        ensures { (ps : List Participant) → IsPartFor subject.now self.old ps
            → IsPartFor subject.now self.new (ps ++ asked.now ∷ []) }
    {
        match self {
            ChoiceShare::Share(share) => share.add(subject.platform(), asked),
            ChoiceShare::OnBase(part) => {
                if let Some(base) = subject.base() {
                    part.add(subject.platform(), &base.settings(), asked);
                }
            }
        }
    }
}

impl PrefixSum {
    /// Of no participant at all, behind those that the base names as accepted.
    // In line, what is made isn't copied to its caller.
    #[inline]
    pub(crate) fn new(subject: &Subject<'_>) -> Result<PrefixSum, AllocError>
        ensures kept { IfOk result (λ made. IsKeptFor subject.now made []) }
        ensures whole { IfOk result (λ made. HasPairs made (length subject.now.platform.pairs)) }
    {
        subject.recall();
        match subject.base() {
            None => Ok(PrefixSum::Sum(Sum::new(subject.alloc(), subject.platform())?)),
            Some(base) => Ok(PrefixSum::OnBase(OnBase::behind(subject.tree(), base.accepted()))),
        }
    }

    /// Becomes what is kept of the participants above, then those of a part, whatever it was, but
    /// for pairs. It takes no memory.
    pub(crate) fn join_of(&mut self, subject: &Subject<'_>, above: &PrefixSum, part: &ChoiceShare)
        requires { HaveRoom above.now part.now }
        ensures { (others ps qs : List Participant) → IsKeptFor subject.now self.old others
            → IsKeptFor subject.now above.now ps → IsPartFor subject.now part.now qs
            → IsKeptFor subject.now self.new (ps ++ qs) }
    {
        match self {
            PrefixSum::Sum(sum) => join_sum(sum, subject, above, part),
            PrefixSum::OnBase(kept) => join_on_base(kept, above, part),
        }
    }

    /// Whether it has the pairs up to so many.
    #[inline]
    pub(crate) fn has_pairs(&self, pairs: usize) -> bool
        ensures { IsTrue result → HasPairs self.now pairs }
    {
        match self {
            PrefixSum::Sum(sum) => sum.has_joined(pairs),
            PrefixSum::OnBase(_) => true,
        }
    }

    /// Has the pairs up to so many, where what is kept above has them: it is of the participants
    /// there, then those of a part. It takes no memory.
    pub(crate) fn join_pairs(&mut self, above: &PrefixSum, part: &ChoiceShare, pairs: usize)
        ensures { JoinsPairs above.now part.now pairs self.old self.new }
    {
        if let PrefixSum::Sum(sum) = self {
            if let PrefixSum::Sum(above) = above {
                if let ChoiceShare::Share(share) = part {
                    sum.join_pairs(above, share, pairs);
                }
            }
        }
    }

    /// The best settings for the participants, as far as that is known without a look at pairs:
    /// `Ok(None)` where none meet them; else `Err` with the first pair to look at. `whole` says
    /// that they are all that there are. It takes no memory.
    // In line, a caller that asks only whether there are any copies no settings.
    #[inline(always)]
    pub(crate) fn ask(&self, subject: &Subject<'_>, whole: bool) -> Result<Option<Settings>, usize>
        ensures known { (ms : List Member) → IsKeptFor subject.now self.now (participants ms)
            → IfOk result (IsAnswer whole subject.now ms) }
        ensures open { (ms : List Member) → IsKeptFor subject.now self.now (participants ms)
            → IfErr result (λ n. IsOpenOf n whole subject.now ms) }
    {
        match self {
            PrefixSum::Sum(sum) => match sum.ask(subject.platform(), whole) {
                Asked::Met(settings) => Ok(Some(settings)),
                Asked::Unmet(_) => Ok(None),
                Asked::Open(pair) => Err(pair),
            },
            PrefixSum::OnBase(kept) => {
                let Some(base) = subject.base() else {
                    return Ok(None);
                };
                let settings = base.settings();
                if kept.suits(&settings) {
                    Ok(Some(settings))
                } else {
                    Ok(None)
                }
            }
        }
    }

    /// The best settings for the participants, where they have an image of the pair at this index,
    /// and none without an image or with one of an earlier pair; `None` where they have none of
    /// this pair either. It takes no memory.
    // In line, a caller that asks only whether there are any copies no settings.
    #[inline(always)]
    pub(crate) fn ask_pair(
        &mut self,
        subject: &Subject<'_>,
        index: usize,
        whole: bool,
    ) -> Option<Settings>
        ensures { LooksAt index whole subject.now self.old self.new result }
    {
        match self {
            PrefixSum::Sum(sum) => sum.ask_pair(subject.platform(), index, whole),
            PrefixSum::OnBase(_) => None,
        }
    }
}

/// Joins a sum of the participants above and a share.
fn join_sum(sum: &mut Sum, subject: &Subject<'_>, above: &PrefixSum, part: &ChoiceShare)
    requires { HaveRoom above.now part.now }
    ensures { (others ps qs : List Participant)
        → IsKeptFor subject.now (kept_as.Sum sum.old) others
        → IsKeptFor subject.now above.now ps → IsPartFor subject.now part.now qs
        → IsKeptFor subject.now (kept_as.Sum sum.new) (ps ++ qs) }
{
    if let PrefixSum::Sum(above) = above {
        if let ChoiceShare::Share(share) = part {
            sum.join_of(subject.platform(), above, share);
        }
    }
}

/// Joins how the participants above take a base, and those of a part.
fn join_on_base(kept: &mut OnBase, above: &PrefixSum, part: &ChoiceShare)
    requires { HaveRoom above.now part.now }
    ensures { (m : Matter) (others ps qs : List Participant)
        → IsKeptFor m (kept_as.OnBase kept.old) others
        → IsKeptFor m above.now ps → IsPartFor m part.now qs
        → IsKeptFor m (kept_as.OnBase kept.new) (ps ++ qs) }
{
    if let PrefixSum::OnBase(above) = above {
        if let ChoiceShare::OnBase(part) = part {
            *kept = above.join(part);
        }
    }
}
