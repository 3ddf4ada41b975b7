//! What a search asks where it stands.

ghost use Rattle.std.specs.Prelude.{◌≡◌, ◌≤◌, ◌<◌, ◌↔◌, ◌++◌, [], ◌∷◌, ℕ, List, length, is_some, option_map, None, Option, IfOk, IfSome, IsTrue, MatchOption, OnOk};
ghost use Rattle.sysmem_merge.specs.declared.settings.Settings.{Settings as Settled};
ghost use Rattle.search_questions.specs.Live.{SomeMeet};
ghost use Rattle.sysmem_tree.specs.declared.tree.TheConstants.{MOST_NODES};
ghost use Rattle.verdict_claims.specs.Conflict.{IsConflictFor};
ghost use Rattle.verdict_claims.specs.FirstConflict.{IsFirstConflictFor};
ghost use Rattle.search_questions.specs.Asking.{IsAnswer};
ghost use Rattle.search_questions.specs.Question.{MeetsOf, MeetsHere, MeetsSoFar, IsBestOf};
ghost use Rattle.verdict_claims.specs.Matter.{forest, terms};
ghost use Rattle.search_questions.specs.Standing.{Standing};
ghost use Rattle.sysmem_tree.specs.Forest.{choices, settled};
ghost use Rattle.sysmem_tree.specs.Selection.{IsPrefix, after};

use crate::asking::best_at;
use crate::kept::ChoiceShare;
use crate::levels::{Level, first_level, join_level, keep_part, reserve_level, slot_of};
use conflict_finding::{Learnt, Subject, find_conflict_as};
use std::alloc::AllocError;
use std::marker::Model;
use sysmem_merge::Settings;
use sysmem_merge::laws::sums_in_any_order;
use sysmem_tree::layout_laws::{choice_settles_share, none_open_is_selection};
use sysmem_tree::{Layout, Prefix};
use verdict_claims::Conflict;

/// What a search is about, and a prefix of choices at which it stands. What a choice settles is
/// read once, when the choice is first made; each prefix on the way is kept by what its
/// participants ask together.
pub struct Question<'a> {
    subject: &'a Subject<'a>,
    layout: Layout,
    prefix: Prefix,
    /// By the slot of the child that is chosen; none before the first choice.
    parts: Vec<Option<ChoiceShare>>,
    /// By the number of choices.
    levels: Vec<Level>,
    /// What was learnt of participants where a conflict was looked for.
    learnt: Learnt,
}

impl Drop for Question<'_> {
    fn drop(self) {
        let Question {
            subject: _,
            layout: _,
            prefix: _,
            parts: _,
            levels: _,
            learnt: _,
        } = self;
    }
}

impl<'a> Model for Question<'a> {
    ghost use Rattle.conflict_finding.specs.Learnt.{IsLearnt};
    ghost use Rattle.search_questions.specs.Standing.{Standing, StandsAt};

    ghost Value = { Standing };

    ghost view = { λ q. record { matter = q.subject.now; choices = q.prefix } };

    ghost invariant = { λ q. StandsAt q.subject.now q.layout q.parts.items q.levels.items q.prefix
        × IsLearnt q.subject.now.nodes q.subject.now.platform.heaps q.learnt };
}

impl<'a> Question<'a> {
    /// The question of this subject, at no choice. `AllocError` where memory is refused.
    pub fn new(subject: &'a Subject<'a>) -> Result<Question<'a>, AllocError>
        ensures { IfOk result (λ question. question
            ≡ record { matter = subject.now; choices = [] }) }
    {
        subject.recall();
        let layout = subject.layout();
        let first = first_level(subject, &layout)?;
        let mut levels = Vec::with_capacity(subject.alloc(), 1)?;
        levels.push(first)?;
        Ok(Question {
            subject,
            layout,
            prefix: Prefix::new(),
            parts: Vec::new(subject.alloc()),
            levels,
            learnt: Learnt::new(subject.alloc()),
        })
    }

    /// The choices so far.
    pub fn prefix(&self) -> &Prefix
        ensures { result.now ≡ self.now.choices }
    {
        &self.prefix
    }

    /// The choices, which are all that is left of a question that was answered.
    pub fn into_prefix(self) -> Prefix
        ensures { result ≡ self.entry.choices }
    {
        let Question {
            prefix,
            subject: _,
            layout: _,
            parts: _,
            levels: _,
            learnt: _,
        } = self;
        prefix
    }

    /// How many children the group has that is next; `None` where the choices are a selection.
    pub fn children(&self) -> Option<u8>
        requires prefix { IsPrefix (forest self.now.matter) self.now.choices }
        ensures number { IfSome (after (forest self.now.matter) self.now.choices)
            (λ d. option_map length (choices d) ≡ result) }
        ensures room { IfSome result (λ _. length self.now.choices < MOST_NODES) }
        ensures few { IfSome result (λ many. many ≤ MOST_NODES) }
    {
        none_open_is_selection();
        match self.levels[self.prefix.choices().len()].group {
            Some(group) => Some(self.layout.group_at(group).1 as u8),
            None => None,
        }
    }

    /// Whether some settings meet the participants that the choices settle, as long as more may
    /// come. It takes no memory.
    pub fn is_met(&mut self) -> bool
        ensures same { self.new ≡ self.old }
        ensures met { IfSome (after (forest self.old.matter) self.old.choices)
            (λ d. IsTrue result ↔ SomeMeet (MeetsSoFar self.old.matter) d) }
    {
        self.best_as(false).is_some()
    }

    /// The best settings for the participants of a selection; `None` where none meet them. It takes
    /// no memory.
    pub fn best(&mut self) -> Option<Settings>
        ensures same { self.new ≡ self.old }
        ensures best { IfSome (after (forest self.old.matter) self.old.choices) (λ d.
            MatchOption result ((t : Settled) → ¬ (MeetsOf self.old.matter (settled d) t))
            (IsBestOf self.old.matter (settled d))) }
    {
        self.best_as(true)
    }

    /// Whether there are best settings for the participants of a selection. It takes no memory.
    pub fn has_best(&mut self) -> bool
        ensures same { self.new ≡ self.old }
        ensures best { (best : Option Settled) × (result ≡ is_some best)
            × IfSome (after (forest self.old.matter) self.old.choices) (λ d. MatchOption best
            ((t : Settled) → ¬ (MeetsOf self.old.matter (settled d) t))
            (IsBestOf self.old.matter (settled d))) }
    {
        self.best_as(true).is_some()
    }

    /// The best settings for the participants that the choices settle, or where more may come any
    /// that meet them; `None` where none do.
    // In line, a caller that asks only whether there are any copies no settings.
    #[inline(always)]
    fn best_as(&mut self, whole: bool) -> Option<Settings>
        ensures same { self.new ≡ self.old }
        ensures answer { IfSome (after (forest self.old.matter) self.old.choices)
            (λ d. IsAnswer whole self.old.matter (settled d) result) }
    {
        let depth = self.prefix.choices().len();
        best_at(&mut self.levels, &self.parts, self.subject, depth, whole)
    }

    /// The conflict of the participants that the choices settle which comes first, where no
    /// settings meet them. `AllocError` where memory is refused.
    pub fn conflict(&mut self) -> Result<Conflict, AllocError>
        requires prefix { IsPrefix (forest self.old.matter) self.old.choices }
        requires unmet { IfSome (after (forest self.old.matter) self.old.choices)
            (λ d. (t : Settled) → ¬ (MeetsHere self.old.matter d t)) }
        ensures same { self.new ≡ self.old }
        ensures conflict { IfOk result (λ conflict.
            IfSome (after (forest self.old.matter) self.old.choices)
            (λ d. IsConflictFor self.old.matter.platform (terms self.old.matter) d conflict)) }
        ensures first { IfOk result (λ conflict.
            IfSome (after (forest self.old.matter) self.old.choices)
            (λ d. IsFirstConflictFor self.old.matter.platform (terms self.old.matter) d conflict)) }
    {
        let whole = self.children().is_none();
        let found = find_conflict_as(
            self.subject,
            &self.layout,
            &self.prefix,
            whole,
            &mut self.learnt,
        )?;
        match found {
            Some(conflict) => Ok(conflict),
            None => unreachable!(),
        }
    }

    /// `true` only where the choices and this one are a selection; of `false` nothing is promised.
    pub fn is_last(&self, choice: u8) -> bool
        requires { IsPrefix (forest self.now.matter) (self.now.choices ++ choice ∷ []) }
        ensures { IsTrue result
            → IfSome (after (forest self.now.matter) (self.now.choices ++ choice ∷ []))
            (λ d. option_map length (choices d) ≡ None) }
    {
        none_open_is_selection();
        let Some(group) = self.levels[self.prefix.choices().len()].group else {
            return false;
        };
        let child = self.layout.child_at(group, choice);
        self.layout.open_after(child).is_none()
    }

    /// The conflict of the participants of the selection that the choices and this one are which
    /// comes first, where no settings meet them. What they ask together isn't kept. `AllocError`
    /// where memory is refused.
    pub fn last_conflict(&mut self, choice: u8) -> Result<Conflict, AllocError>
        requires room { length self.old.choices < MOST_NODES }
        requires prefix { IsPrefix (forest self.old.matter) (self.old.choices ++ choice ∷ []) }
        requires last { IfSome (after (forest self.old.matter) (self.old.choices ++ choice ∷ []))
            (λ d. option_map length (choices d) ≡ None) }
        requires unmet { IfSome (after (forest self.old.matter) (self.old.choices ++ choice ∷ []))
            (λ d. (t : Settled) → ¬ (MeetsHere self.old.matter d t)) }
        ensures same { self.new ≡ self.old }
        ensures conflict { IfOk result (λ conflict.
            IfSome (after (forest self.old.matter) (self.old.choices ++ choice ∷ []))
            (λ d. IsConflictFor self.old.matter.platform (terms self.old.matter) d conflict)) }
        ensures first { IfOk result (λ conflict.
            IfSome (after (forest self.old.matter) (self.old.choices ++ choice ∷ []))
            (λ d. IsFirstConflictFor self.old.matter.platform (terms self.old.matter) d conflict)) }
    {
        self.prefix.push(choice);
        let found = find_conflict_as(
            self.subject,
            &self.layout,
            &self.prefix,
            true,
            &mut self.learnt,
        );
        self.prefix.pop();
        match found? {
            Some(conflict) => Ok(conflict),
            None => unreachable!(),
        }
    }

    /// Makes one choice more: `choice` is the number of a child of the next group, from 0. It takes
    /// memory where a choice of this child, or so many choices, are made for the first time.
    /// `AllocError` where that is refused; where the question stands then isn't promised.
    pub fn enter(&mut self, choice: u8) -> Result<(), AllocError>
        requires room { length self.old.choices < MOST_NODES }
        requires prefix { IsPrefix (forest self.old.matter) (self.old.choices ++ choice ∷ []) }
        ensures { OnOk result (self.new
            ≡ record { matter = self.old.matter; choices = self.old.choices ++ choice ∷ [] }) }
    {
        choice_settles_share();
        none_open_is_selection();
        sums_in_any_order();
        let depth = self.prefix.choices().len();
        let Some(group) = self.levels[depth].group else {
            return Ok(());
        };
        let child = self.layout.child_at(group, choice);
        keep_part(&mut self.parts, child, self.subject, &self.layout)?;
        reserve_level(&mut self.levels, depth, self.subject)?;
        let slot = slot_of(child);
        let Some(part) = &self.parts[slot] else {
            return Ok(());
        };
        let next = self.layout.open_after(child);
        join_level(&mut self.levels, self.subject, depth, slot, part, next);
        self.prefix.push(choice);
        Ok(())
    }

    /// Takes the last choice back.
    pub fn leave(&mut self)
        ensures { (cs : List ℕ) (choice : ℕ) → self.old.choices ≡ cs ++ choice ∷ []
            → self.new ≡ record { matter = self.old.matter; choices = cs } }
    {
        self.prefix.pop();
    }
}
