//! What each kind of handle holds.

ghost use Rattle.std.specs.Prelude.{◌≡◌, ◌≢◌, ◌++◌, [], ◌∷◌, None, Some, IfErr, IfOk, IfSome, MatchResult, ⊤};
ghost use Rattle.std.specs.Arc.{arc_value};
ghost use Rattle.once_cell.specs.Once.{cell_name};
ghost use Rattle.sysmem_participants.specs.Held.{IsSameBut, IsStillKnown, state_of};
ghost use Rattle.sysmem_participants.specs.Told.{IsShownTo, IsToldBy, Tells};
ghost use Rattle.sysmem_room.specs.Log.{begun_as};

use crate::shared::{Rules, SharedBook};
use crate::telling::told;
use crate::view::View;
use crate::waiting::wait_until_set;
use once_cell::race::{Note, OnceBox};
use std::alloc::AllocError;
use std::marker::Model;
use std::sync::ledger::Ledger;
use std::sync::{Arc, Wait};
use sysmem_room::{FreshLog, Log, Outcome};
use sysmem_search::Gate;
use sysmem_tree::{NodeKind, Refusal};

/// What each kind of handle holds; its node is open by its log.
pub(crate) struct Seat<L: Ledger, G: Gate + Drop> {
    pub(crate) shared: Arc<SharedBook<L>>,
    pub(crate) rules: Arc<Rules<G>>,
    pub(crate) log: Log<L>,
    /// Where the verdict of its domain is read.
    pub(crate) cell: Arc<OnceBox<Outcome>>,
    /// What it read there.
    pub(crate) note: Note<Outcome>,
}

impl<L: Ledger, G: Gate + Drop> Model for Seat<L, G> {
    ghost use Rattle.std.specs.Prelude.{◌≡◌, true};
    ghost use Rattle.std.specs.Arc.{arc_value};
    ghost use Rattle.once_cell.specs.Once.{cell_name};
    ghost use Rattle.sysmem_participants.specs.Held.{Held};
    ghost use Rattle.sysmem_room.specs.Log.{shown_by};

    ghost Value = { Held };

    ghost view = { λ s. record {
      path = s.log.path;
      begun = s.log.begun;
      deeds = s.log.deeds;
      cell = cell_name (arc_value s.cell);
      known = s.note.known;
      platform = (arc_value s.shared).platform;
    } };

    ghost invariant = { λ s. (s.note.cell ≡ cell_name (arc_value s.cell))
        × ((shown_by s.log).state.is_open ≡ true) };
}

/// What the handle of a further node will hold, taken before the lock.
#[derive(Drop)]
pub(crate) struct PreparedHandle<L: Ledger, G: Gate + Drop> {
    pub(crate) shared: Arc<SharedBook<L>>,
    pub(crate) rules: Arc<Rules<G>>,
    pub(crate) fresh: FreshLog,
    pub(crate) cell: Arc<OnceBox<Outcome>>,
}

impl<L: Ledger, G: Gate + Drop> Seat<L, G> {
    ghost use Rattle.std.specs.Borrow.{sem};
    ghost use mathlib.Core.Option.{none};
    ghost use denote.Follow.{follows_so};
    ghost use Rattle.sysmem_participants.specs.contracts.seat.Seat.{the_row};

    /// What the handle of the next child will hold.
    pub(crate) fn prepared(
        &self,
        begun: NodeKind,
        is_domain_root: bool,
    ) -> Result<PreparedHandle<L, G>, AllocError>
        ensures path { IfOk result (λ child.
            child.fresh.path ≡ self.now.path ++ (state_of self.now).children ∷ []) }
        ensures begun { IfOk result (λ child. child.fresh.begun ≡ begun_as begun is_domain_root) }
        ensures cell { IfOk result (λ child. cell_name (arc_value child.cell) ≡ self.now.cell) }
        ensures platform { IfOk result (λ child.
            (arc_value child.shared).platform ≡ self.now.platform) }
    {
        let fresh = self
            .log
            .fresh_next(self.rules.alloc, begun, is_domain_root)?;
        Ok(PreparedHandle {
            shared: Arc::try_clone(&self.shared)?,
            rules: Arc::try_clone(&self.rules)?,
            fresh,
            cell: Arc::try_clone(&self.cell)?,
        })
    }

    /// What became of the domain.
    pub(crate) fn check(&mut self) -> Result<View<'_>, Refusal>
        ensures* after { sem 𝓛 (follows_so (the_row L.row G.row L.Ledger)
            (the_row L.row G.row L.Ledger) self.entry.ghost_name none (λ _ _. ⊤)
            (λ n. IsSameBut self.old n × IsStillKnown self.old n × MatchResult result
            (λ view. n.known ≡ Some (Outcome.Decided view.ruling.now))
            (IsToldBy self.old n.known))) }
        ensures pending { IfErr result (λ refusal.
            refusal ≡ Refusal.Pending → self.old.known ≡ None) }
        ensures known { IfOk result (λ view.
            IfSome self.old.known (λ known. known ≡ Outcome.Decided view.ruling.now)) }
        ensures shown { IfOk result (λ view. IsShownTo self.old view.ruling.now) }
        ensures tells { IfErr result (Tells self.old) }
    {
        let Some(outcome) = self.cell.get_as(&mut self.note) else {
            return Err(Refusal::Pending);
        };
        told(outcome, &self.shared.platform, &self.log)
    }

    /// What became of the domain, once something did.
    pub(crate) fn wait_for_all<R: Wait>(&mut self, rt: &R) -> Result<View<'_>, Refusal>
        ensures* after { sem 𝓛 (follows_so (the_row L.row G.row L.Ledger)
            (the_row L.row G.row L.Ledger) self.entry.ghost_name none (λ _ _. ⊤)
            (λ n. IsSameBut self.old n × IsStillKnown self.old n × MatchResult result
            (λ view. n.known ≡ Some (Outcome.Decided view.ruling.now))
            (IsToldBy self.old n.known))) }
        ensures decided { IfErr result (λ refusal. refusal ≢ Refusal.Pending) }
        ensures known { IfOk result (λ view.
            IfSome self.old.known (λ known. known ≡ Outcome.Decided view.ruling.now)) }
        ensures shown { IfOk result (λ view. IsShownTo self.old view.ruling.now) }
        ensures tells { IfErr result (Tells self.old) }
    {
        wait_until_set(rt, &self.shared, &self.cell, &mut self.note);
        self.check()
    }

    /// Compares what two handles with one cell know of it.
    pub(crate) fn compare(&mut self, other: &mut Seat<L, G>)
        requires { other.old.cell ≡ self.old.cell }
        ensures same { (self.new ≡ self.old) × (other.new ≡ other.old) }
        ensures agree { IfSome other.old.known (λ one.
            IfSome self.old.known (λ own. own ≡ one)) }
    {
        let also = other.note.again();
        self.note.compare(also);
    }
}
