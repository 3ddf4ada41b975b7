//! What a handle knows of its node, and its share of the count.

ghost use Rattle.std.specs.Prelude.{◌≡◌, ◌≤◌, ◌+◌, ◌↔◌, [], Some, length, map, IfOk, IsTrue, OnOk};
ghost use Rattle.verdict_claims.specs.Asked.{asks_at};
ghost use Rattle.sysmem_room.specs.Log.{begun_as, begun_by, next_path, shown_by};
ghost use Rattle.sysmem_tree.specs.ActionKind.{deed_of};
ghost use Rattle.sysmem_tree.specs.Nodes.{HasNode};

use crate::account::Account;
use std::alloc::{AllocError, Global};
use std::marker::Model;
use std::snapshot::Snapshot;
use std::sync::ledger::{Ledger, Share};
use sysmem_tree::{Action, ActionKind, NodeId, NodeKind, NodeState, Tree};

/// What the handle of a node knows of it: its path, how it was made, and the accepted actions on
/// it; and its share of the count, which has as many. A node of a book has at most one, which has
/// all that was ever entered on it: `Room::open` makes that of the root, an action that was entered
/// that of the node that it made, and nothing but `Room::act` enters an action, in both the book
/// and the log. There is one room, and so one book, for a ledger.
pub struct Log<L: Ledger> {
    pub(crate) account: Account,
    /// One part of the ledger, for the number of actions.
    pub(crate) share: Share<L>,
}

impl<L: Ledger> Drop for Log<L> {
    fn drop(self) {
        let Log {
            account: _,
            share: _,
        } = self;
    }
}

impl<L: Ledger> Model for Log<L> {
    ghost use Rattle.std.specs.Prelude.{◌≡◌, length};
    ghost use Rattle.sysmem_room.specs.Log.{LogFacts};

    ghost Value = { LogFacts };

    ghost view = { λ l. l.account };

    ghost invariant = { λ l. (l.share.parts ≡ 1) × (l.share.amount ≡ length l.account.deeds) };
}

/// The memory for the log of a node that is to be made, taken before the lock.
pub struct FreshLog {
    account: Account,
}

impl Drop for FreshLog {
    fn drop(self) {
        let FreshLog { account: _ } = self;
    }
}

impl Model for FreshLog {
    ghost use Rattle.std.specs.Prelude.{◌≡◌, []};
    ghost use Rattle.sysmem_room.specs.Log.{LogFacts};

    ghost Value = { LogFacts };

    ghost view = { λ f. f.account };

    ghost invariant = { λ f. f.account.deeds ≡ [] };
}

impl FreshLog {
    /// What a log has beside its share.
    fn into_account(self) -> Account
        ensures same { result ≡ self }
        ensures empty { result.deeds ≡ [] }
    {
        let FreshLog { account } = self;
        account
    }
}

/// An action that was entered, with the share of the node that it made; without parts, where it
/// made none.
#[derive(Drop)]
pub struct EnteredAction<L: Ledger> {
    /// The log of the action's node before it, for clauses alone.
    pub(crate) before: Snapshot<Account>,
    pub(crate) kind: ActionKind,
    pub(crate) share: Share<L>,
}

impl<L: Ledger> Model for EnteredAction<L> {
    ghost use Rattle.std.specs.Prelude.{◌≡◌};
    ghost use Rattle.sysmem_room.specs.Counting.{nodes_by};
    ghost use Rattle.sysmem_room.specs.Log.{EnteredFacts};

    ghost Value = { EnteredFacts };

    ghost view = { λ e. record { before = e.before.value; kind = e.kind } };

    ghost invariant = { λ e. (e.share.parts ≡ nodes_by e.kind) × (e.share.amount ≡ 0) };
}

impl<L: Ledger> EnteredAction<L> {
    /// The log of the node that was made, in the memory that was taken for it.
    pub fn into_log(self, fresh: FreshLog) -> Log<L>
        requires path { fresh.path ≡ next_path self.before }
        requires begun { begun_by self.kind ≡ Some fresh.begun }
        ensures path { result.path ≡ fresh.path }
        ensures begun { result.begun ≡ fresh.begun }
        ensures empty { result.deeds ≡ [] }
    {
        let EnteredAction {
            share,
            before: _,
            kind: _,
        } = self;
        Log {
            account: fresh.into_account(),
            share,
        }
    }
}

impl<L: Ledger> Log<L> {
    /// The node's path.
    pub fn path(&self) -> &[u32]
        ensures { result.now ≡ self.now.path }
    {
        self.account.path()
    }

    /// What the actions make of the node.
    pub fn state(&self) -> NodeState
        ensures { result ≡ (shown_by self.now).state }
    {
        self.account.state()
    }

    /// The actions, the oldest first.
    pub fn actions(&self) -> &[Action]
        ensures { map deed_of result.now ≡ self.now.deeds }
    {
        self.account.actions()
    }

    /// The memory for the log of the node's next child, if that is made so; `AllocError` where
    /// memory is refused.
    pub fn fresh_next(
        &self,
        alloc: Global,
        begun: NodeKind,
        is_domain_root: bool,
    ) -> Result<FreshLog, AllocError>
        ensures path { IfOk result (λ fresh. fresh.path ≡ next_path self.now) }
        ensures begun { IfOk result (λ fresh. fresh.begun ≡ begun_as begun is_domain_root) }
    {
        let account = self.account.of_next(alloc, begun, is_domain_root)?;
        Ok(FreshLog { account })
    }

    /// Makes room for one action beside the one that ends the node; `AllocError` where memory is
    /// refused.
    pub fn reserve(&mut self) -> Result<(), AllocError>
        ensures path { self.new.path ≡ self.old.path }
        ensures begun { self.new.begun ≡ self.old.begun }
        ensures same { self.new.deeds ≡ self.old.deeds }
        ensures room { OnOk result (length self.new.deeds + 2 ≤ self.new.places) }
    {
        self.account.reserve()
    }

    /// Whether a node has the constraints that the actions set.
    pub fn asks_as(&self, tree: &Tree, node: NodeId) -> bool
        requires { HasNode tree.now.nodes node }
        ensures { IsTrue result ↔ (asks_at tree.now.nodes node ≡ (shown_by self.now).constraints) }
    {
        self.account.asks_as(tree, node)
    }

    /// Once its handle is spent.
    pub fn spent(self) -> SpentLog<L>
        ensures { result ≡ self }
    {
        SpentLog { log: self }
    }

    /// Its share alone.
    fn into_share(self) -> Share<L>
        ensures parts { result.parts ≡ 1 }
        ensures amount { result.amount ≡ length self.deeds }
    {
        let Log { account: _, share } = self;
        share
    }
}

/// The log of a handle that is spent, for an audit: nothing is entered by it any more.
pub struct SpentLog<L: Ledger> {
    log: Log<L>,
}

impl<L: Ledger> Drop for SpentLog<L> {
    fn drop(self) {
        let SpentLog { log: _ } = self;
    }
}

impl<L: Ledger> Model for SpentLog<L> {
    ghost use Rattle.sysmem_room.specs.Log.{LogFacts};

    ghost Value = { LogFacts };

    ghost view = { λ s. s.log };
}

impl<L: Ledger> SpentLog<L> {
    /// The node's path.
    pub fn path(&self) -> &[u32]
        ensures { result.now ≡ self.now.path }
    {
        self.log.path()
    }

    /// The actions, the oldest first.
    pub fn actions(&self) -> &[Action]
        ensures { map deed_of result.now ≡ self.now.deeds }
    {
        self.log.actions()
    }

    /// Its share alone.
    pub fn into_share(self) -> Share<L>
        ensures parts { result.parts ≡ 1 }
        ensures amount { result.amount ≡ length self.deeds }
    {
        let SpentLog { log } = self;
        log.into_share()
    }
}
