//! A node's path, how it was made, and the actions on it that were accepted.

ghost use Rattle.std.specs.Prelude.{◌≡◌, ◌≢◌, ◌<◌, ◌≤◌, ◌+◌, ◌++◌, ◌↔◌, [], ◌∷◌, false, true, length, map, option_map, replicate, IfOk, IfSome, IsTrue, OnOk};
ghost use Rattle.verdict_claims.specs.Asked.{asks_at};
ghost use Rattle.sysmem_tree.specs.Nodes.{HasNode};
ghost use Rattle.sysmem_room.specs.Agreeing.{StandsAs};
ghost use Rattle.sysmem_room.specs.Log.{begun_as, next_path, shown_by};
ghost use Rattle.sysmem_tree.specs.ActionKind.{deed_of, duplicates, ends_node, kind_of};
ghost use Rattle.sysmem_tree.specs.declared.tree.TheConstants.{MOST_NODES};

use crate::agreeing::{has_set, lent};
use negotiation_inputs::Constraints;
use smallvec::SmallVec;
use std::alloc::{AllocError, Global};
use std::marker::Model;
use sysmem_tree::{Action, ActionKind, NodeId, NodeKind, NodeState, Tree};

/// A log without its share, as it is before its node is made: the node's path, how it was made, and
/// the accepted actions on it, with room for one more as long as the node is open.
pub(crate) struct Account {
    /// One of up to four steps takes no memory.
    path: SmallVec<u32, 4>,
    begun: NodeKind,
    is_domain_root: bool,
    /// What the actions make of the node.
    state: NodeState,
    actions: Vec<Action>,
    /// How many of the actions come before the `Duplicate`s at the end.
    others: usize,
}

impl Drop for Account {
    fn drop(self) {
        let Account {
            path: _,
            begun: _,
            is_domain_root: _,
            state: _,
            actions: _,
            others: _,
        } = self;
    }
}

impl Model for Account {
    ghost use Rattle.std.specs.Prelude.{◌≡◌, ◌<◌, map, true};
    ghost use Rattle.std.specs.Vec.{vec_capacity, vec_len};
    ghost use Rattle.sysmem_room.specs.Log.{HasBeforeDuplicates, LogFacts, begun_as, shown_by};
    ghost use Rattle.sysmem_tree.specs.ActionKind.{deed_of};

    ghost Value = { LogFacts };

    ghost view = { λ l. record {
      path = l.path.items;
      begun = begun_as l.begun l.is_domain_root;
      deeds = map deed_of l.actions.items;
      places = vec_capacity l.actions;
    } };

    ghost invariant = { λ l. (l.state.is_open ≡ true → vec_len l.actions < vec_capacity l.actions)
        × (l.state ≡ (shown_by (record {
          path = l.path.items;
          begun = begun_as l.begun l.is_domain_root;
          deeds = map deed_of l.actions.items;
          places = vec_capacity l.actions;
        })).state)
        × HasBeforeDuplicates (map deed_of l.actions.items) l.others };
}

/// How many of so many actions come before the `Duplicate`s at the end, where the last action is of
/// this kind and so many came before those at the end of the others.
fn others_after(others: usize, kind: ActionKind, many: usize) -> usize
    ensures again { kind ≡ ActionKind.Duplicate → result ≡ others }
    ensures other { kind ≢ ActionKind.Duplicate → result ≡ many }
{
    if kind == ActionKind::Duplicate {
        others
    } else {
        many
    }
}

impl Account {
    /// Of a node of this kind at this path that is just made; `AllocError` where memory is refused.
    pub(crate) fn new(
        alloc: Global,
        path: SmallVec<u32, 4>,
        begun: NodeKind,
        is_domain_root: bool,
    ) -> Result<Account, AllocError>
        ensures path { IfOk result (λ account. account.path ≡ path.items) }
        ensures begun { IfOk result (λ account. account.begun ≡ begun_as begun is_domain_root) }
        ensures empty { IfOk result (λ account. account.deeds ≡ []) }
    {
        let actions = Vec::with_capacity(alloc, 4)?;
        Ok(Account {
            path,
            begun,
            is_domain_root,
            state: NodeState::fresh(begun),
            actions,
            others: 0,
        })
    }

    /// Of the node's next child, if that is made so; `AllocError` where memory is refused.
    pub(crate) fn of_next(
        &self,
        alloc: Global,
        begun: NodeKind,
        is_domain_root: bool,
    ) -> Result<Account, AllocError>
        ensures path { IfOk result (λ account. account.path ≡ next_path self.now) }
        ensures begun { IfOk result (λ account. account.begun ≡ begun_as begun is_domain_root) }
        ensures empty { IfOk result (λ account. account.deeds ≡ []) }
    {
        let mut path = SmallVec::from_slice(alloc, &self.path)?;
        path.push(self.state.children)?;
        Account::new(alloc, path, begun, is_domain_root)
    }

    /// The node's path.
    pub(crate) fn path(&self) -> &[u32]
        ensures { result.now ≡ self.now.path }
    {
        &self.path
    }

    /// What the actions make of the node.
    pub(crate) fn state(&self) -> NodeState
        ensures { result ≡ (shown_by self.now).state }
    {
        self.state
    }

    /// The actions, the oldest first.
    pub(crate) fn actions(&self) -> &[Action]
        ensures { map deed_of result.now ≡ self.now.deeds }
    {
        &self.actions
    }

    /// Makes room for one action beside the one that ends the node; `AllocError` where memory is
    /// refused.
    pub(crate) fn reserve(&mut self) -> Result<(), AllocError>
        ensures path { self.new.path ≡ self.old.path }
        ensures begun { self.new.begun ≡ self.old.begun }
        ensures same { self.new.deeds ≡ self.old.deeds }
        ensures room { OnOk result (length self.new.deeds + 2 ≤ self.new.places) }
    {
        self.actions.reserve(2)
    }

    /// Enters an action where the node is open, and there is room for one beside the one that ends
    /// it, or the action does.
    pub(crate) fn push(&mut self, action: Action)
        requires is_open { (shown_by self.old).state.is_open ≡ true }
        requires room { ends_node (kind_of (deed_of action)) ≡ false
            → length self.old.deeds + 2 ≤ self.old.places }
        requires few { (shown_by self.old).state.children < MOST_NODES }
        ensures path { self.new.path ≡ self.old.path }
        ensures begun { self.new.begun ≡ self.old.begun }
        ensures entered { self.new.deeds ≡ self.old.deeds ++ deed_of action ∷ [] }
    {
        let kind = action.kind();
        self.state.act(kind);
        self.actions.push_reserved(action);
        let others = others_after(self.others, kind, self.actions.len());
        self.others = others;
    }

    /// The actions before the `Duplicate`s at the end, if there are so many of these.
    #[tactic(auto, using(crate::proofs::Logs::before_end))]
    pub(crate) fn before(&self, many: usize) -> Option<&[Action]>
        ensures { IfSome result (λ others. self.now.deeds
            ≡ map deed_of others.now ++ replicate many duplicates) }
    {
        if self.actions.len() - self.others == many {
            Some(&self.actions[..self.others])
        } else {
            None
        }
    }

    /// Whether a node was made so, and stands as the actions make it.
    pub(crate) fn stands_as(&self, tree: &Tree, node: NodeId) -> bool
        requires { HasNode tree.now.nodes node }
        ensures { IsTrue result ↔ StandsAs tree.now.nodes self.now node }
    {
        if tree.state(node) != self.state {
            return false;
        }
        let is_root = tree.root_of(tree.domain_of(node)) == node;
        is_root == self.is_domain_root
    }

    /// Whether a node has the constraints that the actions set.
    pub(crate) fn asks_as(&self, tree: &Tree, node: NodeId) -> bool
        requires { HasNode tree.now.nodes node }
        ensures { IsTrue result ↔ (asks_at tree.now.nodes node ≡ (shown_by self.now).constraints) }
    {
        has_set(tree, node, self.asked())
    }

    /// The constraints that the actions set, if they set any.
    fn asked(&self) -> Option<&Constraints>
        ensures { option_map (λ one. one.now) result ≡ (shown_by self.now).constraints }
    {
        let mut asked = None;
        for action in &self.actions {
            if let Action::SetConstraints(own) = action {
                asked = lent(own);
            }
        }
        asked
    }
}
