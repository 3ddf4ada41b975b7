//! The book of a collection.

ghost use Rattle.std.specs.Prelude.{◌≡◌, ◌↔◌, All, IsTrue, Some, Ok, Err, map, option_map, is_some, IfOk, IfErr, IfSome, OnErr, OnOk};
ghost use Rattle.std.specs.Arc.{arc_value};
ghost use Rattle.sysmem_alloc.specs.Book.{IsBook, entered, new_book};
ghost use Rattle.sysmem_alloc.specs.Claims.{IsRightClaim};
ghost use Rattle.sysmem_alloc.specs.Entry.{Acted, Decided, entry_in};
ghost use Rattle.sysmem_alloc.specs.Frozen.{IsStill, frozen_of};
ghost use Rattle.sysmem_alloc.specs.History.{IsStep};
ghost use Rattle.sysmem_alloc.specs.Sound.{MayWait};
ghost use Rattle.sysmem_alloc.specs.State.{base_of, next_ready, verdict_of};
ghost use Rattle.verdict_claims.specs.Base.{IsGivenBase, terms_of};
ghost use Rattle.verdict_claims.specs.Members.{members_at};
ghost use Rattle.sysmem_tree.specs.ActionKind.{deed_of};
ghost use Rattle.sysmem_tree.specs.Domain.{HasDomain};
ghost use Rattle.sysmem_tree.specs.Laws.{AreStill};
ghost use Rattle.sysmem_tree.specs.Nodes.{HasNode};
ghost use Rattle.sysmem_tree.specs.Tree.{applied};

use crate::bases::{accepted_in, add_chosen, settings_for};
use crate::frozen::Frozen;
use crate::laws::{base_is_given, few_entries, legal_agrees, legal_is_sound};
use crate::ready::{add_if_ready, add_ready, ready_domains};
use crate::terms::{accept_same, are_same_settings};
use crate::verdicts::{choices_of, entered_for, has_failed, is_undecided};
use book_events::{Entry, enter_action, mark_for_first, open_nodes};
use negotiation_inputs::Platform;
use std::alloc::{AllocError, Global};
use std::marker::Model;
use std::sync::Arc;
use sysmem_merge::Settings;
use sysmem_tree::laws::{forest_stays, members_stand_once, numbers_stay, one_forest};
use sysmem_tree::{DomainId, Event, MOST_NODES, NodeId, Refusal, Tree};
use verdict_claims::{Base, Claim, Verdict};

/// The number of entries for which a book has room; no history has more than 639.
const ROOM: usize = 1024;

/// A collection's tree, its history, and the domains that wait for a decision.
#[derive(Debug)]
pub struct Book {
    platform: Platform,
    tree: Tree,
    history: Vec<Entry>,
    /// The domains that wait for a decision, in the order in which they became ready.
    waiting: Vec<DomainId>,
    /// The participants that the decisions chose, in the order of the decisions.
    chosen: Vec<NodeId>,
    /// As long as a domain waits, the nodes that were open when the accepted participants were
    /// taken for the first one, marked by their numbers.
    were_open: [bool; MOST_NODES],
    /// What `verdict_of` lends for a domain that failed.
    failed: Verdict,
    /// What it lends for one whose decision wanted memory.
    no_memory: Verdict,
}

impl Drop for Book {
    fn drop(self) {
        let Book {
            platform: _,
            tree: _,
            history: _,
            waiting: _,
            chosen: _,
            were_open: _,
            failed: _,
            no_memory: _,
        } = self;
    }
}

impl Model for Book {
    ghost use Rattle.std.specs.Prelude.{◌≡◌, ◌≤◌};
    ghost use Rattle.std.specs.List.{filter_map};
    ghost use Rattle.std.specs.Vec.{vec_capacity};
    ghost use Rattle.sysmem_alloc.specs.Book.{BookFacts, IsBook, kept_book};
    ghost use Rattle.sysmem_alloc.specs.Entry.{decision_in};
    ghost use Rattle.sysmem_alloc.specs.State.{chosen_in};
    ghost use Rattle.sysmem_alloc.specs.declared.book.TheConstants.{ROOM};
    ghost use Rattle.sysmem_tree.specs.declared.tree.TheConstants.{MOST_NODES};
    ghost use Rattle.verdict_claims.specs.declared.verdict.Verdict.TheVariants as verdicts;

    ghost Value = { BookFacts };

    ghost view = { λ b. kept_book b.platform b.tree b.history.items b.waiting.items b.were_open };

    ghost invariant = { λ b.
        IsBook (kept_book b.platform b.tree b.history.items b.waiting.items b.were_open)
        × (ROOM ≤ vec_capacity b.history) × (MOST_NODES ≤ vec_capacity b.waiting)
        × (b.failed ≡ verdicts.Failed) × (b.no_memory ≡ verdicts.NoMemory)
        × (MOST_NODES ≤ vec_capacity b.chosen)
        × (b.chosen.items ≡ chosen_in b.tree.nodes (filter_map decision_in b.history.items)) };
}

/// An accepted action.
#[derive(Clone, Copy, Debug, PartialEq, Eq)]
pub struct AcceptedAction {
    /// The node that was made, or else the node acted on.
    pub node: NodeId,
    /// Whether a domain waits for a decision now.
    pub ready: bool,
}

impl Book {
    /// The book of a root token, with an empty history, that decides for this platform. It reserves
    /// all the memory that its other calls need. `AllocError` where memory is refused.
    pub fn new(alloc: Global, platform: Platform) -> Result<Book, AllocError>
        ensures { IfOk result (λ book. book ≡ new_book platform) }
    {
        let tree = Tree::new(alloc)?;
        let history = Vec::with_capacity(alloc, ROOM)?;
        let waiting = Vec::with_capacity(alloc, MOST_NODES)?;
        let chosen = Vec::with_capacity(alloc, MOST_NODES)?;
        Ok(Book {
            platform,
            tree,
            history,
            waiting,
            chosen,
            were_open: [false; MOST_NODES],
            failed: Verdict::Failed,
            no_memory: Verdict::NoMemory,
        })
    }

    /// Recalls, for a proof, that the history is legal and the state its replay. It does nothing.
    pub fn recall_legal(&self)
        ensures { IsBook self.now }
    {
        let _ = &self.history;
    }

    /// The platform for which it decides.
    pub fn platform(&self) -> &Platform
        ensures platform { result.now ≡ self.now.platform }
        ensures book { IsBook self.now }
    {
        &self.platform
    }

    /// The tree.
    pub fn tree(&self) -> &Tree
        ensures { result.now ≡ self.now.state.tree }
    {
        &self.tree
    }

    /// All that was entered, the oldest first: a legal history, of
    /// which the book's state is the replay.
    pub fn history(&self) -> &[Entry]
        ensures entries { map (entry_in self.now.state.tree.nodes) result.now ≡ self.now.history }
        ensures book { IsBook self.now }
    {
        &self.history
    }

    /// The domain that is to be decided next: the first of those that are ready and
    /// undecided, in the order in which they became ready, those of one event in
    /// order of creation of their roots.
    pub fn next_ready(&self) -> Option<DomainId>
        ensures next { result ≡ next_ready self.now.state }
        ensures waits { IfSome result (MayWait self.now.state.tree) }
    {
        legal_is_sound();
        self.waiting.first().copied()
    }

    /// What the domain that is to be decided next is decided on, in memory of the book's
    /// allocator: for an attached one the settings of its host's domain, with the participants
    /// that were accepted when it became the first to be decided; `None` for the initial one.
    /// `AllocError` where memory is refused.
    pub fn base(&self, domain: DomainId) -> Result<Option<Base>, AllocError>
        requires { next_ready self.now.state ≡ Some domain }
        ensures base { IfOk result (λ base. base ≡ base_of self.now.state domain) }
        ensures given { IfOk result (λ base.
            IsGivenBase self.now.platform self.now.state.tree.nodes domain base) }
    {
        self.recall_legal();
        legal_is_sound();
        base_is_given();
        self.entered_base(domain)
    }

    /// Copies of the platform and the tree, with the domain that is to be decided next and what
    /// it is decided on, in memory of their own; `None` exactly where no domain waits.
    /// `AllocError` where memory is refused.
    pub fn frozen(&self) -> Result<Option<Frozen>, AllocError>
        ensures { IfOk result (λ frozen. frozen ≡ frozen_of self.now) }
    {
        let Some(domain) = self.next_ready() else {
            return Ok(None);
        };
        let base = self.base(domain)?;
        let platform = self.platform.copy()?;
        let tree = self.tree.copy()?;
        Ok(Some(Frozen::new(platform, tree, domain, base)))
    }

    /// Whether what was frozen still is what this book has for the decision of the domain that is
    /// to be decided next: the platform, that domain with its shape, and its terms, which are the
    /// settings that it is given and what the accepted participants show. So a verdict that is
    /// optimal for what was frozen is optimal for the book. What was frozen may be of any book, and
    /// nodes are compared by their paths. It takes no memory.
    pub fn fits(&self, frozen: &Frozen) -> bool
        ensures { IsTrue result ↔ IsStill self.now frozen.now }
    {
        let Some(next) = self.next_ready() else {
            return false;
        };
        if next != frozen.domain() {
            return false;
        }
        if !self.platform().is_same(frozen.platform()) {
            return false;
        }
        if !self.tree().has_same_shape(next, frozen.tree()) {
            return false;
        }
        self.has_terms_of(next, frozen)
    }

    /// Whether the domain that is to be decided next has the terms of what was frozen.
    fn has_terms_of(&self, domain: DomainId, frozen: &Frozen) -> bool
        requires there { HasDomain self.now.state.tree.nodes domain }
        requires next { next_ready self.now.state ≡ Some domain }
        ensures { IsTrue result ↔ (option_map (terms_of self.now.state.tree.nodes)
            (base_of self.now.state domain)
            ≡ option_map (terms_of frozen.now.tree.nodes) frozen.now.base) }
    {
        match (self.next_settings(domain), frozen.base()) {
            (Some(settings), Some(base)) => {
                are_same_settings(&settings, &base.settings())
                    && self.accepts_same(domain, frozen.tree(), base.accepted())
            }
            (None, None) => true,
            _ => false,
        }
    }

    /// The settings that a domain is given if it is chosen: those of its host's domain; `None` for
    /// the initial one.
    fn next_settings(&self, domain: DomainId) -> Option<Settings>
        requires { HasDomain self.now.state.tree.nodes domain }
        ensures { option_map
            (λ settings. record { settings = settings; accepted = self.now.state.accepted }) result
            ≡ base_of self.now.state domain }
    {
        legal_agrees();
        let host = self.tree.host_of(domain)?;
        settings_for(&self.history, self.tree.domain_of(host))
    }

    /// Whether the participants that are accepted for the domain that is to be decided next and the
    /// nodes of another tree that were accepted show the same.
    fn accepts_same(&self, domain: DomainId, others: &Tree, accepted: &[NodeId]) -> bool
        requires next { next_ready self.now.state ≡ Some domain }
        requires there { All (HasNode others.now.nodes) accepted.now }
        ensures { IsTrue result
            ↔ (members_at self.now.state.tree.nodes self.now.state.accepted
            ≡ members_at others.now.nodes accepted.now) }
    {
        legal_is_sound();
        members_stand_once();
        let _ = domain;
        accept_same(&self.tree, &self.chosen, &self.were_open, others, accepted)
    }

    /// What the domain that is to be decided next is decided on, by what was entered.
    fn entered_base(&self, domain: DomainId) -> Result<Option<Base>, AllocError>
        requires there { HasDomain self.now.state.tree.nodes domain }
        requires next { next_ready self.now.state ≡ Some domain }
        ensures { IfOk result (λ base. base ≡ base_of self.now.state domain) }
    {
        legal_is_sound();
        legal_agrees();
        members_stand_once();
        let Some(host) = self.tree.host_of(domain) else {
            return Ok(None);
        };
        let Some(settings) = settings_for(&self.history, self.tree.domain_of(host)) else {
            return Ok(None);
        };
        let alloc = *self.history.allocator();
        let accepted = accepted_in(alloc, &self.tree, &self.chosen, &self.were_open)?;
        Ok(Some(Base::new(settings, accepted)))
    }

    /// The verdict of a domain of the tree; `None` where it has none yet.
    pub fn verdict_of(&self, domain: DomainId) -> Option<&Verdict>
        requires { HasDomain self.now.state.tree.nodes domain }
        ensures { option_map (λ verdict. verdict.now) result ≡ verdict_of self.now.state domain }
    {
        legal_agrees();
        let fate = self.tree.fate(domain);
        if has_failed(fate) {
            return Some(&self.failed);
        }
        if is_undecided(fate) {
            return None;
        }
        match entered_for(&self.history, domain)? {
            Some(claim) => Some(&claim.verdict),
            None => Some(&self.no_memory),
        }
    }

    /// Makes an action on a node, enters it, and answers the node that was made, or else the
    /// node itself, and whether a domain waits for a decision now; or the tree's first
    /// refusal, and then nothing has changed. Each node and each domain that was there stays
    /// there, by its number. It takes no memory.
    pub fn apply(&mut self, event: Event) -> Result<AcceptedAction, Refusal>
        ensures accepted { IfOk result (λ done.
            applied self.old.state.tree event.node (deed_of event.action)
            ≡ Ok (record { tree = self.new.state.tree; node = done.node })) }
        ensures entered { OnOk result (self.new
            ≡ entered self.old (Acted event.node (deed_of event.action))) }
        ensures step { OnOk result (IsStep self.old.platform self.old.state
            (Acted event.node (deed_of event.action)) self.new.state) }
        ensures ready { IfOk result (λ done. done.ready ≡ is_some (next_ready self.new.state)) }
        ensures refused { IfErr result (λ refusal.
            applied self.old.state.tree event.node (deed_of event.action) ≡ Err refusal) }
        ensures unchanged { OnErr result (self.new ≡ self.old) }
        ensures there { IfOk result (λ done. HasNode self.new.state.tree.nodes done.node) }
        ensures still { AreStill self.old.state.tree.nodes self.new.state.tree.nodes }
    {
        legal_is_sound();
        few_entries();
        forest_stays();
        numbers_stay();
        one_forest();
        let acted = event.node;
        let kind = event.action.kind();
        let unready = self.tree.can_make_ready(acted, kind);
        let node = self.tree.apply(event)?;
        let none_waited = self.waiting.is_empty();
        enter_action(&mut self.history, acted, kind);
        add_if_ready(&self.tree, unready, &mut self.waiting);
        mark_for_first(&self.tree, none_waited, &self.waiting, &mut self.were_open);
        let ready = self.next_ready().is_some();
        Ok(AcceptedAction { node, ready })
    }

    /// Enters the decision of the domain that is to be decided next: a verdict that is optimal for
    /// it, with what proves it or with `Proof::Nothing`, or `None` where memory was refused to it.
    /// Each node and each domain stays there, by its number. It takes no memory.
    pub fn decide(&mut self, domain: DomainId, claim: Option<Arc<Claim>>)
        requires next { next_ready self.old.state ≡ Some domain }
        requires right { IfSome claim (λ shared.
            IsRightClaim self.old.platform self.old.state.tree.nodes domain
            (base_of self.old.state domain) (arc_value shared)) }
        ensures entered { self.new ≡ entered self.old (Decided (record {
          domain = domain;
          claim = option_map (λ shared. arc_value shared) claim;
        })) }
        ensures step { IsStep self.old.platform self.old.state (Decided (record {
          domain = domain;
          claim = option_map (λ shared. arc_value shared) claim;
        })) self.new.state }
        ensures still { AreStill self.old.state.tree.nodes self.new.state.tree.nodes }
    {
        legal_is_sound();
        legal_agrees();
        few_entries();
        forest_stays();
        numbers_stay();
        one_forest();
        members_stand_once();
        let were_ready = ready_domains(&self.tree);
        add_chosen(&self.tree, domain, &claim, &mut self.chosen);
        self.tree.decide(domain, choices_of(&claim));
        self.were_open = open_nodes(&self.tree);
        self.history.push_reserved(Entry::Decided(domain, claim));
        self.waiting.remove(0);
        add_ready(&self.tree, &were_ready, &mut self.waiting);
    }
}
