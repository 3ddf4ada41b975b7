//! What lies under a collection's lock.

ghost use Rattle.std.specs.Prelude.{◌≡◌, ◌≢◌, ◌<◌, ◌≤◌, ◌+◌, ◌++◌, ◌↔◌, ℕ, List, [], ◌∷◌, Ok, Err, Some, None, true, false, length, option_map, is_some, IfErr, IfOk, IfSome, IsTrue, OnErr, OnOk};
ghost use Rattle.std.specs.Arc.{arc_value};
ghost use Rattle.sysmem_alloc.specs.Book.{entered, new_book};
ghost use Rattle.sysmem_alloc.specs.Entry.{Acted, Decided};
ghost use Rattle.sysmem_alloc.specs.Frozen.{IsStill, frozen_of};
ghost use Rattle.sysmem_alloc.specs.State.{next_ready};
ghost use Rattle.verdict_claims.specs.Claim.{IsTrueClaim};
ghost use Rattle.sysmem_room.specs.Agreeing.{IsAsKnown, IsOwn, book_log};
ghost use Rattle.sysmem_room.specs.Counting.{actions_in, all_parts, nodes_by};
ghost use Rattle.sysmem_room.specs.Entering.{HasEntered, IsRefused};
ghost use Rattle.sysmem_room.specs.Lacking.{without_memory};
ghost use Rattle.node_limits.specs.Limits.{is_spent};
ghost use Rattle.sysmem_room.specs.Log.{begun_as, shown_by};
ghost use Rattle.sysmem_room.specs.Refusals.{IsAnswer, IsDisputed, due};
ghost use Rattle.sysmem_tree.specs.ActionKind.{deed_of, ends_node, kind_of};
ghost use Rattle.sysmem_tree.specs.Nodes.{HasNode};
ghost use Rattle.sysmem_tree.specs.Path.{node_at};
ghost use Rattle.sysmem_tree.specs.Table.{makes_root};
ghost use Rattle.sysmem_tree.specs.Tree.{applied};

use crate::account::Account;
use crate::agreeing::{has_actions, has_placed};
use crate::cell::{DomainCell, FreshCell, keep, publish_action, publish_decision};
use crate::log::{EnteredAction, Log};
use crate::outcome::{Outcome, Ruling};
use crate::places::Places;
use crate::refusing::{due, unforeseen};
use crate::seen::SeenBook;
use crate::verdicts::has_verdict;
use negotiation_inputs::Platform;
use node_limits::{Limits, Offspring, tree_refusal};
use once_cell::race::OnceBox;
use smallvec::SmallVec;
use std::alloc::{AllocError, Global};
use std::marker::{Model, PhantomData};
use std::snapshot::Snapshot;
use std::sync::Arc;
use std::sync::ledger::{Blank, Book as Counted, Ledger, Share};
use sysmem_alloc::laws::{few_entries, legal_agrees};
use sysmem_alloc::{Book, Frozen};
use sysmem_tree::laws::one_path;
use sysmem_tree::{Action, ActionKind, DomainId, Event, MOST_NODES, NodeId, NodeKind, Refusal};
use verdict_claims::Claim;

/// A collection's book, the count of its actions, and the cells of its domains. Whoever has the
/// lock finds a legal book, and as many actions counted as its history has.
pub struct Room<L: Ledger> {
    book: Book,
    /// Where in the book's history the actions on each node are.
    places: Box<Places>,
    offspring: Offspring,
    counted: Counted<L>,
    /// One part that stays here, and one for each node that can still be made.
    spare: Share<L>,
    /// One for each domain, in the order in which their roots were made.
    cells: Vec<DomainCell>,
    /// Whether somebody takes the decisions.
    is_deciding: bool,
}

impl<L: Ledger> Drop for Room<L> {
    fn drop(self) {
        let Room {
            book: _,
            places: _,
            offspring: _,
            counted: _,
            spare: _,
            cells: _,
            is_deciding: _,
        } = self;
    }
}

impl<L: Ledger> Model for Room<L> {
    ghost use Rattle.std.specs.Prelude.{◌≡◌, ◌+◌, ◌≤◌, length};
    ghost use Rattle.std.specs.Vec.{vec_capacity, vec_len};
    ghost use Rattle.sysmem_alloc.specs.Book.{BookFacts};
    ghost use Rattle.sysmem_room.specs.Counting.{actions_in, all_parts};
    ghost use Rattle.node_limits.specs.Limits.{AreCounted};
    ghost use Rattle.sysmem_room.specs.Places.{ArePlaces};
    ghost use Rattle.sysmem_tree.specs.declared.tree.TheConstants.{MOST_NODES};

    ghost Value = { BookFacts };

    ghost view = { λ r. r.book };

    ghost invariant = { λ r. (actions_in r.book.history ≡ r.counted.total)
        × (r.spare.amount ≡ 0)
        × (r.spare.parts + length r.book.state.tree.nodes ≡ all_parts)
        × (L.parts ≡ all_parts)
        × (vec_len r.cells ≡ length r.book.state.tree.domains)
        × (MOST_NODES ≤ vec_capacity r.cells)
        × ArePlaces r.book.history r.places.value
        × AreCounted r.book.state.tree.nodes r.offspring.counts };
}

/// A new collection.
#[derive(Drop)]
pub struct OpenedRoom<L: Ledger> {
    /// What lies under its lock.
    pub room: Room<L>,
    /// What the root's handle knows of it.
    pub log: Log<L>,
    /// The cell of the initial domain.
    pub cell: Arc<OnceBox<Outcome>>,
}

/// The turn to take a collection's decisions. `Room::act` alone gives one, with an action that was
/// entered: a refused one brings no decision. It takes no bytes, and can't be let go: it ends where
/// `frozen` finds no domain that waits.
pub struct Turn<L: Ledger> {
    ledger: PhantomData<L>,
}

/// How many parts of the count a node gets that the action makes: one, or none where it makes no
/// node.
fn parts_of(kind: ActionKind) -> u64
    ensures { result ≡ nodes_by kind }
{
    match kind.makes() {
        Some(_) => 1,
        None => 0,
    }
}

impl<L: Ledger> Room<L> {
    /// A new collection that is decided for this platform: a root token and nothing else.
    /// `AllocError` where memory is refused, and then nothing is left of it.
    pub fn open(
        alloc: Global,
        blank: Blank,
        platform: Platform,
    ) -> Result<OpenedRoom<L>, AllocError>
        requires name { blank.name ≡ L.name }
        requires ledger { blank.parts ≡ L.parts }
        requires parts { blank.parts ≡ all_parts }
        ensures book { IfOk result (λ opened. opened.room ≡ new_book platform) }
        ensures path { IfOk result (λ opened. opened.log.path ≡ []) }
        ensures begun { IfOk result (λ opened. opened.log.begun ≡ begun_as NodeKind.Token true) }
        ensures empty { IfOk result (λ opened. opened.log.deeds ≡ []) }
    {
        let fresh = FreshCell::new(alloc)?;
        let cell = fresh.shared()?;
        let mut cells = Vec::with_capacity(alloc, MOST_NODES)?;
        let places = Box::new(alloc, Places::new())?;
        let account = Account::new(alloc, SmallVec::new(alloc), NodeKind::Token, true)?;
        let book = Book::new(alloc, platform)?;
        cells.push_reserved(fresh.kept());
        let (counted, mut spare) = blank.open();
        let share = spare.split_off(1, 0);
        let room = Room {
            book,
            places,
            offspring: Offspring::new(),
            counted,
            spare,
            cells,
            is_deciding: false,
        };
        let log = Log { account, share };
        Ok(OpenedRoom { room, log, cell })
    }

    /// The book.
    pub fn book(&self) -> &Book
        ensures { result.now ≡ self.now }
    {
        &self.book
    }

    /// The book as it stands, for clauses alone.
    pub fn seen(&self) -> SeenBook<L>
        ensures { result ≡ self.now }
    {
        SeenBook::of(&self.book)
    }

    /// Enters an action on the node at this path, counts it in the share of who acts, and publishes
    /// the failures that it brings: the node that was made, or else the node acted on, and the share
    /// of the node that was made, without parts where none was. Or answers the tree's first refusal,
    /// and then nothing has changed. Where the node is the root of a domain, the domain gets the
    /// fresh cell. It takes no memory.
    pub(crate) fn enter(
        &mut self,
        event: Event,
        path: &[u32],
        fresh: Option<FreshCell>,
        mine: &mut Share<L>,
    ) -> Result<(NodeId, Share<L>), Refusal>
        requires path { node_at self.old.state.tree.nodes path.now ≡ Some event.node }
        requires mine { 0 < mine.old.parts }
        requires fresh { is_some fresh ≡ makes_root (kind_of (deed_of event.action)) }
        ensures entered { OnOk result (self.new
            ≡ entered self.old (Acted event.node (deed_of event.action))) }
        ensures accepted { IfOk result (λ done.
            applied self.old.state.tree event.node (deed_of event.action)
            ≡ Ok (record { tree = self.new.state.tree; node = done.0 })) }
        ensures refused { IfErr result (λ refusal.
            applied self.old.state.tree event.node (deed_of event.action) ≡ Err refusal) }
        ensures unchanged { OnErr result (self.new ≡ self.old) }
        ensures parts { mine.new.parts ≡ mine.old.parts }
        ensures counted { OnOk result (mine.new.amount ≡ mine.old.amount + 1) }
        ensures uncounted { OnErr result (mine.new.amount ≡ mine.old.amount) }
        ensures given { IfOk result (λ done. done.1.parts
            ≡ nodes_by (kind_of (deed_of event.action))) }
        ensures empty { IfOk result (λ done. done.1.amount ≡ 0) }
    {
        few_entries();
        one_path();
        self.book.tree().recall_sound();
        let acted = event.node;
        let kind = event.action.kind();
        let parts = parts_of(kind);
        let entries = self.book.history().len();
        let done = self.book.apply(event)?;
        let tree = self.book.tree();
        tree.node_count();
        tree.domain_count();
        self.places.add(tree.number_of(acted), entries, kind);
        self.offspring.add(path, kind);
        self.counted.add(mine, 1);
        let share = self.spare.split_off(parts, 0);
        keep(&mut self.cells, fresh);
        publish_action(&mut self.cells, tree, kind);
        Ok((done.node, share))
    }

    /// The node at the path of a log, if it was made as the log says, and the book has the log's
    /// actions on it and the verdict that is known of its domain.
    fn node_of(&self, account: &Account, known: Option<&Outcome>) -> Option<NodeId>
        ensures own { IfSome result (IsOwn self.now account.now
            (option_map (λ o. o.now) known.entry)) }
        ensures there { IfSome result (HasNode self.now.state.tree.nodes) }
        ensures none { result ≡ None → (node : ℕ) → IsOwn self.now account.now
            (option_map (λ o. o.now) known.entry) node → ⊥ }
    {
        let node = self.book.tree().node_at(account.path())?;
        if self.is_own(node, account, known) {
            Some(node)
        } else {
            None
        }
    }

    /// Whether a node was made as a log says, and the book has the log's actions on it and the
    /// verdict that is known of its domain.
    fn is_own(&self, node: NodeId, account: &Account, known: Option<&Outcome>) -> bool
        requires { HasNode self.now.state.tree.nodes node }
        ensures { IsTrue result ↔ IsAsKnown self.now account.now
            (option_map (λ o. o.now) known.entry) node }
    {
        self.has_log(node, account)
            && account.stands_as(self.book.tree(), node)
            && has_verdict(&self.book, node, known)
    }

    /// Whether the book has just the actions of a log on a node. Where it has, its places tell so;
    /// else the whole history is read.
    fn has_log(&self, node: NodeId, account: &Account) -> bool
        requires { HasNode self.now.state.tree.nodes node }
        ensures { IsTrue result ↔ (book_log self.now.history node ≡ account.now.deeds) }
    {
        self.places_tell(node, account) || has_actions(&self.book, node, account.actions())
    }

    /// Whether the book has just the actions of a log on a node, by its places: the `Duplicate`s at
    /// the end are counted, and the actions before them compared.
    fn places_tell(&self, node: NodeId, account: &Account) -> bool
        requires { HasNode self.now.state.tree.nodes node }
        ensures { IsTrue result → book_log self.now.history node ≡ account.now.deeds }
    {
        let number = self.book.tree().number_of(node);
        let Some(others) = account.before(self.places.duplicates(number)) else {
            return false;
        };
        has_placed(
            &self.book,
            &self.places,
            node,
            self.places.other(number),
            others,
        )
    }

    /// Whether an action of this kind on the node at this path would make one more below a child of
    /// the root than the limits allow.
    fn is_spent(&self, limits: Limits, path: &[u32], kind: ActionKind) -> bool
        requires { is_some (node_at self.now.state.tree.nodes path.now) ≡ true }
        ensures { result ≡ is_spent limits self.now.state.tree.nodes path.now kind }
    {
        self.book.tree().recall_sound();
        let (Some(most), Some(top)) = (limits.offspring, path.first()) else {
            return false;
        };
        kind.makes().is_some() && self.offspring.below(*top) >= most
    }

    /// Enters the action of a handle, by its log and what it knows of its domain's verdict, in the
    /// book and in the log; `copy` is the same action, for the log. It is refused with `Strange`
    /// where the book has no node at the log's path that was made as the log says, other actions
    /// there than the log, or another verdict than the one that is known; else with what is due by
    /// what the handle knows; else with what the book refuses it for, which the handle can't
    /// foresee, or, unless it ends the node, with `Strange` where the handle's verdict has its node
    /// as a member, and the book left it out; else with `TooManyNodes` where the limits are spent.
    /// Then nothing has changed. Beside what was entered stands the turn to take the decisions, if a
    /// domain waits for one and nobody takes them.
    pub fn act(
        &mut self,
        log: &mut Log<L>,
        known: Option<&Outcome>,
        action: Action,
        copy: Action,
        fresh: Option<FreshCell>,
        limits: Limits,
    ) -> Result<(EnteredAction<L>, Option<Turn<L>>), Refusal>
        requires same { deed_of copy ≡ deed_of action }
        requires room { ends_node (kind_of (deed_of action)) ≡ false
            → length log.old.deeds + 2 ≤ log.old.places }
        requires fresh { is_some fresh ≡ makes_root (kind_of (deed_of action)) }
        ensures entered { OnOk result (HasEntered self.old self.new log.old
            (option_map (λ o. o.now) known.entry) (deed_of action)) }
        ensures accepted { OnOk result ((node : ℕ)
            × IsOwn self.old log.old (option_map (λ o. o.now) known.entry) node
            × ((made : ℕ) × (applied self.old.state.tree node (deed_of action)
            ≡ Ok (record { tree = self.new.state.tree; node = made })))) }
        ensures own { IfErr result (λ refusal. refusal ≢ Refusal.Strange → (node : ℕ)
            × IsOwn self.old log.old (option_map (λ o. o.now) known.entry) node) }
        ensures strange { IfErr result (λ refusal. refusal ≡ Refusal.Strange → (node : ℕ)
            → IsOwn self.old log.old (option_map (λ o. o.now) known.entry) node
            → IsDisputed self.old log.old.path (shown_by log.old).state
            (option_map (λ o. o.now) known.entry) (kind_of (deed_of action)) node) }
        ensures unchanged { OnErr result ((self.new ≡ self.old) × (log.new ≡ log.old)) }
        ensures path { log.new.path ≡ log.old.path }
        ensures begun { log.new.begun ≡ log.old.begun }
        ensures logged { OnOk result (log.new.deeds ≡ log.old.deeds ++ deed_of action ∷ []) }
        ensures foreseen { OnOk result (due (option_map (λ o. o.now) known.entry) log.old.path
            (shown_by log.old).state (kind_of (deed_of action)) ≡ None) }
        ensures answers { IfErr result (λ refusal. refusal ≢ Refusal.Strange
            → IsAnswer (due (option_map (λ o. o.now) known.entry) log.old.path
            (shown_by log.old).state (kind_of (deed_of action)))
            (option_map (λ o. o.now) known.entry) (kind_of (deed_of action)) refusal) }
        ensures told { IfErr result (λ refusal. refusal ≢ Refusal.Strange
            → due (option_map (λ o. o.now) known.entry) log.old.path (shown_by log.old).state
            (kind_of (deed_of action)) ≡ None → IsRefused limits self.old log.old
            (option_map (λ o. o.now) known.entry) (deed_of action) refusal) }
        ensures within { OnOk result (is_spent limits self.old.state.tree.nodes log.old.path
            (kind_of (deed_of action)) ≡ false) }
        ensures before { IfOk result (λ done. done.0.before ≡ log.old) }
        ensures kind { IfOk result (λ done. done.0.kind ≡ kind_of (deed_of action)) }
        ensures turn { IfOk result (λ done. is_some done.1 ≡ true
            → is_some (next_ready self.new.state) ≡ true) }
    {
        let Some(node) = self.node_of(&log.account, known) else {
            return Err(Refusal::Strange);
        };
        let kind = action.kind();
        if let Some(refusal) = due(known, log.account.path(), log.account.state(), kind) {
            return Err(refusal);
        }
        self.book.tree().recall_sound();
        self.book.recall_legal();
        legal_agrees();
        if self.is_spent(limits, log.account.path(), kind)
            && tree_refusal(self.book.tree(), node, &action).is_none()
        {
            return Err(Refusal::TooManyNodes);
        }
        let before = Snapshot::of(&log.account);
        let path = log.account.path();
        match self.enter(Event { node, action }, path, fresh, &mut log.share) {
            Ok((_node, share)) => {
                log.account.push(copy);
                let entered = EnteredAction {
                    before,
                    kind,
                    share,
                };
                Ok((entered, self.begin()))
            }
            Err(refusal) => Err(unforeseen(known, kind, refusal)),
        }
    }

    /// The turn to take the decisions, if a domain waits for one and nobody takes them.
    fn begin(&mut self) -> Option<Turn<L>>
        ensures same { self.new ≡ self.old }
        ensures waits { is_some result ≡ true → is_some (next_ready self.old.state) ≡ true }
    {
        if self.is_deciding || self.book.next_ready().is_none() {
            return None;
        }
        self.is_deciding = true;
        Some(Turn {
            ledger: PhantomData,
        })
    }

    /// What the domain that is next is decided on, with the turn; `None` where no domain waits, and
    /// then the turn has ended. A domain for which memory is refused is entered and published as
    /// decided without memory, and the next one is taken.
    pub fn frozen(&mut self, turn: Turn<L>) -> Option<(Frozen, Turn<L>)>
        ensures frozen { option_map (λ next. next.0) result ≡ frozen_of self.new }
        ensures lacking { (domains : List ℕ) × (self.new ≡ without_memory self.old domains) }
    {
        match self.next_frozen() {
            Some(found) => Some((found, turn)),
            None => {
                let Turn { ledger: _ } = turn;
                self.is_deciding = false;
                None
            }
        }
    }

    /// What the domain that is next is decided on, where there is memory for it.
    fn next_frozen(&mut self) -> Option<Frozen>
        ensures frozen { result ≡ frozen_of self.new }
        ensures lacking { (domains : List ℕ) × (self.new ≡ without_memory self.old domains) }
    {
        for _ in 0..640_u32 {
            let domain = self.book.next_ready()?;
            match self.book.frozen() {
                Ok(found) => return found,
                Err(_) => self.give_up(domain),
            }
        }
        few_entries();
        self.book.platform();
        None
    }

    /// Enters and publishes a decision that was made from what was frozen, if the book still has
    /// that for the domain that is next; `false` where it hasn't, and then nothing has changed.
    /// `copy` is the same claim with an owner of its own, for the book. It takes no memory.
    pub fn conclude(
        &mut self,
        _turn: &Turn<L>,
        frozen: Frozen,
        claim: Arc<Claim>,
        copy: Arc<Claim>,
    ) -> bool
        requires right { IsTrueClaim frozen.platform frozen.tree.nodes frozen.domain frozen.base
            (arc_value claim) }
        requires same { arc_value copy ≡ arc_value claim }
        ensures fits { IsTrue result ↔ IsStill self.old frozen }
        ensures entered { IsTrue result → self.new ≡ entered self.old (Decided (record {
          domain = frozen.domain;
          claim = Some (arc_value claim);
        })) }
        ensures unchanged { result ≡ false → self.new ≡ self.old }
    {
        let fits = self.book.fits(&frozen);
        if fits {
            self.decide(frozen, claim, copy);
        }
        fits
    }

    /// Enters and publishes a decision that was made from what the book still has.
    fn decide(&mut self, frozen: Frozen, claim: Arc<Claim>, copy: Arc<Claim>)
        requires still { IsStill self.old frozen }
        requires right { IsTrueClaim frozen.platform frozen.tree.nodes frozen.domain frozen.base
            (arc_value claim) }
        requires same { arc_value copy ≡ arc_value claim }
        ensures { self.new ≡ entered self.old (Decided (record {
          domain = frozen.domain;
          claim = Some (arc_value claim);
        })) }
    {
        let domain = frozen.domain();
        self.book.decide(domain, Some(copy));
        let outcome = Outcome::Decided(Ruling::new(frozen, claim));
        publish_decision(&mut self.cells, self.book.tree(), domain, outcome);
    }

    /// Enters and publishes that memory was refused to the decision of what was frozen, if its
    /// domain still is the next one; else it changes nothing.
    pub fn lack(&mut self, _turn: &Turn<L>, frozen: &Frozen)
        ensures entered { next_ready self.old.state ≡ Some frozen.now.domain
            → self.new ≡ entered self.old (Decided (record {
              domain = frozen.now.domain;
              claim = None;
            })) }
        ensures unchanged { next_ready self.old.state ≢ Some frozen.now.domain
            → self.new ≡ self.old }
    {
        let domain = frozen.domain();
        if self.book.next_ready() == Some(domain) {
            self.give_up(domain);
        }
    }

    /// Enters and publishes that memory was refused to the decision of the domain that is next.
    fn give_up(&mut self, domain: DomainId)
        requires { next_ready self.old.state ≡ Some domain }
        ensures { self.new ≡ entered self.old (Decided (record { domain = domain; claim = None })) }
    {
        self.book.decide(domain, None);
        publish_decision(&mut self.cells, self.book.tree(), domain, Outcome::NoMemory);
    }

    /// Counts the actions by the shares of all nodes, joined: they have one for each action of the
    /// history.
    pub fn count(&mut self, all: &mut Share<L>)
        requires { all.old.parts ≡ length self.old.state.tree.nodes }
        ensures same { self.new ≡ self.old }
        ensures parts { all.new.parts ≡ all.old.parts }
        ensures amount { all.new.amount ≡ all.old.amount }
        ensures actions { all.new.amount ≡ actions_in self.old.history }
    {
        let rest = 129 - u64::from(self.book.tree().node_count());
        self.counted.audit(all);
        self.spare.give(all, rest, 0);
        self.counted.audit(all);
        all.give(&mut self.spare, rest, 0);
    }

    /// A share without parts.
    pub fn no_share(&mut self) -> Share<L>
        ensures parts { result.parts ≡ 0 }
        ensures amount { result.amount ≡ 0 }
        ensures same { self.new ≡ self.old }
    {
        self.spare.empty()
    }
}
