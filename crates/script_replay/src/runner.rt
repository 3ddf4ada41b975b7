//! The collection that a script's calls act on: its book, and what their names stand for.

ghost use Rattle.std.specs.Prelude.{◌≡◌, ◌+◌, ◌≤◌, ◌++◌, ◌||◌, ℕ, [], ◌∷◌, Ok, Some, None, true, false, length, option_map, slice_get, unwrap_or, IfErr, IfOk, IfSome, OnOk};
ghost use Rattle.std.specs.Arc.{arc_value};
ghost use Rattle.serde_json.specs.View.{view};
ghost use Rattle.record_reading.specs.Reading.{participant_of};
ghost use Rattle.script_reading.specs.Call.{states};
ghost use Rattle.script_reading.specs.Seen.{act_seen, call_seen, stated_seen};
ghost use Rattle.script_replay.specs.Answer.{AsksFor, Replies, is_want};
ghost use Rattle.script_replay.specs.Events.{events_of};
ghost use Rattle.script_replay.specs.Report.{with_decision};
ghost use Rattle.script_replay.specs.Steps.{DecidesIn, EntersIn, GoesIn, RepliesIn};
ghost use Rattle.script_replay.specs.State.{AreThere, first_run_state, names_given, node_named};
ghost use Rattle.script_replay.specs.Stop.{IfObjects, StopsIn};
ghost use Rattle.script_replay.specs.declared.decider.Stop.TheVariants.{Refused};
ghost use Rattle.sysmem_alloc.specs.Decision.{answer_of};
ghost use Rattle.sysmem_alloc.specs.Entry.{Decided};
ghost use Rattle.sysmem_alloc.specs.History.{Allows};
ghost use Rattle.sysmem_alloc.specs.Sound.{MayWait};
ghost use Rattle.sysmem_alloc.specs.State.{next_ready};
ghost use Rattle.sysmem_tree.specs.ActionKind.{deed_of};
ghost use Rattle.sysmem_tree.specs.Domain.{HasDomain};
ghost use Rattle.sysmem_tree.specs.Nodes.{HasNode};

use crate::decider::{Decider, Stop};
use crate::deciding::decided_by;
use crate::event::{CallEvent, Events};
use crate::failing::{add_failed, add_failed_since, failed_before};
use crate::reply::Reply;
use crate::telling::told;
use negotiation_inputs::{Constraints, Platform};
use record_reading::{Code, Fault};
use script_reading::{Act, Call, Stated};
use serde_json::Value;
use std::alloc::{AllocError, Global};
use std::sync::Arc;
use sysmem_alloc::Book;
use sysmem_alloc::laws::{few_entries, legal_is_sound};
use sysmem_sanitise::read_constraints;
use sysmem_tree::{Action, DomainId, Event, NodeId, Refusal};
use verdict_claims::Claim;

/// A collection with the names of its nodes.
#[derive(Debug, Drop)]
pub struct Runner {
    book: Book,
    /// For each name, in the order of the calls that make one, the node that it stands for; `None`
    /// where that call was not made.
    names: Vec<Option<NodeId>>,
    /// Whether memory was refused in a reply or a decision.
    starved: bool,
    ghost there: { AreThere book.state.tree.nodes names.items },
}

impl Runner {
    ghost use Rattle.script_replay.specs.Runner.{state_of};

    /// The collection of the root token.
    pub(crate) fn new(alloc: Global, platform: Platform) -> Result<Runner, AllocError>
        ensures { IfOk result (λ runner. state_of runner ≡ first_run_state platform) }
    {
        let book = Book::new(alloc, platform)?;
        let root = book.tree().root();
        let names = vec![in alloc; Some(root)]?;
        Ok(Runner {
            book,
            names,
            starved: false,
        })
    }

    /// The book.
    pub(crate) fn book(&self) -> &Book
        ensures { result.now ≡ self.now.book }
    {
        &self.book
    }

    /// Whether memory was refused in a reply or a decision.
    pub(crate) fn is_starved(&self) -> bool
        ensures { result ≡ (state_of self.now).starved }
    {
        self.starved
    }

    /// Makes a call where no domain waits, decides each domain that waits then, and adds all that
    /// to what happened.
    pub(crate) fn take<'a, D: Decider>(
        &mut self,
        alloc: Global,
        number: usize,
        call: &Call<'a>,
        decider: &mut D,
        events: &mut Events<'a>,
    ) -> Result<(), Stop>
        requires idle { next_ready (state_of self.old).book ≡ None }
        ensures goes { OnOk result (GoesIn number (state_of self.old) (call_seen call.now ∷ [])
            (state_of self.new) (events_of events.old) (events_of events.new)
            (D.gave decider.old self.old.book.platform)
            (D.gave decider.new self.old.book.platform)) }
        ensures idle { OnOk result (next_ready (state_of self.new).book ≡ None) }
        ensures stops { IfErr result (λ stop. IfObjects stop (StopsIn number (state_of self.old)
            (call_seen call.now ∷ []) (state_of self.new)
            (D.gave decider.old self.old.book.platform)
            (D.gave decider.new self.old.book.platform) (D.objects decider.new))) }
        ensures given { D.given decider.new ≡ D.given decider.old }
    {
        self.reply(alloc, number, call, events)?;
        self.decide_waiting(alloc, decider, events)
    }

    /// Makes a call, and adds it and the domains that it makes fail to what happened.
    fn reply<'a>(
        &mut self,
        alloc: Global,
        number: usize,
        call: &Call<'a>,
        events: &mut Events<'a>,
    ) -> Result<(), AllocError>
        ensures { OnOk result (RepliesIn number (state_of self.old) (call_seen call.now)
            (state_of self.new) (events_of events.old) (events_of events.new)) }
    {
        legal_is_sound();
        self.book.recall_legal();
        let had_failed = failed_before(self.book.tree(), &call.act);
        let reply = self.answer(alloc, call)?;
        events.add_call(CallEvent {
            number,
            call: *call,
            reply,
        })?;
        add_failed_since(events, self.book.tree(), &had_failed)?;
        Ok(())
    }

    /// Decides as long as a domain waits, and adds the decisions to what happened.
    fn decide_waiting<D: Decider>(
        &mut self,
        alloc: Global,
        decider: &mut D,
        events: &mut Events<'_>,
    ) -> Result<(), Stop>
        ensures goes { OnOk result ((number : ℕ) → GoesIn number (state_of self.old) []
            (state_of self.new) (events_of events.old) (events_of events.new)
            (D.gave decider.old self.old.book.platform)
            (D.gave decider.new self.old.book.platform)) }
        ensures idle { OnOk result (next_ready (state_of self.new).book ≡ None) }
        ensures stops { IfErr result (λ stop. IfObjects stop (λ objection. (number : ℕ)
            → StopsIn number (state_of self.old) [] (state_of self.new)
            (D.gave decider.old self.old.book.platform) (D.gave decider.new self.old.book.platform)
            (D.objects decider.new) objection)) }
        ensures given { D.given decider.new ≡ D.given decider.old }
    {
        while let Some(domain) = self.book.next_ready() {
            self.decide(alloc, domain, decider, events)?;
        }
        Ok(())
    }

    /// Decides the first domain that waits, and adds the decision to what happened.
    fn decide<D: Decider>(
        &mut self,
        alloc: Global,
        domain: DomainId,
        decider: &mut D,
        events: &mut Events<'_>,
    ) -> Result<(), Stop>
        requires next { next_ready (state_of self.old).book ≡ Some domain }
        requires waits { MayWait (state_of self.old).book.tree domain }
        ensures lines { OnOk result (DecidesIn (state_of self.old) (state_of self.new)
            (events_of events.old) (events_of events.new)
            (D.gave decider.old self.old.book.platform)
            (D.gave decider.new self.old.book.platform)) }
        ensures grows { OnOk result (length self.new.book.history
            ≡ length self.old.book.history + 1) }
        ensures few { OnOk result (length self.new.book.history ≤ 639) }
        ensures stops { IfErr result (λ stop. IfObjects stop (λ objection. (number : ℕ)
            → StopsIn number (state_of self.old) [] (state_of self.new)
            (D.gave decider.old self.old.book.platform) (D.gave decider.new self.old.book.platform)
            (D.objects decider.new) objection)) }
        ensures given { D.given decider.new ≡ D.given decider.old }
    {
        let claim = decider.decide(alloc, &self.book, domain)?;
        self.tell(domain, claim, events)?;
        Ok(())
    }

    /// Enters a decision that the book allows, and adds it and the domains that it makes fail to
    /// what happened.
    fn tell(
        &mut self,
        domain: DomainId,
        claim: Option<Arc<Claim>>,
        events: &mut Events<'_>,
    ) -> Result<(), AllocError>
        requires there { HasDomain (state_of self.old).book.tree.nodes domain }
        requires allowed { Allows self.old.book.platform self.old.book.state (Decided (record {
          domain = domain;
          claim = option_map (λ shared. arc_value shared) claim;
        })) }
        ensures lines { OnOk result (EntersIn (state_of self.old) (state_of self.new) (record {
          domain = domain;
          claim = option_map (λ shared. arc_value shared) claim;
        }) (events_of events.old) (events_of events.new)) }
        ensures grows { OnOk result (length self.new.book.history
            ≡ length self.old.book.history + 1) }
        ensures few { OnOk result (length self.new.book.history ≤ 639) }
    {
        few_entries();
        let fate = decided_by(&self.book, domain, &claim)?;
        events.add_domain(self.book.tree(), domain, fate)?;
        let had_failed = self.book.tree().failed_domains();
        self.enter(domain, claim);
        add_failed(events, self.book.tree(), &had_failed)?;
        self.book.recall_legal();
        Ok(())
    }

    /// Enters a decision that the book allows.
    fn enter(&mut self, domain: DomainId, claim: Option<Arc<Claim>>)
        requires { Allows self.old.book.platform self.old.book.state (Decided (record {
          domain = domain;
          claim = option_map (λ shared. arc_value shared) claim;
        })) }
        ensures state { state_of self.new ≡ with_decision (state_of self.old) (answer_of (record {
          domain = domain;
          claim = option_map (λ shared. arc_value shared) claim;
        })) }
        ensures grows { length self.new.book.history ≡ length self.old.book.history + 1 }
    {
        let wants = claim.is_none();
        self.book.decide(domain, claim);
        self.keep_want(wants);
    }

    /// A stop after which nothing is said where memory was refused before.
    pub(crate) fn stopped(&self, stop: Stop) -> Stop
        ensures { IfObjects result (λ objection.
            (stop ≡ Refused objection) × ((state_of self.now).starved ≡ false)) }
    {
        if self.starved {
            return Stop::NoMemory;
        }
        stop
    }

    /// Keeps whether memory was refused.
    fn keep_want(&mut self, wants: bool)
        ensures state { state_of self.new ≡ record (state_of self.old) {
          starved = (state_of self.old).starved || wants;
        } }
        ensures book { self.new.book ≡ self.old.book }
    {
        self.starved = self.starved || wants;
    }

    /// Makes a call, and gives its reply.
    fn answer(&mut self, alloc: Global, call: &Call<'_>) -> Result<Reply, AllocError>
        ensures { IfOk result (λ reply.
            Replies (state_of self.old) (call_seen call.now) reply (state_of self.new)) }
    {
        let Some(node) = self.node_at(call.place) else {
            self.keep_name(&call.act, None)?;
            return Ok(Reply::Skipped);
        };
        match call.act {
            Act::Duplicate(_) => self.act(call, node, Action::Duplicate),
            Act::CreateGroup(_) => self.act(call, node, Action::CreateGroup),
            Act::Bind => self.act(call, node, Action::Bind),
            Act::SetConstraints(stated) => self.set_constraints(alloc, call, node, stated),
            Act::CreateChild(_) => self.act(call, node, Action::CreateChild),
            Act::AllChildrenPresent => self.act(call, node, Action::AllChildrenPresent),
            Act::AttachToken(_) => self.act(call, node, Action::AttachToken),
            Act::Release => self.act(call, node, Action::Release),
            Act::Close => self.act(call, node, Action::Close),
            Act::Check => Ok(told(&self.book, node)),
            Act::Wait => Ok(told(&self.book, node)),
        }
    }

    /// Sets the constraints that a call states, if any, on its node: what they are read as, where
    /// they were read before.
    fn set_constraints(
        &mut self,
        alloc: Global,
        call: &Call<'_>,
        node: NodeId,
        stated: Option<Stated<'_>>,
    ) -> Result<Reply, AllocError>
        requires named { node_named (state_of self.old) (call_seen call.now) ≡ Some node }
        requires stated { (call_seen call.now).act ≡ act_seen (Act.SetConstraints stated) }
        ensures { IfOk result (λ reply.
            Replies (state_of self.old) (call_seen call.now) reply (state_of self.new)) }
    {
        match stated {
            None => self.act(call, node, Action::SetConstraints(None)),
            Some(stated) => match stated.read() {
                Some(read) => self.set_shared(call, node, stated, read),
                None => self.set_read(alloc, call, node, stated.value()),
            },
        }
    }

    /// Sets what a record is read as on a call's node.
    fn set_shared(
        &mut self,
        call: &Call<'_>,
        node: NodeId,
        stated: Stated<'_>,
        read: &Arc<Constraints>,
    ) -> Result<Reply, AllocError>
        requires named { node_named (state_of self.old) (call_seen call.now) ≡ Some node }
        requires stated { (call_seen call.now).act ≡ states (Some (stated_seen stated)) }
        requires read { participant_of (stated_seen stated) ≡ Ok (arc_value read.now) }
        ensures { IfOk result (λ reply.
            Replies (state_of self.old) (call_seen call.now) reply (state_of self.new)) }
    {
        match Arc::try_clone(read) {
            Ok(shared) => self.act(call, node, Action::SetConstraints(Some(shared))),
            Err(AllocError) => Ok(self.unshared()),
        }
    }

    /// Reads the constraints that a call states, and sets them on its node.
    fn set_read(
        &mut self,
        alloc: Global,
        call: &Call<'_>,
        node: NodeId,
        value: &Value,
    ) -> Result<Reply, AllocError>
        requires named { node_named (state_of self.old) (call_seen call.now) ≡ Some node }
        requires stated { (call_seen call.now).act ≡ states (Some (view value.now)) }
        ensures { IfOk result (λ reply.
            Replies (state_of self.old) (call_seen call.now) reply (state_of self.new)) }
    {
        let asked = match read_constraints(alloc, value) {
            Ok(asked) => asked,
            Err(fault) => return Ok(self.misread(fault)),
        };
        match Arc::new(alloc, asked) {
            Ok(shared) => self.act(call, node, Action::SetConstraints(Some(shared))),
            Err(_) => Ok(self.unshared()),
        }
    }

    /// The reply to constraints that can't be read.
    fn misread(&mut self, fault: Fault) -> Reply
        ensures reply { result ≡ Reply.Misread fault }
        ensures starved { state_of self.new ≡ record (state_of self.old) {
          starved = (state_of self.old).starved || is_want fault.code;
        } }
    {
        self.keep_want(is_want(fault.code));
        Reply::Misread(fault)
    }

    /// The reply where memory is refused to constraints that were read.
    fn unshared(&mut self) -> Reply
        ensures reply { result ≡ Reply.Refused Refusal.NoMemory }
        ensures starved { state_of self.new ≡ record (state_of self.old) { starved = true } }
    {
        self.starved = true;
        Reply::Refused(Refusal::NoMemory)
    }

    /// Makes a call's action on its node, or refuses it.
    fn act(&mut self, call: &Call<'_>, node: NodeId, action: Action) -> Result<Reply, AllocError>
        requires named { node_named (state_of self.old) (call_seen call.now) ≡ Some node }
        requires asks { AsksFor (call_seen call.now).act (deed_of action) }
        ensures { IfOk result (λ reply.
            Replies (state_of self.old) (call_seen call.now) reply (state_of self.new)) }
    {
        match self.book.apply(Event { node, action }) {
            Ok(done) => {
                self.keep_name(&call.act, Some(done.node))?;
                Ok(Reply::Accepted)
            }
            Err(refusal) => {
                self.keep_name(&call.act, None)?;
                Ok(Reply::Refused(refusal))
            }
        }
    }

    /// The node that the name at a place stands for; `None` where the call that makes it was not
    /// made.
    fn node_at(&self, place: usize) -> Option<NodeId>
        ensures node { result ≡ unwrap_or (slice_get (state_of self.now).names place) None }
        ensures there { IfSome result (HasNode (state_of self.now).book.tree.nodes) }
    {
        self.names.get(place).copied().unwrap_or(None)
    }

    /// The number of that node.
    pub(crate) fn node_number(&self, place: usize) -> Option<u32>
        ensures { result ≡ unwrap_or (slice_get (state_of self.now).names place) None }
    {
        let node = self.node_at(place)?;
        Some(self.book.tree().number_of(node))
    }

    /// Keeps what the name that a call gives stands for, if it gives one.
    fn keep_name(&mut self, act: &Act<'_>, node: Option<NodeId>) -> Result<(), AllocError>
        requires { IfSome node (HasNode (state_of self.old).book.tree.nodes) }
        ensures { OnOk result (state_of self.new ≡ record (state_of self.old) {
          names = (state_of self.old).names ++ names_given (act_seen act.now) node;
        }) }
    {
        if act.name_made().is_some() {
            self.names.push(node)?;
        }
        Ok(())
    }
}

/// Whether memory was refused to a reader.
fn is_want(code: Code) -> bool
    ensures { result ≡ is_want code }
{
    matches!(code, Code::WantOfMemory)
}
