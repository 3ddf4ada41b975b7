//! Who is in the way of a domain that has no settings.

ghost use Rattle.std.specs.Prelude.{◌≡◌, ◌<◌, ◌≤◌, ◌++◌, ◌∷◌, ℕ, [], IfErr, IfOk, IfSome, IsSome, List, OnOk, Some, false, if◌then◌else◌, length, option_map, slice_get, true};
ghost use Rattle.std.specs.Arc.{arc_value};
ghost use Rattle.std.specs.List.{list_any};
ghost use Rattle.std.specs.Option.{option_map_or};
ghost use Rattle.flat_negotiation.specs.Refusals.{flat_refusal};
ghost use Rattle.flat_negotiation.specs.Unsettled.{AreUnmet};
ghost use Rattle.flat_negotiation.specs.declared.unsettled.Refusal.{Refusal};
ghost use Rattle.flat_negotiation.specs.declared.unsettled.Unsettled.TheVariants.{NoMemory, Unmet};
ghost use Rattle.live_book.specs.declared.object.Object.TheVariants.{Snapshot as Copied};
ghost use Rattle.live_script.specs.Refusing.{TellsRefusal, TellsWho, asked_of, asking_in, asks_in, by_number, has_group, is_emptied, is_empty, is_group_of, is_told};
ghost use Rattle.sysmem_alloc.specs.Decision.{verdict_in};
ghost use Rattle.sysmem_alloc.specs.Entry.{entry_in};
ghost use Rattle.sysmem_merge.specs.Best.{IsBest, IsUnmet};
ghost use Rattle.sysmem_tree.specs.Domain.{HasDomain};
ghost use Rattle.sysmem_tree.specs.Node.{NodeFacts};
ghost use Rattle.sysmem_tree.specs.Nodes.{HasNode};
ghost use Rattle.sysmem_tree.specs.declared.tree.TheConstants.{MOST_NODES};
ghost use Rattle.verdict_claims.specs.Asked.{asked_in, asks_at};

use book_events::Entry;
use flat_negotiation::{FlatRefusal, Unsettled, refusal_of, settled};
use live_book::{Object, Snapshot};
use live_calls::{DONE, MISUSED, NO, NO_MEMORY};
use live_held::Held;
use negotiation_inputs::Constraints;
use record_writing::copy_constraints;
use std::alloc::{AllocError, Global};
use std::sync::Arc;
use sysmem_alloc::laws::{headline, legal_is_sound, numbers_stay};
use sysmem_merge::Settings;
use sysmem_tree::laws::{one_forest, one_path};
use sysmem_tree::{DomainId, NodeId, NodeKind, Tree};
use verdict_claims::{Claim, Verdict};

/// Whether a claim is that no settings meet everybody.
fn is_empty(claim: &Option<Arc<Claim>>) -> bool
    ensures { result ≡ is_empty (verdict_in (option_map (λ shared. arc_value shared) claim.now)) }
{
    match claim {
        Some(claim) => matches!(claim.verdict, Verdict::IntersectionEmpty),
        None => false,
    }
}

/// Whether an entry is that verdict on a domain.
fn is_emptied(entry: &Entry, domain: DomainId) -> bool
    ensures { (nodes : List NodeFacts) → result ≡ is_emptied domain (entry_in nodes entry.now) }
{
    match entry {
        Entry::Acted(_, _) => false,
        Entry::Decided(there, claim) => *there == domain && is_empty(claim),
    }
}

/// Whether a history has that verdict on a domain.
fn has_emptied(snapshot: &Snapshot, domain: DomainId) -> bool
    ensures { result ≡ list_any (is_emptied domain) snapshot.now.history }
{
    let history = snapshot.history();
    for entry in history {
        if is_emptied(entry, domain) {
            return true;
        }
    }
    false
}

/// Whether the node of a number is a group of a domain.
fn is_group_at(tree: &Tree, number: u32, domain: DomainId) -> bool
    ensures { result ≡ option_map_or (is_group_of domain) (slice_get tree.now.nodes number) false }
{
    match tree.node(number) {
        Some(node) => {
            tree.domain_of(node) == domain && matches!(tree.kind(node), NodeKind::Group)
        }
        None => false,
    }
}

/// Whether a domain has a group.
fn has_group(tree: &Tree, domain: DomainId) -> bool
    ensures { result ≡ has_group tree.now.nodes domain }
{
    for number in 0..tree.node_count() {
        if is_group_at(tree, number, domain) {
            return true;
        }
    }
    false
}

/// Whether the node of a number is one of a domain, and set constraints.
fn is_asking(tree: &Tree, number: u32, domain: DomainId) -> bool
    ensures { result ≡ option_map_or (asks_in domain) (slice_get tree.now.nodes number) false }
{
    match tree.node(number) {
        Some(node) => tree.domain_of(node) == domain && tree.constraints_of(node).is_some(),
        None => false,
    }
}

/// Adds a number where its node is one of a domain and set constraints.
fn add_asking(
    tree: &Tree,
    number: u32,
    domain: DomainId,
    numbers: &mut Vec<u32>,
) -> Result<(), AllocError>
    ensures { OnOk result (numbers.new.items ≡ numbers.old.items
        ++ (if option_map_or (asks_in domain) (slice_get tree.now.nodes number) false
        then number ∷ [] else [])) }
{
    if is_asking(tree, number, domain) {
        Ok(numbers.push(number)?)
    } else {
        Ok(())
    }
}

/// The numbers of the nodes of a domain that set constraints, in the order in which they were made.
fn asking_in(alloc: Global, tree: &Tree, domain: DomainId) -> Result<Vec<u32>, AllocError>
    ensures numbers { IfOk result (λ numbers. numbers.items ≡ asking_in tree.now.nodes domain) }
    ensures few { IfOk result (λ numbers. length numbers.items ≤ MOST_NODES) }
{
    let mut numbers = Vec::new(alloc);
    for number in 0..tree.node_count() {
        add_asking(tree, number, domain, &mut numbers)?;
    }
    Ok(numbers)
}

/// A copy of the constraints of the node of a number, if it has some.
fn asked_by(alloc: Global, tree: &Tree, number: u32) -> Result<Option<Constraints>, AllocError>
    ensures { IfOk result (λ asked. asked ≡ asks_at tree.now.nodes number) }
{
    let Some(node) = tree.node(number) else {
        return Ok(None);
    };
    match tree.constraints_of(node) {
        Some(asked) => Ok(Some(copy_constraints(alloc, asked)?)),
        None => Ok(None),
    }
}

/// Adds a copy of the constraints of the node of a number, if it has some.
fn add_asked(
    alloc: Global,
    tree: &Tree,
    number: u32,
    asked: &mut Vec<Constraints>,
) -> Result<(), AllocError>
    ensures { OnOk result (asked.new.items
        ≡ asked.old.items ++ asked_in tree.now.nodes (number ∷ [])) }
{
    match asked_by(alloc, tree, number)? {
        Some(one) => Ok(asked.push(one)?),
        None => Ok(()),
    }
}

/// Copies of the constraints of the nodes of these numbers.
fn asked_in(alloc: Global, tree: &Tree, numbers: &[u32]) -> Result<Vec<Constraints>, AllocError>
    ensures asked { IfOk result (λ asked. asked.items ≡ asked_in tree.now.nodes numbers.now) }
    ensures few { IfOk result (λ asked. length asked.items ≤ length numbers.now) }
{
    let mut asked = Vec::new(alloc);
    for number in numbers {
        add_asked(alloc, tree, *number, &mut asked)?;
    }
    Ok(asked)
}

/// The settings of the list of the nodes of these numbers, or who is in the way.
fn settled_for(alloc: Global, snapshot: &Snapshot, numbers: &[u32]) -> Result<Settings, Unsettled>
    requires { length numbers.now ≤ MOST_NODES }
    ensures best { IfOk result (IsBest true snapshot.now.platform
        (asked_in snapshot.now.tree.nodes numbers.now)) }
    ensures unmet { IfErr result (AreUnmet snapshot.now.platform
        (asked_in snapshot.now.tree.nodes numbers.now)) }
{
    let asked = asked_in(alloc, snapshot.tree(), numbers)?;
    settled(alloc, snapshot.platform(), &asked)
}

/// The refusal with the number of a node in the place of its index in the list.
fn by_number(refusal: FlatRefusal, numbers: &[u32]) -> FlatRefusal
    ensures { result ≡ by_number numbers.now refusal }
{
    match numbers.get(refusal.who) {
        Some(number) => FlatRefusal {
            who: *number as usize,
            ..refusal
        },
        None => refusal,
    }
}

/// Tells who is in the way of a list of nodes.
fn tell_unsettled(unsettled: Unsettled, numbers: &[u32], why: &mut FlatRefusal) -> u32
    ensures tells { (refusal : Refusal) → unsettled ≡ Unmet refusal → (result ≡ 0) × (why.new
        ≡ by_number numbers.now (flat_refusal why.old.struct_size (Unmet refusal))) }
    ensures starves { unsettled ≡ NoMemory → (result ≡ 4) × (why.new ≡ why.old) }
{
    match unsettled {
        Unsettled::Unmet(refusal) => {
            let told = refusal_of(why.struct_size, &Unsettled::Unmet(refusal));
            *why = by_number(told, numbers);
            DONE
        }
        _ => NO_MEMORY,
    }
}

/// Tells who is in the way of the list of the nodes of these numbers.
fn tell_list(alloc: Global, snapshot: &Snapshot, numbers: &[u32], why: &mut FlatRefusal) -> u32
    requires few { length numbers.now ≤ MOST_NODES }
    requires unmet { IsUnmet true snapshot.now.platform
        (asked_in snapshot.now.tree.nodes numbers.now) }
    ensures { (r : ℕ) → numbers.now ≡ asking_in snapshot.now.tree.nodes r
        → TellsWho snapshot.now r why.old why.new result }
{
    match settled_for(alloc, snapshot, numbers) {
        Ok(_) => unreachable!(),
        Err(unsettled) => tell_unsettled(unsettled, numbers, why),
    }
}

/// Recalls, for a proof, that no settings meet the list of what is asked in a domain of which it is
/// told who is in the way. It does nothing.
fn recall_unmet(snapshot: &Snapshot, domain: DomainId)
    requires { is_told snapshot.now domain ≡ true }
    ensures { IsUnmet true snapshot.now.platform (asked_of snapshot.now domain) }
{
    headline();
    numbers_stay();
    legal_is_sound();
    one_path();
    one_forest();
    snapshot.recall_settled();
    let _ = domain;
}

/// Tells who is in the way of a domain, by the list of what is asked in it.
fn tell(alloc: Global, snapshot: &Snapshot, domain: DomainId, why: &mut FlatRefusal) -> u32
    requires { is_told snapshot.now domain ≡ true }
    ensures { TellsWho snapshot.now domain why.old why.new result }
{
    recall_unmet(snapshot, domain);
    match asking_in(alloc, snapshot.tree(), domain) {
        Ok(numbers) => tell_list(alloc, snapshot, &numbers, why),
        Err(_) => NO_MEMORY,
    }
}

/// Whether it is told who is in the way of a domain: of one that isn't attached and has no group,
/// and of which it was decided that no settings meet everybody.
fn is_told(snapshot: &Snapshot, domain: DomainId) -> bool
    requires { HasDomain snapshot.now.tree.nodes domain }
    ensures { result ≡ is_told snapshot.now domain }
{
    let tree = snapshot.tree();
    tree.host_of(domain).is_none() && !has_group(tree, domain) && has_emptied(snapshot, domain)
}

/// The node of a number.
fn node_of(snapshot: &Snapshot, number: u32) -> Option<NodeId>
    ensures number { IfSome result (λ node. node ≡ number) }
    ensures some { number < length snapshot.now.tree.nodes → IsSome result }
    ensures there { IfSome result (HasNode snapshot.now.tree.nodes) }
{
    snapshot.tree().node(number)
}

/// The domain of a node.
fn domain_of(snapshot: &Snapshot, node: NodeId) -> DomainId
    requires { HasNode snapshot.now.tree.nodes node }
    ensures domain { IfSome (slice_get snapshot.now.tree.nodes node) (λ n. result ≡ n.domain) }
    ensures there { HasDomain snapshot.now.tree.nodes result }
{
    snapshot.tree().domain_of(node)
}

/// Tells who is in the way of the domain of the node of a number.
fn refusal_at(alloc: Global, snapshot: &Snapshot, number: u32, why: &mut FlatRefusal) -> u32
    ensures { TellsRefusal number (Some (Copied snapshot.now)) why.old why.new result }
{
    let Some(node) = node_of(snapshot, number) else {
        return MISUSED;
    };
    let domain = domain_of(snapshot, node);
    if is_told(snapshot, domain) {
        tell(alloc, snapshot, domain, why)
    } else {
        NO
    }
}

/// The same of an object.
fn refusal_in(alloc: Global, object: &Object, number: u32, why: &mut FlatRefusal) -> u32
    ensures { TellsRefusal number (Some object.now) why.old why.new result }
{
    let Object::Snapshot(snapshot) = object else {
        return MISUSED;
    };
    refusal_at(alloc, snapshot, number, why)
}

/// Writes who is in the way of the domain of the node of a number, by the copy of a collection: as
/// a list of its participants has it, in the order in which their nodes were made, with the number
/// of a node for the index. 6 where that domain wasn't decided to be empty, is attached, or has
/// groups.
pub fn refusal_on(alloc: Global, held: &mut Held, node: u32, why: &mut FlatRefusal) -> u32
    ensures tells { TellsRefusal node held.old.value why.old why.new result }
    ensures unchanged { held.new.value ≡ held.old.value }
{
    let Some(object) = held.take(alloc) else {
        return MISUSED;
    };
    let status = refusal_in(alloc, &object, node, why);
    held.put(object);
    status
}
