//! Calls that act.

ghost use Rattle.std.specs.Prelude.{◌≡◌, None, Ok, Err, IfErr, IfOk, IfSome, IsTrue, OnErr, OnOk, false, is_some, true};
ghost use Rattle.node_limits.specs.Limits.{applied_within};
ghost use Rattle.sysmem_alloc.specs.Book.{entered};
ghost use Rattle.sysmem_alloc.specs.Entry.{Acted};
ghost use Rattle.sysmem_alloc.specs.State.{next_ready};
ghost use Rattle.sysmem_tree.specs.ActionKind.{deed_of};
ghost use Rattle.sysmem_tree.specs.Nodes.{HasNode};
ghost use Rattle.sysmem_tree.specs.Tree.{applied};
ghost use Rattle.live_book.specs.Acting.{IsDenied};
ghost use Rattle.live_book.specs.Collection.{with_book};
ghost use Rattle.live_book.specs.Quota.{IsQuotaOf, limits_of};

use crate::collection::Collection;
use crate::quota::{Quota, is_spent, note};
use node_limits::tree_refusal;
use sysmem_alloc::Book;
use sysmem_tree::laws::one_path;
use sysmem_tree::{Action, Event, NodeId, Refusal};

/// An accepted call: the number of the node that was made, or else of the node acted on, and
/// whether a domain waits for a decision now.
#[derive(Clone, Copy, Debug)]
pub struct AcceptedCall {
    pub node: u32,
    pub is_ready: bool,
}

/// Why a call isn't accepted.
#[derive(Clone, Copy, Debug, Drop)]
pub enum Denial {
    /// A domain waits for a decision, which has to be entered first.
    Busy,
    /// By the rules of sysmem.
    Refused(Refusal),
}

/// Whether the limits alone refuse an action: the tree doesn't, and they are spent.
fn is_beyond(book: &Book, quota: &Option<Quota>, node: NodeId, action: &Action) -> bool
    requires there { HasNode book.now.state.tree.nodes node }
    requires quota { IfSome quota.now (IsQuotaOf book.now.state.tree.nodes) }
    ensures beyond { IsTrue result → applied_within (limits_of quota.now) book.now.state.tree node
        (deed_of action.now) ≡ Err Refusal.TooManyNodes }
    ensures within { result ≡ false → applied_within (limits_of quota.now) book.now.state.tree node
        (deed_of action.now) ≡ applied book.now.state.tree node (deed_of action.now) }
{
    let Some(quota) = quota else {
        return false;
    };
    if !is_spent(book, quota, node, action.kind()) {
        return false;
    }
    tree_refusal(book.tree(), node, action).is_none()
}

/// Makes an action on a node, as one step of the book, and counts what it makes; or refuses it, and
/// then nothing has changed. It takes no memory.
fn act_at(
    book: &mut Book,
    quota: &mut Option<Quota>,
    node: NodeId,
    action: Action,
) -> Result<AcceptedCall, Refusal>
    requires there { HasNode book.old.state.tree.nodes node }
    requires quota { IfSome quota.old (IsQuotaOf book.old.state.tree.nodes) }
    requires within { applied_within (limits_of quota.old) book.old.state.tree node (deed_of action)
        ≡ applied book.old.state.tree node (deed_of action) }
    ensures accepted { IfOk result (λ accepted.
        applied book.old.state.tree node (deed_of action)
        ≡ Ok (record { tree = book.new.state.tree; node = accepted.node })) }
    ensures entered { OnOk result (book.new ≡ entered book.old (Acted node (deed_of action))) }
    ensures ready { IfOk result (λ accepted.
        accepted.is_ready ≡ is_some (next_ready book.new.state)) }
    ensures refused { IfErr result (λ refusal.
        applied book.old.state.tree node (deed_of action) ≡ Err refusal) }
    ensures unchanged { OnErr result (book.new ≡ book.old) }
    ensures limits { limits_of quota.new ≡ limits_of quota.old }
    ensures counted { IfSome quota.new (IsQuotaOf book.new.state.tree.nodes) }
{
    one_path();
    let tree = book.tree();
    tree.recall_sound();
    let (number, kind) = (tree.number_of(node), action.kind());
    let child = tree.state(node).children;
    let done = book.apply(Event { node, action })?;
    let tree = book.tree();
    tree.recall_sound();
    let made = tree.number_of(done.node);
    note(quota, kind, number, child, made);
    Ok(AcceptedCall {
        node: made,
        is_ready: done.ready,
    })
}

/// Makes an action on the node of a number within limits, as one step of the book; or refuses it,
/// and then nothing has changed. It takes no memory.
fn act_within(
    book: &mut Book,
    quota: &mut Option<Quota>,
    number: u32,
    action: Action,
) -> Result<AcceptedCall, Refusal>
    requires { IfSome quota.old (IsQuotaOf book.old.state.tree.nodes) }
    ensures accepted { IfOk result (λ accepted.
        applied_within (limits_of quota.old) book.old.state.tree number (deed_of action)
        ≡ Ok (record { tree = book.new.state.tree; node = accepted.node })) }
    ensures entered { OnOk result (book.new ≡ entered book.old (Acted number (deed_of action))) }
    ensures ready { IfOk result (λ accepted.
        accepted.is_ready ≡ is_some (next_ready book.new.state)) }
    ensures refused { IfErr result (λ refusal.
        applied_within (limits_of quota.old) book.old.state.tree number (deed_of action)
        ≡ Err refusal) }
    ensures unchanged { OnErr result (book.new ≡ book.old) }
    ensures limits { limits_of quota.new ≡ limits_of quota.old }
    ensures counted { IfSome quota.new (IsQuotaOf book.new.state.tree.nodes) }
{
    let Some(node) = book.tree().node(number) else {
        return Err(Refusal::WrongState);
    };
    if is_beyond(book, quota, node, &action) {
        return Err(Refusal::TooManyNodes);
    }
    act_at(book, quota, node, action)
}

/// Whether a domain waits for a decision.
pub(crate) fn is_waited_for(book: &Book) -> bool
    ensures { result ≡ is_some (next_ready book.now.state) }
{
    book.next_ready().is_some()
}

/// Makes an action on the node of a number within the collection's limits, as one step of it; or
/// denies it, and then nothing has changed. It takes no memory.
pub fn act(collection: &mut Collection, number: u32, action: Action) -> Result<AcceptedCall, Denial>
    ensures accepted { IfOk result (λ accepted.
        applied_within collection.old.limits collection.old.book.state.tree number (deed_of action)
        ≡ Ok (record { tree = collection.new.book.state.tree; node = accepted.node })) }
    ensures entered { OnOk result (collection.new ≡ with_book collection.old
        (entered collection.old.book (Acted number (deed_of action)))) }
    ensures ready { IfOk result (λ accepted.
        accepted.is_ready ≡ is_some (next_ready collection.new.book.state)) }
    ensures idle { OnOk result (next_ready collection.old.book.state ≡ None) }
    ensures denied { IfErr result (IsDenied collection.old number (deed_of action)) }
    ensures unchanged { OnErr result (collection.new ≡ collection.old) }
{
    collection.book.recall_legal();
    if is_waited_for(&collection.book) {
        return Err(Denial::Busy);
    }
    match act_within(&mut collection.book, &mut collection.quota, number, action) {
        Ok(accepted) => Ok(accepted),
        Err(refusal) => Err(Denial::Refused(refusal)),
    }
}
