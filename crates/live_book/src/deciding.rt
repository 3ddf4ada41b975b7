//! Decisions: what is needed is copied in one hold of the lock, the search and its proof run in
//! none, and what they found is entered in another, if the book still has what it was made from.

ghost use Rattle.std.specs.Arc.{arc_value};
ghost use Rattle.std.specs.Prelude.{◌≡◌, ◌↔◌, ◌⊎◌, IsTrue, IfOk, IfSome, OnErr, OnOk, Some, None, false, option_map, is_some, true};
ghost use Rattle.sysmem_alloc.specs.Book.{entered};
ghost use Rattle.sysmem_alloc.specs.Entry.{Decided};
ghost use Rattle.sysmem_alloc.specs.Frozen.{IsStill, frozen_of};
ghost use Rattle.sysmem_alloc.specs.Sound.{MayWait};
ghost use Rattle.sysmem_alloc.specs.State.{next_ready};
ghost use Rattle.sysmem_tree.specs.Laws.{AreStill};
ghost use Rattle.verdict_claims.specs.Base.{IsGivenBase};
ghost use Rattle.verdict_claims.specs.Claim.{IsTrueClaim};
ghost use Rattle.live_book.specs.Collection.{with_book};

use crate::collection::Collection;
use crate::decision::Decision;
use std::alloc::{AllocError, Global};
use std::sync::Arc;
use sysmem_alloc::{Book, Frozen};
use sysmem_search::{NoGate, prove, search};
use verdict_claims::Claim;

/// What the domain that is next is decided on; `None` exactly where no domain waits. `AllocError`
/// where one waits and memory is refused.
pub fn freeze(collection: &Collection) -> Result<Option<Decision>, AllocError>
    ensures made { IfOk result (λ made. made
        ≡ option_map (λ f. record { frozen = f; claim = None })
        (frozen_of collection.now.book)) }
    ensures waits { OnErr result (is_some (next_ready collection.now.book.state) ≡ true) }
{
    freeze_in(collection.book())
}

fn freeze_in(book: &Book) -> Result<Option<Decision>, AllocError>
    ensures made { IfOk result (λ made. made
        ≡ option_map (λ f. record { frozen = f; claim = None }) (frozen_of book.now)) }
    ensures waits { OnErr result (is_some (next_ready book.now.state) ≡ true) }
{
    let Some(_domain) = book.next_ready() else {
        return Ok(None);
    };
    match book.frozen()? {
        Some(frozen) => Ok(Some(Decision::new(frozen))),
        None => Ok(None),
    }
}

/// What a search finds, with what proves it.
fn claim_of(alloc: Global, frozen: &Frozen) -> Result<Claim, AllocError>
    ensures { IfOk result (IsTrueClaim frozen.now.platform frozen.now.tree.nodes frozen.now.domain
        frozen.now.base) }
{
    let (platform, tree, domain) = (frozen.platform(), frozen.tree(), frozen.domain());
    let base = frozen.base();
    let found = search(alloc, platform, tree, domain, base, &NoGate)?;
    let proof = prove(alloc, platform, tree, domain, base, &found.verdict)?;
    Ok(Claim {
        verdict: found.verdict,
        proof,
    })
}

fn claimed(alloc: Global, frozen: &Frozen) -> Result<Arc<Claim>, AllocError>
    ensures { IfOk result (λ shared. IsTrueClaim frozen.now.platform frozen.now.tree.nodes
        frozen.now.domain frozen.now.base (arc_value shared)) }
{
    let claim = claim_of(alloc, frozen)?;
    Ok(Arc::new(alloc, claim)?)
}

/// Searches, and proves what it found. `AllocError` where memory is refused.
pub fn decide(alloc: Global, decision: Decision) -> Result<Decision, AllocError>
    ensures { IfOk result (λ made. (made.frozen ≡ decision.frozen) × (is_some made.claim ≡ true)) }
{
    let (frozen, _) = decision.into_parts();
    let claim = claimed(alloc, &frozen)?;
    Ok(Decision::decided(frozen, claim))
}

/// Enters a claim that is true of what the book still has.
fn enter_still(book: &mut Book, frozen: &Frozen, claim: Arc<Claim>)
    requires still { IsStill book.old frozen.now }
    requires right { IsTrueClaim frozen.now.platform frozen.now.tree.nodes frozen.now.domain
        frozen.now.base (arc_value claim) }
    ensures entered { book.new ≡ entered book.old (Decided (record {
      domain = frozen.now.domain;
      claim = Some (arc_value claim);
    })) }
    ensures still { AreStill book.old.state.tree.nodes book.new.state.tree.nodes }
{
    book.decide(frozen.domain(), Some(claim));
}

/// Enters a claim that is true of what was frozen, if the book still has that.
fn enter_claim(book: &mut Book, frozen: &Frozen, claim: Arc<Claim>) -> bool
    requires { IsTrueClaim frozen.now.platform frozen.now.tree.nodes frozen.now.domain
        frozen.now.base (arc_value claim) }
    ensures fits { IsTrue result ↔ IsStill book.old frozen.now }
    ensures entered { IsTrue result → book.new ≡ entered book.old (Decided (record {
      domain = frozen.now.domain;
      claim = Some (arc_value claim);
    })) }
    ensures still { IsTrue result → AreStill book.old.state.tree.nodes book.new.state.tree.nodes }
    ensures unchanged { result ≡ false → book.new ≡ book.old }
{
    let fits = book.fits(frozen);
    if fits {
        enter_still(book, frozen, claim);
    }
    fits
}

/// Enters a decision that was made, if the book still has what it was made from; `false` where it
/// hasn't or where none was made, and then nothing has changed.
fn enter_in(book: &mut Book, decision: Decision) -> bool
    ensures fits { IsTrue result → IsStill book.old decision.frozen }
    ensures entered { IsTrue result → book.new ≡ entered book.old (Decided (record {
      domain = decision.frozen.domain;
      claim = decision.claim;
    })) }
    ensures stays { result ≡ false
        → (decision.claim ≡ None) ⊎ (¬ IsStill book.old decision.frozen) }
    ensures still { IsTrue result → AreStill book.old.state.tree.nodes book.new.state.tree.nodes }
    ensures unchanged { result ≡ false → book.new ≡ book.old }
{
    let (frozen, claim) = decision.into_parts();
    let Some(claim) = claim else {
        return false;
    };
    enter_claim(book, &frozen, claim)
}

/// Enters that memory was refused to the decision of the domain that is next; `false` where none
/// waits, and then nothing has changed. It takes no memory.
fn give_up_in(book: &mut Book) -> bool
    ensures waits { result ≡ is_some (next_ready book.old.state) }
    ensures none { next_ready book.old.state ≡ None → book.new ≡ book.old }
    ensures entered { IfSome (next_ready book.old.state) (λ domain.
        book.new ≡ entered book.old (Decided (record { domain = domain; claim = None }))) }
    ensures still { IsTrue result → AreStill book.old.state.tree.nodes book.new.state.tree.nodes }
{
    let Some(domain) = book.next_ready() else {
        return false;
    };
    book.decide(domain, None);
    true
}

/// Enters a decision that was made, if the collection still has what it was made from; `false`
/// where it hasn't or where none was made, and then nothing has changed. It takes no memory.
pub fn enter(collection: &mut Collection, decision: Decision) -> bool
    ensures fits { IsTrue result → IsStill collection.old.book decision.frozen }
    ensures entered { IsTrue result → collection.new ≡ with_book collection.old
        (entered collection.old.book (Decided (record {
          domain = decision.frozen.domain;
          claim = decision.claim;
        }))) }
    ensures stays { result ≡ false
        → (decision.claim ≡ None) ⊎ (¬ IsStill collection.old.book decision.frozen) }
    ensures unchanged { result ≡ false → collection.new ≡ collection.old }
{
    enter_in(&mut collection.book, decision)
}

/// Enters that memory was refused to the decision of the domain that is next; `false` where none
/// waits, and then nothing has changed. It takes no memory.
pub fn give_up(collection: &mut Collection) -> bool
    ensures waits { result ≡ is_some (next_ready collection.old.book.state) }
    ensures none { next_ready collection.old.book.state ≡ None → collection.new ≡ collection.old }
    ensures entered { IfSome (next_ready collection.old.book.state) (λ domain.
        collection.new ≡ with_book collection.old
        (entered collection.old.book (Decided (record { domain = domain; claim = None })))) }
{
    give_up_in(&mut collection.book)
}
