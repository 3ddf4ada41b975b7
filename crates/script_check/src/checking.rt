//! Domains decided by the objects of a certificate, each of which is checked.

ghost use Rattle.std.specs.Prelude.{◌≡◌, ◌+◌, ◌≤◌, Some, drop, length, map, slice_get, take, IfErr, IfOk, IsSomeAnd};
ghost use Rattle.std.specs.Arc.{arc_value};
ghost use Rattle.std.specs.Bool.{Decides};
ghost use Rattle.std.specs.List.{AllZip};
ghost use Rattle.serde_json.specs.View.{view};
ghost use Rattle.script_check.specs.Checked.{ClaimFails, FailsNext, IfFails, IsOf, TakesClaim};
ghost use Rattle.script_replay.specs.Stop.{IfObjects};
ghost use Rattle.script_check.specs.declared.checking.ClaimFault.TheVariants.{NoMemory};
ghost use Rattle.sysmem_alloc.specs.Sound.{MayWait};
ghost use Rattle.sysmem_alloc.specs.State.{next_ready};
ghost use Rattle.sysmem_tree.specs.Path.{path_of};

use certificate_text::{Unread, read_proof};
use script_replay::{Decider, Objection, Stop};
use serde_json::Value;
use std::alloc::{AllocError, Global};
use std::sync::Arc;
use sysmem_alloc::Book;
use sysmem_proof::check;
use sysmem_tree::{DomainId, Path};
use verdict_claims::{Claim, No};

/// Takes the next object of a certificate as each decision, if a check says yes to it.
#[derive(Drop)]
pub(crate) struct Checking<'a> {
    objects: &'a [Value],
    /// How many were taken.
    taken: usize,
    ghost within: { taken ≤ length objects.now },
}

/// Why a claim isn't taken.
#[derive(Clone, Copy)]
pub(crate) enum ClaimFault {
    /// A growth was refused.
    NoMemory,
    /// The first test that it fails.
    Fails(No),
}

impl From<AllocError> for ClaimFault {
    ghost from_gives = { λ _ fault. fault ≡ NoMemory };

    fn from(_e: AllocError) -> ClaimFault {
        ClaimFault::NoMemory
    }
}

impl<'a> Checking<'a> {
    /// Begins with these objects, of which none is taken yet.
    pub(crate) fn new(objects: &'a [Value]) -> Checking<'a>
        ensures objects { result.objects.now ≡ objects.now }
        ensures taken { result.taken ≡ 0 }
    {
        Checking { objects, taken: 0 }
    }

    /// How many objects were taken.
    pub(crate) fn taken(&self) -> usize
        ensures taken { result ≡ self.now.taken }
        ensures within { result ≤ length self.now.objects.now }
    {
        self.taken
    }

    /// The claim of the next object, which is taken, if a check says yes to it.
    fn take(&mut self, alloc: Global, book: &Book, domain: DomainId) -> Result<Arc<Claim>, Stop>
        requires next { next_ready book.now.state ≡ Some domain }
        requires waits { MayWait book.now.state.tree domain }
        ensures takes { IfOk result (λ shared. IsSomeAnd
            (slice_get self.old.objects.now self.old.taken) (λ object. TakesClaim
            book.now.platform book.now.state domain (view object) (arc_value shared))) }
        ensures more { IfOk result (λ _. self.new.taken ≡ self.old.taken + 1) }
        ensures objects { self.new.objects.now ≡ self.old.objects.now }
        ensures kept { IfErr result (λ _. self.new.taken ≡ self.old.taken) }
        ensures fails { IfErr result (λ stop. IfObjects stop (FailsNext
            (map view (drop self.old.taken self.old.objects.now))
            book.now.platform book.now.state domain)) }
    {
        let tree = book.tree();
        let path = tree.path_of(tree.root_of(domain))?;
        let Some(object) = self.objects.get(self.taken) else {
            return Err(refused(No::WrongShape, path));
        };
        match claim_in(alloc, book, domain, &path, object) {
            Ok(claim) => {
                let Ok(shared) = Arc::new(alloc, claim) else {
                    return Err(Stop::NoMemory);
                };
                self.taken += 1;
                Ok(shared)
            }
            Err(ClaimFault::NoMemory) => Err(Stop::NoMemory),
            Err(ClaimFault::Fails(no)) => Err(refused(no, path)),
        }
    }
}

fn refused(no: No, path: Path) -> Stop
    ensures { result ≡ Stop.Refused (record { no = no; path = path }) }
{
    Stop::Refused(Objection { no, path })
}

fn is_same(a: &Path, b: &Path) -> bool
    ensures { Decides result (a.now ≡ b.now) }
{
    a.ordinals() == b.ordinals()
}

/// The claim of an object for this domain, which is to be decided next and has this path, if a
/// check says yes to it.
fn claim_in(
    alloc: Global,
    book: &Book,
    domain: DomainId,
    path: &Path,
    object: &Value,
) -> Result<Claim, ClaimFault>
    requires next { next_ready book.now.state ≡ Some domain }
    requires waits { MayWait book.now.state.tree domain }
    requires path { path.now ≡ path_of book.now.state.tree.nodes domain }
    ensures takes { IfOk result
        (TakesClaim book.now.platform book.now.state domain (view object.now)) }
    ensures fails { IfErr result (λ fault. IfFails fault
        (ClaimFails book.now.platform book.now.state domain (view object.now))) }
{
    let platform = book.platform();
    let (named, claim) = match read_proof(alloc, platform, object) {
        Ok(read) => read,
        Err(Unread::WrongForm) => return Err(ClaimFault::Fails(No::WrongShape)),
        Err(Unread::NoMemory) => return Err(ClaimFault::NoMemory),
    };
    if !is_same(&named, path) {
        return Err(ClaimFault::Fails(No::WrongShape));
    }
    let base = book.base(domain)?;
    match check(platform, book.tree(), domain, base.as_ref(), &claim) {
        Ok(()) => Ok(claim),
        Err(no) => Err(ClaimFault::Fails(no)),
    }
}

impl<'a> Decider for Checking<'a> {
    ghost gave = { λ c platform decisions.
        AllZip (IsOf platform) (map view (take c.taken c.objects.now)) decisions };

    ghost objects = { λ c platform book domain objection.
        FailsNext (map view (drop c.taken c.objects.now)) platform book domain objection };

    ghost given = { λ c. map view c.objects.now };

    fn decide(
        &mut self,
        alloc: Global,
        book: &Book,
        domain: DomainId,
    ) -> Result<Option<Arc<Claim>>, Stop> {
        match self.take(alloc, book, domain) {
            Ok(claim) => Ok(Some(claim)),
            Err(stop) => Err(stop),
        }
    }
}
