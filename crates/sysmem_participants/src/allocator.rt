//! Where collections come from.

ghost use Rattle.std.specs.Prelude.{◌≡◌, ◌≤◌, IfErr, IfOk};
ghost use Rattle.std.specs.Arc.{arc_value};
ghost use Rattle.sysmem_participants.specs.Held.{root_of};
ghost use Rattle.sysmem_room.specs.Counting.{all_parts};
ghost use Rattle.sysmem_search.specs.declared.wide.TheConstants.{MOST_WORKERS};

use crate::seat::Seat;
use crate::shared::{Rules, SharedBook};
use crate::token::Token;
use negotiation_inputs::Platform;
use node_limits::Limits;
use std::alloc::{AllocError, Global};
use std::marker::Model;
use std::sync::ledger::{Blank, Ledger};
use std::sync::{Arc, Condvar, Mutex};
use sysmem_room::Room;
use sysmem_search::Gate;
use sysmem_tree::Refusal;

/// Makes collections for one platform; its gate is told of the searches and of the proofs.
#[derive(Drop)]
pub struct Allocator<G: Gate + Drop> {
    rules: Arc<Rules<G>>,
}

impl<G: Gate + Drop> Model for Allocator<G> {
    ghost use Rattle.std.specs.Arc.{arc_value};
    ghost use Rattle.negotiation_inputs.specs.Platform.{PlatformFacts};

    ghost Value = { PlatformFacts };

    ghost view = { λ a. (arc_value a.rules).platform };
}

/// What the handle of a new collection's root holds.
fn opened<L: Ledger, G: Gate + Drop + Sync>(
    rules: &Arc<Rules<G>>,
    blank: Blank,
) -> Result<Seat<L, G>, AllocError>
    requires name { blank.name ≡ L.name }
    requires ledger { blank.parts ≡ L.parts }
    requires parts { blank.parts ≡ all_parts }
    ensures { IfOk result (λ seat. seat ≡ root_of (arc_value rules.now).platform seat.cell) }
{
    let alloc = rules.alloc;
    let platform = rules.platform.copy()?;
    let own = rules.platform.copy()?;
    let rules = Arc::try_clone(rules)?;
    let opened = Room::open(alloc, blank, platform)?;
    let room = Mutex::new(opened.room);
    let changed = Condvar::new();
    let shared = SharedBook {
        room,
        changed,
        platform: own,
    };
    let shared = Arc::new(alloc, shared)?;
    let note = opened.cell.note();
    Ok(Seat {
        shared,
        rules,
        log: opened.log,
        cell: opened.cell,
        note,
    })
}

impl<G: Gate + Drop + Sync> Allocator<G> {
    /// For this platform; each decision of its collections tells this gate of its search, and before
    /// and after its proof. Two
    /// workers share a search that can take half a millisecond, by its selections and the
    /// platform's offers; a shorter one, for which a thread costs more than it saves, is done by
    /// one. `AllocError` where memory is refused.
    pub fn new(alloc: Global, platform: Platform, gate: G) -> Result<Allocator<G>, AllocError>
        ensures { IfOk result (λ allocator. allocator ≡ platform) }
    {
        let limits = Limits { offspring: None };
        Allocator::with_limits(alloc, platform, gate, limits)
    }

    /// The same, but for strangers: no handle but the root's makes more nodes than these limits
    /// allow, with all that others make of what it made. One more is refused with `TooManyNodes`,
    /// where nothing else refuses it.
    pub fn with_limits(
        alloc: Global,
        platform: Platform,
        gate: G,
        limits: Limits,
    ) -> Result<Allocator<G>, AllocError>
        ensures { IfOk result (λ allocator. allocator ≡ platform) }
    {
        let rules = Rules {
            alloc,
            platform,
            gate,
            workers: None,
            limits,
        };
        let rules = Arc::new(alloc, rules)?;
        Ok(Allocator { rules })
    }

    /// The same as `new`, but so many workers, 1 to 64, share each search.
    pub fn with_workers(
        alloc: Global,
        platform: Platform,
        gate: G,
        workers: u32,
    ) -> Result<Allocator<G>, AllocError>
        requires some { 1 ≤ workers }
        requires few { workers ≤ MOST_WORKERS }
        ensures { IfOk result (λ allocator. allocator ≡ platform) }
    {
        let rules = Rules {
            alloc,
            platform,
            gate,
            workers: Some(workers),
            limits: Limits { offspring: None },
        };
        let rules = Arc::new(alloc, rules)?;
        Ok(Allocator { rules })
    }

    /// The root token of a new collection, whose handles are counted by a ledger of its own, of 129
    /// parts. `NoMemory` where memory is refused; the blank ledger is gone then.
    pub fn allocate_shared<L: Ledger>(&self, blank: Blank) -> Result<Token<L, G>, Refusal>
        requires name { blank.name ≡ L.name }
        requires ledger { blank.parts ≡ L.parts }
        requires parts { blank.parts ≡ all_parts }
        ensures root { IfOk result (λ token. token ≡ root_of self.now token.cell) }
        ensures refused { IfErr result (λ refusal. refusal ≡ Refusal.NoMemory) }
    {
        match opened(&self.rules, blank) {
            Ok(seat) => Ok(Token::new(seat)),
            Err(_) => Err(Refusal::NoMemory),
        }
    }
}
