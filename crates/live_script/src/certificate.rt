//! The certificate of a collection's decisions.

ghost use Rattle.std.specs.Prelude.{◌≡◌, ◌++◌, IfOk, List, OnOk, option_map};
ghost use Rattle.std.specs.Arc.{arc_value};
ghost use Rattle.certificate_text.specs.Certificate.{HasTaken};
ghost use Rattle.live_script.specs.Calls.{HasItsDomain};
ghost use Rattle.live_script.specs.Texts.{IsCertificateOf, certified_of};
ghost use Rattle.serde_json.specs.Data.{Data};
ghost use Rattle.sysmem_alloc.specs.Entry.{entry_in};

use book_events::Entry;
use certificate_text::CertificateWriter;
use live_book::Snapshot;
use std::alloc::{AllocError, Global};
use std::sync::Arc;
use sysmem_alloc::laws::{legal_is_sound, numbers_stay};
use verdict_claims::Claim;

fn claim_in(claim: &Option<Arc<Claim>>) -> Option<&Claim>
    ensures { option_map (λ one. one.now) result
        ≡ option_map (λ shared. arc_value shared) claim.now }
{
    match claim {
        Some(shared) => Some(&**shared),
        None => None,
    }
}

/// Writes what a certificate has of an entry.
fn put_entry(
    writer: &mut CertificateWriter,
    snapshot: &Snapshot,
    entry: &Entry,
) -> Result<(), AllocError>
    requires { HasItsDomain snapshot.now.tree.nodes
        (entry_in snapshot.now.tree.nodes entry.now) }
    ensures { (decisions : List Data) → HasTaken writer.old decisions → OnOk result
        (HasTaken writer.new (decisions ++ certified_of snapshot.now.platform
        snapshot.now.tree.nodes (entry_in snapshot.now.tree.nodes entry.now))) }
{
    let Entry::Decided(domain, claim) = entry else {
        return Ok(());
    };
    let tree = snapshot.tree();
    let path = tree.path_of(tree.root_of(*domain))?;
    writer.put(snapshot.platform(), &path, claim_in(claim))
}

/// The certificate of a collection's decisions.
pub fn certificate_of(alloc: Global, snapshot: &Snapshot) -> Result<Vec<u8>, AllocError>
    ensures { IfOk result (λ text. IsCertificateOf snapshot.now text.items) }
{
    legal_is_sound();
    numbers_stay();
    snapshot.recall_settled();
    let mut writer = CertificateWriter::new(alloc)?;
    let history = snapshot.history();
    for entry in history {
        put_entry(&mut writer, snapshot, entry)?;
    }
    writer.finish()
}
