//! What became of the domains of a collection, a line for each.

ghost use Rattle.std.specs.Prelude.{false, IfOk, OnOk};
ghost use Rattle.std.specs.String.{string_bytes};
ghost use Rattle.script_threads.specs.Text.{AreLines, HasLine};

use negotiation_inputs::Platform;
use script_replay::{put_chosen, put_word};
use std::alloc::{AllocError, Global};
use sysmem_alloc::Book;
use sysmem_image::corner;
use sysmem_tree::{Path, Tree};
use verdict_claims::{Chosen, Verdict};

/// The lines of all domains.
#[derive(Drop)]
pub(crate) struct Lines {
    pub(crate) text: String,
    /// Whether one says that memory was refused to a decision.
    pub(crate) is_starved: bool,
}

/// An attached domain, by its place in order of creation, and where its root is.
#[derive(Drop)]
struct AttachedRoot {
    index: u32,
    path: Path,
}

/// The lines of all domains, in pre-order of their roots: that of the initial one is the first.
pub(crate) fn lines_of(alloc: Global, book: &Book) -> Result<Lines, AllocError>
    ensures { IfOk result (λ lines. AreLines lines.is_starved (string_bytes lines.text)) }
{
    let tree = book.tree();
    let roots = attached_roots(alloc, tree)?;
    let Lines {
        mut text,
        mut is_starved,
    } = first_line(alloc, book)?;
    for root in &roots {
        let Some(domain) = tree.domain_at(root.index) else {
            continue;
        };
        let verdict = book.verdict_of(domain);
        let says = put_line(&mut text, book.platform(), &root.path, verdict)?;
        is_starved = is_starved || says;
    }
    Ok(Lines { text, is_starved })
}

/// The line of the initial domain, whose root's path is empty.
fn first_line(alloc: Global, book: &Book) -> Result<Lines, AllocError>
    ensures { IfOk result (λ lines. AreLines lines.is_starved (string_bytes lines.text)) }
{
    let tree = book.tree();
    let verdict = book.verdict_of(tree.domain_of(tree.root()));
    let path = Path::new(Vec::new(alloc));
    let mut text = String::new(alloc);
    let is_starved = put_line(&mut text, book.platform(), &path, verdict)?;
    Ok(Lines { text, is_starved })
}

/// The attached domains in pre-order of their roots.
fn attached_roots(alloc: Global, tree: &Tree) -> Result<Vec<AttachedRoot>, AllocError> {
    let mut roots = Vec::new(alloc);
    for index in 1..tree.domain_count() {
        if let Some(domain) = tree.domain_at(index) {
            let path = tree.path_of(tree.root_of(domain))?;
            roots.push(AttachedRoot { index, path })?;
        }
    }
    roots.sort_by(|one, other| one.path.ordinals().cmp(other.path.ordinals()))?;
    Ok(roots)
}

/// Puts the line of a domain with this verdict after the text, and answers whether it says that
/// memory was refused.
fn put_line(
    text: &mut String,
    platform: &Platform,
    path: &Path,
    verdict: Option<&Verdict>,
) -> Result<bool, AllocError>
    ensures { IfOk result (λ starved.
        HasLine starved path.now (string_bytes text.old) (string_bytes text.new)) }
{
    match verdict {
        None => {
            put_word(text, path, "pending")?;
            Ok(false)
        }
        Some(Verdict::Chosen(chosen)) => {
            put_choice(text, platform, path, chosen)?;
            Ok(false)
        }
        Some(Verdict::IntersectionEmpty) => {
            put_word(text, path, "empty")?;
            Ok(false)
        }
        Some(Verdict::TooMany) => {
            put_word(text, path, "too_many")?;
            Ok(false)
        }
        Some(Verdict::Failed) => {
            put_word(text, path, "failed")?;
            Ok(false)
        }
        Some(Verdict::NoMemory) => {
            put_word(text, path, "no_memory")?;
            Ok(true)
        }
    }
}

/// Puts the line of a choice after the text. A choice that was decided has a corner; one without
/// would end as want of memory.
fn put_choice(
    text: &mut String,
    platform: &Platform,
    path: &Path,
    chosen: &Chosen,
) -> Result<(), AllocError>
    ensures { OnOk result
        (HasLine false path.now (string_bytes text.old) (string_bytes text.new)) }
{
    let settings = chosen.settings();
    match corner(&settings.bounds, &settings.offer) {
        Ok(corner) => put_chosen(text, platform, path, chosen, corner),
        Err(_) => Err(AllocError),
    }
}
