//! The object of a domain that no settings meet, with whom its refutation names.

use crate::domain_object::{Root, put_root, put_verdict};
use crate::names::Names;
use crate::put::{put_comma, put_name};
use certificate_text::push_path;
use script_replay::Decision;
use std::alloc::AllocError;
use std::fmt::Write;
use sysmem_counts::Field;
use sysmem_tree::Path;
use verdict_claims::{Conflict, Item, Line, Lines, Proof};

/// Puts the object of a domain that no settings meet, with what refutes them. It fails where memory
/// is refused, and where nothing refutes them.
pub(crate) fn put_empty(
    out: &mut String,
    names: &Names<'_>,
    root: Root<'_>,
    one: &Decision,
) -> Result<(), AllocError> {
    let Some(claim) = &one.claim else {
        return Err(AllocError);
    };
    let Proof::Empty(refutation) = &claim.proof else {
        return Err(AllocError);
    };
    out.push_str("{\"because\":[")?;
    put_items(out, names, refutation.items())?;
    out.push_str("],")?;
    put_root(out, root)?;
    put_verdict(out, "empty")
}

/// Puts the items of a refutation as a certificate has them, but for its paths: an object stands
/// for each, with the node's name.
fn put_items(out: &mut String, names: &Names<'_>, items: &[Item]) -> Result<(), AllocError> {
    let mut later = false;
    for item in items {
        put_comma(out, later)?;
        put_item(out, names, item)?;
        later = true;
    }
    Ok(())
}

fn put_item(out: &mut String, names: &Names<'_>, item: &Item) -> Result<(), AllocError> {
    match item {
        Item::Split(children) => put_split(out, *children),
        Item::Leaf(conflict) => put_conflict(out, names, conflict),
    }
}

/// Puts how many children a group has: `{"split":2}`.
fn put_split(out: &mut String, children: u64) -> Result<(), AllocError> {
    write!(out, "{{\"split\":{children}}}")
}

fn put_conflict(
    out: &mut String,
    names: &Names<'_>,
    conflict: &Conflict,
) -> Result<(), AllocError> {
    match conflict {
        Conflict::Count(line) => put_line(out, names, "count", line),
        Conflict::Fixed(field, node) => put_fixed(out, names, *field, node),
        Conflict::Places(lines) => put_lines(out, names, "places", lines),
        Conflict::Offers(lines) => put_lines(out, names, "offers", lines),
    }
}

/// Puts lines under a kind: `{"places":[{"field":"usage","nodes":[..]}]}`.
fn put_lines(
    out: &mut String,
    names: &Names<'_>,
    kind: &str,
    lines: &Lines,
) -> Result<(), AllocError> {
    write!(out, "{{\"{kind}\":[")?;
    let mut later = false;
    for line in lines.as_slice() {
        put_comma(out, later)?;
        put_line(out, names, "field", line)?;
        later = true;
    }
    out.push_str("]}")
}

/// Puts a line, whose field stands at a key: `{"count":"max_buffer_count","nodes":[..]}`.
fn put_line(out: &mut String, names: &Names<'_>, key: &str, line: &Line) -> Result<(), AllocError> {
    put_field(out, key, line.field())?;
    let mut later = false;
    for path in line.nodes().iter() {
        put_comma(out, later)?;
        put_node(out, names, path)?;
        later = true;
    }
    out.push_str("]}")
}

/// Puts what one node fails: `{"fixed":"usage","nodes":[{"name":"viewer","path":"/1"}]}`.
fn put_fixed(
    out: &mut String,
    names: &Names<'_>,
    field: Field,
    node: &Path,
) -> Result<(), AllocError> {
    put_field(out, "fixed", field)?;
    put_node(out, names, node.ordinals())?;
    out.push_str("]}")
}

/// Puts a field at a key, and begins the list of the nodes that it fails for.
fn put_field(out: &mut String, key: &str, field: Field) -> Result<(), AllocError> {
    let field = field.name();
    write!(out, "{{\"{key}\":\"{field}\",\"nodes\":[")
}

/// Puts a node's name and its path: `{"name":"viewer","path":"/1"}`.
fn put_node(out: &mut String, names: &Names<'_>, path: &[u32]) -> Result<(), AllocError> {
    out.push_str("{\"name\":")?;
    put_name(out, names.at(path))?;
    out.push_str(",\"path\":\"")?;
    push_path(out, path)?;
    out.push_str("\"}")
}
