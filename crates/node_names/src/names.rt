//! The names that nodes were given.

ghost use Rattle.std.specs.Prelude.{◌≡◌, ◌≤◌, ◌==◌, ◌++◌, [], filter, length, not, option_map, true, false, IfErr, IfOk, OnErr, OnOk};
ghost use Rattle.std.specs.String.{string_bytes};
ghost use Rattle.std.specs.Vec.{vec_capacity, vec_len};
ghost use Rattle.node_names.specs.Names.{AreNames, given_name, is_taken, name_of, with_name};
ghost use Rattle.node_names.specs.Refused.{IsRefused};

use crate::name::{is_name, put_own};
use std::alloc::{AllocError, Global};
use std::marker::Model;

/// A node's number, and the name that it was given.
#[derive(Debug, Drop)]
struct NamedNode {
    node: u32,
    name: String,
}

impl Model for NamedNode {
    ghost use Rattle.std.specs.String.{string_bytes};
    ghost use Rattle.node_names.specs.Names.{NamedNode as Facts};

    ghost Value = { Facts };

    ghost view = { λ n. record { node = n.node; name = string_bytes n.name } };
}

/// The names that nodes were given: no two have the same.
#[derive(Debug)]
pub struct Names {
    nodes: Vec<NamedNode>,
}

impl Drop for Names {
    fn drop(self) {
        let Names { nodes: _ } = self;
    }
}

impl Model for Names {
    ghost use Rattle.std.specs.Prelude.{List};
    ghost use Rattle.node_names.specs.Names.{AreNames, NamedNode as Facts};

    ghost Value = { List Facts };

    ghost view = { λ n. n.nodes.items };

    ghost invariant = { λ n. AreNames n.nodes.items };
}

/// Why a node isn't given a name.
#[derive(Clone, Copy, Debug, Drop)]
pub enum Unnamed {
    NoName,
    /// Another node has it.
    Taken,
    NoMemory,
}

impl From<AllocError> for Unnamed {
    ghost use Rattle.node_names.specs.declared.names.Unnamed.TheVariants.{NoMemory};

    ghost from_gives = { λ _ unnamed. unnamed ≡ NoMemory };

    fn from(_: AllocError) -> Unnamed {
        Unnamed::NoMemory
    }
}

/// Takes the name of a node away.
fn remove_name(nodes: &mut Vec<NamedNode>, node: u32)
    ensures others { nodes.new.items ≡ filter (λ n. not (n.node == node)) nodes.old.items }
    ensures few { vec_len nodes.new ≤ vec_len nodes.old }
    ensures capacity { vec_capacity nodes.new ≡ vec_capacity nodes.old }
{
    nodes.retain(|one| one.node != node);
}

/// Gives a node a name, in the place of the one that it had.
fn put_name(
    alloc: Global,
    nodes: &mut Vec<NamedNode>,
    node: u32,
    name: &str,
) -> Result<(), AllocError>
    ensures named { OnOk result (nodes.new.items ≡ with_name nodes.old.items node name.now) }
    ensures unchanged { OnErr result (nodes.new.items ≡ nodes.old.items) }
{
    let name = String::from_str(alloc, name)?;
    nodes.reserve(1)?;
    remove_name(nodes, node);
    nodes.push_reserved(NamedNode { node, name });
    Ok(())
}

/// Whether another node has a name.
fn is_taken(nodes: &[NamedNode], node: u32, name: &str) -> bool
    ensures { result ≡ is_taken nodes.now node name.now }
{
    nodes
        .iter()
        .any(|one| one.node != node && one.name.as_str() == name)
}

/// The name that a node was given.
fn given_name(nodes: &[NamedNode], node: u32) -> Option<&str>
    ensures { option_map (λ name. name.now) result ≡ given_name nodes.now node }
{
    let named = nodes.iter().find(|one| one.node == node)?;
    Some(named.name.as_str())
}

impl Names {
    /// No node has a name.
    pub fn new(alloc: Global) -> Names
        ensures { result ≡ [] }
    {
        Names {
            nodes: Vec::new(alloc),
        }
    }

    /// Gives a node a name, in the place of the one that it had; or says why not, and then nothing
    /// has changed.
    pub fn set(&mut self, alloc: Global, node: u32, name: &str) -> Result<(), Unnamed>
        ensures named { OnOk result (self.new ≡ with_name self.old node name.now) }
        ensures refused { IfErr result (IsRefused self.old node name.now) }
        ensures unchanged { OnErr result (self.new ≡ self.old) }
    {
        if !is_name(name) {
            return Err(Unnamed::NoName);
        }
        if is_taken(&self.nodes, node, name) {
            return Err(Unnamed::Taken);
        }
        put_name(alloc, &mut self.nodes, node, name)?;
        Ok(())
    }

    /// Recalls, for a proof, that each is a name, and no two nodes have the same. It does nothing.
    pub fn recall_names(&self)
        ensures { AreNames self.now }
    {
        let _ = &self.nodes;
    }

    /// How many nodes have a name.
    pub fn count(&self) -> usize
        ensures { result ≡ length self.now }
    {
        self.nodes.len()
    }

    /// The name that a node was given, if it was.
    pub fn given(&self, node: u32) -> Option<&str>
        ensures { option_map (λ name. name.now) result ≡ given_name self.now node }
    {
        given_name(&self.nodes, node)
    }

    /// Puts what a node is called: the name that it was given, or else `root` or `n` and its
    /// number.
    pub fn put(&self, text: &mut String, node: u32) -> Result<(), AllocError>
        ensures { OnOk result (string_bytes text.new
            ≡ string_bytes text.old ++ name_of self.now node) }
    {
        match given_name(&self.nodes, node) {
            Some(name) => text.push_str(name),
            None => put_own(text, node),
        }
    }

    /// A copy.
    pub fn copy(&self) -> Result<Names, AllocError>
        ensures { IfOk result (λ copy. copy ≡ self.now) }
    {
        let nodes = copied_all(*self.nodes.allocator(), &self.nodes)?;
        Ok(Names { nodes })
    }
}

fn copied(named: &NamedNode) -> Result<NamedNode, AllocError>
    ensures { IfOk result (λ copy. copy ≡ named.now) }
{
    Ok(NamedNode {
        node: named.node,
        name: named.name.clone()?,
    })
}

fn copied_all(alloc: Global, nodes: &[NamedNode]) -> Result<Vec<NamedNode>, AllocError>
    ensures { IfOk result (λ copy. copy.items ≡ nodes.now) }
{
    let mut copy = Vec::new(alloc);
    for named in nodes {
        copy.push(copied(named)?)?;
    }
    Ok(copy)
}
