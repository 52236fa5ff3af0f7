//! Nodes in rings, and the ring heads.

ghost use Rattle.std.specs.Prelude.{◌≡◌, ◌≢◌, ◌+◌, ◌*◌, ◌^◌, ◌<◌, ◌≤◌, length, map, IfSome, IfOk};
ghost use Rattle.std.specs.List.{range_with_len};
ghost use Rattle.use_chain.specs.Uses.{uses_of, NameEarlier, replaced};
ghost use Rattle.use_chain.specs.Rings.{next_of, prev_of, linked, taken_out, put_before, lists, IsWhole, AreBelow, alone, with_use, place_of};

use crate::{Node, Operands};
use std::alloc::{AllocError, Global};

// `count` nodes, each of which leads to itself.
pub fn alone(alloc: Global, count: u32) -> Result<Vec<Node>, AllocError>
    ensures { IfOk result (λ nodes. nodes.items ≡ map alone (range_with_len 0 count)) }
{
    (0..count).map(|k| Node { next: k, prev: k }).collect(alloc)
}

// The node, if it is none of the ring heads.
pub fn place(places: u32, node: u32) -> Option<u32>
    ensures { result ≡ place_of places node }
{
    if node < places { Some(node) } else { None }
}

// Makes `after` follow `before`.
fn link(nodes: &mut [Node], before: u32, after: u32)
    requires before { before < length nodes.old }
    requires after { after < length nodes.old }
    ensures { nodes.new ≡ linked nodes.old before after }
{
    nodes[before as usize].next = after;
    nodes[after as usize].prev = before;
}

// Takes a node out of its ring.
pub fn take_out(nodes: &mut [Node], node: u32)
    requires node { node < length nodes.old }
    requires next { next_of nodes.old node < length nodes.old }
    requires prev { prev_of nodes.old node < length nodes.old }
    ensures { nodes.new ≡ taken_out nodes.old node }
{
    let Node { next, prev } = nodes[node as usize];
    link(nodes, prev, next);
}

// Puts a node before another one or before a ring head.
fn put_before(nodes: &mut [Node], at: u32, node: u32)
    requires at { at < length nodes.old }
    requires node { node < length nodes.old }
    requires prev { prev_of nodes.old at < length nodes.old }
    ensures { nodes.new ≡ put_before nodes.old at node }
{
    let before = nodes[at as usize].prev;
    link(nodes, before, node);
    link(nodes, node, at);
}

// Puts a node at the end of a value's list, if there is a value.
fn append(nodes: &mut [Node], places: u32, value: Option<u32>, node: u32)
    requires whole { IsWhole places nodes.old }
    requires few { length nodes.old < 2 ^ 32 }
    requires later { AreBelow (lists places nodes.old) node }
    requires within { node < places }
    requires value { IfSome value (λ v. v < length (lists places nodes.old)) }
    ensures whole { IsWhole places nodes.new }
    ensures lists { lists places nodes.new ≡ with_use (lists places nodes.old) value node }
{
    if let Some(value) = value {
        put_before(nodes, places + value, node);
    }
}

// Puts each use into its list, from nodes that all lead to themselves.
pub fn add_uses(nodes: &mut [Node], places: u32, steps: &[Operands])
    requires few { length steps.now ≤ 100000 }
    requires places { places ≡ 2 * length steps.now }
    requires alone { nodes.old ≡ map alone (range_with_len 0 (3 * length steps.now)) }
    requires earlier { NameEarlier steps.now }
    ensures whole { IsWhole places nodes.new }
    ensures lists { lists places nodes.new ≡ uses_of steps.now }
{
    for (step, operands) in steps.iter().enumerate() {
        let node = 2 * step as u32;
        append(nodes, places, operands.first, node);
        append(nodes, places, operands.second, node + 1);
    }
}

// Moves each node of one value's list to its place in the list of another value.
pub fn merge(nodes: &mut [Node], places: u32, from: u32, into: u32)
    requires whole { IsWhole places nodes.old }
    requires few { length nodes.old < 2 ^ 32 }
    requires from { from < length (lists places nodes.old) }
    requires into { into < length (lists places nodes.old) }
    requires differ { from ≢ into }
    ensures whole { IsWhole places nodes.new }
    ensures lists { lists places nodes.new ≡ replaced (lists places nodes.old) from into }
{
    let source = places + from;
    let mut at = nodes[(places + into) as usize].next;
    let mut node = nodes[source as usize].next;
    while node < places {
        if at < node {
            at = nodes[at as usize].next;
        } else {
            take_out(nodes, node);
            put_before(nodes, at, node);
            node = nodes[source as usize].next;
        }
    }
}
