//! The uses of each value of a program of steps.
//!
//! A step has up to two operands, each the value of an earlier step. A node is one of these uses: node
//! `2 * step` is the first operand of a step and node `2 * step + 1` its second, so nodes ascend by step
//! and then by operand. A [`UseChain`] keeps for each value the list of the nodes that use it, in that
//! order, and walks it both ways.
#![tactic(auto)]

ghost use Rattle.std.specs.Prelude.{◌≡◌, ◌≢◌, ℕ, ◌+◌, ◌-◌, ◌*◌, ◌/◌, ◌^◌, ◌<◌, ◌≤◌, List, length, slice_get, map, IfOk};
ghost use Rattle.std.specs.List.{range_with_len};
ghost use Rattle.use_chain.specs.Uses.{list_of, uses_of, NameEarlier, IsListed, IsNext, IsPrev, without, replaced, AreApart, WalksForward, WalksBackward, MergesAscending};

mod nodes;

use std::alloc::{AllocError, Global};
use std::marker::Model;

/// The operands of a step: the steps whose values it uses.
#[derive(Clone, Copy, Debug, PartialEq, Eq)]
pub struct Operands {
    /// The first operand, if there is one.
    pub first: Option<u32>,
    /// The second operand, if there is one.
    pub second: Option<u32>,
}

/// For each value the list of its uses.
///
/// Of the steps `x = input`, `a = mul x x`, `output a`, the list of `x`, value 0, is the nodes 2 and 3,
/// both of step 1. The list of `a`, value 1, is node 4, of step 2.
#[derive(Drop)]
pub struct UseChain {
    // The nodes, and behind them a ring head for each value. From its head the nodes of a value's list
    // follow one another, and the last leads back to the head.
    nodes: Vec<Node>,
    // The number of nodes, and so the ring head of value 0.
    places: u32,
}

// Where a node, or a ring head, leads in its ring.
#[derive(Clone, Copy)]
struct Node {
    next: u32,
    prev: u32,
}

impl Model for UseChain {
    ghost use Rattle.std.specs.Prelude.{ℕ, ◌^◌, ◌<◌, List, length};
    ghost use Rattle.use_chain.specs.Rings.{lists, IsWhole};

    ghost Value = { List (List ℕ) };

    ghost view = { λ c. lists c.places c.nodes.items };

    ghost invariant = { λ c. (IsWhole c.places c.nodes.items) × (length c.nodes.items < 2 ^ 32) };
}

impl UseChain {
    /// The uses of the values of these steps.
    ///
    /// There are at most 100,000 steps, and their operands name earlier steps.
    pub fn new(alloc: Global, steps: &[Operands]) -> Result<UseChain, AllocError>
        requires few { length steps.now ≤ 100000 }
        requires earlier { NameEarlier steps.now }
        ensures uses { IfOk result (λ chain. chain ≡ uses_of steps.now) }
        ensures len { IfOk result (λ chain. length chain ≡ length steps.now) }
        ensures apart { IfOk result AreApart }
    {
        let count = steps.len() as u32;
        let places = 2 * count;
        let mut nodes = nodes::alone(alloc, 3 * count)?;
        nodes::add_uses(&mut nodes, places, steps);
        Ok(UseChain { nodes, places })
    }

    /// The first node that uses a value, or `None` where no node does.
    pub fn first(&self, value: u32) -> Option<u32>
        requires { value < length self.now }
        ensures { result ≡ slice_get (list_of self.now value) 0 }
    {
        let head = (self.places + value) as usize;
        nodes::place(self.places, self.nodes[head].next)
    }

    /// The last node that uses a value, or `None` where no node does.
    pub fn last(&self, value: u32) -> Option<u32>
        requires { value < length self.now }
        ensures { result ≡ slice_get (list_of self.now value) (length (list_of self.now value) - 1) }
    {
        let head = (self.places + value) as usize;
        nodes::place(self.places, self.nodes[head].prev)
    }

    /// The node after this one in its list, or `None` where the list ends.
    pub fn next(&self, node: u32) -> Option<u32>
        requires { IsListed self.now node }
        ensures { IsNext self.now node result }
    {
        nodes::place(self.places, self.nodes[node as usize].next)
    }

    /// The node before this one in its list, or `None` where the list begins.
    pub fn prev(&self, node: u32) -> Option<u32>
        requires { IsListed self.now node }
        ensures { IsPrev self.now node result }
    {
        nodes::place(self.places, self.nodes[node as usize].prev)
    }

    /// The step of a node.
    pub fn step_of(&self, node: u32) -> u32
        ensures { result ≡ node / 2 }
    {
        node / 2
    }

    /// Takes a node out of its list. All other lists stay.
    pub fn unlink(&mut self, node: u32)
        requires { IsListed self.old node }
        ensures without { self.new ≡ map (without node) self.old }
        ensures apart { AreApart self.new }
    {
        nodes::take_out(&mut self.nodes, node);
    }

    /// Merges the list of `from` into that of `to`, in order, and empties the first. All other lists
    /// stay.
    pub fn replace_all(&mut self, from: u32, to: u32)
        requires from { from < length self.old }
        requires to { to < length self.old }
        requires differ { from ≢ to }
        ensures replaced { self.new ≡ replaced self.old from to }
        ensures apart { AreApart self.new }
    {
        nodes::merge(&mut self.nodes, self.places, from, to);
    }
}

/// The walk from `first` by `next` is the list of a value's uses, and the walk from `last` by `prev` is
/// that list from its end. The contract is the law; the body does nothing.
pub fn law_walk()
    ensures forward { WalksForward }
    ensures backward { WalksBackward }
{}

/// The list that `replace_all` makes of two is the ascending list of the nodes of both. The contract is
/// the law; the body does nothing.
pub fn law_merge()
    ensures { MergesAscending }
{}
