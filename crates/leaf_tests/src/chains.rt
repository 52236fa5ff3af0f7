//! Use chains, with lists from a plain program over sorted lists.

ghost use Rattle.std.specs.Prelude.{◌≡◌, ◌<◌, ◌≤◌, length, reverse, IsTrue, IfSome, IfOk};
ghost use Rattle.use_chain.specs.Uses.{list_of, NameEarlier};

use std::alloc::{AllocError, Global};
use std::test::Fail;
use use_chain::{Operands, UseChain, law_merge, law_walk};

/// A change of the lists.
#[derive(Clone, Copy)]
enum Change {
    /// The node at a place of a value's list is taken out.
    Unlink { value: u32, place: usize },
    Replace { from: u32, to: u32 },
}

fn input() -> Operands {
    Operands {
        first: None,
        second: None,
    }
}

fn unary(first: u32) -> Operands {
    Operands {
        first: Some(first),
        second: None,
    }
}

fn binary(first: u32, second: u32) -> Operands {
    Operands {
        first: Some(first),
        second: Some(second),
    }
}

fn is_earlier(value: Option<u32>, step: usize) -> bool
    ensures { IsTrue result → IfSome value (λ v. v < step) }
{
    match value {
        Some(value) => (value as usize) < step,
        None => true,
    }
}

fn name_earlier(steps: &[Operands]) -> bool
    ensures { IsTrue result → NameEarlier steps.now }
{
    for (step, operands) in steps.iter().enumerate() {
        if !is_earlier(operands.first, step) {
            return false;
        }
        if !is_earlier(operands.second, step) {
            return false;
        }
    }
    true
}

/// The list of a value, by `first` and `next`.
fn forward(alloc: Global, chain: &UseChain, value: u32) -> Result<Vec<u32>, AllocError>
    requires { value < length chain.now }
    ensures { IfOk result (λ nodes. nodes.items ≡ list_of chain.now value) }
{
    let mut nodes = Vec::new(alloc);
    let mut at = chain.first(value);
    while let Some(node) = at {
        nodes.push(node)?;
        at = chain.next(node);
    }
    Ok(nodes)
}

/// The list of a value from its end, by `last` and `prev`.
fn backward(alloc: Global, chain: &UseChain, value: u32) -> Result<Vec<u32>, AllocError>
    requires { value < length chain.now }
    ensures { IfOk result (λ nodes. nodes.items ≡ reverse (list_of chain.now value)) }
{
    let mut nodes = Vec::new(alloc);
    let mut at = chain.last(value);
    while let Some(node) = at {
        nodes.push(node)?;
        at = chain.prev(node);
    }
    Ok(nodes)
}

fn unlink_at(
    alloc: Global,
    chain: &mut UseChain,
    value: u32,
    place: usize,
) -> Result<(), AllocError>
    requires { value < length chain.old }
    ensures { length chain.new ≡ length chain.old }
{
    let nodes = forward(alloc, chain, value)?;
    if place < nodes.len() {
        chain.unlink(nodes[place]);
    }
    Ok(())
}

/// Makes a change, where it names values below `count`.
fn apply(alloc: Global, chain: &mut UseChain, count: u32, change: Change) -> Result<(), AllocError>
    requires { length chain.old ≡ count }
    ensures { length chain.new ≡ count }
{
    match change {
        Change::Unlink { value, place } => {
            if value < count {
                unlink_at(alloc, chain, value, place)?;
            }
        }
        Change::Replace { from, to } => {
            if from < count && to < count && from != to {
                chain.replace_all(from, to);
            }
        }
    }
    Ok(())
}

fn after(alloc: Global, steps: &[Operands], changes: &[Change]) -> Result<UseChain, AllocError>
    requires few { length steps.now ≤ 100000 }
    requires earlier { NameEarlier steps.now }
    ensures { IfOk result (λ chain. length chain ≡ length steps.now) }
{
    let mut chain = UseChain::new(alloc, steps)?;
    for change in changes {
        apply(alloc, &mut chain, steps.len() as u32, *change)?;
    }
    Ok(chain)
}

/// Each value with each node of its list.
fn listing(alloc: Global, chain: &UseChain, count: u32) -> Result<Vec<(u32, u32)>, AllocError>
    requires { length chain.now ≡ count }
{
    let mut all = Vec::new(alloc);
    for value in 0..count {
        for node in forward(alloc, chain, value)? {
            all.push((value, node))?;
        }
    }
    Ok(all)
}

/// The same from the end.
fn listing_back(alloc: Global, chain: &UseChain, count: u32) -> Result<Vec<(u32, u32)>, AllocError>
    requires { length chain.now ≡ count }
{
    let mut all = Vec::new(alloc);
    for value in (0..count).rev() {
        for node in backward(alloc, chain, value)? {
            all.push((value, node))?;
        }
    }
    Ok(all)
}

#[test]
fn lists(rt: HostRuntime) -> Result<(), Fail> {
    law_walk();
    law_merge();
    for (steps, changes, want) in [
        (
            [input(), binary(0, 0), binary(1, 1), binary(2, 2), unary(3)].as_slice(),
            [].as_slice(),
            [(0, 2), (0, 3), (1, 4), (1, 5), (2, 6), (2, 7), (3, 8)].as_slice(),
        ),
        (
            [
                input(),
                binary(0, 0),
                binary(0, 0),
                binary(0, 1),
                binary(1, 3),
                input(),
                binary(1, 4),
            ]
            .as_slice(),
            [
                Change::Replace { from: 4, to: 0 },
                Change::Replace { from: 0, to: 1 },
                Change::Unlink { value: 1, place: 4 },
                Change::Replace { from: 1, to: 3 },
            ]
            .as_slice(),
            [
                (3, 2),
                (3, 3),
                (3, 4),
                (3, 5),
                (3, 7),
                (3, 8),
                (3, 9),
                (3, 12),
                (3, 13),
            ]
            .as_slice(),
        ),
        (
            [
                input(),
                input(),
                binary(0, 1),
                unary(1),
                binary(3, 1),
                binary(1, 2),
                unary(2),
            ]
            .as_slice(),
            [
                Change::Unlink { value: 0, place: 0 },
                Change::Replace { from: 1, to: 2 },
                Change::Unlink { value: 2, place: 4 },
                Change::Replace { from: 3, to: 2 },
            ]
            .as_slice(),
            [(2, 5), (2, 6), (2, 8), (2, 9), (2, 10), (2, 12)].as_slice(),
        ),
        (
            [
                input(),
                binary(0, 0),
                binary(1, 0),
                input(),
                binary(3, 3),
                binary(2, 3),
                binary(4, 0),
                binary(2, 1),
            ]
            .as_slice(),
            [
                Change::Unlink { value: 3, place: 0 },
                Change::Unlink { value: 3, place: 1 },
                Change::Replace { from: 4, to: 2 },
                Change::Replace { from: 3, to: 0 },
            ]
            .as_slice(),
            [
                (0, 2),
                (0, 3),
                (0, 5),
                (0, 9),
                (0, 13),
                (1, 4),
                (1, 15),
                (2, 10),
                (2, 12),
                (2, 14),
            ]
            .as_slice(),
        ),
        (
            [
                input(),
                input(),
                binary(0, 0),
                binary(0, 2),
                unary(2),
                unary(4),
            ]
            .as_slice(),
            [
                Change::Replace { from: 2, to: 4 },
                Change::Unlink { value: 4, place: 0 },
                Change::Unlink { value: 4, place: 0 },
                Change::Unlink { value: 0, place: 1 },
            ]
            .as_slice(),
            [(0, 4), (0, 6), (4, 10)].as_slice(),
        ),
    ] {
        assert!(rt; steps.len() <= 100000);
        assert!(rt; name_earlier(steps));
        let count = steps.len() as u32;
        let chain = after(rt.alloc(), steps, changes)?;
        assert_eq!(rt;
            listing(rt.alloc(), &chain, count)?.as_slice(),
            want,
            "{count} steps"
        );
        let mut turned = listing_back(rt.alloc(), &chain, count)?;
        turned.reverse();
        assert_eq!(rt; turned.as_slice(), want, "{count} steps, from the end");
    }
    Ok(())
}

#[test]
fn steps(rt: HostRuntime) -> Result<(), Fail> {
    let steps = [input(), binary(0, 0)];
    assert!(rt; name_earlier(&steps));
    let chain = UseChain::new(rt.alloc(), &steps)?;
    for (node, step) in [(0, 0), (1, 0), (2, 1), (3, 1), (199999, 99999)] {
        assert_eq!(rt; chain.step_of(node), step);
    }
    Ok(())
}
