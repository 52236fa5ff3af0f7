//! The values of a polynomial at the roots below a node of a tree, in place, and back.
ghost use Rattle.std.specs.Prelude.{◌≡◌, ℕ, ◌+◌, ◌*◌, ◌%◌, ◌^◌, ◌<◌, ◌≤◌, List, length, get_or};
ghost use Rattle.two_power.specs.Tree.{IsTree, AreFactors, AreInverses, EachBelow, AreValues, AreMultiples};

use crate::passes::{pass_down, pass_up};

/// The values at the two roots below a node.
fn descend_two(a: &mut [u64], node: usize, ws: &[u64], quotients: &[u64], q: u64)
    requires size { length a.old ≡ 2 ^ 1 }
    requires node_in { (node + 1) * 2 ^ 1 ≤ 2 * length ws.now }
    requires some { 0 < q }
    requires small { q < 2 ^ 62 }
    requires factors { AreFactors q ws.now quotients.now }
    requires tree { IsTree q ws.now }
    requires a_in { EachBelow (4 * q) a.old }
    ensures values { AreValues q ws.now 1 node a.old a.new }
    ensures below { EachBelow (4 * q) a.new }
{
    let (lo, hi) = a.split_at_mut(1);
    pass_down(lo, hi, ws[node], quotients[node], q);
}

/// The values at the four roots below a node.
fn descend_four(a: &mut [u64], node: usize, ws: &[u64], quotients: &[u64], q: u64)
    requires size { length a.old ≡ 2 ^ 2 }
    requires node_in { (node + 1) * 2 ^ 2 ≤ 2 * length ws.now }
    requires some { 0 < q }
    requires small { q < 2 ^ 62 }
    requires factors { AreFactors q ws.now quotients.now }
    requires tree { IsTree q ws.now }
    requires a_in { EachBelow (4 * q) a.old }
    ensures values { AreValues q ws.now 2 node a.old a.new }
    ensures below { EachBelow (4 * q) a.new }
{
    let (lo, hi) = a.split_at_mut(2);
    pass_down(lo, hi, ws[node], quotients[node], q);
    descend_two(lo, 2 * node, ws, quotients, q);
    descend_two(hi, 2 * node + 1, ws, quotients, q);
}

/// Makes of the coefficients of a polynomial its values at the roots of the 2^levels nodes below a node, in their order.
pub fn descend(a: &mut [u64], levels: u32, node: usize, ws: &[u64], quotients: &[u64], q: u64)
    requires size { length a.old ≡ 2 ^ levels }
    requires node_in { (node + 1) * 2 ^ levels ≤ 2 * length ws.now }
    requires some { 0 < q }
    requires small { q < 2 ^ 62 }
    requires factors { AreFactors q ws.now quotients.now }
    requires tree { IsTree q ws.now }
    requires a_in { EachBelow (4 * q) a.old }
    ensures values { AreValues q ws.now levels node a.old a.new }
    ensures below { EachBelow (4 * q) a.new }
{
    if levels == 0 {
        return;
    }
    if levels == 2 {
        descend_four(a, node, ws, quotients, q);
        return;
    }
    let half = a.len() / 2;
    let (lo, hi) = a.split_at_mut(half);
    pass_down(lo, hi, ws[node], quotients[node], q);
    descend(lo, levels - 1, 2 * node, ws, quotients, q);
    descend(hi, levels - 1, 2 * node + 1, ws, quotients, q);
}

/// Twice the two coefficients with these values at the two roots below a node.
fn ascend_two(a: &mut [u64], node: usize, vs: &[u64], quotients: &[u64], q: u64)
    requires size { length a.old ≡ 2 ^ 1 }
    requires node_in { (node + 1) * 2 ^ 1 ≤ 2 * length vs.now }
    requires some { 0 < q }
    requires small { q < 2 ^ 62 }
    requires factors { AreFactors q vs.now quotients.now }
    requires a_in { EachBelow (2 * q) a.old }
    ensures values { (ws p : List ℕ) → IsTree q ws → AreInverses q ws vs.now → length p ≡ 2 ^ 1
        → AreValues q ws 1 node p a.old → AreMultiples q (2 ^ 1) p a.new }
    ensures below { EachBelow (2 * q) a.new }
{
    let (lo, hi) = a.split_at_mut(1);
    pass_up(lo, hi, vs[node], quotients[node], q);
}

/// Four times the four coefficients with these values at the four roots below a node.
fn ascend_four(a: &mut [u64], node: usize, vs: &[u64], quotients: &[u64], q: u64)
    requires size { length a.old ≡ 2 ^ 2 }
    requires node_in { (node + 1) * 2 ^ 2 ≤ 2 * length vs.now }
    requires some { 0 < q }
    requires small { q < 2 ^ 62 }
    requires factors { AreFactors q vs.now quotients.now }
    requires a_in { EachBelow (2 * q) a.old }
    ensures values { (ws p : List ℕ) → IsTree q ws → AreInverses q ws vs.now → length p ≡ 2 ^ 2
        → AreValues q ws 2 node p a.old → AreMultiples q (2 ^ 2) p a.new }
    ensures below { EachBelow (2 * q) a.new }
{
    let (lo, hi) = a.split_at_mut(2);
    ascend_two(lo, 2 * node, vs, quotients, q);
    ascend_two(hi, 2 * node + 1, vs, quotients, q);
    pass_up(lo, hi, vs[node], quotients[node], q);
}

/// Makes of the values of a polynomial at the roots of the 2^levels nodes below a node its coefficients times 2^levels.
/// The list `vs` has the inverses of the entries of the tree.
pub fn ascend(a: &mut [u64], levels: u32, node: usize, vs: &[u64], quotients: &[u64], q: u64)
    requires size { length a.old ≡ 2 ^ levels }
    requires node_in { (node + 1) * 2 ^ levels ≤ 2 * length vs.now }
    requires some { 0 < q }
    requires small { q < 2 ^ 62 }
    requires factors { AreFactors q vs.now quotients.now }
    requires a_in { EachBelow (2 * q) a.old }
    ensures values { (ws p : List ℕ) → IsTree q ws → AreInverses q ws vs.now → length p ≡ 2 ^ levels
        → AreValues q ws levels node p a.old → AreMultiples q (2 ^ levels) p a.new }
    ensures below { EachBelow (2 * q) a.new }
{
    if levels == 0 {
        return;
    }
    if levels == 2 {
        ascend_four(a, node, vs, quotients, q);
        return;
    }
    let half = a.len() / 2;
    let (lo, hi) = a.split_at_mut(half);
    ascend(lo, levels - 1, 2 * node, vs, quotients, q);
    ascend(hi, levels - 1, 2 * node + 1, vs, quotients, q);
    pass_up(lo, hi, vs[node], quotients[node], q);
}
