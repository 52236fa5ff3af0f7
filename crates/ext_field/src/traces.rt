//! The map that takes eta to eta^p, traces, and dual bases.
ghost use Rattle.std.specs.Prelude.{◌≡◌, ◌↔◌, ◌-◌, ◌*◌, ◌<◌, ◌==◌, if◌then◌else◌, IfOk, IsTrue, All, MatchOption, length, map};
ghost use Rattle.algebra.specs.Whole.{below};
ghost use Rattle.ext_field.specs.Element.{IsElement, IsDualBasis, IsFirstFailure, degree, elements, eta_power, frob, frob_times, trace};
ghost use Rattle.ext_field.specs.Checks.{dual_fault};

use crate::elements::ExtElem;
use crate::extensions::Ext;
use mod_ring::{Ring, sum};
use std::alloc::{AllocError, Global};

impl Ext {
    /// The element with `X^(p^times)` in place of X: the map that takes eta to `eta^p`, as often as `times` says.
    ///
    /// With p = 2 and `1 + X + X^3` it takes `X^2` to `X^4 = X + X^2`.
    pub fn frob(&self, alloc: Global, a: &ExtElem, times: u32) -> Result<ExtElem, AllocError>
        requires { IsElement self.now a.now }
        ensures value { IfOk result (λ r. r ≡ frob_times self.now times a.now) }
        ensures element { IfOk result (λ r. IsElement self.now r) }
    {
        let mut image = a.copy(alloc)?;
        for _taken in 0..times {
            image = self.frob_once(alloc, &image)?;
        }
        Ok(image)
    }

    /// The element with `X^p` in place of X.
    fn frob_once(&self, alloc: Global, a: &ExtElem) -> Result<ExtElem, AllocError>
        requires { IsElement self.now a.now }
        ensures value { IfOk result (λ r. r ≡ frob self.now a.now) }
        ensures element { IfOk result (λ r. IsElement self.now r) }
    {
        let image = self.base.combination(alloc, &a.poly.coeffs, &self.images)?;
        Ok(image)
    }

    /// The trace: the sum of the images of the element under `frob`, taken 0 to d - 1 times.
    pub fn trace(&self, alloc: Global, a: &ExtElem) -> Result<ExtElem, AllocError>
        requires { IsElement self.now a.now }
        ensures value { IfOk result (λ r. r ≡ trace self.now a.now) }
        ensures element { IfOk result (λ r. IsElement self.now r) }
    {
        let images = self.images(alloc, a)?;
        let total = sum(alloc, &self.base, &images)?;
        Ok(total)
    }

    /// The images of the element under `frob`, taken 0 to d - 1 times.
    fn images(&self, alloc: Global, a: &ExtElem) -> Result<Vec<ExtElem>, AllocError>
        requires { IsElement self.now a.now }
        ensures value { IfOk result
            (λ r. r.items ≡ map (λ j. frob_times self.now j a.now) (below (degree self.now))) }
        ensures elements { IfOk result (λ r. All (λ a. IsElement self.now a) r.items) }
    {
        let mut images = Vec::new(alloc);
        let mut image = a.copy(alloc)?;
        for _taken in 0..self.degree() {
            let next = self.frob_once(alloc, &image)?;
            images.push(image)?;
            image = next;
        }
        Ok(images)
    }

    /// The traces of 1, X, X^2 and so on, as many as `count` says.
    ///
    /// With p = 2 and `1 + X + X^3` the first four are 1, 0, 0, 1.
    pub fn traces(&self, alloc: Global, count: u32) -> Result<Vec<ExtElem>, AllocError>
        ensures value { IfOk result
            (λ r. r.items ≡ map (λ k. trace self.now (eta_power self.now k)) (below count)) }
        ensures long { IfOk result (λ r. length r.items ≡ count) }
        ensures elements { IfOk result (λ r. All (λ a. IsElement self.now a) r.items) }
    {
        let mut traces = Vec::new(alloc);
        let root = self.base.root(alloc)?;
        let mut power = self.base.one(alloc)?;
        for _taken in 0..count {
            let trace = self.trace(alloc, &power)?;
            traces.push(trace)?;
            power = self.base.mul(alloc, &root, &power)?;
        }
        Ok(traces)
    }

    /// Whether d elements are a dual basis of 1, X, .. `X^(d-1)`: the trace of the i-th times `X^k` is 1 for i = k and 0
    /// otherwise. If they are not, the first pair (i, k) that fails, by i and then by k.
    ///
    /// With p = 2 and `1 + X + X^3` the elements 1, `X^2`, X are a dual basis, and 1, X, `X^2` fail first at (1, 1).
    pub fn is_dual(&self, alloc: Global, dual: &[ExtElem]) -> Result<Option<(u32, u32)>, AllocError>
        requires long { length dual.now ≡ degree self.now }
        requires elements { All (λ a. IsElement self.now a) dual.now }
        ensures first { IfOk result
            (λ r. MatchOption r (IsDualBasis self.now dual.now) (λ at. IsFirstFailure self.now dual.now at.0 at.1)) }
        ensures fault { IfOk result (λ r. r ≡ dual_fault self.now dual.now) }
    {
        let degree = self.degree();
        let traces = self.traces(alloc, 2 * degree - 1)?;
        for place in 0..degree * degree {
            let (i, k) = (place / degree, place % degree);
            let theta = &dual[i as usize];
            if !self.is_dual_at(alloc, &traces, theta, i, k)? {
                return Ok(Some((i, k)));
            }
        }
        Ok(None)
    }

    /// The trace of an element times `X^k`, out of the traces of 1 to `X^(2 d - 2)`.
    fn trace_at(
        &self,
        alloc: Global,
        traces: &[ExtElem],
        theta: &ExtElem,
        k: u32,
    ) -> Result<ExtElem, AllocError>
        requires traces { traces.now ≡ map (λ k. trace self.now (eta_power self.now k)) (below (2 * degree self.now - 1)) }
        requires traces_long { length traces.now ≡ 2 * degree self.now - 1 }
        requires traces_in { All (λ a. IsElement self.now a) traces.now }
        requires element { IsElement self.now theta.now }
        requires k_in { k < degree self.now }
        ensures value { IfOk result (λ r. r ≡ trace self.now ((elements self.now).mul theta.now (eta_power self.now k))) }
        ensures element { IfOk result (λ r. IsElement self.now r) }
    {
        let rows = &traces[k as usize..];
        let trace = self.base.combination(alloc, theta.coeffs(), rows)?;
        Ok(trace)
    }

    /// Whether the trace of an element times `X^k` is 1 for i = k, and 0 otherwise.
    fn is_dual_at(
        &self,
        alloc: Global,
        traces: &[ExtElem],
        theta: &ExtElem,
        i: u32,
        k: u32,
    ) -> Result<bool, AllocError>
        requires traces { traces.now ≡ map (λ k. trace self.now (eta_power self.now k)) (below (2 * degree self.now - 1)) }
        requires traces_long { length traces.now ≡ 2 * degree self.now - 1 }
        requires traces_in { All (λ a. IsElement self.now a) traces.now }
        requires element { IsElement self.now theta.now }
        requires k_in { k < degree self.now }
        ensures { IfOk result (λ r. IsTrue r ↔
            (trace self.now ((elements self.now).mul theta.now (eta_power self.now k))
            ≡ (if i == k then (elements self.now).one else (elements self.now).zero))) }
    {
        let trace = self.trace_at(alloc, traces, theta, k)?;
        let wanted = if i == k {
            self.base.one(alloc)?
        } else {
            self.base.zero(alloc)?
        };
        Ok(self.base.equal(&trace, &wanted))
    }
}
