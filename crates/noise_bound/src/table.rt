ghost use Rattle.std.specs.Prelude.{◌≡◌, suc, ◌+◌, ◌*◌, ◌/◌, ◌<◌, ◌≤◌, ◌^◌, length, take, IfOk, vec_len, max};
ghost use Rattle.std.specs.Int.{div_ceil};
ghost use Rattle.std.specs.List.{All};
ghost use Rattle.noise_bound.specs.Machine.{Sizes, IsSizes, IsModulus, product_up, product_down, groups_added, fresh, divided, settled, limit, switched, dropped};
ghost use Rattle.noise_bound.specs.Rounding.{up, half_over};
ghost use Rattle.noise_bound.specs.Value.{value, IsBoundOf, AreBounds};

use crate::rounding::Bound;
use std::alloc::{AllocError, Global};
use std::marker::Model;

/// The bound of a fresh cipher.
fn fresh_bound(n: u32, p: u32, weight: u32) -> Bound
    requires n_most { n ≤ 65536 }
    requires p_most { p ≤ 131071 }
    requires weight_most { weight ≤ n }
    ensures number { value result ≡ up (n * (p / 2) + p * (10 * n * n + 10 * n + 10 * n * weight)) }
    ensures small { result.exp ≤ 97 }
{
    let (n, p, weight) = (n as u64, p as u64, weight as u64);
    let errors = 10 * n * n + 10 * n + 10 * n * weight;
    Bound::up((n * (p / 2) + p * errors) as u128)
}

/// What one division adds.
fn division_bound(n: u32, p: u32, weight: u32) -> Bound
    requires n_most { n ≤ 65536 }
    requires p_most { p ≤ 131071 }
    requires weight_most { weight ≤ n }
    ensures number { value result ≡ up (div_ceil (n * (p + 1) * (1 + weight)) 2) }
    ensures small { result.exp ≤ 97 }
{
    let (n, p, weight) = (n as u64, p as u64, weight as u64);
    Bound::up((n * (p + 1) * (1 + weight)).div_ceil(2) as u128)
}

/// What each group of digits is multiplied by when keys are switched.
fn key_factor(n: u32, p: u32) -> Bound
    requires n_most { n ≤ 65536 }
    requires p_most { p ≤ 131071 }
    ensures number { value result ≡ up (5 * p * n * n) }
    ensures small { result.exp ≤ 97 }
{
    let (n, p) = (n as u64, p as u64);
    Bound::up((5 * p * n * n) as u128)
}

/// The product of moduli, rounded up at each of them.
fn product_up(moduli: &[u64]) -> Bound
    requires { length moduli.now ≤ 32 }
    ensures number { value result ≡ product_up moduli.now }
    ensures small { result.exp ≤ 2048 }
{
    let mut product = Bound::of_word(1);
    for q in moduli {
        product = product.scale(*q);
    }
    product
}

/// The product of moduli, rounded down at each of them.
fn product_down(moduli: &[u64]) -> Bound
    requires few { length moduli.now ≤ 32 }
    requires moduli { All IsModulus moduli.now }
    ensures number { value result ≡ product_down moduli.now }
    ensures small { result.exp ≤ 2048 }
    ensures some { 0 < value result }
{
    let mut product = Bound::of_word(1);
    for q in moduli {
        product = product.scale_down(*q);
    }
    product
}

/// What switching keys adds where the level has these moduli: the sum over their groups.
fn switched(factor: Bound, special: Bound, digits: &[u32], moduli: &[u64]) -> Bound
    requires factor_small { factor.exp ≤ 97 }
    requires special_small { special.exp ≤ 2048 }
    requires divisor { 0 < value special }
    requires few { length moduli.now ≤ 32 }
    requires digits { All (λ d. 0 < d) digits.now }
    ensures { IsBoundOf result (groups_added (value factor) (value special) digits.now moduli.now) }
{
    let mut sum = Bound::of_word(0);
    let mut rest = moduli;
    for size in digits {
        if rest.is_empty() {
            return sum;
        }
        let (group, later) = rest.split_at((*size as usize).min(rest.len()));
        sum = sum.plus(factor.times(product_up(group)).ratio(special));
        rest = later;
    }
    sum
}

/// The limit of each level.
fn limits(alloc: Global, chain: &[u64], height: u32) -> Result<Vec<Bound>, AllocError>
    requires few { length chain.now ≤ 32 }
    requires divisor { 0 < height }
    ensures len { IfOk result (λ v. vec_len v ≡ length chain.now) }
    ensures bounds { IfOk result (λ v. AreBounds
        (λ level. half_over (product_down (take (suc level) chain.now)) height) v.items) }
{
    let mut limits = Vec::new(alloc);
    let mut product = Bound::of_word(1);
    for q in chain {
        product = product.scale_down(*q);
        limits.push(product.half_over(height))?;
    }
    Ok(limits)
}

/// What switching keys adds at each level.
fn switches(
    alloc: Global,
    factor: Bound,
    special: Bound,
    digits: &[u32],
    chain: &[u64],
) -> Result<Vec<Bound>, AllocError>
    requires factor_small { factor.exp ≤ 97 }
    requires special_small { special.exp ≤ 2048 }
    requires divisor { 0 < value special }
    requires few { length chain.now ≤ 32 }
    requires digits { All (λ d. 0 < d) digits.now }
    ensures len { IfOk result (λ v. vec_len v ≡ length chain.now) }
    ensures bounds { IfOk result (λ v. AreBounds (λ level. groups_added
        (value factor) (value special) digits.now (take (suc level) chain.now)) v.items) }
{
    let mut switches = Vec::new(alloc);
    for level in 0..chain.len() {
        switches.push(switched(factor, special, digits, &chain[..=level]))?;
    }
    Ok(switches)
}

/// The bounds of one table: what its fresh ciphers have, what each step adds, and each level's limit.
///
/// It is made from the degree `n`, the plaintext modulus `p`, the weight of the secret, the height of
/// the ring, the moduli of the chain and the special ones, and the sizes of the groups of digits.
#[derive(Drop)]
pub struct BoundTable {
    n: u32,
    p: u32,
    weight: u32,
    height: u32,
    chain: Vec<u64>,
    special: Vec<u64>,
    digits: Vec<u32>,
    first: Bound,
    division: Bound,
    rest: Bound,
    limits: Vec<Bound>,
    switches: Vec<Bound>,
}

impl Model for BoundTable {
    ghost use Rattle.noise_bound.specs.Machine.{Sizes};

    ghost Value = { Sizes };

    ghost use Rattle.noise_bound.specs.Table.{sizes_of, IsTable};

    ghost view = { sizes_of };

    ghost invariant = { IsTable };
}

impl BoundTable {
    /// The bounds of these sizes, where there is memory for them.
    ///
    /// `n` goes up to 65536, `p` from 2 to 131071, `weight` from 1 to `n`, and `height` from 1 to
    /// 2^31 - 1. There are 1 to 32 moduli in `chain` and 1 to 16 in `special`, each from 3 to 2^62 - 1,
    /// and the positive `digits` add up to the length of `chain`.
    pub fn new(
        alloc: Global,
        n: u32,
        p: u32,
        weight: u32,
        height: u32,
        chain: &[u64],
        special: &[u64],
        digits: &[u32],
    ) -> Result<BoundTable, AllocError>
        requires { IsSizes (record {
          n = n;
          p = p;
          weight = weight;
          height = height;
          chain = chain.now;
          special = special.now;
          digits = digits.now;
        }) }
        ensures { IfOk result (λ t. t ≡ record {
          n = n;
          p = p;
          weight = weight;
          height = height;
          chain = chain.now;
          special = special.now;
          digits = digits.now;
        }) }
    {
        let division = division_bound(n, p, weight);
        Ok(BoundTable {
            n,
            p,
            weight,
            height,
            chain: chain.to_vec(alloc)?,
            special: special.to_vec(alloc)?,
            digits: digits.to_vec(alloc)?,
            first: fresh_bound(n, p, weight),
            division,
            rest: division.plus(division),
            limits: limits(alloc, chain, height)?,
            switches: switches(
                alloc,
                key_factor(n, p),
                product_down(special),
                digits,
                chain,
            )?,
        })
    }

    /// The bound of a fresh cipher.
    pub fn fresh(&self) -> Bound
        ensures { IsBoundOf result (fresh self.now) }
    {
        self.first
    }

    /// What one division adds.
    pub fn switch_add(&self) -> Bound
        ensures { IsBoundOf result (divided self.now) }
    {
        self.division
    }

    /// The bound above which an operand is settled.
    pub fn settle(&self) -> Bound
        ensures { IsBoundOf result (settled self.now) }
    {
        self.rest
    }

    /// The limit of a level: a cipher is too noisy where its bound is at least this.
    pub fn limit(&self, level: u32) -> Bound
        requires { level < length self.now.chain }
        ensures { IsBoundOf result (limit self.now level) }
    {
        self.limits[level as usize]
    }

    /// What switching keys adds at a level.
    pub fn key_switch(&self, level: u32) -> Bound
        requires { level < length self.now.chain }
        ensures { IsBoundOf result (switched self.now level) }
    {
        self.switches[level as usize]
    }

    /// The bound that `b` becomes when the modulus of `level` is dropped.
    pub fn dropped(&self, b: Bound, level: u32) -> Bound
        requires in_range { level < length self.now.chain }
        requires above { 0 < level }
        requires small { b.exp < 2 ^ 20 }
        ensures number { value result ≡ dropped self.now level (value b) }
        ensures small { result.exp ≤ max b.exp 4096 + 1 }
    {
        let modulus = self.chain[level as usize];
        let p = self.p as u64;
        let residue = modulus % p;
        b.over(residue.min(p - residue), modulus)
            .plus(self.division)
    }
}
