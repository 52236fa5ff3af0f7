//! Sums of rows of small words times small numbers, reduced at their end alone.
ghost use Rattle.std.specs.Prelude.{◌≡◌, ℕ, ◌+◌, ◌*◌, ◌%◌, ◌^◌, ◌<◌, ◌≤◌, All, length, get_or};

/// Adds a row times a factor to a row of sums.
pub(crate) fn add_multiple(factor: u64, row: &[u32], sums: &mut [u64])
    requires long { length row.now ≡ length sums.old }
    requires factor_in { factor < 2 ^ 17 }
    requires row_in { All (λ c. c < 2 ^ 17) row.now }
    requires room { All (λ s. s < 2 ^ 62) sums.old }
    ensures { (i : ℕ) → get_or sums.new i 0 ≡ get_or sums.old i 0 + factor * get_or row.now i 0 }
{
    for i in 0..sums.len() {
        sums[i] += factor * row[i] as u64;
    }
}

/// Reduces each sum modulo p.
pub(crate) fn reduce(p: u64, sums: &mut [u64])
    requires { 0 < p }
    ensures { (i : ℕ) → get_or sums.new i 0 ≡ get_or sums.old i 0 % p }
{
    for i in 0..sums.len() {
        sums[i] %= p;
    }
}

/// The sum of two words up to a multiple of p: reduced only where it would grow too large.
pub(crate) fn add_lazily(p: u64, a: u64, b: u64) -> u64
    requires p_low { 0 < p }
    requires p_high { p < 2 ^ 62 }
    requires a_low { a < 2 ^ 62 }
    requires b_low { b < 2 ^ 62 }
    ensures value { result % p ≡ (a + b) % p }
    ensures low { result < 2 ^ 62 }
{
    let sum = a + b;
    if sum < 1 << 62 { sum } else { sum % p }
}

/// The place further on by a step, around m places.
pub(crate) fn next_place(place: usize, step: usize, m: usize) -> usize
    requires place_in { place < m }
    requires step_in { step < m }
    requires few { m ≤ 131071 }
    ensures value { result ≡ (place + step) % m }
    ensures below { result < m }
{
    let next = place + step;
    if next < m { next } else { next - m }
}
