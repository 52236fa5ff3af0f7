//! Norms of polynomials.
ghost use Rattle.std.specs.Prelude.{◌≡◌, ◌≤◌, All, length, nat_abs};
ghost use Rattle.cyclotomic.specs.Norm.{one_norm};

/// The sum of the absolute values of at most 65536 numbers from -131071 to 131071.
pub fn one_norm(a: &[i64]) -> u64
    requires few { length a.now ≤ 65536 }
    requires small { All (λ x. nat_abs x ≤ 131071) a.now }
    ensures { result ≡ one_norm a.now }
{
    let mut sum: u64 = 0;
    for i in (0..a.len()).rev() {
        sum += a[i].unsigned_abs();
    }
    sum
}
