//! Prime factors.
ghost use Rattle.std.specs.Prelude.{◌<◌, ◌≤◌};
ghost use Rattle.algebra.specs.Divisor.{Dvd};
ghost use Rattle.cyclo_poly.specs.Primes.{IsPrime};

/// The least prime that divides a number above 1.
pub fn least_prime(n: usize) -> usize
    requires { 1 < n }
    ensures prime { IsPrime result }
    ensures divides { Dvd result n }
    ensures at_most { result ≤ n }
{
    for p in 2..n {
        if n % p == 0 {
            return p;
        }
    }
    n
}
