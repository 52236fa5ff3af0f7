//! One modulus of a table.

/// A modulus q, the roots zeta and psi modulo q, and the inverse of q modulo p.
///
/// With omega = zeta^2 the m powers of omega are the points of evaluation; psi is a root for the two-power transform.
#[derive(Clone, Copy, Debug)]
pub struct ModRow {
    /// The modulus.
    pub q: u64,
    /// A root of unity whose 2m-th power is 1 modulo q.
    pub zeta: u64,
    /// A root of unity of order N modulo q, for the least power N of two that is at least 2m - 1.
    pub psi: u64,
    /// The inverse of q modulo p.
    pub plain_inverse: u64,
}
