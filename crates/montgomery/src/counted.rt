// A residue with the number of squarings that it took. The count is private: only the functions of this file make one, and of these
// `square` alone counts.
ghost use Rattle.std.specs.Prelude.{◌≡◌, ◌+◌, ◌*◌, ◌%◌, ◌^◌, ◌<◌, ◌≤◌};
ghost use Rattle.montgomery.specs.Standing.{Started};

use crate::MontgomeryResidue;
use crate::modulus::Modulus;

#[derive(Clone, Copy)]
pub struct Counted {
    pub residue: MontgomeryResidue,
    squarings: u64,
}

// How many squarings were made.
pub fn squarings(x: Counted) -> u64
    ensures { result ≡ x.squarings }
{
    x.squarings
}

// 2 in Montgomery form, with no squaring made.
pub fn start(n: u64) -> Counted
    requires { (0 < n) × (n < 2 ^ 63) }
    ensures { Started n result }
{
    Counted {
        residue: crate::start(n),
        squarings: 0,
    }
}

// The square, with one squaring more.
pub fn square(x: Counted, m: Modulus) -> Counted
    requires { (x.residue.0 < m.n) × (x.squarings < 64) }
    ensures { (result.residue.0 < m.n) × (result.residue.0 * 2 ^ 64 % m.n ≡ x.residue.0 * x.residue.0 % m.n) × (result.squarings ≡ x.squarings + 1) }
{
    Counted {
        residue: crate::square(x.residue, m),
        squarings: x.squarings + 1,
    }
}

// Doubled where the bit is 1, with as many squarings.
pub fn double(x: Counted, bit: u64, n: u64) -> Counted
    requires { (x.residue.0 < n) × (n < 2 ^ 63) × (bit ≤ 1) }
    ensures { (bit ≡ 1 → result.residue.0 ≡ 2 * x.residue.0 % n) × (bit ≡ 0 → result.residue.0 ≡ x.residue.0) × (result.squarings ≡ x.squarings) }
{
    Counted {
        residue: crate::double(x.residue, bit, n),
        squarings: x.squarings,
    }
}
