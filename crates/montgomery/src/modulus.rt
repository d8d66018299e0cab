// A modulus for Montgomery's method.
ghost use Rattle.std.specs.Prelude.{◌≡◌, ◌%◌, ◌^◌, ◌<◌};
ghost use Rattle.montgomery.specs.Modulus.{Modulus};

// An odd n, with mu = - 1 / n modulo 2^64.
#[derive(Clone, Copy)]
pub struct Modulus {
    pub n: u64,
    pub mu: u64,
    ghost valid: { Modulus n mu },
}

impl Modulus {
    pub fn new(n: u64) -> Modulus
        requires { (n % 2 ≡ 1) × (n < 2 ^ 63) }
        ensures { result.n ≡ n }
    {
        Modulus {
            n,
            mu: crate::inverse(n).wrapping_neg(),
        }
    }
}
