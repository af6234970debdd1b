// Binary64 floats that hold whole numbers: up to 2^53 their sums and products are exact. The laws are in proofs/Laws.
#![tactic(auto)]

ghost use Rattle.std.specs.Prelude.{◌≡◌, ℤ};
ghost use Rattle.grid_floats.specs.Workings.Whole.{Whole, size_of};

// The size of a whole number: its bits without the sign's bit.
pub fn size(x: f64) -> f64
    requires { (z : ℤ) × Whole x z }
    ensures { result ≡ size_of x }
{
    f64::from_bits(f64::to_bits(x) % 0x8000_0000_0000_0000)
}
