// Rows of yes and no for the positions of a loop, a word each.
#![tactic(auto)]

ghost use Rattle.std.specs.Prelude.{◌≡◌, ◌||◌, ℕ, ◌<◌, eqb};
ghost use Rattle.base_limits.specs.Limits.{longest};
ghost use Rattle.cover_bits.specs.Workings.Masks.{bit};

// Whether position k is set in the row.
pub fn is_set(row: u64, k: usize) -> bool
    requires { k < longest }
    ensures { result ≡ bit row k }
{
    (row >> k) & 1 == 1
}

// The row with position k set too.
pub fn with(row: u64, k: usize) -> u64
    requires { k < longest }
    ensures { (j : ℕ) → j < longest → bit result j ≡ (bit row j || eqb j k) }
{
    row | (1 << k)
}
