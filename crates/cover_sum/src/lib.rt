// Weighs a list of triangles: their weights added, as whole numbers.
#![tactic(auto)]

ghost use Rattle.std.specs.Prelude.{◌≡◌};
ghost use Rattle.surface_rules.specs.Threes.{threes};
ghost use Rattle.cover_sum.specs.Workings.Weighing.{set_weight, WeighRoom};

use cover_weight::weigh_named;

// What the triangles weigh whose corners stand in the set, three by three.
pub fn weigh_set(grid: &[i32], set: &[u16]) -> u64
    requires { WeighRoom grid.now set.now }
    ensures { result ≡ set_weight grid.now (threes set.now) }
{
    let mut total = 0;
    for t in set.chunks_exact(3) {
        total += weigh_named(grid, t[0] as usize, t[1] as usize, t[2] as usize);
    }
    total
}
