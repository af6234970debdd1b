// Finds the patch of a loop and lays it, or only its least weight.
#![tactic(auto)]

ghost use Rattle.cover_table.specs.Workings.Loops.{LoopRoom};
ghost use Rattle.cover_trace.specs.Workings.Patches.{LaysPatch, FindsLeast};
ghost use Rattle.cover_lay.specs.Workings.Patches.{PatchRoom, ThreeRoom, LaysThree};

// Finds the patch of the loop with this ring and these bars and lays it from p on; or leaves all as it is. The table's floats find it, and
// what it weighs is the sum of its triangles as they were laid. Where the bars alone shut the loop, no table is made.
pub fn lay_patch(
    grid: &[i32],
    ring: &[u16],
    bars: &[u64],
    table: &mut [f64],
    out: &mut [u16],
    p: usize,
) -> Option<u64>
    requires { PatchRoom grid.now ring.now bars.now table.old out.old p }
    ensures { LaysPatch grid.now ring.now bars.now out.old p result out.new }
{
    if ring.len() == 4 {
        return cover_four::lay_four(grid, ring, bars, out, p);
    }
    if cover_shut::is_shut(bars, ring.len()) {
        return None;
    }
    cover_table::least_weight(grid, ring, bars, table)?;
    cover_trace::list(table, ring, out, p, 0, ring.len() - 1, table.len() / 4);
    let end = p + 3 * (ring.len() - 2);
    Some(cover_sum::weigh_set(grid, &out[p..end]))
}

// The least weight of the loop's allowed covers, or that it has none: for a caller that lists no patch.
pub fn least(grid: &[i32], ring: &[u16], bars: &[u64], table: &mut [f64]) -> Option<u64>
    requires { LoopRoom grid.now ring.now bars.now table.old }
    ensures { FindsLeast grid.now ring.now bars.now result }
{
    if ring.len() == 4 {
        return cover_four::least_four(grid, ring, bars);
    }
    if cover_shut::is_shut(bars, ring.len()) {
        return None;
    }
    cover_table::least_weight(grid, ring, bars, table)
}

// The loop of three has one cover, a triangle against it. Gives its weight.
pub fn lay_three(grid: &[i32], ring: &[u16], out: &mut [u16], p: usize) -> u64
    requires { ThreeRoom grid.now ring.now out.old p }
    ensures { LaysThree grid.now ring.now out.old p result out.new }
{
    cover_trace::lay(ring, out, p, 0, 2, 1);
    cover_four::weigh_at(grid, ring, 0, 2, 1)
}
