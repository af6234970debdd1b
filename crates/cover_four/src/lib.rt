// Loops of four edges: they need no table, for each has only two covers.
#![tactic(auto)]

ghost use Rattle.std.specs.Prelude.{◌≡◌, ◌^◌, ◌<◌, length};
ghost use Rattle.cover_weight.specs.Edition.{tri_of, along};
ghost use Rattle.cover_table.specs.Workings.Loops.{OnGrid};
ghost use Rattle.cover_trace.specs.Workings.Patches.{LaysPatch, FindsLeast};
ghost use Rattle.cover_four.specs.Workings.Fours.{FourRoom, FourOn, by_one, by_two, Takes};

// The loop of four has two covers, by the apexes 1 and 2, and needs no table.
pub fn lay_four(grid: &[i32], ring: &[u16], bars: &[u64], out: &mut [u16], p: usize) -> Option<u64>
    requires { FourRoom grid.now ring.now bars.now out.old p }
    ensures { LaysPatch grid.now ring.now bars.now out.old p result out.new }
{
    if goes_by_two(grid, ring, bars)? {
        cover_trace::lay(ring, out, p, 0, 3, 2);
        cover_trace::lay(ring, out, p + 3, 0, 2, 1);
        return Some(by_two(grid, ring));
    }
    cover_trace::lay(ring, out, p, 0, 3, 1);
    cover_trace::lay(ring, out, p + 3, 1, 3, 2);
    Some(by_one(grid, ring))
}

// The same of a loop of four.
pub fn least_four(grid: &[i32], ring: &[u16], bars: &[u64]) -> Option<u64>
    requires { FourOn grid.now ring.now bars.now }
    ensures { FindsLeast grid.now ring.now bars.now result }
{
    if goes_by_two(grid, ring, bars)? {
        return Some(by_two(grid, ring));
    }
    Some(by_one(grid, ring))
}

// Whether the loop of four takes the cover by the apex 2: its diagonal is free, and the other's is not, or that cover is heavier. None: it
// has no allowed cover.
fn goes_by_two(grid: &[i32], ring: &[u16], bars: &[u64]) -> Option<bool>
    requires { FourOn grid.now ring.now bars.now }
    ensures { Takes grid.now ring.now bars.now result }
{
    let one_barred = cover_bits::is_set(bars[1], 3);
    if cover_bits::is_set(bars[0], 3) {
        return None;
    }
    if cover_bits::is_set(bars[0], 2) {
        return if one_barred { None } else { Some(false) };
    }
    Some(one_barred || by_two(grid, ring) < by_one(grid, ring))
}

// What the cover by the apex 1 weighs.
fn by_one(grid: &[i32], ring: &[u16]) -> u64
    requires { OnGrid grid.now ring.now × (length ring.now ≡ 4) }
    ensures { result ≡ by_one grid.now ring.now }
{
    weigh_at(grid, ring, 0, 3, 1) + weigh_at(grid, ring, 1, 3, 2)
}

// What the cover by the apex 2 weighs.
fn by_two(grid: &[i32], ring: &[u16]) -> u64
    requires { OnGrid grid.now ring.now × (length ring.now ≡ 4) }
    ensures { result ≡ by_two grid.now ring.now }
{
    weigh_at(grid, ring, 0, 3, 2) + weigh_at(grid, ring, 0, 2, 1)
}

// What the triangle at these positions of the ring weighs.
pub fn weigh_at(grid: &[i32], ring: &[u16], i: usize, k: usize, m: usize) -> u64
    requires { OnGrid grid.now ring.now × (i < length ring.now) × (k < length ring.now) × (m < length ring.now) }
    ensures { (result ≡ tri_of (along grid.now ring.now) i k m) × (result < 2 ^ 35) }
{
    cover_weight::weigh_named(grid, ring[i] as usize, ring[k] as usize, ring[m] as usize)
}
