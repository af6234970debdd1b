// The least weights of all stretches of a loop.
//
// The weights are binary64 floats: each is a whole number below 2^53, so every sum is exact, and the machine adds two at a time.
#![tactic(auto)]

ghost use Rattle.std.specs.Prelude.{◌≡◌, suc, ◌<◌, ◌≤◌, length};
ghost use Rattle.base_limits.specs.Limits.{longest};
ghost use Rattle.cover_weight.specs.Edition.{along};
ghost use Rattle.cover_bits.specs.Workings.Masks.{bit};
ghost use Rattle.cover_column.specs.Workings.Columns.{row};
ghost use Rattle.cover_table.specs.Workings.Table.{settled_of, Points, strips, Sweepable, Offered, Swept};
ghost use Rattle.cover_table.specs.Workings.Loops.{GatherRoom, TableRoom, FillsTable, Found};

use base_types::Loop;
use cover_column::{FAR, SHORT};

// What a stretch weighs by its bars and the column.
fn settled(row: u64, k: usize, v: f64) -> f64
    requires { k < longest }
    ensures { result ≡ settled_of (bit row k) v }
{
    if cover_bits::is_set(row, k) { FAR } else { v }
}

// The turn of m in column k: m..k is settled, and each stretch before it may take the way by m, whose row begins at `at`.
fn offer(
    table: &mut [f64],
    k: usize,
    m: usize,
    bars: &[u64],
    xs: &[f64],
    ys: &[f64],
    zs: &[f64],
    column: &mut [f64],
    at: usize,
    quarter: usize,
)
    requires { Sweepable quarter k (suc m) bars.now (strips xs.now ys.now zs.now column.old) table.old × (at ≡ row m) }
    ensures { Offered quarter k m bars.now (strips xs.now ys.now zs.now column.old) table.old
        (strips xs.now ys.now zs.now column.new) table.new }
{
    let v = settled(bars[m], k, column[m]);
    table[3 * quarter + cover_column::row_of(k) + m] = v;
    if v < FAR {
        cover_column::relax(table, at, m, v, xs, ys, zs, column, quarter);
    }
}

// Column k, from the last position before k down.
fn sweep(
    table: &mut [f64],
    k: usize,
    bars: &[u64],
    xs: &[f64],
    ys: &[f64],
    zs: &[f64],
    column: &mut [f64],
    quarter: usize,
)
    requires { Sweepable quarter k k bars.now (strips xs.now ys.now zs.now column.old) table.old }
    ensures { Swept quarter k bars.now (strips xs.now ys.now zs.now column.old) table.old table.new }
{
    let mut at = cover_column::row_of(k);
    for m in (0..k).rev() {
        at -= m;
        offer(table, k, m, bars, xs, ys, zs, column, at, quarter);
    }
}

// The ring's points as floats.
fn gather(grid: &[i32], ring: &[u16], px: &mut [f64], py: &mut [f64], pz: &mut [f64])
    requires { GatherRoom grid.now ring.now px.old py.old pz.old }
    ensures { Points (along grid.now ring.now) (length ring.now) px.new py.new pz.new }
{
    for (j, name) in ring.iter().enumerate() {
        let v = 3 * (*name as usize);
        px[j] = grid[v] as f64;
        py[j] = grid[v + 1] as f64;
        pz[j] = grid[v + 2] as f64;
    }
}

// The table of a loop of at most N edges. For a short loop N is small, so that little is cleared; and each N has arrays of its own, since
// only so does the compiler see that they lie apart, and takes two places at a time.
fn fill_within<const N: usize>(grid: &[i32], ring: &[u16], bars: &[u64], table: &mut [f64])
    requires { TableRoom grid.now ring.now bars.now table.old × (length ring.now ≤ N) × (N ≤ longest) }
    ensures { FillsTable grid.now ring.now bars.now table.new }
{
    let mut px = [FAR; N];
    let mut py = [FAR; N];
    let mut pz = [FAR; N];
    let mut xs = [FAR; N];
    let mut ys = [FAR; N];
    let mut zs = [FAR; N];
    let mut column = [FAR; N];
    gather(grid, ring, &mut px, &mut py, &mut pz);
    let quarter = table.len() / 4;
    for k in 1..ring.len() {
        cover_column::multiply(
            &px,
            &py,
            &pz,
            k,
            &mut xs,
            &mut ys,
            &mut zs,
            &mut column,
            table,
            quarter,
        );
        sweep(table, k, bars, &xs, &ys, &zs, &mut column, quarter);
    }
}

// The table of the loop with this ring and these bars.
fn fill(grid: &[i32], ring: &[u16], bars: &[u64], table: &mut [f64])
    requires { TableRoom grid.now ring.now bars.now table.old }
    ensures { FillsTable grid.now ring.now bars.now table.new }
{
    if ring.len() <= SHORT {
        return fill_within::<SHORT>(grid, ring, bars, table);
    }
    fill_within::<{ Loop::LONGEST }>(grid, ring, bars, table)
}

// Fills the table of the loop with this ring and these bars, and finds what its patch weighs, if it has one.
pub fn least_weight(grid: &[i32], ring: &[u16], bars: &[u64], table: &mut [f64]) -> Option<u64>
    requires { TableRoom grid.now ring.now bars.now table.old }
    ensures { Found grid.now ring.now bars.now result table.new }
{
    fill(grid, ring, bars, table);
    let least = table[3 * (table.len() / 4) + cover_column::row_of(ring.len() - 1)];
    if least < FAR {
        return Some(least as u64);
    }
    None
}
