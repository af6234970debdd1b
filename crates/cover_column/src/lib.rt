// The steps by which the table of the least weights is made, column by column: products of points, and the ways by one apex.
//
// The weights are binary64 floats: each is a whole number below 2^53, so every sum is exact, and the machine adds two at a time.
#![tactic(auto)]

ghost use Rattle.std.specs.Prelude.{◌≡◌, ◌≤◌};
ghost use Rattle.base_limits.specs.Limits.{longest};
ghost use Rattle.cover_column.specs.Workings.Columns.{lesser_of, row, ProductsRoom, Multiplied, Copied, by_way, WayRoom, RelaxRoom, Relaxed};

use base_types::Loop;

// What a stretch weighs that has no allowed cover: more than any cover, and with another and a triangle still below 2^53.
pub const FAR: f64 = 1125899906842624.0;

// How many stretches a loop has at most.
pub const PAIRS: usize = Loop::LONGEST * (Loop::LONGEST - 1) / 2;

// The table has four parts with a place for each stretch: the products on three planes, and the weights. Each is a quarter of whatever is
// lent for it.
pub const PLACES: usize = 4 * PAIRS;

// A loop of at most so many edges is short: a table for such loops is cleared in less time than one of them takes.
pub const SHORT: usize = 16;

pub const SHORT_PLACES: usize = 4 * (SHORT * (SHORT - 1) / 2);

// Where row k begins, that of the stretches i..k.
pub fn row_of(k: usize) -> usize
    requires { k ≤ longest }
    ensures { result ≡ row k }
{
    (k * k - k) / 2
}

// The products of position k with each before it on the three planes, and row k of the table's first three parts with them; of the
// stretches ..k only the side has a weight yet.
pub fn multiply(
    px: &[f64],
    py: &[f64],
    pz: &[f64],
    k: usize,
    xs: &mut [f64],
    ys: &mut [f64],
    zs: &mut [f64],
    column: &mut [f64],
    table: &mut [f64],
    quarter: usize,
)
    requires { ProductsRoom k quarter px.now py.now pz.now xs.old ys.old zs.old column.old table.old }
    ensures { Multiplied k px.now py.now pz.now xs.new ys.new zs.new column.new
        × Copied k quarter xs.new ys.new zs.new table.old table.new }
{
    let x = px[k];
    let y = py[k];
    let z = pz[k];
    let at = row_of(k);
    for i in 0..k {
        let u = py[i] * z - pz[i] * y;
        let v = pz[i] * x - px[i] * z;
        let w = px[i] * y - py[i] * x;
        xs[i] = u;
        ys[i] = v;
        zs[i] = w;
        table[at + i] = u;
        table[quarter + at + i] = v;
        table[2 * quarter + at + i] = w;
        column[i] = FAR;
    }
    column[k - 1] = 0.0;
}

// The lesser of the two.
fn lesser(a: f64, b: f64) -> f64
    ensures { result ≡ lesser_of a b }
{
    if a < b { a } else { b }
}

// What i..k weighs by way of m, where row m begins at `at` and m..k weighs v; x, y and z are the products of m and k.
fn by_way(
    table: &[f64],
    at: usize,
    v: f64,
    xs: &[f64],
    ys: &[f64],
    zs: &[f64],
    i: usize,
    m: usize,
    quarter: usize,
) -> f64
    requires { WayRoom quarter table.now at m xs.now ys.now zs.now i }
    ensures { result ≡ by_way quarter table.now at m v xs.now ys.now zs.now i }
{
    let x = xs[m];
    let y = ys[m];
    let z = zs[m];
    table[3 * quarter + at + i]
        + v
        + grid_floats::size(table[at + i] - xs[i] + x)
        + grid_floats::size(table[quarter + at + i] - ys[i] + y)
        + grid_floats::size(table[2 * quarter + at + i] - zs[i] + z)
}

// Each place of the column below m takes the way by m where that is lighter. The machine takes two at a time: of an odd m it
// writes the place m too, which is not read any more.
pub fn relax(
    table: &[f64],
    at: usize,
    m: usize,
    v: f64,
    xs: &[f64],
    ys: &[f64],
    zs: &[f64],
    column: &mut [f64],
    quarter: usize,
)
    requires { RelaxRoom quarter table.now at m xs.now ys.now zs.now column.old }
    ensures { Relaxed quarter table.now at m v xs.now ys.now zs.now column.old column.new }
{
    let end = 2 * ((m + 1) / 2);
    for i in 0..end {
        column[i] = lesser(by_way(table, at, v, xs, ys, zs, i, m, quarter), column[i]);
    }
}
