// Lists the patch of a stretch of a loop from the table of least weights. The table keeps weights only, so the apexes are found again
// along the way.
#![tactic(auto)]

ghost use Rattle.std.specs.Prelude.{◌≡◌, [], ◌∷◌, suc, ◌+◌, ◌<◌, ◌≤◌, length};
ghost use Rattle.surface_rules.specs.Buffers.{laid};
ghost use Rattle.cover_rules.specs.Covers.{vertex_of};
ghost use Rattle.cover_trace.specs.Workings.Ways.{triangle_of, TriangleRoom, Weighable, IsWay, Middle};
ghost use Rattle.cover_trace.specs.Workings.Lists.{ListRoom, ListsPatch};

// What the triangle i, k, m weighs, by the products of its corners, which stand at these places of each part.
fn triangle(table: &[f64], im: usize, ik: usize, mk: usize, quarter: usize) -> f64
    requires { TriangleRoom quarter table.now im ik mk }
    ensures { result ≡ triangle_of quarter table.now im ik mk }
{
    grid_floats::size(table[im] - table[ik] + table[mk])
        + grid_floats::size(table[quarter + im] - table[quarter + ik] + table[quarter + mk])
        + grid_floats::size(
            table[2 * quarter + im] - table[2 * quarter + ik] + table[2 * quarter + mk],
        )
}

// Whether i..k has its least weight by way of m.
fn is_way(table: &[f64], i: usize, k: usize, m: usize, quarter: usize) -> bool
    requires { Weighable quarter table.now i k × (i < m) × (m < k) }
    ensures { IsWay quarter table.now i k m result }
{
    let im = cover_column::row_of(m) + i;
    let ik = cover_column::row_of(k) + i;
    let mk = cover_column::row_of(k) + m;
    let parts = table[3 * quarter + im] + table[3 * quarter + mk];
    if table[3 * quarter + ik] < parts {
        return false;
    }
    parts + triangle(table, im, ik, mk, quarter) <= table[3 * quarter + ik]
}

// The smallest apex by way of which i..k has its least weight. Where no other has it, the last one must.
fn middle(table: &[f64], i: usize, k: usize, quarter: usize) -> usize
    requires { Weighable quarter table.now i k × (suc i < k) }
    ensures { (i < result) × (result < k) × Middle quarter table.now i k result }
{
    for m in i + 1..k - 1 {
        if is_way(table, i, k, m, quarter) {
            return m;
        }
    }
    k - 1
}

// One triangle.
pub fn lay(ring: &[u16], out: &mut [u16], p: usize, i: usize, k: usize, m: usize)
    requires { (i < length ring.now) × (k < length ring.now) × (m < length ring.now) × (p + 3 ≤ length out.old) }
    ensures { out.new ≡ laid p (vertex_of ring.now i ∷ vertex_of ring.now k ∷ vertex_of ring.now m ∷ []) out.old }
{
    out[p] = ring[i];
    out[p + 1] = ring[k];
    out[p + 2] = ring[m];
}

// The patch of i..k from p on: the triangle, then i..m, then m..k; a side has none. The stretch that is left to list is from..to, whose
// patch begins at `at`. Of its two parts the shorter is listed by a call and the longer in the next turn, so that calls are few deep.
pub fn list(
    table: &[f64],
    ring: &[u16],
    out: &mut [u16],
    p: usize,
    i: usize,
    k: usize,
    quarter: usize,
)
    requires { ListRoom quarter table.now ring.now out.old p i k }
    ensures { ListsPatch quarter table.now ring.now out.old p i k out.new }
{
    let mut at = p;
    let mut from = i;
    let mut to = k;
    while from + 1 < to {
        let m = middle(table, from, to, quarter);
        lay(ring, out, at, from, to, m);
        if from + 1 == m {
            at += 3;
            from = m;
            continue;
        }
        if m + 1 == to {
            at += 3;
            to = m;
            continue;
        }
        let after = at + 3 * (m - from);
        if m - from <= to - m {
            list(table, ring, out, at + 3, from, m, quarter);
            at = after;
            from = m;
            continue;
        }
        list(table, ring, out, after, m, to, quarter);
        at += 3;
        to = m;
    }
}
