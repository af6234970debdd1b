// Pairs every half-edge with its twin, and finds the first that repeats an earlier one on the way, or the first triangle that
// names a point twice.
#![tactic(auto)]

ghost use Rattle.std.specs.Prelude.{◌≡◌, ◌%◌, ◌≤◌, length};
ghost use Rattle.surface_rules.specs.Edges.{following};
ghost use Rattle.surface_twins.specs.Workings.Turns.{Room};
ghost use Rattle.check_pairs.specs.Workings.Outcome.{Paired};
ghost use Rattle.check_pairs.specs.Workings.Triangles.{buckets, few_corners, ProperTo, AfterRoom, alike, TriangleRoom, TriangleDone};

use base_types::Surface;

// So many buckets do for as many half-edges as a surface may have.
const BUCKETS: usize = 4096;

// So many corners are few, and so many buckets do for them: to clear the room for as many as a surface may have would take longer
// than to pair them.
const FEW: usize = 48;

const FEW_BUCKETS: usize = 32;

// Fills the table of turns, up to the first half-edge that repeats an earlier one, or the first triangle that names a point
// twice.
pub fn pair_all(corners: &[u16], turns: &mut [u16]) -> Option<usize>
    requires { Room corners.now turns.old }
    ensures { Paired corners.now result turns.new }
{
    if corners.len() <= FEW {
        return pair_few(corners, turns);
    }
    pair_many(corners, turns)
}

// Few corners, half-edge after half-edge. It differs from `pair_many` in more than sizes: whether a triangle names a point twice is
// asked of all of them beforehand, and the loop has one call.
fn pair_few(corners: &[u16], turns: &mut [u16]) -> Option<usize>
    requires { Room corners.now turns.old × (length corners.now ≤ few_corners) }
    ensures { Paired corners.now result turns.new }
{
    let mut heads = [0u16; FEW_BUCKETS];
    let mut links = [0u16; FEW];
    let mut ends = [0u16; FEW];
    let end = proper_end(corners);
    let mut i = 0;
    for h in 0..end {
        let f = after(h, i);
        let u = corners[h];
        let v = corners[f];
        if !surface_twins::pair(
            corners,
            h,
            f,
            u,
            v,
            FEW_BUCKETS,
            &mut heads,
            &mut links,
            &mut ends,
            turns,
        ) {
            return Some(h);
        }
        if f == i {
            i += 3;
        }
    }
    if end < corners.len() {
        return Some(end);
    }
    None
}

// Where the first triangle begins that names a point twice, or the end.
fn proper_end(corners: &[u16]) -> usize
    requires { length corners.now % 3 ≡ 0 }
    ensures { ProperTo corners.now result }
{
    match check_shape::first_twice(corners) {
        Some(t) => 3 * t,
        None => corners.len(),
    }
}

// The half-edge after h in the triangle whose first is i.
fn after(h: usize, i: usize) -> usize
    requires { AfterRoom h i }
    ensures { result ≡ following h }
{
    if h == i + 2 {
        return i;
    }
    h + 1
}

// Any number of corners, triangle after triangle. Their first half-edges are counted by hand: a `for` over the triangles took 12 instructions
// more for each, an eighth of all checks.
fn pair_many(corners: &[u16], turns: &mut [u16]) -> Option<usize>
    requires { Room corners.now turns.old }
    ensures { Paired corners.now result turns.new }
{
    let mut heads = [0u16; BUCKETS];
    let mut links = [0u16; Surface::CORNERS];
    let mut ends = [0u16; Surface::CORNERS];
    let mut i = 0;
    while i < corners.len() {
        if let Some(h) = pair_triangle(corners, i, &mut heads, &mut links, &mut ends, turns) {
            return Some(h);
        }
        i += 3;
    }
    None
}

// The three half-edges of the triangle whose first is i, up to the first that repeats an earlier one; none of a triangle that
// names a point twice.
fn pair_triangle(
    corners: &[u16],
    i: usize,
    heads: &mut [u16],
    links: &mut [u16],
    ends: &mut [u16],
    turns: &mut [u16],
) -> Option<usize>
    requires { TriangleRoom buckets corners.now i heads.old links.old ends.old turns.old }
    ensures { TriangleDone buckets corners.now i result heads.new links.new ends.new turns.new }
{
    let a = corners[i];
    let b = corners[i + 1];
    let c = corners[i + 2];
    if is_twice(a, b, c) {
        return Some(i);
    }
    if !surface_twins::pair(corners, i, i + 1, a, b, BUCKETS, heads, links, ends, turns) {
        return Some(i);
    }
    if !surface_twins::pair(
        corners,
        i + 1,
        i + 2,
        b,
        c,
        BUCKETS,
        heads,
        links,
        ends,
        turns,
    ) {
        return Some(i + 1);
    }
    if !surface_twins::pair(corners, i + 2, i, c, a, BUCKETS, heads, links, ends, turns) {
        return Some(i + 2);
    }
    None
}

// Whether two of a triangle's corners are alike. (That of `check_shape` reads them; here they were read already.)
#[tactic(auto, unfolding(crate::specs::Workings::Triangles::alike))]
fn is_twice(a: u16, b: u16, c: u16) -> bool
    ensures { result ≡ alike a b c }
{
    a == b || b == c || c == a
}
