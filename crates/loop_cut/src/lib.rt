// A path that grows edge by edge: where it comes back to a vertex, the loop that closes there is cut off and listed.
#![tactic(auto)]

ghost use Rattle.std.specs.Prelude.{◌≡◌, take};
ghost use Rattle.surface_rules.specs.Buffers.{laid};
ghost use Rattle.loop_rules.specs.Loops.{ring, starts_at};
ghost use Rattle.loop_cut.specs.Workings.Growing.{Sought, part, RingRoom, ledger, CutRoom, WasCut, GrowRoom, Grew};

// How many loops were listed, how many vertices their rings have in all, and how many edges the path has.
#[derive(Clone, Copy)]
pub struct Listed {
    pub loops: usize,
    pub vertices: usize,
    pub path: usize,
}

// The edge e, which f follows, is added to the path; a loop that it closes is cut off and listed.
pub fn grow(
    corners: &[u16],
    e: usize,
    f: usize,
    path: &mut [u16],
    places: &mut [u16],
    rings: &mut [u16],
    lengths: &mut [u16],
    firsts: &mut [u16],
    at: Listed,
) -> Listed
    requires { GrowRoom corners.now e f path.old places.old (ledger rings.old lengths.old firsts.old) at }
    ensures { Grew corners.now e path.old at (ledger rings.old lengths.old firsts.old) path.new places.new result (ledger rings.new lengths.new firsts.new) }
{
    let depth = at.path;
    path[depth] = e as u16;
    places[corners[e] as usize] = depth as u16;
    match starts_at(corners, path, depth + 1, places, corners[f]) {
        None => Listed {
            path: depth + 1,
            ..at
        },
        Some(j) => cut(corners, path, j, depth + 1, rings, lengths, firsts, at),
    }
}

// The path from j up to `end` is listed as a loop.
fn cut(
    corners: &[u16],
    path: &[u16],
    j: usize,
    end: usize,
    rings: &mut [u16],
    lengths: &mut [u16],
    firsts: &mut [u16],
    at: Listed,
) -> Listed
    requires { CutRoom corners.now path.now j end (ledger rings.old lengths.old firsts.old) at }
    ensures { WasCut corners.now path.now j end at (ledger rings.old lengths.old firsts.old) result (ledger rings.new lengths.new firsts.new) }
{
    let n = at.loops;
    let from = at.vertices;
    firsts[n] = path[j];
    lengths[n] = (end - j) as u16;
    write_ring(corners, path, j, end, rings, from);
    Listed {
        loops: n + 1,
        vertices: from + (end - j),
        path: j,
    }
}

// Where an edge of the path starts at x. A point's place counts only while the path has an edge there that starts at it.
fn starts_at(corners: &[u16], path: &[u16], depth: usize, places: &[u16], x: u16) -> Option<usize>
    requires { Sought corners.now path.now depth places.now x }
    ensures { result ≡ starts_at corners.now (take depth path.now) x }
{
    let i = places[x as usize] as usize;
    if depth <= i {
        return None;
    }
    let e = path[i] as usize;
    if corners[e] == x {
        return Some(i);
    }
    None
}

// The starts of the path's edges from j up to `end` are written to the rings from `from` on.
fn write_ring(corners: &[u16], path: &[u16], j: usize, end: usize, rings: &mut [u16], from: usize)
    requires { RingRoom corners.now path.now j end rings.old from }
    ensures { rings.new ≡ laid from (ring corners.now (part path.now j end)) rings.old }
{
    for (k, e) in path[j..end].iter().enumerate() {
        rings[from + k] = corners[*e as usize];
    }
}
