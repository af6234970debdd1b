// Marks the rims: in each piece the loop with the greatest run, among equals the first listed.
#![tactic(auto)]

ghost use Rattle.std.specs.Prelude.{◌≡◌, ◌≤◌, length};
ghost use Rattle.surface_rules.specs.Buffers.{over};
ghost use Rattle.rim_pieces.specs.Computed.{piece_count};
ghost use Rattle.rim_mark.specs.Workings.Running.{ring_run, RingRoom, MeasureRoom, Measures, MeasuresAll};
ghost use Rattle.rim_mark.specs.Workings.Ranking.{HouseRoom, Houses, RankRoom, Rivals, Ranks, told_marks, TellRoom};
ghost use Rattle.rim_mark.specs.Workings.Marking.{MarkRoom, Marked, AllRoom, AllMarked};

use base_types::{State, Surface};

// What stands before the course for a loop that is no rim.
const OTHER: u16 = 0;

// What stands for the run of a loop that has a rival until it is measured: any number but 0.
const RIVAL: u32 = 1;

// So many loops are few: to clear room for the runs of as many as a surface may have would take longer than to mark them.
const FEW_LOOPS: usize = 16;

// As many as a surface may have.
const MOST_LOOPS: usize = Surface::TRIANGLES;

// A mark for each loop, a rim's or another's, where its first half-edge stood. The table of turns may be as it was before the loops were
// listed or as it is after that; it is used up, and so are path and places.
pub fn mark(
    grid: &[i32],
    corners: &[u16],
    rings: &[u16],
    lengths: &[u16],
    turns: &mut [u16],
    path: &mut [u16],
    places: &mut [u16],
    marks: &mut [u16],
)
    requires { MarkRoom grid.now corners.now rings.now lengths.now turns.old path.old places.old marks.old }
    ensures { Marked grid.now corners.now marks.old marks.new }
{
    if lengths.len() == 0 {
        return;
    }
    // a loop without another is alone in its piece, so neither the pieces nor the runs matter
    if lengths.len() == 1 {
        marks[0] = State::RIM;
        return;
    }
    if lengths.len() <= FEW_LOOPS {
        mark_within::<FEW_LOOPS>(grid, corners, rings, lengths, turns, path, places, marks);
    } else {
        mark_within::<MOST_LOOPS>(grid, corners, rings, lengths, turns, path, places, marks);
    }
}

// For every loop a mark, its piece and its run. The first half-edges and the table of turns stay. The pieces come to stand where the places
// were; the path is used up.
pub fn mark_all(
    grid: &[i32],
    corners: &[u16],
    rings: &[u16],
    lengths: &[u16],
    firsts: &[u16],
    turns: &[u16],
    path: &mut [u16],
    pieces: &mut [u16],
    runs: &mut [u32],
    marks: &mut [u16],
)
    requires { AllRoom grid.now corners.now rings.now lengths.now firsts.now turns.now path.old pieces.old runs.old marks.old }
    ensures { AllMarked grid.now corners.now marks.old pieces.new runs.new marks.new }
{
    let n = lengths.len();
    if n == 0 {
        return;
    }
    // a loop without another is a rim; if it begins on triangle 0, it lies in piece 0
    if n == 1 && firsts[0] < 3 {
        measure_all(grid, rings, lengths, runs);
        pieces[0] = 0;
        marks[0] = State::RIM;
        return;
    }
    mark_counted(
        grid, corners, rings, lengths, firsts, turns, path, pieces, runs, marks,
    );
}

// The same, whatever loops there are, and how many pieces.
pub fn mark_counted(
    grid: &[i32],
    corners: &[u16],
    rings: &[u16],
    lengths: &[u16],
    firsts: &[u16],
    turns: &[u16],
    path: &mut [u16],
    pieces: &mut [u16],
    runs: &mut [u32],
    marks: &mut [u16],
) -> usize
    requires { AllRoom grid.now corners.now rings.now lengths.now firsts.now turns.now path.old pieces.old runs.old marks.old }
    ensures { AllMarked grid.now corners.now marks.old pieces.new runs.new marks.new × (result ≡ piece_count corners.now) }
{
    let n = lengths.len();
    measure_all(grid, rings, lengths, runs);
    let count = rim_pieces::number(corners, turns, pieces, path);
    house(firsts, path, n, pieces);
    rim_pieces::clear(path, count);
    rank(pieces, runs, n, path);
    tell(pieces, path, n, marks);
    count
}

// The same for loops of which there are no more than MOST. It is never inlined, so that their runs are not on the stack of the checks.
#[inline(never)]
fn mark_within<const MOST: usize>(
    grid: &[i32],
    corners: &[u16],
    rings: &[u16],
    lengths: &[u16],
    turns: &mut [u16],
    path: &mut [u16],
    places: &mut [u16],
    marks: &mut [u16],
)
    requires mark_room { MarkRoom grid.now corners.now rings.now lengths.now turns.old path.old places.old marks.old }
    requires lengths_in_bounds { length lengths.now ≤ MOST }
    requires most_in_bounds { MOST ≤ MOST_LOOPS }
    ensures { Marked grid.now corners.now marks.old marks.new }
{
    let mut runs = [0u32; MOST];
    mark_some(
        grid, corners, rings, lengths, turns, path, places, marks, &mut runs,
    );
}

// The same where there is some loop beside another, with room for a run of each. What stands there at first does not matter, but 0
// spares measuring a loop that has no rival.
fn mark_some(
    grid: &[i32],
    corners: &[u16],
    rings: &[u16],
    lengths: &[u16],
    turns: &mut [u16],
    path: &mut [u16],
    places: &mut [u16],
    marks: &mut [u16],
    runs: &mut [u32],
)
    requires mark_room { MarkRoom grid.now corners.now rings.now lengths.now turns.old path.old places.old marks.old }
    requires lengths_in_bounds { length lengths.now ≤ length runs.old }
    ensures { Marked grid.now corners.now marks.old marks.new }
{
    let n = lengths.len();
    let count = rim_pieces::number(corners, turns, path, places);
    house(marks, places, n, turns);
    rim_pieces::clear(path, count);
    find_rivals(turns, n, path, runs);
    measure(grid, rings, lengths, runs);
    rim_pieces::clear(path, count);
    rank(turns, runs, n, path);
    tell(turns, path, n, marks);
}

// The run of the loop with this ring: the strides from each vertex to the next, and from the last to the first.
pub fn run_of(grid: &[i32], ring: &[u16]) -> u32
    requires { RingRoom grid.now ring.now }
    ensures { result ≡ ring_run grid.now ring.now }
{
    let last = ring.len() - 1;
    let mut run: u64 = cover_weight::stride(grid, ring[last] as usize, ring[0] as usize);
    for i in 0..last {
        run += cover_weight::stride(grid, ring[i] as usize, ring[i + 1] as usize);
    }
    run as u32
}

// Each of the first n loops that has a rival, another loop of its piece, gets a number in place of its run, and any other none: where a
// loop is alone, its run does not matter. At first none stands for any piece.
fn find_rivals(homes: &[u16], n: usize, firsts: &mut [u16], runs: &mut [u32])
    requires { RankRoom homes.now runs.old n firsts.old }
    ensures { Rivals homes.now n runs.new }
{
    for l in 0..n {
        let p = homes[l] as usize;
        let b = firsts[p] as usize;
        if b < n {
            runs[b] = RIVAL;
            runs[l] = RIVAL;
        } else {
            firsts[p] = l as u16;
        }
    }
}

// The run of each loop that has a number there, and whose rings stand one after the other.
fn measure(grid: &[i32], rings: &[u16], lengths: &[u16], runs: &mut [u32])
    requires { MeasureRoom grid.now rings.now lengths.now runs.old }
    ensures { Measures grid.now rings.now lengths.now runs.old runs.new }
{
    let mut r = 0;
    for (l, &length) in lengths.iter().enumerate() {
        let end = r + length as usize;
        if runs[l] != 0 {
            runs[l] = run_of(grid, &rings[r..end]);
        }
        r = end;
    }
}

// The run of each loop; their rings stand one after the other. Not `measure` with a switch: its contract would have to say both.
fn measure_all(grid: &[i32], rings: &[u16], lengths: &[u16], runs: &mut [u32])
    requires { MeasureRoom grid.now rings.now lengths.now runs.old }
    ensures { MeasuresAll grid.now rings.now lengths.now runs.new }
{
    let mut r = 0;
    for (l, &length) in lengths.iter().enumerate() {
        let end = r + length as usize;
        runs[l] = run_of(grid, &rings[r..end]);
        r = end;
    }
}

// The piece of each of the first n loops: that of the triangle of its first half-edge.
fn house(firsts: &[u16], pieces: &[u16], n: usize, homes: &mut [u16])
    requires { HouseRoom firsts.now pieces.now n homes.old }
    ensures { Houses firsts.now pieces.now n homes.new }
{
    for l in 0..n {
        homes[l] = pieces[firsts[l] as usize / 3];
    }
}

// For each piece the first of its loops, of which there are n in all: that with the greatest run, among equals the first listed. At
// first none stands for any piece.
fn rank(homes: &[u16], runs: &[u32], n: usize, best: &mut [u16])
    requires { RankRoom homes.now runs.now n best.old }
    ensures { Ranks homes.now runs.now n best.new }
{
    for l in 0..n {
        let home = homes[l] as usize;
        let b = best[home] as usize;
        if n <= b || runs[b] < runs[l] {
            best[home] = l as u16;
        }
    }
}

// A loop is a rim if it is the first of its piece.
fn tell(homes: &[u16], best: &[u16], n: usize, marks: &mut [u16])
    requires { TellRoom homes.now best.now n marks.old }
    ensures { marks.new ≡ over (told_marks homes.now best.now n) marks.old }
{
    for l in 0..n {
        marks[l] = if best[homes[l] as usize] as usize == l {
            State::RIM
        } else {
            OTHER
        };
    }
}
