// Numbers the pieces of a surface: each is flooded from its smallest triangle across the edges that its triangles share.
#![tactic(auto)]

ghost use Rattle.std.specs.Prelude.{◌≤◌, length};
ghost use Rattle.rim_pieces.specs.Workings.Flooding.{flooded, Cleared, VisitRoom, Visits, AroundRoom, Arounds, SpreadRoom, Spreads, NumberRoom, Numbers};

use loop_leaders::WALKED;

// A triangle that has no number yet stands with this, above every number.
pub const NONE: u16 = 65535;

// Every triangle gets the number of its piece: two have one number exactly if they are joined through shared edges, and numbers are given from 0
// on, in the order of the smallest triangles. Gives how many pieces there are.
pub fn number(corners: &[u16], turns: &[u16], queue: &mut [u16], pieces: &mut [u16]) -> usize
    requires { NumberRoom corners.now turns.now queue.old pieces.old }
    ensures { Numbers corners.now result pieces.new }
{
    let triangles = corners.len() / 3;
    clear(pieces, triangles);
    let mut p: u16 = 0;
    let mut count = 0;
    for t in 0..triangles {
        if pieces[t] != NONE {
            continue;
        }
        pieces[t] = p;
        queue[count] = t as u16;
        count = spread(turns, count, p, queue, count + 1, pieces);
        p += 1;
    }
    p as usize
}

// The first n have no number.
pub fn clear(pieces: &mut [u16], n: usize)
    requires { n ≤ length pieces.old }
    ensures { Cleared pieces.old n pieces.new }
{
    pieces[..n].fill(NONE);
}

// Piece p is flooded: the queue has its first triangle at `from`, and each one's neighbours come behind it.
fn spread(
    turns: &[u16],
    from: usize,
    p: u16,
    queue: &mut [u16],
    count: usize,
    pieces: &mut [u16],
) -> usize
    requires { SpreadRoom turns.now from p (flooded queue.old count pieces.old) }
    ensures { Spreads turns.now from p (flooded queue.old count pieces.old) (flooded queue.new result pieces.new) }
{
    let mut done = from;
    let mut end = count;
    // no range: the queue grows as it is worked off
    while done < end {
        let t = queue[done] as usize;
        end = around(turns, t, p, queue, end, pieces);
        done += 1;
    }
    end
}

// The triangles across the three edges of t.
fn around(
    turns: &[u16],
    t: usize,
    p: u16,
    queue: &mut [u16],
    count: usize,
    pieces: &mut [u16],
) -> usize
    requires { AroundRoom turns.now t p (flooded queue.old count pieces.old) }
    ensures { Arounds turns.now t p (flooded queue.old count pieces.old) (flooded queue.new result pieces.new) }
{
    let first = visit(turns, 3 * t, p, queue, count, pieces);
    let second = visit(turns, 3 * t + 1, p, queue, first, pieces);
    visit(turns, 3 * t + 2, p, queue, second, pieces)
}

// The triangle across half-edge h, if there is one and it has no number, gets number p and goes into the queue.
fn visit(
    turns: &[u16],
    h: usize,
    p: u16,
    queue: &mut [u16],
    count: usize,
    pieces: &mut [u16],
) -> usize
    requires { VisitRoom turns.now h p (flooded queue.old count pieces.old) }
    ensures { Visits turns.now h p (flooded queue.old count pieces.old) (flooded queue.new result pieces.new) }
{
    let turn = turns[h];
    if WALKED <= turn {
        return count;
    }
    let u = turn / 3;
    if pieces[u as usize] != NONE {
        return count;
    }
    pieces[u as usize] = p;
    queue[count] = u;
    count + 1
}
