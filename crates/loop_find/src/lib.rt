// Finds the loops of a surface: open edges are walked by next, cycle by cycle, and each cycle is split where the walk comes
// back to a vertex.
#![tactic(auto)]

ghost use Rattle.loop_rules.specs.Loops.{loops};
ghost use Rattle.loop_cut.specs.Listing.{ListsLoops};
ghost use Rattle.loop_cut.specs.Workings.Growing.{ledger};
ghost use Rattle.loop_find.specs.Workings.Asked.{Ready, Lent};
ghost use Rattle.loop_find.specs.Workings.Walking.{KeepsTurns, walk, CycleRoom, CycleListed};

use base_types::Surface;
use loop_cut::Listed;
use loop_leaders::WALKED;
use surface_twins::OPEN;

// Lists all loops: their rings one after the other, their lengths, and the half-edge that each is listed from. The table of
// turns is used up. It is never inlined, so that its path is not on the stack of the checks.
#[inline(never)]
pub fn list_loops(
    corners: &[u16],
    turns: &mut [u16],
    rings: &mut [u16],
    lengths: &mut [u16],
    firsts: &mut [u16],
) -> Listed
    requires { Ready corners.now turns.old rings.old lengths.old firsts.old }
    ensures { ListsLoops corners.now (loops corners.now) rings.old lengths.old firsts.old result rings.new lengths.new firsts.new }
{
    let mut path = [0u16; Surface::CORNERS];
    let mut places = [0u16; Surface::POINTS];
    list_with(
        corners,
        turns,
        &mut path,
        &mut places,
        rings,
        lengths,
        firsts,
    )
}

// The same with a path and places that are lent, for a caller that knows how long they need be. What is left of the table of turns
// still tells where each half-edge is shared.
pub fn list_with(
    corners: &[u16],
    turns: &mut [u16],
    path: &mut [u16],
    places: &mut [u16],
    rings: &mut [u16],
    lengths: &mut [u16],
    firsts: &mut [u16],
) -> Listed
    requires { Ready corners.now turns.old rings.old lengths.old firsts.old × Lent corners.now path.old places.old }
    ensures lists_loops { ListsLoops corners.now (loops corners.now) rings.old lengths.old firsts.old result rings.new lengths.new firsts.new }
    ensures keeps_turns { KeepsTurns corners.now turns.new }
{
    let mut at = Listed {
        loops: 0,
        vertices: 0,
        path: 0,
    };
    let mut h = 0;
    // no `for`: where h does not lead, it jumps to the next that does
    while h < corners.len() {
        if turns[h] < OPEN {
            h = loop_leaders::next_leader(turns, h, corners.len());
            continue;
        }
        at = list_cycle(corners, h, turns, path, places, rings, lengths, firsts, at);
        h += 1;
    }
    at
}

// The cycle of h is walked, marked and split into loops, and these are listed.
fn list_cycle(
    corners: &[u16],
    h: usize,
    turns: &mut [u16],
    path: &mut [u16],
    places: &mut [u16],
    rings: &mut [u16],
    lengths: &mut [u16],
    firsts: &mut [u16],
    from: Listed,
) -> Listed
    requires { CycleRoom corners.now h (walk turns.old path.old places.old rings.old lengths.old firsts.old) from }
    ensures { CycleListed corners.now h (ledger rings.old lengths.old firsts.old) turns.new result (ledger rings.new lengths.new firsts.new) }
{
    let mut at = from;
    let mut e = h;
    while OPEN <= turns[e] {
        let f = (turns[e] - OPEN) as usize;
        turns[e] = WALKED;
        at = loop_cut::grow(corners, e, f, path, places, rings, lengths, firsts, at);
        e = loop_leaders::turned(turns, f);
    }
    at
}
