// The course over all loops, in listed order.
#![tactic(auto)]

ghost use Rattle.std.specs.Prelude.{◌≡◌, List, Float, ◌≤◌, length};
ghost use Rattle.fill_scratch.specs.Workings.Rings.{AtSight};
ghost use Rattle.fill_scratch.specs.Workings.Tray.{EdgeRoom, Serves};
ghost use Rattle.patch_all.specs.Workings.Courses.{docket, CourseRoom, CourseDone};

use base_types::{Loop, State, Surface};
use cover_bars::{Bench, Chains};
use cover_column::{PLACES, SHORT, SHORT_PLACES};
use fill_scratch::Tray;
use patch_sight::Spot;

// Loops of up to four edges take no table.
const NO_PLACES: usize = 0;

// Rims, loops of three and long ones only.
fn patch_at_sight(
    grid: &[i32],
    corners: &[u16],
    rings: &[u16],
    lengths: &[u16],
    states: &mut [u16],
    weights: &mut [u64],
    patches: &mut [u16],
) -> usize
    requires { CourseRoom grid.now corners.now rings.now lengths.now (docket states.old weights.old patches.old)
        × AtSight lengths.now states.old }
    ensures { CourseDone grid.now corners.now rings.now lengths.now (docket states.old weights.old patches.old)
        result (docket states.new weights.new patches.new) }
{
    let mut end = 0;
    let mut p = 0;
    for (l, &length) in lengths.iter().enumerate() {
        let r = end;
        end += length as usize;
        if states[l] == State::RIM {
            weights[l] = 0;
            continue;
        }
        if 3 < length {
            states[l] = State::LONG;
            weights[l] = 0;
            continue;
        }
        let done = patch_sight::patch_three(grid, &rings[r..end], patches, p, 0);
        states[l] = done.state;
        weights[l] = done.weight;
        p = done.corners;
    }
    p
}

// All loops, with one tray; of it the links and the ends of the edges and the table are lent.
fn patch_each(
    grid: &[i32],
    corners: &[u16],
    rings: &[u16],
    lengths: &[u16],
    states: &mut [u16],
    weights: &mut [u64],
    patches: &mut [u16],
    links: &mut [u16],
    ends: &mut [u16],
    table: &mut [f64],
) -> usize
    requires { CourseRoom grid.now corners.now rings.now lengths.now (docket states.old weights.old patches.old)
        × EdgeRoom corners.now links.old ends.old × Serves lengths.now states.old table.old }
    ensures { CourseDone grid.now corners.now rings.now lengths.now (docket states.old weights.old patches.old)
        result (docket states.new weights.new patches.new) }
{
    let mut tray = Tray {
        chains: Chains {
            heads: [0; Surface::POINTS],
            links,
            ends,
        },
        bench: Bench {
            stamps: [0; Surface::POINTS],
            rows: [0; Loop::LONGEST],
        },
        table,
    };
    tray.chains.chain_input(corners);
    let mut end = 0;
    let mut p = 0;
    let mut e = corners.len();
    for (l, &length) in lengths.iter().enumerate() {
        let r = end;
        end += length as usize;
        if states[l] == State::RIM {
            weights[l] = 0;
            continue;
        }
        let done = patch_loop::patch_loop(
            grid,
            &rings[r..end],
            &mut tray,
            patches,
            Spot {
                corners: p,
                edges: e,
                base: (r + 1) as u16,
            },
        );
        states[l] = done.state;
        weights[l] = done.weight;
        p = done.corners;
        e = done.edges;
    }
    p
}

// All loops, with a table of so many places. Kept apart, so that a table is on the stack only where it is used.
#[inline(never)]
fn patch_tabled<const TABLE: usize>(
    grid: &[i32],
    corners: &[u16],
    rings: &[u16],
    lengths: &[u16],
    states: &mut [u16],
    weights: &mut [u64],
    patches: &mut [u16],
    links: &mut [u16],
    ends: &mut [u16],
) -> usize
    requires course_room { CourseRoom grid.now corners.now rings.now lengths.now (docket states.old weights.old patches.old) }
    requires edge_room { EdgeRoom corners.now links.old ends.old }
    requires serves { (table : List Float) → length table ≡ TABLE → Serves lengths.now states.old table }
    requires table_in_bounds { TABLE ≤ PLACES }
    ensures { CourseDone grid.now corners.now rings.now lengths.now (docket states.old weights.old patches.old)
        result (docket states.new weights.new patches.new) }
{
    let mut table = [0.0; TABLE];
    patch_each(
        grid, corners, rings, lengths, states, weights, patches, links, ends, &mut table,
    )
}

// States, weights and patches of all loops, whose rings stand one after the other and whose rims are marked among the states; gives
// how many corners were laid.
pub fn patch_all(
    grid: &[i32],
    corners: &[u16],
    rings: &[u16],
    lengths: &[u16],
    states: &mut [u16],
    weights: &mut [u64],
    patches: &mut [u16],
    links: &mut [u16],
    ends: &mut [u16],
) -> usize
    requires { CourseRoom grid.now corners.now rings.now lengths.now (docket states.old weights.old patches.old)
        × EdgeRoom corners.now links.old ends.old }
    ensures { CourseDone grid.now corners.now rings.now lengths.now (docket states.old weights.old patches.old)
        result (docket states.new weights.new patches.new) }
{
    let most = fill_scratch::longest_middling(lengths, states);
    if most <= 3 {
        patch_at_sight(grid, corners, rings, lengths, states, weights, patches)
    } else if most <= 4 {
        patch_tabled::<NO_PLACES>(
            grid, corners, rings, lengths, states, weights, patches, links, ends,
        )
    } else if most <= SHORT {
        patch_tabled::<SHORT_PLACES>(
            grid, corners, rings, lengths, states, weights, patches, links, ends,
        )
    } else {
        patch_tabled::<PLACES>(
            grid, corners, rings, lengths, states, weights, patches, links, ends,
        )
    }
}
