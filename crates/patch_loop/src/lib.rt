// One loop patched, by how long it is.
#![tactic(auto)]

ghost use Rattle.fill_scratch.specs.Workings.Lent.{trayed, Same};
ghost use Rattle.patch_middling.specs.Workings.Takes.{TakeRoom, Takes};

use base_types::{Loop, State};
use fill_scratch::Tray;
use patch_sight::{Became, Spot};

// The loop with this ring: its patch is laid and its diagonals are chained behind what is there.
pub fn patch_loop(
    grid: &[i32],
    ring: &[u16],
    tray: &mut Tray,
    patches: &mut [u16],
    spot: Spot,
) -> Became
    requires { TakeRoom grid.now ring.now (trayed tray.old) patches.old spot }
    ensures { Same tray.old tray.new × Takes grid.now ring.now (trayed tray.old) patches.old spot result (trayed tray.new) patches.new }
{
    let n = ring.len();
    if n == 3 {
        return patch_sight::patch_three(grid, ring, patches, spot.corners, spot.edges);
    }
    if Loop::of(n).is_long() {
        return patch_sight::unpatched(State::LONG, spot.corners, spot.edges);
    }
    patch_middling::patch_middling(grid, ring, tray, patches, spot)
}
