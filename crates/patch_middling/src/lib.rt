// Patches a middling loop: one of more than three edges that is not long.
#![tactic(auto)]

ghost use Rattle.std.specs.Prelude.{◌<◌, ◌≤◌, length};
ghost use Rattle.base_limits.specs.Limits.{longest};
ghost use Rattle.fill_scratch.specs.Workings.Lent.{trayed, Same};
ghost use Rattle.patch_middling.specs.Workings.Takes.{TakeRoom, Takes};

use base_types::State;
use fill_scratch::Tray;
use patch_sight::{Became, Spot};

// A loop of more than three edges that is not long.
pub fn patch_middling(
    grid: &[i32],
    ring: &[u16],
    tray: &mut Tray,
    patches: &mut [u16],
    spot: Spot,
) -> Became
    requires { TakeRoom grid.now ring.now (trayed tray.old) patches.old spot
        × (length ring.now ≤ longest) × (3 < length ring.now) }
    ensures { Same tray.old tray.new × Takes grid.now ring.now (trayed tray.old) patches.old spot result (trayed tray.new) patches.new }
{
    let p = spot.corners;
    let e = spot.edges;
    tray.bench.bars_of(ring, &tray.chains, spot.base);
    let Some(weight) = cover_lay::lay_patch(grid, ring, &tray.bench.rows, tray.table, patches, p)
    else {
        return patch_sight::unpatched(State::OPEN, p, e);
    };
    let end = p + 3 * (ring.len() - 2);
    let edges = tray.chains.chain_laid(patches, p, end, e);
    Became {
        state: State::PATCHED,
        weight,
        corners: end,
        edges,
    }
}
