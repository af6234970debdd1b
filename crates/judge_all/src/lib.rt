// The verdict over all loops, in listed order: the tray is taken only where a loop needs it.
#![tactic(auto)]

ghost use Rattle.std.specs.Prelude.{replicate, ◌*◌, ◌≤◌};
ghost use Rattle.base_answers.specs.Answers.{judged};
ghost use Rattle.cover_column.specs.Workings.Columns.{pairs, nought_float};
ghost use Rattle.fill_scratch.specs.Workings.Tray.{EdgeRoom, Serves};
ghost use Rattle.judge_all_sight.specs.Workings.Gives.{VerdictRoom, Gives};

use base_answers::Verdict;
use cover_column::{PLACES, SHORT, SHORT_PLACES};

// All loops, with a table of so many places, which is long enough for them. It is never inlined, so that a table is on the stack only where
// it is used.
#[inline(never)]
fn verdict_with<const N: usize>(
    grid: &[i32],
    corners: &[u16],
    rings: &[u16],
    lengths: &[u16],
    marks: &[u16],
    states: &[u16],
    set: &[u16],
    links: &mut [u16],
    ends: &mut [u16],
) -> Result<(), Verdict>
    requires { VerdictRoom grid.now corners.now rings.now lengths.now marks.now states.now
        × EdgeRoom corners.now links.old ends.old × Serves lengths.now marks.now (replicate N nought_float) × (N ≤ 4 * pairs) }
    ensures { Gives grid.now corners.now rings.now lengths.now marks.now states.now set.now (judged result) }
{
    let mut table = [0.0; N];
    judge_all_middling::verdict_all(
        grid, corners, rings, lengths, marks, states, set, links, ends, &mut table,
    )
}

// The verdict on the set for all loops, whose rings stand one after the other and whose marks tell the rims.
pub fn verdict(
    grid: &[i32],
    corners: &[u16],
    rings: &[u16],
    lengths: &[u16],
    marks: &[u16],
    states: &[u16],
    set: &[u16],
    links: &mut [u16],
    ends: &mut [u16],
) -> Result<(), Verdict>
    requires { VerdictRoom grid.now corners.now rings.now lengths.now marks.now states.now
        × EdgeRoom corners.now links.old ends.old }
    ensures { Gives grid.now corners.now rings.now lengths.now marks.now states.now set.now (judged result) }
{
    let most = fill_scratch::longest_middling(lengths, marks);
    if most <= 3 {
        return judge_all_sight::verdict_at_sight(rings, lengths, marks, states, set);
    }
    // up to four edges a loop takes no table
    if most <= 4 {
        return verdict_with::<0>(
            grid, corners, rings, lengths, marks, states, set, links, ends,
        );
    }
    if most <= SHORT {
        return verdict_with::<SHORT_PLACES>(
            grid, corners, rings, lengths, marks, states, set, links, ends,
        );
    }
    verdict_with::<PLACES>(
        grid, corners, rings, lengths, marks, states, set, links, ends,
    )
}
