// The verdict over all loops, with one tray for those that need bars and a table.
#![tactic(auto)]

ghost use Rattle.base_answers.specs.Answers.{judged};
ghost use Rattle.fill_scratch.specs.Workings.Tray.{EdgeRoom, Serves};
ghost use Rattle.judge_all_sight.specs.Workings.Gives.{VerdictRoom, Gives};

use base_answers::Verdict;
use base_types::{Loop, State, Surface};
use cover_bars::{Bench, Chains};
use fill_scratch::Tray;
use judge_loop::InHand;

// All loops; of the tray the links and the ends of the edges and the table are lent.
pub fn verdict_all(
    grid: &[i32],
    corners: &[u16],
    rings: &[u16],
    lengths: &[u16],
    rims: &[u16],
    states: &[u16],
    set: &[u16],
    links: &mut [u16],
    ends: &mut [u16],
    table: &mut [f64],
) -> Result<(), Verdict>
    requires { VerdictRoom grid.now corners.now rings.now lengths.now rims.now states.now
        × EdgeRoom corners.now links.old ends.old × Serves lengths.now rims.now table.old }
    ensures { Gives grid.now corners.now rings.now lengths.now rims.now states.now set.now (judged result) }
{
    let mut tray = Tray {
        chains: Chains {
            heads: [0; Surface::POINTS],
            links,
            ends,
        },
        bench: Bench {
            stamps: [0; Surface::POINTS],
            rows: [0; Loop::LONGEST],
        },
        table,
    };
    tray.chains.chain_input(corners);
    let mut r = 0;
    let mut at = 0;
    let mut e = corners.len();
    for l in 0..lengths.len() {
        let end = r + lengths[l] as usize;
        if rims[l] == State::RIM {
            if states[l] != State::RIM {
                return Err(Verdict::Misdeclared(l));
            }
            r = end;
            continue;
        }
        let hand = InHand {
            l,
            state: states[l],
            at,
            edges: e,
            base: (r + 1) as u16,
        };
        e = judge_loop::judge_loop(grid, &rings[r..end], set, &mut tray, hand)?;
        at += judge_sight::taken(end - r, states[l]);
        r = end;
    }
    judge_all_sight::left_over(set, at)
}
