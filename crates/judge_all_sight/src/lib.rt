// The verdict over loops that are all judged at sight: rims, triangles and long ones.
#![tactic(auto)]

ghost use Rattle.std.specs.Prelude.{◌≡◌, ◌≤◌, length, drop};
ghost use Rattle.base_answers.specs.Answers.{judged};
ghost use Rattle.judge_rules.specs.Verdicts.{left_over};
ghost use Rattle.judge_all_sight.specs.Workings.Gives.{SightVerdictRoom, GivesAtSight};

use base_answers::Verdict;
use base_types::State;

// Corners left after the last loop, where the set was taken up to `at`.
pub fn left_over(set: &[u16], at: usize) -> Result<(), Verdict>
    requires { at ≤ length set.now }
    ensures { judged result ≡ left_over at (drop at set.now) }
{
    if at < set.len() {
        return Err(Verdict::LeftOver(at));
    }
    Ok(())
}

// Rims, loops of three and long ones only.
pub fn verdict_at_sight(
    rings: &[u16],
    lengths: &[u16],
    marks: &[u16],
    states: &[u16],
    set: &[u16],
) -> Result<(), Verdict>
    requires { SightVerdictRoom rings.now lengths.now marks.now states.now }
    ensures { GivesAtSight rings.now lengths.now marks.now states.now set.now (judged result) }
{
    let mut r = 0;
    let mut at = 0;
    for l in 0..lengths.len() {
        let end = r + lengths[l] as usize;
        if marks[l] == State::RIM {
            if states[l] != State::RIM {
                return Err(Verdict::Misdeclared(l));
            }
            r = end;
            continue;
        }
        judge_sight::judge_at_sight(&rings[r..end], states[l], set, at, l)?;
        at += judge_sight::taken(end - r, states[l]);
        r = end;
    }
    left_over(set, at)
}
