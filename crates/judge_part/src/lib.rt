// Judges the part of a set that a loop takes: whether it is no cover of the loop, one with a barred diagonal, or one that is not the
// lightest.
#![tactic(auto)]

ghost use Rattle.base_answers.specs.Answers.{judged};
ghost use Rattle.judge_part.specs.Workings.Parts.{PartRoom, FindsCover, WeightRoom, FindsWeight};

use base_answers::Verdict;
use base_types::Loop;
use cover_bars::Bench;
use judge_match::Match;

// What the part of the set is of the ring, which is stamped and has these bars.
pub fn judge_cover(
    grid: &[i32],
    ring: &[u16],
    part: &[u16],
    l: usize,
    bench: &Bench,
    base: u16,
    table: &mut [f64],
) -> Result<(), Verdict>
    requires { PartRoom grid.now ring.now part.now bench.now.stamps base bench.now.rows table.old }
    ensures { FindsCover grid.now ring.now part.now l bench.now.rows (judged result) }
{
    match judge_match::match_cover(ring, &bench.stamps, base, &bench.rows, part) {
        Match::NoCover => Err(Verdict::Uncovered(l)),
        Match::Barred => Err(Verdict::Barred(l)),
        Match::Allowed => judge_weight(grid, ring, part, l, &bench.rows, table),
    }
}

// Whether an allowed cover of the ring is lighter than this part of the set, which is one.
fn judge_weight(
    grid: &[i32],
    ring: &[u16],
    part: &[u16],
    l: usize,
    rows: &[u64; Loop::LONGEST],
    table: &mut [f64],
) -> Result<(), Verdict>
    requires { WeightRoom grid.now ring.now part.now rows.now table.old }
    ensures { FindsWeight grid.now ring.now part.now l rows.now (judged result) }
{
    let Some(weight) = cover_lay::least(grid, ring, rows, table) else {
        return Ok(());
    };
    if weight < cover_sum::weigh_set(grid, part) {
        return Err(Verdict::Heavy(l));
    }
    Ok(())
}
