// One loop judged, whichever it is.
#![tactic(auto)]

ghost use Rattle.std.specs.Prelude.{◌≡◌, ◌≤◌, length};
ghost use Rattle.judge_rules.specs.Faults.{share};
ghost use Rattle.fill_scratch.specs.Workings.Lent.{trayed, Same};
ghost use Rattle.judge_loop.specs.Workings.Judging.{JudgeRoom, ShortRoom, FindsOpen, FindsPatched, FindsLoop};

use base_answers::Verdict;
use base_types::{Loop, State};
use fill_scratch::Tray;

// The loop in hand: which one it is, how it is declared, how much of the set is taken before it, how many edges are chained, and what
// its stamps begin at.
#[derive(Clone, Copy)]
pub struct InHand {
    pub l: usize,
    pub state: u16,
    pub at: usize,
    pub edges: usize,
    pub base: u16,
}

// A loop of more than three edges that is not long, declared open.
fn judge_open(grid: &[i32], ring: &[u16], tray: &mut Tray, hand: InHand) -> Result<(), Verdict>
    requires { ShortRoom grid.now ring.now hand (trayed tray.old) }
    ensures { Same tray.old tray.new × FindsOpen grid.now ring.now hand (trayed tray.old) result (trayed tray.new) }
{
    tray.bench.bars_of(ring, &tray.chains, hand.base);
    match cover_lay::least(grid, ring, &tray.bench.rows, tray.table) {
        None => Ok(()),
        Some(_) => Err(Verdict::Misdeclared(hand.l)),
    }
}

// A loop of more than three edges that is not long, declared patched by this part of the set: how many edges are chained after it.
fn judge_patched(
    grid: &[i32],
    ring: &[u16],
    part: &[u16],
    tray: &mut Tray,
    hand: InHand,
) -> Result<usize, Verdict>
    requires { ShortRoom grid.now ring.now hand (trayed tray.old)
        × (length part.now ≡ share ring.now) }
    ensures { Same tray.old tray.new × FindsPatched grid.now ring.now part.now hand (trayed tray.old) result (trayed tray.new) }
{
    tray.bench.bars_of(ring, &tray.chains, hand.base);
    judge_part::judge_cover(grid, ring, part, hand.l, &tray.bench, hand.base, tray.table)?;
    Ok(judge_chain::chain_cover(
        ring,
        &tray.bench.stamps,
        hand.base,
        part,
        &mut tray.chains,
        hand.edges,
    ))
}

// A loop of more than three edges that is not long: how many edges are chained after it.
fn judge_middling(
    grid: &[i32],
    ring: &[u16],
    set: &[u16],
    tray: &mut Tray,
    hand: InHand,
) -> Result<usize, Verdict>
    requires { ShortRoom grid.now ring.now hand (trayed tray.old)
        × (hand.at ≤ length set.now) }
    ensures { Same tray.old tray.new × FindsLoop grid.now ring.now set.now hand (trayed tray.old) result (trayed tray.new) }
{
    let at = hand.at;
    if hand.state == State::OPEN {
        judge_open(grid, ring, tray, hand)?;
        return Ok(hand.edges);
    }
    if hand.state != State::PATCHED {
        return Err(Verdict::Misdeclared(hand.l));
    }
    let many = 3 * (ring.len() - 2);
    if set.len() - at < many {
        return Err(Verdict::Uncovered(hand.l));
    }
    judge_patched(grid, ring, &set[at..at + many], tray, hand)
}

// The loop in hand, with this ring: its verdict, or how many edges are chained after it.
pub fn judge_loop(
    grid: &[i32],
    ring: &[u16],
    set: &[u16],
    tray: &mut Tray,
    hand: InHand,
) -> Result<usize, Verdict>
    requires { JudgeRoom grid.now ring.now hand (trayed tray.old)
        × (hand.at ≤ length set.now) }
    ensures { Same tray.old tray.new × FindsLoop grid.now ring.now set.now hand (trayed tray.old) result (trayed tray.new) }
{
    let n = ring.len();
    if n == 3 || Loop::of(n).is_long() {
        judge_sight::judge_at_sight(ring, hand.state, set, hand.at, hand.l)?;
        return Ok(hand.edges);
    }
    judge_middling(grid, ring, set, tray, hand)
}
