// Loops that are judged at sight, with neither bars nor the table: long ones and triangles.
#![tactic(auto)]

ghost use Rattle.std.specs.Prelude.{◌≡◌, List, ℕ, ◌<◌, ◌≤◌, length};
ghost use Rattle.base_answers.specs.Answers.{judged};
ghost use Rattle.base_limits.specs.Limits.{corners, longest};
ghost use Rattle.cover_rules.specs.Covers.{on};
ghost use Rattle.judge_rules.specs.Verdicts as verdicts;
ghost use Rattle.judge_sight.specs.Workings.Findings.{SightRoom, FindsAtSight, WoundAgainst};

use base_answers::Verdict;
use base_types::{Loop, State};

// How many corners of the set a loop of n takes: only one that is declared patched takes any.
pub fn taken(n: usize, state: u16) -> usize
    requires { (2 ≤ n) × (n ≤ corners) }
    ensures { (ring : List ℕ) → length ring ≡ n → result ≡ verdicts.taken ring state }
{
    if state == State::PATCHED {
        return 3 * (n - 2);
    }
    0
}

// The loop of three or the long one: neither needs bars or the table.
pub fn judge_at_sight(
    ring: &[u16],
    state: u16,
    set: &[u16],
    at: usize,
    l: usize,
) -> Result<(), Verdict>
    requires { SightRoom ring.now set.now at }
    ensures { FindsAtSight ring.now state set.now at l (judged result) }
{
    if Loop::of(ring.len()).is_long() {
        return judge_long(state, l);
    }
    judge_three(ring, state, set, at, l)
}

fn judge_long(state: u16, l: usize) -> Result<(), Verdict>
    ensures { (ring : List ℕ) → longest < length ring → (set : List ℕ) (at : ℕ) → FindsAtSight ring state set at l (judged result) }
{
    if state == State::LONG {
        return Ok(());
    }
    Err(Verdict::Misdeclared(l))
}

// The loop of three has one cover, and that has no diagonal.
fn judge_three(ring: &[u16], state: u16, set: &[u16], at: usize, l: usize) -> Result<(), Verdict>
    requires { (length ring.now ≡ 3) × (at ≤ length set.now) }
    ensures { FindsAtSight ring.now state set.now at l (judged result) }
{
    if state != State::PATCHED {
        return Err(Verdict::Misdeclared(l));
    }
    if set.len() - at < 3 {
        return Err(Verdict::Uncovered(l));
    }
    if is_against(ring, set[at], set[at + 1], set[at + 2]) {
        return Ok(());
    }
    Err(Verdict::Uncovered(l))
}

// Whether the triangle is the ring of three, wound against it and begun at any corner.
fn is_against(ring: &[u16], a: u16, b: u16, c: u16) -> bool
    requires { length ring.now ≡ 3 }
    ensures { WoundAgainst ring.now (on a b c) result }
{
    let x = ring[0];
    let y = ring[2];
    let z = ring[1];
    // the patcher's own begins so, and then nothing else need be asked
    if (a == x) & (b == y) & (c == z) {
        return true;
    }
    ((a == y) & (b == z) & (c == x)) | ((a == z) & (b == x) & (c == y))
}
