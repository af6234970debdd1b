// Matches a part of a patch set with a loop: n - 2 triangles in any order, each begun at any corner. The stretches that have a
// triangle are kept as rows of digits; the set is a cover exactly if the whole loop has one, and both parts of each have one or are
// sides.
#![tactic(auto)]

ghost use Rattle.std.specs.Prelude.{◌≡◌, Bool, ◌&&◌, ◌||◌, [], ℕ, ◌^◌, ◌<◌, ◌≤◌, length, get_or};
ghost use Rattle.base_limits.specs.Limits.{points, longest};
ghost use Rattle.surface_rules.specs.Threes.{threes};
ghost use Rattle.cover_bits.specs.Workings.Masks.{bit, Rows};
ghost use Rattle.cover_sum.specs.Workings.Triples.{Threes};
ghost use Rattle.judge_match.specs.Workings.Matching.{Matches};
ghost use Rattle.judge_match.specs.Workings.Rows.{Matchable, SidesFree, Held, Collects, Closes, Clashes};

use base_types::{Loop, Surface};
use cover_bits::{is_set, with};
use judge_seat::seat_at;

// What a patch set is of a loop.
#[derive(Clone, Copy)]
pub enum Match {
    NoCover,
    Barred,
    Allowed,
}

// What the set is of the ring, whose vertices are stamped with their positions over the base, and whose bars stand in rows.
pub fn match_cover(
    ring: &[u16],
    stamps: &[u16; Surface::POINTS],
    base: u16,
    bars: &[u64; Loop::LONGEST],
    set: &[u16],
) -> Match
    requires { Matchable ring.now stamps.now base bars.now set.now }
    ensures { (barred : ℕ → ℕ → Bool) → Rows (length ring.now) barred bars.now → SidesFree (length ring.now) barred
        → Matches ring.now barred (threes set.now) result }
{
    let n = ring.len();
    let mut has = [0u64; Loop::LONGEST];
    sides(n, &mut has);
    if !collect(set, stamps, base, &mut has) {
        return Match::NoCover;
    }
    if !is_set(has[0], n - 1) {
        return Match::NoCover;
    }
    if !closed(set, stamps, base, &has) {
        return Match::NoCover;
    }
    if clash(n, &has, bars) {
        return Match::Barred;
    }
    Match::Allowed
}

// The sides j..j+1 of a loop of n are set in rows that were clear.
fn sides(n: usize, has: &mut [u64; Loop::LONGEST])
    requires { (0 < n) × (n ≤ longest) × (length has.old ≡ longest) × ((j : ℕ) → j < longest → get_or has.old j 0 ≡ 0) }
    ensures { (vertex : ℕ → ℕ) → Held n vertex [] has.new }
{
    for j in 0..n - 1 {
        has[j] = with(0, j + 1);
    }
}

// The stretches of the set's triangles are set too. False: a triangle lies on no stretch.
fn collect(
    set: &[u16],
    stamps: &[u16; Surface::POINTS],
    base: u16,
    has: &mut [u64; Loop::LONGEST],
) -> bool
    requires { Threes set.now × (length stamps.now ≡ points) × (length has.old ≡ longest) }
    ensures { Collects set.now stamps.now base has.old has.new result }
{
    for t in 0..set.len() / 3 {
        let Some(seat) = seat_at(set, 3 * t, stamps, base) else {
            return false;
        };
        has[seat.from] = with(has[seat.from], seat.to);
    }
    true
}

// Whether both parts of every triangle's stretch are set.
fn closed(
    set: &[u16],
    stamps: &[u16; Surface::POINTS],
    base: u16,
    has: &[u64; Loop::LONGEST],
) -> bool
    requires { Threes set.now × (length stamps.now ≡ points) × (length has.now ≡ longest) }
    ensures { Closes set.now stamps.now base has.now result }
{
    for t in 0..set.len() / 3 {
        let Some(seat) = seat_at(set, 3 * t, stamps, base) else {
            return false;
        };
        if !(is_set(has[seat.from], seat.between) & is_set(has[seat.between], seat.to)) {
            return false;
        }
    }
    true
}

// Whether a stretch is set in the rows and in the bars.
fn clash(n: usize, has: &[u64; Loop::LONGEST], bars: &[u64; Loop::LONGEST]) -> bool
    requires { (0 < n) × (n ≤ longest) × (length has.now ≡ longest) × (length bars.now ≡ longest) }
    ensures { Clashes n has.now bars.now result }
{
    let mut both = 0u64;
    for j in 0..n - 1 {
        both = meet(both, has[j], bars[j]);
    }
    0 < both
}

// The digits of `both`, and those that the two rows have in common.
fn meet(both: u64, row: u64, bar: u64) -> u64
    ensures { (result < 2 ^ longest) × ((k : ℕ) → bit result k ≡ (bit both k || (bit row k && bit bar k))) }
{
    both | (row & bar)
}
