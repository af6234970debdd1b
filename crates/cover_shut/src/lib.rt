// Tells by its bars alone that a loop has no allowed cover, a word for all stretches that begin at one position.
#![tactic(auto)]

ghost use Rattle.std.specs.Prelude.{◌≡◌, false, suc, ◌-◌, ◌<◌, ◌≤◌, length};
ghost use Rattle.base_limits.specs.Limits.{longest};
ghost use Rattle.cover_rules.specs.Covers.{NoCover};
ghost use Rattle.cover_shut.specs.Workings.Shut.{told_by, ShutRoom, TellsShut, NoWay, Marked, ColumnRoom};

use base_types::Loop;

// Whether it is certain that the loop of n has no allowed cover. A false promises nothing: the table decides then.
pub fn is_shut(bars: &[u64], n: usize) -> bool
    requires { ShutRoom n bars.now }
    ensures { TellsShut n bars.now result }
{
    // The triangles that all have a position without bars as a corner are an allowed cover, so nothing is to be looked for.
    if bars[..n].contains(&0) {
        return false;
    }
    !may_close(bars, n)
}

// Whether the loop may have an allowed cover. Digit k of the word of i is set where the stretch i..k may have one.
fn may_close(bars: &[u64], n: usize) -> bool
    requires { ShutRoom n bars.now }
    ensures { result ≡ false → NoCover (told_by bars.now) 0 (n - 1) }
{
    let mut words = [0; Loop::LONGEST];
    for k in 1..n {
        mark(bars, k, &mut words);
    }
    cover_bits::is_set(words[0], n - 1)
}

// Marks the stretches that end at k, from the last position before k down, so that those within a stretch come before it.
fn mark(bars: &[u64], k: usize, words: &mut [u64; Loop::LONGEST])
    requires { ColumnRoom bars.now k words.old }
    ensures { Marked bars.now (suc k) words.new }
{
    let mut to = 0;
    for i in (0..k).rev() {
        if may_cover(bars[i], i, k, words[i], to) {
            to = cover_bits::with(to, i);
            words[i] = cover_bits::with(words[i], k);
        }
    }
}

// Whether i..k may have an allowed cover. A side has the empty one; another stretch must not be barred, and needs an apex m for which
// i..m and m..k may have one.
fn may_cover(row: u64, i: usize, k: usize, before: u64, after: u64) -> bool
    requires { (i < k) × (k < longest) }
    ensures { result ≡ false → NoWay row i k before after }
{
    if i + 1 == k {
        return true;
    }
    if cover_bits::is_set(row, k) {
        return false;
    }
    before & after != 0
}
