// The grid of a surface: the multiple of the pitch to which every word goes.
#![tactic(auto)]

ghost use Rattle.std.specs.Prelude.{◌≡◌, ℕ, ℤ, ◌<◌, ◌≤◌, length, get_or};
ghost use Rattle.base_types.specs.Pitches.{pitch_of};
ghost use Rattle.surface_rules.specs.Buffers.{over};
ghost use Rattle.check_words.specs.Workings.OnGrid.{OnGrid};
ghost use Rattle.survey_grid.specs.Grid.{whole_of, grid_of};

use base_types::Pitch;

// The words' multiples of the pitch are laid over the grid's start. Those of 1 are found without a division.
pub fn lay_grid(words: &[u32], grid: &mut [i32], pitch: Pitch)
    requires { OnGrid (pitch_of pitch) words.now × (length words.now ≤ length grid.old) }
    ensures { grid.new ≡ over (grid_of (pitch_of pitch) words.now) grid.old }
{
    let pace = pitch.units();
    if pace == 1 {
        lay(words, grid, grid_coordinate::nearest);
    } else {
        lay(words, grid, move |word| grid_place::near(word, pace));
    }
}

// What the rule makes of each word is laid over the grid's start: the multiples of the pitch, where that is what it makes of them.
fn lay<F: Fn(u32) -> i32>(words: &[u32], grid: &mut [i32], rule: F)
    requires room { length words.now ≤ length grid.old }
    requires callable { (i : ℕ) → i < length words.now → F.pre rule (get_or words.now i 0) }
    ensures { (pitch : ℕ)
        → ((i : ℕ) (k : ℤ) → i < length words.now → F.post rule (get_or words.now i 0) k → k ≡ whole_of pitch (get_or words.now i 0))
        → grid.new ≡ over (grid_of pitch words.now) grid.old }
{
    for (i, word) in words.iter().enumerate() {
        grid[i] = rule(*word);
    }
}
