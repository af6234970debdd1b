// Checks a surface's words: whether each is a finite number, and near enough for the grid. Each search gives the smallest index.
#![tactic(auto)]

ghost use Rattle.std.specs.Prelude.{◌≡◌, not, length};
ghost use Rattle.std.specs.List.{position};
ghost use Rattle.base_answers.specs.Answers.{said};
ghost use Rattle.base_types.specs.Pitches.{pitch_of};
ghost use Rattle.surface_rules.specs.Smallest.{least, any};
ghost use Rattle.surface_rules.specs.Refusals.{off_grid, word_refusal};
ghost use Rattle.check_words.specs.Workings.Single.{no_number, beyond};

use base_answers::Refusal;
use base_types::Pitch;
use grid_coordinate::Coordinate;

// Refusals 7 and 8: whether every coordinate is on the grid of that pitch. Where all are, one pass over the words tells it.
pub fn check_words(words: &[u32], pitch: Pitch) -> Result<(), Refusal>
    ensures { said result ≡ word_refusal (pitch_of pitch) words.now }
{
    if all_on_grid(words, pitch) {
        return Ok(());
    }
    if let Some(word) = first_not_finite(words) {
        return Err(Refusal::NotFinite(word));
    }
    match first_too_far(words, pitch) {
        Some(word) => Err(Refusal::TooFar(word)),
        None => Ok(()),
    }
}

// The first word that is no finite number.
fn first_not_finite(words: &[u32]) -> Option<usize>
    ensures { result ≡ position no_number words.now }
{
    words.iter().position(|word| is_not_finite(*word))
}

// Whether the word is no finite number.
fn is_not_finite(word: u32) -> bool
    ensures { result ≡ no_number word }
{
    matches!(grid_place::place(word, Pitch::One), Coordinate::NotFinite)
}

// The first word that is too far.
fn first_too_far(words: &[u32], pitch: Pitch) -> Option<usize>
    ensures { result ≡ position (beyond (pitch_of pitch)) words.now }
{
    words.iter().position(|word| is_too_far(*word, pitch))
}

// Whether the word is too far.
fn is_too_far(word: u32, pitch: Pitch) -> bool
    ensures { result ≡ beyond (pitch_of pitch) word }
{
    matches!(grid_place::place(word, pitch), Coordinate::TooFar(_))
}

// Whether every word is on the grid: a pass with no way out, so that several words are taken at a time.
fn all_on_grid(words: &[u32], pitch: Pitch) -> bool
    ensures { result ≡ not (any (least (off_grid (pitch_of pitch) words.now) (length words.now))) }
{
    let end = grid_place::end_of(pitch);
    let mut all = true;
    for word in words {
        all = all & !grid_place::is_off(*word, end);
    }
    all
}
