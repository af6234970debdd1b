// Surveys a surface: all checks, the grid, and the loops.
#![tactic(auto)]

ghost use Rattle.std.specs.Prelude.{◌≡◌};
ghost use Rattle.base_types.specs.Pitches.{pitch_of};
ghost use Rattle.survey_rules.specs.Outcome.{outcome, buffers, survey_of};

use base_answers::Refusal;
use base_types::{Pitch, Sheet, Surface};
use survey_rules::Surveyed;

// Finds the loops of the surface with these words and corners, and leaves at that pitch the grid, the ring vertices and the ring lengths; or
// refuses and leaves everything as it was.
pub fn survey(
    words: &[u32],
    corners: &[u16],
    grid: &mut [i32],
    rings: &mut [u16],
    lengths: &mut [u16],
    pitch: u32,
) -> Result<Surveyed, Refusal>
    ensures { outcome result (buffers grid.new rings.new lengths.new)
        ≡ survey_of pitch words.now corners.now (buffers grid.old rings.old lengths.old) }
{
    let step = Pitch::try_from(pitch)?;
    let sheet = Sheet {
        words,
        corners,
        pitch: step,
    };
    survey_at(sheet, grid, rings, lengths)
}

// The same at one of the four.
fn survey_at(
    sheet: Sheet,
    grid: &mut [i32],
    rings: &mut [u16],
    lengths: &mut [u16],
) -> Result<Surveyed, Refusal>
    ensures { outcome result (buffers grid.new rings.new lengths.new)
        ≡ survey_of (pitch_of sheet.entry.pitch) sheet.entry.words.now sheet.entry.corners.now (buffers grid.old rings.old lengths.old) }
{
    let n = sheet.corners.len();
    check_shape::check_counts(sheet.words.len(), n)?;
    let lent = [grid.len(), rings.len(), lengths.len()];
    let needs = [sheet.words.len(), n, n / 3];
    let mut turns = [0u16; Surface::CORNERS];
    check_surface::check(sheet, &lent, &needs, &mut turns)?;
    let mut firsts = [0u16; Surface::TRIANGLES];
    survey_grid::lay_grid(sheet.words, grid, sheet.pitch);
    let listed = loop_find::list_loops(sheet.corners, &mut turns, rings, lengths, &mut firsts);
    Ok(Surveyed {
        loops: listed.loops,
        vertices: listed.vertices,
    })
}
