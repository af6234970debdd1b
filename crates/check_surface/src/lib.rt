// The checks of a surface whose counts fit: the lent buffers, the corners and the words, in the scope's order.
#![tactic(auto)]

ghost use Rattle.base_answers.specs.Answers.{said};
ghost use Rattle.base_types.specs.Pitches.{pitch_of};
ghost use Rattle.surface_twins.specs.Workings.Turns.{Room};
ghost use Rattle.check_surface.specs.Workings.Checks.{Fitted, Checked, CornersChecked};

use base_answers::Refusal;
use base_types::{Sheet, Surface};

// Refusals 3 to 8 at that pitch, once 1 and 2 were not given, with a table of turns that is long enough for this surface. Where none is
// given the table is filled.
pub fn check(
    sheet: Sheet,
    lent: &[usize],
    needs: &[usize],
    turns: &mut [u16],
) -> Result<(), Refusal>
    requires { Fitted sheet.words.now sheet.corners.now turns.old }
    ensures { Checked (pitch_of sheet.entry.pitch) sheet.entry.words.now sheet.entry.corners.now lent.now needs.now (said result) turns.new }
{
    check_shape::check_buffers(lent, needs)?;
    let surface = Surface::of(sheet.words.len(), sheet.corners.len());
    check_corners(sheet.corners, surface.points as u16, turns)?;
    check_words::check_words(sheet.words, sheet.pitch)
}

// Refusals 4, 5 and 6. The pairing stops at a triangle that names a point twice as well as at a half-edge that repeats an
// earlier one; 5 is given where there is any such triangle.
fn check_corners(corners: &[u16], points: u16, turns: &mut [u16]) -> Result<(), Refusal>
    requires { Room corners.now turns.old }
    ensures { CornersChecked corners.now points (said result) turns.new }
{
    if let Some(corner) = check_shape::first_unnamed(corners, points) {
        return Err(Refusal::Unnamed(corner));
    }
    let Some(stop) = check_pairs::pair_all(corners, turns) else {
        return Ok(());
    };
    match check_shape::first_twice(corners) {
        Some(triangle) => Err(Refusal::Twice(triangle)),
        None => Err(Refusal::Repeated(stop)),
    }
}
