// Judges a patch set: all checks, the grid, the loops, and the verdict on the set.
#![tactic(auto)]

ghost use Rattle.std.specs.Prelude.{◌+◌, ◌^◌, ◌<◌, replicate};
ghost use Rattle.base_types.specs.Pitches.{pitch_of};
ghost use Rattle.survey_rules.specs.Outcome.{buffers};
ghost use Rattle.judge_surface.specs.Outcome.{outcome, Judges};
ghost use Rattle.judge_surface.specs.Workings.Listing.{ListingRoom};

use base_answers::Refusal;
use base_types::{Pitch, Sheet, Surface};
use fill_scratch::FEW;
use judge_answer::Judged;

// Room for few points and corners, and for any surface.
const FEW_TURNS: usize = 2 * FEW;

const TURNS: usize = 2 * Surface::CORNERS;

const POINTS: usize = Surface::POINTS;

const CORNERS: usize = Surface::CORNERS;

const TRIANGLES: usize = Surface::TRIANGLES;

// Judges the set of these declared states and triangles for the surface with these words and corners, on the grid of that pitch: leaves the
// grid, the ring vertices and the ring lengths; or refuses and leaves everything as it was.
pub fn judge(
    words: &[u32],
    corners: &[u16],
    states: &[u16],
    set: &[u16],
    grid: &mut [i32],
    rings: &mut [u16],
    lengths: &mut [u16],
    pitch: u32,
) -> Result<Judged, Refusal>
    ensures { Judges pitch words.now corners.now states.now set.now (buffers grid.old rings.old lengths.old)
        (outcome result (buffers grid.new rings.new lengths.new)) }
{
    let step = Pitch::try_from(pitch)?;
    let sheet = Sheet {
        words,
        corners,
        pitch: step,
    };
    judge_at(sheet, states, set, grid, rings, lengths)
}

// The same at one of the four pitches.
fn judge_at(
    sheet: Sheet,
    states: &[u16],
    set: &[u16],
    grid: &mut [i32],
    rings: &mut [u16],
    lengths: &mut [u16],
) -> Result<Judged, Refusal>
    ensures { Judges (pitch_of sheet.entry.pitch) sheet.entry.words.now sheet.entry.corners.now states.now set.now (buffers grid.old rings.old lengths.old)
        (outcome result (buffers grid.new rings.new lengths.new)) }
{
    check_shape::check_counts(sheet.words.len(), sheet.corners.len())?;
    let surface = Surface::of(sheet.words.len(), sheet.corners.len());
    if surface.points <= FEW && sheet.corners.len() <= FEW {
        return judge_with::<FEW_TURNS, FEW, FEW, FEW>(sheet, states, set, grid, rings, lengths);
    }
    judge_with::<TURNS, POINTS, CORNERS, TRIANGLES>(sheet, states, set, grid, rings, lengths)
}

// With room for so many turns, points, corners and triangles. It is never inlined, so that this room is on the stack only where it is used.
#[inline(never)]
fn judge_with<
    const TURNS: usize,
    const POINTS: usize,
    const CORNERS: usize,
    const TRIANGLES: usize,
>(
    sheet: Sheet,
    states: &[u16],
    set: &[u16],
    grid: &mut [i32],
    rings: &mut [u16],
    lengths: &mut [u16],
) -> Result<Judged, Refusal>
    requires { ListingRoom sheet.words.now sheet.corners.now (replicate TURNS 0) (replicate TURNS 0) (replicate POINTS 0) (replicate CORNERS 0)
        (replicate TRIANGLES 0) (replicate TRIANGLES 0) × (TURNS + POINTS + CORNERS + TRIANGLES < 2 ^ 16) }
    ensures { Judges (pitch_of sheet.entry.pitch) sheet.entry.words.now sheet.entry.corners.now states.now set.now (buffers grid.old rings.old lengths.old)
        (outcome result (buffers grid.new rings.new lengths.new)) }
{
    let mut turns = [0u16; TURNS];
    let mut path = [0u16; TURNS];
    let mut places = [0u16; POINTS];
    let mut found = [0u16; CORNERS];
    let mut sizes = [0u16; TRIANGLES];
    let mut marks = [0u16; TRIANGLES];
    let listed = judge_surface::find_with(
        sheet,
        states,
        &mut turns,
        &mut path,
        &mut places,
        &mut found,
        &mut sizes,
        &mut marks,
        grid,
        rings,
        lengths,
    )?;
    Ok(judge_surface::judge_found(
        sheet.words,
        sheet.corners,
        states,
        set,
        &mut turns,
        &mut path,
        &marks,
        grid,
        rings,
        lengths,
        listed,
    ))
}
