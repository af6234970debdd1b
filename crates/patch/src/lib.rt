// Patches a surface: all checks, the grid, the loops, and what becomes of each.
#![tactic(auto)]

ghost use Rattle.std.specs.Prelude.{◌≡◌, ◌*◌, ◌/◌, ◌≤◌, length};
ghost use Rattle.base_answers.specs.Answers.{said};
ghost use Rattle.base_types.specs.Pitches.{pitch_of};
ghost use Rattle.base_answers.specs.declared.Answer.TheVariants.{Done};
ghost use Rattle.base_limits.specs.Limits as limits;
ghost use Rattle.surface_rules.specs.Refusals.{count_refusal};
ghost use Rattle.fill_scratch.specs.Workings.Scratch.{few};
ghost use Rattle.patch_surface.specs.Outcome.{outcome, buffers, Patches};
ghost use Rattle.patch_surface.specs.Workings.Checking.{Checks, PatchRoom, Finishes};

use base_answers::Refusal;
use base_types::{Pitch, Sheet, Surface};
use fill_scratch::FEW;
use patch_surface::Patched;

// Finds the loops of the surface with these words and corners and patches them, on the grid of that pitch: leaves the grid, the ring
// vertices, the records of the loops and the patch corners; or refuses and leaves everything as it was.
pub fn patch(
    words: &[u32],
    corners: &[u16],
    grid: &mut [i32],
    rings: &mut [u16],
    records: &mut [u64],
    patches: &mut [u16],
    pitch: u32,
) -> Result<Patched, Refusal>
    ensures { Patches pitch words.now corners.now (buffers grid.old rings.old records.old patches.old)
        (outcome result (buffers grid.new rings.new records.new patches.new)) }
{
    let step = Pitch::try_from(pitch)?;
    let sheet = Sheet {
        words,
        corners,
        pitch: step,
    };
    patch_at(sheet, grid, rings, records, patches)
}

// The same at one of the four pitches.
fn patch_at(
    sheet: Sheet,
    grid: &mut [i32],
    rings: &mut [u16],
    records: &mut [u64],
    patches: &mut [u16],
) -> Result<Patched, Refusal>
    ensures { Patches (pitch_of sheet.entry.pitch) sheet.entry.words.now sheet.entry.corners.now (buffers grid.old rings.old records.old patches.old)
        (outcome result (buffers grid.new rings.new records.new patches.new)) }
{
    check_shape::check_counts(sheet.words.len(), sheet.corners.len())?;
    let surface = Surface::of(sheet.words.len(), sheet.corners.len());
    if surface.points <= FEW && sheet.corners.len() <= FEW {
        return patch_few(sheet, grid, rings, records, patches);
    }
    patch_many(sheet, grid, rings, records, patches)
}

// Few points and corners. Not one function with `patch_many`, by const parameters: it would take three, ask of each that it be large enough, and have
// no use for `patch_checked`, which others call.
fn patch_few(
    sheet: Sheet,
    grid: &mut [i32],
    rings: &mut [u16],
    records: &mut [u64],
    patches: &mut [u16],
) -> Result<Patched, Refusal>
    requires { (count_refusal (length sheet.words.now) (length sheet.corners.now) ≡ Done) × (length sheet.words.now / 3 ≤ few) × (length sheet.corners.now ≤ few) }
    ensures { Patches (pitch_of sheet.entry.pitch) sheet.entry.words.now sheet.entry.corners.now (buffers grid.old rings.old records.old patches.old)
        (outcome result (buffers grid.new rings.new records.new patches.new)) }
{
    let mut turns = [0u16; 2 * FEW];
    patch_surface::check(sheet, &mut turns, grid, rings, records, patches)?;
    let mut path = [0u16; 2 * FEW];
    let mut places = [0u16; FEW];
    let mut lengths = [0u16; FEW];
    let mut states = [0u16; FEW];
    let mut firsts = [0u16; FEW];
    let mut runs = [0u32; FEW];
    Ok(patch_surface::patch_checked(
        sheet.corners,
        &mut turns,
        &mut path,
        &mut places,
        &mut lengths,
        &mut states,
        &mut firsts,
        &mut runs,
        &grid[..sheet.words.len()],
        rings,
        records,
        patches,
    ))
}

// Any number of them.
fn patch_many(
    sheet: Sheet,
    grid: &mut [i32],
    rings: &mut [u16],
    records: &mut [u64],
    patches: &mut [u16],
) -> Result<Patched, Refusal>
    requires { count_refusal (length sheet.words.now) (length sheet.corners.now) ≡ Done }
    ensures { Patches (pitch_of sheet.entry.pitch) sheet.entry.words.now sheet.entry.corners.now (buffers grid.old rings.old records.old patches.old)
        (outcome result (buffers grid.new rings.new records.new patches.new)) }
{
    let mut turns = [0u16; 2 * Surface::CORNERS];
    patch_surface::check(sheet, &mut turns, grid, rings, records, patches)?;
    Ok(patch_checked(
        sheet.corners,
        &mut turns,
        &grid[..sheet.words.len()],
        rings,
        records,
        patches,
    ))
}

// Patches a surface of any size that passed the checks, on its grid, with the table of turns that they filled.
pub fn patch_checked(
    corners: &[u16],
    turns: &mut [u16],
    grid: &[i32],
    rings: &mut [u16],
    records: &mut [u64],
    patches: &mut [u16],
) -> Patched
    requires { PatchRoom corners.now turns.old grid.now rings.old records.old patches.old × (2 * limits.corners ≤ length turns.old) }
    ensures { Finishes corners.now turns.old grid.now (buffers grid.now rings.old records.old patches.old) result
        (buffers grid.now rings.new records.new patches.new) }
{
    let mut path = [0u16; 2 * Surface::CORNERS];
    let mut places = [0u16; Surface::POINTS];
    let mut lengths = [0u16; Surface::TRIANGLES];
    let mut states = [0u16; Surface::TRIANGLES];
    let mut firsts = [0u16; Surface::TRIANGLES];
    let mut runs = [0u32; Surface::TRIANGLES];
    patch_surface::patch_checked(
        corners,
        turns,
        &mut path,
        &mut places,
        &mut lengths,
        &mut states,
        &mut firsts,
        &mut runs,
        grid,
        rings,
        records,
        patches,
    )
}

// All checks of the patcher, with a table of turns that is long enough for any surface. Where none refuses, the table is filled and the grid is
// laid: from then on nobody needs the words.
pub fn check(
    words: &[u32],
    corners: &[u16],
    turns: &mut [u16],
    grid: &mut [i32],
    rings: &[u16],
    records: &[u64],
    patches: &[u16],
    pitch: u32,
) -> Result<(), Refusal>
    requires { limits.corners ≤ length turns.old }
    ensures { Checks pitch words.now corners.now (buffers grid.old rings.now records.now patches.now) (said result) turns.new grid.new }
{
    let step = Pitch::try_from(pitch)?;
    let sheet = Sheet {
        words,
        corners,
        pitch: step,
    };
    check_at(sheet, turns, grid, rings, records, patches)
}

// The same at one of the four pitches.
fn check_at(
    sheet: Sheet,
    turns: &mut [u16],
    grid: &mut [i32],
    rings: &[u16],
    records: &[u64],
    patches: &[u16],
) -> Result<(), Refusal>
    requires { limits.corners ≤ length turns.old }
    ensures { Checks (pitch_of sheet.entry.pitch) sheet.entry.words.now sheet.entry.corners.now (buffers grid.old rings.now records.now patches.now) (said result) turns.new grid.new }
{
    check_shape::check_counts(sheet.words.len(), sheet.corners.len())?;
    patch_surface::check(sheet, turns, grid, rings, records, patches)
}
