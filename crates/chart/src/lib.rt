// Charts a surface: all checks, the grid, the loops as the patcher leaves them, and the report of tide pools and lakes.
#![tactic(auto)]

ghost use Rattle.std.specs.Prelude.{◌≡◌, List, ℕ, ◌*◌, ◌≤◌, length};
ghost use Rattle.base_answers.specs.Answers.{said};
ghost use Rattle.base_types.specs.Pitches.{pitch_of};
ghost use Rattle.base_answers.specs.declared.Answer.TheVariants.{Done};
ghost use Rattle.base_limits.specs.Limits as limits;
ghost use Rattle.surface_rules.specs.Refusals.{count_refusal};
ghost use Rattle.check_surface.specs.Workings.Checks.{Fitted};
ghost use Rattle.patch_surface.specs.Workings.Checking.{GridFirst, ChecksWith};
ghost use Rattle.chart_surface.specs.Outcome.{outcome, buffers, Charts};
ghost use Rattle.patch_records.specs.Workings.Columns.{Columns};
ghost use Rattle.chart_surface.specs.Workings.Charting.{LoopRoom, Roomy, Finishes, ChartsLoops, alone, alone_of};

use base_answers::Refusal;
use base_types::{PatchSet, Pitch, Sheet, Surface};
use chart_surface::Charted;

// Finds the loops of the surface with these words and corners, on the grid of that pitch, and reports for each piece its rim, its tide pools and
// its lakes: leaves the grid, the ring vertices and the records of the loops as the patcher does, and the entries; or refuses and leaves
// everything as it was.
pub fn chart(
    words: &[u32],
    corners: &[u16],
    grid: &mut [i32],
    rings: &mut [u16],
    records: &mut [u64],
    report: &mut [u16],
    pitch: u32,
) -> Result<Charted, Refusal>
    ensures { Charts pitch words.now corners.now (buffers grid.old rings.old records.old report.old)
        (outcome result (buffers grid.new rings.new records.new report.new)) }
{
    let step = Pitch::try_from(pitch)?;
    let sheet = Sheet {
        words,
        corners,
        pitch: step,
    };
    chart_at(sheet, grid, rings, records, report)
}

// The same at one of the four pitches.
fn chart_at(
    sheet: Sheet,
    grid: &mut [i32],
    rings: &mut [u16],
    records: &mut [u64],
    report: &mut [u16],
) -> Result<Charted, Refusal>
    ensures { Charts (pitch_of sheet.entry.pitch) sheet.entry.words.now sheet.entry.corners.now (buffers grid.old rings.old records.old report.old)
        (outcome result (buffers grid.new rings.new records.new report.new)) }
{
    check_shape::check_counts(sheet.words.len(), sheet.corners.len())?;
    chart_fitting(sheet, grid, rings, records, report)
}

// The same where the counts fit.
fn chart_fitting(
    sheet: Sheet,
    grid: &mut [i32],
    rings: &mut [u16],
    records: &mut [u64],
    report: &mut [u16],
) -> Result<Charted, Refusal>
    requires { count_refusal (length sheet.words.now) (length sheet.corners.now) ≡ Done }
    ensures { Charts (pitch_of sheet.entry.pitch) sheet.entry.words.now sheet.entry.corners.now (buffers grid.old rings.old records.old report.old)
        (outcome result (buffers grid.new rings.new records.new report.new)) }
{
    let mut turns = [0u16; 2 * Surface::CORNERS];
    chart_surface::check(sheet, &mut turns, grid, rings, records, report)?;
    Ok(chart_checked(
        sheet.corners,
        &mut turns,
        &grid[..sheet.words.len()],
        rings,
        records,
        report,
    ))
}

// Charts a surface that passed the checks, on its grid, with the table of turns that they filled. It is never inlined, so that a refused sheet
// clears none of this room, and the checks have theirs where it lies.
#[inline(never)]
fn chart_checked(
    corners: &[u16],
    turns: &mut [u16],
    grid: &[i32],
    rings: &mut [u16],
    records: &mut [u64],
    report: &mut [u16],
) -> Charted
    requires room { LoopRoom corners.now turns.old grid.now rings.old report.old × Roomy corners.now rings.old records.old report.old }
    requires turns_long { 2 * limits.corners ≤ length turns.old }
    ensures { Finishes corners.now turns.old grid.now (buffers grid.now rings.old records.old report.old) result
        (buffers grid.now rings.new records.new report.new) }
{
    let mut path = [0u16; 2 * Surface::CORNERS];
    let mut places = [0u16; Surface::POINTS];
    let mut lengths = [0u16; Surface::TRIANGLES];
    let mut states = [0u16; Surface::TRIANGLES];
    let mut firsts = [0u16; Surface::TRIANGLES];
    let mut runs = [0u32; Surface::TRIANGLES];
    let mut patches = [0u16; PatchSet::CORNERS];
    chart_surface::chart_checked(
        corners,
        turns,
        &mut path,
        &mut places,
        &mut lengths,
        &mut states,
        &mut firsts,
        &mut runs,
        &mut patches,
        grid,
        rings,
        records,
        report,
    )
}

// The report alone: no records, so that no loop is patched. There is room for the report of any surface.
pub fn report(
    words: &[u32],
    corners: &[u16],
    report: &mut [u16],
    pitch: u32,
) -> Result<Charted, Refusal>
    requires { 4 * limits.triangles ≤ length report.old }
    ensures { alone result report.new ≡ alone_of pitch words.now corners.now report.old }
{
    let step = Pitch::try_from(pitch)?;
    let sheet = Sheet {
        words,
        corners,
        pitch: step,
    };
    report_at(sheet, report)
}

// The same at one of the four pitches. Not `chart_fitting` by a const parameter: it lends a grid of its own, and takes neither records nor patches.
fn report_at(sheet: Sheet, report: &mut [u16]) -> Result<Charted, Refusal>
    requires { 4 * limits.triangles ≤ length report.old }
    ensures { alone result report.new ≡ alone_of (pitch_of sheet.entry.pitch) sheet.entry.words.now sheet.entry.corners.now report.old }
{
    check_shape::check_counts(sheet.words.len(), sheet.corners.len())?;
    let mut turns = [0u16; Surface::CORNERS];
    let mut grid = [0i32; Surface::WORDS];
    let lent = [grid.len()];
    let needs = [sheet.words.len()];
    check_with(sheet, &lent, &needs, &mut turns, &mut grid)?;
    Ok(report_checked(
        sheet.corners,
        &mut turns,
        &grid[..sheet.words.len()],
        report,
    ))
}

// The checks, which have room of their own, and are never inlined either.
#[inline(never)]
fn check_with(
    sheet: Sheet,
    lent: &[usize],
    needs: &[usize],
    turns: &mut [u16],
    grid: &mut [i32],
) -> Result<(), Refusal>
    requires { Fitted sheet.words.now sheet.corners.now turns.old × GridFirst sheet.words.now lent.now needs.now grid.old }
    ensures { ChecksWith (pitch_of sheet.entry.pitch) sheet.entry.words.now sheet.entry.corners.now lent.now needs.now grid.old (said result) turns.new grid.new }
{
    patch_surface::check_with(sheet, lent, needs, turns, grid)
}

// The report of a surface that passed the checks; never inlined, as `chart_checked`.
#[inline(never)]
fn report_checked(corners: &[u16], turns: &mut [u16], grid: &[i32], report: &mut [u16]) -> Charted
    requires room { (rings : List ℕ) → limits.corners ≤ length rings → LoopRoom corners.now turns.old grid.now rings report.old }
    requires turns_long { limits.corners ≤ length turns.old }
    ensures { (rings : List ℕ) × (rings' : List ℕ) × (columns' : Columns) × ChartsLoops corners.now turns.old grid.now rings report.old result rings' report.new columns' }
{
    let mut path = [0u16; Surface::CORNERS];
    let mut places = [0u16; Surface::POINTS];
    let mut lengths = [0u16; Surface::TRIANGLES];
    let mut states = [0u16; Surface::TRIANGLES];
    let mut firsts = [0u16; Surface::TRIANGLES];
    let mut runs = [0u32; Surface::TRIANGLES];
    let mut rings = [0u16; Surface::CORNERS];
    chart_surface::chart_loops(
        corners,
        turns,
        &mut path,
        &mut places,
        &mut lengths,
        &mut states,
        &mut firsts,
        &mut runs,
        grid,
        &mut rings,
        report,
    )
}
