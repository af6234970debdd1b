// Patches a surface whose counts fit, with lent scratch: the other checks and the grid; then the loops, what becomes of each, and their
// records.
#![tactic(auto)]

ghost use Rattle.std.specs.Prelude.{◌/◌, length};
ghost use Rattle.base_answers.specs.Answers.{said};
ghost use Rattle.base_types.specs.Pitches.{pitch_of};
ghost use Rattle.check_surface.specs.Workings.Checks.{Fitted};
ghost use Rattle.fill_scratch.specs.Workings.Tray.{EdgeRoom};
ghost use Rattle.patch_surface.specs.Outcome.{buffers};
ghost use Rattle.patch_records.specs.Workings.Columns.{columns};
ghost use Rattle.patch_surface.specs.Workings.Checking.{GridFirst, ChecksWith, Bench, Checks, PatchRoom, Finishes};
ghost use Rattle.patch_surface.specs.Workings.Filling.{FoundLoops, FillRoom, Fills};
ghost use Rattle.patch_surface.specs.Workings.Weighing.{weighing, WeighRoom, Weighs};

use base_answers::Refusal;
use base_types::{Loop, Sheet};

// How many loops there are, how many vertices their rings have, and how many corners were laid.
#[derive(Clone, Copy)]
pub struct Patched {
    pub loops: usize,
    pub vertices: usize,
    pub corners: usize,
}

// Refusals 3 to 8 at that pitch, with a table of turns that is long enough. Where none is given, the table is filled and the grid is laid:
// from then on nobody needs the words.
#[inline(always)]
pub fn check(
    sheet: Sheet,
    turns: &mut [u16],
    grid: &mut [i32],
    rings: &[u16],
    records: &[u64],
    patches: &[u16],
) -> Result<(), Refusal>
    requires { Fitted sheet.words.now sheet.corners.now turns.old }
    ensures { Checks (pitch_of sheet.entry.pitch) sheet.entry.words.now sheet.entry.corners.now (buffers grid.old rings.now records.now patches.now) (said result) turns.new grid.new }
{
    let n = sheet.corners.len();
    let lent = [grid.len(), rings.len(), records.len(), patches.len()];
    let needs = [sheet.words.len(), n, Loop::RECORD * (n / 3), 3 * n];
    check_with(sheet, &lent, &needs, turns, grid)
}

// The same with any list of lent buffers, of which the grid is the first, and how long each need be.
pub fn check_with(
    sheet: Sheet,
    lent: &[usize],
    needs: &[usize],
    turns: &mut [u16],
    grid: &mut [i32],
) -> Result<(), Refusal>
    requires { Fitted sheet.words.now sheet.corners.now turns.old × GridFirst sheet.words.now lent.now needs.now grid.old }
    ensures { ChecksWith (pitch_of sheet.entry.pitch) sheet.entry.words.now sheet.entry.corners.now lent.now needs.now grid.old (said result) turns.new grid.new }
{
    check_surface::check(sheet, lent, needs, turns)?;
    survey_grid::lay_grid(sheet.words, grid, sheet.pitch);
    Ok(())
}

// Patches a surface that passed the checks, on its grid, which ends with the last point: the loops are listed, the rims marked, the course
// run, and the columns of what is known of each loop laid as records. The scratch is long enough; nobody needs the turns and the path once
// the rims are marked, and they become the links and the ends of the chained edges.
pub fn patch_checked(
    corners: &[u16],
    turns: &mut [u16],
    path: &mut [u16],
    places: &mut [u16],
    lengths: &mut [u16],
    states: &mut [u16],
    firsts: &mut [u16],
    runs: &mut [u32],
    grid: &[i32],
    rings: &mut [u16],
    records: &mut [u64],
    patches: &mut [u16],
) -> Patched
    requires patch_room { PatchRoom corners.now turns.old grid.now rings.old records.old patches.old }
    requires bench { Bench (length grid.now / 3) corners.now turns.old path.old places.old lengths.old states.old firsts.old runs.old }
    ensures { Finishes corners.now turns.old grid.now (buffers grid.now rings.old records.old patches.old) result
        (buffers grid.now rings.new records.new patches.new) }
{
    let listed = loop_find::list_with(corners, turns, path, places, rings, lengths, firsts);
    let loops = listed.loops;
    let vertices = listed.vertices;
    rim_mark::mark_all(
        grid,
        corners,
        &rings[..vertices],
        &lengths[..loops],
        firsts,
        turns,
        path,
        places,
        runs,
        states,
    );
    let laid = fill_found(
        grid,
        corners,
        &rings[..vertices],
        &lengths[..loops],
        firsts,
        places,
        runs,
        states,
        records,
        patches,
        turns,
        path,
    );
    Patched {
        loops,
        vertices,
        corners: laid,
    }
}

// What becomes of the loops that were found, listed and marked, and the record of each, laid from its columns. Answers how many corners were laid.
// Nobody needs the turns and the path any more: they become the links and the ends of the chained edges.
pub fn fill_found(
    grid: &[i32],
    corners: &[u16],
    rings: &[u16],
    lengths: &[u16],
    firsts: &[u16],
    pieces: &[u16],
    runs: &[u32],
    states: &mut [u16],
    records: &mut [u64],
    patches: &mut [u16],
    turns: &mut [u16],
    path: &mut [u16],
) -> usize
    requires found_loops { FoundLoops grid.now corners.now rings.now (columns lengths.now states.old firsts.now pieces.now runs.now) }
    requires fill_room { FillRoom corners.now (columns lengths.now states.old firsts.now pieces.now runs.now) records.old patches.old × EdgeRoom corners.now turns.old path.old }
    ensures { Fills grid.now corners.now records.old patches.old result records.new patches.new }
{
    let laid = run_course(
        grid, corners, rings, lengths, states, records, patches, turns, path,
    );
    patch_records::lay(lengths, states, firsts, pieces, runs, records);
    laid
}

// The course over the loops that were found. The weights come to stand in the last seventh of the place of the records, until these are
// laid.
fn run_course(
    grid: &[i32],
    corners: &[u16],
    rings: &[u16],
    lengths: &[u16],
    states: &mut [u16],
    records: &mut [u64],
    patches: &mut [u16],
    links: &mut [u16],
    ends: &mut [u16],
) -> usize
    requires { WeighRoom grid.now corners.now rings.now lengths.now states.old records.old patches.old × EdgeRoom corners.now links.old ends.old }
    ensures { Weighs grid.now corners.now rings.now lengths.now (weighing states.old records.old patches.old) result
        (weighing states.new records.new patches.new) }
{
    let from = (Loop::RECORD - 1) * lengths.len();
    let end = Loop::RECORD * lengths.len();
    patch_all::patch_all(
        grid,
        corners,
        rings,
        lengths,
        states,
        &mut records[from..end],
        patches,
        links,
        ends,
    )
}
