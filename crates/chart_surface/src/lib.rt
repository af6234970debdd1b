// Charts a surface whose counts fit, with lent scratch: the other checks and the grid; then the loops with their rims, the report, and what the
// patcher keeps of each loop.
#![tactic(auto)]

ghost use Rattle.std.specs.Prelude.{◌/◌, length};
ghost use Rattle.base_answers.specs.Answers.{said};
ghost use Rattle.base_types.specs.Pitches.{pitch_of};
ghost use Rattle.check_surface.specs.Workings.Checks.{Fitted};
ghost use Rattle.patch_records.specs.Workings.Columns.{columns};
ghost use Rattle.chart_surface.specs.Outcome.{buffers};
ghost use Rattle.chart_surface.specs.Workings.Charting.{Checks, Roomy, LoopBench, ChartBench, LoopRoom, ChartsLoops, Finishes};

use base_answers::Refusal;
use base_types::{Loop, Sheet};
use chart_rules::Entry;

// How many loops there are, how many vertices their rings have, and how many entries the report has.
#[derive(Clone, Copy)]
pub struct Charted {
    pub loops: usize,
    pub vertices: usize,
    pub entries: usize,
}

// Refusals 3 to 8 at that pitch, with a table of turns that is long enough. Where none is given, the table is filled and the grid is laid.
pub fn check(
    sheet: Sheet,
    turns: &mut [u16],
    grid: &mut [i32],
    rings: &[u16],
    records: &[u64],
    report: &[u16],
) -> Result<(), Refusal>
    requires { Fitted sheet.words.now sheet.corners.now turns.old }
    ensures { Checks (pitch_of sheet.entry.pitch) sheet.entry.words.now sheet.entry.corners.now (buffers grid.old rings.now records.now report.now) (said result) turns.new grid.new }
{
    let n = sheet.corners.len();
    let lent = [grid.len(), rings.len(), records.len(), report.len()];
    let needs = [
        sheet.words.len(),
        n,
        Loop::RECORD * (n / 3),
        2 * Entry::WIDTH * (n / 3),
    ];
    patch_surface::check_with(sheet, &lent, &needs, turns, grid)
}

// Charts a surface that passed the checks, on its grid, which ends with the last point, and leaves of its loops what the patcher leaves. What is
// laid while patching goes into scratch.
pub fn chart_checked(
    corners: &[u16],
    turns: &mut [u16],
    path: &mut [u16],
    places: &mut [u16],
    lengths: &mut [u16],
    states: &mut [u16],
    firsts: &mut [u16],
    runs: &mut [u32],
    patches: &mut [u16],
    grid: &[i32],
    rings: &mut [u16],
    records: &mut [u64],
    report: &mut [u16],
) -> Charted
    requires loop_room { LoopRoom corners.now turns.old grid.now rings.old report.old × Roomy corners.now rings.old records.old report.old }
    requires loop_bench { LoopBench (length grid.now / 3) corners.now turns.old path.old places.old
        (columns lengths.old states.old firsts.old places.old runs.old) × ChartBench corners.now turns.old path.old patches.old }
    ensures { Finishes corners.now turns.old grid.now (buffers grid.now rings.old records.old report.old) result
        (buffers grid.now rings.new records.new report.new) }
{
    let charted = chart_loops(
        corners, turns, path, places, lengths, states, firsts, runs, grid, rings, report,
    );
    let loops = charted.loops;
    let vertices = charted.vertices;
    patch_surface::fill_found(
        grid,
        corners,
        &rings[..vertices],
        &lengths[..loops],
        firsts,
        places,
        runs,
        states,
        records,
        patches,
        turns,
        path,
    );
    charted
}

// The loops are listed, their rims marked, and the report laid.
pub fn chart_loops(
    corners: &[u16],
    turns: &mut [u16],
    path: &mut [u16],
    places: &mut [u16],
    lengths: &mut [u16],
    states: &mut [u16],
    firsts: &mut [u16],
    runs: &mut [u32],
    grid: &[i32],
    rings: &mut [u16],
    report: &mut [u16],
) -> Charted
    requires loop_room { LoopRoom corners.now turns.old grid.now rings.old report.old }
    requires loop_bench { LoopBench (length grid.now / 3) corners.now turns.old path.old places.old
        (columns lengths.old states.old firsts.old places.old runs.old) }
    ensures { ChartsLoops corners.now turns.old grid.now rings.old report.old result rings.new report.new
        (columns lengths.new states.new firsts.new places.new runs.new) }
{
    let listed = loop_find::list_with(corners, turns, path, places, rings, lengths, firsts);
    let loops = listed.loops;
    let vertices = listed.vertices;
    let pieces = rim_mark::mark_counted(
        grid,
        corners,
        &rings[..vertices],
        &lengths[..loops],
        firsts,
        turns,
        path,
        places,
        runs,
        states,
    );
    let entries = chart_lay::lay(
        &rings[..vertices],
        &lengths[..loops],
        states,
        places,
        report,
        pieces,
    );
    Charted {
        loops,
        vertices,
        entries,
    }
}
