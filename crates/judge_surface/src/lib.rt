// Judges a patch set of a surface whose counts fit, with lent scratch: the other checks, the grid, the loops, the rims, and the
// verdict on the set.
#![tactic(auto)]

ghost use Rattle.std.specs.Prelude.{ℕ, Ok};
ghost use Rattle.base_types.specs.Pitches.{pitch_of};
ghost use Rattle.survey_rules.specs.Outcome.{Buffers, buffers};
ghost use Rattle.judge_surface.specs.Outcome.{outcome, Judges};
ghost use Rattle.judge_surface.specs.Workings.Listing.{ListingRoom};
ghost use Rattle.judge_surface.specs.Workings.Finding.{Ready, Finds};

use base_answers::Refusal;
use base_types::Sheet;
use judge_answer::Judged;
use survey_rules::Surveyed;

// Refusals 3 to 9 at that pitch, or what the verdict is taken on: the grid, the loops and the rims. The loops are listed apart from the
// lent buffers first, in room that is long enough. The verdict is another function's, which the caller calls: what this one needs on the
// stack is gone when that begins.
pub fn find_with(
    sheet: Sheet,
    states: &[u16],
    turns: &mut [u16],
    path: &mut [u16],
    places: &mut [u16],
    found: &mut [u16],
    sizes: &mut [u16],
    marks: &mut [u16],
    grid: &mut [i32],
    rings: &mut [u16],
    lengths: &mut [u16],
) -> Result<Surveyed, Refusal>
    requires { ListingRoom sheet.words.now sheet.corners.now turns.old path.old places.old found.old sizes.old marks.old }
    ensures { Finds (pitch_of sheet.entry.pitch) sheet.entry.words.now sheet.entry.corners.now states.now (buffers grid.old rings.old lengths.old) result
        (buffers grid.new rings.new lengths.new) marks.new turns.new path.new }
{
    let corners = sheet.corners;
    let n = corners.len();
    let lent = [grid.len(), rings.len(), lengths.len()];
    let needs = [sheet.words.len(), n, n / 3];
    check_surface::check(sheet, &lent, &needs, turns)?;
    // the first half-edges stand where the rims are marked
    let listed = loop_find::list_with(corners, turns, path, places, found, sizes, marks);
    if listed.loops != states.len() {
        return Err(Refusal::States(listed.loops));
    }
    let loops = listed.loops;
    let vertices = listed.vertices;
    survey_grid::lay_grid(sheet.words, grid, sheet.pitch);
    judge_answer::lay_front(found, vertices, rings);
    judge_answer::lay_front(sizes, loops, lengths);
    rim_mark::mark(
        &grid[..sheet.words.len()],
        corners,
        &rings[..vertices],
        &lengths[..loops],
        turns,
        path,
        places,
        marks,
    );
    Ok(Surveyed { loops, vertices })
}

// The verdict on what was found. The turns and the path are free, and become the links and the ends of the chained edges.
pub fn judge_found(
    words: &[u32],
    corners: &[u16],
    states: &[u16],
    set: &[u16],
    turns: &mut [u16],
    path: &mut [u16],
    marks: &[u16],
    grid: &[i32],
    rings: &[u16],
    lengths: &[u16],
    listed: Surveyed,
) -> Judged
    requires { (pitch : ℕ) × (b : Buffers) × Ready pitch words.now corners.now states.now b listed
        (buffers grid.now rings.now lengths.now) marks.now turns.old path.old }
    ensures { (pitch : ℕ) (b : Buffers) → Ready pitch words.now corners.now states.now b listed
        (buffers grid.now rings.now lengths.now) marks.now turns.old path.old
        → Judges pitch words.now corners.now states.now set.now b (outcome (Ok result) (buffers grid.now rings.now lengths.now)) }
{
    let verdict = judge_all::verdict(
        &grid[..words.len()],
        corners,
        &rings[..listed.vertices],
        &lengths[..listed.loops],
        marks,
        states,
        set,
        turns,
        path,
    );
    Judged {
        verdict,
        loops: listed.loops,
        vertices: listed.vertices,
    }
}
