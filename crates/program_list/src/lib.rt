// Reads a sheet's text and patches what it says.
#![tactic(auto)]

ghost use Rattle.std.specs.Prelude.{List, ℕ, ◌<◌, ◌≤◌, ℤ, length};
ghost use Rattle.base_limits.specs.Limits.{sheet_text};
ghost use Rattle.text_rules.specs.Room.{ReadInto};
ghost use Rattle.patch_surface.specs.Outcome.{buffers, outcome};
ghost use Rattle.program_lines.specs.Printout.{print_outcome, PrintsOver};
ghost use Rattle.program_list.specs.Lists.{Lists, Prints};
ghost use Rattle.program_list.specs.Workings.TakingUp.{TakesUp, Took, UpRoom};

use base_answers::{Answer, Refusal};
use base_types::{Loop, PatchSet, Surface};
use patch_surface::Patched;
use program_roll::LISTING;

// The sheet that a text says, as it was taken up: how many words and corners it has.
#[derive(Clone, Copy)]
pub struct Taken {
    pub words: usize,
    pub corners: usize,
}

// Patches the sheet that a text says, and leaves what the patcher leaves; or refuses a text at its wrong line, and leaves everything as it
// was.
pub fn list(
    text: &[u8],
    grid: &mut [i32],
    rings: &mut [u16],
    records: &mut [u64],
    patches: &mut [u16],
) -> Result<Patched, Refusal>
    ensures { Lists text.now (buffers grid.old rings.old records.old patches.old)
        (outcome result (buffers grid.new rings.new records.new patches.new)) }
{
    let mut corners = [0u16; Surface::CORNERS];
    let mut turns = [0u16; 2 * Surface::CORNERS];
    let taken = take_up(
        text,
        &mut corners,
        &mut turns,
        grid,
        rings,
        records,
        patches,
    );
    list_taken(taken, &corners, &mut turns, grid, rings, records, patches)
}

// Takes up the sheet that a text says: a wrong line, or the checks of the patcher and the grid. The words are needed no longer than that.
pub fn take_up(
    text: &[u8],
    corners: &mut [u16],
    turns: &mut [u16],
    grid: &mut [i32],
    rings: &[u16],
    records: &[u64],
    patches: &[u16],
) -> Result<Taken, Refusal>
    requires { UpRoom corners.old turns.old }
    ensures takes_up { TakesUp text.now (buffers grid.old rings.now records.now patches.now) result corners.new turns.new grid.new }
    ensures took { Took (buffers grid.old rings.now records.now patches.now) result corners.new turns.new grid.new }
{
    let mut words = [0u32; Surface::WORDS];
    let sheet = text_read::take_in(text, &mut words, corners).map_err(Refusal::Line)?;
    let w = 3 * sheet.points;
    let c = 3 * sheet.triangles;
    patch::check(
        &words[..w],
        &corners[..c],
        turns,
        grid,
        rings,
        records,
        patches,
        sheet.pitch,
    )?;
    Ok(Taken {
        words: w,
        corners: c,
    })
}

// The same for a program's input, or as much of it as its room holds: the first n bytes of the room. The room is longer than the longest
// text, so that a longer one is seen to be longer. It is a function of its own for its contract, which speaks of the whole input.
pub fn take_up_room(
    room: &[u8],
    corners: &mut [u16],
    turns: &mut [u16],
    grid: &mut [i32],
    rings: &[u16],
    records: &[u64],
    patches: &[u16],
    n: usize,
) -> Result<Taken, Refusal>
    requires { (sheet_text < length room.now) × (n ≤ length room.now) × UpRoom corners.old turns.old }
    ensures by_index { (input : List ℕ) → ReadInto room.now n input
        → TakesUp input (buffers grid.old rings.now records.now patches.now) result corners.new turns.new grid.new }
    ensures took { Took (buffers grid.old rings.now records.now patches.now) result corners.new turns.new grid.new }
{
    take_up(&room[..n], corners, turns, grid, rings, records, patches)
}

// Patches a sheet that was taken up, or hands its refusal on.
pub fn list_taken(
    taken: Result<Taken, Refusal>,
    corners: &[u16],
    turns: &mut [u16],
    grid: &[i32],
    rings: &mut [u16],
    records: &mut [u64],
    patches: &mut [u16],
) -> Result<Patched, Refusal>
    requires { ((before : List ℤ) × Took (buffers before rings.old records.old patches.old) taken corners.now turns.old grid.now) × UpRoom corners.now turns.old }
    ensures { (bytes : List ℕ) (before : List ℤ)
        → TakesUp bytes (buffers before rings.old records.old patches.old) taken corners.now turns.old grid.now
        → Lists bytes (buffers before rings.old records.old patches.old) (outcome result (buffers grid.now rings.new records.new patches.new)) }
{
    let sheet = taken?;
    Ok(patch::patch_checked(
        &corners[..sheet.corners],
        turns,
        &grid[..sheet.words],
        rings,
        records,
        patches,
    ))
}

// Prints the listing of the sheet that a text says, or the answer's line, from the start of a buffer; or refuses a buffer that is too short
// for some listing.
pub fn print(text: &[u8], out: &mut [u8]) -> Result<usize, Refusal>
    ensures { PrintsOver LISTING (Prints text.now) out.old (print_outcome result out.new) }
{
    if out.len() < LISTING {
        return Err(Refusal::Buffer(1));
    }
    let mut grid = [0i32; Surface::WORDS];
    let mut rings = [0u16; Surface::CORNERS];
    let mut records = [0u64; Loop::RECORD * Surface::TRIANGLES];
    let mut patches = [0u16; PatchSet::CORNERS];
    let bytes = match list(text, &mut grid, &mut rings, &mut records, &mut patches) {
        Ok(listed) => program_roll::put_all(
            out,
            Answer::Done,
            listed.loops,
            &rings[..listed.vertices],
            &records[..Loop::RECORD * listed.loops],
            &patches[..listed.corners],
        ),
        Err(refusal) => program_lines::put_answer(out, Answer::Refused(refusal)),
    };
    Ok(bytes)
}
