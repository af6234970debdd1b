// Reads a sheet text from standard input and prints its loops and their patches, or an answer line.
#![tactic(auto)]

ghost use Rattle.std.specs.Prelude.{◌<◌, length};
ghost use Rattle.base_limits.specs.Limits.{sheet_text};
ghost use Rattle.patch_surface.specs.Outcome.{buffers};
ghost use Rattle.program_lines.specs.Workings.Telling.{inventory};
ghost use Rattle.program_roll.specs.Workings.Listed.{Listed};
ghost use Rattle.program_list.specs.Workings.TakingUp.{Took, UpRoom};
ghost use Rattle.listing.specs.Tasks.{Printable};

use base_answers::{Answer, Refusal};
use base_types::{Loop, PatchSet, Surface};
use patch_surface::Patched;
use program_lines::LINE;
use program_list::Taken;
use std::io::Read;

// A byte more than the longest text has, so that a longer one is seen to be longer. What is printed takes as much room.
const ROOM: usize = Surface::TEXT + 1;

fn main(rt: HostRuntime) {
    let mut input = rt.stdin();
    let mut corners = [0u16; Surface::CORNERS];
    let mut turns = [0u16; 2 * Surface::CORNERS];
    let mut grid = [0i32; Surface::WORDS];
    let mut rings = [0u16; Surface::CORNERS];
    let mut records = [0u64; Loop::RECORD * Surface::TRIANGLES];
    let mut patches = [0u16; PatchSet::CORNERS];
    let taken: Result<Taken, Refusal> = take_up(
        &mut input,
        &mut corners,
        &mut turns,
        &mut grid,
        &rings,
        &records,
        &patches,
    );
    let listed: Result<Patched, Refusal> = program_list::list_taken(
        taken,
        &corners,
        &mut turns,
        &grid,
        &mut rings,
        &mut records,
        &mut patches,
    );
    match listed {
        Ok(patched) => print_listed(&rt, &rings, &records, &patches, patched),
        Err(refusal) => print_refusal(&rt, refusal),
    }
}

// Takes the input up. This is kept apart from `main`, so that the room is gone from the stack when it returns, and the patching begins where
// the room was.
#[inline(never)]
fn take_up<R: Read>(
    input: &mut R,
    corners: &mut [u16],
    turns: &mut [u16],
    grid: &mut [i32],
    rings: &[u16],
    records: &[u64],
    patches: &[u16],
) -> Result<Taken, Refusal>
    requires { UpRoom corners.old turns.old }
    ensures { Took (buffers grid.old rings.now records.now patches.now) result corners.new turns.new grid.new }
{
    let mut room = [0u8; ROOM];
    let (n, _) = program_input::read_full(input, &mut room);
    program_list::take_up_room(&room, corners, turns, grid, rings, records, patches, n)
}

// Prints what can be listed. It is kept apart from `main` too, so that its room lies where that of the input was.
#[inline(never)]
fn print_listed<P: Print>(
    output: &P,
    rings: &[u16],
    records: &[u64],
    patches: &[u16],
    listed: Patched,
)
    requires { Printable listed rings.now records.now patches.now }
{
    let mut room = [0u8; ROOM];
    print(
        output,
        &mut room,
        listed.loops,
        &rings[..listed.vertices],
        &records[..Loop::RECORD * listed.loops],
        &patches[..listed.corners],
    );
}

// Prints the line of a refusal. Nothing is said of a write that fails.
fn print_refusal<P: Print>(output: &P, refusal: Refusal) {
    let mut line = [0u8; LINE];
    let bytes = program_lines::put_answer(&mut line, Answer::Refused(refusal));
    let _ = output.write_all(&line[..bytes]);
}

// Prints that it is done and the loops, section by section. A write that fails is the last, and nothing is said of it.
fn print<P: Print>(
    output: &P,
    room: &mut [u8],
    loops: usize,
    rings: &[u16],
    records: &[u64],
    patches: &[u16],
)
    requires sheet_text_in_bounds { sheet_text < length room.old }
    requires listed { Listed (inventory rings.now records.now patches.now) loops }
{
    let mut progress = program_roll::begin(room, Answer::Done, loops);
    let mut going = true;
    while going {
        progress = program_roll::fill(room, progress, loops, rings, records, patches);
        let n = progress.bytes;
        going = output.write_all(&room[..n]).is_ok() && progress.loops < loops;
        progress.bytes = 0;
    }
}
