// Reads a sheet text from standard input and a patch set from the file `patches`, judges the set, and prints the answer line.
#![tactic(auto)]

ghost use Rattle.std.specs.Prelude.{◌≡◌, ◌≤◌, length};
ghost use Rattle.base_limits.specs.Limits as limits;
ghost use Rattle.program_judge.specs.Workings.Taken.{Few, Taken, SetTaken};

use base_answers::Answer;
use base_types::{PatchSet, Surface};
use program_judge::Hearing;
use program_lines::LINE;
use std::fs::File;
use std::io::Stdin;
use text_read::Intake;

// A byte more than the longest text of a set has, so that a longer one is seen to be longer; a sheet's text is shorter.
const ROOM: usize = PatchSet::TEXT + 1;

// Nothing is said of a write that fails.
fn main(rt: HostRuntime) {
    let mut words = [0u32; Surface::WORDS];
    let mut corners = [0u16; Surface::CORNERS];
    let mut states = [0u16; PatchSet::STATES];
    let mut set = [0u16; PatchSet::CORNERS];
    let sheet: Result<Intake, usize> = take_sheet(rt.stdin(), &mut words, &mut corners);
    let file = File::open(&rt, "patches").ok();
    let hearing: Hearing = take_set(file, &mut states, &mut set, sheet);
    let answer: Answer = program_judge::hear(&words, &corners, &states, &set, hearing);
    let mut line = [0u8; LINE];
    let bytes = program_lines::put_answer(&mut line, answer);
    let _ = rt.write_all(&line[..bytes]);
}

// Takes in the sheet's text. It is kept apart from `main`, so that the room is gone from the stack when this returns, and the judging begins
// where the room was.
#[inline(never)]
fn take_sheet(mut input: Stdin, words: &mut [u32], corners: &mut [u16]) -> Result<Intake, usize>
    requires { (limits.words ≤ length words.old) × (limits.corners ≤ length corners.old) }
    ensures { Taken result words.new corners.new }
{
    let mut room = [0u8; ROOM];
    let (n, _) = program_input::read_full(&mut input, &mut room);
    program_judge::take_sheet(&room, words, corners, n)
}

// Takes in the set's text, which counts as empty where there is no file; kept apart as the other.
#[inline(never)]
fn take_set(
    file: Option<File>,
    states: &mut [u16],
    set: &mut [u16],
    sheet: Result<Intake, usize>,
) -> Hearing
    requires full { (limits.states ≤ length states.old) × (limits.set_corners ≤ length set.old) }
    requires few { Few sheet }
    ensures { (result.sheet ≡ sheet) × SetTaken result states.new set.new }
{
    let mut room = [0u8; ROOM];
    let n = match file {
        Some(mut patches) => {
            let (n, _) = program_input::read_full(&mut patches, &mut room);
            n
        }
        None => 0,
    };
    program_judge::take_set(&room, states, set, n, sheet)
}
