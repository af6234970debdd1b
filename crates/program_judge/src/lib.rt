// Hears a patch set: a wrong line of the sheet's text, a wrong line of the set's, or what the checker answers.
#![tactic(auto)]

ghost use Rattle.std.specs.Prelude.{◌≡◌, ◌+◌, ◌<◌, ◌≤◌, length};
ghost use Rattle.base_limits.specs.Limits as limits;
ghost use Rattle.text_sheet.specs.Sheet.{head};
ghost use Rattle.program_lines.specs.Printout.{print_outcome, PrintsOver};
ghost use Rattle.program_judge.specs.Hears.{Answers, Hears, HearsLine};
ghost use Rattle.program_judge.specs.Workings.Taken.{Few, TakesSet, SheetIn, SetIn, Taken, SetTaken, HearsTaken, Somehow, HearsOf};

use base_answers::{Answer, Refusal};
use base_types::{PatchSet, Surface};
use program_lines::LINE;
use text_read::Intake;
use text_read_set::ReadSet;

// What was taken in: the sheet, or the line of its fault; and the set behind it, or why it was not read.
#[derive(Clone, Copy)]
pub struct Hearing {
    pub sheet: Result<Intake, usize>,
    pub set: Result<ReadSet, Refusal>,
}

// Prints the line of the answer on two texts, a sheet's and a patch set's, from the start of a buffer; or refuses a buffer that is too
// short for some answer's line.
pub fn print(sheet: &[u8], set: &[u8], out: &mut [u8]) -> Result<usize, Refusal>
    ensures { PrintsOver LINE (HearsLine sheet.now set.now) out.old (print_outcome result out.new) }
{
    if out.len() < LINE {
        return Err(Refusal::Buffer(1));
    }
    let answer: Answer = hear_texts(sheet, set);
    let bytes = program_lines::put_answer(out, answer);
    Ok(bytes)
}

// The answer on the two texts.
fn hear_texts(sheet: &[u8], set: &[u8]) -> Answer
    ensures { Hears sheet.now set.now result }
{
    let mut words = [0u32; Surface::WORDS];
    let mut corners = [0u16; Surface::CORNERS];
    let mut states = [0u16; PatchSet::STATES];
    let mut parts = [0u16; PatchSet::CORNERS];
    let intake = text_read::take_in(sheet, &mut words, &mut corners);
    let read = read_behind(set, &mut states, &mut parts, intake);
    hear_taken(
        &words,
        &corners,
        &states,
        &parts,
        Hearing {
            sheet: intake,
            set: read,
        },
    )
}

// Takes in the text of a sheet: a program's input, or as much of it as its room holds, the first n bytes. The room is longer than the longest
// text, so that a longer one is seen to be longer. The sheet's corners may name no point: a wrong line of the set comes first.
pub fn take_sheet(
    room: &[u8],
    words: &mut [u32],
    corners: &mut [u16],
    n: usize,
) -> Result<Intake, usize>
    requires sheet_text_in_bounds { (limits.sheet_text < length room.now) × (n ≤ length room.now) }
    requires full { (limits.words ≤ length words.old) × (limits.corners ≤ length corners.old) }
    ensures { SheetIn room.now n result words.new corners.new }
{
    text_read::take_in(&room[..n], words, corners)
}

// Takes in the text of a set behind a sheet that was taken in, in the same way.
pub fn take_set(
    room: &[u8],
    states: &mut [u16],
    set: &mut [u16],
    n: usize,
    sheet: Result<Intake, usize>,
) -> Hearing
    requires set_text_in_bounds { (limits.set_text < length room.now) × (n ≤ length room.now) }
    requires full { (limits.states ≤ length states.old) × (limits.set_corners ≤ length set.old) }
    requires few { Few sheet }
    ensures { (result.sheet ≡ sheet) × SetIn room.now n result states.new set.new }
{
    let read = read_behind(&room[..n], states, set, sheet);
    Hearing { sheet, set: read }
}

// Reads a set behind a sheet. Its lines are counted on after the sheet's last; behind a wrong line nothing is read.
fn read_behind(
    text: &[u8],
    states: &mut [u16],
    set: &mut [u16],
    sheet: Result<Intake, usize>,
) -> Result<ReadSet, Refusal>
    requires { Few sheet }
    ensures { TakesSet sheet text.now result states.new set.new states.old set.old }
{
    match sheet {
        Ok(intake) => {
            let last = last_line(intake.points, intake.triangles, intake.pitch);
            text_read_set::read_set(text, last, states, set)
        }
        Err(line) => Err(Refusal::Line(line)),
    }
}

// How many lines the text of a sheet has: one for each point and triangle, two of counts, and one of a pitch other than 1.
fn last_line(points: usize, triangles: usize, pitch: u32) -> u16
    requires { (points ≤ limits.points) × (triangles ≤ limits.triangles) }
    ensures { result ≡ length (head pitch) + (points + triangles + 2) }
{
    let lines = (points + triangles + 2) as u16;
    if pitch == 1 {
        return lines;
    }
    1 + lines
}

// The answer on a sheet and a set that were taken in from rooms that are gone by now, so that what they took is free for the judging.
pub fn hear(words: &[u32], corners: &[u16], states: &[u16], set: &[u16], hearing: Hearing) -> Answer
    requires { Taken hearing.sheet words.now corners.now × SetTaken hearing states.now set.now }
    ensures { HearsTaken hearing words.now corners.now states.now set.now result }
{
    hear_taken(words, corners, states, set, hearing)
}

// The same, whatever texts they were taken in from. No `?` hands a refusal on: what is answered may be a verdict, so it is no `Result`.
fn hear_taken(
    words: &[u32],
    corners: &[u16],
    states: &[u16],
    set: &[u16],
    hearing: Hearing,
) -> Answer
    requires { Somehow hearing words.now corners.now states.now set.now }
    ensures { HearsOf hearing words.now corners.now states.now set.now result }
{
    let sheet = match hearing.sheet {
        Ok(sheet) => sheet,
        Err(line) => return Answer::Refused(Refusal::Line(line)),
    };
    let read = match hearing.set {
        Ok(read) => read,
        Err(refusal) => return Answer::Refused(refusal),
    };
    let w = 3 * sheet.points;
    let c = 3 * sheet.triangles;
    judge(
        &words[..w],
        &corners[..c],
        &states[..read.states],
        &set[..read.corners],
        sheet.pitch,
    )
}

// The checker's answer, which no buffer is too short for.
fn judge(words: &[u32], corners: &[u16], states: &[u16], set: &[u16], pitch: u32) -> Answer
    requires { (length words.now ≤ limits.words) × (length corners.now ≤ limits.corners) }
    ensures { Answers pitch words.now corners.now states.now set.now result }
{
    let mut grid = [0i32; Surface::WORDS];
    let mut rings = [0u16; Surface::CORNERS];
    let mut lengths = [0u16; Surface::TRIANGLES];
    let judged = judge::judge(
        words,
        corners,
        states,
        set,
        &mut grid,
        &mut rings,
        &mut lengths,
        pitch,
    );
    match judged {
        Ok(found) => match found.verdict {
            Ok(()) => Answer::Done,
            Err(verdict) => Answer::Failed(verdict),
        },
        Err(refusal) => Answer::Refused(refusal),
    }
}
