// Reads a sheet's text, charts what it says, and prints the report.
#![tactic(auto)]

ghost use Rattle.std.specs.Prelude.{◌≡◌, false, ◌*◌, ◌<◌, ◌≤◌, length};
ghost use Rattle.base_answers.specs.Numbers.{refusing};
ghost use Rattle.base_limits.specs.Limits as limits;
ghost use Rattle.surface_rules.specs.Buffers.{over};
ghost use Rattle.chart_surface.specs.Workings.Charting.{alone};
ghost use Rattle.program_lines.specs.Printout.{print_outcome, PrintsOver};
ghost use Rattle.program_chart.specs.Charting.{Prints, PrintsIn};
ghost use Rattle.program_chart.specs.Workings.Put.{put_alone};
ghost use Rattle.program_chart.specs.Workings.TextCharted.{ChartsText};

use base_answers::{Answer, Refusal};
use base_types::Surface;
use chart_rules::Entry;
use chart_surface::Charted;
use program_lines::LINE;

// How many bytes the line of an entry has at most, and the longest report: a piece and a loop for each triangle.
const ENTRY_LINE: usize = 13;

pub const REPORT: usize = 2 * LINE + ENTRY_LINE * 2 * Surface::TRIANGLES;

// Prints the report of the sheet that a text says, or the answer's line, from the start of a buffer, and answers how many bytes that has; or
// refuses a buffer that is too short for some report.
pub fn print(text: &[u8], out: &mut [u8]) -> Result<usize, Refusal>
    ensures { PrintsOver REPORT (Prints text.now) out.old (print_outcome result out.new) }
{
    if out.len() < REPORT {
        return Err(Refusal::Buffer(1));
    }
    let mut report = [0u16; 2 * Entry::WIDTH * Surface::TRIANGLES];
    let charted = chart_text(text, &mut report);
    let bytes = put_report(out, &report, charted);
    Ok(bytes)
}

// Puts what is to be printed over the start of the room, the first n bytes of which are the input or as much of it as the room holds, and
// answers how many bytes that has. The room is longer than the longest text, so that a longer one is seen to be longer.
pub fn print_room(room: &mut [u8], n: usize) -> usize
    requires { (limits.sheet_text < length room.old) × (n ≤ length room.old) }
    ensures { PrintsIn room.old n result room.new }
{
    let mut report = [0u16; 2 * Entry::WIDTH * Surface::TRIANGLES];
    let charted = chart_text(&room[..n], &mut report);
    put_report(room, &report, charted)
}

// Charts the sheet that a text says, or refuses a text at its wrong line.
fn chart_text(text: &[u8], report: &mut [u16]) -> Result<Charted, Refusal>
    requires { 4 * limits.triangles ≤ length report.old }
    ensures { ChartsText text.now report.old (alone result report.new) }
{
    let mut words = [0u32; Surface::WORDS];
    let mut corners = [0u16; Surface::CORNERS];
    let sheet = text_read::take_in(text, &mut words, &mut corners).map_err(Refusal::Line)?;
    chart::report(
        &words[..3 * sheet.points],
        &corners[..3 * sheet.triangles],
        report,
        sheet.pitch,
    )
}

// Puts the line of a refusal, or the answer's line, the count of the entries and a line for each.
fn put_report(out: &mut [u8], report: &[u16], charted: Result<Charted, Refusal>) -> usize
    requires in_bounds { LINE ≤ length out.old }
    requires entries_in_bounds { refusing (alone charted report.now).answer ≡ false → length (put_alone (alone charted report.now)) ≤ length out.old }
    ensures { (out.new ≡ over (put_alone (alone charted report.now)) out.old) × (result ≡ length (put_alone (alone charted report.now))) }
{
    let entries = match charted {
        Ok(found) => found.entries,
        Err(refusal) => return program_lines::put_answer(out, Answer::Refused(refusal)),
    };
    let at = program_lines::put_answer(out, Answer::Done);
    let mut place = program_lines::put_line(out, at, b"entries=", &[entries as u64]);
    for i in 0..entries {
        let entry = chart_rules::entry_at(report, i);
        let numbers = [entry.kind as u64, entry.number as u64];
        place = program_lines::put_line(out, place, b"entry=", &numbers);
    }
    place
}
