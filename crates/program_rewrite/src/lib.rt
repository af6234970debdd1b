// Reads a sheet text and writes it again, or the line of an answer.
#![tactic(auto)]

ghost use Rattle.std.specs.Prelude.{◌≡◌, ◌<◌, ◌≤◌, length};
ghost use Rattle.base_limits.specs.Limits.{sheet_text};
ghost use Rattle.surface_rules.specs.Buffers.{over};
ghost use Rattle.text_write.specs.Outcome.{writes};
ghost use Rattle.program_lines.specs.Printout.{print_outcome, PrintsOver};
ghost use Rattle.program_rewrite.specs.Rewriting.{printed, Rewrites, RewritesIn};

use base_answers::{Answer, Refusal};
use base_types::Surface;
use program_lines::LINE;

// Prints the sheet that a text says, written again, or the answer's line, from the start of a buffer, and answers how many bytes that has; or
// refuses a buffer that is too short for some sheet.
pub fn print(text: &[u8], out: &mut [u8]) -> Result<usize, Refusal>
    ensures { PrintsOver sheet_text (Rewrites text.now) out.old (print_outcome result out.new) }
{
    if out.len() < Surface::TEXT {
        return Err(Refusal::Buffer(1));
    }
    let mut words = [0u32; Surface::WORDS];
    let mut corners = [0u16; Surface::CORNERS];
    let bytes = match text_read::read(text, &mut words, &mut corners) {
        Ok(read) => write(
            &words[..read.words],
            &corners[..read.corners],
            out,
            read.pitch,
        ),
        Err(refusal) => program_lines::put_answer(out, Answer::Refused(refusal)),
    };
    Ok(bytes)
}

// Puts what is to be printed over the start of the room, the first n bytes of which are the input or as much of it as the room holds, and
// answers how many bytes that has. The room is longer than the longest text, so that a longer one is seen to be longer. The text lies in the
// room that is printed into, so that `print`, which is lent two buffers, cannot call this.
pub fn rewrite(room: &mut [u8], n: usize) -> usize
    requires { (sheet_text < length room.old) × (n ≤ length room.old) }
    ensures { RewritesIn room.old n result room.new }
{
    let mut words = [0u32; Surface::WORDS];
    let mut corners = [0u16; Surface::CORNERS];
    match text_read::read(&room[..n], &mut words, &mut corners) {
        Ok(read) => write(
            &words[..read.words],
            &corners[..read.corners],
            room,
            read.pitch,
        ),
        Err(refusal) => program_lines::put_answer(room, Answer::Refused(refusal)),
    }
}

// Puts the text of words and corners at that pitch into the room, or the answer that refuses them.
fn write(words: &[u32], corners: &[u16], room: &mut [u8], pitch: u32) -> usize
    requires { LINE ≤ length room.old }
    ensures { (room.new ≡ over (printed (writes pitch words.now corners.now room.old)) room.old)
        × (result ≡ length (printed (writes pitch words.now corners.now room.old))) }
{
    match text_write::write(words, corners, room, pitch) {
        Ok(bytes) => bytes,
        Err(refusal) => program_lines::put_answer(room, Answer::Refused(refusal)),
    }
}
