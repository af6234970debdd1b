// Reads a file of facets and prints the text of its sheet, or the line of an answer.
#![tactic(auto)]

ghost use Rattle.std.specs.Prelude.{◌<◌, ◌≤◌, length};
ghost use Rattle.base_limits.specs.Limits as limits;
ghost use Rattle.program_lines.specs.Printout.{print_outcome, PrintsOver};
ghost use Rattle.program_import.specs.Importing.{Imports, ImportsIn};
ghost use Rattle.program_import.specs.Workings.Putting.{PutRoom, Puts};

use base_answers::{Answer, Refusal};
use base_types::Surface;

// Prints the text of a file's sheet, or the answer's line, from the start of a buffer, and answers how many bytes that has; or refuses a buffer
// that is too short for some sheet.
pub fn print(file: &[u8], out: &mut [u8]) -> Result<usize, Refusal>
    ensures { PrintsOver limits.sheet_text (Imports file.now) out.old (print_outcome result out.new) }
{
    if out.len() < Surface::TEXT {
        return Err(Refusal::Buffer(1));
    }
    let mut words = [0u32; Surface::WORDS];
    let mut corners = [0u16; Surface::CORNERS];
    let bytes = match stl_read::read(file, &mut words, &mut corners) {
        Ok(read) => put(&words[..read.words], &corners[..read.corners], out),
        Err(refusal) => program_lines::put_answer(out, Answer::Refused(refusal)),
    };
    Ok(bytes)
}

// Puts what is to be printed over the start of the room, the first n bytes of which are the input, and answers how many bytes that has.
// An input that fills the room is longer than any file that is read: its size alone decides, and `long` is how long it is, or more than its
// count says where the input is that too.
pub fn import(room: &mut [u8], n: usize, long: usize) -> usize
    requires { (limits.file < length room.old) × (n ≤ length room.old) × (n ≤ long) }
    ensures { ImportsIn room.old n long result room.new }
{
    if n == room.len() {
        let size = stl_read::sized(long, stl_facets::count(room));
        return program_lines::put_answer(room, Answer::from(size));
    }
    let mut words = [0u32; Surface::WORDS];
    let mut corners = [0u16; Surface::CORNERS];
    match stl_read::read(&room[..n], &mut words, &mut corners) {
        Ok(read) => put(&words[..read.words], &corners[..read.corners], room),
        Err(refusal) => program_lines::put_answer(room, Answer::Refused(refusal)),
    }
}

// Puts the text of words and corners that are a sheet's, so that nothing refuses it.
fn put(words: &[u32], corners: &[u16], room: &mut [u8]) -> usize
    requires { PutRoom words.now corners.now room.old }
    ensures { Puts words.now corners.now room.old result room.new }
{
    text_write::write(words, corners, room, 1).unwrap_or(0)
}
