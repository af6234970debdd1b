// The library over numbers and slices, as other languages call it: these functions answer as it does, and `wazelpunt_c` exports them to C.
#![tactic(auto)]

ghost use Rattle.std.specs.Prelude.{◌≡◌};
ghost use Rattle.std.specs.Float.{binary32};
ghost use Rattle.std.specs.Float.Ieee.{of_bits};
ghost use Rattle.std.specs.Result.{result_unwrap_or};
ghost use Rattle.base_answers.specs.Answers.{said};
ghost use Rattle.base_answers.specs.Numbers.{number_of, place_of};
ghost use Rattle.base_types.specs.Pitches.{pitch_of};
ghost use Rattle.survey_rules.specs.Outcome.{buffers, survey_of};
ghost use Rattle.patch_surface.specs.Outcome as patcher;
ghost use Rattle.chart_surface.specs.Outcome as charter;
ghost use Rattle.text_write.specs.Outcome.{writes};
ghost use Rattle.stl_rules.specs.Reading.{size_refusal, reads_file};
ghost use Rattle.base_limits.specs.Limits.{sheet_text};
ghost use Rattle.program_rewrite.specs.Rewriting.{Rewrites};
ghost use Rattle.program_import.specs.Importing.{Imports};
ghost use Rattle.program_judge.specs.Hears.{HearsLine};
ghost use Rattle.program_list.specs.Lists.{Prints};
ghost use Rattle.program_chart.specs.Charting as charting;
ghost use Rattle.wazelpunt.specs.ForC.{TellsPlace, Tells, told, surveyed, JudgesTold, patch_told, PatchesTold, chart_told, ChartsTold};
ghost use Rattle.wazelpunt.specs.Texts.{text_told, sheet_read, ReadsTold, ReadsSetTold, write_told, written};
ghost use Rattle.wazelpunt.specs.Prints.{PrintsTold};
ghost use Rattle.wazelpunt.specs.Facets.{handed, hands_out};

use base_answers::{Answer, Refusal};
use base_types::Pitch;
use grid_coordinate::Coordinate;
use program_chart::REPORT;
use program_lines::LINE;
use program_roll::LISTING;

// How many floats a facet has.
const FLOATS: usize = 9;

// The answer for the coordinate with these bits at that pitch: its number is returned, 0 or refusal 7 or 8, or 17 for a number that is no
// pitch; the multiple of the pitch, or 0, is left in `whole`, and in `rest` are left the bits of the rest, or of the value itself where it
// is too far, or 0.
pub fn wazelpunt_coordinate(word: u32, whole: &mut i32, rest: &mut u32, pitch: u32) -> u32
    ensures { Tells pitch (of_bits binary32 word) result whole.new rest.new }
{
    match Pitch::try_from(pitch) {
        Ok(step) => tell(word, whole, rest, step),
        Err(refusal) => {
            *whole = 0;
            *rest = 0;
            refusal.number()
        }
    }
}

// The same at one of the four.
fn tell(word: u32, whole: &mut i32, rest: &mut u32, pitch: Pitch) -> u32
    ensures { TellsPlace (pitch_of pitch) (of_bits binary32 word) result whole.new rest.new }
{
    let found = grid_place::place(word, pitch);
    let number = Answer::from(found.answer(0)).number();
    match found {
        Coordinate::Exact(k) => {
            *whole = k;
            *rest = 0;
            number
        }
        Coordinate::Shifted(k, left) => {
            *whole = k;
            *rest = f32::to_bits(left);
            number
        }
        Coordinate::NotFinite => {
            *whole = 0;
            *rest = 0;
            number
        }
        Coordinate::TooFar(x) => {
            *whole = 0;
            *rest = f32::to_bits(x);
            number
        }
    }
}

// Surveys a surface at that pitch, as `survey` does: the grid, the ring vertices and the ring lengths are left in the lent buffers; the
// number of the answer is returned, and its place, how many loops there are and how many vertices their rings have are left too.
pub fn wazelpunt_survey(
    words: &[u32],
    corners: &[u16],
    grid: &mut [i32],
    rings: &mut [u16],
    lengths: &mut [u16],
    place: &mut usize,
    loops: &mut usize,
    vertices: &mut usize,
    pitch: u32,
) -> u32
    ensures { told result place.new loops.new vertices.new (buffers grid.new rings.new lengths.new)
        ≡ surveyed (survey_of pitch words.now corners.now (buffers grid.old rings.old lengths.old)) }
{
    match survey::survey(words, corners, grid, rings, lengths, pitch) {
        Ok(found) => {
            *place = 0;
            *loops = found.loops;
            *vertices = found.vertices;
            0
        }
        Err(refusal) => {
            *place = refusal.place();
            *loops = 0;
            *vertices = 0;
            refusal.number()
        }
    }
}

// Patches a surface at that pitch, as `patch` does: the grid, the ring vertices, the records of the loops and the patch corners are left
// in the lent buffers; the number of the answer is returned, and its place and the three counts are left too.
pub fn wazelpunt_patch(
    words: &[u32],
    corners: &[u16],
    grid: &mut [i32],
    rings: &mut [u16],
    records: &mut [u64],
    patches: &mut [u16],
    place: &mut usize,
    loops: &mut usize,
    vertices: &mut usize,
    laid: &mut usize,
    pitch: u32,
) -> u32
    ensures { PatchesTold pitch words.now corners.now (patcher.buffers grid.old rings.old records.old patches.old)
        (patch_told result place.new loops.new vertices.new laid.new
        (patcher.buffers grid.new rings.new records.new patches.new)) }
{
    match patch::patch(words, corners, grid, rings, records, patches, pitch) {
        Ok(done) => {
            *place = 0;
            *loops = done.loops;
            *vertices = done.vertices;
            *laid = done.corners;
            0
        }
        Err(refusal) => {
            *place = refusal.place();
            *loops = 0;
            *vertices = 0;
            *laid = 0;
            refusal.number()
        }
    }
}

// Charts a surface at that pitch, as `chart` does: the grid, the ring vertices, the records of the loops and the entries of the report are left
// in the lent buffers; the number of the answer is returned, and its place and the three counts are left too.
pub fn wazelpunt_chart(
    words: &[u32],
    corners: &[u16],
    grid: &mut [i32],
    rings: &mut [u16],
    records: &mut [u64],
    report: &mut [u16],
    place: &mut usize,
    loops: &mut usize,
    vertices: &mut usize,
    entries: &mut usize,
    pitch: u32,
) -> u32
    ensures { ChartsTold pitch words.now corners.now (charter.buffers grid.old rings.old records.old report.old)
        (chart_told result place.new loops.new vertices.new entries.new
        (charter.buffers grid.new rings.new records.new report.new)) }
{
    match chart::chart(words, corners, grid, rings, records, report, pitch) {
        Ok(charted) => {
            *place = 0;
            *loops = charted.loops;
            *vertices = charted.vertices;
            *entries = charted.entries;
            0
        }
        Err(refusal) => {
            *place = refusal.place();
            *loops = 0;
            *vertices = 0;
            *entries = 0;
            refusal.number()
        }
    }
}

// Judges a patch set for a surface at that pitch, as `judge` does: the grid, the ring vertices and the ring lengths are left in the lent
// buffers; the number of the answer is returned, and its place, how many loops there are and how many vertices their rings have are left
// too.
pub fn wazelpunt_judge(
    words: &[u32],
    corners: &[u16],
    states: &[u16],
    set: &[u16],
    grid: &mut [i32],
    rings: &mut [u16],
    lengths: &mut [u16],
    place: &mut usize,
    loops: &mut usize,
    vertices: &mut usize,
    pitch: u32,
) -> u32
    ensures { JudgesTold pitch words.now corners.now states.now set.now (buffers grid.old rings.old lengths.old)
        (told result place.new loops.new vertices.new (buffers grid.new rings.new lengths.new)) }
{
    match judge::judge(words, corners, states, set, grid, rings, lengths, pitch) {
        Ok(judged) => {
            *loops = judged.loops;
            *vertices = judged.vertices;
            match judged.verdict {
                Ok(()) => {
                    *place = 0;
                    0
                }
                Err(verdict) => {
                    *place = verdict.place();
                    verdict.number()
                }
            }
        }
        Err(refusal) => {
            *place = refusal.place();
            *loops = 0;
            *vertices = 0;
            refusal.number()
        }
    }
}

// Reads a sheet text, as `read` does: words and corners are left in the lent buffers; the number of the answer is returned, and its place
// and how many words and corners there are are left too, and its pitch.
pub fn wazelpunt_read(
    text: &[u8],
    words: &mut [u32],
    corners: &mut [u16],
    place: &mut usize,
    words_read: &mut usize,
    corners_read: &mut usize,
    pitch: &mut u32,
) -> u32
    ensures { ReadsTold text.now words.old corners.old
        (text_told result place.new words_read.new corners_read.new words.new corners.new) pitch.new }
{
    match text_read::read(text, words, corners) {
        Ok(read) => {
            *place = 0;
            *words_read = read.words;
            *corners_read = read.corners;
            *pitch = read.pitch;
            0
        }
        Err(refusal) => {
            *place = refusal.place();
            *words_read = 0;
            *corners_read = 0;
            *pitch = 0;
            refusal.number()
        }
    }
}

// The number of the answer on what was written or printed, or refused; its place and how many bytes there are are left too.
fn tell_bytes(outcome: Result<usize, Refusal>, place: &mut usize, bytes: &mut usize) -> u32
    ensures told { (result ≡ number_of (said outcome)) × (place.new ≡ place_of (said outcome)) }
    ensures counted { bytes.new ≡ result_unwrap_or outcome 0 }
{
    let answer = Answer::from(outcome);
    *place = answer.place();
    *bytes = outcome.unwrap_or(0);
    answer.number()
}

// Writes the text of a sheet of that pitch, as `write` does: it is left in the lent buffer; the number of the answer is returned, and its
// place and how many bytes the text has are left too.
pub fn wazelpunt_write(
    words: &[u32],
    corners: &[u16],
    text: &mut [u8],
    place: &mut usize,
    bytes: &mut usize,
    pitch: u32,
) -> u32
    ensures { write_told result place.new bytes.new text.new ≡ written (writes pitch words.now corners.now text.old) }
{
    let done = text_write::write(words, corners, text, pitch);
    tell_bytes(done, place, bytes)
}

// Reads the text of a patch set that comes after so many lines, as `read_set` does: states and corners are left in the lent buffers; the
// number of the answer is returned, and its place and how many states and corners there are are left too.
pub fn wazelpunt_read_set(
    text: &[u8],
    before: u16,
    states: &mut [u16],
    corners: &mut [u16],
    place: &mut usize,
    states_read: &mut usize,
    corners_read: &mut usize,
) -> u32
    ensures { ReadsSetTold text.now before states.old corners.old
        (text_told result place.new states_read.new corners_read.new states.new corners.new) }
{
    match text_read_set::read_set(text, before, states, corners) {
        Ok(read) => {
            *place = 0;
            *states_read = read.states;
            *corners_read = read.corners;
            0
        }
        Err(refusal) => {
            *place = refusal.place();
            *states_read = 0;
            *corners_read = 0;
            refusal.number()
        }
    }
}

// Prints the listing of a sheet's text, or an answer's line, as the listing program does, into the lent buffer; the number of the call's own
// answer is returned, and its place and how many bytes were printed are left too.
pub fn wazelpunt_list_text(text: &[u8], out: &mut [u8], place: &mut usize, bytes: &mut usize) -> u32
    ensures { PrintsTold LISTING (Prints text.now) out.old (write_told result place.new bytes.new out.new) }
{
    let listed = program_list::print(text, out);
    tell_bytes(listed, place, bytes)
}

// Prints the report of a sheet's text, or an answer's line, as the charting program does, into the lent buffer; the number of the call's own
// answer is returned, and its place and how many bytes were printed are left too.
pub fn wazelpunt_chart_text(
    text: &[u8],
    out: &mut [u8],
    place: &mut usize,
    bytes: &mut usize,
) -> u32
    ensures { PrintsTold REPORT (charting.Prints text.now) out.old (write_told result place.new bytes.new out.new) }
{
    let charted = program_chart::print(text, out);
    tell_bytes(charted, place, bytes)
}

// Prints the line of the answer on a sheet's text and a patch set's, as the judging program does, into the lent buffer; the number of the
// call's own answer is returned, and its place and how many bytes were printed are left too.
pub fn wazelpunt_judge_texts(
    sheet: &[u8],
    set: &[u8],
    out: &mut [u8],
    place: &mut usize,
    bytes: &mut usize,
) -> u32
    ensures { PrintsTold LINE (HearsLine sheet.now set.now) out.old (write_told result place.new bytes.new out.new) }
{
    let heard = program_judge::print(sheet, set, out);
    tell_bytes(heard, place, bytes)
}

// Prints a sheet's text written again, or an answer's line, as the rewriting program does, into the lent buffer; the number of the call's
// own answer is returned, and its place and how many bytes were printed are left too.
pub fn wazelpunt_rewrite_text(
    text: &[u8],
    out: &mut [u8],
    place: &mut usize,
    bytes: &mut usize,
) -> u32
    ensures { PrintsTold sheet_text (Rewrites text.now) out.old (write_told result place.new bytes.new out.new) }
{
    let rewritten = program_rewrite::print(text, out);
    tell_bytes(rewritten, place, bytes)
}

// Reads a file of facets, as `read` of `stl_read` does: words and corners are left in the lent buffers; the number of the answer is
// returned, and its place and how many words and corners there are are left too.
pub fn wazelpunt_read_stl(
    file: &[u8],
    words: &mut [u32],
    corners: &mut [u16],
    place: &mut usize,
    words_read: &mut usize,
    corners_read: &mut usize,
) -> u32
    ensures { text_told result place.new words_read.new corners_read.new words.new corners.new
        ≡ sheet_read (reads_file file.now words.old corners.old) }
{
    match stl_read::read(file, words, corners) {
        Ok(taken) => {
            *place = 0;
            *words_read = taken.words;
            *corners_read = taken.corners;
            0
        }
        Err(refusal) => {
            *place = refusal.place();
            *words_read = 0;
            *corners_read = 0;
            refusal.number()
        }
    }
}

// The number of the answer that a file of so many bytes with such a count of facets gets by its size alone.
pub fn wazelpunt_size_stl(length: usize, count: u32) -> u32
    ensures { result ≡ number_of (size_refusal length count) }
{
    Answer::from(stl_read::sized(length, count)).number()
}

// Prints the text of a file's sheet, or an answer's line, as the importing program does, into the lent buffer; the number of the call's own
// answer is returned, and its place and how many bytes were printed are left too.
pub fn wazelpunt_import_stl(
    file: &[u8],
    out: &mut [u8],
    place: &mut usize,
    bytes: &mut usize,
) -> u32
    ensures { PrintsTold sheet_text (Imports file.now) out.old (write_told result place.new bytes.new out.new) }
{
    let imported = program_import::print(file, out);
    tell_bytes(imported, place, bytes)
}

// Hands out the facet that begins at a place of a file: its nine floats are left at the start of the lent buffer, the place behind it is left in
// `at`, and how many floats there are is returned. At the end, and for a buffer that is too short, that is 0, and nothing changes.
pub fn wazelpunt_facet(file: &[u8], at: &mut usize, floats: &mut [f32]) -> usize
    ensures { handed result at.new floats.new ≡ hands_out file.now at.old floats.old }
{
    if floats.len() < FLOATS {
        return 0;
    }
    match stl_facets::hand_out(file, *at) {
        None => 0,
        Some(facet) => {
            stl_facets::lay(facet, floats);
            *at = stl_facets::move_on(file, *at);
            FLOATS
        }
    }
}
