// What C links: each function is the one of its name in `wazelpunt`, and promises the same.
#![tactic(auto)]

ghost use Rattle.std.specs.Prelude.{◌≡◌};
ghost use Rattle.std.specs.Float.{binary32};
ghost use Rattle.std.specs.Float.Ieee.{of_bits};
ghost use Rattle.base_answers.specs.Numbers.{number_of};
ghost use Rattle.survey_rules.specs.Outcome.{buffers, survey_of};
ghost use Rattle.patch_surface.specs.Outcome as patcher;
ghost use Rattle.chart_surface.specs.Outcome as charter;
ghost use Rattle.text_write.specs.Outcome.{writes};
ghost use Rattle.stl_rules.specs.Reading.{size_refusal, reads_file};
ghost use Rattle.base_limits.specs.Limits.{sheet_text};
ghost use Rattle.program_rewrite.specs.Rewriting.{Rewrites};
ghost use Rattle.program_import.specs.Importing.{Imports};
ghost use Rattle.program_judge.specs.Hears.{HearsLine};
ghost use Rattle.program_list.specs.Lists.{Prints};
ghost use Rattle.program_chart.specs.Charting as charting;
ghost use Rattle.wazelpunt.specs.ForC.{Tells, told, surveyed, JudgesTold, patch_told, PatchesTold, chart_told, ChartsTold};
ghost use Rattle.wazelpunt.specs.Texts.{text_told, sheet_read, ReadsTold, ReadsSetTold, write_told, written};
ghost use Rattle.wazelpunt.specs.Prints.{PrintsTold};
ghost use Rattle.wazelpunt.specs.Facets.{handed, hands_out};

use program_chart::REPORT;
use program_lines::LINE;
use program_roll::LISTING;

#[unsafe(no_mangle)]
pub extern "C" fn wazelpunt_coordinate(
    word: u32,
    whole: &mut i32,
    rest: &mut u32,
    pitch: u32,
) -> u32
    ensures { Tells pitch (of_bits binary32 word) result whole.new rest.new }
{
    wazelpunt::wazelpunt_coordinate(word, whole, rest, pitch)
}

#[unsafe(no_mangle)]
pub extern "C" fn wazelpunt_survey(
    words: &[u32],
    corners: &[u16],
    grid: &mut [i32],
    rings: &mut [u16],
    lengths: &mut [u16],
    place: &mut usize,
    loops: &mut usize,
    vertices: &mut usize,
    pitch: u32,
) -> u32
    ensures { told result place.new loops.new vertices.new (buffers grid.new rings.new lengths.new)
        ≡ surveyed (survey_of pitch words.now corners.now (buffers grid.old rings.old lengths.old)) }
{
    wazelpunt::wazelpunt_survey(
        words, corners, grid, rings, lengths, place, loops, vertices, pitch,
    )
}

#[unsafe(no_mangle)]
pub extern "C" fn wazelpunt_patch(
    words: &[u32],
    corners: &[u16],
    grid: &mut [i32],
    rings: &mut [u16],
    records: &mut [u64],
    patches: &mut [u16],
    place: &mut usize,
    loops: &mut usize,
    vertices: &mut usize,
    laid: &mut usize,
    pitch: u32,
) -> u32
    ensures { PatchesTold pitch words.now corners.now (patcher.buffers grid.old rings.old records.old patches.old)
        (patch_told result place.new loops.new vertices.new laid.new
        (patcher.buffers grid.new rings.new records.new patches.new)) }
{
    wazelpunt::wazelpunt_patch(
        words, corners, grid, rings, records, patches, place, loops, vertices, laid, pitch,
    )
}

#[unsafe(no_mangle)]
pub extern "C" fn wazelpunt_chart(
    words: &[u32],
    corners: &[u16],
    grid: &mut [i32],
    rings: &mut [u16],
    records: &mut [u64],
    report: &mut [u16],
    place: &mut usize,
    loops: &mut usize,
    vertices: &mut usize,
    entries: &mut usize,
    pitch: u32,
) -> u32
    ensures { ChartsTold pitch words.now corners.now (charter.buffers grid.old rings.old records.old report.old)
        (chart_told result place.new loops.new vertices.new entries.new
        (charter.buffers grid.new rings.new records.new report.new)) }
{
    wazelpunt::wazelpunt_chart(
        words, corners, grid, rings, records, report, place, loops, vertices, entries, pitch,
    )
}

#[unsafe(no_mangle)]
pub extern "C" fn wazelpunt_judge(
    words: &[u32],
    corners: &[u16],
    states: &[u16],
    set: &[u16],
    grid: &mut [i32],
    rings: &mut [u16],
    lengths: &mut [u16],
    place: &mut usize,
    loops: &mut usize,
    vertices: &mut usize,
    pitch: u32,
) -> u32
    ensures { JudgesTold pitch words.now corners.now states.now set.now (buffers grid.old rings.old lengths.old)
        (told result place.new loops.new vertices.new (buffers grid.new rings.new lengths.new)) }
{
    wazelpunt::wazelpunt_judge(
        words, corners, states, set, grid, rings, lengths, place, loops, vertices, pitch,
    )
}

#[unsafe(no_mangle)]
pub extern "C" fn wazelpunt_read(
    text: &[u8],
    words: &mut [u32],
    corners: &mut [u16],
    place: &mut usize,
    words_read: &mut usize,
    corners_read: &mut usize,
    pitch: &mut u32,
) -> u32
    ensures { ReadsTold text.now words.old corners.old
        (text_told result place.new words_read.new corners_read.new words.new corners.new) pitch.new }
{
    wazelpunt::wazelpunt_read(text, words, corners, place, words_read, corners_read, pitch)
}

#[unsafe(no_mangle)]
pub extern "C" fn wazelpunt_write(
    words: &[u32],
    corners: &[u16],
    text: &mut [u8],
    place: &mut usize,
    bytes: &mut usize,
    pitch: u32,
) -> u32
    ensures { write_told result place.new bytes.new text.new ≡ written (writes pitch words.now corners.now text.old) }
{
    wazelpunt::wazelpunt_write(words, corners, text, place, bytes, pitch)
}

#[unsafe(no_mangle)]
pub extern "C" fn wazelpunt_read_set(
    text: &[u8],
    before: u16,
    states: &mut [u16],
    corners: &mut [u16],
    place: &mut usize,
    states_read: &mut usize,
    corners_read: &mut usize,
) -> u32
    ensures { ReadsSetTold text.now before states.old corners.old
        (text_told result place.new states_read.new corners_read.new states.new corners.new) }
{
    wazelpunt::wazelpunt_read_set(
        text,
        before,
        states,
        corners,
        place,
        states_read,
        corners_read,
    )
}

#[unsafe(no_mangle)]
pub extern "C" fn wazelpunt_list_text(
    text: &[u8],
    out: &mut [u8],
    place: &mut usize,
    bytes: &mut usize,
) -> u32
    ensures { PrintsTold LISTING (Prints text.now) out.old (write_told result place.new bytes.new out.new) }
{
    wazelpunt::wazelpunt_list_text(text, out, place, bytes)
}

#[unsafe(no_mangle)]
pub extern "C" fn wazelpunt_chart_text(
    text: &[u8],
    out: &mut [u8],
    place: &mut usize,
    bytes: &mut usize,
) -> u32
    ensures { PrintsTold REPORT (charting.Prints text.now) out.old (write_told result place.new bytes.new out.new) }
{
    wazelpunt::wazelpunt_chart_text(text, out, place, bytes)
}

#[unsafe(no_mangle)]
pub extern "C" fn wazelpunt_judge_texts(
    sheet: &[u8],
    set: &[u8],
    out: &mut [u8],
    place: &mut usize,
    bytes: &mut usize,
) -> u32
    ensures { PrintsTold LINE (HearsLine sheet.now set.now) out.old (write_told result place.new bytes.new out.new) }
{
    wazelpunt::wazelpunt_judge_texts(sheet, set, out, place, bytes)
}

#[unsafe(no_mangle)]
pub extern "C" fn wazelpunt_rewrite_text(
    text: &[u8],
    out: &mut [u8],
    place: &mut usize,
    bytes: &mut usize,
) -> u32
    ensures { PrintsTold sheet_text (Rewrites text.now) out.old (write_told result place.new bytes.new out.new) }
{
    wazelpunt::wazelpunt_rewrite_text(text, out, place, bytes)
}

#[unsafe(no_mangle)]
pub extern "C" fn wazelpunt_read_stl(
    file: &[u8],
    words: &mut [u32],
    corners: &mut [u16],
    place: &mut usize,
    words_read: &mut usize,
    corners_read: &mut usize,
) -> u32
    ensures { text_told result place.new words_read.new corners_read.new words.new corners.new
        ≡ sheet_read (reads_file file.now words.old corners.old) }
{
    wazelpunt::wazelpunt_read_stl(file, words, corners, place, words_read, corners_read)
}

#[unsafe(no_mangle)]
pub extern "C" fn wazelpunt_size_stl(length: usize, count: u32) -> u32
    ensures { result ≡ number_of (size_refusal length count) }
{
    wazelpunt::wazelpunt_size_stl(length, count)
}

#[unsafe(no_mangle)]
pub extern "C" fn wazelpunt_import_stl(
    file: &[u8],
    out: &mut [u8],
    place: &mut usize,
    bytes: &mut usize,
) -> u32
    ensures { PrintsTold sheet_text (Imports file.now) out.old (write_told result place.new bytes.new out.new) }
{
    wazelpunt::wazelpunt_import_stl(file, out, place, bytes)
}

#[unsafe(no_mangle)]
pub extern "C" fn wazelpunt_facet(file: &[u8], at: &mut usize, floats: &mut [f32]) -> usize
    ensures { handed result at.new floats.new ≡ hands_out file.now at.old floats.old }
{
    wazelpunt::wazelpunt_facet(file, at, floats)
}
