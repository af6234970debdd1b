// The lines of a listing, put section by section into a buffer.
#![tactic(auto)]

ghost use Rattle.std.specs.Prelude.{◌≡◌, ◌≤◌, length};
ghost use Rattle.program_lines.specs.Workings.Telling.{inventory};
ghost use Rattle.program_roll.specs.Workings.Listed.{Listed};
ghost use Rattle.program_roll.specs.Workings.Roll.{Begins, Going, FillsOn, Few, PutsAll};

use base_answers::Answer;
use base_types::{PatchSet, Surface};
use program_lines::{LINE, Progress, WIDEST};

// How many bytes the lines before the first loop have at most, and room that is enough for a section: those and the widest loop's lines.
pub const HEAD: usize = 2 * LINE;

pub const ROOM: usize = HEAD + WIDEST;

// Room that is enough for every listing, and for the widest loop's lines behind it: `fill` asks for so much before each loop.
pub const LISTING: usize = HEAD
    + LINE * Surface::TRIANGLES
    + 6 * Surface::CORNERS
    + 8 * PatchSet::CORNERS
    + WIDEST;

// The progress before any loop is told.
fn start(bytes: usize) -> Progress
    ensures { (result.loops ≡ 0) × (result.vertices ≡ 0) × (result.corners ≡ 0) × (result.bytes ≡ bytes) }
{
    Progress {
        loops: 0,
        vertices: 0,
        corners: 0,
        bytes,
    }
}

// Puts the lines that come before the first loop.
pub fn begin(out: &mut [u8], answer: Answer, loops: usize) -> Progress
    requires { HEAD ≤ length out.old }
    ensures begins { Begins answer loops result out.old out.new }
    ensures bytes_bound { result.bytes ≤ HEAD }
{
    let i = program_lines::put_answer(out, answer);
    if answer.refuses() {
        return start(i);
    }
    let j = program_lines::put_count(out, i, loops);
    start(j)
}

// Puts the lines of the next loops behind what stands in the buffer, as many as there is room for.
pub fn fill(
    out: &mut [u8],
    progress: Progress,
    loops: usize,
    rings: &[u16],
    records: &[u64],
    patches: &[u16],
) -> Progress
    requires bytes_in_bounds { progress.bytes ≤ length out.old }
    requires going { Going (inventory rings.now records.now patches.now) loops progress }
    ensures { FillsOn WIDEST (inventory rings.now records.now patches.now) loops progress result out.old out.new }
{
    let mut m = progress;
    // The count of the loops told is a part of the progress that each call hands back, so that no `for` counts it.
    while m.loops < loops {
        if out.len() < m.bytes + WIDEST {
            return m;
        }
        m = program_lines::put_next(out, m, rings, records, patches);
    }
    m
}

// Puts a whole listing at the start of a buffer that has room for every listing, and answers how many bytes it has.
pub fn put_all(
    out: &mut [u8],
    answer: Answer,
    loops: usize,
    rings: &[u16],
    records: &[u64],
    patches: &[u16],
) -> usize
    requires most_in_bounds { LISTING ≤ length out.old }
    requires listed { Listed (inventory rings.now records.now patches.now) loops }
    requires few { Few rings.now patches.now loops }
    ensures { PutsAll (inventory rings.now records.now patches.now) answer loops result out.old out.new }
{
    let progress = begin(out, answer, loops);
    let told = fill(out, progress, loops, rings, records, patches);
    told.bytes
}
