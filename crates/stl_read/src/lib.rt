// Reading a file of facets into lent buffers.
#![tactic(auto)]

ghost use Rattle.std.specs.Prelude.{◌≡◌, ◌≤◌, length, replicate};
ghost use Rattle.base_answers.specs.Answers.{said};
ghost use Rattle.base_limits.specs.Limits as limits;
ghost use Rattle.surface_rules.specs.Buffers.{over};
ghost use Rattle.text_read.specs.Outcome.{read_outcome};
ghost use Rattle.stl_rules.specs.Reading.{size_refusal, reads_file};
ghost use Rattle.stl_read.specs.Workings.{ReadRoom, handed};

use base_answers::Refusal;
use base_types::Surface;
use text_read::ReadSheet;

// How many facets a file has at most that is read with little scratch, and with the least. The scratch for so many: words, corners, which
// may all be points of their own, and the buckets of these.
const FEW: usize = 16;

const FEW_WORDS: usize = 9 * FEW;

const FEW_CORNERS: usize = 3 * FEW;

const FEW_BUCKETS: usize = 4 * FEW;

const FEWEST: usize = 4;

const FEWEST_WORDS: usize = 9 * FEWEST;

const FEWEST_CORNERS: usize = 3 * FEWEST;

const FEWEST_BUCKETS: usize = 4 * FEWEST;

// Refusals 16 and 2, by a file's length and the count that it gives.
pub fn sized(length: usize, count: u32) -> Result<(), Refusal>
    ensures { said result ≡ size_refusal length count }
{
    if length < stl_facets::FRONT {
        return Err(Refusal::Misfit);
    }
    let facets = count as usize;
    if length == stl_facets::FRONT + stl_facets::FACET * facets {
        if facets <= Surface::TRIANGLES {
            return Ok(());
        }
        return Err(Refusal::Corners);
    }
    Err(Refusal::Misfit)
}

// A list is laid over a buffer's start. A loop, since whoever links the archive would have to bring `memmove` too for `copy_from_slice`, one
// name more from outside.
fn lay_over<T: Copy>(from: &[T], buffer: &mut [T])
    requires { length from.now ≤ length buffer.old }
    ensures { buffer.new ≡ over from.now buffer.old }
{
    for i in 0..from.len() {
        buffer[i] = from[i];
    }
}

// Hands words and corners over, where there is room. Every corner of a file names a point, so that is not asked. The corners go first: the
// other way round the compiler keeps one place less in registers while points are gathered, an instruction more for each corner.
fn hand_over(
    ws: &[u32],
    cs: &[u16],
    words: &mut [u32],
    corners: &mut [u16],
) -> Result<ReadSheet, Refusal>
    ensures { read_outcome result words.new corners.new ≡ handed ws.now cs.now words.old corners.old }
{
    check_shape::check_buffers(&[words.len(), corners.len()], &[ws.len(), cs.len()])?;
    lay_over(cs, corners);
    lay_over(ws, words);
    Ok(ReadSheet {
        pitch: 1,
        words: ws.len(),
        corners: cs.len(),
    })
}

// Reads a file that fits by way of some scratch.
fn read_by(
    file: &[u8],
    ws: &mut [u32],
    cs: &mut [u16],
    heads: &mut [u16],
    links: &mut [u16],
    words: &mut [u32],
    corners: &mut [u16],
    facets: usize,
) -> Result<ReadSheet, Refusal>
    requires { ReadRoom file.now ws.old cs.old heads.old links.old facets }
    ensures { read_outcome result words.new corners.new ≡ reads_file file.now words.old corners.old }
{
    let Some(points) = stl_gather::gather(file, ws, cs, heads, links) else {
        return Err(Refusal::Words);
    };
    let w = 3 * points;
    let c = 3 * facets;
    hand_over(&ws[..w], &cs[..c], words, corners)
}

// Reads a file that fits by way of scratch for so many words, corners, buckets and points.
fn read_in<const WORDS: usize, const CORNERS: usize, const BUCKETS: usize, const POINTS: usize>(
    file: &[u8],
    words: &mut [u32],
    corners: &mut [u16],
    facets: usize,
) -> Result<ReadSheet, Refusal>
    requires most { (WORDS ≤ limits.words) × (CORNERS ≤ limits.corners) × (BUCKETS ≤ limits.points) }
    requires room { ReadRoom file.now (replicate WORDS 0) (replicate CORNERS 0) (replicate BUCKETS 0) (replicate POINTS 0) facets }
    ensures { read_outcome result words.new corners.new ≡ reads_file file.now words.old corners.old }
{
    let mut ws = [0u32; WORDS];
    let mut cs = [0u16; CORNERS];
    let mut heads = [0u16; BUCKETS];
    let mut links = [0u16; POINTS];
    read_by(
        file, &mut ws, &mut cs, &mut heads, &mut links, words, corners, facets,
    )
}

// Reads a file of facets into lent words and corners. Everything past what is read stays, and a refusal changes nothing.
pub fn read(file: &[u8], words: &mut [u32], corners: &mut [u16]) -> Result<ReadSheet, Refusal>
    ensures { read_outcome result words.new corners.new ≡ reads_file file.now words.old corners.old }
{
    if file.len() < stl_facets::FRONT {
        return Err(Refusal::Misfit);
    }
    let count = stl_facets::count(file);
    sized(file.len(), count)?;
    let facets = count as usize;
    if facets <= FEWEST {
        return read_in::<FEWEST_WORDS, FEWEST_CORNERS, FEWEST_BUCKETS, FEWEST_CORNERS>(
            file, words, corners, facets,
        );
    }
    if facets <= FEW {
        return read_in::<FEW_WORDS, FEW_CORNERS, FEW_BUCKETS, FEW_CORNERS>(
            file, words, corners, facets,
        );
    }
    read_in::<{ Surface::WORDS }, { Surface::CORNERS }, { Surface::POINTS }, { Surface::POINTS }>(
        file, words, corners, facets,
    )
}
