// The lines that the programs print, put into a buffer.
#![tactic(auto)]

ghost use Rattle.std.specs.Prelude.{◌≡◌, cond, [], ◌∷◌, ◌++◌, ◌+◌, ◌-◌, ◌*◌, ◌^◌, ◌<◌, ◌≤◌, eqb, length};
ghost use Rattle.base_limits.specs.States as stated;
ghost use Rattle.surface_rules.specs.Buffers.{over, laid};
ghost use Rattle.text_digits.specs.Numeral.{size, places, decimal};
ghost use Rattle.program_lines.specs.Lines.{answer_line, line, loops=, ring=, PutAt};
ghost use Rattle.program_lines.specs.Listing.{loop_lines, patch_lines};
ghost use Rattle.program_lines.specs.Workings.Telling.{inventory, shown, NextRoom, TellsNext};

use base_answers::Answer;
use base_types::{Loop, State, Surface};
use patch_records::Record;

// How many bytes an answer's line has at most, and the lines of one loop: six for each vertex of its ring, with the comma, and for each
// triangle of its patch the key and three numbers.
pub const LINE: usize = 48;

pub const WIDEST: usize = LINE + 6 * Surface::CORNERS + 24 * Loop::LONGEST;

// How far a listing is: the loops told, the ring vertices and patch corners that those have, and the bytes that are in the buffer.
#[derive(Clone, Copy)]
pub struct Progress {
    pub loops: usize,
    pub vertices: usize,
    pub corners: usize,
    pub bytes: usize,
}

// How many digits a number has.
fn size_of(n: u64) -> usize
    ensures { result ≡ size n }
{
    let mut size: usize = 1;
    let mut v = n;
    while 10 <= v {
        v /= 10;
        size += 1;
    }
    size
}

// Puts the digits of a number from a place on, the last first.
fn put_digits(out: &mut [u8], at: usize, n: u64, size: usize)
    requires { (at + size ≤ length out.old) × (n < 10 ^ size) }
    ensures { out.new ≡ laid at (places 10 size n) out.old }
{
    let mut v = n;
    for k in (0..size).rev() {
        out[at + k] = b'0' + (v % 10) as u8;
        v /= 10;
    }
}

// Puts a number and the byte that ends it, and answers the place after that.
pub fn put_number(out: &mut [u8], at: usize, n: u64, end: u8) -> usize
    requires { at + size n + 1 ≤ length out.old }
    ensures { PutAt at (decimal n ++ (end ∷ [])) out.old result out.new }
{
    let size = size_of(n);
    put_digits(out, at, n, size);
    out[at + size] = end;
    at + size + 1
}

// Puts a line of a key and numbers.
pub fn put_line(out: &mut [u8], at: usize, key: &[u8], numbers: &[u64]) -> usize
    requires { at + length (line key.now numbers.now) ≤ length out.old }
    ensures { PutAt at (line key.now numbers.now) out.old result out.new }
{
    text_figures::put_bytes(out, at, key);
    let mut place = at + key.len();
    for (i, number) in numbers.iter().enumerate() {
        let end = if i + 1 < numbers.len() { b',' } else { b'\n' };
        place = put_number(out, place, *number, end);
    }
    place
}

// Puts the line `answer=`, and answers how many bytes it has.
pub fn put_answer(out: &mut [u8], answer: Answer) -> usize
    requires { LINE ≤ length out.old }
    ensures out_value { (out.new ≡ over (answer_line answer) out.old) × (result ≡ length (answer_line answer)) }
    ensures result_bound { result ≤ LINE }
{
    let number = answer.number() as u64;
    let place = answer.place() as u64;
    put_line(out, 0, b"answer=", &[number, place])
}

// Puts the line `loops=`.
pub fn put_count(out: &mut [u8], at: usize, loops: usize) -> usize
    requires { at + LINE ≤ length out.old }
    ensures put_at { PutAt at (line loops= (loops ∷ [])) out.old result out.new }
    ensures upper_bound { result ≤ at + LINE }
{
    put_line(out, at, b"loops=", &[loops as u64])
}

// Puts the line `ring=`. It is not left to `put_line`, since a ring has numbers of two bytes: one function for both would have the numbers'
// values in its contract, and every caller would prove what these are.
fn put_ring(out: &mut [u8], at: usize, ring: &[u16]) -> usize
    requires { at + length (line ring= ring.now) ≤ length out.old }
    ensures { PutAt at (line ring= ring.now) out.old result out.new }
{
    text_figures::put_bytes(out, at, b"ring=");
    let mut place = at + 5;
    for (i, vertex) in ring.iter().enumerate() {
        let end = if i + 1 < ring.len() { b',' } else { b'\n' };
        place = put_number(out, place, *vertex as u64, end);
    }
    place
}

// Puts a line `patch=` for each triangle.
fn put_patch(out: &mut [u8], at: usize, patch: &[u16]) -> usize
    requires { at + length (patch_lines patch.now) ≤ length out.old }
    ensures { PutAt at (patch_lines patch.now) out.old result out.new }
{
    let mut place = at;
    for i in 0..patch.len() / 3 {
        let a = patch[3 * i] as u64;
        let b = patch[3 * i + 1] as u64;
        let c = patch[3 * i + 2] as u64;
        place = put_line(out, place, b"patch=", &[a, b, c]);
    }
    place
}

// Puts the lines of one loop.
fn put_loop(out: &mut [u8], at: usize, ring: &[u16], kept: Record, patch: &[u16]) -> usize
    requires { at + length (loop_lines (shown ring.now kept patch.now)) ≤ length out.old }
    ensures { PutAt at (loop_lines (shown ring.now kept patch.now)) out.old result out.new }
{
    let counts = [
        kept.length,
        kept.state,
        kept.weight,
        kept.first,
        kept.piece,
        kept.run,
    ];
    let i = put_line(out, at, b"loop=", &counts);
    let j = put_ring(out, i, ring);
    put_patch(out, j, patch)
}

// How many corners the patch of a loop with that many edges has in that state.
fn corners_of(n: usize, state: u64) -> usize
    requires { (2 ≤ n) × (n < 2 ^ 16) }
    ensures { result ≡ cond (eqb state stated.patched) (3 * (n - 2)) 0 }
{
    if state == State::PATCHED as u64 {
        3 * (n - 2)
    } else {
        0
    }
}

// Puts the lines of the next loop.
pub fn put_next(
    out: &mut [u8],
    progress: Progress,
    rings: &[u16],
    records: &[u64],
    patches: &[u16],
) -> Progress
    requires most_in_bounds { progress.bytes + WIDEST ≤ length out.old }
    requires next_room { NextRoom (inventory rings.now records.now patches.now) progress }
    ensures tells_next { TellsNext (inventory rings.now records.now patches.now) progress result out.old out.new }
    ensures bytes_bound { result.bytes ≤ progress.bytes + WIDEST }
{
    let l = progress.loops;
    let kept = patch_records::record_at(records, l);
    let n = kept.length as usize;
    let k = corners_of(n, kept.state);
    let r = progress.vertices;
    let p = progress.corners;
    let bytes = put_loop(
        out,
        progress.bytes,
        &rings[r..r + n],
        kept,
        &patches[p..p + k],
    );
    Progress {
        loops: l + 1,
        vertices: r + n,
        corners: p + k,
        bytes,
    }
}
