// The facets of a binary STL, one at a time as records of floats.
//
// What stands at a place is read by functions of the bytes and the place; the reader holds both, and hands out what they read.
#![tactic(auto)]

ghost use Rattle.std.specs.Prelude.{◌≡◌, ◌+◌, ◌≤◌, ◌<◌, length};
ghost use Rattle.std.specs.Float.{binary32};
ghost use Rattle.std.specs.Float.Ieee.{of_bits};
ghost use Rattle.surface_rules.specs.Buffers.{over};
ghost use Rattle.stl_facets.specs.Facets.{front, facet_bytes, word_at, facets, plain_zero, plain_at, corner_at, facet_of, holds_facet, facet_at, behind, floats_of};

// Where the count stands, behind the header, and where the facets begin, behind the count.
const HEADER: usize = 80;

pub const FRONT: usize = HEADER + 4;

// How many bytes a facet has.
pub const FACET: usize = 50;

// A point of a facet, as the floats that the file has of it.
#[derive(Clone, Copy)]
pub struct Corner {
    pub x: f32,
    pub y: f32,
    pub z: f32,
}

// A facet by its three corners: the normal and the attribute are not kept.
#[derive(Clone, Copy)]
pub struct Facet {
    pub a: Corner,
    pub b: Corner,
    pub c: Corner,
}

// A byte as a word.
fn wide(byte: u8) -> u32
    ensures { (result ≡ byte) × (result < 256) }
{
    byte as u32
}

// The word at a place, its lowest byte first.
pub fn word_at(file: &[u8], at: usize) -> u32
    requires { at + 4 ≤ length file.now }
    ensures { result ≡ word_at file.now at }
{
    let a = wide(file[at]);
    let b = wide(file[at + 1]);
    let c = wide(file[at + 2]);
    let d = wide(file[at + 3]);
    a + 256 * b + 65536 * c + 16777216 * d
}

// How many facets a file says that it has.
pub fn count(file: &[u8]) -> u32
    requires { front ≤ length file.now }
    ensures { result ≡ facets file.now }
{
    word_at(file, HEADER)
}

// The float with these bits. The machine's cast is not defined at the patterns that are no number's, and all of these are one float.
pub fn float_of(word: u32) -> f32
    ensures { result ≡ of_bits binary32 word }
{
    if 0x7f80_0000 < word % 0x8000_0000 {
        return 0.0 / 0.0;
    }
    f32::from_bits(word)
}

// A word, negative zero read as zero.
fn plain_zero(word: u32) -> u32
    ensures { result ≡ plain_zero word }
{
    if word % 0x8000_0000 == 0 {
        return 0;
    }
    word
}

// The word at a place as a point keeps it.
pub fn plain_at(file: &[u8], at: usize) -> u32
    requires { at + 4 ≤ length file.now }
    ensures { result ≡ plain_at file.now at }
{
    plain_zero(word_at(file, at))
}

// The three floats that begin at a place.
pub fn corner_at(file: &[u8], at: usize) -> Corner
    requires { at + 12 ≤ length file.now }
    ensures { result ≡ corner_at file.now at }
{
    let x = float_of(plain_at(file, at));
    let y = float_of(plain_at(file, at + 4));
    let z = float_of(plain_at(file, at + 8));
    Corner { x, y, z }
}

// The three corners of the facet that begins at a place, behind its normal.
pub fn facet_of(file: &[u8], at: usize) -> Facet
    requires { at + facet_bytes ≤ length file.now }
    ensures { result ≡ facet_of file.now at }
{
    let a = corner_at(file, at + 12);
    let b = corner_at(file, at + 24);
    let c = corner_at(file, at + 36);
    Facet { a, b, c }
}

// Whether a whole facet begins at a place, which may be any number: this alone decides where a file ends.
pub fn holds_facet(file: &[u8], at: usize) -> bool
    ensures { result ≡ holds_facet file.now at }
{
    FACET <= file.len() && at <= file.len() - FACET
}

// The facet that begins at a place, or nothing at the end.
pub fn facet_at(file: &[u8], at: usize) -> Option<Facet>
    ensures { result ≡ facet_at file.now at }
{
    if holds_facet(file, at) {
        return Some(facet_of(file, at));
    }
    None
}

// The place behind the facet that begins at a place, or that place at the end.
pub fn after(file: &[u8], at: usize) -> usize
    ensures { result ≡ behind file.now at }
{
    if holds_facet(file, at) {
        return at + FACET;
    }
    at
}

// A facet's nine floats are laid over the buffer's start, corner after corner.
pub fn lay(facet: Facet, floats: &mut [f32])
    requires { 9 ≤ length floats.old }
    ensures { floats.new ≡ over (floats_of facet) floats.old }
{
    floats[0] = facet.a.x;
    floats[1] = facet.a.y;
    floats[2] = facet.a.z;
    floats[3] = facet.b.x;
    floats[4] = facet.b.y;
    floats[5] = facet.b.z;
    floats[6] = facet.c.x;
    floats[7] = facet.c.y;
    floats[8] = facet.c.z;
}

// The reader holds on to the bytes and its own place in them. It is no `Iterator`: it is a value that is copied, and those who read by it keep
// the place themselves, across calls from another language.
#[derive(Clone, Copy)]
pub struct Reader<'a> {
    pub file: &'a [u8],
    pub at: usize,
}

// A reader at the first facet, behind the header and the count.
pub fn new<'a>(file: &'a [u8]) -> Reader<'a>
    ensures { (result.file ≡ file.entry) × (result.at ≡ front) }
{
    Reader { file, at: FRONT }
}

// A reader at any place.
pub fn resumed<'a>(file: &'a [u8], at: usize) -> Reader<'a>
    ensures { (result.file ≡ file.entry) × (result.at ≡ at) }
{
    Reader { file, at }
}

// The facet at the reader's place, or nothing at the end.
pub fn next<'a>(reader: Reader<'a>) -> Option<Facet>
    ensures { result ≡ facet_at reader.entry.file.now reader.entry.at }
{
    facet_at(reader.file, reader.at)
}

// The reader moved on behind the facet at its place.
pub fn past<'a>(reader: Reader<'a>) -> Reader<'a>
    ensures { (result.file ≡ reader.entry.file) × (result.at ≡ behind reader.entry.file.now reader.entry.at) }
{
    let at = after(reader.file, reader.at);
    Reader {
        file: reader.file,
        at,
    }
}

// What a reader at a place hands out, for callers that have the bytes and a place.
pub fn hand_out(file: &[u8], at: usize) -> Option<Facet>
    ensures { result ≡ facet_at file.now at }
{
    next(resumed(file, at))
}

// Where a reader at a place goes on, for the same callers.
pub fn move_on(file: &[u8], at: usize) -> usize
    ensures { result ≡ behind file.now at }
{
    let reader = past(resumed(file, at));
    reader.at
}
