// Writing the text of a sheet into a lent buffer.
#![tactic(auto)]

ghost use Rattle.std.specs.Prelude.{◌≡◌, ◌+◌, ◌*◌, ◌/◌, ◌<◌, ◌≤◌, length};
ghost use Rattle.base_limits.specs.Limits as limits;
ghost use Rattle.surface_rules.specs.Buffers.{laid, over};
ghost use Rattle.text_sheet.specs.Sheet.{text};
ghost use Rattle.text_write.specs.Outcome.{write_outcome, writes};
ghost use Rattle.text_write.specs.Workings.Means.{Numbered, Serves, point_lines, triangle_lines, Ready};

use base_answers::Refusal;
use base_types::{Pitch, Surface};

// How many points a sheet has that is written with little scratch.
const FEW: usize = 16;

// The four digits of every point.
fn number_points(points: usize, fours: &mut [u32])
    requires { (points < 10000) × (points ≤ length fours.old) }
    ensures { Numbered points fours.new }
{
    for i in 0..points {
        fours[i] = text_figures::four_of(i as u16);
    }
}

// Writes the lines `p=`, and answers the place after them.
fn put_points(buffer: &mut [u8], at: usize, words: &[u32], n: usize) -> usize
    requires { (length words.now ≡ 3 * n) × (at + length (point_lines words.now) ≤ length buffer.old) }
    ensures { (buffer.new ≡ laid at (point_lines words.now) buffer.old)
        × (result ≡ at + length (point_lines words.now)) }
{
    let mut pairs = [0u16; 256];
    text_figures::spell_bytes(&mut pairs);
    let mut place = at;
    for k in 0..n {
        text_line::put_point(
            buffer,
            place,
            words[3 * k],
            words[3 * k + 1],
            words[3 * k + 2],
            &pairs,
        );
        place += 29;
    }
    place
}

// Writes the lines `t=`.
fn put_triangles(buffer: &mut [u8], at: usize, corners: &[u16], n: usize, fours: &[u32]) -> usize
    requires corners_len { (length corners.now ≡ 3 * n) × Serves corners.now fours.now }
    requires corners_in_bounds { at + length (triangle_lines corners.now) ≤ length buffer.old }
    ensures { (buffer.new ≡ laid at (triangle_lines corners.now) buffer.old)
        × (result ≡ at + length (triangle_lines corners.now)) }
{
    let mut place = at;
    for k in 0..n {
        place = text_line::put_triangle(
            buffer,
            place,
            corners[3 * k],
            corners[3 * k + 1],
            corners[3 * k + 2],
            fours,
        );
    }
    place
}

// Writes the text of a sheet for which there is room, and answers its length.
fn put_sheet(
    words: &[u32],
    corners: &[u16],
    buffer: &mut [u8],
    fours: &mut [u32],
    pitch: u32,
) -> usize
    requires { Ready pitch words.now corners.now buffer.old × (length words.now / 3 ≤ length fours.old) }
    ensures { (buffer.new ≡ over (text pitch words.now corners.now) buffer.old)
        × (result ≡ length (text pitch words.now corners.now)) }
{
    let sheet = Surface::of(words.len(), corners.len());
    number_points(sheet.points, fours);
    let start = text_line::put_head(buffer, pitch);
    let first = text_line::put_count(buffer, start, b"points=", sheet.points);
    let middle = put_points(buffer, first, words, sheet.points);
    let second = text_line::put_count(buffer, middle, b"triangles=", sheet.triangles);
    put_triangles(buffer, second, corners, sheet.triangles, fours)
}

// The same with scratch for the digits of so many points.
fn put_by<const POINTS: usize>(
    words: &[u32],
    corners: &[u16],
    buffer: &mut [u8],
    pitch: u32,
) -> usize
    requires ready { Ready pitch words.now corners.now buffer.old }
    requires few { (length words.now / 3 ≤ POINTS) × (POINTS ≤ limits.points) }
    ensures { (buffer.new ≡ over (text pitch words.now corners.now) buffer.old)
        × (result ≡ length (text pitch words.now corners.now)) }
{
    let mut fours = [0u32; POINTS];
    put_sheet(words, corners, buffer, &mut fours, pitch)
}

// Writes the text of words and corners, of points on a grid of that pitch, into a lent buffer, and answers the count of its bytes.
// Everything past the text stays, and a refusal changes nothing.
pub fn write(words: &[u32], corners: &[u16], text: &mut [u8], pitch: u32) -> Result<usize, Refusal>
    ensures { write_outcome result text.new ≡ writes pitch words.now corners.now text.old }
{
    Pitch::try_from(pitch)?;
    check_shape::check_counts(words.len(), corners.len())?;
    let sheet = Surface::of(words.len(), corners.len());
    if !text_line::has_room(
        text.len(),
        sheet.points,
        corners,
        text_line::head_bytes(pitch),
    ) {
        return Err(Refusal::Buffer(1));
    }
    if let Some(i) = check_shape::first_unnamed(corners, sheet.points as u16) {
        return Err(Refusal::Unnamed(i));
    }
    let bytes = if sheet.points <= FEW {
        put_by::<FEW>(words, corners, text, pitch)
    } else {
        put_by::<{ Surface::POINTS }>(words, corners, text, pitch)
    };
    Ok(bytes)
}
