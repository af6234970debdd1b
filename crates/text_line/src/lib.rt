// The lines of a sheet text, written one by one, and how many bytes a whole text takes.
#![tactic(auto)]

ghost use Rattle.std.specs.Prelude.{◌≡◌, true, ◌+◌, ◌<◌, ◌≤◌, leb, length};
ghost use mathlib.Core.List.{map, flatten};
ghost use Rattle.base_types.specs.Pitches.{is_pitch};
ghost use Rattle.surface_rules.specs.Buffers.{laid};
ghost use Rattle.surface_rules.specs.Threes.{three};
ghost use Rattle.text_digits.specs.Numeral.{size, decimal};
ghost use Rattle.text_figures.specs.Workings.Tables.{Spelled};
ghost use Rattle.text_rules.specs.Text.{count};
ghost use Rattle.text_sheet.specs.Sheet.{points, triangles, head};
ghost use Rattle.text_line.specs.Workings.Means.{Has, Counted, needed};

use base_types::Surface;

// Writes a count's line, and answers the place after it.
pub fn put_count(buffer: &mut [u8], at: usize, key: &[u8], n: usize) -> usize
    requires { (n < 10000) × (at + length (count key.now n) ≤ length buffer.old) }
    ensures { (buffer.new ≡ laid at (count key.now n) buffer.old)
        × (result ≡ at + length (count key.now n)) }
{
    text_figures::put_bytes(buffer, at, key);
    text_figures::put_decimal_ended(
        buffer,
        at + key.len(),
        n as u16,
        text_figures::four_of(n as u16),
        b'\n',
    )
}

// How many bytes the head of a pitch takes.
pub fn head_bytes(pitch: u32) -> usize
    requires { is_pitch pitch ≡ true }
    ensures { result ≡ length (flatten (head pitch)) }
{
    match pitch {
        1 => 0,
        10 => 9,
        _ => 8,
    }
}

// Writes the head of a pitch, and answers the place after it: pitch 1 has none.
pub fn put_head(buffer: &mut [u8], pitch: u32) -> usize
    requires { (is_pitch pitch ≡ true) × (length (flatten (head pitch)) ≤ length buffer.old) }
    ensures { (buffer.new ≡ laid 0 (flatten (head pitch)) buffer.old)
        × (result ≡ length (flatten (head pitch))) }
{
    if pitch == 1 {
        return 0;
    }
    put_count(buffer, 0, b"pitch=", pitch as usize)
}

// Writes a line `p=`, of 29 bytes.
pub fn put_point(buffer: &mut [u8], at: usize, a: u32, b: u32, c: u32, pairs: &[u16])
    requires { (at + 29 ≤ length buffer.old) × Spelled 256 pairs.now }
    ensures { buffer.new ≡ laid at (points.show (three a b c)) buffer.old }
{
    buffer[at] = b'p';
    buffer[at + 1] = b'=';
    text_figures::put_hex_ended(buffer, at + 2, a, b',', pairs);
    text_figures::put_hex_ended(buffer, at + 11, b, b',', pairs);
    text_figures::put_hex_ended(buffer, at + 20, c, b'\n', pairs);
}

// Writes a line `t=`, and answers the place after it.
pub fn put_triangle(buffer: &mut [u8], at: usize, a: u16, b: u16, c: u16, fours: &[u32]) -> usize
    requires has { Has fours.now a × Has fours.now b × Has fours.now c }
    requires c_in_bounds { at + length (triangles.show (three a b c)) ≤ length buffer.old }
    ensures { (buffer.new ≡ laid at (triangles.show (three a b c)) buffer.old)
        × (result ≡ at + length (triangles.show (three a b c))) }
{
    buffer[at] = b't';
    buffer[at + 1] = b'=';
    let i = text_figures::put_decimal_ended(buffer, at + 2, a, fours[a as usize], b',');
    let j = text_figures::put_decimal_ended(buffer, i, b, fours[b as usize], b',');
    text_figures::put_decimal_ended(buffer, j, c, fours[c as usize], b'\n')
}

// How many digits a corner has.
fn corner_size(c: u16) -> u16
    ensures { result ≡ size c }
{
    let a: u16 = if 10 <= c { 1 } else { 0 };
    let b: u16 = if 100 <= c { 1 } else { 0 };
    let d: u16 = if 1000 <= c { 1 } else { 0 };
    let e: u16 = if 10000 <= c { 1 } else { 0 };
    1 + a + b + d + e
}

// How many digits the corners have in all.
fn corner_digits(corners: &[u16]) -> usize
    requires { length corners.now ≤ Surface.CORNERS }
    ensures { result ≡ length (flatten (map decimal corners.now)) }
{
    let mut sum: u16 = 0;
    for c in corners {
        sum += corner_size(*c);
    }
    sum as usize
}

// How many bytes the text of a sheet takes.
fn text_bytes(points: usize, corners: &[u16]) -> usize
    requires { Counted points (length corners.now) }
    ensures { result ≡ needed points corners.now }
{
    let triangles = corners.len() / 3;
    let sizes = text_digits::size_of(points as u32) + text_digits::size_of(triangles as u32);
    19 + sizes + 29 * points + 5 * triangles + corner_digits(corners)
}

// Whether so many bytes are enough for the text of a sheet below a head of so many. Where they are enough for the longest of its size,
// nothing is counted.
pub fn has_room(room: usize, points: usize, corners: &[u16], head: usize) -> bool
    requires { Counted points (length corners.now) × (head ≤ 9) }
    ensures { result ≡ leb (head + needed points corners.now) room }
{
    if head + 27 + 29 * points + 20 * (corners.len() / 3) <= room {
        return true;
    }
    head + text_bytes(points, corners) <= room
}
