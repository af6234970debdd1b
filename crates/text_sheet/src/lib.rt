// The lines of a sheet text, read one by one or all of a kind.
#![tactic(auto)]

ghost use Rattle.std.specs.Prelude.{◌≡◌, ◌<◌, ◌≤◌, length, drop};
ghost use Rattle.surface_rules.specs.Buffers.{over};
ghost use Rattle.surface_rules.specs.Threes.{flat};
ghost use Rattle.text_digits.specs.Workings.Reading.{seen, UpTo};
ghost use Rattle.text_hex.specs.Workings.Tables.{Marked};
ghost use Rattle.text_rules.specs.Workings.Parse.{read_count, rows, outline, values};
ghost use Rattle.text_sheet.specs.Workings.Heads.{HeadBy};
ghost use Rattle.text_sheet.specs.Workings.Parse.{read_point, read_triangle, seen_row, RowBy, PassBy, passed, Room};

use base_types::{Pitch, Surface};

// The pitch that the head of a text tells, which is not 1, and the place after it.
pub fn head_at(text: &[u8]) -> Option<(u32, usize)>
    ensures { HeadBy text.now result }
{
    // a text that begins with another line is seen at once
    if text.len() < 8 {
        return None;
    }
    if text[1] != b'i' {
        return None;
    }
    let i = text_digits::key_at(text, 0, b"pitch=")?;
    let (pitch, next) = text_decimal::decimal_at(text, i, b'\n', 10)?;
    // 1 is told by no line
    if pitch == 1 {
        return None;
    }
    Pitch::try_from(pitch).ok()?;
    Some((pitch, next))
}

// A line of a key and a count.
pub fn count_at(text: &[u8], at: usize, key: &[u8], limit: usize) -> Option<(u32, usize)>
    requires { (0 < length key.now) × (limit < 100000) }
    ensures { (seen text.now result ≡ read_count key.now limit (drop at text.now)) × UpTo (length text.now) result }
{
    let i = text_digits::key_at(text, at, key)?;
    text_decimal::decimal_at(text, i, b'\n', limit as u32)
}

// A line `p=`, of 29 bytes: its three words and the place after it.
fn point_at(text: &[u8], at: usize, values: &[u32]) -> Option<(u32, u32, u32, usize)>
    requires { (at ≤ length text.now) × Marked 16 values.now }
    ensures { (seen_row text.now result ≡ read_point (drop at text.now)) × RowBy (length text.now) result }
{
    if text.len() < at + 29 {
        return None;
    }
    if text[at] != b'p' {
        return None;
    }
    if text[at + 1] != b'=' {
        return None;
    }
    let (a, j) = text_hex::hex_at(text, at + 2, b',', values)?;
    let (b, k) = text_hex::hex_at(text, j, b',', values)?;
    let (c, next) = text_hex::hex_at(text, k, b'\n', values)?;
    Some((a, b, c, next))
}

// A line `t=`: its three corners and the place after it.
pub fn triangle_at(text: &[u8], at: usize) -> Option<(u32, u32, u32, usize)>
    requires { at ≤ length text.now }
    ensures { (seen_row text.now result ≡ read_triangle (drop at text.now)) × RowBy (length text.now) result }
{
    if text.len() < at + 17 {
        return last_at(text, at);
    }
    if text[at] != b't' {
        return None;
    }
    if text[at + 1] != b'=' {
        return None;
    }
    let most = (Surface::POINTS - 1) as u32;
    let (a, j) = text_decimal::number_at(text, at + 2, b',', most)?;
    let (b, k) = text_decimal::number_at(text, j, b',', most)?;
    let (c, next) = text_decimal::number_at(text, k, b'\n', most)?;
    Some((a, b, c, next))
}

// A line `t=` near the end of the text.
fn last_at(text: &[u8], at: usize) -> Option<(u32, u32, u32, usize)>
    ensures { (seen_row text.now result ≡ read_triangle (drop at text.now)) × RowBy (length text.now) result }
{
    let most = (Surface::POINTS - 1) as u32;
    let i = text_digits::key_at(text, at, b"t=")?;
    let (a, j) = text_decimal::decimal_at(text, i, b',', most)?;
    let (b, k) = text_decimal::decimal_at(text, j, b',', most)?;
    let (c, next) = text_decimal::decimal_at(text, k, b'\n', most)?;
    Some((a, b, c, next))
}

// n lines `p=` from a place on, their words laid into a buffer from its start: the place after them, or how many are right before a
// wrong one. It stays beside `read_triangles`: the type of a number, the reader of a line, its table and the cast to u16 all differ, so
// one function for both would take a closure, and a proof about it.
pub fn read_points(text: &[u8], at: usize, n: usize, words: &mut [u32]) -> Result<usize, usize>
    requires { (at ≤ length text.now) × Room 29 n (length text.now) (length words.old) }
    ensures { (passed text.now result ≡ outline (rows read_point n (drop at text.now)))
        × (words.new ≡ over (flat (values (rows read_point n (drop at text.now)))) words.old)
        × PassBy (length text.now) result }
{
    let mut values = [65536u32; 512];
    text_hex::mark_digits(&mut values);
    let mut place = at;
    for i in 0..n {
        let Some((a, b, c, next)) = point_at(text, place, &values) else {
            return Err(i);
        };
        words[3 * i] = a;
        words[3 * i + 1] = b;
        words[3 * i + 2] = c;
        place = next;
    }
    Ok(place)
}

// The same of n lines `t=` and their corners.
pub fn read_triangles(text: &[u8], at: usize, n: usize, corners: &mut [u16]) -> Result<usize, usize>
    requires { (at ≤ length text.now) × Room 8 n (length text.now) (length corners.old) }
    ensures { (passed text.now result ≡ outline (rows read_triangle n (drop at text.now)))
        × (corners.new ≡ over (flat (values (rows read_triangle n (drop at text.now)))) corners.old)
        × PassBy (length text.now) result }
{
    let mut place = at;
    for i in 0..n {
        let Some((a, b, c, next)) = triangle_at(text, place) else {
            return Err(i);
        };
        corners[3 * i] = a as u16;
        corners[3 * i + 1] = b as u16;
        corners[3 * i + 2] = c as u16;
        place = next;
    }
    Ok(place)
}
