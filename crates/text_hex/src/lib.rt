// Words of eight hexadecimal digits read, by a table of what each byte stands for that a caller makes once and lends.
#![tactic(auto)]

ghost use Rattle.std.specs.Prelude.{◌≡◌, ◌+◌, ◌≤◌, length, get_or, drop};
ghost use Rattle.text_digits.specs.Workings.Reading.{read_hex, seen, UpTo};
ghost use Rattle.text_hex.specs.Workings.Tables.{Marked, half};

// What each byte stands for as a digit, and behind all of them sixteen times that.
pub fn mark_digits(values: &mut [u32])
    requires { Marked 0 values.old }
    ensures { Marked 16 values.new }
{
    for d in 0..16 {
        let b = text_digits::byte_of(d) as usize;
        values[b] = d as u32;
        values[256 + b] = 16 * d as u32;
    }
}

// What four digits at a place stand for, or more than they can stand for.
fn half_at(text: &[u8], at: usize, values: &[u32]) -> u32
    requires { (at + 4 ≤ length text.now) × Marked 16 values.now }
    ensures { result ≡ half (get_or text.now at 0) (get_or text.now (at + 1) 0) (get_or text.now (at + 2) 0) (get_or text.now (at + 3) 0) }
{
    let a = text[at] as usize;
    let b = text[at + 1] as usize;
    let c = text[at + 2] as usize;
    let d = text[at + 3] as usize;
    256 * (values[256 + a] + values[b]) + (values[256 + c] + values[d])
}

// Eight hexadecimal digits at a place, and the byte `end` after them.
pub fn hex_at(text: &[u8], at: usize, end: u8, values: &[u32]) -> Option<(u32, usize)>
    requires { (at + 9 ≤ length text.now) × Marked 16 values.now }
    ensures { (seen text.now result ≡ read_hex end (drop at text.now)) × UpTo (at + 9) result }
{
    let high = half_at(text, at, values);
    let low = half_at(text, at + 4, values);
    if 65536 <= high {
        return None;
    }
    if 65536 <= low {
        return None;
    }
    if text[at + 8] != end {
        return None;
    }
    Some((65536 * high + low, at + 9))
}
