// Decimal numbers of a text read, up to a limit and with the byte that ends each.
#![tactic(auto)]

ghost use Rattle.std.specs.Prelude.{◌≡◌, ◌↔◌, IsTrue, ◌+◌, ◌<◌, ◌≤◌, ltb, length, drop};
ghost use Rattle.text_digits.specs.Workings.Reading.{value_of, until, read_decimal, seen, UpTo};

// A decimal number of at most `limit` at a place, and the byte `end` after it.
pub fn decimal_at(text: &[u8], at: usize, end: u8, limit: u32) -> Option<(u32, usize)>
    requires { limit < 100000 }
    ensures { (seen text.now result ≡ read_decimal end limit (drop at text.now)) × UpTo (length text.now) result }
{
    let mut v: u32 = 0;
    for i in at..text.len() {
        let x = text[i];
        if x == end {
            if i - at == text_digits::size_of(v) {
                return Some((v, i + 1));
            }
            return None;
        }
        if !is_digit(x) {
            return None;
        }
        let w = v * 10 + (x - 48) as u32;
        if limit < w {
            return None;
        }
        v = w;
    }
    None
}

// Whether a byte is a decimal digit.
fn is_digit(b: u8) -> bool
    ensures valued { result ≡ ltb (value_of b) 10 }
    ensures ranged { IsTrue result ↔ (48 ≤ b) × (b ≤ 57) }
{
    48 <= b && b <= 57
}

// The same where there is room for four digits and the end, and the limit has four digits.
pub fn number_at(text: &[u8], at: usize, end: u8, limit: u32) -> Option<(u32, usize)>
    requires { (at + 5 ≤ length text.now) × (end < 48) × (999 ≤ limit) × (limit < 10000) }
    ensures { (seen text.now result ≡ read_decimal end limit (drop at text.now)) × UpTo (at + 5) result }
{
    let x = text[at];
    if !is_digit(x) {
        return None;
    }
    second_at(text, at + 1, (x - 48) as u32, end, limit)
}

// After one digit. No other may follow a zero.
fn second_at(text: &[u8], i: usize, v: u32, end: u8, limit: u32) -> Option<(u32, usize)>
    requires { (i + 4 ≤ length text.now) × (v < 10) × (999 ≤ limit) × (limit < 10000) }
    ensures { (seen text.now result ≡ until end limit v 1 (drop i text.now)) × UpTo (i + 4) result }
{
    let x = text[i];
    if x == end {
        return Some((v, i + 1));
    }
    if v == 0 {
        return None;
    }
    if !is_digit(x) {
        return None;
    }
    third_at(text, i + 1, v * 10 + (x - 48) as u32, end, limit)
}

// After two digits.
fn third_at(text: &[u8], i: usize, v: u32, end: u8, limit: u32) -> Option<(u32, usize)>
    requires { (i + 3 ≤ length text.now) × (10 ≤ v) × (v < 100) × (999 ≤ limit) × (limit < 10000) }
    ensures { (seen text.now result ≡ until end limit v 2 (drop i text.now)) × UpTo (i + 3) result }
{
    let x = text[i];
    if x == end {
        return Some((v, i + 1));
    }
    if !is_digit(x) {
        return None;
    }
    fourth_at(text, i + 1, v * 10 + (x - 48) as u32, end, limit)
}

// After three digits. A fourth is the last.
fn fourth_at(text: &[u8], i: usize, v: u32, end: u8, limit: u32) -> Option<(u32, usize)>
    requires { (i + 2 ≤ length text.now) × (100 ≤ v) × (v < 1000) × (999 ≤ limit) × (limit < 10000) }
    ensures { (seen text.now result ≡ until end limit v 3 (drop i text.now)) × UpTo (i + 2) result }
{
    let x = text[i];
    if x == end {
        return Some((v, i + 1));
    }
    if !is_digit(x) {
        return None;
    }
    let w = v * 10 + (x - 48) as u32;
    if limit < w {
        return None;
    }
    if text[i + 1] != end {
        return None;
    }
    Some((w, i + 2))
}
