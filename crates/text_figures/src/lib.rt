// Numbers of a text written: a word by a table of all bytes in two digits, a decimal number by its four digits, and plain bytes.
#![tactic(auto)]

ghost use Rattle.std.specs.Prelude.{◌≡◌, ◌++◌, ◌∷◌, [], ◌+◌, ◌*◌, ◌/◌, ◌%◌, ◌<◌, ◌≤◌, length};
ghost use Rattle.surface_rules.specs.Buffers.{laid};
ghost use Rattle.text_digits.specs.Numeral.{size, hex, decimal};
ghost use Rattle.text_figures.specs.Workings.Tables.{Spelled, four_of};

// What every byte looks like in two digits: the first in the lower byte.
pub fn spell_bytes(pairs: &mut [u16])
    requires { Spelled 0 pairs.old }
    ensures { Spelled 256 pairs.new }
{
    for high in 0..16 {
        spell_row(pairs, high);
    }
}

// The same of the sixteen bytes with that first digit.
fn spell_row(pairs: &mut [u16], high: u8)
    requires { (high < 16) × Spelled (16 * high) pairs.old }
    ensures { Spelled (16 * high + 16) pairs.new }
{
    let first = text_digits::byte_of(high) as u16;
    for low in 0..16 {
        pairs[16 * high as usize + low as usize] = first + 256 * text_digits::byte_of(low) as u16;
    }
}

// Writes two bytes, the lower first.
fn put_pair(text: &mut [u8], at: usize, pair: u16)
    requires { at + 2 ≤ length text.old }
    ensures { text.new ≡ laid at (pair % 256 ∷ pair / 256 ∷ []) text.old }
{
    text[at] = (pair % 256) as u8;
    text[at + 1] = (pair / 256) as u8;
}

// Writes a word and the byte that ends it.
pub fn put_hex_ended(text: &mut [u8], at: usize, w: u32, end: u8, pairs: &[u16])
    requires { (at + 9 ≤ length text.old) × Spelled 256 pairs.now }
    ensures { text.new ≡ laid at (hex w ++ (end ∷ [])) text.old }
{
    put_pair(text, at, pairs[(w / 16777216) as usize]);
    put_pair(text, at + 2, pairs[(w / 65536 % 256) as usize]);
    put_pair(text, at + 4, pairs[(w / 256 % 256) as usize]);
    put_pair(text, at + 6, pairs[(w % 256) as usize]);
    text[at + 8] = end;
}

// Writes bytes from a place on.
pub fn put_bytes(text: &mut [u8], at: usize, bytes: &[u8])
    requires { at + length bytes.now ≤ length text.old }
    ensures { text.new ≡ laid at bytes.now text.old }
{
    // `copy_from_slice` costs 5 instructions more for a key
    for i in 0..bytes.len() {
        text[at + i] = bytes[i];
    }
}

// The digits of a number below 10,000 as four bytes, the first the lowest.
pub fn four_of(n: u16) -> u32
    requires { n < 10000 }
    ensures { result ≡ four_of n }
{
    let a = 48 + n / 1000;
    let b = 48 + n / 100 % 10;
    let c = 48 + n / 10 % 10;
    let d = 48 + n % 10;
    (a + 256 * b) as u32 + 65536 * (c + 256 * d) as u32
}

// Writes a number in its own digits and the byte that ends it, and answers the place after that. `four` are its four digits.
pub fn put_decimal_ended(text: &mut [u8], at: usize, n: u16, four: u32, end: u8) -> usize
    requires { (n < 10000) × (four ≡ four_of n) × (at + size n + 1 ≤ length text.old) }
    ensures { (text.new ≡ laid at (decimal n ++ (end ∷ [])) text.old) × (result ≡ at + size n + 1) }
{
    if n < 100 {
        return put_short(text, at, n, four, end);
    }
    if n < 1000 {
        put_four(text, at, four / 256 + 16777216 * end as u32);
        return at + 4;
    }
    put_four(text, at, four);
    text[at + 4] = end;
    at + 5
}

// The same of a number below 100.
fn put_short(text: &mut [u8], at: usize, n: u16, four: u32, end: u8) -> usize
    requires { (n < 100) × (four ≡ four_of n) × (at + size n + 1 ≤ length text.old) }
    ensures { (text.new ≡ laid at (decimal n ++ (end ∷ [])) text.old) × (result ≡ at + size n + 1) }
{
    if n < 10 {
        text[at] = (four / 16777216) as u8;
        text[at + 1] = end;
        return at + 2;
    }
    text[at] = (four / 65536 % 256) as u8;
    text[at + 1] = (four / 16777216) as u8;
    text[at + 2] = end;
    at + 3
}

// Writes four bytes, the lowest first.
fn put_four(text: &mut [u8], at: usize, four: u32)
    requires { at + 4 ≤ length text.old }
    ensures { text.new ≡ laid at (four % 256 ∷ four / 256 % 256 ∷ four / 65536 % 256 ∷ four / 16777216 ∷ []) text.old }
{
    text[at] = (four % 256) as u8;
    text[at + 1] = (four / 256 % 256) as u8;
    text[at + 2] = (four / 65536 % 256) as u8;
    text[at + 3] = (four / 16777216) as u8;
}
