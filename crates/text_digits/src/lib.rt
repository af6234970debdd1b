// What reading and writing a number of a text have in common: the byte of a digit, how many digits a number has, and what reading
// answers. A key is read here too.
#![tactic(auto)]

ghost use Rattle.std.specs.Prelude.{◌≡◌, ◌<◌, length, drop};
ghost use Rattle.text_digits.specs.Numeral.{byte_of, size};
ghost use Rattle.text_digits.specs.Workings.Reading.{read_key, met};

// The place after the bytes of `key`, which has some, if they stand at a place. Whether the text is long enough for them is asked once:
// `text.get(at..)?.starts_with(key)` costs 10 instructions more for a key of two bytes, and some 18 for one of seven.
pub fn key_at(text: &[u8], at: usize, key: &[u8]) -> Option<usize>
    requires { 0 < length key.now }
    ensures { met text.now result ≡ read_key key.now (drop at text.now) }
{
    if text.len() < key.len() {
        return None;
    }
    if text.len() - key.len() < at {
        return None;
    }
    for k in 0..key.len() {
        if text[at + k] != key[k] {
            return None;
        }
    }
    Some(at + key.len())
}

// The byte of a digit below 16.
pub fn byte_of(d: u8) -> u8
    requires { d < 16 }
    ensures { result ≡ byte_of d }
{
    if d < 10 { 48 + d } else { 87 + d }
}

// How many decimal digits a number has.
pub fn size_of(n: u32) -> usize
    requires { n < 100000 }
    ensures { result ≡ size n }
{
    if n < 10 {
        return 1;
    }
    if n < 100 {
        return 2;
    }
    if n < 1000 {
        return 3;
    }
    if n < 10000 {
        return 4;
    }
    5
}
