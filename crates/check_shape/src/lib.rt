// Checks what a surface is given by: the counts of words and corners, the lengths of the lent buffers, the points that corners
// name. Each search gives the smallest index.
#![tactic(auto)]

ghost use Rattle.std.specs.Prelude.{◌≡◌, not, ◌+◌, ◌*◌, ◌/◌, ◌<◌, leb, length};
ghost use Rattle.std.specs.List.{position};
ghost use Rattle.base_answers.specs.Answers.{said};
ghost use Rattle.surface_rules.specs.Smallest.{least, any};
ghost use Rattle.surface_rules.specs.Edges.{twice};
ghost use Rattle.surface_rules.specs.Refusals.{short, unnamed, count_refusal, buffer_refusal};

use base_answers::Refusal;
use base_types::Surface;

// Refusals 1 and 2: whether these are counts of words and corners that a surface has.
pub fn check_counts(words: usize, corners: usize) -> Result<(), Refusal>
    ensures { said result ≡ count_refusal words corners }
{
    if !Surface::takes_words(words) {
        return Err(Refusal::Words);
    }
    if !Surface::takes_corners(corners) {
        return Err(Refusal::Corners);
    }
    Ok(())
}

// Refusal 3: whether each lent buffer is as long as it need be, by their lengths.
pub fn check_buffers(lent: &[usize], needs: &[usize]) -> Result<(), Refusal>
    ensures { said result ≡ buffer_refusal lent.now needs.now }
{
    match first_short(lent, needs) {
        Some(i) => Err(Refusal::Buffer(i + 1)),
        None => Ok(()),
    }
}

// The first buffer that is shorter than it need be.
fn first_short(lent: &[usize], needs: &[usize]) -> Option<usize>
    ensures { result ≡ least (short lent.now needs.now) (length needs.now) }
{
    for i in 0..needs.len() {
        if is_short(lent, needs, i) {
            return Some(i);
        }
    }
    None
}

// Whether buffer i is shorter than it need be. One that is not lent counts as empty.
fn is_short(lent: &[usize], needs: &[usize], i: usize) -> bool
    requires { i < length needs.now }
    ensures { result ≡ short lent.now needs.now i }
{
    if i < lent.len() {
        return lent[i] < needs[i];
    }
    0 < needs[i]
}

// The first corner that names none of the points. Where all name one, a quick pass tells it.
pub fn first_unnamed(corners: &[u16], points: u16) -> Option<usize>
    ensures { result ≡ least (unnamed corners.now points) (length corners.now) }
{
    if all_named(corners, points) {
        return None;
    }
    seek_unnamed(corners, points)
}

fn seek_unnamed(corners: &[u16], points: u16) -> Option<usize>
    ensures { result ≡ position (λ corner. leb points corner) corners.now }
{
    corners.iter().position(|corner| points <= *corner)
}

// Whether every corner names a point: a pass with no way out, so that several corners are taken at a time.
fn all_named(corners: &[u16], points: u16) -> bool
    ensures { result ≡ not (any (least (unnamed corners.now points) (length corners.now))) }
{
    let mut all = true;
    for corner in corners {
        all = all & !(points <= *corner);
    }
    all
}

// Whether triangle t names a point twice.
pub fn is_twice(corners: &[u16], t: usize) -> bool
    requires { 3 * t + 2 < length corners.now }
    ensures { result ≡ twice corners.now t }
{
    let a = corners[3 * t];
    let b = corners[3 * t + 1];
    let c = corners[3 * t + 2];
    (a == b) | (b == c) | (c == a)
}

// The first triangle that names a point twice.
pub fn first_twice(corners: &[u16]) -> Option<usize>
    ensures { result ≡ least (twice corners.now) (length corners.now / 3) }
{
    for t in 0..corners.len() / 3 {
        if is_twice(corners, t) {
            return Some(t);
        }
    }
    None
}
