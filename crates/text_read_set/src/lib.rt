// Reading the text of a patch set.
#![tactic(auto)]

ghost use Rattle.std.specs.Prelude.{◌≡◌, ◌≤◌, length, drop};
ghost use Rattle.base_limits.specs.Limits as limits;
ghost use Rattle.surface_rules.specs.Buffers.{over};
ghost use Rattle.surface_rules.specs.Threes.{flat};
ghost use Rattle.text_digits.specs.Workings.Reading.{seen, UpTo};
ghost use Rattle.text_rules.specs.Workings.Parse.{rows, outline, values};
ghost use Rattle.text_rules.specs.Workings.Scanning.{Scanned};
ghost use Rattle.text_sheet.specs.Workings.Parse.{PassBy, passed, Room};
ghost use Rattle.text_read_set.specs.Outcome.{set_outcome, deliver, ReadsSet};
ghost use Rattle.text_read_set.specs.Workings.Scanning.{read_state, parse, numbers};

use base_answers::Refusal;
use base_types::PatchSet;

// What was read: the counts of states and corners.
#[derive(Clone, Copy)]
pub struct ReadSet {
    pub states: usize,
    pub corners: usize,
}

// A line `s=`: its state and the place after it.
fn state_at(text: &[u8], at: usize) -> Option<(u32, usize)>
    ensures { (seen text.now result ≡ read_state (drop at text.now)) × UpTo (length text.now) result }
{
    let i = text_digits::key_at(text, at, b"s=")?;
    text_decimal::decimal_at(text, i, b'\n', 9)
}

// n lines `s=` from a place on, their states laid into a buffer from its start: the place after them, or how many are right before a
// wrong one.
fn read_states(text: &[u8], at: usize, n: usize, states: &mut [u16]) -> Result<usize, usize>
    requires { (at ≤ length text.now) × (n ≤ length states.old) }
    ensures { (passed text.now result ≡ outline (rows read_state n (drop at text.now)))
        × (states.new ≡ over (values (rows read_state n (drop at text.now))) states.old)
        × PassBy (length text.now) result }
{
    let mut place = at;
    for i in 0..n {
        let Some((s, next)) = state_at(text, place) else {
            return Err(i);
        };
        states[i] = s as u16;
        place = next;
    }
    Ok(place)
}

// A whole text, its states and corners laid into two buffers from their starts: their counts, or the line of the fault. It stays beside
// the one of `text_read` for a sheet: the key and the limit of the first part, the reader of its lines and its buffer all differ.
fn take_in(text: &[u8], states: &mut [u16], corners: &mut [u16]) -> Result<(usize, usize), usize>
    requires { (limits.states ≤ length states.old) × Room 8 limits.patches (length text.now) (length corners.old) }
    ensures { Scanned numbers flat (parse text.now) result states.new corners.new states.old corners.old }
{
    let Some((n, first)) = text_sheet::count_at(text, 0, b"states=", PatchSet::STATES) else {
        return Err(1);
    };
    let loops = n as usize;
    let middle = match read_states(text, first, loops, states) {
        Ok(place) => place,
        Err(i) => return Err(2 + i),
    };
    let Some((t, second)) = text_sheet::count_at(text, middle, b"triangles=", PatchSet::TRIANGLES)
    else {
        return Err(loops + 2);
    };
    let triangles = t as usize;
    let end = match text_sheet::read_triangles(text, second, triangles, corners) {
        Ok(place) => place,
        Err(i) => return Err(loops + 3 + i),
    };
    if end < text.len() {
        return Err(loops + triangles + 3);
    }
    Ok((loops, triangles))
}

// Hands a set's states and corners over, where there is room.
fn hand_over(
    ss: &[u16],
    cs: &[u16],
    states: &mut [u16],
    corners: &mut [u16],
) -> Result<ReadSet, Refusal>
    ensures { set_outcome result states.new corners.new
        ≡ deliver ss.now cs.now states.old corners.old }
{
    check_shape::check_buffers(&[states.len(), corners.len()], &[ss.len(), cs.len()])?;
    states[..ss.len()].copy_from_slice(ss);
    corners[..cs.len()].copy_from_slice(cs);
    Ok(ReadSet {
        states: ss.len(),
        corners: cs.len(),
    })
}

// Reads the text of a patch set into lent states and corners. Its lines are counted on from the last before it. Everything past
// what is read stays, and a refusal changes nothing.
pub fn read_set(
    text: &[u8],
    before: u16,
    states: &mut [u16],
    corners: &mut [u16],
) -> Result<ReadSet, Refusal>
    ensures { ReadsSet text.now before states.old corners.old (set_outcome result states.new corners.new) }
{
    let mut ss = [0u16; PatchSet::STATES];
    let mut cs = [0u16; PatchSet::CORNERS];
    let (loops, triangles) = match take_in(text, &mut ss, &mut cs) {
        Ok(counts) => counts,
        Err(line) => return Err(Refusal::Line(before as usize + line)),
    };
    let c = 3 * triangles;
    hand_over(&ss[..loops], &cs[..c], states, corners)
}
