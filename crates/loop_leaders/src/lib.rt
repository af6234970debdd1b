// Goes along the table of turns: to the next half-edge that leads a cycle, and by turns to the next open edge.
#![tactic(auto)]

ghost use Rattle.std.specs.Prelude.{◌≡◌, true, ◌+◌, ◌<◌, ◌≤◌, length, get_or};
ghost use Rattle.surface_twins.specs.Workings.Turns.{open_mark};
ghost use Rattle.loop_leaders.specs.Workings.Leading.{Quiet, Landing, Landed};

use surface_twins::OPEN;

// An open edge that was walked stands in the table of turns with this, above every turn and below every open edge.
pub const WALKED: u16 = 4095;

// The next half-edge after h that leads, or n. Where loops are small it is one of the next two, so these are looked at before eight are.
pub fn next_leader(turns: &[u16], h: usize, n: usize) -> usize
    requires { (h < n) × (n ≤ length turns.now) × (get_or turns.now h 0 < open_mark) }
    ensures { (h < result) × (result ≤ n) × Quiet turns.now h result }
{
    if h + 2 < n {
        let near = leading(turns, h + 1, h + 3);
        if near != h + 3 {
            return near;
        }
    }
    leading(turns, skip_quiet(turns, h + 1, n), n)
}

// The first half-edge from this one on that leads, or the end.
fn leading(turns: &[u16], from: usize, end: usize) -> usize
    requires { (from ≤ end) × (end ≤ length turns.now) }
    ensures { (from ≤ result) × (result ≤ end) × Quiet turns.now from result }
{
    for i in from..end {
        if OPEN <= turns[i] {
            return i;
        }
    }
    end
}

// A half-edge from h on, and at most n, before which none from h on leads: eight are passed over at a time. (A `for` over chunks
// would count chunks, and the answer is a half-edge.)
fn skip_quiet(turns: &[u16], h: usize, n: usize) -> usize
    requires { (h ≤ n) × (n ≤ length turns.now) }
    ensures { (h ≤ result) × (result ≤ n) × Quiet turns.now h result }
{
    let mut i = h;
    while i + 8 <= n && is_quiet(turns, i) {
        i += 8;
    }
    i
}

// Whether none of the eight half-edges from h on leads. (`iter().all(..)` would stop at the first: without a way out, the eight are
// compared at once.)
fn is_quiet(turns: &[u16], h: usize) -> bool
    requires { h + 8 ≤ length turns.now }
    ensures { result ≡ true → Quiet turns.now h (h + 8) }
{
    let mut all = true;
    for i in h..h + 8 {
        all &= turns[i] < OPEN;
    }
    all
}

// The open edge that the turn reaches from f.
pub fn turned(turns: &[u16], f: usize) -> usize
    requires { Landing turns.now f }
    ensures { Landed turns.now f result }
{
    let mut e = f;
    while turns[e] < WALKED {
        e = turns[e] as usize;
    }
    e
}
