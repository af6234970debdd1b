// The seat of a triangle of a patch set: the positions of its corners on a loop, turned so that the third lies between the other two.
#![tactic(auto)]

ghost use Rattle.std.specs.Prelude.{◌≡◌, List, ℕ, ◌+◌, ◌<◌, ◌≤◌, length, IfSome};
ghost use Rattle.base_limits.specs.Limits.{points, longest};
ghost use Rattle.cover_rules.specs.Covers.{on};
ghost use Rattle.judge_seat.specs.Workings.Seats.{Ringed, Lies, SeatedAs, SeatFound};

use base_types::{Loop, Surface};

// The positions of a triangle's corners, turned so that from < between < to.
#[derive(Clone, Copy)]
pub struct Seat {
    pub from: usize,
    pub to: usize,
    pub between: usize,
}

// The seat of the triangle whose corners stand from q on, if its corners lie on the ring and can be turned so.
pub fn seat_at(set: &[u16], q: usize, stamps: &[u16; Surface::POINTS], base: u16) -> Option<Seat>
    requires { (q + 3 ≤ length set.now) × (length stamps.now ≡ points) }
    ensures { SeatFound set.now q stamps.now base result }
{
    let a = position(stamps, base, set[q])?;
    let b = position(stamps, base, set[q + 1])?;
    let c = position(stamps, base, set[q + 2])?;
    seat_of(a, b, c)
}

// The position of a point on the ring, if it lies there.
fn position(stamps: &[u16; Surface::POINTS], base: u16, v: u16) -> Option<usize>
    requires { length stamps.now ≡ points }
    ensures lies { (ring : List ℕ) → Ringed ring base stamps.now → Lies ring v result }
    ensures fits { IfSome result (λ r. r < longest) }
{
    let stamp = *stamps.get(v as usize)?;
    let place = stamp.checked_sub(base)? as usize;
    if Loop::LONGEST <= place {
        return None;
    }
    Some(place)
}

// The three positions turned until the third lies between the other two, if they can be.
fn seat_of(a: usize, b: usize, c: usize) -> Option<Seat>
    ensures { SeatedAs (on a b c) result }
{
    if a < c {
        if c < b {
            return Some(Seat {
                from: a,
                to: b,
                between: c,
            });
        }
        if b < a {
            return Some(Seat {
                from: b,
                to: c,
                between: a,
            });
        }
        return None;
    }
    if c < b {
        if b < a {
            return Some(Seat {
                from: c,
                to: a,
                between: b,
            });
        }
        return None;
    }
    None
}
