// What going from loop to loop takes, for the patcher and for the checker alike.
#![tactic(auto)]

ghost use Rattle.std.specs.Prelude.{◌≤◌, length};
ghost use Rattle.fill_scratch.specs.Workings.Rings.{Within};

use base_types::{Loop, State};
use cover_bars::{Bench, Chains};

// The tray: what lies ready between two loops. The edges' links and ends and the table are lent.
#[derive(Drop)]
pub struct Tray<'c, 't> {
    pub chains: Chains<'c>,
    pub bench: Bench,
    pub table: &'t mut [f64],
}

// A surface with no more points and no more corners than this is worked on with room for as many, and not for as many as a surface
// may have: to clear that would take longer than the work.
pub const FEW: usize = 48;

// The greatest number of edges of a loop that needs bars: one that is no rim and not long and has more than three; or 3, if there is
// none.
pub fn longest_middling(lengths: &[u16], marks: &[u16]) -> usize
    requires { length lengths.now ≤ length marks.now }
    ensures { Within result lengths.now marks.now }
{
    let mut most = 3;
    for (l, &length) in lengths.iter().enumerate() {
        let n = length as usize;
        if most < n && !Loop::of(n).is_long() && marks[l] != State::RIM {
            most = n;
        }
    }
    most
}
