// Chains the diagonals of a cover that a part of a patch set is.
#![tactic(auto)]

ghost use Rattle.cover_bars.specs.Workings.Lent.{Held};
ghost use Rattle.judge_chain.specs.Workings.Chaining.{CoverRoom, CoverChained};

use base_types::Surface;
use cover_bars::{Chains, chain};

// Chains for each triangle of a cover that was read the side between the ends of its stretch, as edge e and on, and gives the number
// of edges then. The triangle's other two sides go from an end to the corner between: each is such a side of another triangle, or a
// side of the loop, which the input has.
pub fn chain_cover(
    ring: &[u16],
    stamps: &[u16; Surface::POINTS],
    base: u16,
    set: &[u16],
    chains: &mut Chains,
    e: usize,
) -> usize
    requires { CoverRoom ring.now stamps.now base set.now chains.old.heads chains.old.links.now chains.old.ends.now e }
    ensures { Held chains.old chains.new × CoverChained ring.now set.now chains.old.heads chains.old.links.now chains.old.ends.now e result
        chains.new.heads chains.new.links.now chains.new.ends.now }
{
    chain_seats(
        ring,
        stamps,
        base,
        set,
        &mut chains.heads,
        chains.links,
        chains.ends,
        e,
    )
}

// The same, with the chains taken apart for the loop.
fn chain_seats(
    ring: &[u16],
    stamps: &[u16; Surface::POINTS],
    base: u16,
    set: &[u16],
    heads: &mut [u16; Surface::POINTS],
    links: &mut [u16],
    ends: &mut [u16],
    e: usize,
) -> usize
    requires { CoverRoom ring.now stamps.now base set.now heads.old links.old ends.old e }
    ensures { CoverChained ring.now set.now heads.old links.old ends.old e result heads.new links.new ends.new }
{
    for t in 0..set.len() / 3 {
        let Some(seat) = judge_seat::seat_at(set, 3 * t, stamps, base) else {
            return e + t;
        };
        chain(heads, links, ends, e + t, ring[seat.from], ring[seat.to]);
    }
    e + set.len() / 3
}
