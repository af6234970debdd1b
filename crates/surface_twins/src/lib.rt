// Pairs one half-edge with its twin, or finds that it repeats an earlier one. Half-edges are chained in buckets by their two ends,
// whichever comes first, so that a half-edge meets its twin and its like in one chain. A caller lends the chains: by bucket the
// last half-edge, and for each its end and the one before it in its bucket, numbered from 1, where 0 ends a chain.
#![tactic(auto)]

ghost use Rattle.std.specs.Prelude.{◌≡◌, ◌<◌};
ghost use Rattle.surface_twins.specs.Workings.Chains.{bucket_of, MeetRoom, Meets, TurnRoom, TurnDone, PairRoom, PairDone};

// In the table of turns a half-edge that has a twin stands with the edge after that twin in its triangle; an open one stands
// with OPEN and the edge after itself.
pub const OPEN: u16 = 4096;

// What a chain holds between two points: a half-edge that runs the other way, or one that runs the same way.
#[derive(Clone, Copy)]
enum Met {
    Twin(usize),
    Like,
    Nothing,
}

// Half-edge h, from u to v and followed by f, is paired with its twin if that was met, and chained in one of `size` buckets;
// false if it repeats an earlier one. (A bool: there is nothing to tell of the earlier one.)
pub fn pair(
    corners: &[u16],
    h: usize,
    f: usize,
    u: u16,
    v: u16,
    size: usize,
    heads: &mut [u16],
    links: &mut [u16],
    ends: &mut [u16],
    turns: &mut [u16],
) -> bool
    requires { PairRoom size corners.now h f u v heads.old links.old ends.old turns.old }
    ensures { PairDone size corners.now h result heads.new links.new ends.new turns.new }
{
    let b = bucket(u, v, size);
    let last = heads[b];
    let met = meet(corners, links, ends, last, u, v);
    if !turn(met, h, f, turns) {
        return false;
    }
    ends[h] = v;
    links[h] = last;
    heads[b] = (h + 1) as u16;
    true
}

// Half-edge h, which f follows, and what it met are put into the table of turns; false if h repeats an earlier one, as it does
// where it met one that has a twin already.
fn turn(met: Met, h: usize, f: usize, turns: &mut [u16]) -> bool
    requires { TurnRoom met h f turns.old }
    ensures { TurnDone met h f turns.old result turns.new }
{
    match met {
        Met::Like => false,
        Met::Twin(e) => {
            let after = turns[e];
            if after < OPEN {
                return false;
            }
            turns[h] = after - OPEN;
            turns[e] = f as u16;
            true
        }
        Met::Nothing => {
            turns[h] = OPEN + f as u16;
            true
        }
    }
}

// Of `size` buckets, that of the half-edges between u and v, either way.
fn bucket(u: u16, v: u16, size: usize) -> usize
    requires { 0 < size }
    ensures { result ≡ bucket_of size u v }
{
    (u as usize + 1087) * (v as usize + 1087) / 32 % size
}

// The last half-edge between u and v in the chain from `last` on.
fn meet(corners: &[u16], links: &[u16], ends: &[u16], last: u16, u: u16, v: u16) -> Met
    requires { MeetRoom corners.now links.now ends.now last u v }
    ensures { Meets corners.now u v last result }
{
    let mut g = last as usize;
    while 0 < g {
        let e = g - 1;
        if corners[e] == v && ends[e] == u {
            return Met::Twin(e);
        }
        if corners[e] == u && ends[e] == v {
            return Met::Like;
        }
        g = links[e] as usize;
    }
    Met::Nothing
}
