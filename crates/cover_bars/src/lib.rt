// Finds the bars of a loop. Edges are chained by the point they leave, and the loop's vertices are stamped with their positions,
// so that the edges between two of them are met on the way along the chains of all.
#![tactic(auto)]

ghost use Rattle.std.specs.Prelude.{◌≡◌, [], ℕ, ◌<◌, ◌≤◌, length, get_or};
ghost use Rattle.std.proofs.Math.Seq.{slice};
ghost use Rattle.base_limits.specs.Limits.{longest};
ghost use Rattle.cover_bars.specs.Workings.Chains.{ChainRoom, ChainDone, InputRoom, Tells, LaidRoom, LaidDone};
ghost use Rattle.cover_bars.specs.Workings.Chains.{StampRoom, StampDone, RowsRoom, FromDone, AllDone, SidesDone, BarsRoom, BarsDone};
ghost use Rattle.cover_bars.specs.Workings.Lent.{Held};

use base_types::{Loop, Surface};

// The edges, chained by the point that they leave: which edge comes first at each point, which one comes next, and where each ends.
// The loops over edges take the three apart: to chain through the struct takes 1.4 times the instructions, measured.
#[derive(Drop)]
pub struct Chains<'a> {
    pub heads: [u16; Surface::POINTS],
    pub links: &'a mut [u16],
    pub ends: &'a mut [u16],
}

impl Chains<'_> {
    // Chains all edges of the input.
    pub fn chain_input(&mut self, corners: &[u16])
        requires { InputRoom corners.now self.old.heads self.old.links.now self.old.ends.now }
        ensures { Held self.old self.new × Tells corners.now [] (length corners.now) self.new.heads self.new.links.now self.new.ends.now }
    {
        chain_input(corners, &mut self.heads, self.links, self.ends);
    }

    // Chains the laid triangles from p up to `end`, as edge e and on, and gives the number of edges then.
    pub fn chain_laid(&mut self, patches: &[u16], p: usize, end: usize, e: usize) -> usize
        requires { LaidRoom patches.now p end self.old.heads self.old.links.now self.old.ends.now e }
        ensures { Held self.old self.new × LaidDone (slice p end patches.now) self.old.heads self.old.links.now self.old.ends.now e result
            self.new.heads self.new.links.now self.new.ends.now }
    {
        chain_laid(patches, p, end, &mut self.heads, self.links, self.ends, e)
    }
}

// What the bars of a loop are found on: the stamps of its vertices and the rows of its bars.
#[derive(Drop)]
pub struct Bench {
    pub stamps: [u16; Surface::POINTS],
    pub rows: [u64; Loop::LONGEST],
}

impl Bench {
    // Bars the positions of the ring by what is chained.
    pub fn bars_of(&mut self, ring: &[u16], chains: &Chains, base: u16)
        requires { BarsRoom ring.now chains.now.heads chains.now.links.now chains.now.ends.now self.old.stamps base self.old.rows }
        ensures { BarsDone ring.now chains.now.heads chains.now.links.now chains.now.ends.now base self.new.stamps self.new.rows }
    {
        bars_of(
            ring,
            &chains.heads,
            chains.links,
            chains.ends,
            &mut self.stamps,
            base,
            &mut self.rows,
        );
    }
}

// Edge e, from u to v, comes first in the chain of u. Edges are numbered from 1 in the chains, and 0 ends a chain.
pub fn chain(
    heads: &mut [u16; Surface::POINTS],
    links: &mut [u16],
    ends: &mut [u16],
    e: usize,
    u: u16,
    v: u16,
)
    requires { ChainRoom e u v heads.old links.old ends.old }
    ensures { ChainDone e u v heads.old links.old ends.old heads.new links.new ends.new }
{
    links[e] = heads[u as usize];
    ends[e] = v;
    heads[u as usize] = (e + 1) as u16;
}

// Chains all edges of the input.
pub fn chain_input(
    corners: &[u16],
    heads: &mut [u16; Surface::POINTS],
    links: &mut [u16],
    ends: &mut [u16],
)
    requires { InputRoom corners.now heads.old links.old ends.old }
    ensures { Tells corners.now [] (length corners.now) heads.new links.new ends.new }
{
    for t in 0..corners.len() / 3 {
        let h = 3 * t;
        let a = corners[h];
        let b = corners[h + 1];
        let c = corners[h + 2];
        chain(heads, links, ends, h, a, b);
        chain(heads, links, ends, h + 1, b, c);
        chain(heads, links, ends, h + 2, c, a);
    }
}

// Chains the first side of each laid triangle from p up to `end`, as edge e and on, and gives the number of edges then. The other
// sides are first sides of triangles laid with it, or sides of the loop, which the input has.
pub fn chain_laid(
    patches: &[u16],
    p: usize,
    end: usize,
    heads: &mut [u16; Surface::POINTS],
    links: &mut [u16],
    ends: &mut [u16],
    e: usize,
) -> usize
    requires { LaidRoom patches.now p end heads.old links.old ends.old e }
    ensures { LaidDone (slice p end patches.now) heads.old links.old ends.old e result heads.new links.new ends.new }
{
    let n = (end - p) / 3;
    for t in 0..n {
        let q = p + 3 * t;
        chain(heads, links, ends, e + t, patches[q], patches[q + 1]);
    }
    e + n
}

// Bars the positions of the ring: a row for each, with a bit for each position that no diagonal may join it with. No stamp is
// over the base before; afterwards the ring's are.
pub fn bars_of(
    ring: &[u16],
    heads: &[u16; Surface::POINTS],
    links: &[u16],
    ends: &[u16],
    stamps: &mut [u16; Surface::POINTS],
    base: u16,
    rows: &mut [u64; Loop::LONGEST],
)
    requires { BarsRoom ring.now heads.now links.now ends.now stamps.old base rows.old }
    ensures { BarsDone ring.now heads.now links.now ends.now base stamps.new rows.new }
{
    stamp_ring(ring, stamps, base, rows);
    bars_all(ring, heads, links, ends, stamps, base, rows);
    clear_sides(ring.len(), rows);
}

// Stamps the ring's vertices with their positions over the base, and clears their rows.
fn stamp_ring(
    ring: &[u16],
    stamps: &mut [u16; Surface::POINTS],
    base: u16,
    rows: &mut [u64; Loop::LONGEST],
)
    requires { StampRoom ring.now stamps.old base rows.old }
    ensures { StampDone ring.now base stamps.new rows.new }
{
    for (j, v) in ring.iter().enumerate() {
        stamps[*v as usize] = base + (j as u16);
        rows[j] = 0;
    }
}

// Sets each two positions of the ring that an edge joins in each other's row.
fn bars_all(
    ring: &[u16],
    heads: &[u16; Surface::POINTS],
    links: &[u16],
    ends: &[u16],
    stamps: &[u16; Surface::POINTS],
    base: u16,
    rows: &mut [u64; Loop::LONGEST],
)
    requires { RowsRoom ring.now heads.now links.now ends.now stamps.now base rows.old × ((j : ℕ) → j < length ring.now → get_or rows.old j 0 ≡ 0) }
    ensures { AllDone ring.now heads.now links.now ends.now rows.new }
{
    for j in 0..ring.len() {
        bars_from(ring, heads, links, ends, stamps, base, j, rows);
    }
}

// Sets position j and each position that an edge from j leads to in each other's row.
fn bars_from(
    ring: &[u16],
    heads: &[u16; Surface::POINTS],
    links: &[u16],
    ends: &[u16],
    stamps: &[u16; Surface::POINTS],
    base: u16,
    j: usize,
    rows: &mut [u64; Loop::LONGEST],
)
    requires { RowsRoom ring.now heads.now links.now ends.now stamps.now base rows.old × (j < length ring.now) }
    ensures { FromDone ring.now heads.now links.now ends.now j rows.old rows.new }
{
    let mut e = heads[ring[j] as usize] as usize;
    while 0 < e {
        let s = stamps[ends[e - 1] as usize];
        if base <= s {
            let p = (s - base) as usize;
            rows[j] = rows[j] | (1 << p);
            rows[p] = rows[p] | (1 << j);
        }
        e = links[e - 1] as usize;
    }
}

// Takes each position and its two neighbours out of its row: no diagonal joins them.
fn clear_sides(n: usize, rows: &mut [u64; Loop::LONGEST])
    requires { (3 ≤ n) × (n ≤ longest) × (length rows.old ≡ longest) }
    ensures { SidesDone n rows.old rows.new }
{
    rows[0] = rows[0] & !(3 | (1 << (n - 1)));
    for j in 1..n - 1 {
        rows[j] = rows[j] & !(7 << (j - 1));
    }
    rows[n - 1] = rows[n - 1] & !(1 | (3 << (n - 2)));
}
