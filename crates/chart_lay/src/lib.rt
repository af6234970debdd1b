// Lays the report: the loops of each piece are chained, the vertices of its rim stamped, and each of its other loops told by whether it has a
// stamped vertex.
#![tactic(auto)]

ghost use Rattle.std.specs.Prelude.{◌≡◌, map, ◌+◌, ◌*◌, ◌≤◌, length};
ghost use Rattle.chart_rules.specs.Report.{entry};
ghost use Rattle.chart_lay.specs.Workings.Chaining.{ChainRoom, Chains};
ghost use Rattle.chart_lay.specs.Workings.Locating.{LocateRoom, Locates};
ghost use Rattle.chart_lay.specs.Workings.Stamping.{Inside, Stamps, any_stamp};
ghost use Rattle.chart_lay.specs.Workings.Entering.{Enters};
ghost use Rattle.chart_lay.specs.Workings.Coast.{coast_of};
ghost use Rattle.chart_lay.specs.Workings.Others.{OthersRoom, OthersLaid};
ghost use Rattle.chart_lay.specs.Workings.Pieces.{PieceRoom, PieceLaid};
ghost use Rattle.chart_lay.specs.Workings.Laying.{LayRoom, Lays};

use base_types::{State, Surface};
use chart_rules::Entry;
use rim_pieces::NONE;

// Lays the entries of all pieces, of which there are `count`, and answers how many there are. The rings stand one after the other; a rim has its
// mark, and each loop the number of its piece.
pub fn lay(
    rings: &[u16],
    lengths: &[u16],
    marks: &[u16],
    pieces: &[u16],
    report: &mut [u16],
    count: usize,
) -> usize
    requires { LayRoom rings.now lengths.now marks.now pieces.now report.old count }
    ensures { Lays rings.now lengths.now marks.now pieces.now report.old count result report.new }
{
    let mut rims = [0u16; Surface::TRIANGLES];
    let mut heads = [0u16; Surface::TRIANGLES];
    let mut links = [0u16; Surface::TRIANGLES];
    let mut starts = [0u16; Surface::TRIANGLES];
    let mut lakes = [0u16; Surface::TRIANGLES];
    let mut stamps = [0u16; Surface::POINTS];
    rim_pieces::clear(&mut rims, count);
    rim_pieces::clear(&mut heads, count);
    chain(
        marks,
        pieces,
        &mut rims,
        &mut heads,
        &mut links,
        lengths.len(),
    );
    locate(lengths, &mut starts);
    let mut at = 0;
    for p in 0..count {
        at = lay_piece(
            rings,
            lengths,
            &starts,
            &links,
            rims[p],
            heads[p],
            &mut stamps,
            &mut lakes,
            report,
            p,
            at,
        );
    }
    at
}

// For each piece its rim and the first of its other loops, and for each of those the next of its piece. At first none stands for any piece.
fn chain(
    marks: &[u16],
    pieces: &[u16],
    rims: &mut [u16],
    heads: &mut [u16],
    links: &mut [u16],
    n: usize,
)
    requires { ChainRoom marks.now pieces.now rims.old heads.old links.old n }
    ensures { Chains marks.now pieces.now rims.old heads.old 0 n rims.new heads.new links.new }
{
    for l in (0..n).rev() {
        let p = pieces[l] as usize;
        if marks[l] == State::RIM {
            rims[p] = l as u16;
            continue;
        }
        links[l] = heads[p];
        heads[p] = l as u16;
    }
}

// Where the ring of each loop begins.
fn locate(lengths: &[u16], starts: &mut [u16])
    requires { LocateRoom lengths.now starts.old }
    ensures { Locates lengths.now (length lengths.now) starts.new }
{
    let mut r: u16 = 0;
    for (l, &length) in lengths.iter().enumerate() {
        starts[l] = r;
        r += length;
    }
}

// Lays the entries of piece p from entry `at` on, and answers how many there are then. A piece without a rim has no loops, and where a rim has
// no loop beside it nothing is stamped.
fn lay_piece(
    rings: &[u16],
    lengths: &[u16],
    starts: &[u16],
    links: &[u16],
    rim: u16,
    head: u16,
    stamps: &mut [u16],
    lakes: &mut [u16],
    report: &mut [u16],
    p: usize,
    at: usize,
) -> usize
    requires { PieceRoom (coast_of rings.now lengths.now starts.now links.now) rim head stamps.old lakes.old report.old p at }
    ensures { PieceLaid (coast_of rings.now lengths.now starts.now links.now) rim head report.old p at result stamps.new report.new }
{
    chart_rules::lay_entry(Entry::PIECE, p as u16, report, at);
    if rim == NONE {
        return at + 1;
    }
    chart_rules::lay_entry(Entry::RIM, rim, report, at + 1);
    if head == NONE {
        return at + 2;
    }
    let r = starts[rim as usize] as usize;
    let stamp = p as u16 + 1;
    stamp_all(&rings[r..r + lengths[rim as usize] as usize], stamps, stamp);
    lay_others(
        rings,
        lengths,
        starts,
        links,
        stamps,
        head,
        lakes,
        report,
        stamp,
        at + 2,
    )
}

// The vertices of a ring are stamped.
fn stamp_all(ring: &[u16], stamps: &mut [u16], stamp: u16)
    requires { Inside ring.now stamps.old }
    ensures { Stamps ring.now stamps.old stamp stamps.new }
{
    for &v in ring {
        stamps[v as usize] = stamp;
    }
}

// A vertex of the ring has that stamp.
fn is_stamped(ring: &[u16], stamps: &[u16], stamp: u16) -> bool
    requires { Inside ring.now stamps.now }
    ensures { result ≡ any_stamp ring.now stamps.now stamp }
{
    // `iter().any(..)` leaves open that its closure may be called at each vertex
    for &v in ring {
        if stamps[v as usize] == stamp {
            return true;
        }
    }
    false
}

// Lays the loops of a piece that are no rims, from the first of them on: those with a stamped vertex at once, as tide pools, and behind them the
// others, as lakes.
fn lay_others(
    rings: &[u16],
    lengths: &[u16],
    starts: &[u16],
    links: &[u16],
    stamps: &[u16],
    head: u16,
    lakes: &mut [u16],
    report: &mut [u16],
    stamp: u16,
    from: usize,
) -> usize
    requires { OthersRoom (coast_of rings.now lengths.now starts.now links.now) stamps.now head lakes.old report.old stamp from }
    ensures { OthersLaid (coast_of rings.now lengths.now starts.now links.now) stamps.now head report.old stamp from result report.new }
{
    let mut at = from;
    let mut kept = 0;
    let mut l = head;
    while l != NONE {
        let r = starts[l as usize] as usize;
        if is_stamped(&rings[r..r + lengths[l as usize] as usize], stamps, stamp) {
            chart_rules::lay_entry(Entry::POOL, l, report, at);
            at += 1;
        } else {
            lakes[kept] = l;
            kept += 1;
        }
        l = links[l as usize];
    }
    lay_lakes(&lakes[..kept], report, at)
}

// Lays lakes from entry `from` on, and answers how many entries there are then.
fn lay_lakes(lakes: &[u16], report: &mut [u16], from: usize) -> usize
    requires { 2 * (from + length lakes.now) ≤ length report.old }
    ensures { Enters from (map (entry 3) lakes.now) report.old result report.new }
{
    for (i, &lake) in lakes.iter().enumerate() {
        chart_rules::lay_entry(Entry::LAKE, lake, report, from + i);
    }
    from + lakes.len()
}
