// The points of a file of facets, met corner after corner and numbered by first use. Points are chained in buckets by their words.
// A caller lends the chains: by bucket the last point, and for each point the one before it in its bucket, numbered from 1, where
// 0 ends a chain. There are as many buckets as there are heads, and at most as many points as there are links.
#![tactic(auto)]

ghost use Rattle.std.specs.Prelude.{◌≡◌, ◌+◌, ◌*◌, ◌<◌, length};
ghost use Rattle.stl_gather.specs.Gathering.{GatherRoom, Gathers};
ghost use Rattle.surface_rules.specs.Threes.{three};
ghost use Rattle.stl_rules.specs.File.{agree};
ghost use Rattle.stl_gather.specs.Workings.Racks.{bucket_of, point_in, SeekRoom, Seeks, rack, SettleRoom, Settled, FacetRoom};

// The file's points and the number of each corner's point are laid into two buffers from their starts. How many points were met is
// answered here and below, or nothing where there are more than there are links.
pub fn gather(
    file: &[u8],
    ws: &mut [u32],
    cs: &mut [u16],
    heads: &mut [u16],
    links: &mut [u16],
) -> Option<usize>
    requires { GatherRoom file.now ws.old cs.old heads.old links.old }
    ensures { Gathers file.now (length links.old) result ws.new cs.new }
{
    let mut n = 0;
    for facet in 0..stl_facets::count(file) as usize {
        let at = stl_facets::FRONT + stl_facets::FACET * facet;
        n = settle_facet(file, ws, cs, heads, links, at + 12, 3 * facet, n)?;
    }
    Some(n)
}

// The three corners of one facet, the first of which is corner i and stands at a place.
fn settle_facet(
    file: &[u8],
    ws: &mut [u32],
    cs: &mut [u16],
    heads: &mut [u16],
    links: &mut [u16],
    at: usize,
    i: usize,
    n: usize,
) -> Option<usize>
    requires { FacetRoom file.now (rack ws.old cs.old heads.old links.old) at i n }
    ensures { Settled file.now (rack ws.new cs.new heads.new links.new) (i + 3) result }
{
    let mut points = n;
    for k in 0..3 {
        points = settle(file, ws, cs, heads, links, at + 12 * k, i + k, points)?;
    }
    Some(points)
}

// Corner i stands at a place: its point is one of the n met and has a number already, or gets the next.
fn settle(
    file: &[u8],
    ws: &mut [u32],
    cs: &mut [u16],
    heads: &mut [u16],
    links: &mut [u16],
    at: usize,
    i: usize,
    n: usize,
) -> Option<usize>
    requires { SettleRoom file.now (rack ws.old cs.old heads.old links.old) at i n }
    ensures { Settled file.now (rack ws.new cs.new heads.new links.new) (i + 1) result }
{
    let a = stl_facets::plain_at(file, at);
    let b = stl_facets::plain_at(file, at + 4);
    let c = stl_facets::plain_at(file, at + 8);
    let h = bucket(a, b, c, heads.len());
    let last = heads[h];
    if let Some(k) = seek(ws, links, last, a, b, c) {
        cs[i] = k as u16;
        return Some(n);
    }
    if links.len() <= n {
        return None;
    }
    ws[3 * n] = a;
    ws[3 * n + 1] = b;
    ws[3 * n + 2] = c;
    links[n] = last;
    heads[h] = (n + 1) as u16;
    cs[i] = n as u16;
    Some(n + 1)
}

// The point with these words in the chain from `last` on. Nearly always it is the first one looked at, or there is none to look at, so
// that one is looked at before the loop.
fn seek(ws: &[u32], links: &[u16], last: u16, a: u32, b: u32, c: u32) -> Option<usize>
    requires { SeekRoom ws.now links.now last a b c }
    ensures { Seeks ws.now a b c last result }
{
    if last == 0 {
        return None;
    }
    let e = last as usize - 1;
    if has_words(ws, e, a, b, c) {
        return Some(e);
    }
    let mut g = links[e] as usize;
    while 0 < g {
        let k = g - 1;
        if has_words(ws, k, a, b, c) {
            return Some(k);
        }
        g = links[k] as usize;
    }
    None
}

// Whether point k has these words.
fn has_words(ws: &[u32], k: usize, a: u32, b: u32, c: u32) -> bool
    requires { 3 * k + 2 < length ws.now }
    ensures { result ≡ agree (point_in ws.now k) (three a b c) }
{
    ws[3 * k] == a && ws[3 * k + 1] == b && ws[3 * k + 2] == c
}

// Of `size` buckets, that of a point with these words. The words of a mesh differ in their high bits or in their low ones, and the
// bits of the sum that are taken see both. Any size will do; where it is a power of two, every bucket is used.
fn bucket(a: u32, b: u32, c: u32, size: usize) -> usize
    requires { 0 < size }
    ensures { result ≡ bucket_of size a b c }
{
    let sum = a as usize * 0x1e3779b1 + b as usize * 0x15ebca6b + c as usize * 0x12b2ae35;
    (sum / 0x800_0000) & (size - 1)
}
