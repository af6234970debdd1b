// The record of a loop: seven numbers, which stand one after the other in a lent buffer, and those of all loops in listed order.
#![tactic(auto)]

ghost use Rattle.std.specs.Prelude.{◌≡◌, [], ◌∷◌, ◌+◌, ◌≤◌, length};
ghost use Rattle.surface_rules.specs.Buffers.{over, laid};
ghost use Rattle.patch_records.specs.Records.{numbers, record_in};
ghost use Rattle.patch_records.specs.Workings.Columns.{columns, LayRoom, laid_records};

use base_types::Loop;

// What is kept of a loop: how many edges it has, its state, what its patch weighs, a count that is 0, the half-edge that it is listed from, the
// number of its piece, and its run.
#[derive(Clone, Copy)]
pub struct Record {
    pub length: u64,
    pub state: u64,
    pub weight: u64,
    pub count: u64,
    pub first: u64,
    pub piece: u64,
    pub run: u64,
}

// The record of loop l out of a buffer of records. Where the buffer has none, all its numbers are 0, and no loop has the length 0.
pub fn record_at(records: &[u64], l: usize) -> Record
    ensures { result ≡ record_in records.now l }
{
    if Loop::records(records.len()) <= l {
        return Record {
            length: 0,
            state: 0,
            weight: 0,
            count: 0,
            first: 0,
            piece: 0,
            run: 0,
        };
    }
    let i = Loop::RECORD * l;
    Record {
        length: records[i],
        state: records[i + 1],
        weight: records[i + 2],
        count: records[i + 3],
        first: records[i + 4],
        piece: records[i + 5],
        run: records[i + 6],
    }
}

// A record of what stands in the columns.
fn row(length: u16, state: u16, weight: u64, first: u16, piece: u16, run: u32) -> Record
    ensures { numbers result ≡ length ∷ state ∷ weight ∷ 0 ∷ first ∷ piece ∷ run ∷ [] }
{
    Record {
        length: length as u64,
        state: state as u64,
        weight,
        count: 0,
        first: first as u64,
        piece: piece as u64,
        run: run as u64,
    }
}

// Lays one record from a place on.
fn lay_one(kept: Record, records: &mut [u64], at: usize)
    requires { at + Loop.RECORD ≤ length records.old }
    ensures { records.new ≡ laid at (numbers kept) records.old }
{
    records[at] = kept.length;
    records[at + 1] = kept.state;
    records[at + 2] = kept.weight;
    records[at + 3] = kept.count;
    records[at + 4] = kept.first;
    records[at + 5] = kept.piece;
    records[at + 6] = kept.run;
}

// Lays the columns as records, from the start of the buffer on. The weights stand there already, in the last seventh of what is laid: a
// record ends before the place of every weight that is still to be read.
pub fn lay(
    lengths: &[u16],
    states: &[u16],
    firsts: &[u16],
    pieces: &[u16],
    runs: &[u32],
    records: &mut [u64],
)
    requires { LayRoom (columns lengths.now states.now firsts.now pieces.now runs.now) records.old }
    ensures { records.new ≡ over (laid_records (columns lengths.now states.now firsts.now pieces.now runs.now) records.old) records.old }
{
    let n = lengths.len();
    let weights = (Loop::RECORD - 1) * n;
    for l in 0..n {
        let kept = row(
            lengths[l],
            states[l],
            records[weights + l],
            firsts[l],
            pieces[l],
            runs[l],
        );
        lay_one(kept, records, Loop::RECORD * l);
    }
}
