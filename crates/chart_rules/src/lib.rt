// The entries of a report: a kind and a number each, which stand one after the other in a lent buffer.
#![tactic(auto)]

ghost use Rattle.std.specs.Prelude.{◌≡◌, ◌+◌, ◌*◌, ◌≤◌, length};
ghost use Rattle.surface_rules.specs.Buffers.{laid};
ghost use Rattle.chart_rules.specs.Report.{numbers, entry_in};

// What the report tells: a piece, or a loop of it by what it is there, and the number of the piece or of the loop.
#[derive(Clone, Copy)]
pub struct Entry {
    pub kind: u16,
    pub number: u16,
}

impl Entry {
    pub const PIECE: u16 = 0;

    pub const RIM: u16 = 1;

    pub const POOL: u16 = 2;

    pub const LAKE: u16 = 3;

    // No kind: what is read where a buffer has no entry.
    pub const NOTHING: u16 = 65535;

    // The numbers of an entry.
    pub const WIDTH: usize = 2;
}

// Entry i out of a buffer of entries. Where the buffer has none, its kind is NOTHING and its number 0.
pub fn entry_at(report: &[u16], i: usize) -> Entry
    ensures { result ≡ entry_in report.now i }
{
    if report.len() / Entry::WIDTH <= i {
        return Entry {
            kind: Entry::NOTHING,
            number: 0,
        };
    }
    let at = Entry::WIDTH * i;
    Entry {
        kind: report[at],
        number: report[at + 1],
    }
}

// Lays entry i.
pub fn lay_entry(kind: u16, number: u16, report: &mut [u16], i: usize)
    requires { 2 * i + 2 ≤ length report.old }
    ensures { report.new ≡ laid (2 * i) (numbers (record { kind = kind; number = number })) report.old }
{
    let at = Entry::WIDTH * i;
    report[at] = kind;
    report[at + 1] = number;
}
