// The workshop's measures: how much a surface, a patch set, the grid and a loop may hold, the pitches of the grid, and the states of a loop.
#![tactic(auto)]

ghost use Rattle.std.specs.Prelude.{◌≡◌, ◌/◌, eqb, leb, ltb, nat_abs};
ghost use Rattle.base_types.specs.Counts.{threes};
ghost use Rattle.base_types.specs.Pitches.{pitch_of, Names};

use base_answers::Refusal;

// A surface's counts. Each point has three words and each triangle three corners.
#[derive(Clone, Copy)]
pub struct Surface {
    pub points: usize,
    pub triangles: usize,
}

impl Surface {
    pub const POINTS: usize = 1024;

    pub const TRIANGLES: usize = 1024;

    pub const WORDS: usize = 3 * Self::POINTS;

    pub const CORNERS: usize = 3 * Self::TRIANGLES;

    // The bytes of the longest sheet text: a pitch of two digits, two counts of four, 29 bytes a point and 17 a triangle.
    pub const TEXT: usize = 9 + 12 + 29 * Self::POINTS + 15 + 17 * Self::TRIANGLES;

    // The bytes of the longest file of facets: 80 of a header, 4 of the count and 50 a triangle.
    pub const FILE: usize = 84 + 50 * Self::TRIANGLES;

    // The surface of that many words and corners.
    pub fn of(words: usize, corners: usize) -> Surface
        ensures { (result.points ≡ words / 3) × (result.triangles ≡ corners / 3) }
    {
        Surface {
            points: words / 3,
            triangles: corners / 3,
        }
    }

    // That many points are not too many.
    pub fn takes_points(points: usize) -> bool
        ensures { result ≡ leb points Self.POINTS }
    {
        points <= Self::POINTS
    }

    // That many triangles are not too many.
    pub fn takes_triangles(triangles: usize) -> bool
        ensures { result ≡ leb triangles Self.TRIANGLES }
    {
        triangles <= Self::TRIANGLES
    }

    // That many words are three for each of at most POINTS points.
    pub fn takes_words(words: usize) -> bool
        ensures { result ≡ threes Self.WORDS words }
    {
        is_threes(words, Self::WORDS)
    }

    // That many corners are three for each of at most TRIANGLES triangles.
    pub fn takes_corners(corners: usize) -> bool
        ensures { result ≡ threes Self.CORNERS corners }
    {
        is_threes(corners, Self::CORNERS)
    }

    // That many bytes are no more than the longest sheet text has.
    pub fn takes_text(bytes: usize) -> bool
        ensures { result ≡ leb bytes Self.TEXT }
    {
        bytes <= Self::TEXT
    }

    // That many bytes are no more than the longest file of facets has.
    pub fn takes_file(bytes: usize) -> bool
        ensures { result ≡ leb bytes Self.FILE }
    {
        bytes <= Self::FILE
    }
}

fn is_threes(n: usize, most: usize) -> bool
    ensures { result ≡ threes most n }
{
    n % 3 == 0 && n <= most
}

// A patch set's counts: a state for each loop, and the triangles of all its patches. A surface has at most a loop for each triangle,
// and the loops together have at most an open edge for each corner, which is more than their patches have triangles.
#[derive(Clone, Copy)]
pub struct PatchSet {
    pub states: usize,
    pub triangles: usize,
}

impl PatchSet {
    pub const STATES: usize = Surface::TRIANGLES;

    pub const TRIANGLES: usize = Surface::CORNERS;

    pub const CORNERS: usize = 3 * Self::TRIANGLES;

    // The bytes of the longest text of a set: two counts of four digits, 4 bytes a state and 17 a triangle.
    pub const TEXT: usize = 12 + 4 * Self::STATES + 15 + 17 * Self::TRIANGLES;

    // That many states are not too many.
    pub fn takes_states(states: usize) -> bool
        ensures { result ≡ leb states Self.STATES }
    {
        states <= Self::STATES
    }

    // That many triangles are not too many.
    pub fn takes_triangles(triangles: usize) -> bool
        ensures { result ≡ leb triangles Self.TRIANGLES }
    {
        triangles <= Self::TRIANGLES
    }

    // That many corners are three for each of at most TRIANGLES triangles.
    pub fn takes_corners(corners: usize) -> bool
        ensures { result ≡ threes Self.CORNERS corners }
    {
        is_threes(corners, Self::CORNERS)
    }

    // That many bytes are no more than the longest text of a set has.
    pub fn takes_text(bytes: usize) -> bool
        ensures { result ≡ leb bytes Self.TEXT }
    {
        bytes <= Self::TEXT
    }
}

// How far apart the lines of the grid are, in plate units: one of four.
#[derive(Clone, Copy)]
pub enum Pitch {
    One,
    Two,
    Five,
    Ten,
}

impl Pitch {
    // How many plate units it has.
    pub fn units(self) -> u32
        ensures { result ≡ pitch_of self }
    {
        match self {
            Pitch::One => 1,
            Pitch::Two => 2,
            Pitch::Five => 5,
            Pitch::Ten => 10,
        }
    }
}

// The pitch of that many plate units, or refusal 17.
impl TryFrom<u32> for Pitch {
    type Error = Refusal;

    ghost try_from_gives = { Names };

    fn try_from(number: u32) -> Result<Self, Refusal> {
        match number {
            1 => Ok(Pitch::One),
            2 => Ok(Pitch::Two),
            5 => Ok(Pitch::Five),
            10 => Ok(Pitch::Ten),
            _ => Err(Refusal::NoPitch),
        }
    }
}

// A sheet as it is given: the words and corners of a surface, and the pitch of its grid.
#[derive(Clone, Copy)]
pub struct Sheet<'a> {
    pub words: &'a [u32],
    pub corners: &'a [u16],
    pub pitch: Pitch,
}

// The grid, on which every multiple of its pitch lies.
#[derive(Clone, Copy)]
pub struct Grid {
    pub pitch: Pitch,
}

impl Grid {
    pub const GREATEST: u32 = 32767;

    // The grid of that pitch.
    pub fn of(pitch: Pitch) -> Grid
        ensures { result.pitch ≡ pitch }
    {
        Grid { pitch }
    }

    // The whole number is no further from 0 than the grid reaches, on either side, whatever its pitch.
    pub fn holds(self, whole: i32) -> bool
        ensures { result ≡ leb (nat_abs whole) Self.GREATEST }
    {
        let most = Self::GREATEST as i32;
        -most <= whole && whole <= most
    }
}

// A loop by its length, which counts its edges.
#[derive(Clone, Copy)]
pub struct Loop {
    pub length: usize,
}

impl Loop {
    pub const LONGEST: usize = 64;

    // The numbers of a loop's record: length, state, weight, count, first half-edge, piece and run.
    pub const RECORD: usize = 7;

    // The loop of that many edges.
    pub fn of(length: usize) -> Loop
        ensures { result.length ≡ length }
    {
        Loop { length }
    }

    // The loop has more edges than are ever patched.
    pub fn is_long(self) -> bool
        ensures { result ≡ ltb Self.LONGEST self.length }
    {
        let length = self.length;
        Self::LONGEST < length
    }

    // How many records that many numbers hold.
    pub fn records(numbers: usize) -> usize
        ensures { result ≡ numbers / Self.RECORD }
    {
        numbers / Self::RECORD
    }
}

// What became of a loop, by its number.
#[derive(Clone, Copy)]
pub struct State {
    pub number: u16,
}

impl State {
    pub const PATCHED: u16 = 1;

    pub const LONG: u16 = 2;

    pub const OPEN: u16 = 3;

    pub const RIM: u16 = 4;

    // The loop is patched.
    pub fn is_patched(self) -> bool
        ensures { result ≡ eqb self.number Self.PATCHED }
    {
        self.number == Self::PATCHED
    }

    // The loop has more edges than are ever patched.
    pub fn is_long(self) -> bool
        ensures { result ≡ eqb self.number Self.LONG }
    {
        self.number == Self::LONG
    }

    // The loop is left open, since it has no allowed cover.
    pub fn is_open(self) -> bool
        ensures { result ≡ eqb self.number Self.OPEN }
    {
        self.number == Self::OPEN
    }

    // The loop is the rim of its piece.
    pub fn is_rim(self) -> bool
        ensures { result ≡ eqb self.number Self.RIM }
    {
        self.number == Self::RIM
    }
}
