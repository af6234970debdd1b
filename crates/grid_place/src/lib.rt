// One coordinate of a point, put on the grid of a pitch.
#![tactic(auto)]

ghost use Rattle.std.specs.Prelude.{◌≡◌, ◌/◌, ◌%◌, ◌^◌, ◌<◌, ◌≤◌};
ghost use Rattle.std.specs.Float.{binary32};
ghost use Rattle.std.specs.Float.Ieee.{of_bits};
ghost use Rattle.base_types.specs.Pitches.{pitch_of};
ghost use Rattle.base_types.specs.declared.Pitch.{Pitch};
ghost use Rattle.grid_coordinate.specs.Units.{units};
ghost use Rattle.grid_coordinate.specs.Places.{whole, Places, is_off};
ghost use Rattle.grid_place.specs.Workings.Ends.{end_of};

use base_types::{Grid, Pitch};
use grid_coordinate::Coordinate;

// The bits of the first size that goes beyond the grid, by its pitch. It is the middle between the last multiple on the grid and the next,
// where the next is an even one, and otherwise the float after that. Without their sign the bits of floats are in the order of the sizes,
// and what is no number comes after all numbers.
pub fn end_of(pitch: Pitch) -> u32
    ensures { result ≡ end_of pitch }
{
    match pitch {
        Pitch::One => 0x46ff_ff00,
        Pitch::Two => 0x46ff_fe00,
        Pitch::Five => 0x46ff_ff00,
        Pitch::Ten => 0x46ff_fa01,
    }
}

// Whether the coordinate with these bits is not finite or too far, where the grid of a pitch ends there.
pub fn is_off(word: u32, end: u32) -> bool
    ensures { (p : Pitch) → end ≡ end_of p → result ≡ is_off (pitch_of p) (of_bits binary32 word) }
{
    end <= word % 0x8000_0000
}

// Three quarters of 2^53: a float of this size has no binary places, and an even last one.
const LIFT: f64 = 6755399441055744.0;

// The multiple of so many plate units nearest to a number below 2^22, a tie to the even one. The quotient has 53 digits, so that what is
// rounded off does not reach the middle between two whole numbers; and the sum has no room for binary places, so that the addition rounds.
pub fn near(word: u32, pace: u32) -> i32
    requires { (word % 2 ^ 31 / 2 ^ 23 < 149) × (0 < pace) × (pace ≤ 10) }
    ensures { result ≡ whole pace (units (of_bits binary32 word)) }
{
    let p = pace as f64;
    (((f32::from_bits(word) as f64 / p + LIFT) - LIFT) * p) as i32
}

// The multiple of the pitch nearest to a number below 2^22. The multiples of 1 are found without a division.
pub fn nearest(word: u32, pitch: Pitch) -> i32
    requires { word % 2 ^ 31 / 2 ^ 23 < 149 }
    ensures { result ≡ whole (pitch_of pitch) (units (of_bits binary32 word)) }
{
    let pace = pitch.units();
    if pace == 1 {
        return grid_coordinate::nearest(word);
    }
    near(word, pace)
}

// The answer for the coordinate with these bits. Only the exponent's field tells a number from what is none; from 2^22 on
// a number lies far beyond the grid.
pub fn place(word: u32, pitch: Pitch) -> Coordinate
    ensures { Places (pitch_of pitch) (of_bits binary32 word) result }
{
    let field = word % 0x8000_0000 / 0x80_0000;
    if 149 <= field {
        if field == 255 {
            return Coordinate::NotFinite;
        }
        return Coordinate::TooFar(f32::from_bits(word));
    }
    let x = f32::from_bits(word);
    let k = nearest(word, pitch);
    let grid = Grid::of(pitch);
    if !grid.holds(k) {
        return Coordinate::TooFar(x);
    }
    let near = k as f32;
    if x == near {
        return Coordinate::Exact(k);
    }
    Coordinate::Shifted(k, x - near)
}
