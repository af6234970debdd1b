// Runs the bench's examples and prints what is answered; the file `stdout` has what is due. Those that are starred are
// proved in `bench_proved` besides.
#![tactic(auto)]

ghost use Rattle.std.specs.Prelude.{◌≤◌, length};

use std::io;

fn main(rt: HostRuntime) -> io::Result<()> {
    coordinates(&rt, 1)?;
    coordinates(&rt, 2)?;
    coordinates(&rt, 5)?;
    coordinates(&rt, 10)?;
    coordinate(&rt, 0x3f00_0000, 3)?;
    surfaces(&rt)
}

// Halves and ties, both ends of the grid from either side, the limits of what is exact, and what is no number.
const WORDS: [u32; 24] = [
    0x3f00_0000,
    0x3fc0_0000,
    0xbfc0_0000,
    0x46ff_feff,
    0x46ff_ff00,
    0x7f80_0000,
    0x0000_0000,
    0x8000_0000,
    0x0000_0001,
    0x8000_0001,
    0x3eff_ffff,
    0xbf00_0000,
    0x4020_0000,
    0xc020_0000,
    0xc6ff_feff,
    0xc6ff_ff00,
    0x46ff_fe00,
    0x4700_0000,
    0x4aff_ffff,
    0xcaff_ffff,
    0x7f7f_ffff,
    0xff80_0000,
    0x7fc0_0000,
    0xff80_0001,
];

fn coordinates(rt: &impl Print, pitch: u32) -> io::Result<()> {
    for word in WORDS {
        coordinate(rt, word, pitch)?;
    }
    Ok(())
}

// The line of one coordinate: its word and the pitch, the number of its answer, the whole number, and the bits of the float beside it.
fn coordinate(rt: &impl Print, word: u32, pitch: u32) -> io::Result<()> {
    let mut whole: i32 = 0;
    let mut float: u32 = 0;
    let number = wazelpunt::wazelpunt_coordinate(word, &mut whole, &mut float, pitch);
    println!(rt; "{word:08x} at {pitch}: {number}, {whole}, {float:08x}")
}

// (0,0,0),(10,0,0),(10,10,0),(0,10,4),(4,4,9)
const POINTS: [u32; 15] = [
    0x0000_0000,
    0x0000_0000,
    0x0000_0000,
    0x4120_0000,
    0x0000_0000,
    0x0000_0000,
    0x4120_0000,
    0x4120_0000,
    0x0000_0000,
    0x0000_0000,
    0x4120_0000,
    0x4080_0000,
    0x4080_0000,
    0x4080_0000,
    0x4110_0000,
];

// A point named twice, a cone whose two covers weigh the same, and rims of 64 and of 65 edges.
fn surfaces(rt: &impl Print) -> io::Result<()> {
    let points = POINTS;
    let twice: [u16; 3] = [0, 0, 1];
    let cone: [u16; 12] = [0, 1, 4, 1, 2, 4, 2, 3, 4, 3, 0, 4];
    surface(rt, &points, &twice)?;
    surface(rt, &points, &cone)?;
    let flat = [0u32; 195];
    let mut most = [0u16; 186];
    fan(&mut most);
    surface(rt, &flat, &most)?;
    let mut long = [0u16; 189];
    fan(&mut long);
    surface(rt, &flat, &long)
}

// Makes corners of zeros a fan about point 0; its rim has two edges more than the fan has triangles.
fn fan(corners: &mut [u16])
    requires { length corners.old ≤ 189 }
{
    for i in 0..corners.len() / 3 {
        corners[3 * i + 1] = (i + 1) as u16;
        corners[3 * i + 2] = (i + 2) as u16;
    }
}

// The line of one surface: the answer's number and place, how many loops, ring vertices and patch corners there are, the first
// loop's state, weight, first half-edge, piece and run, and the corners of its first two triangles.
fn surface(rt: &impl Print, words: &[u32], corners: &[u16]) -> io::Result<()> {
    let mut grid = [0i32; 195];
    let mut rings = [0u16; 189];
    let mut records = [0u64; 441];
    let mut patches = [0u16; 567];
    let mut place: usize = 0;
    let mut loops: usize = 0;
    let mut vertices: usize = 0;
    let mut laid: usize = 0;
    let number = wazelpunt::wazelpunt_patch(
        words,
        corners,
        &mut grid,
        &mut rings,
        &mut records,
        &mut patches,
        &mut place,
        &mut loops,
        &mut vertices,
        &mut laid,
        1,
    );
    print_answer(rt, number, place, loops, vertices, laid)?;
    print_loop(
        rt, records[1], records[2], records[4], records[5], records[6],
    )?;
    print_triangle(rt, patches[0], patches[1], patches[2])?;
    print_triangle(rt, patches[3], patches[4], patches[5])?;
    println!(rt; "")
}

fn print_answer(
    rt: &impl Print,
    number: u32,
    place: usize,
    loops: usize,
    vertices: usize,
    laid: usize,
) -> io::Result<()> {
    print!(rt; "{number}, {place}; {loops}, {vertices}, {laid}")
}

fn print_loop(
    rt: &impl Print,
    state: u64,
    weight: u64,
    first: u64,
    piece: u64,
    run: u64,
) -> io::Result<()> {
    print!(rt; "; {state}, {weight}, {first}, {piece}, {run}")
}

fn print_triangle(rt: &impl Print, a: u16, b: u16, c: u16) -> io::Result<()> {
    print!(rt; "; {a}, {b}, {c}")
}
