// Reads a file of facets from standard input and prints the text of its sheet, or an answer line.
#![tactic(auto)]

ghost use Rattle.std.specs.Prelude.{◌<◌, ◌≤◌, length};
ghost use Rattle.base_limits.specs.Limits as limits;

use base_types::Surface;
use std::io::Read;

// A byte more than the longest file has, so that a longer one is seen to be longer. The sheet's text takes the same room.
const ROOM: usize = Surface::FILE + 1;

// What follows is only counted, so much at a time.
const SCRATCH: usize = 16384;

// Nothing is said of a write that fails.
fn main(rt: HostRuntime) {
    let mut room = [0u8; ROOM];
    let mut input = rt.stdin();
    let (n, _) = program_input::read_full(&mut input, &mut room);
    let long = count_on(&mut input, &room, n);
    let bytes = program_import::import(&mut room, n, long);
    let _ = rt.write_all(&room[..bytes]);
}

// How long the input is, the first n bytes of which are in the room. Where they fill it, what follows is counted to its end, or until the
// input is longer than its count says: it is refused then, whatever comes.
fn count_on<R: Read>(input: &mut R, room: &[u8], n: usize) -> usize
    requires { (limits.file < length room.now) × (n ≤ length room.now) }
    ensures { n ≤ result }
{
    let mut long = n;
    if n < room.len() {
        return long;
    }
    let mut scratch = [0u8; SCRATCH];
    let count = stl_facets::count(room) as usize;
    let most = stl_facets::FRONT + stl_facets::FACET * count;
    while long <= most {
        let (more, _) = program_input::read_full(input, &mut scratch);
        if more == 0 {
            break;
        }
        long += more;
    }
    long
}
