// Reads a sheet text from standard input and prints its report of tide pools and lakes, or an answer line.
#![tactic(auto)]

use base_types::Surface;

// A byte more than the longest text has, so that a longer one is seen to be longer. What is printed takes less.
const ROOM: usize = Surface::TEXT + 1;

// Nothing is said of a write that fails.
fn main(rt: HostRuntime) {
    let mut room = [0u8; ROOM];
    let (n, _) = program_input::read_full(&mut rt.stdin(), &mut room);
    let bytes = program_chart::print_room(&mut room, n);
    let _ = rt.write_all(&room[..bytes]);
}
