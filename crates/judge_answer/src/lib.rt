// What the checker answers and leaves: a verdict with its counts, and in a lent buffer the front of what was listed.
#![tactic(auto)]

ghost use Rattle.std.specs.Prelude.{◌≡◌, ◌≤◌, length, take};
ghost use Rattle.surface_rules.specs.Buffers.{over};

use base_answers::Verdict;

// What the checker answers: whether the set passes, how many loops there are, and how many vertices their rings have.
#[derive(Clone, Copy)]
pub struct Judged {
    pub verdict: Result<(), Verdict>,
    pub loops: usize,
    pub vertices: usize,
}

// The first n numbers are laid over the buffer's start.
pub fn lay_front(from: &[u16], n: usize, buffer: &mut [u16])
    requires { (n ≤ length from.now) × (n ≤ length buffer.old) }
    ensures { buffer.new ≡ over (take n from.now) buffer.old }
{
    // A loop, since whoever links the archive would have to bring `memmove` too for `copy_from_slice`, one name more from outside.
    for i in 0..n {
        buffer[i] = from[i];
    }
}
