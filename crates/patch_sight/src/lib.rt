// What becomes of a loop that needs neither bars nor the table: a triangle, and one that lays nothing.
#![tactic(auto)]

ghost use Rattle.std.specs.Prelude.{◌≡◌};
ghost use Rattle.patch_sight.specs.Workings.Threes.{ThreeRoom, ThreeTook};

use base_types::State;

// Where a loop's turn begins: how many corners are laid, how many edges are chained, and what its stamps begin at.
#[derive(Clone, Copy)]
pub struct Spot {
    pub corners: usize,
    pub edges: usize,
    pub base: u16,
}

// What became of the loop: its state and weight, how many corners are laid and how many edges chained after it.
#[derive(Clone, Copy)]
pub struct Became {
    pub state: u16,
    pub weight: u64,
    pub corners: usize,
    pub edges: usize,
}

// The loop of three has one cover and no diagonal: it needs neither bars nor the table, and its edges are the input's.
pub fn patch_three(grid: &[i32], ring: &[u16], patches: &mut [u16], p: usize, e: usize) -> Became
    requires { ThreeRoom grid.now ring.now patches.old p }
    ensures { ThreeTook grid.now ring.now patches.old p e result patches.new }
{
    let weight = cover_lay::lay_three(grid, ring, patches, p);
    Became {
        state: State::PATCHED,
        weight,
        corners: p + 3,
        edges: e,
    }
}

// The loop that lays nothing, with its state: it weighs nothing.
pub fn unpatched(state: u16, p: usize, e: usize) -> Became
    ensures { (result.state ≡ state) × (result.weight ≡ 0) × (result.corners ≡ p) × (result.edges ≡ e) }
{
    Became {
        state,
        weight: 0,
        corners: p,
        edges: e,
    }
}
