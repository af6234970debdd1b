// What a triangle weighs: the sum of the absolute values of its cross product's three components, in whole numbers.
#![tactic(auto)]

ghost use Rattle.std.specs.Prelude.{◌≡◌, ◌^◌, ◌<◌, nat_abs, ◌-ℤ◌, ◌*ℤ◌};
ghost use Rattle.cover_weight.specs.Weight.{less, cross, size, stride_of, weight_of, point_of, Coordinate, OnGrid, Difference, Short, Coordinates, Names};

// A point of the grid.
#[derive(Clone, Copy)]
pub struct Point {
    pub x: i32,
    pub y: i32,
    pub z: i32,
}

// The difference of two points.
#[derive(Clone, Copy)]
struct Vector {
    x: i64,
    y: i64,
    z: i64,
}

// The weight of the triangle whose corners are these points of the grid's list.
pub fn weigh_named(grid: &[i32], a: usize, b: usize, c: usize) -> u64
    requires { Coordinates grid.now × Names grid.now a × Names grid.now b × Names grid.now c }
    ensures { result ≡ weight_of (point_of grid.now a) (point_of grid.now b) (point_of grid.now c) }
{
    weigh(point_at(grid, a), point_at(grid, b), point_at(grid, c))
}

// The three absolute differences of two points of the grid's list, added.
pub fn stride(grid: &[i32], a: usize, b: usize) -> u64
    requires { Coordinates grid.now × Names grid.now a × Names grid.now b }
    ensures { result ≡ stride_of grid.now a b }
{
    extent(minus(point_at(grid, b), point_at(grid, a)))
}

// The absolute values of a vector's three parts, added.
fn extent(v: Vector) -> u64
    requires { Short v }
    ensures { result ≡ size v }
{
    v.x.unsigned_abs() + v.y.unsigned_abs() + v.z.unsigned_abs()
}

// The point that the number names.
fn point_at(grid: &[i32], number: usize) -> Point
    requires { Coordinates grid.now × Names grid.now number }
    ensures { result ≡ point_of grid.now number }
{
    let at = 3 * number;
    Point {
        x: grid[at],
        y: grid[at + 1],
        z: grid[at + 2],
    }
}

// The weight of the triangle with these corners.
pub fn weigh(a: Point, b: Point, c: Point) -> u64
    requires { OnGrid a × OnGrid b × OnGrid c }
    ensures { result ≡ weight_of a b c }
{
    sizes(minus(b, a), minus(c, a))
}

// How b lies from a.
fn minus(b: Point, a: Point) -> Vector
    requires { OnGrid b × OnGrid a }
    ensures { result ≡ less b a }
{
    Vector {
        x: difference(b.x, a.x),
        y: difference(b.y, a.y),
        z: difference(b.z, a.z),
    }
}

// How one coordinate of b lies from that of a.
fn difference(b: i32, a: i32) -> i64
    requires { Coordinate b × Coordinate a }
    ensures { result ≡ b -ℤ a }
{
    b as i64 - a as i64
}

// The absolute values of the cross product's three components, added.
fn sizes(u: Vector, v: Vector) -> u64
    requires { Short u × Short v }
    ensures { result ≡ size (cross u v) }
{
    component(u.y, v.z, u.z, v.y) + component(u.z, v.x, u.x, v.z) + component(u.x, v.y, u.y, v.x)
}

// The absolute value of one component, p * q - r * s. Its sign is kept until the two products are subtracted.
fn component(p: i64, q: i64, r: i64, s: i64) -> u64
    requires { Difference p × Difference q × Difference r × Difference s }
    ensures { result ≡ nat_abs (p *ℤ q -ℤ r *ℤ s) }
{
    (p * q - r * s).unsigned_abs()
}
