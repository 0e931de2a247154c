// The points of a corner's net that are the corner's own, out of the net's 123 numbers: each side's samples by differences from row to row and
// from place to place, put to their places in a lent list.
ghost use Rattle.std.specs.Prelude.{◌≡◌, ℕ, ◌+◌, ◌-◌, ◌*◌, ◌^◌, ◌<◌, ◌≤◌, length, ℤ, pos};
ghost use Rattle.paper.specs.Faults.{sound};
ghost use Rattle.paper.specs.Floats.{net_verdict};
ghost use Rattle.bernstein.specs.Sums.{AllSized, row_of, polynomial_of};
ghost use Rattle.sampling.specs.Grid.{Sampleable, RowPut};
ghost use Rattle.net_points.specs.writing.Laid.{Reaches, reversed_of, InTurn, EndAim, EndPlace, CurveAim, CurvePlace, SpokeAim, SpokePlace, RingsAim, RingsPlace};
ghost use Rattle.net_points.specs.writing.Shapes.{Shapely, shape_size, ShapeAim, ShapePlace};

use bernstein::{Matrix5, Vector5};
use control_points::control_points;

// Which points a corner has of its own: 1 or 0 for the ends of its vertex, its leaving edge and its face; the parts of the borders of sides 0 and 1;
// and its level.
#[derive(Clone, Copy)]
pub struct Shape {
    pub vertex: usize,
    pub edge: usize,
    pub face: usize,
    pub first: usize,
    pub second: usize,
    pub level: usize,
}

// The ends and the centre among the 41 points.
const E0: usize = 0;

const E1: usize = 4;

const E2: usize = 24;

const CENTRE: usize = 12;

// A corner's own points, from `at` on.
pub fn put_net(numbers: &[i32], shape: Shape, points: &mut [i32], at: usize)
    requires { (net_verdict numbers.now ≡ sound) × Shapely shape × (at + 3 * shape_size shape ≤ length points.old) }
    ensures { (f : ℕ → ℤ) → ShapeAim numbers.now shape at f → Reaches f (ShapePlace shape at) points.old points.new }
{
    let n = shape.level;
    let to_edge = at + 3 * shape.vertex;
    let to_face = to_edge + 3 * shape.edge;
    let to_first = to_face + 3 * shape.face;
    let to_second = to_first + 3 * (shape.first - 1);
    let to_rings = to_second + 3 * (shape.second - 1);
    let to_centre = to_rings + 6 * (n * (n - 1));
    put_end(numbers, E0, shape.vertex, points, at);
    put_end(numbers, E1, shape.edge, points, to_edge);
    put_end(numbers, E2, shape.face, points, to_face);
    put_curve(numbers, 0, shape.first, points, to_first);
    put_curve(numbers, 1, shape.second, points, to_second);
    put_rings(numbers, n, points, to_rings);
    put_end(numbers, CENTRE, 1, points, to_centre);
}

// One of the 41 points, where it is the corner's own.
fn put_end(numbers: &[i32], point: usize, own: usize, points: &mut [i32], at: usize)
    requires { (3 * point + 3 ≤ length numbers.now) × (own ≤ 1) × (at + 3 * own ≤ length points.old) }
    ensures { (f : ℕ → ℤ) → EndAim numbers.now point own at f → Reaches f (EndPlace own at) points.old points.new }
{
    if own == 1 {
        points[at..at + 3].copy_from_slice(&numbers[3 * point..3 * point + 3]);
    }
}

// Each row from its other end.
fn reversed(p: Matrix5) -> Matrix5
    requires { AllSized (2 ^ 27) p }
    ensures { result ≡ reversed_of p }
{
    let r0 = p.r0;
    let r1 = p.r1;
    let r2 = p.r2;
    let r3 = p.r3;
    let r4 = p.r4;
    Matrix5 {
        r0: Vector5 {
            a: r0.e,
            b: r0.d,
            c: r0.c,
            d: r0.b,
            e: r0.a,
        },
        r1: Vector5 {
            a: r1.d,
            b: r1.c,
            c: r1.b,
            d: r1.a,
            e: 0,
        },
        r2: Vector5 {
            a: r2.c,
            b: r2.b,
            c: r2.a,
            d: 0,
            e: 0,
        },
        r3: Vector5 {
            a: r3.b,
            b: r3.a,
            c: 0,
            d: 0,
            e: 0,
        },
        r4: Vector5 {
            a: r4.a,
            b: 0,
            c: 0,
            d: 0,
            e: 0,
        },
    }
}

// The control points of a side on an axis, each row in turn.
pub fn turn_points(numbers: &[i32], side: usize, axis: usize) -> Matrix5
    requires { (net_verdict numbers.now ≡ sound) × (side ≤ 3) × (axis < 3) }
    ensures { InTurn numbers.now side axis result }
{
    let p = control_points(numbers, side, axis);
    if side % 2 == 1 {
        return reversed(p);
    }
    p
}

// The inner points of a side's border in m parts.
fn put_curve(numbers: &[i32], side: usize, m: usize, points: &mut [i32], at: usize)
    requires net { (net_verdict numbers.now ≡ sound) × (side ≤ 3) }
    requires parts { (1 ≤ m) × (m ≤ 16) × (at + 3 * (m - 1) ≤ length points.old) }
    ensures { (f : ℕ → ℤ) → CurveAim numbers.now side m at f → Reaches f (CurvePlace m at) points.old points.new }
{
    put_curve_on(turn_points(numbers, side, 0), m, points, at);
    put_curve_on(turn_points(numbers, side, 1), m, points, at + 1);
    put_curve_on(turn_points(numbers, side, 2), m, points, at + 2);
}

// The same on one axis.
fn put_curve_on(p: Matrix5, m: usize, points: &mut [i32], at: usize)
    requires { Sampleable p m × (at + 3 * (m - 1) ≤ length points.old + 2) }
    ensures { RowPut (row_of (polynomial_of p (pos m)) 0) m 1 (m - 1) at points.old points.new }
{
    let e = bernstein::row_at(p, 0, m);
    sampling::put_row(e, m, 1, m - 1, points, at);
}

// The rings of a net with level n but for the centre, side by side.
fn put_rings(numbers: &[i32], n: usize, points: &mut [i32], at: usize)
    requires { (net_verdict numbers.now ≡ sound) × (1 ≤ n) × (n ≤ 16) × (at + 6 * (n * (n - 1)) ≤ length points.old) }
    ensures { (f : ℕ → ℤ) → RingsAim numbers.now n at f → Reaches f (RingsPlace n at 4) points.old points.new }
{
    for side in 0..4 {
        put_spokes(turn_points(numbers, side, 0), side, n, points, at);
        put_spokes(turn_points(numbers, side, 1), side, n, points, at + 1);
        put_spokes(turn_points(numbers, side, 2), side, n, points, at + 2);
    }
}

// A side's rows on the rings, on one axis: of each ring the points from the side's first up to the next side's.
fn put_spokes(p: Matrix5, side: usize, n: usize, points: &mut [i32], at: usize)
    requires { Sampleable p n × (side ≤ 3) × (at + 6 * (n * (n - 1)) ≤ length points.old + 2) }
    ensures { (f : ℕ → ℤ) → SpokeAim p side n at f → Reaches f (SpokePlace side n at n) points.old points.new }
{
    let mut s = bernstein::start(p, n);
    for k in 0..n - 1 {
        s = bernstein::next(s);
        let w = n - k - 1;
        let e = bernstein::row(s);
        let ring = strips::rings_before(n, k);
        sampling::put_row(e, n, 0, w, points, at + 3 * (ring + side * w));
    }
}
