#![tactic(auto)]
// Face points: the centre of a refined face and its points towards its sides. The face of a vertex and the face of a mesh face are rings, gone
// round by a column of the table of corners; rings of three and of four are given by their corners in turn.
pub mod formulas;

ghost use Rattle.std.specs.Prelude.{◌≡◌, ◌+◌, ◌*◌, ◌^◌, ◌≤◌, ◌<◌, length, pos, nat_abs, ◌+ℤ◌, ◌*ℤ◌};
ghost use Rattle.paper.specs.Mesh.{least_sides, most_sides};
ghost use Rattle.paper.specs.Numbers.{round};
ghost use Rattle.paper.specs.Cosines.{unit};
ghost use Rattle.numbers.specs.Stored.{stored};
ghost use Rattle.numbers.specs.Units.{Units, Reciprocal};
ghost use Rattle.surface.specs.Points.{point_row, point_at};
ghost use Rattle.faces.specs.Ring.{around, ReadableOn, Readable, Ring, IsCentre, IsToward, ThreeCentre, ThreeToward, FourCentre, FourToward, OnAxes};

use crate::formulas::{mean, mean_of_three, toward, toward_of_three};
use numbers::cosines;
use numbers::rounding::round_units;
use paper::UNIT;
use surface::POINT_ROW;
use walk::Walker;

// What the weights of a ring sum to for each of its corners, where the table has UNIT for 1.
const WEIGHTS: i64 = 3 * UNIT;

// A point of a refined face, on the three axes.
#[derive(Clone, Copy)]
pub struct FacePoint {
    pub x: i32,
    pub y: i32,
    pub z: i32,
}

// The refined point of a corner on an axis.
pub fn point(points: &[i32], axis: usize, c: usize) -> i32
    requires { point_row * c + axis < length points.now }
    ensures { result ≡ point_at points.now axis c }
{
    points[POINT_ROW * c + axis]
}

// A sum round a ring with the point of one more corner, times its weight.
fn add_point(sum: i64, w: i64, points: &[i32], axis: usize, c: usize) -> i64
    requires point { ReadableOn points.now axis c }
    requires sizes { (nat_abs sum ≤ 2 ^ 61) × (nat_abs w ≤ 7 * unit) }
    ensures { result ≡ sum +ℤ w *ℤ point_at points.now axis c }
{
    sum + w * point(points, axis, c) as i64
}

// The weight of a place, from its cosine and that of the place before.
fn weigh(last: i64, next: i64) -> i64
    requires { (nat_abs last ≤ unit) × (nat_abs next ≤ unit) }
    ensures { result ≡ pos (3 * unit) +ℤ pos 2 *ℤ next +ℤ pos 2 *ℤ last }
{
    WEIGHTS + 2 * (last + next)
}

// The centre of the ring of m corners at c: their weights are equal; f is the reciprocal of 3m.
pub fn ring_centre(
    points: &[i32],
    table: &[u16],
    column: usize,
    c: usize,
    m: usize,
    f: u64,
) -> FacePoint
    requires ring { Ring points.now table.now column c m }
    requires reciprocal { Reciprocal (pos (3 * m)) f }
    ensures { OnAxes (λ axis. IsCentre (around points.now axis table.now column c) m) result }
{
    let mut x: i64 = 0;
    let mut y: i64 = 0;
    let mut z: i64 = 0;
    let mut at = Walker { corner: c };
    for _ in 0..m {
        x = add_point(x, WEIGHTS, points, 0, at.corner);
        y = add_point(y, WEIGHTS, points, 1, at.corner);
        z = add_point(z, WEIGHTS, points, 2, at.corner);
        at = at.by(table, column);
    }
    quotient(x, y, z, m, f)
}

// Its point towards the side from c to the next corner of the ring.
pub fn ring_toward(
    points: &[i32],
    table: &[u16],
    column: usize,
    rows: &cosines::Rows,
    c: usize,
    m: usize,
    f: u64,
) -> FacePoint
    requires ring { Ring points.now table.now column c m }
    requires rows { rows.now ≡ stored }
    requires reciprocal { Reciprocal (pos (3 * m)) f }
    ensures { OnAxes (λ axis. IsToward (around points.now axis table.now column c) m 0) result }
{
    let mut x: i64 = 0;
    let mut y: i64 = 0;
    let mut z: i64 = 0;
    let mut last = cosines::cosine(rows, m, m - 1);
    let mut at = Walker { corner: c };
    for j in 0..m {
        let next = cosines::cosine(rows, m, j);
        let w = weigh(last, next);
        x = add_point(x, w, points, 0, at.corner);
        y = add_point(y, w, points, 1, at.corner);
        z = add_point(z, w, points, 2, at.corner);
        last = next;
        at = at.by(table, column);
    }
    quotient(x, y, z, m, f)
}

// What weighted sums round a ring of m corners come to.
fn quotient(x: i64, y: i64, z: i64, m: usize, f: u64) -> FacePoint
    requires count { (least_sides ≤ m) × (m ≤ most_sides) × Reciprocal (pos (3 * m)) f }
    requires sums { Units x (pos (3 * m)) × Units y (pos (3 * m)) × Units z (pos (3 * m)) }
    ensures { (result.x ≡ round x (pos (3 * unit) *ℤ pos m)) × (result.y ≡ round y (pos (3 * unit) *ℤ pos m)) × (result.z ≡ round z (pos (3 * unit) *ℤ pos m)) }
{
    let d = 3 * m as i32;
    FacePoint {
        x: round_units(x, d, f),
        y: round_units(y, d, f),
        z: round_units(z, d, f),
    }
}

// A point of what each axis has.
fn on_axes<F: Fn(usize) -> i32>(value: F) -> FacePoint
    requires { F.pre value 0 × F.pre value 1 × F.pre value 2 }
    ensures { F.post value 0 result.x × F.post value 1 result.y × F.post value 2 result.z }
{
    FacePoint {
        x: value(0),
        y: value(1),
        z: value(2),
    }
}

// The centre of a ring of three corners on an axis: row 3 of the cosine table is exact.
fn three_mean(points: &[i32], axis: usize, c: usize, d: usize, e: usize) -> i32
    requires { ReadableOn points.now axis c × ReadableOn points.now axis d × ReadableOn points.now axis e }
    ensures { ThreeCentre (point_at points.now axis c) (point_at points.now axis d) (point_at points.now axis e) result }
{
    mean_of_three(
        point(points, axis, c),
        point(points, axis, d),
        point(points, axis, e),
    )
}

// The same on the three axes.
pub fn three_centre(points: &[i32], c: usize, d: usize, e: usize) -> FacePoint
    requires { Readable points.now c × Readable points.now d × Readable points.now e }
    ensures { OnAxes (λ axis. ThreeCentre (point_at points.now axis c) (point_at points.now axis d) (point_at points.now axis e)) result }
{
    on_axes(|axis| three_mean(points, axis, c, d, e))
}

// Its point towards the side from c to d.
fn three_weighted(points: &[i32], axis: usize, c: usize, d: usize, e: usize) -> i32
    requires { ReadableOn points.now axis c × ReadableOn points.now axis d × ReadableOn points.now axis e }
    ensures { ThreeToward (point_at points.now axis c) (point_at points.now axis d) (point_at points.now axis e) result }
{
    toward_of_three(
        point(points, axis, c),
        point(points, axis, d),
        point(points, axis, e),
    )
}

// The same on the three axes.
pub fn three_toward(points: &[i32], c: usize, d: usize, e: usize) -> FacePoint
    requires { Readable points.now c × Readable points.now d × Readable points.now e }
    ensures { OnAxes (λ axis. ThreeToward (point_at points.now axis c) (point_at points.now axis d) (point_at points.now axis e)) result }
{
    on_axes(|axis| three_weighted(points, axis, c, d, e))
}

// The centre of a ring of four corners on an axis: row 4 is exact too.
fn four_mean(points: &[i32], axis: usize, c: usize, d: usize, e: usize, g: usize) -> i32
    requires { ReadableOn points.now axis c × ReadableOn points.now axis d × ReadableOn points.now axis e × ReadableOn points.now axis g }
    ensures { FourCentre (point_at points.now axis c) (point_at points.now axis d) (point_at points.now axis e) (point_at points.now axis g) result }
{
    mean(
        point(points, axis, c),
        point(points, axis, d),
        point(points, axis, e),
        point(points, axis, g),
    )
}

// The same on the three axes.
pub fn four_centre(points: &[i32], c: usize, d: usize, e: usize, g: usize) -> FacePoint
    requires { Readable points.now c × Readable points.now d × Readable points.now e × Readable points.now g }
    ensures { OnAxes (λ axis. FourCentre (point_at points.now axis c) (point_at points.now axis d) (point_at points.now axis e) (point_at points.now axis g)) result }
{
    on_axes(|axis| four_mean(points, axis, c, d, e, g))
}

// Its point towards the side from c to d.
fn four_weighted(points: &[i32], axis: usize, c: usize, d: usize, e: usize, g: usize) -> i32
    requires { ReadableOn points.now axis c × ReadableOn points.now axis d × ReadableOn points.now axis e × ReadableOn points.now axis g }
    ensures { FourToward (point_at points.now axis c) (point_at points.now axis d) (point_at points.now axis e) (point_at points.now axis g) result }
{
    toward(
        point(points, axis, c),
        point(points, axis, d),
        point(points, axis, e),
        point(points, axis, g),
    )
}

// The same on the three axes.
pub fn four_toward(points: &[i32], c: usize, d: usize, e: usize, g: usize) -> FacePoint
    requires { Readable points.now c × Readable points.now d × Readable points.now e × Readable points.now g }
    ensures { OnAxes (λ axis. FourToward (point_at points.now axis c) (point_at points.now axis d) (point_at points.now axis e) (point_at points.now axis g)) result }
{
    on_axes(|axis| four_weighted(points, axis, c, d, e, g))
}
