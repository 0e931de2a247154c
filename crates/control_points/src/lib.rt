#![tactic(auto)]
// L12: the control points of one of a quad-net's four triangles, read out of the net's 123 numbers.
ghost use Rattle.std.specs.Prelude.{◌≡◌, ◌+◌, ◌*◌, ◌^◌, ◌≤◌, ◌<◌, nat_abs};
ghost use Rattle.paper.specs.Faults.{sound};
ghost use Rattle.paper.specs.Floats.{net_verdict};
ghost use Rattle.paper.specs.Sampling.{on_axis, control, side_at};
ghost use Rattle.bernstein.specs.Sums.{rows_of};
ghost use Rattle.control_points.specs.Places.{b_place, a_place};

use bernstein::{Matrix5, Vector5};

// A side's triangle of a net, on an axis.
#[derive(Clone, Copy)]
struct Triangle<'a> {
    numbers: &'a [i32],
    side: usize,
    axis: usize,
    ghost net: { net_verdict numbers.now ≡ sound },
    ghost within: { (side ≤ 3) × (axis < 3) },
}

// The 15 control points of a side's triangle on an axis, in rows from the side inwards and each row from the head.
pub fn control_points(numbers: &[i32], side: usize, axis: usize) -> Matrix5
    requires { (net_verdict numbers.now ≡ sound) × (side ≤ 3) × (axis < 3) }
    ensures { result ≡ rows_of (control (on_axis numbers.now axis) (side_at side)) }
{
    let t = Triangle {
        numbers: numbers,
        side: side,
        axis: axis,
    };
    Matrix5 {
        r0: t.outer_row(),
        r1: t.a_row(),
        r2: t.inner_row(),
        r3: Vector5 {
            a: t.a_point(1, 0),
            b: t.a_point(1, 1),
            ..Vector5::ZERO
        },
        r4: Vector5 {
            a: t.b_point(2, 0),
            ..Vector5::ZERO
        },
    }
}

impl<'a> Triangle<'a> {
    // The five outer b points of the side.
    fn outer_row(&self) -> Vector5
        ensures { result ≡ (rows_of (control (on_axis self.now.numbers.now self.now.axis) (side_at self.now.side))).r0 }
    {
        Vector5 {
            a: self.b_point(0, 0),
            b: self.b_point(0, 1),
            c: self.b_point(0, 2),
            d: self.b_point(0, 3),
            e: self.b_point(0, 4),
        }
    }

    // Its four a points.
    fn a_row(&self) -> Vector5
        ensures { result ≡ (rows_of (control (on_axis self.now.numbers.now self.now.axis) (side_at self.now.side))).r1 }
    {
        Vector5 {
            a: self.a_point(0, 0),
            b: self.a_point(0, 1),
            c: self.a_point(0, 2),
            d: self.a_point(0, 3),
            ..Vector5::ZERO
        }
    }

    // Three b points of the next row.
    fn inner_row(&self) -> Vector5
        ensures { result ≡ (rows_of (control (on_axis self.now.numbers.now self.now.axis) (side_at self.now.side))).r2 }
    {
        Vector5 {
            a: self.b_point(1, 0),
            b: self.b_point(1, 1),
            c: self.b_point(1, 2),
            ..Vector5::ZERO
        }
    }

    // A b point of the triangle, by the row inwards and the place along it from the head.
    fn b_point(&self, inward: usize, along: usize) -> i64
        requires { 2 * inward + along ≤ 4 }
        ensures { (result ≡ on_axis self.now.numbers.now self.now.axis (b_place self.now.side inward along)) × (nat_abs result ≤ 2 ^ 27) }
    {
        self.number(b_place(self.side, inward, along))
    }

    // An a point likewise.
    fn a_point(&self, inward: usize, along: usize) -> i64
        requires { 2 * inward + along ≤ 3 }
        ensures { (result ≡ on_axis self.now.numbers.now self.now.axis (a_place self.now.side inward along)) × (nat_abs result ≤ 2 ^ 27) }
    {
        self.number(a_place(self.side, inward, along))
    }

    // A point's number on the axis.
    fn number(&self, point: usize) -> i64
        requires { point ≤ 40 }
        ensures { (result ≡ on_axis self.now.numbers.now self.now.axis point) × (nat_abs result ≤ 2 ^ 27) }
    {
        i64::from(self.numbers[3 * point + self.axis])
    }
}

// Which of the 41 points that is. Sides 1 and 2 have their head at the end of the b rows, sides 1 and 3 run across the rows.
fn b_place(side: usize, inward: usize, along: usize) -> usize
    requires { (side ≤ 3) × (2 * inward + along ≤ 4) }
    ensures { (result ≡ b_place side inward along) × (result ≤ 24) }
{
    match side {
        0 => 6 * inward + along,
        1 => 24 - 6 * inward - 5 * along,
        2 => 24 - 6 * inward - along,
        _ => 6 * inward + 5 * along,
    }
}

fn a_place(side: usize, inward: usize, along: usize) -> usize
    requires { (side ≤ 3) × (2 * inward + along ≤ 3) }
    ensures { (result ≡ a_place side inward along) × (result ≤ 40) }
{
    match side {
        0 => 25 + 5 * inward + along,
        1 => 40 - 5 * inward - 4 * along,
        2 => 40 - 5 * inward - along,
        _ => 25 + 5 * inward + 4 * along,
    }
}
