// The rows along a side of a quad-net and the two grids of its control points, on one axis: one function for the rows of four
// sides, then four rows of four a points and five rows of five b points.
ghost use Rattle.surface.specs.Sizes.{WrittenSize};
ghost use Rattle.net_rows.specs.sides.Values.{SideSized};
ghost use Rattle.net_rows.specs.rows.SideRows.{a12, a21, RowsOf, FourRowsSized, IsAGrid, IsBGrid};

use crate::sides::SideValues;
use faces::formulas::{half, middle, quarter, second, third};

// What the grids take of a side: the points of its outer row between the ends, of its a row, and the middle of the next row.
#[derive(Clone, Copy)]
pub struct RowValues {
    pub outer1: i32,
    pub outer2: i32,
    pub outer3: i32,
    pub a1: i32,
    pub a2: i32,
    pub middle: i32,
}

// The rows of a side; g and l are the other sides at its head and tail, o is the opposite one.
pub(crate) fn side_rows(f: SideValues, g: SideValues, l: SideValues, o: SideValues) -> RowValues
    requires { SideSized f × SideSized g × SideSized l × SideSized o }
    ensures { RowsOf f g l o result }
{
    let h = f.head;
    let t = f.tail;
    let x = f.x;
    let y = f.y;
    let n = f.inner;
    let c = f.cosine;
    let gx = g.x;
    let gn = g.inner;
    let ly = l.y;
    let ln = l.inner;
    let on = o.inner;
    RowValues {
        outer1: quarter(h, x),
        outer2: half(x, y),
        outer3: quarter(t, y),
        a1: second(c, h, x, y, gx, n),
        a2: third(c, t, y, ly, n),
        middle: middle(n, on, gn, ln, gx, ly, h, t),
    }
}

// Four rows of four a points. Those beside the centre come from the two middle b points beside them.
pub(crate) fn a_grid(r0: RowValues, r1: RowValues, r2: RowValues, r3: RowValues) -> [[i32; 4]; 4]
    requires { FourRowsSized r0 r1 r2 r3 }
    ensures { IsAGrid r0 r1 r2 r3 result }
{
    let a00 = half(r0.outer1, r3.outer1);
    let a03 = half(r0.outer3, r1.outer3);
    let a30 = half(r3.outer3, r2.outer3);
    let a33 = half(r2.outer1, r1.outer1);
    let a11 = half(r0.middle, r3.middle);
    let a12 = half(r0.middle, r1.middle);
    let a21 = half(r3.middle, r2.middle);
    let a22 = half(r1.middle, r2.middle);
    let g0 = [a00, r0.a1, r0.a2, a03];
    let g1 = [r3.a1, a11, a12, r1.a2];
    let g2 = [r3.a2, a21, a22, r1.a1];
    let g3 = [a30, r2.a2, r2.a1, a33];
    [g0, g1, g2, g3]
}

// Five rows of five b points. Those one step in from the ends come from the two a points beside them, and the centre from a12 and
// a21.
pub(crate) fn b_grid(
    e0: i32,
    e1: i32,
    e2: i32,
    e3: i32,
    r0: RowValues,
    r1: RowValues,
    r2: RowValues,
    r3: RowValues,
    a: [[i32; 4]; 4],
) -> [[i32; 5]; 5]
    requires { FourRowsSized r0 r1 r2 r3 × WrittenSize (a12 a) × WrittenSize (a21 a) }
    ensures { IsBGrid e0 e1 e2 e3 r0 r1 r2 r3 a result }
{
    let b11 = half(r3.a1, r0.a1);
    let b13 = half(r0.a2, r1.a2);
    let b31 = half(r3.a2, r2.a2);
    let b33 = half(r2.a1, r1.a1);
    let b22 = half(a[1][2], a[2][1]);
    let g0 = [e0, r0.outer1, r0.outer2, r0.outer3, e1];
    let g1 = [r3.outer1, b11, r0.middle, b13, r1.outer3];
    let g2 = [r3.outer2, r3.middle, b22, r1.middle, r1.outer2];
    let g3 = [r3.outer3, b31, r2.middle, b33, r1.outer1];
    let g4 = [e3, r2.outer3, r2.outer2, r2.outer1, e2];
    [g0, g1, g2, g3, g4]
}
