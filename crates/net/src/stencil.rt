// The stencil of a quad-net: the rows that it is made from, four numbers each, x, y, z and one that is not used. They are the refined points of the corner
// and of six around it; then the centre of its vertex's ring and its points behind and ahead of the corner; then the same of its face's ring, for all
// corners of a run.
ghost use Rattle.std.specs.Prelude.{◌≡◌, ◌+◌, ◌*◌, ◌≤◌, ◌<◌, length};
ghost use Rattle.paper.specs.Mesh.{most_sides};
ghost use Rattle.numbers.specs.Stored.{stored};
ghost use Rattle.surface.specs.Points.{point_row};
ghost use Rattle.walk.specs.Table.{to_link, sides_here, entry, tabled};
ghost use Rattle.net_rows.specs.sides.Values.{corners_around};
ghost use Rattle.net.specs.Drawn.{drawn, Drawn, CornerIn};
ghost use Rattle.net.specs.copy.Copy.{PointPut};
ghost use Rattle.net.specs.stencil.Taken.{FaceTaken, VertexTaken, CornerTaken, WholeTaken};

use faces::{FacePoint, point};
use numbers::cosines;
use numbers::rounding::reciprocal;
use surface::POINT_ROW;
use walk::{LINK, NEXT, Walker};

// The corners whose refined points they hold.
pub const AROUND: usize = 7;

// Where the rows of the two rings begin.
pub const VERTEX: usize = 7;

pub const FACE: usize = 10;

// A row.
fn take_row(p: FacePoint, stencil: &mut [i32], i: usize)
    requires { point_row * i + 3 ≤ length stencil.old }
    ensures { PointPut p.x p.y p.z (point_row * i) 3 stencil.old stencil.new }
{
    crate::copy::put_three(p.x, p.y, p.z, stencil, POINT_ROW * i);
}

// The ring of the face of c, for a run of corners from c on.
pub fn take_face(
    points: &[i32],
    table: &[u16],
    rows: &cosines::Rows,
    count: usize,
    c: usize,
    run: usize,
    stencil: &mut [i32],
)
    requires mesh { Drawn count table.now points.now × (c < count) × (rows.now ≡ stored) }
    requires room { (length stencil.old ≡ 128) × (run ≤ most_sides) }
    ensures { FaceTaken (drawn count table.now points.now) c (run + 1) stencil.old stencil.new }
{
    let here = Walker { corner: c };
    let n = here.sides(table);
    if n == 4 {
        take_quad(points, table, count, c, run, stencil);
    } else {
        take_ring(points, table, rows, count, c, n, run, stencil);
    }
}

// The same of a face of four sides.
fn take_quad(points: &[i32], table: &[u16], count: usize, c: usize, run: usize, stencil: &mut [i32])
    requires mesh { Drawn count table.now points.now × (c < count) × (entry table.now sides_here c ≡ 4) }
    requires room { (length stencil.old ≡ 128) × (run ≤ most_sides) }
    ensures { FaceTaken (drawn count table.now points.now) c (run + 1) stencil.old stencil.new }
{
    let mut here = Walker { corner: c };
    let mut before = here.previous(table);
    let mut next = here.next(table);
    let mut far = next.next(table);
    let centre = faces::four_centre(points, c, next.corner, far.corner, before.corner);
    take_row(centre, stencil, FACE);
    for r in 0..run + 1 {
        let p = faces::four_toward(points, before.corner, here.corner, next.corner, far.corner);
        take_row(p, stencil, FACE + 1 + r);
        let first = before;
        before = here;
        here = next;
        next = far;
        far = first;
    }
}

// The same of another, of n sides.
fn take_ring(
    points: &[i32],
    table: &[u16],
    rows: &cosines::Rows,
    count: usize,
    c: usize,
    n: usize,
    run: usize,
    stencil: &mut [i32],
)
    requires mesh { Drawn count table.now points.now × (c < count) × (entry table.now sides_here c ≡ n) × (rows.now ≡ stored) }
    requires room { (length stencil.old ≡ 128) × (run ≤ most_sides) }
    ensures { FaceTaken (drawn count table.now points.now) c (run + 1) stencil.old stencil.new }
{
    let f = reciprocal(3 * n as i32);
    let centre = faces::ring_centre(points, table, NEXT, c, n, f);
    take_row(centre, stencil, FACE);
    let here = Walker { corner: c };
    let mut at = here.previous(table);
    for r in 0..run + 1 {
        let p = faces::ring_toward(points, table, NEXT, rows, at.corner, n, f);
        take_row(p, stencil, FACE + 1 + r);
        at = at.next(table);
    }
}

// The ring of the vertex of c: b comes before c in it, d after it.
fn take_vertex(
    points: &[i32],
    table: &[u16],
    rows: &cosines::Rows,
    count: usize,
    c: usize,
    b: usize,
    d: usize,
    stencil: &mut [i32],
)
    requires mesh { Drawn count table.now points.now × (c < count) × (rows.now ≡ stored) }
    requires ring { (b < count) × (entry table.now to_link b ≡ c) × (d ≡ entry table.now to_link c) }
    requires room { length stencil.old ≡ 128 }
    ensures { VertexTaken (drawn count table.now points.now) c stencil.old stencil.new }
{
    let here = Walker { corner: c };
    let m = here.valence(table);
    if m == 3 {
        take_row(faces::three_centre(points, c, d, b), stencil, VERTEX);
        take_row(faces::three_toward(points, b, c, d), stencil, VERTEX + 1);
        take_row(faces::three_toward(points, c, d, b), stencil, VERTEX + 2);
    } else if m == 4 {
        let after = Walker { corner: d };
        let far = after.linked(table);
        let e = far.corner;
        take_row(faces::four_centre(points, c, d, e, b), stencil, VERTEX);
        take_row(faces::four_toward(points, b, c, d, e), stencil, VERTEX + 1);
        take_row(faces::four_toward(points, c, d, e, b), stencil, VERTEX + 2);
    } else {
        let f = reciprocal(3 * m as i32);
        let centre = faces::ring_centre(points, table, LINK, c, m, f);
        let behind = faces::ring_toward(points, table, LINK, rows, b, m, f);
        let ahead = faces::ring_toward(points, table, LINK, rows, c, m, f);
        take_row(centre, stencil, VERTEX);
        take_row(behind, stencil, VERTEX + 1);
        take_row(ahead, stencil, VERTEX + 2);
    }
}

// The corner and those around it: the rings of its leaving and of its arriving edge.
fn corners_around(table: &[u16], count: usize, c: usize) -> [usize; AROUND]
    requires { CornerIn count table.now c }
    ensures { result ≡ corners_around (tabled count table.now) c }
{
    let here = Walker { corner: c };
    let next = here.next(table);
    let link = here.linked(table);
    let far = link.previous(table);
    let previous = here.previous(table);
    let opposite = previous.linked(table);
    let across = opposite.previous(table);
    [
        c,
        next.corner,
        far.corner,
        link.corner,
        across.corner,
        opposite.corner,
        previous.corner,
    ]
}

// The rows of a corner: those of its vertex's ring and of the corners around it.
pub fn take_corner(
    points: &[i32],
    table: &[u16],
    rows: &cosines::Rows,
    count: usize,
    c: usize,
    stencil: &mut [i32],
)
    requires mesh { Drawn count table.now points.now × (c < count) × (rows.now ≡ stored) }
    requires room { length stencil.old ≡ 128 }
    ensures { CornerTaken (drawn count table.now points.now) c stencil.old stencil.new }
{
    let corners = corners_around(table, count, c);
    take_vertex(
        points, table, rows, count, c, corners[4], corners[3], stencil,
    );
    for i in 0..AROUND {
        take_whole(points, corners[i], stencil, i);
    }
}

// A row of refined points, taken whole, with the number that is not used: the compiler reads it in one step.
fn take_whole(points: &[i32], c: usize, stencil: &mut [i32], i: usize)
    requires { (point_row * c + 4 ≤ length points.now) × (point_row * i + 4 ≤ length stencil.old) }
    ensures { WholeTaken points.now c i stencil.old stencil.new }
{
    let x = point(points, 0, c);
    let y = point(points, 1, c);
    let z = point(points, 2, c);
    let w = point(points, 3, c);
    crate::copy::put_four(x, y, z, w, stencil, POINT_ROW * i);
}
