// L14: the largest misses across the borders of a mesh. Each border counts once: sides 0 and 1 of each corner. The output for all corners is too
// large for the stack, so that the quad-nets are made face by face: those of a face's corners stand side by side, and for each corner that of its link
// is made besides.
ghost use Rattle.std.specs.Prelude.{◌≡◌, ℕ, ◌+◌, ◌*◌, ◌<◌, ◌≤◌, length, get_or, pos};
ghost use Rattle.paper.specs.Net.{net_points};
ghost use Rattle.paper.specs.Calls.{per_corner};
ghost use Rattle.paper.specs.Report.{conditions, largest_below};
ghost use Rattle.numbers.specs.Stored.{stored};
ghost use Rattle.surface.specs.Sizes.{WrittenSize};
ghost use Rattle.walk.specs.Table.{to_next, to_link, entry};
ghost use Rattle.net_rows.specs.sides.Values.{SideSized};
ghost use Rattle.net.specs.Drawn.{drawn, Drawn};
ghost use Rattle.net.specs.stencil.Taken.{Run, FaceTaken};
ghost use Rattle.building.specs.writing.Written.{Faced, NetsWritten};
ghost use Rattle.border_report.specs.misses.Row.{SmallRow};
ghost use Rattle.border_report.specs.border_misses.Held.{point_in, SmallOn, NetHeldAll, WholeFace, FaceKept, corner_miss, AxisMisses, four_of};

use net::STENCIL;
use numbers::cosines;
use paper::{CONDITIONS, MOST_SIDES, NUMBERS_PER_CORNER};
use walk::Walker;

// The numbers of the corners of a face, at most.
const FACE_NUMBERS: usize = MOST_SIDES * NUMBERS_PER_CORNER;

// The largest miss of each condition over all borders of n corners.
pub(crate) fn largest(points: &[i32], table: &[u16], n: usize) -> [u64; CONDITIONS]
    requires { Drawn n table.now points.now × Faced n table.now }
    ensures { (j : ℕ) → j < conditions → get_or result j 0 ≡ largest_below n (corner_miss (drawn n table.now points.now) j) }
{
    let rows = cosines::rows();
    let mut face = [0i32; FACE_NUMBERS];
    let mut most = [0u64; CONDITIONS];
    let mut start = 0;
    // From face to face: each has a count of its own.
    while start < n {
        let first = Walker { corner: start };
        let k = first.sides(table);
        building::writing::write_corners(points, table, &rows, n, start, k, &mut face);
        let larger = face_misses(points, table, &rows, n, start, k, &face, most);
        most = larger;
        start += k;
    }
    most
}

// The same over the borders of the k corners of a face from `start` on, and over those before: `face` has the numbers of these corners. The rows of the
// face's ring are taken once for all of them.
fn face_misses(
    points: &[i32],
    table: &[u16],
    rows: &cosines::Rows,
    n: usize,
    start: usize,
    k: usize,
    face: &[i32],
    before: [u64; CONDITIONS],
) -> [u64; CONDITIONS]
    requires mesh { Drawn n table.now points.now × Faced n table.now × (rows.now ≡ stored) }
    requires face { WholeFace table.now n start k }
    requires numbers { (per_corner * k ≤ length face.now) × NetsWritten (drawn n table.now points.now) start k face.now }
    requires before { (j : ℕ) → j < conditions → get_or before j 0 ≡ largest_below start (corner_miss (drawn n table.now points.now) j) }
    ensures { (j : ℕ) → j < conditions → get_or result j 0 ≡ largest_below (start + k) (corner_miss (drawn n table.now points.now) j) }
{
    let mut linked = [0i32; NUMBERS_PER_CORNER];
    let mut stencil = [0i32; STENCIL];
    net::stencil::take_face(points, table, rows, n, start, k, &mut stencil);
    let mut most = before;
    for j in 0..k {
        let at = Walker { corner: start + j };
        let l = at.linked(table);
        building::writing::write_corners(points, table, rows, n, l.corner, 1, &mut linked);
        let q = if j + 1 < k { j + 1 } else { 0 };
        let next = NUMBERS_PER_CORNER * q;
        let m = corner_misses(
            points,
            table,
            rows,
            n,
            start,
            j,
            face,
            &linked,
            next,
            &mut stencil,
        );
        let larger = pages::larger_of(most, m);
        most = larger;
    }
    most
}

// The largest misses of sides 0 and 1 of corner j of a face, from its numbers and those of the next corner in its face's, and from those of its link. The
// rows of the face's ring stand in `stencil`, and are left there.
fn corner_misses(
    points: &[i32],
    table: &[u16],
    rows: &cosines::Rows,
    n: usize,
    start: usize,
    j: usize,
    face: &[i32],
    linked: &[i32],
    next: usize,
    stencil: &mut [i32],
) -> [u64; CONDITIONS]
    requires mesh { Drawn n table.now points.now × (start + j < n) × (rows.now ≡ stored) }
    requires ring { Run table.now start (j + 1) × (length stencil.old ≡ 128) × FaceTaken (drawn n table.now points.now) start (j + 2) stencil.old stencil.old }
    requires here { NetHeldAll (drawn n table.now points.now) (start + j) face.now (per_corner * j) }
    requires linked { NetHeldAll (drawn n table.now points.now) (entry table.now to_link (start + j)) linked.now 0 }
    requires next { NetHeldAll (drawn n table.now points.now) (entry table.now to_next (start + j)) face.now next }
    ensures misses { (i : ℕ) → i < conditions → get_or result i 0 ≡ corner_miss (drawn n table.now points.now) i (start + j) }
    ensures ring { FaceKept stencil.old stencil.new }
{
    let c = start + j;
    let here = NUMBERS_PER_CORNER * j;
    net::stencil::take_corner(points, table, rows, n, c, stencil);
    let rings = net::rings_at(table, rows, n, c, j);
    let a = net::lanes::lane_sides(stencil, 0, rings);
    let b = net::lanes::lane_sides(stencil, 1, rings);
    let d = net::lanes::lane_sides(stencil, 2, rings);
    let x = axis_misses(a, 0, face, here, linked, next);
    let y = axis_misses(b, 1, face, here, linked, next);
    let z = axis_misses(d, 2, face, here, linked, next);
    pages::larger_of(pages::larger_of(x, y), z)
}

// The same on one axis, from the sides there.
fn axis_misses(
    sides: net_rows::sides::NetSides,
    axis: usize,
    face: &[i32],
    here: usize,
    linked: &[i32],
    next: usize,
) -> [u64; CONDITIONS]
    requires sides { SideSized sides.side0 × SideSized sides.side1 }
    requires numbers { (axis < 3) × SmallOn face.now here axis × SmallOn linked.now 0 axis × SmallOn face.now next axis }
    ensures { AxisMisses sides axis face.now here linked.now next result }
{
    let side0 = sides.side0;
    let outer0 = row(face, here, axis, 0, 1, 2, 3);
    let own0 = row(face, here, axis, 25, 26, 27, 28);
    let other0 = row(linked, 0, axis, 25, 29, 33, 37);
    let across_link = crate::misses::side_misses(side0, outer0, own0, other0);
    let side1 = sides.side1;
    let outer1 = row(face, here, axis, 24, 19, 14, 9);
    let own1 = row(face, here, axis, 40, 36, 32, 28);
    let other1 = row(face, next, axis, 40, 39, 38, 37);
    let across_next = crate::misses::side_misses(side1, outer1, own1, other1);
    pages::larger_of(across_link, across_next)
}

// Four points of a corner's numbers, from `at` on, on an axis.
fn row(
    net: &[i32],
    at: usize,
    axis: usize,
    p: usize,
    q: usize,
    r: usize,
    s: usize,
) -> [i64; CONDITIONS]
    requires net { SmallOn net.now at axis × (axis < 3) }
    requires places { (p < net_points) × (q < net_points) × (r < net_points) × (s < net_points) }
    ensures { ((j : ℕ) → j < conditions → get_or result j (pos 0) ≡ four_of (point_in net.now at axis) p q r s j) × SmallRow result }
{
    [
        point(net, at, axis, p),
        point(net, at, axis, q),
        point(net, at, axis, r),
        point(net, at, axis, s),
    ]
}

// One of them.
fn point(net: &[i32], at: usize, axis: usize, k: usize) -> i64
    requires { SmallOn net.now at axis × (axis < 3) × (k < net_points) }
    ensures { (result ≡ point_in net.now at axis k) × WrittenSize result }
{
    i64::from(net[at + 3 * k + axis])
}
