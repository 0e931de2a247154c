#![tactic(auto)]
// The refined points of the corners at the vertices that are marked: a row for each corner. The sums of their faces are formed first, once for each
// face, and put into a table; the loop over the corners takes them from there.
ghost use Rattle.std.specs.Prelude.{◌≡◌, ◌+◌, ◌*◌, ◌≤◌, length, replicate};
ghost use Rattle.paper.specs.Mesh.{of_lists};
ghost use Rattle.paper.specs.Refined.{corners_of};
ghost use Rattle.mesh.specs.Tables.{Named};
ghost use Rattle.surface.specs.Points.{point_row};
ghost use Rattle.walk.specs.Table.{Tabled};
ghost use Rattle.refine.specs.Marks.{Marked};
ghost use Rattle.face_sums.specs.Sums.{sum_row};
ghost use Rattle.corner_points.specs.RefinedPoints.{SmallPoints};
ghost use Rattle.refine.specs.Sources.{Refinable, Covered, SumsFit};
ghost use Rattle.corner_points.specs.Mean.{CornerLists, FaceKnown};
ghost use Rattle.refine.specs.Pointed.{FacePointed, TablePointed, MarkedPointed};

use corner_points::{FaceSums, fill_corner, read_face};
use face_sums::fill_sums;
use mesh::SMALL_MESH;
use paper::{MOST_CORNERS, MOST_FACES, MeshLists};

// Marks the vertices of `count` corners from `first` on, in a table of zeros.
pub fn mark_vertices(corners: &[u16], first: usize, count: usize, marked: &mut [u8])
    requires named { Named corners.now (length marked.old) × (marked.old ≡ replicate (length marked.old) 0) }
    requires range { first + count ≤ length corners.now }
    ensures { Marked corners.now first count marked.new }
{
    for k in 0..count {
        let u = corners[first + k] as usize;
        marked[u] = 1;
    }
}

// The refined points of the corners whose vertex has a nonzero entry in `marked`. The table of sums has a number for each row of a table of the corners:
// a face has at least three corners, as many as its row of sums has numbers.
// The two calls stay side by side: with the tables' lengths as const parameters there would be two calls just the same.
pub fn fill_points(lists: MeshLists, table: &[u16], marked: &[u8], points: &mut [i32])
    requires mesh { Refinable (of_lists lists) }
    requires table { Tabled (corners_of (of_lists lists)) table.now }
    requires marked { Named lists.corners.now (length marked.now) }
    requires points { (point_row * length lists.corners.now ≤ length points.old) × SmallPoints points.old }
    ensures { MarkedPointed (of_lists lists.entry) marked.now points.old points.new }
{
    if mesh::table_rows(lists.corners.len()) == SMALL_MESH {
        let mut sums = [0i32; SMALL_MESH];
        let mut wanted = [0u8; SMALL_MESH];
        fill_over(lists, table, marked, &mut wanted, &mut sums, points);
    } else {
        let mut sums = [0i32; MOST_CORNERS];
        let mut wanted = [0u8; MOST_FACES];
        fill_over(lists, table, marked, &mut wanted, &mut sums, points);
    }
}

// The same over lent tables: the sums are put into `sums`, and `wanted` gets an entry for each face. `fill_points` has nothing but this call and its
// tables, so that the compiler puts it in line: its tables then share their place with those that its caller no longer needs.
fn fill_over(
    lists: MeshLists,
    table: &[u16],
    marked: &[u8],
    wanted: &mut [u8],
    sums: &mut [i32],
    points: &mut [i32],
)
    requires mesh { Refinable (of_lists lists) }
    requires table { Tabled (corners_of (of_lists lists)) table.now }
    requires marked { Named lists.corners.now (length marked.now) }
    requires room { (length lists.sides.now ≤ length wanted.old) × (sum_row * length lists.sides.now ≤ length sums.old) }
    requires points { (point_row * length lists.corners.now ≤ length points.old) × SmallPoints points.old }
    ensures { MarkedPointed (of_lists lists.entry) marked.now points.old points.new }
{
    fill_sums(
        lists.coordinates,
        lists.sides,
        lists.corners,
        marked,
        wanted,
        sums,
    );
    fill_faces(lists, table, marked, wanted, sums, points);
}

// The same by a table of sums. A face that has such a corner has a nonzero entry in `wanted`. Of the sums nothing is known but their sizes: the points
// are those of the table's rows, whatever these hold.
fn fill_faces(
    lists: MeshLists,
    table: &[u16],
    marked: &[u8],
    wanted: &[u8],
    sums: &[i32],
    points: &mut [i32],
)
    requires mesh { Refinable (of_lists lists) }
    requires table { Tabled (corners_of (of_lists lists)) table.now }
    requires marked { Named lists.corners.now (length marked.now) × Covered lists.sides.now lists.corners.now marked.now wanted.now }
    requires sums { SumsFit lists.sides.now wanted.now sums.now }
    requires points { (point_row * length lists.corners.now ≤ length points.old) × SmallPoints points.old }
    ensures { TablePointed (of_lists lists.entry) sums.now marked.now (length lists.entry.corners.now) points.old points.new }
{
    let mut start = 0;
    for f in 0..lists.sides.len() {
        let needed = wanted[f] != 0;
        if needed {
            let face = read_face(lists.sides, sums, f);
            fill_face(
                lists.coordinates,
                lists.corners,
                lists.sharpness,
                table,
                marked,
                face,
                start,
                points,
            );
        }
        start += lists.sides[f] as usize;
    }
}

// The same of one face, whose first corner is `start`. A face has corners, so the end is looked for last: in front of a loop that may not begin,
// the compiler makes jumps of the table of reciprocals.
fn fill_face(
    coordinates: &[i32],
    corners: &[u16],
    sharpness: &[u8],
    table: &[u16],
    marked: &[u8],
    face: FaceSums,
    start: usize,
    points: &mut [i32],
)
    requires lists { CornerLists coordinates.now corners.now sharpness.now table.now }
    requires marked { Named corners.now (length marked.now) }
    requires face { (start + face.sides ≤ length corners.now) × FaceKnown face }
    requires points { (point_row * length corners.now ≤ length points.old) × SmallPoints points.old }
    ensures { FacePointed coordinates.now corners.now sharpness.now table.now marked.now face start (start + face.sides) points.old points.new }
{
    let end = start + face.sides as usize;
    let mut c = start;
    loop {
        let u = corners[c] as usize;
        if marked[u] != 0 {
            fill_corner(coordinates, corners, sharpness, table, face, c, points);
        }
        c += 1;
        if end <= c {
            break;
        }
    }
}
