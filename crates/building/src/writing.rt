// The numbers that building writes: the refined points of the corners at the vertices of the range's faces are computed once, and then the
// quad-nets are written face by face, so that each part of the output is written once.
ghost use Rattle.std.specs.Prelude.{◌≡◌, ℕ, ◌+◌, ◌*◌, ◌≤◌, ◌<◌, List, length};
ghost use Rattle.paper.specs.Mesh.{of_lists};
ghost use Rattle.paper.specs.Corners.{sum_of, first_of, sides_of};
ghost use Rattle.paper.specs.Faults.{Accepted};
ghost use Rattle.paper.specs.Refined.{corners_of};
ghost use Rattle.paper.specs.Calls.{per_corner};
ghost use Rattle.numbers.specs.Stored.{stored};
ghost use Rattle.surface.specs.Points.{point_row};
ghost use Rattle.walk.specs.Table.{Tabled};
ghost use Rattle.corner_points.specs.RefinedPoints.{SmallPoints};
ghost use Rattle.net.specs.Drawn.{drawn, Drawn};
ghost use Rattle.building.specs.writing.Written.{WalksFaces, InFace, Faced, NetsDrawn, NetsWritten};

use numbers::cosines;
use paper::{MOST_VERTICES, MeshLists, NUMBERS_PER_CORNER};
use walk::Walker;

// The refined points of which the nets of `count` corners from `first` on are made: those of the corners at the vertices of the range's faces.
pub fn fill_range(lists: MeshLists, table: &[u16], first: usize, count: usize, points: &mut [i32])
    requires mesh { Accepted (of_lists lists) }
    requires table { Tabled (corners_of (of_lists lists)) table.now }
    requires range { (0 < count) × (first + count ≤ length lists.corners.now) }
    requires points { (point_row * length lists.corners.now ≤ length points.old) × SmallPoints points.old }
    ensures { NetsDrawn (of_lists lists.entry) table.now points.new first count }
{
    let start = walk::face_start(table, first);
    let end = face_end(table, first + count - 1);
    let mut marked = [0u8; MOST_VERTICES];
    refine::mark_vertices(lists.corners, start, end - start, &mut marked);
    refine::fill_points(lists, table, &marked, points);
}

// The corner after the last one of a corner's face.
fn face_end(table: &[u16], c: usize) -> usize
    requires { InFace table.now c }
    ensures { (sides : List ℕ) → WalksFaces sides table.now → c < sum_of sides → result ≡ first_of sides c + sides_of sides c }
{
    let start = walk::face_start(table, c);
    let at = Walker { corner: start };
    start + at.sides(table)
}

// The numbers of each corner of the range, a run of corners of one face at a time. The tables are those of n corners.
pub fn write_corners(
    points: &[i32],
    table: &[u16],
    rows: &cosines::Rows,
    n: usize,
    first: usize,
    count: usize,
    out: &mut [i32],
)
    requires mesh { Drawn n table.now points.now × Faced n table.now }
    requires range { (0 < count) × (first + count ≤ n) × (per_corner * count ≤ length out.old) }
    requires rows { rows.now ≡ stored }
    ensures { NetsWritten (drawn n table.now points.now) first count out.new }
{
    let mut stencil = [0i32; net::STENCIL];
    let mut lanes = [0i32; net::LANES];
    let mut k = 0;
    // From run to run: each ends with its face, or with the range.
    while k < count {
        let c = first + k;
        let run = (face_end(table, c) - c).min(count - k);
        let at = NUMBERS_PER_CORNER * k;
        net::put_run(
            points,
            table,
            rows,
            n,
            c,
            run,
            &mut stencil,
            &mut lanes,
            out,
            at,
        );
        k += run;
    }
}
