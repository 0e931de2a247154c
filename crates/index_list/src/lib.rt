#![tactic(auto)]
// The triangles of paper/specs/Triangles.antt as a list of point numbers: the rows of a net's sides, the strips between them, side by side and corner by
// corner.
ghost use Rattle.std.specs.Prelude.{◌≡◌, ◌+◌, ◌-◌, ◌*◌, ◌<◌, ◌≤◌, length};
ghost use Rattle.paper.specs.Mesh.{Mesh, most_corners};
ghost use Rattle.paper.specs.File.{begins};
ghost use Rattle.paper.specs.Sampling.{side_at};
ghost use Rattle.paper.specs.Triangles.{triangles_before, triangle_list};
ghost use Rattle.strips.specs.PointRows.{RowFits};
ghost use Rattle.numbering.specs.Meshed.{OfTables, GivenTables, StartedTables, StartingTables};
ghost use Rattle.index_list.specs.Rows.{RowOf, side_start, TrianglesPut};

use numbering::CornerTables;
use paper::MOST_CORNERS;
use strips::NumberedRow;

// Where the points of each corner start.
fn fill_starts(tables: CornerTables, starts: &mut [u32])
    requires { GivenTables tables × (length tables.levels.now ≤ length starts.old) × (length tables.levels.now ≤ most_corners) }
    ensures { (M : Mesh) → OfTables M tables.entry → StartedTables M tables.entry starts.new }
{
    let mut sum = 0;
    for c in 0..tables.levels.len() {
        starts[c] = sum as u32;
        sum += numbering::points_of(tables, c);
    }
}

// A side's row of points on the border.
fn outer_row(tables: CornerTables, starts: &[u32], c: usize, side: usize) -> NumberedRow
    requires { StartingTables tables starts.now × (c < length tables.levels.now) × (side ≤ 3) }
    ensures { RowFits result × ((M : Mesh) → StartedTables M tables.entry starts.now → RowOf M tables.entry.levels.now c (side_at side) 0 result) }
{
    let first = numbering::end_number(tables, starts, c, side);
    let after = if side < 3 { side + 1 } else { 0 };
    let last = numbering::end_number(tables, starts, c, after);
    let base = numbering::curve_start(tables, starts, c, side);
    let parts = owners::segments_at(tables.table, tables.levels, c, side);
    NumberedRow {
        first,
        last,
        base,
        parts,
        up: side < 2,
    }
}

// The triangles of a side of a corner's net, strip by strip. It answers where they end.
fn put_side(
    tables: CornerTables,
    starts: &[u32],
    c: usize,
    side: usize,
    out: &mut [u32],
    at: usize,
) -> usize
    requires starting { StartingTables tables starts.now × (c < length tables.levels.now) × (side ≤ 3) }
    requires room { (M : Mesh) → StartedTables M tables starts.now → at + 3 * (side_start M tables.levels.now c (side + 1) - side_start M tables.levels.now c side) ≤ length out.old }
    ensures { (M : Mesh) → StartedTables M tables.entry starts.now → TrianglesPut M tables.entry.levels.now (side_start M tables.entry.levels.now c side) (side_start M tables.entry.levels.now c (side + 1)) at result out.old out.new }
{
    let n = owners::level_at(tables.levels, c);
    let five = numbering::group_start(tables, starts, c, 5);
    let mut lower = outer_row(tables, starts, c, side);
    let mut to = at;
    for k in 0..n {
        let w = n - k - 1;
        let ring = strips::rings_before(n, k);
        let upper = strips::ring_row(five + ring as u32, side, w);
        let parts = lower.parts;
        strips::put_strip(side, lower, upper, out, to);
        to += 3 * (parts + w);
        lower = upper;
    }
    to
}

// The triangles of a corner, side by side.
fn put_corner(tables: CornerTables, starts: &[u32], c: usize, out: &mut [u32], at: usize) -> usize
    requires starting { StartingTables tables starts.now × (c < length tables.levels.now) }
    requires room { (M : Mesh) → StartedTables M tables starts.now → at + 3 * (triangles_before M tables.levels.now (c + 1) - triangles_before M tables.levels.now c) ≤ length out.old }
    ensures { (M : Mesh) → StartedTables M tables.entry starts.now → TrianglesPut M tables.entry.levels.now (triangles_before M tables.entry.levels.now c) (triangles_before M tables.entry.levels.now (c + 1)) at result out.old out.new }
{
    let mut to = at;
    for side in 0..4 {
        to = put_side(tables, starts, c, side, out, to);
    }
    to
}

// The triangles of a range of corners, into the beginning of a lent list.
fn put_corners(tables: CornerTables, starts: &[u32], first: usize, count: usize, out: &mut [u32])
    requires starting { StartingTables tables starts.now × (first + count ≤ length tables.levels.now) }
    requires room { (M : Mesh) → StartedTables M tables starts.now → 3 * (triangles_before M tables.levels.now (first + count) - triangles_before M tables.levels.now first) ≤ length out.old }
    ensures { (M : Mesh) → StartedTables M tables.entry starts.now → out.new ≡ begins (triangle_list M tables.entry.levels.now first count) out.old }
{
    let mut to = 0;
    for c in first..first + count {
        to = put_corner(tables, starts, c, out, to);
    }
}

// The triangles of a range of a mesh that has passed the checks, into the beginning of a lent list.
pub fn put_indices(tables: CornerTables, first: usize, count: usize, out: &mut [u32])
    requires given { GivenTables tables × (first + count ≤ length tables.levels.now) }
    requires room { (M : Mesh) → OfTables M tables → 3 * (triangles_before M tables.levels.now (first + count) - triangles_before M tables.levels.now first) ≤ length out.old }
    ensures { (M : Mesh) → OfTables M tables.entry → out.new ≡ begins (triangle_list M tables.entry.levels.now first count) out.old }
{
    let mut starts = [0u32; MOST_CORNERS];
    fill_starts(tables, &mut starts);
    put_corners(tables, &starts, first, count, out);
}
