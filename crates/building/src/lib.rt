#![tactic(auto)]
// Building: writes the control points of a range of corners, or answers why the call is refused and leaves the output as it was.
pub mod writing;

ghost use Rattle.std.specs.Prelude.{◌*◌, ◌≤◌, length};
ghost use Rattle.paper.specs.Mesh.{most_corners, of_lists};
ghost use Rattle.paper.specs.Calls.{Built};
ghost use Rattle.surface.specs.Points.{point_row};
ghost use Rattle.corner_points.specs.RefinedPoints.{SmallPoints};
ghost use Rattle.checks.specs.Checked.{RowsFor};

use mesh::{LARGE_MESH, SMALL_MESH};
use numbers::cosines;
use paper::{MOST_CORNERS, MeshLists, Refusal};
use surface::POINT_ROW;
use walk::ROW;

// What is asked for: `count` corners from `first` on.
#[derive(Clone, Copy)]
pub struct Range {
    pub first: usize,
    pub count: usize,
}

// Checks 4 to 17 with 27 and 28, then the control points. Nothing is written to the output before the last check has passed.
pub fn build(
    lists: MeshLists,
    links: &[u16],
    first: usize,
    count: usize,
    out: &mut [i32],
) -> Result<(), Refusal>
    ensures { Built (of_lists lists.entry) links.now first count out.old result out.new }
{
    let range = Range { first, count };
    build_sized(lists, links, range, out)
}

// The same with tables as long as the mesh needs. A function of its own, which the compiler puts in line: only then do the tables share their place.
// The three calls stay side by side: with the tables' lengths as const parameters there would be three calls just the same.
fn build_sized(
    lists: MeshLists,
    links: &[u16],
    range: Range,
    out: &mut [i32],
) -> Result<(), Refusal>
    ensures { Built (of_lists lists.entry) links.now range.first range.count out.old result out.new }
{
    let rows = mesh::table_rows(lists.corners.len());
    if rows == SMALL_MESH {
        let mut table = [0u16; ROW * SMALL_MESH];
        let mut points = [0i32; POINT_ROW * SMALL_MESH];
        build_over(lists, links, range, &mut table, &mut points, out)
    } else if rows == LARGE_MESH {
        let mut table = [0u16; ROW * LARGE_MESH];
        let mut points = [0i32; POINT_ROW * LARGE_MESH];
        build_over(lists, links, range, &mut table, &mut points, out)
    } else {
        let mut table = [0u16; ROW * MOST_CORNERS];
        let mut points = [0i32; POINT_ROW * MOST_CORNERS];
        build_over(lists, links, range, &mut table, &mut points, out)
    }
}

// The same over tables of its own: the checks fill that of the corners, and the refined points are put into the other.
fn build_over(
    lists: MeshLists,
    links: &[u16],
    range: Range,
    table: &mut [u16],
    points: &mut [i32],
    out: &mut [i32],
) -> Result<(), Refusal>
    requires table { RowsFor (length lists.corners.now) table.old }
    requires points { (length lists.corners.now ≤ most_corners → point_row * length lists.corners.now ≤ length points.old) × SmallPoints points.old }
    ensures { Built (of_lists lists.entry) links.now range.first range.count out.old result out.new }
{
    checks::check_within(lists, table)?;
    checks::requests::check_links(lists.corners.len(), table, links)?;
    let first = range.first;
    let count = range.count;
    checks::requests::check_asked(lists.corners.len(), first, count, out.len())?;
    crate::writing::fill_range(lists, table, first, count, points);
    let rows = cosines::rows();
    crate::writing::write_corners(points, table, &rows, lists.corners.len(), first, count, out);
    Ok(())
}
