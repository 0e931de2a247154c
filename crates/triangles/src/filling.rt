// The points and the triangles of a range of a mesh that has passed the checks.
ghost use Rattle.std.specs.Prelude.{◌+◌, ◌≤◌, ◌<◌, length};
ghost use Rattle.paper.specs.Mesh.{of_lists};
ghost use Rattle.paper.specs.Triangles.{points_before, coordinate_at, point_list};
ghost use Rattle.triangles.specs.Checks.{Levelled};
ghost use Rattle.triangles.specs.filling.Filled.{TrianglesFilled};

use crate::runs::Own;
use numbering::CornerTables;
use paper::{MOST_VERTICES, MeshLists, Refusal, Triangles};

// The points and the triangles, or that a lent list is too short.
pub(crate) fn fill(
    lists: MeshLists,
    table: &[u16],
    levels: &[u8],
    first: usize,
    count: usize,
    points: &mut [i32],
    triangles: &mut [u32],
) -> Result<Triangles, Refusal>
    requires mesh { Levelled (of_lists lists) lists.corners.now table.now levels.now }
    requires range { (0 < count) × (first + count ≤ length levels.now) }
    ensures { TrianglesFilled (of_lists lists.entry) levels.now first count points.old triangles.old result points.new triangles.new }
{
    let mut low = [0u16; MOST_VERTICES];
    owners::fill_lowest(lists.corners, &mut low);
    let tables = CornerTables {
        corners: lists.corners,
        low: &low,
        table,
        levels,
    };
    let counted = crate::count_within(tables, first, count);
    crate::check_room(
        counted.points,
        counted.triangles,
        points.len(),
        triangles.len(),
    )?;
    crate::runs::fill(lists, tables, first, count, points);
    index_list::put_indices(tables, first, count, triangles);
    Ok(counted)
}

// Each corner's own points, as a kind of numbers.
impl Own for i32 {
    ghost before = { points_before };

    ghost number = { coordinate_at };

    ghost list = { point_list };

    fn put(tables: CornerTables, numbers: &[i32], c: usize, out: &mut [i32], at: usize) -> usize {
        let shape = crate::shape_of(tables, c);
        let all = crate::size(shape);
        net_points::writing::put_net(numbers, shape, out, at);
        at + 3 * all
    }
}
