// The tangents of a range of a mesh that has passed the checks. A tangent has three numbers, and a point has two of them.
ghost use Rattle.std.specs.Prelude.{◌+◌, ◌≤◌, ◌<◌, length};
ghost use Rattle.paper.specs.Mesh.{of_lists};
ghost use Rattle.paper.specs.Tangents.{tangent_at, tangent_list};
ghost use Rattle.triangles.specs.Checks.{Levelled};
ghost use Rattle.triangles.specs.tangent_filling.Paired.{tangents_before, PairsFilled};

use crate::runs::Own;
use numbering::CornerTables;
use paper::{MOST_VERTICES, MeshLists, NO_ROOM, Refusal};

// The tangents, or that the lent list is too short.
pub(crate) fn fill(
    lists: MeshLists,
    table: &[u16],
    levels: &[u8],
    first: usize,
    count: usize,
    out: &mut [i64],
) -> Result<usize, Refusal>
    requires mesh { Levelled (of_lists lists) lists.corners.now table.now levels.now }
    requires range { (0 < count) × (first + count ≤ length levels.now) }
    ensures { PairsFilled (of_lists lists.entry) levels.now first count out.old result out.new }
{
    let mut low = [0u16; MOST_VERTICES];
    owners::fill_lowest(lists.corners, &mut low);
    let tables = CornerTables {
        corners: lists.corners,
        low: &low,
        table,
        levels,
    };
    let points = numbering::points_in(tables, first, count);
    let needed = 6 * points;
    if out.len() < needed {
        return Err(Refusal {
            number: NO_ROOM,
            place: needed,
        });
    }
    crate::runs::fill(lists, tables, first, count, out);
    Ok(needed)
}

// Each corner's own tangents, as a kind of numbers.
impl Own for i64 {
    ghost before = { tangents_before };

    ghost number = { tangent_at };

    ghost list = { tangent_list };

    fn put(tables: CornerTables, numbers: &[i32], c: usize, out: &mut [i64], at: usize) -> usize {
        let shape = crate::shape_of(tables, c);
        let third = owners::segments_at(tables.table, tables.levels, c, 2);
        let all = crate::size(shape);
        net_tangents::put_pairs(numbers, shape, third, out, at);
        at + 6 * all
    }
}
