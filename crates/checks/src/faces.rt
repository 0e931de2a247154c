// Check 9, over the lists themselves: it answers its fault at the lowest place, or that there is none, and fills what the checks of edges need.
ghost use Rattle.std.specs.Prelude.{◌≡◌, ℕ, ◌*◌, ◌≤◌, ◌<◌, length, get_or};
ghost use Rattle.paper.specs.Mesh.{least_sides, most_corners};
ghost use Rattle.paper.specs.Corners.{sum_of};
ghost use Rattle.paper.specs.Faults.{sound, lowest_of, fault9, stated};
ghost use Rattle.walk.specs.Table.{row_length, Blank};
ghost use Rattle.checks.specs.columns.Vertices.{Rowed};
ghost use Rattle.checks.specs.columns.Chain.{Ready};
ghost use Rattle.checks.specs.columns.Filled.{FacesFilled};

use crate::columns::{LAST, VERTEX_ROW};
use paper::Refusal;
use walk::{ROW, VALENCE};

// Check 9: no corner names the vertex of an earlier corner of its face. The table of vertices holds one more than the last corner met of
// each vertex: that corner is in the face if the entry is above the face's first corner. It is kept for the corner, so that the corners
// of a vertex form a falling chain. On the way the columns of the faces are filled. A refused mesh leaves the two tables with any contents.
pub(crate) fn check_faces(
    sides: &[u8],
    corners: &[u16],
    table: &mut [u16],
    vertices: &mut [u16],
) -> Result<(), Refusal>
    requires mesh { (sum_of sides.now ≡ length corners.now) × (length corners.now ≤ most_corners) × ((f : ℕ) → f < length sides.now → least_sides ≤ get_or sides.now f 0) }
    requires room { (row_length * length corners.now ≤ length table.old) × Rowed corners.now vertices.old × Blank vertices.old }
    ensures answer { stated result ≡ lowest_of 9 (length corners.now) (fault9 sides.now corners.now) }
    ensures chains { stated result ≡ sound → Ready corners.now table.new vertices.new }
    ensures faces { stated result ≡ sound → FacesFilled sides.now table.new }
{
    let mut start = 0;
    for s in sides {
        let count = *s as usize;
        let end = start + count;
        let mut before = end - 1;
        for c in start..end {
            let u = corners[c] as usize;
            let last = vertices[VERTEX_ROW * u + LAST];
            if start < last as usize {
                return Err(Refusal {
                    number: 9,
                    place: c,
                });
            }
            crate::columns::put_corner(table, c, before, count);
            table[ROW * c + VALENCE] = last;
            vertices[VERTEX_ROW * u + LAST] = (c + 1) as u16;
            before = c;
        }
        start = end;
    }
    Ok(())
}
