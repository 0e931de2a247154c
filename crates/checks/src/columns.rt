// The columns that the checks fill, of the table of corners and of a table of vertices that they use as scratch.
ghost use Rattle.std.specs.Prelude.{◌≡◌, ◌≤◌};
ghost use Rattle.paper.specs.Mesh.{most_corners};
ghost use Rattle.checks.specs.columns.Filled.{row_filled, RowAt, Countable, CornersCounted};

use walk::{NEXT, PREVIOUS, ROW, SIDES};

// The numbers in a row of the table of vertices: four, so that a row needs no product to be found.
pub const VERTEX_ROW: usize = 4;

// Its columns: one more than the last corner met; one more than a corner of the vertex at hand whose edge goes to this one, and comes
// from it; how many corners there are. The lowest of them takes the place of the last.
pub const LAST: usize = 0;

pub const LEAVING: usize = 1;

pub const ARRIVING: usize = 2;

pub const COUNT: usize = 3;

pub const LOWEST: usize = 0;

// The row of corner c, which comes after `last` in a face of n sides: its previous corner and the sides, and the next of that corner.
pub(crate) fn put_corner(table: &mut [u16], c: usize, last: usize, n: usize)
    requires { RowAt table.old c × RowAt table.old last × (n ≤ most_corners) }
    ensures { table.new ≡ row_filled table.old c last n }
{
    table[ROW * last + NEXT] = c as u16;
    table[ROW * c + PREVIOUS] = last as u16;
    table[ROW * c + SIDES] = n as u16;
}

// How many corners name each vertex, and the lowest of them: met last, so what is written last stays.
pub fn count_corners(corners: &[u16], vertices: &mut [u16])
    requires { Countable corners.now vertices.old }
    ensures { CornersCounted corners.now vertices.new }
{
    for c in (0..corners.len()).rev() {
        let u = corners[c] as usize;
        let count = vertices[VERTEX_ROW * u + COUNT];
        vertices[VERTEX_ROW * u + COUNT] = count + 1;
        vertices[VERTEX_ROW * u + LOWEST] = c as u16;
    }
}
