#![tactic(auto)]
// The checks that the file, linking and building share: 4 to 13 of a mesh with 27 and 28, and 14 to 17 of the rest of a request (`requests`).
// Each number is tried over the whole input before the next.
pub mod columns;
pub mod edges;
pub mod faces;
pub mod requests;
pub mod vertices;

ghost use Rattle.std.specs.Prelude.{◌≡◌, length};
ghost use Rattle.paper.specs.Mesh.{of_lists};
ghost use Rattle.paper.specs.Faults.{verdict, stated};
ghost use Rattle.checks.specs.Checked.{RowsFor, RoomFor, Checked, ListsChecked};

use crate::columns::VERTEX_ROW;
use mesh::SMALL_MESH;
use paper::{MOST_CORNERS, MOST_VERTICES, MeshLists, Refusal};
use walk::ROW;

// Checks 4 to 13 with 27 and 28, over a table of corners of its own. The two calls stay side by side here and below: with a table's length as a const
// parameter there would be two calls just the same.
pub fn check(lists: MeshLists) -> Result<(), Refusal>
    ensures { stated result ≡ verdict (of_lists lists.entry) }
{
    if mesh::table_rows(lists.corners.len()) == SMALL_MESH {
        let mut table = [0u16; ROW * SMALL_MESH];
        check_within(lists, &mut table)
    } else {
        let mut table = [0u16; ROW * MOST_CORNERS];
        check_within(lists, &mut table)
    }
}

// The same over a lent table: of an accepted mesh it is then the table of its corners. The table of vertices is scratch of its own.
pub fn check_within(lists: MeshLists, table: &mut [u16]) -> Result<(), Refusal>
    requires { RowsFor (length lists.corners.now) table.old }
    ensures { Checked (of_lists lists.entry) result table.new }
{
    if mesh::table_rows(lists.coordinates.len() / 3) == SMALL_MESH {
        let mut vertices = [0u16; VERTEX_ROW * SMALL_MESH];
        check_over(lists, table, &mut vertices)
    } else {
        let mut vertices = [0u16; VERTEX_ROW * MOST_VERTICES];
        check_over(lists, table, &mut vertices)
    }
}

// The same over both tables.
fn check_over(lists: MeshLists, table: &mut [u16], vertices: &mut [u16]) -> Result<(), Refusal>
    requires { RoomFor (of_lists lists) table.old vertices.old }
    ensures { Checked (of_lists lists.entry) result table.new }
{
    check_lists(lists, table, vertices)?;
    let count = lists.coordinates.len() / 3;
    crate::edges::fill_links(lists.corners, count, table, vertices);
    crate::edges::check_entries(lists.corners, table)?;
    crate::vertices::check_vertices(lists.corners, count, table, vertices)
}

// Checks 4 to 9 with 27 and 28, of the lists themselves; the last of them leaves the chains of the vertices in the two tables, and the
// columns of the faces in the first.
pub fn check_lists(lists: MeshLists, table: &mut [u16], vertices: &mut [u16]) -> Result<(), Refusal>
    requires { RoomFor (of_lists lists) table.old vertices.old }
    ensures { ListsChecked (of_lists lists.entry) result table.new vertices.new }
{
    list_checks::check(lists)?;
    crate::faces::check_faces(lists.sides, lists.corners, table, vertices)
}
