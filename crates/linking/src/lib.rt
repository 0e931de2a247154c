#![tactic(auto)]
// Linking: fills a lent link table, or answers why the mesh is turned down and leaves the table as it was.
ghost use Rattle.std.specs.Prelude.{◌≡◌, ℕ, ◌*◌, ◌≤◌, ◌<◌, length, get_or};
ghost use Rattle.paper.specs.Mesh.{most_corners, of_lists};
ghost use Rattle.paper.specs.Calls.{Linked};
ghost use Rattle.walk.specs.Table.{row_length, to_link, entry};
ghost use Rattle.checks.specs.Checked.{RowsFor};

use mesh::SMALL_MESH;
use paper::{MOST_CORNERS, MeshLists, Refusal};
use walk::{LINK, ROW};

// Checks 4 to 14 with 27 and 28, then the link of every corner. Nothing is written to the lent table before the last check has passed.
// The two calls stay side by side: with the table's length as a const parameter there would be two calls just the same.
pub fn link(lists: MeshLists, links: &mut [u16]) -> Result<(), Refusal>
    ensures { Linked (of_lists lists.entry) links.old result links.new }
{
    if mesh::table_rows(lists.corners.len()) == SMALL_MESH {
        let mut table = [0u16; ROW * SMALL_MESH];
        link_over(lists, &mut table, links)
    } else {
        let mut table = [0u16; ROW * MOST_CORNERS];
        link_over(lists, &mut table, links)
    }
}

// The same over a table of its own: the checks fill it, and the links are copied once they have passed.
fn link_over(lists: MeshLists, table: &mut [u16], links: &mut [u16]) -> Result<(), Refusal>
    requires { RowsFor (length lists.corners.now) table.old }
    ensures { Linked (of_lists lists.entry) links.old result links.new }
{
    checks::check_within(lists, table)?;
    checks::requests::check_length(links.len(), lists.corners.len())?;
    copy(table, links);
    Ok(())
}

// Copies the column of links, for as many corners as the lent table has.
fn copy(table: &[u16], links: &mut [u16])
    requires { (length links.old ≤ most_corners) × (row_length * length links.old ≤ length table.now) }
    ensures { (c : ℕ) → c < length links.old → get_or links.new c 0 ≡ entry table.now to_link c }
{
    for c in 0..links.len() {
        links[c] = table[ROW * c + LINK];
    }
}
