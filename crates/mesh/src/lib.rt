#![tactic(auto)]
// Meshes: what holds of every accepted mesh, for the crates that check, link and build one; how long the tables of a call are; a list copied.
ghost use Rattle.std.specs.Prelude.{◌≡◌, ◌≤◌, length};
ghost use Rattle.paper.specs.File.{begins};
ghost use Rattle.mesh.specs.Tables.{TableRows};

use paper::MOST_CORNERS;

// The lengths of a call's tables, in rows: short tables are sooner cleared. The longest have MOST_CORNERS rows.
pub const SMALL_MESH: usize = 256;

pub const LARGE_MESH: usize = 4096;

// How many rows a table has that holds a row for each of `count` corners or vertices: the least of the three lengths that suffices, and the longest
// where none does. Every call that has tables of its own asks here.
pub fn table_rows(count: usize) -> usize
    ensures { TableRows count result }
{
    if count <= SMALL_MESH {
        SMALL_MESH
    } else if count <= LARGE_MESH {
        LARGE_MESH
    } else {
        MOST_CORNERS
    }
}

// Copies a list into the beginning of a lent one.
pub fn copy<T: Copy>(list: &[T], lent: &mut [T])
    requires { length list.now ≤ length lent.old }
    ensures { lent.new ≡ begins list.now lent.old }
{
    let end = list.len();
    lent[..end].copy_from_slice(list);
}
