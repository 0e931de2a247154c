#![tactic(auto)]
// L9, try a vertex before moving it: check 29, then building on a copy of the coordinate list in which the vertex has its new place.
ghost use Rattle.std.specs.Prelude.{◌≡◌, ◌/◌, ◌<◌, ◌≤◌, length};
ghost use Rattle.paper.specs.Mesh.{of_lists};
ghost use Rattle.paper.specs.File.{begins};
ghost use Rattle.paper.specs.Calls.{Built};
ghost use Rattle.paper.specs.Preview.{moved_list, moved, Previewed};

use building::Range;
use mesh::SMALL_MESH;
use paper::{MOST_NUMBERS, MeshLists, Move, NO_VERTEX, Refusal};

// The number of check 4, which refuses a list that is longer than the copy.
const LENGTHS: u8 = 4;

// The numbers of a small mesh's coordinate list.
const FEW_NUMBERS: usize = 3 * SMALL_MESH;

// What building answers and writes with the vertex moved. The coordinate list is only read.
// The two calls stay side by side: with the copy's length as a const parameter there would be two calls just the same.
pub fn preview(
    lists: MeshLists,
    links: &[u16],
    to: Move,
    first: usize,
    count: usize,
    out: &mut [i32],
) -> Result<(), Refusal>
    ensures { Previewed (of_lists lists.entry) to links.now first count out.old result out.new }
{
    let vertex = to.vertex;
    if lists.coordinates.len() / 3 <= vertex {
        return Err(Refusal {
            number: NO_VERTEX,
            place: vertex,
        });
    }
    if MOST_NUMBERS < lists.coordinates.len() {
        return Err(Refusal {
            number: LENGTHS,
            place: 0,
        });
    }
    let range = Range { first, count };
    let vertices = (lists.coordinates.len() + 2) / 3;
    if mesh::table_rows(vertices) == SMALL_MESH {
        let mut copy = [0i32; FEW_NUMBERS];
        return build_moved(lists, links, to, range, &mut copy, out);
    }
    let mut copy = [0i32; MOST_NUMBERS];
    build_moved(lists, links, to, range, &mut copy, out)
}

// Building on the moved list, which is made in the beginning of `copy`.
fn build_moved(
    lists: MeshLists,
    links: &[u16],
    to: Move,
    range: Range,
    copy: &mut [i32],
    out: &mut [i32],
) -> Result<(), Refusal>
    requires vertex { to.vertex < length lists.coordinates.now / 3 }
    requires room { length lists.coordinates.now ≤ length copy.old }
    ensures { Built (moved (of_lists lists.entry) to) links.now range.first range.count out.old result out.new }
{
    let n = lists.coordinates.len();
    copy_moved(lists.coordinates, to, copy);
    building::build(
        MeshLists {
            coordinates: &copy[..n],
            ..lists
        },
        links,
        range.first,
        range.count,
        out,
    )
}

// The coordinate list with the vertex moved, into the beginning of a lent list.
fn copy_moved(coordinates: &[i32], to: Move, copy: &mut [i32])
    requires vertex { to.vertex < length coordinates.now / 3 }
    requires room { length coordinates.now ≤ length copy.old }
    ensures { copy.new ≡ begins (moved_list coordinates.now to) copy.old }
{
    mesh::copy(coordinates, copy);
    let at = 3 * to.vertex;
    copy[at] = to.x;
    copy[at + 1] = to.y;
    copy[at + 2] = to.z;
}
