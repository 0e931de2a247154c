#![tactic(auto)]
// A mesh surveyed, as the lists of a DMS file hold it: checks 4 to 13 with 27 and 28, and the counts that `inspect` prints.
mod counting;

ghost use Rattle.paper.specs.Mesh.{of_lists};
ghost use Rattle.paper.specs.Faults.{verdict};
ghost use Rattle.paper.specs.File.{file_mesh, Surveyed};
ghost use Rattle.dms_lists.specs.header.ListsWithin.{ListsWithin};

use dms_lists::header::{corner_count, face_count, vertex_count};
use dms_lists::lists::read_lists;
use paper::{Counts, MOST_CORNERS, MOST_FACES, MOST_NUMBERS, MOST_PAIRS, MeshLists, Refusal};

// Checks 4 to 13 with 27 and 28, and the counts, of the lists of a file whose header passes.
pub fn survey_lists(file: &[u8]) -> Result<Counts, Refusal>
    requires { ListsWithin file.now }
    ensures { Surveyed (file_mesh file.now) (verdict (file_mesh file.now)) result }
{
    let mut coordinates = [0i32; MOST_NUMBERS];
    let mut sides = [0u8; MOST_FACES];
    let mut corners = [0u16; MOST_CORNERS];
    let mut sharpness = [0u8; MOST_PAIRS];
    read_lists(
        file,
        &mut coordinates,
        &mut sides,
        &mut corners,
        &mut sharpness,
    );
    let numbers = 3 * vertex_count(file);
    let faces = face_count(file);
    let count = corner_count(file);
    survey_mesh(MeshLists {
        coordinates: &coordinates[..numbers],
        sides: &sides[..faces],
        corners: &corners[..count],
        sharpness: &sharpness[..2 * count],
    })
}

// The same of a mesh's lists.
fn survey_mesh(lists: MeshLists) -> Result<Counts, Refusal>
    ensures { Surveyed (of_lists lists.entry) (verdict (of_lists lists.entry)) result }
{
    checks::check(lists)?;
    let counts = counting::count(lists.coordinates, lists.sides, lists.corners);
    Ok(counts)
}
