#![tactic(auto)]
// L7, is it all squares? Checks 4 to 13 with 27 and 28; then the lowest face that has not four sides, else the lowest vertex that has not four corners,
// else none. Each search stops at the first that it finds, so that of the faces reads one side count more than the number of the face, or all.
ghost use Rattle.std.specs.Prelude.{◌≡◌, not, eqb, position, ◌*◌, ◌≤◌, length};
ghost use Rattle.paper.specs.Mesh.{most_vertices, most_corners, of_lists};
ghost use Rattle.checks.specs.columns.Vertices.{vertex_row};
ghost use Rattle.checks.specs.columns.Filled.{CornersCounted};
ghost use Rattle.paper.specs.Irregular.{irregular_vertex, Searched};
ghost use Rattle.mesh.specs.Tables.{Named};
ghost use Rattle.irregular.specs.Found.{lowest_if};

use checks::columns::{COUNT, VERTEX_ROW};
use paper::{Irregular, MOST_VERTICES, MeshLists, Refusal, Search};

// The sides of a regular face.
const REGULAR_SIDES: u8 = 4;

// The corners of a regular vertex.
const REGULAR_CORNERS: u16 = 4;

// The checks, then the search.
pub fn search(lists: MeshLists) -> Result<Search, Refusal>
    ensures { Searched (of_lists lists.entry) result }
{
    checks::check(lists)?;
    if let Some(face) = lowest_face(lists.sides) {
        return Ok(Search {
            found: Some(Irregular::Face(face)),
            read: face + 1,
        });
    }
    let vertex = lowest_vertex(lists.corners, lists.coordinates.len() / 3);
    Ok(Search {
        found: vertex.map(Irregular::Vertex),
        read: lists.sides.len(),
    })
}

// The lowest face that has not four sides.
fn lowest_face(sides: &[u8]) -> Option<usize>
    ensures { result ≡ position (λ n. not (eqb n 4)) sides.now }
{
    sides.iter().position(|n| *n != REGULAR_SIDES)
}

// The lowest vertex that has not four corners: the corners of all vertices are counted in one pass.
fn lowest_vertex(corners: &[u16], count: usize) -> Option<usize>
    requires { (count ≤ most_vertices) × (length corners.now ≤ most_corners) × Named corners.now count }
    ensures { result ≡ lowest_if count (irregular_vertex corners.now) }
{
    let mut vertices = [0u16; VERTEX_ROW * MOST_VERTICES];
    checks::columns::count_corners(corners, &mut vertices);
    lowest_counted(corners, &vertices, count)
}

// The same from the counts.
fn lowest_counted(corners: &[u16], vertices: &[u16], count: usize) -> Option<usize>
    requires { (count ≤ most_vertices) × (vertex_row * count ≤ length vertices.now) × CornersCounted corners.now vertices.now }
    ensures { result ≡ lowest_if count (irregular_vertex corners.now) }
{
    (0..count).find(|u| vertices[VERTEX_ROW * *u + COUNT] != REGULAR_CORNERS)
}
