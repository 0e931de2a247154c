#![tactic(auto)]
// L13, faces drawn the wrong way round: checks 36, 4 to 9 with 27 and 28, 34 and 35; then the turned model in the lent lists, and the turned faces
// at the beginning of the lent listing. Nothing is written before the last check has passed.
pub mod choosing;
pub mod spreading;
pub mod starts;
pub mod tables;
pub mod visiting;

ghost use Rattle.std.specs.Prelude.{◌≤◌, length};
ghost use Rattle.paper.specs.Mesh.{most_faces, mesh_of, of_lists};
ghost use Rattle.paper.specs.Turning.{TurnedTo};
ghost use Rattle.walk.specs.Table.{Blank};
ghost use Rattle.turning.specs.Chosen.{ChosenFor};

use checks::columns::VERTEX_ROW;
use paper::{MOST_CORNERS, MOST_FACES, MOST_VERTICES, MeshLists, Refusal};
use walk::ROW;

// Turns faces so that the model passes 10 and 11, keeps the lowest face of each connected part, and lists the turned ones.
pub fn turn(
    coordinates: &[i32],
    sides: &[u8],
    corners: &mut [u16],
    sharpness: &mut [u8],
    listing: &mut [u16],
) -> Result<usize, Refusal>
    ensures { TurnedTo (mesh_of coordinates.now sides.now corners.old sharpness.old) listing.old result (mesh_of coordinates.now sides.now corners.new sharpness.new) listing.new }
{
    if listing.len() != sides.len() {
        return Err(Refusal {
            number: 36,
            place: listing.len(),
        });
    }
    let mut states = [0u8; MOST_FACES];
    let lists = MeshLists {
        coordinates,
        sides,
        corners,
        sharpness,
    };
    choose(lists, &mut states)?;
    reversing::turn_sharpness(sides, &states, sharpness);
    Ok(reversing::turn_faces(sides, &states, corners, listing))
}

// Checks 4 to 9 with 27 and 28, then 34 and 35, and the state of every face.
fn choose(lists: MeshLists, states: &mut [u8]) -> Result<(), Refusal>
    requires { (most_faces ≤ length states.old) × Blank states.old }
    ensures { ChosenFor (of_lists lists.entry) result states.new }
{
    let mut table = [0u16; ROW * MOST_CORNERS];
    let mut vertices = [0u16; VERTEX_ROW * MOST_VERTICES];
    checks::check_lists(lists, &mut table, &mut vertices)?;
    crate::choosing::find_turns(
        lists.coordinates.len() / 3,
        lists.sides,
        lists.corners,
        &table,
        states,
    )
}
