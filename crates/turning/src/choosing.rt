// Checks 34 and 35, over lists that pass 4 to 9, and the choice of turns that is made: the partner of every corner, then turns that spread from the
// lowest face of each connected part.
ghost use Rattle.std.specs.Prelude.{◌≤◌, length};
ghost use Rattle.walk.specs.Table.{Blank};
ghost use Rattle.partners.specs.Lists.{ListsPass, Nexted};
ghost use Rattle.turning.specs.choosing.Choice.{Chosen};

use crate::tables::Tables;
use paper::{MOST_CORNERS, MOST_FACES, Refusal};
use partners::find_partners;

// Checks 34 and 35, and the state of every face.
pub(crate) fn find_turns(
    vertices: usize,
    sides: &[u8],
    corners: &[u16],
    table: &[u16],
    states: &mut [u8],
) -> Result<(), Refusal>
    requires lists { ListsPass vertices sides.now corners.now × Nexted sides.now corners.now table.now }
    requires room { (length sides.now ≤ length states.old) × Blank states.old }
    ensures { Chosen sides.now corners.now result states.new }
{
    let mut partners = [0u16; MOST_CORNERS];
    find_partners(vertices, sides, corners, table, &mut partners)?;
    let mut faces = [0u16; MOST_CORNERS];
    let mut starts = [0u16; MOST_FACES];
    crate::starts::fill_starts(sides, &mut faces, &mut starts);
    let mut queue = [0u16; MOST_FACES];
    let tables = Tables {
        sides,
        corners,
        partners: &partners,
        faces: &faces,
        starts: &starts,
    };
    crate::spreading::spread(&tables, states, &mut queue)
}
