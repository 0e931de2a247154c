// The mesh file on standard input, read into lent lists, or why there is none. Which bytes the system gives is free: the
// lists are stated to be those of some file.
ghost use Rattle.std.specs.Prelude.{◌≡◌};
ghost use Rattle.paper.specs.Mesh.{mesh_of};
ghost use Rattle.print.specs.mesh_input.Fitting.{FileRead, MeshRead};
ghost use Rattle.print.specs.declared.mesh_input.NoMesh.TheVariants.{Unread, Refused};

use crate::file_input::{BUFFER, Unread, read_file};
use dms::decode;
use paper::{MOST_CORNERS, MOST_FACES, MOST_NUMBERS, MOST_PAIRS, Refusal};

// The lengths of a mesh's lists.
#[derive(Clone, Copy)]
pub struct MeshLengths {
    pub numbers: usize,
    pub faces: usize,
    pub corners: usize,
    pub pairs: usize,
}

// Why there is no mesh: the file could not be read, which was said on standard error, or it is turned down.
#[derive(Clone, Copy, Debug, PartialEq, Eq)]
pub enum NoMesh {
    Unread,
    Refused(Refusal),
}

impl From<Unread> for NoMesh {
    ghost from_gives = { λ _ e. e ≡ Unread };

    fn from(_unread: Unread) -> NoMesh {
        NoMesh::Unread
    }
}

impl From<Refusal> for NoMesh {
    ghost from_gives = { λ refusal e. e ≡ Refused refusal };

    fn from(refusal: Refusal) -> NoMesh {
        NoMesh::Refused(refusal)
    }
}

// Reads the file into the lists.
pub fn read_mesh(
    rt: HostRuntime,
    coordinates: &mut [i32],
    sides: &mut [u8],
    corners: &mut [u16],
    sharpness: &mut [u8],
) -> Result<MeshLengths, NoMesh>
    ensures { MeshRead (mesh_of coordinates.old sides.old corners.old sharpness.old) result (mesh_of coordinates.new sides.new corners.new sharpness.new) }
{
    let mut bytes = [0u8; BUFFER];
    let read = read_file(rt, &mut rt.stdin(), b"standard input", &mut bytes)?;
    decode_lists(
        &bytes[..read.held],
        read.counted,
        coordinates,
        sides,
        corners,
        sharpness,
    )
}

// The lists of the file.
fn decode_lists(
    bytes: &[u8],
    counted: usize,
    coordinates: &mut [i32],
    sides: &mut [u8],
    corners: &mut [u16],
    sharpness: &mut [u8],
) -> Result<MeshLengths, NoMesh>
    ensures { FileRead bytes.now counted (mesh_of coordinates.old sides.old corners.old sharpness.old) result (mesh_of coordinates.new sides.new corners.new sharpness.new) }
{
    let lengths = decode(bytes, counted, coordinates, sides, corners, sharpness)?;
    Ok(MeshLengths {
        numbers: lengths.coordinates.min(MOST_NUMBERS),
        faces: lengths.sides.min(MOST_FACES),
        corners: lengths.corners.min(MOST_CORNERS),
        pairs: lengths.sharpness.min(MOST_PAIRS),
    })
}
