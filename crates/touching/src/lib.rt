#![tactic(auto)]
// L9, for dragging: marks the corners whose quad-nets a vertex can change, in one pass over the faces and one over the corners.
ghost use Rattle.std.specs.Prelude.{◌≡◌, ℕ, ◌+◌, ◌<◌, ◌≤◌, length, get_or, replicate};
ghost use Rattle.paper.specs.Mesh.{most_vertices, of_lists};
ghost use Rattle.paper.specs.Corners.{sum_of};
ghost use Rattle.paper.specs.Links.{vertex_of};
ghost use Rattle.mesh.specs.Tables.{Named};
ghost use Rattle.face_sums.specs.Sums.{FacesWithin};
ghost use Rattle.paper.specs.Preview.{touch_marks, Touched};
ghost use Rattle.touching.specs.Sharing.{among, AllMarked, FaceMarked, SharingMarked};

use paper::{MOST_VERTICES, MeshLists, NO_ROOM, NO_VERTEX, Refusal};

// A mark for each corner: 1 where the vertex can change its quad-net, else 0. Nothing is written before the last check has passed.
pub fn touched(lists: MeshLists, vertex: usize, marks: &mut [u8]) -> Result<(), Refusal>
    ensures { Touched (of_lists lists.entry) vertex marks.old result marks.new }
{
    if lists.coordinates.len() / 3 <= vertex {
        return Err(Refusal {
            number: NO_VERTEX,
            place: vertex,
        });
    }
    checks::check(lists)?;
    if marks.len() != lists.corners.len() {
        return Err(Refusal {
            number: NO_ROOM,
            place: lists.corners.len(),
        });
    }
    mark(lists.sides, lists.corners, vertex, marks);
    Ok(())
}

// The marks of a mesh that passes: its vertices are marked first, then its corners.
fn mark(sides: &[u8], corners: &[u16], vertex: usize, marks: &mut [u8])
    requires faces { FacesWithin sides.now × (sum_of sides.now ≡ length corners.now) }
    requires named { Named corners.now most_vertices × (length marks.old ≡ length corners.now) }
    ensures { marks.new ≡ touch_marks sides.now corners.now vertex }
{
    let mut sharing = [0u8; MOST_VERTICES];
    mark_vertices(sides, corners, vertex, &mut sharing);
    mark_corners(corners, &sharing, marks);
}

// Marks, in a table of zeros, the vertices that stand in a face with this one.
fn mark_vertices(sides: &[u8], corners: &[u16], vertex: usize, sharing: &mut [u8])
    requires faces { FacesWithin sides.now × (sum_of sides.now ≡ length corners.now) }
    requires named { Named corners.now (length sharing.old) × (sharing.old ≡ replicate (length sharing.old) 0) }
    ensures { SharingMarked sides.now corners.now vertex (length sides.now) sharing.new }
{
    let mut start = 0;
    for n in sides {
        let end = start + *n as usize;
        mark_face(&corners[start..end], vertex, sharing);
        start = end;
    }
}

// Marks the vertices of a face that has this one, by its corners.
fn mark_face(face: &[u16], vertex: usize, sharing: &mut [u8])
    requires { Named face.now (length sharing.old) }
    ensures { FaceMarked face.now vertex 0 (length face.now) sharing.old sharing.new }
{
    if has_vertex(face, vertex) {
        mark_all(face, sharing);
    }
}

// Whether one of the corners is at the vertex. It looks at all of them: that is no slower than to stop at the first.
fn has_vertex(face: &[u16], vertex: usize) -> bool
    ensures { result ≡ among face.now 0 (length face.now) vertex }
{
    let mut found = false;
    for u in face {
        if *u as usize == vertex {
            found = true;
        }
    }
    found
}

// Marks the vertices of the corners, beside those that are marked. refine::mark_vertices asks for a table of zeros, and promises no more than it needs.
fn mark_all(face: &[u16], sharing: &mut [u8])
    requires { Named face.now (length sharing.old) }
    ensures { AllMarked face.now 0 (length face.now) sharing.old sharing.new }
{
    for u in face {
        sharing[*u as usize] = 1;
    }
}

// Each corner has the mark of its vertex.
fn mark_corners(corners: &[u16], sharing: &[u8], marks: &mut [u8])
    requires { Named corners.now (length sharing.now) × (length marks.old ≡ length corners.now) }
    ensures { (c : ℕ) → c < length corners.now → get_or marks.new c 0 ≡ get_or sharing.now (vertex_of corners.now c) 0 }
{
    for c in 0..corners.len() {
        let u = corners[c] as usize;
        marks[c] = sharing[u];
    }
}
