#![tactic(auto)]
// Which corner has each point of paper/specs/Triangles.antt, and how many segments a side of a corner's net has. Numbers are crate numbering's.
ghost use Rattle.std.specs.Prelude.{◌≡◌, eqb, ◌≤◌, ◌<◌, length};
ghost use Rattle.paper.specs.Mesh.{Mesh, most_corners};
ghost use Rattle.paper.specs.Links.{vertex_of, lowest};
ghost use Rattle.paper.specs.Borders.{beside};
ghost use Rattle.paper.specs.Sampling.{side_at};
ghost use Rattle.paper.specs.Triangles.{level, segments, edge_owner, face_owner};
ghost use Rattle.paper.specs.Scan.{pick_n};
ghost use Rattle.mesh.specs.Tables.{Named};
ghost use Rattle.owners.specs.Corners.{Here, Place, Wide, Lowests};

use walk::Walker;

// A corner's level.
pub fn level_at(levels: &[u8], c: usize) -> usize
    requires { c < length levels.now }
    ensures { result ≡ level levels.now c }
{
    usize::from(levels[c])
}

// The corner beside a side of a corner's net.
pub fn beside(table: &[u16], c: usize, side: usize) -> usize
    requires { Place table.now c × (side ≤ 3) }
    ensures { (M : Mesh) → Here M table.now c → result ≡ beside M c (side_at side) }
{
    let here = Walker { corner: c };
    if side == 0 {
        let to = here.linked(table);
        return to.corner;
    }
    if side == 1 {
        let to = here.next(table);
        return to.corner;
    }
    let back = here.previous(table);
    if side == 2 {
        return back.corner;
    }
    let there = back.linked(table);
    let to = there.previous(table);
    to.corner
}

// The segments of a side: the larger of two levels.
pub fn segments_at(table: &[u16], levels: &[u8], c: usize, side: usize) -> usize
    requires { Wide table.now levels.now c × (side ≤ 3) }
    ensures { (1 ≤ result) × (result ≤ 16) × ((M : Mesh) → Here M table.now c → result ≡ segments M levels.now c (side_at side)) }
{
    let d = beside(table, c, side);
    let n = level_at(levels, c);
    let m = level_at(levels, d);
    n.max(m)
}

// The corner that has the point of a corner's vertex.
pub fn vertex_owner(corners: &[u16], low: &[u16], c: usize) -> usize
    requires { Lowests corners.now low.now × (c < length corners.now) }
    ensures { result ≡ lowest corners.now (vertex_of corners.now c) }
{
    let u = usize::from(corners[c]);
    usize::from(low[u])
}

// The corner that has the point of its leaving edge.
pub fn edge_owner(table: &[u16], c: usize) -> usize
    requires { Place table.now c }
    ensures { (M : Mesh) → Here M table.now c → result ≡ edge_owner M c }
{
    let here = Walker { corner: c };
    let there = here.linked(table);
    let to = there.previous(table);
    c.min(to.corner)
}

// The corner that has the point of its face.
pub fn face_owner(table: &[u16], c: usize) -> usize
    requires { Place table.now c }
    ensures { (M : Mesh) → Here M table.now c → result ≡ face_owner M c }
{
    walk::face_start(table, c)
}

// The lowest corner of each vertex: the corners are read from the last to the first.
pub fn fill_lowest(corners: &[u16], low: &mut [u16])
    requires { Named corners.now (length low.old) × (length corners.now ≤ most_corners) }
    ensures { Lowests corners.now low.new }
{
    for c in (0..corners.len()).rev() {
        let u = usize::from(corners[c]);
        low[u] = c as u16;
    }
}

// Whether a corner has the point of its vertex: one or none; of its leaving edge; of its face.
pub fn own_vertex(corners: &[u16], low: &[u16], c: usize) -> usize
    requires { Lowests corners.now low.now × (c < length corners.now) }
    ensures { (result ≤ 1) × (result ≡ pick_n (eqb c (lowest corners.now (vertex_of corners.now c))) 1 0) }
{
    usize::from(c == vertex_owner(corners, low, c))
}

pub fn own_edge(table: &[u16], c: usize) -> usize
    requires { Place table.now c }
    ensures { (result ≤ 1) × ((M : Mesh) → Here M table.now c → result ≡ pick_n (eqb c (edge_owner M c)) 1 0) }
{
    usize::from(c == edge_owner(table, c))
}

pub fn own_face(table: &[u16], c: usize) -> usize
    requires { Place table.now c }
    ensures { (result ≤ 1) × ((M : Mesh) → Here M table.now c → result ≡ pick_n (eqb c (face_owner M c)) 1 0) }
{
    usize::from(c == face_owner(table, c))
}
