#![tactic(auto)]
// The numbers of the points of paper/specs/Triangles.antt: how many points and triangles each corner has, and at which numbers its groups of points start.
// No surface is needed for that.
ghost use Rattle.std.specs.Prelude.{◌≡◌, ◌+◌, ◌-◌, ◌*◌, ◌<◌, ◌≤◌, length};
ghost use Rattle.paper.specs.Mesh.{Mesh, most_corners};
ghost use Rattle.paper.specs.Sampling.{side_at};
ghost use Rattle.paper.specs.Triangles.{begin, end_number, points_before, triangles_before};
ghost use Rattle.numbering.specs.Meshed.{OfTables, GivenTables, StartedTables, StartingTables, group_start, curve_start};

use owners::{
    beside, edge_owner, face_owner, level_at, own_edge, own_face, own_vertex, segments_at,
    vertex_owner,
};

// The tables of a mesh that has passed the checks: the vertex of each corner, the lowest corner of each vertex, the table of the corners, and their levels.
#[derive(Clone, Copy)]
pub struct CornerTables<'a> {
    pub corners: &'a [u16],
    pub low: &'a [u16],
    pub table: &'a [u16],
    pub levels: &'a [u8],
}

// Where group g of a corner starts, counted from the corner's first point: the ends, then the two curves.
fn group_offset(tables: CornerTables, c: usize, g: usize) -> usize
    requires { GivenTables tables × (c < length tables.levels.now) × (g ≤ 5) }
    ensures { (result ≤ 40) × ((M : Mesh) → OfTables M tables.entry → group_start M tables.entry.levels.now c g ≡ points_before M tables.entry.levels.now c + result) }
{
    if g == 0 {
        return 0;
    }
    let a = own_vertex(tables.corners, tables.low, c);
    if g == 1 {
        return a;
    }
    let b = own_edge(tables.table, c);
    if g == 2 {
        return a + b;
    }
    let d = own_face(tables.table, c);
    if g == 3 {
        return a + b + d;
    }
    let m = segments_at(tables.table, tables.levels, c, 0);
    if g == 4 {
        return a + b + d + (m - 1);
    }
    let n = segments_at(tables.table, tables.levels, c, 1);
    a + b + d + (m - 1) + (n - 1)
}

// The points of a corner.
pub fn points_of(tables: CornerTables, c: usize) -> usize
    requires { GivenTables tables × (c < length tables.levels.now) }
    ensures { (result ≤ 600) × ((M : Mesh) → OfTables M tables.entry → points_before M tables.entry.levels.now (c + 1) ≡ points_before M tables.entry.levels.now c + result) }
{
    let a = group_offset(tables, c, 5);
    let n = level_at(tables.levels, c);
    a + 2 * (n * (n - 1)) + 1
}

// The triangles of a corner.
fn triangles_of(tables: CornerTables, c: usize) -> usize
    requires { GivenTables tables × (c < length tables.levels.now) }
    ensures { (result ≤ 1024) × ((M : Mesh) → OfTables M tables.entry → triangles_before M tables.entry.levels.now (c + 1) ≡ triangles_before M tables.entry.levels.now c + result) }
{
    let a = segments_at(tables.table, tables.levels, c, 0);
    let b = segments_at(tables.table, tables.levels, c, 1);
    let d = segments_at(tables.table, tables.levels, c, 2);
    let e = segments_at(tables.table, tables.levels, c, 3);
    let n = level_at(tables.levels, c);
    a + b + d + e + 4 * (n * (n - 1))
}

// The points of a range of corners.
pub fn points_in(tables: CornerTables, first: usize, count: usize) -> usize
    requires { GivenTables tables × (first + count ≤ length tables.levels.now) × (length tables.levels.now ≤ most_corners) }
    ensures { ((M : Mesh) → OfTables M tables.entry → result ≡ points_before M tables.entry.levels.now (first + count) - points_before M tables.entry.levels.now first) × (result ≤ 600 * count) }
{
    let mut sum = 0;
    for c in first..first + count {
        sum += points_of(tables, c);
    }
    sum
}

// The triangles of a range of corners.
pub fn triangles_in(tables: CornerTables, first: usize, count: usize) -> usize
    requires { GivenTables tables × (first + count ≤ length tables.levels.now) × (length tables.levels.now ≤ most_corners) }
    ensures { ((M : Mesh) → OfTables M tables.entry → result ≡ triangles_before M tables.entry.levels.now (first + count) - triangles_before M tables.entry.levels.now first) × (result ≤ 1024 * count) }
{
    let mut sum = 0;
    for c in first..first + count {
        sum += triangles_of(tables, c);
    }
    sum
}

// Where group g of a corner starts.
pub fn group_start(tables: CornerTables, starts: &[u32], c: usize, g: usize) -> u32
    requires { StartingTables tables starts.now × (c < length tables.levels.now) × (g ≤ 5) }
    ensures { (result < 8388608) × ((M : Mesh) → StartedTables M tables.entry starts.now → result ≡ group_start M tables.entry.levels.now c g) }
{
    let a = group_offset(tables, c, g);
    starts[c] + a as u32
}

// The number of the point at which a side of a corner's net begins.
pub fn end_number(tables: CornerTables, starts: &[u32], c: usize, side: usize) -> u32
    requires { StartingTables tables starts.now × (c < length tables.levels.now) × (side ≤ 3) }
    ensures { (M : Mesh) → StartedTables M tables.entry starts.now → result ≡ end_number M tables.entry.levels.now c (begin (side_at side)) }
{
    if side == 0 {
        let d = vertex_owner(tables.corners, tables.low, c);
        return group_start(tables, starts, d, 0);
    }
    if side == 1 {
        let d = edge_owner(tables.table, c);
        return group_start(tables, starts, d, 1);
    }
    if side == 2 {
        let d = face_owner(tables.table, c);
        return group_start(tables, starts, d, 2);
    }
    let e = beside(tables.table, c, 2);
    let d = edge_owner(tables.table, e);
    group_start(tables, starts, d, 1)
}

// Where the inner points of a side's curve start.
pub fn curve_start(tables: CornerTables, starts: &[u32], c: usize, side: usize) -> u32
    requires { StartingTables tables starts.now × (c < length tables.levels.now) × (side ≤ 3) }
    ensures { (result < 8388608) × ((M : Mesh) → StartedTables M tables.entry starts.now → result ≡ curve_start M tables.entry.levels.now c (side_at side)) }
{
    if side == 0 {
        return group_start(tables, starts, c, 3);
    }
    if side == 1 {
        return group_start(tables, starts, c, 4);
    }
    let d = beside(tables.table, c, side);
    if side == 2 {
        return group_start(tables, starts, d, 4);
    }
    group_start(tables, starts, d, 3)
}
