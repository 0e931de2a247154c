// Checks 12 and 13: how many corners name a vertex, and whether the ring of links from its lowest corner meets them all.
ghost use Rattle.std.specs.Prelude.{◌≡◌, ◌*◌, ◌≤◌, ◌<◌, length};
ghost use Rattle.paper.specs.Mesh.{most_vertices};
ghost use Rattle.paper.specs.Faults.{lowest_of, fault12, stated};
ghost use Rattle.walk.specs.Table.{to_link, entry};
ghost use Rattle.checks.specs.columns.Vertices.{vertex_row};
ghost use Rattle.checks.specs.columns.Filled.{CornersCounted};
ghost use Rattle.checks.specs.vertices.Ring.{ring_within, Linking, Cornered, Ringed, VerticesChecked};

use crate::columns::{COUNT, LOWEST, VERTEX_ROW};
use paper::{LEAST_SIDES, MOST_SIDES, Refusal};
use walk::Walker;

// Checks 12 and 13, of vertices that are counted.
pub(crate) fn check_vertices(
    corners: &[u16],
    count: usize,
    table: &[u16],
    vertices: &[u16],
) -> Result<(), Refusal>
    requires counted { (count ≤ most_vertices) × (vertex_row * count ≤ length vertices.now) × CornersCounted corners.now vertices.now }
    requires links { Linking table.now (length corners.now) }
    ensures { VerticesChecked corners.now count table.now result }
{
    check_valences(corners, vertices, count)?;
    check_rings(corners, table, vertices, count)
}

// Check 12: the corners that name a vertex are neither too few nor too many.
fn check_valences(corners: &[u16], vertices: &[u16], count: usize) -> Result<(), Refusal>
    requires { (count ≤ most_vertices) × (vertex_row * count ≤ length vertices.now) × CornersCounted corners.now vertices.now }
    ensures { stated result ≡ lowest_of 12 count (fault12 corners.now) }
{
    for u in 0..count {
        let n = vertices[VERTEX_ROW * u + COUNT] as usize;
        if !(LEAST_SIDES..=MOST_SIDES).contains(&n) {
            return Err(Refusal {
                number: 12,
                place: u,
            });
        }
    }
    Ok(())
}

// Check 13: the ring of links from a vertex's lowest corner is as long as the vertex has corners, so it meets them all.
fn check_rings(
    corners: &[u16],
    table: &[u16],
    vertices: &[u16],
    count: usize,
) -> Result<(), Refusal>
    requires counted { (count ≤ most_vertices) × (vertex_row * count ≤ length vertices.now) × CornersCounted corners.now vertices.now }
    requires links { Linking table.now (length corners.now) × Cornered corners.now count }
    ensures { Ringed corners.now table.now count result }
{
    for u in 0..count {
        let n = vertices[VERTEX_ROW * u + COUNT] as usize;
        let lowest = vertices[VERTEX_ROW * u + LOWEST] as usize;
        let len = ring(table, corners.len(), lowest, n);
        if len != n {
            return Err(Refusal {
                number: 13,
                place: u,
            });
        }
    }
    Ok(())
}

// The length of the ring of links from `start` until it comes back, within `bound` steps: 0 where it does not. It is a loop that yields the length by
// `break`, with a falling remainder, since document 01 names that form here.
fn ring(table: &[u16], count: usize, start: usize, bound: usize) -> usize
    requires { (start < count) × Linking table.now count }
    ensures { result ≡ ring_within (entry table.now to_link) start bound }
{
    let mut left = bound;
    let mut len: usize = 0;
    let mut w = Walker { corner: start };
    let n = loop {
        if left == 0 {
            break 0;
        }
        w = w.linked(table);
        left -= 1;
        len += 1;
        let at = w.corner;
        if at == start {
            break len;
        }
    };
    n
}
