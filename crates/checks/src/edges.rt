// Checks 10 and 11: edges that leave twice, and edges that have no reverse; the links come out of the same search.
// A vertex's corners are marked by where their leaving edge goes and by where their arriving edge comes from. Each of them then finds,
// without a search, the first corner that its edge leaves and a corner where the reverse of its edge arrives.
ghost use Rattle.std.specs.Prelude.{◌≡◌, ℕ, ◌*◌, ◌≤◌, ◌<◌, length};
ghost use Rattle.paper.specs.Mesh.{most_corners};
ghost use Rattle.paper.specs.Links.{vertex_of, valence};
ghost use Rattle.paper.specs.Faults.{lowest_of, stated};
ghost use Rattle.mesh.specs.Tables.{Named};
ghost use Rattle.walk.specs.Table.{row_length, to_link, entry};
ghost use Rattle.checks.specs.columns.Vertices.{vertex_row, leaving_here, arriving_here, count_here, HasRow};
ghost use Rattle.checks.specs.columns.Chain.{last_of, Clear};
ghost use Rattle.checks.specs.edges.Entries.{has, Searchable, ChainsFrom, HeadsFrom, BothKeyed};
ghost use Rattle.checks.specs.edges.Entries.{MarkedFrom, CountedAt, Unmarked, EntryFor, Collected, EntriesFound, EdgesChecked};

use crate::columns::{ARRIVING, COUNT, LAST, LEAVING, LOWEST, VERTEX_ROW};
use paper::Refusal;
use walk::{LINK, NEXT, PREVIOUS, ROW, VALENCE};

// The entry of a corner whose leaving edge already left an earlier one, and of a corner whose leaving edge has no reverse.
const REPEATED: u16 = 8193;

const ALONE: u16 = 8192;

// Checks 10 and 11, of entries that are found: where both have passed, they are the links. Nearly every mesh passes by the highest entry alone.
pub(crate) fn check_entries(corners: &[u16], table: &[u16]) -> Result<(), Refusal>
    requires { (length corners.now ≤ most_corners) × (row_length * length corners.now ≤ length table.now) }
    ensures { EdgesChecked corners.now table.now result }
{
    if highest_entry(table, corners.len()) < ALONE {
        return Ok(());
    }
    refuse(table, corners.len(), REPEATED, 10)?;
    refuse(table, corners.len(), ALONE, 11)
}

// The entry and the valence of every corner, vertex by vertex, in the columns of links and valences; the second held the chains. The
// columns of edges are never cleared: an entry of another vertex is known by its corner.
pub(crate) fn fill_links(corners: &[u16], count: usize, table: &mut [u16], vertices: &mut [u16])
    requires walk { Searchable corners.now table.old vertices.old × ChainsFrom corners.now table.old 0 × HeadsFrom corners.now vertices.old 0 }
    requires vertices { Named corners.now count × (vertex_row * count ≤ length vertices.old) }
    requires clear { Clear vertices.old leaving_here × Clear vertices.old arriving_here × Clear vertices.old count_here }
    ensures { EntriesFound corners.now table.old table.new vertices.new }
{
    for u in 0..count {
        let last = vertices[VERTEX_ROW * u + LAST];
        let n = mark(corners, table, u, last, vertices);
        collect(corners, vertices, u, last, n, table);
    }
}

// Marks the corners of u from the highest down, so that the lowest one of an edge stays; `last` is one more than the highest. Answers how
// many there are, and notes that, and the lowest in place of the last.
fn mark(corners: &[u16], table: &[u16], u: usize, last: u16, vertices: &mut [u16]) -> u16
    requires walk { Searchable corners.now table.now vertices.old × HasRow vertices.old u × ChainsFrom corners.now table.now u }
    requires last { last ≡ last_of corners.now u }
    requires keyed { BothKeyed corners.now table.now vertices.old }
    ensures marks { MarkedFrom corners.now table.now vertices.new u 0 }
    ensures count { (result ≡ valence corners.now u) × CountedAt corners.now vertices.new u }
    ensures rest { Unmarked vertices.old vertices.new u }
{
    let mut at = last;
    let mut n: u16 = 0;
    let mut lowest: u16 = 0;
    while at != 0 {
        n += 1;
        lowest = at - 1;
        let d = (at - 1) as usize;
        let next = table[ROW * d + NEXT] as usize;
        let to = corners[next] as usize;
        vertices[VERTEX_ROW * to + LEAVING] = at;
        let previous = table[ROW * d + PREVIOUS] as usize;
        let from = corners[previous] as usize;
        vertices[VERTEX_ROW * from + ARRIVING] = at;
        at = table[ROW * d + VALENCE];
    }
    vertices[VERTEX_ROW * u + COUNT] = n;
    vertices[VERTEX_ROW * u + LOWEST] = lowest;
    n
}

// The entries of the corners of u, which are marked, and their valence n. It takes the place of the chain behind the walk.
fn collect(corners: &[u16], vertices: &[u16], u: usize, last: u16, n: u16, table: &mut [u16])
    requires walk { Searchable corners.now table.old vertices.now × ChainsFrom corners.now table.old u × (last ≡ last_of corners.now u) }
    requires marked { MarkedFrom corners.now table.old vertices.now u 0 × (n ≡ valence corners.now u) }
    ensures { Collected corners.now table.old table.new u }
{
    let mut at = last;
    while at != 0 {
        let c = (at - 1) as usize;
        let x = entry(corners, table, vertices, u, c);
        at = table[ROW * c + VALENCE];
        table[ROW * c + LINK] = x;
        table[ROW * c + VALENCE] = n;
    }
}

// The entry of corner c of u, which is marked.
fn entry(corners: &[u16], table: &[u16], vertices: &[u16], u: usize, c: usize) -> u16
    requires corner { (c < length corners.now) × (u ≡ vertex_of corners.now c) × Searchable corners.now table.now vertices.now }
    requires marked { MarkedFrom corners.now table.now vertices.now u 0 }
    ensures { EntryFor corners.now table.now c result }
{
    let next = table[ROW * c + NEXT] as usize;
    let to = corners[next] as usize;
    let first = vertices[VERTEX_ROW * to + LEAVING] as usize;
    if first != c + 1 {
        return REPEATED;
    }
    let e = vertices[VERTEX_ROW * to + ARRIVING];
    if e == 0 {
        return ALONE;
    }
    let d = e - 1;
    if corners[d as usize] as usize != u {
        return ALONE;
    }
    d
}

// A number that no entry is above.
fn highest_entry(table: &[u16], count: usize) -> u16
    requires { (count ≤ most_corners) × (row_length * count ≤ length table.now) }
    ensures { (c : ℕ) → c < count → entry table.now to_link c ≤ result }
{
    let mut most: u16 = 0;
    for c in 0..count {
        most = most.max(table[ROW * c + LINK]);
    }
    most
}

// The lowest corner that has the entry, as the place of a fault.
fn refuse(table: &[u16], count: usize, x: u16, number: u8) -> Result<(), Refusal>
    requires { (count ≤ most_corners) × (row_length * count ≤ length table.now) }
    ensures { stated result ≡ lowest_of number count (has table.now x) }
{
    for c in 0..count {
        if table[ROW * c + LINK] == x {
            return Err(Refusal { number, place: c });
        }
    }
    Ok(())
}
