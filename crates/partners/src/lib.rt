#![tactic(auto)]
// Check 34, and for each corner its partner: the other corner that shares its edge, direction ignored.
// Corners are linked by the lower end of their edges, in falling chains. A walk over a chain finds for each corner the next higher one with
// the same ends; an edge is in two faces where its lowest corner has such a corner, and that one has none.
ghost use Rattle.std.specs.Prelude.{◌≡◌, ◌+◌, ◌≤◌, ◌<◌, min, max, length};
ghost use Rattle.paper.specs.Mesh.{most_corners};
ghost use Rattle.walk.specs.Table.{Blank};
ghost use Rattle.partners.specs.Lists.{ListsPass, Nexted};
ghost use Rattle.partners.specs.Keys.{Keyable, Keyed, EdgeEnds, Chainable, Chains, own_entry, Afters, Followable, LatestBelow, AftersBelow, PartnersFor, PartnersOver};

use paper::{MOST_CORNERS, MOST_VERTICES, Refusal};
use walk::{NEXT, ROW};

// The corners by the lower ends of their edges: the ends of each corner's edge, the lower and the higher; for each corner one more than the earlier
// one with the same lower end, for each vertex one more than the highest, and 0 where there is none: an `Option` would take twice the stack.
#[derive(Clone, Copy)]
struct EndTables<'a> {
    vertices: usize,
    lows: &'a [u16],
    highs: &'a [u16],
    earliers: &'a [u16],
    heads: &'a [u16],
}

// Check 34, and the partner of every corner.
pub fn find_partners(
    vertices: usize,
    sides: &[u8],
    corners: &[u16],
    table: &[u16],
    partners: &mut [u16],
) -> Result<(), Refusal>
    requires lists { ListsPass vertices sides.now corners.now × Nexted sides.now corners.now table.now }
    requires room { (length corners.now ≤ length partners.old) × Blank partners.old }
    ensures { PartnersOver sides.now corners.now result partners.new }
{
    let n = corners.len();
    let mut lows = [0u16; MOST_CORNERS];
    let mut highs = [0u16; MOST_CORNERS];
    fill_keys(corners, table, &mut lows, &mut highs);
    let low = &lows[..n];
    let high = &highs[..n];
    let mut afters = [0u16; MOST_CORNERS];
    fill_afters(low, high, vertices, &mut afters);
    pair(low, high, &afters, partners)
}

// The next corner with the same ends, of every corner.
fn fill_afters(lows: &[u16], highs: &[u16], vertices: usize, afters: &mut [u16])
    requires ends { EdgeEnds vertices lows.now highs.now }
    requires room { length lows.now ≤ length afters.old }
    ensures { Afters lows.now highs.now afters.new }
{
    let mut earliers = [0u16; MOST_CORNERS];
    let mut heads = [0u16; MOST_VERTICES];
    fill_earliers(lows, vertices, &mut earliers, &mut heads);
    let mut table = [0u16; MOST_VERTICES];
    let ends = EndTables {
        vertices,
        lows,
        highs,
        earliers: &earliers,
        heads: &heads,
    };
    follow_all(&ends, &mut table, afters)
}

// The two ends of every corner's leaving edge, the lower one and the higher one.
fn fill_keys(corners: &[u16], table: &[u16], lows: &mut [u16], highs: &mut [u16])
    requires { Keyable corners.now table.now lows.old highs.old }
    ensures { Keyed corners.now table.now lows.new highs.new (length corners.now) }
{
    for c in 0..corners.len() {
        let a = corners[c];
        let e = table[ROW * c + NEXT] as usize;
        let b = corners[e];
        lows[c] = a.min(b);
        highs[c] = a.max(b);
    }
}

// The earlier corner with the same lower end, of every corner; the highest corner with each lower end.
fn fill_earliers(lows: &[u16], vertices: usize, earliers: &mut [u16], heads: &mut [u16])
    requires { Chainable vertices lows.now earliers.old heads.old }
    ensures { Chains lows.now earliers.new heads.new }
{
    for c in 0..lows.len() {
        let u = lows[c] as usize;
        earliers[c] = heads[u];
        heads[u] = (c + 1) as u16;
    }
}

// An entry of the table by higher ends, where it belongs to u; 0 where it is empty or belongs to another lower end.
fn own(lows: &[u16], u: usize, e: u16) -> u16
    requires { e ≤ length lows.now }
    ensures { result ≡ own_entry lows.now u e }
{
    if e != 0 && lows[(e - 1) as usize] as usize == u {
        e
    } else {
        0
    }
}

// For each corner one more than the next higher corner with the same ends, 0 where there is none.
fn follow_all(ends: &EndTables, table: &mut [u16], afters: &mut [u16])
    requires walk { Followable ends.now.vertices ends.now.lows.now ends.now.highs.now ends.now.earliers.now ends.now.heads.now }
    requires room { (ends.now.vertices ≤ length table.old) × Blank table.old × (length ends.now.lows.now ≤ length afters.old) }
    ensures { Afters ends.now.lows.now ends.now.highs.now afters.new }
{
    for u in 0..ends.vertices {
        follow(ends, u, table, afters);
    }
}

// The corners whose lower end is u, from the highest down.
fn follow(ends: &EndTables, u: usize, table: &mut [u16], afters: &mut [u16])
    requires walk { (u < ends.now.vertices) × Followable ends.now.vertices ends.now.lows.now ends.now.highs.now ends.now.earliers.now ends.now.heads.now }
    requires table { LatestBelow ends.now.vertices ends.now.lows.now ends.now.highs.now table.old u }
    requires afters { (length ends.now.lows.now ≤ length afters.old) × AftersBelow ends.now.lows.now ends.now.highs.now afters.old u }
    ensures latest { LatestBelow ends.now.vertices ends.now.lows.now ends.now.highs.now table.new (u + 1) }
    ensures below { AftersBelow ends.now.lows.now ends.now.highs.now afters.new (u + 1) }
{
    let mut at = ends.heads[u];
    while at != 0 {
        let c = (at - 1) as usize;
        let w = ends.highs[c] as usize;
        afters[c] = own(ends.lows, u, table[w]);
        table[w] = at;
        at = ends.earliers[c];
    }
}

// Check 34. A corner that has no partner yet is the lowest of its edge.
fn pair(lows: &[u16], highs: &[u16], afters: &[u16], partners: &mut [u16]) -> Result<(), Refusal>
    requires small { length lows.now ≤ most_corners }
    requires tables { (length lows.now ≤ length afters.now) × Afters lows.now highs.now afters.now }
    requires room { (length lows.now ≤ length partners.old) × Blank partners.old }
    ensures { PartnersFor lows.now highs.now result partners.new }
{
    for c in 0..lows.len() {
        if partners[c] == 0 {
            let e = afters[c];
            if e == 0 {
                return Err(Refusal {
                    number: 34,
                    place: c,
                });
            }
            let second = (e - 1) as usize;
            let third = afters[second];
            if third != 0 {
                return Err(Refusal {
                    number: 34,
                    place: c,
                });
            }
            partners[c] = e;
            partners[second] = (c + 1) as u16;
        }
    }
    Ok(())
}
