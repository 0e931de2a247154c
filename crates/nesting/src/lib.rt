#![tactic(auto)]
// L4, the nested grids as a table: checks 21 to 23, and the listing in which every body stands after the one it hangs in.
// The bodies are listed one after the other, the lowest that may come next each time. Where none may, those left over are
// the ones whose chain does not end at the Sun. Each place costs one look at every body.
ghost use Rattle.std.specs.Prelude.{◌≡◌, List, ℕ, ◌<◌, ◌≤◌, length, get_or};
ghost use Rattle.paper.specs.Faults.{single, lowest_of, stated};
ghost use Rattle.paper.specs.Nesting.{sun, fault21, fault22, fault23, may_follow, Nested};
ghost use Rattle.nesting.specs.Marks.{Marks, ChainMarks, Arrangeable, Arranged, ListedIn, NextBody};

use paper::{MOST_BODIES, Refusal, SUN};

// Checks 21 to 23, then the listing. Nothing is written to the lent listing before the last check has passed.
pub fn nest(holders: &[u16], listing: &mut [u16]) -> Result<(), Refusal>
    ensures { Nested holders.now listing.old result listing.new }
{
    check_lengths(holders.len(), listing.len())?;
    check_holders(holders)?;
    let mut marks = [false; MOST_BODIES];
    let mut order = [0u16; MOST_BODIES];
    list(holders, &mut marks, &mut order, listing)
}

// Arranges the bodies in scratch tables; then check 23; then the lent listing gets their order.
fn list(
    holders: &[u16],
    marks: &mut [bool],
    order: &mut [u16],
    listing: &mut [u16],
) -> Result<(), Refusal>
    requires { Arrangeable holders.now marks.old order.old × (length listing.old ≡ length holders.now) }
    ensures { ListedIn holders.now listing.old result listing.new }
{
    arrange(holders, marks, order);
    check_chains(holders, marks)?;
    let n = listing.len();
    listing.copy_from_slice(&order[..n]);
    Ok(())
}

// Check 21, of the lengths of table and listing.
fn check_lengths(bodies: usize, room: usize) -> Result<(), Refusal>
    ensures { stated result ≡ single 21 (fault21 bodies room) 0 }
{
    if bodies < 1 || MOST_BODIES < bodies {
        return Err(Refusal {
            number: 21,
            place: 0,
        });
    }
    if room != bodies {
        return Err(Refusal {
            number: 21,
            place: 0,
        });
    }
    Ok(())
}

// Check 22: each number is a body's or the Sun's.
fn check_holders(holders: &[u16]) -> Result<(), Refusal>
    ensures { stated result ≡ lowest_of 22 (length holders.now) (fault22 holders.now) }
{
    for (b, h) in holders.iter().enumerate() {
        if holders.len() <= *h as usize && *h != SUN {
            return Err(Refusal {
                number: 22,
                place: b,
            });
        }
    }
    Ok(())
}

// Check 23: each body's chain ends at the Sun, as the marks tell.
fn check_chains(holders: &[u16], marks: &[bool]) -> Result<(), Refusal>
    requires { (length holders.now ≤ length marks.now) × ChainMarks holders.now marks.now }
    ensures { stated result ≡ lowest_of 23 (length holders.now) (fault23 holders.now) }
{
    for b in 0..holders.len() {
        if !marks[b] {
            return Err(Refusal {
                number: 23,
                place: b,
            });
        }
    }
    Ok(())
}

// Lists bodies in `order` and marks them, until none may come next.
fn arrange(holders: &[u16], marks: &mut [bool], order: &mut [u16])
    requires { Arrangeable holders.now marks.old order.old }
    ensures { Arranged holders.now marks.new order.new }
{
    for k in 0..holders.len() {
        let Some(b) = next_body(holders, marks) else {
            return;
        };
        order[k] = b as u16;
        marks[b] = true;
    }
}

// The lowest body that may come next after those marked.
fn next_body(holders: &[u16], marks: &[bool]) -> Option<usize>
    requires { length holders.now ≤ length marks.now }
    ensures { (list : List ℕ) → Marks list marks.now → NextBody holders.now list result }
{
    for (b, holder) in holders.iter().enumerate() {
        if may_follow(marks, b, *holder) {
            return Some(b);
        }
    }
    None
}

// Whether body b, which hangs in `holder`, may come next: it is not marked, and its holder is marked or is the Sun.
fn may_follow(marks: &[bool], b: usize, holder: u16) -> bool
    requires { b < length marks.now }
    ensures { (holders list : List ℕ) → get_or holders b sun ≡ holder → Marks list marks.now → result ≡ may_follow holders list b }
{
    if marks[b] {
        return false;
    }
    if holder == SUN {
        return true;
    }
    let h = holder as usize;
    h < marks.len() && marks[h]
}
