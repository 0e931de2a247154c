#![tactic(auto)]
// Turned faces written in place: the corners of each turned face after its first one reversed, its sharpness pairs reversed and each exchanged,
// and the turned faces listed in rising order.
pub mod states;

ghost use Rattle.std.specs.Prelude.{◌≡◌, ◌*◌, ◌≤◌, ◌<◌, length};
ghost use Rattle.paper.specs.Mesh.{most_corners};
ghost use Rattle.paper.specs.Turning.{turned_pairs};
ghost use Rattle.reversing.specs.States.{turns_by};
ghost use Rattle.reversing.specs.Written.{PairsTurned, Sharpenable, FaceTurned, Writable, Written};

use crate::states::TURNED;

// Turns one face in place: its first corner stays, and after it the corners stand in reverse order.
fn turn_face(corners: &mut [u16], start: usize, end: usize)
    requires { (start < end) × (end ≤ length corners.old) × (length corners.old ≤ most_corners) }
    ensures { FaceTurned start end corners.old corners.new }
{
    corners[start + 1..end].reverse();
}

// Turns the sharpness pairs of the faces whose state says so.
pub fn turn_sharpness(sides: &[u8], states: &[u8], pairs: &mut [u8])
    requires { Sharpenable sides.now states.now pairs.old }
    ensures { pairs.new ≡ turned_pairs sides.now pairs.old (turns_by states.now) }
{
    let mut start = 0;
    for (f, side_count) in sides.iter().enumerate() {
        let end = start + usize::from(*side_count);
        if states[f] == TURNED {
            turn_pairs(pairs, start, end);
        }
        start = end;
    }
}

// Turns the sharpness pairs of one face: reversed as a whole, the pairs stand in reverse order and each with its numbers exchanged.
fn turn_pairs(pairs: &mut [u8], start: usize, end: usize)
    requires { (start < end) × (2 * end ≤ length pairs.old) × (length pairs.old ≤ 2 * most_corners) }
    ensures { PairsTurned start end pairs.old pairs.new }
{
    let first = 2 * start;
    let later = first + 2;
    pairs[first..later].reverse();
    pairs[later..2 * end].reverse();
}

// Turns the faces whose state says so, in place, and lists them at the beginning of the listing; answers how many they are.
pub fn turn_faces(sides: &[u8], states: &[u8], corners: &mut [u16], listing: &mut [u16]) -> usize
    requires { Writable sides.now states.now corners.old listing.old }
    ensures { Written (turns_by states.now) sides.now corners.old listing.old result corners.new listing.new }
{
    let mut count = 0;
    let mut start = 0;
    for (f, side_count) in sides.iter().enumerate() {
        let end = start + usize::from(*side_count);
        if states[f] == TURNED {
            turn_face(corners, start, end);
            listing[count] = f as u16;
            count += 1;
        }
        start = end;
    }
    count
}
