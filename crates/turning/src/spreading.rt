// Turns spread over the faces of a model: from the lowest face of each part, which is kept, over shared edges, until a face is asked to
// be both kept and turned, or every face of the part has its turn.
ghost use Rattle.std.specs.Prelude.{◌≡◌, ◌+◌, ◌≤◌, ◌<◌, length, get_or};
ghost use Rattle.turning.specs.visiting.Visit.{AllSettled, Queued};
ghost use Rattle.turning.specs.spreading.Spread.{Wandered, SpreadOver};
ghost use Rattle.walk.specs.Table.{Blank};

use crate::tables::Tables;
use crate::visiting::{Clash, visit};
use paper::Refusal;
use reversing::states::{KEPT, UNSEEN};

// A round over the part of r, which is kept. The queue up to `from` holds the faces of earlier parts.
fn round(
    tables: &Tables,
    r: usize,
    states: &mut [u8],
    queue: &mut [u16],
    from: usize,
) -> Result<usize, Clash>
    requires root { (r < length tables.now.sides.now) × (get_or states.old r 0 ≡ 0) }
    requires earlier { AllSettled tables.now.sides.now tables.now.corners.now states.old × Queued (length tables.now.sides.now) states.old queue.old from }
    ensures { Wandered tables.now.sides.now tables.now.corners.now r states.old result states.new queue.new }
{
    states[r] = KEPT;
    queue[from] = r as u16;
    let mut head = from;
    let mut tail = from + 1;
    // The queue grows while it is walked, so there is no range to walk.
    while head < tail {
        let f = queue[head] as usize;
        tail = visit(tables, f, states, queue, tail)?;
        head += 1;
    }
    Ok(tail)
}

// Check 35, after check 34; where it finds nothing, the states are the turns. The lowest face that no round has reached is the lowest of
// its part, so the first clash is in the lowest part that has one.
pub(crate) fn spread(tables: &Tables, states: &mut [u8], queue: &mut [u16]) -> Result<(), Refusal>
    requires room { (length tables.now.sides.now ≤ length states.old) × (length tables.now.sides.now ≤ length queue.old) × Blank states.old }
    ensures { SpreadOver tables.now.sides.now tables.now.corners.now result states.new }
{
    let mut tail = 0;
    for r in 0..tables.sides.len() {
        if states[r] == UNSEEN {
            let reach = round(tables, r, states, queue, tail);
            let Ok(next) = reach else {
                return Err(Refusal {
                    number: 35,
                    place: r,
                });
            };
            tail = next;
        }
    }
    Ok(())
}
