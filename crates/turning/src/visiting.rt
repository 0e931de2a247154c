// One face of a model that is turned: the faces across its edges get their states, or one of them is asked to be both kept and turned.
ghost use Rattle.std.specs.Prelude.{◌≡◌, ◌<◌, length};
ghost use Rattle.turning.specs.visiting.Visit.{Seen, Queued, Visited};

use crate::tables::Tables;
use reversing::states::{UNSEEN, across};

// A face is asked to be both kept and turned.
#[derive(Clone, Copy)]
pub struct Clash;

// One face: the faces across its edges get their states. Answers how far the queue reaches.
pub(crate) fn visit(
    tables: &Tables,
    f: usize,
    states: &mut [u8],
    queue: &mut [u16],
    tail: usize,
) -> Result<usize, Clash>
    requires face { (f < length tables.now.sides.now) × Seen states.old f }
    requires queued { Queued (length tables.now.sides.now) states.old queue.old tail }
    ensures { Visited tables.now.sides.now tables.now.corners.now f states.old queue.old tail result states.new queue.new }
{
    let state = states[f];
    let start = tables.starts[f] as usize;
    let end = start + tables.sides[f] as usize;
    let mut next = tail;
    for c in start..end {
        let d = (tables.partners[c] - 1) as usize;
        let g = tables.faces[d] as usize;
        let wanted = across(state, tables.corners[c] == tables.corners[d]);
        let found = states[g];
        if found == UNSEEN {
            states[g] = wanted;
            queue[next] = g as u16;
            next += 1;
        } else if found != wanted {
            return Err(Clash);
        }
    }
    Ok(next)
}
