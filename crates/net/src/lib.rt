#![tactic(auto)]
// The quad-nets of a run of corners of one face: their 41 control points on the three axes, from the rows of four numbers that they are made from, by
// the lanes, to the corners' parts of the output.
pub mod copy;
pub mod lanes;
pub mod stencil;

ghost use Rattle.std.specs.Prelude.{◌≡◌, ◌+◌, ◌*◌, ◌≤◌, ◌<◌, length};
ghost use Rattle.paper.specs.Calls.{per_corner};
ghost use Rattle.numbers.specs.Stored.{stored};
ghost use Rattle.net.specs.Drawn.{drawn, Drawn, CornerIn};
ghost use Rattle.net.specs.stencil.Taken.{Run, Quiet};
ghost use Rattle.net.specs.lanes.Lanes.{RingsAt};
ghost use Rattle.net.specs.Put.{RunPut};

use crate::lanes::Rings;
use numbers::cosines;
use paper::NUMBERS_PER_CORNER;
use walk::Walker;

// The numbers in the rows that a net is made from, and in those of its points.
pub const STENCIL: usize = 128;

pub const LANES: usize = 164;

// The nets of a run of corners of one face, from c on, to the output from `at` on. The tables are those of `count` corners. `stencil` and `lanes` are
// lent, so that they are made once for a call.
pub fn put_run(
    points: &[i32],
    table: &[u16],
    rows: &cosines::Rows,
    count: usize,
    c: usize,
    run: usize,
    stencil: &mut [i32],
    lanes: &mut [i32],
    out: &mut [i32],
    at: usize,
)
    requires mesh { Drawn count table.now points.now × (c + run ≤ count) × Run table.now c run }
    requires lent { (length stencil.old ≡ 128) × (length lanes.old ≡ 164) × Quiet stencil.old }
    requires room { (0 < run) × (at + per_corner * run ≤ length out.old) }
    requires rows { rows.now ≡ stored }
    ensures put { RunPut (drawn count table.now points.now) c run at out.old out.new }
    ensures quiet { Quiet stencil.new }
{
    crate::stencil::take_face(points, table, rows, count, c, run, stencil);
    for r in 0..run {
        crate::stencil::take_corner(points, table, rows, count, c + r, stencil);
        crate::lanes::fill_lanes(stencil, rings_at(table, rows, count, c + r, r), lanes);
        crate::copy::copy(lanes, out, at + NUMBERS_PER_CORNER * r);
    }
}

// The rings of corner c, the r-th of a run.
pub fn rings_at(table: &[u16], rows: &cosines::Rows, count: usize, c: usize, r: usize) -> Rings
    requires { CornerIn count table.now c × (rows.now ≡ stored) }
    ensures { RingsAt table.now c r result }
{
    let here = Walker { corner: c };
    let m = here.valence(table);
    let n = here.sides(table);
    Rings {
        vertex: cosines::cosine(rows, m, 1),
        face: cosines::cosine(rows, n, 1),
        place: r,
    }
}
