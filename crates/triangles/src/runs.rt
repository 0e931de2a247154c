// The numbers that the corners of a range have of their own, of one kind: those of the points or those of the tangents. The refined points that the range's
// nets need are computed once, as building does; then the nets are made for a run of corners at a time, and the numbers of each run are put from them.
ghost use Rattle.std.specs.Prelude.{◌≡◌, List, ℕ, ◌+◌, ◌-◌, ◌*◌, ◌≤◌, ◌<◌, length};
ghost use Rattle.paper.specs.Mesh.{Mesh, of_lists};
ghost use Rattle.paper.specs.Faults.{sound};
ghost use Rattle.paper.specs.File.{begins};
ghost use Rattle.paper.specs.Floats.{net_verdict};
ghost use Rattle.paper.specs.Calls.{nets};
ghost use Rattle.numbers.specs.Stored.{stored};
ghost use Rattle.surface.specs.Points.{point_row};
ghost use Rattle.corner_points.specs.RefinedPoints.{SmallPoints};
ghost use Rattle.building.specs.writing.Written.{NetsDrawn};
ghost use Rattle.strips.specs.PointRows.{Stands};
ghost use Rattle.numbering.specs.Meshed.{OfTables, GivenTables};
ghost use Rattle.triangles.specs.Owned.{Netted};
ghost use Rattle.triangles.specs.runs.Chosen.{Drawing, OwnLaws};

use mesh::{LARGE_MESH, SMALL_MESH};
use numbering::CornerTables;
use numbers::cosines;
use paper::{MOST_CORNERS, MeshLists, NUMBERS_PER_CORNER};
use surface::POINT_ROW;

// The corners of a run.
const RUN: usize = 16;

// A kind of numbers that each corner has of its own, in threes: `filling` has those of the points, which are i32, and `tangent_filling` those of the
// tangents, which are i64.
pub(crate) trait Own: Copy {
    // How many threes the corners before c have, number x of all, and the numbers of a range.
    ghost before: { Mesh → List ℕ → ℕ → ℕ };

    ghost number: { Mesh → List ℕ → ℕ → Self };

    ghost list: { Mesh → List ℕ → ℕ → ℕ → List Self };

    // Those of a corner, out of the numbers of its net. It answers where they end.
    fn put(tables: CornerTables, numbers: &[i32], c: usize, out: &mut [Self], at: usize) -> usize
        requires given { GivenTables tables × (c < length tables.levels.now) × (net_verdict numbers.now ≡ sound) }
        requires room { (M : Mesh) → OfTables M tables → at + 3 * (before M tables.levels.now (c + 1) - before M tables.levels.now c) ≤ length out.old }
        ensures ends { (M : Mesh) → OfTables M tables.entry → result ≡ at + 3 * (before M tables.entry.levels.now (c + 1) - before M tables.entry.levels.now c) }
        ensures numbers { (M : Mesh) → OfTables M tables.entry → numbers.now ≡ nets M c 1 → Stands (number M tables.entry.levels.now) (before M tables.entry.levels.now c) (before M tables.entry.levels.now (c + 1)) at result out.old out.new };
}

// All of them, over a table of refined points as long as the mesh needs. Each kind has a function of its own of this one: in a function for both kinds the
// three tables stood side by side, and a call needed 381 KB of stack.
pub(crate) fn fill<N: Own>(
    lists: MeshLists,
    tables: CornerTables,
    first: usize,
    count: usize,
    out: &mut [N],
)
    requires laws { OwnLaws N.before N.number N.list }
    requires mesh { OfTables (of_lists lists) tables }
    requires range { (0 < count) × (first + count ≤ length tables.levels.now) }
    requires room { (M : Mesh) → OfTables M tables → 3 * (N.before M tables.levels.now (first + count) - N.before M tables.levels.now first) ≤ length out.old }
    ensures { out.new ≡ begins (N.list (of_lists lists.entry) tables.entry.levels.now first count) out.old }
{
    let rows = mesh::table_rows(lists.corners.len());
    if rows == SMALL_MESH {
        let mut refined = [0i32; POINT_ROW * SMALL_MESH];
        over_refined(lists, tables, first, count, &mut refined, out)
    } else if rows == LARGE_MESH {
        let mut refined = [0i32; POINT_ROW * LARGE_MESH];
        over_refined(lists, tables, first, count, &mut refined, out)
    } else {
        let mut refined = [0i32; POINT_ROW * MOST_CORNERS];
        over_refined(lists, tables, first, count, &mut refined, out)
    }
}

// The same over a table for the refined points.
fn over_refined<N: Own>(
    lists: MeshLists,
    tables: CornerTables,
    first: usize,
    count: usize,
    refined: &mut [i32],
    out: &mut [N],
)
    requires laws { OwnLaws N.before N.number N.list }
    requires mesh { OfTables (of_lists lists) tables }
    requires range { (0 < count) × (first + count ≤ length tables.levels.now) }
    requires room { (M : Mesh) → OfTables M tables → 3 * (N.before M tables.levels.now (first + count) - N.before M tables.levels.now first) ≤ length out.old }
    requires refined { (point_row * length lists.corners.now ≤ length refined.old) × SmallPoints refined.old }
    ensures { out.new ≡ begins (N.list (of_lists lists.entry) tables.entry.levels.now first count) out.old }
{
    building::writing::fill_range(lists, tables.table, first, count, refined);
    let rows = cosines::rows();
    put_runs(tables, refined, &rows, first, count, out);
}

// The same over the refined points, a run of corners at a time. The last run may be shorter, so no range steps from run to run.
fn put_runs<N: Own>(
    tables: CornerTables,
    refined: &[i32],
    rows: &cosines::Rows,
    first: usize,
    count: usize,
    out: &mut [N],
)
    requires laws { OwnLaws N.before N.number N.list }
    requires mesh { Drawing tables refined.now first count × (rows.now ≡ stored) }
    requires range { first + count ≤ length tables.levels.now }
    requires room { (M : Mesh) → OfTables M tables → 3 * (N.before M tables.levels.now (first + count) - N.before M tables.levels.now first) ≤ length out.old }
    ensures { (M : Mesh) → OfTables M tables.entry → NetsDrawn M tables.entry.table.now refined.now first count → out.new ≡ begins (N.list M tables.entry.levels.now first count) out.old }
{
    let mut numbers = [0i32; RUN * NUMBERS_PER_CORNER];
    let mut to = 0;
    let mut c = 0;
    while c < count {
        let run = RUN.min(count - c);
        building::writing::write_corners(
            refined,
            tables.table,
            rows,
            tables.corners.len(),
            first + c,
            run,
            &mut numbers,
        );
        let nets = &numbers[..NUMBERS_PER_CORNER * run];
        to = put_run(tables, nets, first + c, run, out, to);
        c += run;
    }
}

// Those of `count` corners from `first` on, out of the numbers of their nets, as building writes them. It answers where they end.
fn put_run<N: Own>(
    tables: CornerTables,
    numbers: &[i32],
    first: usize,
    count: usize,
    out: &mut [N],
    at: usize,
) -> usize
    requires laws { OwnLaws N.before N.number N.list }
    requires netted { Netted tables numbers.now first count × (first + count ≤ length tables.levels.now) }
    requires room { (M : Mesh) → OfTables M tables → at + 3 * (N.before M tables.levels.now (first + count) - N.before M tables.levels.now first) ≤ length out.old }
    ensures ends { (M : Mesh) → OfTables M tables.entry → result ≡ at + 3 * (N.before M tables.entry.levels.now (first + count) - N.before M tables.entry.levels.now first) }
    ensures numbers { (M : Mesh) → OfTables M tables.entry → numbers.now ≡ nets M first count → Stands (N.number M tables.entry.levels.now) (N.before M tables.entry.levels.now first) (N.before M tables.entry.levels.now (first + count)) at result out.old out.new }
{
    let mut to = at;
    for c in 0..count {
        let from = NUMBERS_PER_CORNER * c;
        let net = &numbers[from..from + NUMBERS_PER_CORNER];
        to = N::put(tables, net, first + c, out, to);
    }
    to
}
