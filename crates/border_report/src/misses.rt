// L14: by how much the four conditions across a side are missed, on one axis, from the side's values and the points of three rows: the outer row and
// the a row of the side, and the a row of the neighbour's side. Each miss is a whole number over 2^30, its sign dropped.
ghost use Rattle.std.specs.Prelude.{◌≡◌, ℕ, ◌^◌, ◌≤◌, ◌<◌, get_or, pos, nat_abs, ◌+ℤ◌, ◌-ℤ◌, ◌*ℤ◌, ◌≤ℤ◌};
ghost use Rattle.paper.specs.Borders.{one};
ghost use Rattle.paper.specs.Report.{conditions, condition};
ghost use Rattle.surface.specs.Sizes.{ValueSize, WrittenSize, CosineSize};
ghost use Rattle.net_rows.specs.sides.Values.{SideSized};
ghost use Rattle.border_report.specs.misses.Row.{SmallRow};

use net_rows::sides::SideValues;
use paper::{CONDITIONS, UNIT};

// Four, where the cosine table has UNIT for 1.
const FOUR: i64 = 4 * UNIT;

// The misses of one side on one axis. A row has four points, at the places that the conditions name:
//     4(a0 + â0 - 2b0) - 3(1 + c)(X - H)
//     4(a1 + â1 - 2b1) - 2(1 + c)(Y - X) - (X - H)
//     4(a2 + â2 - 2b2) - (1 + c)(T - Y) - 2(Y - X)
//     4(a3 + â3 - 2b3) - 3(T - Y)
pub(crate) fn side_misses(
    side: SideValues,
    outer: [i64; CONDITIONS],
    own: [i64; CONDITIONS],
    other: [i64; CONDITIONS],
) -> [u64; CONDITIONS]
    requires { SideSized side × SmallRow outer × SmallRow own × SmallRow other }
    ensures { (j : ℕ) → j < conditions → get_or result j 0 ≡ nat_abs (condition j side.head side.tail side.x side.y side.cosine (get_or outer j (pos 0)) (get_or own j (pos 0)) (get_or other j (pos 0))) }
{
    let h = i64::from(side.head);
    let t = i64::from(side.tail);
    let x = i64::from(side.x);
    let y = i64::from(side.y);
    let c = side.cosine;
    let b0 = bend(outer[0], own[0], other[0]);
    let b1 = bend(outer[1], own[1], other[1]);
    let b2 = bend(outer[2], own[2], other[2]);
    let b3 = bend(outer[3], own[3], other[3]);
    [
        miss(b0, 3, lean(c, h, x), 0),
        miss(b1, 2, lean(c, x, y), x - h),
        miss(b2, 1, lean(c, y, t), y - x),
        miss(b3, 0, 0, t - y),
    ]
}

// 4(a + â - 2b), times 2^30.
fn bend(b: i64, a: i64, other: i64) -> i64
    requires { WrittenSize b × WrittenSize a × WrittenSize other }
    ensures { (result ≡ pos 4 *ℤ one *ℤ (a +ℤ other -ℤ pos 2 *ℤ b)) × (nat_abs result ≤ 2 ^ 60) }
{
    FOUR * (a + other - 2 * b)
}

// (1 + c)(v - u), times 2^30.
fn lean(c: i64, u: i64, v: i64) -> i64
    requires { CosineSize c × ValueSize u × ValueSize v }
    ensures { (result ≡ (one +ℤ c) *ℤ (v -ℤ u)) × (nat_abs result ≤ 2 ^ 57) }
{
    (UNIT + c) * (v - u)
}

// A bend without k times a lean and 3 - k times a step, its sign dropped.
fn miss(bent: i64, k: i64, leant: i64, step: i64) -> u64
    requires sizes { (nat_abs bent ≤ 2 ^ 60) × (nat_abs leant ≤ 2 ^ 57) × (nat_abs step ≤ 2 ^ 26) }
    requires parts { (pos 0 ≤ℤ k) × (k ≤ℤ pos 3) }
    ensures { result ≡ nat_abs (bent -ℤ k *ℤ leant -ℤ (pos 3 -ℤ k) *ℤ one *ℤ step) }
{
    let whole = bent - k * leant - (3 - k) * UNIT * step;
    whole.unsigned_abs()
}
