#![tactic(auto)]
// Rows of a net's points by number, and the triangles of the strip between two rows, as paper/specs/Triangles.antt joins them. No mesh is needed for that:
// a row is given by the numbers of its first and its last point and of those between.
ghost use Rattle.std.specs.Prelude.{◌≡◌, true, ℕ, ◌+◌, ◌-◌, ◌*◌, ◌/◌, ◌<◌, ◌≤◌, length};
ghost use Rattle.paper.specs.Sampling.{side_at};
ghost use Rattle.paper.specs.Triangles.{apex, foot};
ghost use Rattle.strips.specs.PointRows.{row_number, RowFits, Strip, RisingRow, PlainStrip, strip_number, ring_place, Fills, three};

// A row of a net's points: the numbers of its first and its last, and of those between, which rise or fall by one; and its segments.
#[derive(Clone, Copy)]
pub struct NumberedRow {
    pub first: u32,
    pub last: u32,
    pub base: u32,
    pub parts: usize,
    pub up: bool,
}

// The number of the point at place j.
fn number(row: NumberedRow, j: usize) -> u32
    requires { RowFits row × (j ≤ row.parts) }
    ensures { result ≡ row_number row j }
{
    let parts = row.parts;
    if j == 0 {
        return row.first;
    }
    if j == parts {
        return row.last;
    }
    if row.up {
        return row.base + (j - 1) as u32;
    }
    row.base + (parts - j - 1) as u32
}

// The upper point over lower segment j.
fn over(side: usize, p: usize, u: usize, j: usize) -> usize
    requires { (side ≤ 3) × (1 ≤ u) × (u ≤ p) × (p ≤ 16) × (j < p) }
    ensures { (result ≡ apex (side_at side) p u j) × (result < u) }
{
    if side % 2 == 0 {
        return share(p, u, j);
    }
    u - 1 - share(p, u, p - 1 - j)
}

// The same from the head. Another formula than that of `step`: one function for both would be no plainer.
fn share(p: usize, u: usize, j: usize) -> usize
    requires { (1 ≤ u) × (u ≤ p) × (p ≤ 16) × (j < p) }
    ensures { (result ≡ (2 * j + 1) * u / (2 * p)) × (result < u) }
{
    (2 * j + 1) * u / (2 * p)
}

// The lower point under upper segment i.
fn under(side: usize, p: usize, u: usize, i: usize) -> usize
    requires { (side ≤ 3) × (u ≤ p) × (p ≤ 16) × (i + 1 < u) }
    ensures { (result ≡ foot (side_at side) p u i) × (result < p) }
{
    if side % 2 == 0 {
        return step(p, u, i);
    }
    p - step(p, u, u - 2 - i)
}

// The same from the head.
fn step(p: usize, u: usize, i: usize) -> usize
    requires { (u ≤ p) × (p ≤ 16) × (i + 1 < u) }
    ensures { (result ≡ ((i + 1) * (2 * p) + (u - 1)) / (2 * u)) × (result < p) }
{
    ((i + 1) * (2 * p) + (u - 1)) / (2 * u)
}

// Three numbers from `at` on.
fn put_three(out: &mut [u32], at: usize, a: u32, b: u32, c: u32)
    requires { at + 3 ≤ length out.old }
    ensures { Fills (three a b c) at 3 out.old out.new }
{
    out[at] = a;
    out[at + 1] = b;
    out[at + 2] = c;
}

// The triangles over the lower segments.
fn put_over(side: usize, lower: NumberedRow, upper: NumberedRow, out: &mut [u32], at: usize)
    requires { Strip side lower upper × (at + 3 * lower.parts ≤ length out.old) }
    ensures { Fills (strip_number (side_at side) lower upper) at (3 * lower.parts) out.old out.new }
{
    let p = lower.parts;
    let u = upper.parts + 1;
    for t in 0..p {
        let a = number(lower, t);
        let b = number(lower, t + 1);
        let c = number(upper, over(side, p, u, t));
        put_three(out, at + 3 * t, a, b, c);
    }
}

// The triangles under the upper segments.
fn put_under(side: usize, lower: NumberedRow, upper: NumberedRow, out: &mut [u32], at: usize)
    requires { Strip side lower upper × (at + 3 * upper.parts ≤ length out.old) }
    ensures { Fills (λ x. strip_number (side_at side) lower upper (3 * lower.parts + x)) at (3 * upper.parts) out.old out.new }
{
    let p = lower.parts;
    let w = upper.parts;
    for i in 0..w {
        let a = number(upper, i + 1);
        let b = number(upper, i);
        let c = number(lower, under(side, p, w + 1, i));
        put_three(out, at + 3 * i, a, b, c);
    }
}

// Whether a row's numbers rise from its first on, up to its last.
fn rises(row: NumberedRow) -> bool
    ensures { result ≡ true → RisingRow row }
{
    row.up && row.first < row.base && row.base - row.first == 1
}

// Whether a strip is plain: both rows rise, and a point stands over each lower segment.
fn is_plain(lower: NumberedRow, upper: NumberedRow) -> bool
    requires { upper.parts < lower.parts }
    ensures { result ≡ true → PlainStrip lower upper }
{
    lower.parts == upper.parts + 1 && rises(lower) && rises(upper)
}

// The triangles of a plain strip, in a second way, without divisions and without a row's cases: those over the lower segments. All strips of a net
// but the outermost are plain, whatever its border's level. So the call for points and triangles takes 0.89 of the time at level 8 and 0.79 at 16.
fn put_over_plain(side: usize, lower: NumberedRow, upper: NumberedRow, out: &mut [u32], at: usize)
    requires { Strip side lower upper × PlainStrip lower upper × (at + 3 * lower.parts ≤ length out.old) }
    ensures { Fills (strip_number (side_at side) lower upper) at (3 * lower.parts) out.old out.new }
{
    let w = upper.parts;
    for t in 0..w {
        let a = lower.first + t as u32;
        let c = upper.first + t as u32;
        put_three(out, at + 3 * t, a, a + 1, c);
    }
    let a = lower.first + w as u32;
    let c = number(upper, w);
    put_three(out, at + 3 * w, a, lower.last, c);
}

// Those under the upper segments.
fn put_under_plain(side: usize, lower: NumberedRow, upper: NumberedRow, out: &mut [u32], at: usize)
    requires { Strip side lower upper × PlainStrip lower upper × (at + 3 * upper.parts ≤ length out.old) }
    ensures { Fills (λ x. strip_number (side_at side) lower upper (3 * lower.parts + x)) at (3 * upper.parts) out.old out.new }
{
    if upper.parts == 0 {
        return;
    }
    let w = upper.parts - 1;
    for i in 0..w {
        let b = upper.first + i as u32;
        let c = lower.base + i as u32;
        put_three(out, at + 3 * i, b + 1, b, c);
    }
    let b = upper.first + w as u32;
    let c = lower.base + w as u32;
    put_three(out, at + 3 * w, upper.last, b, c);
}

// The triangles of a strip.
pub fn put_strip(side: usize, lower: NumberedRow, upper: NumberedRow, out: &mut [u32], at: usize)
    requires { Strip side lower upper × (at + 3 * (lower.parts + upper.parts) ≤ length out.old) }
    ensures { Fills (strip_number (side_at side) lower upper) at (3 * (lower.parts + upper.parts)) out.old out.new }
{
    let p = lower.parts;
    if is_plain(lower, upper) {
        put_over_plain(side, lower, upper, out, at);
        put_under_plain(side, lower, upper, out, at + 3 * p);
        return;
    }
    put_over(side, lower, upper, out, at);
    put_under(side, lower, upper, out, at + 3 * p);
}

// A side's row of w segments on a ring whose points start at `start`.
pub fn ring_row(start: u32, side: usize, w: usize) -> NumberedRow
    requires { (start < 16777216) × (side ≤ 3) × (w ≤ 15) }
    ensures { RowFits result × (result.parts ≡ w) × ((j : ℕ) → j ≤ w → row_number result j ≡ start + ring_place side w j) }
{
    let at = start + (side * w) as u32;
    let mut last = start;
    if side < 3 {
        last = at + w as u32;
    }
    NumberedRow {
        first: at,
        last,
        base: at + 1,
        parts: w,
        up: true,
    }
}

// The points of the rings before ring k + 1 of a net with level n.
pub fn rings_before(n: usize, k: usize) -> usize
    requires { (k < n) × (n ≤ 16) }
    ensures { (result ≡ 2 * (k * (2 * n - k - 1))) × (result ≤ 8192) }
{
    2 * (k * (2 * n - k - 1))
}
