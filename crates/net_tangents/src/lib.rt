#![tactic(auto)]
// The tangents of a corner's own points, out of the net's 123 numbers: six numbers for each point, in the order of the points. They go by forward
// differences, along a row and from row to row, in lanes: each of the six numbers of each of the four sides has a lane, and all lanes are stepped alike.
ghost use Rattle.std.specs.Prelude.{◌≡◌, List, ℕ, ◌+◌, ◌-◌, ◌*◌, ◌^◌, ◌≤◌, ◌<◌, length, get_or, ℤ, pos, nat_abs};
ghost use Rattle.paper.specs.Faults.{sound};
ghost use Rattle.paper.specs.Floats.{net_verdict};
ghost use Rattle.strips.specs.PointRows.{Fills};
ghost use Rattle.bernstein.specs.declared.Matrix5.{Matrix5};
ghost use Rattle.bernstein.specs.declared.Vector5.{Vector5};
ghost use Rattle.bernstein.specs.Sums.{Sized, AllSized, AllTapered, states_of};
ghost use Rattle.net_points.specs.writing.Shapes.{Shapely, shape_size};
ghost use Rattle.net_tangents.specs.Lanes.{less_of, minus_of, tailward_of, centreward_of, lane_of, forward_of, LanePut, Lanes, Laned, LanesFilled};
ghost use Rattle.net_tangents.specs.Lanes.{AxisFilled, Small, Added, SixStates, CubicRows, Stepping, rows_at, value_number};
ghost use Rattle.net_tangents.specs.Paired.{part_number, RingPaired, RingsPaired, NetPaired};

use bernstein::{Matrix5, Vector5};
use net_points::writing::{Shape, turn_points};

// The table has 24 lanes, six for each side: on x, y and z towards the tail, then on x, y and z towards the centre. A lane has ten numbers, at the first
// place of a row: the value and its first to third difference along the row; the first difference from row to row of the first three of these; the
// second difference of the first two; and the third of the value. Number s of lane y stands at place 24 s + y.
const TABLE: usize = 240;

// The states of a side's six lanes at a place of a row: six values, then six of each of their three differences.
const STATES: usize = 24;

// The tangents of a corner's own points, from `at` on; the border of side 2 has `third` parts.
pub fn put_pairs(numbers: &[i32], shape: Shape, third: usize, out: &mut [i64], at: usize)
    requires net { (net_verdict numbers.now ≡ sound) × Shapely shape × (1 ≤ third) × (third ≤ 16) }
    requires room { at + 6 * shape_size shape ≤ length out.old }
    ensures { NetPaired numbers.now shape third at out.old out.new }
{
    let to_edge = at + 6 * shape.vertex;
    let to_face = to_edge + 6 * shape.edge;
    let to_first = to_face + 6 * shape.face;
    let to_second = to_first + 6 * (shape.first - 1);
    let to_rings = to_second + 6 * (shape.second - 1);
    let n = shape.level;
    let mut table = [0i64; TABLE];
    fill_lanes(numbers, n, 0, 12, &mut table);
    put_part(numbers, &table, n, 0, shape.first, 0, shape.vertex, out, at);
    put_part(
        numbers,
        &table,
        n,
        1,
        shape.second,
        0,
        shape.edge,
        out,
        to_edge,
    );
    put_part(numbers, &table, n, 2, third, 0, shape.face, out, to_face);
    put_part(
        numbers,
        &table,
        n,
        0,
        shape.first,
        1,
        shape.first - 1,
        out,
        to_first,
    );
    put_part(
        numbers,
        &table,
        n,
        1,
        shape.second,
        1,
        shape.second - 1,
        out,
        to_second,
    );
    put_rings(&mut table, n, out, to_rings);
}

// Those at `count` places of a side's border in n parts, from place `first` on; the table is the one in `level` parts.
fn put_part(
    numbers: &[i32],
    table: &[i64],
    level: usize,
    side: usize,
    n: usize,
    first: usize,
    count: usize,
    out: &mut [i64],
    at: usize,
)
    requires net { (net_verdict numbers.now ≡ sound) × (side ≤ 3) × (level ≤ 16) × LanesFilled (lane_of numbers.now level) 0 12 table.now × (length table.now ≡ 240) }
    requires parts { (1 ≤ n) × (n ≤ 16) × (first ≤ 1) × (first + count ≤ n) × (at + 6 * count ≤ length out.old) }
    ensures { Fills (part_number numbers.now side n 0 first) at (6 * count) out.old out.new }
{
    if 0 < count {
        if n == level {
            put_places(table, 6 * side, first, count, out, at);
            return;
        }
        let mut own = [0i64; TABLE];
        fill_lanes(numbers, n, 3 * side, 3, &mut own);
        put_places(&own, 6 * side, first, count, out, at);
    }
}

// Those of the rings of a net with level n, and of its centre; the table is that of row 0.
fn put_rings(table: &mut [i64], n: usize, out: &mut [i64], at: usize)
    requires { Laned 0 24 0 table.old × (1 ≤ n) × (n ≤ 16) × (at + 6 * (2 * (n * (n - 1)) + 1) ≤ length out.old) }
    ensures { (numbers : List ℤ) → Lanes (lane_of numbers n) 0 24 0 table.old → RingsPaired numbers n at out.old out.new }
{
    let mut to = at;
    for k in 0..n - 1 {
        let w = n - k - 1;
        next_row(table);
        put_ring(table, w, out, to);
        to += 24 * w;
    }
    next_row(table);
    put_places(table, 0, 0, 1, out, to);
}

// Those of a ring: w places of each side's row.
fn put_ring(table: &[i64], w: usize, out: &mut [i64], at: usize)
    requires { ((k : ℕ) × Laned 0 24 k table.now) × (w ≤ 16) × (at + 24 * w ≤ length out.old) }
    ensures { (numbers : List ℤ) (n k : ℕ) → Lanes (lane_of numbers n) 0 24 k table.now → k + w ≤ n → RingPaired numbers n k w at out.old out.new }
{
    let mut to = at;
    for side in 0..4 {
        put_places(table, 6 * side, 0, w, out, to);
        to += 6 * w;
    }
}

// The lanes of `count` axes, from axis `from` on. A net has twelve axes, three for each side; an axis has two lanes.
fn fill_lanes(numbers: &[i32], n: usize, from: usize, count: usize, table: &mut [i64])
    requires { (net_verdict numbers.now ≡ sound) × (n ≤ 16) × (from + count ≤ 12) × (length table.old ≡ 240) }
    ensures { LanesFilled (lane_of numbers.now n) from (from + count) table.new }
{
    for axis in from..from + count {
        fill_axis(numbers, n, axis, table);
    }
}

// The two lanes of one axis, at row 0: the derivatives of its polynomial, by their differences.
fn fill_axis(numbers: &[i32], n: usize, axis: usize, table: &mut [i64])
    requires { (net_verdict numbers.now ≡ sound) × (n ≤ 16) × (axis < 12) × (length table.old ≡ 240) }
    ensures { AxisFilled (lane_of numbers.now n) axis table.old table.new }
{
    let side = axis / 3;
    let own = axis % 3;
    let lane = 6 * side + own;
    let c = bernstein::polynomial(turn_points(numbers, side, own), n);
    let a = lane_numbers(tailward(c, side));
    put_lane(table, lane, a);
    let b = lane_numbers(centreward(c, side));
    put_lane(table, lane + 3, b);
}

// The derivative towards the tail. On sides 1 and 3 the places of a row run from the tail: there j is the head's weight, and the tail's falls as j rises.
fn tailward(c: Matrix5, side: usize) -> Matrix5
    requires { AllTapered c }
    ensures { result ≡ tailward_of side c }
{
    let a = bernstein::derivatives::along(c);
    if side % 2 == 1 {
        let z = Vector5 {
            a: 0,
            b: 0,
            c: 0,
            d: 0,
            e: 0,
        };
        return minus(
            Matrix5 {
                r0: z,
                r1: z,
                r2: z,
                r3: z,
                r4: z,
            },
            a,
        );
    }
    a
}

// The derivative towards the centre, likewise.
fn centreward(c: Matrix5, side: usize) -> Matrix5
    requires { AllTapered c }
    ensures { result ≡ centreward_of side c }
{
    let b = bernstein::derivatives::inward(c);
    if side % 2 == 1 {
        return minus(b, bernstein::derivatives::along(c));
    }
    b
}

// A matrix less another.
fn minus(p: Matrix5, q: Matrix5) -> Matrix5
    requires { AllSized (2 ^ 54) p × AllSized (2 ^ 54) q }
    ensures { result ≡ minus_of p q }
{
    let r0 = less(p.r0, q.r0);
    let r1 = less(p.r1, q.r1);
    let r2 = less(p.r2, q.r2);
    let r3 = less(p.r3, q.r3);
    let r4 = less(p.r4, q.r4);
    Matrix5 {
        r0: r0,
        r1: r1,
        r2: r2,
        r3: r3,
        r4: r4,
    }
}

// One row of it.
fn less(u: Vector5, v: Vector5) -> Vector5
    requires { Sized (2 ^ 54) u × Sized (2 ^ 54) v }
    ensures { result ≡ less_of u v }
{
    Vector5 {
        a: u.a - v.a,
        b: u.b - v.b,
        c: u.c - v.c,
        d: u.d - v.d,
        e: u.e - v.e,
    }
}

// For a polynomial of degree three the value and the differences along a row at its first place, as polynomials in k.
fn forward(c: Matrix5) -> Matrix5
    requires { AllTapered c }
    ensures { result ≡ forward_of c }
{
    let r0 = c.r0;
    let r1 = c.r1;
    let r2 = c.r2;
    let r3 = c.r3;
    let last = 6 * r3.a;
    Matrix5 {
        r0: Vector5 {
            a: r0.a,
            b: r0.b,
            c: r0.c,
            d: r0.d,
            e: 0,
        },
        r1: Vector5 {
            a: r1.a + r2.a + r3.a,
            b: r1.b + r2.b,
            c: r1.c,
            d: 0,
            e: 0,
        },
        r2: Vector5 {
            a: 2 * r2.a + last,
            b: 2 * r2.b,
            c: 0,
            d: 0,
            e: 0,
        },
        r3: Vector5 {
            a: last,
            b: 0,
            c: 0,
            d: 0,
            e: 0,
        },
        r4: Vector5 {
            a: 0,
            b: 0,
            c: 0,
            d: 0,
            e: 0,
        },
    }
}

// A lane's ten numbers at row 0.
fn lane_numbers(c: Matrix5) -> Matrix5
    requires { AllTapered c }
    ensures { (result ≡ states_of (forward_of c) 0) × AllSized (2 ^ 60) result }
{
    bernstein::states(forward(c))
}

// Those, to their places in the table.
fn put_lane(table: &mut [i64], lane: usize, m: Matrix5)
    requires { (length table.old ≡ 240) × (lane < 24) × AllSized (2 ^ 60) m }
    ensures { LanePut lane m table.old table.new }
{
    let r0 = m.r0;
    let r1 = m.r1;
    let r2 = m.r2;
    let r3 = m.r3;
    let ten = [r0.a, r1.a, r2.a, r3.a, r0.b, r1.b, r2.b, r0.c, r1.c, r0.d];
    for s in 0..10 {
        table[24 * s + lane] = ten[s];
    }
}

// The table at the next row: in each lane numbers 4 to 6 are added to 0 to 2, then 7 and 8 to 4 and 5, then 9 to 7.
fn next_row(table: &mut [i64])
    requires { Small table.old }
    ensures { (F : ℕ → Matrix5) (k : ℕ) → Lanes F 0 24 k table.old → k < 16 → Lanes F 0 24 (k + 1) table.new }
{
    add_ahead(table, 0, 72, 96);
    add_ahead(table, 96, 144, 72);
    add_ahead(table, 168, 192, 48);
}

// To each number from `at` up to `to` the one `gap` places on is added.
fn add_ahead(list: &mut [i64], at: usize, to: usize, gap: usize)
    requires at_le_to { (at ≤ to) × (0 < gap) × (to + gap ≤ length list.old) }
    requires sizes { (i : ℕ) → at ≤ i → i < to → (nat_abs (get_or list.old i (pos 0)) ≤ 2 ^ 60) × (nat_abs (get_or list.old (i + gap) (pos 0)) ≤ 2 ^ 60) }
    ensures { Added at to gap list.old list.new }
{
    for i in at..to {
        list[i] += list[i + gap];
    }
}

// The tangents at `count` places of a row, from place `first` on, by the six lanes from `lane` on.
fn put_places(table: &[i64], lane: usize, first: usize, count: usize, out: &mut [i64], at: usize)
    requires row { ((k : ℕ) × Laned lane (lane + 6) k table.now) × (lane ≤ 18) }
    requires places { (first ≤ 1) × (first + count ≤ 17) × (at + 6 * count ≤ length out.old) }
    ensures { (F : ℕ → Matrix5) (k : ℕ) → Lanes F lane (lane + 6) k table.now → Fills (value_number (rows_at F lane k) first) at (6 * count) out.old out.new }
{
    let mut states = [0i64; STATES];
    first_states(table, lane, first, &mut states);
    for j in 0..count {
        copy_six(&states, 0, out, at + 6 * j);
        next_states(&mut states);
    }
}

// The states at place `first`.
fn first_states(table: &[i64], lane: usize, first: usize, states: &mut [i64])
    requires { ((k : ℕ) × Laned lane (lane + 6) k table.now) × (lane ≤ 18) × (first ≤ 1) × (length states.old ≡ 24) }
    ensures { (F : ℕ → Matrix5) (k : ℕ) → Lanes F lane (lane + 6) k table.now → SixStates (rows_at F lane k) first states.new }
{
    copy_six(table, lane, states, 0);
    copy_six(table, lane + 24, states, 6);
    copy_six(table, lane + 48, states, 12);
    copy_six(table, lane + 72, states, 18);
    if first == 1 {
        next_states(states);
    }
}

// The states at the next place.
fn next_states(states: &mut [i64])
    requires { Stepping states.old }
    ensures { (g : ℕ → Vector5) (j : ℕ) → CubicRows g → SixStates g j states.old → SixStates g (j + 1) states.new }
{
    add_ahead(states, 0, 18, 6);
}

// Six numbers of a list, one after the other. With `copy_from_slice`, which looks whether the two overlap, the tangents of level 16 took 1.3 to 1.5 times as long.
fn copy_six(list: &[i64], from: usize, out: &mut [i64], at: usize)
    requires { (from + 6 ≤ length list.now) × (at + 6 ≤ length out.old) }
    ensures { Fills (λ e. get_or list.now (from + e) (pos 0)) at 6 out.old out.new }
{
    for e in 0..6 {
        out[at + e] = list[from + e];
    }
}
