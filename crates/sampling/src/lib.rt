#![tactic(auto)]
// L12: the point of one of a quad-net's four triangles at weights i/n, j/n, k/n. Checks 18, 19, 32 and 33, then one sample, or all samples of the
// triangle into a lent list. Nothing is written before the last check has passed.
ghost use Rattle.std.specs.Prelude.{◌≡◌, ◌+◌, ◌*◌, ◌≤◌, ◌<◌, length, not};
ghost use Rattle.paper.specs.Faults.{sound, stated};
ghost use Rattle.paper.specs.File.{begins};
ghost use Rattle.paper.specs.Floats.{net_verdict};
ghost use Rattle.paper.specs.Sampling.{weights, sample_at, fault33, sample_verdict, side_at, Sampled, sample_count, triangle_samples};
ghost use Rattle.paper.specs.Sampling.{TriangleSampled};
ghost use Rattle.paper.specs.Tangents.{TangentsSampled};
ghost use Rattle.bernstein.specs.Sums.{AllTapered, row_of, polynomial_at};
ghost use Rattle.sampling.specs.Grid.{samples_before, Sampleable, RowSampleable, RowPut, RowsPut, TangentOn};

use bernstein::{Matrix5, Vector5};
use control_points::control_points;
use paper::{MOST_PARTS, NO_ROOM, Refusal};

// The two tangents at a sample, on one axis.
#[derive(Drop)]
struct Tangent {
    along: i64,
    inward: i64,
}

// A place in a side's triangle that has passed the checks, by the weights of head, tail and centre, which make n.
#[derive(Clone, Copy)]
struct Place<'a> {
    numbers: &'a [i32],
    side: usize,
    i: usize,
    j: usize,
    k: usize,
    n: usize,
    ghost net: { (net_verdict numbers.now ≡ sound) × (side ≤ 3) },
    ghost parts: { (1 ≤ n) × (n ≤ 16) × (i + j + k ≡ n) },
}

impl<'a> Place<'a> {
    // The sample on one axis.
    fn sample_on(&self, axis: usize) -> i32
        requires { axis < 3 }
        ensures { result ≡ sample_at self.now.numbers.now (side_at self.now.side) (weights self.now.i self.now.j self.now.k self.now.n) axis }
    {
        let p = control_points(self.numbers, self.side, axis);
        let e = bernstein::row_at(p, self.k, self.n);
        let v = bernstein::value_at(e, self.j);
        bernstein::rounded(v, self.n)
    }

    // Both tangents on one axis.
    fn tangents_on(&self, axis: usize) -> Tangent
        requires { axis < 3 }
        ensures { TangentOn self.now.numbers.now self.now.side axis self.now.j self.now.k self.now.n result }
    {
        let points = control_points(self.numbers, self.side, axis);
        let c = bernstein::polynomial(points, self.n);
        Tangent {
            along: value_in(bernstein::derivatives::along(c), self.j, self.k),
            inward: value_in(bernstein::derivatives::inward(c), self.j, self.k),
        }
    }
}

// One sample.
pub fn sample(
    numbers: &[i32],
    side: usize,
    i: usize,
    j: usize,
    k: usize,
    n: usize,
    point: &mut [i32; 3],
) -> Result<(), Refusal>
    ensures { Sampled numbers.now side (weights i j k n) point.old result point.new }
{
    check(numbers, side, i, j, k, n)?;
    let place = Place {
        numbers,
        side,
        i,
        j,
        k,
        n,
    };
    *point = [place.sample_on(0), place.sample_on(1), place.sample_on(2)];
    Ok(())
}

// All samples of a triangle, in rows from the side inwards and each row from the head, into the beginning of a lent list.
pub fn sample_triangle(
    numbers: &[i32],
    side: usize,
    n: usize,
    points: &mut [i32],
) -> Result<(), Refusal>
    ensures { TriangleSampled numbers.now side n points.old result points.new }
{
    check(numbers, side, n, 0, 0, n)?;
    let needed = 3 * ((n + 1) * (n + 2) / 2);
    if points.len() < needed {
        return Err(Refusal {
            number: NO_ROOM,
            place: needed,
        });
    }
    put_triangle(numbers, side, n, points);
    Ok(())
}

// All its samples, axis by axis.
fn put_triangle(numbers: &[i32], side: usize, n: usize, points: &mut [i32])
    requires net { (net_verdict numbers.now ≡ sound) × (side ≤ 3) }
    requires parts { (1 ≤ n) × (n ≤ 16) × (3 * sample_count n ≤ length points.old) }
    ensures { points.new ≡ begins (triangle_samples numbers.now (side_at side) n) points.old }
{
    put_axis(control_points(numbers, side, 0), n, points, 0);
    put_axis(control_points(numbers, side, 1), n, points, 1);
    put_axis(control_points(numbers, side, 2), n, points, 2);
}

// Checks 18, 19, 32 and 33. The first two are those of a control point in floats, of which point 0 always passes the third.
fn check(
    numbers: &[i32],
    side: usize,
    i: usize,
    j: usize,
    k: usize,
    n: usize,
) -> Result<(), Refusal>
    ensures { stated result ≡ sample_verdict numbers.now side (weights i j k n) }
{
    floats::check(numbers, 0)?;
    if 3 < side {
        return Err(Refusal {
            number: 32,
            place: side,
        });
    }
    if !is_whole(i, j, k, n) {
        return Err(Refusal {
            number: 33,
            place: n,
        });
    }
    Ok(())
}

// Whether n is from 1 to 16 and the three weights make it. No sum is formed that could wrap.
fn is_whole(i: usize, j: usize, k: usize, n: usize) -> bool
    ensures { not result ≡ fault33 (weights i j k n) }
{
    if n < 1 || MOST_PARTS < n {
        return false;
    }
    if n < i {
        return false;
    }
    if n - i < j {
        return false;
    }
    n - i - j == k
}

// The tangents at one sample: x, y, z towards the tail, then x, y, z towards the centre.
pub fn tangents(
    numbers: &[i32],
    side: usize,
    i: usize,
    j: usize,
    k: usize,
    n: usize,
    pair: &mut [i64; 6],
) -> Result<(), Refusal>
    ensures { TangentsSampled numbers.now side (weights i j k n) pair.old result pair.new }
{
    check(numbers, side, i, j, k, n)?;
    let here = Place {
        numbers,
        side,
        i,
        j,
        k,
        n,
    };
    let x = here.tangents_on(0);
    let y = here.tangents_on(1);
    let z = here.tangents_on(2);
    *pair = [x.along, y.along, z.along, x.inward, y.inward, z.inward];
    Ok(())
}

// The value of a polynomial at j and k.
fn value_in(c: Matrix5, j: usize, k: usize) -> i64
    requires { AllTapered c × (j ≤ 16) × (k ≤ 16) }
    ensures { result ≡ polynomial_at (row_of c k) j }
{
    let e = bernstein::row_in(c, k);
    bernstein::value_at(e, j)
}

// The samples of all rows on one axis, every third number of the list.
fn put_axis(p: Matrix5, n: usize, points: &mut [i32], axis: usize)
    requires { Sampleable p n × (axis < 3) × (3 * samples_before n (n + 1) ≤ length points.old) }
    ensures { RowsPut p n axis (n + 1) points.old points.new }
{
    let mut s = bernstein::start(p, n);
    let mut at = axis;
    // A `for` over the rows was tried: it proved, and a sample took 1.07 to 1.16 times as long.
    let mut k = 0;
    while k <= n {
        let count = n - k + 1;
        let e = bernstein::row(s);
        put_row(e, n, 0, count, points, at);
        at += 3 * count;
        s = bernstein::next(s);
        k += 1;
    }
}

// `count` samples of one row from `first` on, from value to value by differences.
pub fn put_row(e: Vector5, n: usize, first: usize, count: usize, points: &mut [i32], from: usize)
    requires { RowSampleable e n first count × (from + 3 * count ≤ length points.old + 2) }
    ensures { RowPut e n first count from points.old points.new }
{
    let mut g = bernstein::state_at(e, first);
    for j in 0..count {
        points[from + 3 * j] = bernstein::rounded(g.a, n);
        g = bernstein::step(g);
    }
}
