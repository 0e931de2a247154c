#![tactic(auto)]
// The quartic Bernstein sum on a grid of weights, exact: as a polynomial in the second and third weight, whose coefficients are differences of the
// control points; and from one weight to the next by four sums (forward differences). Then one rounding.
pub mod derivatives;

ghost use Rattle.std.specs.Prelude.{◌≡◌, ◌*◌, ◌^◌, ◌≤◌, pos, nat_abs};
ghost use Rattle.paper.specs.Numbers.{round};
ghost use Rattle.bernstein.specs.Sums.{Sized, AllSized, differences_of, slopes_of, columns_of, weighted_of, scaled_of, weights_of, polynomial_of};
ghost use Rattle.bernstein.specs.Sums.{Tapered, AllTapered, state_of, states_of, step_of, steps_of, firsts_of, row_of, polynomial_at};

use numbers::rounding;

// A vector of five whole numbers. It has a row of control points, with zeros after them; or the coefficients of a polynomial of degree four, by
// rising powers; or the value of such a polynomial at a place and its first to fourth difference there.
#[derive(Clone, Copy)]
pub struct Vector5 {
    pub a: i64,
    pub b: i64,
    pub c: i64,
    pub d: i64,
    pub e: i64,
}

impl Vector5 {
    // Five zeros, which also fill a row after its points.
    pub const ZERO: Vector5 = Vector5 {
        a: 0,
        b: 0,
        c: 0,
        d: 0,
        e: 0,
    };
}

// A matrix of five by five whole numbers, in rows. It has a triangle's control points; or the coefficients of a polynomial in two variables; or for each
// row of these its value and its differences.
// No one type for both, over the type of its five parts: r1.c says which of the two numbers is the row's, and b.c would not.
#[derive(Clone, Copy)]
pub struct Matrix5 {
    pub r0: Vector5,
    pub r1: Vector5,
    pub r2: Vector5,
    pub r3: Vector5,
    pub r4: Vector5,
}

impl Matrix5 {
    // What f makes of each row.
    fn map<F: Fn(Vector5) -> Vector5>(self, f: F) -> Matrix5
        requires { F.pre f self.r0 × F.pre f self.r1 × F.pre f self.r2 × F.pre f self.r3 × F.pre f self.r4 }
        ensures { F.post f self.r0 result.r0 × F.post f self.r1 result.r1 × F.post f self.r2 result.r2 × F.post f self.r3 result.r3 × F.post f self.r4 result.r4 }
    {
        Matrix5 {
            r0: f(self.r0),
            r1: f(self.r1),
            r2: f(self.r2),
            r3: f(self.r3),
            r4: f(self.r4),
        }
    }
}

// The first of five numbers, and its first to fourth difference.
fn differences(v: Vector5) -> Vector5
    requires { Sized (2 ^ 31) v }
    ensures { result ≡ differences_of v }
{
    let ab = v.b - v.a;
    let bc = v.c - v.b;
    let cd = v.d - v.c;
    let de = v.e - v.d;
    let ac = bc - ab;
    let bd = cd - bc;
    let ce = de - cd;
    let ad = bd - ac;
    let be = ce - bd;
    Vector5 {
        a: v.a,
        b: ab,
        c: ac,
        d: ad,
        e: be - ad,
    }
}

// The same of each row.
fn slopes(p: Matrix5) -> Matrix5
    requires { AllSized (2 ^ 31) p }
    ensures { result ≡ slopes_of p }
{
    p.map(differences)
}

// Five numbers, each times its weight.
fn weighted(v: Vector5, w: Vector5) -> Vector5
    requires { Sized (2 ^ 35) v × Sized (2 ^ 16) w }
    ensures { result ≡ weighted_of v w }
{
    Vector5 {
        a: v.a * w.a,
        b: v.b * w.b,
        c: v.c * w.c,
        d: v.d * w.d,
        e: v.e * w.e,
    }
}

// The columns of rows of differences: the numbers of one order of difference, row by row.
fn columns(d: Matrix5) -> Matrix5
    requires { AllSized (2 ^ 31) d }
    ensures { result ≡ columns_of d }
{
    Matrix5 {
        r0: row(d),
        r1: Vector5 {
            a: d.r0.b,
            b: d.r1.b,
            c: d.r2.b,
            d: d.r3.b,
            ..Vector5::ZERO
        },
        r2: Vector5 {
            a: d.r0.c,
            b: d.r1.c,
            c: d.r2.c,
            ..Vector5::ZERO
        },
        r3: Vector5 {
            a: d.r0.d,
            b: d.r1.d,
            ..Vector5::ZERO
        },
        r4: Vector5 {
            a: d.r0.e,
            ..Vector5::ZERO
        },
    }
}

// Of each row, each number times its weight.
fn scaled(g: Matrix5, w: Matrix5) -> Matrix5
    requires { AllSized (2 ^ 35) g × AllSized (2 ^ 16) w }
    ensures { result ≡ scaled_of g w }
{
    Matrix5 {
        r0: weighted(g.r0, w.r0),
        r1: weighted(g.r1, w.r1),
        r2: weighted(g.r2, w.r2),
        r3: weighted(g.r3, w.r3),
        r4: weighted(g.r4, w.r4),
    }
}

// The weight of the coefficient of j^p k^q: 4!/(l! p! q!) n^l, where the powers sum to 4.
fn weights(n: usize) -> Matrix5
    requires { n ≤ 16 }
    ensures { result ≡ weights_of (pos n) }
{
    let m = n as i64;
    let m2 = m * m;
    let m3 = m2 * m;
    let m4 = m3 * m;
    Matrix5 {
        r0: Vector5 {
            a: m4,
            b: 4 * m3,
            c: 6 * m2,
            d: 4 * m,
            e: 1,
        },
        r1: Vector5 {
            a: 4 * m3,
            b: 12 * m2,
            c: 12 * m,
            d: 4,
            ..Vector5::ZERO
        },
        r2: Vector5 {
            a: 6 * m2,
            b: 12 * m,
            c: 6,
            ..Vector5::ZERO
        },
        r3: Vector5 {
            a: 4 * m,
            b: 4,
            ..Vector5::ZERO
        },
        r4: Vector5 {
            a: 1,
            ..Vector5::ZERO
        },
    }
}

// The sum of control points p as a polynomial in the second and third weight: row p has the coefficients of j^p, by powers of k.
pub fn polynomial(p: Matrix5, n: usize) -> Matrix5
    requires { AllSized (2 ^ 27) p × (n ≤ 16) }
    ensures { result ≡ polynomial_of p (pos n) }
{
    let d = slopes(p);
    let c = columns(d);
    let g = slopes(c);
    let w = weights(n);
    scaled(g, w)
}

// What the value of a polynomial and its differences are at 0.
fn ahead(f: Vector5) -> Vector5
    requires { Sized (2 ^ 54) f }
    ensures { result ≡ state_of f 0 }
{
    Vector5 {
        a: f.a,
        b: f.b + f.c + f.d + f.e,
        c: 2 * f.c + 6 * f.d + 14 * f.e,
        d: 6 * f.d + 36 * f.e,
        e: 24 * f.e,
    }
}

// The same at the next place.
pub fn step(g: Vector5) -> Vector5
    requires { Sized (2 ^ 60) g }
    ensures { result ≡ step_of g }
{
    Vector5 {
        a: g.a + g.b,
        b: g.b + g.c,
        c: g.c + g.d,
        d: g.d + g.e,
        e: g.e,
    }
}

// The polynomial's coefficients of j, j^2 .. as polynomials in k, at k = 0.
pub fn start(p: Matrix5, n: usize) -> Matrix5
    requires { AllSized (2 ^ 27) p × (n ≤ 16) }
    ensures { result ≡ states_of (polynomial_of p (pos n)) 0 }
{
    states(polynomial(p, n))
}

// The same of any polynomial: of each row its value and its differences at 0.
pub fn states(c: Matrix5) -> Matrix5
    requires { AllSized (2 ^ 54) c }
    ensures { result ≡ states_of c 0 }
{
    c.map(ahead)
}

// The same at the next k.
pub fn next(s: Matrix5) -> Matrix5
    requires { AllSized (2 ^ 60) s }
    ensures { result ≡ steps_of s }
{
    s.map(step)
}

// The coefficients at this k: a polynomial in j.
pub fn row(s: Matrix5) -> Vector5
    requires { AllSized (2 ^ 60) s }
    ensures { result ≡ firsts_of s }
{
    Vector5 {
        a: s.r0.a,
        b: s.r1.a,
        c: s.r2.a,
        d: s.r3.a,
        e: s.r4.a,
    }
}

// r(s / n^4), with divisors that the compiler sees.
pub fn rounded(s: i64, n: usize) -> i32
    requires { (1 ≤ n) × (n ≤ 16) × (nat_abs s ≤ 2 ^ 27 * n ^ 4) }
    ensures { result ≡ round s (pos (n ^ 4)) }
{
    quotient(s, n) as i32
}

// Sixteen divisions, since each has its divisor as a number: the compiler makes a product of it (rounding.rt).
fn quotient(s: i64, n: usize) -> i64
    requires { (1 ≤ n) × (n ≤ 16) × (nat_abs s ≤ 2 ^ 43) }
    ensures { result ≡ round s (pos (n ^ 4)) }
{
    match n {
        1 => rounding::round_div(s, 1),
        2 => rounding::round_div(s, 16),
        3 => rounding::round_div(s, 81),
        4 => rounding::round_div(s, 256),
        5 => rounding::round_div(s, 625),
        6 => rounding::round_div(s, 1296),
        7 => rounding::round_div(s, 2401),
        8 => rounding::round_div(s, 4096),
        9 => rounding::round_div(s, 6561),
        10 => rounding::round_div(s, 10000),
        11 => rounding::round_div(s, 14641),
        12 => rounding::round_div(s, 20736),
        13 => rounding::round_div(s, 28561),
        14 => rounding::round_div(s, 38416),
        15 => rounding::round_div(s, 50625),
        _ => rounding::round_div(s, 65536),
    }
}

// The polynomial of row k.
pub fn row_at(p: Matrix5, k: usize, n: usize) -> Vector5
    requires { AllSized (2 ^ 27) p × (k ≤ 16) × (n ≤ 16) }
    ensures { result ≡ row_of (polynomial_of p (pos n)) k }
{
    row_in(polynomial(p, n), k)
}

// A polynomial in the second weight alone, for the third weight k.
pub fn row_in(c: Matrix5, k: usize) -> Vector5
    requires { AllTapered c × (k ≤ 16) }
    ensures { result ≡ row_of c k }
{
    Vector5 {
        a: value_at(c.r0, k),
        b: value_at(c.r1, k),
        c: value_at(c.r2, k),
        d: value_at(c.r3, k),
        e: value_at(c.r4, k),
    }
}

// Its value and its differences at j. The invariant speaks of x, the place of g.
pub fn state_at(e: Vector5, j: usize) -> Vector5
    requires { Tapered (5 * 2 ^ 34) e × (j ≤ 16) }
    ensures { result ≡ state_of e j }
{
    let mut g = ahead(e);
    for x in 0..j {
        g = step(g);
    }
    g
}

// Its value at j, from the highest power down.
pub fn value_at(e: Vector5, j: usize) -> i64
    requires { Tapered (5 * 2 ^ 34) e × (j ≤ 16) }
    ensures { result ≡ polynomial_at e j }
{
    let x = j as i64;
    let d = e.d + x * e.e;
    let c = e.c + x * d;
    let b = e.b + x * c;
    e.a + x * b
}
