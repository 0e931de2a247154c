// The derivatives of a polynomial in two variables, which are polynomials again.
ghost use Rattle.std.specs.Prelude.{◌≡◌, ◌^◌, ◌≤◌, nat_abs};
ghost use Rattle.bernstein.specs.Sums.{Sized, AllSized};
ghost use Rattle.bernstein.specs.Tangents.{times_of, along_of, slope_of, inward_of};

use crate::{Matrix5, Vector5};

// The derivative by the second weight: the coefficients of j^(p + 1) times p + 1.
pub fn along(c: Matrix5) -> Matrix5
    requires { AllSized (2 ^ 54) c }
    ensures { result ≡ along_of c }
{
    Matrix5 {
        r0: c.r1,
        r1: times(c.r2, 2),
        r2: times(c.r3, 3),
        r3: times(c.r4, 4),
        r4: Vector5::ZERO,
    }
}

// The derivative by the third weight: that of each row.
pub fn inward(c: Matrix5) -> Matrix5
    requires { AllSized (2 ^ 54) c }
    ensures { result ≡ inward_of c }
{
    c.map(slope)
}

// Each number times m.
fn times(v: Vector5, m: i64) -> Vector5
    requires { Sized (2 ^ 54) v × (nat_abs m ≤ 4) }
    ensures { result ≡ times_of m v }
{
    Vector5 {
        a: m * v.a,
        b: m * v.b,
        c: m * v.c,
        d: m * v.d,
        e: m * v.e,
    }
}

// The derivative of a polynomial in one variable.
fn slope(f: Vector5) -> Vector5
    requires { Sized (2 ^ 54) f }
    ensures { result ≡ slope_of f }
{
    Vector5 {
        a: f.b,
        b: 2 * f.c,
        c: 3 * f.d,
        d: 4 * f.e,
        ..Vector5::ZERO
    }
}
