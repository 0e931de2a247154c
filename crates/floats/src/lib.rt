#![tactic(auto)]
// L1: one control point of a quad-net as its difference from b00, in floats, and all points of a list of quad-nets. The checks, then the three
// differences of each point, then their floats. Every cast is one that loses nothing, and no other operation on floats is used.
ghost use Rattle.std.specs.Prelude.{◌≡◌, true, not, ◌||◌, ◌+◌, ◌*◌, ◌%◌, ◌≤◌, ◌<◌, ◌^◌, ltb, eqb, length, nat_abs};
ghost use Rattle.paper.specs.Faults.{sound, stated, single, lowest_of};
ghost use Rattle.paper.specs.Mesh.{most_corners};
ghost use Rattle.paper.specs.Calls.{per_corner};
ghost use Rattle.paper.specs.File.{begins};
ghost use Rattle.paper.specs.Floats.{within, fault19, net_verdict, point_verdict, difference, is_near, far_first, far_second, InFloats, all_floats, all_verdict, AllInFloats};
ghost use Rattle.floats.specs.Exact.{FloatOf, first_part, second_part, SplitTo, SixPut, NetPut, six_set};

use paper::{FloatPoint, Floats, MOST_CORNERS, NO_ROOM, NUMBERS_PER_CORNER, Refusal};

// The largest number of a list, and the largest difference of a near point; the smallest are their negatives.
const MOST_NUMBER: u32 = 134217728;

const MOST_NEAR: u32 = 16777216;

// The first float of a far pair is a multiple of 2^12 = 4,096.
const UNIT_BITS: u32 = 12;

const FAR_UNIT: i32 = 4096;

// The points of a quad-net.
const POINTS: usize = 41;

// The most numbers of a list of quad-nets.
const MOST_NET_NUMBERS: usize = NUMBERS_PER_CORNER * MOST_CORNERS;

// The point's difference from b00: near, far or refused.
pub fn point(numbers: &[i32], point: usize) -> Result<FloatPoint, Refusal>
    ensures { InFloats numbers.now point result }
{
    check(numbers, point)?;
    let x = difference(numbers, point, 0);
    let y = difference(numbers, point, 1);
    let z = difference(numbers, point, 2);
    Ok(split(x, y, z))
}

// All points of a list of quad-nets, 123 numbers for each, in order: six floats for each point, into the beginning of a lent list. A near point has its
// three floats and three zeros, a far one the three first floats and the three second ones. Each number is checked once, before anything is written.
pub fn all_points(numbers: &[i32], floats: &mut [f32]) -> Result<(), Refusal>
    ensures { AllInFloats numbers.now floats.old result floats.new }
{
    check_all(numbers, floats.len())?;
    put_nets(numbers, floats);
    Ok(())
}

// Checks 18 and 19 of the whole list, then the room for its floats.
fn check_all(numbers: &[i32], room: usize) -> Result<(), Refusal>
    ensures { stated result ≡ all_verdict numbers.now room }
{
    let n = numbers.len();
    refused_if(!is_nets(n), 18, n)?;
    check_numbers(numbers)?;
    refused_if(room < 2 * n, NO_ROOM, 2 * n)
}

// Whether n is 123 for each of some quad-nets, and these are no more than a mesh may have.
fn is_nets(n: usize) -> bool
    ensures { not result ≡ (not (eqb (n % per_corner) 0) || ltb (per_corner * most_corners) n) }
{
    n % NUMBERS_PER_CORNER == 0 && n <= MOST_NET_NUMBERS
}

// The floats of all quad-nets, one after the other.
fn put_nets(numbers: &[i32], floats: &mut [f32])
    requires { all_verdict numbers.now (length floats.old) ≡ sound }
    ensures { floats.new ≡ begins (all_floats numbers.now) floats.old }
{
    for t in 0..numbers.len() / NUMBERS_PER_CORNER {
        let at = NUMBERS_PER_CORNER * t;
        put_net(&numbers[at..at + NUMBERS_PER_CORNER], floats, 2 * at);
    }
}

// The floats of one quad-net, from `at` on.
fn put_net(net: &[i32], floats: &mut [f32], at: usize)
    requires { (net_verdict net.now ≡ sound) × (at + 246 ≤ length floats.old) }
    ensures { NetPut net.now at floats.old floats.new }
{
    for point in 0..POINTS {
        let x = difference(net, point, 0);
        let y = difference(net, point, 1);
        let z = difference(net, point, 2);
        put_six(floats, at + 6 * point, x, y, z);
    }
}

// The six floats of three differences.
fn put_six(floats: &mut [f32], at: usize, x: i32, y: i32, z: i32)
    requires { (nat_abs x ≤ 2 ^ 28) × (nat_abs y ≤ 2 ^ 28) × (nat_abs z ≤ 2 ^ 28) × (at + 6 ≤ length floats.old) }
    ensures { SixPut x y z at floats.old floats.new }
{
    let near = is_near(x, y, z);
    let a = first(near, x);
    let b = first(near, y);
    let c = first(near, z);
    let d = rest(near, x);
    let e = rest(near, y);
    let f = rest(near, z);
    store(floats, at, a, b, c, d, e, f);
}

// Six floats, one after the other.
fn store(floats: &mut [f32], at: usize, a: f32, b: f32, c: f32, d: f32, e: f32, f: f32)
    requires { at + 6 ≤ length floats.old }
    ensures { floats.new ≡ six_set floats.old at a b c d e f }
{
    floats[at] = a;
    floats[at + 1] = b;
    floats[at + 2] = c;
    floats[at + 3] = d;
    floats[at + 4] = e;
    floats[at + 5] = f;
}

// The second of a difference's six floats: none is needed where the point is near.
fn rest(near: bool, d: i32) -> f32
    requires { nat_abs d ≤ 2 ^ 28 }
    ensures { FloatOf (second_part near d) result }
{
    if near { 0.0 } else { second(d) }
}

// Checks 18, 19 and 20.
pub fn check(numbers: &[i32], point: usize) -> Result<(), Refusal>
    ensures { stated result ≡ point_verdict numbers.now point }
{
    refused_if(numbers.len() != NUMBERS_PER_CORNER, 18, numbers.len())?;
    check_numbers(numbers)?;
    refused_if(POINTS <= point, 20, point)
}

// A check of one test.
fn refused_if(fault: bool, number: u8, place: usize) -> Result<(), Refusal>
    ensures { stated result ≡ single number fault place }
{
    if fault {
        return Err(Refusal { number, place });
    }
    Ok(())
}

// Check 19, of all the numbers.
fn check_numbers(numbers: &[i32]) -> Result<(), Refusal>
    ensures { stated result ≡ lowest_of 19 (length numbers.now) (fault19 numbers.now) }
{
    for (i, z) in numbers.iter().enumerate() {
        if !is_within(*z, MOST_NUMBER) {
            return Err(Refusal {
                number: 19,
                place: i,
            });
        }
    }
    Ok(())
}

// Whether z lies within ±most.
fn is_within(z: i32, most: u32) -> bool
    ensures { result ≡ within most z }
{
    let m = most as i64;
    (-m..=m).contains(&(z as i64))
}

// The point's difference from b00 on an axis. Two numbers within ±2^27 differ by at most 2^28.
fn difference(numbers: &[i32], point: usize, axis: usize) -> i32
    requires { (point_verdict numbers.now point ≡ sound) × (axis < 3) }
    ensures { (result ≡ difference numbers.now point axis) × (nat_abs result ≤ 2 ^ 28) }
{
    numbers[3 * point + axis] - numbers[axis]
}

// The floats of three differences. The first record is built once: it is the near point, or the first floats of the far one.
fn split(x: i32, y: i32, z: i32) -> FloatPoint
    requires { (nat_abs x ≤ 2 ^ 28) × (nat_abs y ≤ 2 ^ 28) × (nat_abs z ≤ 2 ^ 28) }
    ensures { SplitTo x y z result }
{
    let near = is_near(x, y, z);
    let p = Floats {
        x: first(near, x),
        y: first(near, y),
        z: first(near, z),
    };
    if near {
        return FloatPoint::Near(p);
    }
    let q = Floats {
        x: second(x),
        y: second(y),
        z: second(z),
    };
    FloatPoint::Far(p, q)
}

// Whether all three lie within ±2^24.
fn is_near(x: i32, y: i32, z: i32) -> bool
    ensures { result ≡ is_near x y z }
{
    is_within(x, MOST_NEAR) && is_within(y, MOST_NEAR) && is_within(z, MOST_NEAR)
}

// The first float of a difference: of a near point the difference itself, up to 2^24, else its multiple of 4,096, which an f32 holds up
// to 2^36. `as` between integers and floats, and from f64 to f32, is there only for what the type holds: nothing is rounded.
fn first(near: bool, d: i32) -> f32
    requires { (nat_abs d ≤ 2 ^ 28) × (near ≡ true → nat_abs d ≤ 2 ^ 24) }
    ensures { FloatOf (first_part near d) result }
{
    if near {
        d as f32
    } else {
        multiple(d) as f64 as f32
    }
}

// The second float of a far difference: what is left, 0 to 4,095.
fn second(d: i32) -> f32
    requires { nat_abs d ≤ 2 ^ 28 }
    ensures { FloatOf (far_second d) result }
{
    (d - multiple(d)) as f32
}

// The largest multiple of 4,096 that is not above d. A shift of a signed number rounds down.
fn multiple(d: i32) -> i32
    requires { nat_abs d ≤ 2 ^ 28 }
    ensures { result ≡ far_first d }
{
    (d >> UNIT_BITS) * FAR_UNIT
}
