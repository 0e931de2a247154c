// The planes of a coordinate list's differences (L11): the first vertex, then four numbers at a time, then the rest.
ghost use Rattle.std.specs.Prelude.{◌≡◌, ◌+◌, ◌-◌, ◌*◌, ◌%◌, ◌<◌, ◌≤◌, length};
ghost use Rattle.paper.specs.Archive.{archived};
ghost use Rattle.planes.specs.Planes.{Planed, spread};

use planes::differences::delta_at;
use planes::{put, put_four};

// Puts the bytes of every difference into the four planes, each as long as the number list. For one vertex the compiler knows all places.
pub(crate) fn fill_planes(numbers: &[i32], bytes: &mut [u8])
    requires { (length numbers.now % 3 ≡ 0) × (length bytes.old ≡ 4 * length numbers.now) }
    ensures { bytes.new ≡ archived numbers.now }
{
    let n = numbers.len();
    if n == 0 {
        return;
    }
    if n == 3 {
        put_first(numbers, bytes, 3);
        return;
    }
    put_first(numbers, bytes, n);
    fill_fours(numbers, bytes);
    fill_rest(numbers, bytes);
}

// The first vertex, whose numbers are kept.
fn put_first(numbers: &[i32], bytes: &mut [u8], n: usize)
    requires { (3 ≤ n) × (n ≡ length numbers.now) × (length bytes.old ≡ 4 * length numbers.now) }
    ensures { Planed numbers.now 3 bytes.new }
{
    put_number(bytes, n, 0, numbers[0].cast_unsigned());
    put_number(bytes, n, 1, numbers[1].cast_unsigned());
    put_number(bytes, n, 2, numbers[2].cast_unsigned());
}

// Then four numbers at a time, as far as there are four.
fn fill_fours(numbers: &[i32], bytes: &mut [u8])
    requires { (3 ≤ length numbers.now) × Planed numbers.now 3 bytes.old }
    ensures { Planed numbers.now (length numbers.now - (length numbers.now - 3) % 4) bytes.new }
{
    let n = numbers.len();
    for k in 0..(n - 3) / 4 {
        put_four(numbers, bytes, 3 + 4 * k);
    }
}

// And the rest, counted as a remainder by four, so that the compiler sees how few turns there are.
fn fill_rest(numbers: &[i32], bytes: &mut [u8])
    requires { (3 ≤ length numbers.now) × Planed numbers.now (length numbers.now - (length numbers.now - 3) % 4) bytes.old }
    ensures { bytes.new ≡ archived numbers.now }
{
    let n = numbers.len();
    let rest = (n - 3) % 4;
    for i in n - rest..n {
        put_next(numbers, bytes, i);
    }
}

// The number at a position after the first vertex.
fn put_next(numbers: &[i32], bytes: &mut [u8], i: usize)
    requires { (3 ≤ i) × (i < length numbers.now) × Planed numbers.now i bytes.old }
    ensures { Planed numbers.now (i + 1) bytes.new }
{
    let n = numbers.len();
    put_number(bytes, n, i, delta_at(numbers, i));
}

// The four bytes of a difference, at its position of each plane.
fn put_number(bytes: &mut [u8], n: usize, i: usize, d: u32)
    requires { 3 * n + i < length bytes.old }
    ensures { bytes.new ≡ spread bytes.old n i d }
{
    put(bytes, n, i, d, d / 256, d / 65536, d / 16777216);
}
