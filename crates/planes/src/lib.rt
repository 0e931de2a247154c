#![tactic(auto)]
// The four planes of a coordinate list's differences (L11): bytes stored in them, and differences taken four at a time. Four differences are
// taken before their bytes are stored, plane by plane: the compiler then works on all four at once and has not to see that numbers and planes
// lie apart, which costs short lists more than the work.
pub mod differences;

ghost use Rattle.std.specs.Prelude.{◌≡◌, ◌+◌, ◌*◌, ◌%◌, ◌<◌, ◌≤◌, length};
ghost use Rattle.planes.specs.Planes.{Planed, four_set};

use crate::differences::delta_at;

// The four numbers from a position on.
pub fn put_four(numbers: &[i32], bytes: &mut [u8], i: usize)
    requires { (3 ≤ i) × (i + 4 ≤ length numbers.now) × Planed numbers.now i bytes.old }
    ensures { Planed numbers.now (i + 4) bytes.new }
{
    let n = numbers.len();
    let a = delta_at(numbers, i);
    let b = delta_at(numbers, i + 1);
    let c = delta_at(numbers, i + 2);
    let d = delta_at(numbers, i + 3);
    put(bytes, 1, i, a, b, c, d);
    put(bytes, 1, n + i, a / 256, b / 256, c / 256, d / 256);
    put(
        bytes,
        1,
        2 * n + i,
        a / 65536,
        b / 65536,
        c / 65536,
        d / 65536,
    );
    put(
        bytes,
        1,
        3 * n + i,
        a / 16777216,
        b / 16777216,
        c / 16777216,
        d / 16777216,
    );
}

// The lowest bytes of four numbers, the first at a place and each `step` places after the one before.
pub fn put(bytes: &mut [u8], step: usize, at: usize, a: u32, b: u32, c: u32, d: u32)
    requires { 3 * step + at < length bytes.old }
    ensures { bytes.new ≡ four_set bytes.old step at (a % 256) (b % 256) (c % 256) (d % 256) }
{
    bytes[at] = (a % 256) as u8;
    bytes[step + at] = (b % 256) as u8;
    bytes[2 * step + at] = (c % 256) as u8;
    bytes[3 * step + at] = (d % 256) as u8;
}
