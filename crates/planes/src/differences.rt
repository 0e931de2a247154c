// One number of a coordinate list (L11): its difference from the same axis of the vertex before, and the number restored from a difference.
ghost use Rattle.std.specs.Prelude.{◌≡◌, ◌+◌, ◌-◌, ◌*◌, ◌%◌, ◌^◌, ◌<◌, ◌≤◌, length};
ghost use Rattle.paper.specs.Archive.{stored_at};
ghost use Rattle.planes.specs.differences.Deltas.{delta_at, OneRestored};

// The difference at a position after the first vertex.
pub fn delta_at(numbers: &[i32], i: usize) -> u32
    requires { (3 ≤ i) × (i < length numbers.now) }
    ensures { result ≡ delta_at numbers.now i }
{
    let before = numbers[i - 3].cast_unsigned();
    numbers[i].cast_unsigned().wrapping_sub(before)
}

// Restores the number at a position, from the sum on its axis of the vertex before; answers the new sum.
pub fn restore_at(bytes: &[u8], n: usize, numbers: &mut [i32], i: usize, before: u32) -> u32
    requires { (i < n) × (length numbers.old ≡ n) × (length bytes.now ≡ 4 * n) }
    ensures { OneRestored bytes.now n numbers.old i before result numbers.new }
{
    let d = stored(bytes, n, i);
    let sum = before.wrapping_add(d);
    numbers[i] = sum.cast_signed();
    sum
}

// The difference whose bytes stand at a position of the four planes.
fn stored(bytes: &[u8], n: usize, i: usize) -> u32
    requires { (i < n) × (length bytes.now ≡ 4 * n) }
    ensures { result ≡ stored_at bytes.now n i }
{
    u32::from_le_bytes([bytes[i], bytes[n + i], bytes[2 * n + i], bytes[3 * n + i]])
}
