// The numbers whose differences stand in four planes (L11).
ghost use Rattle.std.specs.Prelude.{◌≡◌, ◌*◌, ◌%◌, length};
ghost use Rattle.paper.specs.Archive.{restored};

use planes::differences::restore_at;

// Restores the numbers of all vertices. For one vertex the compiler knows all places.
pub(crate) fn fill_numbers(bytes: &[u8], numbers: &mut [i32])
    requires { (length numbers.old % 3 ≡ 0) × (length bytes.now ≡ 4 * length numbers.old) }
    ensures { numbers.new ≡ restored bytes.now (length numbers.old) }
{
    if numbers.len() == 3 {
        fill_vertex(bytes, numbers);
        return;
    }
    fill_vertices(bytes, numbers);
}

// One vertex.
fn fill_vertex(bytes: &[u8], numbers: &mut [i32])
    requires { (length numbers.old ≡ 3) × (length bytes.now ≡ 12) }
    ensures { numbers.new ≡ restored bytes.now (length numbers.old) }
{
    restore_at(bytes, 3, numbers, 0, 0);
    restore_at(bytes, 3, numbers, 1, 0);
    restore_at(bytes, 3, numbers, 2, 0);
}

// Vertex by vertex. x, y, z are the sums of the vertex before, 0 at first.
fn fill_vertices(bytes: &[u8], numbers: &mut [i32])
    requires { (length numbers.old % 3 ≡ 0) × (length bytes.now ≡ 4 * length numbers.old) }
    ensures { numbers.new ≡ restored bytes.now (length numbers.old) }
{
    let n = numbers.len();
    let mut x: u32 = 0;
    let mut y: u32 = 0;
    let mut z: u32 = 0;
    for v in 0..n / 3 {
        x = restore_at(bytes, n, numbers, 3 * v, x);
        y = restore_at(bytes, n, numbers, 3 * v + 1, y);
        z = restore_at(bytes, n, numbers, 3 * v + 2, z);
    }
}
