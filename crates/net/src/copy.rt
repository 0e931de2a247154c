// The points of a quad-net from the lanes, four numbers to a point, to the corner's part of the output, three numbers to a point.
ghost use Rattle.std.specs.Prelude.{◌≡◌, ◌+◌, ◌≤◌, length, get_or, pos};
ghost use Rattle.paper.specs.Calls.{per_corner};
ghost use Rattle.net.specs.copy.Copy.{PointPut, PointsCopied};

// The three numbers of a point, to the output from `to` on.
pub(crate) fn put_three(x: i32, y: i32, z: i32, out: &mut [i32], to: usize)
    requires { to + 3 ≤ length out.old }
    ensures { PointPut x y z to 3 out.old out.new }
{
    out[to] = x;
    out[to + 1] = y;
    out[to + 2] = z;
}

// The same and a fourth number: four numbers are stored in one step. In the output the next point writes over it.
// Tried: by `copy_from_slice` building took 1.15 times as long.
pub(crate) fn put_four(x: i32, y: i32, z: i32, w: i32, out: &mut [i32], to: usize)
    requires { to + 4 ≤ length out.old }
    ensures { PointPut x y z to 4 out.old out.new × (get_or out.new (to + 3) (pos 0) ≡ w) }
{
    put_three(x, y, z, out, to);
    out[to + 3] = w;
}

// `count` points from `point` on, to the output from `at` on.
fn copy_run(lanes: &[i32], point: usize, count: usize, out: &mut [i32], at: usize)
    requires { (point + count ≤ 40) × (length lanes.now ≡ 164) × (at + per_corner ≤ length out.old) }
    ensures { PointsCopied lanes.now at point (point + count) out.old out.new }
{
    for j in 0..count {
        let p = point + j;
        let from = 4 * p;
        let x = lanes[from];
        let y = lanes[from + 1];
        let z = lanes[from + 2];
        let w = lanes[from + 3];
        put_four(x, y, z, w, out, at + 3 * p);
    }
}

// All 41, by runs that the compiler writes out.
pub(crate) fn copy(lanes: &[i32], out: &mut [i32], at: usize)
    requires { (length lanes.now ≡ 164) × (at + per_corner ≤ length out.old) }
    ensures { PointsCopied lanes.now at 0 41 out.old out.new }
{
    for i in 0..5 {
        copy_run(lanes, 8 * i, 8, out, at);
    }
    let x = lanes[160];
    let y = lanes[161];
    let z = lanes[162];
    put_three(x, y, z, out, at + 120);
}
