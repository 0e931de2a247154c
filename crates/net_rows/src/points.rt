// The 41 points of a quad-net into a lane, from its four sides: every fourth number.
ghost use Rattle.std.specs.Prelude.{◌≡◌, ◌+◌, ◌*◌, ◌≤◌, ◌<◌, length};
ghost use Rattle.paper.specs.Net.{rows};
ghost use Rattle.net_rows.specs.rows.SideRows.{Square};
ghost use Rattle.net_rows.specs.points.Placed.{PointsPlaced, LaneLaid};
ghost use Rattle.net_rows.specs.sides.Values.{FourSized};

// A row of points, every fourth number from `from` on.
fn put_row(row: &[i32], out: &mut [i32], from: usize)
    requires { from + 4 * length row.now ≤ length out.old + 3 }
    ensures { PointsPlaced out.old out.new from row.now }
{
    for (j, v) in row.iter().enumerate() {
        out[from + 4 * j] = *v;
    }
}

// A grid of N rows of N points, row after row.
fn put_grid<const N: usize>(g: [[i32; N]; N], out: &mut [i32], from: usize)
    requires { (from + 4 * (N * N) ≤ length out.old + 3) × Square N g }
    ensures { PointsPlaced out.old out.new from (rows g.entry) }
{
    for i in 0..N {
        let row = g[i];
        put_row(&row, out, from + 4 * N * i);
    }
}

// The 41 points of a net from its four sides, into lane k.
pub fn put_lane(n: crate::sides::NetSides, lanes: &mut [i32], k: usize)
    requires { FourSized n × (k < 4) × (length lanes.old ≡ 164) }
    ensures { LaneLaid n k lanes.old lanes.new }
{
    let s0 = n.side0;
    let s1 = n.side1;
    let s2 = n.side2;
    let s3 = n.side3;
    let r0 = crate::rows::side_rows(s0, s3, s1, s2);
    let r1 = crate::rows::side_rows(s1, s2, s0, s3);
    let r2 = crate::rows::side_rows(s2, s1, s3, s0);
    let r3 = crate::rows::side_rows(s3, s0, s2, s1);
    let a = crate::rows::a_grid(r0, r1, r2, r3);
    let b = crate::rows::b_grid(s0.head, s0.tail, s2.head, s3.tail, r0, r1, r2, r3, a);
    put_grid(b, lanes, k);
    put_grid(a, lanes, k + 100);
}
