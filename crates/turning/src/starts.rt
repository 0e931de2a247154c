// The face of every corner and the first corner of every face, as tables.
ghost use Rattle.std.specs.Prelude.{length};
ghost use Rattle.turning.specs.starts.Starts.{Startable, StartsTo};

// The face of every corner, and the first corner of every face.
pub(crate) fn fill_starts(sides: &[u8], faces: &mut [u16], starts: &mut [u16])
    requires { Startable sides.now faces.old starts.old }
    ensures { StartsTo sides.now faces.new starts.new (length sides.now) }
{
    let mut start = 0;
    for f in 0..sides.len() {
        let end = start + sides[f] as usize;
        starts[f] = start as u16;
        faces[start..end].fill(f as u16);
        start = end;
    }
}
