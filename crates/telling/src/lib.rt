#![tactic(auto)]
// What C is told: of an answer, and of counts.
ghost use Rattle.std.specs.Prelude.{◌≡◌, ◌≤◌, length};
ghost use Rattle.paper.specs.Faults.{stated};
ghost use Rattle.paper.specs.File.{begins};
ghost use Rattle.paper.specs.CFace.{States, counts_of};

use paper::{Counts, Refusal};

// 0 for done, else the refusal's number, and then its place.
pub fn tell(a: Result<(), Refusal>, place: &mut u64) -> u32
    ensures { States (stated a) place.old result place.new }
{
    match a {
        Ok(()) => 0,
        Err(refusal) => {
            *place = refusal.place as u64;
            u32::from(refusal.number)
        }
    }
}

// The counts of a file; the two lists into the beginnings of lent ones.
pub fn tell_counts(
    counts: Counts,
    vertices: &mut u64,
    faces: &mut u64,
    corners: &mut u64,
    cornered: &mut [u16],
    sided: &mut [u16],
)
    requires { (length counts.cornered ≤ length cornered.old) × (length counts.sided ≤ length sided.old) }
    ensures { counts_of vertices.new faces.new corners.new cornered.new sided.new ≡ counts_of counts.vertices counts.faces counts.corners (begins counts.cornered cornered.old) (begins counts.sided sided.old) }
{
    *vertices = counts.vertices as u64;
    *faces = counts.faces as u64;
    *corners = counts.corners as u64;
    mesh::copy(&counts.cornered, cornered);
    mesh::copy(&counts.sided, sided);
}
