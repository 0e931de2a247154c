// The four sides of a corner's quad-net on an axis: H, T, X, Y, N and C of each, from the rows.
ghost use Rattle.std.specs.Prelude.{ℕ, ◌<◌};
ghost use Rattle.surface.specs.Sizes.{RefinedSize, FaceSize, CosineSize};
ghost use Rattle.surface.specs.Points.{point_at};
ghost use Rattle.faces.specs.Ring.{ReadableOn};
ghost use Rattle.net_rows.specs.sides.Values.{Through, Made, FaceSized, SidesOf};

use faces::formulas::{inner, mean, toward};
use faces::point;

// A refined face at one of its corners: its centre, and its points towards the side that leaves the corner and the one before.
#[derive(Clone, Copy)]
pub struct FaceValues {
    pub centre: i32,
    pub ahead: i32,
    pub behind: i32,
}

// H, T, X, Y, N and C of a side.
#[derive(Clone, Copy)]
pub struct SideValues {
    pub head: i32,
    pub tail: i32,
    pub x: i32,
    pub y: i32,
    pub inner: i32,
    pub cosine: i64,
}

#[derive(Clone, Copy)]
pub struct NetSides {
    pub side0: SideValues,
    pub side1: SideValues,
    pub side2: SideValues,
    pub side3: SideValues,
}

// The four-sided refined face of four rows in turn in lane k, at the first.
fn face_through(stencil: &[i32], k: usize, a: usize, b: usize, c: usize, d: usize) -> FaceValues
    requires { ReadableOn stencil.now k a × ReadableOn stencil.now k b × ReadableOn stencil.now k c × ReadableOn stencil.now k d }
    ensures { Through (point_at stencil.now k) a b c d result }
{
    let v = point(stencil, k, a);
    let w = point(stencil, k, b);
    let x = point(stencil, k, c);
    let y = point(stencil, k, d);
    FaceValues {
        centre: mean(v, w, x, y),
        ahead: toward(v, w, x, y),
        behind: toward(y, v, w, x),
    }
}

// One side from its parts; v is the corner's refined point, w the neighbour's.
fn side(head: i32, tail: i32, x: i32, y: i32, v: i32, w: i32, cosine: i64) -> SideValues
    requires { RefinedSize head × RefinedSize tail × FaceSize x × FaceSize y × RefinedSize v × RefinedSize w × CosineSize cosine }
    ensures { Made head tail x y v w cosine result }
{
    SideValues {
        head,
        tail,
        x,
        y,
        inner: inner(x, y, v, w),
        cosine,
    }
}

// The four sides in lane k, from the faces v of the vertex and f of the mesh face, C of these, and the rows of the corners around.
pub fn sides_of(stencil: &[i32], k: usize, v: FaceValues, f: FaceValues, c: i64, d: i64) -> NetSides
    requires rows { (i : ℕ) → i < 7 → ReadableOn stencil.now k i }
    requires rings { FaceSized v × FaceSized f × CosineSize c × CosineSize d }
    ensures { SidesOf (point_at stencil.now k) v f c d result }
{
    let e = face_through(stencil, k, 0, 1, 2, 3);
    let g = face_through(stencil, k, 0, 4, 5, 6);
    let here = point(stencil, k, 0);
    let next = point(stencil, k, 1);
    let link = point(stencil, k, 3);
    let across = point(stencil, k, 4);
    let back = point(stencil, k, 6);
    NetSides {
        side0: side(v.centre, e.centre, v.ahead, e.behind, here, link, c),
        side1: side(f.centre, e.centre, f.ahead, e.ahead, here, next, d),
        side2: side(f.centre, g.centre, f.behind, g.behind, here, back, d),
        side3: side(v.centre, g.centre, v.behind, g.ahead, here, across, c),
    }
}
