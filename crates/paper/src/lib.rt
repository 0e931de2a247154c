#![tactic(auto)]
// What the definitions of specs/ need of the code: the limits that 01 sets, and what the functions answer.

// The limits, for code; specs/Mesh.antt has the same numbers for the definitions.
pub const LEAST_SIDES: usize = 3;

pub const MOST_SIDES: usize = 16;

pub const MOST_VERTICES: usize = 2048;

pub const MOST_FACES: usize = 4096;

pub const MOST_CORNERS: usize = 8192;

pub const MOST_COORDINATE: i32 = 65536;

// A sharpness number is at most this, and where nothing else is said it is the second. Each corner has two.
pub const MOST_SHARPNESS: u8 = 16;

pub const PLAIN: u8 = 8;

pub const SHARPNESS_PER_CORNER: usize = 2;

// The numbers of the longest coordinate list, and of the longest sharpness list.
pub const MOST_NUMBERS: usize = 3 * MOST_VERTICES;

pub const MOST_PAIRS: usize = SHARPNESS_PER_CORNER * MOST_CORNERS;

// A mesh's four lists, as a call takes them: x, y, z of each vertex; the side count of each face; the vertex of each corner, face by face; the sharpness
// numbers u and v of each corner.
#[derive(Clone, Copy)]
pub struct MeshLists<'a> {
    pub coordinates: &'a [i32],
    pub sides: &'a [u8],
    pub corners: &'a [u16],
    pub sharpness: &'a [u8],
}

// What stands for 1 in the cosine table.
pub const UNIT: i64 = 1073741824;

// The numbers that building writes for a corner: x, y, z of each of its 41 points.
pub const NUMBERS_PER_CORNER: usize = 123;

// The most bodies of a nesting table, and what stands for the Sun in it.
pub const MOST_BODIES: usize = 256;

pub const SUN: u16 = 65535;

// The most parts of a side of a triangle that is sampled.
pub const MOST_PARTS: usize = 16;

// Why an input is turned down: 01's number, or that of a later request, and its place. A call that can be turned down answers a `Result` with it.
// The number is no enum: `telling::tell`, `lines::put_summary`, `lines::put_refusal` and `pages::refuse` promise what they do for each u8, and an enum of
// 01's numbers would ask more of their callers.
#[derive(Clone, Copy, Debug, PartialEq, Eq)]
pub struct Refusal {
    pub number: u8,
    pub place: usize,
}

// The number of a refusal that is our own, for a lent list that is too short; and that of L9, for a vertex that the mesh does not have.
pub const NO_ROOM: u8 = 255;

pub const NO_VERTEX: u8 = 29;

// How many numbers m there are, from 0 to the most sides or corners.
pub const NUMBERS: usize = MOST_SIDES + 1;

// A mesh's vertices, faces and corners; and for each m how many vertices have m corners and how many faces m sides.
#[derive(Clone, Copy)]
pub struct Counts {
    pub vertices: usize,
    pub faces: usize,
    pub corners: usize,
    pub cornered: [u16; NUMBERS],
    pub sided: [u16; NUMBERS],
}

// The lengths of a mesh's four lists, as `dms::decode` and `off::read` answer them.
#[derive(Clone, Copy)]
pub struct Lengths {
    pub coordinates: usize,
    pub sides: usize,
    pub corners: usize,
    pub sharpness: usize,
}

// One point's three floats, which travel together.
#[derive(Clone, Copy)]
pub struct Floats {
    pub x: f32,
    pub y: f32,
    pub z: f32,
}

// A point as `floats::point` answers it: a near one, or a far one, with the first floats of its pairs and the second ones.
#[derive(Clone, Copy)]
pub enum FloatPoint {
    Near(Floats),
    Far(Floats, Floats),
}

// A face that has not four sides, or a vertex that has not four corners.
#[derive(Clone, Copy)]
pub enum Irregular {
    Face(usize),
    Vertex(usize),
}

// What `irregular::search` finds: the lowest irregular face, else the lowest irregular vertex, if there is one; and the number of side counts that the
// search read.
#[derive(Clone, Copy)]
pub struct Search {
    pub found: Option<Irregular>,
    pub read: usize,
}

// A vertex, and the three coordinates that it is to have.
#[derive(Clone, Copy)]
pub struct Move {
    pub vertex: usize,
    pub x: i32,
    pub y: i32,
    pub z: i32,
}

// The most meshes that a page counts, and the most that a number on it may be.
pub const MOST_MESHES: u64 = 4096;

pub const MOST_ON_PAGE: u64 = 1099511627776;

// How many lines a page has for refusals, under 1 to 13 and 28, and how many for misses, one for each condition.
pub const LINES: usize = 14;

pub const CONDITIONS: usize = 4;

// The numbers of a page: meshes, corners and borders, then a number for each of these lines.
pub const NUMBERS_ON_PAGE: usize = 3 + LINES + CONDITIONS;

// A page of the border report (L14): meshes offered, corners built, borders met; refusals under 1 to 13 and 28; the largest misses over 2^30.
#[derive(Clone, Copy)]
pub struct Page {
    pub meshes: u64,
    pub corners: u64,
    pub borders: u64,
    pub refusals: [u64; LINES],
    pub misses: [u64; CONDITIONS],
}

// Why a call gives no next page, and the page as it was.
#[derive(Clone, Copy)]
pub struct RefusedPage {
    pub refusal: Refusal,
    pub page: Page,
}

// How many numbers of points and of triangles a call for triangles writes.
#[derive(Clone, Copy)]
pub struct Triangles {
    pub points: usize,
    pub triangles: usize,
}
