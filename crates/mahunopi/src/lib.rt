#![tactic(auto)]
// The C face of the library, which crate mahunopi_c exports and include/mahunopi.h declares. Each function
// wraps one of Rattle's and says the same: 0 for done, else 01's number, with the place behind `place`. The C interface lends
// every list by itself.
ghost use Rattle.std.specs.Prelude.{◌≡◌, ◌||◌, ◌+◌, ltb, length};
ghost use Rattle.paper.specs.Mesh.{mesh_of, four, most_sides};
ghost use Rattle.paper.specs.File.{file_of};
ghost use Rattle.paper.specs.CFace.{LinkCall, BuildCall, DecodeCall, counts_of, SurveyCall, FloatsCall, NestCall};
ghost use Rattle.paper.specs.CFace.{finding, IrregularCall, ArchiveCall, RestoreCall, OffCall};
ghost use Rattle.paper.specs.Preview.{move_of};
ghost use Rattle.paper.specs.CFace.{PreviewCall, TouchedCall};
ghost use Rattle.paper.specs.Sampling.{weights};
ghost use Rattle.paper.specs.CFace.{SampleCall, TriangleCall, TurnCall};
ghost use Rattle.paper.specs.CFace.{sizes, CountTrianglesCall, TrianglesCall};
ghost use Rattle.paper.specs.CFace.{FloatsAllCall, TangentsAtCall, TangentsCall};
ghost use Rattle.paper.specs.Report.{offered};
ghost use Rattle.paper.specs.CFace.{ReportCall, MergeCall};

use paper::{FloatPoint, Irregular, MeshLists, Move, NO_ROOM, NUMBERS, NUMBERS_ON_PAGE, Refusal};
use telling::{tell, tell_counts};

// Linking.
pub fn mahunopi_link(
    coordinates: &[i32],
    sides: &[u8],
    corners: &[u16],
    sharpness: &[u8],
    links: &mut [u16],
    place: &mut u64,
) -> u32
    ensures { LinkCall (mesh_of coordinates.now sides.now corners.now sharpness.now) links.old place.old result place.new links.new }
{
    tell(
        linking::link(
            MeshLists {
                coordinates,
                sides,
                corners,
                sharpness,
            },
            links,
        ),
        place,
    )
}

// Building.
pub fn mahunopi_build(
    coordinates: &[i32],
    sides: &[u8],
    corners: &[u16],
    sharpness: &[u8],
    links: &[u16],
    first: usize,
    count: usize,
    output: &mut [i32],
    place: &mut u64,
) -> u32
    ensures { BuildCall (mesh_of coordinates.now sides.now corners.now sharpness.now) links.now first count output.old place.old result place.new output.new }
{
    tell(
        building::build(
            MeshLists {
                coordinates,
                sides,
                corners,
                sharpness,
            },
            links,
            first,
            count,
            output,
        ),
        place,
    )
}

// Reading a file's lists into the beginnings of lent ones. The four lengths are left alone beside a refusal.
pub fn mahunopi_decode(
    bytes: &[u8],
    length: u64,
    coordinates: &mut [i32],
    sides: &mut [u8],
    corners: &mut [u16],
    sharpness: &mut [u8],
    numbers: &mut u64,
    faces: &mut u64,
    count: &mut u64,
    sixteenths: &mut u64,
    place: &mut u64,
) -> u32
    ensures { DecodeCall (file_of bytes.now length) length (mesh_of coordinates.old sides.old corners.old sharpness.old) (four numbers.old faces.old count.old sixteenths.old) place.old result place.new (mesh_of coordinates.new sides.new corners.new sharpness.new) (four numbers.new faces.new count.new sixteenths.new) }
{
    match dms::decode(
        bytes,
        length as usize,
        coordinates,
        sides,
        corners,
        sharpness,
    ) {
        Ok(lengths) => {
            *numbers = lengths.coordinates as u64;
            *faces = lengths.sides as u64;
            *count = lengths.corners as u64;
            *sixteenths = lengths.sharpness as u64;
            0
        }
        Err(refusal) => tell(Err(refusal), place),
    }
}

// The counts of a file: vertices, faces and corners; and into the beginnings of two lent lists, for each m from 0 to the most sides,
// the vertices with m corners and the faces with m sides. All of them are left alone beside a refusal.
pub fn mahunopi_survey(
    bytes: &[u8],
    length: u64,
    vertices: &mut u64,
    faces: &mut u64,
    corners: &mut u64,
    cornered: &mut [u16],
    sided: &mut [u16],
    place: &mut u64,
) -> u32
    ensures { SurveyCall (file_of bytes.now length) length (counts_of vertices.old faces.old corners.old cornered.old sided.old) place.old result place.new (counts_of vertices.new faces.new corners.new cornered.new sided.new) }
{
    match dms::survey(bytes, length as usize) {
        Ok(counts) => {
            if too_short(cornered.len(), sided.len()) {
                return tell(
                    Err(Refusal {
                        number: NO_ROOM,
                        place: NUMBERS,
                    }),
                    place,
                );
            }
            tell_counts(counts, vertices, faces, corners, cornered, sided);
            0
        }
        Err(refusal) => tell(Err(refusal), place),
    }
}

// One control point in floats. A near point fills the first three floats, a far one all six.
pub fn mahunopi_floats(
    numbers: &[i32],
    point: usize,
    floats: &mut [f32; 6],
    pairs: &mut u32,
    place: &mut u64,
) -> u32
    ensures { FloatsCall numbers.now point floats.old pairs.old place.old result place.new floats.new pairs.new }
{
    match floats::point(numbers, point) {
        Ok(FloatPoint::Near(p)) => {
            floats[0] = p.x;
            floats[1] = p.y;
            floats[2] = p.z;
            *pairs = 0;
            0
        }
        Ok(FloatPoint::Far(p, q)) => {
            floats[0] = p.x;
            floats[1] = p.y;
            floats[2] = p.z;
            floats[3] = q.x;
            floats[4] = q.y;
            floats[5] = q.z;
            *pairs = 1;
            0
        }
        Err(refusal) => tell(Err(refusal), place),
    }
}

// All control points of a list of quad-nets in floats, into the beginning of a lent list.
pub fn mahunopi_floats_all(numbers: &[i32], floats: &mut [f32], place: &mut u64) -> u32
    ensures { FloatsAllCall numbers.now floats.old place.old result place.new floats.new }
{
    tell(floats::all_points(numbers, floats), place)
}

// Listing nested grids.
pub fn mahunopi_nest(holders: &[u16], listing: &mut [u16], place: &mut u64) -> u32
    ensures { NestCall holders.now listing.old place.old result place.new listing.new }
{
    tell(nesting::nest(holders, listing), place)
}

// The lowest face that has not four sides, else the lowest vertex that has not four corners, else none.
pub fn mahunopi_irregular(
    coordinates: &[i32],
    sides: &[u8],
    corners: &[u16],
    sharpness: &[u8],
    kind: &mut u32,
    number: &mut u64,
    read: &mut u64,
    place: &mut u64,
) -> u32
    ensures { IrregularCall (mesh_of coordinates.now sides.now corners.now sharpness.now) (finding kind.old number.old read.old) place.old result place.new (finding kind.new number.new read.new) }
{
    match irregular::search(MeshLists {
        coordinates,
        sides,
        corners,
        sharpness,
    }) {
        Ok(search) => {
            let (code, lowest) = match search.found {
                Some(found) => match found {
                    Irregular::Face(f) => (1, f),
                    Irregular::Vertex(u) => (2, u),
                },
                None => (0, 0),
            };
            *kind = code;
            *number = lowest as u64;
            *read = search.read as u64;
            0
        }
        Err(refusal) => tell(Err(refusal), place),
    }
}

// Coordinates rearranged for the archive.
pub fn mahunopi_archive(numbers: &[i32], bytes: &mut [u8], place: &mut u64) -> u32
    ensures { ArchiveCall numbers.now bytes.old place.old result place.new bytes.new }
{
    tell(rearrange::archive(numbers, bytes), place)
}

// And back.
pub fn mahunopi_restore(bytes: &[u8], numbers: &mut [i32], place: &mut u64) -> u32
    ensures { RestoreCall bytes.now numbers.old place.old result place.new numbers.new }
{
    tell(rearrange::restore(bytes, numbers), place)
}

// Reading an OFF text's lists into the beginnings of lent ones. The four lengths are left alone beside a refusal.
pub fn mahunopi_off(
    text: &[u8],
    coordinates: &mut [i32],
    sides: &mut [u8],
    corners: &mut [u16],
    sharpness: &mut [u8],
    numbers: &mut u64,
    faces: &mut u64,
    count: &mut u64,
    sixteenths: &mut u64,
    place: &mut u64,
) -> u32
    ensures { OffCall text.now (mesh_of coordinates.old sides.old corners.old sharpness.old) (four numbers.old faces.old count.old sixteenths.old) place.old result place.new (mesh_of coordinates.new sides.new corners.new sharpness.new) (four numbers.new faces.new count.new sixteenths.new) }
{
    match off::read(text, coordinates, sides, corners, sharpness) {
        Ok(lengths) => {
            *numbers = lengths.coordinates as u64;
            *faces = lengths.sides as u64;
            *count = lengths.corners as u64;
            *sixteenths = lengths.sharpness as u64;
            0
        }
        Err(refusal) => tell(Err(refusal), place),
    }
}

// Trying a vertex before moving it: what building answers and writes with the vertex moved.
pub fn mahunopi_preview(
    coordinates: &[i32],
    sides: &[u8],
    corners: &[u16],
    sharpness: &[u8],
    links: &[u16],
    first: usize,
    count: usize,
    vertex: usize,
    x: i32,
    y: i32,
    z: i32,
    output: &mut [i32],
    place: &mut u64,
) -> u32
    ensures { PreviewCall (mesh_of coordinates.now sides.now corners.now sharpness.now) (move_of vertex x y z) links.now first count output.old place.old result place.new output.new }
{
    let to = Move { vertex, x, y, z };
    tell(
        preview::preview(
            MeshLists {
                coordinates,
                sides,
                corners,
                sharpness,
            },
            links,
            to,
            first,
            count,
            output,
        ),
        place,
    )
}

// The corners that a vertex can change: 1 in the mark of each, 0 in the others.
pub fn mahunopi_touched(
    coordinates: &[i32],
    sides: &[u8],
    corners: &[u16],
    sharpness: &[u8],
    vertex: usize,
    marks: &mut [u8],
    place: &mut u64,
) -> u32
    ensures { TouchedCall (mesh_of coordinates.now sides.now corners.now sharpness.now) vertex marks.old place.old result place.new marks.new }
{
    tell(
        touching::touched(
            MeshLists {
                coordinates,
                sides,
                corners,
                sharpness,
            },
            vertex,
            marks,
        ),
        place,
    )
}

// One sample of a triangle.
pub fn mahunopi_sample(
    numbers: &[i32],
    side: usize,
    i: usize,
    j: usize,
    k: usize,
    n: usize,
    point: &mut [i32; 3],
    place: &mut u64,
) -> u32
    ensures { SampleCall numbers.now side (weights i j k n) point.old place.old result place.new point.new }
{
    tell(sampling::sample(numbers, side, i, j, k, n, point), place)
}

// All samples of a triangle, into the beginning of a lent list.
pub fn mahunopi_sample_triangle(
    numbers: &[i32],
    side: usize,
    n: usize,
    points: &mut [i32],
    place: &mut u64,
) -> u32
    ensures { TriangleCall numbers.now side n points.old place.old result place.new points.new }
{
    tell(sampling::sample_triangle(numbers, side, n, points), place)
}

// How many numbers of points and of triangles a range of corners has. Both counts are left alone beside a refusal.
pub fn mahunopi_count_triangles(
    coordinates: &[i32],
    sides: &[u8],
    corners: &[u16],
    sharpness: &[u8],
    links: &[u16],
    levels: &[u8],
    first: usize,
    count: usize,
    numbers: &mut u64,
    entries: &mut u64,
    place: &mut u64,
) -> u32
    ensures { CountTrianglesCall (mesh_of coordinates.now sides.now corners.now sharpness.now) links.now levels.now first count (sizes numbers.old entries.old) place.old result place.new (sizes numbers.new entries.new) }
{
    match triangles::count(
        MeshLists {
            coordinates,
            sides,
            corners,
            sharpness,
        },
        links,
        levels,
        first,
        count,
    ) {
        Ok(written) => {
            *numbers = written.points as u64;
            *entries = written.triangles as u64;
            0
        }
        Err(refusal) => tell(Err(refusal), place),
    }
}

// The points and the triangles of a range of corners, into the beginnings of two lent lists. Both counts are left alone beside a refusal.
pub fn mahunopi_triangles(
    coordinates: &[i32],
    sides: &[u8],
    corners: &[u16],
    sharpness: &[u8],
    links: &[u16],
    levels: &[u8],
    first: usize,
    count: usize,
    points: &mut [i32],
    indices: &mut [u32],
    numbers: &mut u64,
    entries: &mut u64,
    place: &mut u64,
) -> u32
    ensures { TrianglesCall (mesh_of coordinates.now sides.now corners.now sharpness.now) links.now levels.now first count points.old indices.old (sizes numbers.old entries.old) place.old result place.new points.new indices.new (sizes numbers.new entries.new) }
{
    match triangles::triangles(
        MeshLists {
            coordinates,
            sides,
            corners,
            sharpness,
        },
        links,
        levels,
        first,
        count,
        points,
        indices,
    ) {
        Ok(written) => {
            *numbers = written.points as u64;
            *entries = written.triangles as u64;
            0
        }
        Err(refusal) => tell(Err(refusal), place),
    }
}

// The tangents of the points of a range of corners, into the beginning of a lent list. The length is left alone beside a refusal.
pub fn mahunopi_tangents(
    coordinates: &[i32],
    sides: &[u8],
    corners: &[u16],
    sharpness: &[u8],
    links: &[u16],
    levels: &[u8],
    first: usize,
    count: usize,
    tangents: &mut [i64],
    numbers: &mut u64,
    place: &mut u64,
) -> u32
    ensures { TangentsCall (mesh_of coordinates.now sides.now corners.now sharpness.now) links.now levels.now first count tangents.old numbers.old place.old result place.new tangents.new numbers.new }
{
    match triangles::tangents(
        MeshLists {
            coordinates,
            sides,
            corners,
            sharpness,
        },
        links,
        levels,
        first,
        count,
        tangents,
    ) {
        Ok(written) => {
            *numbers = written as u64;
            0
        }
        Err(refusal) => tell(Err(refusal), place),
    }
}

// The tangents at one sample of a triangle.
pub fn mahunopi_tangents_at(
    numbers: &[i32],
    side: usize,
    i: usize,
    j: usize,
    k: usize,
    n: usize,
    tangents: &mut [i64; 6],
    place: &mut u64,
) -> u32
    ensures { TangentsAtCall numbers.now side (weights i j k n) tangents.old place.old result place.new tangents.new }
{
    tell(
        sampling::tangents(numbers, side, i, j, k, n, tangents),
        place,
    )
}

// Turning faces that are drawn the wrong way round.
pub fn mahunopi_turn(
    coordinates: &[i32],
    sides: &[u8],
    corners: &mut [u16],
    sharpness: &mut [u8],
    listing: &mut [u16],
    turned: &mut u64,
    place: &mut u64,
) -> u32
    ensures { TurnCall (mesh_of coordinates.now sides.now corners.old sharpness.old) listing.old turned.old place.old result place.new (mesh_of coordinates.now sides.now corners.new sharpness.new) listing.new turned.new }
{
    match turning::turn(coordinates, sides, corners, sharpness, listing) {
        Ok(count) => {
            *turned = count as u64;
            0
        }
        Err(refusal) => tell(Err(refusal), place),
    }
}

// One file more on the page of a border report, which is left alone beside a refusal.
pub fn mahunopi_report(
    bytes: &[u8],
    length: u64,
    page: &mut [u64; NUMBERS_ON_PAGE],
    place: &mut u64,
) -> u32
    ensures { ReportCall (offered bytes.now length) page.old place.old result place.new page.new }
{
    match border_report::report(bytes, length as usize, page_numbers::read(page)) {
        Ok(after) => {
            *page = page_numbers::numbers(after);
            0
        }
        Err(refused) => tell(Err(refused.refusal), place),
    }
}

// Two pages as one, in the second, which is left alone beside a refusal.
pub fn mahunopi_merge(
    other: &[u64; NUMBERS_ON_PAGE],
    page: &mut [u64; NUMBERS_ON_PAGE],
    place: &mut u64,
) -> u32
    ensures { MergeCall other.now page.old place.old result place.new page.new }
{
    match pages::merge(page_numbers::read(page), page_numbers::read(other)) {
        Ok(after) => {
            *page = page_numbers::numbers(after);
            0
        }
        Err(refused) => tell(Err(refused.refusal), place),
    }
}

// Whether one of two lists has no room for every m.
fn too_short(cornered: usize, sided: usize) -> bool
    ensures { result ≡ (ltb cornered (most_sides + 1) || ltb sided (most_sides + 1)) }
{
    cornered < NUMBERS || sided < NUMBERS
}
