#![tactic(auto)]
// The exports of the C face: `rt lib` makes the static library of it, which C callers know as libmahunopi.a, and include/mahunopi.h declares it.
// Each function calls the one of its name in crate mahunopi and says the same.
ghost use Rattle.std.specs.Prelude.{◌≡◌, ◌||◌, ◌+◌, ltb, length};
ghost use Rattle.paper.specs.Mesh.{mesh_of, four, most_sides};
ghost use Rattle.paper.specs.File.{file_of};
ghost use Rattle.paper.specs.CFace.{LinkCall, BuildCall, DecodeCall, counts_of, SurveyCall, FloatsCall, NestCall};
ghost use Rattle.paper.specs.CFace.{finding, IrregularCall, ArchiveCall, RestoreCall, OffCall};
ghost use Rattle.paper.specs.Preview.{move_of};
ghost use Rattle.paper.specs.CFace.{PreviewCall, TouchedCall};
ghost use Rattle.paper.specs.Sampling.{weights};
ghost use Rattle.paper.specs.CFace.{SampleCall, TriangleCall, TurnCall};
ghost use Rattle.paper.specs.CFace.{sizes, CountTrianglesCall, TrianglesCall};
ghost use Rattle.paper.specs.CFace.{FloatsAllCall, TangentsAtCall, TangentsCall};
ghost use Rattle.paper.specs.Report.{offered};
ghost use Rattle.paper.specs.CFace.{ReportCall, MergeCall};

use paper::NUMBERS_ON_PAGE;

// Linking.
#[unsafe(no_mangle)]
pub extern "C" fn mahunopi_link(
    coordinates: &[i32],
    sides: &[u8],
    corners: &[u16],
    sharpness: &[u8],
    links: &mut [u16],
    place: &mut u64,
) -> u32
    ensures { LinkCall (mesh_of coordinates.now sides.now corners.now sharpness.now) links.old place.old result place.new links.new }
{
    mahunopi::mahunopi_link(coordinates, sides, corners, sharpness, links, place)
}

// Building.
#[unsafe(no_mangle)]
pub extern "C" fn mahunopi_build(
    coordinates: &[i32],
    sides: &[u8],
    corners: &[u16],
    sharpness: &[u8],
    links: &[u16],
    first: usize,
    count: usize,
    output: &mut [i32],
    place: &mut u64,
) -> u32
    ensures { BuildCall (mesh_of coordinates.now sides.now corners.now sharpness.now) links.now first count output.old place.old result place.new output.new }
{
    mahunopi::mahunopi_build(
        coordinates,
        sides,
        corners,
        sharpness,
        links,
        first,
        count,
        output,
        place,
    )
}

// Reading a file's lists into the beginnings of lent ones. The four lengths are left alone beside a refusal.
#[unsafe(no_mangle)]
pub extern "C" fn mahunopi_decode(
    bytes: &[u8],
    length: u64,
    coordinates: &mut [i32],
    sides: &mut [u8],
    corners: &mut [u16],
    sharpness: &mut [u8],
    numbers: &mut u64,
    faces: &mut u64,
    count: &mut u64,
    sixteenths: &mut u64,
    place: &mut u64,
) -> u32
    ensures { DecodeCall (file_of bytes.now length) length (mesh_of coordinates.old sides.old corners.old sharpness.old) (four numbers.old faces.old count.old sixteenths.old) place.old result place.new (mesh_of coordinates.new sides.new corners.new sharpness.new) (four numbers.new faces.new count.new sixteenths.new) }
{
    mahunopi::mahunopi_decode(
        bytes,
        length,
        coordinates,
        sides,
        corners,
        sharpness,
        numbers,
        faces,
        count,
        sixteenths,
        place,
    )
}

// The counts of a file: vertices, faces and corners; and into the beginnings of two lent lists, for each m from 0 to the most sides,
// the vertices with m corners and the faces with m sides. All of them are left alone beside a refusal.
#[unsafe(no_mangle)]
pub extern "C" fn mahunopi_survey(
    bytes: &[u8],
    length: u64,
    vertices: &mut u64,
    faces: &mut u64,
    corners: &mut u64,
    cornered: &mut [u16],
    sided: &mut [u16],
    place: &mut u64,
) -> u32
    ensures { SurveyCall (file_of bytes.now length) length (counts_of vertices.old faces.old corners.old cornered.old sided.old) place.old result place.new (counts_of vertices.new faces.new corners.new cornered.new sided.new) }
{
    mahunopi::mahunopi_survey(
        bytes, length, vertices, faces, corners, cornered, sided, place,
    )
}

// One control point in floats. A near point fills the first three floats, a far one all six.
#[unsafe(no_mangle)]
pub extern "C" fn mahunopi_floats(
    numbers: &[i32],
    point: usize,
    floats: &mut [f32; 6],
    pairs: &mut u32,
    place: &mut u64,
) -> u32
    ensures { FloatsCall numbers.now point floats.old pairs.old place.old result place.new floats.new pairs.new }
{
    mahunopi::mahunopi_floats(numbers, point, floats, pairs, place)
}

// All control points of a list of quad-nets in floats, into the beginning of a lent list.
#[unsafe(no_mangle)]
pub extern "C" fn mahunopi_floats_all(numbers: &[i32], floats: &mut [f32], place: &mut u64) -> u32
    ensures { FloatsAllCall numbers.now floats.old place.old result place.new floats.new }
{
    mahunopi::mahunopi_floats_all(numbers, floats, place)
}

// Listing nested grids.
#[unsafe(no_mangle)]
pub extern "C" fn mahunopi_nest(holders: &[u16], listing: &mut [u16], place: &mut u64) -> u32
    ensures { NestCall holders.now listing.old place.old result place.new listing.new }
{
    mahunopi::mahunopi_nest(holders, listing, place)
}

// The lowest face that has not four sides, else the lowest vertex that has not four corners, else none.
#[unsafe(no_mangle)]
pub extern "C" fn mahunopi_irregular(
    coordinates: &[i32],
    sides: &[u8],
    corners: &[u16],
    sharpness: &[u8],
    kind: &mut u32,
    number: &mut u64,
    read: &mut u64,
    place: &mut u64,
) -> u32
    ensures { IrregularCall (mesh_of coordinates.now sides.now corners.now sharpness.now) (finding kind.old number.old read.old) place.old result place.new (finding kind.new number.new read.new) }
{
    mahunopi::mahunopi_irregular(
        coordinates,
        sides,
        corners,
        sharpness,
        kind,
        number,
        read,
        place,
    )
}

// Coordinates rearranged for the archive.
#[unsafe(no_mangle)]
pub extern "C" fn mahunopi_archive(numbers: &[i32], bytes: &mut [u8], place: &mut u64) -> u32
    ensures { ArchiveCall numbers.now bytes.old place.old result place.new bytes.new }
{
    mahunopi::mahunopi_archive(numbers, bytes, place)
}

// And back.
#[unsafe(no_mangle)]
pub extern "C" fn mahunopi_restore(bytes: &[u8], numbers: &mut [i32], place: &mut u64) -> u32
    ensures { RestoreCall bytes.now numbers.old place.old result place.new numbers.new }
{
    mahunopi::mahunopi_restore(bytes, numbers, place)
}

// Reading an OFF text's lists into the beginnings of lent ones. The four lengths are left alone beside a refusal.
#[unsafe(no_mangle)]
pub extern "C" fn mahunopi_off(
    text: &[u8],
    coordinates: &mut [i32],
    sides: &mut [u8],
    corners: &mut [u16],
    sharpness: &mut [u8],
    numbers: &mut u64,
    faces: &mut u64,
    count: &mut u64,
    sixteenths: &mut u64,
    place: &mut u64,
) -> u32
    ensures { OffCall text.now (mesh_of coordinates.old sides.old corners.old sharpness.old) (four numbers.old faces.old count.old sixteenths.old) place.old result place.new (mesh_of coordinates.new sides.new corners.new sharpness.new) (four numbers.new faces.new count.new sixteenths.new) }
{
    mahunopi::mahunopi_off(
        text,
        coordinates,
        sides,
        corners,
        sharpness,
        numbers,
        faces,
        count,
        sixteenths,
        place,
    )
}

// Trying a vertex before moving it: what building answers and writes with the vertex moved.
#[unsafe(no_mangle)]
pub extern "C" fn mahunopi_preview(
    coordinates: &[i32],
    sides: &[u8],
    corners: &[u16],
    sharpness: &[u8],
    links: &[u16],
    first: usize,
    count: usize,
    vertex: usize,
    x: i32,
    y: i32,
    z: i32,
    output: &mut [i32],
    place: &mut u64,
) -> u32
    ensures { PreviewCall (mesh_of coordinates.now sides.now corners.now sharpness.now) (move_of vertex x y z) links.now first count output.old place.old result place.new output.new }
{
    mahunopi::mahunopi_preview(
        coordinates,
        sides,
        corners,
        sharpness,
        links,
        first,
        count,
        vertex,
        x,
        y,
        z,
        output,
        place,
    )
}

// The corners that a vertex can change: 1 in the mark of each, 0 in the others.
#[unsafe(no_mangle)]
pub extern "C" fn mahunopi_touched(
    coordinates: &[i32],
    sides: &[u8],
    corners: &[u16],
    sharpness: &[u8],
    vertex: usize,
    marks: &mut [u8],
    place: &mut u64,
) -> u32
    ensures { TouchedCall (mesh_of coordinates.now sides.now corners.now sharpness.now) vertex marks.old place.old result place.new marks.new }
{
    mahunopi::mahunopi_touched(coordinates, sides, corners, sharpness, vertex, marks, place)
}

// One sample of a triangle.
#[unsafe(no_mangle)]
pub extern "C" fn mahunopi_sample(
    numbers: &[i32],
    side: usize,
    i: usize,
    j: usize,
    k: usize,
    n: usize,
    point: &mut [i32; 3],
    place: &mut u64,
) -> u32
    ensures { SampleCall numbers.now side (weights i j k n) point.old place.old result place.new point.new }
{
    mahunopi::mahunopi_sample(numbers, side, i, j, k, n, point, place)
}

// All samples of a triangle, into the beginning of a lent list.
#[unsafe(no_mangle)]
pub extern "C" fn mahunopi_sample_triangle(
    numbers: &[i32],
    side: usize,
    n: usize,
    points: &mut [i32],
    place: &mut u64,
) -> u32
    ensures { TriangleCall numbers.now side n points.old place.old result place.new points.new }
{
    mahunopi::mahunopi_sample_triangle(numbers, side, n, points, place)
}

// How many numbers of points and of triangles a range of corners has. Both counts are left alone beside a refusal.
#[unsafe(no_mangle)]
pub extern "C" fn mahunopi_count_triangles(
    coordinates: &[i32],
    sides: &[u8],
    corners: &[u16],
    sharpness: &[u8],
    links: &[u16],
    levels: &[u8],
    first: usize,
    count: usize,
    numbers: &mut u64,
    entries: &mut u64,
    place: &mut u64,
) -> u32
    ensures { CountTrianglesCall (mesh_of coordinates.now sides.now corners.now sharpness.now) links.now levels.now first count (sizes numbers.old entries.old) place.old result place.new (sizes numbers.new entries.new) }
{
    mahunopi::mahunopi_count_triangles(
        coordinates,
        sides,
        corners,
        sharpness,
        links,
        levels,
        first,
        count,
        numbers,
        entries,
        place,
    )
}

// The points and the triangles of a range of corners, into the beginnings of two lent lists. Both counts are left alone beside a refusal.
#[unsafe(no_mangle)]
pub extern "C" fn mahunopi_triangles(
    coordinates: &[i32],
    sides: &[u8],
    corners: &[u16],
    sharpness: &[u8],
    links: &[u16],
    levels: &[u8],
    first: usize,
    count: usize,
    points: &mut [i32],
    indices: &mut [u32],
    numbers: &mut u64,
    entries: &mut u64,
    place: &mut u64,
) -> u32
    ensures { TrianglesCall (mesh_of coordinates.now sides.now corners.now sharpness.now) links.now levels.now first count points.old indices.old (sizes numbers.old entries.old) place.old result place.new points.new indices.new (sizes numbers.new entries.new) }
{
    mahunopi::mahunopi_triangles(
        coordinates,
        sides,
        corners,
        sharpness,
        links,
        levels,
        first,
        count,
        points,
        indices,
        numbers,
        entries,
        place,
    )
}

// The tangents of the points of a range of corners, into the beginning of a lent list. The length is left alone beside a refusal.
#[unsafe(no_mangle)]
pub extern "C" fn mahunopi_tangents(
    coordinates: &[i32],
    sides: &[u8],
    corners: &[u16],
    sharpness: &[u8],
    links: &[u16],
    levels: &[u8],
    first: usize,
    count: usize,
    tangents: &mut [i64],
    numbers: &mut u64,
    place: &mut u64,
) -> u32
    ensures { TangentsCall (mesh_of coordinates.now sides.now corners.now sharpness.now) links.now levels.now first count tangents.old numbers.old place.old result place.new tangents.new numbers.new }
{
    mahunopi::mahunopi_tangents(
        coordinates,
        sides,
        corners,
        sharpness,
        links,
        levels,
        first,
        count,
        tangents,
        numbers,
        place,
    )
}

// The tangents at one sample of a triangle.
#[unsafe(no_mangle)]
pub extern "C" fn mahunopi_tangents_at(
    numbers: &[i32],
    side: usize,
    i: usize,
    j: usize,
    k: usize,
    n: usize,
    tangents: &mut [i64; 6],
    place: &mut u64,
) -> u32
    ensures { TangentsAtCall numbers.now side (weights i j k n) tangents.old place.old result place.new tangents.new }
{
    mahunopi::mahunopi_tangents_at(numbers, side, i, j, k, n, tangents, place)
}

// Turning faces that are drawn the wrong way round.
#[unsafe(no_mangle)]
pub extern "C" fn mahunopi_turn(
    coordinates: &[i32],
    sides: &[u8],
    corners: &mut [u16],
    sharpness: &mut [u8],
    listing: &mut [u16],
    turned: &mut u64,
    place: &mut u64,
) -> u32
    ensures { TurnCall (mesh_of coordinates.now sides.now corners.old sharpness.old) listing.old turned.old place.old result place.new (mesh_of coordinates.now sides.now corners.new sharpness.new) listing.new turned.new }
{
    mahunopi::mahunopi_turn(
        coordinates,
        sides,
        corners,
        sharpness,
        listing,
        turned,
        place,
    )
}

// One file more on the page of a border report, which is left alone beside a refusal.
#[unsafe(no_mangle)]
pub extern "C" fn mahunopi_report(
    bytes: &[u8],
    length: u64,
    page: &mut [u64; NUMBERS_ON_PAGE],
    place: &mut u64,
) -> u32
    ensures { ReportCall (offered bytes.now length) page.old place.old result place.new page.new }
{
    mahunopi::mahunopi_report(bytes, length, page, place)
}

// Two pages as one, in the second, which is left alone beside a refusal.
#[unsafe(no_mangle)]
pub extern "C" fn mahunopi_merge(
    other: &[u64; NUMBERS_ON_PAGE],
    page: &mut [u64; NUMBERS_ON_PAGE],
    place: &mut u64,
) -> u32
    ensures { MergeCall other.now page.old place.old result place.new page.new }
{
    mahunopi::mahunopi_merge(other, page, place)
}
