#![tactic(auto)]
// L14, the yearly border report: a call takes a page with one file and returns the next page. The file is checked as behind `inspect`, in local copies of
// its lists; of an accepted mesh the misses are taken over a table of its corners and one of its refined points.
pub mod border_misses;
pub mod mesh_misses;
pub mod misses;
pub mod page_laws;

ghost use Rattle.std.specs.Prelude.{◌≡◌, ◌*◌, ◌<◌, ◌≤◌, length};
ghost use Rattle.paper.specs.Mesh.{most_corners, of_lists};
ghost use Rattle.paper.specs.Faults.{sound, verdict};
ghost use Rattle.paper.specs.File.{file_mesh, file_verdict};
ghost use Rattle.paper.specs.Report.{added, page_verdict, offered, ReportedTo};
ghost use Rattle.surface.specs.Points.{point_row};
ghost use Rattle.corner_points.specs.RefinedPoints.{SmallPoints};
ghost use Rattle.dms_lists.specs.header.ListsWithin.{ListsWithin};
ghost use Rattle.dms_lists.specs.lists.Room.{Room};
ghost use Rattle.checks.specs.Checked.{RowsFor};

use mesh::SMALL_MESH;
use paper::{MOST_CORNERS, MOST_FACES, MOST_NUMBERS, MOST_PAIRS, MeshLists, Page, RefusedPage};
use surface::POINT_ROW;
use walk::ROW;

// The page after one file more, from the bytes read and the length counted, or the page as it was.
pub fn report(bytes: &[u8], counted: usize, page: Page) -> Result<Page, RefusedPage>
    ensures { ReportedTo page (offered bytes.now counted) result }
{
    if let Err(refusal) = pages::check(page) {
        return Err(RefusedPage { refusal, page });
    }
    let held = bytes.len().min(counted);
    Ok(with_file(&bytes[..held], counted, page))
}

// The page after the file itself: its header is checked first.
fn with_file(file: &[u8], counted: usize, page: Page) -> Page
    requires { page_verdict page ≡ sound }
    ensures { result ≡ added page (file_mesh file.now) (file_verdict file.now counted) }
{
    match dms_lists::header::check_header(file, counted) {
        Ok(()) => with_lists(file, page),
        Err(refusal) => pages::refuse(page, refusal.number),
    }
}

// The same of a file whose header passes, with copies of its lists. They are short where the file has few vertices, faces and corners in all.
fn with_lists(file: &[u8], page: Page) -> Page
    requires { ListsWithin file.now × (page_verdict page ≡ sound) }
    ensures { result ≡ added page (file_mesh file.now) (verdict (file_mesh file.now)) }
{
    let vertices = dms_lists::header::vertex_count(file);
    let faces = dms_lists::header::face_count(file);
    let count = dms_lists::header::corner_count(file);
    if mesh::table_rows(vertices + faces + count) == SMALL_MESH {
        let mut coordinates = [0i32; 3 * SMALL_MESH];
        let mut sides = [0u8; SMALL_MESH];
        let mut corners = [0u16; SMALL_MESH];
        let mut sharpness = [0u8; 2 * SMALL_MESH];
        return with_copies(
            file,
            page,
            &mut coordinates,
            &mut sides,
            &mut corners,
            &mut sharpness,
        );
    }
    let mut coordinates = [0i32; MOST_NUMBERS];
    let mut sides = [0u8; MOST_FACES];
    let mut corners = [0u16; MOST_CORNERS];
    let mut sharpness = [0u8; MOST_PAIRS];
    with_copies(
        file,
        page,
        &mut coordinates,
        &mut sides,
        &mut corners,
        &mut sharpness,
    )
}

// The same over lent spaces, into which the lists are read.
fn with_copies(
    file: &[u8],
    page: Page,
    coordinates: &mut [i32],
    sides: &mut [u8],
    corners: &mut [u16],
    sharpness: &mut [u8],
) -> Page
    requires file { ListsWithin file.now × (page_verdict page ≡ sound) }
    requires room { Room file.now (length coordinates.old) (length sides.old) (length corners.old) (length sharpness.old) }
    ensures { result ≡ added page (file_mesh file.now) (verdict (file_mesh file.now)) }
{
    dms_lists::lists::read_lists(file, coordinates, sides, corners, sharpness);
    let numbers = 3 * dms_lists::header::vertex_count(file);
    let faces = dms_lists::header::face_count(file);
    let count = dms_lists::header::corner_count(file);
    let lists = MeshLists {
        coordinates: &coordinates[..numbers],
        sides: &sides[..faces],
        corners: &corners[..count],
        sharpness: &sharpness[..2 * count],
    };
    with_mesh(lists, page)
}

// The same of the lists of a mesh, with tables of its own.
fn with_mesh(lists: MeshLists, page: Page) -> Page
    requires { page_verdict page ≡ sound }
    ensures { result ≡ added page (of_lists lists.entry) (verdict (of_lists lists.entry)) }
{
    if mesh::table_rows(lists.corners.len()) == SMALL_MESH {
        let mut table = [0u16; ROW * SMALL_MESH];
        let mut points = [0i32; POINT_ROW * SMALL_MESH];
        return over(lists, page, &mut table, &mut points);
    }
    let mut table = [0u16; ROW * MOST_CORNERS];
    let mut points = [0i32; POINT_ROW * MOST_CORNERS];
    over(lists, page, &mut table, &mut points)
}

// The same over lent tables. A refused mesh adds one under its number; an accepted one its corners, its borders and its misses.
fn over(lists: MeshLists, page: Page, table: &mut [u16], points: &mut [i32]) -> Page
    requires page { page_verdict page ≡ sound }
    requires table { RowsFor (length lists.corners.now) table.old }
    requires points { (length lists.corners.now ≤ most_corners → point_row * length lists.corners.now ≤ length points.old) × SmallPoints points.old }
    ensures { result ≡ added page (of_lists lists.entry) (verdict (of_lists lists.entry)) }
{
    if let Err(refusal) = checks::check_within(lists, table) {
        return pages::refuse(page, refusal.number);
    }
    let largest = crate::mesh_misses::largest(lists, table, points);
    pages::accept(page, lists.corners.len(), largest)
}
