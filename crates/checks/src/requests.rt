// Checks 14 to 17, of what linking and building are given beside the mesh. Each number is tried over the whole input before the next.
ghost use Rattle.std.specs.Prelude.{◌≡◌, not, ◌||◌, ◌+◌, ◌*◌, ◌≤◌, eqb, ltb, length};
ghost use Rattle.paper.specs.Mesh.{most_corners, Mesh, corner_count};
ghost use Rattle.paper.specs.Links.{link};
ghost use Rattle.paper.specs.Faults.{single, lowest_of, stated};
ghost use Rattle.paper.specs.Calls.{fault15, fault17};
ghost use Rattle.walk.specs.Table.{row_length, to_link, Column};
ghost use Rattle.checks.specs.Request.{links_faults, range_faults};

use paper::{NUMBERS_PER_CORNER, Refusal};
use walk::{LINK, ROW};

// Checks 14 and 15; `table` is the mesh's table of corners.
pub fn check_links(corners: usize, table: &[u16], links: &[u16]) -> Result<(), Refusal>
    requires { (corners ≤ most_corners) × (row_length * corners ≤ length table.now) }
    ensures { (M : Mesh) → corner_count M ≡ corners → Column table.now to_link (link M.sides M.corners) (corner_count M) → stated result ≡ links_faults M links.now }
{
    check_length(links.len(), corners)?;
    find_link(table, links)
}

// Checks 16 and 17; `room` is the output's length.
pub fn check_asked(corners: usize, first: usize, count: usize, room: usize) -> Result<(), Refusal>
    requires { corners ≤ most_corners }
    ensures { (M : Mesh) → corner_count M ≡ corners → stated result ≡ range_faults M first count room }
{
    check_range(first, count, corners)?;
    if room != NUMBERS_PER_CORNER * count {
        return Err(Refusal {
            number: 17,
            place: room,
        });
    }
    Ok(())
}

// Check 14: the link table's length is the corner count.
pub fn check_length(links: usize, corners: usize) -> Result<(), Refusal>
    ensures { stated result ≡ single 14 (not (eqb links corners)) links }
{
    if links != corners {
        return Err(Refusal {
            number: 14,
            place: links,
        });
    }
    Ok(())
}

// Check 15: the lowest corner whose link is another.
fn find_link(table: &[u16], links: &[u16]) -> Result<(), Refusal>
    requires { (length links.now ≤ most_corners) × (row_length * length links.now ≤ length table.now) }
    ensures { (M : Mesh) → corner_count M ≡ length links.now → Column table.now to_link (link M.sides M.corners) (corner_count M) → stated result ≡ lowest_of 15 (corner_count M) (fault15 M links.now) }
{
    for (c, link) in links.iter().enumerate() {
        if *link != table[ROW * c + LINK] {
            return Err(Refusal {
                number: 15,
                place: c,
            });
        }
    }
    Ok(())
}

// Check 16: the range is not empty and ends within the corners. No sum is formed, which could pass the largest number.
pub fn check_range(first: usize, count: usize, corners: usize) -> Result<(), Refusal>
    requires { corners ≤ most_corners }
    ensures { stated result ≡ single 16 (eqb count 0 || ltb corners (first + count)) first }
{
    if count == 0 || corners < first || corners - first < count {
        return Err(Refusal {
            number: 16,
            place: first,
        });
    }
    Ok(())
}
