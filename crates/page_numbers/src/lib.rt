#![tactic(auto)]
// A page of the border report as its 21 numbers, for C: meshes, corners, borders, refusals 1 to 13, refusals 28, the four misses.
ghost use Rattle.std.specs.Prelude.{◌≡◌, ◌+◌, ◌<◌, length, get_or};
ghost use Rattle.paper.specs.Scan.{values_from};
ghost use Rattle.paper.specs.Report.{lines, conditions, numbers_on};
ghost use Rattle.paper.specs.CFace.{page_in};

use paper::{CONDITIONS, LINES, NUMBERS_ON_PAGE, Page};

// Where refusals and misses start.
const FIRST_LINE: usize = 3;

const FIRST_MISS: usize = FIRST_LINE + LINES;

// The page of these numbers.
pub fn read(numbers: &[u64; NUMBERS_ON_PAGE]) -> Page
    ensures { result ≡ page_in numbers.now }
{
    let mut refusals = [0u64; LINES];
    refusals.copy_from_slice(&numbers[FIRST_LINE..FIRST_MISS]);
    let mut misses = [0u64; CONDITIONS];
    misses.copy_from_slice(&numbers[FIRST_MISS..]);
    Page {
        meshes: numbers[0],
        corners: numbers[1],
        borders: numbers[2],
        refusals: refusals,
        misses: misses,
    }
}

// The numbers of the page.
pub fn numbers(page: Page) -> [u64; NUMBERS_ON_PAGE]
    requires { (length page.refusals ≡ lines) × (length page.misses ≡ conditions) }
    ensures { result ≡ numbers_on page }
{
    let mut new = [0u64; NUMBERS_ON_PAGE];
    new[0] = page.meshes;
    new[1] = page.corners;
    new[2] = page.borders;
    new[FIRST_LINE..FIRST_MISS].copy_from_slice(&page.refusals);
    new[FIRST_MISS..].copy_from_slice(&page.misses);
    new
}
