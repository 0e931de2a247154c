#![tactic(auto)]
// Pages of the border report (L14): checks 37 and 38, what a file adds to a page, and two pages as one. Nothing here knows a mesh or a file.
ghost use Rattle.std.specs.Prelude.{◌≡◌, ℕ, ◌+◌, ◌*◌, ◌<◌, ◌≤◌, max, eqb, get_or};
ghost use Rattle.paper.specs.Scan.{pick_n, values_from};
ghost use Rattle.paper.specs.Mesh.{Mesh, most_corners};
ghost use Rattle.paper.specs.Faults.{sound, fault, stated};
ghost use Rattle.paper.specs.Report.{page_with, line_numbers, lines, conditions, added, most_on_page, some_above, fault38, page_verdict, merged, merge_verdict, MergedTo};

use paper::{CONDITIONS, LINES, MOST_MESHES, MOST_ON_PAGE, Page, Refusal, RefusedPage};
use std::array;

// The numbers of the two checks, and the place of 37.
const MANY_MESHES: u8 = 37;

const LARGE_NUMBER: u8 = 38;

const MESHES_PLACE: usize = 4096;

// The numbers of the lines, of which the last one is no neighbour of those before it.
const LAST_NUMBER: u8 = 28;

const LINE_NUMBERS: [u8; LINES] = [1, 2, 3, 4, 5, 6, 7, 8, 9, 10, 11, 12, 13, LAST_NUMBER];

// Two pages as one, or the first as it was.
pub fn merge(page: Page, other: Page) -> Result<Page, RefusedPage>
    ensures { MergedTo page other result }
{
    if let Err(refusal) = check_merge(page, other) {
        return Err(RefusedPage { refusal, page });
    }
    Ok(sum_pages(page, other))
}

// Checks 37 and 38 of a page that is to take one file more.
pub fn check(page: Page) -> Result<(), Refusal>
    ensures { stated result ≡ page_verdict page }
{
    if MOST_MESHES <= page.meshes {
        return Err(Refusal {
            number: MANY_MESHES,
            place: MESHES_PLACE,
        });
    }
    if is_above(page) {
        return Err(Refusal {
            number: LARGE_NUMBER,
            place: 0,
        });
    }
    Ok(())
}

// The same of two pages that are to become one.
fn check_merge(page: Page, other: Page) -> Result<(), Refusal>
    ensures { stated result ≡ merge_verdict page other }
{
    if MOST_MESHES < page.meshes.saturating_add(other.meshes) {
        return Err(Refusal {
            number: MANY_MESHES,
            place: MESHES_PLACE,
        });
    }
    if is_above(page) || is_above(other) {
        return Err(Refusal {
            number: LARGE_NUMBER,
            place: 0,
        });
    }
    Ok(())
}

// Whether a number on the page is above 2^40.
fn is_above(page: Page) -> bool
    ensures { result ≡ fault38 page }
{
    some_above(&[page.meshes, page.corners, page.borders])
        || some_above(&page.refusals)
        || some_above(&page.misses)
}

fn some_above(numbers: &[u64]) -> bool
    ensures { result ≡ some_above numbers.now }
{
    numbers.iter().any(|n| MOST_ON_PAGE < *n)
}

// The page after a mesh that is refused under a number.
pub fn refuse(page: Page, number: u8) -> Page
    requires { page_verdict page ≡ sound }
    ensures { (M : Mesh) (p : ℕ) → result ≡ added page M (fault number p) }
{
    let refusals = one_more(page.refusals, number);
    Page {
        meshes: page.meshes + 1,
        refusals: refusals,
        ..page
    }
}

// The page after an accepted mesh of so many corners, with its largest misses. Each corner has two borders.
pub fn accept(page: Page, corners: usize, largest: [u64; CONDITIONS]) -> Page
    requires { (page_verdict page ≡ sound) × (corners ≤ most_corners) }
    ensures { result ≡ page_with (page.meshes + 1) (page.corners + corners) (page.borders + 2 * corners) page.refusals (values_from (λ j. max (get_or page.misses j 0) (get_or largest j 0)) 0 conditions) }
{
    let misses = larger_of(page.misses, largest);
    Page {
        meshes: page.meshes + 1,
        corners: page.corners + corners as u64,
        borders: page.borders + 2 * corners as u64,
        misses: misses,
        ..page
    }
}

// Sums and maxima of two pages.
fn sum_pages(page: Page, other: Page) -> Page
    requires { merge_verdict page other ≡ sound }
    ensures { result ≡ merged page other }
{
    let refusals = sums(page.refusals, other.refusals);
    let misses = larger_of(page.misses, other.misses);
    Page {
        meshes: page.meshes + other.meshes,
        corners: page.corners + other.corners,
        borders: page.borders + other.borders,
        refusals: refusals,
        misses: misses,
    }
}

// The refusals with one more under a number.
fn one_more(old: [u64; LINES], number: u8) -> [u64; LINES]
    requires { (l : ℕ) → get_or old l 0 ≤ most_on_page }
    ensures { result ≡ values_from (λ l. get_or old l 0 + pick_n (eqb (get_or line_numbers l 0) number) 1 0) 0 lines }
{
    array::from_fn(|l| old[l] + u64::from(LINE_NUMBERS[l] == number))
}

// The sums, line by line.
fn sums(a: [u64; LINES], b: [u64; LINES]) -> [u64; LINES]
    requires { (l : ℕ) → (get_or a l 0 ≤ most_on_page) × (get_or b l 0 ≤ most_on_page) }
    ensures { result ≡ values_from (λ l. get_or a l 0 + get_or b l 0) 0 lines }
{
    array::from_fn(|l| a[l] + b[l])
}

// The larger miss of each condition.
pub fn larger_of(a: [u64; CONDITIONS], b: [u64; CONDITIONS]) -> [u64; CONDITIONS]
    ensures { result ≡ values_from (λ j. max (get_or a j 0) (get_or b j 0)) 0 conditions }
{
    array::from_fn(|j| a[j].max(b[j]))
}
