#![tactic(auto)]
// 01's walk: "A walk moves from a corner to the next one, the previous one or the linked one." Here it is a walker by value whose methods return the moved
// walker. It steps by the table of corners, which has a row for each corner: its next, previous and linked corner, the sides of its face and the corners of
// its vertex.
ghost use Rattle.std.specs.Prelude.{◌≡◌, List, ℕ, ◌+◌, ◌*◌, ◌<◌, length};
ghost use Rattle.paper.specs.Corners.{sum_of, first_of, previous};
ghost use Rattle.walk.specs.Table.{row_length, to_next, to_previous, to_link, sides_here, valence_here, entry, Column, Led};

// The numbers in a row, and where each stands.
pub const ROW: usize = 5;

pub const NEXT: usize = 0;

pub const PREVIOUS: usize = 1;

pub const LINK: usize = 2;

pub const SIDES: usize = 3;

pub const VALENCE: usize = 4;

// A walker stands at a corner.
#[derive(Clone, Copy)]
pub struct Walker {
    pub corner: usize,
}

impl Walker {
    // To the next corner of the face.
    pub fn next(self, table: &[u16]) -> Walker
        requires { row_length * self.corner + to_next < length table.now }
        ensures { Led table.now to_next (λ K. K.next) self.corner result.corner }
    {
        let to = read(table, self.corner, NEXT);
        Walker { corner: to }
    }

    // To the previous corner of the face.
    pub fn previous(self, table: &[u16]) -> Walker
        requires { row_length * self.corner + to_previous < length table.now }
        ensures { Led table.now to_previous (λ K. K.previous) self.corner result.corner }
    {
        let to = read(table, self.corner, PREVIOUS);
        Walker { corner: to }
    }

    // To the linked corner of the vertex.
    pub fn linked(self, table: &[u16]) -> Walker
        requires { row_length * self.corner + to_link < length table.now }
        ensures { Led table.now to_link (λ K. K.link) self.corner result.corner }
    {
        let to = read(table, self.corner, LINK);
        Walker { corner: to }
    }

    // To the corner that a column has for this one: round a face by its next corners, round a vertex by its links.
    pub fn by(self, table: &[u16], column: usize) -> Walker
        requires { row_length * self.corner + column < length table.now }
        ensures { result.corner ≡ entry table.now column self.corner }
    {
        let to = read(table, self.corner, column);
        Walker { corner: to }
    }

    // How many sides the face of the corner has.
    pub fn sides(self, table: &[u16]) -> usize
        requires { row_length * self.corner + sides_here < length table.now }
        ensures { Led table.now sides_here (λ K. K.sides) self.corner result }
    {
        read(table, self.corner, SIDES)
    }

    // How many corners the vertex of the corner has.
    pub fn valence(self, table: &[u16]) -> usize
        requires { row_length * self.corner + valence_here < length table.now }
        ensures { Led table.now valence_here (λ K. K.valence) self.corner result }
    {
        read(table, self.corner, VALENCE)
    }
}

// What stands in a column for a corner.
fn read(table: &[u16], corner: usize, column: usize) -> usize
    requires { row_length * corner + column < length table.now }
    ensures { result ≡ entry table.now column corner }
{
    table[ROW * corner + column] as usize
}

// The first corner of a corner's face. Corners of a face follow each other, so only there the previous corner is not lower.
pub fn face_start(table: &[u16], c: usize) -> usize
    requires { row_length * c + to_previous < length table.now }
    ensures { (sides : List ℕ) → Column table.now to_previous (previous sides) (sum_of sides) → c < sum_of sides → result ≡ first_of sides c }
{
    let mut d = c;
    loop {
        let here = Walker { corner: d };
        let back = here.previous(table);
        let e = back.corner;
        if d <= e {
            return d;
        }
        d = e;
    }
}
