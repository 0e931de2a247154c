// The formulas of a quad-net over plain numbers, each with its one rounding. One function serves four sides and three axes. The sums keep to
// 32 bits, so that four of them are formed at once where their numbers stand side by side.
ghost use Rattle.std.specs.Prelude.{◌≡◌, ◌*◌, pos, ◌+ℤ◌, ◌-ℤ◌, ◌*ℤ◌};
ghost use Rattle.paper.specs.Numbers.{round};
ghost use Rattle.paper.specs.Cosines.{unit};
ghost use Rattle.surface.specs.Sizes.{RefinedSize, FaceSize, ValueSize, WrittenSize, CosineSize};

use numbers::rounding::{round_eighth, round_small};

// The centre of a four-sided refined face.
pub fn mean(a: i32, b: i32, c: i32, d: i32) -> i32
    requires { RefinedSize a × RefinedSize b × RefinedSize c × RefinedSize d }
    ensures { (result ≡ round (a +ℤ b +ℤ c +ℤ d) (pos 4)) × RefinedSize result }
{
    round_small(a + b + c + d, 4)
}

// The point of a four-sided refined face towards its side from a to b: the weights 5/12, 5/12, 1/12, 1/12.
pub fn toward(a: i32, b: i32, c: i32, d: i32) -> i32
    requires { RefinedSize a × RefinedSize b × RefinedSize c × RefinedSize d }
    ensures { (result ≡ round (pos 5 *ℤ a +ℤ pos 5 *ℤ b +ℤ c +ℤ d) (pos 12)) × RefinedSize result }
{
    round_small(5 * (a + b) + c + d, 12)
}

// The centre of a three-sided refined face.
pub(crate) fn mean_of_three(a: i32, b: i32, c: i32) -> i32
    requires { RefinedSize a × RefinedSize b × RefinedSize c }
    ensures { (result ≡ round (a +ℤ b +ℤ c) (pos 3)) × RefinedSize result }
{
    round_small(a + b + c, 3)
}

// The point of a three-sided refined face towards its side from a to b: the weights 4/9, 4/9, 1/9.
pub(crate) fn toward_of_three(a: i32, b: i32, c: i32) -> i32
    requires { RefinedSize a × RefinedSize b × RefinedSize c }
    ensures { (result ≡ round (pos 4 *ℤ a +ℤ pos 4 *ℤ b +ℤ c) (pos 9)) × RefinedSize result }
{
    round_small(4 * (a + b) + c, 9)
}

// Half the sum of two points.
pub fn half(a: i32, b: i32) -> i32
    requires { WrittenSize a × WrittenSize b }
    ensures { (result ≡ round (a +ℤ b) (pos 2)) × WrittenSize result }
{
    round_small(a + b, 2)
}

// The second point of an outer row from its head, and the fourth from its tail.
pub fn quarter(e: i32, x: i32) -> i32
    requires { ValueSize e × ValueSize x }
    ensures { (result ≡ round (e +ℤ pos 3 *ℤ x) (pos 4)) × WrittenSize result }
{
    round_small(e + 3 * x, 4)
}

// The inner point N of a side; v is the refined point, w the neighbour's.
pub fn inner(x: i32, y: i32, v: i32, w: i32) -> i32
    requires { FaceSize x × FaceSize y × RefinedSize v × RefinedSize w }
    ensures { (result ≡ round (pos 3 *ℤ x +ℤ pos 3 *ℤ y +ℤ v -ℤ w) (pos 6)) × ValueSize result }
{
    round_small(3 * (x + y) + v - w, 6)
}

// The second point of an a row; s is X of the other side at the head.
pub fn second(c: i64, h: i32, x: i32, y: i32, s: i32, n: i32) -> i32
    requires { CosineSize c × ValueSize h × ValueSize x × ValueSize y × ValueSize s × ValueSize n }
    ensures { (result ≡ round (c *ℤ h +ℤ pos 3 *ℤ (pos unit -ℤ c) *ℤ x +ℤ pos 2 *ℤ c *ℤ y +ℤ pos unit *ℤ s +ℤ pos (4 * unit) *ℤ n) (pos (8 * unit))) × WrittenSize result }
{
    round_eighth(c, h - 3 * x + 2 * y, 3 * x + s + 4 * n)
}

// The third point of an a row; c is the head's too, s is Y of the other side at the tail.
pub fn third(c: i64, t: i32, y: i32, s: i32, n: i32) -> i32
    requires { CosineSize c × ValueSize t × ValueSize y × ValueSize s × ValueSize n }
    ensures { (result ≡ round ((pos (3 * unit) -ℤ c) *ℤ y +ℤ c *ℤ t +ℤ pos (4 * unit) *ℤ n +ℤ pos unit *ℤ s) (pos (8 * unit))) × WrittenSize result }
{
    round_eighth(c, t - y, 3 * y + s + 4 * n)
}

// The middle of the row next to an outer row: n is N of the side, o of the opposite one, g and l of the adjoining ones; x and y
// are X* and Y*.
pub fn middle(n: i32, o: i32, g: i32, l: i32, x: i32, y: i32, h: i32, t: i32) -> i32
    requires { ValueSize n × ValueSize o × ValueSize g × ValueSize l × ValueSize x × ValueSize y × ValueSize h × ValueSize t }
    ensures { (result ≡ round (pos 14 *ℤ n +ℤ pos 2 *ℤ (o -ℤ g -ℤ l) +ℤ pos 3 *ℤ (x +ℤ y) -ℤ h -ℤ t) (pos 16)) × WrittenSize result }
{
    let along = x + y + 4 * n;
    let across = n + o - (g + l);
    round_small(3 * along + 2 * across - (h + t), 16)
}
