#![tactic(auto)]
// A page of the border report as text: a line in words for each of its 21 numbers, and last the line `page` with the numbers themselves, which is read
// back. Numbers are decimal; misses are in ticks, with three decimals, halves up.
ghost use Rattle.std.specs.Prelude.{◌≡◌, ◌+◌, ◌*◌, ◌-◌, ◌≤◌, ◌<◌, length};
ghost use Rattle.streams.specs.text.Text.{Put};
ghost use Rattle.page_text.specs.Lines.{texts_below, named_line, refused_by_line, refusals_line, in_ticks, miss_line, condition_line};
ghost use Rattle.page_text.specs.Lines.{spaced, spaced_number, page_line, page_lines};
ghost use Rattle.page_text.specs.Reading.{PageRead, DigitsRead, SpacedRead};
ghost use Rattle.page_text.specs.Lines.{thousandths as Lines·thousandths, digit as Lines·digit};

use paper::{CONDITIONS, NUMBERS_ON_PAGE};
use streams::text::{put_byte, put_number, put_word};

// Where the refusals under 1 to 13, under 28 and the misses stand on a page.
const FIRST_REFUSALS: usize = 3;

const COUNTED: usize = 13;

const LAST_REFUSALS: usize = FIRST_REFUSALS + COUNTED;

const FIRST_MISSES: usize = LAST_REFUSALS + 1;

// Room for the 22 lines, of which the first 21 have at most 57 bytes each and the last one 446.
pub const ROOM: usize = 2048;

// What stands for one tick in a miss, and half of it.
const TICK: u64 = 1073741824;

const HALF: u64 = TICK / 2;

// The largest number to which a digit can be appended.
const MOST_BEFORE: u64 = 1844674407370955160;

// A number that was read, and where it ends.
#[derive(Clone, Copy)]
struct ReadNumber {
    value: u64,
    end: usize,
}

// The lines of a page, as far as the buffer reaches.
pub fn put_page(lines: &mut [u8], numbers: &[u64; NUMBERS_ON_PAGE]) -> usize
    ensures { Put lines.old 0 (page_lines numbers.now) lines.new result }
{
    let meshes = put_count(lines, 0, b"meshes offered: ", numbers[0]);
    let corners = put_count(lines, meshes, b"corners built: ", numbers[1]);
    let borders = put_count(lines, corners, b"borders met: ", numbers[2]);
    let refusals = put_refusals(lines, borders, numbers);
    let last = put_refused(lines, refusals, 28, numbers[LAST_REFUSALS]);
    let misses = put_misses(lines, last, numbers);
    put_numbers(lines, misses, numbers)
}

// A word, a number and a line feed.
fn put_count(lines: &mut [u8], at: usize, word: &[u8], n: u64) -> usize
    ensures { Put lines.old at (named_line word.now n) lines.new result }
{
    let name = put_word(lines, at, word);
    let end = put_number(lines, name, n);
    put_byte(lines, end, b'\n')
}

// The line of refusals under a number.
fn put_refused(lines: &mut [u8], at: usize, number: u64, n: u64) -> usize
    ensures { Put lines.old at (refused_by_line number n) lines.new result }
{
    let word = put_word(lines, at, b"refused by ");
    let name = put_number(lines, word, number);
    put_count(lines, name, b": ", n)
}

// The lines of refusals under 1 to 13.
fn put_refusals(lines: &mut [u8], from: usize, numbers: &[u64; NUMBERS_ON_PAGE]) -> usize
    ensures { Put lines.old from (texts_below (refusals_line numbers.now) 13) lines.new result }
{
    let mut at = from;
    for l in 0..COUNTED {
        at = put_refused(lines, at, (l + 1) as u64, numbers[FIRST_REFUSALS + l]);
    }
    at
}

// The line of a condition's largest miss.
fn put_miss(lines: &mut [u8], at: usize, condition: u64, miss: u64) -> usize
    ensures { Put lines.old at (miss_line condition miss) lines.new result }
{
    let word = put_word(lines, at, b"largest miss of condition ");
    let name = put_number(lines, word, condition);
    let colon = put_word(lines, name, b": ");
    let ticks = put_ticks(lines, colon, miss);
    put_word(lines, ticks, b" of 13 ticks\n")
}

// The lines of all misses.
fn put_misses(lines: &mut [u8], from: usize, numbers: &[u64; NUMBERS_ON_PAGE]) -> usize
    ensures { Put lines.old from (texts_below (condition_line numbers.now) 4) lines.new result }
{
    let mut at = from;
    for j in 0..CONDITIONS {
        at = put_miss(lines, at, (j + 1) as u64, numbers[FIRST_MISSES + j]);
    }
    at
}

// A miss in thousandths of a tick, halves up.
fn thousandths(miss: u64) -> u64
    ensures { result ≡ Lines·thousandths miss }
{
    1000 * (miss / TICK) + (1000 * (miss % TICK) + HALF) / TICK
}

// A miss in ticks, with three decimals.
fn put_ticks(lines: &mut [u8], at: usize, miss: u64) -> usize
    ensures { Put lines.old at (in_ticks (Lines·thousandths miss)) lines.new result }
{
    let n = thousandths(miss);
    let whole = put_number(lines, at, n / 1000);
    let point = put_byte(lines, whole, b'.');
    let first = put_digit(lines, point, n / 100 % 10);
    let second = put_digit(lines, first, n / 10 % 10);
    put_digit(lines, second, n % 10)
}

fn put_digit(lines: &mut [u8], at: usize, digit: u64) -> usize
    requires { digit < 10 }
    ensures { Put lines.old at (Lines·digit digit) lines.new result }
{
    put_byte(lines, at, b'0' + digit as u8)
}

// The line `page`.
fn put_numbers(lines: &mut [u8], at: usize, numbers: &[u64; NUMBERS_ON_PAGE]) -> usize
    ensures { Put lines.old at (page_line numbers.now) lines.new result }
{
    let word = put_word(lines, at, b"page");
    let end = put_all(lines, word, numbers);
    put_byte(lines, end, b'\n')
}

// All numbers, a space before each.
fn put_all(lines: &mut [u8], from: usize, numbers: &[u64; NUMBERS_ON_PAGE]) -> usize
    ensures { Put lines.old from (texts_below (spaced_number numbers.now) 21) lines.new result }
{
    let mut at = from;
    for n in numbers {
        at = put_spaced(lines, at, *n);
    }
    at
}

fn put_spaced(lines: &mut [u8], at: usize, n: u64) -> usize
    ensures { Put lines.old at (spaced n) lines.new result }
{
    let space = put_byte(lines, at, b' ');
    put_number(lines, space, n)
}

// The numbers of a line that begins with `page`, if they are its 21 and nothing else follows. The line feed is not part of it. The line that `put_page`
// writes is read back as its numbers (`reads_back` in proofs/Returns.antt).
pub fn read_numbers(line: &[u8]) -> Option<[u64; NUMBERS_ON_PAGE]>
    ensures { PageRead line.now result }
{
    let mut numbers = [0u64; NUMBERS_ON_PAGE];
    let mut at = 4;
    for number in &mut numbers {
        let read = read_number(line, at)?;
        *number = read.value;
        at = read.end;
    }
    (at == line.len()).then_some(numbers)
}

// A space, and the number after it.
fn read_number(line: &[u8], at: usize) -> Option<ReadNumber>
    ensures { SpacedRead line.now at result }
{
    if line.len() <= at || line[at] != b' ' {
        return None;
    }
    let start = at + 1;
    let read = read_digits(line, start)?;
    if read.end == start { None } else { Some(read) }
}

// The number that the digits from a place on make. None where it is above the largest that is read.
fn read_digits(line: &[u8], from: usize) -> Option<ReadNumber>
    requires { from ≤ length line.now }
    ensures { DigitsRead line.now from result }
{
    let mut value: u64 = 0;
    for at in from..line.len() {
        let byte = line[at];
        if !byte.is_ascii_digit() {
            return Some(ReadNumber { value, end: at });
        }
        if MOST_BEFORE < value {
            return None;
        }
        value = appended(value, byte);
    }
    Some(ReadNumber {
        value,
        end: line.len(),
    })
}

// A number with one digit more.
fn appended(value: u64, digit: u8) -> u64
    requires { (value ≤ 1844674407370955160) × (48 ≤ digit) × (digit ≤ 57) }
    ensures { result ≡ 10 * value + (digit - 48) }
{
    10 * value + u64::from(digit - b'0')
}
