#![tactic(auto)]
// The border report over a run of mesh files, whose names are the arguments, or with none the lines of standard input: the page in words on standard
// output, and last the line `page` with its numbers. `report merge` makes one page of all such lines on standard input. A file that cannot be opened or
// read is named on standard error and not counted. A refusal goes there too, and leaves standard output empty.
ghost use Rattle.std.specs.Prelude.{◌≤◌, ◌<◌, length};

use line_input::{LineError, next_line};
use lines::complain_refusal;
use paper::{NUMBERS_ON_PAGE, Page, RefusedPage};
use print::file_input::{BUFFER, read_file};
use std::fs::File;
use std::io::IsTerminal;
use streams::arguments;
use streams::input::open;
use streams::output::{complain, complain_up_to, fail, say_up_to};
use streams::text::{put_number, put_word};

// Room for a path.
const PATH: usize = 4096;

// Room for a line of standard input, a name of at most 4,095 bytes or a page.
const LINE: usize = 8192;

// The most lines of standard input: more than there are.
const MOST_LINES: u64 = 4294967296;

// The run ends without a page. Why was said on standard error.
#[derive(Clone, Copy)]
struct Ended;

impl From<LineError> for Ended {
    fn from(_error: LineError) -> Ended {
        Ended
    }
}

fn main(rt: HostRuntime) {
    let mut page = page_numbers::read(&[0; NUMBERS_ON_PAGE]);
    if fill_page(rt, &mut page).is_ok() {
        say_page(rt, page);
    }
}

// Writes the page to standard output, in one write.
fn say_page(rt: HostRuntime, page: Page) {
    let mut lines = [0u8; page_text::ROOM];
    let numbers = page_numbers::numbers(page);
    let end = page_text::put_page(&mut lines, &numbers);
    say_up_to(rt, &lines, end);
}

// The page that the arguments ask, from the all-zero one.
fn fill_page(rt: HostRuntime, page: &mut Page) -> Result<(), Ended> {
    let shown = rt.stderr().is_terminal();
    let count = arguments::count(rt);
    let merging = asks_merge(rt);
    if 1 < count && !merging {
        return offer_arguments(rt, count, page, shown);
    }
    if 2 < count {
        complain(rt, b"usage: report [FILE ..], or report merge\n");
        return Err(Ended);
    }
    read_lines(rt, page, merging, shown)
}

// Whether the first argument is the word merge.
fn asks_merge(rt: HostRuntime) -> bool {
    let mut word = [0u8; 6];
    match arguments::get(rt, 1, &mut word) {
        Ok(held) => held == 5 && word.starts_with(b"merge"),
        Err(_) => false,
    }
}

// Offers the files that the arguments name.
fn offer_arguments(
    rt: HostRuntime,
    count: usize,
    page: &mut Page,
    shown: bool,
) -> Result<(), Ended> {
    for i in 1..count {
        offer_argument(rt, i, page, shown)?;
    }
    Ok(())
}

// Offers the file that an argument names.
fn offer_argument(rt: HostRuntime, i: usize, page: &mut Page, shown: bool) -> Result<(), Ended> {
    let mut name = [0u8; PATH];
    match arguments::get(rt, i, &mut name) {
        Ok(held) => offer_file(rt, &name[..held], page, shown),
        Err(error) => {
            fail(rt, b"argument", error);
            Ok(())
        }
    }
}

// Offers a file, if it can be opened, and shows how many there were.
fn offer_file(rt: HostRuntime, name: &[u8], page: &mut Page, shown: bool) -> Result<(), Ended> {
    let Some(mut file) = open(rt, name) else {
        return Ok(());
    };
    let offered = offer_open(rt, &mut file, name, page);
    drop(file);
    if shown {
        show(rt, page.meshes);
    }
    offered
}

// Offers an open file, if it can be read.
fn offer_open(rt: HostRuntime, file: &mut File, name: &[u8], page: &mut Page) -> Result<(), Ended> {
    let mut bytes = [0u8; BUFFER];
    match read_file(rt, file, name, &mut bytes) {
        Ok(read) => offer(rt, &bytes[..read.held], read.counted, page),
        Err(_) => Ok(()),
    }
}

// Offers the bytes of a file to the page.
fn offer(rt: HostRuntime, bytes: &[u8], counted: usize, page: &mut Page) -> Result<(), Ended> {
    let reported = border_report::report(bytes, counted, *page);
    take_page(rt, reported, page)
}

// The next page, or the line of a refusal.
fn take_page(
    rt: HostRuntime,
    reported: Result<Page, RefusedPage>,
    page: &mut Page,
) -> Result<(), Ended> {
    match reported {
        Ok(next) => {
            *page = next;
            Ok(())
        }
        Err(RefusedPage { refusal, .. }) => {
            complain_refusal(rt, refusal.number, refusal.place);
            Err(Ended)
        }
    }
}

// How many meshes were offered; what is written next begins in the same place.
fn show(rt: HostRuntime, meshes: u64) {
    let mut line = [0u8; 64];
    let number = put_number(&mut line, 0, meshes);
    let end = put_word(&mut line, number, b" meshes\r");
    complain_up_to(rt, &line, end);
}

// Reads the lines of standard input, with room for one.
fn read_lines(rt: HostRuntime, page: &mut Page, merging: bool, shown: bool) -> Result<(), Ended> {
    let mut buffer = [0u8; LINE];
    take_lines(rt, &mut buffer, page, merging, shown)
}

// Takes one line after the other.
fn take_lines(
    rt: HostRuntime,
    buffer: &mut [u8],
    page: &mut Page,
    merging: bool,
    shown: bool,
) -> Result<(), Ended> {
    let mut held = line_input::nothing();
    for i in 0..MOST_LINES {
        let next = next_line(rt, &mut rt.stdin(), b"standard input", buffer, held)?;
        let Some(line) = next else {
            return Ok(());
        };
        take_line(
            rt,
            &buffer[line.start..line.end],
            i + 1,
            page,
            merging,
            shown,
        )?;
        held = line.held;
    }
    Err(Ended)
}

// Takes one line, the one with this number: a name, or where pages are merged perhaps a page. A line of no bytes is no name.
fn take_line(
    rt: HostRuntime,
    line: &[u8],
    i: u64,
    page: &mut Page,
    merging: bool,
    shown: bool,
) -> Result<(), Ended> {
    if merging {
        return merge_line(rt, line, i, page);
    }
    if line.is_empty() {
        return Ok(());
    }
    offer_file(rt, line, page, shown)
}

// Merges the page of a line, if it begins with the word.
fn merge_line(rt: HostRuntime, line: &[u8], i: u64, page: &mut Page) -> Result<(), Ended> {
    if !line.starts_with(b"page ") {
        return Ok(());
    }
    let Some(others) = page_text::read_numbers(line) else {
        complain_line(rt, i);
        return Err(Ended);
    };
    let merged = pages::merge(*page, page_numbers::read(&others));
    take_page(rt, merged, page)
}

// A line that begins as a page does and is none.
fn complain_line(rt: HostRuntime, i: u64) {
    let mut line = [0u8; 96];
    let word = put_word(&mut line, 0, b"standard input: line ");
    let number = put_number(&mut line, word, i);
    let end = put_word(&mut line, number, b" is no page: `page` and 21 numbers\n");
    complain_up_to(rt, &line, end);
}
