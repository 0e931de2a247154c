#![tactic(auto)]
// Files as the programs read them, a mesh of such a file, and what `inspect` does with a file.
pub mod file_input;
pub mod mesh_input;

ghost use Rattle.std.specs.Prelude.{take};
ghost use Rattle.io.specs.Counts.{IsPrefixLen};
ghost use Rattle.paper.specs.File.{file_of};
ghost use Rattle.print.specs.Files.{Printed};

use crate::file_input::{BUFFER, read_file};
use lines::{ANSWER, complain_refusal};
use paper::{Counts, Refusal};
use std::io::Read;
use streams::output;

// What is printed of a file: where its lines end, and what they say.
#[derive(Drop)]
pub(crate) struct FileLines {
    pub end: usize,
    pub summary: Result<Counts, Refusal>,
}

// The lines that say what `dms::survey` answers, of the bytes read and the length counted.
pub(crate) fn report(bytes: &[u8], counted: usize, lines: &mut [u8; ANSWER]) -> FileLines
    ensures prefix_len { IsPrefixLen result.end lines.new }
    ensures printed { Printed (file_of bytes.now counted) counted result.summary (take result.end lines.new) }
{
    let summary = dms::survey(bytes, counted);
    let end = lines::put_summary(lines, summary);
    FileLines { end, summary }
}

// Reads the file that a reader gives and prints its lines, or on standard error why it could not be read. A refusal is said there in words too.
pub fn inspect<R: Read>(rt: HostRuntime, from: &mut R, name: &[u8]) {
    let mut buffer = [0u8; BUFFER];
    if let Ok(read) = read_file(rt, from, name, &mut buffer) {
        print_report(rt, &buffer[..read.held], read.counted);
    }
}

// Prints the lines of a file.
fn print_report(rt: HostRuntime, bytes: &[u8], counted: usize) {
    let mut lines = [0u8; ANSWER];
    let printed = report(bytes, counted, &mut lines);
    output::say(rt, &lines[..printed.end]);
    if let Err(refusal) = printed.summary {
        complain_refusal(rt, refusal.number, refusal.place);
    }
}
