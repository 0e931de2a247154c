// The header of a DMS file: its numbers, where the lists after it start, and what it says of the file: 1, 2, 3 and 4.
// What a file means is in paper/specs/File.antt.
ghost use Rattle.std.specs.Prelude.{◌≡◌, ◌+◌, ◌<◌, ◌≤◌, length};
ghost use Rattle.paper.specs.Faults.{stated};
ghost use Rattle.paper.specs.File.{half_at, header_length, marked, known, sharp, vertices_in, faces_in, corners_in, sides_start, corners_start, sharpness_start, sharpness_bytes, expected_length, counts_verdict, length_verdict, header_verdict};

use paper::Refusal;

// The header's length.
pub const HEADER: usize = 11;

// The 16-bit number at a place, low byte first.
pub(crate) fn half(file: &[u8], at: usize) -> u16
    requires { at + 1 < length file.now }
    ensures { (result ≡ half_at file.now at) × (result < 65536) }
{
    u16::from_le_bytes([file[at], file[at + 1]])
}

// Whether the file begins with the mark DMS.
fn has_mark(file: &[u8]) -> bool
    requires { header_length ≤ length file.now }
    ensures { result ≡ marked file.now }
{
    file.starts_with(b"DMS")
}

// Whether the version is one that is read.
fn has_version(file: &[u8]) -> bool
    requires { header_length ≤ length file.now }
    ensures { result ≡ known file.now }
{
    let version = half(file, 3);
    version == 1 || version == 2
}

// Whether it is the version that has a sharpness list.
pub fn is_sharp(file: &[u8]) -> bool
    requires { header_length ≤ length file.now }
    ensures { result ≡ sharp file.now }
{
    half(file, 3) == 2
}

// The header's counts of vertices, faces and corners.
pub fn vertex_count(file: &[u8]) -> usize
    requires { header_length ≤ length file.now }
    ensures { (result ≡ vertices_in file.now) × (result < 65536) }
{
    usize::from(half(file, 5))
}

pub fn face_count(file: &[u8]) -> usize
    requires { header_length ≤ length file.now }
    ensures { (result ≡ faces_in file.now) × (result < 65536) }
{
    usize::from(half(file, 7))
}

pub fn corner_count(file: &[u8]) -> usize
    requires { header_length ≤ length file.now }
    ensures { (result ≡ corners_in file.now) × (result < 65536) }
{
    usize::from(half(file, 9))
}

// Where the side counts start, where the corner list starts, and where the sharpness list starts in version 2.
pub(crate) fn sides_start(file: &[u8]) -> usize
    requires { header_length ≤ length file.now }
    ensures { (result ≡ sides_start file.now) × (result < 786443) }
{
    HEADER + 12 * vertex_count(file)
}

pub(crate) fn corners_start(file: &[u8]) -> usize
    requires { header_length ≤ length file.now }
    ensures { (result ≡ corners_start file.now) × (result < 851979) }
{
    sides_start(file) + face_count(file)
}

pub(crate) fn sharpness_start(file: &[u8]) -> usize
    requires { header_length ≤ length file.now }
    ensures { (result ≡ sharpness_start file.now) × (result < 983051) }
{
    corners_start(file) + 2 * corner_count(file)
}

// The bytes of the sharpness list, none in version 1.
fn sharpness_bytes(file: &[u8]) -> usize
    requires { header_length ≤ length file.now }
    ensures { (result ≡ sharpness_bytes file.now) × (result < 131072) }
{
    let count = 2 * corner_count(file);
    if is_sharp(file) { count } else { 0 }
}

// The length that 3 asks.
pub fn expected_length(file: &[u8]) -> usize
    requires { header_length ≤ length file.now }
    ensures { (result ≡ expected_length file.now) × (result < 1114123) }
{
    sharpness_start(file) + sharpness_bytes(file)
}

// Check 4, of the header's counts.
fn check_counts(file: &[u8]) -> Result<(), Refusal>
    requires { header_length ≤ length file.now }
    ensures { stated result ≡ counts_verdict file.now }
{
    list_checks::check_lengths(3 * vertex_count(file), face_count(file), corner_count(file))
}

// Checks 1, 2 and 3 of a file of `counted` bytes.
fn check_length(file: &[u8], counted: usize) -> Result<(), Refusal>
    ensures { stated result ≡ length_verdict file.now counted }
{
    if file.len() < HEADER {
        return Err(Refusal {
            number: 1,
            place: 0,
        });
    }
    if !has_mark(file) {
        return Err(Refusal {
            number: 1,
            place: 0,
        });
    }
    if !has_version(file) {
        return Err(Refusal {
            number: 2,
            place: 0,
        });
    }
    if counted != expected_length(file) {
        return Err(Refusal {
            number: 3,
            place: 0,
        });
    }
    Ok(())
}

// What the header says, of a file of `counted` bytes: 1, 2, 3, 4 from the counts, and last that all its bytes are held.
pub fn check_header(file: &[u8], counted: usize) -> Result<(), Refusal>
    ensures { stated result ≡ header_verdict file.now counted }
{
    check_length(file, counted)?;
    check_counts(file)?;
    if file.len() < counted {
        return Err(Refusal {
            number: 3,
            place: 0,
        });
    }
    Ok(())
}
