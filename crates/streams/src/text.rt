// Text in a lent buffer: each function puts its text at a place, as far as the buffer reaches, and answers where it stopped.
ghost use Rattle.std.specs.Prelude.{◌≡◌, [], ◌∷◌, ◌++◌};
ghost use Rattle.streams.specs.text.Text.{decimal, signed_decimal, Put};

// One byte.
pub fn put_byte(buffer: &mut [u8], at: usize, byte: u8) -> usize
    ensures { Put buffer.old at (byte ∷ []) buffer.new result }
{
    if at < buffer.len() {
        buffer[at] = byte;
        return at + 1;
    }
    at
}

// The bytes of a word.
pub fn put_word(buffer: &mut [u8], at: usize, word: &[u8]) -> usize
    ensures { Put buffer.old at word.now buffer.new result }
{
    let mut to = at;
    for byte in word {
        to = put_byte(buffer, to, *byte);
    }
    to
}

// A number in decimal.
pub fn put_number(buffer: &mut [u8], at: usize, n: u64) -> usize
    ensures { Put buffer.old at (decimal n) buffer.new result }
{
    let mut digits = [0u8; 20];
    let k = io::decimal(n, &mut digits);
    put_word(buffer, at, &digits[..k])
}

// A signed number in decimal.
pub(crate) fn put_signed(buffer: &mut [u8], at: usize, z: i32) -> usize
    ensures { Put buffer.old at (signed_decimal z) buffer.new result }
{
    let size = u64::from(z.unsigned_abs());
    if z < 0 {
        let to = put_byte(buffer, at, b'-');
        return put_number(buffer, to, size);
    }
    put_number(buffer, at, size)
}

// A signed number, and the byte that ends it.
pub fn put_entry(buffer: &mut [u8], at: usize, z: i32, last: u8) -> usize
    ensures { Put buffer.old at (signed_decimal z ++ (last ∷ [])) buffer.new result }
{
    let to = put_signed(buffer, at, z);
    put_byte(buffer, to, last)
}
