// Lists of four-byte numbers, low byte first, as the programs read and write them.
ghost use Rattle.std.specs.Prelude.{◌≡◌, ◌*◌, ◌≤◌, length};
ghost use Rattle.paper.specs.Scan.{values_from};
ghost use Rattle.rearrange.specs.four_bytes.Words.{number_in, NumbersStored};

// The longest list that a program takes: 131,072 vertices, 1.5 MiB.
pub const LONGEST_LIST: usize = 393216;

pub const LONGEST_BYTES: usize = 1572864;

// The numbers at the beginning of the bytes, as many as there is room for.
pub fn read_numbers(bytes: &[u8], numbers: &mut [i32])
    requires { 4 * length numbers.old ≤ length bytes.now }
    ensures { numbers.new ≡ values_from (number_in bytes.now) 0 (length numbers.old) }
{
    for i in 0..numbers.len() {
        numbers[i] = dms_lists::lists::coordinate(bytes, 4 * i);
    }
}

// The bytes of the numbers.
pub fn write_numbers(numbers: &[i32], bytes: &mut [u8])
    requires { length bytes.old ≡ 4 * length numbers.now }
    ensures { NumbersStored numbers.now (length numbers.now) bytes.new }
{
    for (i, number) in numbers.iter().enumerate() {
        bytes[4 * i..4 * i + 4].copy_from_slice(&number.to_le_bytes());
    }
}
