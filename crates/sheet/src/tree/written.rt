// The bytes of a sheet's records, written over a buffer; what lies past its end is left out.
ghost use Rattle.std.specs.Prelude.{◌+◌, ◌*◌, ◌≤◌, ◌<◌, ◌≡◌, length, set, take, drop};
ghost use Rattle.meaning.specs.Limits.{registers_limit, attributes_limit};
ghost use Rattle.meaning.specs.Layout.{four_bytes};
ghost use Rattle.meaning_sheet.specs.Sheet.{eight_bytes, value_bytes};
ghost use Rattle.theory_sheet.specs.Overlay.{overlay};
ghost use Rattle.run_registers.specs.Stack.{stack};

// ---- numbers

// Kept: no `get_mut`, since std's clause for it says nothing of what the slice ends as.
fn put(sheet: &mut [u8], at: usize, byte: u8)
    ensures { sheet.new ≡ set sheet.old at byte }
{
    if at < sheet.len() {
        sheet[at] = byte;
    }
}

// Some bytes, one after the other.
fn put_bytes(sheet: &mut [u8], at: usize, bytes: &[u8])
    requires { (at < 1000000000000) × (length bytes.now ≤ 8) }
    ensures { sheet.new ≡ overlay at bytes.now sheet.old }
{
    for (i, byte) in bytes.iter().enumerate() {
        put(sheet, at + i, *byte);
    }
}

// The last four bytes of a number, big-endian.
pub fn put_four(sheet: &mut [u8], at: usize, n: u64)
    requires { at < 1000000000000 }
    ensures { sheet.new ≡ overlay at (four_bytes n) sheet.old }
{
    put_bytes(sheet, at, &n.to_be_bytes()[4..]);
}

// The eight bytes of a value in two's complement, big-endian.
fn put_eight(sheet: &mut [u8], at: usize, value: i64)
    requires { at < 990000000000 }
    ensures { sheet.new ≡ overlay at (eight_bytes value) sheet.old }
{
    put_bytes(sheet, at, &value.to_be_bytes());
}

// The values of `count` registers below the top `above`, the highest first.
pub fn put_values(
    sheet: &mut [u8],
    at: usize,
    registers: &[i64],
    height: usize,
    above: usize,
    count: usize,
)
    requires { (at < 900000000000) × (height ≤ length registers.now) × (above + count ≤ height) × (height ≤ registers_limit) × (count ≤ attributes_limit) }
    ensures { sheet.new ≡ overlay at (value_bytes (take count (drop above (stack height registers.now)))) sheet.old }
{
    for i in 0..count {
        let value = run_registers::read(registers, height, (above + i + 1) as u32);
        put_eight(sheet, at + 8 * i, value);
    }
}
