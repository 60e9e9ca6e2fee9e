// The writer of tree sheets for programs in C and Rust, as a library of its own beside `host`: it makes the engine's moves one by one, from
// its own recursion. In one library with the loop over moves the compiler no longer puts the moves into that loop, and a run takes eight times
// as long.
#![tactic(auto)]

ghost use Rattle.host_sheet_numbers.specs.SheetLent.{SheetLent};

// Writes the records of the segment's tree: the number is 0, the count is that of the moves, and the length that of the sheet. On a refusal
// the number is the refusal's, the count its tokens read or the table's offset, and value and length are 0; no byte of the sheet is written.
#[unsafe(no_mangle)]
pub extern "C" fn segment_sheet(
    table: &[u8],
    kinds: &[u8],
    values: &[i32],
    registers: usize,
    places: usize,
    sheet: &mut [u8],
    number: &mut u32,
    value: &mut i64,
    count: &mut u64,
    length: &mut u64,
)
    ensures { SheetLent table.now registers places kinds.now values.now sheet.old sheet.new number.new value.new count.new length.new }
{
    let answer = sheet::sheet(table, kinds, values, registers, places, sheet);
    host_sheet_numbers::lend(answer, number, value, count, length);
}
