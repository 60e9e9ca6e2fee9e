// Sheets from other tools.
ghost use Rattle.host_answers.specs.judged.JudgeLent.{JudgedLent};

// The value of a sheet that describes the segment's tree; number and offset are then 0. On a refusal these are the refusal's (38 or 43
// with 0, or the table's), and the value is 0.
#[unsafe(no_mangle)]
pub extern "C" fn segment_judge(
    table: &[u8],
    kinds: &[u8],
    values: &[i32],
    sheet: &[u8],
    number: &mut u32,
    value: &mut i64,
    offset: &mut u32,
)
    ensures { JudgedLent table.now kinds.now values.now sheet.now number.new value.new offset.new }
{
    let judged = judge::judge(table, kinds, values, sheet);
    host_answers::judged::lend(judged, number, value, offset);
}
