// The values that a sheet's records and a segment's tokens give to the occurrences of a production.
ghost use Rattle.std.specs.Prelude.{◌≡◌, ◌<◌, ◌≤◌, true, pos, slice_index_or};
ghost use Rattle.meaning.specs.Value.{in_range};
ghost use Rattle.theory_judge.specs.Marks.{read_mark, read_at};
ghost use Rattle.theory_judge.specs.Holding.{occurrence_here};

use crate::numbers::value_in;

// A signed 32-bit number is a value.
fn widen(v: i32) -> i64
    ensures { (result ≡ v) × (in_range result ≡ true) }
{
    i64::from(v)
}

// 0 past the end.
pub fn token_value(values: &[i32], i: usize) -> i64
    ensures { (result ≡ slice_index_or values.now i (pos 0)) × (in_range result ≡ true) }
{
    widen(values.get(i).copied().unwrap_or(0))
}

// An attribute of the record at a mark in the sheet; behind the sheet a mark is that of a token, whose one value this is.
pub fn read_mark(sheet: &[u8], values: &[i32], mark: usize, attribute: usize) -> i64
    requires { attribute < 256 }
    ensures { (result ≡ read_mark sheet.now values.now mark attribute) × (in_range result ≡ true) }
{
    let length = sheet.len();
    if mark < length {
        value_in(sheet, mark + 4 + 8 * attribute)
    } else {
        token_value(values, mark - length)
    }
}

// The value of the occurrence at a place of a field.
pub fn occurrence(field: &[u8], at: usize, sheet: &[u8], values: &[i32], marks: &[usize]) -> i64
    requires { at ≤ 16 }
    ensures { (result ≡ occurrence_here (read_at sheet.now values.now marks.now) field.now at) × (in_range result ≡ true) }
{
    let position = value::byte_at(field, at) as usize;
    let attribute = value::byte_at(field, at + 1) as usize;
    let mark = marks.get(position).copied().unwrap_or(0);
    read_mark(sheet, values, mark, attribute)
}
