// Whether the rules and conditions of a production hold of the values that a sheet and a segment give to its occurrences.
ghost use Rattle.std.specs.Prelude.{◌≡◌, true};
ghost use Rattle.meaning.specs.Value.{in_range};
ghost use Rattle.meaning.specs.Table.{constant_at};
ghost use Rattle.program_block_words.specs.Fields.{Listed};
ghost use Rattle.theory_judge.specs.Marks.{read_at};
ghost use Rattle.theory_judge.specs.Holding.{first_here, second_here, rule_here, added_here, condition_here, field_true, listed_true};

use crate::marks::occurrence;

// ---- rules

fn first(field: &[u8], function: u32, sheet: &[u8], values: &[i32], marks: &[usize]) -> i64
    ensures { (result ≡ first_here (read_at sheet.now values.now marks.now) field.now function) × (in_range result ≡ true) }
{
    if function == 0 {
        constant_in(field, 6)
    } else {
        occurrence(field, 6, sheet, values, marks)
    }
}

fn second(field: &[u8], function: u32, sheet: &[u8], values: &[i32], marks: &[usize]) -> i64
    ensures { (result ≡ second_here (read_at sheet.now values.now marks.now) field.now function) × (in_range result ≡ true) }
{
    if function < 7 {
        occurrence(field, 8, sheet, values, marks)
    } else {
        constant_in(field, 8)
    }
}

// A constant is a value.
fn constant_in(field: &[u8], at: usize) -> i64
    ensures { (result ≡ constant_at field.now at) × (in_range result ≡ true) }
{
    value::constant(value::word_at(field, at))
}

// Whether the occurrence that the rule sets has the value that its function gives.
fn rule_holds(field: &[u8], sheet: &[u8], values: &[i32], marks: &[usize]) -> bool
    ensures { result ≡ rule_here (read_at sheet.now values.now marks.now) field.now }
{
    let function = value::byte_at(field, 5);
    let a = first(field, function, sheet, values, marks);
    let b = second(field, function, sheet, values, marks);
    let c = value_functions::compute(function, a, b);
    let target = occurrence(field, 3, sheet, values, marks);
    value::in_bounds(target, c, c)
}

// ---- conditions

// The constant of a comparison: kind 1 has none.
fn added(field: &[u8]) -> i64
    ensures { (result ≡ added_here field.now) × (in_range result ≡ true) }
{
    if value::byte_at(field, 3) == 1 {
        0
    } else {
        constant_in(field, 8)
    }
}

fn condition_holds(field: &[u8], sheet: &[u8], values: &[i32], marks: &[usize]) -> bool
    ensures { result ≡ condition_here (read_at sheet.now values.now marks.now) field.now }
{
    let a = occurrence(field, 4, sheet, values, marks);
    if value::byte_at(field, 3) == 0 {
        let low = value::constant_at(field, 6);
        let high = value::constant_at(field, 10);
        return value::in_bounds(a, low, high);
    }
    let b = occurrence(field, 6, sheet, values, marks);
    value::at_most_plus(a, b, added(field))
}

// ---- fields

fn field_holds(field: &[u8], sheet: &[u8], values: &[i32], marks: &[usize]) -> bool
    ensures { result ≡ field_true (read_at sheet.now values.now marks.now) field.now }
{
    if value::byte_at(field, 0) == 4 {
        rule_holds(field, sheet, values, marks)
    } else {
        condition_holds(field, sheet, values, marks)
    }
}

// Whether all rules and conditions of a production hold of the values that the marks show.
pub fn fields_hold(fields: &[u8], sheet: &[u8], values: &[i32], marks: &[usize]) -> bool
    requires { Listed fields.now }
    ensures { (x : Listed fields.now) → result ≡ listed_true (read_at sheet.now values.now marks.now) x }
{
    // Kept: a `while`, since each field's own length says where the next one begins.
    let mut at = 0;
    while at < fields.len() {
        let field = &fields[at..];
        if !field_holds(field, sheet, values, marks) {
            return false;
        }
        at = at + 3 + value::byte_at(field, 2) as usize;
    }
    true
}
