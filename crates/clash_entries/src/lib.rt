// The matrix of differences with the entry conditions of a production: one pass over its fields.
#![tactic(auto)]

ghost use Rattle.std.specs.Prelude.{◌≡◌, ◌<◌, ◌≤◌, true, T, length, unsigned_abs};
ghost use Rattle.meaning.specs.Limits.{attributes_limit};
ghost use Rattle.meaning.specs.Grammar.{Production};
ghost use Rattle.meaning.specs.Table.{constant_at};
ghost use Rattle.meaning.specs.Value.{added};
ghost use Rattle.meaning.specs.Differences.{constrained};
ghost use Rattle.theory_differences.specs.Closing.{Small};
ghost use Rattle.theory_differences.specs.Decided.{limit};
ghost use Rattle.theory_sets.specs.Intervals.{entry};
ghost use Rattle.clash_entries.specs.conditions.EntryConditions.{entry_here, condition_here, offset_here, after_field, Stretch};
ghost use Rattle.clash_entries.specs.conditions.Walk.{after_all};

use crate::conditions::entry::{field_size, is_entry};

pub mod conditions;

// A bound or constant in a field.
fn bound_at(field: &[u8], at: usize) -> i64
    ensures { (result ≡ constant_at field.now at) × (unsigned_abs result ≤ limit) }
{
    value::constant(value::word_at(field, at))
}

// What a comparison adds to its second operand: kind 1 has no constant.
fn offset(field: &[u8]) -> i64
    ensures { (result ≡ added (offset_here field.now)) × (unsigned_abs result ≤ limit) }
{
    if value::byte_at(field, 3) == 1 {
        return 0;
    }
    bound_at(field, 8)
}

// The matrix with the field at the front, if it is an entry condition.
fn constrain(field: &[u8], m: &mut [i64])
    requires { (length m.old ≡ 81) × (entry_here field.now ≡ true → T (entry attributes_limit (condition_here field.now))) }
    ensures met { m.new ≡ after_field constrained field.now m.old }
    ensures small { Small limit m.old → Small limit m.new }
{
    if !is_entry(field) {
        return;
    }
    let a = value::byte_at(field, 5) as usize;
    if value::byte_at(field, 3) == 0 {
        clash_cycles::differences::between(m, a, bound_at(field, 6), bound_at(field, 10));
        return;
    }
    let b = value::byte_at(field, 7) as usize;
    clash_cycles::differences::at_most(m, a, b, offset(field));
}

// The matrix with all entry conditions of the production whose stretch is at the front.
pub fn constrain_by(stretch: &[u8], m: &mut [i64])
    requires { (length m.old ≡ 81) × ((p : Production) × Stretch stretch.now p) }
    ensures met { (p : Production) → Stretch stretch.now p → m.new ≡ after_all constrained p m.old }
    ensures small { Small limit m.old → Small limit m.new }
{
    let mut at = field_size(stretch);
    // Kept: no range, since a field's own size says where the next begins.
    while at < stretch.len() {
        let field = &stretch[at..];
        if value::byte_at(field, 0) == 3 {
            return;
        }
        constrain(field, m);
        at += field_size(field);
    }
}
