// The rules and conditions of a production that has nothing wrong with it. Most productions are such, so this is asked first; what is wrong with
// another is told by `table_items`, which goes on at the field where this stops; the words that are settled tell the note of the rules before it.
#![tactic(auto)]

ghost use Rattle.std.specs.Prelude.{◌≡◌, true, false, ◌+◌, ◌*◌, ◌<◌, ◌≤◌, length, IfNone, IfOk, IfSome};
ghost use Rattle.meaning.specs.Limits.{positions_limit, symbols_limit};
ghost use Rattle.meaning.specs.Table.{byte};
ghost use Rattle.table_fields.specs.Field.{Whole};
ghost use Rattle.table_rules.specs.Rule.{length_of};
ghost use Rattle.table_items.specs.Progress.{Over};
ghost use Rattle.table_sound_items.specs.Sound.{RuleSound, RuleStands, ConditionSound, ConditionStands, Sounding, WordsSettled, AllFull, done, stop_of};

use limits::{CONDITIONS, POSITIONS, RULES};
use table_items::Items;

// The length of a rule's body by its function; 0 for one that is not known.
// Kept: the four lengths are told apart by branches that return early, so that the processor can guess where the next field begins; 0 and no
// Option, which is asked for with more instructions at each rule.
#[tactic(auto, unfolding(table_rules::specs::Rule::length_of, table_fields::specs::Demand::if_equal, table_fields::specs::Demand::if_below))]
fn size_of_rule(f: usize) -> usize
    ensures { (result ≡ 0 → ⊥) → (f ≤ 8) × (result ≡ length_of f) × (5 ≤ result) × (result ≤ 9) }
{
    if f == 7 {
        return 9;
    }
    if f == 1 {
        return 5;
    }
    if f < 7 {
        return 7;
    }
    if f == 8 {
        return 9;
    }
    0
}

// True only where a whole field with a body of this size stands at an offset.
fn stands(table: &[u8], at: usize, size: usize) -> bool
    requires { (at ≤ length table.now) × (size ≤ 255) }
    ensures { result ≡ true → Whole table.now at size }
{
    if table.len() - at < 3 + size || table[at + 1] != 0 {
        return false;
    }
    table_fields::wide(table[at + 2]) == size
}

// True only of the body of a rule that nothing is wrong with but perhaps its number; then its target is settled. Else the words stay as they were.
fn is_rule(inputs: &[u16; POSITIONS], settled: &mut [u16; POSITIONS], body: &[u8]) -> bool
    requires { (byte body.now 2 ≤ 8) × (5 ≤ length body.now) × (length body.now ≡ length_of (byte body.now 2)) }
    ensures sound { result ≡ true → RuleSound inputs.now settled.old settled.new body.now }
    ensures same { result ≡ false → settled.new ≡ settled.old }
{
    let f = table_fields::wide(body[2]);
    table_rule_fields::divisor_fits(f, body)
        && table_occurrence_rules::settle(inputs, settled, body, f)
}

// The offset behind the rule at an offset, after r rules of the table, which is then settled; none where something may be wrong with it, and the
// words stay as they were.
fn past_rule(
    table: &[u8],
    at: usize,
    r: usize,
    inputs: &[u16; POSITIONS],
    settled: &mut [u16; POSITIONS],
) -> Option<usize>
    requires { at ≤ length table.now }
    ensures stands { IfSome result (λ end. RuleStands table.now at r inputs.now settled.old settled.new end) }
    ensures same { IfNone result (settled.new ≡ settled.old) }
{
    if RULES <= r || table.len() - at < 8 {
        return None;
    }
    let size = size_of_rule(table_fields::wide(table[at + 5]));
    if size == 0 {
        return None;
    }
    if !stands(table, at, size) {
        return None;
    }
    let from = at + 3;
    let end = from + size;
    if is_rule(inputs, settled, &table[from..end]) {
        Some(end)
    } else {
        None
    }
}

// True only of the body of a range that nothing is wrong with but perhaps its number.
fn is_range(inputs: &[u16; POSITIONS], body: &[u8]) -> bool
    requires { (length body.now ≡ 11) × (byte body.now 0 ≡ 0) }
    ensures { result ≡ true → ConditionSound inputs.now body.now }
{
    table_occurrence_rules::is_input(inputs, POSITIONS, body, 1)
        && table_rule_fields::conditions::in_order(
            table_rules::four_at(body, 3),
            table_rules::four_at(body, 7),
        )
}

// True only of the body of a comparison, of kind 1 or 2, that nothing is wrong with but perhaps its number.
fn is_comparison(inputs: &[u16; POSITIONS], body: &[u8]) -> bool
    requires { (1 ≤ byte body.now 0) × (byte body.now 0 ≤ 2) × (length body.now ≡ 4 * byte body.now 0 + 1) }
    ensures { result ≡ true → ConditionSound inputs.now body.now }
{
    table_occurrence_rules::is_input(inputs, POSITIONS, body, 1)
        && table_occurrence_rules::is_input(inputs, POSITIONS, body, 3)
}

// The offset behind the condition at an offset, after c conditions of the table; none where something may be wrong with it.
fn past_condition(table: &[u8], at: usize, c: usize, inputs: &[u16; POSITIONS]) -> Option<usize>
    requires { at ≤ length table.now }
    ensures { IfSome result (λ end. ConditionStands table.now at c inputs.now end) }
{
    if CONDITIONS <= c || table.len() - at < 8 {
        return None;
    }
    let from = at + 3;
    let kind = table_fields::wide(table[from]);
    if kind == 0 {
        if stands(table, at, 11) && is_range(inputs, &table[from..from + 11]) {
            return Some(from + 11);
        }
    } else if kind <= 2 {
        let size = 4 * kind + 1;
        if stands(table, at, size) && is_comparison(inputs, &table[from..from + size]) {
            return Some(from + size);
        }
    }
    None
}

// The bits that four words from one on have in common.
fn common(settled: &[u16; POSITIONS], from: usize) -> u16
    requires { from ≤ 9 }
    ensures { result ≡ 65535 → AllFull settled.now from (from + 4) }
{
    (settled[from] & settled[from + 1]) & (settled[from + 2] & settled[from + 3])
}

// True only where all words from the third on are full.
fn others_full(settled: &[u16; POSITIONS]) -> bool
    ensures { result ≡ true → AllFull settled.now 2 positions_limit }
{
    let first = common(settled, 2);
    let second = common(settled, 6);
    let third = common(settled, 9);
    first & second & third == 65535
}

// True only where every output up to a position is settled: then its words are full. Those past the position are full anyway; they are not looked
// at where the right side is short.
pub fn all_settled(settled: &[u16; POSITIONS], width: usize) -> bool
    requires { width ≤ symbols_limit }
    ensures { result ≡ true → WordsSettled settled.now width }
{
    settled[0] == 65535
        && (width == 0 || settled[1] == 65535 && (width == 1 || others_full(settled)))
}

// Where the rules and conditions that were read end, and how many they are.
fn items_at(at: usize, rules: usize, conditions: usize) -> Items
    ensures { result ≡ done at rules conditions }
{
    Items {
        at,
        rules,
        conditions,
    }
}

// Past the rules and conditions from where those before end, up to the next production or the end; or the first field with which something may
// be wrong, with what was read before it.
pub fn walk(
    table: &[u8],
    from: Items,
    inputs: &[u16; POSITIONS],
    settled: &mut [u16; POSITIONS],
) -> Result<Items, Items>
    requires { (from.at ≤ length table.now) × (from.rules ≤ from.at) × (from.conditions ≤ from.at) }
    ensures taken { Sounding table.now from.at from.rules from.conditions inputs.now settled.old settled.new (stop_of result).at (stop_of result).rules (stop_of result).conditions }
    ensures over { IfOk result (λ u. Over table.now u.at) }
{
    let mut at = from.at;
    let mut rules = from.rules;
    let mut conditions = from.conditions;
    // Kept: each step is as long as the field that it passes, so no range has these offsets. Three numbers go from step to step, and no struct, so
    // that the processor can guess where the next field begins.
    while at < table.len() {
        match table_fields::wide(table[at]) {
            4 => {
                let Some(end) = past_rule(table, at, rules, inputs, settled) else {
                    return Err(items_at(at, rules, conditions));
                };
                at = end;
                rules += 1;
            }
            5 => {
                let Some(end) = past_condition(table, at, conditions, inputs) else {
                    return Err(items_at(at, rules, conditions));
                };
                at = end;
                conditions += 1;
            }
            3 => return Ok(items_at(at, rules, conditions)),
            _ => return Err(items_at(at, rules, conditions)),
        }
    }
    Ok(items_at(at, rules, conditions))
}
