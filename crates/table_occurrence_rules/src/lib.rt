// A rule with nothing wrong with it, told by a look at the bit of each of its occurrences.
#![tactic(auto)]

ghost use Rattle.std.specs.Prelude.{◌≡◌, true, false, List, ℕ, ◌+◌, ◌*◌, ◌<◌, ◌≤◌, length};
ghost use Rattle.meaning.specs.Limits.{positions_limit};
ghost use Rattle.meaning.specs.Table.{byte};
ghost use Rattle.table_fields.specs.Demand.{if_equal};
ghost use Rattle.table_rules.specs.Rule.{bit, class_in, operand_count, OperandsFit};
ghost use Rattle.table_occurrences.specs.OccurrenceBits.{Inputs, RuleSettled};

use limits::POSITIONS;

// Kept: 32 bits and not a usize, for which the compiler finds no instruction that tests a bit.
#[tactic(auto, unfolding(table_rules::specs::Rule::bit))]
pub fn bit_of(word: u16, attribute: usize) -> bool
    requires { attribute < 16 }
    ensures { result ≡ bit word attribute }
{
    (u32::from(word) >> attribute) % 2 == 1
}

// True only of an input, in two bytes of a body, at a position below a limit.
pub fn is_input(inputs: &[u16; POSITIONS], limit: usize, body: &[u8], at: usize) -> bool
    requires { (limit ≤ positions_limit) × (at + 2 ≤ length body.now) }
    ensures { (width : ℕ) (inh syn : List ℕ) → Inputs width inh syn inputs.now → result ≡ true → (1 ≡ class_in width inh syn body.now at) × (byte body.now at < limit) }
{
    let position = table_fields::wide(body[at]);
    let attribute = table_fields::wide(body[at + 1]);
    position < limit && attribute < 16 && bit_of(inputs[position], attribute)
}

// True only where all operands of a rule by function f, whose target stands at a position, are inputs at positions below the limit of that one.
// Kept: one test of the first operand for all functions, and tests one after the other, so that the processor can guess where the next field begins.
// The limit is asked for where there is an operand.
#[tactic(auto, unfolding(table_rules::specs::Rule::operand_count, table_fields::specs::Demand::if_equal, table_fields::specs::Demand::if_below))]
fn are_inputs(inputs: &[u16; POSITIONS], position: usize, body: &[u8], f: usize) -> bool
    requires { (position < positions_limit) × (f ≤ 8) × (3 + 2 * operand_count f ≤ length body.now) }
    ensures { (width : ℕ) (inh syn : List ℕ) → Inputs width inh syn inputs.now → result ≡ true → OperandsFit (if_equal position 0 positions_limit position) width inh syn body.now (operand_count f) }
{
    if f == 0 {
        return true;
    }
    let limit = limit_of(position);
    if !is_input(inputs, limit, body, 3) {
        return false;
    }
    f == 1 || 7 <= f || is_input(inputs, limit, body, 5)
}

// Operands stand below the position of their target, unless that is the left side.
#[tactic(auto, unfolding(table_fields::specs::Demand::if_equal))]
fn limit_of(position: usize) -> usize
    requires { position < positions_limit }
    ensures { (1 ≤ result) × (result ≤ positions_limit) × (result ≡ if_equal position 0 positions_limit position) }
{
    if position == 0 { POSITIONS } else { position }
}

// True only of a rule by function f that none of 5 to 9 applies to; then its target is settled. Else the words stay as they were.
pub fn settle(
    inputs: &[u16; POSITIONS],
    settled: &mut [u16; POSITIONS],
    body: &[u8],
    f: usize,
) -> bool
    requires { (f ≤ 8) × (3 + 2 * operand_count f ≤ length body.now) }
    ensures settled { result ≡ true → RuleSettled inputs.now settled.old settled.new body.now f }
    ensures same { result ≡ false → settled.new ≡ settled.old }
{
    let position = table_fields::wide(body[0]);
    let attribute = table_fields::wide(body[1]);
    if POSITIONS <= position || 16 <= attribute {
        return false;
    }
    let word = settled[position];
    if bit_of(word, attribute) || !are_inputs(inputs, position, body, f) {
        return false;
    }
    settled[position] = word | (1u16 << attribute);
    true
}
