// Target and operands of a rule: 5, 7, 8 and 9.
ghost use Rattle.std.specs.Prelude.{◌≡◌, ◌+◌, ◌*◌, ◌<◌, ◌≤◌, length};
ghost use Rattle.refusals.specs.Numbers.{fault_or_zero};
ghost use Rattle.meaning.specs.Limits.{attributes_limit, positions_limit, symbols_limit};
ghost use Rattle.meaning.specs.Table.{byte};
ghost use Rattle.table_rules.specs.Classes.{class_number};
ghost use Rattle.table_rules.specs.Rule.{operand_class, operand_place, class_fault, rule_order};

use limits::POSITIONS;
use refusals::TableFault;
use table_rules::{Class, Classed};

// The class of the k-th of n operands; one past them counts as an input.
#[tactic(auto, unfolding(table_rules::specs::Rule::operand_class, table_fields::specs::Demand::if_below))]
pub fn operand_class(
    width: usize,
    inh: &[u8; POSITIONS],
    syn: &[u8; POSITIONS],
    body: &[u8],
    n: usize,
    k: usize,
) -> Class
    requires { (width ≤ symbols_limit) × (k < 2) × (3 + 2 * n ≤ length body.now) }
    ensures { class_number result ≡ operand_class width inh.now syn.now body.now n k }
{
    if n <= k {
        Class::Input
    } else {
        table_rules::class_in(width, inh, syn, body, 3 + 2 * k)
    }
}

// The position of the k-th of n operands; one past them counts as one of the left side.
#[tactic(auto, unfolding(table_rules::specs::Rule::operand_place, table_fields::specs::Demand::if_below))]
pub fn operand_place(body: &[u8], n: usize, k: usize) -> usize
    requires { (k < 2) × (3 + 2 * n ≤ length body.now) }
    ensures { result ≡ operand_place body.now n k }
{
    if n <= k {
        0
    } else {
        table_fields::wide(body[3 + 2 * k])
    }
}

// The lowest of 5 and 7 that applies to a target and two operands of these classes.
#[tactic(auto, unfolding(table_rules::specs::Rule::class_fault, table_fields::specs::Demand::differs))]
pub fn class_fault<C: Classed>(target: C, first: C, second: C) -> Result<(), TableFault>
    ensures { fault_or_zero result ≡ class_fault (C.number_of target) (C.number_of first) (C.number_of second) }
{
    if target.is_unknown() || first.is_unknown() || second.is_unknown() {
        return Err(TableFault::Unknown);
    }
    if target.is_input() || first.is_output() || second.is_output() {
        return Err(TableFault::WrongSide);
    }
    Ok(())
}

// The lowest of 8 and 9 that applies to a rule with n operands.
#[tactic(auto, unfolding(table_rules::specs::Rule::rule_order, table_rules::specs::Rule::bit, table_fields::specs::Demand::lacks, table_fields::specs::Demand::below, table_fields::specs::Demand::if_equal))]
pub fn rule_order(note: &[u8; POSITIONS], n: usize, body: &[u8]) -> Result<(), TableFault>
    requires { (3 + 2 * n ≤ length body.now) × (byte body.now 0 < positions_limit) × (1 ≤ byte body.now 1) × (byte body.now 1 ≤ attributes_limit) }
    ensures { fault_or_zero result ≡ rule_order note.now n body.now }
{
    let position = table_fields::wide(body[0]);
    if table_rules::is_noted(note, position, table_fields::wide(body[1])) {
        return Err(TableFault::NotOneRule);
    }
    let reads_ahead = position <= operand_place(body, n, 0)
        || position <= operand_place(body, n, 1);
    if position != 0 && reads_ahead {
        return Err(TableFault::ReadsAhead);
    }
    Ok(())
}
