// The faults of a rule, and the field of a rule taken: its occurrence is noted as it is set.
#![tactic(auto)]

ghost use Rattle.std.specs.Prelude.{◌≡◌, List, ◌+◌, ◌*◌, ◌≤◌, length, OnErr};
ghost use Rattle.refusals.specs.Numbers.{fault_or_zero};
ghost use Rattle.meaning.specs.Grammar.{Rule, Occurrence};
ghost use Rattle.table_rules.specs.Rule.{Small, length_of, operand_count, divisor_fits, rule_items, rule_fault};
ghost use Rattle.table_rules.specs.Note.{Notes, rules_after};

use limits::{DIVISOR, POSITIONS, RULES};
use refusals::TableFault;

pub mod conditions;
pub mod note;
pub mod operands;

// The length of a rule's body by its function.
#[tactic(auto, unfolding(table_rules::specs::Rule::length_of, table_rules::specs::Rule::operand_count, table_fields::specs::Demand::if_equal, table_fields::specs::Demand::if_below))]
fn length_of(f: usize) -> usize
    ensures { (result ≡ length_of f) × (3 + 2 * operand_count f ≤ result) }
{
    match f {
        1 => 5,
        0..=6 => 7,
        _ => 9,
    }
}

// How many operands a function has.
#[tactic(auto, unfolding(table_rules::specs::Rule::operand_count, table_fields::specs::Demand::if_equal, table_fields::specs::Demand::if_below))]
fn operand_count(f: usize) -> usize
    ensures { result ≡ operand_count f }
{
    match f {
        0 => 0,
        2..=6 => 2,
        _ => 1,
    }
}

#[tactic(auto, unfolding(table_rules::specs::Rule::divisor_fits, table_fields::specs::Demand::if_equal, table_fields::specs::Demand::if_below))]
pub fn divisor_fits(f: usize, body: &[u8]) -> bool
    requires { f ≡ 8 → 9 ≤ length body.now }
    ensures { result ≡ divisor_fits f body.now }
{
    if f != 8 {
        return true;
    }
    let divisor = table_rules::four_at(body, 5);
    1 <= divisor && divisor <= DIVISOR
}

// The lowest of 5 to 9 that applies to a rule with n operands.
#[tactic(auto, using(table_rules::proofs::Faults::fault_positive), unfolding(table_rules::specs::Rule::rule_items, table_rules::specs::Rule::or_else, table_fields::specs::Demand::if_equal))]
pub fn judge_rule_items(
    width: usize,
    inh: &[u8; POSITIONS],
    syn: &[u8; POSITIONS],
    note: &[u8; POSITIONS],
    body: &[u8],
    n: usize,
) -> Result<(), TableFault>
    requires { Small width inh.now syn.now × (3 + 2 * n ≤ length body.now) }
    ensures { fault_or_zero result ≡ rule_items width inh.now syn.now note.now body.now n }
{
    let target = table_rules::class_in(width, inh, syn, body, 0);
    let first = crate::operands::operand_class(width, inh, syn, body, n, 0);
    let second = crate::operands::operand_class(width, inh, syn, body, n, 1);
    crate::operands::class_fault(target, first, second)?;
    crate::operands::rule_order(note, n, body)
}

// The lowest fault of the body of a tag 4 field after r others.
#[tactic(auto, using(table_rules::proofs::Laws::length_eight), unfolding(table_rules::specs::Rule::rule_fault, table_fields::specs::Demand::at_most, table_fields::specs::Demand::below, table_fields::specs::Demand::equal, table_fields::specs::Demand::holds))]
pub fn rule_fault(
    r: usize,
    width: usize,
    inh: &[u8; POSITIONS],
    syn: &[u8; POSITIONS],
    note: &[u8; POSITIONS],
    body: &[u8],
) -> Result<(), TableFault>
    requires { Small width inh.now syn.now }
    ensures { fault_or_zero result ≡ rule_fault r width inh.now syn.now note.now body.now }
{
    if body.len() < 3 || RULES <= r {
        return Err(TableFault::OutsideLimits);
    }
    let f = table_fields::wide(body[2]);
    if 8 < f {
        return Err(TableFault::Unknown);
    }
    if body.len() != length_of(f) || !divisor_fits(f, body) {
        return Err(TableFault::OutsideLimits);
    }
    judge_rule_items(width, inh, syn, note, body, operand_count(f))
}

// Takes the body of a tag 4 field after r others: its lowest fault, or its occurrence is noted.
pub fn take_rule(
    r: usize,
    width: usize,
    inh: &[u8; POSITIONS],
    syn: &[u8; POSITIONS],
    note: &mut [u8; POSITIONS],
    body: &[u8],
) -> Result<(), TableFault>
    requires { Small width inh.now syn.now }
    ensures judged { fault_or_zero result ≡ rule_fault r width inh.now syn.now note.old body.now }
    ensures noted { (rs : List (Rule Occurrence)) → Notes note.old rs → Notes note.new (rules_after (fault_or_zero result) body.now rs) }
    ensures same { OnErr result (note.new ≡ note.old) }
{
    rule_fault(r, width, inh, syn, note, body)?;
    let position = table_fields::wide(body[0]);
    let attribute = table_fields::wide(body[1]);
    crate::note::note_down(note, position, attribute);
    Ok(())
}
