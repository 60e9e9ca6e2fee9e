// The words of one rule or condition, from the bytes of its field.
ghost use Rattle.std.specs.Prelude.{◌+◌, ◌≤◌, ◌≡◌, length};
ghost use Rattle.program_parts.specs.Items.{are_rules};
ghost use Rattle.program_block_words.specs.Patch.{Wrote};
ghost use Rattle.program_block_words.specs.Items.{rule_item, compared_with, condition_item, item_of, item_size, Whole, WholeRule, WholeCondition};

use program_parts::Items;

// A rule's two words; answers the address behind them.
fn write_rule(field: &[u8], top: u32, below: &[u32], area: &mut [u32], at: usize) -> usize
    requires { (top ≤ 1024) × WholeRule field.now × (at + 2 ≤ length area.old) }
    ensures { Wrote area.old area.new at result (rule_item top below.now field.now) }
{
    let function = crate::operands::byte_in(field, 5);
    let target = crate::operands::select_at(field, 3, top, below);
    let a = crate::operands::first_operand(field, function, top, below);
    let b = crate::operands::second_operand(field, function, top, below);
    let c = crate::operands::rule_constant(field, function);
    area[at] = program_parts::rule_word(target, function, a, b);
    area[at + 1] = c;
    at + 2
}

// The constant of a comparison: kind 1 has none.
fn offset(field: &[u8]) -> u32
    requires { WholeCondition field.now }
    ensures { result ≡ compared_with field.now }
{
    if crate::operands::byte_in(field, 3) == 1 {
        return 0;
    }
    value::whole_word(field, 8)
}

// A condition's three words; answers the address behind them.
fn write_condition(field: &[u8], top: u32, below: &[u32], area: &mut [u32], at: usize) -> usize
    requires { (top ≤ 1024) × WholeCondition field.now × (at + 3 ≤ length area.old) }
    ensures { Wrote area.old area.new at result (condition_item top below.now field.now) }
{
    let a = crate::operands::select_at(field, 4, top, below);
    if crate::operands::byte_in(field, 3) == 0 {
        area[at] = program_parts::condition_word(a, 0, 0);
        area[at + 1] = value::whole_word(field, 6);
        area[at + 2] = value::whole_word(field, 10);
        return at + 3;
    }
    let b = crate::operands::select_at(field, 6, top, below);
    let kind = crate::operands::byte_in(field, 3);
    area[at] = program_parts::condition_word(a, kind, b);
    area[at + 1] = offset(field);
    area[at + 2] = 0;
    at + 3
}

// The field's item; answers the address behind it.
pub fn write_item(
    field: &[u8],
    items: Items,
    top: u32,
    below: &[u32],
    area: &mut [u32],
    at: usize,
) -> usize
    requires { (top ≤ 1024) × Whole (are_rules items) field.now × (at + item_size (are_rules items) ≤ length area.old) }
    ensures { Wrote area.old area.new at result (item_of (are_rules items) top below.now field.now) }
{
    match items {
        Items::Rules => write_rule(field, top, below, area, at),
        Items::Conditions => write_condition(field, top, below, area, at),
    }
}
