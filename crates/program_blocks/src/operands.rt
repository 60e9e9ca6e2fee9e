// The operands and the constant of a rule, from the bytes of its field.
ghost use Rattle.std.specs.Prelude.{◌+◌, ◌≤◌, ◌<◌, ◌≡◌, length};
ghost use Rattle.meaning.specs.Table.{byte};
ghost use Rattle.program_block_words.specs.Items.{selector, selector_at, first_operand, second_operand, rule_constant};

// A byte that is there.
pub fn byte_in(bytes: &[u8], at: usize) -> u32
    requires { at < length bytes.now }
    ensures { (result ≡ byte bytes.now at) × (result < 256) }
{
    value::wide(bytes[at])
}

// The register of an attribute of a position: `top` registers stand above the left side's, and `below` says how many of them
// stand below those of each position.
fn select(top: u32, below: &[u32], position: u32, attribute: u32) -> u32
    requires { (top ≤ 1024) × (attribute < 256) }
    ensures { (result ≡ selector top below.now position attribute) × (result < 4096) }
{
    let at = position as usize;
    let high = top + attribute;
    if below.len() <= at {
        return high;
    }
    let low = below[at];
    if high < low {
        return 0;
    }
    high - low
}

// The register of the occurrence at a place of a field.
pub fn select_at(field: &[u8], at: usize, top: u32, below: &[u32]) -> u32
    requires { (at ≤ 16) × (top ≤ 1024) × (at + 2 ≤ length field.now) }
    ensures { (result ≡ selector_at top below.now field.now at) × (result < 4096) }
{
    let position = byte_in(field, at);
    let attribute = byte_in(field, at + 1);
    select(top, below, position, attribute)
}

pub fn first_operand(field: &[u8], function: u32, top: u32, below: &[u32]) -> u32
    requires { (top ≤ 1024) × (8 ≤ length field.now) }
    ensures { (result ≡ first_operand top below.now field.now function) × (result < 4096) }
{
    if function == 0 {
        return 0;
    }
    select_at(field, 6, top, below)
}

pub fn second_operand(field: &[u8], function: u32, top: u32, below: &[u32]) -> u32
    requires { (top ≤ 1024) × (2 ≤ function → 10 ≤ length field.now) }
    ensures { (result ≡ second_operand top below.now field.now function) × (result < 4096) }
{
    if function < 2 {
        return 0;
    }
    if 6 < function {
        return 0;
    }
    select_at(field, 8, top, below)
}

pub fn rule_constant(field: &[u8], function: u32) -> u32
    requires { (function ≡ 0 → 10 ≤ length field.now) × (7 ≤ function → 12 ≤ length field.now) }
    ensures { result ≡ rule_constant field.now function }
{
    if function == 0 {
        return value::whole_word(field, 6);
    }
    if function < 7 {
        return 0;
    }
    value::whole_word(field, 8)
}
