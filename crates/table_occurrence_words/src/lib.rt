// The right side of a production walked once: its row, the word of its symbols, and at each position the word of the inputs and that of all but
// the outputs.
#![tactic(auto)]

ghost use Rattle.std.specs.Prelude.{◌≡◌, false, IfNone, IfSome, List, ℕ, ◌+◌, ◌-◌, ◌<◌, ◌≤◌, length, set, replicate};
ghost use Rattle.outline.specs.Images.{rows_length};
ghost use Rattle.meaning.specs.Grammar.{nonterminal_base};
ghost use Rattle.meaning.specs.Limits.{attributes_limit, positions_limit, productions_limit};
ghost use Rattle.meaning.specs.Table.{byte};
ghost use Rattle.table_fields.specs.Judge.{symbol_known};
ghost use Rattle.outline.specs.Counts.{count_at_value, synthesized_at};
ghost use Rattle.table_occurrences.specs.OccurrenceBits.{input_word, Filled};
ghost use Rattle.table_occurrence_words.specs.Placed.{input_at, other_at, KnownSmall, FoundAs, RightPlaced};

use limits::{NONTERMINALS, POSITIONS, ROWS};
use nonterminal_set::NonterminalSet;
use outline::Sizes;
use set_words::symbol_bit;
use token_set::TokenSet;

// A symbol on the right that is known, its bit, and the words at its position: the inputs, and all but the outputs.
#[derive(Clone, Copy)]
pub struct Found {
    pub symbol: usize,
    pub bit: NonterminalSet,
    pub inputs: u16,
    pub others: u16,
}

// The inputs of a token, which has no outputs: its value, where it carries one.
fn token_word(carrying: TokenSet, symbol: usize) -> u16
    requires { symbol < nonterminal_base }
    ensures { (k : ℕ) (inherited synthesized : List ℕ) → 1 ≤ k → result ≡ input_word k (count_at_value inherited symbol) (synthesized_at carrying.0 synthesized symbol) }
{
    if carrying.has(symbol as u8) { 2 } else { 0 }
}

// Before the first symbol; its number is no byte.
// Kept: with an Option in its place the walk would ask twice at each symbol, whether one stands before it and whether that is the same.
fn none_before() -> Found
    ensures { result.symbol ≡ 256 }
{
    Found {
        symbol: 256,
        bit: NonterminalSet::EMPTY,
        inputs: 0,
        others: 65535,
    }
}

// A token, by its number, if it is known.
fn find_token(sizes: Sizes, symbol: usize) -> Option<Found>
    requires { symbol < nonterminal_base }
    ensures found { IfSome result (λ f. ((inherited synthesized : List ℕ) → FoundAs sizes.terminals sizes.nonterminals sizes.carrying.0 inherited synthesized symbol f.bit.0 f.inputs f.others) × (f.symbol ≡ symbol)) }
    ensures other { IfNone result (symbol_known sizes.terminals sizes.nonterminals symbol ≡ false) }
{
    if sizes.terminals <= symbol {
        return None;
    }
    let bit = symbol_bit(symbol as u8);
    let inputs = token_word(sizes.carrying, symbol);
    Some(Found {
        symbol,
        bit,
        inputs,
        others: 65535,
    })
}

// A nonterminal, by its byte, if it is known.
fn find_nonterminal(
    sizes: Sizes,
    inherited: &[u8; NONTERMINALS],
    synthesized: &[u8; NONTERMINALS],
    symbol: usize,
) -> Option<Found>
    requires { (nonterminal_base ≤ symbol) × (symbol < 256) × KnownSmall sizes.terminals sizes.nonterminals sizes.carrying.0 inherited.now synthesized.now }
    ensures found { IfSome result (λ f. FoundAs sizes.terminals sizes.nonterminals sizes.carrying.0 inherited.now synthesized.now symbol f.bit.0 f.inputs f.others × (f.symbol ≡ symbol)) }
    ensures other { IfNone result (symbol_known sizes.terminals sizes.nonterminals symbol ≡ false) }
{
    if sizes.nonterminals <= symbol - 128 {
        return None;
    }
    let bit = symbol_bit(symbol as u8);
    let i = table_fields::wide(outline::count_of(inherited, symbol));
    let s = table_fields::wide(outline::count_of(synthesized, symbol));
    let inputs = table_occurrences::range_word(i, i + s);
    let others = 65535 - table_occurrences::range_word(0, i);
    Some(Found {
        symbol,
        bit,
        inputs,
        others,
    })
}

// A symbol, by its byte, if it is known.
fn find(
    sizes: Sizes,
    inherited: &[u8; NONTERMINALS],
    synthesized: &[u8; NONTERMINALS],
    symbol: usize,
) -> Option<Found>
    requires { (symbol < 256) × KnownSmall sizes.terminals sizes.nonterminals sizes.carrying.0 inherited.now synthesized.now }
    ensures found { IfSome result (λ f. FoundAs sizes.terminals sizes.nonterminals sizes.carrying.0 inherited.now synthesized.now symbol f.bit.0 f.inputs f.others × (f.symbol ≡ symbol)) }
    ensures other { IfNone result (symbol_known sizes.terminals sizes.nonterminals symbol ≡ false) }
{
    if symbol < 128 {
        find_token(sizes, symbol)
    } else {
        find_nonterminal(sizes, inherited, synthesized, symbol)
    }
}

// The words of the left side.
fn place_left(
    body: &[u8],
    inherited: &[u8; NONTERMINALS],
    synthesized: &[u8; NONTERMINALS],
    inputs: &mut [u16; POSITIONS],
    settled: &mut [u16; POSITIONS],
)
    requires { (1 ≤ length body.now) × (inputs.old ≡ replicate positions_limit 0) × (settled.old ≡ replicate positions_limit 65535)
        × (count_at_value inherited.now (nonterminal_base + byte body.now 0) + count_at_value synthesized.now (nonterminal_base + byte body.now 0) ≤ attributes_limit) }
    ensures inputs { (carrying : ℕ) → Filled (input_at carrying inherited.now synthesized.now body.now) 0 0 inputs.new }
    ensures others { (carrying : ℕ) → Filled (other_at carrying inherited.now synthesized.now body.now) 0 65535 settled.new }
{
    let left = 128 + table_fields::wide(body[0]);
    let i = table_fields::wide(outline::count_of(inherited, left));
    let s = table_fields::wide(outline::count_of(synthesized, left));
    inputs[0] = table_occurrences::range_word(0, i);
    settled[0] = 65535 - table_occurrences::range_word(i, i + s);
}

// The words at one position.
fn put(
    inputs: &mut [u16; POSITIONS],
    settled: &mut [u16; POSITIONS],
    at: usize,
    input: u16,
    other: u16,
)
    requires { (at < positions_limit) × (length inputs.old ≡ positions_limit) × (length settled.old ≡ positions_limit) }
    ensures { (inputs.new ≡ set inputs.old at input) × (settled.new ≡ set settled.old at other) }
{
    inputs[at] = input;
    settled[at] = other;
}

// The row of production p, its body as it stands in the table, up to a symbol that is not known; the word of its right side, if all its symbols
// are known, and the words at its positions. The same symbol often stands many times in a row.
fn place_right(
    rows: &mut [u8; ROWS],
    p: usize,
    body: &[u8],
    sizes: Sizes,
    inherited: &[u8; NONTERMINALS],
    synthesized: &[u8; NONTERMINALS],
    inputs: &mut [u16; POSITIONS],
    settled: &mut [u16; POSITIONS],
) -> Option<NonterminalSet>
    requires { (p < productions_limit) × (2 ≤ length body.now) × (length body.now ≤ 14) × (length rows.old ≡ rows_length) × KnownSmall sizes.terminals sizes.nonterminals sizes.carrying.0 inherited.now synthesized.now
        × Filled (input_at sizes.carrying.0 inherited.now synthesized.now body.now) 0 0 inputs.old × Filled (other_at sizes.carrying.0 inherited.now synthesized.now body.now) 0 65535 settled.old }
    ensures { RightPlaced rows.old p body.now sizes.terminals sizes.nonterminals sizes.carrying.0 inherited.now synthesized.now rows.new inputs.new settled.new result }
{
    let start = outline::row_start(p);
    rows[start] = body[0];
    rows[start + 1] = body[1];
    let mut word = NonterminalSet::EMPTY;
    let mut last = none_before();
    for k in 2..body.len() {
        rows[start + k] = body[k];
        let symbol = table_fields::wide(body[k]);
        if symbol != last.symbol {
            last = find(sizes, inherited, synthesized, symbol)?;
            word = word.union(last.bit);
        }
        put(inputs, settled, k - 1, last.inputs, last.others);
    }
    Some(word)
}

// The row of production p and the word of its right side, with the words at all its positions, that of the left side among them.
pub fn read_right(
    rows: &mut [u8; ROWS],
    p: usize,
    body: &[u8],
    sizes: Sizes,
    inherited: &[u8; NONTERMINALS],
    synthesized: &[u8; NONTERMINALS],
    inputs: &mut [u16; POSITIONS],
    settled: &mut [u16; POSITIONS],
) -> Option<NonterminalSet>
    requires { (p < productions_limit) × (2 ≤ length body.now) × (length body.now ≤ 14) × (length rows.old ≡ rows_length) × KnownSmall sizes.terminals sizes.nonterminals sizes.carrying.0 inherited.now synthesized.now
        × (inputs.old ≡ replicate positions_limit 0) × (settled.old ≡ replicate positions_limit 65535) × (count_at_value inherited.now (nonterminal_base + byte body.now 0) + count_at_value synthesized.now (nonterminal_base + byte body.now 0) ≤ attributes_limit) }
    ensures { RightPlaced rows.old p body.now sizes.terminals sizes.nonterminals sizes.carrying.0 inherited.now synthesized.now rows.new inputs.new settled.new result }
{
    place_left(body, inherited, synthesized, inputs, settled);
    place_right(
        rows,
        p,
        body,
        sizes,
        inherited,
        synthesized,
        inputs,
        settled,
    )
}
