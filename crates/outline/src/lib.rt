// The outline of a table that is read whole. It is lent as arrays, one by one: for each nonterminal its counts of attributes, for each
// production a row of 16 bytes and the offset of its field. Beside them go the numbers of the table.
#![tactic(auto)]

ghost use Rattle.std.specs.Prelude.{◌≤◌, ◌<◌, ◌≡◌};
ghost use Rattle.meaning.specs.Limits.{productions_limit};
ghost use Rattle.outline.specs.Counts.{count_at_value, synthesized_at};
ghost use Rattle.outline.specs.Images.{HasRow, row_count, row_start, row_at, left_at, size_at, byte_at, left_in, size_in_value, symbol_in};

use token_set::TokenSet;

// The numbers of a table that is well formed.
#[derive(Clone, Copy, Debug, PartialEq, Eq)]
pub struct Sizes {
    pub terminals: usize,
    pub nonterminals: usize,
    pub start: usize,
    pub result: usize,
    pub productions: usize,
    // the terminals that carry a value
    pub carrying: TokenSet,
}

// ---- the rows, and in them that of production p

// How many there are.
pub fn row_count(rows: &[u8]) -> usize
    ensures { result ≡ row_count rows.now }
{
    rows.len() / 16
}

// Where the row of p begins. The one behind it begins where it ends.
pub fn row_start(p: usize) -> usize
    requires { p ≤ productions_limit }
    ensures { result ≡ row_start p }
{
    p * 16
}

// The row of p.
pub fn row_of<'a>(rows: &'a [u8], p: usize) -> &'a [u8]
    requires { HasRow rows.now p }
    ensures { result.now ≡ row_at rows.now p }
{
    let first = p * 16;
    let end = first + 16;
    &rows[first..end]
}

// Its left nonterminal.
pub fn left_of(rows: &[u8], p: usize) -> u8
    requires { HasRow rows.now p }
    ensures { result ≡ left_at rows.now p }
{
    rows[p * 16]
}

// The length of its right side.
pub fn size_of(rows: &[u8], p: usize) -> usize
    requires { HasRow rows.now p }
    ensures { (result ≡ size_at rows.now p) × (result < 256) }
{
    rows[p * 16 + 1] as usize
}

// The byte of symbol i of its right side.
pub fn symbol_of(rows: &[u8], p: usize, i: usize) -> u8
    requires { HasRow rows.now p × (i < 14) }
    ensures { result ≡ byte_at rows.now p i }
{
    rows[p * 16 + 2 + i]
}

// ---- a row that is lent alone; 0 past its end

pub fn row_left(row: &[u8]) -> u32
    ensures { (result ≡ left_in row.now) × (result < 256) }
{
    value::byte_at(row, 0)
}

pub fn row_size(row: &[u8]) -> u32
    ensures { (result ≡ size_in_value row.now) × (result < 256) }
{
    value::byte_at(row, 1)
}

// The symbol after k others.
pub fn row_symbol(row: &[u8], k: usize) -> u32
    requires { k < 256 }
    ensures { (result ≡ symbol_in row.now k) × (result < 256) }
{
    value::byte_at(row, k + 2)
}

// ---- the counts of a symbol, by its byte

// Its count in an array, 0 for a terminal.
pub fn count_of(counts: &[u8], symbol: usize) -> u8
    ensures { result ≡ count_at_value counts.now symbol }
{
    if symbol < 128 {
        0
    } else {
        counts.get(symbol - 128).copied().unwrap_or(0)
    }
}

// Its synthesized count: 1 for a terminal that carries a value, 0 for another.
pub fn synthesized_of(carrying: TokenSet, counts: &[u8], symbol: usize) -> u8
    ensures { result ≡ synthesized_at carrying.0 counts.now symbol }
{
    if symbol < 128 {
        u8::from(carrying.has(symbol as u8))
    } else {
        count_of(counts, symbol)
    }
}
