// The listing, line by line, from the program's words. 01: "each rule and condition has its own line, in table order; R always stands"
#![tactic(auto)]

ghost use Rattle.std.specs.Prelude.{◌+◌, ◌<◌, ◌≤◌, ◌≡◌, true, false, length, IfSome};
ghost use Rattle.meaning.specs.Limits.{area_length, symbols_limit};
ghost use Rattle.listing_lines.specs.Line.{add_line, remove_line};
ghost use Rattle.listing_text.specs.Cursors.{record_word, start_of, go_on, inside_of, skips_of, skipped, position_of, rule_here, behind_rule, condition_here, behind_condition, behind_add, lines_left};
ghost use Rattle.listing_text.specs.LineOut.{Emits, FirstLineOrOver, BeforeAll};

use limits::AREA;
use program_parts::Items;
use value::{index_of, word_or_zero};

// 01: "right-side length (0 to 12)".
const SYMBOLS: u32 = limits::SYMBOLS as u32;

// Where the listing stands.
#[derive(Clone, Copy)]
pub struct Cursor {
    // whose lines come next
    pub production: u32,
    // how many of its symbols are passed
    pub passed: u32,
    // what the items at hand are; where none are left, it says conditions
    pub items: Items,
    // how many items are left
    pub left: u32,
    // the address of the next word
    pub at: usize,
}

// A line that was written.
#[derive(Clone, Copy)]
pub struct Line {
    // how many bytes it has
    pub length: usize,
    // where the listing stands behind it
    pub next: Cursor,
}

// ---- words

// Word k of a production's record.
fn record_word(program: &[u32], production: u32, k: usize) -> u32
    requires { k < 8 }
    ensures { result ≡ record_word program.now production k }
{
    let records = index_of(word_or_zero(program, program_parts::RECORDS));
    word_or_zero(
        program,
        records + program_parts::RECORD_WORDS * index_of(production) + k,
    )
}

// ---- cursors

// Before a production's first line: at its entry tests, which stand behind the addresses of its expects.
fn start(program: &[u32], production: u32) -> Cursor
    ensures { result ≡ start_of program.now production }
{
    let body = index_of(record_word(program, production, program_parts::BODY));
    let symbols = index_of(record_word(program, production, program_parts::SYMBOLS));
    let tests = record_word(program, production, program_parts::TESTS);
    Cursor {
        production,
        passed: 0,
        items: Items::Conditions,
        left: tests,
        at: body + symbols,
    }
}

// On in the same production.
fn go_on(c: Cursor, passed: u32, items: Items, left: u32, at: usize) -> Cursor
    ensures { result ≡ go_on c passed items left at }
{
    Cursor {
        passed,
        items,
        left,
        at,
        ..c
    }
}

// Whether a line is left, and an address and a position that a program can have.
fn is_inside(program: &[u32], c: Cursor) -> bool
    ensures { (result ≡ inside_of program.now c) × (result ≡ true → c.production < 4294967295) }
{
    if word_or_zero(program, program_parts::PRODUCTIONS) <= c.production {
        return false;
    }
    if AREA <= c.at {
        return false;
    }
    c.passed <= SYMBOLS
}

// Whether an instruction stands there that has no line of its own.
fn is_silent(program: &[u32], c: Cursor) -> bool
    ensures { result ≡ skips_of program.now c }
{
    if 0 < c.left {
        return false;
    }
    if !is_inside(program, c) {
        return false;
    }
    let operation = program_parts::operation(index_of(word_or_zero(program, c.at)));
    if operation == operations::ADD {
        return false;
    }
    operation <= operations::TEST
}

// Behind that instruction: at its items, or past its symbol.
fn pass(program: &[u32], c: Cursor) -> Cursor
    requires { (c.at < area_length) × (c.passed ≤ symbols_limit) }
    ensures { result ≡ skipped program.now c }
{
    let head = index_of(word_or_zero(program, c.at));
    let operation = program_parts::operation(head);
    let count = program_parts::operand(head) as u32;
    if operation == operations::EVALUATE {
        return go_on(c, c.passed, Items::Rules, count, c.at + 1);
    }
    if operation == operations::TEST {
        return go_on(c, c.passed, Items::Conditions, count, c.at + 1);
    }
    go_on(c, c.passed + 1, Items::Conditions, 0, c.at + 1)
}

// To the next instruction or item that has a line.
fn settle(program: &[u32], cursor: Cursor) -> Cursor
    ensures { (skips_of program.now result ≡ false) × (lines_left program.now result ≡ lines_left program.now cursor) }
{
    let mut c = cursor;
    // Kept: a test of the cursor, and no count, ends it.
    while is_silent(program, c) {
        c = pass(program, c);
    }
    c
}

// ---- one line each

// Whose attributes the rules at hand set: the next symbol's, or the left side's after the last one.
fn position(program: &[u32], c: Cursor) -> u32
    ensures { result ≡ position_of program.now c }
{
    let passed = c.passed;
    if passed < record_word(program, c.production, program_parts::SYMBOLS) {
        return passed + 1;
    }
    0
}

fn rule(program: &[u32], c: Cursor, out: &mut [u8]) -> Line
    requires { (c.at < area_length) × (0 < c.left) × (64 ≤ length out.old) }
    ensures { Emits out.old out.new result (rule_here program.now c) (behind_rule c) }
{
    let k = position(program, c);
    let w = word_or_zero(program, c.at);
    let constant = word_or_zero(program, c.at + 1);
    let length = listing_lines::rule_line(out, c.production, k, w, constant);
    let next = go_on(
        c,
        c.passed,
        Items::Rules,
        c.left - 1,
        c.at + program_parts::RULE_WORDS,
    );
    Line { length, next }
}

fn condition(program: &[u32], c: Cursor, out: &mut [u8]) -> Line
    requires { (c.at < area_length) × (0 < c.left) × (64 ≤ length out.old) }
    ensures { Emits out.old out.new result (condition_here program.now c) (behind_condition c) }
{
    let w = word_or_zero(program, c.at);
    let low = word_or_zero(program, c.at + 1);
    let high = word_or_zero(program, c.at + 2);
    let length = listing_lines::condition_line(out, c.production, c.passed, w, low, high);
    let next = go_on(
        c,
        c.passed,
        Items::Conditions,
        c.left - 1,
        c.at + program_parts::CONDITION_WORDS,
    );
    Line { length, next }
}

fn add(c: Cursor, registers: u32, out: &mut [u8]) -> Line
    requires { (c.at < area_length) × (c.passed ≤ symbols_limit) × (64 ≤ length out.old) }
    ensures { Emits out.old out.new result (add_line c.production (c.passed + 1) registers) (behind_add c) }
{
    let length = listing_lines::add_line(out, c.production, c.passed + 1, registers);
    let next = go_on(c, c.passed, Items::Conditions, 0, c.at + 1);
    Line { length, next }
}

// The last line of a production.
fn remove(program: &[u32], production: u32, registers: u32, out: &mut [u8]) -> Line
    requires { (production < 4294967295) × (64 ≤ length out.old) }
    ensures { Emits out.old out.new result (remove_line production registers) (start_of program.now (production + 1)) }
{
    let length = listing_lines::remove_line(out, production, registers);
    let next = start(program, production + 1);
    Line { length, next }
}

// ---- the listing

// Before the first line.
pub fn first(program: &[u32]) -> Cursor
    ensures { BeforeAll program.now result }
{
    start(program, 0)
}

// The first of the lines still to come into the first bytes of `out`, and the cursor of the rest; or none.
pub fn next_line(program: &[u32], cursor: Cursor, out: &mut [u8]) -> Option<Line>
    requires { 64 ≤ length out.old }
    ensures { IfSome result (λ line. line.length ≤ 64) × FirstLineOrOver program.now (lines_left program.now cursor) out.old out.new result }
{
    let c = settle(program, cursor);
    if !is_inside(program, c) {
        return None;
    }
    if 0 < c.left {
        match c.items {
            Items::Rules => return Some(rule(program, c, out)),
            Items::Conditions => return Some(condition(program, c, out)),
        }
    }
    let head = index_of(word_or_zero(program, c.at));
    let registers = program_parts::operand(head) as u32;
    if program_parts::operation(head) == operations::ADD {
        return Some(add(c, registers, out));
    }
    Some(remove(program, c.production, registers, out))
}
