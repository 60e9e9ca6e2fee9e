// The layout of the program (docs/PROGRAM.md) in code: how many words each thing has, which word of it is which, and the parts of a word. Every crate that reads a program or a place takes it apart here, and every crate that writes one puts its words together here.
#![tactic(auto)]

ghost use Rattle.std.specs.Prelude.{◌+◌, ◌*◌, ◌≤◌, ◌<◌, ◌≡◌, length};
ghost use Rattle.meaning.specs.Grammar.{place_at, place_production, place_passed};
ghost use Rattle.meaning.specs.Program.{packed, head_of};
ghost use Rattle.program_parts.specs.Items.{words_of};
ghost use Rattle.theory_program.specs.Parts.{head_operation, head_operand, directory_number, directory_scheme, rule_target, rule_function, rule_first, rule_second, condition_kind, condition_first, condition_second, wait_left, wait_passed, wait_marked, wait_inherited, wait_symbol, in_set};

// ---- the words on the whole segment

// The whole segment's expect.
pub const EXPECT: usize = 0;

// Where the records begin.
pub const RECORDS: usize = 2;

// The number of terminals.
pub const TERMINALS: usize = 3;

// How many registers the start symbol has.
pub const REGISTERS: usize = 4;

// The number of productions.
pub const PRODUCTIONS: usize = 6;

// The set of terminals that carry a value, in two words.
pub const CARRIERS: usize = 7;

// Where the directory begins.
pub const DIRECTORY: usize = 9;

// ---- how many words each has

// What the directory says of a nonterminal.
pub const DIRECTORY_WORDS: usize = 64;

// How much the scheme's address counts in a word of the directory; below it stands the production's number plus 1.
pub const DIRECTORY_SCHEME: usize = 256;

// A production's record.
pub const RECORD_WORDS: usize = 8;

// What the places of a production wait at.
pub const WAIT_WORDS: usize = limits::SYMBOLS;

// A rule.
pub const RULE_WORDS: usize = 2;

// A condition.
pub const CONDITION_WORDS: usize = 3;

// What an evaluate, or a test, is followed by.
#[derive(Clone, Copy, Debug, PartialEq, Eq)]
pub enum Items {
    Rules,
    Conditions,
}

impl Items {
    // How many words each of them takes.
    pub fn words(self) -> usize
        ensures { result ≡ words_of self }
    {
        match self {
            Items::Rules => RULE_WORDS,
            Items::Conditions => CONDITION_WORDS,
        }
    }
}

// ---- the words of a record

// The next production with the same left side, its number plus 1, or 0.
pub const NEXT: usize = 1;

// The FIRST-then-FOLLOW set, in two words.
pub const STARTS: usize = 2;

// Where the body begins.
pub const BODY: usize = 4;

// The number of entry tests.
pub const TESTS: usize = 5;

// Where the scheme begins.
pub const SCHEME: usize = 6;

// The number of symbols on the right side.
pub const SYMBOLS: usize = 7;

// Kept: words are put together and taken apart by numbers, since docs/PROGRAM.md fixes where each part of a word stands

// ---- an instruction's head word

pub fn operation(head: usize) -> usize
    ensures { result ≡ head_operation head }
{
    head % 8
}

pub fn operand(head: usize) -> usize
    ensures { result ≡ head_operand head }
{
    head / 8
}

// The head word of an operation with its operand.
pub fn head(operation: u32, operand: u32) -> u32
    requires { (operation < 8) × (operand < 65536) }
    ensures { result ≡ head_of operation operand }
{
    operation + 8 * operand
}

// ---- a word of the directory

// The production's number plus 1, or 0.
pub fn directory_number(word: usize) -> usize
    ensures { result ≡ directory_number word }
{
    word % DIRECTORY_SCHEME
}

// Where its scheme begins, if it has no entry tests.
pub fn directory_scheme(word: usize) -> usize
    ensures { result ≡ directory_scheme word }
{
    word / DIRECTORY_SCHEME
}

// ---- a rule's first word

// Its target, its function, and the selectors of its operands, 0 where it has none.
pub fn rule_word(target: u32, function: u32, first: u32, second: u32) -> u32
    requires { (target < 4096) × (function < 256) × (first < 4096) × (second < 4096) }
    ensures { result ≡ packed target function first second }
{
    target + 128 * function + 2048 * first + 262144 * second
}

pub fn rule_target(word: u32) -> u32
    ensures { result ≡ rule_target word }
{
    word % 128
}

pub fn rule_function(word: u32) -> u32
    ensures { result ≡ rule_function word }
{
    word / 128 % 16
}

// The selector of the first operand, or 0.
pub fn rule_first(word: u32) -> u32
    ensures { result ≡ rule_first word }
{
    word / 2048 % 128
}

// The selector of the second operand, or 0.
pub fn rule_second(word: u32) -> u32
    ensures { result ≡ rule_second word }
{
    word / 262144
}

// ---- a condition's first word

// Its kind and its selectors; a range has one.
pub fn condition_word(first: u32, kind: u32, second: u32) -> u32
    requires { (first < 4096) × (kind < 256) × (second < 4096) }
    ensures { result ≡ packed first kind second 0 }
{
    first + 128 * kind + 2048 * second
}

// 0 for a range, 1 for "a at most b", 2 for "a at most b plus a constant".
pub fn condition_kind(word: u32) -> u32
    ensures { result ≡ condition_kind word }
{
    word / 128 % 16
}

pub fn condition_first(word: u32) -> u32
    ensures { result ≡ condition_first word }
{
    word % 128
}

pub fn condition_second(word: u32) -> u32
    ensures { result ≡ condition_second word }
{
    word / 2048 % 128
}

// ---- a place

// The place of a production of which some symbols are passed.
pub fn place(production: usize, passed: usize) -> u32
    requires { (production < 65536) × (passed < 256) }
    ensures { result ≡ place_at production passed }
{
    (production * 256 + passed) as u32
}

pub fn production(place: usize) -> usize
    ensures { result ≡ place_production place }
{
    place / 256
}

// How many symbols of the production are passed.
pub fn passed(place: usize) -> usize
    ensures { result ≡ place_passed place }
{
    place % 256
}

// ---- the word that says what a place waits at

// The left side, the registers passed, those of the symbol that stand marked, those it inherits, its byte, and a bit.
pub fn wait_word(left: u32, passed: u32, marked: u32, own: u32, symbol: u32) -> u32
    requires { (left < 256) × (passed < 65536) × (marked < 256) × (own < 256) × (symbol < 256) }
    ensures { result ≡ left + 64 * passed + 8192 * marked + 131072 * own + 2097152 * symbol + 536870912 }
{
    left + 64 * passed + 8192 * marked + 131072 * own + 2097152 * symbol + 536870912
}

// The production's left nonterminal.
pub fn wait_left(word: usize) -> usize
    ensures { result ≡ wait_left word }
{
    word % 64
}

// How many registers the symbols passed have.
pub fn wait_passed(word: usize) -> usize
    ensures { result ≡ wait_passed word }
{
    word / 64 % 128
}

// How many registers of the awaited symbol stand marked.
pub fn wait_marked(word: usize) -> usize
    ensures { result ≡ wait_marked word }
{
    word / 8192 % 16
}

// How many registers the awaited symbol inherits.
pub fn wait_inherited(word: usize) -> usize
    ensures { result ≡ wait_inherited word }
{
    word / 131072 % 16
}

// How much the awaited symbol's number counts in the word.
pub const WAIT_SYMBOL: usize = 2097152;

// The awaited symbol as in the table.
pub fn wait_symbol(word: usize) -> usize
    ensures { result ≡ wait_symbol word }
{
    word / WAIT_SYMBOL % 256
}

// ---- sets

// Whether the set in the two words from `at` on holds a token; 63 is the end.
pub fn in_set(program: &[u32], at: usize, token: usize) -> bool
    requires { (at + 2 ≤ length program.now) × (token < 64) }
    ensures { result ≡ in_set program.now at token }
{
    (program[at + token / 32] >> (token % 32)) % 2 == 1
}
