// The limits and fixed numbers of document 01 that the code names, each in this one place. Those of values stand in `value`.
#![tactic(auto)]

// ---- a table

// "At most 32,768 bytes of fields".
pub const TABLE: usize = 32768;

// "terminals T (1 to 63), nonterminals N (1 to 48)".
pub const TERMINALS: usize = 63;

pub const NONTERMINALS: usize = 48;

// "inherited count, synthesized count; together at most 8".
pub const ATTRIBUTES: usize = 8;

// "1 to 128 productions", "right-side length (0 to 12)".
pub const PRODUCTIONS: usize = 128;

pub const SYMBOLS: usize = 12;

// The positions of a production: its left side, and the symbols of its right side.
pub const POSITIONS: usize = SYMBOLS + 1;

// The bytes of the rows that hold all productions, 16 for each.
pub const ROWS: usize = 16 * PRODUCTIONS;

// The bounds of one side for the attributes of all productions' left sides.
pub const BOUNDS: usize = ATTRIBUTES * PRODUCTIONS;

// "At most 1,024 rules", of conditions "At most 512".
pub const RULES: usize = 1024;

pub const CONDITIONS: usize = 512;

// "quot a c, toward zero, c from 1 to 1,000,000".
pub const DIVISOR: usize = 1000000;

// ---- a run

// "At most 4,096 registers and 1,024 places are used"; cells past these "are neither read nor written and don't count as lent".
pub const REGISTERS: usize = 4096;

pub const PLACES: usize = 1024;

// "A program area of at least 16,384 32-bit words is lent".
pub const AREA: usize = 16384;

// "35 a token after 65,535, or a move after 4,294,967,295"; TOKENS_BEFORE are the most after which a token may come.
pub const TOKENS_LIMIT: u64 = 65535;

pub const TOKENS_BEFORE: u64 = TOKENS_LIMIT - 1;

pub const MOVES_LIMIT: u64 = 4294967295;

// The whole segment's place until the start symbol is left, and then.
pub const SEGMENT: u32 = 32768;

pub const LEFT: u32 = 32769;

// "the whole segment is production 128".
pub const WHOLE: usize = PRODUCTIONS;

// What comes next where the segment is over, in the place of a token's number.
pub const END: usize = TERMINALS;

// The depth of a tree whose walk fits the places: the whole segment has one of them.
pub const DEPTH: usize = PLACES - 1;

// "34 record or stacks don't fit".
pub const UNFIT: u32 = 34;

// The longest line of a listing.
pub const LINE: usize = 64;

// ---- a ranking and a window

// 02 (b): "up to 512 candidate segments".
pub const CANDIDATES: usize = 512;

// 02 (k): a size "outside 1 to 64" is a 42.
pub const WINDOW: usize = 64;

// What a cell without a number up to that is read as; and so many slots have the leaders, with that of the value that comes.
pub const PAST_WINDOW: usize = WINDOW + 1;
