// What each call with a table begins with: the area, the table's verdict, and its program written. 01: "Order: 30, table, 33, 34, then the moves".
#![tactic(auto)]

ghost use Rattle.std.specs.Prelude.{◌≡◌};
ghost use Rattle.meaning.specs.PublicCalls.{made, made_of};
ghost use Rattle.prepare.specs.Making.{made_is, MadeAs};
ghost use Rattle.prepare.specs.Beginning.{BegunAs};

use limits::{AREA, NONTERMINALS, PRODUCTIONS, ROWS};
use records::Answer;

// The area is too short (30), the table is refused, or its program is written, with its length.
#[derive(Clone, Copy)]
pub enum Made {
    Short,
    Refused { number: u32, offset: u32 },
    Written(usize),
}

// Writes the program of an accepted table; words beyond it stay as they are, and all of them where there is no program.
pub fn program_of(table: &[u8], program: &mut [u32]) -> Made
    ensures said { made (made_is result) program.new ≡ made_of table.now program.old }
    ensures cases { MadeAs table.now program.old program.new result }
{
    if program.len() < AREA {
        return Made::Short;
    }
    let mut rows = [0u8; ROWS];
    let mut inherited = [0u8; NONTERMINALS];
    let mut synthesized = [0u8; NONTERMINALS];
    let mut offsets = [0u32; PRODUCTIONS];
    let mut sets = [0u64; PRODUCTIONS];
    match checker::judging::judge_table(
        table,
        &mut inherited,
        &mut synthesized,
        &mut rows,
        &mut offsets,
        &mut sets,
    ) {
        Err(refusal) => Made::Refused {
            number: refusal.fault.number(),
            offset: refusal.offset,
        },
        Ok(sizes) => {
            let length = program::build(
                table,
                &rows,
                &inherited,
                &synthesized,
                &offsets,
                &sets,
                sizes,
                program,
            );
            Made::Written(length)
        }
    }
}

// What a call begins with: it is turned back by 30 or by its table, or the table is accepted and its program written.
#[derive(Clone, Copy)]
pub enum Begun {
    Turned(Answer),
    Ready,
}

// 30 and the table's refusals, as a call answers them.
pub fn begin(table: &[u8], program: &mut [u32]) -> Begun
    ensures { BegunAs table.now program.old program.new result }
{
    match program_of(table, program) {
        Made::Short => Begun::Turned(Answer::Refused {
            number: 30,
            tokens: 0,
        }),
        Made::Refused { number, offset } => Begun::Turned(Answer::TableRefused {
            number,
            offset: offset as u64,
        }),
        Made::Written(length) => Begun::Ready,
    }
}
