// What the call that writes a tree's sheet answers.
#![tactic(auto)]

#[derive(Clone, Copy)]
pub enum Answer {
    // The segment's value, the moves, and the length of the sheet.
    Value(i64, u64, u64),
    // One of 20 to 24, 31, 32 or 35 with the tokens read; 38 or 41 with 0.
    Refused { number: u32, tokens: u64 },
    // One of 1 to 13, with the field's offset.
    TableRefused { number: u32, offset: u64 },
}
