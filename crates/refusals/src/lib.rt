// The refusals of 01 and 02 as values: what turns a table, a move or a call back. Their numbers stand here alone; the code names the refusals.
#![tactic(auto)]

ghost use Rattle.std.specs.Prelude.{◌≡◌};
ghost use Rattle.refusals.specs.Numbers.{fault_number, refusal_number};
ghost use Rattle.refusals.specs.declared.CallRefusal.TheVariants.{OfCall, OfTable};

// What is wrong with a table: 1 to 13, and 14 of a production asked for.
#[derive(Clone, Copy, Debug, PartialEq, Eq)]
pub enum TableFault {
    // 1: "too long"
    TooLong,
    // 2: "field cut short"
    CutShort,
    // 3: "tag out of order, or table over too early"
    OutOfOrder,
    // 4: "length, count or constant outside its limits"
    OutsideLimits,
    // 5: "symbol, attribute, occurrence, function or kind unknown"
    Unknown,
    // 6: "start symbol with inherited attributes or without the result attribute"
    StartAttributes,
    // 7: "rule sets an input, or something reads an output"
    WrongSide,
    // 8: "second rule, or none"
    NotOneRule,
    // 9: "inherited rule reads position k or above"
    ReadsAhead,
    // 10: "low above high"
    LowAboveHigh,
    // 11: "nonterminal unreachable or deriving no token string"
    Useless,
    // 12: "nonterminal that can reach itself leftmost without reading"
    LeftRecursive,
    // 13: "the lowest production that clashes with an earlier one"
    Clash,
    // 14: "no such production"
    NoProduction,
}

// What turns a move or a call back.
#[derive(Clone, Copy, Debug, PartialEq, Eq)]
pub enum Refusal {
    // 20: "token not below T, judged before its moves"
    UnknownToken,
    // 21: "token that is not the expected one, is in no alternative's set, or follows a start symbol already left"
    UnexpectedToken,
    // 22: "condition false, also when alternatives hold the token or the end but none has its entry conditions met"
    ConditionFalse,
    // 23: "value outside 32 bits", since 02 (d) outside its limits
    ValueOutside,
    // 24: "segment over where a token is expected or no alternative's set holds the end"
    OverTooEarly,
    // 30: "program area short"
    AreaShort,
    // 31: "an addition would pass the lent registers"
    NoRegister,
    // 32: "a push would pass the lent places"
    NoPlace,
    // 33: a closed record
    Closed,
    // 34: "record or stacks don't fit"
    Unfit,
    // 35: "a token after 65,535, or a move after 4,294,967,295"
    LimitReached,
    // 36: an output buffer that is too short
    BufferShort,
    // 37: candidates that don't suit their list
    Unsuited,
    // 38: lists of unequal length
    UnequalLists,
    // 39: scratch that is too short
    ScratchShort,
    // 40: a run that waits, or a third one
    Waiting,
    // 41: a sheet that is too short
    SheetShort,
    // 42: a window's size, or its buffer
    WindowUnfit,
    // 43: a sheet that does not describe the segment's tree
    SheetWrong,
}

// A fault of a table, with the offset of the field that it concerns.
#[derive(Clone, Copy, Debug, PartialEq, Eq)]
pub struct TableRefusal {
    pub fault: TableFault,
    pub offset: u32,
}

// What turns a call with a table back: the call itself, or its table.
#[derive(Clone, Copy, Debug, PartialEq, Eq)]
pub enum CallRefusal {
    OfCall(Refusal),
    OfTable(TableRefusal),
}

impl TableFault {
    pub fn number(self) -> u32
        ensures { result ≡ fault_number self }
    {
        match self {
            TableFault::TooLong => 1,
            TableFault::CutShort => 2,
            TableFault::OutOfOrder => 3,
            TableFault::OutsideLimits => 4,
            TableFault::Unknown => 5,
            TableFault::StartAttributes => 6,
            TableFault::WrongSide => 7,
            TableFault::NotOneRule => 8,
            TableFault::ReadsAhead => 9,
            TableFault::LowAboveHigh => 10,
            TableFault::Useless => 11,
            TableFault::LeftRecursive => 12,
            TableFault::Clash => 13,
            TableFault::NoProduction => 14,
        }
    }
}

impl Refusal {
    pub fn number(self) -> u32
        ensures { result ≡ refusal_number self }
    {
        match self {
            Refusal::UnknownToken => 20,
            Refusal::UnexpectedToken => 21,
            Refusal::ConditionFalse => 22,
            Refusal::ValueOutside => 23,
            Refusal::OverTooEarly => 24,
            Refusal::AreaShort => 30,
            Refusal::NoRegister => 31,
            Refusal::NoPlace => 32,
            Refusal::Closed => 33,
            Refusal::Unfit => 34,
            Refusal::LimitReached => 35,
            Refusal::BufferShort => 36,
            Refusal::Unsuited => 37,
            Refusal::UnequalLists => 38,
            Refusal::ScratchShort => 39,
            Refusal::Waiting => 40,
            Refusal::SheetShort => 41,
            Refusal::WindowUnfit => 42,
            Refusal::SheetWrong => 43,
        }
    }
}

impl From<TableRefusal> for CallRefusal {
    ghost from_gives = { λ t r. r ≡ OfTable t };

    fn from(refusal: TableRefusal) -> CallRefusal {
        CallRefusal::OfTable(refusal)
    }
}

impl From<Refusal> for CallRefusal {
    ghost from_gives = { λ c r. r ≡ OfCall c };

    fn from(refusal: Refusal) -> CallRefusal {
        CallRefusal::OfCall(refusal)
    }
}
