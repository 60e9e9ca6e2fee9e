// A run's state and a call's answer, as one call hands them to the next. Above this crate a state is made by these functions and asked by them, so that a new status or kind is a matter of this crate.
#![tactic(auto)]

ghost use Rattle.std.specs.Prelude.{◌≡◌, ℕ, is_ok};
ghost use Rattle.meaning.specs.Calls as Calls;
ghost use Rattle.meaning_inner.specs.Inner.{is_closed, is_running, is_waiting, is_outer, begins_at};
ghost use Rattle.records.specs.Records.{status_is, kind_is, state_is};
ghost use Rattle.records.specs.declared.Status.TheVariants.{Running, Waiting, Closed};
ghost use Rattle.records.specs.declared.Kind.TheVariants.{Inner, Outer};
ghost use Rattle.records.specs.declared.Answer.TheVariants.{Refused};
ghost use Rattle.refusals.specs.Numbers.{refusal_number};
ghost use Rattle.records.specs.Numbered.{number_or_zero};
ghost use Rattle.records.specs.States.{running_at, with_status, with_kind, closed_at_zero, gate_of, gate_number, is_admitted, brought_back, not_opened};

use refusals::Refusal;

// A run goes on, waits for the inner run above it, or is closed.
#[derive(Clone, Copy, Debug, PartialEq, Eq)]
pub enum Status {
    Running,
    Waiting,
    Closed,
}

// 02 (h): "The inner record keeps the heights where it begins": of the registers, of the places.
#[derive(Clone, Copy, Debug, PartialEq, Eq)]
pub enum Kind {
    Outer,
    Inner { registers: u64, places: u64 },
}

// How a run stands and of what kind it is, tokens read, moves made, and the heights of both stacks.
#[derive(Clone, Copy, Debug, PartialEq, Eq)]
pub struct State {
    pub status: Status,
    pub kind: Kind,
    pub tokens: u64,
    pub moves: u64,
    pub registers: u64,
    pub places: u64,
}

#[derive(Clone, Copy, Debug, PartialEq, Eq)]
pub enum Answer {
    // Opened, fed or previewed: the moves made since opening.
    More(u64),
    // Finished: the segment's value, and the moves.
    Value(i64, u64),
    // A refusal, with the tokens read (0 for 30, 33, 34 and 38 to 40). An opening: 30 to 32. A feed: 20 to 23, 30 to 35, 38, 40. A finish: 22 to 24, 30 to 35, 40.
    // A preview: as a feed, with 39 and without 38. An inner opening: 30 to 34, 40. An inner feed or finish: as the run alone, without 40. Giving up: 30, 33, 34.
    Refused { number: u32, tokens: u64 },
    // One of 1 to 13, with the field's offset.
    TableRefused { number: u32, offset: u64 },
}

// What a call hands back.
#[derive(Clone, Copy, Debug, PartialEq, Eq)]
pub struct Handed {
    pub state: State,
    pub answer: Answer,
}

// What stands for a refusal by its number: a refusal of ours, or any number that a caller has.
pub trait Numbered: Copy {
    ghost number_of: { Self → ℕ };

    // What stands for a refusal of ours.
    fn of(refusal: Refusal) -> Self
        ensures { number_of result ≡ refusal_number refusal };
}

impl Numbered for Refusal {
    ghost number_of = { refusal_number };

    fn of(refusal: Refusal) -> Refusal {
        refusal
    }
}

// Any number, also one that is no refusal's.
impl Numbered for u32 {
    ghost number_of = { λ n. n };

    fn of(refusal: Refusal) -> u32 {
        refusal.number()
    }
}

impl Answer {
    // What turns a call back that read no token.
    pub fn turned_back(refusal: Refusal) -> Answer
        ensures { result ≡ Refused (refusal_number refusal) 0 }
    {
        Answer::Refused {
            number: refusal.number(),
            tokens: 0,
        }
    }
}

impl State {
    // ---- states made

    // An outer run that goes on.
    pub fn running(tokens: u64, moves: u64, registers: u64, places: u64) -> State
        ensures { result ≡ running_at tokens moves registers places }
    {
        State {
            status: Status::Running,
            kind: Kind::Outer,
            tokens,
            moves,
            registers,
            places,
        }
    }

    // 01: "the record is closed and all zero".
    pub fn nothing() -> State
        ensures { result ≡ closed_at_zero }
    {
        State {
            status: Status::Closed,
            kind: Kind::Outer,
            tokens: 0,
            moves: 0,
            registers: 0,
            places: 0,
        }
    }

    fn with_status(self, status: Status) -> State
        ensures { result ≡ with_status status self }
    {
        State { status, ..self }
    }

    fn with_kind(self, kind: Kind) -> State
        ensures { result ≡ with_kind kind self }
    {
        State { kind, ..self }
    }

    // 02 (h): "Opening it marks the outer record as waiting".
    pub fn waiting(self) -> State
        ensures { result ≡ with_status Waiting self }
    {
        self.with_status(Status::Waiting)
    }

    // 02 (h): "ending it lifts the mark".
    pub fn resumed(self) -> State
        ensures { result ≡ with_status Running self }
    {
        self.with_status(Status::Running)
    }

    pub fn closed(self) -> State
        ensures { result ≡ with_status Closed self }
    {
        self.with_status(Status::Closed)
    }

    // An inner run's, with the heights where it begins.
    pub fn inside(self, registers: u64, places: u64) -> State
        ensures { result ≡ with_kind (Inner registers places) self }
    {
        self.with_kind(Kind::Inner { registers, places })
    }

    // The state as of a run alone.
    pub fn alone(self) -> State
        ensures { result ≡ with_kind Outer self }
    {
        self.with_kind(Kind::Outer)
    }

    // Of the kind that another state has.
    pub fn like(self, other: State) -> State
        ensures { result ≡ with_kind other.kind self }
    {
        self.with_kind(other.kind)
    }

    // ---- how a run stands

    pub fn is_open(self) -> bool
        ensures { result ≡ Calls.is_open (state_is self) }
    {
        self.is_running() && self.is_outer()
    }

    pub fn is_closed(self) -> bool
        ensures { result ≡ is_closed (status_is self.status) }
    {
        self.status == Status::Closed
    }

    pub fn is_running(self) -> bool
        ensures { result ≡ is_running (status_is self.status) }
    {
        self.status == Status::Running
    }

    pub fn is_waiting(self) -> bool
        ensures { result ≡ is_waiting (status_is self.status) }
    {
        self.status == Status::Waiting
    }

    pub fn is_outer(self) -> bool
        ensures { result ≡ is_outer (kind_is self.kind) }
    {
        self.kind == Kind::Outer
    }

    // An inner run that begins at these heights.
    pub fn begins_at(self, height: u64, top: u64) -> bool
        ensures { result ≡ begins_at (kind_is self.kind) height top }
    {
        matches!(self.kind, Kind::Inner { registers, places } if height == registers && top == places)
    }

    // What turns a call back before the stacks are looked at: 33 or 40, and `other` for an inner record, whatever its number.
    pub fn gate<R: Numbered>(self, other: R) -> Result<(), R>
        ensures { (number_or_zero R.number_of result ≡ gate_number (gate_of (R.number_of other) (state_is self))) × (is_ok result ≡ is_admitted (gate_of (R.number_of other) (state_is self))) }
    {
        match (self.status, self.kind) {
            (Status::Closed, _) => Err(R::of(Refusal::Closed)),
            (_, Kind::Inner { .. }) => Err(other),
            (Status::Waiting, Kind::Outer) => Err(R::of(Refusal::Waiting)),
            (Status::Running, Kind::Outer) => Ok(()),
        }
    }
}

// ---- what a call hands back that makes no move

// 01: "the record comes back as brought".
pub fn as_brought(state: State, answer: Answer) -> Handed
    ensures { result ≡ brought_back state answer }
{
    Handed { state, answer }
}

// 01: "or closed and all zero from an opening".
pub fn not_opened(answer: Answer) -> Handed
    ensures { result ≡ not_opened answer }
{
    Handed {
        state: State::nothing(),
        answer,
    }
}
