// The answer of the writer of house order as lent numbers.
ghost use Rattle.std.specs.Prelude.{◌≡◌};
ghost use Rattle.host_answers.specs.declared.housed.TurnedBack.{TurnedBack};
ghost use Rattle.host_answers.specs.housed.HouseNumbers.{NumberedBy, told_as};

use refusals::CallRefusal;

// Any number and offset that a caller has in the place of what turns a call of ours back.
#[derive(Clone, Copy, Debug, PartialEq, Eq)]
pub struct TurnedBack {
    pub number: u32,
    pub offset: u32,
}

// What says by which number and offset a writing is turned back: a refusal of ours, or a caller's.
pub trait TurnsBack: Copy {
    ghost told_of: { Self → TurnedBack };

    fn told(self) -> TurnedBack
        ensures { result ≡ told_of self };
}

impl TurnsBack for CallRefusal {
    ghost told_of = { told_as };

    fn told(self) -> TurnedBack {
        let (number, offset) = match self {
            CallRefusal::OfCall(refusal) => (refusal.number(), 0),
            CallRefusal::OfTable(refusal) => (refusal.fault.number(), refusal.offset),
        };
        TurnedBack { number, offset }
    }
}

impl TurnsBack for TurnedBack {
    ghost told_of = { λ r. r };

    fn told(self) -> TurnedBack {
        self
    }
}

// The length of what is written; number and offset are then 0. On a refusal these are the refusal's, 36 and 0 where the buffer is too
// short, and the length is 0.
pub fn tell<R: TurnsBack>(
    written: Result<usize, R>,
    length: &mut usize,
    number: &mut u32,
    offset: &mut u32,
)
    ensures { NumberedBy R.told_of length.new number.new offset.new written }
{
    (*length, *number, *offset) = match written {
        Ok(n) => (n, 0, 0),
        Err(refusal) => {
            let told = refusal.told();
            (0, told.number, told.offset)
        }
    };
}
