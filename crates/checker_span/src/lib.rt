// The stretch of a production of an accepted table: where it lies, and the part handed back.
#![tactic(auto)]

ghost use Rattle.std.specs.Prelude.{◌≡◌};
ghost use Rattle.checker_span.specs.declared.RefusedAs.{RefusedAs};
ghost use Rattle.checker_span.specs.Spans.{span_in, span_is, refused_as, span_by, stretch_is, stretch_by, Inside};

use refusals::{TableFault, TableRefusal};
use table_reader::Stretch;

// The stretch of production p of an accepted table with so many productions, by a walk of its fields.
#[tactic(auto, using(crate::proofs::Cases::span_missing, crate::proofs::Cases::span_found))]
pub fn span_in(table: &[u8], productions: usize, p: usize) -> Result<Stretch, TableRefusal>
    ensures { span_is result ≡ span_in table.now productions p }
{
    if p < productions {
        Ok(table_reader::stretch_of(table, p))
    } else {
        Err(TableRefusal {
            fault: TableFault::NoProduction,
            offset: 0,
        })
    }
}

// Any number and offset that a caller has in the place of a refusal of ours.
#[derive(Clone, Copy, Debug, PartialEq, Eq)]
pub struct RefusedAs {
    pub number: u32,
    pub offset: u32,
}

// What says by which number and at which offset a table is refused: a refusal of ours, or a caller's.
pub trait Refusing: Copy {
    ghost refused_of: { Self → RefusedAs };

    fn refused(self) -> RefusedAs
        ensures { result ≡ refused_of self };
}

impl Refusing for TableRefusal {
    ghost refused_of = { refused_as };

    fn refused(self) -> RefusedAs {
        RefusedAs {
            number: self.fault.number(),
            offset: self.offset,
        }
    }
}

impl Refusing for RefusedAs {
    ghost refused_of = { λ r. r };

    fn refused(self) -> RefusedAs {
        self
    }
}

// The part that a stretch is. On a refusal an empty part, with number and offset in the two lent numbers; otherwise these stay as they were.
// Kept: 01 fixes this form, "on a refusal an empty part, number and offset in two lent numbers".
pub fn part<'a, R: Refusing>(
    table: &'a [u8],
    span: Result<Stretch, R>,
    number: &mut u32,
    offset: &mut u32,
) -> &'a [u8]
    requires { Inside table.now (span_by R.refused_of span) }
    ensures { stretch_is result.now number.new offset.new ≡ stretch_by table.now (span_by R.refused_of span) number.old offset.old }
{
    match span {
        Ok(stretch) => &table[stretch.from..stretch.to],
        Err(refusal) => {
            let refused = refusal.refused();
            *number = refused.number;
            *offset = refused.offset;
            &table[..0]
        }
    }
}
