// The reader of a table's fields: the table and its own position. Its functions only take it apart and hand slice and position on.
#![tactic(auto)]

ghost use Rattle.std.specs.Prelude.{◌≡◌, suc};
ghost use Rattle.table_reader.specs.Fields.{past, nth_production};

// 01: "A small reader that keeps the table and its own position walks the fields."
#[derive(Clone, Copy, Debug)]
pub struct Reader<'a> {
    table: &'a [u8],
    at: usize,
}

// From one offset to another.
#[derive(Clone, Copy, Debug, PartialEq, Eq)]
pub struct Stretch {
    pub from: usize,
    pub to: usize,
}

// The offset after the field at an offset; the table's end where it is cut short.
#[tactic(auto, using(crate::proofs::Walking::past_end, crate::proofs::Walking::past_short, crate::proofs::Walking::past_whole))]
pub fn past_field(table: &[u8], at: usize) -> usize
    ensures { result ≡ past table.now at }
{
    if table.len() <= at {
        return table.len();
    }
    if let Some(size) = table_fields::size_at(table, at) {
        at + 3 + size
    } else {
        table.len()
    }
}

// Where, from an offset on, the first tag 3 field after n others stands; the table's end where there are no more than n.
#[tactic(auto, using(crate::proofs::Walking::found_none, crate::proofs::Walking::found_here, crate::proofs::Walking::found_later, crate::proofs::Walking::found_next, crate::proofs::Walking::less_left))]
pub fn find_production(table: &[u8], from: usize, n: usize) -> usize
    ensures { result ≡ nth_production table.now from n }
{
    let mut at = from;
    let mut left = n;
    // Kept: each step is as long as the field that it passes, so no range or iterator of std has these offsets.
    while at < table.len() {
        if table[at] == 3 {
            if left == 0 {
                return at;
            }
            left -= 1;
        }
        at = past_field(table, at);
    }
    table.len()
}

impl<'a> Reader<'a> {
    // At the table's first field.
    pub fn new(table: &'a [u8]) -> Reader<'a>
        ensures { (result.table ≡ table.entry) × (result.at ≡ 0) }
    {
        Reader { table, at: 0 }
    }

    // Past the field that it stands at.
    pub fn next(self) -> Reader<'a>
        ensures { (result.table ≡ self.entry.table) × (result.at ≡ past self.entry.table.now self.entry.at) }
    {
        Reader {
            table: self.table,
            at: past_field(self.table, self.at),
        }
    }

    // At the first tag 3 field after n others, from where it stands on; or at the table's end.
    pub fn production(self, n: usize) -> Reader<'a>
        ensures { (result.table ≡ self.entry.table) × (result.at ≡ nth_production self.entry.table.now self.entry.at n) }
    {
        Reader {
            table: self.table,
            at: find_production(self.table, self.at, n),
        }
    }
}

// Where production p stands, 01: "from its tag 3 to the next or the end". Without such a production both are the table's end.
// Its parameters are plain, so that a caller's proof meets no reader.
#[tactic(auto, using(crate::proofs::Walking::follows))]
pub fn stretch_of(table: &[u8], p: usize) -> Stretch
    ensures { (result.from ≡ nth_production table.now 0 p) × (result.to ≡ nth_production table.now 0 (suc p)) }
{
    let here = Reader::new(table).production(p);
    let next = here.next().production(0);
    Stretch {
        from: here.at,
        to: next.at,
    }
}
