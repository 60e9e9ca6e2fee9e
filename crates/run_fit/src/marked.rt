// Many cells at once: whether all are marked.
ghost use Rattle.std.specs.Prelude.{◌≡◌};
ghost use Rattle.meaning.specs.Base.{all};
ghost use Rattle.meaning.specs.Calls.{is_mark};

// Many cells: the bits in which they differ from the mark are gathered with no way out of the loop, eight cells a turn, so that it takes several at once and does not depend on where its code lies.
pub fn all_marked(cells: &[i64]) -> bool
    ensures { result ≡ all is_mark cells.now }
{
    let mut d0: i64 = 0;
    let mut d1: i64 = 0;
    let mut d2: i64 = 0;
    let mut d3: i64 = 0;
    let mut d4: i64 = 0;
    let mut d5: i64 = 0;
    let mut d6: i64 = 0;
    let mut d7: i64 = 0;
    let mut i = 0;
    // Kept: eight cells a turn, each with bits of its own, for speed.
    while 8 <= cells.len() - i {
        d0 |= cells[i] ^ value::MARK;
        d1 |= cells[i + 1] ^ value::MARK;
        d2 |= cells[i + 2] ^ value::MARK;
        d3 |= cells[i + 3] ^ value::MARK;
        d4 |= cells[i + 4] ^ value::MARK;
        d5 |= cells[i + 5] ^ value::MARK;
        d6 |= cells[i + 6] ^ value::MARK;
        d7 |= cells[i + 7] ^ value::MARK;
        i += 8;
    }
    if d0 | (d1 | (d2 | (d3 | (d4 | (d5 | (d6 | d7)))))) != 0 {
        return false;
    }
    crate::cells::few_marked(&cells[i..])
}
