// Stretches of cells: all marked, all with values, all zero.
ghost use Rattle.std.specs.Prelude.{◌≡◌, eqb};
ghost use Rattle.meaning.specs.Base.{all};
ghost use Rattle.meaning.specs.Value.{in_range};
ghost use Rattle.meaning.specs.Calls.{is_mark};

// Few cells, as a symbol has: what follows need not wait for them.
pub fn few_marked(cells: &[i64]) -> bool
    ensures { result ≡ all is_mark cells.now }
{
    cells.iter().copied().all(value::is_mark)
}

pub fn all_valued(cells: &[i64]) -> bool
    ensures { result ≡ all in_range cells.now }
{
    cells.iter().copied().all(value::in_range)
}

// Many cells: their bits are gathered with no way out of the loop, so that it takes several at once.
pub fn all_zero(cells: &[u32]) -> bool
    ensures { result ≡ all (λ p. eqb p 0) cells.now }
{
    cells.iter().fold(0, |bits, p| bits | *p) == 0
}
