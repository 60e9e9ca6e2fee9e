// What the check of a window's buffer finds on its walk from the newest value to the oldest. No code: types, and why the walk finds it.
#![tactic(auto)]

// What the check has found in a well kept buffer, with a value to bring: the slots of its leaders are the last of the 65 lent cells.
#[derive(Clone, Copy)]
pub struct Found {
    pub size: usize,
    pub held: usize,
    pub next: usize,
    // Total and largest as they stand: MARK before the first value.
    pub total: i64,
    pub largest: i64,
    // Total and largest with the value, and where its leaders begin in the lent cells.
    pub sum: i64,
    pub top: i64,
    pub from: usize,
}

// The numbers in a window's first cells, but for its size.
#[derive(Clone, Copy)]
pub struct Numbers {
    pub held: usize,
    pub next: usize,
    pub count: usize,
    pub total: i64,
}

// A walk from the newest value to the oldest, with a value to bring.
#[derive(Clone, Copy)]
pub struct Walk {
    // The slot looked at, and its value.
    pub slot: usize,
    pub last: i64,
    // The sum of the values so far, and the largest of them.
    pub sum: i64,
    pub top: i64,
    // How many leader cells are not matched yet.
    pub unmatched: usize,
    // Where the leaders with the value to bring begin in the lent cells, and the value at the first of them.
    pub from: usize,
    pub best: i64,
}
