// The table's words (FORMAT 5.2), declared. specs/Lines says what they mean.

// Of a row: C; C(F); the change's condition; its range tests; M; S of version 1 and of version 2; F of the row differs from row 1 or 2 (the
// second?), as that is or after the change (after?). A claim is a word of the table that a match goes through: no steps are chosen by it.
#[derive(Clone, Copy)]
pub enum Claim {
    Listed,
    Relisted,
    Chosen,
    Fitting,
    Moving,
    Staying,
    Lasting,
    Differing(bool, bool),
}

// A claim of the first row or of the second, or what denies it.
#[derive(Clone, Copy)]
pub enum Part {
    First(Claim),
    Second(Claim),
    NotFirst(Claim),
    NotSecond(Claim),
}

// Parts joined by and; `pairs`: it speaks of two rows.
#[derive(Clone, Copy)]
pub struct Line {
    pub pairs: bool,
    pub parts: &'static [Part],
}
