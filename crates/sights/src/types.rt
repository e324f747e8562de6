// The declared types: what a column's term is read from. specs/Sights says what it means.
use question::types::{Column, Setting};

// What becomes of the changed table's columns, from its first on: the values of a row that is put in, or what the settings say. Columns
// past the last one named are kept.
#[derive(Clone, Copy)]
pub enum Modes<'a> {
    Row(&'a [i32]),
    Settings(&'a [Setting]),
}

// Which term stands for a column: of the first row or of the second, as it is or moved by the modes, which are of the columns from number
// `first` on.
#[derive(Clone, Copy)]
pub struct Sight<'a> {
    pub columns: &'a [Column],
    pub modes: Modes<'a>,
    pub first: usize,
    pub second: bool,
    pub moved: bool,
}
