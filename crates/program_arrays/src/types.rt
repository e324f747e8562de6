// Where a program that is being written into lent arrays ends: so many instructions and places so far.
#[derive(Clone, Copy)]
pub struct End {
    pub count: usize,
    pub places: usize,
}
