// The declared types.

// The two operands of a goal that is split: which is wanted first, and which then.
#[derive(Clone, Copy)]
pub struct Halves {
    pub one: usize,
    pub other: usize,
}
