// The declared types.

// What is known of the operands of a goal that waits: one is as wanted; neither is; only the first or the second can be; nothing. It is a
// word that a match goes through once: nothing keeps it to choose steps by.
#[derive(Clone, Copy)]
pub enum Stand {
    Done,
    Dead,
    First,
    Second,
    Open,
}
