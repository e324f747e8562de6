// The declared types: a question as the product holds it. specs/Held says what the used fields mean.
ghost use Rattle.std.specs.Prelude.{◌≤◌};
ghost use Rattle.page_meaning.specs.Limits.{most_tokens};
ghost use Rattle.page_questions.specs.Guarantees.{Accepted};
ghost use Rattle.question.specs.Sizes.{ShapeHeld, ChangeHeld};
ghost use Rattle.question.specs.Meanings.{question_with};
ghost use Rattle.question.specs.Once.{Accepted_prop};

use limits::{COLUMNS, ROWS, TABLES, TOKENS};

// < ≤ = ≥ > ≠
#[derive(Clone, Copy)]
pub enum Op {
    Less,
    AtMost,
    Equal,
    AtLeast,
    More,
    Unequal,
}

// A comparison's right side: a constant, or a column plus a constant.
#[derive(Clone, Copy)]
pub enum Side {
    Constant(i32),
    Column(u8, i32),
}

#[derive(Clone, Copy)]
pub enum Kind {
    Compare(Op, u8, Side),
    Both,
    Either,
    Negate,
}

#[derive(Clone, Copy)]
pub struct Token {
    pub kind: Kind,
}

// The first `count` tokens are the condition: an array and a count, here and below, since nothing here takes memory from a heap.
#[derive(Clone, Copy)]
pub struct Condition {
    pub tokens: [Token; TOKENS],
    pub count: usize,
}

#[derive(Clone, Copy)]
pub struct Column {
    pub lo: i32,
    pub hi: i32,
    pub visible: bool,
}

#[derive(Clone, Copy)]
pub enum Mode {
    Keep,
    Become(i32),
    Shift(u8, i32),
}

// What becomes of one column of the changed table.
#[derive(Clone, Copy)]
pub struct Setting {
    pub mode: Mode,
}

// An inserted row: the first `width` values count.
#[derive(Clone, Copy)]
pub struct Row {
    pub values: [i32; COLUMNS],
}

#[derive(Clone, Copy)]
pub enum Verb {
    Insert,
    Delete,
    Modify,
}

// An insert uses the first `count` rows; a delete its condition; a modify its condition and the first `width` settings.
#[derive(Clone, Copy)]
pub struct Change {
    pub verb: Verb,
    pub rows: [Row; ROWS],
    pub count: usize,
    pub condition: Condition,
    pub settings: [Setting; COLUMNS],
}

// The tables: how many, which one is changed, the columns of each; the changed table's first column and width; all columns.
#[derive(Clone, Copy)]
pub struct Shape {
    pub tables: usize,
    pub changed: usize,
    pub widths: [usize; TABLES],
    pub first: usize,
    pub width: usize,
    pub total: usize,
}

// By which rule a question is meant.
#[derive(Clone, Copy)]
pub enum Version {
    One,
    Two,
}

// The first `total` columns count. Column numbers run over all tables; rows and settings speak of the changed table's column
// `first + j` at j. A question is such as the reader takes: its own numbers are what they are named for, and it has all that
// FORMAT guarantees of a question.
#[derive(Clone, Copy)]
pub struct Question {
    pub shape: Shape,
    pub columns: [Column; COLUMNS],
    pub condition: Condition,
    pub change: Change,
    pub version: Version,
    pub ghost shape_held: { ShapeHeld shape },
    pub ghost few_tokens: { condition.count ≤ most_tokens },
    pub ghost change_held: { ChangeHeld change },
    pub ghost accepted: { Accepted (question_with version shape columns condition change) } by { Accepted_prop (question_with version shape columns condition change) },
}

// What is asked of a change: whether no contents let it show, or whether the old list alone tells the new one.
#[derive(Clone, Copy, Debug, PartialEq, Eq)]
pub enum Asked {
    Irrelevant,
    Computable,
}
