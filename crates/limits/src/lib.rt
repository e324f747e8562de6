// How large a question may be, and what follows from that for its formulas. Every limit of the code stands here once, as those of the
// definitions stand in page_meaning's Limits and page_formulas' Costs.
#![tactic(auto)]

pub const TABLES: usize = 6;

pub const COLUMNS: usize = 12;

pub const TOKENS: usize = 16;

pub const COMPARISONS: usize = 6;

pub const ROWS: usize = 4;

// The first count that is too high.
pub const PAST_TABLES: usize = TABLES + 1;

pub const PAST_COLUMNS: usize = COLUMNS + 1;

pub const PAST_TOKENS: usize = TOKENS + 1;

pub const PAST_ROWS: usize = ROWS + 1;

// Vertex numbers are below it: zero, and the columns of two rows.
pub const VERTICES: usize = 1 + 2 * COLUMNS;

// How many places a formula has at most: two for each comparison of six conditions, and for each column the range tests of two rows and one
// comparison of rows.
pub const PLACES: usize = 12 * COMPARISONS + 6 * COLUMNS;

// How many instructions: those of the same conditions, of the range tests and of the comparison of rows, and what joins the parts.
pub const INSTRUCTIONS: usize = 6 * (TOKENS + 3 * COMPARISONS) + 13 * COLUMNS + 7;

// How many bytes a question has at most: one table with every column, the longest condition, and an insert of every row.
pub const LONGEST: usize = 11 + 9 * COLUMNS + TOKENS + 7 * COMPARISONS + 4 * ROWS * COLUMNS;
