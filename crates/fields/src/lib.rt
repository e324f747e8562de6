// The fields that follow the version, read one after another from bytes that are lent.
#![tactic(auto)]

pub mod cursor;
