// Logs as comma-separated text: the reading of fields, records and rows, with questions 13 and 14.
#![tactic(auto)]

pub mod field;
pub mod record;
pub mod rows;
