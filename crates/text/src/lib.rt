// Texts: their bytes, and numbers in decimal, read, stored as words and written.
#![tactic(auto)]

pub mod bytes;
pub mod cursor;
pub mod passing;
pub mod reading;
pub mod word;
pub mod writer;
pub mod writing;
