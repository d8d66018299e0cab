// Sheets and lists: what is asked of their bytes, how a sheet is laid out, and reading one.
#![tactic(auto)]

pub mod contents;
pub mod layout;
pub mod lists;
pub mod reading;
