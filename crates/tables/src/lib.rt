// Pattern tables, the fifth section of the sheet.
//   entry == the tables of a section five, one after the other: its frame, and where a table stands
//   start == where to begin to look for a name
//   word  == the patterns of a table's text
//   check == the faults of the tables themselves
#![tactic(auto)]

pub mod check;
pub mod entry;
pub mod start;
pub mod word;
