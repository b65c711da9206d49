// A line that is added to an accepted sheet, judged cause by cause: the lowest number that applies to the longer sheet.

#![tactic(auto)]

mod causes;

pub use causes::judge_line;
