// What the lines of recorded answers are made of, for the programs that replay them.
#![tactic(auto)]

pub mod counts; // how many calls agree
pub mod input; // the text
pub mod line; // a line's words and lists
pub mod values; // what words stand for
