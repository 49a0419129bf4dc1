// The calls of a recorded list: a line's arguments read, the port asked, and its answer held against the line's.
#![tactic(auto)]

pub mod call; // each call
pub mod draw; // what a draw is made of
pub mod lent; // the frame that the calls work on
pub mod list; // a frame and the calls on it
pub mod place; // a place in the text, and reads from it on
