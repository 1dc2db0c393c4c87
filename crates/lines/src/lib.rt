// Lines of text as keys of a store.
#![tactic(auto)]

mod adding;
mod line;

pub use adding::{add_line, is_new, tally};
pub use line::Line;
