//! What the three programs have in common: how they begin, and the line on standard error of one
//! that ends without an answer. Also the texts that norm prints of itself.
//!
//! Proved of `error_line`: its octets are one line without control characters. What the line says
//! is tested.
#![tactic(auto)]

mod line;
mod norm_texts;
mod program;
mod why;

pub use line::{error_line, last_line, tell};
pub use norm_texts::{NORM_HELP, NORM_VERSION};
pub use program::{Program, STANDARD_OUTPUT};
pub use why::{Why, failed};
