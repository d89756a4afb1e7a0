//! Tests of the text of a report, of the words of a command line, of norm's help text and the
//! examples of norm(1), and of lines of standard error.
#![tactic(auto)]

#[cfg(test)]
mod error_lines;
#[cfg(test)]
mod help;
#[cfg(test)]
mod mistakes;
#[cfg(test)]
mod report;
#[cfg(test)]
mod words;
