//! Tests of what is read and written as text: values, lines, policies, commands and scripts, a module for each. They stand here since a crate
//! with tests of its own is proved twice, with and without them.
#![tactic(auto)]

#[cfg(test)]
mod command;
#[cfg(test)]
mod lines;
#[cfg(test)]
mod print;
#[cfg(test)]
mod script;
#[cfg(test)]
mod syntax;
#[cfg(test)]
mod values;
