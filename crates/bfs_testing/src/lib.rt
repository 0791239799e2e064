//! What the tests of several crates share: assertions, the words that requests and replies are spelled in, texts of file systems,
//! bytes that are changed and read again, and where threads wait for one another. None of it ends the process by itself, so that it can stand in a library.
#![tactic(auto)]

pub mod asked;
pub mod asserts;
pub mod changes;
pub mod cursors;
pub mod generated;
pub mod meetings;
pub mod numbers;
pub mod steps;
pub mod texts;
pub mod words;
