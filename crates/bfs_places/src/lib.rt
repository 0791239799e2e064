//! A correct replica says one text of each place: so a key whose index is of the place signs no two texts.
#![tactic(auto)]

pub mod laws;
