//! Texts and digests of file systems, as tests whose expected values come from another implementation.
#![tactic(auto)]

#[cfg(test)]
mod changed;
#[cfg(test)]
mod formed;
#[cfg(test)]
mod hostile;
#[cfg(test)]
mod sizes;
#[cfg(test)]
mod texts;
