//! Saved replicas, as tests: what is saved is read again, those that are restored go on as those that never stopped, and nothing that was cut, changed or is
//! another's is read.
#![tactic(auto)]

#[cfg(test)]
mod again;
#[cfg(test)]
mod hostile;
#[cfg(test)]
mod lives;
#[cfg(test)]
mod replayed;
#[cfg(test)]
mod replica;
