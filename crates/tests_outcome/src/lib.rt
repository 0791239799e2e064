//! What comes of ordered batches, as tests: which requests are executed, what each is answered, a replica's text and digest behind them, and
//! the snapshots that it keeps. Texts and digests were made by Python's struct and hashlib.
#![tactic(auto)]

#[cfg(test)]
mod answered;
#[cfg(test)]
mod batches;
#[cfg(test)]
mod executed;
#[cfg(test)]
mod keeping;
#[cfg(test)]
mod nodes;
