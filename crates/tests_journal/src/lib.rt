//! Journals as tests: records that are read back, whole, cut, changed, and with bytes behind them; and a disk in memory that fails.
#![tactic(auto)]

#[cfg(test)]
mod disks;
#[cfg(test)]
mod reading;
#[cfg(test)]
mod records;
