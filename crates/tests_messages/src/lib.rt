//! Settings, keys, signing keys, keyed hashes, signatures, authenticators and the last replies, as tests whose expected values come from outside: the
//! standards' own vectors, and hashes that Python's hmac made.
#![tactic(auto)]

#[cfg(test)]
mod authenticators;
#[cfg(test)]
mod hashes;
#[cfg(test)]
mod keys;
#[cfg(test)]
mod replica_signatures;
#[cfg(test)]
mod replies;
#[cfg(test)]
mod settings;
#[cfg(test)]
mod signatures;
#[cfg(test)]
mod signing_keys;
