//! How long tests go on that draw what happens.
use std::rt::Runtime;

/// The number that the environment says by that name, or the usual one. `.ci/run` says none.
pub fn said_or<R: Runtime + AllocGlobal>(rt: &R, name: &str, usual: u64) -> u64 {
    match std::env::var(rt, name) {
        Ok(text) => text.as_str().parse::<u64>().unwrap_or(usual),
        Err(_) => usual,
    }
}
