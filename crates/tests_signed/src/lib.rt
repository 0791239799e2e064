//! Messages that a liar or a client makes right for some receivers alone: by keyed hashes one of them stops ordering for ever, and by signatures there are none.
#![tactic(auto)]

#[cfg(test)]
mod attacks;
#[cfg(test)]
mod calm;
#[cfg(test)]
mod keys;
#[cfg(test)]
mod lasting;
#[cfg(test)]
mod playing;
#[cfg(test)]
mod scenes;
#[cfg(test)]
mod schedules;
#[cfg(test)]
mod voices;
