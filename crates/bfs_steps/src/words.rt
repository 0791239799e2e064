// The word with which each step begins.
pub(crate) const DELIVERS: u32 = 1;

pub(crate) const TAKES: u32 = 2;

pub(crate) const TAKES_REQUESTS: u32 = 3;

pub(crate) const TAKES_OFFERED: u32 = 4;

pub(crate) const PROPOSES: u32 = 5;

pub(crate) const EXECUTES: u32 = 6;

pub(crate) const CHECKPOINTS: u32 = 7;

pub(crate) const TIMES_OUT: u32 = 8;

pub(crate) const LEAVES_FOR: u32 = 9;

pub(crate) const FORGETS_ANSWERED: u32 = 10;

pub(crate) const FORGETS_PROPOSED: u32 = 11;

pub(crate) const SETTLES: u32 = 12;
