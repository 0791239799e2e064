//! Assertions as calls: the proof of a test that makes them inline takes many times as long.
ghost use Rattle.std.specs.Prelude.{◌≡◌, is_some, is_ok, IfErr};

use std::fmt::Debug;

/// As `assert!`.
#[macro_export]
macro_rules! holds {
    ($rt:expr; $condition:expr) => {
        $crate::asserts::held($condition).expect(&$rt, stringify!($condition))
    };
}

/// As `assert_eq!`, for two values that it takes.
#[macro_export]
macro_rules! same {
    ($rt:expr; $given:expr, $wanted:expr) => {
        $crate::asserts::compared($given, $wanted).expect(&$rt, stringify!($given))
    };
}

/// Two values that are to be the same and are not.
#[derive(Debug, Drop)]
pub struct Differ<T: Debug + Drop> {
    /// What was given.
    pub given: T,
    /// What was wanted.
    pub wanted: T,
}

/// `Some` where the condition holds.
pub fn held(condition: bool) -> Option<()>
    ensures { is_some result ≡ condition }
{
    if condition { Some(()) } else { None }
}

/// Compares two values, and gives both back where they are not the same.
pub fn compared<T: PartialEq + Debug + Drop>(given: T, wanted: T) -> Result<(), Differ<T>>
    ensures same { is_ok result ≡ T.eq given wanted }
    ensures differ { IfErr result (λ differ. (differ.given ≡ given) × (differ.wanted ≡ wanted)) }
{
    if given == wanted {
        Ok(())
    } else {
        Err(Differ { given, wanted })
    }
}
