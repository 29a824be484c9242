//! The dictionary's faults.

ghost use Rattle.std.specs.Prelude.{◌≡◌};
ghost use Rattle.dc_dict.specs.Fault.{code_of};

use thiserror::Error;

/// Why a dictionary refuses a row, or a row has no interval in ticks.
#[derive(Clone, Copy, Debug, PartialEq, Eq, Error)]
pub enum DictFault {
    /// 1: a parameter of this label and equipment code is there already.
    #[error("a parameter of this label and equipment code is there already")]
    Doubled,
    /// 2: the least interval is over the greatest.
    #[error("the least interval is over the greatest")]
    MinOverMax,
    /// 3: an interval is 0 microseconds.
    #[error("an interval of no microseconds")]
    Zero,
    /// 4: the ticks leave no interval.
    #[error("the ticks leave no interval")]
    NoTicks,
    /// 5: out of memory.
    #[error("out of memory")]
    Memory,
}

impl DictFault {
    /// The number that documents give the fault, 1 to 5.
    pub fn code(self) -> u8
        ensures { result ≡ code_of self }
    {
        match self {
            DictFault::Doubled => 1,
            DictFault::MinOverMax => 2,
            DictFault::Zero => 3,
            DictFault::NoTicks => 4,
            DictFault::Memory => 5,
        }
    }
}
