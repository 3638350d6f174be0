// Opening a till: the checks in their order.
ghost use Rattle.std.specs.Prelude.{◌≡◌};
ghost use Rattle.till.specs.Opening.{Opens};
ghost use Rattle.till.specs.declared.opening.OpenError.TheVariants as error;

use coins::{CoinSet, NotCoinSet};

// No till holds more of a coin, or has a larger amount.
const LARGEST_EACH: u32 = 1_000;

const LARGEST_MOST: u32 = 1_000_000;

// The program's memory serves at most so many kinds and such amounts.
const KINDS_SERVED: usize = 8;

const MOST_SERVED: u32 = 4_096;

// How many coins of a kind a till holds at most, and its largest amount.
#[derive(Clone, Copy, Debug, PartialEq, Eq)]
pub struct Limits {
    pub each: u32,
    pub most: u32,
}

#[derive(Clone, Copy, Debug, PartialEq, Eq)]
pub struct Till {
    set: CoinSet,
    limits: Limits,
}

// Why no till is opened, by the place that is told.
#[derive(Clone, Copy, Debug, PartialEq, Eq)]
pub enum OpenError {
    NotCoinSet = 0,
    LimitsOutOfRange = 1,
    // more than the program's memory serves
    NotServed = 2,
}

impl From<NotCoinSet> for OpenError {
    ghost from_gives = { λ _ e. e ≡ error.NotCoinSet };

    fn from(_error: NotCoinSet) -> OpenError {
        OpenError::NotCoinSet
    }
}

impl Till {
    // A till with these limits and coins.
    pub fn open(limits: Limits, values: &[u32]) -> Result<Till, OpenError>
        ensures { Opens limits values.now result }
    {
        let set = CoinSet::try_from(values)?;
        if limits.each > LARGEST_EACH || limits.most > LARGEST_MOST {
            return Err(OpenError::LimitsOutOfRange);
        }
        if set.kinds() > KINDS_SERVED || limits.most > MOST_SERVED {
            return Err(OpenError::NotServed);
        }
        Ok(Till { set, limits })
    }
}
