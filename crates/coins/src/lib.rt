// A set of coins by value, and so many of each; what makes it one is in its type. The definitions of the whole till are in specs/.
#![tactic(auto)]

ghost use Rattle.std.specs.Prelude.{◌≡◌, ◌<◌, ◌≤◌, length, take, MatchOption};
ghost use Rattle.coins.specs.Places.{SameNumbers};
ghost use Rattle.coins.specs.Values.{counts_of, EverySet, FewCounts};

mod coin_set;
mod per_kind;

pub use coin_set::{CoinSet, NotCoinSet};
pub use per_kind::{NoRoom, PerKind};

// No set has more kinds of coins.
pub const MOST_KINDS: usize = 16;

// No coin is worth more.
pub const LARGEST_VALUE: u32 = 65_535;

// So many of each coin, from the largest on.
#[derive(Clone, Copy, Debug, PartialEq, Eq)]
pub struct Counts(pub PerKind);

impl Counts {
    // The first `kinds` of the numbers, if there are no more kinds than a set may have.
    pub fn new(numbers: [u16; MOST_KINDS], kinds: usize) -> Option<Counts>
        ensures { MatchOption result (16 < kinds) (λ c. (kinds ≤ 16) × (counts_of c ≡ take kinds numbers)) }
    {
        PerKind::first(&numbers, kinds).map(Counts)
    }

    // The numbers, from that of the largest coin on; handed on, so that callers need not name the field.
    pub fn as_slice(&self) -> &[u16]
        ensures value { result.now ≡ counts_of self.now }
        ensures bound { length result.now ≤ 16 }
    {
        self.0.as_slice()
    }
}

// What every value of these types is, also for who calls nothing. The function does nothing: the check asks for a proof
// only where a contract names the statement.
pub fn laws_stand()
    // The values of a set are a set of coins.
    ensures every_set { EverySet }

    // There are so many of at most 16 kinds.
    ensures few_counts { FewCounts }

    // The same numbers are the same value.
    ensures same_numbers { SameNumbers }
{}

#[cfg(test)]
mod tests {
    use super::*;
    use std::test::Fail;

    #[test]
    fn takes_the_first_counts(rt: HostRuntime) -> Result<(), Fail> {
        let numbers = [9, 8, 7, 6, 5, 4, 3, 2, 1, 0, 11, 12, 13, 14, 15, 65_535];
        let three = Counts::new(numbers, 3).ok_or("not taken")?;
        assert_eq!(rt; three.as_slice(), [9, 8, 7].as_slice());
        let all = Counts::new(numbers, 16).ok_or("not taken")?;
        assert_eq!(rt; all.as_slice(), numbers.as_slice());
        assert!(rt; Counts::new(numbers, 17).is_none());
        Ok(())
    }
}
