// A set of coins: made from numbers, and read.
ghost use Rattle.std.specs.Prelude.{◌≡◌, ◌≤◌, true, length, MatchResult};
ghost use Rattle.coins.specs.Coins.{falling};
ghost use Rattle.coins.specs.Places.{numbers_of};

use crate::{LARGEST_VALUE, PerKind};

// The values of a set of coins, from the largest on. A ghost field and no model, as in `PerKind`.
#[derive(Clone, Copy, Debug, PartialEq, Eq)]
pub struct CoinSet {
    values: PerKind,
    ghost falls: { falling (numbers_of values) ≡ true },
}

// The numbers are no set of coins.
#[derive(Clone, Copy, Debug, PartialEq, Eq)]
pub struct NotCoinSet;

// The set of these values, just where they are one.
impl TryFrom<&[u32]> for CoinSet {
    ghost use Rattle.coins.specs.Values.{values_of, IsCoinSet};

    type Error = NotCoinSet;

    ghost try_from_gives = { λ values r. MatchResult r (λ s. IsCoinSet values.now × (values_of s ≡ values.now)) (λ _. IsCoinSet values.now → ⊥) };

    #[tactic(auto, using(crate::proofs::Falls::falls, crate::proofs::Held::held_more))]
    fn try_from(values: &[u32]) -> Result<CoinSet, NotCoinSet> {
        let mut held = PerKind::new();
        let mut above = LARGEST_VALUE + 1;
        // In one pass, and not by `is_sorted_by` before it: each value is held as it is tested.
        for value in values {
            if *value >= above {
                return Err(NotCoinSet);
            }
            // `as`, since the test above shows that it fits: `try_from` would test again.
            held.push(*value as u16).map_err(|_| NotCoinSet)?;
            above = *value;
        }
        if above != 1 {
            return Err(NotCoinSet);
        }
        Ok(CoinSet { values: held })
    }
}

impl CoinSet {
    ghost use Rattle.coins.specs.Values.{values_of, IsCoinSet};

    // How many kinds of coins there are.
    pub fn kinds(&self) -> usize
        ensures value { result ≡ length (values_of self.now) }
        ensures bound { result ≤ 16 }
    {
        self.values().len()
    }

    // The values, from the largest on.
    pub fn values(&self) -> &[u16]
        ensures value { result.now ≡ values_of self.now }
        ensures set { IsCoinSet result.now }
    {
        self.values.as_slice()
    }
}

#[cfg(test)]
mod tests {
    use super::*;
    use std::test::Fail;

    // One value more than a set may have; without the first they are a set.
    const SEVENTEEN: [u32; 17] = [
        65_535, 50_000, 40_000, 20_000, 10_000, 5_000, 2_000, 1_000, 500, 200, 100, 50, 20, 10, 5,
        2, 1,
    ];

    #[test]
    fn takes_sets_of_coins(rt: HostRuntime) -> Result<(), Fail> {
        let sets: [&[u32]; 4] = [&[1], &[25, 10, 1], &[65_535, 1], &SEVENTEEN[1..17]];
        for values in sets {
            let set = CoinSet::try_from(values).map_err(|_| Fail::new("not taken"))?;
            assert_eq!(rt; set.kinds(), values.len());
            for (held, value) in set.values().iter().zip(values) {
                assert_eq!(rt; u32::from(*held), *value);
            }
        }
        Ok(())
    }

    #[test]
    fn refuses_what_is_none(rt: HostRuntime) {
        let lists: [&[u32]; 9] = [
            &[],
            &[0],
            &[2],
            &[25, 10],
            &[25, 10, 1, 1],
            &[10, 25, 1],
            &[65_536, 1],
            &[65_561, 10, 1],
            &SEVENTEEN,
        ];
        for values in lists {
            assert!(rt; CoinSet::try_from(values).is_err());
        }
    }

    // A caller's own value that holds a set.
    #[derive(Clone, Copy)]
    struct Shop {
        set: CoinSet,
    }

    fn kinds_of(shop: Shop) -> usize {
        shop.set.kinds()
    }

    // What holds a set is copied where it is used twice.
    #[test]
    fn is_copied_with_what_holds_it(rt: HostRuntime) -> Result<(), Fail> {
        let values: [u32; 3] = [25, 10, 1];
        let set = CoinSet::try_from(values.as_slice()).map_err(|_| Fail::new("not taken"))?;
        let shop = Shop { set };
        assert_eq!(rt; kinds_of(shop), 3);
        assert_eq!(rt; kinds_of(shop), 3);
        Ok(())
    }
}
