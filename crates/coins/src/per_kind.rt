// A number for each kind of coin.
ghost use Rattle.std.specs.Prelude.{◌≡◌, ◌-◌, ◌<◌, ◌≤◌, [], ◌∷◌, ◌++◌, length, take, drop, replicate, MatchOption, MatchResult};

use crate::MOST_KINDS;

// A number for each kind of coin, from that of the largest on, for at most `MOST_KINDS` kinds.
// The places that are left hold 0, so the same numbers are the same value.
// An array with its length beside it, since nothing here allocates, and the toolchain's `ArrayVec` can't be copied.
// Ghost fields and no model: what holds a struct with a model can't be used twice yet, though it is `Copy`.
#[derive(Clone, Copy, Debug, PartialEq, Eq)]
pub struct PerKind {
    numbers: [u16; MOST_KINDS],
    kinds: usize,
    ghost few: { kinds ≤ 16 },
    ghost long: { length numbers ≡ 16 },
    ghost rest: { drop kinds numbers ≡ replicate (16 - kinds) 0 },
}

// There are `MOST_KINDS` numbers already.
#[derive(Clone, Copy, Debug, PartialEq, Eq)]
pub struct NoRoom;

// No number yet.
impl Default for PerKind {
    ghost use Rattle.coins.specs.Places.{numbers_of};

    ghost is_default = { λ p. numbers_of p ≡ [] };

    fn default() -> PerKind {
        PerKind::new()
    }
}

// These numbers, if they are no more than `MOST_KINDS`.
impl TryFrom<&[u16]> for PerKind {
    ghost use Rattle.coins.specs.Places.{numbers_of};

    type Error = NoRoom;

    ghost try_from_gives = { λ numbers r. MatchResult r (λ p. (length numbers.now ≤ 16) × (numbers_of p ≡ numbers.now)) (λ _. 16 < length numbers.now) };

    #[tactic(auto, using(crate::proofs::Held::held_more))]
    fn try_from(numbers: &[u16]) -> Result<PerKind, NoRoom> {
        let mut taken = PerKind::new();
        for number in numbers {
            taken.push(*number)?;
        }
        Ok(taken)
    }
}

impl PerKind {
    ghost use Rattle.coins.specs.Places.{numbers_of};

    // No number yet.
    pub fn new() -> PerKind
        ensures { numbers_of result ≡ [] }
    {
        PerKind {
            numbers: [0; MOST_KINDS],
            kinds: 0,
        }
    }

    // The first `kinds` of the numbers, if there are no more kinds than a set may have: copied at once, and not pushed.
    #[tactic(auto, using(crate::proofs::Held::placed))]
    pub(crate) fn first(numbers: &[u16; MOST_KINDS], kinds: usize) -> Option<PerKind>
        ensures { MatchOption result (16 < kinds) (λ p. (kinds ≤ 16) × (numbers_of p ≡ take kinds numbers.now)) }
    {
        let taken = numbers.get(..kinds)?;
        let mut places = [0; MOST_KINDS];
        places[..kinds].copy_from_slice(taken);
        Some(PerKind {
            numbers: places,
            kinds,
        })
    }

    // A number for the next kind of coin.
    pub fn push(&mut self, number: u16) -> Result<(), NoRoom>
        ensures { MatchResult result (λ _. (length (numbers_of self.old) < 16) × (numbers_of self.new ≡ numbers_of self.old ++ number ∷ [])) (λ _. (length (numbers_of self.old) ≡ 16) × (self.new ≡ self.old)) }
    {
        if self.kinds == MOST_KINDS {
            return Err(NoRoom);
        }
        self.numbers[self.kinds] = number;
        self.kinds += 1;
        Ok(())
    }

    // The numbers, from that of the largest coin on.
    pub fn as_slice(&self) -> &[u16]
        ensures value { result.now ≡ numbers_of self.now }
        ensures bound { length result.now ≤ 16 }
    {
        &self.numbers[0..self.kinds]
    }
}
