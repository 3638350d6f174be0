// The laws of coins and of the till, on the contract of a function that does nothing else.
// The lemmas behind them, in proofs/, are for the crates above too.
#![tactic(auto)]

ghost use Rattle.coins.specs.Promise.{Fewest, NotOtherwise, Kept, MoreCoins, WhereToLook, NeverSpoilt};
ghost use Rattle.coins.specs.Order.{MostLarge};
ghost use Rattle.laws.specs.Pairs.{SmallestIsOne, SearchRight, SearchAnswers};
ghost use Rattle.laws.specs.Worked.{Worked};

// The laws of coins and of the till.
pub fn laws_stand()
    // What is paid is the amount, from coins that are there, and no way has fewer coins.
    ensures fewest { Fewest }

    // What has no fewest has no way.
    ensures not_otherwise { NotOtherwise }

    // Of all ways with the fewest coins, the one with the most large coins is paid.
    ensures most_large { MostLarge }

    // A sale leaves the price more in the till, a payment the amount less.
    ensures kept { Kept }

    // More coins are never worse.
    ensures more_coins { MoreCoins }

    // Coins of which each is a multiple of the next are never spoilt.
    ensures never_spoilt { NeverSpoilt }

    // If any amount is spoilt, one that comes of two coins is, and it is not larger.
    ensures where_to_look { WhereToLook }

    // The smallest spoilt amount comes of two coins itself, with the fewest coins for it.
    ensures smallest_is_one { SmallestIsOne }

    // The smallest amount of two coins that passes the test is the smallest spoilt amount, and if none passes, no amount is spoilt.
    ensures search_right { SearchRight }

    // So the search by two coins finds what the till has to answer.
    ensures search_answers { SearchAnswers }

    // Worked payments.
    ensures worked { Worked }
{}
