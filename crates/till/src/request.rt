// A line of text, read as an opening or a call.
ghost use Rattle.std.specs.Prelude.{IfSome, IfOk};
ghost use Rattle.till.specs.Requests.{SpellsCall, SpellsOpen};

use crate::opening::Limits;
use coins::MOST_KINDS;
use std::alloc::{AllocError, Global};
use wire::call::Call;

#[derive(Drop)]
pub enum Request {
    Open { limits: Limits, values: Vec<u32> },
    Call(Call<Vec<u32>>),
}

// A number of decimal digits that fits 32 bits; no sign, which `parse` alone would take.
fn read_number(word: &str) -> Option<u32> {
    if word.starts_with('+') {
        return None;
    }
    word.parse().ok()
}

// The request that a line is, if it is one. No `FromStr`, which could not be given memory.
pub fn read_request(heap: Global, line: &str) -> Result<Option<Request>, AllocError> {
    let mut words = line.split_whitespace();
    let Some(name) = words.next() else {
        return Ok(None);
    };
    let mut numbers = Vec::new(heap);
    for word in words {
        let Some(number) = read_number(word) else {
            return Ok(None);
        };
        numbers.push(number)?;
    }
    if name == "open" {
        return read_open(heap, numbers.as_slice());
    }
    let call = read_call(heap, name, numbers.as_slice())?;
    Ok(call.map(Request::Call))
}

// The opening with these numbers. No `TryFrom`, which could not be given memory.
#[tactic(auto, using(std::proofs::lemmas::List::take_rest))]
fn read_open(heap: Global, numbers: &[u32]) -> Result<Option<Request>, AllocError>
    ensures { IfOk result (λ o. IfSome o (λ q. SpellsOpen numbers.now q)) }
{
    let [each, most, values @ ..] = numbers else {
        return Ok(None);
    };
    let limits = Limits {
        each: *each,
        most: *most,
    };
    let values = Vec::from_slice(heap, values)?;
    Ok(Some(Request::Open { limits, values }))
}

// The call of this name with these numbers. No `TryFrom`, which could not be given memory.
#[tactic(auto, using(std::proofs::lemmas::List::take_rest))]
fn read_call(
    heap: Global,
    name: &str,
    numbers: &[u32],
) -> Result<Option<Call<Vec<u32>>>, AllocError>
    ensures { IfOk result (λ o. IfSome o (λ c. SpellsCall name.now numbers.now c)) }
{
    let call = match (name, numbers) {
        ("fill", [coin, count]) => Call::Fill {
            coin: *coin,
            count: *count,
        },
        ("pay", [amount]) => Call::Pay(*amount),
        ("sell", [price, put_in @ ..]) if put_in.len() <= MOST_KINDS => Call::Sell {
            price: *price,
            put_in: Vec::from_slice(heap, put_in)?,
        },
        ("could", [amount]) => Call::Could(*amount),
        ("holds", []) => Call::Holds,
        ("spoils", [bound]) => Call::Spoils(*bound),
        _ => return Ok(None),
    };
    Ok(Some(call))
}
