// Calls to the till, read from bytes and written.
ghost use Rattle.std.specs.Prelude.{◌≡◌, ◌<◌, MatchResult};
ghost use Rattle.fields.specs.Bytes.{numbers};
ghost use Rattle.coins.specs.Calls.{sells};
ghost use Rattle.wire.specs.Calls.{call_bytes, longest, read};
ghost use Rattle.wire.specs.Meant.{kind_number};
ghost use Rattle.wire.specs.Reads.{ReadsFields, Reads, whole_fields, WritesIf, WritesCall};

use crate::answer::Refusal;
use coins::MOST_KINDS;
use fields::{lone_number, split_number, write_bytes, write_numbers};

// The kinds of calls, by their numbers. Clauses name them by `kind_number`, since an enum can have
// no model yet, and a struct around it would be no plainer.
#[derive(Clone, Copy, Debug, PartialEq, Eq)]
pub enum Kind {
    Fill = 0,
    Pay = 1,
    Sell = 2,
    Could = 3,
    Holds = 4,
    Spoils = 5,
}

// A number that is no kind's.
#[derive(Clone, Copy, Debug, PartialEq, Eq)]
pub struct UnknownKind;

// A call, with the coins put in at a sale in the form that they were read in. Clauses say what it stands for by
// `call_meant`, as they name a kind by its number.
#[derive(Clone, Copy, Debug, PartialEq, Eq, Drop)]
pub enum Call<P> {
    Fill { coin: u32, count: u32 },
    Pay(u32),
    Sell { price: u32, put_in: P },
    Could(u32),
    Holds,
    Spoils(u32),
}

impl TryFrom<u8> for Kind {
    type Error = UnknownKind;

    ghost try_from_gives = { λ number r. MatchResult r (λ k. kind_number k ≡ number) (λ _. 5 < number) };

    fn try_from(number: u8) -> Result<Kind, UnknownKind> {
        match number {
            0 => Ok(Kind::Fill),
            1 => Ok(Kind::Pay),
            2 => Ok(Kind::Sell),
            3 => Ok(Kind::Could),
            4 => Ok(Kind::Holds),
            5 => Ok(Kind::Spoils),
            _ => Err(UnknownKind),
        }
    }
}

impl Kind {
    // How many bytes a call of this kind has at most.
    pub fn longest(self) -> usize
        ensures { result ≡ longest (kind_number self) }
    {
        match self {
            Kind::Fill => 9,
            Kind::Sell => 5 + 4 * MOST_KINDS,
            Kind::Holds => 1,
            Kind::Pay | Kind::Could | Kind::Spoils => 5,
        }
    }
}

// Coins put in are whole fields, no more than a set has kinds. A test and no type, which would be no plainer, since any
// bytes may be handed in to be written, and are refused by it.
fn whole_fields(put_in: &[u8]) -> bool
    ensures { result ≡ whole_fields put_in.now }
{
    put_in.len() % 4 == 0 && put_in.len() <= 4 * MOST_KINDS
}

// The call of a kind with these fields, if they are as many as it may have: a step of the reading below, and no
// conversion of its own.
fn read_fields<'a>(kind: Kind, bytes: &'a [u8]) -> Option<Call<&'a [u8]>>
    ensures { ReadsFields (kind_number kind) bytes.now result }
{
    match kind {
        Kind::Fill => {
            let (coin, rest) = split_number(bytes)?;
            let count = lone_number(rest)?;
            Some(Call::Fill { coin, count })
        }
        Kind::Pay => Some(Call::Pay(lone_number(bytes)?)),
        Kind::Sell => {
            let (price, put_in) = split_number(bytes)?;
            if !whole_fields(put_in) {
                return None;
            }
            Some(Call::Sell { price, put_in })
        }
        Kind::Could => Some(Call::Could(lone_number(bytes)?)),
        Kind::Holds => {
            if !bytes.is_empty() {
                return None;
            }
            Some(Call::Holds)
        }
        Kind::Spoils => Some(Call::Spoils(lone_number(bytes)?)),
    }
}

// The call that bytes are, or the refusal with the place where they cease to be one.
// The coins put in are a part of the bytes, a field for each kind. Each step hands on its value or returns the refusal.
impl<'a> TryFrom<&'a [u8]> for Call<&'a [u8]> {
    type Error = Refusal;

    ghost try_from_gives = { λ bytes r. Reads r (read bytes.now) };

    #[tactic(auto, unfolding(crate::specs::Calls::read))]
    fn try_from(bytes: &'a [u8]) -> Result<Call<&'a [u8]>, Refusal> {
        let [first, rest @ ..] = bytes else {
            return Err(Refusal::unreadable(0));
        };
        let Ok(kind) = Kind::try_from(*first) else {
            return Err(Refusal::unreadable(0));
        };
        let Some(call) = read_fields(kind, rest) else {
            // `as`, since no kind has more than 69 bytes.
            let place = bytes.len().min(kind.longest()) as u32;
            return Err(Refusal::unreadable(place));
        };
        Ok(call)
    }
}

// Writes the call over the front of `out`, and says how many bytes it has. Where `out` is too short, or the coins put in
// are no whole fields or more than a set has kinds, nothing is written.
#[tactic(auto, using(crate::proofs::Writing::writes_if), unfolding(crate::specs::Calls::call_fields, coins::specs::Calls::call_number))]
pub fn write_call(call: Call<&[u8]>, out: &mut [u8]) -> Option<usize>
    ensures { WritesCall call.entry out.old out.new result }
{
    match call {
        Call::Fill { coin, count } => write_numbers(&[Kind::Fill as u8], &[coin, count], out),
        Call::Pay(amount) => write_numbers(&[Kind::Pay as u8], &[amount], out),
        Call::Sell { price, put_in } => write_sale(price, put_in, out),
        Call::Could(amount) => write_numbers(&[Kind::Could as u8], &[amount], out),
        Call::Holds => write_numbers::<u32>(&[Kind::Holds as u8], &[], out),
        Call::Spoils(bound) => write_numbers(&[Kind::Spoils as u8], &[bound], out),
    }
}

// The same of a sale.
#[tactic(auto, using(crate::proofs::Writing::writes_sale, fields::proofs::Typed::all_bytes))]
fn write_sale(price: u32, put_in: &[u8], out: &mut [u8]) -> Option<usize>
    ensures { WritesIf (whole_fields put_in.now) (call_bytes (sells price (numbers put_in.now))) out.old out.new result }
{
    if !whole_fields(put_in) {
        return None;
    }
    let [a, b, c, d] = price.to_le_bytes();
    write_bytes(&[Kind::Sell as u8, a, b, c, d], put_in, out)
}
