// Answers of the till, written as bytes and read.
ghost use Rattle.std.specs.Prelude.{◌≡◌, ◌<◌, false, MatchResult};
ghost use Rattle.std.specs.Option.{option_map};
ghost use Rattle.std.specs.Result.{result_ok};
ghost use Rattle.fields.specs.Bytes.{Written};
ghost use Rattle.wire.specs.Answers.{answer_bytes, is_reason, answer_of, read_answer};
ghost use Rattle.wire.specs.Meant.{form_number, reason_number, refusal_text, answer_meant};

use coins::Counts;
use fields::{lone_number, read_counts, split_number, write_numbers};
use std::fmt;

// Why a call is refused, by its number.
#[derive(Clone, Copy, Debug, PartialEq, Eq)]
pub enum Reason {
    // the bytes are no call from the place on
    Unreadable = 1,
    // a number is above its limit, or the till does not do this call
    OutOfRange = 2,
    // no till is open
    NoTill = 3,
    NoSuchCoin = 4,
    // less is put in than the price
    TooLittle = 5,
    // it can't be paid
    NoWay = 6,
    // more of a coin than the till holds
    TooMany = 7,
}

// A number that is no reason's.
#[derive(Clone, Copy, Debug, PartialEq, Eq)]
pub struct UnknownReason;

// Why a call or a line is turned away, and the place of what is at fault.
#[derive(Clone, Copy, Debug, PartialEq, Eq)]
pub struct Refusal<P = u32> {
    pub reason: Reason,
    pub place: P,
}

// The forms of answers, by their numbers.
#[derive(Clone, Copy, Debug, PartialEq, Eq)]
enum Form {
    Refused = 0,
    Number = 1,
    Two = 2,
    Coins = 3,
}

// An answer: a refusal, one number or two, or so many of each coin. Clauses say what it stands for by `answer_meant`, since
// an enum can have no model yet, and a struct around it would be no plainer.
#[derive(Clone, Copy, Debug, PartialEq, Eq)]
pub enum Answer {
    Refused(Refusal),
    Number(u32),
    Two(u32, u32),
    Coins(Counts),
}

// Bytes that are no answer.
#[derive(Clone, Copy, Debug, PartialEq, Eq)]
pub struct NoAnswer;

impl TryFrom<u32> for Reason {
    type Error = UnknownReason;

    ghost try_from_gives = { λ number r. MatchResult r (λ k. reason_number k ≡ number) (λ _. is_reason number ≡ false) };

    fn try_from(number: u32) -> Result<Reason, UnknownReason> {
        match number {
            1 => Ok(Reason::Unreadable),
            2 => Ok(Reason::OutOfRange),
            3 => Ok(Reason::NoTill),
            4 => Ok(Reason::NoSuchCoin),
            5 => Ok(Reason::TooLittle),
            6 => Ok(Reason::NoWay),
            7 => Ok(Reason::TooMany),
            _ => Err(UnknownReason),
        }
    }
}

// For calls alone: a place of another type has one maker, and a parameter here would be no plainer.
impl Refusal {
    // A call that can't be read from this place on.
    pub fn unreadable(place: u32) -> Refusal
        ensures why { result.reason ≡ Reason.Unreadable }
        ensures at { result.place ≡ place }
    {
        Refusal {
            reason: Reason::Unreadable,
            place,
        }
    }
}

impl<P: fmt::Display> fmt::Display for Refusal<P> {
    ghost output = { λ r. option_map (refusal_text r.reason) (P.output r.place) };

    fn fmt<W: fmt::Write>(&self, f: &mut fmt::Formatter<W>) -> fmt::Result {
        let number = self.reason as u32;
        write!(f, "refused {number} at {}", self.place)
    }
}

impl TryFrom<u8> for Form {
    type Error = NoAnswer;

    ghost try_from_gives = { λ number r. MatchResult r (λ form. form_number form ≡ number) (λ _. 3 < number) };

    fn try_from(number: u8) -> Result<Form, NoAnswer> {
        match number {
            0 => Ok(Form::Refused),
            1 => Ok(Form::Number),
            2 => Ok(Form::Two),
            3 => Ok(Form::Coins),
            _ => Err(NoAnswer),
        }
    }
}

// The answer that bytes are, if they are one.
impl TryFrom<&[u8]> for Answer {
    type Error = NoAnswer;

    ghost try_from_gives = { λ bytes r. option_map answer_meant (result_ok r) ≡ read_answer bytes.now };

    #[tactic(auto, unfolding(crate::specs::Answers::read_answer))]
    fn try_from(bytes: &[u8]) -> Result<Answer, NoAnswer> {
        let [form, rest @ ..] = bytes else {
            return Err(NoAnswer);
        };
        let form = Form::try_from(*form)?;
        read_form(form, rest)
    }
}

// Writes the answer over the front of `out`, and says how many bytes it has. Where `out` is too short, nothing is written.
#[tactic(auto, unfolding(crate::specs::Answers::answer_bytes))]
pub fn write_answer(answer: Answer, out: &mut [u8]) -> Option<usize>
    ensures { Written (answer_bytes (answer_meant answer)) out.old out.new result }
{
    match answer {
        Answer::Refused(refusal) => {
            write_numbers(
                &[Form::Refused as u8],
                &[refusal.reason as u32, refusal.place],
                out,
            )
        }
        Answer::Number(number) => write_numbers(&[Form::Number as u8], &[number], out),
        Answer::Two(first, second) => write_numbers(&[Form::Two as u8], &[first, second], out),
        Answer::Coins(counts) => {
            let counts = counts.as_slice();
            // `as`, since there are at most 16.
            write_numbers(&[Form::Coins as u8, counts.len() as u8], counts, out)
        }
    }
}

// The answer of a form with these bytes behind it: a step of the reading above, and no conversion of its own. A `Result`
// as that gives, since an answer in an `Option` would have to be copied into one.
fn read_form(form: Form, bytes: &[u8]) -> Result<Answer, NoAnswer>
    ensures { option_map answer_meant (result_ok result) ≡ answer_of (form_number form) bytes.now }
{
    match form {
        Form::Refused => {
            let (number, rest) = split_number(bytes).ok_or(NoAnswer)?;
            let place = lone_number(rest).ok_or(NoAnswer)?;
            let reason = Reason::try_from(number).map_err(|_| NoAnswer)?;
            Ok(Answer::Refused(Refusal { reason, place }))
        }
        Form::Number => Ok(Answer::Number(lone_number(bytes).ok_or(NoAnswer)?)),
        Form::Two => {
            let (first, rest) = split_number(bytes).ok_or(NoAnswer)?;
            let second = lone_number(rest).ok_or(NoAnswer)?;
            Ok(Answer::Two(first, second))
        }
        Form::Coins => read_coins(bytes),
    }
}

// Coins, by their count and how many of each: a step of the reading above, and no conversion of its own.
fn read_coins(bytes: &[u8]) -> Result<Answer, NoAnswer>
    ensures { option_map answer_meant (result_ok result) ≡ answer_of 3 bytes.now }
{
    let [kinds, rest @ ..] = bytes else {
        return Err(NoAnswer);
    };
    if rest.len() != 4 * usize::from(*kinds) {
        return Err(NoAnswer);
    }
    let counts = read_counts(rest).ok_or(NoAnswer)?;
    Ok(Answer::Coins(counts))
}
