// Examples of calls and answers as bytes.
use coins::{Counts, PerKind};
use fields::read_counts;
use std::test::Fail;
use wire::answer::{Answer, NoAnswer, Reason, Refusal, write_answer};
use wire::call::{Call, write_call};

// More than any call or answer has.
const ROOM: usize = 80;

// What `write` writes is these bytes, and nothing behind them changes; into less memory nothing is written.
fn writes<F: Fn(&mut [u8]) -> Option<usize>>(bytes: &[u8], write: F) -> Result<(), Fail>
    requires { F.IsAlwaysCallable write }
{
    let mut out = [0xaau8; ROOM];
    let length = write(&mut out).ok_or("not written")?;
    if length != bytes.len() || !out.starts_with(bytes) {
        return Err(Fail::new("other bytes written"));
    }
    if out.iter().skip(length).any(|byte| *byte != 0xaa) {
        return Err(Fail::new("bytes behind changed"));
    }
    if length > ROOM || length == 0 {
        return Err(Fail::new("length out of range"));
    }
    let mut short = [0xaau8; ROOM];
    if write(&mut short[0..length - 1]).is_some() {
        return Err(Fail::new("written into less memory"));
    }
    if short != [0xaa; ROOM] {
        return Err(Fail::new("less memory changed"));
    }
    Ok(())
}

// Spelled out, so that no expected value comes from what reads.
fn unreadable<'a>(place: u32) -> Result<Call<&'a [u8]>, Refusal> {
    Err(Refusal {
        reason: Reason::Unreadable,
        place,
    })
}

#[test]
fn calls(rt: HostRuntime) -> Result<(), Fail> {
    let sixteen = [2u8; 69];
    let one_byte_more = [2u8; 70];
    let seventeen = [2u8; 73];
    let rows: [(&[u8], Result<Call<&[u8]>, Refusal>); 22] = [
        (
            &[0, 1, 0, 0, 0, 2, 1, 0, 0],
            Ok(Call::Fill {
                coin: 1,
                count: 258,
            }),
        ),
        (&[1, 0x1e, 0, 0, 0], Ok(Call::Pay(30))),
        (
            &[2, 0x46, 0, 0, 0, 4, 0, 0, 0, 0, 0, 0, 0, 0, 0, 0, 0],
            Ok(Call::Sell {
                price: 70,
                put_in: &[4, 0, 0, 0, 0, 0, 0, 0, 0, 0, 0, 0],
            }),
        ),
        (
            &[2, 0x46, 0, 0, 0],
            Ok(Call::Sell {
                price: 70,
                put_in: &[],
            }),
        ),
        (
            &sixteen,
            Ok(Call::Sell {
                price: 0x0202_0202,
                put_in: &sixteen[5..69],
            }),
        ),
        (&[3, 0x1e, 0, 0, 0], Ok(Call::Could(30))),
        (&[4], Ok(Call::Holds)),
        (&[5, 0xe8, 3, 0, 0], Ok(Call::Spoils(1000))),
        (
            &[5, 0xff, 0xff, 0xff, 0xff],
            Ok(Call::Spoils(4_294_967_295)),
        ),
        // no byte, no call's number
        (&[], unreadable(0)),
        (&[6], unreadable(0)),
        (&[0xff, 0x1e, 0, 0, 0], unreadable(0)),
        // cut short
        (&[1], unreadable(1)),
        (&[1, 0x1e, 0], unreadable(3)),
        (&[0, 1, 0, 0, 0], unreadable(5)),
        (&[2, 0x46, 0, 0], unreadable(4)),
        (&[2, 0x46, 0, 0, 0, 4], unreadable(6)),
        // too long
        (&[1, 0x1e, 0, 0, 0, 0], unreadable(5)),
        (&[0, 1, 0, 0, 0, 2, 1, 0, 0, 7, 7], unreadable(9)),
        (&[4, 4], unreadable(1)),
        (&one_byte_more, unreadable(69)),
        (&seventeen, unreadable(69)),
    ];
    for (bytes, expected) in rows {
        assert_eq!(rt; Call::try_from(bytes), expected);
        if let Ok(call) = expected {
            writes(bytes, |out| write_call(call, out))?;
        }
    }
    Ok(())
}

fn refused(reason: Reason, place: u32) -> Result<Answer, NoAnswer> {
    Ok(Answer::Refused(Refusal { reason, place }))
}

// The answer of so many of each coin.
fn answer_coins(numbers: &[u16]) -> Result<Answer, Fail> {
    let numbers = PerKind::try_from(numbers).map_err(|_| Fail::new("too many kinds"))?;
    Ok(Answer::Coins(Counts(numbers)))
}

#[test]
fn answers(rt: HostRuntime) -> Result<(), Fail> {
    let mut sixteen = [0u8; 66];
    sixteen[0] = 3;
    sixteen[1] = 16;
    let mut seventeen = [0u8; 70];
    seventeen[0] = 3;
    seventeen[1] = 17;
    let rows: [(&[u8], Result<Answer, NoAnswer>); 17] = [
        (&[0, 6, 0, 0, 0, 0, 0, 0, 0], refused(Reason::NoWay, 0)),
        (
            &[0, 1, 0, 0, 0, 69, 0, 0, 0],
            refused(Reason::Unreadable, 69),
        ),
        (&[1, 7, 0, 0, 0], Ok(Answer::Number(7))),
        (&[2, 0x69, 0, 0, 0, 7, 0, 0, 0], Ok(Answer::Two(105, 7))),
        (
            &[3, 3, 0, 0, 0, 0, 3, 0, 0, 0, 0, 0, 0, 0],
            Ok(answer_coins(&[0, 3, 0])?),
        ),
        (&[3, 0], Ok(answer_coins(&[])?)),
        (&[3, 1, 0xff, 0xff, 0, 0], Ok(answer_coins(&[65_535])?)),
        (&sixteen, Ok(answer_coins(&[0; 16])?)),
        // no answers: no byte, no form, no refusal's number, too short, too long, too many or too much
        (&[], Err(NoAnswer)),
        (&[4, 7, 0, 0, 0], Err(NoAnswer)),
        (&[0, 8, 0, 0, 0, 0, 0, 0, 0], Err(NoAnswer)),
        (&[0, 0, 0, 0, 0, 0, 0, 0, 0], Err(NoAnswer)),
        (&[1, 7, 0, 0], Err(NoAnswer)),
        (&[2, 0x69, 0, 0, 0, 7, 0, 0, 0, 0], Err(NoAnswer)),
        (&[3, 2, 1, 0, 0, 0], Err(NoAnswer)),
        (&[3, 1, 0, 0, 1, 0], Err(NoAnswer)),
        (&seventeen, Err(NoAnswer)),
    ];
    for (bytes, expected) in rows {
        assert_eq!(rt; Answer::try_from(bytes), expected);
        if let Ok(answer) = expected {
            writes(bytes, |out| write_answer(answer, out))?;
        }
    }
    Ok(())
}

// 65,536 coins are not 0 coins; and a count is written as it is read.
#[test]
fn counts(rt: HostRuntime) -> Result<(), Fail> {
    assert!(rt; read_counts(&[4, 0, 0, 0, 0, 0, 1, 0]).is_none());
    let counts = read_counts(&[4, 0, 0, 0, 0xff, 0xff, 0, 0]).ok_or("no counts")?;
    assert_eq!(rt; counts.as_slice(), [4, 65_535].as_slice());
    Ok(())
}

// Counts and answers are copied where they are used twice.
#[test]
fn copies(rt: HostRuntime) -> Result<(), Fail> {
    let counts = read_counts(&[4, 0, 0, 0]).ok_or("no counts")?;
    let answers = (Answer::Coins(counts), Answer::Coins(counts));
    assert_eq!(rt; answers.0, answers.1);
    let mut out = [0u8; ROOM];
    for _ in 0..2 {
        assert_eq!(rt; write_answer(answers.0, &mut out), Some(6));
    }
    assert!(rt; out.starts_with(&[3, 1, 4, 0, 0, 0]));
    Ok(())
}
