// The program `till`: reads standard input line by line, and answers each line by one line.
#![tactic(auto)]

ghost use Rattle.till.specs.Answers.{Answered};

use crate::opening::Till;
use crate::reply::{Refused, Reply};
use crate::request::{Request, read_request};
use anyhow::anyhow;
use std::env;
use std::io::{BufRead, BufReader};
use wire::answer::Reason;

mod opening;
mod reply;
mod request;

const HELP: &str = "till reads standard input, a line each, and answers each line by one line.
  open EACH MOST VALUE ..  opens a till: coins of a kind, largest amount, values from the largest
  fill COIN COUNT          more of a coin, by its place from 0: how many there are then
  pay AMOUNT               how many of each coin
  sell PRICE COUNT ..      coins put in, so many of each: how many of each are paid back
  could AMOUNT             one more than the fewest coins for it, or 0
  holds                    what all coins are worth, and how many there are
  spoils BOUND             the smallest amount up to it spoilt by the largest coin first, or 0
At most 8 kinds of coins and amounts of 4096. Empty lines and lines that begin with # are passed over.
Refused by 1: line L (from 0) can't be read. 2: out of range, or not done yet. 3: no set of coins or
  no till (at 0), limits out of range (at 1), more than is served (at 2). 4: no such coin. 5: less put
  in than the price. 6: it can't be paid. 7: more of a coin than EACH.";

// What a line is answered, and whether it opened another till.
fn answer(till: &mut Option<Till>, request: Request) -> Result<Reply, Refused>
    ensures { Answered till.old request till.new result }
{
    match request {
        Request::Open { limits, values } => {
            *till = Some(Till::open(limits, values.as_slice())?);
            Ok(Reply::Opened)
        }
        Request::Call(_) => {
            let reason = if till.is_some() {
                Reason::OutOfRange
            } else {
                Reason::NoTill
            };
            Err(Refused { reason, place: 0 })
        }
    }
}

// Answers the lines of standard input.
fn answer_lines(rt: &HostRuntime) -> anyhow::Result<()> {
    let heap = rt.alloc();
    let mut till = None;
    for (place, line) in BufReader::new(heap, rt.stdin())?.lines(heap).enumerate() {
        let text = line.map_err(|error| anyhow!("line {place} of the input: {error}"))?;
        if passed_over(text.as_str()) {
            continue;
        }
        let answered = match read_request(heap, text.as_str())? {
            Some(request) => answer(&mut till, request),
            None => Err(Refused {
                reason: Reason::Unreadable,
                place,
            }),
        };
        match answered {
            Ok(reply) => println!(rt; "{reply}")?,
            Err(refused) => println!(rt; "{refused}")?,
        }
    }
    Ok(())
}

// Empty lines and comments.
fn passed_over(line: &str) -> bool {
    let text = line.trim();
    text.is_empty() || text.starts_with('#')
}

fn run(rt: &HostRuntime) -> anyhow::Result<()> {
    let mut args = env::args(rt)?;
    match args.nth(1) {
        None => answer_lines(rt),
        Some(word) if word.as_str() == "--help" => Ok(println!(rt; "{HELP}")?),
        Some(word) => Err(anyhow!("no argument but --help is known, not '{word}'")),
    }
}

fn main(rt: HostRuntime) -> anyhow::Result<()> {
    run(&rt)
}
