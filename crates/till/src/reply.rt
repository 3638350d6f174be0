// What a line is answered.
ghost use Rattle.std.specs.Prelude.{◌≡◌, Some};
ghost use Rattle.till.specs.Replies.{printed, refused_opening};

use crate::opening::OpenError;
use std::fmt;
use wire::answer::{Reason, Refusal};

// One answer so far; calls that are done will have theirs.
#[derive(Clone, Copy, Debug, PartialEq, Eq)]
pub enum Reply {
    Opened,
}

// A line that is turned away. Its place is the number of the line where that can't be read.
pub type Refused = Refusal<usize>;

// No till is opened: the place says why.
impl From<OpenError> for Refused {
    ghost from_gives = { λ error r. r ≡ refused_opening error };

    fn from(error: OpenError) -> Refused {
        Refusal {
            reason: Reason::NoTill,
            place: error as usize,
        }
    }
}

impl fmt::Display for Reply {
    ghost output = { λ r. Some (printed r) };

    fn fmt<W: fmt::Write>(&self, f: &mut fmt::Formatter<W>) -> fmt::Result {
        match self {
            Reply::Opened => write!(f, "opened"),
        }
    }
}
