// Numbers as bytes: a field has four bytes, the lowest first. Reading and writing them, over any bytes.
#![tactic(auto)]

ghost use Rattle.std.specs.Prelude.{◌≡◌, ◌+◌, ◌*◌, ◌<◌, ◌≤◌, true, false, ◌≢◌, [], ◌∷◌, ◌++◌, length, take, drop, map, ℕ, MatchOption};
ghost use Rattle.fields.specs.Bytes.{field, fields, numbers, Written};
ghost use Rattle.fields.specs.Counted.{are_counts};
ghost use Rattle.fields.specs.Back.{FieldsBack};
ghost use Rattle.coins.specs.Values.{counts_of};

use coins::{Counts, PerKind};

// What a field can hold. No `Into<u32>`, whose ghost member is a relation: clauses say which number is written.
pub trait Number: Copy {
    // The number that it is.
    ghost number: { Self → ℕ };

    fn to_u32(self) -> u32
        ensures { result ≡ number self };
}

impl Number for u16 {
    ghost number = { λ n. n };

    fn to_u32(self) -> u32 {
        u32::from(self)
    }
}

impl Number for u32 {
    ghost number = { λ n. n };

    fn to_u32(self) -> u32 {
        self
    }
}

// The number of the first field, and the bytes behind it; none where there is no whole field.
#[tactic(auto, using(crate::proofs::Numbers::numbers_more))]
pub fn split_number<'a>(bytes: &'a [u8]) -> Option<(u32, &'a [u8])>
    ensures { MatchOption result (length bytes.now < 4) (λ p. (numbers bytes.now ≡ p.0 ∷ numbers p.1.now) × (p.1.now ≡ drop 4 bytes.now) × (4 ≤ length bytes.now)) }
{
    let (field, rest) = bytes.split_first_chunk()?;
    Some((u32::from_le_bytes(*field), rest))
}

// The number of bytes that are one field.
#[tactic(auto, using(crate::proofs::Numbers::numbers_none))]
pub fn lone_number(bytes: &[u8]) -> Option<u32>
    ensures { MatchOption result (length bytes.now ≢ 4) (λ n. (length bytes.now ≡ 4) × (numbers bytes.now ≡ n ∷ [])) }
{
    let (number, rest) = split_number(bytes)?;
    if !rest.is_empty() {
        return None;
    }
    Some(number)
}

// The counts that bytes hold, field by field; none where there are more fields than a set has kinds, or a number is no count.
// No `TryFrom`: the type is of another crate, and one around it would be no plainer.
#[tactic(auto, using(crate::proofs::Counting::counted), unfolding(coins::specs::Calls::all_to))]
pub fn read_counts(bytes: &[u8]) -> Option<Counts>
    ensures { MatchOption result (are_counts (numbers bytes.now) ≡ false) (λ c. (are_counts (numbers bytes.now) ≡ true) × (counts_of c ≡ numbers bytes.now)) }
{
    let mut counts = PerKind::new();
    let mut rest = bytes;
    // No `chunks_exact(4)`, whose clauses know no numbers: by `split_number`, which says which each field is, it is plainer.
    while let Some((number, behind)) = split_number(rest) {
        let count = u16::try_from(number).ok()?;
        counts.push(count).ok()?;
        rest = behind;
    }
    Some(Counts(counts))
}

// Writes the field of a number from place `at` on.
fn put_number(out: &mut [u8], at: usize, number: u32)
    requires { at + 4 ≤ length out.old }
    ensures { out.new ≡ take at out.old ++ (field number ++ drop (at + 4) out.old) }
{
    out[at..at + 4].copy_from_slice(&number.to_le_bytes());
}

// Writes some bytes and others behind them over the front of `out`, and says how many bytes that is.
// Where `out` is too short, nothing is written; a writer with a place of its own would have written the head by then.
pub fn write_bytes(head: &[u8], tail: &[u8], out: &mut [u8]) -> Option<usize>
    ensures { Written (head.now ++ tail.now) out.old out.new result }
{
    let start = head.len();
    let room = out.len().checked_sub(start)?;
    if room < tail.len() {
        return None;
    }
    let end = start + tail.len();
    out[0..start].copy_from_slice(head);
    out[start..end].copy_from_slice(tail);
    Some(end)
}

// Writes some bytes and the fields of numbers behind them over the front of `out`, and says how many bytes that is.
// Where `out` is too short, nothing is written.
#[tactic(auto, using(crate::proofs::Writing::written))]
pub fn write_numbers<N: Number>(head: &[u8], numbers: &[N], out: &mut [u8]) -> Option<usize>
    ensures { Written (head.now ++ fields (map N.number numbers.now)) out.old out.new result }
{
    let start = head.len();
    let room = out.len().checked_sub(start)?;
    if room / 4 < numbers.len() {
        return None;
    }
    out[0..start].copy_from_slice(head);
    // By place: `chunks_exact_mut` was tried, and the promise did not close, since a proof does not know what it wrote.
    for (i, number) in numbers.iter().enumerate() {
        put_number(out, start + 4 * i, number.to_u32());
    }
    Some(start + 4 * numbers.len())
}

// What is read is what was written. The function does nothing: the check asks for a proof only where a contract names the
// statement.
pub fn laws_stand()
    ensures fields_back { FieldsBack }
{}
