//! A script for the bench player: its lines, and the call that a line is.
#![tactic(auto)]

ghost use Rattle.std.specs.Prelude.{◌≡◌, ℕ, ◌<◌, ◌≤◌, true, [], ◌∷◌, length, take, drop, Some, None, Ok, Err, slice_index};
ghost use Rattle.std.specs.List.{prefix_len};
ghost use Rattle.std.specs.Str.Parse.{digits_value as numeral};
ghost use Rattle.script.specs.Grammar.{and_then, call_of, filled, form_of, is_digit, is_width, lines_of, or_not_a_call};
ghost use Rattle.script.specs.Lines.{lines_left};
ghost use Rattle.script.specs.Walk.{behind, exactly, in_line, number_first};

use store::Call;

/// The line is no call.
#[derive(Clone, Copy, PartialEq, Eq, Debug)]
pub struct NotACall;

/// A line, without what ends it, and the input that follows it.
#[derive(Clone, Copy, PartialEq, Eq, Debug)]
pub struct Cut<'a> {
    pub line: &'a [u8],
    pub rest: &'a [u8],
}

// Whether a number may have `n` digits.
fn is_width(n: usize) -> bool
    ensures { result ≡ is_width n }
{
    (1..=9).contains(&n)
}

// How many digits `s` begins with.
fn leading_digits(s: &[u8]) -> usize
    ensures count { result ≡ prefix_len is_digit s.now }
    ensures each { (k : ℕ) → k < result → is_digit (slice_index s.now k) ≡ true }
    ensures within { result ≤ length s.now }
{
    s.iter().take_while(|byte| byte.is_ascii_digit()).count()
}

// The number that at most nine digits write. (With std's `parse` in its place, a whole line took twice the time.)
fn value(digits: &[u8]) -> u32
    requires each { (k : ℕ) → k < length digits.now → is_digit (slice_index digits.now k) ≡ true }
    requires few { length digits.now ≤ 9 }
    ensures { result ≡ numeral 10 digits.now }
{
    let mut sum = 0u32;
    for byte in digits {
        sum = sum * 10 + u32::from(*byte - b'0');
    }
    sum
}

// The number behind one space in front of `s`, and what follows it.
fn number(s: &[u8]) -> Option<(u32, &[u8])>
    ensures { elim result [ Some p ↦ number_first s.now ≡ Some (p.0, p.1.now) | None ↦ number_first s.now ≡ None ] }
{
    let Some((b' ', rest)) = s.split_first() else {
        return None;
    };
    let width = leading_digits(rest);
    if !is_width(width) {
        return None;
    }
    let (digits, rest) = rest.split_at(width);
    Some((value(digits), rest))
}

// The numbers that make up `rest`, each behind one space.
#[tactic(auto, using(crate::proofs::Taken::not_taken, crate::proofs::Taken::all_taken))]
fn numbers<const N: usize>(rest: &[u8]) -> Option<[u32; N]>
    ensures { result ≡ exactly N (behind rest.now) }
{
    let mut found = [0; N];
    let mut left = rest;
    for slot in found.iter_mut() {
        let (number, rest) = number(left)?;
        *slot = number;
        left = rest;
    }
    left.is_empty().then_some(found)
}

// A line is taken apart by `let .. else` here, and not by `ok_or` and `?`: a rule of the project.

// The process that follows the letter of a call that takes no more.
fn process(rest: &[u8]) -> Result<usize, NotACall>
    ensures { elim result [ Ok p ↦ exactly 1 (behind rest.now) ≡ Some (p ∷ []) | Err e ↦ exactly 1 (behind rest.now) ≡ None ] }
{
    let Some(found) = numbers::<1>(rest) else {
        return Err(NotACall);
    };
    let [process] = found;
    Ok(process as usize)
}

// The call that a letter and what follows it are.
#[tactic(auto, using(crate::proofs::Forms::given, crate::proofs::Forms::no_one, crate::proofs::Forms::no_two, crate::proofs::Forms::no_three))]
fn call_by(letter: char, rest: &[u8]) -> Result<Call<u32>, NotACall>
    ensures { result ≡ or_not_a_call (and_then (behind rest.now) (filled (form_of letter))) }
{
    match letter {
        'b' => Ok(Call::Begin {
            process: process(rest)?,
        }),
        'r' => {
            let Some(found) = numbers::<2>(rest) else {
                return Err(NotACall);
            };
            let [process, item] = found;
            Ok(Call::Read {
                process: process as usize,
                item: item as usize,
            })
        }
        'w' => {
            let Some(found) = numbers::<3>(rest) else {
                return Err(NotACall);
            };
            let [process, item, value] = found;
            Ok(Call::Write {
                process: process as usize,
                item: item as usize,
                value,
            })
        }
        'c' => Ok(Call::TryCommit {
            process: process(rest)?,
        }),
        'a' => Ok(Call::Abort {
            process: process(rest)?,
        }),
        's' => Ok(Call::Step {
            process: process(rest)?,
        }),
        _ => Err(NotACall),
    }
}

/// The call that a line is.
#[tactic(auto, using(crate::proofs::Forms::no_letter, crate::proofs::Forms::call_behind))]
pub fn parse(line: &[u8]) -> Result<Call<u32>, NotACall>
    ensures { result ≡ or_not_a_call (call_of line.now) }
{
    let Some((letter, rest)) = line.split_first() else {
        return Err(NotACall);
    };
    call_by(char::from(*letter), rest)
}

// How many bytes the first line of an input has.
fn line_length(input: &[u8]) -> usize
    ensures count { result ≡ prefix_len in_line input.now }
    ensures within { result ≤ length input.now }
{
    input.iter().take_while(|byte| **byte != b'\n').count()
}

// The first `n` bytes, and what follows them and the byte that ends them, if one does.
fn cut_at(input: &[u8], n: usize) -> Cut<'_>
    requires { n ≤ length input.now }
    ensures line { result.line.now ≡ take n input.now }
    ensures rest { result.rest.now ≡ drop 1 (drop n input.now) }
{
    let (line, rest) = input.split_at(n);
    Cut {
        line,
        rest: rest.get(1..).unwrap_or(rest),
    }
}

/// The first line of an input, and what follows it; none where there is no line.
#[tactic(auto, using(crate::proofs::Cuts::lines_none))]
pub fn next_line(input: &[u8]) -> Option<Cut<'_>>
    ensures { elim result [ Some c ↦ (lines_of input.now ≡ c.line.now ∷ lines_of c.rest.now) × (length c.rest.now < length input.now) | None ↦ lines_of input.now ≡ [] ] }
{
    if input.is_empty() {
        return None;
    }
    Some(cut_at(input, line_length(input)))
}

/// The lines of an input, one after the other.
#[derive(Debug, Drop)]
pub struct Lines<'a> {
    rest: &'a [u8],
}

impl<'a> Lines<'a> {
    /// The lines of an input, from the first on.
    pub fn new(input: &'a [u8]) -> Lines<'a>
        ensures { lines_left result ≡ lines_of input.now }
    {
        Lines { rest: input }
    }
}

impl<'a> Iterator for Lines<'a> {
    ghost use Rattle.std.specs.Iterator.{YieldsFirstRef, item_count};
    ghost use Rattle.script.specs.Lines.{lines_left};

    type Item = &'a [u8];

    ghost next_gives = { YieldsFirstRef lines_left };

    ghost remaining = { item_count lines_left };

    fn next(&mut self) -> Option<&'a [u8]> {
        let cut = next_line(self.rest)?;
        self.rest = cut.rest;
        Some(cut.line)
    }
}
