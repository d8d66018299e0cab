// Two digit strings with their positions, laid over each other: whether they agree where both have a digit, and the part
// of the one that reaches further.
#![tactic(auto)]

ghost use Rattle.std.specs.Prelude.{◌≡◌, true, ◌&&◌, [], ◌∷◌, ◌++◌, ◌^◌, ◌<◌, length};
ghost use Rattle.words.specs.Bytes.{bytes_of};
ghost use Rattle.run.specs.Call.{Does, answered};
ghost use Rattle.run.specs.Answers.{answer_of};
ghost use Rattle.overlap.specs.Strings.{laid, end, all_digits, in_form, second_further};
ghost use Rattle.overlap.specs.Strings as definition;
ghost use Rattle.overlap.specs.Calls.{overlap_call, overlap_part_call, IsPart};

use run::{Answer, Refusal};

// Whether every character is a digit.
pub fn all_digits(s: &[u8]) -> bool
    ensures { result ≡ all_digits s.now }
{
    for c in s {
        if !digits::is_digit(*c) {
            return false;
        }
    }
    true
}

// Digits, as characters, and the position of the first of them.
#[derive(Clone, Copy)]
pub struct Laid<'a> {
    pub digits: &'a [u8],
    pub from: u64,
}

impl<'a> Laid<'a> {
    // Whether they are 1 to 30 digits, at a position from 1 to 2^60.
    #[tactic(auto, unfolding(crate::specs::Strings::in_form))]
    pub fn in_form(&self) -> bool
        ensures { result ≡ in_form (laid self.now.digits.now self.now.from) }
    {
        (1 <= self.digits.len() && self.digits.len() <= 30)
            && ((1 <= self.from && self.from <= 0x1000_0000_0000_0000) && all_digits(self.digits))
    }

    // Whether they hold position n.
    pub fn holds(&self, n: u64) -> bool
        ensures { result ≡ definition.holds (laid self.now.digits.now self.now.from) n }
    {
        self.from <= n && n - self.from < self.digits.len() as u64
    }

    // The digit at position n.
    pub fn digit_at(&self, n: u64) -> u8
        requires { definition.holds (laid self.now.digits.now self.now.from) n ≡ true }
        ensures { result ≡ definition.digit_at (laid self.now.digits.now self.now.from) n }
    {
        self.digits[(n - self.from) as usize]
    }
}

// The later of two positions.
#[tactic(auto, unfolding(crate::specs::Strings::later))]
pub fn later(m: u64, n: u64) -> u64
    ensures { result ≡ definition.later m n }
{
    m.max(n)
}

// Whether two strings are in form.
pub fn both_in_form(first: &Laid, second: &Laid) -> bool
    ensures { result ≡ (in_form (laid first.now.digits.now first.now.from) && in_form (laid second.now.digits.now second.now.from)) }
{
    first.in_form() && second.in_form()
}

// Whether two strings share a position.
#[tactic(auto, unfolding(crate::specs::Strings::share))]
pub fn share(first: &Laid, second: &Laid) -> bool
    ensures { result ≡ definition.share (laid first.now.digits.now first.now.from) (laid second.now.digits.now second.now.from) }
{
    let n = later(first.from, second.from);
    first.holds(n) && second.holds(n)
}

// Whether two strings have the same digit at every position of the first that the second holds as well.
pub fn agree(first: &Laid, second: &Laid) -> bool
    requires { end (laid first.now.digits.now first.now.from) < 2 ^ 64 }
    ensures { result ≡ definition.agree (laid first.now.digits.now first.now.from) (laid second.now.digits.now second.now.from) }
{
    let stop = first.from + first.digits.len() as u64;
    for n in first.from..stop {
        if second.holds(n) && first.digit_at(n) != second.digit_at(n) {
            return false;
        }
    }
    true
}

// Whether the second string reaches further than the first.
pub fn second_further(first: &Laid, second: &Laid) -> bool
    requires { (end (laid first.now.digits.now first.now.from) < 2 ^ 64) × (end (laid second.now.digits.now second.now.from) < 2 ^ 64) }
    ensures { result ≡ second_further (laid first.now.digits.now first.now.from) (laid second.now.digits.now second.now.from) }
{
    first.from + (first.digits.len() as u64) < second.from + second.digits.len() as u64
}

// What the refusal table says of two strings, its tests in the order of their numbers.
pub fn test_overlap(first: &Laid, second: &Laid) -> Answer
    ensures { answer_of result
        ≡ answered (overlap_call (laid first.now.digits.now first.now.from) (laid second.now.digits.now second.now.from)) }
{
    let formed = both_in_form(first, second);
    let shared = share(first, second);
    if !formed {
        return Err(Refusal::BadString);
    }
    if !shared {
        return Err(Refusal::Apart);
    }
    if !agree(first, second) {
        return Err(Refusal::Different);
    }
    Ok(0)
}

// The part of the string that reaches further, the first if both end together, from the first shared position to its end:
// that string's own memory. Where the strings are refused it is empty, at the end of the first.
pub fn part<'a>(first: &Laid<'a>, second: &Laid<'a>) -> &'a [u8]
    ensures { IsPart first.now.digits first.now.from second.now.digits second.now.from result }
{
    let none = first.digits.len();
    if test_overlap(first, second).is_err() {
        return &first.digits[none..];
    }
    let n = later(first.from, second.from);
    if second_further(first, second) {
        let at = (n - second.from) as usize;
        return &second.digits[at..];
    }
    let at = (n - first.from) as usize;
    &first.digits[at..]
}

// Writes a place over 24 bytes: which string, 0 or 1 as C reads it, the offset in it, the length.
pub fn put_place(out: &mut [u8], which: u64, at: u64, len: u64)
    requires { length out.old ≡ 24 }
    ensures { out.new ≡ bytes_of 8 which ++ bytes_of 8 at ++ bytes_of 8 len }
{
    words::put(out, 0, 8, which);
    words::put(out, 8, 8, at);
    words::put(out, 16, 8, len);
}

// Writes where the part lies. All tests are done before a byte is written. As the part reaches to its string's end, its
// offset is what its length leaves of that string's.
pub fn overlap_part<'a>(first: &Laid<'a>, second: &Laid<'a>, out: &mut [u8]) -> Answer
    ensures { Does (overlap_part_call (laid first.now.digits.now first.now.from) (laid second.now.digits.now second.now.from) out.old)
        (answer_of result) (out.new ∷ []) }
{
    if out.len() != 24 {
        return Err(Refusal::WrongSize);
    }
    test_overlap(first, second)?;
    let handed = part(first, second);
    let len = handed.len();
    if second_further(first, second) {
        put_place(out, 1, (second.digits.len() - len) as u64, len as u64);
        return Ok(0);
    }
    put_place(out, 0, (first.digits.len() - len) as u64, len as u64);
    Ok(0)
}
