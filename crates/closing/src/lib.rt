// Closing a ledger: the digits that the interval around the total of its rows' sums settles.
#![tactic(auto)]

pub mod charges;

ghost use Rattle.std.specs.Prelude.{◌≡◌, [], ◌∷◌, ◌+◌, ◌^◌, ◌<◌, pos};
ghost use Rattle.std.proofs.Math.IntN.{sub_ℕ};
ghost use Rattle.words.specs.Words.{joined};
ghost use Rattle.series.specs.Names.{formula_of};
ghost use Rattle.digits.specs.Digits.{settled};
ghost use Rattle.interval.specs.Interval.{is_charged};
ghost use Rattle.run.specs.Run.{limits_of};
ghost use Rattle.run.specs.Answers.{answer_of};
ghost use Rattle.run.specs.Call.{Does, answered};
ghost use Rattle.ledger.specs.Ledger.{pos_in, total_in};
ghost use Rattle.closing.specs.Closing.{Ordered, low_of, settled_at, close_call};

use ledger::Ledger;
use run::{Answer, Refusal};
use series::Series;
use words::Wide;

// The number of digits that are settled from total - (b + 1) to total + (a + 1). Where the lower end is below 0, or the upper one at
// 2^128 or above, the two part in the first digit.
pub fn settled_digits(total: Wide, a: u64, b: u64) -> u64
    requires { (a < 2 ^ 63) × (b < 2 ^ 63) }
    ensures { result ≡ settled (sub_ℕ (joined total.hi total.lo) (b + 1)) (pos (joined total.hi total.lo + a + 1)) }
{
    let below = Wide::from(b + 1);
    if words::is_less(total, below) {
        return 0;
    }
    let high = words::add(total, Wide::from(a + 1));
    if words::is_less(high, total) {
        return 0;
    }
    digits::shared_digits(words::sub(total, below), high)
}

// A ledger that is in order.
#[derive(Clone, Copy)]
pub struct InOrder<'a> {
    pub ledger: Ledger<'a>,
    ghost ordered: { Ordered (limits_of (formula_of ledger.f)) ledger.bytes.now },
}

impl<'a> InOrder<'a> {
    // Its total: the sums of all its rows, added up.
    pub fn total(&self) -> Wide
        ensures { joined result.hi result.lo ≡ total_in (limits_of (formula_of self.now.ledger.f)) self.now.ledger.bytes.now }
    {
        ledger::sums::total(self.ledger.sums())
    }

    // The number of digits that its total settles.
    pub fn settle(&self) -> u64
        ensures { result ≡ settled_at is_charged (formula_of self.now.ledger.f) (pos_in self.now.ledger.bytes.now)
            (total_in (limits_of (formula_of self.now.ledger.f)) self.now.ledger.bytes.now) }
    {
        let f = self.ledger.f;
        let p = self.ledger.run().p;
        let a = charges::in_run(f, true, p);
        let b = charges::in_run(f, false, p);
        settled_digits(self.total(), a, b)
    }

    // The lower end of the interval around its total, where a digit is settled, so that it is not below 0.
    pub fn lower_end(&self) -> Wide
        requires { settled_at is_charged (formula_of self.now.ledger.f) (pos_in self.now.ledger.bytes.now)
            (total_in (limits_of (formula_of self.now.ledger.f)) self.now.ledger.bytes.now) ≡ 0 → ⊥ }
        ensures { low_of is_charged (formula_of self.now.ledger.f) (pos_in self.now.ledger.bytes.now)
            (total_in (limits_of (formula_of self.now.ledger.f)) self.now.ledger.bytes.now) ≡ pos (joined result.hi result.lo) }
    {
        let b = charges::in_run(self.ledger.f, false, self.ledger.run().p);
        words::sub(self.total(), Wide::from(b + 1))
    }
}

// What the refusal table says of a closing, its tests in the order of their numbers; or the number of digits.
pub fn test_closing(f: Series, ledger: &[u8], digits: &[u8]) -> Answer
    ensures { answer_of result ≡ answered (close_call (formula_of f) ledger.now digits.now) }
{
    if ledger.len() != ledger::ledger_size(f) {
        return Err(Refusal::WrongSize);
    }
    if digits.len() != 32 {
        return Err(Refusal::WrongSize);
    }
    let ledger = Ledger { f, bytes: ledger };
    if !ledger.in_order() {
        return Err(Refusal::OutOfOrder);
    }
    if !ledger.all_below(ledger.run().c as usize) {
        return Err(Refusal::Unmarked);
    }
    let d = InOrder { ledger }.settle();
    if d == 0 {
        return Err(Refusal::Unsettled);
    }
    Ok(d as u32)
}

// Closes a ledger: writes the digits that it settles. All tests are done before a byte is written.
pub fn close(f: Series, ledger: &[u8], digits: &mut [u8]) -> Answer
    ensures { Does (close_call (formula_of f) ledger.now digits.old) (answer_of result) (digits.new ∷ []) }
{
    let d = test_closing(f, ledger, digits)?;
    let ledger = Ledger { f, bytes: ledger };
    digits::put_digits(digits, InOrder { ledger }.lower_end(), d as usize);
    Ok(d)
}
