// A store of one group's sizes, so that a recursion that comes to single terms has them from eight that were worked side by side. It is worked
// ahead from the first term that it does not hold, and never past the end of the terms.
ghost use Rattle.std.specs.Prelude.{◌≡◌, ℕ, ◌+◌, ◌<◌, ◌≤◌};
ghost use Rattle.lanes.specs.Lanes.{quotient};
ghost use Rattle.series.specs.Results.{SizeOf};

use crate::workable::Terms;
use montgomery::Quotient;

// The terms from `first` on, as many as are held, in the first places of `sizes`.
#[derive(Drop)]
pub struct Store {
    pub terms: Terms,
    pub first: u64,
    pub held: u64,
    pub sizes: [Quotient; 8],
    ghost few: { held ≤ 8 },
    ghost within: { first + held ≤ terms.end },
    ghost each: { (i : ℕ) → i < held → SizeOf terms.numbers (first + i) (quotient sizes i) },
}

impl Store {
    // A store that holds no term.
    pub fn empty(terms: Terms) -> Store
        ensures { result.terms ≡ terms }
    {
        Store {
            terms,
            first: 0,
            held: 0,
            sizes: [Quotient::ZERO; 8],
        }
    }

    // Works the group from term k on in place of what is held, whatever that is, or the term k alone where there is no group before the end. The
    // sizes are put one by one into the array that is there: one that is moved as a whole is copied by `memcpy`, which C would have to bring along.
    pub fn fill(&mut self, k: u64)
        requires { k < self.old.terms.end }
        ensures { (self.new.terms ≡ self.old.terms) × (self.new.first ≡ k) × (0 < self.new.held) }
    {
        let terms = self.terms;
        self.first = k;
        self.held = 0;
        if crate::groups::grouped(&terms, k) {
            let sizes = crate::groups::sizes(&terms, k);
            for j in 0..8 {
                self.sizes[j] = sizes[j];
            }
            self.held = 8;
        } else {
            self.sizes[0] = crate::terms::size(terms.numbers, k);
            self.held = 1;
        }
    }

    // A store that is filled so: it asks for the terms alone.
    pub fn filled(terms: Terms, k: u64) -> Store
        requires { k < terms.end }
        ensures { (result.terms ≡ terms) × (result.first ≡ k) × (0 < result.held) }
    {
        let mut store = Store::empty(terms);
        store.fill(k);
        store
    }

    // The size of term k and its squarings, from the store, which is filled from k on where it does not hold k.
    pub fn size_of(&mut self, k: u64) -> Quotient
        requires { k < self.old.terms.end }
        ensures { (self.new.terms ≡ self.old.terms) × SizeOf self.old.terms.numbers k result }
    {
        let mut place = k.wrapping_sub(self.first);
        if self.held <= place {
            self.fill(k);
            place = 0;
        }
        self.sizes[place as usize]
    }
}
