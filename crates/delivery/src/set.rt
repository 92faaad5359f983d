ghost use Rattle.std.specs.Prelude.{◌≡◌};
ghost use Rattle.delivery.specs.Counting.{count_in};
ghost use Rattle.delivery.specs.Sets.{in_set, with_board, without_board, union, minus};

use signer::from_one;
use std::marker::Model;

// A set of boards, as a mask: bit k - 1 stands for board k. In contracts it is the mask's number. Of the mask, `bits`
// gives all bits at once, as a number, and `BITS` says how many they are.
// What callers keep, as a board or a bench, has the mask itself in its field, and no `BoardSet`: today's check lets a struct that
// holds a type with a model be handed on by value once alone, though it is `Copy`. A `Tally` has sets, and is lent.
#[derive(Clone, Copy, Debug, PartialEq, Eq)]
pub struct BoardSet {
    mask: u16,
}

impl Model for BoardSet {
    ghost use Rattle.std.specs.Prelude.{ℕ, ◌<◌, ◌^◌};
    ghost use Rattle.delivery.specs.Sets.{bits};

    ghost Value = { ℕ };

    ghost view = { λ s. s.mask };

    ghost invariant = { λ s. s.mask < 2 ^ bits };

    ghost inverse = { λ m. record { mask = m } };
}

// Every mask is a set's.
impl From<u16> for BoardSet {
    ghost from_gives = { λ bits set. set ≡ bits };

    fn from(bits: u16) -> BoardSet {
        BoardSet { mask: bits }
    }
}

impl BoardSet {
    /// How many numbers a set has a bit for: `u16::BITS`, written out, since the code gives each limit its number once
    /// (a rule of the project).
    pub const BITS: u8 = 16;

    pub fn empty() -> BoardSet
        ensures { result ≡ 0 }
    {
        BoardSet { mask: 0 }
    }

    // The mask.
    pub fn bits(self) -> u16
        ensures { result ≡ self }
    {
        self.mask
    }

    // Board k alone; no board where k has no bit.
    #[tactic(auto, using(crate::proofs::SetLaws::single))]
    fn alone(k: u8) -> BoardSet
        ensures { result ≡ with_board 0 k }
    {
        if !from_one::within(k, BoardSet::BITS) {
            return BoardSet::empty();
        }
        BoardSet { mask: 1 << (k - 1) }
    }

    // Whether board k is in the set.
    #[tactic(auto, using(crate::proofs::SetLaws::containing))]
    pub fn contains(self, k: u8) -> bool
        ensures { result ≡ in_set self k }
    {
        from_one::within(k, BoardSet::BITS) && (self.mask >> (k - 1)) % 2 == 1
    }

    // Puts board k in.
    #[tactic(auto, using(crate::proofs::SetLaws::changing))]
    pub fn insert(&mut self, k: u8)
        ensures { self.new ≡ with_board self.old k }
    {
        *self = self.union(BoardSet::alone(k));
    }

    // Takes board k out.
    #[tactic(auto, using(crate::proofs::SetLaws::changing))]
    pub fn remove(&mut self, k: u8)
        ensures { self.new ≡ without_board self.old k }
    {
        *self = self.minus(BoardSet::alone(k));
    }

    // The boards of either set.
    #[tactic(auto, using(crate::proofs::SetLaws::joining))]
    pub fn union(self, other: BoardSet) -> BoardSet
        ensures { result ≡ union self other }
    {
        BoardSet {
            mask: self.mask | other.mask,
        }
    }

    // The boards of this set that are not in the other.
    #[tactic(auto, using(crate::proofs::SetLaws::joining))]
    pub fn minus(self, other: BoardSet) -> BoardSet
        ensures { result ≡ minus self other }
    {
        BoardSet {
            mask: self.mask & !other.mask,
        }
    }

    // How many of boards 1 to n are in the set.
    #[tactic(auto, using(crate::proofs::SetLaws::counting))]
    pub fn count(self, n: u8) -> u8
        ensures { result ≡ count_in n (in_set self) }
    {
        if n >= BoardSet::BITS {
            return self.mask.count_ones() as u8;
        }
        let low = (1u16 << n) - 1;
        (self.mask & low).count_ones() as u8
    }
}
