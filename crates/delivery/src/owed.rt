ghost use Rattle.std.specs.Prelude.{ℕ, ◌≡◌, ◌||◌};
ghost use Rattle.delivery.specs.Limits.{limits};
ghost use Rattle.delivery.specs.Sets.{in_set, set_of, bits};
ghost use Rattle.delivery.specs.Owed.{no_copies, receivers_at, with_receivers_at, nothing_owed, copies_of, receivers, with_receivers, lacks, after_signing, after_delivery};

use crate::delivered::Delivered;
use crate::set::BoardSet;
use signer::{Identifier, from_one};

// For one speaker: under each identifier, the set of boards to which a copy is owed, as a mask (see `BoardSet`).
#[derive(Clone, Copy)]
pub struct Copies {
    pub receivers: [u16; Identifier::LAST as usize],
}

// The copies that are owed, by speaker. A record for each, where `Delivered` has one array: the fields are open, so the
// form stays (a rule of the project).
#[derive(Clone, Copy)]
pub struct Owed {
    pub speakers: [Copies; Delivered::BOARDS as usize],
}

impl Copies {
    #[tactic(auto, unfolding(crate::specs::Owed::no_copies))]
    fn none() -> Copies
        ensures { result ≡ no_copies limits }
    {
        Copies {
            receivers: [0; Identifier::LAST as usize],
        }
    }

    // The set under an identifier; nobody under a number that is none.
    #[tactic(auto, unfolding(crate::specs::Owed::receivers_at))]
    fn receivers(&self, id: Identifier) -> BoardSet
        ensures { result ≡ receivers_at self.now id.0 }
    {
        BoardSet::from(from_one::nth(&self.receivers, id.0, 0))
    }

    // Puts this set under an identifier; a number that is none takes nothing.
    #[tactic(auto, unfolding(crate::specs::Owed::with_receivers_at))]
    fn set_receivers(&mut self, id: Identifier, set: BoardSet)
        ensures { self.new ≡ with_receivers_at self.old id.0 set }
    {
        from_one::set_nth(&mut self.receivers, id.0, set.bits());
    }
}

impl Owed {
    #[tactic(auto, unfolding(crate::specs::Owed::nothing_owed))]
    pub fn none() -> Owed
        ensures { result ≡ nothing_owed limits }
    {
        Owed {
            speakers: [Copies::none(); Delivered::BOARDS as usize],
        }
    }

    // The copies of one speaker's statements; none where the number is no board's.
    #[tactic(auto, unfolding(crate::specs::Owed::copies_of))]
    pub fn copies(&self, speaker: u8) -> Copies
        ensures { result ≡ copies_of limits self.now speaker }
    {
        from_one::nth(&self.speakers, speaker, Copies::none())
    }

    // The boards to which a copy of a speaker's statement is owed; speaker and identifier stay apart, as in `Delivered`.
    #[tactic(auto, using(crate::proofs::OwedLaws::reading), unfolding(crate::specs::Owed::receivers, crate::specs::Owed::copies_of))]
    pub fn receivers(&self, speaker: u8, id: Identifier) -> BoardSet
        ensures { result ≡ receivers limits self.now speaker id.0 }
    {
        match from_one::get(&self.speakers, speaker) {
            Some(copies) => copies.receivers(id),
            None => BoardSet::empty(),
        }
    }

    // Has the boards in `set` owed a copy of it instead.
    #[tactic(auto, using(crate::proofs::OwedLaws::writing), unfolding(crate::specs::Owed::with_receivers, crate::specs::Owed::with_copies, crate::specs::Owed::copies_of))]
    fn set_receivers(&mut self, speaker: u8, id: Identifier, set: BoardSet)
        ensures { self.new ≡ with_receivers limits self.old speaker id.0 set }
    {
        // no `get_mut` in place of test and index: after it the check knows nothing of the other elements
        if Delivered::is_board(speaker) {
            self.speakers[speaker as usize - 1].set_receivers(id, set);
        }
    }

    // The boards to which a copy of it is owed, and the sound ones other than the speaker that do not have it:
    // `sound` are the sound boards, `have` those that have the statement. The two stay apart, here and below: a pair of
    // two sets of one type would hide which is which, so no plainer.
    #[tactic(auto, using(crate::proofs::OwedLaws::sets))]
    fn with_lacking(&self, speaker: u8, id: Identifier, sound: BoardSet, have: BoardSet) -> BoardSet
        ensures { result ≡ set_of bits (λ (k : ℕ). in_set (receivers limits self.now speaker id.0) k || lacks sound have speaker k) }
    {
        let mut others = sound;
        others.remove(speaker);
        self.receivers(speaker, id).union(others.minus(have))
    }

    // Records that a sound board signed.
    #[tactic(auto, unfolding(crate::specs::Owed::after_signing))]
    pub fn record_signing(&mut self, speaker: u8, id: Identifier, sound: BoardSet, have: BoardSet)
        ensures { self.new ≡ after_signing limits self.old speaker id.0 sound have }
    {
        let owed = self.with_lacking(speaker, id, sound, have);
        self.set_receivers(speaker, id, owed);
    }

    // Records that sound board `board` delivered a statement of `speaker`.
    #[tactic(auto, using(crate::proofs::OwedLaws::sets), unfolding(crate::specs::Owed::after_delivery))]
    pub fn record_delivery(
        &mut self,
        board: u8,
        speaker: u8,
        id: Identifier,
        sound: BoardSet,
        have: BoardSet,
    )
        ensures { self.new ≡ after_delivery limits self.old board speaker id.0 sound have }
    {
        let mut owed = self.with_lacking(speaker, id, sound, have);
        owed.remove(board);
        self.set_receivers(speaker, id, owed);
    }
}
