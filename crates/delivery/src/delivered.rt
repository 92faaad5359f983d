ghost use Rattle.std.specs.Prelude.{◌≡◌};
ghost use Rattle.delivery.specs.Limits.{limits};
ghost use Rattle.delivery.specs.Bus.{is_board};
ghost use Rattle.delivery.specs.Delivered.{nothing_delivered, index_of, heard, deliver};

use signer::{Identifier, Log, from_one};

// What one board has delivered: a row for each speaker, and in it a place for each identifier. Entry 0:
// nothing; entry v + 1: the value v. An entry stays a number, not an option of a value: the field is open, and any
// number in it has its answer (a rule of the project).
#[derive(Clone, Copy)]
pub struct Delivered {
    pub entries: [u32; Delivered::PLACES],
}

impl Delivered {
    // The highest number of a board; the lowest is 1.
    pub const BOARDS: u8 = 7;

    // How many places there are.
    pub const PLACES: usize = Delivered::BOARDS as usize * Identifier::LAST as usize;

    // Whether this is a board's number at all: 1 to the highest.
    pub fn is_board(k: u8) -> bool
        ensures { result ≡ is_board limits k }
    {
        from_one::within(k, Delivered::BOARDS)
    }

    #[tactic(auto, unfolding(crate::specs::Delivered::nothing_delivered))]
    pub fn fresh() -> Delivered
        ensures { result ≡ nothing_delivered limits }
    {
        Delivered {
            entries: [0u32; Delivered::PLACES],
        }
    }

    // Where the entry of what a speaker said under an identifier stands; nowhere where no board can say it.
    // Speaker and identifier stay two arguments, here and below: a pair of them is taken apart at once, so no plainer.
    #[tactic(auto, using(crate::proofs::DeliveredLaws::indexes))]
    pub fn index(speaker: u8, id: Identifier) -> Option<usize>
        ensures { result ≡ index_of limits speaker id.0 }
    {
        if !Delivered::is_board(speaker) || !id.in_range() {
            return None;
        }
        Some((speaker as usize - 1) * Identifier::LAST as usize + (id.0 as usize - 1))
    }

    // What a speaker said under an identifier, as a log's entry.
    #[tactic(auto, using(crate::proofs::DeliveredLaws::entries))]
    pub fn entry(&self, speaker: u8, id: Identifier) -> u32
        ensures { result ≡ heard limits self.now speaker id.0 }
    {
        match Delivered::index(speaker, id) {
            Some(i) => self.entries[i],
            None => 0,
        }
    }

    // Takes in one statement more. What stands there already is kept, and a statement that no board
    // can make is left out.
    #[tactic(auto, using(crate::proofs::DeliveredLaws::delivers))]
    pub fn deliver(&mut self, speaker: u8, id: Identifier, value: u16)
        ensures { self.new ≡ deliver limits self.old speaker id.0 value }
    {
        let Some(i) = Delivered::index(speaker, id) else {
            return;
        };
        if self.entries[i] == 0 {
            self.entries[i] = Log::entry_of(value);
        }
    }
}
