ghost use Rattle.std.specs.Prelude.{◌≡◌};
ghost use Rattle.std.specs.Fn.{FnOnceReturnsAt};
ghost use Rattle.delivery.specs.Limits.{limits};
ghost use Rattle.signer.specs.FromOne.{nth};
ghost use Rattle.delivery.specs.Delivered.{heard};
ghost use Rattle.delivery.specs.Owed.{receivers};
ghost use Rattle.vote.specs.Boards.{fresh_board};
ghost use Rattle.bench.specs.Benches.{is_sound, board_at, signer_at, heard_by, signed_by, holders};

use delivery::{BoardSet, Delivered, Owed};
use signer::{Identifier, Signer, from_one};
use vote::Board;

// The boards of a bus, 1 to n, the sound ones among them as a mask (see `BoardSet`), their signers, and the copies that are
// owed. The arrays are for as many boards as there can be, with n beside them, and boards and signers stand apart: a bench has
// fixed memory and open fields (rules of the project).
#[derive(Clone, Copy)]
pub struct Bench {
    pub n: u8,
    pub sound: u16,
    pub boards: [Board; Bench::BOARDS as usize],
    pub signers: [Signer; Bench::BOARDS as usize],
    pub owed: Owed,
}

impl Bench {
    // The most boards that a bench has.
    pub const BOARDS: u8 = Delivered::BOARDS;

    // Whether board k is marked sound.
    pub fn is_sound(&self, k: u8) -> bool
        ensures { result ≡ is_sound self.now k }
    {
        BoardSet::from(self.sound).contains(k)
    }

    // Board k; a fresh one where the number is no board's.
    #[tactic(auto, unfolding(crate::specs::Benches::board_at))]
    pub fn board(&self, k: u8) -> Board
        ensures { result ≡ board_at limits self.now k }
    {
        from_one::nth(&self.boards, k, Board::fresh())
    }

    // Board k's signer; a fresh one where the number is no board's. What is read of a signer below is read where it stands.
    #[tactic(auto, unfolding(crate::specs::Benches::signer_at))]
    pub fn signer(&self, k: u8) -> Signer
        ensures { result ≡ signer_at limits self.now k }
    {
        from_one::nth(&self.signers, k, Signer::fresh())
    }

    // Asks board k, where it stands; a fresh one where the number is no board's.
    #[inline(always)]
    #[tactic(auto, using(signer::proofs::FromOneLaws::get_some, signer::proofs::FromOneLaws::get_none), unfolding(crate::specs::Benches::board_at))]
    pub(crate) fn ask<R, F: FnOnce(&Board) -> R>(&self, k: u8, question: F) -> R
        requires { F.IsAlwaysCallable question }
        ensures { FnOnceReturnsAt F.FnOnce question (board_at limits self.now k) result }
    {
        match from_one::get(&self.boards, k) {
            Some(board) => question(board),
            None => Bench::ask_fresh(question),
        }
    }

    // Asks a fresh board. That takes the room of a board, so it is no part of a caller.
    #[cold]
    #[inline(never)]
    fn ask_fresh<R, F: FnOnce(&Board) -> R>(question: F) -> R
        requires { F.IsAlwaysCallable question }
        ensures { FnOnceReturnsAt F.FnOnce question (fresh_board limits) result }
    {
        question(&Board::fresh())
    }

    // What board k has delivered from a speaker under an identifier, as a log's entry; these two stay apart here and below, as
    // in `Delivered`.
    #[inline(always)]
    pub fn delivered(&self, k: u8, speaker: u8, id: Identifier) -> u32
        ensures { result ≡ heard_by limits self.now k speaker id.0 }
    {
        self.ask(k, |board| board.delivered.entry(speaker, id))
    }

    // What board k's signer has signed under an identifier, as a log's entry.
    #[inline(always)]
    #[tactic(auto, using(crate::proofs::BenchLaws::chips), unfolding(crate::specs::Benches::signed_by, crate::specs::Benches::signer_at))]
    pub fn signed(&self, k: u8, id: Identifier) -> u32
        ensures { result ≡ signed_by limits self.now k id.0 }
    {
        match from_one::get(&self.signers, k) {
            Some(signer) => signer.entry(id),
            None => 0,
        }
    }

    // The last identifier that board k's signer has signed under; 0 where it has under none.
    #[inline(always)]
    #[tactic(auto, using(crate::proofs::BenchLaws::chips), unfolding(crate::specs::Benches::signer_at))]
    pub(crate) fn last(&self, k: u8) -> Identifier
        ensures { result.0 ≡ (signer_at limits self.now k).last.0 }
    {
        match from_one::get(&self.signers, k) {
            Some(signer) => signer.last,
            None => Identifier(0),
        }
    }

    // The boards to which a copy of a speaker's statement is owed.
    pub fn owed(&self, speaker: u8, id: Identifier) -> BoardSet
        ensures { result ≡ receivers limits self.now.owed speaker id.0 }
    {
        self.owed.receivers(speaker, id)
    }

    // The boards that have delivered a speaker's statement under an identifier. A loop of its own, beside `sound_of`, which
    // tests the marks too and stops at the first that is none: one loop for both would be no plainer.
    #[tactic(auto, unfolding(crate::specs::Benches::holders))]
    pub(crate) fn holders(&self, speaker: u8, id: Identifier) -> BoardSet
        ensures { result ≡ holders limits self.now speaker id.0 }
    {
        let mut have = BoardSet::empty();
        for (i, board) in self.boards.iter().enumerate() {
            if board.delivered.entry(speaker, id) != 0 {
                have.insert(i as u8 + 1);
            }
        }
        have
    }
}
