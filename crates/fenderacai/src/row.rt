ghost use Rattle.std.specs.Prelude.{◌+◌, ◌*◌, ◌≤◌, ◌≡◌, length};
ghost use Rattle.delivery.specs.Limits.{limits};
ghost use Rattle.delivery.specs.Owed.{receivers};
ghost use Rattle.bench.specs.Benches.{signed_by};
ghost use Rattle.schedule.specs.Private.{Puts};
ghost use Rattle.fenderacai.specs.Rows.{status_number, decision, board_words, boards_words, table_words, delivered_words, row};
ghost use Rattle.fenderacai.specs.Private.{board_size, table_size, row_size};

use bench::Bench;
use delivery::{Delivered, Owed, Round};
use signer::Identifier;
use vote::{Board, Decision, Status};

// The words at the front of a row, and those of a board, of a table and of a row.
const FRONT_WORDS: usize = 3;

const BOARD_WORDS: usize = 8;

const TABLE_WORDS: usize = Delivered::PLACES;

pub(crate) const WORDS: usize = FRONT_WORDS
    + Bench::BOARDS as usize * BOARD_WORDS
    + TABLE_WORDS
    + Bench::BOARDS as usize * TABLE_WORDS
    + TABLE_WORDS;

// Words that are put into a buffer from its start on, and how many they are so far. No `Text` of crate `schedule`: that is
// private there, holds bytes, and goes on counting past the buffer's end, where this asks for room first.
#[derive(Drop)]
pub(crate) struct Words<'a> {
    pub(crate) out: &'a mut [u32],
    pub(crate) length: usize,
}

// A status by number. By hand, since a status that has a decision cannot be cast.
#[tactic(auto, unfolding(crate::specs::Rows::status_number))]
fn status_number(status: Status) -> u32
    ensures { result ≡ status_number status }
{
    match status {
        Status::Idle => 0,
        Status::Voting => 1,
        Status::Spent => 2,
        Status::Decided(_) => 3,
    }
}

// What a board decided; 0 in round 0 if it has not. No `Option`, since a row has the same words for every board.
#[tactic(auto, unfolding(crate::specs::Rows::decision))]
fn decision(status: Status) -> Decision
    ensures { result ≡ decision status }
{
    match status {
        Status::Decided(decision) => decision,
        Status::Idle | Status::Voting | Status::Spent => Decision {
            round: Round(0),
            value: 0,
        },
    }
}

// Sets of boards, as words.
fn masks(sets: &[u16; Identifier::LAST as usize]) -> [u32; Identifier::LAST as usize]
    ensures { result ≡ sets.now }
{
    let mut masks = [0; Identifier::LAST as usize];
    for i in 0..Identifier::LAST as usize {
        masks[i] = sets[i] as u32;
    }
    masks
}

// Each of these puts some words after those that are there. A row and the parts of it with tables are inlined, so that LLVM
// sees that the buffer and the bench are apart: it then makes `memcpy` of a copy, and else `memmove`, which whoever links the
// archive for C would have to bring as well (the gate's check `needs`).
impl Words<'_> {
    // Words as they stand.
    fn list(&mut self, words: &[u32])
        requires { self.old.length + length words.now ≤ length self.old.out.now }
        ensures { Puts words.now self.old.out self.old.length self.new.out self.new.length }
    {
        let end = self.length + words.len();
        self.out[self.length..end].copy_from_slice(words);
        self.length = end;
    }

    // A board, and the highest identifier that its signer signed.
    #[tactic(auto, unfolding(crate::specs::Rows::board_words, crate::specs::Rows::status_words, crate::specs::Rows::position_words, crate::specs::Rows::stage_number))]
    fn board(&mut self, board: &Board, last: Identifier)
        requires { self.old.length + board_size ≤ length self.old.out.now }
        ensures { Puts (board_words board.now last.0) self.old.out self.old.length self.new.out self.new.length }
    {
        let decided = decision(board.status);
        self.list(&[
            status_number(board.status),
            decided.round.0 as u32,
            decided.value as u32,
            board.position.round.0 as u32,
            board.position.estimate as u32,
            board.position.stage as u32,
            board.position.suspected as u32,
            last.0 as u32,
        ]);
    }

    // Every board. It is handed out by value, since `Bench::board` gives one of any number (a rule of the project).
    #[inline(always)]
    fn boards(&mut self, bench: &Bench)
        requires { self.old.length + limits.boards * board_size ≤ length self.old.out.now }
        ensures { Puts (boards_words limits bench.now) self.old.out self.old.length self.new.out self.new.length }
    {
        for k in 0..Bench::BOARDS {
            self.board(&bench.board(k + 1), bench.signer(k + 1).last);
        }
    }

    // What each board's signer signed: a log's entries stand as a row has them, so they are copied as a whole, here and below.
    #[inline(always)]
    fn signed(&mut self, bench: &Bench)
        requires { self.old.length + table_size limits ≤ length self.old.out.now }
        ensures { Puts (table_words limits (signed_by limits bench.now)) self.old.out self.old.length self.new.out self.new.length }
    {
        for k in 0..Bench::BOARDS {
            self.list(&bench.signer(k + 1).log.entries);
        }
    }

    // What each board delivered.
    #[inline(always)]
    fn delivered(&mut self, bench: &Bench)
        requires { self.old.length + limits.boards * table_size limits ≤ length self.old.out.now }
        ensures { Puts (delivered_words limits bench.now) self.old.out self.old.length self.new.out self.new.length }
    {
        for k in 0..Bench::BOARDS as usize {
            self.list(&bench.boards[k].delivered.entries);
        }
    }

    // The boards to which copies are owed.
    #[inline(always)]
    fn owed(&mut self, owed: &Owed)
        requires { self.old.length + table_size limits ≤ length self.old.out.now }
        ensures { Puts (table_words limits (receivers limits owed.now)) self.old.out self.old.length self.new.out self.new.length }
    {
        for k in 0..Bench::BOARDS as usize {
            self.list(&masks(&owed.speakers[k].receivers));
        }
    }

    // A row.
    #[inline(always)]
    pub(crate) fn row(&mut self, answer: u8, bench: &Bench)
        requires { self.old.length + row_size limits ≤ length self.old.out.now }
        ensures { Puts (row limits answer bench.now) self.old.out self.old.length self.new.out self.new.length }
    {
        self.list(&[answer as u32, bench.n as u32, bench.sound as u32]);
        self.boards(bench);
        self.signed(bench);
        self.delivered(bench);
        self.owed(&bench.owed);
    }
}
