ghost use Rattle.std.specs.Prelude.{◌≤◌, ◌≡◌, Ok, Err, if◌then◌else◌};
ghost use Rattle.delivery.specs.Limits.{limits};
ghost use Rattle.delivery.specs.Counting.{every_in};
ghost use Rattle.delivery.specs.Sets.{set_of};
ghost use Rattle.bench.specs.Setups.{is_mark, is_mark_at, is_marked_sound, fresh_answer, setup, fresh_of, bench_of};
ghost use Rattle.bench.specs.declared.answer.SetupFault.TheVariants.{NoMark};

use crate::answer::SetupFault;
use crate::bench::Bench;
use delivery::{BoardSet, Delivered, Owed};
use signer::Signer;
use vote::Board;

// What comes of the call for a fresh bench: the bench, and the answer. It is no `Result` of a bench, since a refused call
// gives one too.
#[derive(Clone, Copy)]
pub struct Fresh {
    pub bench: Bench,
    pub answer: Result<(), SetupFault>,
}

// The boards of 1 to n that are marked sound, if the marks of all of these are marks. A loop of its own, beside that of
// `Bench::holders`: this one also tests the marks, and stops at one that is none.
#[tactic(auto, using(crate::proofs::MakingLaws::marks_passed), unfolding(crate::specs::Setups::is_mark_at, crate::specs::Setups::is_marked_sound))]
fn sound_of(n: u8, marks: &[u8; Bench::BOARDS as usize]) -> Result<BoardSet, SetupFault>
    requires { n ≤ limits.boards }
    ensures { result ≡ (if every_in n (is_mark_at marks.now) then Ok (set_of n (is_marked_sound marks.now)) else Err NoMark) }
{
    let mut sound = BoardSet::empty();
    for (i, mark) in marks[..n as usize].iter().enumerate() {
        if !Bench::is_mark(*mark) {
            return Err(SetupFault::NoMark);
        }
        if *mark == 0 {
            sound.insert(i as u8 + 1);
        }
    }
    Ok(sound)
}

impl Bench {
    // Whether a byte is a mark at all: 0 or 1.
    pub fn is_mark(byte: u8) -> bool
        ensures { result ≡ is_mark byte }
    {
        byte <= 1
    }

    // Nothing has happened yet on this bench.
    #[inline(always)]
    #[tactic(auto, unfolding(crate::specs::Setups::bench_of))]
    fn of(n: u8, sound: BoardSet) -> Bench
        ensures { result ≡ bench_of limits n sound }
    {
        Bench {
            n,
            sound: sound.bits(),
            boards: [Board::fresh(); Bench::BOARDS as usize],
            signers: [Signer::fresh(); Bench::BOARDS as usize],
            owed: Owed::none(),
        }
    }

    // How many boards there are, which of them are sound, and the answer to the call for such a bench. Where it is refused
    // there is one, which is sound, since a refused call gives a bench (a rule of the project).
    #[inline(always)]
    #[tactic(auto, using(crate::proofs::MakingLaws::bus_size), unfolding(crate::specs::Setups::fresh_answer, crate::specs::Setups::setup_by))]
    fn setup(n: u8, marks: &[u8; Bench::BOARDS as usize]) -> (u8, BoardSet, Result<(), SetupFault>)
        ensures count { result.0 ≡ (setup limits n marks.now).n }
        ensures sound { result.1 ≡ (setup limits n marks.now).sound }
        ensures answer { result.2 ≡ fresh_answer limits n marks.now }
    {
        let mut alone = BoardSet::empty();
        alone.insert(1);
        if !Delivered::is_board(n) {
            return (1, alone, Err(SetupFault::NoBus));
        }
        match sound_of(n, marks) {
            Ok(sound) => (n, sound, Ok(())),
            Err(fault) => (1, alone, Err(fault)),
        }
    }

    // A fresh bench of n boards; marks are 0 for sound and 1 for faulty, and those after the n-th are not read. The call is
    // made from n and all seven marks (a rule of the project), so these stay two arguments, here and where a list is played.
    // How many boards there are and which are sound comes first, so that the bench is made once; inlined, in the caller's place.
    #[inline(always)]
    #[tactic(auto, unfolding(crate::specs::Setups::fresh_of, crate::specs::Setups::fresh_bench))]
    pub fn fresh(n: u8, marks: [u8; Bench::BOARDS as usize]) -> Fresh
        ensures { result ≡ fresh_of limits n marks }
    {
        let (count, sound, answer) = Bench::setup(n, &marks);
        Fresh {
            bench: Bench::of(count, sound),
            answer,
        }
    }
}
