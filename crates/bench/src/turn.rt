ghost use Rattle.std.specs.Prelude.{◌≡◌, Ok, Err, OnOk, OnErr, if◌then◌else◌};
ghost use Rattle.delivery.specs.Limits.{limits};
ghost use Rattle.bench.specs.declared.answer.Refusal.TheVariants.{MustWait};
ghost use Rattle.bench.specs.Table.{must_wait};
ghost use Rattle.bench.specs.Effects.{after_turn};
ghost use Rattle.bench.specs.Private.{IsVoting};

use crate::answer::Refusal;
use crate::bench::Bench;
use delivery::BoardSet;
use vote::Move;

impl Bench {
    // Board k, which is voting, takes its turn. Row 22 stops it: it waits, or its signer refuses what it says, and nothing
    // changes. Else its signer has signed that, copies become owed, and it makes its move.
    #[tactic(auto, using(crate::proofs::TurnLaws::voting_place))]
    pub(crate) fn turn(&mut self, k: u8) -> Result<(), Refusal>
        requires { IsVoting limits self.old k }
        ensures answer { result ≡ (if must_wait limits self.old k then Err MustWait else Ok tt) }
        ensures ok { OnOk result (self.new ≡ after_turn limits self.old k) }
        ensures err { OnErr result (self.new ≡ self.old) }
    {
        let board = &self.boards[k as usize - 1];
        let step = board.next_move(self.n, k);
        let said = step.said(k, board.position.round);
        if step == Move::Waits {
            return Err(Refusal::MustWait);
        }
        if let Some(s) = said {
            if !self.sign(k, s.id, s.value) {
                return Err(Refusal::MustWait);
            }
            let have = self.holders(k, s.id);
            self.owed
                .record_signing(k, s.id, BoardSet::from(self.sound), have);
        }
        self.change(k, |board| board.make(k, step));
        Ok(())
    }
}
