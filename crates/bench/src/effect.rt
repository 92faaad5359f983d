ghost use Rattle.std.specs.Prelude.{◌≡◌, ◌&&◌, OnOk, OnErr};
ghost use Rattle.std.specs.Fn.{FnOnceReturnsAtMut};
ghost use Rattle.signer.specs.Signer.{grants};
ghost use Rattle.delivery.specs.Bus.{is_board};
ghost use Rattle.delivery.specs.Limits.{limits};
ghost use Rattle.bench.specs.Benches.{board_at, signer_at};
ghost use Rattle.bench.specs.Events.{turning, announcing, kind_number};
ghost use Rattle.bench.specs.Table.{turn_rows, first_of};
ghost use Rattle.bench.specs.Effects.{with_board_at, with_signature, brought, after_hearing, effect_of, step_of};
ghost use Rattle.bench.specs.Private.{IsVoting, IsConvinced, announced};

use crate::answer::Refusal;
use crate::bench::Bench;
use crate::event::{Event, Kind, Known};
use delivery::{BoardSet, Delivered, Round};
use signer::Identifier;
use vote::{Board, Decision, Statement};

// What comes of an event: the bench afterwards, and the answer. It is no `Result` of a bench, since a refused event leaves
// one too.
#[derive(Clone, Copy)]
pub struct Outcome {
    pub bench: Bench,
    pub answer: Result<(), Refusal>,
}

impl Known {
    // The statement that a delivery brings.
    fn brought(&self) -> Statement
        ensures { result ≡ brought self.now }
    {
        Statement {
            speaker: self.b,
            id: Identifier(self.id),
            value: self.value,
        }
    }

    // The decision that an announcement tells of.
    pub(crate) fn announced(&self) -> Decision
        ensures { result ≡ announced self.now }
    {
        Decision {
            round: Round(self.id),
            value: self.value,
        }
    }
}

impl Bench {
    // Changes board k; nothing changes where the number is no board's. By index, here and for a signer, for the
    // reason that stands at `from_one::set_nth`.
    #[inline(always)]
    #[tactic(auto, using(crate::proofs::BenchLaws::places), unfolding(crate::specs::Benches::board_at, crate::specs::Effects::with_board_at))]
    pub(crate) fn change<F: FnOnce(&mut Board)>(&mut self, k: u8, change: F)
        requires { F.IsAlwaysCallable change }
        ensures { (f : Board → Board) → ((b : Board) → FnOnceReturnsAtMut F.FnOnce change (board_at limits self.old k) tt b → b ≡ f (board_at limits self.old k)) → self.new ≡ with_board_at self.old k (f (board_at limits self.old k)) }
    {
        if Delivered::is_board(k) {
            change(&mut self.boards[k as usize - 1]);
        }
    }

    // Board k's signer is asked to sign a value under an identifier, and says whether it signed; nobody is asked where the
    // number is no board's.
    #[tactic(auto, using(crate::proofs::BenchLaws::asked), unfolding(crate::specs::Effects::with_signature, crate::specs::Benches::signer_at))]
    pub(crate) fn sign(&mut self, k: u8, id: Identifier, value: u16) -> bool
        ensures signed { result ≡ (is_board limits k && grants limits.identifiers (signer_at limits self.old k) id.0) }
        ensures bench { self.new ≡ with_signature limits self.old k id.0 value }
    {
        Delivered::is_board(k) && self.signers[k as usize - 1].sign(id, value)
    }

    // Board k delivers a statement, and echoes it.
    fn hear(&mut self, k: u8, s: Statement)
        ensures { self.new ≡ after_hearing limits self.old k s }
    {
        let have = self.holders(s.speaker, s.id);
        self.owed
            .record_delivery(k, s.speaker, s.id, BoardSet::from(self.sound), have);
        self.change(k, |board| board.deliver(s));
    }

    // What an event does that none of rows 10 to 21 applies to; row 22 refuses a turn. What is announced to a board it has
    // counted its ballots for in row 21, so it decides that, and does not count them again.
    #[inline(always)]
    #[tactic(auto, unfolding(crate::specs::Effects::effect_of, crate::specs::Table::turn_row, crate::specs::Events::kind_number, crate::specs::Table::first_of))]
    fn effect(&mut self, e: &Known) -> Result<(), Refusal>
        requires turn { e.now.kind ≡ turning → IsVoting limits self.old e.now.a }
        requires announcement { e.now.kind ≡ announcing → IsConvinced limits self.old e.now }
        ensures answer { result ≡ first_of (turn_rows limits self.old e.now) }
        ensures ok { OnOk result (self.new ≡ effect_of limits self.old e.now) }
        ensures err { OnErr result (self.new ≡ self.old) }
    {
        match e.kind {
            Kind::Propose => self.change(e.a, |board| board.propose(e.value)),
            Kind::Turn => self.turn(e.a)?,
            Kind::Deliver => self.hear(e.a, e.brought()),
            Kind::Announce => self.change(e.a, |board| board.decide(e.announced())),
            Kind::Suspect => self.change(e.a, |board| board.suspect(e.b)),
            Kind::Trust => self.change(e.a, |board| board.trust(e.b)),
            Kind::Sign => {
                self.sign(e.a, Identifier(e.id), e.value);
            }
        }
        Ok(())
    }

    // One event, taken as one of this kind: the rows, and then what it does.
    #[inline(always)]
    #[tactic(auto, using(crate::proofs::RowLaws::rows_passed), unfolding(crate::specs::Effects::step_of, crate::specs::Answers::is_accepted))]
    fn take(&mut self, kind: Kind, e: Event) -> Result<(), Refusal>
        ensures answer { result ≡ (step_of limits self.old (record e { kind = kind_number kind })).answer }
        ensures bench { self.new ≡ (step_of limits self.old (record e { kind = kind_number kind })).bench }
    {
        let known = Known::of(kind, e);
        self.check_rows(&known)?;
        self.effect(&known)
    }

    /// One event, in place: its answer is handed back, and the bench is changed if it is accepted. A refused one leaves the bench
    /// as it is. Whoever keeps a bench in its place goes by this; nothing is copied.
    #[inline(always)]
    #[tactic(auto, using(crate::proofs::TableLaws::told_kinds), unfolding(crate::specs::Effects::step_of, crate::specs::Answers::is_accepted))]
    pub fn step(&mut self, e: Event) -> Result<(), Refusal>
        ensures answer { result ≡ (step_of limits self.old e).answer }
        ensures bench { self.new ≡ (step_of limits self.old e).bench }
    {
        // each by its name, so that no row about other kinds is looked at
        match Kind::try_from(e.kind)? {
            Kind::Propose => self.take(Kind::Propose, e),
            Kind::Turn => self.take(Kind::Turn, e),
            Kind::Deliver => self.take(Kind::Deliver, e),
            Kind::Announce => self.take(Kind::Announce, e),
            Kind::Suspect => self.take(Kind::Suspect, e),
            Kind::Trust => self.take(Kind::Trust, e),
            Kind::Sign => self.take(Kind::Sign, e),
        }
    }

    /// One event, on a bench by value: the bench afterwards, and the answer. It copies the bench; what is played within goes by
    /// `step`.
    #[inline(always)]
    pub fn event(mut self, e: Event) -> Outcome
        ensures { result ≡ step_of limits self e }
    {
        let answer = self.step(e);
        Outcome {
            bench: self,
            answer,
        }
    }

    /// One event, on a bench that is lent: the answer is returned, and the bench left as it is afterwards. It forwards to
    /// `event`, so it copies the bench in and out; `step` does not.
    #[inline(never)]
    pub fn apply(&mut self, e: Event) -> Result<(), Refusal>
        ensures { (result ≡ (step_of limits self.old e).answer) × (self.new ≡ (step_of limits self.old e).bench) }
    {
        let out = (*self).event(e);
        *self = out.bench;
        out.answer
    }
}
