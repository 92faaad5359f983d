ghost use Rattle.std.specs.Prelude.{◌≡◌, ◌++◌, Ok, Err, if◌then◌else◌};
ghost use Rattle.delivery.specs.Limits.{limits};
ghost use Rattle.bench.specs.Table.{boards_row, wrong_other, wrong_id, wrong_value, fields_row, mark_row, pair_row, start_row, end_row, signed_row, last_row, delivered_row, announcer_row, ballots_row, first_of, event_rows, state_rows};

use crate::answer::Refusal;
use crate::bench::Bench;
use crate::event::{Kind, Known};
use delivery::{Round, bus};
use signer::{Identifier, Log, from_one};

// A row of document 01's table: the event is refused so where it applies.
#[inline(always)]
fn refuse_if(applies: bool, refusal: Refusal) -> Result<(), Refusal>
    ensures { result ≡ (if applies then Err refusal else Ok tt) }
{
    if applies { Err(refusal) } else { Ok(()) }
}

// What the table asks of the event alone.
impl Known {
    // Row 12: b is not used, and not 0.
    #[inline(always)]
    #[tactic(auto, unfolding(crate::specs::Table::wrong_other))]
    fn wrong_other(&self) -> bool
        ensures { result ≡ wrong_other self.now }
    {
        !self.kind.uses_other() && self.b != 0
    }

    // Row 12: the identifier or round is none, or it is not used, and not 0.
    #[inline(always)]
    #[tactic(auto, unfolding(crate::specs::Table::wrong_id, crate::specs::Events::uses_id, crate::specs::Events::kind_number))]
    fn wrong_id(&self) -> bool
        ensures { result ≡ wrong_id limits self.now }
    {
        match self.kind {
            Kind::Announce => !Round(self.id).in_range(),
            Kind::Deliver | Kind::Sign => !Identifier(self.id).in_range(),
            _ => self.id != 0,
        }
    }

    // Row 12: the value is the blank, and no blank may stand there, or it is not used, and not 0.
    #[inline(always)]
    #[tactic(auto, unfolding(crate::specs::Table::wrong_value, crate::specs::Events::uses_value, crate::specs::Events::uses_id, crate::specs::Events::kind_number))]
    fn wrong_value(&self) -> bool
        ensures { result ≡ wrong_value self.now }
    {
        match self.kind {
            Kind::Propose | Kind::Announce => self.value == Log::BLANK,
            Kind::Deliver | Kind::Sign => false,
            _ => self.value != 0,
        }
    }

    // Row 12: a field other than the boards is wrong.
    #[inline(always)]
    #[tactic(auto, unfolding(crate::specs::Table::fields_row))]
    fn fields_row(&self) -> bool
        ensures { result ≡ fields_row limits self.now }
    {
        self.wrong_other() || self.wrong_id() || self.wrong_value()
    }

    // Row 14: an announcement, suspicion or trust of a board about itself.
    #[inline(always)]
    #[tactic(auto, unfolding(crate::specs::Table::pair_row, crate::specs::Events::kind_number))]
    fn pair_row(&self) -> bool
        ensures { result ≡ pair_row self.now }
    {
        matches!(self.kind, Kind::Announce | Kind::Suspect | Kind::Trust) && self.a == self.b
    }
}

// What it asks of the bench.
impl Bench {
    // Row 11: a, or b where it is used, is no board of the bench.
    #[inline(always)]
    #[tactic(auto, unfolding(crate::specs::Table::boards_row))]
    fn boards_row(&self, e: &Known) -> bool
        ensures { result ≡ boards_row self.now e.now }
    {
        !from_one::within(e.a, self.n) || e.kind.uses_other() && !from_one::within(e.b, self.n)
    }

    // Row 13: a sound board's signer is asked, or another event is for a faulty board.
    #[inline(always)]
    #[tactic(auto, unfolding(crate::specs::Table::mark_row, crate::specs::Events::kind_number))]
    fn mark_row(&self, e: &Known) -> bool
        ensures { result ≡ mark_row self.now e.now }
    {
        match e.kind {
            Kind::Sign => self.is_sound(e.a),
            _ => !self.is_sound(e.a),
        }
    }

    // Row 15: a proposal to a board that has started, a turn of or an announcement to one that has not. Here and in row 16
    // there is an arm for each kind, so `matches!` would be no plainer.
    #[inline(always)]
    #[tactic(auto, unfolding(crate::specs::Table::start_row, crate::specs::Events::kind_number))]
    fn start_row(&self, e: &Known) -> bool
        ensures { result ≡ start_row limits self.now e.now }
    {
        match e.kind {
            Kind::Propose => self.ask(e.a, |board| board.is_started()),
            Kind::Turn | Kind::Announce => !self.ask(e.a, |board| board.is_started()),
            _ => false,
        }
    }

    // Row 16: a turn of a board that is decided or spent, an announcement to one that is decided.
    #[inline(always)]
    #[tactic(auto, unfolding(crate::specs::Table::end_row, crate::specs::Events::kind_number))]
    fn end_row(&self, e: &Known) -> bool
        ensures { result ≡ end_row limits self.now e.now }
    {
        match e.kind {
            Kind::Turn => self.ask(e.a, |board| board.is_ended()),
            Kind::Announce => self.ask(e.a, |board| board.is_decided()),
            _ => false,
        }
    }

    // Row 17: b has not signed what is to be delivered. Rows 17 to 21 are about one kind each, which is a premise beside the
    // others, so a `match` would be no plainer.
    #[inline(always)]
    #[tactic(auto, unfolding(crate::specs::Table::signed_row, crate::specs::Events::kind_number))]
    fn signed_row(&self, e: &Known) -> bool
        ensures { result ≡ signed_row limits self.now e.now }
    {
        e.kind == Kind::Deliver && self.signed(e.b, Identifier(e.id)) != Log::entry_of(e.value)
    }

    // Row 18, named for the signer's `last`: a's signer has signed under this identifier or a higher one.
    #[inline(always)]
    #[tactic(auto, unfolding(crate::specs::Table::last_row, crate::specs::Events::kind_number))]
    fn last_row(&self, e: &Known) -> bool
        ensures { result ≡ last_row limits self.now e.now }
    {
        e.kind == Kind::Sign && Identifier(e.id) <= self.last(e.a)
    }

    // Row 19: a has delivered b's statement under this identifier.
    #[inline(always)]
    #[tactic(auto, unfolding(crate::specs::Table::delivered_row, crate::specs::Events::kind_number))]
    fn delivered_row(&self, e: &Known) -> bool
        ensures { result ≡ delivered_row limits self.now e.now }
    {
        e.kind == Kind::Deliver && self.delivered(e.a, e.b, Identifier(e.id)) != 0
    }

    // Row 20: the announcer is sound, and has not decided so.
    #[inline(always)]
    #[tactic(auto, unfolding(crate::specs::Table::announcer_row, crate::specs::Events::kind_number))]
    fn announcer_row(&self, e: &Known) -> bool
        ensures { result ≡ announcer_row limits self.now e.now }
    {
        e.kind == Kind::Announce
            && self.is_sound(e.b)
            && !self.ask(e.b, |board| board.has_decided(e.announced()))
    }

    // Row 21: a accepts too few ballots for what is announced.
    #[inline(always)]
    #[tactic(auto, unfolding(crate::specs::Table::ballots_row, crate::specs::Events::kind_number))]
    fn ballots_row(&self, e: &Known) -> bool
        ensures { result ≡ ballots_row limits self.now e.now }
    {
        e.kind == Kind::Announce
            && self.ask(e.a, |board| board.tally(self.n, Round(e.id), e.value))
                < bus::quorum(self.n)
    }

    // Rows 11 to 21, the first that applies. Row 10, that the kind is none, is told by `Kind::try_from`; row 22, which is about
    // what comes of a turn, by `turn`.
    #[inline(always)]
    #[tactic(auto, unfolding(crate::specs::Table::first_of))]
    pub(crate) fn check_rows(&self, e: &Known) -> Result<(), Refusal>
        ensures { result ≡ first_of (event_rows limits self.now e.now ++ state_rows limits self.now e.now) }
    {
        refuse_if(self.boards_row(e), Refusal::NoBoard)?;
        refuse_if(e.fields_row(), Refusal::WrongField)?;
        refuse_if(self.mark_row(e), Refusal::WrongMark)?;
        refuse_if(e.pair_row(), Refusal::SameBoard)?;
        refuse_if(self.start_row(e), Refusal::WrongStart)?;
        refuse_if(self.end_row(e), Refusal::AtEnd)?;
        refuse_if(self.signed_row(e), Refusal::NotSigned)?;
        refuse_if(self.last_row(e), Refusal::NotAbove)?;
        refuse_if(self.delivered_row(e), Refusal::AlreadyDelivered)?;
        refuse_if(self.announcer_row(e), Refusal::NotDecided)?;
        refuse_if(self.ballots_row(e), Refusal::FewBallots)
    }
}
