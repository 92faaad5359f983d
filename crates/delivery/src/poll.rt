ghost use Rattle.std.specs.Prelude.{ℕ, ◌≡◌};
ghost use Rattle.delivery.specs.Counting.{count_in};
ghost use Rattle.delivery.specs.Limits.{limits};
ghost use Rattle.delivery.specs.Sets.{set_of, union};
ghost use Rattle.delivery.specs.Delivered.{heard};
ghost use Rattle.delivery.specs.Acceptance.{says, opening_entry, bears, backs, allowed, accepts_opening, accepts_ballot, accepts_some, opened_entry, tally_of, bearers};
ghost use Rattle.delivery.specs.Private.{lets};

use crate::allowance::Allowance;
use crate::delivered::Delivered;
use crate::round::{Phase, Round};
use crate::set::BoardSet;
use signer::Log;
use std::marker::Model;

/// What one board accepts of a round, by what it had heard when this was made: the entry of the opening, 0 where none is
/// accepted; the boards with an accepted blank ballot; and those with an accepted ballot for what the opening bears. One made
/// by hand says what its fields say.
#[derive(Clone, Copy, Debug, PartialEq, Eq)]
pub struct Tally {
    pub opening: u32,
    pub blank: BoardSet,
    pub backing: BoardSet,
}

impl Tally {
    /// The boards with an accepted ballot, whatever it bears.
    pub fn ballots(&self) -> BoardSet
        ensures { result ≡ union self.now.blank self.now.backing }
    {
        self.blank.union(self.backing)
    }

    /// The boards whose accepted ballots bear a value, 0 for the blank; none for a value that is not the opening's.
    #[tactic(auto, unfolding(crate::specs::Acceptance::bearers))]
    pub fn ballots_for(&self, value: u16) -> BoardSet
        ensures { result ≡ bearers self.now value }
    {
        if value == Log::BLANK {
            return self.blank;
        }
        if self.opening == Log::entry_of(value) {
            return self.backing;
        }
        BoardSet::empty()
    }
}

// What one scan of a round's ballots finds: the boards, and how many they are, which is all that the pass over the earlier
// rounds asks for. They are counted on the way: it takes longer to count the bits of a set.
#[derive(Clone, Copy)]
struct Scan {
    tally: Tally,
    blank_count: u8,
    backing_count: u8,
}

// A round among n boards, as one board has heard it.
#[derive(Drop)]
pub struct Poll<'a> {
    delivered: &'a Delivered,
    n: u8,
    round: Round,
}

impl<'a> Model for Poll<'a> {
    ghost use Rattle.delivery.specs.Acceptance.{Heard};

    ghost Value = { Heard };

    ghost view = { λ p. record { delivered = p.delivered.now; n = p.n; round = p.round.0 } };
}

impl Delivered {
    // A round among n boards, as this board has heard it.
    pub fn poll(&self, n: u8, round: Round) -> Poll<'_>
        ensures { result ≡ record { delivered = self.now; n = n; round = round.0 } }
    {
        Poll {
            delivered: self,
            n,
            round,
        }
    }
}

// Entries stay numbers here, as in `Log`. Each contract names the parts of a `Heard` that its definition takes, which are
// not the same in two of three, so one word for them would be no plainer.
impl<'a> Poll<'a> {
    // One look at each ballot of the round: which are blank, and which have this entry; no ballot has entry 0. The bench
    // collects sets by such loops too: one public call for all would take the test as a closure, and so ask something of
    // its callers, which a rule of the project forbids.
    #[inline(always)]
    #[tactic(auto, using(crate::proofs::PollLaws::scanning), unfolding(crate::specs::Sets::set_of, crate::specs::Counting::count_in))]
    fn scan(&self, opening: u32) -> Scan
        ensures tally { result.tally ≡ record { opening = opening; blank = set_of self.now.n (bears limits (heard limits self.now.delivered) self.now.round 0); backing = set_of self.now.n (backs limits (heard limits self.now.delivered) self.now.round opening) } }
        ensures blank { result.blank_count ≡ count_in self.now.n (bears limits (heard limits self.now.delivered) self.now.round 0) }
        ensures backing { result.backing_count ≡ count_in self.now.n (backs limits (heard limits self.now.delivered) self.now.round opening) }
    {
        let id = self.round.identifier(Phase::Ballot);
        let mut blank = BoardSet::empty();
        let mut backing = BoardSet::empty();
        let mut blank_count = 0;
        let mut backing_count = 0;
        // no number above the boards that there can be has said anything
        for k in 0..self.n.min(Delivered::BOARDS) {
            let entry = self.delivered.entry(k + 1, id);
            if entry == Log::entry_of(Log::BLANK) {
                blank.insert(k + 1);
                blank_count += 1;
            }
            if entry == opening && opening != 0 {
                backing.insert(k + 1);
                backing_count += 1;
            }
        }
        Scan {
            tally: Tally {
                opening,
                blank,
                backing,
            },
            blank_count,
            backing_count,
        }
    }

    // How many boards of 1 to n have a ballot of the round with this entry, accepted or not.
    pub fn count_bearing(&self, entry: u32) -> u8
        ensures { result ≡ count_in self.now.n (backs limits (heard limits self.now.delivered) self.now.round entry) }
    {
        self.scan(entry).backing_count
    }

    // The entry of the opening that the round's coordinator sent.
    pub fn opening(&self) -> u32
        ensures { result ≡ opening_entry limits self.now.n (heard limits self.now.delivered) self.now.round }
    {
        let coordinator = self.round.coordinator(self.n);
        self.delivered
            .entry(coordinator, self.round.identifier(Phase::Opening))
    }

    // What is allowed in the round: one pass over the rounds before it. It stays by itself, since whoever asks for it would
    // else make room for its loop where there is nothing to ask.
    #[inline(never)]
    #[tactic(auto, using(crate::proofs::AllowanceLaws::allowance))]
    fn allowance(&self) -> Allowance
        ensures { lets result ≡ allowed limits self.now.n (heard limits self.now.delivered) self.now.round }
    {
        // compared as a number, since `Round(0)` is no plainer
        if self.round.0 == 0 {
            return Allowance::Nothing;
        }
        // of no boards q is 0: no ballot is asked for
        if self.n == 0 {
            return Allowance::Every;
        }
        // in no round after the last is a ballot heard, so nothing is allowed from the second after it on
        if self.round.0 > Round::LAST + 1 {
            return Allowance::Nothing;
        }
        let mut allowance = Allowance::Every;
        for r in 1..self.round.0 {
            let earlier = self.delivered.poll(self.n, Round(r));
            let opening = allowance.opened(earlier.opening());
            let scan = earlier.scan(opening);
            allowance = allowance.settled(self.n, opening, scan.blank_count, scan.backing_count);
        }
        allowance
    }

    // Whether a value is allowed in the round.
    #[tactic(auto, using(crate::proofs::AllRoundsLaws::allowed_blank), unfolding(crate::specs::Acceptance::says))]
    pub fn allowed(&self, value: u16) -> bool
        ensures { result ≡ allowed limits self.now.n (heard limits self.now.delivered) self.now.round value }
    {
        // then there is no need of the pass
        if value == Log::BLANK {
            return false;
        }
        self.allowance().allows(Log::entry_of(value))
    }

    /// The entry of the round's opening where that is accepted; 0, which is none, where it is not. By one pass over the rounds
    /// before; no ballot of this round is looked at.
    #[inline(always)]
    #[tactic(auto, using(crate::proofs::AllRoundsLaws::openings))]
    pub fn opened(&self) -> u32
        ensures { result ≡ opened_entry limits self.now.n (heard limits self.now.delivered) self.now.round }
    {
        let opening = self.opening();
        // then there is no need of the pass
        if opening <= Log::entry_of(Log::BLANK) {
            return 0;
        }
        self.allowance().opened(opening)
    }

    /// What is accepted of the round: its opening, and the ballots. By one pass over the rounds before, and one look at each
    /// ballot: whoever asks more than one thing of a round asks for this once, since the calls below each make the pass again.
    #[inline(always)]
    #[tactic(auto, using(crate::proofs::PollLaws::tallied))]
    pub fn tally(&self) -> Tally
        ensures { result ≡ tally_of limits self.now.n (heard limits self.now.delivered) self.now.round }
    {
        self.scan(self.opened()).tally
    }

    // Whether the opening of the round with a value is accepted. For a value that the coordinator did not send there is no need
    // of the pass.
    #[tactic(auto, using(crate::proofs::AllRoundsLaws::allowed_blank), unfolding(crate::specs::Acceptance::accepts_opening, crate::specs::Acceptance::opens))]
    pub fn accepts_opening(&self, value: u16) -> bool
        ensures { result ≡ accepts_opening limits self.now.n (heard limits self.now.delivered) self.now.round value }
    {
        self.opening() == Log::entry_of(value) && self.allowed(value)
    }

    // Whether a speaker's ballot of the round with a value is accepted.
    #[tactic(auto, unfolding(crate::specs::Acceptance::accepts_ballot, crate::specs::Acceptance::accepts_opening, crate::specs::Acceptance::counts, crate::specs::Acceptance::bears))]
    pub fn accepts_ballot(&self, speaker: u8, value: u16) -> bool
        ensures { result ≡ accepts_ballot limits self.now.n (heard limits self.now.delivered) self.now.round speaker value }
    {
        let entry = self
            .delivered
            .entry(speaker, self.round.identifier(Phase::Ballot));
        entry == Log::entry_of(value) && (value == Log::BLANK || self.accepts_opening(value))
    }

    // The boards of 1 to n whose accepted ballots of the round bear a value: by no pass for the blank, or for a value that the
    // coordinator did not send.
    #[tactic(auto, using(crate::proofs::PollLaws::backers))]
    pub fn ballots_for(&self, value: u16) -> BoardSet
        ensures { result ≡ set_of self.now.n (λ (s : ℕ). accepts_ballot limits self.now.n (heard limits self.now.delivered) self.now.round s value) }
    {
        let mut opening = self.opening();
        if opening == Log::entry_of(value) && !self.accepts_opening(value) {
            opening = 0;
        }
        self.scan(opening).tally.ballots_for(value)
    }

    // The boards of 1 to n with an accepted ballot of the round, whatever it bears.
    #[tactic(auto, using(crate::proofs::PollLaws::joined))]
    pub fn ballots(&self) -> BoardSet
        ensures { result ≡ set_of self.now.n (accepts_some limits self.now.n (heard limits self.now.delivered) self.now.round) }
    {
        self.tally().ballots()
    }
}
