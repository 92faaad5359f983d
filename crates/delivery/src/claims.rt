ghost use Rattle.std.specs.Prelude.{◌≡◌, ◌*◌};
ghost use Rattle.delivery.specs.Limits.{limits};
ghost use Rattle.delivery.specs.Sets.{bits};
ghost use Rattle.delivery.specs.Claims.{SizesFit, TakesTurns, QuorumsShare, OneShared, Openings, Ballots, SomeBallots, FirstRound, LaterRounds, MoreSpeakers, OneOpening, OneWon, OnlyLater, AcceptanceGrows};
ghost use Rattle.delivery.specs.Claims.{NothingDelivered, DeliveryKeeps, DeliveryAdds, DeliveryOnly, NothingOwed, SigningOwes, DeliveryOwes, OthersOwed, SetsStay};
ghost use Rattle.delivery.specs.Examples.{LetterA, LetterB, LetterC, LetterE, LetterF, LetterG, LetterH, LetterI, LetterJ, LetterK, OtherSizes, Coordinators, Identifiers, NextRounds, Masks, Places, Copies};

use crate::delivered::Delivered;
use crate::round::Round;
use crate::set::BoardSet;
use signer::Identifier;

/// What holds of every store, whatever is in it, of every number of boards and every round: sizes, coordinators and acceptance
/// are what their sentences say, acceptance grows with what is delivered, and what q or more accepted ballots bear is one
/// value. There is nothing to do: these are claims about the words of the contracts.
pub fn every_store()
    ensures sizes { SizesFit }
    ensures turns { TakesTurns }
    ensures quorums { QuorumsShare }
    ensures shared { OneShared }
    ensures openings { Openings }
    ensures ballots { Ballots }
    ensures some_ballots { SomeBallots }
    ensures first_round { FirstRound }
    ensures later_rounds { LaterRounds }
    ensures more_speakers { MoreSpeakers }
    ensures one_opening { OneOpening }
    ensures one_won { OneWon }
    ensures only_later { OnlyLater }
    ensures grows { AcceptanceGrows }
{}

/// What holds of every delivery, and of the copies that are owed: a delivery adds its statement and keeps all others, and after
/// a signature or a delivery a copy is owed exactly to whom it should be.
pub fn every_copy()
    ensures nothing_delivered { NothingDelivered }
    ensures keeps { DeliveryKeeps }
    ensures adds { DeliveryAdds }
    ensures only { DeliveryOnly }
    ensures nothing_owed { NothingOwed }
    ensures signing { SigningOwes }
    ensures delivery { DeliveryOwes }
    ensures others { OthersOwed }
    ensures sets { SetsStay }
{}

/// The limits in the code are those of the definitions; each round has two identifiers, and there are no others.
pub fn every_limit()
    ensures boards { Delivered.BOARDS ≡ limits.boards }
    ensures rounds { Round.LAST ≡ limits.rounds }
    ensures identifiers { Identifier.LAST ≡ limits.identifiers }
    ensures two_a_round { limits.identifiers ≡ 2 * limits.rounds }
    ensures places { Delivered.PLACES ≡ limits.boards * limits.identifiers }
    ensures width { BoardSet.BITS ≡ bits }
{}

/// The worked examples, computed: letters a to c and e to k, and beside them the sizes of other buses, coordinators,
/// identifiers and the rounds after rounds, sets, the places of statements, and owed copies.
pub fn worked_examples()
    ensures letter_a { LetterA }
    ensures letter_b { LetterB }
    ensures letter_c { LetterC }
    ensures letter_e { LetterE }
    ensures letter_f { LetterF }
    ensures letter_g { LetterG }
    ensures letter_h { LetterH }
    ensures letter_i { LetterI }
    ensures letter_j { LetterJ }
    ensures letter_k { LetterK }
    ensures other_sizes { OtherSizes }
    ensures coordinators { Coordinators }
    ensures identifiers { Identifiers }
    ensures next_rounds { NextRounds }
    ensures masks { Masks }
    ensures places { Places }
    ensures copies { Copies }
{}
