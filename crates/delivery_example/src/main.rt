// Runs acceptance and the record of owed copies on examples, and writes what came of each. First the
// letters e to k of document 01; then the incident that all this is for; then the last round of the
// largest bus; then arguments that no bus has; then owed copies.
#![tactic(auto)]

use delivery::{BoardSet, Delivered, Owed, Phase, Round};
use signer::Log;
use std::io;

// The answer to a question, as it is written.
fn word(yes: bool) -> &'static str {
    if yes { "yes" } else { "no" }
}

// How many boards a set holds, and which of the first four.
fn write_set(rt: &HostRuntime, boards: BoardSet) -> io::Result<()> {
    let count = boards.count(Delivered::BOARDS);
    print!(rt; " {count}")?;
    if boards == BoardSet::empty() {
        return println!(rt);
    }
    print!(rt; " (boards")?;
    for k in 1..=4u8 {
        if boards.contains(k) {
            print!(rt; " {k}")?;
        }
    }
    println!(rt; ")")
}

// How many boards there are, what one of them has delivered, and where its answers are written.
#[derive(Clone, Copy)]
struct Case<'a> {
    rt: &'a HostRuntime,
    n: u8,
    delivered: Delivered,
}

impl<'a> Case<'a> {
    fn new(rt: &'a HostRuntime, n: u8) -> Case<'a> {
        Case {
            rt,
            n,
            delivered: Delivered::fresh(),
        }
    }

    // Takes in a statement of a round that a board sent. Its numbers stay apart, here and below: each case reads as what it
    // tells, and a struct for each statement would be no plainer.
    fn deliver(&mut self, speaker: u8, round: u8, phase: Phase, value: u16) {
        let id = Round(round).identifier(phase);
        self.delivered.deliver(speaker, id, value);
    }

    fn opening(&mut self, speaker: u8, round: u8, value: u16) {
        self.deliver(speaker, round, Phase::Opening, value);
    }

    fn ballot(&mut self, speaker: u8, round: u8, value: u16) {
        self.deliver(speaker, round, Phase::Ballot, value);
    }

    // Rounds of blank ballots by four of the boards, from the given one to the one before the last.
    fn blank_rounds(&mut self, from: u8) {
        for round in from..Round::LAST {
            for speaker in 1..=4u8 {
                self.ballot(speaker, round, Log::BLANK);
            }
        }
    }

    fn ask_allowed(&self, round: u8, value: u16) -> io::Result<()> {
        let n = self.n;
        let answer = word(self.delivered.poll(n, Round(round)).allowed(value));
        println!(self.rt; "  in round {round} of {n} boards, {value} is allowed: {answer}")
    }

    fn ask_opening(&self, round: u8, value: u16) -> io::Result<()> {
        let poll = self.delivered.poll(self.n, Round(round));
        let answer = word(poll.accepts_opening(value));
        println!(self.rt; "  the opening of round {round} with {value} is accepted: {answer}")
    }

    fn ask_ballot(&self, speaker: u8, round: u8, value: u16) -> io::Result<()> {
        let poll = self.delivered.poll(self.n, Round(round));
        let answer = word(poll.accepts_ballot(speaker, value));
        println!(self.rt;
            "  the ballot of round {round} by board {speaker} with {value} is accepted: {answer}"
        )
    }

    // Who has an accepted ballot of a round, and who has one with a value.
    fn write_ballots(&self, round: u8, value: u16) -> io::Result<()> {
        let tally = self.delivered.poll(self.n, Round(round)).tally();
        print!(self.rt; "  accepted ballots:")?;
        write_set(self.rt, tally.ballots())?;
        print!(self.rt; "  of these with {value}:")?;
        write_set(self.rt, tally.ballots_for(value))
    }

    // The accepted ballots of round 1, and what is allowed in round 2, at some values.
    fn letter(&self, name: &str) -> io::Result<()> {
        println!(self.rt; "{name}")?;
        self.write_ballots(1, 9)?;
        self.ask_allowed(2, 0)?;
        self.ask_allowed(2, 1)?;
        self.ask_allowed(2, 9)?;
        self.ask_allowed(2, Log::VALUES)
    }
}

// A letter whose round 1 board 1 opened with 9, with ballots of boards 1, 2 and so on.
fn voted(rt: &HostRuntime, name: &str, n: u8, ballots: &[u16]) -> io::Result<()> {
    let mut case = Case::new(rt, n);
    case.opening(1, 1, 9);
    for (speaker, &value) in (1..=n).zip(ballots) {
        case.ballot(speaker, 1, value);
    }
    case.letter(name)
}

fn letters(rt: &HostRuntime) -> io::Result<()> {
    voted(rt, "e: three boards, ballots 9 0", 3, &[9, 0])?;
    voted(rt, "f: three boards, ballots 0 0", 3, &[0, 0])?;
    voted(rt, "g: three boards, ballots 9 0 0", 3, &[9, 0, 0])?;
    voted(rt, "h: three boards, ballot 9", 3, &[9])?;
    voted(rt, "i: four boards, ballots 9 0 0", 4, &[9, 0, 0])?;
    voted(rt, "j: four boards, ballots 9 9 0", 4, &[9, 9, 0])?;
    let mut unopened = Case::new(rt, 4);
    unopened.ballot(2, 1, 9);
    unopened.letter("k: four boards, ballot 9 of board 2, no opening")?;
    unopened.ask_ballot(2, 1, 9)
}

// Boards 1 and 3 have voted for set 41; board 2 opens round 2 with set 40.
fn incident(rt: &HostRuntime) -> io::Result<()> {
    println!(rt; "the incident: three boards, 41 in round 1, 40 opened in round 2")?;
    let mut voted = Case::new(rt, 3);
    voted.opening(1, 1, 41);
    voted.ballot(1, 1, 41);
    voted.ballot(3, 1, 41);
    voted.write_ballots(1, 41)?;
    let mut wrong = voted;
    wrong.opening(2, 2, 40);
    wrong.ask_opening(2, 40)?;
    let mut right = voted;
    right.opening(2, 2, 41);
    right.ask_opening(2, 41)?;
    let mut followed = wrong;
    followed.ballot(3, 2, 40);
    followed.ask_ballot(3, 2, 40)?;
    wrong.ballot(3, 2, 0);
    wrong.ask_ballot(3, 2, 0)?;
    println!(rt; "an opening of round 2 by board 1, which is not its coordinator")?;
    voted.opening(1, 2, 41);
    voted.ask_opening(2, 41)?;
    println!(rt; "a statement delivered again, with another value")?;
    voted.opening(1, 1, 42);
    voted.ask_opening(1, 41)?;
    voted.ask_opening(1, 42)
}

fn last_round(rt: &HostRuntime) -> io::Result<()> {
    println!(rt; "the largest bus: 9 in round 1, then blank ballots, to the last round")?;
    let mut case = Case::new(rt, Delivered::BOARDS);
    case.opening(1, 1, 9);
    case.ballot(1, 1, 9);
    case.ballot(2, 1, 9);
    case.ballot(3, 1, 0);
    case.ballot(4, 1, 0);
    case.blank_rounds(2);
    case.ask_allowed(Round::LAST, 9)?;
    case.ask_allowed(Round::LAST, 8)?;
    let coordinator = Round(Round::LAST).coordinator(case.n);
    let mut other = case;
    case.opening(coordinator, Round::LAST, 9);
    case.ask_opening(Round::LAST, 9)?;
    other.opening(coordinator, Round::LAST, 8);
    other.ask_opening(Round::LAST, 8)?;
    println!(rt; "the same with blank ballots from round 1 on")?;
    let mut blank = Case::new(rt, Delivered::BOARDS);
    blank.blank_rounds(1);
    blank.ask_allowed(Round::LAST, 8)
}

// Numbers of boards, rounds and speakers that there are not.
fn outside(rt: &HostRuntime) -> io::Result<()> {
    println!(rt; "numbers that are none")?;
    let mut case = Case::new(rt, 0);
    case.opening(1, 1, 9);
    case.ask_allowed(2, 9)?;
    case.n = 200;
    case.ask_allowed(2, 9)?;
    case.n = 3;
    case.ask_allowed(0, 9)?;
    case.ask_allowed(255, 9)?;
    case.opening(1, 255, 9);
    case.ask_opening(255, 9)?;
    case.n = 200;
    case.ballot(Delivered::BOARDS + 1, 1, 9);
    case.ask_ballot(Delivered::BOARDS + 1, 1, 9)
}

// Boards 1 to 4, of which 4 is faulty: 1 signs, 2 delivers, 3 delivers.
fn owed(rt: &HostRuntime) -> io::Result<()> {
    println!(rt; "owed copies of a statement of board 1: boards 1, 2 and 3 are sound")?;
    let id = Round(1).identifier(Phase::Opening);
    let sound = BoardSet::from(0b111u16);
    let mut have = BoardSet::empty();
    let mut owed = Owed::none();
    have.insert(1);
    owed.record_signing(1, id, sound, have);
    print!(rt; "  board 1 signs, owed:")?;
    write_set(rt, owed.receivers(1, id))?;
    have.insert(2);
    owed.record_delivery(2, 1, id, sound, have);
    print!(rt; "  board 2 delivers, owed:")?;
    write_set(rt, owed.receivers(1, id))?;
    have.insert(3);
    owed.record_delivery(3, 1, id, sound, have);
    print!(rt; "  board 3 delivers, owed:")?;
    write_set(rt, owed.receivers(1, id))?;
    println!(rt; "and of faulty board 4, which reached board 2 alone")?;
    let mut two = BoardSet::empty();
    two.insert(2);
    let mut echoed = Owed::none();
    echoed.record_delivery(2, 4, id, sound, two);
    print!(rt; "  board 2 delivers, owed:")?;
    write_set(rt, echoed.receivers(4, id))
}

fn main(rt: HostRuntime) -> io::Result<()> {
    letters(&rt)?;
    incident(&rt)?;
    last_round(&rt)?;
    outside(&rt)?;
    owed(&rt)
}
