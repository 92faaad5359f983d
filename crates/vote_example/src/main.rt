// Plays boards of a voting bus through stored steps, and writes a line for each: what was asked, for a turn
// its answer and what the board signed, and how the board stands then.
#![tactic(auto)]

use delivery::{BoardSet, Delivered, Phase, Round};
use signer::Identifier;
use std::{fmt, io};
use vote::{Board, Decision, Position, Stage, Statement, Status, number_of};

// A step of a run; a statement has its speaker, phase, round and value.
#[derive(Clone, Copy)]
enum Step {
    Propose(u16),
    Turn,
    Deliver(u8, Phase, u8, u16),
    Suspect(u8),
    Trust(u8),
    Announce(u8, u16),
    Count(u8, u16),
    BlankRounds,
}

// The lists of steps. Each line is another one, so a function that made some of them would be no plainer.
const OWN_TURN: &[Step] = &[
    Step::Turn,
    Step::Propose(700),
    Step::Turn,
    Step::Turn,
    Step::Deliver(1, Phase::Opening, 1, 700),
    Step::Turn,
    Step::Turn,
    Step::Deliver(1, Phase::Ballot, 1, 700),
    Step::Turn,
    Step::Suspect(3),
    Step::Turn,
    Step::Turn,
    Step::Count(1, 700),
    Step::Deliver(3, Phase::Ballot, 1, 700),
    Step::Count(1, 700),
];

const INCIDENT: &[Step] = &[
    Step::Propose(40),
    Step::Turn,
    Step::Suspect(1),
    Step::Turn,
    Step::Deliver(1, Phase::Ballot, 1, 41),
    Step::Suspect(2),
    Step::Turn,
    Step::Deliver(1, Phase::Opening, 1, 41),
    Step::Turn,
    Step::Turn,
    Step::Trust(2),
    Step::Turn,
    Step::Deliver(2, Phase::Opening, 2, 40),
    Step::Turn,
    Step::Announce(1, 41),
    Step::Deliver(2, Phase::Ballot, 1, 41),
    Step::Announce(1, 41),
];

const LAST_ROUND: &[Step] = &[
    Step::Propose(500),
    Step::Suspect(1),
    Step::Suspect(2),
    Step::BlankRounds,
    Step::Turn,
    Step::Announce(3, 500),
    Step::Deliver(2, Phase::Ballot, 3, 500),
    Step::Announce(3, 500),
    Step::Turn,
];

const BLANK_OPENING: &[Step] = &[
    Step::Propose(700),
    Step::Turn,
    Step::Turn,
    Step::Deliver(1, Phase::Opening, 1, 0),
    Step::Turn,
];

const SUSPECTED: &[Step] = &[
    Step::Propose(700),
    Step::Turn,
    Step::Suspect(1),
    Step::Deliver(1, Phase::Opening, 1, 41),
    Step::Turn,
    Step::Deliver(3, Phase::Ballot, 1, 41),
    Step::Turn,
];

const ALONE: &[Step] = &[Step::Propose(700), Step::Turn, Step::Turn, Step::Turn];

const NO_BOARDS: &[Step] = &[
    Step::Propose(700),
    Step::Turn,
    Step::Turn,
    Step::Turn,
    Step::Count(1, 700),
    Step::Announce(1, 41),
];

const MANY_BOARDS: &[Step] = &[
    Step::Propose(700),
    Step::Turn,
    Step::Turn,
    Step::Turn,
    Step::Count(1, 700),
    Step::Announce(1, 700),
];

const NO_ROUND: &[Step] = &[
    Step::Turn,
    Step::Turn,
    Step::Suspect(1),
    Step::Turn,
    Step::Turn,
    Step::Deliver(2, Phase::Ballot, 250, 0),
    Step::Count(250, 0),
    Step::Announce(250, 9),
];

const NEITHER: &[Step] = &[Step::Turn, Step::Turn];

impl fmt::Display for Step {
    fn fmt<W: fmt::Write>(&self, f: &mut fmt::Formatter<W>) -> fmt::Result {
        match *self {
            Step::Propose(value) => write!(f, "propose {value}"),
            Step::Turn => f.write_str("turn:"),
            Step::Deliver(k, phase, round, value) => {
                let says = match phase {
                    Phase::Opening => "opens",
                    Phase::Ballot => "votes in",
                };
                write!(f, "delivery: board {k} {says} round {round} with {value}")
            }
            Step::Suspect(k) => write!(f, "suspect board {k}"),
            Step::Trust(k) => write!(f, "trust board {k}"),
            Step::Announce(round, value) => write!(f, "announcement of round {round} with {value}"),
            Step::Count(round, value) => write!(
                f,
                "accepted ballots of round {round} with {value}"
            ),
            Step::BlankRounds => f.write_str(
                "in every round a blank ballot of board 1 and three turns",
            ),
        }
    }
}

// The letter of a stage in document 01. By `match`: a stage's own number is what a row of words has, so a cast would be no
// plainer.
fn letter(stage: Stage) -> char {
    match stage {
        Stage::Open => 'A',
        Stage::Vote => 'B',
        Stage::Count => 'C',
    }
}

// What a statement's identifier stands for in a round.
fn phase(id: Identifier, round: Round) -> &'static str {
    if !round.in_range() {
        "none"
    } else if id == round.identifier(Phase::Opening) {
        "opening"
    } else {
        "ballot"
    }
}

// A board, its number, and how many boards there are.
#[derive(Clone, Copy)]
struct Seat {
    n: u8,
    me: u8,
    board: Board,
}

// How its board stands.
impl fmt::Display for Seat {
    fn fmt<W: fmt::Write>(&self, f: &mut fmt::Formatter<W>) -> fmt::Result {
        let Position {
            round,
            estimate,
            stage,
            ..
        } = self.board.position;
        let letter = letter(stage);
        match self.board.status {
            Status::Idle => f.write_str("N 0 0"),
            Status::Voting => write!(f, "W {} {estimate} {letter}", round.0),
            Status::Spent => write!(f, "X {} {estimate} {letter}", round.0),
            Status::Decided(d) => write!(f, "D {} {}", d.round.0, d.value),
        }
    }
}

impl Seat {
    // n and the board's own number stay apart, as in the vote.
    fn fresh(n: u8, me: u8) -> Seat {
        Seat {
            n,
            me,
            board: Board::fresh(),
        }
    }

    // With a board that votes in a round that there is not.
    fn astray(n: u8, me: u8, stage: Stage) -> Seat {
        let position = Position {
            round: Round(250),
            estimate: 9,
            stage,
            suspected: 0,
        };
        let board = Board {
            position,
            delivered: Delivered::fresh(),
            status: Status::Voting,
        };
        Seat { n, me, board }
    }

    // A turn; the given text stands for what the board signs, where that is nothing.
    fn turn(&mut self, rt: &HostRuntime, nothing: &str) -> io::Result<()> {
        let round = self.board.position.round;
        let turn = self.board.turn(self.n, self.me);
        self.board = turn.board;
        print!(rt; " {}", number_of(turn.answer))?;
        match turn.signed {
            None => print!(rt; "{nothing}"),
            Some(s) => print!(rt;
                ", signs {} ({}) with {}",
                s.id.0,
                phase(s.id, round),
                s.value
            ),
        }
    }

    // Delivers a statement of a round; its numbers stay apart, as the steps have them, so a struct would be no plainer.
    fn hear(&mut self, speaker: u8, phase: Phase, round: u8, value: u16) {
        let id = Round(round).identifier(phase);
        self.board.deliver(Statement { speaker, id, value });
    }

    // In each round board 1 votes blank: three turns, on a line below that of the round before.
    fn blank_rounds(&mut self, rt: &HostRuntime) -> io::Result<()> {
        for r in 1..=Round::LAST {
            println!(rt; "; {self}")?;
            print!(rt; "   round {r}:")?;
            self.hear(1, Phase::Ballot, r, 0);
            self.turn(rt, "")?;
            print!(rt; " /")?;
            self.turn(rt, "")?;
            print!(rt; " /")?;
            self.turn(rt, "")?;
        }
        Ok(())
    }

    fn take(&mut self, rt: &HostRuntime, step: Step) -> io::Result<()> {
        match step {
            Step::Propose(value) => self.board.propose(value),
            Step::Turn => self.turn(rt, ", signs nothing")?,
            Step::Deliver(k, phase, round, value) => self.hear(k, phase, round, value),
            Step::Suspect(k) => self.board.suspect(k),
            Step::Trust(k) => self.board.trust(k),
            Step::Announce(round, value) => {
                let round = Round(round);
                self.board.announce(self.n, Decision { round, value });
            }
            Step::Count(round, value) => {
                print!(rt; ": {}", self.board.tally(self.n, Round(round), value))?;
            }
            Step::BlankRounds => self.blank_rounds(rt)?,
        }
        Ok(())
    }
}

// One run: its name, and a line for each step.
fn play(rt: &HostRuntime, name: &str, mut seat: Seat, steps: &[Step]) -> io::Result<()> {
    println!(rt; "{name}; {seat}")?;
    for (i, step) in steps.iter().enumerate() {
        print!(rt; " {} {step}", i + 1)?;
        seat.take(rt, *step)?;
        println!(rt; "; {seat}")?;
    }
    Ok(())
}

fn main(rt: HostRuntime) -> io::Result<()> {
    println!(rt;
        "N not started; W voting, X spent: round, estimate, stage; D decided: round, value"
    )?;
    play(
        &rt,
        "board 2 of 3 decides by its own turn",
        Seat::fresh(3, 2),
        OWN_TURN,
    )?;
    play(
        &rt,
        "the incident, at board 3 of 3",
        Seat::fresh(3, 3),
        INCIDENT,
    )?;
    play(
        &rt,
        "board 3 of 3, spent in the last round",
        Seat::fresh(3, 3),
        LAST_ROUND,
    )?;
    play(
        &rt,
        "board 2 of 3: an opening with the blank counts as delivered",
        Seat::fresh(3, 2),
        BLANK_OPENING,
    )?;
    play(
        &rt,
        "board 2 of 3: an accepted opening gets its value though its coordinator is suspected",
        Seat::fresh(3, 2),
        SUSPECTED,
    )?;
    play(&rt, "n = 1", Seat::fresh(1, 1), ALONE)?;
    play(
        &rt,
        "numbers that no bus has: n = 0",
        Seat::fresh(0, 1),
        NO_BOARDS,
    )?;
    play(
        &rt,
        "numbers that no bus has: n = 200",
        Seat::fresh(200, 1),
        MANY_BOARDS,
    )?;
    play(
        &rt,
        "numbers that no bus has: round 250, n = 3",
        Seat::astray(3, 1, Stage::Open),
        NO_ROUND,
    )?;
    play(
        &rt,
        "numbers that no bus has: round 250, n = 0",
        Seat::astray(0, 1, Stage::Count),
        NEITHER,
    )
}
