// Plays stored schedules of events into fresh benches, and writes what came of each: the answer to the call
// for the fresh bench; for each event its number and its answer; for each board its number, letter, round and
// value; and how many copies are owed in the end.
#![tactic(auto)]

ghost use Rattle.std.specs.Prelude.{◌≡◌, ◌∷◌, replicate};
ghost use Rattle.delivery.specs.Limits.{limits};
ghost use Rattle.bench.specs.Setups.{fresh_bench};
ghost use Rattle.bench.specs.Effects.{step_of};
ghost use Rattle.bench.specs.Runs.{after};

use bench::{Bench, Event, Kind, Refusal, Unplayed};
use signer::Identifier;
use std::io;
use vote::number_of;

type Marks = [u8; Bench::BOARDS as usize];

// The marks of the boards: which of them are faulty.
const NONE: Marks = [0, 0, 0, 0, 0, 0, 0];

const SECOND: Marks = [0, 1, 0, 0, 0, 0, 0];

const THIRD: Marks = [0, 0, 1, 0, 0, 0, 0];

const SECOND_AND_THIRD: Marks = [0, 1, 1, 0, 0, 0, 0];

// And with marks that there are not: at the second board, and after the first.
const NO_MARK: Marks = [0, 2, 0, 0, 0, 0, 0];

const UNREAD: Marks = [0, 9, 9, 9, 9, 9, 9];

// A step of a schedule: an event, and first the board that it is of.
#[derive(Clone, Copy)]
enum Step {
    // with a value
    Propose(u8, u16),
    Turn(u8),
    // it hears a speaker, under an identifier, with a value
    Deliver(u8, u8, u8, u16),
    // it is told that a board decided, in a round, a value
    Announce(u8, u8, u8, u16),
    // another board
    Suspect(u8, u8),
    // under an identifier, with a value
    Sign(u8, u8, u16),
    // an event of a kind that there is not
    NoKind(u8),
}

// The schedules. The opening of round 1 has identifier 1, its ballots have 2; round 2 has 3 and 4. Each line is another
// event, so a function that made some of them would be no plainer.

// A board alone.
const ALONE: &[Step] = &[
    // it proposes 700
    Step::Propose(1, 700),
    // it opens round 1, votes, and decides by its own ballot
    Step::Turn(1),
    Step::Turn(1),
    Step::Turn(1),
];

// The incident, as in schedules/incident: board 2 was reset, and has to count as faulty.
const INCIDENT: &[Step] = &[
    // board 1 proposes set 41, opens round 1 with it, and votes for it
    Step::Propose(1, 41),
    Step::Turn(1),
    Step::Turn(1),
    // so does board 2, and board 1 hears it
    Step::Sign(2, 2, 41),
    Step::Deliver(1, 2, 2, 41),
    // board 3 is silent; board 1 suspects it, and decides 41 by the two ballots
    Step::Suspect(1, 3),
    Step::Turn(1),
    // board 3 proposes set 40, and does not open round 1; it has heard nothing of board 1, suspects it, and votes blank
    Step::Propose(3, 40),
    Step::Turn(3),
    Step::Suspect(3, 1),
    Step::Turn(3),
    // then it hears the opening of round 1 and board 1's ballot
    Step::Deliver(3, 1, 1, 41),
    Step::Deliver(3, 1, 2, 41),
    // it suspects board 2, whose ballot is still on its way, and goes on to round 2 with estimate 41
    Step::Suspect(3, 2),
    Step::Turn(3),
    // board 2, fresh from its reset, opens round 2 with 40; board 3 does not open it, and hears that opening
    Step::Sign(2, 3, 40),
    Step::Turn(3),
    Step::Deliver(3, 2, 3, 40),
    // board 3 does not take 40: its ballot is blank
    Step::Turn(3),
    // board 2 announces 40 in round 2, which has no ballot (21)
    Step::Announce(3, 2, 2, 40),
    // board 1 announces 41 in round 1, of which board 3 has one ballot and needs two (21)
    Step::Announce(3, 1, 1, 41),
    // board 2's ballot comes, and now the announcement is taken
    Step::Deliver(3, 2, 2, 41),
    Step::Announce(3, 1, 1, 41),
];

// Every answer to an event, from 10 to 22, on a bench of three boards whose third is faulty.
const EVERY_ANSWER: &[Step] = &[
    // 10: there is no such kind
    Step::NoKind(1),
    // 11: there is no fourth board
    Step::Propose(4, 700),
    // 12: the blank cannot be proposed
    Step::Propose(1, 0),
    // 13: a faulty board does not propose
    Step::Propose(3, 700),
    // 14: no board suspects itself
    Step::Suspect(1, 1),
    // 15: board 1 has not started
    Step::Turn(1),
    // board 1 proposes 700, opens round 1 and votes
    Step::Propose(1, 700),
    Step::Turn(1),
    Step::Turn(1),
    // board 3 votes for 700 too, which board 1 hears; it suspects board 2, and decides
    Step::Sign(3, 2, 700),
    Step::Deliver(1, 3, 2, 700),
    Step::Suspect(1, 2),
    Step::Turn(1),
    // 16: it has decided, and has no turn any more
    Step::Turn(1),
    // 17: board 3 signed 700 in its ballot, not 701
    Step::Deliver(2, 3, 2, 701),
    // 18: and can sign no other ballot
    Step::Sign(3, 2, 701),
    // 19: board 1 has this ballot already
    Step::Deliver(1, 3, 2, 700),
    // board 2 proposes 701
    Step::Propose(2, 701),
    // 20: board 1 is sound, and decided 700, not 701
    Step::Announce(2, 1, 1, 701),
    // 21: it did decide 700 in round 1, but board 2 has none of the ballots
    Step::Announce(2, 1, 1, 700),
    // board 2 does not open round 1
    Step::Turn(2),
    // 22: it waits for the opening, since it does not suspect board 1
    Step::Turn(2),
];

// Two faulty boards of three.
const TWO_FAULTY: &[Step] = &[
    // board 1 proposes 700, opens round 1 and votes
    Step::Propose(1, 700),
    Step::Turn(1),
    Step::Turn(1),
    // the others vote blank, and board 1 hears both
    Step::Sign(2, 2, 0),
    Step::Sign(3, 2, 0),
    Step::Deliver(1, 2, 2, 0),
    Step::Deliver(1, 3, 2, 0),
    // it goes on to round 2, which it does not open
    Step::Turn(1),
    Step::Turn(1),
    // board 2 opens round 2 with 50, which two blank ballots allow; board 1 votes for it
    Step::Sign(2, 3, 50),
    Step::Deliver(1, 2, 3, 50),
    Step::Turn(1),
    // so does board 3, and board 1 hears it
    Step::Sign(3, 4, 50),
    Step::Deliver(1, 3, 4, 50),
    // board 1 has two ballots, but waits for that of board 2 (22), until it suspects it; then it decides 50
    Step::Turn(1),
    Step::Suspect(1, 2),
    Step::Turn(1),
];

// A statement of board 1 reaches the others.
const ECHO: &[Step] = &[
    // board 1 proposes 700 and opens round 1: a copy is owed to boards 2 and 3
    Step::Propose(1, 700),
    Step::Turn(1),
    // board 2 hears it; the copy to board 3 is owed still
    Step::Deliver(2, 1, 1, 700),
    // board 3 hears it
    Step::Deliver(3, 1, 1, 700),
];

// The most steps of a schedule here, which there are buffers for: the incident is the longest.
const STEPS: usize = INCIDENT.len();

impl Step {
    // Its event; a field that it does not have is 0. The kind is a byte there, since the field is open (a rule of the project).
    fn event(self) -> Event {
        let (kind, a, b, id, value) = match self {
            Step::Propose(k, value) => (Kind::Propose.number(), k, 0, 0, value),
            Step::Turn(k) => (Kind::Turn.number(), k, 0, 0, 0),
            Step::Deliver(k, speaker, id, value) => (Kind::Deliver.number(), k, speaker, id, value),
            Step::Announce(k, other, round, value) => (
                Kind::Announce.number(),
                k,
                other,
                round,
                value,
            ),
            Step::Suspect(k, other) => (Kind::Suspect.number(), k, other, 0, 0),
            Step::Sign(k, id, value) => (Kind::Sign.number(), k, 0, id, value),
            Step::NoKind(k) => (0, k, 0, 0, 0),
        };
        Event {
            kind,
            a,
            b,
            id,
            value,
        }
    }

    // The event's bytes in a schedule.
    fn bytes(self) -> [u8; Event::BYTES] {
        let e = self.event();
        let [high, low] = e.value.to_be_bytes();
        [e.kind, e.a, e.b, e.id, high, low]
    }
}

// The bytes of a schedule, one event after another; after them, zeros.
fn bytes_of(steps: &[Step]) -> [u8; STEPS * Event::BYTES] {
    let mut bytes = [0u8; STEPS * Event::BYTES];
    let (events, _) = bytes.as_chunks_mut::<{ Event::BYTES }>();
    for (event, step) in events.iter_mut().zip(steps) {
        *event = step.bytes();
    }
    bytes
}

// The answers to events, each with the event's number.
fn write_answers(rt: &HostRuntime, answers: &[u8]) -> io::Result<()> {
    for (k, answer) in answers.iter().enumerate() {
        println!(rt; "{} {answer}", k + 1)?;
    }
    Ok(())
}

// How each board stands.
fn write_boards(rt: &HostRuntime, bench: &Bench) -> io::Result<()> {
    for k in 1..=bench.n {
        let shown = bench.shown(k);
        let letter = shown.letter.byte() as char;
        println!(rt; "{k} {letter} {} {}", shown.round.0, shown.value)?;
    }
    Ok(())
}

// How many copies are owed. Two loops, no chain: that its `sum` fits did not prove.
fn owed(bench: &Bench) -> u32 {
    let mut copies = 0;
    for k in 1..=Bench::BOARDS {
        for id in 1..=Identifier::LAST {
            copies += u32::from(bench.owed(k, Identifier(id)).count(Bench::BOARDS));
        }
    }
    copies
}

// What is played into a fresh bench: the first so many bytes of a schedule, with room for so many answers.
#[derive(Clone, Copy)]
struct Case<'a> {
    title: &'a str,
    n: u8,
    marks: Marks,
    steps: &'a [Step],
    bytes: usize,
    room: usize,
}

impl<'a> Case<'a> {
    // A whole schedule, with room enough; n and the marks stay two arguments, as for the call that makes the bench.
    fn whole(title: &'a str, n: u8, marks: Marks, steps: &'a [Step]) -> Case<'a> {
        Case {
            title,
            n,
            marks,
            steps,
            bytes: steps.len() * Event::BYTES,
            room: STEPS,
        }
    }

    // Plays it, of no more than there are buffers for, and writes what came of it.
    fn play(&self, rt: &HostRuntime) -> io::Result<()> {
        println!(rt; "{}", self.title)?;
        let bytes = bytes_of(self.steps);
        let events = &bytes[..self.bytes.min(bytes.len())];
        let mut answers = [0u8; STEPS];
        let played = Bench::play(
            self.n,
            self.marks,
            events,
            &mut answers[..self.room.min(STEPS)],
        );
        println!(rt; "fresh {}", number_of(played.answer))?;
        match played.ending {
            Ok(()) => write_answers(rt, &answers[..events.len() / Event::BYTES])?,
            Err(Unplayed::Ragged) => println!(rt; "not played: ragged")?,
            Err(Unplayed::Short) => println!(rt; "not played: short")?,
        }
        write_boards(rt, &played.bench)?;
        println!(rt; "owed {}", owed(&played.bench))
    }
}

// Plays one case after another.
fn play(rt: &HostRuntime, cases: &[Case]) -> io::Result<()> {
    for case in cases {
        case.play(rt)?;
    }
    Ok(())
}

// Whole votes.
fn votes(rt: &HostRuntime) -> io::Result<()> {
    play(
        rt,
        &[
            Case::whole("one board", 1, NONE, ALONE),
            Case::whole(
                "the incident, of three boards of which the second is faulty: its ballot of round 1 is on the way",
                3,
                SECOND,
                &INCIDENT[..19],
            ),
            Case::whole("the incident to its end", 3, SECOND, INCIDENT),
            Case::whole(
                "every answer: of three boards the third is faulty",
                3,
                THIRD,
                EVERY_ANSWER,
            ),
            Case::whole(
                "two faulty boards of three",
                3,
                SECOND_AND_THIRD,
                TWO_FAULTY,
            ),
        ],
    )
}

// Calls for a fresh bench: three that are refused, and get the bench of one sound board, and one that is not.
fn calls(rt: &HostRuntime) -> io::Result<()> {
    play(
        rt,
        &[
            Case::whole("no boards", 0, NONE, ALONE),
            Case::whole("nine boards", 9, NONE, ALONE),
            Case::whole("the second of two boards has the mark 2", 2, NO_MARK, ALONE),
            Case::whole(
                "one board, and after its mark there are some that are none",
                1,
                UNREAD,
                ALONE,
            ),
        ],
    )
}

// The copies that are owed, after two, three and four events.
fn copies(rt: &HostRuntime) -> io::Result<()> {
    play(
        rt,
        &[
            Case::whole(
                "three sound boards: board 1 opens round 1",
                3,
                NONE,
                &ECHO[..2],
            ),
            Case::whole("and board 2 hears it", 3, NONE, &ECHO[..3]),
            Case::whole("and board 3 hears it", 3, NONE, ECHO),
        ],
    )
}

// Board 1 opens round 1 with 700: what it has signed so, and what boards 1 and 2 have delivered of it. A log's entry is
// one more than the value, and 0 where there is none. A bench is `Copy`, so the one of before is kept: the turn is taken twice on
// it, and comes to the same.
fn opening(rt: &HostRuntime) -> io::Result<()> {
    let bench = Bench::fresh(3, NONE).bench;
    let proposed = bench.event(Step::Propose(1, 700).event()).bench;
    let opened = proposed.event(Step::Turn(1).event()).bench;
    let again = proposed.event(Step::Turn(1).event()).bench;
    let id = Identifier(1);
    println!(rt; "board 1 opens round 1 with 700")?;
    println!(rt; "signed {}", opened.signed(1, id))?;
    println!(rt; "delivered by 1 {}", again.delivered(1, 1, id))?;
    println!(rt; "delivered by 2 {}", again.delivered(2, 1, id))
}

// Lists that cannot be played: one event and a byte, and four events with room for three answers.
fn not_played(rt: &HostRuntime) -> io::Result<()> {
    play(
        rt,
        &[
            Case {
                bytes: Event::BYTES + 1,
                ..Case::whole("an event and a byte", 1, NONE, ALONE)
            },
            Case {
                room: 3,
                ..Case::whole("four events, and room for three answers", 1, NONE, ALONE)
            },
        ],
    )
}

// What an event is answered on a fresh bench, after another one and after itself so many times; n and the marks stay apart,
// as for the call that makes the bench.
#[tactic(auto, using(crate::proofs::AgainLaws::played_again))]
fn answer_after(n: u8, marks: Marks, first: Event, again: Event, times: u8) -> Result<(), Refusal>
    ensures { result ≡ (step_of limits (after limits (fresh_bench limits n marks) (first ∷ replicate times again)) again).answer }
{
    let mut bench = Bench::fresh(n, marks).bench;
    let _ = bench.apply(first);
    for _k in 0..times {
        let _ = bench.apply(again);
    }
    bench.apply(again)
}

// A board alone proposes 700. With its third turn it decides, and a fourth is refused.
fn later_turns(rt: &HostRuntime) -> io::Result<()> {
    let propose = Step::Propose(1, 700).event();
    let turn = Step::Turn(1).event();
    println!(rt; "one board: its third turn, and its fourth")?;
    println!(rt; "4 {}", number_of(answer_after(1, NONE, propose, turn, 2)))?;
    println!(rt; "5 {}", number_of(answer_after(1, NONE, propose, turn, 3)))
}

fn main(rt: HostRuntime) -> io::Result<()> {
    votes(&rt)?;
    calls(&rt)?;
    copies(&rt)?;
    opening(&rt)?;
    not_played(&rt)?;
    later_turns(&rt)
}
