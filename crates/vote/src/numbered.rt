ghost use Rattle.std.specs.Prelude.{ℕ, ◌≡◌};
ghost use Rattle.vote.specs.Turns.{numbered};

// A refusal, which has a number in document 01's table. No `From`, by which a number would be any conversion's: `number_of`
// speaks of `number_in_table` for every refusal, so that would be no plainer.
pub trait Numbered {
    // What the number is, as contracts say it.
    ghost number_in_table: { Self → ℕ };

    // The number itself.
    fn number(self) -> u8
        ensures { result ≡ number_in_table self };
}

// The number of an answer in that table: 0, or the refusal's.
pub fn number_of<R: Numbered>(answer: Result<(), R>) -> u8
    ensures { result ≡ numbered R.number_in_table answer }
{
    match answer {
        Ok(()) => 0,
        Err(refusal) => refusal.number(),
    }
}
