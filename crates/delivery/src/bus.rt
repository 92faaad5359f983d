ghost use Rattle.std.specs.Prelude.{◌≡◌};
ghost use Rattle.delivery.specs.Bus.{faults, quorum, overlap};

// f: the most boards that are fewer than half of n; so many faulty ones the published vote tolerates.
pub fn faults(n: u8) -> u8
    ensures { result ≡ faults n }
{
    n.saturating_sub(1) / 2
}

// q: how many boards make a quorum.
pub fn quorum(n: u8) -> u8
    ensures { result ≡ quorum n }
{
    n - faults(n)
}

// e: how many boards any two quorums share at least.
pub fn overlap(n: u8) -> u8
    ensures { result ≡ overlap n }
{
    n - 2 * faults(n)
}
