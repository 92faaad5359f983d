ghost use Rattle.fenderacai.specs.Claims.{RowWords, TraceWords};

/// How many words a row has, and so the trace of every file that is taken: what a caller needs to divide a trace into its rows.
/// There is nothing to do: these are claims about the words of the contracts.
pub fn every_trace()
    ensures row { RowWords }
    ensures trace { TraceWords }
{}
