ghost use Rattle.pq_io.specs.Settled.{ReadingIsSettled, WritingIsSettled};

/// A law on what `read_whole` ensures: where the count of faults didn't rise and memory lasted, the bytes that were
/// left settle the answer.
pub fn reading_is_settled()
    ensures { ReadingIsSettled }
{}

/// A law on what `write_whole` ensures: where the count of faults didn't rise, the whole text was put.
pub fn writing_is_settled()
    ensures { WritingIsSettled }
{}
