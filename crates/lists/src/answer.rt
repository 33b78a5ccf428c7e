// An answer as numbers, for callers that have no enum: in a buffer of a list's answers, and over the C ABI.
ghost use Rattle.std.specs.Prelude.{◌≡◌};
ghost use Rattle.rules.specs.Encoding.{refused_words, words_of};

use rules::{Answer, kind};

// A refused event's, by any number for its cause.
pub fn refused_words(number: u64) -> [u64; kind::ANSWER_LENGTH]
    ensures { result ≡ refused_words number }
{
    [kind::REFUSED, number, 0, 0]
}

// The kind, and the answer's numbers, 0 where it has fewer than three.
pub fn words(a: Answer) -> [u64; kind::ANSWER_LENGTH]
    ensures { result ≡ words_of a }
{
    match a {
        Answer::Refused(refusal) => refused_words(u64::from(refusal)),
        Answer::Started(n) => [kind::STARTED, n, 0, 0],
        Answer::Read(holder, moves) => [kind::READ, holder, moves, 0],
        Answer::Written => [kind::WRITTEN, 0, 0, 0],
        Answer::Committed(t) => [kind::COMMITTED, t, 0, 0],
        Answer::Failed(t, k) => [kind::FAILED, t, k, 0],
        Answer::Aborted(n, left) => [kind::ABORTED, n, left, 0],
        Answer::Added => [kind::ADDED, 0, 0, 0],
        Answer::ReadSum(holder, moves, sum) => [kind::READ_SUM, holder, moves, sum],
        Answer::Entered => [kind::ENTERED, 0, 0, 0],
        Answer::Ready(left) => [kind::READY, left, 0, 0],
        Answer::JudgedFailed(left) => [kind::JUDGED_FAILED, left, 0, 0],
    }
}
