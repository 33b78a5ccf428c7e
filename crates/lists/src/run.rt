// A list of events in one call.
ghost use Rattle.std.specs.Prelude.{◌≡◌};
ghost use Rattle.rules.specs.Ledger.{ledger_of};
ghost use Rattle.rules.specs.Encoding.{words_of, with_words};
ghost use Rattle.rules.specs.Refusal.{refusal_of};
ghost use Rattle.lists.specs.Listed.{AnswerFits, listed_of, run_list};

use crate::answer::words;
use causes::cause::store_cause;
use dispatch::event::sound_event;
use dispatch::listed::event_at;
use rules::Answer;
use rules::event::EVENT_LENGTH;
use rules::kind::ANSWER_LENGTH;
use rules::refusal::Refusal;

fn store_answer(buffer: &mut [u64], at: usize, answer: Answer)
    requires { AnswerFits buffer.old at }
    ensures { buffer.new ≡ with_words buffer.old at (words_of answer) }
{
    let [kind, first, second, third] = words(answer);
    buffer[at] = kind;
    buffer[at + 1] = first;
    buffer[at + 2] = second;
    buffer[at + 3] = third;
}

// Ok, or why the list isn't run.
pub fn run(
    table: &mut [u64],
    base: &mut [u8],
    shadow: &mut [u8],
    events: &[u8],
    answers: &mut [u64],
) -> Result<(), Refusal>
    ensures { listed_of (refusal_of result) (ledger_of table.new base.new shadow.new) answers.new
        ≡ run_list (ledger_of table.old base.old shadow.old)
        events.now answers.old }
{
    store_cause(table, base, shadow)?;
    if events.len() % EVENT_LENGTH != 0 {
        return Err(Refusal::Length);
    }
    let count = events.len() / EVENT_LENGTH;
    if answers.len() / ANSWER_LENGTH < count {
        return Err(Refusal::Length);
    }
    for i in 0..count {
        let event = event_at(events, EVENT_LENGTH * i);
        let answer = sound_event(table, base, shadow, event);
        store_answer(answers, ANSWER_LENGTH * i, answer);
    }
    Ok(())
}
