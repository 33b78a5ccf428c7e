// Why a call is refused: the first cause that applies.
ghost use Rattle.std.specs.Prelude.{◌≡◌, ◌≤◌, IfOk};
ghost use Rattle.rules.specs.Table.{highest};
ghost use Rattle.rules.specs.Sound.{IsGiven, Sound};
ghost use Rattle.rules.specs.Asked.{event_in};
ghost use Rattle.rules.specs.Cause.{first_cause, store_causes, early_causes};
ghost use Rattle.rules.specs.Code.{code_number};
ghost use Rattle.rules.specs.Refusal.{refusal_of};
ghost use Rattle.causes.specs.Groups.{is_misfit, start_causes, kind_causes, account_causes, card_causes, write_causes, add_causes};

use crate::busy::{busy_cause, commit_cause, enter_cause, judge_cause, queued_cause};
use amounts::bytes::word_at;
use amounts::limit::is_addable;
use numbers::free::next_number;
use rows::fields::{highest, is_forward, is_live};
use rules::amount::AMOUNT_AT;
use rules::event::{Code, Event};
use rules::refusal::Refusal;
use rules::store::{ACCOUNTS, BASE_LENGTH, CARD_LENGTH, FIRST_CHARGE, SHADOW_LENGTH};
use rules::table::STORE;
use soundness::sound::is_sound;

// Causes 1 and 2.
#[tactic(auto, unfolding(rules::specs::Cause::store_causes))]
pub fn store_cause(table: &[u64], base: &[u8], shadow: &[u8]) -> Result<(), Refusal>
    ensures { refusal_of result ≡ first_cause (store_causes table.now base.now shadow.now) }
{
    if base.len() != BASE_LENGTH || shadow.len() != SHADOW_LENGTH {
        return Err(Refusal::StoreLength);
    }
    if !is_sound(table) {
        return Err(Refusal::Unsound);
    }
    Ok(())
}

// Cause 21 applies: an enter or a judge, and the table judges forwards.
fn is_misfit(table: &[u64], code: Code) -> bool
    requires { Sound table.now }
    ensures { result ≡ is_misfit table.now (code_number code) }
{
    matches!(code, Code::Enter | Code::Judge) && is_forward(table)
}

// All other causes but the last, of a table that is sound; the event's code where none of them applies.
pub fn event_cause(table: &[u64], event: Event<'_>) -> Result<Code, Refusal>
    requires { Sound table.now }
    ensures cause { refusal_of result
        ≡ first_cause (early_causes table.now (event_in event.entry)) }
    ensures code { IfOk result (λ code. code_number code ≡ event.entry.code) }
{
    let code = Code::try_from(event.code)?;
    known_cause(table, code, event)?;
    Ok(code)
}

// Those behind cause 3, by the code that is known.
#[tactic(auto, unfolding(rules::specs::Cause::early_causes))]
fn known_cause(table: &[u64], code: Code, event: Event<'_>) -> Result<(), Refusal>
    requires sound { Sound table.now }
    requires code { code_number code ≡ event.code }
    ensures { refusal_of result ≡ first_cause (early_causes table.now (event_in event.entry)) }
{
    if is_misfit(table, code) {
        return Err(Refusal::Misfit);
    }
    if highest(table) < event.number {
        return Err(Refusal::Number);
    }
    match code {
        Code::Start => start_cause(table, event.number),
        _ if event.number == STORE => Err(Refusal::Number),
        _ if !is_live(table, event.number) => Err(Refusal::NotLive),
        _ => kind_cause(table, code, event),
    }
}

// Causes 5, 6 and 16, of a start under a number that is known.
#[tactic(auto, unfolding(crate::specs::Groups::start_causes))]
fn start_cause(table: &[u64], number: u64) -> Result<(), Refusal>
    requires sound { Sound table.now }
    requires number_bound { number ≤ highest table.now }
    ensures { refusal_of result ≡ first_cause (start_causes table.now number) }
{
    if number != STORE && !is_live(table, number) {
        return Err(Refusal::NotLive);
    }
    if next_number(table).is_none() {
        return Err(Refusal::TableFull);
    }
    queued_cause(table, number)
}

// The causes from 7 on, of an event that is no start, by an action that is live.
#[tactic(auto, unfolding(crate::specs::Groups::kind_causes))]
fn kind_cause(table: &[u64], code: Code, event: Event<'_>) -> Result<(), Refusal>
    requires sound { Sound table.now }
    requires given { IsGiven table.now event.number }
    requires code { code_number code ≡ event.code }
    ensures { refusal_of result ≡ first_cause (kind_causes table.now (event_in event.entry)) }
{
    match code {
        Code::Abort => Ok(()),
        Code::Judge => judge_cause(table, event.number),
        Code::Commit => commit_cause(table, event.number),
        Code::Enter => enter_cause(table, event.number),
        _ => account_cause(table, code, event),
    }
}

// The causes from 7 on, of a read, a write or an add.
#[tactic(auto, unfolding(crate::specs::Groups::account_causes))]
fn account_cause(table: &[u64], code: Code, event: Event<'_>) -> Result<(), Refusal>
    requires sound { Sound table.now }
    requires code { code_number code ≡ event.code }
    ensures { refusal_of result ≡ first_cause (account_causes table.now (event_in event.entry)) }
{
    if ACCOUNTS <= event.account {
        return Err(Refusal::Account);
    }
    card_cause(code, event.account, event.card)?;
    busy_cause(table, event.number)
}

// Causes 8, 13 and 14, by the code: only a write and an add have a card.
#[tactic(auto, unfolding(crate::specs::Groups::card_causes))]
fn card_cause(code: Code, account: u64, card: &[u8]) -> Result<(), Refusal>
    ensures { refusal_of result ≡ first_cause (card_causes (code_number code) account card.now) }
{
    match code {
        Code::Write => write_cause(account, card),
        Code::Add => add_cause(account, card),
        _ => Ok(()),
    }
}

#[tactic(auto, unfolding(crate::specs::Groups::write_causes))]
fn write_cause(account: u64, card: &[u8]) -> Result<(), Refusal>
    ensures { refusal_of result ≡ first_cause (write_causes account card.now) }
{
    if card.len() != CARD_LENGTH {
        return Err(Refusal::CardLength);
    }
    if FIRST_CHARGE <= account {
        return Err(Refusal::Kind);
    }
    Ok(())
}

#[tactic(auto, unfolding(crate::specs::Groups::add_causes, rules::specs::Amount::amount_in))]
fn add_cause(account: u64, card: &[u8]) -> Result<(), Refusal>
    ensures { refusal_of result ≡ first_cause (add_causes account card.now) }
{
    if card.len() != CARD_LENGTH {
        return Err(Refusal::CardLength);
    }
    if account < FIRST_CHARGE {
        return Err(Refusal::Kind);
    }
    if !is_addable(word_at(card, AMOUNT_AT)) {
        return Err(Refusal::Amount);
    }
    Ok(())
}
