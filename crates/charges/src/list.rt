// A list of charges: what stands in it, and what is wrong with it.
ghost use Rattle.std.specs.Prelude.{◌≡◌};
ghost use Rattle.rules.specs.Refusal.{refusal_of};
ghost use Rattle.charges.specs.List.{charges_in, account_charged, word_charged, cents_charged, charge_fault, charges_fault, list_fault};

use amounts::bytes::word_at;
use amounts::limit::is_addable;
use rules::amount::AMOUNT_LENGTH;
use rules::refusal::Refusal;
use rules::store::{ACCOUNTS, FIRST_CHARGE};

// Where a charge's cents begin, behind its account.
const CENTS_AT: usize = 1;

pub(crate) const CHARGE_LENGTH: usize = CENTS_AT + AMOUNT_LENGTH;

const MOST_CHARGES: usize = 1000;

pub(crate) const LIST_LENGTH: usize = MOST_CHARGES * CHARGE_LENGTH;

pub(crate) fn account_of(charge: &[u8; CHARGE_LENGTH]) -> u64
    ensures { result ≡ account_charged charge.now 0 }
{
    u64::from(charge[0])
}

fn cents_word(charge: &[u8; CHARGE_LENGTH]) -> u64
    ensures { result ≡ word_charged charge.now 0 }
{
    word_at(charge, CENTS_AT)
}

pub(crate) fn cents_of(charge: &[u8; CHARGE_LENGTH]) -> i64
    ensures { result ≡ cents_charged charge.now 0 }
{
    cents_word(charge).cast_signed()
}

// The account is asked before the cents.
#[tactic(auto, unfolding(crate::specs::List::charge_fault))]
fn charge_fault(charge: &[u8; CHARGE_LENGTH]) -> Result<(), Refusal>
    ensures { refusal_of result ≡ charge_fault charge.now 0 }
{
    if !(FIRST_CHARGE..ACCOUNTS).contains(&account_of(charge)) {
        return Err(Refusal::Kind);
    }
    if !is_addable(cents_word(charge)) {
        return Err(Refusal::Amount);
    }
    Ok(())
}

// That of the first bad charge.
fn charges_fault(list: &[u8]) -> Result<(), Refusal>
    ensures { refusal_of result ≡ charges_fault list.now 0 (charges_in list.now) }
{
    let (charges, _) = list.as_chunks::<CHARGE_LENGTH>();
    for charge in charges {
        charge_fault(charge)?;
    }
    Ok(())
}

#[tactic(auto, unfolding(crate::specs::List::list_fault))]
pub(crate) fn list_fault(list: &[u8]) -> Result<(), Refusal>
    ensures { refusal_of result ≡ list_fault list.now }
{
    if LIST_LENGTH < list.len() {
        return Err(Refusal::Count);
    }
    if list.len() % CHARGE_LENGTH != 0 {
        return Err(Refusal::Length);
    }
    charges_fault(list)
}
