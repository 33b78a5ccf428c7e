// An account's running record: last year's total, in binary fractions, and the exact one, which go everywhere together.
ghost use Rattle.std.specs.Prelude.{◌≡◌};
ghost use Rattle.charges.specs.List.{IsFaultless, cents_charged};
ghost use Rattle.charges.specs.Running.{uncharged as Running·uncharged, SumFits, charged_of, charged_by, running_of};

use crate::list::{CHARGE_LENGTH, account_of, cents_of};

#[derive(Clone, Copy)]
pub struct Running {
    pub old: f64,
    pub cents: i64,
}

const HUNDRED: f64 = 100.0;

fn uncharged() -> Running
    ensures { result ≡ Running·uncharged }
{
    Running { old: 0.0, cents: 0 }
}

// Two operations that round, in this order: the division, then the sum.
fn charged(running: Running, cents: i64) -> Running
    requires { SumFits running cents }
    ensures { result ≡ charged_of running cents }
{
    Running {
        old: running.old + std::num::nearest_i64_to_f64(cents) / HUNDRED,
        cents: running.cents + cents,
    }
}

// A charge to another account leaves the record as it is.
fn charged_by(charge: &[u8; CHARGE_LENGTH], account: u64, running: Running) -> Running
    requires { SumFits running (cents_charged charge.now 0) }
    ensures { result ≡ charged_by charge.now account 0 running }
{
    if account_of(charge) == account {
        return charged(running, cents_of(charge));
    }
    running
}

pub(crate) fn running_of(list: &[u8], account: u64) -> Running
    requires { IsFaultless list.now }
    ensures { result ≡ running_of list.now account }
{
    let (charges, _) = list.as_chunks::<CHARGE_LENGTH>();
    let mut running = uncharged();
    for charge in charges {
        running = charged_by(charge, account, running);
    }
    running
}
