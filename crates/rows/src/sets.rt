// The read set, the write set, the pending sums, the own adds, the kept sums and the newest end times of an action.
ghost use Rattle.std.specs.Prelude.{◌+◌, ◌≡◌};
ghost use Rattle.rules.specs.Table.{with_fields, has_writes, has_end, without_adds, without_kept, without_newest, with_sets};
ghost use Rattle.rows.specs.Row.{HasRow, HasAccountFields, IsFirstAccount, accounts_from};

use crate::fields::{has_written, is_committed};
use crate::words::put;
use rules::store::{ACCOUNTS, FIRST_ACCOUNT, FIRST_CHARGE};
use rules::table::{
    KEPT_FIELDS, NEWEST_FIELDS, NO_ENTRY, OWN_ADDS_FIELDS, PENDING_FIELDS, READ_FIELDS,
    SUB_TIME_FIELDS, WRITE_FIELDS,
};

pub fn has_writes(table: &[u64], n: u64) -> bool
    requires { HasRow table.now n }
    ensures { result ≡ has_writes table.now n }
{
    (0..ACCOUNTS).any(|k| has_written(table, n, k))
}

// Its end time counts: it has committed, and it has written.
pub fn has_ended(table: &[u64], n: u64) -> bool
    requires { HasRow table.now n }
    ensures { result ≡ has_end table.now n }
{
    is_committed(table, n) && has_writes(table, n)
}

// The fields of the accounts from `from` on, where account k's is field first + k: nothing stands there.
fn clear_fields(table: &mut [u64], n: u64, first: u64, from: u64)
    requires has_row { HasRow table.old n }
    requires has_account_fields { HasAccountFields first }
    requires first_account { IsFirstAccount from }
    ensures { table.new ≡ with_fields table.old n (λ k. first + k) (accounts_from from) (λ k. 0) }
{
    for k in from..ACCOUNTS {
        put(table, n, first + k, NO_ENTRY);
    }
}

// A start's row: both sets empty, with no time left of a read, and no sum pending, whatever stood there.
#[tactic(auto, unfolding(rules::specs::Table::with_sets, rules::specs::Table::with_both_sets, rules::specs::Table::with_reads, rules::specs::Card::accounts, rules::specs::Card::charge_accounts))]
pub fn clear_sets(table: &mut [u64], n: u64)
    requires { HasRow table.old n }
    ensures { table.new ≡ with_sets table.old n (λ k. 0) (λ k. 0) (λ k. 0) (λ k. 0) }
{
    clear_fields(table, n, READ_FIELDS, FIRST_ACCOUNT);
    clear_fields(table, n, SUB_TIME_FIELDS, FIRST_ACCOUNT);
    clear_fields(table, n, WRITE_FIELDS, FIRST_ACCOUNT);
    clear_fields(table, n, PENDING_FIELDS, FIRST_CHARGE);
}

// A start's row: no own adds, whatever stood there.
#[tactic(auto, unfolding(rules::specs::Table::without_adds, rules::specs::Card::charge_accounts))]
pub fn clear_own_adds(table: &mut [u64], n: u64)
    requires { HasRow table.old n }
    ensures { table.new ≡ without_adds table.old n }
{
    clear_fields(table, n, OWN_ADDS_FIELDS, FIRST_CHARGE);
}

// A start's row: nothing kept of children, whatever stood there.
#[tactic(auto, unfolding(rules::specs::Table::without_kept, rules::specs::Card::charge_accounts))]
pub fn clear_kept(table: &mut [u64], n: u64)
    requires { HasRow table.old n }
    ensures { table.new ≡ without_kept table.old n }
{
    clear_fields(table, n, KEPT_FIELDS, FIRST_CHARGE);
}

// A start's row: no child has ended, whatever stood there.
#[tactic(auto, unfolding(rules::specs::Table::without_newest, rules::specs::Card::accounts))]
pub fn clear_newest(table: &mut [u64], n: u64)
    requires { HasRow table.old n }
    ensures { table.new ≡ without_newest table.old n }
{
    clear_fields(table, n, NEWEST_FIELDS, FIRST_ACCOUNT);
}
