// The fields of the head and of an action, by name, but for those that are times (`times`).
ghost use Rattle.std.specs.Prelude.{◌≡◌};
ghost use Rattle.rules.specs.Action.{kind_number, state_number};
ghost use Rattle.rules.specs.Card.{IsAccount, IsCharge};
ghost use Rattle.rules.specs.Kind.{kind_under};
ghost use Rattle.rules.specs.Table.{highest, with_highest, is_forward, parent_of, with_parent, kind_of, state_of, with_state, has_read, has_written, has_card, write_entry, with_write, pending_word, with_pending, own_adds_word, with_own_adds, kept_word, with_kept, is_live, is_committed};
ghost use Rattle.rules.specs.Sound.{has_rule};
ghost use Rattle.rows.specs.Row.{HasRow};

use crate::words::{get, put};
use rules::action::{Kind, State};
use rules::store::FIRST_CHARGE;
use rules::table::{
    BACKWARD_WORD, FORWARD_WORD, HEAD, HIGHEST_FIELD, KEPT_FIELDS, NO_ENTRY, OWN_ADDS_FIELDS,
    PARENT_FIELD, PENDING_FIELDS, READ_FIELDS, RULE_FIELD, STATE_FIELD, STORE, WRITE_FIELDS,
};

pub fn highest(table: &[u64]) -> u64
    requires { HasRow table.now 0 }
    ensures { result ≡ highest table.now }
{
    get(table, HEAD, HIGHEST_FIELD)
}

pub fn set_highest(table: &mut [u64], v: u64)
    requires { HasRow table.old 0 }
    ensures { table.new ≡ with_highest table.old v }
{
    put(table, HEAD, HIGHEST_FIELD, v);
}

pub fn is_forward(table: &[u64]) -> bool
    requires { HasRow table.now 0 }
    ensures { result ≡ is_forward table.now }
{
    get(table, HEAD, RULE_FIELD) == FORWARD_WORD
}

pub fn has_rule(table: &[u64]) -> bool
    requires { HasRow table.now 0 }
    ensures { result ≡ has_rule table.now }
{
    get(table, HEAD, RULE_FIELD) == BACKWARD_WORD || is_forward(table)
}

pub fn parent(table: &[u64], n: u64) -> u64
    requires { HasRow table.now n }
    ensures { result ≡ parent_of table.now n }
{
    get(table, n, PARENT_FIELD)
}

pub fn set_parent(table: &mut [u64], n: u64, v: u64)
    requires { HasRow table.old n }
    ensures { table.new ≡ with_parent table.old n v }
{
    put(table, n, PARENT_FIELD, v);
}

// The kind of p's children, where p is an action or the store.
#[tactic(auto, unfolding(rules::specs::Kind::kind_under))]
pub fn kind_under(p: u64) -> Kind
    ensures { kind_number result ≡ kind_under p }
{
    if p == STORE { Kind::Top } else { Kind::Sub }
}

pub fn kind_of(table: &[u64], n: u64) -> Kind
    requires { HasRow table.now n }
    ensures { kind_number result ≡ kind_of table.now n }
{
    kind_under(parent(table, n))
}

// The word of its state: in a lent table any word may stand there.
pub fn state(table: &[u64], n: u64) -> u64
    requires { HasRow table.now n }
    ensures { result ≡ state_of table.now n }
{
    get(table, n, STATE_FIELD)
}

pub fn set_state(table: &mut [u64], n: u64, v: State)
    requires { HasRow table.old n }
    ensures { table.new ≡ with_state table.old n (state_number v) }
{
    put(table, n, STATE_FIELD, u64::from(v));
}

pub fn is_live(table: &[u64], n: u64) -> bool
    requires { HasRow table.now n }
    ensures { result ≡ is_live table.now n }
{
    state(table, n) == u64::from(State::Live)
}

pub fn is_committed(table: &[u64], n: u64) -> bool
    requires { HasRow table.now n }
    ensures { result ≡ is_committed table.now n }
{
    state(table, n) == u64::from(State::Committed)
}

// The account is in the read set; the times that it was read at are told by `times`.
pub fn has_read(table: &[u64], n: u64, k: u64) -> bool
    requires has_row { HasRow table.now n }
    requires account { IsAccount k }
    ensures { result ≡ has_read table.now n k }
{
    get(table, n, READ_FIELDS + k) != NO_ENTRY
}

pub fn write_entry(table: &[u64], n: u64, k: u64) -> u64
    requires has_row { HasRow table.now n }
    requires account { IsAccount k }
    ensures { result ≡ write_entry table.now n k }
{
    get(table, n, WRITE_FIELDS + k)
}

pub fn set_write_entry(table: &mut [u64], n: u64, k: u64, v: u64)
    requires has_row { HasRow table.old n }
    requires account { IsAccount k }
    ensures { table.new ≡ with_write table.old n k v }
{
    put(table, n, WRITE_FIELDS + k, v);
}

pub fn has_written(table: &[u64], n: u64, k: u64) -> bool
    requires has_row { HasRow table.now n }
    requires account { IsAccount k }
    ensures { result ≡ has_written table.now n k }
{
    write_entry(table, n, k) != NO_ENTRY
}

// It has a card of its own for the account; it never has one for a charge account.
pub fn has_card(table: &[u64], n: u64, k: u64) -> bool
    requires has_row { HasRow table.now n }
    requires account { IsAccount k }
    ensures { result ≡ has_card table.now n k }
{
    k < FIRST_CHARGE && has_written(table, n, k)
}

// Three sums for each charge account, each read and put by a name of its own: the names differ in one field, and a call says which
// sum it means.

// The word of its pending sum.
pub fn pending(table: &[u64], n: u64, k: u64) -> u64
    requires has_row { HasRow table.now n }
    requires charge { IsCharge k }
    ensures { result ≡ pending_word table.now n k }
{
    get(table, n, PENDING_FIELDS + k)
}

pub fn set_pending(table: &mut [u64], n: u64, k: u64, v: u64)
    requires has_row { HasRow table.old n }
    requires charge { IsCharge k }
    ensures { table.new ≡ with_pending table.old n k v }
{
    put(table, n, PENDING_FIELDS + k, v);
}

// The word of its own adds.
pub fn own_adds(table: &[u64], n: u64, k: u64) -> u64
    requires has_row { HasRow table.now n }
    requires charge { IsCharge k }
    ensures { result ≡ own_adds_word table.now n k }
{
    get(table, n, OWN_ADDS_FIELDS + k)
}

pub fn set_own_adds(table: &mut [u64], n: u64, k: u64, v: u64)
    requires has_row { HasRow table.old n }
    requires charge { IsCharge k }
    ensures { table.new ≡ with_own_adds table.old n k v }
{
    put(table, n, OWN_ADDS_FIELDS + k, v);
}

// The word of what is kept of its committed children; of row 0 that of the committed topactions.
pub fn kept(table: &[u64], n: u64, k: u64) -> u64
    requires has_row { HasRow table.now n }
    requires charge { IsCharge k }
    ensures { result ≡ kept_word table.now n k }
{
    get(table, n, KEPT_FIELDS + k)
}

pub fn set_kept(table: &mut [u64], n: u64, k: u64, v: u64)
    requires has_row { HasRow table.old n }
    requires charge { IsCharge k }
    ensures { table.new ≡ with_kept table.old n k v }
{
    put(table, n, KEPT_FIELDS + k, v);
}
