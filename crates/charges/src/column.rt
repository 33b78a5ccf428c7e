// The text printed of a list, put into a buffer.
ghost use Rattle.std.specs.Prelude.{◌≡◌, length};
ghost use Rattle.rules.specs.Card.{charge_count};
ghost use Rattle.text.specs.Put.{put_at, HasRoom, Fits, Writes};
ghost use Rattle.charges.specs.List.{IsFaultless};
ghost use Rattle.charges.specs.Running.{IsNumber};
ghost use Rattle.charges.specs.Column.{cents_text, old_text, account_line, account_lines, column_text, column_length};

use crate::list::list_fault;
use crate::running::{Running, running_of};
use rules::store::{ACCOUNTS, FIRST_CHARGE};
use text::Text;

// The longest line: 2 digits, a sign and 10 digits, 16 digits, 2 spaces and a line feed.
const LINE_LENGTH: usize = 32;

// A line for each charge account.
const LINES: usize = (ACCOUNTS - FIRST_CHARGE) as usize;

pub const COLUMN_LENGTH: usize = LINES * LINE_LENGTH;

// A space and the record's cents.
#[tactic(auto, unfolding(crate::specs::Column::cents_text))]
fn put_cents(text: &mut Text, running: Running)
    requires { Fits text.old (cents_text running) }
    ensures { Writes text.old text.new (cents_text running) }
{
    text.put_byte(b' ');
    text.put_signed(running.cents.cast_unsigned());
}

// A space and the bits of the record's old total.
#[tactic(auto, unfolding(crate::specs::Column::old_text))]
fn put_old(text: &mut Text, running: Running)
    requires number { IsNumber running }
    requires fits { Fits text.old (old_text running) }
    ensures { Writes text.old text.new (old_text running) }
{
    text.put_byte(b' ');
    text.put_hexadecimal(f64::to_bits(running.old));
}

#[tactic(auto, using(crate::proofs::Lines::length_of_line))]
fn put_line(text: &mut Text, account: u64, running: Running)
    requires number { IsNumber running }
    requires fits { Fits text.old (account_line account running) }
    ensures { Writes text.old text.new (account_line account running) }
{
    text.put_number(account);
    put_cents(text, running);
    put_old(text, running);
    text.put_byte(b'\n');
}

fn put_lines(text: &mut Text, list: &[u8])
    requires faultless { IsFaultless list.now }
    requires room { HasRoom text.old column_length }
    ensures { Writes text.old text.new (account_lines list.now charge_count) }
{
    for account in FIRST_CHARGE..ACCOUNTS {
        put_line(text, account, running_of(list, account));
    }
}

fn put_column(text: &mut Text, list: &[u8])
    requires { HasRoom text.old column_length }
    ensures { Writes text.old text.new (column_text list.now) }
{
    match list_fault(list) {
        Ok(()) => put_lines(text, list),
        Err(fault) => text.put_refused(u64::from(fault)),
    }
}

// Back comes the text's length; the text stands at the front of its buffer.
pub fn column(list: &[u8], out: &mut [u8; COLUMN_LENGTH]) -> usize
    ensures next { result ≡ length (column_text list.now) }
    ensures leaves { out.new ≡ put_at out.old 0 (column_text list.now) }
{
    let mut text = Text::new(out);
    put_column(&mut text, list);
    text.length()
}
