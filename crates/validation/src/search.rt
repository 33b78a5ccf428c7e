// The search for the first clash: records by rising end time, accounts rising, both left at the first clash.
ghost use Rattle.std.specs.Prelude.{◌≡◌};
ghost use Rattle.rules.specs.Card.{IsAccount};
ghost use Rattle.rules.specs.Table.{kind_of};
ghost use Rattle.rules.specs.Sound.{IsLiveAction, Sound};
ghost use Rattle.rules.specs.Clash.{is_clash, first_clash};
ghost use Rattle.rows.specs.Row.{HasRow};
ghost use Rattle.rows.specs.Times.{IsTime};
ghost use Rattle.validation.specs.FirstRead.{first_read};

use crate::records::next_record;
use rows::fields::{has_read, has_written, kind_of, parent};
use rows::times::{Time, counter, end_of, read_before_end, sooner_read};
use rules::Found;
use rules::store::ACCOUNTS;

fn is_clash(table: &[u64], n: u64, m: u64, k: u64) -> bool
    requires has_row { HasRow table.now n }
    requires has_row_2 { HasRow table.now m }
    requires account { IsAccount k }
    ensures { result ≡ is_clash table.now n m k }
{
    has_written(table, m, k) && has_read(table, n, k) && read_before_end(table, n, m, k)
}

// Of n's kind, as the records of its parent are.
fn first_read(table: &[u64], n: u64) -> Time
    requires has_row { HasRow table.now 0 }
    requires has_row_2 { HasRow table.now n }
    ensures { IsTime result (kind_of table.now n)
        (first_read table.now (kind_of table.now n) n) }
{
    let latest = counter(table, kind_of(table, n));
    (0..ACCOUNTS).fold(latest, |first, k| sooner_read(table, n, k, first))
}

// The search begins with what ended after n's first read. Labelled loops, and no find: docs/DECISIONS.md says why.
pub(crate) fn first_clash(table: &[u64], n: u64) -> Option<Found>
    requires sound { Sound table.now }
    requires live_action { IsLiveAction table.now n }
    ensures { result ≡ first_clash table.now n }
{
    let p = parent(table, n);
    let mut last = first_read(table, n);
    'records: loop {
        let Some(m) = next_record(table, p, last) else {
            break 'records None;
        };
        last = end_of(table, m);
        for k in 0..ACCOUNTS {
            if is_clash(table, n, m, k) {
                break 'records Some(Found {
                    against: u64::from(last),
                    account: k,
                });
            }
        }
    }
}
