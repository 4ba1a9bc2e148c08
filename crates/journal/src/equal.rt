// When two changes are the same: by call, kind and numbers.
// By functions with contracts of their own, and not by the derived `==`, which stands in other crates: what is compared here can be turned here.
ghost use Rattle.std.specs.Prelude.{◌≡◌};
ghost use Rattle.journal.specs.Compared.{call_eqb, change_eqb, put_eqb};

use engine::{Call, Put};
use lines::Change;

fn same_call(c: Call, d: Call) -> bool
    ensures { result ≡ call_eqb c d }
{
    match (c, d) {
        (Call::Direct, Call::Direct) => true,
        (Call::Console(m), Call::Console(n)) => m == n,
        (Call::Direct, Call::Console(_)) => false,
        (Call::Console(_), Call::Direct) => false,
    }
}

fn same_change(x: Change, y: Change) -> bool
    ensures { result ≡ change_eqb x y }
{
    match x {
        Change::Fit(j) => match y {
            Change::Fit(k) => j == k,
            Change::Unfit(_) => false,
            Change::Set { .. } => false,
        },
        Change::Unfit(j) => match y {
            Change::Fit(_) => false,
            Change::Unfit(k) => j == k,
            Change::Set { .. } => false,
        },
        Change::Set {
            section: j,
            rate: r,
            quarters: q,
            customers: u,
            load: l,
        } => match y {
            Change::Fit(_) => false,
            Change::Unfit(_) => false,
            Change::Set {
                section: k,
                rate: a,
                quarters: b,
                customers: c,
                load: d,
            } => (j == k) & ((r == a) & ((q == b) & ((u == c) & (l == d)))),
        },
    }
}

pub(crate) fn same_put(p: Put, q: Put) -> bool
    ensures { result ≡ put_eqb p q }
{
    same_call(p.call, q.call) & same_change(p.change, q.change)
}
