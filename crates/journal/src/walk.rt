// Two lists walked together, section by section.
ghost use Rattle.std.specs.Prelude.{◌≡◌, ℕ, ◌≤◌, true, false, length};
ghost use Rattle.engine.specs.Changes.{named};
ghost use Rattle.engine.specs.Logs.{naming, Same};
ghost use Rattle.journal.specs.Compared.{listb, Settles, Next, Covers};

use crate::equal::same_put;
use engine::Put;
use lines::Change;

fn section_of(x: Change) -> u32
    ensures { result ≡ named x }
{
    match x {
        Change::Fit(k) => k,
        Change::Unfit(k) => k,
        Change::Set { section, .. } => section,
    }
}

// The first change of section k from place i on, or the list's length.
fn next_of(a: &[Put], from: usize, k: u32) -> usize
    requires { from ≤ length a.now }
    ensures { Next k a.now from result }
{
    let mut i = from;
    while i < a.len() {
        if section_of(a[i].change) == k {
            return i;
        }
        i += 1;
    }
    i
}

// Whether both lists hold the same changes of section k, in the same order.
fn same_at(a: &[Put], b: &[Put], k: u32) -> bool
    ensures { result ≡ listb (naming k a.now) (naming k b.now) }
{
    let mut i = 0;
    let mut j = 0;
    'walk: loop {
        let x = next_of(a, i, k);
        let y = next_of(b, j, k);
        if x >= a.len() {
            return y >= b.len();
        }
        if y >= b.len() {
            return false;
        }
        if !same_put(a[x], b[y]) {
            return false;
        }
        i = x + 1;
        j = y + 1;
    }
}

// Whether the lists agree at each section that a change of `of` names.
fn agree_on(of: &[Put], a: &[Put], b: &[Put]) -> bool
    ensures { Covers of.now a.now b.now result }
{
    of.iter().all(|p| same_at(a, b, section_of(p.change)))
}

/// Tells whether two recorded lists hold, for every section number, the same changes that name it in the same order.
///
/// Where they do, any two logs from one archive with these changes, whatever lies between, give the same answers to them and end on
/// one feeder.
pub fn same_changes(a: &[Put], b: &[Put]) -> bool
    ensures yes { result ≡ true → Same a.now b.now }
    ensures no { result ≡ false → Same a.now b.now → ⊥ }
    ensures settles { result ≡ true → Settles a.now b.now }
{
    agree_on(a, a, b) && agree_on(b, a, b)
}
