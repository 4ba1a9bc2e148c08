//! Repair hours, as a binary64 number, turned into minutes without rounding.
#![tactic(auto)]

ghost use Rattle.std.specs.Prelude.{◌≡◌, ℕ, ◌*◌, MatchOption};
ghost use Rattle.hours.specs.Quarters.{Quarters};

use std::num::saturating_f64_to_u16;

/// Returns the minutes in `hours`, or `None` unless `hours` is exactly a whole
/// count of quarter hours from 1 to 672.
///
/// Any `f64` may be passed: a negative number, an infinity and a NaN are
/// answered by `None`.
// A function and no `TryFrom`: a time out is a plain number all over, and `f64` is not the repository's to convert.
pub fn minutes(hours: f64) -> Option<u16>
    ensures { MatchOption result ((q : ℕ) → Quarters hours q → ⊥) (λ m. (q : ℕ) × Quarters hours q × (m ≡ 15 * q)) }
{
    let quarters = hours * 4.0;
    if 1.0 <= quarters && quarters <= 672.0 {
        // The cast drops a fraction, so that the comparison tells whether there was one.
        let count = saturating_f64_to_u16(quarters);
        if f64::from(count) == quarters {
            return Some(count * 15);
        }
    }
    None
}
