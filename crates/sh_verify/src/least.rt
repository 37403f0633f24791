ghost use Rattle.std.specs.Prelude.{◌≡◌};
ghost use Rattle.std.specs.Cmp.{IsTotalOrder};
ghost use Rattle.sh_verify.specs.Least.{by_place, earlier, fault_unless, least_of};

use sh_base::{Place, Refusal, Rule};
use std::cmp::Ordering;

/// The earlier of the least refusal so far and another.
fn earlier_refusal(least: Option<Refusal>, refusal: Refusal) -> Option<Refusal>
    ensures { result ≡ earlier by_place least refusal }
{
    match least {
        None => Some(refusal),
        Some(found) => match refusal.cmp(&found) {
            Ordering::Less => Some(refusal),
            Ordering::Equal | Ordering::Greater => Some(found),
        },
    }
}

/// The least of the refusals so far and, unless the rule is kept, its refusal at a place.
pub(crate) fn unless_kept(
    least: Option<Refusal>,
    kept: bool,
    place: Place,
    rule: Rule,
) -> Option<Refusal>
    ensures { result ≡ least_of by_place least (fault_unless kept place rule) }
{
    if kept {
        least
    } else {
        earlier_refusal(least, Refusal { place, rule })
    }
}

/// The law that the order of a type is total.
pub(crate) fn order_is_total<T: Ord>()
    ensures { IsTotalOrder T.cmp }
{}
