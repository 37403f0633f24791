ghost use Rattle.std.specs.Prelude.{◌≡◌};
ghost use Rattle.std.specs.Cmp.{IsTotalOrder};
ghost use Rattle.sh_admission.specs.Found.{fault_of};
ghost use Rattle.sh_admission.specs.Least.{by_place, earlier, least_of};

use sh_base::{Place, Refusal, Rule};
use std::cmp::Ordering;

/// The earlier of the least refusal so far and another.
fn earlier_refusal(least: Option<Refusal>, refusal: Refusal) -> Option<Refusal>
    ensures { result ≡ earlier by_place least refusal }
{
    match least {
        None => Some(refusal),
        Some(found) => match refusal.cmp(&found) {
            Ordering::Less => Some(refusal),
            Ordering::Equal | Ordering::Greater => Some(found),
        },
    }
}

/// The least of the refusals so far and of that of a rule at a place, if it is broken.
pub(crate) fn with_broken(
    least: Option<Refusal>,
    place: Place,
    broken: Option<Rule>,
) -> Option<Refusal>
    ensures { result ≡ least_of by_place least (fault_of place broken) }
{
    match broken {
        None => least,
        Some(rule) => earlier_refusal(least, Refusal { place, rule }),
    }
}

/// The law that the order of a type is total.
pub(crate) fn order_is_total<T: Ord>()
    ensures { IsTotalOrder T.cmp }
{}
