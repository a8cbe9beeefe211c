//! The least entry that breaks a rule.
ghost use Rattle.std.specs.Prelude.{◌≡◌, ◌≤◌};
ghost use Rattle.log_order.specs.Least.{is_before as comes_before, least_with};

use crate::orderly::Leg;

fn is_before(a: Leg, b: Leg) -> bool
    ensures { result ≡ comes_before a b }
{
    a.hart < b.hart || (a.hart == b.hart && a.entry < b.entry)
}

/// The least so far, after an entry that may break the rule.
pub(crate) fn lesser(best: Option<Leg>, leg: Leg, breaks: bool) -> Option<Leg>
    ensures { result ≡ least_with breaks best leg }
{
    match best {
        _ if !breaks => best,
        Some(least) if !is_before(leg, least) => best,
        _ => Some(leg),
    }
}
