// What the loads of a sheet go by, in whole numbers.

#![tactic(auto)]

ghost use Rattle.std.specs.Prelude.{◌≤◌, ◌≡◌};
ghost use Rattle.statics.specs.Inner.Computed.{share_twentieths, load_rule_by};

use sheet::Head;
use statics::LoadRule;

// The share of F that a tier's own top takes, in twentieths: 0.45 by the class rule, half by the fleet standard.
const CLASS_SHARE: u64 = 9;

const FLEET_SHARE: u64 = 10;

// The share by the rule number.
pub fn share_of(number: u8) -> u64
    ensures { (result ≡ share_twentieths number) × (result ≤ 20) }
{
    if number == 2 {
        return FLEET_SHARE;
    }
    CLASS_SHARE
}

// What the loads of a sheet go by, from its head: the share of its rule number, and the route factor.
pub fn rule_of(head: Head) -> LoadRule
    requires { head.route ≤ 12 }
    ensures { (result ≡ load_rule_by head) × (result.share ≤ 20) × (result.factor ≤ 1000) }
{
    LoadRule {
        share: share_of(head.rule),
        factor: 10 * sheet::route_percent(head.route),
    }
}
