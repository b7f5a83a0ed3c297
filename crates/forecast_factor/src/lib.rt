// The factor of a short voyage by its forecast (document 02, P9), found by halving and without a root.

#![tactic(auto)]

ghost use Rattle.std.specs.Prelude.{◌≡◌, ◌+◌, ◌≤◌, ◌<◌};
ghost use Rattle.forecast_factor.specs.Factor.{factor};
ghost use Rattle.forecast_factor.specs.Inner.Search.{Between, Halved};

// The search as far as it has come: the factor is one of `least` to `most`, and so many comparisons were made.
#[derive(Clone, Copy)]
struct Search {
    least: u64,
    most: u64,
    compared: u64,
}

// The factor in thousandths, and how many comparisons found it.
#[derive(Clone, Copy)]
pub struct Found {
    pub factor: u64,
    pub compared: u64,
}

// One comparison, of the middle of what is left; it is counted here, where it is made.
fn halve(h: u64, b: u64, at: Search) -> Search
    requires h_bound { (h ≤ 65535) × (b ≤ 65535) × (at.least < at.most) × (at.compared < 9) }
    requires between { Between h b at.least at.most × Halved at.least at.most at.compared }
    ensures between_2 { Between h b result.least result.most × Halved result.least result.most result.compared }
    ensures least_bound { (result.most + at.least < at.most + result.least) × (result.compared ≡ at.compared + 1) }
{
    let compared = at.compared + 1;
    let middle = (at.least + at.most) / 2;
    let above = middle - 400;
    if 2500 * (h * h) <= above * above * b {
        return Search {
            least: at.least,
            most: middle,
            compared: compared,
        };
    }
    Search {
        least: middle + 1,
        most: at.most,
        compared: compared,
    }
}

// The factor from wave height and breadth in cm, breadth not zero; at most 9 comparisons find it.
pub fn factor_of(wave: u16, breadth: u16) -> Found
    requires { 0 < breadth }
    ensures factor_value { (result.factor ≡ factor wave breadth) × (result.compared ≤ 9) }
    ensures le_factor { (600 ≤ result.factor) × (result.factor ≤ 1000) }
{
    let h = wave as u64;
    let b = breadth as u64;
    let mut at = Search {
        least: 600,
        most: 1000,
        compared: 0,
    };
    // no count: the halvings that it takes are found here
    while at.least < at.most {
        at = halve(h, b, at);
    }
    Found {
        factor: at.least,
        compared: at.compared,
    }
}
