// The three values as bytes, as C's cells and tables have them: 0 false, 1 there only, 2 here.
#![tactic(auto)]

ghost use Rattle.std.specs.Prelude.{◌≡◌, min, max};
ghost use Rattle.meaning.specs.Three.{imp, negation};

// The value of "u and v".
pub fn lesser(u: u8, v: u8) -> u8
    ensures { result ≡ min u v }
{
    u.min(v)
}

// The value of "u or v".
pub fn greater(u: u8, v: u8) -> u8
    ensures { result ≡ max u v }
{
    u.max(v)
}

// The value of "v where u".
#[tactic(auto, unfolding(meaning::specs::Three::imp))]
pub fn imp(u: u8, v: u8) -> u8
    ensures { result ≡ imp u v }
{
    if u <= v {
        return 2;
    }
    v
}

// The value of "not u".
#[tactic(auto, unfolding(meaning::specs::Three::negation))]
pub fn negation(u: u8) -> u8
    ensures { result ≡ negation u }
{
    if u == 0 {
        return 2;
    }
    0
}
