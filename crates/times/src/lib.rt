// Asserted times.
#![tactic(auto)]

ghost use Rattle.std.specs.Prelude.{◌≡◌};
ghost use Rattle.octets.specs.Pick.{is_some};
ghost use Rattle.times.specs.Asserted.{asserted_time};

// Whether a value text conforms: a quoted string in the stored form of a time.
pub fn is_time(t: &[u8]) -> bool
    ensures { result ≡ is_some (asserted_time t.now) }
{
    der::legal_time(strings::quoted_part(t))
}
