// The types that a table describes: the tags that each row can begin with.
#![tactic(auto)]

ghost use Rattle.std.specs.Prelude.{◌≡◌, ◌<◌, ◌^◌};
ghost use Rattle.der.specs.Tag.{tag_of};
ghost use Rattle.types.specs.Inner.Work as work;

// ---- sets of tags: bit n for universal n, bit 32 + n for context n
// The set of tag n alone.
pub fn bit(n: u8) -> u64
    requires { n < 64 }
    ensures { result ≡ 2 ^ n }
{
    1u64 << n
}

// The set of context tag n alone.
pub fn context_bit(n: u8) -> u64
    ensures { result ≡ work.context_bit n }
{
    if n < 32 {
        return bit(32 + n);
    }
    0
}

// Whether a set has the tag of an octet.
pub fn has_tag(set: u64, o: u8) -> bool
    ensures { result ≡ work.bit_of set (tag_of o) }
{
    let tag = der::tag_of(o);
    (set >> tag) & 1 == 1
}
