// How many words a width has.
ghost use Rattle.std.specs.Prelude.{◌≡◌, ◌≤◌, ◌^◌, ◌-◌};

use mw_base::Width;

/// How many words a width has: one more than the greatest.
pub fn size(width: Width) -> u64
    ensures exact { result ≡ 2 ^ width }
    ensures some { 1 ≤ result }
    ensures most { result ≤ 2 ^ 32 }
{
    1 << width.bits()
}

/// How many words there are of one bit less.
pub fn half(width: Width) -> u64
    ensures exact { result ≡ 2 ^ (width - 1) }
    ensures some { 1 ≤ result }
    ensures most { result ≤ 2 ^ 31 }
{
    1 << (width.bits() - 1)
}
