// Numbers for buckets.
ghost use Rattle.std.specs.Prelude.{◌≡◌};
ghost use Rattle.mw_dd.specs.Hash.{scattered, scattered_near, scattered_behind};

// What each of three numbers is multiplied by: 2^64 over the golden ratio, and primes that xxHash has.
const FIRST: u64 = 0x9e37_79b9_7f4a_7c15;

const SECOND: u64 = 0xc2b2_ae3d_27d4_eb4f;

const THIRD: u64 = 0x1656_67b1_9e37_79f9;

/// A number that depends on each bit of three others.
#[tactic(auto, unfolding(crate::specs::Hash::scattered))]
pub(crate) fn scatter(a: u64, b: u64, c: u64) -> u32
    ensures { result ≡ scattered a b c }
{
    let sum = a
        .wrapping_mul(FIRST)
        .wrapping_add(b.wrapping_mul(SECOND))
        .wrapping_add(c.wrapping_mul(THIRD));
    (sum >> 32) as u32
}

/// How many numbers make a group whose buckets lie together: as many as heads fill a page of memory.
const GROUP: u32 = 1024;

/// A number that depends on each bit of three others. Where these differ in the last alone, and the two are of one
/// group, so are the results, and they differ too. An operation goes through nodes about in the order in which they
/// were made, so that buckets that lie together are asked one soon after another, and are still in the cache.
#[tactic(auto, unfolding(crate::specs::Hash::scattered_near))]
pub(crate) fn scatter_near(a: u64, b: u64, near: u32) -> u32
    ensures { result ≡ scattered_near a b near }
{
    scatter(a, b, u64::from(near / GROUP)) ^ near % GROUP
}

/// How far apart the buckets of nodes lie that have the same later branch: as many as heads fill eight pages of memory.
const SPREAD: u32 = 8192;

/// A number that depends on each bit of three others, and lies near twice a place. Where places lie near one another, so
/// do the results. An operation makes a node soon after its branches, so that the buckets that it asks for move slowly
/// through the heads, and are still in the cache.
#[tactic(auto, unfolding(crate::specs::Hash::scattered_behind))]
pub(crate) fn scatter_behind(a: u64, b: u64, c: u64, place: u32) -> u32
    ensures { result ≡ scattered_behind a b c place }
{
    place.wrapping_mul(2) ^ scatter(a, b, c) % SPREAD
}
