// Versions, and the ranks that they are attempted at.
ghost use Rattle.std.specs.Prelude.{◌≡◌, ◌∷◌, []};
ghost use Rattle.listing.specs.Listing.{combined, from_http_versions, enabled, is_enabled, rank_of};
ghost use Rattle.listing.specs.Room.{ranked};

use records::endpoints::Rank;
use records::rules::{Version, Versions};

// The combinations of a set of versions: at most two. No pair of Options: `ranked` and `at_ranks` of specs/Room speak of the count.
#[derive(Clone, Copy)]
pub struct Ranks {
    pub count: usize,
    pub first: Rank,
    pub second: Rank,
}

// `ConnectionAttemptHttpVersions::from_http_versions`
pub fn from_http_versions(v: Versions) -> Ranks
    ensures { result ≡ ranked (from_http_versions v) }
{
    let t = combine(v.h2, v.h1);
    if v.h3 {
        let k = t.first;
        return Ranks {
            count: t.count + 1,
            first: Rank::H3,
            second: k,
        };
    }
    t
}

// H2 and H1 into one rank, where there is one.
pub fn combine(h2: bool, h1: bool) -> Ranks
    ensures { result ≡ ranked (combined h2 h1) }
{
    if h2 {
        if h1 {
            return one_rank(Rank::H2OrH1);
        }
        return one_rank(Rank::H2);
    }
    if h1 {
        return one_rank(Rank::H1);
    }
    Ranks {
        count: 0,
        first: Rank::H3,
        second: Rank::H3,
    }
}

fn one_rank(k: Rank) -> Ranks
    ensures { result ≡ ranked (k ∷ []) }
{
    Ranks {
        count: 1,
        first: k,
        second: Rank::H3,
    }
}

pub fn enabled_of(on: Versions, v: Versions) -> Versions
    ensures { result ≡ enabled on v }
{
    Versions {
        h3: on.h3 && v.h3,
        h2: on.h2 && v.h2,
        h1: on.h1 && v.h1,
    }
}

pub fn is_enabled(on: Versions, v: Version) -> bool
    ensures { result ≡ is_enabled on v }
{
    match v {
        Version::H3 => on.h3,
        Version::H2 => on.h2,
        Version::H1 => on.h1,
    }
}

pub fn rank_of(v: Version) -> Rank
    ensures { result ≡ rank_of v }
{
    match v {
        Version::H3 => Rank::H3,
        Version::H2 => Rank::H2,
        Version::H1 => Rank::H1,
    }
}
