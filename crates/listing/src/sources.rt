// What the targets of a tier are looked up in.
ghost use Rattle.std.specs.Prelude.{◌≡◌, length};

use records::names::SameNames;
use records::queries::Queries;
use records::rules::Rules;

// The rules, the query records, and which names are the same.
#[derive(Clone, Copy)]
pub struct Sources {
    pub rules: Rules,
    pub queries: Queries,
    pub same: SameNames,
    ghost sixteen: { length queries.list ≡ 16 },
}
