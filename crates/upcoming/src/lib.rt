#![tactic(auto)]
// What can come next: the query that is wanted, the retry and the endpoint that are next (rules 5.1, 6.3 and 6.4; `send_dns_*`).
pub mod alike;
pub mod classes;
pub mod next;
pub mod wanted;
