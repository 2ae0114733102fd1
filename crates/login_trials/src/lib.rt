//! Logins, lists of accounts and resumed streams, as tables of values from outside or by hand: tests of `hmac_kdf`, `scram_core`, `account_book`,
//! `sm_counters`, `sm_queue` and `sm_resume` by their public calls. They stand apart from these crates, since a crate with tests is proved twice.
#![tactic(auto)]

#[cfg(test)]
mod account_lists;
#[cfg(test)]
mod counts;
#[cfg(test)]
mod exchanges;
#[cfg(test)]
mod keyed_hashes;
#[cfg(test)]
mod login_texts;
#[cfg(test)]
mod queues;
#[cfg(test)]
mod resumptions;
