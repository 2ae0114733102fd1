//! A session of XEP-0198 and a client that counts: what the server has of a session, what may happen to it, and what
//! its client can rely on, whatever is sent, cut or resumed. No house is spoken of here, and no code.
#![tactic(auto)]

pub mod laws;
pub mod stories;
