//! What holds of every part and every address: the contract is the law, and the body is empty.
ghost use Rattle.std.specs.Prelude.{◌≡◌, List, ℕ, Ok, IsTrue};
ghost use Rattle.jid_core.specs.Addresses.{Address, is_prepared, address_text, address_of};
ghost use Rattle.jid_core.specs.Preparation.{is_local, is_domain, is_resource, local_of, domain_of, resource_of};

/// Preparation gives prepared parts.
pub fn read_parts_are_prepared()
    ensures local { (bytes p : List ℕ) → local_of bytes ≡ Ok p → IsTrue (is_local p) }
    ensures domain { (bytes p : List ℕ) → domain_of bytes ≡ Ok p → IsTrue (is_domain p) }
    ensures resource { (bytes p : List ℕ) → resource_of bytes ≡ Ok p → IsTrue (is_resource p) }
{}

/// Preparation leaves a prepared part as it is.
pub fn prepared_parts_stay()
    ensures local { (p : List ℕ) → IsTrue (is_local p) → local_of p ≡ Ok p }
    ensures domain { (p : List ℕ) → IsTrue (is_domain p) → domain_of p ≡ Ok p }
    ensures resource { (p : List ℕ) → IsTrue (is_resource p) → resource_of p ≡ Ok p }
{}

/// A prepared local part and a prepared domain are prepared resources too.
pub fn prepared_parts_are_resources()
    ensures local { (p : List ℕ) → IsTrue (is_local p) → IsTrue (is_resource p) }
    ensures domain { (p : List ℕ) → IsTrue (is_domain p) → IsTrue (is_resource p) }
{}

/// What a prepared address is written as reads as that address.
pub fn written_addresses_are_read()
    ensures { (a : Address) → IsTrue (is_prepared a) → address_of (address_text a) ≡ Ok a }
{}
