//! Makes what a binding or a stanza needs, before anything is changed.
ghost use Rattle.std.specs.Prelude.{◌≡◌, ◌≤◌, Some, [], length, IfOk, IsTrue};
ghost use Rattle.std.specs.Option.{option_copied};
ghost use Rattle.jid_core.specs.Addresses.{address_text};
ghost use Rattle.jid_core.specs.Preparation.{is_local};
ghost use Rattle.house_model.specs.Answers.{answer_text};
ghost use Rattle.house_model.specs.Steps.{resource_or};
ghost use Rattle.sm_resume.specs.Spelling.{hexadecimal};

use house_model::Answer;
use jid_core::{Jid, JidFault, Part};
use sm_resume::digits_of;
use stanza_tree::{NoMemory, Text};
use std::alloc::Global;

/// The one fault that can come where the bytes are known to be right.
fn no_memory(_fault: JidFault) -> NoMemory
    requires { _fault ≡ JidFault.NoMemory }
{
    NoMemory
}

/// The resource that the dice give: their 32 hexadecimal digits.
fn drawn(alloc: Global, dice: &[u8; 16]) -> Result<Part, NoMemory>
    ensures { IfOk result (λ p. p ≡ hexadecimal dice.now) }
{
    let digits = digits_of(dice);
    match Part::resource(alloc, digits.as_slice()) {
        Ok(resource) => Ok(resource),
        Err(fault) => Err(no_memory(fault)),
    }
}

fn resource_of(alloc: Global, resource: Option<&Part>, dice: &[u8; 16]) -> Result<Part, NoMemory>
    ensures { IfOk result (λ p. p ≡ resource_or dice.now (option_copied resource.entry)) }
{
    match resource {
        Some(resource) => resource.copy(alloc),
        None => drawn(alloc, dice),
    }
}

/// The address of a session: the user's at the house's domain, with the resource asked for or drawn.
pub(crate) fn make_address(
    alloc: Global,
    user: &Part,
    house: &Jid,
    resource: Option<&Part>,
    dice: &[u8; 16],
) -> Result<Jid, NoMemory>
    requires { IsTrue (is_local user.now) }
    ensures { IfOk result (λ j. j ≡ record {
      local = Some user.now;
      domain = house.now.domain;
      resource = Some
          (resource_or dice.now (option_copied resource.entry));
    }) }
{
    let local = user.copy(alloc)?;
    let domain = house.domain.copy(alloc)?;
    let resource = resource_of(alloc, resource, dice)?;
    let _prepared = resource.bytes();
    Ok(Jid {
        local: Some(local),
        domain,
        resource: Some(resource),
    })
}

/// The text of an address.
fn text_of(alloc: Global, address: &Jid) -> Result<Text, NoMemory>
    ensures text { IfOk result (λ t. t ≡ address_text address.now) }
    ensures short { length (address_text address.now) ≤ 3071 }
{
    let mut spelt = Vec::new(alloc);
    address.write(&mut spelt)?;
    Ok(Text::of_vec(spelt))
}

/// The answer to a request with this id that made a session of this address.
pub(crate) fn make_bound(alloc: Global, address: &Jid, id: &Text) -> Result<Answer, NoMemory>
    ensures answer { IfOk result (λ a. a ≡ Answer.Bound id.now (address_text address.now)) }
    ensures short { length (address_text address.now) ≤ 3071 }
{
    let jid = text_of(alloc, address)?;
    Ok(Answer::Bound {
        id: id.copy(alloc)?,
        jid,
    })
}
