//! What the items of a stream ask for, by how far the client came.

ghost use Rattle.std.specs.Prelude.{◌≡◌, IfOk};
ghost use Rattle.stanza_model.specs.Nonzas.{nonza_of};
ghost use Rattle.stanza_model.specs.Stanzas.{stanza_of};
ghost use Rattle.conn_asks.specs.Asking.{AsksBinding, AsksCounting, AsksManagement, AsksResume, AsksSasl, AsksStanza, IsIdIn, LeavesExchange};
ghost use Rattle.conn_asks.specs.Asking.{asked_binding, asked_header, asked_stanza, asked_verdict, garbled, refusal};
ghost use Rattle.jid_core.specs.Addresses.{part_of};
ghost use Rattle.jid_core.specs.Preparation.{resource_of};
ghost use Rattle.conn_asks.specs.Logins.{sasl_of};
ghost use Rattle.conn_asks.specs.Requests.{binding_of, header_fault, host_at, user_at};

use crate::asked::Asked;
use crate::binding::{Binding, binding_of, prepared};
use crate::ended::{Ended, ItemFault};
use crate::login::{Exchanging, Verdict, judge, sasl_of};
use crate::requests::{header_fault, is_from};
use crate::stage::Purpose;
use house_model::Event;
use jid_core::Part;
use sm_resume::ResumeId;
use stanza_model::{Nonza, Stanza, StanzaFault};
use stanza_tree::{Element, NoMemory, Text};
use std::alloc::Global;
use std::mem;

fn refusal(fault: ItemFault, number: u64) -> Asked
    ensures { result ≡ refusal fault number }
{
    Asked::End(Ended::BadItem(fault, number))
}

/// A header (RFC 6120, 4.7).
pub fn ask_header(
    alloc: Global,
    domain: &Part,
    root: &Element,
    default_space: &Text,
) -> Result<Asked, NoMemory>
    ensures { IfOk result (λ asked. asked ≡ asked_header (header_fault (host_at domain.now) root.now default_space.now)) }
{
    match header_fault(alloc, domain, root, default_space)? {
        Some(fault) => Ok(Asked::End(Ended::BadHeader(fault))),
        None => Ok(Asked::Header),
    }
}

/// A top element before login. The exchange is used up by its next text.
pub fn ask_login(
    alloc: Global,
    domain: &[u8],
    number: u64,
    exchanging: &mut Exchanging,
    e: &Element,
) -> Result<Asked, NoMemory>
    ensures asks { IfOk result (AsksSasl domain.now number exchanging.old (sasl_of e.now)) }
    ensures left { IfOk result (λ asked. LeavesExchange asked exchanging.old exchanging.new) }
{
    let Some(sasl) = sasl_of(alloc, e)? else {
        return Ok(refusal(ItemFault::NotAuthorized, number));
    };
    let begun = mem::replace(exchanging, Exchanging::Outside);
    Ok(asked_verdict(judge(alloc, domain, begun, &sasl)?))
}

fn asked_verdict(verdict: Verdict) -> Asked
    ensures { result ≡ asked_verdict verdict }
{
    match verdict {
        Verdict::Invites(mechanism) => Asked::Invite(mechanism),
        Verdict::Greets(mechanism, first) => Asked::Draw(Purpose::Challenge(mechanism, first)),
        Verdict::Succeeds(user, success) => Asked::LogIn(user, success),
        Verdict::Fails(failure) => Asked::Fail(failure),
    }
}

/// A top element after login and before binding.
pub fn ask_session(
    alloc: Global,
    line: u32,
    number: u64,
    moment: u64,
    e: &Element,
) -> Result<Asked, NoMemory>
    ensures { IfOk result (AsksBinding line number moment e.now (binding_of e.now)) }
{
    match binding_of(alloc, e)? {
        Some(binding) => asked_binding(alloc, binding),
        None => ask_management(alloc, line, number, moment, e),
    }
}

fn asked_binding(alloc: Global, binding: Binding) -> Result<Asked, NoMemory>
    ensures { IfOk result (λ asked. asked ≡ asked_binding binding.id (part_of resource_of binding.resource)) }
{
    let Binding { id, resource } = binding;
    match prepared(alloc, &resource)? {
        Ok(resource) => Ok(Asked::Draw(Purpose::Bind { id, resource })),
        Err(_) => Ok(Asked::RefuseResource(id)),
    }
}

fn ask_management(
    alloc: Global,
    line: u32,
    number: u64,
    moment: u64,
    e: &Element,
) -> Result<Asked, NoMemory>
    ensures { IfOk result (AsksManagement line number moment e.now (nonza_of e.now)) }
{
    match Nonza::of(alloc, e)? {
        Some(Nonza::Enable { resume }) => Ok(Asked::Draw(Purpose::Enable { resume })),
        Some(Nonza::Resume { previd, h }) => Ok(ask_resume(line, moment, &previd, h)),
        Some(Nonza::Garbled) => Ok(refusal(garbled(e), number)),
        Some(Nonza::Ask) => Ok(refusal(ItemFault::NotAuthorized, number)),
        Some(Nonza::Counted { .. }) => Ok(refusal(ItemFault::NotAuthorized, number)),
        None => Ok(refusal(ItemFault::NotAuthorized, number)),
    }
}

/// The fault of an element of stream management that lacks what it needs: only a `resume` may come before binding.
fn garbled(e: &Element) -> ItemFault
    ensures { result ≡ garbled e.now }
{
    if e.name.local.bytes() == b"resume".as_slice() {
        ItemFault::BadFormat
    } else {
        ItemFault::NotAuthorized
    }
}

fn ask_resume(line: u32, moment: u64, previd: &Text, h: u32) -> Asked
    ensures { AsksResume line moment previd.now h result }
{
    Asked::Submit(Event::Resume {
        w: line,
        id: read_id(previd.bytes()),
        h,
        t: moment,
    })
}

/// The id of a session that a text spells, if it spells one.
fn read_id(previd: &[u8]) -> Option<ResumeId>
    ensures { IsIdIn previd.now result }
{
    ResumeId::read(previd)
}

/// A top element after binding.
pub fn ask_stanza(
    alloc: Global,
    line: u32,
    domain: &Part,
    user: &Part,
    number: u64,
    moment: u64,
    e: Element,
) -> Result<Asked, NoMemory>
    ensures { IfOk result (AsksStanza line (user_at domain.now user.now) number moment e (stanza_of e)) }
{
    let own = is_from(alloc, user, domain, e.attr(b"from"))?;
    let nonza = Nonza::of(alloc, &e)?;
    match Stanza::of(alloc, e) {
        Ok(stanza) => Ok(asked_stanza(line, number, moment, own, stanza)),
        Err(StanzaFault::NoMemory) => Err(NoMemory),
        Err(StanzaFault::Unsupported) => Ok(ask_counting(line, number, moment, nonza)),
    }
}

fn asked_stanza(line: u32, number: u64, moment: u64, own: bool, stanza: Stanza) -> Asked
    ensures { result ≡ asked_stanza line number moment own stanza }
{
    if own {
        Asked::Submit(Event::Act {
            w: line,
            stanza,
            t: moment,
        })
    } else {
        refusal(ItemFault::InvalidFrom, number)
    }
}

fn ask_counting(line: u32, number: u64, moment: u64, nonza: Option<Nonza>) -> Asked
    ensures { AsksCounting line number moment nonza result }
{
    match nonza {
        Some(Nonza::Enable { resume }) => Asked::Draw(Purpose::Enable { resume }),
        Some(Nonza::Resume { previd, h }) => ask_resume(line, moment, &previd, h),
        Some(Nonza::Ask) => Asked::Submit(Event::Ask { w: line }),
        Some(Nonza::Counted { h }) => Asked::Submit(Event::Ack { w: line, h }),
        Some(Nonza::Garbled) => refusal(ItemFault::BadFormat, number),
        None => refusal(ItemFault::UnsupportedStanzaType, number),
    }
}
