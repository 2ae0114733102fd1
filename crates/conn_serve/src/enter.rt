//! Enters events at a desk.

ghost use Rattle.std.specs.Prelude.{◌≡◌, ◌≤◌, ◌+◌, vec_capacity, vec_len};
ghost use Rattle.house_model.specs.Histories.{Meets, line_of};
ghost use Rattle.turn_lock.specs.Histories.{StartsWith};
ghost use Rattle.hall.specs.Desks.{marked_by};
ghost use Rattle.conn_serve.specs.Entering.{Gives};

use hall::{Desk, DeskFault};
use house_model::{Event, Reply};
use outside::Link;
use std::sync::Wait;

/// The most lines that the house notes, and so how often it is asked for one.
const MOST_LINES: u32 = 16_384;

/// Enters an event of the pass's line; the text of a frame that is pulled comes last in `out`.
#[tactic(auto, using(crate::proofs::Entering::gives_none))]
pub(crate) fn enter<W: Wait, D: Desk>(
    rt: &W,
    desk: &D,
    pass: &mut D::Pass,
    event: &Event,
    out: &mut Vec<u8>,
) -> Result<Reply, DeskFault>
    requires pass { D.came_from desk.now pass.old }
    requires line { line_of event.now ≡ D.line pass.old }
    requires meets { Meets event.now }
    requires room { vec_len out.old + 524288 ≤ vec_capacity out.old }
    ensures pass { D.came_from desk.now pass.new }
    ensures line { D.line pass.new ≡ D.line pass.old }
    ensures history { StartsWith (D.seen pass.new) (D.seen pass.old) }
    ensures gives { Gives (D.line pass.old) event.now out.old.items out.new.items result (D.seen pass.old) (D.seen pass.new) }
    ensures mark { D.marked pass.new ≡ marked_by result (D.marked pass.old) }
{
    match event {
        Event::OpenLine { .. } => desk.open_line(rt, pass),
        Event::Login { user, .. } => desk.login(rt, pass, user),
        Event::Bind {
            id,
            resource,
            t,
            dice,
            ..
        } => desk.bind(rt, pass, id, resource.as_ref(), *t, *dice),
        Event::Enable { resume, dice, .. } => desk.enable(rt, pass, *resume, *dice),
        Event::Resume { id, h, t, .. } => desk.resume(rt, pass, id.as_ref(), *h, *t),
        Event::Act { stanza, t, .. } => desk.act(rt, pass, stanza, *t),
        Event::Ack { h, .. } => desk.ack(rt, pass, *h),
        Event::Ask { .. } => desk.ask(rt, pass),
        Event::Pull { t, .. } => desk.pull(rt, pass, *t, out),
        Event::DropLine { t, .. } => desk.drop_line(rt, pass, *t),
        Event::CloseLine { t, .. } => desk.close_line(rt, pass, *t),
        Event::Sweep { t, .. } => desk.sweep(rt, pass, *t),
    }
}

/// Rings the lines that may have something to pull now, the link's own among them: an event of another line may have noted it since this one
/// last pulled.
pub(crate) fn ring_stirred<D: Desk, L: Link>(desk: &D, link: &mut L)
    ensures tape { L.tape link.new ≡ L.tape link.old }
    ensures faults { L.faults link.new ≡ L.faults link.old }
    ensures ends { L.ends link.new ≡ L.ends link.old }
    ensures laters { L.laters link.new ≡ L.laters link.old }
{
    for _ in 0..MOST_LINES {
        let Some(line) = desk.next_stirred() else {
            return;
        };
        link.ring(line);
    }
}
