//! An order is carried out.
ghost use Rattle.std.specs.Prelude.{◌≡◌};
ghost use Rattle.dc_answer.specs.Judging.{Leaves};
ghost use Rattle.dc_command.specs.Asked.{IsInRange};
ghost use Rattle.dc_device.specs.States.{CanFail, IsCountable};
ghost use Rattle.dc_program.specs.Carries.{Carries};
ghost use Rattle.dc_program.specs.Headline.{DecidesFiles};
ghost use Rattle.dc_program.specs.Orders.{AsksInput};
ghost use Rattle.dc_program.specs.World.{IsNew};

use crate::crews::ByThreads;
use crate::designs::{design, layout};
use crate::digests::{check_digest, check_digest_by};
use crate::engines::{
    audit, bench, check, check_by, decode, explain, find, network, network_by, network_page,
    observe, replay, survey, trace,
};
use crate::optional::{margins, page, page_observed};
use crate::world::World;
use dc_answer::Exit;
use dc_command::Order;
use dc_device::{Sink, Source};
use dc_run_design::Plan;
use dc_run_margins::Telling;
use std::alloc::Global;

/// Opens the files that an order names, and runs its engine over them.
fn obey<'a, W: World<'a>, S: Source, K: Sink, H: ByThreads>(
    alloc: Global,
    threads: &H,
    world: &mut W,
    input: &mut S,
    sink: &mut K,
    order: Order<'a>,
) -> Exit
    requires may { H.may_start threads.now }
    requires range { IsInRange order }
    requires new { IsNew (W.state world.old) }
    requires input { IsCountable (S.state input.old) }
    requires sink { CanFail (K.state sink.old) }
    ensures carries { Carries order.entry (W.state world.old) (W.state world.new) (S.state input.old) (S.state input.new) (K.state sink.old)
        (K.state sink.new) result }
    ensures asks { AsksInput order.entry (S.state input.old) (S.state input.new) }
    ensures left { Leaves (K.state sink.old) (K.state sink.new) }
{
    match order {
        Order::Decode(format) => decode(world, input, sink, format),
        Order::Check {
            tables,
            certificate,
            workers: None,
            digest: false,
        } => check(alloc, world, sink, tables, certificate),
        Order::Check {
            tables,
            certificate,
            workers: None,
            digest: true,
        } => check_digest(alloc, world, sink, tables, certificate),
        Order::Check {
            tables,
            certificate,
            workers: Some(workers),
            digest: false,
        } => check_by(threads, world, sink, tables, certificate, workers),
        Order::Check {
            tables,
            certificate,
            workers: Some(workers),
            digest: true,
        } => check_digest_by(threads, world, sink, tables, certificate, workers),
        Order::Explain { code } => explain(alloc, world, sink, code),
        Order::Find { tables } => find(alloc, world, sink, tables),
        Order::Layout { tables } => layout(alloc, world, sink, tables),
        Order::Report {
            tables,
            certificate,
            drift,
        } => page(alloc, world, sink, tables, certificate, drift),
        Order::ReportObserved {
            tables,
            certificate,
            observed,
            drift,
        } => page_observed(alloc, world, sink, tables, certificate, observed, drift),
        Order::Margins {
            tables,
            certificate,
            microseconds,
            drift,
            json,
        } => {
            let told = Telling {
                json,
                microseconds,
                drift,
            };
            margins(alloc, world, sink, tables, certificate, told)
        }
        Order::Network {
            system,
            workers: None,
        } => network(alloc, world, sink, system),
        Order::Network {
            system,
            workers: Some(workers),
        } => network_by(threads, world, sink, system, workers),
        Order::ReportNetwork { system } => network_page(alloc, world, sink, system),
        Order::Survey { tables } => survey(alloc, world, input, sink, tables),
        Order::Trace { tables, from } => trace(alloc, world, input, sink, tables, from),
        Order::Replay { tables, all, long } => {
            replay(alloc, world, input, sink, tables, all, long)
        }
        Order::Audit {
            tables,
            certificate,
            long,
        } => audit(alloc, world, input, sink, tables, certificate, long),
        Order::Observe {
            tables,
            certificate,
        } => observe(alloc, world, input, sink, tables, certificate),
        Order::Design {
            inputs,
            outputs,
            tick,
            headroom,
            police,
            certificate,
        } => {
            let plan = Plan {
                tick,
                headroom,
                police,
            };
            design(alloc, world, sink, inputs, outputs, plan, certificate)
        }
        Order::Bench {
            tables,
            certificate,
            ticks,
            marks,
        } => bench(threads, world, sink, tables, certificate, ticks, marks),
    }
}

/// Carries an order out in a world that was asked for nothing yet.
///
/// Its files are opened in the order in which it names them, and no others; then its engine runs over what they hold,
/// and over standard input where it reads that, with the order's flags and numbers, and threads are asked for where it
/// says so. Where a file could not be opened, `failed device`, or `failed memory` where memory was refused, was written
/// and nothing else, the exit is `Failed`, no file behind it was opened and standard input was not read. A push or flush
/// that failed is the last call of the sink.
///
/// Of `check`: where the texts of both files are known it ends `Done` only where they are those of tables and of a
/// certificate that is accepted for them, and then the line `accepted ..` alone was written, or behind it the digests of
/// both texts where they are told, and the certificate keeps its claims in every admissible run of the tables; and it ends
/// neither `Done` nor `Failed` only where they are not.
pub fn carry_out<'a, W: World<'a>, S: Source, K: Sink, H: ByThreads>(
    alloc: Global,
    threads: &H,
    world: &mut W,
    input: &mut S,
    sink: &mut K,
    order: Order<'a>,
) -> Exit
    requires may { H.may_start threads.now }
    requires range { IsInRange order }
    requires new { IsNew (W.state world.old) }
    requires input { IsCountable (S.state input.old) }
    requires sink { CanFail (K.state sink.old) }
    ensures carries { Carries order.entry (W.state world.old) (W.state world.new) (S.state input.old) (S.state input.new) (K.state sink.old)
        (K.state sink.new) result }
    ensures decides { DecidesFiles order.entry (W.state world.old) (K.state sink.old) (K.state sink.new) result }
    ensures asks { AsksInput order.entry (S.state input.old) (S.state input.new) }
    ensures left { Leaves (K.state sink.old) (K.state sink.new) }
{
    obey(alloc, threads, world, input, sink, order)
}
