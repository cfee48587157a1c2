//! The order file of a call.

ghost use Rattle.std.specs.Prelude.{◌≡◌, ◌≤◌, ◌<◌, ◌^◌, IfErr, IfOk, length};
ghost use Rattle.text_spec.specs.OrderLine.{IsOrder, order_of};
ghost use Rattle.call_files.specs.Inputs.{IsFile, IsInputStatus, IsJudged, OrderIs, Tells, TellsReads, order_in};

use crate::input::read_input;
use enc_outside::Shelf;
use order_text::{Order, OrderRefusal, order_lines_are_read, read_order};
use report_text::Status;
use std::alloc::Global;

/// How many bytes an order file may have.
const ORDER_LIMIT: usize = 4_194_304;

/// The order that bytes are.
fn judge_order(alloc: Global, bytes: &[u8], quotas: &[u32]) -> Result<Order, Status>
    requires short { length bytes.now < 2 ^ 32 }
    requires few { length quotas.now < 2 ^ 32 }
    ensures judged { IsJudged (λ order. order) (order_in (order_of quotas.now bytes.now)) result }
    ensures order { IfOk result (IsOrder quotas.now) }
    ensures status { IfErr result (IsInputStatus (λ n. ⊥)) }
{
    order_lines_are_read();
    match read_order(alloc, bytes, quotas) {
        Ok(order) => Ok(order),
        Err(OrderRefusal::BadPlace(place)) => Err(Status::BadOrder(place)),
        Err(OrderRefusal::NoMemory) => Err(Status::NoMemory),
    }
}

/// The order of an input file. An `Err` is the status at which the call ends.
pub fn order_in_file<H: Shelf>(
    alloc: Global,
    shelf: &mut H,
    name: &str,
    quotas: &[u32],
) -> Result<Order, Status>
    requires few { length quotas.now < 2 ^ 32 }
    ensures tells { Tells (λ order. order) (OrderIs quotas.now name.now) (IsFile name.now)
        (H.files shelf.old) (H.read_faults shelf.old) (H.read_faults shelf.new) result }
    ensures order { IfOk result (IsOrder quotas.now) }
    ensures status { IfErr result (IsInputStatus (λ n. n ≡ name.now)) }
    ensures files { H.files shelf.new ≡ H.files shelf.old }
    ensures read_faults { H.read_faults shelf.old ≤ H.read_faults shelf.new }
    ensures told_reads { TellsReads (H.read_faults shelf.old) (H.read_faults shelf.new) result }
    ensures write_faults { H.write_faults shelf.new ≡ H.write_faults shelf.old }
{
    let bytes = read_input(alloc, shelf, name, ORDER_LIMIT)?;
    judge_order(alloc, &bytes, quotas)
}
