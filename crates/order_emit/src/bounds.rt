// How many records and labels an order has at most, so that it is written in one pass where there are as many to be had.
ghost use Rattle.std.specs.Prelude.{◌≡◌, ◌≤◌};
ghost use Rattle.emit.specs.Answers.{ample};
ghost use Rattle.layout.specs.Config.{Supported};
ghost use Rattle.order_emit.specs.Bounds.{most_records, most_labels, handled};

use code::emitters;
use layout::config::Shape;
use memory::block::{ERASE_LABELS, ERASE_RECORDS, SHARE_LABELS, SHARE_RECORDS};
use records::order::Order;

// Whether the labels left and an output of so many bytes are enough for an order on k variables, whatever their kinds.
pub fn order_ample(g: Shape, counter: u64, room: usize, k: u64, order: Order) -> bool
    requires { (k ≤ 4096) × (handled order ≤ 4096) × Supported g }
    ensures { result ≡ ample counter room (most_labels order) (most_records g k order) }
{
    match order {
        Order::Put(_) => emit::answer::ample(counter, room, 0, 1),
        Order::Compute(_, _, _) => emit::answer::ample(counter, room, 0, emitters::MOST_RECORDS),
        Order::Copy(_, n) => emit::answer::ample(
            counter,
            room,
            SHARE_LABELS,
            4 * (n as u64) + SHARE_RECORDS,
        ),
        Order::Drop => emit::answer::ample(counter, room, ERASE_LABELS, ERASE_RECORDS),
        Order::Store(n, _) => {
            let v = k.saturating_sub(n as u64);
            memory_bounds::store_ample(g, counter, room, v, n as u64, 1)
        }
        Order::Load(n) => memory_bounds::load_ample(g, counter, room, n as u64),
        Order::Print(_, _) => emit::answer::ample(counter, room, 0, print_i64::code::MOST_RECORDS),
    }
}
