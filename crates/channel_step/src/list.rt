// A list of orders as bytes, taken apart: each order is followed by its bindings.
ghost use Rattle.std.specs.Prelude.{◌≡◌};
ghost use Rattle.channel_step.specs.Lists.{bytes_after, FindsItem};

use records::check::Malformed;
use records::order::Order;

// Where an order's bytes end, and where its bindings do.
#[derive(Clone, Copy)]
pub struct ItemEnds {
    pub order_end: usize,
    pub end: usize,
}

// How many bytes of bindings follow an order.
pub fn bytes_after(order: Result<Order, Malformed>) -> usize
    ensures { result ≡ bytes_after order }
{
    match order {
        Ok(read) => 8 * (records::order::wanted(read) as usize),
        Err(_) => 0,
    }
}

// The item at byte `at` of a list; past its end there is none.
pub fn item_at(list: &[u8], at: usize) -> ItemEnds
    ensures { FindsItem list.now at result }
{
    if list.len() <= at {
        return ItemEnds {
            order_end: at,
            end: at,
        };
    }
    let order_end = at + (list.len() - at).min(24);
    let bytes = bytes_after(records::order::read_order(&list[at..order_end]));
    ItemEnds {
        order_end,
        end: order_end + (list.len() - order_end).min(bytes),
    }
}
