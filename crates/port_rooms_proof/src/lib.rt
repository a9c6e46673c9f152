// The sizes of buffers that include/axcut.h recommends for each edition and frame are enough, and nothing less is.
// Each promise is the claim of a function that does nothing: its statement is in specs/Claims.antt, and its proof cites the theorem.
#![tactic(auto)]

ghost use Rattle.port_rooms_proof.specs.Claims.{ListingsFill, ListingsFit, OperationsFit, OrdersAtOnce, OrdersFill, OrdersFit, RoomsByShape, RoutinesFit};

// no order on as many variables as have positions is refused for want of room
pub fn orders_fit()
    ensures { OrdersFit }
{}

// and with a byte less one is
pub fn orders_fill()
    ensures { OrdersFill }
{}

// in that room every order is written in one pass
pub fn orders_at_once()
    ensures { OrdersAtOnce }
{}

// and operations in their own, whose sizes are these
pub fn operations_fit()
    ensures { OperationsFit }
{}

// how many those are and how much room that is, for each edition and frame
pub fn rooms_by_shape()
    ensures { RoomsByShape }
{}

// no listing of at most 2,730 records is refused for want of room
pub fn listings_fit()
    ensures { ListingsFit }
{}

// and with a byte less one is
pub fn listings_fill()
    ensures { ListingsFill }
{}

// no routine is refused for want of room on 65,536 records
pub fn routines_fit()
    ensures { RoutinesFit }
{}
