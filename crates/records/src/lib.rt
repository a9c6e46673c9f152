// The records of the scope as bytes: bindings, instructions and orders, read, written, and refused by place.
#![tactic(auto)]

ghost use Rattle.records.specs.Flaws.{BadBindingsAreTold};
ghost use Rattle.records.specs.ReadBack.{RecordsReadBack};

pub mod bytes; // little-endian numbers in slices
pub mod check; // the answer of a check
pub mod binding; // binding records
pub mod context; // contexts, and what is bad in one
pub mod name; // labels and names by their numbers
pub mod code; // instruction records
pub mod number; // the codes' numbers, for records made in bulk
pub mod order; // order records
pub mod register; // registers as the processor encodes them

// Records that are written are read back the same, and what is read, written again, gives the same bytes.
pub fn records_read_back()
    ensures { RecordsReadBack }
{}

// What is told of a context is the earliest that is bad in it: its length, then a binding's mark, then its kind or zero byte; all else is accepted.
pub fn bad_bindings_are_told()
    ensures { BadBindingsAreTold }
{}
