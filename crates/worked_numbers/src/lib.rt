// The scope's worked numbers, those that it asks to be proved: one table, one theorem; and those of the frame of 512 spills and of the second edition.
#![tactic(auto)]

ghost use Rattle.worked_numbers.specs.Worked.{WorkedNumbers, WorkedNumbersOfLarger, WorkedNumbersOfSecond};

pub fn worked_numbers()
    ensures { WorkedNumbers }
{}

pub fn worked_numbers_of_larger()
    ensures { WorkedNumbersOfLarger }
{}

pub fn worked_numbers_of_second()
    ensures { WorkedNumbersOfSecond }
{}
