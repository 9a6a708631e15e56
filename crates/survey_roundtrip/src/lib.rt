// A survey that is written reads back as its figures, and one that was read is written as it was. Theory alone: definitions and theorems are in
// specs/, and specs/Lib.antt has them in reading order.
#![tactic(auto)]
