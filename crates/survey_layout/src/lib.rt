// The layouts of surveys: a row for each yard mark.
#![tactic(auto)]

// Where the fields of a record stand.
pub mod fields;

// The table of layouts, the one that a survey has, and the rule of lengths, number 1.
pub mod layout;

// The records of a survey of a fitting length.
pub mod records;
