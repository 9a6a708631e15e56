// A survey written from its figures.
#![tactic(auto)]

// The kinds of yard records that are written, and their layouts.
pub mod kinds;

// The figures of a survey and of a link.
pub mod survey;

// Short columns made full.
pub mod padding;

// The rules of figures: numbers 3 to 8.
pub mod figures;

// A yard record and a link record, written.
pub mod records;

// The whole survey, or the refusal for bad ends, bad costs or a short output.
pub mod writer;
