// A yard with what is known of it.
use alltrees::listing::Tree;
use alltrees::small::Yard;
use std::alloc::Global;

// A yard, its survey, its trees and its plans.
#[derive(Clone, Copy)]
pub struct Case<'a> {
    pub yard: Yard<'a>,
    pub survey: &'a [u8],
    pub trees: &'a [Tree],
    pub plans: &'a [&'a Tree],
    pub alloc: Global,
}
