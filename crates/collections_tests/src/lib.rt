//! Tests of the collections built on the ordered arena (`agenda`, `timeline` and `order_book`) from a dependent program's view: worked
//! examples, every sequence of a few orders, refused memory, and facts that no clause states.
#![tactic(auto)]

#[cfg(test)]
mod agendas;
#[cfg(test)]
mod examples;
#[cfg(test)]
mod order_books;
#[cfg(test)]
mod support;
#[cfg(test)]
mod timelines;
