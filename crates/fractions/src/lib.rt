// Exact numbers: whole numbers of parts of a cell edge, and ratios in lowest terms.
//
// Promises to the crates above: sums and multiples of parts are exact, a `Ratio` is the one fraction in lowest
// terms, its text is read and written exactly, and a quotient or a greatest common divisor is exact.
#![tactic(auto)]

mod euclid;
mod laws;
mod part;
mod quotients;
mod ratio;
mod read;
#[cfg(test)]
mod tests;
mod write;

pub use euclid::greatest_common_divisor;
pub use laws::{lowest_form_by_divisor, lowest_terms_of_one_number, one_lowest_form};
pub use part::{Part, UNIT};
pub use quotients::whole_quotient;
pub use ratio::Ratio;
pub use read::{FractionFault, MOST_DIGITS, read_ratio};
pub use write::{NoMemory, write_ratio};
