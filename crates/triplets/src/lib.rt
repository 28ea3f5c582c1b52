// Coordinate triplets and pairs, and group texts of either: the grammar, readers that name the place and the kind of the
// first fault, and the writers of the one written form.
//
// Promises to the crates above: exactly the triplets and the texts of the grammar are read, each with its value;
// of any other the first bad line, the column at which no good line goes on, and what is wrong there. A text of triplets
// or of pairs says one thing: it has one listing, of generators exactly where line 1 is the heading, or one fault and no
// listing. It may come in pieces, cut anywhere. A motion has one written form, and where the grammar of triplets can say
// the motion, that form is read as the motion again.
//
//     let mut reader = LineReader::make(alloc); // of triplets; LineReader::pairs(alloc) of pairs
//     reader.feed(piece)?;
//     let listed = reader.finish()?;
#![tactic(auto)]

mod denominator;
mod display;
mod fault;
mod frieze;
mod group;
mod heading;
mod laws;
mod line;
mod marks;
mod notation;
mod pair;
mod part;
mod place;
mod text;
mod triplet;
mod write;

pub use fault::{TextFault, TextKind, TripletFault};
pub use frieze::{Frieze, write_frieze};
pub use group::{MOST_BYTES, read_group, read_pairs};
pub use laws::{
    kind_in_heading, limit_in_numbers, no_listing_and_fault, one_begun_row, one_fault, one_kept,
    one_listing, pairs_are_flat,
};
pub use notation::Notation;
pub use pair::{Pair, write_pair};
pub use text::LineReader;
pub use triplet::read_triplet;
pub use write::{NoMemory, Triplet, write_triplet};

#[cfg(test)]
mod heading_tests;
#[cfg(test)]
mod pair_tests;
#[cfg(test)]
mod tests;
