// Printed text, and words of it laid in a lent byte slice: document 01, "Sheets worked through". Every function answers every input, as
// specs/Text.antt says: a text is laid as far as the slice reaches, and where that cuts it short, the position past the end that it gives
// leaves no room for the next.
#![tactic(auto)]

mod page;

pub use page::Page;
