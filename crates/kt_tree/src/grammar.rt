//! What the grammar speaks of: terminals, nonterminals and their productions, and the phrases that tokens are read as.
//! Which rows and productions there are is said by the definitions of this crate; the tables stand in the crate above.
//! The grammar is that of the Kotlin specification's "Syntax and grammar", narrowed to this project's profile.
mod built;
mod fault;
mod phrase;
mod production;
mod terminal;

pub use built::Built;
pub use fault::ParseFault;
pub use phrase::{Form, Phrase, State, Values};
pub use production::{First, Need, Nonterminal, OPEN, Production, Row, Step, Symbol};
pub use terminal::{Class, Terminal};
