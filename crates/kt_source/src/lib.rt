//! A source as a file: the first three phases of the check, from bytes to trees. Below stand the lexer (kt_lex), the parser (kt_parse) and the
//! findings of kt_model; above, the check of a source. Its one public contract is that of `read_source`: the file that the source is, exactly where it
//! is one, else exactly the finding. The functions of `laws` say that a source has one file or one finding.
#![tactic(auto)]

mod fault;
pub mod laws;
mod reading;
#[cfg(test)]
mod tests;

pub use fault::SourceFault;
pub use reading::read_source;
