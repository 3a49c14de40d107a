//! What is done with a whole image: so far it is made.
#![tactic(auto)]

mod making;

pub use making::{MakeFault, make};
