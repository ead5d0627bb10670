//! The functions that state laws, and have no code.
use euler_laws::{names_are_an_equivalence, worked_names};

#[test]
fn what_has_no_code_is_called() {
    names_are_an_equivalence();
    worked_names();
}
