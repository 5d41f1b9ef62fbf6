//! The laws, called once.

use crate::{
    each_object_has_its_key, each_object_has_its_words, equal_memories_read_alike,
    names_are_never_given_again, other_objects_stay, pending_places_are_barred,
    ranges_fault_in_order,
};
use std::test::*;

#[test]
fn laws_are_called(_rt: HostRuntime) -> Result<(), Fail> {
    each_object_has_its_words();
    each_object_has_its_key();
    equal_memories_read_alike();
    names_are_never_given_again();
    other_objects_stay();
    ranges_fault_in_order();
    pending_places_are_barred();
    Ok(())
}
