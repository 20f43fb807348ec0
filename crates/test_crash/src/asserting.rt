//! Assertions on what is borrowed: written out in a function that holds owned values they are dear to
//! check.

use kmip_objects::KeyState;
use kmip_server::Records;
use std::process::Abort;

/// The records have exactly these names, each once, and each in this state.
pub fn assert_stand<S: Records>(
    rt: &impl Abort,
    records: &S,
    wanted: &[(&str, KeyState)],
    case: &str,
) {
    assert!(rt;
        records.count() == wanted.len(),
        "{case}: as many objects as keys"
    );
    for (name, state) in wanted {
        let mut found = 0usize;
        for place in 0..records.count() {
            let Some(row) = records.at(place) else {
                continue;
            };
            if row.attrs.name.as_str() == *name && row.state == *state {
                found = found.saturating_add(1);
            }
        }
        assert!(rt; found == 1, "{case}: {name} stands as the plan wants it");
    }
}
