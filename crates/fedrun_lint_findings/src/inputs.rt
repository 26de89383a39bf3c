//! A refused file of recorded inputs: its keys, and then its inputs one by one.
use crate::draft::Draft;
use crate::form::INPUT_FILE;
use crate::keys::look_at_keys;
use crate::lists::{Entries, Kind, sift};
use crate::look::Look;
use crate::tree::Tree;

/// Finds what is wrong with recorded inputs.
pub(crate) fn look_at_inputs(look: &mut Look<'_>, is_theirs: bool) {
    look_at_keys(look, &INPUT_FILE, Tree::ROOT);
    let array = look.tree.child(Tree::ROOT, "input");
    if look.tree.is_array(array) {
        let entries = Entries::of(look, array);
        let mut file = Draft::new(look.alloc);
        file.push("input = [");
        let kind = if is_theirs { Kind::Other } else { Kind::Shape };
        sift(look, kind, &entries, &mut file, "]");
    }
}
